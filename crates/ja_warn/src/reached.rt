ghost use Rattle.std.specs.Prelude.{◌≡◌, ◌<◌, ◌||◌, IfOk, [], ◌∷◌, is_some, vec_len};
ghost use Rattle.std.specs.List.{list_any};
ghost use Rattle.ja_abstract.specs.AbstractState.{labels_of};
ghost use Rattle.ja_abstract.specs.AbstractValue.{has_part, has_present_flag};
ghost use Rattle.ja_astate.specs.Looks.{view_of};
ghost use Rattle.ja_rows.specs.Out.{name_keys};
ghost use Rattle.ja_rows.specs.Warning as spec;
ghost use Rattle.ja_transfer.specs.code.Callees.{entry_by};
ghost use Rattle.ja_value.specs.Value.{labels_in, value_of};
ghost use Rattle.ja_warn.specs.code.Faults.{Says, SaysRow};

use ja_abstract::{Flags, Key, NumberPart, TextPart};
use ja_astate::{Looked, Reader};
use ja_base::{Label, Memory, NameId, Reg};
use ja_graph::Program;
use ja_rows::Warning;
use ja_transfer::{Entry, entry_at, some_without};
use ja_value::{AProp, AValue, LabelSet};

/// An operation that a table reaches, whether a state there allows it to go wrong, the value that
/// it is about, and that of its name. It is certain where none allows anything else.
#[derive(Drop)]
pub(crate) struct Reached {
    pub warning: Warning,
    pub fault: bool,
    pub value: AValue,
    pub name: AValue,
}

/// A warning, the value that the table says of what it is about, and the value of the name of that.
#[derive(Drop)]
pub struct Told {
    pub warning: Warning,
    pub value: AValue,
    pub name: AValue,
}

/// What a state allows: that an operation goes wrong, and anything else.
#[derive(Clone, Copy)]
pub(crate) struct Allowed {
    pub fault: bool,
    pub more: bool,
}

// ---- parts of values

/// Whether some flag is set.
pub(crate) fn has_flag(flags: Flags) -> bool
    ensures { result ≡ (flags.absent || flags.entry || has_present_flag flags) }
{
    flags.absent
        | flags.entry
        | flags.row
        | flags.undefined
        | flags.null
        | flags.is_true
        | flags.is_false
        | flags.nan
}

// Whether a value has some part, with these flags in the place of its own.
fn has_part_with(reader: &Reader<'_>, value: &AValue, flags: Flags) -> bool
    ensures { result ≡ has_part (labels_of reader.now.program.now)
        (record (value_of value.now) { flags = flags }) }
{
    has_flag(flags)
        | !matches!(value.number, NumberPart::Nothing)
        | !matches!(value.text, TextPart::Nothing)
        | value.has_labels(reader.sites)
}

// The key of a value that is one text, and nothing else.
fn one_key(reader: &Reader<'_>, value: &AValue) -> Option<Key>
    ensures { result ≡ spec.one_key (view_of reader.now) (value_of value.now) }
{
    let others = has_flag(value.flags)
        | !matches!(value.number, NumberPart::Nothing)
        | value.has_labels(reader.sites);
    if others {
        return None;
    }
    match &value.text {
        TextPart::One(text) => Some(reader.keys.text_key(text)),
        _ => None,
    }
}

// ---- calls and constructions

// Whether the objects of one of some labels run a function.
fn some_with(program: &Program, entry: Entry, labels: &[Label]) -> bool
    ensures { result ≡ list_any (λ l. is_some (entry_by entry program.now l)) labels.now }
{
    labels
        .iter()
        .any(|label| entry_at(program, entry, *label).is_some())
}

/// What a callee allows: what runs no function goes wrong.
pub(crate) fn no_function(reader: &Reader<'_>, entry: Entry, callee: Reg) -> Result<Allowed, Memory>
    requires { callee.0 < vec_len reader.now.state.now.registers }
    ensures { IfOk result (Says (spec.no_function (entry_by entry) callee) (view_of reader.now)) }
{
    let value = reader.state.register(callee);
    let labels = reader.labels(&value.labels)?;
    Ok(Allowed {
        fault: value.has_atoms() | some_without(reader.program, entry, &labels),
        more: some_with(reader.program, entry, &labels),
    })
}

// ---- objects of values

/// What a value that is converted to an object allows: undefined and null go wrong.
pub(crate) fn no_object(reader: &Reader<'_>, src: Reg) -> Allowed
    requires { src.0 < vec_len reader.now.state.now.registers }
    ensures { Says (spec.no_object src) (view_of reader.now) result }
{
    let value = reader.state.register(src);
    let others = Flags {
        undefined: false,
        null: false,
        ..value.flags
    };
    Allowed {
        fault: value.has_nullish(),
        more: has_part_with(reader, value, others),
    }
}

// ---- names and properties that are read

/// What the base of a name that is read allows: null goes wrong.
pub(crate) fn unbound(reader: &Reader<'_>, base: Reg) -> Allowed
    requires { base.0 < vec_len reader.now.state.now.registers }
    ensures { Says (spec.unbound base) (view_of reader.now) result }
{
    let value = reader.state.register(base);
    Allowed {
        fault: value.flags.null,
        more: value.has_labels(reader.sites),
    }
}

// What a reading at one key allows: a row goes wrong.
fn row(reader: &Reader<'_>, start: &LabelSet, key: Key) -> Result<Allowed, Memory>
    ensures { IfOk result (SaysRow (view_of reader.now) (labels_in start.now) (key ∷ [])) }
{
    let Looked {
        property,
        demands: _,
    } = reader.get(start, &[key])?;
    let AProp { value, attrs: _ } = property;
    let others = Flags {
        row: false,
        ..value.flags
    };
    Ok(Allowed {
        fault: value.flags.row,
        more: has_part_with(reader, &value, others),
    })
}

/// What the read of a name allows: a row goes wrong.
pub(crate) fn row_of_name(reader: &Reader<'_>, base: Reg, name: NameId) -> Result<Allowed, Memory>
    requires { base.0 < vec_len reader.now.state.now.registers }
    ensures { IfOk result (Says (spec.row_of_name base (name_keys name)) (view_of reader.now)) }
{
    let base = reader.state.register(base);
    let Allowed { fault, more } = row(reader, &base.labels, Key::Name(name))?;
    Ok(Allowed {
        fault,
        more: base.flags.null | more,
    })
}

/// What the read of a property allows: a row goes wrong, where its key is one text.
pub(crate) fn row_of_property(reader: &Reader<'_>, object: Reg, key: Reg) -> Result<Allowed, Memory>
    requires object { object.0 < vec_len reader.now.state.now.registers }
    requires key { key.0 < vec_len reader.now.state.now.registers }
    ensures { IfOk result (Says (spec.row_of_property object key) (view_of reader.now)) }
{
    let object = reader.state.register(object);
    match one_key(reader, reader.state.register(key)) {
        Some(key) => row(reader, &object.labels, key),
        None => Ok(Allowed {
            fault: false,
            more: true,
        }),
    }
}
