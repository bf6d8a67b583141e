//! What is printed of values that no program has yet.

ghost use Rattle.std.specs.Prelude.{◌≡◌, ◌+◌, ◌<◌, ◌^◌, IfOk, IsTrue, OnOk, length};
ghost use Rattle.ja_graph.specs.WellFormed.{IsWellFormed};
ghost use Rattle.ja_abstract.specs.AbstractState.{is_key, is_label};
ghost use Rattle.ja_table.specs.Tables.{Fits, FitsContext};

use crate::out::{Out, add};
use ja_abstract::{AAttrs, Flags, Key, May, NumberPart, Slot, TextPart};
use ja_base::{Context, FnId, Label, Memory, NameId, NodeId, Place, Seq, Site};
use ja_graph::{Program, well_formed};
use ja_prim::{Int, Text16};
use ja_report::{Refusal, refusal_text, report, spent_text};
use ja_rows::{Edge, Item};
use ja_table::{ATable, ContextTable, opening};
use ja_value::{AProp, AValue, number_of_profile, text_of_profile};
use std::{mem, str};

/// Bytes, which are a text, in lines of their own.
fn put_bytes(out: &mut Out, bytes: &[u8]) {
    out.put("\n");
    out.put(str::from_utf8(bytes).unwrap_or("no text"));
}

const NO_FLAGS: Flags = Flags {
    absent: false,
    entry: false,
    row: false,
    undefined: false,
    null: false,
    is_true: false,
    is_false: false,
    nan: false,
};

/// ReadOnly is set, DontEnum is unset, and DontDelete is either.
const ATTRS: AAttrs = AAttrs {
    read_only: May {
        set: true,
        unset: false,
    },
    dont_enum: May {
        set: false,
        unset: true,
    },
    dont_delete: May {
        set: true,
        unset: true,
    },
};

/// As at entry, undefined, NaN, -5 and a text.
fn value(out: &Out) -> AValue {
    let mut value = AValue::of_flags(out.alloc, NO_FLAGS);
    value.flags.entry = true;
    value.flags.undefined = true;
    value.flags.nan = true;
    if let Some(number) = Int::new(-5) {
        value.number = number_of_profile(NumberPart::One(number));
    }
    if let Ok(text) = Text16::from_str(out.alloc, "a\"\\\u{e9}\n\u{ffff}") {
        value.text = text_of_profile(TextPart::One(text));
    }
    value
}

/// Gives an object a property at a key.
fn give(
    out: &Out,
    program: &Program,
    own: &mut ContextTable,
    label: Label,
    key: Key,
    property: AProp,
) -> Result<(), Memory>
    requires fits { FitsContext program.now own.old }
    requires label { IsTrue (is_label program.now label) }
    requires key { IsTrue (is_key program.now key) }
    ensures fits { OnOk result (FitsContext program.now own.new) }
    ensures context { own.new.context ≡ own.old.context }
{
    own.entries.set(out.alloc, label, key, property)
}

/// A property of a value.
fn property(value: AValue) -> AProp {
    AProp {
        value,
        attrs: ATTRS,
    }
}

/// A property of no part.
fn none(out: &Out) -> AProp {
    property(AValue::of_flags(out.alloc, NO_FLAGS))
}

/// Gives a context's receiver values at three names from the first on, and at two other keys.
fn give_all(out: &Out, program: &Program, own: &mut ContextTable, first: u32) -> Result<(), Memory>
    requires fits { FitsContext program.now own.old }
    requires names { first + 2 < length program.now.names }
    requires few { first + 2 < 2 ^ 32 }
    ensures fits { OnOk result (FitsContext program.now own.new) }
    ensures context { OnOk result (own.new.context ≡ own.old.context) }
{
    let label = own.context.receiver;
    let known = property(value(out));
    give(out, program, own, label, Key::Name(NameId(first)), known)?;
    let none_at = Key::Name(NameId(first + 1));
    give(out, program, own, label, none_at, none(out))?;
    let none_at = Key::Name(NameId(first + 2));
    give(out, program, own, label, none_at, none(out))?;
    let none_at = Key::OtherIndex;
    give(out, program, own, label, none_at, none(out))?;
    let none_at = Key::Slot(Slot::Outer);
    give(out, program, own, label, none_at, none(out))?;
    Ok(())
}

/// A table with values at three names from the first on, and at two other keys.
fn table_of(out: &Out, program: &Program, first: u32) -> Result<ATable, Memory>
    requires program { IsWellFormed program.now }
    requires names { first + 2 < length program.now.names }
    requires few { first + 2 < 2 ^ 32 }
    ensures { IfOk result (Fits program.now) }
{
    let mut table = opening(out.alloc, program)?;
    give_all(out, program, &mut table.contexts[0], first)?;
    Ok(table)
}

/// Gives a program the names `x1`, `1x` and `x-1` behind its own.
fn add_names(out: &Out, program: &mut Program) {
    let mut names = mem::replace(&mut program.names, Seq::new(out.alloc)).into_vec();
    for name in ["x1", "1x", "x-1"] {
        if let Ok(name) = Text16::from_str(out.alloc, name) {
            add(&mut names, name);
        }
    }
    program.names = Seq::from_vec(names);
}

/// The report of a table with values at the last three names.
fn put_report(out: &mut Out, program: &Program)
    requires { IsWellFormed program.now }
{
    if let Ok(names) = u32::try_from(program.names.len()) {
        if names >= 3 {
            if let Ok(table) = table_of(out, program, names - 3) {
                if let Ok(text) = report(out.alloc, program, &table, &[], true, &[]) {
                    put_bytes(out, text.as_slice());
                }
            }
        }
    }
}

/// A context of the program's own function.
fn context(site: u32, old: bool) -> Context {
    Context {
        function: FnId(0),
        receiver: Label {
            site: Site(site),
            old,
        },
    }
}

/// The step of a node.
fn step(site: u32, old: bool, node: u32) -> Item {
    Item::Step {
        context: context(site, old),
        node: NodeId(node),
    }
}

/// The visits of a spent budget.
fn put_spent(out: &mut Out, program: &Program) {
    let edge = Edge {
        caller: context(0, false),
        node: NodeId(17),
        callee: Context {
            function: FnId(43),
            ..context(99, true)
        },
    };
    let visits = [
        Item::Open,
        step(0, false, 3),
        step(99, true, 17),
        Item::Fill(edge),
        Item::Back(edge),
    ];
    if let Ok(text) = spent_text(out.alloc, program, &visits) {
        put_bytes(out, text.as_slice());
    }
}

/// A refusal.
fn put_refusal(out: &mut Out) {
    let place = Place {
        line: 12,
        column: 3,
    };
    if let Ok(text) = refusal_text(out.alloc, Refusal::Syntax { place }) {
        put_bytes(out, text.as_slice());
    }
}

/// The reports of a program, and a refusal.
pub fn put_reports(out: &mut Out, program: &mut Program) {
    put_spent(out, program);
    add_names(out, program);
    if well_formed(program) {
        put_report(out, program);
    }
    put_refusal(out);
}
