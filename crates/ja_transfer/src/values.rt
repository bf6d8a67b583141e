//! The operators on abstract values (ES3 9, 11.4, 11.5 to 11.10): those on primitives, and what
//! they come to on objects (Jensen, Møller and Thiemann, SAS 2009).

ghost use Rattle.std.specs.Prelude.{◌≡◌, ◌≤◌, ◌&&◌, ◌||◌, not, IfOk, length};
ghost use Rattle.std.specs.List.{list_any};
ghost use Rattle.ja_prim.specs.Texts.{max_units};
ghost use Rattle.ja_abstract.specs.AbstractValue.{same_label, join, has_number, has_text};
ghost use Rattle.ja_abstract.specs.Primitives.{of_bools};
ghost use Rattle.ja_abstract.specs.Values as spec;
ghost use Rattle.ja_value.specs.Value.{value_of};

use crate::sites::{some_function, some_other};
use crate::stepper::Stepper;
use ja_absprim as primitives;
use ja_absprim::{finished, neg, not, to_bool, to_num, to_text};
use ja_abstract::{NumberPart, TextPart};
use ja_base::{Label, Memory};
use ja_graph::{BinaryOp, UnaryOp};
use ja_prim::{Text16, push_ascii};
use ja_value::AValue;
use std::alloc::Global;

// ---- parts

/// Whether a number is there.
fn has_number(part: NumberPart) -> bool
    ensures { result ≡ has_number part }
{
    !matches!(part, NumberPart::Nothing)
}

/// Whether a text is there.
fn has_text(part: &TextPart) -> bool
    ensures { result ≡ has_text part.now }
{
    !matches!(part, TextPart::Nothing)
}

/// A value joined with another one, if there is reason for it.
pub(crate) fn join_if(
    alloc: Global,
    is_joined: bool,
    first: AValue,
    other: AValue,
) -> Result<AValue, Memory>
    ensures { IfOk result (λ v. value_of v
        ≡ join (spec.value_if is_joined (value_of first)) (value_of other)) }
{
    if !is_joined {
        return Ok(other);
    }
    let mut joined = first;
    joined.join(alloc, &other)?;
    Ok(joined)
}

/// A text of ASCII characters, if there is reason for it, joined with a value.
fn join_text(alloc: Global, is_joined: bool, text: &[u8], other: AValue) -> Result<AValue, Memory>
    requires { length text.now ≤ max_units }
    ensures { IfOk result (λ v. value_of v
        ≡ join (spec.text_if is_joined text.now) (value_of other)) }
{
    if !is_joined {
        return Ok(other);
    }
    let mut units = Vec::new(alloc);
    push_ascii(&mut units, text)?;
    let mut joined = AValue::of_text(alloc, Text16::from_units(alloc, units)?);
    joined.join(alloc, &other)?;
    Ok(joined)
}

// ---- of one value

/// The opposite truth values.
fn turned(alloc: Global, value: &AValue) -> AValue
    ensures { value_of result ≡ spec.turned (value_of value.now) }
{
    AValue::of_bools(alloc, value.flags.is_false, value.flags.is_true)
}

impl Stepper<'_> {
    ghost use Rattle.ja_transfer.specs.Outcomes.{at_view};

    /// The truth values of a value: each object is true (9.2).
    fn truth(&self, value: &AValue) -> Result<AValue, Memory>
        ensures { IfOk result (λ v. value_of v
            ≡ spec.truth (at_view self.now) (value_of value.now)) }
    {
        let alloc = self.reader.alloc;
        let primitives = to_bool(alloc, value)?.into_value();
        join_if(
            alloc,
            value.has_labels(self.reader.sites),
            AValue::of_bools(alloc, true, false),
            primitives,
        )
    }

    /// The texts of the types of a value (11.4.3).
    fn type_of(&self, value: &AValue) -> Result<AValue, Memory>
        ensures { IfOk result (λ v. value_of v
            ≡ spec.type_of (at_view self.now) (value_of value.now)) }
    {
        let alloc = self.reader.alloc;
        let flags = value.flags;
        let labels = self.reader.labels(&value.labels)?;
        let is_function = some_function(self.reader.program, &labels);
        let is_other = some_other(self.reader.program, &labels);
        let is_boolean = flags.is_true | flags.is_false;
        let is_number = flags.nan | has_number(value.number);
        let types = join_text(alloc, is_other, b"object", AValue::empty(alloc))?;
        let types = join_text(alloc, is_function, b"function", types)?;
        let types = join_text(alloc, has_text(&value.text), b"string", types)?;
        let types = join_text(alloc, is_number, b"number", types)?;
        let types = join_text(alloc, is_boolean, b"boolean", types)?;
        let types = join_text(alloc, flags.null, b"object", types)?;
        join_text(alloc, flags.undefined, b"undefined", types)
    }

    /// An operator on one value (11.4).
    pub(crate) fn unary_value(&self, op: UnaryOp, value: &AValue) -> Result<AValue, Memory>
        ensures { IfOk result (λ v. value_of v
            ≡ spec.unary (at_view self.now) op (value_of value.now)) }
    {
        let alloc = self.reader.alloc;
        match op {
            UnaryOp::ToNum => Ok(to_num(alloc, value)?.into_value()),
            UnaryOp::ToText => Ok(to_text(alloc, value)?.into_value()),
            UnaryOp::Neg => Ok(neg(alloc, value)?.into_value()),
            UnaryOp::BitNot => Ok(not(alloc, value)?.into_value()),
            UnaryOp::ToBool => self.truth(value),
            UnaryOp::Not => {
                let truth = self.truth(value)?;
                Ok(turned(alloc, &truth))
            }
            UnaryOp::TypeOf => self.type_of(value),
        }
    }
}

// ---- of two values

/// Whether an operator is an equality.
fn is_equality(op: BinaryOp) -> bool
    ensures { result ≡ spec.is_equality op }
{
    matches!(
        op,
        BinaryOp::LooseEq | BinaryOp::LooseNe | BinaryOp::StrictEq | BinaryOp::StrictNe
    )
}

/// Whether two labels are the same.
fn same_label(a: Label, b: Label) -> bool
    ensures { result ≡ same_label a b }
{
    a.site.0 == b.site.0 && a.old == b.old
}

/// Whether an object of a label may be another one than one of some labels.
fn differs(label: Label, others: &[Label]) -> bool
    ensures { result ≡ list_any (λ m. label.old || not (same_label label m)) others.now }
{
    others
        .iter()
        .any(|other| label.old || !same_label(label, *other))
}

/// Whether an object of some labels may be another one than one of others.
fn some_differ(labels: &[Label], others: &[Label]) -> bool
    ensures { result ≡ list_any
        (λ l. list_any (λ m. l.old || not (same_label l m)) others.now) labels.now }
{
    labels.iter().any(|label| differs(*label, others))
}

impl Stepper<'_> {
    ghost use Rattle.ja_transfer.specs.Outcomes.{at_view};

    /// Whether two values may be one object.
    fn may_equal(&self, a: &AValue, b: &AValue) -> bool
        ensures { result ≡ spec.may_equal (at_view self.now) (value_of a.now) (value_of b.now) }
    {
        a.labels.intersects(&b.labels, self.reader.sites)
    }

    /// Whether two values, one of them an object, may not be the same.
    fn may_differ(&self, a: &AValue, b: &AValue) -> Result<bool, Memory>
        ensures { IfOk result (λ d. d
            ≡ spec.may_differ (at_view self.now) (value_of a.now) (value_of b.now)) }
    {
        let sites = self.reader.sites;
        let labels = self.reader.labels(&a.labels)?;
        let others = self.reader.labels(&b.labels)?;
        let differ = some_differ(&labels, &others);
        Ok(differ | ((a.has_labels(sites) & b.has_atoms()) | (a.has_atoms() & b.has_labels(sites))))
    }

    /// What an equality may say of objects.
    fn of_objects(&self, op: BinaryOp, a: &AValue, b: &AValue) -> Result<AValue, Memory>
        ensures { IfOk result (λ v. value_of v ≡ spec.value_if (spec.is_equality op)
            (of_bools (spec.may_equal (at_view self.now) (value_of a.now) (value_of b.now))
            (spec.may_differ (at_view self.now) (value_of a.now) (value_of b.now)))) }
    {
        let alloc = self.reader.alloc;
        if !is_equality(op) {
            return Ok(AValue::empty(alloc));
        }
        let may_differ = self.may_differ(a, b)?;
        Ok(AValue::of_bools(alloc, self.may_equal(a, b), may_differ))
    }

    /// An operator on two values (11.5 to 11.10).
    pub(crate) fn binary_value(
        &self,
        op: BinaryOp,
        a: &AValue,
        b: &AValue,
    ) -> Result<AValue, Memory>
        ensures { IfOk result (λ v. value_of v
            ≡ spec.binary (at_view self.now) op (value_of a.now) (value_of b.now)) }
    {
        let alloc = self.reader.alloc;
        let mut value = self.of_objects(op, a, b)?;
        let primitives = primitives::binary(alloc, op, a, b)?.into_value();
        value.join(alloc, &primitives)?;
        Ok(finished(alloc, op, value))
    }
}
