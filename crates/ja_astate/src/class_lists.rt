ghost use Rattle.std.specs.Prelude.{◌≡◌, IfOk};
ghost use Rattle.ja_graph.specs.WellFormed.{IsWellFormed};
ghost use Rattle.ja_graph.specs.declared.program.Program.{Program};
ghost use Rattle.ja_abstract.specs.declared.abstraction.TextPart.{TextPart};
ghost use Rattle.ja_abstract.specs.Keys as spec;
ghost use Rattle.ja_value.specs.Value.{value_of};
ghost use Rattle.ja_astate.specs.Keys.{AreWithTexts, of_parts};
ghost use Rattle.ja_astate.specs.code.Insertion.{class_of_number};
ghost use Rattle.ja_astate.specs.code.Lists.{IsTextClass, IsNumberClass};

use crate::lists::keys_of_class;
use ja_abstract::{Key, NumberPart, TextPart};
use ja_base::Memory;
use ja_graph::Program;
use ja_value::{AValue, copy_text_part, number_of_profile};
use std::alloc::Global;

/// The keys of a class of texts, alone and with each class of numbers.
#[derive(Drop)]
pub(crate) struct ClassLists {
    pub alone: Vec<Key>,
    /// Those of array indices too.
    pub indices: Vec<Key>,
    /// Those of whole numbers too that are no array indices.
    pub other_wholes: Vec<Key>,
    /// Those of all whole numbers too.
    pub wholes: Vec<Key>,
}

/// The texts of one part and the numbers of another.
fn of_parts(alloc: Global, text: &TextPart, number: NumberPart) -> Result<AValue, Memory>
    ensures { IfOk result (λ v. value_of v ≡ of_parts text.now number) }
{
    let mut value = AValue::of_text_part(alloc, copy_text_part(alloc, text)?);
    value.number = number_of_profile(number);
    Ok(value)
}

/// The keys of a class of texts and a class of numbers.
pub(crate) fn keys_of_classes(
    alloc: Global,
    program: &Program,
    text: &TextPart,
    number: NumberPart,
) -> Result<Vec<Key>, Memory>
    requires program { IsWellFormed program.now }
    requires text { IsTextClass text.now }
    requires number { IsNumberClass number }
    ensures { IfOk result (λ v. v.items
        ≡ spec.keys_of_value program.now (of_parts text.now number)) }
{
    let value = of_parts(alloc, text, number)?;
    keys_of_class(alloc, program, &value)
}

impl ClassLists {
    /// The keys of a class of texts.
    pub(crate) fn new(
        alloc: Global,
        program: &Program,
        text: &TextPart,
    ) -> Result<ClassLists, Memory>
        requires program { IsWellFormed program.now }
        requires text { IsTextClass text.now }
        ensures { IfOk result (AreWithTexts program.now text.now) }
    {
        Ok(ClassLists {
            alone: keys_of_classes(alloc, program, text, NumberPart::Nothing)?,
            indices: keys_of_classes(alloc, program, text, NumberPart::Index)?,
            other_wholes: keys_of_classes(alloc, program, text, NumberPart::OtherWhole)?,
            wholes: keys_of_classes(alloc, program, text, NumberPart::Whole)?,
        })
    }

    /// The keys with those of the class of some numbers.
    pub(crate) fn with(&self, number: NumberPart) -> &[Key]
        ensures { (p : Program) (t : TextPart) → AreWithTexts p t self.now → result.now
            ≡ spec.keys_of_value p (of_parts t (class_of_number number)) }
    {
        match number {
            NumberPart::Nothing | NumberPart::One(_) => &self.alone,
            NumberPart::Index => &self.indices,
            NumberPart::OtherWhole => &self.other_wholes,
            NumberPart::Whole => &self.wholes,
        }
    }
}
