ghost use Rattle.std.specs.Prelude.{◌≡◌, ◌<◌, ◌+◌, IfOk, length};
ghost use lib.Chars.{codes};
ghost use Rattle.ja_graph.specs.WellFormed.{IsWellFormed};
ghost use Rattle.ja_abstract.specs.Keys as spec;
ghost use Rattle.ja_astate.specs.Keys.{IsKeysOf, HasNames};
ghost use Rattle.ja_astate.specs.code.Names.{HasFirst};

use crate::class_lists::{ClassLists, keys_of_classes};
use crate::lookup::key_in;
use ja_abstract::{Key, NumberPart, TextPart};
use ja_base::{Memory, NameId};
use ja_graph::Program;
use ja_prim::Text16;
use std::alloc::Global;
use std::collections::HashMap;

/// The names of a program by their texts, and the keys of each class of texts and numbers.
#[derive(Drop)]
pub struct ProgramKeys {
    pub(crate) names: HashMap<Text16, NameId>,
    /// The key of the text of NaN.
    pub(crate) nan: Key,
    /// The keys of all texts.
    pub(crate) texts: Vec<Key>,
    /// Those of numbers.
    pub(crate) numbers: ClassLists,
    /// Those of array indices as texts.
    pub(crate) index_texts: ClassLists,
    /// Those of all other texts.
    pub(crate) other_texts: ClassLists,
}

/// Adds the name of a number.
fn add_name(
    names: &mut HashMap<Text16, NameId>,
    program: &Program,
    number: usize,
) -> Result<(), Memory>
    requires program { IsWellFormed program.now }
    requires number { number < length program.now.names }
    ensures { IfOk result (λ _. HasFirst program.now number names.old
        → HasFirst program.now (number + 1) names.new) }
{
    let name = NameId(number as u32);
    let text = program.name(name).copy()?;
    names.insert(text, name)?;
    Ok(())
}

/// The names of a program by their texts.
fn names_of(alloc: Global, program: &Program) -> Result<HashMap<Text16, NameId>, Memory>
    requires { IsWellFormed program.now }
    ensures { IfOk result (HasNames program.now) }
{
    let mut names = HashMap::new(alloc);
    for number in 0..program.names.len() {
        add_name(&mut names, program, number)?;
    }
    Ok(names)
}

/// The keys of all texts, in the program's order.
fn all_texts(alloc: Global, program: &Program) -> Result<Vec<Key>, Memory>
    requires { IsWellFormed program.now }
    ensures { IfOk result (λ v. v.items ≡ spec.text_keys program.now) }
{
    keys_of_classes(alloc, program, &TextPart::Text, NumberPart::Nothing)
}

impl ProgramKeys {
    /// The names and the keys of a program.
    pub fn new(alloc: Global, program: &Program) -> Result<ProgramKeys, Memory>
        requires { IsWellFormed program.now }
        ensures { IfOk result (IsKeysOf program.now) }
    {
        let names = names_of(alloc, program)?;
        let nan = Text16::from_ascii(alloc, b"NaN")?;
        Ok(ProgramKeys {
            nan: key_in(&names, &nan),
            names,
            texts: all_texts(alloc, program)?,
            numbers: ClassLists::new(alloc, program, &TextPart::Nothing)?,
            index_texts: ClassLists::new(alloc, program, &TextPart::IndexText)?,
            other_texts: ClassLists::new(alloc, program, &TextPart::OtherText)?,
        })
    }
}
