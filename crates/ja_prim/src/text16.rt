ghost use Rattle.std.specs.Prelude.{◌≡◌, ◌++◌, ◌≤◌, IfOk, OnOk, length};
ghost use Rattle.std.specs.Char.Escape.{encode_utf16};
ghost use Rattle.std.specs.List.{flat_map};
ghost use Rattle.std.specs.Str.{chars};
ghost use Rattle.ja_prim.specs.TextToNumber.{text_to_number};
ghost use Rattle.ja_prim.specs.Texts.{limited_text, max_units};
ghost use Rattle.ja_prim.specs.code.Texts.{utf16, Answers};

use crate::ascii::ascii_units;
use crate::literals::text_to_number;
use crate::{Num, PrimFault, Stop};
use std::alloc::{AllocError, AllocFailed, Global};
use std::marker::Model;
use std::rc::Rc;

/// The most units that a text of the profile may have.
pub const MAX_UNITS: usize = 1_048_576;

/// A text of at most 1,048,576 units of 16 bits. Contracts see the list of units. Copies share
/// their units.
#[derive(Drop)]
pub struct Text16 {
    units: Rc<Vec<u16>>,
}

impl Model for Text16 {
    ghost use Rattle.std.specs.Prelude.{ℕ, List, length, ◌≤◌};
    ghost use Rattle.ja_prim.specs.Texts.{max_units};

    ghost Value = { List ℕ };

    ghost view = { λ t. t.units.value.items };

    ghost invariant = { λ t. length t.units.value.items ≤ max_units };
}

impl Text16 {
    /// The text of these units, in the vector's own memory. It fails where memory is refused.
    pub fn from_units(alloc: Global, units: Vec<u16>) -> Result<Text16, AllocError>
        requires { length units.items ≤ max_units }
        ensures { IfOk result (λ text. text ≡ units.items) }
    {
        Ok(Text16 {
            units: Rc::new(alloc, units)?,
        })
    }

    /// The text of these units, in memory of its own. It fails where memory is refused.
    pub fn from_slice(alloc: Global, units: &[u16]) -> Result<Text16, AllocError>
        requires { length units.now ≤ max_units }
        ensures { IfOk result (λ text. text ≡ units.now) }
    {
        Text16::from_units(alloc, Vec::from_slice(alloc, units)?)
    }

    /// The text with a unit for each byte. It fails where memory is refused.
    pub fn from_ascii(alloc: Global, bytes: &[u8]) -> Result<Text16, AllocError>
        requires { length bytes.now ≤ max_units }
        ensures { IfOk result (λ text. text ≡ bytes.now) }
    {
        Text16::from_units(alloc, ascii_units(alloc, bytes)?)
    }

    /// The UTF-16 units of a text. `TextLength` comes exactly where there are more than 1,048,576,
    /// and `Memory` where memory is refused.
    pub fn from_str(alloc: Global, text: &str) -> Result<Text16, PrimFault>
        ensures { Answers (limited_text (utf16 text.now)) result }
    {
        let characters = characters_of(alloc, text)?;
        let units = units_of(alloc, &characters)?;
        limited(alloc, units)
    }

    /// The number that the text says (ES3 9.3.1).
    pub(crate) fn number(&self) -> Result<Num, Stop>
        ensures { result ≡ text_to_number self.now }
    {
        text_to_number(&self.units)
    }

    /// The same text, which shares its units. It takes no memory, and fails where 2^64 - 1 texts
    /// share them.
    pub fn copy(&self) -> Result<Text16, AllocError>
        ensures { IfOk result (λ text. text ≡ self.now) }
    {
        Ok(Text16 {
            units: self.units.clone()?,
        })
    }

    /// The units.
    pub fn units(&self) -> &[u16]
        ensures value { result.now ≡ self.now }
        ensures within { length result.now ≤ max_units }
    {
        &self.units
    }
}

/// The text of these units. `TextLength` comes exactly where there are more than 1,048,576, and
/// `Memory` where memory is refused.
pub fn limited(alloc: Global, units: Vec<u16>) -> Result<Text16, PrimFault>
    ensures { Answers (limited_text units.items) result }
{
    if units.len() > MAX_UNITS {
        return Err(PrimFault::Stop(Stop::TextLength));
    }
    Ok(Text16::from_units(alloc, units)?)
}

/// The characters of a text.
#[tactic(auto, using(std::proofs::lemmas::Str::chars_from_encodes))]
fn characters_of(alloc: Global, text: &str) -> Result<Vec<char>, AllocError>
    ensures { IfOk result (λ characters. characters.items ≡ chars text.now) }
{
    let characters: Vec<char> = text.chars().collect(alloc)?;
    Ok(characters)
}

/// Appends the UTF-16 units of a character.
pub fn push_character(units: &mut Vec<u16>, c: char) -> Result<(), AllocFailed<u16>>
    ensures { OnOk result (units.new.items ≡ units.old.items ++ encode_utf16 c) }
{
    let code = u32::from(c);
    if code < 0x1_0000 {
        units.push(code as u16)?;
    } else {
        let over = code - 0x1_0000;
        units.push((0xD800 + over / 0x400) as u16)?;
        units.push((0xDC00 + over % 0x400) as u16)?;
    }
    Ok(())
}

/// The UTF-16 units of characters.
pub fn units_of(alloc: Global, characters: &[char]) -> Result<Vec<u16>, AllocFailed<u16>>
    ensures { IfOk result (λ units. units.items ≡ flat_map encode_utf16 characters.now) }
{
    let mut units = Vec::new(alloc);
    'characters: for c in characters {
        push_character(&mut units, *c)?;
    }
    Ok(units)
}
