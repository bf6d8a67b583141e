//! The literals, and the names of properties, that tokens are (ES3 7.8, 11.1.5).

ghost use Rattle.std.specs.Prelude.{◌≡◌, IfOk};
ghost use Rattle.ja_grammar.specs.Input.{head};
ghost use Rattle.ja_grammar.specs.Forms as forms;

use crate::cursor::Cursor;
use ja_prim::{Num, Primitive};
use ja_syntax::{PropertyName, Symbol};
use std::alloc::{AllocError, Global};

/// The name of a property that the next token is (11.1.5): a word, a string or a number; else none.
#[tactic(auto, unfolding(ja_grammar::specs::Forms::property_name))]
pub fn property_name(alloc: Global, cursor: &Cursor<'_>) -> Result<Option<PropertyName>, AllocError>
    ensures { IfOk result (λ name. name ≡ forms.property_name (head cursor.now)) }
{
    match cursor.symbol() {
        Symbol::Name => Ok(Some(PropertyName::Word(cursor.shared_word(alloc)?))),
        Symbol::Text => Ok(Some(PropertyName::Text(cursor.shared_units(alloc)?))),
        Symbol::Number => Ok(Some(PropertyName::Number(cursor.number()))),
        _ => Ok(None),
    }
}

/// The value of the literal that the next token is (7.8); else none.
#[tactic(auto, unfolding(ja_grammar::specs::Forms::literal_of))]
pub fn literal_of(alloc: Global, cursor: &Cursor<'_>) -> Result<Option<Primitive>, AllocError>
    ensures { IfOk result (λ value. value ≡ forms.literal_of (head cursor.now)) }
{
    match cursor.symbol() {
        Symbol::Null => Ok(Some(Primitive::Null)),
        Symbol::True => Ok(Some(Primitive::Bool(true))),
        Symbol::False => Ok(Some(Primitive::Bool(false))),
        Symbol::Number => Ok(Some(Primitive::Number(Num::Whole(cursor.number())))),
        Symbol::Text => Ok(Some(Primitive::Text(cursor.shared_units(alloc)?))),
        _ => Ok(None),
    }
}
