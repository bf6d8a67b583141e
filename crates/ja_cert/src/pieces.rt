//! Lists, whose members are written one after another.

ghost use Rattle.std.specs.Prelude.{◌≡◌, ◌++◌, [], ◌∷◌, List, ℕ, OnOk, false, length};
ghost use lib.Chars.{codes};
ghost use Rattle.serde_json.specs.Data.{Data};
ghost use Rattle.serde_json.specs.View.{items_of, view};
ghost use Rattle.serde_json.specs.Written.{compact_text, has_float, items_text};
ghost use Rattle.ja_cert.specs.code.Writing.{with_commas};

use ja_base::Memory;
use serde_json::Value;
use std::alloc::Global;

/// Writes a value, which has no float.
pub(crate) fn push_value(text: &mut Vec<u8>, alloc: Global, value: Value) -> Result<(), Memory>
    requires { has_float (view value) ≡ false }
    ensures { OnOk result (text.new.items ≡ text.old.items ++ compact_text (view value)) }
{
    text.extend_from_slice(&value.to_vec(alloc)?)?;
    Ok(())
}

/// Writes a member of a list, and a comma behind it.
#[tactic(auto, using(crate::proofs::Commas::commas_one))]
pub(crate) fn push_member(text: &mut Vec<u8>, alloc: Global, value: Value) -> Result<(), Memory>
    requires { has_float (view value) ≡ false }
    ensures { OnOk result (text.new.items ≡ text.old.items ++ with_commas (view value ∷ [])) }
{
    push_value(text, alloc, value)?;
    text.push(b',')?;
    Ok(())
}

/// Ends a list whose members stand from `start` on, with a comma behind each.
pub(crate) fn close_list(text: &mut Vec<u8>, start: usize) -> Result<(), Memory>
    ensures { OnOk result ((base : List ℕ) (ds : List Data) → length base ≡ start
        → text.old.items ≡ base ++ with_commas ds
        → text.new.items ≡ base ++ items_text false (items_of ds)) }
{
    if text.len() > start {
        text.pop();
    }
    text.push(b']')?;
    Ok(())
}
