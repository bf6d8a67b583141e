ghost use Rattle.std.specs.Prelude.{◌≡◌, ◌++◌, IfOk, OnOk, decimal};
ghost use lib.Chars.{codes};
ghost use Rattle.ja_texts.specs.Texts.{place_text, scope_name};

use ja_base::{Memory, Place, ScopeKind};
use ja_texts::{push_number, push_place, scope_name};
use std::alloc::Global;

/// Why there is no answer.
#[derive(Clone, Copy, Debug, PartialEq, Eq)]
pub enum Refusal {
    /// The words are none that the program takes.
    Usage,
    /// The input failed.
    ReadFault,
    /// The input has more than 16,777,216 bytes.
    TooLong,
    /// The bytes are no text: at this offset begins no character.
    NotText { offset: usize },
    /// The text has a token, at this place, with which no program goes on.
    Syntax { place: Place },
    /// The text leaves the profile with the token at this place.
    Scope { kind: ScopeKind, place: Place },
    /// The text nests more than 200 levels deep.
    Depth,
    /// The text has more than 4,096 functions, the program among them.
    Functions,
    /// The text's functions have more than 65,536 nodes, each parameter of a function counted as
    /// one more.
    Nodes,
}

ghost use Rattle.ja_report.specs.Refusals.{refusal_text};

/// Adds bytes.
pub(crate) fn push_bytes(text: &mut Vec<u8>, bytes: &[u8]) -> Result<(), Memory>
    ensures { OnOk result (text.new.items ≡ text.old.items ++ bytes.now) }
{
    text.extend_from_slice(bytes)?;
    Ok(())
}

/// Adds a line that ends with an offset.
fn push_offset(text: &mut Vec<u8>, words: &[u8], offset: usize) -> Result<(), Memory>
    ensures { OnOk result (text.new.items ≡ text.old.items ++ words.now ++ decimal offset
        ++ codes "\n") }
{
    text.extend_from_slice(words)?;
    push_number(text, offset as u64)?;
    text.push(b'\n')?;
    Ok(())
}

/// Adds a line that ends with a place.
fn push_line(text: &mut Vec<u8>, words: &[u8], place: Place) -> Result<(), Memory>
    ensures { OnOk result (text.new.items ≡ text.old.items ++ words.now ++ place_text place
        ++ codes "\n") }
{
    text.extend_from_slice(words)?;
    push_place(text, place)?;
    text.push(b'\n')?;
    Ok(())
}

/// Adds the line of a text that leaves the profile.
fn push_scope(text: &mut Vec<u8>, kind: ScopeKind, place: Place) -> Result<(), Memory>
    ensures { OnOk result (text.new.items ≡ text.old.items ++ codes "scope " ++ scope_name kind
        ++ codes " " ++ place_text place ++ codes "\n") }
{
    text.extend_from_slice(b"scope ")?;
    text.extend_from_slice(scope_name(kind))?;
    push_line(text, b" ", place)
}

/// Adds the line of a refusal.
pub(crate) fn push_refusal(text: &mut Vec<u8>, refusal: Refusal) -> Result<(), Memory>
    ensures { OnOk result (text.new.items ≡ text.old.items ++ refusal_text refusal) }
{
    match refusal {
        Refusal::Usage => push_bytes(
            text,
            b"usage: tajs analyse [--cert] [--budget N] | check | run [--steps N] | generate --number N\n",
        ),
        Refusal::ReadFault => push_bytes(text, b"read fault\n"),
        Refusal::TooLong => push_bytes(text, b"too long 16777216\n"),
        Refusal::NotText { offset } => push_offset(text, b"not text ", offset),
        Refusal::Syntax { place } => push_line(text, b"syntax ", place),
        Refusal::Scope { kind, place } => push_scope(text, kind, place),
        Refusal::Depth => push_bytes(text, b"limit depth 200\n"),
        Refusal::Functions => push_bytes(text, b"limit functions 4096\n"),
        Refusal::Nodes => push_bytes(text, b"limit nodes 65536\n"),
    }
}

/// The line of a refusal.
pub fn refusal_text(alloc: Global, refusal: Refusal) -> Result<Vec<u8>, Memory>
    ensures { IfOk result (λ text. text.items ≡ refusal_text refusal) }
{
    let mut text = Vec::new(alloc);
    push_refusal(&mut text, refusal)?;
    Ok(text)
}
