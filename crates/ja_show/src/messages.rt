//! Messages as lines that editors read.

ghost use Rattle.std.specs.Prelude.{◌≡◌, ◌++◌, IfOk, OnOk, map};
ghost use Rattle.std.specs.List.{flat_map};
ghost use Rattle.ja_files.specs.Files.{characters_of, name_of};
ghost use Rattle.ja_files.specs.Lines as lines_spec;
ghost use Rattle.ja_show.specs.Messages as spec;
ghost use Rattle.ja_show.specs.code.Kept.{lines_in, lists_in};

use crate::lines::push_excerpt;
use crate::message::{Level, Message};
use crate::names::{name_at, shown_names, texts_of};
use ja_base::Memory;
use ja_files::{File, Spot, lines_of};
use ja_texts::push_place;
use std::alloc::Global;

// The word of a level.
fn level_word(level: Level) -> &'static [u8]
    ensures { result.now ≡ spec.level_word level }
{
    match level {
        Level::Error => b"error",
        Level::Certain | Level::Possible => b"warning",
        Level::Note => b"note",
    }
}

// ---- spots

/// Where a message stands: at its spot, or at the first call.
pub fn standing(message: &Message) -> Option<Spot>
    ensures { result ≡ spec.standing message.now.spot message.now.calls }
{
    match message.spot {
        Some(spot) => Some(spot),
        None => message.calls.as_slice().first().copied(),
    }
}

/// The calls at which a message doesn't stand.
pub fn others<'a>(message: &'a Message) -> &'a [Spot]
    ensures { result.now ≡ spec.others message.now.spot message.now.calls }
{
    let calls = message.calls.as_slice();
    match message.spot {
        Some(_) => calls,
        None => &calls[1.min(calls.len())..],
    }
}

// Adds a spot.
#[tactic(auto, unfolding(crate::specs::Messages::spot_text))]
fn push_spot(out: &mut Vec<u8>, names: &[Vec<u8>], spot: Spot) -> Result<(), Memory>
    ensures { OnOk result (out.new.items ≡ out.old.items
        ++ spec.spot_text (lists_in names.now) spot) }
{
    out.extend_from_slice(name_at(names, spot.file))?;
    out.push(b':')?;
    push_place(out, spot.place)
}

// Adds where a message comes from.
fn push_origin(out: &mut Vec<u8>, names: &[Vec<u8>], spot: Option<Spot>) -> Result<(), Memory>
    ensures { OnOk result (out.new.items ≡ out.old.items ++ spec.origin (lists_in names.now) spot) }
{
    match spot {
        Some(spot) => push_spot(out, names, spot),
        None => {
            out.extend_from_slice(b"tajs-lint")?;
            Ok(())
        }
    }
}

// Adds a call that isn't the first one told.
fn push_next_call(out: &mut Vec<u8>, names: &[Vec<u8>], spot: Spot) -> Result<(), Memory>
    ensures { OnOk result (out.new.items ≡ out.old.items
        ++ spec.next_call (lists_in names.now) spot) }
{
    out.extend_from_slice(b", ")?;
    push_spot(out, names, spot)
}

// Adds the other calls.
#[tactic(auto, using(ja_texts::proofs::Rulesets::for_push_plain))]
fn push_next_calls(out: &mut Vec<u8>, names: &[Vec<u8>], calls: &[Spot]) -> Result<(), Memory>
    ensures { OnOk result (out.new.items ≡ out.old.items
        ++ flat_map (spec.next_call (lists_in names.now)) calls.now) }
{
    for spot in calls {
        push_next_call(out, names, *spot)?;
    }
    Ok(())
}

// Adds the calls at which a message doesn't stand.
fn push_calls(out: &mut Vec<u8>, names: &[Vec<u8>], calls: &[Spot]) -> Result<(), Memory>
    ensures { OnOk result (out.new.items ≡ out.old.items
        ++ spec.calls_text (lists_in names.now) calls.now) }
{
    let Some((first, rest)) = calls.split_first() else {
        return Ok(());
    };
    out.extend_from_slice(b", also called at ")?;
    push_spot(out, names, *first)?;
    push_next_calls(out, names, rest)?;
    Ok(())
}

// ---- messages

// Adds the line of a message.
#[tactic(auto, unfolding(crate::specs::Messages::heading))]
fn push_heading(out: &mut Vec<u8>, names: &[Vec<u8>], message: &Message) -> Result<(), Memory>
    ensures { OnOk result (out.new.items ≡ out.old.items
        ++ spec.heading (lists_in names.now) message.now) }
{
    push_origin(out, names, standing(message))?;
    out.extend_from_slice(b": ")?;
    out.extend_from_slice(level_word(message.level))?;
    out.extend_from_slice(b": ")?;
    out.extend_from_slice(message.text.as_slice())?;
    push_calls(out, names, others(message))?;
    out.push(b'\n')?;
    Ok(())
}

// Adds the line of the file where a message stands, with a caret.
fn push_excerpt_at(
    out: &mut Vec<u8>,
    sources: &[Vec<&[char]>],
    spot: Option<Spot>,
) -> Result<(), Memory>
    ensures { OnOk result (out.new.items ≡ out.old.items
        ++ spec.excerpt_at (map lines_in sources.now) spot) }
{
    let Some(spot) = spot else {
        return Ok(());
    };
    let Some(lines) = sources.get(spot.file as usize) else {
        return Ok(());
    };
    push_excerpt(out, lines, spot.place)
}

// Adds a message, with the line where it stands.
#[tactic(auto, unfolding(crate::specs::Messages::message_text))]
fn push_message(
    out: &mut Vec<u8>,
    names: &[Vec<u8>],
    sources: &[Vec<&[char]>],
    message: &Message,
) -> Result<(), Memory>
    ensures { OnOk result (out.new.items ≡ out.old.items
        ++ spec.message_text (lists_in names.now) (map lines_in sources.now) message.now) }
{
    push_heading(out, names, message)?;
    push_excerpt_at(out, sources, standing(message))
}

// Adds messages.
#[tactic(auto, using(ja_texts::proofs::Rulesets::for_push_plain))]
fn push_messages(
    out: &mut Vec<u8>,
    names: &[Vec<u8>],
    sources: &[Vec<&[char]>],
    messages: &[Message],
) -> Result<(), Memory>
    ensures { OnOk result (out.new.items ≡ out.old.items
        ++ flat_map (spec.message_text (lists_in names.now) (map lines_in sources.now))
        messages.now) }
{
    for message in messages {
        push_message(out, names, sources, message)?;
    }
    Ok(())
}

/// The lines of texts. `Memory` comes where memory was refused.
pub fn sources_of<'a>(alloc: Global, texts: &'a [Vec<char>]) -> Result<Vec<Vec<&'a [char]>>, Memory>
    ensures { IfOk result (λ sources. map lines_in sources.items
        ≡ map lines_spec.lines_of (lists_in texts.now)) }
{
    let mut sources = Vec::new(alloc);
    for text in texts {
        let lines = lines_of(alloc, text)?;
        sources.push(lines)?;
    }
    Ok(sources)
}

/// The messages about files. Each is on a line with the spot where it stands, `NAME:LINE:COLUMN`,
/// its level and its text, and below it is the line of the file with a caret. A message without a
/// spot stands at the first call that leads to what it is about, and tells of the others; without
/// calls it comes from the tool. A number past the files has an empty name and no line. Of a name
/// no control character is shown as it is. `Memory` comes where memory was refused.
pub fn messages_text(
    alloc: Global,
    files: &[File<'_>],
    messages: &[Message],
) -> Result<Vec<u8>, Memory>
    ensures { IfOk result (λ out. out.items ≡ spec.messages_text
        (map name_of files.now) (map characters_of files.now) messages.now) }
{
    let names = shown_names(alloc, files)?;
    let texts = texts_of(alloc, files)?;
    let sources = sources_of(alloc, &texts)?;
    let mut out = Vec::new(alloc);
    push_messages(&mut out, &names, &sources, messages)?;
    Ok(out)
}
