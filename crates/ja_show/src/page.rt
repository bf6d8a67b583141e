//! The page of files in which what messages are about is marked.

ghost use Rattle.std.specs.Prelude.{◌≡◌, ◌+◌, ◌<◌, ◌≤◌, ◌^◌, ◌++◌, IfOk, OnOk, false, codes};
ghost use Rattle.std.specs.Prelude.{[], ◌==◌, if◌then◌else◌, drop, length, map};
ghost use Rattle.std.specs.List.{flat_map, take_while, AllByRecursion};
ghost use Rattle.ja_files.specs.Files.{bytes_of, characters_of, joined_text, name_of, spot_at};
ghost use Rattle.ja_lex.specs.Spots.{max_bytes, place_at};
ghost use Rattle.ja_prim.specs.Characters as characters;
ghost use Rattle.ja_show.specs.Lines as lines;
ghost use Rattle.ja_show.specs.Page as spec;
ghost use Rattle.ja_show.specs.Page.{AreLinksOrdered, AreMessagesOrdered};
ghost use Rattle.ja_show.specs.code.Kept.{lists_in};
ghost use Rattle.ja_show.specs.code.Walk as code;

use crate::lines::shown;
use crate::message::{Level, Link, Message};
use crate::messages::{others, standing};
use crate::names::{name_at, shown_names, texts_of};
use crate::style::{HEAD, STYLE};
use ja_base::{Memory, Place};
use ja_files::{File, Spot, ends_line};
use ja_texts::{push_number, push_place};
use std::alloc::Global;

// ---- parts

// Adds a byte as HTML.
fn push_escaped_byte(out: &mut Vec<u8>, byte: u8) -> Result<(), Memory>
    ensures { OnOk result (out.new.items ≡ out.old.items ++ spec.escaped_byte byte) }
{
    match byte {
        b'&' => out.extend_from_slice(b"&amp;")?,
        b'<' => out.extend_from_slice(b"&lt;")?,
        b'>' => out.extend_from_slice(b"&gt;")?,
        b'"' => out.extend_from_slice(b"&quot;")?,
        _ => out.push(byte)?,
    }
    Ok(())
}

// Adds bytes as HTML.
#[tactic(auto, using(ja_texts::proofs::Rulesets::for_push_plain), unfolding(crate::specs::Page::escaped))]
fn push_escaped(out: &mut Vec<u8>, bytes: &[u8]) -> Result<(), Memory>
    ensures { OnOk result (out.new.items ≡ out.old.items ++ spec.escaped bytes.now) }
{
    for byte in bytes {
        push_escaped_byte(out, *byte)?;
    }
    Ok(())
}

// Adds the name of a line of a file.
fn push_line_name(out: &mut Vec<u8>, file: u32, line: u32) -> Result<(), Memory>
    ensures { OnOk result (out.new.items ≡ out.old.items ++ spec.line_name file line) }
{
    out.push(b'F')?;
    push_number(out, u64::from(file))?;
    out.push(b'L')?;
    push_number(out, u64::from(line))
}

// Adds the beginning of a link to the line of a spot.
#[tactic(auto, unfolding(crate::specs::Page::link_start))]
fn push_link_start(out: &mut Vec<u8>, spot: Spot) -> Result<(), Memory>
    ensures { OnOk result (out.new.items ≡ out.old.items ++ spec.link_start spot) }
{
    out.extend_from_slice(b"<a href=\"#")?;
    push_line_name(out, spot.file, spot.place.line)?;
    out.extend_from_slice(b"\">")?;
    Ok(())
}

// Adds the name of a file in front of a place.
fn push_file_text(out: &mut Vec<u8>, names: &[Vec<u8>], file: u32) -> Result<(), Memory>
    ensures { OnOk result (out.new.items ≡ out.old.items
        ++ spec.file_text (lists_in names.now) file) }
{
    push_escaped(out, name_at(names, file))?;
    out.push(b':')?;
    Ok(())
}

// Adds a link to the line of a spot.
#[tactic(auto, unfolding(crate::specs::Page::spot_link))]
fn push_link(out: &mut Vec<u8>, names: &[Vec<u8>], spot: Spot) -> Result<(), Memory>
    ensures { OnOk result (out.new.items ≡ out.old.items
        ++ spec.spot_link (lists_in names.now) spot) }
{
    push_link_start(out, spot)?;
    push_file_text(out, names, spot.file)?;
    push_place(out, spot.place)?;
    out.extend_from_slice(b"</a>")?;
    Ok(())
}

// Adds the name of a file in front of a place, unless it is another one's.
fn push_other_file(out: &mut Vec<u8>, names: &[Vec<u8>], file: u32, own: u32) -> Result<(), Memory>
    ensures { OnOk result (out.new.items ≡ out.old.items
        ++ (if file == own then [] else spec.file_text (lists_in names.now) file)) }
{
    if file != own {
        push_file_text(out, names, file)?;
    }
    Ok(())
}

// Adds a call.
#[tactic(auto, unfolding(crate::specs::Page::call_link))]
fn push_call_link(out: &mut Vec<u8>, names: &[Vec<u8>], link: Link) -> Result<(), Memory>
    ensures { OnOk result (out.new.items ≡ out.old.items
        ++ spec.call_link (lists_in names.now) link) }
{
    push_link_start(out, link.to)?;
    push_other_file(out, names, link.to.file, link.from.file)?;
    push_place(out, link.to.place)?;
    out.extend_from_slice(b"</a>")?;
    Ok(())
}

// Adds a call that isn't the first one at its place.
fn push_next_link(out: &mut Vec<u8>, names: &[Vec<u8>], link: Link) -> Result<(), Memory>
    ensures { OnOk result (out.new.items ≡ out.old.items
        ++ spec.next_link (lists_in names.now) link) }
{
    out.push(b' ')?;
    push_call_link(out, names, link)
}

// Adds what else is called at a place.
#[tactic(auto, using(ja_texts::proofs::Rulesets::for_push_plain))]
fn push_next_links(out: &mut Vec<u8>, names: &[Vec<u8>], links: &[Link]) -> Result<(), Memory>
    ensures { OnOk result (out.new.items ≡ out.old.items
        ++ flat_map (spec.next_link (lists_in names.now)) links.now) }
{
    for link in links {
        push_next_link(out, names, *link)?;
    }
    Ok(())
}

// Adds what is called at a place.
fn push_links(out: &mut Vec<u8>, names: &[Vec<u8>], links: &[Link]) -> Result<(), Memory>
    ensures { OnOk result (out.new.items ≡ out.old.items
        ++ spec.links_text (lists_in names.now) links.now) }
{
    let Some((first, rest)) = links.split_first() else {
        return Ok(());
    };
    out.extend_from_slice(b"<sup>")?;
    push_call_link(out, names, *first)?;
    push_next_links(out, names, rest)?;
    out.extend_from_slice(b"</sup>")?;
    Ok(())
}

// The class of a level.
fn level_class(level: Level) -> &'static [u8]
    ensures { result.now ≡ spec.level_class level }
{
    match level {
        Level::Error => b"error",
        Level::Certain => b"certain",
        Level::Possible => b"possible",
        Level::Note => b"note",
    }
}

// ---- messages

// Adds where a message stands, as a link.
fn push_item_spot(out: &mut Vec<u8>, names: &[Vec<u8>], spot: Option<Spot>) -> Result<(), Memory>
    ensures { OnOk result (out.new.items ≡ out.old.items
        ++ spec.item_spot (lists_in names.now) spot) }
{
    let Some(spot) = spot else {
        return Ok(());
    };
    push_link(out, names, spot)?;
    out.push(b' ')?;
    Ok(())
}

// Adds a call that isn't the first one told.
fn push_next_call(out: &mut Vec<u8>, names: &[Vec<u8>], spot: Spot) -> Result<(), Memory>
    ensures { OnOk result (out.new.items ≡ out.old.items
        ++ spec.next_call (lists_in names.now) spot) }
{
    out.extend_from_slice(b", ")?;
    push_link(out, names, spot)
}

// Adds the other calls.
#[tactic(auto, using(ja_texts::proofs::Rulesets::for_push_plain))]
fn push_next_calls(out: &mut Vec<u8>, names: &[Vec<u8>], calls: &[Spot]) -> Result<(), Memory>
    ensures { OnOk result (out.new.items ≡ out.old.items
        ++ flat_map (spec.next_call (lists_in names.now)) calls.now) }
{
    for spot in calls {
        push_next_call(out, names, *spot)?;
    }
    Ok(())
}

// Adds the calls at which a message doesn't stand, as links.
fn push_calls(out: &mut Vec<u8>, names: &[Vec<u8>], calls: &[Spot]) -> Result<(), Memory>
    ensures { OnOk result (out.new.items ≡ out.old.items
        ++ spec.calls_links (lists_in names.now) calls.now) }
{
    let Some((first, rest)) = calls.split_first() else {
        return Ok(());
    };
    out.extend_from_slice(b", also called at ")?;
    push_link(out, names, *first)?;
    push_next_calls(out, names, rest)?;
    Ok(())
}

// Adds a message to the list.
#[tactic(auto, unfolding(crate::specs::Page::message_item))]
fn push_item(out: &mut Vec<u8>, names: &[Vec<u8>], message: &Message) -> Result<(), Memory>
    ensures { OnOk result (out.new.items ≡ out.old.items
        ++ spec.message_item (lists_in names.now) message.now) }
{
    out.extend_from_slice(b"<li class=\"")?;
    out.extend_from_slice(level_class(message.level))?;
    out.extend_from_slice(b"\">")?;
    push_item_spot(out, names, standing(message))?;
    push_escaped(out, message.text.as_slice())?;
    push_calls(out, names, others(message))?;
    out.extend_from_slice(b"</li>\n")?;
    Ok(())
}

// Adds messages to the list.
#[tactic(auto, using(ja_texts::proofs::Rulesets::for_push_plain))]
fn push_items(out: &mut Vec<u8>, names: &[Vec<u8>], messages: &[Message]) -> Result<(), Memory>
    ensures { OnOk result (out.new.items
        ≡ out.old.items ++ flat_map (spec.message_item (lists_in names.now)) messages.now) }
{
    for message in messages {
        push_item(out, names, message)?;
    }
    Ok(())
}

// ---- marks

// Adds what a message tells that isn't the first one at its place.
fn push_next_hint(out: &mut Vec<u8>, message: &Message) -> Result<(), Memory>
    ensures { OnOk result (out.new.items ≡ out.old.items ++ spec.next_hint message.now) }
{
    out.extend_from_slice(b"&#10;")?;
    push_escaped(out, message.text.as_slice())
}

// Adds what other messages tell.
#[tactic(auto, using(ja_texts::proofs::Rulesets::for_push_plain))]
fn push_next_hints(out: &mut Vec<u8>, messages: &[Message]) -> Result<(), Memory>
    ensures { OnOk result (out.new.items
        ≡ out.old.items ++ flat_map spec.next_hint messages.now) }
{
    for message in messages {
        push_next_hint(out, message)?;
    }
    Ok(())
}

// Adds the beginning of a mark.
fn push_mark(out: &mut Vec<u8>, messages: &[Message]) -> Result<(), Memory>
    ensures { OnOk result (out.new.items ≡ out.old.items ++ spec.mark_start messages.now) }
{
    let Some((first, rest)) = messages.split_first() else {
        return Ok(());
    };
    out.extend_from_slice(b"<mark class=\"")?;
    out.extend_from_slice(level_class(first.level))?;
    out.extend_from_slice(b"\" title=\"")?;
    push_escaped(out, first.text.as_slice())?;
    push_next_hints(out, rest)?;
    out.extend_from_slice(b"\">")?;
    Ok(())
}

// Adds the end of a mark, where there is one.
fn push_mark_end(out: &mut Vec<u8>, marked: bool) -> Result<(), Memory>
    ensures { OnOk result (out.new.items ≡ out.old.items ++ spec.mark_end marked) }
{
    if marked {
        out.extend_from_slice(b"</mark>")?;
    }
    Ok(())
}

// ---- lines

// Adds the beginning of a line.
#[tactic(auto, unfolding(crate::specs::Page::line_start))]
fn push_line_start(out: &mut Vec<u8>, file: u32, number: u32) -> Result<(), Memory>
    ensures { OnOk result (out.new.items ≡ out.old.items ++ spec.line_start file number) }
{
    out.extend_from_slice(b"<li id=\"")?;
    push_line_name(out, file, number)?;
    out.extend_from_slice(b"\"><code>")?;
    Ok(())
}

// Adds the end of a line, where a mark ends if there is one.
fn push_line_end(out: &mut Vec<u8>, marked: bool) -> Result<(), Memory>
    ensures { OnOk result (out.new.items ≡ out.old.items ++ (spec.mark_end marked
        ++ spec.line_end)) }
{
    push_mark_end(out, marked)?;
    out.extend_from_slice(b"</code></li>\n")?;
    Ok(())
}

// ---- a walk along the text

// What is left of messages and links, the spot in the text, and whether a mark may go on there.
#[derive(Drop)]
struct Walk<'a> {
    messages: &'a [Message],
    links: &'a [Link],
    spot: Spot,
    marked: bool,
}

// Whether a place is before another.
fn is_before(place: Place, other: Place) -> bool
    ensures { result ≡ code.is_before other place }
{
    place.line < other.line || (place.line == other.line && place.column < other.column)
}

// Whether a spot is before another.
fn is_spot_before(spot: Spot, other: Spot) -> bool
    ensures { result ≡ code.is_spot_before other spot }
{
    spot.file < other.file || (spot.file == other.file && is_before(spot.place, other.place))
}

// Whether a message is about a spot before another.
fn is_passed(message: &Message, spot: Spot) -> bool
    ensures { result ≡ code.is_passed spot message.now.spot }
{
    match message.spot {
        Some(own) => is_spot_before(own, spot),
        None => false,
    }
}

// Messages from a spot on.
fn messages_from(messages: &[Message], spot: Spot) -> &[Message]
    ensures { result.now ≡ code.messages_from spot messages.now }
{
    let passed = messages
        .iter()
        .take_while(|message| is_passed(message, spot))
        .count();
    &messages[passed..]
}

// Links from a spot on.
fn links_from(links: &[Link], spot: Spot) -> &[Link]
    ensures { result.now ≡ code.links_from spot links.now }
{
    let passed = links
        .iter()
        .take_while(|link| is_spot_before(link.from, spot))
        .count();
    &links[passed..]
}

// Whether a message is about a spot.
fn is_about(message: &Message, spot: Spot) -> bool
    ensures { result ≡ spec.is_about spot message.now }
{
    message.spot == Some(spot)
}

// The first messages, as far as they are about a spot.
fn messages_at(messages: &[Message], spot: Spot) -> &[Message]
    ensures { result.now ≡ take_while (spec.is_about spot) messages.now }
{
    let here = messages
        .iter()
        .take_while(|message| is_about(message, spot))
        .count();
    &messages[..here]
}

// The first links, as far as they are from a spot.
fn links_at(links: &[Link], spot: Spot) -> &[Link]
    ensures { result.now ≡ take_while (spec.is_from spot) links.now }
{
    let here = links.iter().take_while(|link| link.from == spot).count();
    &links[..here]
}

// Whether a mark goes on over a character.
#[tactic(auto, unfolding(ja_prim::specs::Characters::is_part))]
fn is_part(c: char) -> bool
    ensures { result ≡ characters.is_part c }
{
    c.is_ascii_alphanumeric() || c == '_' || c == '$'
}

// Whether a mark goes on behind a character at which it begins.
fn goes_on(c: char) -> bool
    ensures { result ≡ spec.goes_on c }
{
    is_part(c) || c == '.'
}

// Adds what is in front of a character: the end of a mark, links, and the mark that begins.
fn push_front(
    out: &mut Vec<u8>,
    names: &[Vec<u8>],
    ends: bool,
    links: &[Link],
    messages: &[Message],
) -> Result<(), Memory>
    ensures { OnOk result (out.new.items ≡ out.old.items ++ (spec.mark_end ends
        ++ spec.links_text (lists_in names.now) links.now ++ spec.mark_start messages.now)) }
{
    push_mark_end(out, ends)?;
    push_links(out, names, links)?;
    push_mark(out, messages)?;
    Ok(())
}

// Adds a character, and the end of a mark that doesn't go on behind it.
fn push_inside(out: &mut Vec<u8>, c: char, ends: bool) -> Result<(), Memory>
    ensures { OnOk result (out.new.items ≡ out.old.items ++ (spec.escaped (lines.shown c)
        ++ spec.mark_end ends)) }
{
    let mut buffer = [0; 4];
    push_escaped(out, shown(c, &mut buffer))?;
    push_mark_end(out, ends)?;
    Ok(())
}

// Adds a character with what begins and ends there, and goes past it.
fn push_character(
    out: &mut Vec<u8>,
    names: &[Vec<u8>],
    text: &[char],
    index: usize,
    walk: &mut Walk<'_>,
) -> Result<(), Memory>
    requires inside { index < length text.now }
    requires line { walk.old.spot.place.line ≤ max_bytes }
    requires column { walk.old.spot.place.column ≤ max_bytes }
    requires messages { AreMessagesOrdered walk.old.messages.now }
    requires links { AreLinksOrdered walk.old.links.now }
    ensures text { OnOk result (out.new.items ++ spec.source_text (lists_in names.now)
        walk.new.messages.now walk.new.links.now walk.new.spot walk.new.marked
        (drop (index + 1) text.now)
        ≡ out.old.items ++ spec.source_text (lists_in names.now) walk.old.messages.now
        walk.old.links.now walk.old.spot walk.old.marked (drop index text.now)) }
    ensures line { OnOk result (walk.new.spot.place.line ≤ walk.old.spot.place.line + 1) }
    ensures column { OnOk result (walk.new.spot.place.column ≤ walk.old.spot.place.column + 1) }
    ensures messages { OnOk result (AreMessagesOrdered walk.new.messages.now) }
    ensures links { OnOk result (AreLinksOrdered walk.new.links.now) }
{
    let spot = walk.spot;
    let place = spot.place;
    let messages = messages_from(walk.messages, spot);
    let links = links_from(walk.links, spot);
    walk.messages = messages;
    walk.links = links;
    let here = messages_at(messages, spot);
    let c = text[index];
    let begins = !here.is_empty();
    let stays = walk.marked & is_part(c) & !begins;
    push_front(
        out,
        names,
        walk.marked & !stays,
        links_at(links, spot),
        here,
    )?;
    if ends_line(text, index) {
        push_line_end(out, begins | stays)?;
        push_line_start(out, spot.file, place.line + 1)?;
        walk.spot = Spot {
            file: spot.file,
            place: Place {
                line: place.line + 1,
                column: 1,
            },
        };
        walk.marked = false;
        return Ok(());
    }
    let goes_on = goes_on(c);
    push_inside(out, c, (begins | stays) & !goes_on)?;
    walk.spot = Spot {
        file: spot.file,
        place: Place {
            line: place.line,
            column: place.column + 1,
        },
    };
    walk.marked = (begins | stays) & goes_on;
    Ok(())
}

// Adds the text of a file, with its marks and links.
fn push_source(
    out: &mut Vec<u8>,
    names: &[Vec<u8>],
    file: u32,
    text: &[char],
    messages: &[Message],
    links: &[Link],
) -> Result<(), Memory>
    requires within { length text.now ≤ max_bytes }
    requires messages { AreMessagesOrdered messages.now }
    requires links { AreLinksOrdered links.now }
    ensures { OnOk result (out.new.items ≡ out.old.items
        ++ spec.source_text (lists_in names.now) messages.now links.now
        (spot_at file (place_at 1 1)) false text.now) }
{
    let mut walk = Walk {
        messages,
        links,
        spot: Spot {
            file,
            place: Place { line: 1, column: 1 },
        },
        marked: false,
    };
    for index in 0..text.len() {
        push_character(out, names, text, index, &mut walk)?;
    }
    push_line_end(out, walk.marked)?;
    Ok(())
}

// ---- files

// Adds a file under its name.
fn push_section(
    out: &mut Vec<u8>,
    names: &[Vec<u8>],
    file: u32,
    text: &[char],
    messages: &[Message],
    links: &[Link],
) -> Result<(), Memory>
    requires within { length text.now ≤ max_bytes }
    requires messages { AreMessagesOrdered messages.now }
    requires links { AreLinksOrdered links.now }
    ensures { OnOk result (out.new.items ≡ out.old.items
        ++ spec.file_section (lists_in names.now) messages.now links.now file text.now) }
{
    out.extend_from_slice(b"<h2>")?;
    push_escaped(out, name_at(names, file))?;
    out.extend_from_slice(b"</h2>\n<ol>\n")?;
    push_line_start(out, file, 1)?;
    push_source(out, names, file, text, messages, links)?;
    out.extend_from_slice(b"</ol>\n")?;
    Ok(())
}

// Adds the files.
fn push_sections(
    out: &mut Vec<u8>,
    names: &[Vec<u8>],
    texts: &[Vec<char>],
    messages: &[Message],
    links: &[Link],
) -> Result<(), Memory>
    requires few { length texts.now < 2 ^ 32 }
    requires within { AllByRecursion (λ text. length text ≤ max_bytes) (lists_in texts.now) }
    requires messages { AreMessagesOrdered messages.now }
    requires links { AreLinksOrdered links.now }
    ensures { OnOk result (out.new.items ≡ out.old.items
        ++ spec.sections (lists_in names.now) messages.now links.now 0 (lists_in texts.now)) }
{
    let mut file = 0;
    for text in texts {
        push_section(out, names, file, text, messages, links)?;
        file += 1;
    }
    Ok(())
}

// ---- the page

// Adds a name that isn't the first one.
fn push_next_name(out: &mut Vec<u8>, name: &[u8]) -> Result<(), Memory>
    ensures { OnOk result (out.new.items ≡ out.old.items ++ spec.next_name name.now) }
{
    out.extend_from_slice(b", ")?;
    push_escaped(out, name)
}

// Adds the other names.
#[tactic(auto, using(ja_texts::proofs::Rulesets::for_push_plain))]
fn push_next_names(out: &mut Vec<u8>, names: &[Vec<u8>]) -> Result<(), Memory>
    ensures { OnOk result (out.new.items
        ≡ out.old.items ++ flat_map (λ name. spec.next_name name.items) names.now) }
{
    for name in names {
        push_next_name(out, name)?;
    }
    Ok(())
}

// Adds the names of files.
fn push_names(out: &mut Vec<u8>, names: &[Vec<u8>]) -> Result<(), Memory>
    ensures { OnOk result (out.new.items ≡ out.old.items
        ++ spec.names_text (lists_in names.now)) }
{
    let Some((first, rest)) = names.split_first() else {
        return Ok(());
    };
    push_escaped(out, first)?;
    push_next_names(out, rest)?;
    Ok(())
}

// Adds what the page is of, and what made it.
#[tactic(auto, unfolding(crate::specs::Page::heading))]
fn push_heading(out: &mut Vec<u8>, title: &[u8], names: &[Vec<u8>]) -> Result<(), Memory>
    ensures { OnOk result (out.new.items ≡ out.old.items
        ++ spec.heading title.now (lists_in names.now)) }
{
    push_names(out, names)?;
    out.extend_from_slice(b" - ")?;
    push_escaped(out, title)
}

// Adds all before the list of messages.
fn push_head(
    out: &mut Vec<u8>,
    title: &[u8],
    names: &[Vec<u8>],
    summary: &[u8],
) -> Result<(), Memory>
    ensures { OnOk result (out.new.items ≡ out.old.items ++ (HEAD.now
        ++ spec.heading title.now (lists_in names.now) ++ STYLE.now
        ++ spec.heading title.now (lists_in names.now) ++ codes "</h1>\n<p>"
        ++ spec.escaped summary.now ++ codes "</p>\n<ul>\n")) }
{
    out.extend_from_slice(HEAD)?;
    push_heading(out, title, names)?;
    out.extend_from_slice(STYLE)?;
    push_heading(out, title, names)?;
    out.extend_from_slice(b"</h1>\n<p>")?;
    push_escaped(out, summary)?;
    out.extend_from_slice(b"</p>\n<ul>\n")?;
    Ok(())
}

/// The page of files, under their names and the title of the tool, and with a summary: a list of the
/// messages, and each file under its name, with a mark at each spot that a message is about and with
/// links along calls. Messages and links are in order of their spots, and messages without one are
/// last. The texts have at most 16,777,216 bytes in one text. `Memory` comes where memory was
/// refused.
pub fn page_text(
    alloc: Global,
    title: &[u8],
    summary: &[u8],
    files: &[File<'_>],
    messages: &[Message],
    links: &[Link],
) -> Result<Vec<u8>, Memory>
    requires within { length (joined_text (map bytes_of files.now)) ≤ max_bytes }
    requires messages { AreMessagesOrdered messages.now }
    requires links { AreLinksOrdered links.now }
    ensures { IfOk result (λ out. out.items ≡ spec.page_text title.now summary.now
        (map name_of files.now) (map characters_of files.now) messages.now links.now) }
{
    let names = shown_names(alloc, files)?;
    let texts = texts_of(alloc, files)?;
    let mut out = Vec::new(alloc);
    push_head(&mut out, title, &names, summary)?;
    push_items(&mut out, &names, messages)?;
    out.extend_from_slice(b"</ul>\n")?;
    push_sections(&mut out, &names, &texts, messages, links)?;
    out.extend_from_slice(b"</body>\n</html>\n")?;
    Ok(out)
}
