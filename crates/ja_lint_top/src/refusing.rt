//! Why files aren't analysed.

ghost use Rattle.std.specs.Prelude.{◌≡◌, ◌<◌, ◌^◌, ◌++◌, ℕ, codes, Contains, IfOk, IfSome, List, None, Some, length};
ghost use Rattle.std.specs.List.{AllByRecursion};
ghost use Rattle.ja_base.specs.declared.ids.Place.{Place};
ghost use Rattle.ja_files.specs.Files.{spot_of};
ghost use Rattle.ja_load.specs.Loading.{HasNone};
ghost use Rattle.ja_prim.specs.declared.signature.Signature.{Signature};
ghost use Rattle.ja_top.specs.Findings.{IsUnfound};
ghost use Rattle.ja_lint_top.specs.Lint.{IsUnreadable};
ghost use Rattle.ja_lint_top.specs.Reading.{AreHeld, Held, IsUnread};
ghost use Rattle.ja_lint_top.specs.Refusals as spec;
ghost use Rattle.ja_lint_top.specs.Refusals.{lines_of, text_of, IsAlone, Refuses, RefusesAll, RefusesOne};
ghost use Rattle.ja_lint_top.specs.Replies.{told_line, Fails};
ghost use Rattle.ja_lint_top.specs.code.Answers.{reply_of, AreWithin, IsNoText, IsRefusedAlone};

use crate::asking::Format;
use crate::files::Unread;
use crate::help::VERSION;
use crate::reading::{NoTexts, known_as};
use crate::reply::{Reply, Status, fail, told_line};
use ja_base::{Memory, Place, ScopeKind, Seq};
use ja_files::{File, Spot, spot_of};
use ja_grammar::ParseFault;
use ja_load::LoadFault;
use ja_parse::parse;
use ja_sarif::sarif_text;
use ja_show::{Level, Message, Rule, messages_text, shown_name};
use ja_texts::{push_number, scope_name};
use ja_top::FindFault;
use std::alloc::Global;

/// Words that are told.
pub(crate) fn words_of(alloc: Global, words: &[u8]) -> Result<Vec<u8>, Memory>
    ensures { IfOk result (λ text. text.items ≡ words.now) }
{
    let mut text = Vec::new(alloc);
    text.extend_from_slice(words)?;
    Ok(text)
}

// ---- files

// What is said of a file.
fn fail_about(alloc: Global, name: &str, words: &[u8]) -> Result<Reply, Memory>
    ensures { IfOk result (λ r. Fails (spec.about name.now words.now) (reply_of r)) }
{
    let mut text = shown_name(alloc, known_as(name))?;
    text.extend_from_slice(b": ")?;
    text.extend_from_slice(words)?;
    fail(alloc, &text)
}

// Bytes that are no text.
fn fail_at_byte(alloc: Global, name: &str, offset: usize) -> Result<Reply, Memory>
    ensures { IfOk result (λ r. Fails (spec.about name.now (spec.no_text_words offset))
        (reply_of r)) }
{
    let mut words = words_of(alloc, b"no character begins at byte ")?;
    push_number(&mut words, offset as u64)?;
    fail_about(alloc, name, &words)
}

/// Says why a file isn't read.
pub(crate) fn explain_unread(alloc: Global, name: &str, why: Unread) -> Result<Reply, Memory>
    ensures { IfOk result (λ r. (held : Held) (names : List (List ℕ)) → Contains names name.now
        → IsUnread held name.now why → IsUnreadable held names (reply_of r)) }
{
    match why {
        Unread::Failed(reason) => fail_about(alloc, name, reason),
        Unread::TooLong => fail_about(alloc, name, b"more than 16777216 bytes"),
        Unread::Memory => Err(Memory),
    }
}

/// Says why what was read of files are no texts.
pub(crate) fn explain_no_texts(alloc: Global, why: NoTexts<'_>) -> Result<Reply, Memory>
    ensures { IfOk result (λ r. (held : Held) (names contents : List (List ℕ))
        → AreHeld held names contents → IsNoText names contents why.entry
        → IsUnreadable held names (reply_of r)) }
{
    match why {
        NoTexts::At { name, offset } => fail_at_byte(alloc, name, offset),
        NoTexts::Memory => Err(Memory),
    }
}

// ---- texts

/// Where a text is no program.
pub(crate) fn fault_place(fault: ParseFault) -> Option<Place>
    ensures { result ≡ spec.fault_place fault }
{
    match fault {
        ParseFault::Syntax { place }
        | ParseFault::Scope { kind: _, place }
        | ParseFault::Depth { place } => Some(place),
        ParseFault::Memory => None,
    }
}

// What a text may not have, in words.
fn kind_words(kind: ScopeKind) -> &'static [u8]
    ensures { result.now ≡ spec.kind_words kind }
{
    match kind {
        ScopeKind::Eval => b"the name 'eval'",
        ScopeKind::With => b"a 'with' statement",
        ScopeKind::RegExp => b"a regular expression",
        ScopeKind::Octal => b"an octal number, or an octal escape",
        ScopeKind::Number => b"a number that isn't whole, or is too large",
        ScopeKind::NonAscii => b"a character past ASCII outside of strings and comments",
        ScopeKind::IdentifierEscape => b"an escape in a name",
        ScopeKind::ReservedWord => b"a word that is reserved for the future",
        ScopeKind::ArgumentsName => b"a variable or function with the name 'arguments'",
        ScopeKind::TextLength => b"a string or a name that is too long",
        _ => scope_name(kind),
    }
}

/// Why a text is no program.
pub(crate) fn fault_words(alloc: Global, fault: ParseFault) -> Result<Vec<u8>, Memory>
    ensures { IfOk result (λ words. words.items ≡ spec.fault_words fault) }
{
    match fault {
        ParseFault::Syntax { place: _ } => words_of(alloc, b"syntax error"),
        ParseFault::Scope { kind, place: _ } => {
            let mut words = words_of(alloc, b"this tool doesn't take ")?;
            words.extend_from_slice(kind_words(kind))?;
            Ok(words)
        }
        ParseFault::Depth { place: _ } => words_of(alloc, b"nested deeper than 200 levels"),
        ParseFault::Memory => words_of(alloc, b"memory was refused"),
    }
}

// The message of an error.
fn error_of(alloc: Global, spot: Option<Spot>, words: &[u8]) -> Result<Message, Memory>
    ensures { IfOk result (λ message. message ≡ spec.error_of spot words.now) }
{
    Ok(Message {
        level: Level::Error,
        rule: Rule::Refused,
        spot,
        text: Seq::from_vec(words_of(alloc, words)?),
        calls: Seq::new(alloc),
    })
}

// What is said of a refusal.
fn refused_words(alloc: Global, words: &[u8]) -> Result<Vec<u8>, Memory>
    ensures { IfOk result (λ why. why.items ≡ spec.refused_words words.now) }
{
    let mut why = words_of(alloc, b"nothing is analysed: ")?;
    why.extend_from_slice(words)?;
    Ok(why)
}

// What is written of one error.
fn refusal_text(
    alloc: Global,
    format: Format,
    files: &[File<'_>],
    message: Message,
    why: &[u8],
) -> Result<Vec<u8>, Memory>
    ensures { IfOk result (λ out. out.items
        ≡ spec.refusal_text format files.now message why.now) }
{
    match format {
        Format::Text | Format::Html => messages_text(alloc, files, &[message]),
        Format::Sarif => sarif_text(alloc, VERSION, files, &[message], false, why),
    }
}

/// The refusal of files, with one error at a place of them or at none.
pub(crate) fn refuse(
    alloc: Global,
    format: Format,
    files: &[File<'_>],
    spot: Option<Spot>,
    words: &[u8],
) -> Result<Reply, Memory>
    ensures { IfOk result (λ r. Refuses format files.now spot words.now (reply_of r)) }
{
    let message = error_of(alloc, spot, words)?;
    let why = refused_words(alloc, words)?;
    let out = refusal_text(alloc, format, files, message, &why)?;
    let line = told_line(alloc, &why)?;
    Ok(Reply {
        status: Status::Unfinished,
        out,
        line,
    })
}

/// The first file that is no program by itself, by its number, and why.
pub(crate) fn first_refused(
    alloc: Global,
    files: &[File<'_>],
) -> Result<Option<(u32, ParseFault)>, Memory>
    requires within { AreWithin files.now }
    requires few { length files.now < 2 ^ 32 }
    ensures refused { IfOk result (λ refused. IfSome refused (λ why. IsRefusedAlone files.now
        why.0 why.1)) }
    ensures alone { IfOk result (λ refused. refused ≡ None → AllByRecursion IsAlone files.now) }
{
    for number in 0..files.len() {
        match parse(alloc, files[number].text) {
            Ok(_) => {}
            Err(ParseFault::Memory) => return Err(Memory),
            Err(fault) => return Ok(Some((number as u32, fault))),
        }
    }
    Ok(None)
}

/// The refusal of a file that is no program by itself.
pub(crate) fn refuse_one(
    alloc: Global,
    format: Format,
    files: &[File<'_>],
    file: u32,
    fault: ParseFault,
) -> Result<Reply, Memory>
    requires { IsRefusedAlone files.now file fault }
    ensures { IfOk result (λ r. RefusesOne format files.now (reply_of r)) }
{
    let Some(place) = fault_place(fault) else {
        return Err(Memory);
    };
    let words = fault_words(alloc, fault)?;
    refuse(alloc, format, files, Some(Spot { file, place }), &words)
}

// The refusal of files whose one text is no program.
fn refuse_joined(
    alloc: Global,
    format: Format,
    files: &[File<'_>],
    first_lines: &[u32],
    fault: ParseFault,
) -> Result<Reply, Memory>
    requires few { length first_lines.now < 2 ^ 32 }
    requires lines { first_lines.now ≡ lines_of files.now }
    ensures { IfOk result (λ r. (place : Place) × (spec.fault_place fault ≡ Some place)
        × Refuses format files.now (Some (spot_of (lines_of files.now) place)) (spec.fault_words fault)
        (reply_of r)) }
{
    let Some(place) = fault_place(fault) else {
        return Err(Memory);
    };
    let words = fault_words(alloc, fault)?;
    refuse(
        alloc,
        format,
        files,
        Some(spot_of(first_lines, place)),
        &words,
    )
}

// Says why the one text of files has no program.
fn explain_load(
    alloc: Global,
    format: Format,
    files: &[File<'_>],
    first_lines: &[u32],
    fault: LoadFault,
) -> Result<Reply, Memory>
    requires few { length first_lines.now < 2 ^ 32 }
    requires lines { first_lines.now ≡ lines_of files.now }
    ensures { IfOk result (λ r. (signatures : List Signature)
        → HasNone (text_of files.now) signatures fault
        → RefusesAll format signatures files.now (reply_of r)) }
{
    match fault {
        LoadFault::Parse(fault) => refuse_joined(alloc, format, files, first_lines, fault),
        LoadFault::Functions => refuse(alloc, format, files, None, b"more than 4096 functions"),
        LoadFault::Nodes => refuse(alloc, format, files, None, b"more than 65536 nodes"),
        // no status has too many names as its cause: see docs/DECISIONS.md
        LoadFault::Names => Err(Memory),
    }
}

/// Says why the one text of files isn't analysed. That it is no text isn't said: it is one.
pub(crate) fn explain(
    alloc: Global,
    format: Format,
    files: &[File<'_>],
    first_lines: &[u32],
    fault: FindFault,
) -> Result<Reply, Memory>
    requires few { length first_lines.now < 2 ^ 32 }
    requires lines { first_lines.now ≡ lines_of files.now }
    ensures { IfOk result (λ r. (signatures : List Signature)
        → IsUnfound (text_of files.now) signatures fault
        → RefusesAll format signatures files.now (reply_of r)) }
{
    match fault {
        FindFault::Load(fault) => explain_load(alloc, format, files, first_lines, fault),
        FindFault::Spent => refuse(
            alloc,
            format,
            files,
            None,
            b"not closed after 1000000 visits",
        ),
        FindFault::NotText { offset: _ } | FindFault::Memory => Err(Memory),
    }
}
