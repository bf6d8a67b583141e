//! The answer to words and files.

ghost use Rattle.std.specs.Prelude.{◌≡◌, ◌<◌, ◌≤◌, ◌^◌, if◌then◌else◌, IfOk, length, map};
ghost use Rattle.std.specs.List.{AllByRecursion};
ghost use Rattle.std.specs.String.{string_bytes};
ghost use Rattle.ja_base.specs.Streams.{NeverFalls};
ghost use Rattle.ja_graph.specs.WellFormed.{IsWellFormed};
ghost use Rattle.ja_lex.specs.Spots.{max_bytes};
ghost use Rattle.ja_lint_words.specs.Words.{asked_of};
ghost use Rattle.ja_rows.specs.Warning.{AreOrdered};
ghost use Rattle.ja_table.specs.Tables.{table_of, Fits};
ghost use Rattle.ja_top.specs.Answers.{written_of};
ghost use Rattle.ja_top.specs.Runs.{signatures_of};
ghost use Rattle.ja_top.specs.Statuses as ending;
ghost use Rattle.ja_lint_top.specs.declared.reply.Status.TheVariants as reply;
ghost use Rattle.ja_warn.specs.Told.{warnings_in, IsNamed, IsTold};
ghost use Rattle.ja_lint_top.specs.Lint.{Analyses, Answers, HasCause, IsAnswered, Reads, Replies};
ghost use Rattle.ja_lint_top.specs.Lint as spec;
ghost use Rattle.ja_lint_top.specs.Refusals.{lines_of, text_of, IsAlone};
ghost use Rattle.ja_lint_top.specs.Replies.{IsLineTold};
ghost use Rattle.ja_lint_top.specs.code.Answers.{Shows, reply_of};

use crate::asking::{Format, Manner, format_of, names_of, values_of};
use crate::ending::{ending_of, has_fault};
use crate::files::Files;
use crate::help::{HELP, VERSION};
use crate::links::links_in;
use crate::reading::{contents_of, texts_of};
use crate::refusing::{explain, explain_no_texts, explain_unread, first_refused, refuse_one};
use crate::reply::{Reply, Status, fail, say, told_line};
use crate::telling::messages_of;
use ja_base::{Failed, Memory, Sink, write_all};
use ja_device::{Device, Devices};
use ja_files::{File, first_lines, joined};
use ja_lint_devices::{Refused, declared, fault_text};
use ja_lint_text::Source;
use ja_lint_words::{Words, asked};
use ja_sarif::sarif_text;
use ja_show::{messages_text, page_text};
use ja_top::{Findings, MAX_BYTES, find, write_answer};
use ja_warn::Told;
use std::alloc::Global;

// What is shown of what was found.
fn shown<'a>(
    alloc: Global,
    manner: Manner,
    files: &'a [File<'a>],
    first_lines: &'a [u32],
    found: &'a Findings,
) -> Result<Vec<u8>, Memory>
    requires few { length first_lines.now < 2 ^ 32 }
    requires lines { first_lines.now ≡ lines_of files.now }
    requires program { IsWellFormed found.now.program }
    requires fits { Fits found.now.program found.now.table }
    requires told { AllByRecursion (IsTold found.now.program (table_of found.now.table))
        found.now.warnings }
    requires named { AllByRecursion (IsNamed found.now.program (table_of found.now.table))
        found.now.warnings }
    requires ordered { AreOrdered (warnings_in found.now.warnings) }
    requires within { length (text_of files.now) ≤ max_bytes }
    ensures { IfOk result (λ out. Shows manner files.now found.now out.items) }
{
    let warnings = found.warnings.as_slice();
    let source = Source {
        program: &found.program,
        files: &*files,
        first_lines: &*first_lines,
    };
    let messages = messages_of(alloc, &source, &found.table, warnings, manner.rows)?;
    let ending = ending_of(alloc, manner, files, warnings)?;
    match manner.format {
        Format::Text => {
            let mut out = messages_text(alloc, files, &messages)?;
            out.extend_from_slice(&ending)?;
            out.push(b'\n')?;
            Ok(out)
        }
        Format::Html => {
            let links = links_in(alloc, first_lines, &found.program, &found.table)?;
            page_text(alloc, b"tajs-lint", &ending, files, &messages, &links)
        }
        Format::Sarif => sarif_text(alloc, VERSION, files, &messages, true, &ending),
    }
}

// Clean where there is no warning of a fault.
fn judged(warnings: &[Told]) -> Status
    ensures { result ≡ (if ending.has_fault (warnings_in warnings.now) then reply.Faulty
        else reply.Clean) }
{
    if has_fault(warnings) {
        Status::Faulty
    } else {
        Status::Clean
    }
}

// The answer to files whose one text was found or not.
fn answer_text<'a, D: Device>(
    alloc: Global,
    manner: Manner,
    files: &'a [File<'a>],
    first_lines: &'a [u32],
    text: &'a str,
    devices: &Devices<D>,
) -> Result<Reply, Memory>
    requires few { length first_lines.now < 2 ^ 32 }
    requires lines { first_lines.now ≡ lines_of files.now }
    requires alone { AllByRecursion IsAlone files.now }
    requires text { text.now ≡ text_of files.now }
    requires within { length text.now ≤ max_bytes }
    ensures { IfOk result (λ r. Answers manner (signatures_of devices.now) files.now (reply_of r)) }
{
    match find(alloc, text.as_bytes(), devices) {
        Ok(found) => {
            let status = judged(found.warnings.as_slice());
            let out = shown(alloc, manner, &*files, &*first_lines, &found)?;
            let line = Vec::new(alloc);
            Ok(Reply { status, out, line })
        }
        Err(fault) => explain(alloc, manner.format, files, first_lines, fault),
    }
}

// The answer to files that are texts.
fn answer_files<'a, D: Device>(
    alloc: Global,
    manner: Manner,
    files: &'a [File<'a>],
    devices: &Devices<D>,
) -> Result<Reply, Memory>
    ensures { IfOk result (λ r. Answers manner (signatures_of devices.now) files.now (reply_of r)) }
{
    let text = joined(alloc, files)?;
    if text.len() > MAX_BYTES {
        return fail(alloc, b"more than 16777216 bytes");
    }
    let first_lines = first_lines(alloc, files)?;
    match first_refused(alloc, files)? {
        Some((number, fault)) => refuse_one(alloc, manner.format, files, number, fault),
        None => answer_text(alloc, manner, &*files, &first_lines, &text, devices),
    }
}

// The answer to files that are read by their names.
fn answer_names<'a, F: Files, D: Device>(
    alloc: Global,
    manner: Manner,
    names: &[&'a str],
    files: &mut F,
    devices: &Devices<D>,
) -> Result<Reply, Memory>
    ensures { IfOk result (λ r. Reads manner (signatures_of devices.now) (F.held files.old)
        (map (λ name. name.now) names.now) (reply_of r)) }
{
    match contents_of(alloc, files, names) {
        Ok(contents) => match texts_of(alloc, names, &contents) {
            Ok(files) => answer_files(alloc, manner, &files, devices),
            Err(why) => explain_no_texts(alloc, why),
        },
        Err((name, why)) => explain_unread(alloc, name, why),
    }
}

// The answer to words that ask for an analysis.
fn analysis<'a, F: Files>(alloc: Global, asked: &Words<'a>, files: &mut F) -> Result<Reply, Memory>
    ensures { IfOk result (λ r. Analyses (asked_of asked.now) (F.held files.old) (reply_of r)) }
{
    let Some(format) = format_of(asked.format) else {
        return fail(alloc, b"the formats are text, html and sarif");
    };
    let manner = Manner {
        format,
        rows: asked.rows,
    };
    match declared(alloc, values_of(&asked.devices)) {
        Ok(devices) => {
            let names = names_of(alloc, &asked.files)?;
            answer_names(alloc, manner, &names, files, &devices)
        }
        Err(Refused::Memory) => Err(Memory),
        Err(why) => {
            let words = fault_text(alloc, &why)?;
            fail(alloc, &words)
        }
    }
}

// What is said of the version.
fn version_text(alloc: Global) -> Result<Vec<u8>, Memory>
    ensures { IfOk result (λ text. text.items ≡ spec.version_text) }
{
    let mut text = Vec::new(alloc);
    text.extend_from_slice(b"tajs-lint ")?;
    text.extend_from_slice(VERSION.as_bytes())?;
    text.push(b'\n')?;
    Ok(text)
}

// The answer to words and files, before it is written.
fn reply<F: Files>(alloc: Global, words: &[String], files: &mut F) -> Result<Reply, Memory>
    ensures { IfOk result (λ r. HasCause (map string_bytes words.now) (F.held files.old)
        (reply_of r)) }
{
    let Some(asked) = asked(alloc, words)? else {
        return fail(
            alloc,
            b"these words are none that it takes; --help tells which are",
        );
    };
    if asked.help {
        say(alloc, HELP)
    } else if asked.version {
        let text = version_text(alloc)?;
        say(alloc, &text)
    } else {
        analysis(alloc, &asked, files)
    }
}

// Writes a line to standard error, as far as it takes it.
fn tell<E: Sink>(errors: &mut E, line: &[u8])
    ensures count { NeverFalls (E.faults errors.old) (E.faults errors.new) }
    ensures told { IsLineTold (written_of E.written E.finished E.faults errors.old errors.new)
        line.now }
{
    match write_all(errors, line) {
        Ok(()) => {}
        Err(Failed) => {}
    }
}

/// The program: `words` are those after its name (`ja_lint_words`). Reads the files that they name,
/// and analyses them as one program that may call the devices that they declare, none of which is
/// asked; and writes each warning of its closed table at its file, line and column, a page of the
/// files with them, or SARIF, whole to the sink, which is finished last. Where there is no answer, a
/// line to `errors` says why.
pub fn lint<F: Files, K: Sink, E: Sink>(
    alloc: Global,
    words: &[String],
    files: &mut F,
    sink: &mut K,
    errors: &mut E,
) -> Status
    ensures sink_count { NeverFalls (K.faults sink.old) (K.faults sink.new) }
    ensures errors_count { NeverFalls (E.faults errors.old) (E.faults errors.new) }
    ensures answered { IsAnswered (map string_bytes words.now) (F.held files.old)
        (written_of K.written K.finished K.faults sink.old sink.new)
        (written_of E.written E.finished E.faults errors.old errors.new)
        result }
{
    match reply(alloc, words, files) {
        Ok(reply) => match write_answer(sink, &reply.out) {
            Ok(()) => {
                tell(errors, &reply.line);
                reply.status
            }
            Err(Failed) => {
                tell(errors, b"tajs-lint: the output failed\n");
                Status::Unfinished
            }
        },
        Err(Memory) => {
            tell(errors, b"tajs-lint: memory was refused\n");
            Status::Unfinished
        }
    }
}
