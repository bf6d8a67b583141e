//! Sources and sinks. A row has the greatest number of bytes of a call, the number of the call that
//! fails, 0 for none, the greatest number of bytes of all, and a text.

use crate::out::Out;
use ja_base::{
    MemorySink, MemorySource, ReadFault, Sink, Source, StdSink, StdSource, SureSink, SureSource,
    read_all, write_all,
};
use std::alloc::Global;
use std::str;

/// The parts of a row.
#[derive(Drop)]
struct Row<'a> {
    piece: usize,
    fails: u64,
    most: usize,
    text: &'a str,
}

/// A number and what stands behind it.
fn number(row: &str) -> (u32, &str) {
    let (number, rest) = row.split_once(' ').unwrap_or((row, ""));
    (number.parse::<u32>().unwrap_or(0), rest)
}

fn row_of(row: &str) -> Row<'_> {
    let (piece, row) = number(row);
    let (fails, row) = number(row);
    let (most, text) = number(row);
    Row {
        piece: piece as usize,
        fails: u64::from(fails),
        most: most as usize,
        text,
    }
}

/// The bytes of a text.
fn bytes(alloc: Global, text: &str) -> Vec<u8> {
    let mut bytes = Vec::new(alloc);
    let _ = bytes.extend_from_slice(text.as_bytes());
    bytes
}

/// A list of one number.
fn one(alloc: Global, number: u64) -> Vec<u64> {
    let mut numbers = Vec::new(alloc);
    let _ = numbers.push(number);
    numbers
}

/// Bytes, which are a text, or the number of very many.
fn put_bytes(out: &mut Out, bytes: &[u8]) {
    if bytes.len() > 1000 {
        out.put_number(bytes.len() as u64);
        return;
    }
    out.put(str::from_utf8(bytes).unwrap_or("no text"));
    out.put("|");
}

/// What is read of a source.
fn put_read<S: Source>(out: &mut Out, source: &mut S, most: usize) {
    if most > 16_777_216 {
        return;
    }
    match read_all(out.alloc, source, most) {
        Ok(bytes) => put_bytes(out, bytes.as_slice()),
        Err(ReadFault::Failed) => out.put("failed "),
        Err(ReadFault::TooLong) => out.put("too long "),
        Err(ReadFault::Memory) => out.put("memory "),
    }
}

/// How many calls and faults there were.
fn put_counts(out: &mut Out, calls: u64, faults: u64) {
    out.put_before(calls, " calls ");
    out.put_before(faults, " faults ");
}

/// What is read of a source, how much it gave, and what a second try reads.
pub fn read(out: &mut Out, row: &str) {
    let row = row_of(row);
    let (bytes, fails) = (bytes(out.alloc, row.text), one(out.alloc, row.fails));
    let mut source = MemorySource::new(bytes, row.piece, fails);
    put_read(out, &mut source, row.most);
    if source.faults > 0 {
        out.put_before(source.at as u64, " bytes ");
        put_counts(out, source.calls, source.faults);
        put_read(out, &mut source, row.most);
    }
}

/// What is read of a source that never fails, and of a reader of std.
pub fn surely_read(out: &mut Out, row: &str) {
    let row = row_of(row);
    let mut source = SureSource::new(bytes(out.alloc, row.text), row.piece);
    put_read(out, &mut source, row.most);
    put_read(out, &mut StdSource::new(row.text.as_bytes()), row.most);
}

/// Whether a text is written and the sink is finished.
fn put_write<K: Sink>(out: &mut Out, sink: &mut K, text: &str) {
    let is_written = write_all(sink, text.as_bytes()).is_ok() && sink.finish().is_ok();
    out.put(if is_written { "written " } else { "failed " });
}

/// What is written to a sink.
pub fn write(out: &mut Out, row: &str) {
    let row = row_of(row);
    let mut sink = MemorySink::new(out.alloc, row.piece, one(out.alloc, row.fails));
    put_write(out, &mut sink, row.text);
    put_counts(out, sink.calls, sink.faults);
    out.put(if sink.finished { "finished " } else { "" });
    put_bytes(out, sink.bytes.as_slice());
}

/// What is written to a sink that never fails and has room for so many bytes, and to a writer of
/// std.
pub fn surely_write(out: &mut Out, row: &str) {
    let row = row_of(row);
    if let Ok(mut sink) = SureSink::new(out.alloc, row.most, row.piece) {
        put_write(out, &mut sink, row.text);
        put_bytes(out, sink.bytes.as_slice());
    }
    let mut bytes = Vec::new(out.alloc);
    put_write(out, &mut StdSink::new(&mut bytes), row.text);
    put_bytes(out, bytes.as_slice());
}
