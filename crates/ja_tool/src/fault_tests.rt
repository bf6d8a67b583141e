//! Each call of a source and of a sink that fails in its turn, certificates that are cut off, and
//! devices that fail in longer runs.

use crate::device_tests::{four, silent, with_devices};
use crate::tests::{EMPTY, answered, is_answer, repeated};
use ja_base::Memory;
use ja_device::{Device, Scripted};
use ja_host::input;
use ja_top::Status;
use std::alloc::Global;

/// A usual program, which calls `input`, `number` and `print`.
const USUAL: &[u8] = b"\
function Account(owner) { this.owner = owner; this.total = 0; this.log = []; }
Account.prototype.add = function (n) {
  if (typeof n != \"number\") { throw new TypeError(\"amount\"); }
  this.total = this.total + n;
  this.log.push(n);
  return this;
};
function counter() { var k = 0; return function () { k = k + 1; return k; }; }
var next = counter(), a = new Account(\"ann\"), b = new Account(\"bob\");
while (input()) {
  try { a.add(number()).add(next()); b.add(\"x\"); }
  catch (e) { print(e.message); }
}
for (var i = 0; i < a.log.length; i++) { print(a.log[i]); }
print(a.owner + \":\" + a.total);
";

/// A loop whose objects have a property that is read.
const LOOP: &[u8] = b"var o, i = 0; while (i < 3) { i = i + 1; o = {}; o.p = 1; o.p.q; }";

/// The text as a list of its own.
fn text(alloc: Global, bytes: &[u8]) -> Vec<u8> {
    repeated(alloc, bytes, b"", 0, b"")
}

/// The number of the first call of the source whose failure isn't answered as one, of an analysis
/// of the usual program.
fn first_read_passed_over(alloc: Global) -> Option<u64> {
    let (_, whole, _) = answered(alloc, &["run"], text(alloc, USUAL), 0, 0);
    for before in 0..whole.calls {
        let call = before + 1;
        let (status, _, sink) = answered(alloc, &["analyse"], text(alloc, USUAL), call, 0);
        if status != Status::ReadFault || sink.bytes.as_slice() != b"read fault\n".as_slice() {
            return Some(call);
        }
    }
    None
}

/// The number of the first call of the sink, its finish the last, whose failure isn't answered as
/// one, behind the pieces that were written before, of the report of the empty text.
fn first_write_passed_over(alloc: Global) -> Option<u64> {
    let (_, _, whole) = answered(alloc, &["analyse"], Vec::new(alloc), 0, 0);
    for before in 0..whole.calls {
        let call = before + 1;
        let (status, _, sink) = answered(alloc, &["analyse"], Vec::new(alloc), 0, call);
        let written = before.saturating_mul(10).min(EMPTY.len() as u64) as usize;
        let front = &EMPTY.as_bytes()[..written];
        if status != Status::WriteFault || sink.bytes.as_slice() != front || sink.finished {
            return Some(call);
        }
    }
    None
}

/// Whether the certificate of the loop is no JSON where it is cut behind so many bytes.
fn is_no_json_cut(alloc: Global, certificate: &[u8], length: usize) -> bool {
    let cut = text(alloc, &certificate[..length.min(certificate.len())]);
    let (status, _, sink) = answered(alloc, &["check"], cut, 0, 0);
    status == Status::CertRefused && sink.bytes.as_slice() == b"certificate json\n".as_slice()
}

/// Whether a list in 199 others is no certificate's JSON.
fn is_no_json_deep(alloc: Global) -> bool {
    let half = repeated(alloc, b"", b"[", 200, b"");
    let (status, _, sink) = answered(
        alloc,
        &["check"],
        repeated(alloc, &half, b"]", 200, b""),
        0,
        0,
    );
    status == Status::CertRefused && sink.bytes.as_slice() == b"certificate json\n".as_slice()
}

// ---- devices

/// Whether a run of the usual program ends at the second call of `input`, which fails, and the
/// three others come back.
fn input_fails(alloc: Global) -> Result<bool, Memory> {
    let (status, written, left) = with_devices(alloc, USUAL, four(alloc, 2, 0)?);
    let transcript =
        "tajs run 1\ncall input() = true\ncall number() = 0\ncall print(\"amount\") = undefined\nend device input\n";
    Ok(
        status == Status::DeviceFault
            && is_answer(&written, transcript)
            && left.len() == 3
            && left[0].name() == "number"
            && left[2].name() == "print",
    )
}

/// Whether a run ends at the first call of `print`, which fails, and the three others come back.
fn print_fails(alloc: Global) -> Result<bool, Memory> {
    let text = b"var a = 1; print(delete a, a); b = 2; print(delete b); b;";
    let (status, written, left) = with_devices(alloc, text, four(alloc, 0, 1)?);
    Ok(
        status == Status::DeviceFault
            && is_answer(&written, "tajs run 1\nend device print\n")
            && left.len() == 3
            && left[2].name() == "text",
    )
}

/// 63 devices with a name of their own, and `input` behind them, which fails at its second call.
fn sixty_four(alloc: Global) -> Result<Vec<Scripted>, Memory> {
    let mut list = Vec::new(alloc);
    for number in 0..63u8 {
        let mut name = String::new(alloc);
        name.push('d')?;
        name.push((b'0' + number / 10) as char)?;
        name.push((b'0' + number % 10) as char)?;
        list.push(silent(alloc, &name)?)?;
    }
    let mut last = input(alloc)?;
    last.fail_at.push(2)?;
    list.push(last)?;
    Ok(list)
}

/// Whether the names of devices are those of the first of the others, in order.
fn are_in_order(left: &[Scripted], others: &[Scripted]) -> bool {
    for (one, other) in left.iter().zip(others) {
        if one.name() != other.name() {
            return false;
        }
    }
    true
}

/// Whether a run ends at the second call of the last of 64 devices, which fails, and the 63 others
/// come back in order.
fn the_last_one_fails(alloc: Global) -> Result<bool, Memory> {
    let text = b"var n = 0; if (input()) { n = 1; } input();";
    let (status, written, left) = with_devices(alloc, text, sixty_four(alloc)?);
    let transcript = "tajs run 1\ncall input() = true\nend device input\nsteps 17\n";
    let handed_in = sixty_four(alloc)?;
    Ok(
        status == Status::DeviceFault
            && is_answer(&written, transcript)
            && left.len() == 63
            && are_in_order(&left, &handed_in),
    )
}

#[test]
fn faults(rt: HostRuntime) {
    let alloc = rt.alloc();
    assert_eq!(rt; first_read_passed_over(alloc), None);
    assert_eq!(rt; first_write_passed_over(alloc), None);
    let (status, _, sink) = answered(alloc, &["analyse", "--cert"], text(alloc, LOOP), 0, 0);
    assert_eq!(rt; status, Status::Done);
    let brace = sink.bytes.len().saturating_sub(2);
    for length in [1, brace / 2, brace] {
        assert!(rt; is_no_json_cut(alloc, &sink.bytes, length), "{length}");
    }
    assert!(rt; is_no_json_deep(alloc));
    assert_eq!(rt; input_fails(alloc), Ok(true));
    assert_eq!(rt; print_fails(alloc), Ok(true));
    assert_eq!(rt; the_last_one_fails(alloc), Ok(true));
}
