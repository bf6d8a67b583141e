//! The answers of the program to words and texts, over memory.

use ja_base::{MemorySink, MemorySource};
use ja_device::{Devices, Scripted};
use ja_top::{Status, tajs};
use std::alloc::Global;
use std::str;

/// The report of the empty text.
pub const EMPTY: &str = "tajs report 1
built yes
warnings 0
edges 0
sites 0
contexts 1
context 0 global.new
entries 0
point 0
this global.new
scope global.new
count 0
point 1
this global.new
scope global.new
count 0
visits 1
step 0 global.new 0
end
";

/// Texts, each with its status, and the answer to it or lines of its report.
const TEXTS: [(&[u8], Status, &str); 26] = [
    (b"", Status::Done, EMPTY),
    (b"x = 3;", Status::Done, "warnings 0\nedges 0\n"),
    (
        b"x = 3;",
        Status::Done,
        "entries 5\nentry global.new x absent ...\nentry global.new [[Prototype]] Object.prototype.new ...\nentry global.new [[Outer]] absent ...\nentry Object.prototype.new x absent ...\nentry Object.prototype.new [[Prototype]] absent ...\n",
    ),
    (
        b"x = 3;",
        Status::Done,
        "point 3\nthis global.new\nscope global.new\ncount 0\nr0 null\nr1 3\nglobal.new x 3 ---\n",
    ),
    (
        b"x = 3; x; y;",
        Status::Warned,
        "warnings 1\n1:11 unbound name certain\nedges 0\n",
    ),
    (b"x = 3; x; y;", Status::Warned, "\npoint 6\n"),
    (
        b"x = 3; x();",
        Status::Warned,
        "warnings 1\n1:9 call of a non-function certain\nedges 0\n",
    ),
    (
        b"x();",
        Status::Warned,
        "warnings 1\n1:1 unbound name certain\nedges 0\n",
    ),
    (b"x", Status::Warned, "1:1 unbound name certain\n"),
    (b"x = (3);; /* */ (x)", Status::Done, "warnings 0\n"),
    (b"x = 3; x.y;", Status::Done, "warnings 0\n"),
    (b"x = 1 + 2;", Status::Done, "\nglobal.new x 3 ---\n"),
    (
        b"x = 3; arguments",
        Status::Warned,
        "warnings 1\n1:8 unbound name certain\nedges 0\n",
    ),
    (
        b"var i = 0; while (i < 3) { i = i + 1; } i();",
        Status::Warned,
        "warnings 1\n1:42 call of a non-function certain\nedges 0\n",
    ),
    (
        b"var s = \"a\"; if (s == \"b\") { s = 1; } throw s;",
        Status::Done,
        "warnings 0\nedges 0\n",
    ),
    (
        b"var s = \"a\"; if (s == \"b\") { s = 1; } throw s;",
        Status::Done,
        "step 0 global.new 11\nstep 0 global.new 15\nstep 0 global.new 16\n",
    ),
    (b"Object();", Status::Done, "\n0 global.new 2 -> "),
    (
        b"x = 1;\n y = x;\nz = y = 9007199254740992;",
        Status::Scope,
        "scope Number 3:9\n",
    ),
    (b"\xc3\xbf", Status::Scope, "scope NonAscii 1:1\n"),
    (b"with (a) {}", Status::Scope, "scope With 1:1\n"),
    (b"/a\"/;", Status::Scope, "scope RegExp 1:1\n"),
    (b"eval(\"1\");", Status::Scope, "scope Eval 1:1\n"),
    (b"010;", Status::Scope, "scope Octal 1:1\n"),
    (b"var x = (", Status::Syntax, "syntax 1:10\n"),
    (b"\xff", Status::NotText, "not text 0\n"),
    (b"x = 3;\xe2\x82", Status::NotText, "not text 6\n"),
];

/// Parts that texts have so many times, between their beginning and their end.
const LONG_TEXTS: [(&[u8], &[u8], usize, &[u8], Status, &str); 10] = [
    (b"", b"(", 200, b"", Status::Syntax, "syntax 1:201\n"),
    (b"", b"(", 201, b"", Status::Limit, "limit depth 200\n"),
    (b"", b" ", 16_777_216, b"", Status::Done, EMPTY),
    (
        b"",
        b" ",
        16_777_217,
        b"",
        Status::TooLong,
        "too long 16777216\n",
    ),
    (b"", b"1;", 65_533, b"", Status::Done, "warnings 0\n"),
    (
        b"",
        b"1;",
        65_534,
        b"",
        Status::Limit,
        "limit nodes 65536\n",
    ),
    (
        b"function f(",
        b"a,",
        65_527,
        b"a) {}",
        Status::Limit,
        "limit nodes 65536\n",
    ),
    (
        b"function f(",
        b"a,",
        65_526,
        b"a) {}",
        Status::Done,
        "warnings 0\n",
    ),
    (
        b"",
        b"function f() {}",
        4_096,
        b"",
        Status::Limit,
        "limit functions 4096\n",
    ),
    (
        b"",
        b"try{}finally{",
        40,
        b"}}}}}}}}}}}}}}}}}}}}}}}}}}}}}}}}}}}}}}}}",
        Status::Limit,
        "limit nodes 65536\n",
    ),
];

/// Texts that are run, each with its status, and lines of its transcript or its refusal.
const RUNS: [(&[u8], Status, &str); 90] = [
    (b"", Status::Done, "end normal\nsteps 2\n"),
    (
        b"x;",
        Status::Uncaught,
        "end uncaught ReferenceError: x is not bound\nsteps 3\n",
    ),
    (b"typeof x;", Status::Done, "end normal\nsteps 5\n"),
    (
        b"var x = 3; x();",
        Status::Uncaught,
        "end uncaught TypeError: call of a value that is not a function\nsteps 8\n",
    ),
    (
        b"throw 4 / 2;",
        Status::Uncaught,
        "end uncaught 2\nsteps 9\n",
    ),
    (
        b"var a = [1, 2, 3]; a.length = 1; throw a[1];",
        Status::Uncaught,
        "end uncaught undefined\n",
    ),
    (
        b"for (k in {p: 1, q: 2}) {} throw k;",
        Status::Uncaught,
        "end uncaught \"q\"\n",
    ),
    (
        b"a: for (;;) { try { break a; } finally { throw 7; } }",
        Status::Uncaught,
        "end uncaught 7\n",
    ),
    (
        b"9007199254740991 + 1;",
        Status::Left,
        "end scope Range 1:18\n",
    ),
    (b"3 / 2;", Status::Left, "end scope Fraction 1:3\n"),
    (b"1 / 0;", Status::Left, "end scope Range 1:3\n"),
    (
        b"var a = [1]; a.length = -1;",
        Status::Uncaught,
        "end uncaught RangeError: array length\n",
    ),
    (b"throw null;", Status::Uncaught, "end uncaught null\n"),
    (b"throw -\"x\";", Status::Uncaught, "end uncaught NaN\n"),
    (b"throw -3;", Status::Uncaught, "end uncaught -3\n"),
    (b"throw 1 == 2;", Status::Uncaught, "end uncaught false\n"),
    (
        b"throw '\\u00e9\\n\"\\\\';",
        Status::Uncaught,
        "end uncaught \"\\u00e9\\u000a\\\"\\\\\"\n",
    ),
    (
        b"throw [];",
        Status::Uncaught,
        "end uncaught object Array\n",
    ),
    (
        b"throw Math;",
        Status::Uncaught,
        "end uncaught object Math\n",
    ),
    (
        b"try { x; } catch (e) { e.message = '\"\\u00e9'; throw e; }",
        Status::Uncaught,
        "end uncaught ReferenceError: \"\\u00e9\n",
    ),
    (
        b"try { x; } catch (e) { e.message = 1; throw e; }",
        Status::Uncaught,
        "end uncaught object Error\n",
    ),
    (
        b"try { x; } catch (e) { e.name = 1; delete e.name; throw e.name; }",
        Status::Uncaught,
        "end uncaught \"ReferenceError\"\n",
    ),
    (
        b"var e = 1; try { throw 2; } catch (e) { e = 3; } throw e;",
        Status::Uncaught,
        "end uncaught 1\n",
    ),
    (
        b"var valueOf = 5; try { throw 1; } catch (e) { throw typeof valueOf; }",
        Status::Uncaught,
        "end uncaught \"function\"\n",
    ),
    (
        b"var a = []; a[4294967294] = a[4294967295] = 1; throw a.length;",
        Status::Uncaught,
        "end uncaught 4294967295\n",
    ),
    (
        b"var a = [1, , 3]; a[\"05\"] = 4; delete a[2]; throw a.length;",
        Status::Uncaught,
        "end uncaught 3\n",
    ),
    (
        b"var a = [1]; a.length = {};",
        Status::Left,
        "end scope LengthObject 1:23\n",
    ),
    (
        b"var t = \"a\\u00e9\\ud83d\"; t.length = 9; throw t.length;",
        Status::Uncaught,
        "end uncaught 3\n",
    ),
    (
        b"for (var s = \"a\"; ; ) s = s + s;",
        Status::Left,
        "end scope TextLength 1:29\n",
    ),
    (
        b"var s = \"\"; for (var k in [7, , 9]) s += k; throw s;",
        Status::Uncaught,
        "end uncaught \"02\"\n",
    ),
    (
        b"var o = {p: 1, q: 2, r: 3}, s = \"\"; for (var k in o) { s += k; delete o.q; } throw s;",
        Status::Uncaught,
        "end uncaught \"pr\"\n",
    ),
    (
        b"for (k in null) {}",
        Status::Uncaught,
        "end uncaught TypeError: property of null or undefined\n",
    ),
    (
        b"a: try { throw 1; } finally { break a; } throw 3;",
        Status::Uncaught,
        "end uncaught 3\n",
    ),
    (
        b"a: for (var i = 0, n = 0; i < 3; i++) { for (;;) { n = n + i; continue a; } } throw n;",
        Status::Uncaught,
        "end uncaught 3\n",
    ),
    (
        b"switch (\"1\") { case 1: throw 1; default: throw 2; case 2: }",
        Status::Uncaught,
        "end uncaught 2\n",
    ),
    (
        b"for (;;) {}",
        Status::StepsSpent,
        "end steps\nsteps 1000000\n",
    ),
    (
        b"throw typeof null + typeof [] + typeof typeof 1;",
        Status::Uncaught,
        "end uncaught \"objectobjectstring\"\n",
    ),
    (b"typeof escape;", Status::Left, "end scope Row 1:8\n"),
    (
        b"var x = 1; y = 2; throw \"\" + delete x + delete y + delete z;",
        Status::Uncaught,
        "end uncaught \"falsetruetrue\"\n",
    ),
    (
        b"throw \"\" + (\"toString\" in {}) + (1 in [7, , 9]);",
        Status::Uncaught,
        "end uncaught \"truefalse\"\n",
    ),
    (
        b"1 in 2;",
        Status::Uncaught,
        "end uncaught TypeError: right operand of in is not an object\n",
    ),
    (
        b"({}) instanceof ({});",
        Status::Uncaught,
        "end uncaught TypeError: right operand of instanceof is not a function\n",
    ),
    (
        b"new {};",
        Status::Uncaught,
        "end uncaught TypeError: new of a value that is not a constructor\n",
    ),
    (
        b"var a = [0, 0], i = 0; a[i] = i = 1; throw a[0];",
        Status::Uncaught,
        "end uncaught 1\n",
    ),
    (
        b"a;\nfunction f() {}",
        Status::Uncaught,
        "end uncaught ReferenceError: a is not bound\nsteps 5\n",
    ),
    (
        b"a(b, function () { function g() {} });",
        Status::Uncaught,
        "end uncaught ReferenceError: b is not bound\nsteps 4\n",
    ),
    (
        b"f(); function f() {}",
        Status::Done,
        "end normal\nsteps 10\n",
    ),
    (
        b"function f(a, b) { return a + typeof b; } throw f(\"x\");",
        Status::Uncaught,
        "end uncaught \"xundefined\"\nsteps 18\n",
    ),
    (
        b"function f(a) { return arguments[2] + arguments.length; } throw f(1, 2, 3);",
        Status::Uncaught,
        "end uncaught 6\nsteps 27\n",
    ),
    (
        b"function f(a, a) { arguments[0] = 5; return a; } throw f(1, 2);",
        Status::Uncaught,
        "end uncaught 2\nsteps 21\n",
    ),
    (
        b"function f(a) { arguments[0] = 2; } f(1);",
        Status::Left,
        "end scope SharedArgument 1:30\nsteps 15\n",
    ),
    (
        b"function f(a) { a = 2; return arguments[0]; } throw f();",
        Status::Uncaught,
        "end uncaught undefined\nsteps 19\n",
    ),
    (
        b"function f(a) { var s = \"\"; for (var k in arguments) { s += k; } return s + arguments.length + (arguments.callee === f); } throw f(7, 8);",
        Status::Uncaught,
        "end uncaught \"2true\"\nsteps 42\n",
    ),
    (
        b"function f(a, b) {} f.length = 9; throw f.length;",
        Status::Uncaught,
        "end uncaught 2\nsteps 15\n",
    ),
    (
        b"function f(a) { var a; return a; } throw f(4);",
        Status::Uncaught,
        "end uncaught 4\nsteps 13\n",
    ),
    (
        b"function f(f) { return typeof f; function f() {} } throw f(1);",
        Status::Uncaught,
        "end uncaught \"function\"\nsteps 15\n",
    ),
    (
        b"throw f(); function f() { return 1; } function f() { return 2; }",
        Status::Uncaught,
        "end uncaught 2\nsteps 12\n",
    ),
    (
        b"throw typeof f; var f; function f() {}",
        Status::Uncaught,
        "end uncaught \"function\"\nsteps 8\n",
    ),
    (
        b"var f = 1; function f() {} throw typeof f;",
        Status::Uncaught,
        "end uncaught \"number\"\nsteps 11\n",
    ),
    (
        b"var x = 1; function f() { throw x; var x = 2; } f();",
        Status::Uncaught,
        "end uncaught undefined\nsteps 16\n",
    ),
    (
        b"function f() { g = 3; var h = 4; } f(); throw typeof h + g;",
        Status::Uncaught,
        "end uncaught \"undefined3\"\nsteps 25\n",
    ),
    (
        b"var n = 1; try { g(n = 2); } catch (e) {} throw n;",
        Status::Uncaught,
        "end uncaught 2\nsteps 18\n",
    ),
    (
        b"function fib(n) { return n < 2 ? n : fib(n - 1) + fib(n - 2); } throw fib(10);",
        Status::Uncaught,
        "end uncaught 55\nsteps 4333\n",
    ),
    (
        b"function f(n) { if (n) { f(n - 1); } } f(10000);",
        Status::Done,
        "end normal\nsteps 180015\n",
    ),
    (
        b"function f(n) { var o = {p: null}, c; if (n) { c = f(false); o.p = 1; c.p.x; } return o; } f(true);",
        Status::Uncaught,
        "end uncaught TypeError: property of null or undefined\nsteps 56\n",
    ),
    (
        b"var g = function f(n) { f = 1; return n ? f(n - 1) : typeof f; }; throw g(2) + typeof f;",
        Status::Uncaught,
        "end uncaught \"functionundefined\"\nsteps 75\n",
    ),
    (
        b"function counter() { var n = 0; return {up: function () { return ++n; }}; } var a = counter(), b = counter(); a.up(); throw \"\" + a.up() + b.up();",
        Status::Uncaught,
        "end uncaught \"21\"\nsteps 88\n",
    ),
    (
        b"var fs = [], i = 0; function make(n) { return function () { return n; }; } for (; i < 2; i++) { fs[i] = [make(i), function () { return i; }]; } throw \"\" + fs[0][0]() + fs[1][0]() + fs[0][1]();",
        Status::Uncaught,
        "end uncaught \"012\"\nsteps 164\n",
    ),
    (
        b"var o = {f: function () { return this === o; }}; throw \"\" + o.f() + (0, o.f)();",
        Status::Uncaught,
        "end uncaught \"truefalse\"\nsteps 42\n",
    ),
    (
        b"var h = this; function f() { function g() { return this === h; } return g(); } throw f();",
        Status::Uncaught,
        "end uncaught true\nsteps 24\n",
    ),
    (
        b"var h = this; throw (function g(n) { return n ? g(0) : this === h; })(1);",
        Status::Uncaught,
        "end uncaught false\nsteps 36\n",
    ),
    (
        b"var h = this; try { throw function () { return this === h; }; } catch (e) { throw e(); }",
        Status::Uncaught,
        "end uncaught false\nsteps 21\n",
    ),
    (
        b"var f; try { throw 5; } catch (e) { f = function () { return e; }; } var e = 6; throw f() + e;",
        Status::Uncaught,
        "end uncaught 11\nsteps 29\n",
    ),
    (
        b"function f() { a: for (;;) { try { throw 3; } catch (e) { var g = function () { return e; }; break a; } } return g() + typeof e; } throw f();",
        Status::Uncaught,
        "end uncaught \"3undefined\"\nsteps 36\n",
    ),
    (
        b"function f() { try { throw 1; } finally { return 2; } } throw f();",
        Status::Uncaught,
        "end uncaught 2\nsteps 15\n",
    ),
    (
        b"function f() { for (;;) { try { return 1; } finally { break; } } return 2; } throw f();",
        Status::Uncaught,
        "end uncaught 2\nsteps 15\n",
    ),
    (
        b"var s = \"\"; function f() { try { g(); } finally { s += \"f\"; } } function g() { try { throw 1; } finally { s += \"g\"; } } try { f(); } catch (e) { s += e; } throw s;",
        Status::Uncaught,
        "end uncaught \"gf1\"\nsteps 59\n",
    ),
    (
        b"function C() { return 3; } throw new C() instanceof C;",
        Status::Uncaught,
        "end uncaught true\nsteps 13\n",
    ),
    (
        b"function C() { this.p = 1; return {p: 2}; } throw new C().p;",
        Status::Uncaught,
        "end uncaught 2\nsteps 21\n",
    ),
    (
        b"function C() { this.n = arguments.length; } throw \"\" + new C(1, 2).n + (new C).n;",
        Status::Uncaught,
        "end uncaught \"20\"\nsteps 49\n",
    ),
    (
        b"function C() { this.g = 6; } C(); throw g;",
        Status::Uncaught,
        "end uncaught 6\nsteps 17\n",
    ),
    (
        b"function A() {} A.prototype.m = function () { return this.n; }; function B(n) { this.n = n; } B.prototype = new A(); throw new B(8).m();",
        Status::Uncaught,
        "end uncaught 8\nsteps 49\n",
    ),
    (
        b"function C() {} throw new C().constructor === C;",
        Status::Uncaught,
        "end uncaught true\nsteps 16\n",
    ),
    (
        b"function C() { this.a = 1; } C.prototype.b = 2; var s = \"\"; for (var k in new C()) { s += k; } throw s;",
        Status::Uncaught,
        "end uncaught \"ab\"\nsteps 56\n",
    ),
    (
        b"function C() {} var s = \"\"; for (var k in C) { s += k; } throw s + C.length;",
        Status::Uncaught,
        "end uncaught \"prototype0\"\nsteps 35\n",
    ),
    (
        b"function C() {} C.prototype = 3; ({}) instanceof C;",
        Status::Uncaught,
        "end uncaught TypeError: prototype is not an object\nsteps 13\n",
    ),
    (
        b"function f() {} throw typeof f + (f instanceof f);",
        Status::Uncaught,
        "end uncaught \"functionfalse\"\nsteps 15\n",
    ),
    (
        b"throw function () {};",
        Status::Uncaught,
        "end uncaught object Function\nsteps 3\n",
    ),
    (b"var x = (", Status::Syntax, "syntax 1:10\n"),
    (b"with (a) {}", Status::Scope, "scope With 1:1\n"),
];

const USAGE: &str =
    "usage: tajs analyse [--cert] [--budget N] | check | run [--steps N] | generate --number N\n";

/// Words, and the numbers of the read and of the write that fail, 0 for none.
const CALLS: [(&[&str], u64, u64, Status, &str); 20] = [
    (&[], 0, 0, Status::Usage, USAGE),
    (&["analyze"], 0, 0, Status::Usage, USAGE),
    (&["analyse", "analyse"], 0, 0, Status::Usage, USAGE),
    (&["run", "x"], 0, 0, Status::Usage, USAGE),
    (&["run", "--steps"], 0, 0, Status::Usage, USAGE),
    (&["run", "--steps", "height"], 0, 0, Status::Usage, USAGE),
    (
        &["analyse", "--budget", "Height"],
        0,
        0,
        Status::Usage,
        USAGE,
    ),
    (
        &["analyse", "--budget", "height"],
        0,
        0,
        Status::Done,
        "\nwarnings 0\n",
    ),
    (&["run", "--steps", "0"], 0, 0, Status::Usage, USAGE),
    (&["run", "--steps", "01"], 0, 0, Status::Usage, USAGE),
    (&["run", "--steps", "+1"], 0, 0, Status::Usage, USAGE),
    (&["run", "--steps", "10000001"], 0, 0, Status::Usage, USAGE),
    (&["--steps", "1", "run"], 0, 0, Status::Usage, USAGE),
    (
        &["run", "--steps", "1"],
        0,
        0,
        Status::StepsSpent,
        "tajs run 1\nend steps\nsteps 1\n",
    ),
    (
        &["run", "--steps", "2"],
        0,
        0,
        Status::Done,
        "tajs run 1\nend normal\nsteps 2\n",
    ),
    (
        &["run", "--steps", "10000000"],
        0,
        0,
        Status::Done,
        "tajs run 1\nend normal\nsteps 2\n",
    ),
    (&["run"], 1, 0, Status::ReadFault, "read fault\n"),
    (&["run"], 0, 2, Status::WriteFault, "tajs run 1"),
    (&["analyse"], 1, 0, Status::ReadFault, "read fault\n"),
    (&["analyse"], 0, 2, Status::WriteFault, "tajs repor"),
];

/// A list of one number.
fn one(alloc: Global, number: u64) -> Vec<u64> {
    let mut numbers = Vec::new(alloc);
    let _ = numbers.push(number);
    numbers
}

/// Words. Where memory is refused some are missing, and the test fails.
pub fn words(alloc: Global, texts: &[&str]) -> Vec<String> {
    let mut words = Vec::new(alloc);
    for text in texts {
        if let Ok(word) = String::from_str(alloc, text) {
            let _ = words.push(word);
        }
    }
    words
}

/// A part so many times, between what stands before and behind it.
pub fn repeated(alloc: Global, before: &[u8], part: &[u8], count: usize, behind: &[u8]) -> Vec<u8> {
    let mut text = Vec::new(alloc);
    let _ = text.extend_from_slice(before);
    for _ in 0..count {
        let _ = text.extend_from_slice(part);
    }
    let _ = text.extend_from_slice(behind);
    text
}

/// The status, the source and the sink of a call without devices, of which the source fails at one
/// call and the sink at another. What is written is taken in pieces of 10 bytes; the text is read
/// in pieces of 7, a long one in longer ones.
pub fn answered(
    alloc: Global,
    texts: &[&str],
    text: Vec<u8>,
    read: u64,
    write: u64,
) -> (Status, MemorySource, MemorySink) {
    let piece = if text.len() < 1000 { 7 } else { 65_536 };
    let mut source = MemorySource::new(text, piece, one(alloc, read));
    let mut sink = MemorySink::new(alloc, 10, one(alloc, write));
    let none: Vec<Scripted> = Vec::new(alloc);
    let status = match Devices::new(none) {
        Ok(devices) => tajs(alloc, &words(alloc, texts), &mut source, &mut sink, devices).0,
        Err(_) => Status::DeviceFault,
    };
    (status, source, sink)
}

/// Whether what was written is the answer, or a report or a transcript with these lines.
pub fn is_answer(written: &[u8], lines: &str) -> bool {
    match str::from_utf8(written) {
        Ok(text) => {
            let has_lines = text.starts_with("tajs report 1\n") || text.starts_with("tajs run 1\n");
            text == lines || has_lines && text.contains(lines)
        }
        Err(_) => false,
    }
}

#[test]
fn answers(rt: HostRuntime) {
    let alloc = rt.alloc();
    for (text, status, lines) in &TEXTS {
        let text = repeated(alloc, text, b"", 0, b"");
        let (found, _, sink) = answered(alloc, &["analyse"], text, 0, 0);
        assert_eq!(rt; found, *status, "{lines}");
        assert!(rt; is_answer(&sink.bytes, lines), "{lines}");
    }
    let (_, _, sink) = answered(
        alloc,
        &["analyse"],
        repeated(alloc, b"x = 3; x; y;", b"", 0, b""),
        0,
        0,
    );
    assert!(rt; !is_answer(&sink.bytes, "\npoint 7\n"));
    for (before, part, count, behind, status, lines) in &LONG_TEXTS {
        let text = repeated(alloc, before, part, *count, behind);
        let (found, _, sink) = answered(alloc, &["analyse"], text, 0, 0);
        assert_eq!(rt; found, *status, "{lines}");
        assert!(rt; is_answer(&sink.bytes, lines), "{lines}");
    }
    for (text, status, lines) in &RUNS {
        let text = repeated(alloc, text, b"", 0, b"");
        let (found, _, sink) = answered(alloc, &["run"], text, 0, 0);
        assert_eq!(rt; found, *status, "{lines}");
        assert!(rt; is_answer(&sink.bytes, lines), "{lines}");
    }
    for (texts, read, write, status, lines) in &CALLS {
        let (found, _, sink) = answered(alloc, texts, Vec::new(alloc), *read, *write);
        assert_eq!(rt; found, *status, "{lines}");
        assert!(rt; is_answer(&sink.bytes, lines), "{lines}");
    }
}
