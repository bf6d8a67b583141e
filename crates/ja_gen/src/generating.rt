//! The program of a number, written.

ghost use Rattle.std.specs.Prelude.{◌≡◌, ◌≤◌, ◌<◌, ◌++◌, ◌^◌, IfOk, OnOk, length};
ghost use Rattle.std.specs.String.{string_bytes};
ghost use Rattle.ja_gen.specs.Generated.{class_text, generated_text, max_number};

use ja_base::Memory;
use std::alloc::Global;

// Adds the lines of a class.
fn push_class(text: &mut String, i: u32) -> Result<(), Memory>
    ensures { OnOk result (string_bytes text.new ≡ string_bytes text.old ++ class_text i) }
{
    writeln!(text, "function C{i}(a) {{ this.p = a; }}")?;
    writeln!(text, "C{i}.prototype.m = function () {{ return this.p; }};")?;
    writeln!(text, "var o{i} = new C{i}({i});")?;
    writeln!(text, "var r{i} = id(o{i}.m());")?;
    Ok(())
}

/// The program with so many classes, 1 to 200, numbered from 1: a text of ASCII, of less than
/// 32,768 bytes. It makes one object of each class and calls its method once, and every result goes
/// through the one function `id`.
///
/// # Errors
///
/// `Memory` where memory is refused.
#[tactic(auto, unfolding(crate::specs::Generated::generated_text))]
pub fn generate(alloc: Global, number: u32) -> Result<String, Memory>
    requires low { 1 ≤ number }
    requires high { number ≤ max_number }
    ensures text { IfOk result (λ text. string_bytes text ≡ generated_text number) }
    ensures short { IfOk result (λ text. length (string_bytes text) < 2 ^ 15) }
{
    let mut text = String::from_str(alloc, "function id(x) { return x; }\n")?;
    for i in 1..number + 1 {
        push_class(&mut text, i)?;
    }
    Ok(text)
}
