//! The words of a call.

ghost use Rattle.std.specs.Prelude.{◌≡◌, ◌⊎◌, IfErr, IfOk, drop};
ghost use Rattle.std.specs.IoError.{error_kind};
ghost use Rattle.std.specs.Vec.Iter.{into_iter_items};
ghost use Rattle.ja_host.specs.code.Arguments.{fault_of};

use std::alloc::Global;
use std::{env, io};

/// Why the words of a call can't be had: one is no text, or memory was refused.
#[derive(Clone, Copy)]
pub enum WordsFault {
    NotText,
    Memory,
}

// Why the host doesn't hand them over.
fn refused(error: &io::Error) -> WordsFault
    ensures { result ≡ fault_of (error_kind error.now) }
{
    match error.kind() {
        io::ErrorKind::InvalidData => WordsFault::NotText,
        _ => WordsFault::Memory,
    }
}

// The arguments without the first, which is the program's name.
fn behind_name(alloc: Global, arguments: env::Args) -> Result<Vec<String>, WordsFault>
    ensures words { IfOk result (λ words. words.items ≡ drop 1 (into_iter_items arguments)) }
    ensures memory { IfErr result (λ fault. fault ≡ WordsFault.Memory) }
{
    match arguments.skip(1).collect(alloc) {
        Ok(words) => Ok(words),
        Err(_) => Err(WordsFault::Memory),
    }
}

/// The words after the program's name: `NotText` where one is no text, and `Memory` where memory was
/// refused. What the host hands over is told by no clause of `std`.
pub fn words(rt: &HostRuntime) -> Result<Vec<String>, WordsFault>
    ensures { IfErr result (λ fault. (fault ≡ WordsFault.NotText) ⊎ (fault ≡ WordsFault.Memory)) }
{
    match env::args(rt) {
        Ok(arguments) => behind_name(rt.alloc(), arguments),
        Err(error) => Err(refused(&error)),
    }
}
