//! The files that are read.

ghost use Rattle.std.specs.Prelude.{◌≡◌, ◌≤◌, ℕ, IfOk, IfErr, List, Option, length};
ghost use Rattle.ja_lex.specs.Spots.{max_bytes};
ghost use Rattle.ja_lint_top.specs.Reading.{Holds, IsUnread};

use ja_base::Memory;
use std::alloc::{AllocError, Global};

/// Why a file isn't read.
#[derive(Clone, Copy, Debug, PartialEq, Eq)]
pub enum Unread {
    /// It can't be read, and why, in words: `there is no such file`.
    Failed(&'static [u8]),
    /// It has more than 16,777,216 bytes.
    TooLong,
    /// Memory was refused.
    Memory,
}

/// Where files are read from, by their names. Contracts speak of the bytes that are held under each
/// name, told or not told.
pub trait Files {
    ghost use Rattle.std.specs.Prelude.{ℕ, List, Option};

    /// The bytes under each name, or nothing that can be read, where they are told.
    ghost held: { Self → Option (List ℕ → Option (List ℕ)) };

    /// The bytes of a file, at most 16,777,216 of them.
    ///
    /// # Errors
    ///
    /// `Failed` where nothing can be read under the name, `TooLong` where there are more bytes, and
    /// `Memory` where memory was refused.
    fn read(&mut self, alloc: Global, name: &str) -> Result<Vec<u8>, Unread>
        ensures held { IfOk result (λ bytes. Holds (held self.old) name.now bytes.items) }
        ensures within { IfOk result (λ bytes. length bytes.items ≤ max_bytes) }
        ensures unread { IfErr result (IsUnread (held self.old) name.now) }
        ensures kept { held self.new ≡ held self.old };
}
