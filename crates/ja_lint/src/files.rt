//! The files of the host.

ghost use Rattle.std.specs.Prelude.{◌≤◌, IfOk, None, length};

use ja_base::{ReadFault, StdSource, read_all};
use ja_lint_top::{Files, Unread};
use ja_top::MAX_BYTES;
use std::alloc::Global;
use std::fs::File;
use std::io::{self, Read};

/// The files of the host, and its standard input under the name `-`. Nothing is told of what they
/// hold.
#[derive(Drop)]
pub(crate) struct HostFiles<'a> {
    pub rt: &'a HostRuntime,
}

// All bytes of a reader, up to the limit.
fn bytes_of<R: Read + Drop>(alloc: Global, reader: R) -> Result<Vec<u8>, Unread>
    ensures { IfOk result (λ bytes. length bytes.items ≤ 16777216) }
{
    let mut source = StdSource::new(reader);
    match read_all(alloc, &mut source, MAX_BYTES) {
        Ok(bytes) => Ok(bytes),
        Err(ReadFault::Failed) => Err(Unread::Failed(b"reading it failed")),
        Err(ReadFault::TooLong) => Err(Unread::TooLong),
        Err(ReadFault::Memory) => Err(Unread::Memory),
    }
}

// Why a file isn't opened, in words.
fn reason(error: &io::Error) -> &'static [u8] {
    match error.kind() {
        io::ErrorKind::NotFound => b"there is no such file",
        io::ErrorKind::PermissionDenied => b"its permissions forbid it",
        _ => b"it can't be opened",
    }
}

// Whether a file is a folder, which can be opened too.
fn is_folder(file: &File) -> bool {
    match file.metadata() {
        Ok(metadata) => metadata.is_dir(),
        Err(_) => false,
    }
}

impl Files for HostFiles<'_> {
    ghost held = { λ _. None };

    fn read(&mut self, alloc: Global, name: &str) -> Result<Vec<u8>, Unread> {
        if name == "-" {
            return bytes_of(alloc, self.rt.stdin());
        }
        match File::open(self.rt, name) {
            Ok(file) => {
                if is_folder(&file) {
                    return Err(Unread::Failed(b"it is a folder"));
                }
                bytes_of(alloc, file)
            }
            Err(error) => Err(Unread::Failed(reason(&error))),
        }
    }
}
