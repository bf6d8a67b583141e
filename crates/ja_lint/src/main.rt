//! Tells the type faults of a JavaScript program at its lines, before it runs.
#![tactic(auto)]

mod files;

use crate::files::HostFiles;
use ja_base::StdSink;
use ja_host::{WordsFault, words};
use ja_lint_top::{Status, lint};
use std::io::Write;
use std::process::ExitCode;

// Answers the words, over the files of the host, standard output and standard error.
fn answered(rt: &HostRuntime, words: &[String]) -> Status {
    let mut files = HostFiles { rt };
    let mut sink = StdSink::new(rt.stdout());
    let mut errors = StdSink::new(rt.stderr());
    lint(rt.alloc(), words, &mut files, &mut sink, &mut errors)
}

// Says why there are no words to answer, as far as standard error takes it.
fn unread(rt: &HostRuntime, fault: WordsFault) -> Status {
    let line = match fault {
        WordsFault::NotText => "tajs-lint: the words can't be read\n",
        WordsFault::Memory => "tajs-lint: memory was refused\n",
    };
    let _ = rt.stderr().write_all(line.as_bytes());
    Status::Unfinished
}

fn main(rt: HostRuntime) -> ExitCode {
    let status = match words(&rt) {
        Ok(words) => answered(&rt, &words),
        Err(fault) => unread(&rt, fault),
    };
    ExitCode::from(status.code())
}
