//! What a call comes to.

ghost use Rattle.std.specs.Prelude.{◌≡◌, IfOk};
ghost use Rattle.ja_lint_top.specs.Replies as spec;
ghost use Rattle.ja_lint_top.specs.Replies.{Fails, Says};
ghost use Rattle.ja_lint_top.specs.code.Answers.{reply_of};

use ja_base::Memory;
use std::alloc::Global;

/// How a call ends. The number of each is the process's exit status.
#[derive(Clone, Copy, Debug, PartialEq, Eq)]
pub enum Status {
    /// The files have no warning of a fault; or help, or the version, was asked for.
    Clean = 0,
    /// They have one.
    Faulty = 1,
    /// There is no answer: the words are none, a file isn't read, a text is refused, the visits are
    /// spent, memory was refused, or the output failed. A line of standard error says which.
    Unfinished = 2,
}

impl Status {
    ghost use Rattle.ja_lint_top.specs.Replies.{code_of};

    /// The exit status.
    pub fn code(self) -> u8
        ensures { result ≡ code_of self }
    {
        self as u8
    }
}

/// What is written: to the output, and to standard error.
#[derive(Drop)]
pub(crate) struct Reply {
    pub status: Status,
    pub out: Vec<u8>,
    pub line: Vec<u8>,
}

/// The line that says why there is no answer.
pub(crate) fn told_line(alloc: Global, words: &[u8]) -> Result<Vec<u8>, Memory>
    ensures { IfOk result (λ line. line.items ≡ spec.told_line words.now) }
{
    let mut line = Vec::new(alloc);
    line.extend_from_slice(b"tajs-lint: ")?;
    line.extend_from_slice(words)?;
    line.push(b'\n')?;
    Ok(line)
}

/// No answer, but why.
pub(crate) fn fail(alloc: Global, words: &[u8]) -> Result<Reply, Memory>
    ensures { IfOk result (λ r. Fails words.now (reply_of r)) }
{
    let line = told_line(alloc, words)?;
    Ok(Reply {
        status: Status::Unfinished,
        out: Vec::new(alloc),
        line,
    })
}

/// A text that was asked for.
pub(crate) fn say(alloc: Global, text: &[u8]) -> Result<Reply, Memory>
    ensures { IfOk result (λ r. Says text.now (reply_of r)) }
{
    let mut out = Vec::new(alloc);
    out.extend_from_slice(text)?;
    Ok(Reply {
        status: Status::Clean,
        out,
        line: Vec::new(alloc),
    })
}
