ghost use Rattle.std.specs.Prelude.{◌≡◌};

/// How a call ends. The number of each is the process's exit status.
#[derive(Clone, Copy, Debug, PartialEq, Eq)]
pub enum Status {
    /// A report without a warning of a fault was written, or a certificate or a summary of such a
    /// table, or the transcript of a run that came to its end.
    Done = 0,
    /// A report with a warning of a fault was written, or a certificate or a summary of such a table.
    Warned = 1,
    /// The words are no command line.
    Usage = 2,
    /// The source failed.
    ReadFault = 3,
    /// The sink failed.
    WriteFault = 4,
    /// The text has more than 16,777,216 bytes.
    TooLong = 5,
    /// The bytes are no text.
    NotText = 6,
    /// The text is no program.
    Syntax = 7,
    /// The text leaves the profile.
    Scope = 8,
    /// The text nests too deep, or has too many functions or nodes.
    Limit = 9,
    /// The visits of the budget are spent, and the table isn't closed.
    Spent = 10,
    /// The certificate isn't accepted.
    CertRefused = 11,
    /// The transcript of a run was written that ended at a device that failed.
    DeviceFault = 12,
    /// The transcript of a run that left the profile was written.
    Left = 13,
    /// The transcript of a run was written in which nothing caught a value.
    Uncaught = 14,
    /// The transcript of a run was written that made all of its steps and hadn't ended.
    StepsSpent = 15,
    /// Memory was refused. Nothing was written.
    Memory = 16,
}

impl Status {
    ghost use Rattle.ja_top.specs.Statuses.{code_of};

    /// The exit status.
    pub fn code(self) -> u8
        ensures { result ≡ code_of self }
    {
        self as u8
    }
}
