//! What words may ask for.

/// How many visits an analysis makes at most.
#[derive(Clone, Copy, Debug, PartialEq, Eq)]
pub enum Budget {
    /// So many (at least 1).
    Visits(u128),
    /// As many as its program is high, which are always enough.
    Height,
}

/// A command, with its options.
#[derive(Clone, Copy, Debug, PartialEq, Eq)]
pub enum Command {
    /// The analysis of a program within a budget; `cert` asks for its certificate in place of the
    /// report.
    Analyse { cert: bool, budget: Budget },
    /// The check of a certificate.
    Check,
    /// A run of a program, of at most so many steps (1 to 10,000,000).
    Run { steps: u64 },
    /// The generated program with so many classes (1 to 200).
    Generate { number: u32 },
}
