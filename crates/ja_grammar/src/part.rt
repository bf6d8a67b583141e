use ja_base::Place;

/// A part of an expression that stands one level below a token that counts.
#[derive(Clone, Copy, Debug, PartialEq, Eq)]
pub enum ExpressionPart {
    /// An expression, with commas (11.14); `no_in`: without the operator `in`.
    Whole { no_in: bool },
    /// An assignment expression (11.13).
    Assignment { no_in: bool },
    /// The operand of a prefix operator (11.4).
    Unary,
    /// The operand of `++` or `--`, which stands at `place`.
    Updated { place: Place },
    /// What stands behind the `new` at `place`.
    Created { place: Place },
}

/// A statement, or what stands behind its first word at `place`, one level below a token that
/// counts.
#[derive(Clone, Copy, Debug, PartialEq, Eq)]
pub enum StatementPart {
    /// A statement. The `labels` innermost labels stand directly before it. `outermost`: it stands
    /// directly in the program or in the body of a function.
    Whole { labels: usize, outermost: bool },
    /// The rest of an `if`.
    If { place: Place },
    /// The rest of a `do`.
    Do { place: Place, labels: usize },
    /// The rest of a `while`.
    While { place: Place, labels: usize },
    /// The rest of a `for`.
    For { place: Place, labels: usize },
}
