/// A label (12.12) of a statement around the one that is read, and whether that is a loop.
#[derive(Clone, Copy)]
pub struct Label<'a> {
    pub name: &'a [u16],
    pub is_loop: bool,
}

/// What stands around a statement, within its function.
#[derive(Drop)]
pub struct Context<'a> {
    /// Whether there is a function.
    pub in_function: bool,
    /// Whether there is a loop.
    pub in_loop: bool,
    /// Whether there is a loop or a `switch`.
    pub in_breakable: bool,
    /// The labels, the innermost first.
    pub labels: Vec<Label<'a>>,
}
