/// What stands first in the rest of a string literal (ES3 7.8.4), and how many characters it is.
#[derive(Clone, Copy)]
pub enum Item {
    /// A character, as itself or behind `\`.
    Character { character: char, length: usize },
    /// A unit, by its hexadecimal digits, or `\0`.
    Unit { unit: u16, length: usize },
    /// `\` and a digit, but for `\0` before no digit.
    Octal,
    /// No item.
    Wrong,
}
