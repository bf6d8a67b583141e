use ja_base::Seq;
use ja_files::Spot;

/// How grave a message is.
#[derive(Clone, Copy, Debug, PartialEq, Eq)]
pub enum Level {
    /// The text is refused.
    Error,
    /// A fault that certainly comes where the operation is reached.
    Certain,
    /// A fault that may come.
    Possible,
    /// No fault, but what is to be known, as what the analysis doesn't know.
    Note,
}

/// What a message is about.
#[derive(Clone, Copy, Debug, PartialEq, Eq)]
pub enum Rule {
    /// A call of what is no function.
    NotAFunction,
    /// A property of undefined or null.
    NoObject,
    /// A name that nothing binds.
    UnboundName,
    /// A read of what the analysis doesn't know.
    Unknown,
    /// A text that isn't analysed.
    Refused,
}

/// A message about files: what it is about, a spot, if it has one, what is told, and the spots from
/// which calls lead to what it is about.
#[derive(Drop)]
pub struct Message {
    pub level: Level,
    pub rule: Rule,
    pub spot: Option<Spot>,
    pub text: Seq<u8>,
    pub calls: Seq<Spot>,
}

/// A call: the spot of the operation, and that of what it calls.
#[derive(Clone, Copy, Debug, PartialEq, Eq)]
pub struct Link {
    pub from: Spot,
    pub to: Spot,
}
