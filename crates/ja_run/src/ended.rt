use ja_base::{Place, ScopeKind, Seq};
use ja_prim::Primitive;

/// A call that a device answered: its number, the arguments, and the answer.
#[derive(Drop)]
pub struct CallRecord {
    pub device: u32,
    pub args: Seq<Primitive>,
    pub answer: Primitive,
}

/// How a run ends.
#[derive(Drop)]
pub enum RunEnd {
    /// The program came to its end.
    Normal,
    /// Nothing caught a value, which this text tells.
    Uncaught(Seq<u8>),
    /// The run leaves the profile at this place.
    Scope { kind: ScopeKind, place: Place },
    /// The device of this number was asked, and failed.
    Device { which: u32 },
    /// As many steps as it may make are made, and it has not ended.
    Limit,
}

/// A run: how many steps were made, the last one among them, the calls that devices answered, in
/// order, and how it ended.
#[derive(Drop)]
pub struct Ended {
    pub steps: u64,
    pub calls: Seq<CallRecord>,
    pub end: RunEnd,
}
