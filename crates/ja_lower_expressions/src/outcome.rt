use crate::special::Special;
use ja_base::{NameId, Place, Reg};

/// What an expression comes to (ES3 8.7): in registers its value, or a reference with the place of
/// its name or member; or a special form, with the place of its name.
#[derive(Clone, Copy, Debug, PartialEq, Eq)]
pub enum Outcome {
    Value(Reg),
    /// The object of the scope chain that has the name, or null.
    Name {
        base: Reg,
        name: NameId,
        place: Place,
    },
    Member {
        object: Reg,
        key: Reg,
        place: Place,
    },
    Special {
        form: Special,
        place: Place,
    },
}
