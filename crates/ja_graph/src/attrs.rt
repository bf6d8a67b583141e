/// The attributes of a property (ES3 8.6.1).
#[derive(Clone, Copy, Debug, PartialEq, Eq)]
pub struct Attrs {
    pub read_only: bool,
    pub dont_enum: bool,
    pub dont_delete: bool,
}

/// No attribute is set.
pub const NO_ATTRS: Attrs = Attrs {
    read_only: false,
    dont_enum: false,
    dont_delete: false,
};

/// DontEnum alone: of a `constructor` (13.2), of what an arguments object has (10.1.8), and of most
/// built-in properties (15).
pub const DONT_ENUM: Attrs = Attrs {
    read_only: false,
    dont_enum: true,
    dont_delete: false,
};

/// DontDelete alone: of a variable (10.1.3).
pub const DONT_DELETE: Attrs = Attrs {
    read_only: false,
    dont_enum: false,
    dont_delete: true,
};

/// DontEnum and DontDelete: of an array's length (15.4.5.2).
pub const KEPT_HIDDEN: Attrs = Attrs {
    read_only: false,
    dont_enum: true,
    dont_delete: true,
};

/// ReadOnly, DontEnum and DontDelete: of the length of a text (15.5.5.1) and of a function
/// (15.3.5.1).
pub const ALL_ATTRS: Attrs = Attrs {
    read_only: true,
    dont_enum: true,
    dont_delete: true,
};
