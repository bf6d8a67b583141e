use ja_base::{FnId, NameId, NodeId, Place, Reg, ScopeKind, Seq, Site};
use ja_prim::Primitive;

/// The kinds of errors (ES3 15.11.1, 15.11.6).
#[derive(Clone, Copy, Debug, PartialEq, Eq)]
pub enum ErrorKind {
    Error,
    EvalError,
    RangeError,
    ReferenceError,
    SyntaxError,
    TypeError,
    URIError,
}

/// What an object is made as: its class and its prototype.
#[derive(Clone, Copy, Debug, PartialEq, Eq)]
pub enum Made {
    Object,
    Array,
    Error(ErrorKind),
}

/// The sites of the objects that a conversion of a primitive makes (9.9), by its type.
#[derive(Clone, Copy, Debug, PartialEq, Eq)]
pub struct Wrappers {
    pub boolean: Site,
    pub number: Site,
    pub text: Site,
}

/// The arguments of a call: registers, the elements of an array or arguments object, or the
/// arguments of the caller from the second on.
#[derive(Drop)]
pub enum Args {
    Registers(Seq<Reg>),
    Elements(Reg),
    Tail,
}

/// Which default value of an object is asked for (8.6.2.6).
#[derive(Clone, Copy, Debug, PartialEq, Eq)]
pub enum Hint {
    Number,
    Text,
}

/// An operation on one value.
#[derive(Clone, Copy, Debug, PartialEq, Eq)]
pub enum UnaryOp {
    /// 9.3, on primitives.
    ToNum,
    /// 9.8, on primitives.
    ToText,
    /// 11.4.7, on numbers.
    Neg,
    /// 11.4.8, on numbers.
    BitNot,
    /// 9.2.
    ToBool,
    /// 11.4.9, on truth values.
    Not,
    /// 11.4.3.
    TypeOf,
}

/// An operation on two values: on primitives, but for the equalities, which take all values.
#[derive(Clone, Copy, Debug, PartialEq, Eq)]
pub enum BinaryOp {
    Add,
    Sub,
    Mul,
    Div,
    Rem,
    Shl,
    Shr,
    Ushr,
    And,
    Or,
    Xor,
    Lt,
    Gt,
    Le,
    Ge,
    LooseEq,
    LooseNe,
    StrictEq,
    StrictNe,
}

/// One step of the machine. A site is where the node makes an object; `error` is that of the error
/// which it may throw.
#[derive(Drop)]
pub enum Node {
    /// `dst` is `prim`.
    Const {
        dst: Reg,
        prim: Primitive,
    },
    /// `dst` is `src`.
    Move {
        dst: Reg,
        src: Reg,
    },
    /// `dst` is the first object of the scope chain that has the name, or null (10.1.4).
    FindName {
        dst: Reg,
        name: NameId,
    },
    /// `dst` is what `[[Get]]` of the base gives (8.7.1); a null base throws a ReferenceError.
    ReadRef {
        dst: Reg,
        base: Reg,
        name: NameId,
        error: Site,
    },
    /// As `ReadRef`, but a null base gives undefined (11.4.3).
    ReadSoft {
        dst: Reg,
        base: Reg,
        name: NameId,
    },
    /// `[[Put]]` on the base, or on the global object where the base is null (8.7.2).
    WriteRef {
        base: Reg,
        name: NameId,
        src: Reg,
    },
    /// `[[Delete]]` (11.4.1); a null base gives true.
    DeleteRef {
        dst: Reg,
        base: Reg,
        name: NameId,
    },
    /// `dst` is the object of a value (9.9); undefined and null throw a TypeError.
    ToObject {
        dst: Reg,
        src: Reg,
        sites: Wrappers,
        error: Site,
    },
    /// What is no object throws a TypeError (11.8.7).
    NeedObject {
        src: Reg,
        error: Site,
    },
    /// `dst` is what `[[Get]]` gives, or undefined (8.6.2.1).
    ReadProp {
        dst: Reg,
        object: Reg,
        key: Reg,
    },
    /// `[[Put]]` (8.6.2.2); an array length that is none throws a RangeError (15.4.5.1).
    WriteProp {
        object: Reg,
        key: Reg,
        src: Reg,
        error: Site,
    },
    /// `dst` is what `[[Delete]]` gives (8.6.2.5).
    DeleteProp {
        dst: Reg,
        object: Reg,
        key: Reg,
    },
    /// `dst` is what `[[HasProperty]]` gives (8.6.2.4).
    HasProp {
        dst: Reg,
        object: Reg,
        key: Reg,
    },
    /// `dst` is whether `right` constructed `left` (11.8.6, 15.3.5.3); what is no function, or has
    /// no object as its `prototype`, throws a TypeError.
    InstanceOf {
        dst: Reg,
        left: Reg,
        right: Reg,
        not_function: Site,
        not_object: Site,
    },
    /// `dst` is a new empty object.
    NewObject {
        dst: Reg,
        site: Site,
        kind: Made,
    },
    /// `dst` is a new function object (13.2), with the scope chain in force.
    MakeFunction {
        dst: Reg,
        function: FnId,
        site: Site,
        proto_site: Site,
    },
    /// Makes the activation of a function, and its arguments object, if it has one (10.1.6,
    /// 10.1.8).
    Enter {
        site: Site,
        arguments: Option<Site>,
    },
    /// Adds a variable to the object in `scope`, unless it is there (10.1.3).
    Declare {
        name: NameId,
    },
    /// Defines a name on the object in `scope`, with DontDelete (10.1.3, 12.14, 13).
    Bind {
        name: NameId,
        src: Reg,
        read_only: bool,
    },
    /// Puts a new object before the scope chain (12.14, 13).
    PushScope {
        site: Site,
    },
    /// `dst` is the default value of an object (8.6.2.6), a primitive itself; an object stays where
    /// `other` is given and holds an object, undefined or null (11.9.3).
    Convert {
        dst: Reg,
        src: Reg,
        hint: Hint,
        other: Option<Reg>,
    },
    Unary {
        dst: Reg,
        op: UnaryOp,
        src: Reg,
    },
    Binary {
        dst: Reg,
        op: BinaryOp,
        a: Reg,
        b: Reg,
    },
    /// To `next` on true, to `other` on false.
    Branch {
        src: Reg,
    },
    /// Calls `callee` (11.2.3); what can't be called throws a TypeError.
    Call {
        dst: Reg,
        callee: Reg,
        receiver: Reg,
        args: Args,
        error: Site,
    },
    /// Constructs by `callee` (11.2.2, 13.2.2); what can't construct throws a TypeError.
    New {
        dst: Reg,
        callee: Reg,
        args: Seq<Reg>,
        site: Site,
        error: Site,
    },
    /// Fixes the names of a `for`-`in` (12.6.4), in the list of this number.
    Names {
        list: Reg,
        object: Reg,
    },
    /// `dst` is one of the names left that the object still shows, to `next`; with none left to
    /// `other` (12.6.4).
    Pick {
        list: Reg,
        dst: Reg,
        object: Reg,
    },
    /// Throws `src` to the handler (12.13).
    Throw {
        src: Reg,
    },
    /// Leaves the function with `src`; the program's Return ends the run normally.
    Return {
        src: Reg,
    },
    /// Leaves the function with what was thrown; the program's Escape ends the run as uncaught.
    Escape,
    /// An operation of the built-in functions, by its number.
    Intrinsic {
        dst: Reg,
        which: u32,
        args: Seq<Reg>,
    },
    /// Asks a host device, by its number.
    Device {
        dst: Reg,
        which: u32,
    },
    /// Ends the run out of the profile.
    Stop {
        kind: ScopeKind,
    },
}

/// A node with its edges and the place in the text that it comes from. An edge that the node
/// doesn't have leads to the function's Escape.
#[derive(Drop)]
pub struct NodeInfo {
    pub node: Node,
    pub next: NodeId,
    pub other: NodeId,
    pub handler: NodeId,
    pub place: Place,
}
