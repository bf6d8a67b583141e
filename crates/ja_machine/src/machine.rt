//! The concrete machine (ES3 8.6, 10 to 12): whole heaps, and a frame for each function that was
//! entered.

use ja_base::{FnId, NodeId, Place, Reg, ScopeKind, Seq, Site};
use ja_graph::{Attrs, Class};
use ja_prim::{Primitive, Text16};

/// An object: the `ordinal`-th that was made at its site, from 0.
#[derive(Clone, Copy, Debug, PartialEq, Eq)]
pub struct Addr {
    pub site: Site,
    pub ordinal: u64,
}

/// A value of ES3 section 8.
#[derive(Drop)]
pub enum Value {
    Primitive(Primitive),
    Object(Addr),
}

/// What a property holds: a value, or what is out of the profile, a row.
#[derive(Drop)]
pub enum Content {
    Value(Value),
    Row,
}

/// A property (ES3 8.6). It is shared where a parameter and an element of `arguments` have one
/// value (10.1.8).
#[derive(Drop)]
pub struct Property {
    pub name: Text16,
    pub content: Content,
    pub attrs: Attrs,
    pub shared: bool,
}

/// The internal properties of an object (ES3 8.6.2). `outer` is the next object of a scope chain,
/// and `arguments` says that it is an arguments object.
#[derive(Drop)]
pub struct Slots {
    pub prototype: Option<Addr>,
    pub outer: Option<Addr>,
    pub scope: Option<Addr>,
    pub value: Option<Primitive>,
    pub arguments: bool,
}

/// An object: its class, its internal properties, and its properties in order of insertion.
#[derive(Drop)]
pub struct Object {
    pub class: Class,
    pub slots: Slots,
    pub properties: Seq<Property>,
}

/// All objects: for each site those that were made there, in order. None is removed.
#[derive(Drop)]
pub struct Heap {
    pub objects: Seq<Seq<Object>>,
}

/// How a put ends: the value is set, or it is ignored, since the property or one that it would hide
/// is read-only (8.6.2.2); an array's length is no unsigned 32-bit number (15.4.5.1); or the run
/// leaves the profile.
#[derive(Clone, Copy, Debug, PartialEq, Eq)]
pub enum Put {
    Done,
    Ignored,
    RangeError,
    LengthObject,
    SharedArgument,
}

/// The names of a `for`-`in` that remain, by the number of its list.
#[derive(Drop)]
pub struct Remaining {
    pub list: Reg,
    pub names: Seq<Text16>,
}

/// A function that was entered: the node that it stands at, the number of steps made at its entry,
/// the receiver, the function object if it has one, the scope chain and the arguments with which it
/// was entered, its registers, and the names that remain to its `for`-`in`s.
#[derive(Drop)]
pub struct Frame {
    pub function: FnId,
    pub node: NodeId,
    pub born: u64,
    pub receiver: Addr,
    pub callee: Option<Addr>,
    pub scope: Addr,
    pub arguments: Seq<Value>,
    pub registers: Seq<Value>,
    pub lists: Seq<Remaining>,
}

/// A state of the machine: the top frame first, and the number of steps made.
#[derive(Drop)]
pub struct Conf {
    pub heap: Heap,
    pub frames: Seq<Frame>,
    pub steps: u64,
}

/// What the outside gives to a step: leave to go on, what a device answers, or the place of a name
/// among those that a `for`-`in` may take.
#[derive(Drop)]
pub enum Answer {
    Tick,
    Device(Primitive),
    Pick(u64),
}

/// What a state wants of the outside: leave to go on, an answer of a device, or a place below a
/// number.
#[derive(Clone, Copy, Debug, PartialEq, Eq)]
pub enum Wants {
    Tick,
    Device { which: u32 },
    Pick { count: u64 },
}

/// How a run ends: normally, with a value that nothing caught, or out of the profile.
#[derive(Drop)]
pub enum End {
    Normal,
    Uncaught(Value),
    Scope { kind: ScopeKind, place: Place },
}

/// What a step gives.
#[derive(Drop)]
pub enum Event {
    Next(Conf),
    End(End, Conf),
}

/// An operation on texts and numbers that the built-in functions are written with: the digits of a
/// number in a radix (ES3 15.7.4.2); the size of a text, its unit at a place and its part between
/// two (15.5); the text of one unit (15.5.3.2); the first and the last place of one text in another
/// (15.5.4.7, 15.5.4.8); a text in small and in great letters (15.5.4.16, 15.5.4.18); the whole
/// number and the decimal number at the front of a text (15.1.2.2, 15.1.2.3).
#[derive(Clone, Copy, Debug, PartialEq, Eq)]
pub enum TextOperation {
    Digits,
    Size,
    Unit,
    Part,
    Character,
    IndexOf,
    LastIndexOf,
    Lower,
    Upper,
    ParseInt,
    ParseFloat,
}
