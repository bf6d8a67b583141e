//! The nodes that read, write, delete and ask for properties by a key (ES3 11.2.1).

ghost use Rattle.std.specs.Prelude.{◌≡◌, IfOk, Some};
ghost use Rattle.ja_machine.specs.Calls.{object_in};
ghost use Rattle.ja_machine.specs.Events.{sets, sets_content};
ghost use Rattle.ja_machine.specs.Heap.{has};
ghost use Rattle.ja_machine.specs.Nodes as nodes;
ghost use Rattle.ja_machine.specs.Nodes.{on_property, puts, deletes, wrong_length, bool_value};
ghost use Rattle.ja_machine.specs.Values.{key_of, key_of_number};
ghost use Rattle.ja_step.specs.code.Places.{place_of};
ghost use Rattle.ja_step.specs.code.Steps.{held, or_undefined, standing, leads_to};

use crate::Conf;
use ja_base::{Memory, Reg, ScopeKind, Site};
use ja_graph::NodeInfo;
use ja_machine::{Addr, End, Value};
use ja_prim::{Num, Primitive, Text16, to_text};
use std::alloc::Global;

/// The key that a number is: its text. A number is never past the profile.
#[tactic(auto, using(crate::proofs::Keys::number_is_key))]
fn key_of_number(alloc: Global, number: Num) -> Result<Text16, Memory>
    ensures { IfOk result (λ key. key_of_number number ≡ Some key) }
{
    if let Num::Whole(whole) = number {
        let _value = whole.get();
    }
    match to_text(alloc, &Primitive::Number(number)) {
        Ok(text) => Ok(text),
        Err(_) => Err(Memory),
    }
}

/// The key that a value is: a text itself, or the text of a number. Other values are none.
fn key_of(alloc: Global, value: Option<&Value>) -> Result<Option<Text16>, Memory>
    ensures { IfOk result (λ key. key ≡ key_of (or_undefined value.entry)) }
{
    match value {
        Some(Value::Primitive(Primitive::Text(text))) => {
            let text = text.copy()?;
            Ok(Some(text))
        }
        Some(Value::Primitive(Primitive::Number(number))) => {
            let text = key_of_number(alloc, *number)?;
            Ok(Some(text))
        }
        _ => Ok(None),
    }
}

/// The object that a value is.
pub(crate) fn object_in(value: Option<&Value>) -> Option<Addr>
    ensures { result ≡ object_in (or_undefined value.entry) }
{
    match value {
        Some(Value::Object(a)) => Some(*a),
        _ => None,
    }
}

impl Conf {
    /// The object and the key that two registers hold.
    fn place(&self, alloc: Global, object: Reg, key: Reg) -> Result<Option<(Addr, Text16)>, Memory>
        ensures { IfOk result (λ place. place
            ≡ place_of (held self.now object) (key_of (held self.now key))) }
    {
        let Some(a) = object_in(self.frame.register(object)) else {
            return Ok(None);
        };
        match key_of(alloc, self.frame.register(key))? {
            Some(key) => Ok(Some((a, key))),
            None => Ok(None),
        }
    }

    /// A property is read: what `[[Get]]` gives (8.6.2.1), or undefined.
    pub(crate) fn reads_property(
        &mut self,
        alloc: Global,
        info: &NodeInfo,
        dst: Reg,
        object: Reg,
        key: Reg,
    ) -> Result<Option<End>, Memory>
        ensures { IfOk result (λ end. leads_to self.old end self.new
            ≡ (let s = standing self.old info.now in
            on_property s (λ a name. sets_content s dst (nodes.read self.old.heap a name))
            (held self.old object) (key_of (held self.old key)))) }
    {
        match self.place(alloc, object, key)? {
            Some((a, key)) => self.reads(alloc, info, dst, a, &key),
            None => Ok(self.left_scope(info, ScopeKind::Register)),
        }
    }

    /// A property is put (8.6.2.2). A length of an array that is none throws a RangeError
    /// (15.4.5.1).
    pub(crate) fn writes_property(
        &mut self,
        alloc: Global,
        info: &NodeInfo,
        object: Reg,
        key: Reg,
        src: Reg,
        error: Site,
    ) -> Result<Option<End>, Memory>
        ensures { IfOk result (λ end. leads_to self.old end self.new
            ≡ (let s = standing self.old info.now in
            on_property s (λ a name. puts s (wrong_length s error) a name (held self.old src))
            (held self.old object) (key_of (held self.old key)))) }
    {
        let Some((a, key)) = self.place(alloc, object, key)? else {
            return Ok(self.left_scope(info, ScopeKind::Register));
        };
        let value = self.frame.held(alloc, src)?;
        self.puts_property(alloc, info, a, &key, value, error)
    }

    /// A property is deleted (8.6.2.5).
    pub(crate) fn deletes_property(
        &mut self,
        alloc: Global,
        info: &NodeInfo,
        dst: Reg,
        object: Reg,
        key: Reg,
    ) -> Result<Option<End>, Memory>
        ensures { IfOk result (λ end. leads_to self.old end self.new
            ≡ (let s = standing self.old info.now in
            on_property s (deletes s dst) (held self.old object) (key_of (held self.old key)))) }
    {
        match self.place(alloc, object, key)? {
            Some((a, key)) => Ok(self.deletes(info, dst, a, &key)),
            None => Ok(self.left_scope(info, ScopeKind::Register)),
        }
    }

    /// A register is set to whether there is a property (8.6.2.4).
    pub(crate) fn has_property(
        &mut self,
        alloc: Global,
        info: &NodeInfo,
        dst: Reg,
        object: Reg,
        key: Reg,
    ) -> Result<Option<End>, Memory>
        ensures { IfOk result (λ end. leads_to self.old end self.new
            ≡ (let s = standing self.old info.now in
            on_property s (λ a name. sets s dst (bool_value (has self.old.heap a name)))
            (held self.old object) (key_of (held self.old key)))) }
    {
        match self.place(alloc, object, key)? {
            Some((a, key)) => {
                let has = self.heap.has(a, &key);
                Ok(self.sets(info, dst, Value::Primitive(Primitive::Bool(has))))
            }
            None => Ok(self.left_scope(info, ScopeKind::Register)),
        }
    }
}
