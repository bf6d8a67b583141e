//! What the step of a node comes to: a state that goes on, an error that is thrown, or an end.

ghost use Rattle.std.specs.Prelude.{◌≡◌, ◌∷◌, IfOk};
ghost use Rattle.ja_machine.specs.Events.{goes_on, sets, left_scope, throws_value, throws, sets_content, sets_outcome, next_state};
ghost use Rattle.ja_machine.specs.Frames.{moved_to};
ghost use Rattle.ja_machine.specs.Nodes.{makes};
ghost use Rattle.ja_machine.specs.Values.{kind_of};
ghost use Rattle.ja_step.specs.code.Steps.{standing, leads_to};

use crate::Conf;
use ja_base::{Memory, Reg, ScopeKind, Site};
use ja_graph::{NodeInfo, THROWN};
use ja_heap::Object;
use ja_machine::{Content, End, Value};
use ja_operations::made::error_object;
use ja_operations::operators::Outcome;
use ja_prim::{MAX_UNITS, Primitive, Stop, Text16};
use std::alloc::Global;

/// Why a run leaves the profile, where an operation does.
pub(crate) fn kind_of(stop: Stop) -> ScopeKind
    ensures { result ≡ kind_of stop }
{
    match stop {
        Stop::Fraction => ScopeKind::Fraction,
        Stop::Range => ScopeKind::Range,
        Stop::TextLength => ScopeKind::TextLength,
    }
}

impl Conf {
    /// The node goes on to `next`.
    pub(crate) fn goes_on(&mut self, info: &NodeInfo) -> Option<End>
        ensures { leads_to self.old result self.new
            ≡ goes_on (standing self.old info.now) self.old.heap }
    {
        self.frame.node = info.next;
        None
    }

    /// The node goes on to `other`.
    pub(crate) fn turns(&mut self, info: &NodeInfo) -> Option<End>
        ensures { let s = standing self.old info.now in
            leads_to self.old result self.new ≡ next_state s.conf s.conf.heap
            (moved_to s.top info.now.other ∷ s.below) }
    {
        self.frame.node = info.other;
        None
    }

    /// The node sets a register, and goes on.
    pub(crate) fn sets(&mut self, info: &NodeInfo, dst: Reg, value: Value) -> Option<End>
        ensures { leads_to self.old result self.new ≡ sets (standing self.old info.now) dst value }
    {
        self.frame.set_register(dst, value);
        self.frame.node = info.next;
        None
    }

    /// The run leaves the profile at the node's place.
    pub(crate) fn left_scope(&self, info: &NodeInfo, kind: ScopeKind) -> Option<End>
        ensures { leads_to self.now result self.now ≡ left_scope (standing self.now info.now) kind }
    {
        Some(End::Scope {
            kind,
            place: info.place,
        })
    }

    /// The node throws a value: its handler has it in `thrown`.
    pub(crate) fn throws_value(&mut self, info: &NodeInfo, value: Value) -> Option<End>
        ensures { leads_to self.old result self.new
            ≡ throws_value (standing self.old info.now) self.old.heap value }
    {
        self.frame.set_register(THROWN, value);
        self.frame.node = info.handler;
        None
    }

    /// The node throws an error, which it makes at a site. A message that is too long for a text
    /// leaves the profile.
    pub(crate) fn throws(
        &mut self,
        alloc: Global,
        info: &NodeInfo,
        error: Site,
        prototype: Site,
        message: Vec<u16>,
    ) -> Result<Option<End>, Memory>
        ensures { IfOk result (λ end. leads_to self.old end self.new
            ≡ throws (standing self.old info.now) error prototype message.items) }
    {
        if message.len() > MAX_UNITS {
            return Ok(self.left_scope(info, ScopeKind::TextLength));
        }
        let object = error_object(alloc, prototype, Text16::from_units(alloc, message)?)?;
        let thrown = self.heap.alloc(error, object)?;
        Ok(self.throws_value(info, Value::Object(thrown)))
    }

    /// The node makes an object at a site, and sets a register to it.
    pub(crate) fn makes(
        &mut self,
        info: &NodeInfo,
        dst: Reg,
        site: Site,
        object: Object,
    ) -> Result<Option<End>, Memory>
        ensures { IfOk result (λ end. leads_to self.old end self.new
            ≡ makes (standing self.old info.now) dst site object) }
    {
        let made = self.heap.alloc(site, object)?;
        Ok(self.sets(info, dst, Value::Object(made)))
    }

    /// The node sets a register to what was read; a row leaves the profile.
    pub(crate) fn sets_content(
        &mut self,
        info: &NodeInfo,
        dst: Reg,
        content: Content,
    ) -> Option<End>
        ensures { leads_to self.old result self.new
            ≡ sets_content (standing self.old info.now) dst content }
    {
        match content {
            Content::Value(value) => self.sets(info, dst, value),
            Content::Row => self.left_scope(info, ScopeKind::Row),
        }
    }

    /// The node sets a register to what an operation gives. An operation that doesn't take its
    /// operands leaves the profile, and so does one that stops.
    pub(crate) fn sets_outcome(
        &mut self,
        info: &NodeInfo,
        dst: Reg,
        outcome: Outcome,
    ) -> Option<End>
        ensures { leads_to self.old result self.new
            ≡ sets_outcome (standing self.old info.now) dst outcome }
    {
        match outcome {
            None => self.left_scope(info, ScopeKind::Register),
            Some(Ok(value)) => self.sets(info, dst, Value::Primitive(value)),
            Some(Err(stop)) => self.left_scope(info, kind_of(stop)),
        }
    }
}
