//! Properties that are defined at objects (ES3 10.1.3): in place at the one object of a new label,
//! and joined in elsewhere (Balakrishnan and Reps, SAS 2006).

ghost use Rattle.std.specs.Prelude.{◌≡◌, ◌==◌, [], ◌∷◌, ◌++◌, not, if◌then◌else◌, filter, length, IfOk, IsTrue, All};
ghost use Rattle.std.specs.List.{list_any};
ghost use Rattle.ja_base.specs.declared.ids.Label.{Label};
ghost use Rattle.ja_abstract.specs.AbstractState.{is_label, is_key};
ghost use Rattle.ja_abstract.specs.Writes.{sets_at, is_missing};
ghost use Rattle.ja_rows.specs.Out.{goes};
ghost use Rattle.ja_astate.specs.State.{state_of, HaveOneShape};
ghost use Rattle.ja_value.specs.Value.{property_of};
ghost use Rattle.ja_transfer.specs.code.Members.{weakly_over};
ghost use Rattle.ja_transfer.specs.code.Declares.{declared_property, declared_over, defined_over};
ghost use Rattle.ja_transfer.specs.code.Deletes.{is_there};

use crate::given::States;
use crate::spots::new_alone;
use crate::stepper::Stepper;
use ja_abstract::Key;
use ja_astate::{AState, one_write};
use ja_base::{Label, Memory};
use ja_graph::DONT_DELETE;
use ja_value::{AProp, AValue};
use std::alloc::Global;

/// Where a key is there, and where it may be missing.
#[derive(Drop)]
pub(crate) struct Presence {
    /// Whether it may be there at some label.
    pub is_there: bool,
    /// The labels whose objects may be without it.
    pub missing: Vec<Label>,
}

/// A variable that is declared: undefined, with DontDelete.
fn declared_property(alloc: Global) -> AProp
    ensures { property_of result ≡ declared_property }
{
    AProp::with_attrs(AValue::undefined(alloc), DONT_DELETE)
}

/// Adds a label behind others, if there is reason for it.
fn push_if(labels: &mut Vec<Label>, label: Label, is_pushed: bool) -> Result<(), Memory>
    ensures { IfOk result (λ _. labels.new.items
        ≡ labels.old.items ++ (if is_pushed then label ∷ [] else [])) }
{
    if !is_pushed {
        return Ok(());
    }
    labels.push(label)?;
    Ok(())
}

impl Stepper<'_> {
    ghost use Rattle.ja_transfer.specs.Outcomes.{at_view, AreAdded};

    /// At which of some labels a key is there, and at which it may be missing.
    pub(crate) fn presence(&self, members: &[Label], key: Key) -> Result<Presence, Memory>
        ensures is_there { IfOk result (λ presence. presence.is_there
            ≡ list_any (λ l. is_there (at_view self.now) l key) members.now) }
        ensures missing { IfOk result (λ presence. presence.missing.items
            ≡ filter (λ l. is_missing (at_view self.now) l key) members.now) }
    {
        let mut missing = Vec::new(self.reader.alloc);
        let mut is_there = false;
        for label in members {
            let own = self.own_at(*label, key)?;
            is_there = is_there | own.is_there;
            push_if(&mut missing, *label, own.is_missing)?;
        }
        Ok(Presence { is_there, missing })
    }

    /// The state at hand after a property was joined in at all objects of some labels of the
    /// program.
    fn defines_weakly(&self, labels: &[Label], key: Key, property: &AProp) -> Result<AState, Memory>
        requires labels { All (λ (l : Label). IsTrue (is_label self.now.reader.program.now l))
            labels.now }
        requires key { IsTrue (is_key self.now.reader.program.now key) }
        ensures state { IfOk result (λ a. state_of a
            ≡ weakly_over self.now.reader.program.now (at_view self.now).state labels.now
            (λ l. sets_at key (property_of property.now) ∷ [])) }
        ensures shape { IfOk result (HaveOneShape self.now.reader.state.now) }
    {
        let alloc = self.reader.alloc;
        let mut state = self.reader.state.fork(alloc)?;
        for label in labels {
            let writes = one_write(alloc, key, property.copy(alloc)?, false)?;
            self.weakly(&mut state, *label, writes)?;
        }
        Ok(state)
    }

    /// The state at hand after a property was defined at some labels of the program: in place at
    /// the one object of a new label, and joined in elsewhere.
    pub fn defined(&self, members: &[Label], key: Key, property: AProp) -> Result<AState, Memory>
        requires members { All (λ (l : Label). IsTrue (is_label self.now.reader.program.now l))
            members.now }
        requires key { IsTrue (is_key self.now.reader.program.now key) }
        ensures state { IfOk result (λ a. state_of a
            ≡ defined_over (at_view self.now) members.now key (property_of property)) }
        ensures shape { IfOk result (HaveOneShape self.now.reader.state.now) }
    {
        let Some(label) = new_alone(members) else {
            return self.defines_weakly(members, key, &property);
        };
        let writes = one_write(self.reader.alloc, key, property, false)?;
        self.strongly(label, writes)
    }

    /// The state at hand after a variable was declared at some labels of the program, where it may
    /// be missing at some of them.
    fn declared(&self, members: &[Label], missing: &[Label], key: Key) -> Result<AState, Memory>
        requires members { All (λ (l : Label). IsTrue (is_label self.now.reader.program.now l))
            members.now }
        requires missing { All (λ (l : Label). IsTrue (is_label self.now.reader.program.now l))
            missing.now }
        requires key { IsTrue (is_key self.now.reader.program.now key) }
        ensures state { IfOk result (λ a. state_of a
            ≡ declared_over (at_view self.now) members.now missing.now key) }
        ensures shape { IfOk result (HaveOneShape self.now.reader.state.now) }
    {
        let property = declared_property(self.reader.alloc);
        let Some(label) = new_alone(members) else {
            return self.defines_weakly(missing, key, &property);
        };
        let writes = one_write(self.reader.alloc, key, property, false)?;
        self.strongly(label, writes)
    }

    /// .. goes to the next node, if it may be missing at one of them.
    pub(crate) fn declares(
        &self,
        states: &mut States,
        members: &[Label],
        missing: &[Label],
        key: Key,
    ) -> Result<(), Memory>
        requires members { All (λ (l : Label). IsTrue (is_label self.now.reader.program.now l))
            members.now }
        requires missing { All (λ (l : Label). IsTrue (is_label self.now.reader.program.now l))
            missing.now }
        requires key { IsTrue (is_key self.now.reader.program.now key) }
        ensures { IfOk result (λ _. AreAdded self.now (goes (not (length missing.now == 0))
            self.now.info.now.next (declared_over (at_view self.now) members.now missing.now key))
            states.old states.new) }
    {
        if missing.is_empty() {
            return Ok(());
        }
        let state = self.declared(members, missing, key)?;
        self.gives(states, self.info.next, state)
    }
}
