//! [[Delete]] at some labels and keys (ES3 8.6.2.5), and what stands there: strong at the one
//! object of a new label and just one name, and weak elsewhere (Balakrishnan and Reps, SAS 2006).

ghost use Rattle.std.specs.Prelude.{◌≡◌, ◌<◌, [], ◌∷◌, ◌++◌, true, false, not, if◌then◌else◌, IfOk, IsTrue, All, vec_len};
ghost use Rattle.std.specs.List.{list_any};
ghost use Rattle.ja_base.specs.declared.ids.Label.{Label};
ghost use Rattle.ja_abstract.specs.AbstractValue.{absent_property};
ghost use Rattle.ja_abstract.specs.AbstractState.{is_label, is_key, with_register};
ghost use Rattle.ja_abstract.specs.InProgram.{AreKeys};
ghost use Rattle.ja_abstract.specs.Primitives.{of_bools};
ghost use Rattle.ja_abstract.specs.Writes.{joins_at, sets_at, strong_update, strong_delete, delete_states, delete_list, demands_of_delete};
ghost use Rattle.ja_rows.specs.Out.{goes, sets_in, sets_results};
ghost use Rattle.ja_aheap.specs.Objects.{demands_in, writes_of};
ghost use Rattle.ja_value.specs.Value.{labels_in};
ghost use Rattle.ja_transfer.specs.code.Deletes.{own_flags, deleting_of, deleting, deletes_some, keeps_some};
ghost use Rattle.ja_transfer.specs.code.Members.{weakly_over};

use crate::given::States;
use crate::spots::strong_spot;
use crate::stepper::Stepper;
use ja_abstract::Key;
use ja_aheap::{DemandList, Write, Writes};
use ja_astate::one_write;
use ja_base::{Label, Memory, Reg};
use ja_value::{AProp, AValue, LabelSet};
use std::alloc::Global;

/// What the objects of a label may have at a key themselves.
#[derive(Clone, Copy)]
pub(crate) struct OwnAt {
    /// Whether it may be absent.
    pub is_missing: bool,
    /// Whether it may be there.
    pub is_there: bool,
    /// Whether it may be there with DontDelete.
    pub may_keep: bool,
    /// Whether it may be there without DontDelete.
    pub may_delete: bool,
}

/// What a deletion does at the objects of a label and some keys.
#[derive(Drop)]
pub(crate) struct DeletesAt {
    /// Whether it may give true.
    pub is_deleted: bool,
    /// Whether it may give false.
    pub is_kept: bool,
    /// What it may write.
    pub writes: Writes,
}

/// Adds the deletion at a key behind writes, if there is reason for it.
fn push_deletion(
    alloc: Global,
    writes: &mut Writes,
    key: Key,
    is_deleted: bool,
) -> Result<(), Memory>
    ensures { IfOk result (λ _. writes_of writes.new ≡ writes_of writes.old
        ++ (if is_deleted then joins_at key absent_property ∷ [] else [])) }
{
    if !is_deleted {
        return Ok(());
    }
    let property = AProp::absent(alloc);
    writes.list.push(Write {
        key,
        property,
        joins: true,
    })?;
    Ok(())
}

impl DeletesAt {
    ghost use Rattle.ja_transfer.specs.code.Deletes.{deleting_of, nothing_deleted, delete_more};

    /// No key is deleted.
    fn nothing(alloc: Global) -> DeletesAt
        ensures { deleting_of result ≡ nothing_deleted }
    {
        DeletesAt {
            is_deleted: false,
            is_kept: false,
            writes: Writes {
                list: Vec::new(alloc),
            },
        }
    }

    /// Adds what a deletion does at one key more.
    fn add(&mut self, alloc: Global, key: Key, own: OwnAt) -> Result<(), Memory>
        ensures { IfOk result (λ _. deleting_of self.new
            ≡ delete_more (deleting_of self.old) key own) }
    {
        self.is_deleted = self.is_deleted | (own.is_missing | own.may_delete);
        self.is_kept = self.is_kept | own.may_keep;
        push_deletion(alloc, &mut self.writes, key, own.may_delete)
    }
}

impl Stepper<'_> {
    ghost use Rattle.ja_transfer.specs.Outcomes.{at_view, AreAdded};

    // ---- at a label and a key

    /// What the objects of a label may have at a key themselves.
    pub(crate) fn own_at(&self, label: Label, key: Key) -> Result<OwnAt, Memory>
        ensures { IfOk result (λ own. own ≡ own_flags (at_view self.now) label key) }
    {
        let property = self.reader.resolved(label, key)?;
        let is_there = property.value.is_present(self.reader.sites);
        let dont_delete = property.attrs.dont_delete;
        Ok(OwnAt {
            is_missing: property.value.flags.absent,
            is_there,
            may_keep: is_there & dont_delete.set,
            may_delete: is_there & dont_delete.unset,
        })
    }

    /// Demands what the objects of some labels have at some keys themselves.
    pub fn demand_target(&self, target: &LabelSet, keys: &[Key]) -> Result<DemandList, Memory>
        ensures { IfOk result (λ d. demands_in d
            ≡ demands_of_delete (at_view self.now) (labels_in target.now) keys.now) }
    {
        let members = self.reader.labels(target)?;
        let mut demands = DemandList::new(self.reader.alloc);
        for label in &members {
            self.reader.demand_own(*label, keys, &mut demands)?;
        }
        Ok(demands)
    }

    /// What a deletion does at the objects of a label and some keys.
    fn deletes_at(&self, label: Label, keys: &[Key]) -> Result<DeletesAt, Memory>
        ensures { IfOk result (λ deletes. deleting_of deletes
            ≡ deleting (at_view self.now) label keys.now) }
    {
        let mut deletes = DeletesAt::nothing(self.reader.alloc);
        for key in keys {
            let own = self.own_at(label, *key)?;
            deletes.add(self.reader.alloc, *key, own)?;
        }
        Ok(deletes)
    }

    // ---- at some labels and keys

    /// The state at hand with a Boolean in a register goes to the next node, if there is reason
    /// for it.
    pub fn gives_bool(
        &self,
        states: &mut States,
        is_given: bool,
        dst: Reg,
        boolean: bool,
    ) -> Result<(), Memory>
        requires { dst.0 < vec_len self.now.reader.state.now.registers }
        ensures { IfOk result (λ _. AreAdded self.now (goes is_given self.now.info.now.next
            (with_register (at_view self.now).state dst (of_bools boolean (not boolean))))
            states.old states.new) }
    {
        if !is_given {
            return Ok(());
        }
        let mut state = self.reader.state.fork(self.reader.alloc)?;
        state.set_register(dst, AValue::of_bools(self.reader.alloc, boolean, !boolean));
        self.gives(states, self.info.next, state)
    }

    /// The state in which a key was deleted of the one object of a label, and true is in a
    /// register, goes to the next node, if there is reason for it.
    fn gives_deleted(
        &self,
        states: &mut States,
        is_deleted: bool,
        dst: Reg,
        label: Label,
        key: Key,
    ) -> Result<(), Memory>
        requires dst { dst.0 < vec_len self.now.reader.state.now.registers }
        requires label { IsTrue (is_label self.now.reader.program.now label) }
        requires key { IsTrue (is_key self.now.reader.program.now key) }
        ensures { IfOk result (λ _. AreAdded self.now (goes is_deleted self.now.info.now.next
            (with_register (strong_update (at_view self.now).state label
            (sets_at key absent_property ∷ [])) dst (of_bools true false)))
            states.old states.new) }
    {
        if !is_deleted {
            return Ok(());
        }
        let alloc = self.reader.alloc;
        let writes = one_write(alloc, key, AProp::absent(alloc), false)?;
        let mut state = self.strongly(label, writes)?;
        state.set_register(dst, AValue::of_bools(alloc, true, false));
        self.gives(states, self.info.next, state)
    }

    /// A deletion at the one object of a label, in place.
    fn strong_delete(
        &self,
        states: &mut States,
        dst: Reg,
        label: Label,
        key: Key,
    ) -> Result<(), Memory>
        requires dst { dst.0 < vec_len self.now.reader.state.now.registers }
        requires label { IsTrue (is_label self.now.reader.program.now label) }
        requires key { IsTrue (is_key self.now.reader.program.now key) }
        ensures { IfOk result (λ _. AreAdded self.now (sets_results (at_view self.now) dst
            self.now.info.now.next (strong_delete (at_view self.now) label key))
            states.old states.new) }
    {
        let own = self.own_at(label, key)?;
        self.gives_bool(states, own.is_missing, dst, true)?;
        self.gives_bool(states, own.may_keep, dst, false)?;
        self.gives_deleted(states, own.may_delete, dst, label, key)
    }

    /// A deletion at all objects of some labels of the program: what may be deleted may be absent.
    fn weak_delete(
        &self,
        states: &mut States,
        dst: Reg,
        members: &[Label],
        keys: &[Key],
    ) -> Result<(), Memory>
        requires dst { dst.0 < vec_len self.now.reader.state.now.registers }
        requires labels { All (λ (l : Label). IsTrue (is_label self.now.reader.program.now l))
            members.now }
        requires keys { AreKeys self.now.reader.program.now keys.now }
        ensures { IfOk result (λ _. AreAdded self.now (sets_in (at_view self.now)
            (weakly_over self.now.reader.program.now (at_view self.now).state members.now
            (delete_list (at_view self.now) keys.now)) dst (of_bools
            (list_any (deletes_some (at_view self.now) keys.now) members.now)
            (list_any (keeps_some (at_view self.now) keys.now) members.now))
            self.now.info.now.next) states.old states.new) }
    {
        let mut state = self.reader.state.fork(self.reader.alloc)?;
        let mut is_deleted = false;
        let mut is_kept = false;
        for label in members {
            let DeletesAt {
                is_deleted: deleted,
                is_kept: kept,
                writes,
            } = self.deletes_at(*label, keys)?;
            self.weakly(&mut state, *label, writes)?;
            is_deleted = is_deleted | deleted;
            is_kept = is_kept | kept;
        }
        let result = AValue::of_bools(self.reader.alloc, is_deleted, is_kept);
        self.sets_in(states, state, dst, result, self.info.next)
    }

    /// [[Delete]] at some labels and keys: the states that it may leave go to the next node with
    /// what it gives in a register.
    pub fn deletes(
        &self,
        states: &mut States,
        dst: Reg,
        target: &LabelSet,
        keys: &[Key],
    ) -> Result<(), Memory>
        requires dst { dst.0 < vec_len self.now.reader.state.now.registers }
        requires keys { AreKeys self.now.reader.program.now keys.now }
        ensures { IfOk result (λ _. AreAdded self.now (sets_results (at_view self.now) dst
            self.now.info.now.next (delete_states (at_view self.now) (labels_in target.now)
            keys.now)) states.old states.new) }
    {
        let members = self.reader.labels(target)?;
        match strong_spot(&members, keys) {
            Some((label, key)) => self.strong_delete(states, dst, label, key),
            None => self.weak_delete(states, dst, &members, keys),
        }
    }
}
