ghost use Rattle.std.specs.Prelude.{◌≡◌, ◌<◌, ◌&&◌, not, if◌then◌else◌, IfOk, length, vec_len};
ghost use Rattle.ja_graph.specs.Program.{global};
ghost use Rattle.ja_rows.specs.Names.{without_arrays, transfer_find_name, transfer_read_ref, transfer_read_soft, transfer_write_ref, transfer_delete_ref};
ghost use Rattle.ja_rows.specs.Scopes.{transfer_declare};
ghost use Rattle.ja_abstract.specs.AbstractValue.{same_label, join, undefined_value};
ghost use Rattle.ja_abstract.specs.Reading.{demands_of_get};
ghost use Rattle.ja_abstract.specs.Values.{value_if};
ghost use Rattle.ja_abstract.specs.Writes.{or_global};
ghost use Rattle.ja_rows.specs.Out.{name_keys, read_value};
ghost use Rattle.ja_aheap.specs.Heap.{heap_of};
ghost use Rattle.ja_aheap.specs.Objects.{demands_in};
ghost use Rattle.ja_value.specs.Value.{value_of, labels_in};

use crate::declares::Presence;
use crate::errors::unbound_message;
use crate::given::States;
use crate::outcome::Outcome;
use crate::stepper::Stepper;
use ja_abstract::Key;
use ja_aheap::DemandList;
use ja_astate::{Found, Looked, is_array};
use ja_base::{Label, Memory, NameId, Reg, Site};
use ja_graph::{GLOBAL, REFERENCE_ERROR_PROTOTYPE, SCOPE};
use ja_value::{AProp, AValue, LabelSet};

/// The labels of a base, and that of the global object where the base may be null.
fn or_global(base: &AValue) -> Result<LabelSet, Memory>
    ensures { IfOk result (λ s. labels_in s ≡ or_global (value_of base.now)) }
{
    let mut target = base.labels.copy()?;
    if base.flags.null {
        target.insert(Label {
            site: GLOBAL,
            old: false,
        })?;
    }
    Ok(target)
}

/// Drops a label, if there is reason for it.
fn remove_if(set: &mut LabelSet, label: Label, is_removed: bool)
    ensures { labels_in set.new ≡ (if is_removed
        then (λ l. labels_in set.old l && not (same_label label l)) else labels_in set.old) }
{
    if is_removed {
        set.remove(label);
    }
}

impl Stepper<'_> {
    ghost use Rattle.ja_transfer.specs.Outcomes.{at_view, IsOutcome};

    /// What the objects of some labels have at a name, as it is read, and what that demands.
    fn read_name(&self, start: &LabelSet, name: NameId) -> Result<(AValue, DemandList), Memory>
        ensures value { IfOk result (λ r. value_of r.0
            ≡ read_value (at_view self.now) (labels_in start.now) (name_keys name)) }
        ensures demands { IfOk result (λ r. demands_in r.1
            ≡ demands_of_get (at_view self.now) (labels_in start.now) (name_keys name)) }
    {
        let Looked { property, demands } = self.reader.get(start, &[Key::Name(name)])?;
        let AProp { value, attrs: _ } = property;
        Ok((value.as_read(), demands))
    }

    /// A value, and undefined besides where there is reason for it.
    fn or_undefined(&self, is_undefined: bool, value: AValue) -> Result<AValue, Memory>
        ensures { IfOk result (λ v. value_of v
            ≡ join (value_if is_undefined undefined_value) (value_of value)) }
    {
        if !is_undefined {
            return Ok(value);
        }
        let mut joined = AValue::undefined(self.reader.alloc);
        joined.join(self.reader.alloc, &value)?;
        Ok(joined)
    }

    /// The objects of a name along the scope chain (ES3 10.1.4).
    pub fn find_name(&self, dst: Reg, name: NameId) -> Result<Outcome, Memory>
        requires dst { dst.0 < vec_len self.now.reader.state.now.registers }
        requires scope { 2 < vec_len self.now.reader.state.now.registers }
        ensures { IfOk result (IsOutcome self.now
            (transfer_find_name (at_view self.now) self.now.info.now dst name)) }
    {
        let start = &self.reader.state.register(SCOPE).labels;
        let Found { value, demands } = self.reader.found(start, &[Key::Name(name)])?;
        let mut states = States::new(self.reader.alloc);
        self.sets(&mut states, dst, value, self.info.next)?;
        Ok(self.outcome(states, demands))
    }

    /// A name is read of its objects (8.7.1); null throws a ReferenceError.
    pub fn read_ref(
        &self,
        dst: Reg,
        base: Reg,
        name: NameId,
        error: Site,
    ) -> Result<Outcome, Memory>
        requires dst { dst.0 < vec_len self.now.reader.state.now.registers }
        requires base { base.0 < vec_len self.now.reader.state.now.registers }
        requires name { name.0 < length self.now.reader.program.now.names }
        requires error { error.0 < (heap_of self.now.reader.state.now.heap).sites }
        ensures { IfOk result (IsOutcome self.now
            (transfer_read_ref (at_view self.now) self.now.info.now dst base name error)) }
    {
        let base = self.reader.state.register(base);
        let message = unbound_message(self.reader.alloc, self.reader.program, name)?;
        let (value, demands) = self.read_name(&base.labels, name)?;
        let mut states = States::new(self.reader.alloc);
        self.throws(
            &mut states,
            base.flags.null,
            error,
            REFERENCE_ERROR_PROTOTYPE,
            message,
        )?;
        self.sets(&mut states, dst, value, self.info.next)?;
        Ok(self.outcome(states, demands))
    }

    /// .. where null gives undefined (11.4.3).
    pub fn read_soft(&self, dst: Reg, base: Reg, name: NameId) -> Result<Outcome, Memory>
        requires dst { dst.0 < vec_len self.now.reader.state.now.registers }
        requires base { base.0 < vec_len self.now.reader.state.now.registers }
        ensures { IfOk result (IsOutcome self.now
            (transfer_read_soft (at_view self.now) self.now.info.now dst base name)) }
    {
        let base = self.reader.state.register(base);
        let (value, demands) = self.read_name(&base.labels, name)?;
        let value = self.or_undefined(base.flags.null, value)?;
        let mut states = States::new(self.reader.alloc);
        self.sets(&mut states, dst, value, self.info.next)?;
        Ok(self.outcome(states, demands))
    }

    /// The labels whose objects a value is put at: those of a base, and the global object where
    /// the base may be null, but no arrays.
    fn put_target(&self, base: &AValue) -> Result<LabelSet, Memory>
        ensures { IfOk result (λ s. labels_in s
            ≡ without_arrays self.now.reader.program.now (or_global (value_of base.now))) }
    {
        let mut target = or_global(base)?;
        let members = self.reader.labels(&target)?;
        for label in &members {
            remove_if(&mut target, *label, is_array(self.reader.program, *label));
        }
        Ok(target)
    }

    /// A value is put at the objects of a name, or at the global object (8.7.2).
    pub fn write_ref(&self, base: Reg, name: NameId, src: Reg) -> Result<Outcome, Memory>
        requires base { base.0 < vec_len self.now.reader.state.now.registers }
        requires src { src.0 < vec_len self.now.reader.state.now.registers }
        requires name { name.0 < length self.now.reader.program.now.names }
        requires sites { global.0 < (heap_of self.now.reader.state.now.heap).sites }
        ensures { IfOk result (IsOutcome self.now
            (transfer_write_ref (at_view self.now) self.now.info.now base name src)) }
    {
        let value = self.reader.state.register(src);
        let target = self.put_target(self.reader.state.register(base))?;
        let mut states = States::new(self.reader.alloc);
        let demands = self.puts(&mut states, &target, &[Key::Name(name)], value)?;
        Ok(self.outcome(states, demands))
    }

    /// A name is deleted of its objects; null gives true (11.4.1).
    pub fn delete_ref(&self, dst: Reg, base: Reg, name: NameId) -> Result<Outcome, Memory>
        requires dst { dst.0 < vec_len self.now.reader.state.now.registers }
        requires base { base.0 < vec_len self.now.reader.state.now.registers }
        requires name { name.0 < length self.now.reader.program.now.names }
        ensures { IfOk result (IsOutcome self.now
            (transfer_delete_ref (at_view self.now) self.now.info.now dst base name)) }
    {
        let base = self.reader.state.register(base);
        let keys = [Key::Name(name)];
        let mut states = States::new(self.reader.alloc);
        self.gives_bool(&mut states, base.flags.null, dst, true)?;
        self.deletes(&mut states, dst, &base.labels, &keys)?;
        let demands = self.demand_target(&base.labels, &keys)?;
        Ok(self.outcome(states, demands))
    }

    /// A variable is added to the object in `scope`, unless it is there (10.1.3).
    pub fn declare(&self, name: NameId) -> Result<Outcome, Memory>
        requires scope { 2 < vec_len self.now.reader.state.now.registers }
        requires name { name.0 < length self.now.reader.program.now.names }
        ensures { IfOk result (IsOutcome self.now
            (transfer_declare (at_view self.now) self.now.info.now name)) }
    {
        let key = Key::Name(name);
        let scope = &self.reader.state.register(SCOPE).labels;
        let members = self.reader.labels(scope)?;
        let Presence { is_there, missing } = self.presence(&members, key)?;
        let mut states = States::new(self.reader.alloc);
        self.goes(&mut states, is_there, self.info.next)?;
        self.declares(&mut states, &members, &missing, key)?;
        let demands = self.demand_target(scope, &[key])?;
        Ok(self.outcome(states, demands))
    }
}
