//! [[Put]] at some labels and keys (ES3 8.6.2.2): strong at the one object of a new label and just
//! one name, and weak elsewhere (Balakrishnan and Reps, SAS 2006).

ghost use Rattle.std.specs.Prelude.{◌≡◌, [], ◌++◌, IfOk, IsTrue, All, None, if◌then◌else◌, unwrap_or};
ghost use Rattle.std.specs.Option.{option_map};
ghost use Rattle.ja_base.specs.declared.ids.Label.{Label};
ghost use Rattle.ja_abstract.specs.AbstractState.{is_label, is_key};
ghost use Rattle.ja_abstract.specs.InProgram.{AreKeys};
ghost use Rattle.ja_abstract.specs.Writes.{put_writes, demands_of_put, strong_put, put_states, put_list, demands_of_puts};
ghost use Rattle.ja_rows.specs.Out.{all_go, goes};
ghost use Rattle.ja_aheap.specs.Objects.{demands_in, writes_of};
ghost use Rattle.ja_value.specs.Value.{value_of, labels_in};
ghost use Rattle.ja_transfer.specs.code.Members.{weakly_over, demands_over};
ghost use Rattle.ja_transfer.specs.code.Puts.{put_of, one_put, putting_of, putting, demands_of_keys, puts_at_some};

use crate::given::States;
use crate::spots::strong_spot;
use crate::stepper::Stepper;
use ja_abstract::Key;
use ja_aheap::{DemandList, Writes};
use ja_astate::{Looked, asked_at, demand_length, put_writes};
use ja_base::{Label, Memory};
use ja_value::{AValue, LabelSet};
use std::alloc::Global;

/// What a put does at the objects of a label and a key.
#[derive(Drop)]
pub(crate) struct PutAt {
    /// Whether it may be refused.
    pub refuses: bool,
    /// What it writes, if it may be accepted and writes something.
    pub writes: Option<Writes>,
    /// The pairs of the entry that this takes.
    pub demands: DemandList,
}

/// What a put does at the objects of a label and some keys.
#[derive(Drop)]
pub(crate) struct PutsAt {
    /// Whether it may be refused, or write something.
    pub is_something: bool,
    /// What it may write.
    pub writes: Writes,
    /// The pairs of the entry that this takes.
    pub demands: DemandList,
}

/// Adds writes behind others, if there are some.
fn append(writes: &mut Writes, more: Option<Writes>) -> Result<(), Memory>
    ensures { IfOk result (λ _. writes_of writes.new
        ≡ writes_of writes.old ++ unwrap_or (option_map writes_of more) []) }
{
    let Some(more) = more else {
        return Ok(());
    };
    let mut list = more.list;
    writes.list.append(&mut list)?;
    Ok(())
}

impl PutsAt {
    ghost use Rattle.ja_transfer.specs.code.Puts.{putting_of, nothing_put, put_of, put_more};

    /// No key is put at.
    fn nothing(alloc: Global) -> PutsAt
        ensures { putting_of result ≡ nothing_put }
    {
        PutsAt {
            is_something: false,
            writes: Writes {
                list: Vec::new(alloc),
            },
            demands: DemandList::new(alloc),
        }
    }

    /// Adds what a put does at one key more.
    fn add(&mut self, put: PutAt) -> Result<(), Memory>
        ensures { IfOk result (λ _. putting_of self.new
            ≡ put_more (putting_of self.old) (put_of put)) }
    {
        let PutAt {
            refuses,
            writes,
            demands,
        } = put;
        self.is_something = self.is_something | (refuses | writes.is_some());
        append(&mut self.writes, writes)?;
        self.demands.join(demands)
    }
}

impl Stepper<'_> {
    ghost use Rattle.ja_transfer.specs.Outcomes.{at_view, AreAdded};

    // ---- at a label and a key

    /// What a put writes at the objects of a label and a key, if it may be accepted and writes
    /// something.
    fn accepted_writes(
        &self,
        accepts: bool,
        label: Label,
        key: Key,
        value: &AValue,
    ) -> Result<Option<Writes>, Memory>
        requires { IsTrue (is_key self.now.reader.program.now key) }
        ensures { IfOk result (λ writes. option_map writes_of writes ≡ (if accepts
            then put_writes (at_view self.now) label key (value_of value.now) else None)) }
    {
        if !accepts {
            return Ok(None);
        }
        put_writes(&self.reader, label, key, value)
    }

    /// What a put does at the objects of a label and a key.
    fn put_at(&self, label: Label, key: Key, value: &AValue) -> Result<PutAt, Memory>
        requires { IsTrue (is_key self.now.reader.program.now key) }
        ensures { IfOk result (λ put. put_of put
            ≡ one_put (at_view self.now) label key (value_of value.now)) }
    {
        let Looked {
            property,
            mut demands,
        } = asked_at(&self.reader, label, key)?;
        let accepts = property.attrs.read_only.unset | property.value.flags.absent;
        let writes = self.accepted_writes(accepts, label, key, value)?;
        demand_length(&self.reader, accepts, label, key, &mut demands)?;
        Ok(PutAt {
            refuses: property.attrs.read_only.set,
            writes,
            demands,
        })
    }

    /// What a put does at the objects of a label and some keys.
    fn puts_at(&self, label: Label, keys: &[Key], value: &AValue) -> Result<PutsAt, Memory>
        requires { AreKeys self.now.reader.program.now keys.now }
        ensures { IfOk result (λ puts. putting_of puts
            ≡ putting (at_view self.now) label keys.now (value_of value.now)) }
    {
        let mut puts = PutsAt::nothing(self.reader.alloc);
        for key in keys {
            let put = self.put_at(label, *key, value)?;
            puts.add(put)?;
        }
        Ok(puts)
    }

    // ---- at some labels and keys

    /// A put at the one object of a label, in place where it is accepted.
    fn strong_put(
        &self,
        states: &mut States,
        label: Label,
        key: Key,
        value: &AValue,
    ) -> Result<DemandList, Memory>
        requires label { IsTrue (is_label self.now.reader.program.now label) }
        requires key { IsTrue (is_key self.now.reader.program.now key) }
        ensures states { IfOk result (λ _. AreAdded self.now (all_go self.now.info.now.next
            (strong_put (at_view self.now) label key (value_of value.now)))
            states.old states.new) }
        ensures demands { IfOk result (λ d. demands_in d
            ≡ demands_of_put (at_view self.now) label key) }
    {
        let PutAt {
            refuses,
            writes,
            demands,
        } = self.put_at(label, key, value)?;
        self.goes(states, refuses, self.info.next)?;
        let Some(writes) = writes else {
            return Ok(demands);
        };
        let state = self.strongly(label, writes)?;
        self.gives(states, self.info.next, state)?;
        Ok(demands)
    }

    /// A put at all objects of some labels of the program: each write joins.
    fn weak_put(
        &self,
        states: &mut States,
        members: &[Label],
        keys: &[Key],
        value: &AValue,
    ) -> Result<DemandList, Memory>
        requires labels { All (λ (l : Label). IsTrue (is_label self.now.reader.program.now l))
            members.now }
        requires keys { AreKeys self.now.reader.program.now keys.now }
        ensures states { IfOk result (λ _. AreAdded self.now (goes
            (puts_at_some (at_view self.now) members.now keys.now (value_of value.now))
            self.now.info.now.next (weakly_over self.now.reader.program.now
            (at_view self.now).state members.now
            (put_list (at_view self.now) keys.now (value_of value.now))))
            states.old states.new) }
        ensures demands { IfOk result (λ d. demands_in d
            ≡ demands_over members.now (demands_of_keys (at_view self.now) keys.now)) }
    {
        let mut state = self.reader.state.fork(self.reader.alloc)?;
        let mut is_something = false;
        let mut demands = DemandList::new(self.reader.alloc);
        for label in members {
            let PutsAt {
                is_something: here,
                writes,
                demands: more,
            } = self.puts_at(*label, keys, value)?;
            self.weakly(&mut state, *label, writes)?;
            is_something = is_something | here;
            demands.join(more)?;
        }
        self.gives_if(states, is_something, self.info.next, state)?;
        Ok(demands)
    }

    /// [[Put]] of a value at some labels and keys: the states that it may leave go to the next
    /// node, and what it demands is given.
    pub fn puts(
        &self,
        states: &mut States,
        target: &LabelSet,
        keys: &[Key],
        value: &AValue,
    ) -> Result<DemandList, Memory>
        requires keys { AreKeys self.now.reader.program.now keys.now }
        ensures states { IfOk result (λ _. AreAdded self.now (all_go self.now.info.now.next
            (put_states (at_view self.now) (labels_in target.now) keys.now (value_of value.now)))
            states.old states.new) }
        ensures demands { IfOk result (λ d. demands_in d
            ≡ demands_of_puts (at_view self.now) (labels_in target.now) keys.now) }
    {
        let members = self.reader.labels(target)?;
        match strong_spot(&members, keys) {
            Some((label, key)) => self.strong_put(states, label, key, value),
            None => self.weak_put(states, &members, keys, value),
        }
    }
}
