//! The nodes of `for`-`in` (ES3 12.6.4).

ghost use Rattle.std.specs.Prelude.{◌≡◌, [], Some, IfOk, OnOk, IsSome, length, slice_get};
ghost use Rattle.std.specs.Option.{option_map};
ghost use Rattle.ja_machine.specs.Frames.{remaining, with_remaining, without_first};
ghost use Rattle.ja_machine.specs.Nodes.{shown, names_step, takes, pick_step};
ghost use Rattle.ja_step.specs.code.Steps.{held, frame_of, standing, leads_to};

use crate::frame::Listed;
use crate::{Conf, Frame};
use ja_base::{Memory, Reg, ScopeKind};
use ja_graph::NodeInfo;
use ja_machine::{Addr, Answer, End, Value};
use ja_prim::{Primitive, Text16};
use std::alloc::Global;
use std::collections::VecDeque;

/// Takes out the first name that is this one.
fn take_first(names: &mut VecDeque<Text16>, name: &Text16)
    ensures { names.new.items ≡ without_first names.old.items name.now }
{
    for index in 0..names.len() {
        if names[index] == *name {
            let _ = names.remove(index);
            return;
        }
    }
}

impl Frame {
    ghost use Rattle.std.specs.Option.{option_map_or};
    ghost use Rattle.ja_step.specs.code.Steps.{frame_of};
    ghost use Rattle.ja_step.specs.code.Lists.{place_of_list};

    /// The place of a list among those that were fixed, or their number where it isn't among them.
    fn place(&self, list: Reg) -> usize
        ensures { result ≡ place_of_list self.now.lists.items list }
    {
        for index in 0..self.lists.len() {
            if self.lists[index].list == list {
                return index;
            }
        }
        self.lists.len()
    }

    /// The names of a list that remain. Of a list that isn't there none do.
    fn remaining(&self, list: Reg) -> Option<&VecDeque<Text16>>
        ensures { option_map_or (λ names. names.now.items) result []
            ≡ remaining (frame_of self.now).lists list }
    {
        let place = self.place(list);
        if place < self.lists.len() {
            Some(&self.lists[place].names)
        } else {
            None
        }
    }

    /// Fixes the names of a list.
    fn fix_names(&mut self, list: Reg, names: VecDeque<Text16>) -> Result<(), Memory>
        ensures { OnOk result (frame_of self.new
            ≡ record (frame_of self.old) {
              lists = with_remaining (frame_of self.old).lists list
                  names.items;
            }) }
    {
        let place = self.place(list);
        if place < self.lists.len() {
            self.lists[place] = Listed { list, names };
        } else {
            self.lists.push(Listed { list, names })?;
        }
        Ok(())
    }

    /// Takes a name out of a list.
    fn take_name(&mut self, alloc: Global, list: Reg, name: &Text16) -> Result<(), Memory>
        ensures { OnOk result (frame_of self.new
            ≡ record (frame_of self.old) {
              lists = with_remaining (frame_of self.old).lists list
                  (without_first (remaining (frame_of self.old).lists list) name.now);
            }) }
    {
        let place = self.place(list);
        if place < self.lists.len() {
            take_first(&mut self.lists[place].names, name);
        } else {
            self.lists.push(Listed {
                list,
                names: VecDeque::new(alloc),
            })?;
        }
        Ok(())
    }
}

impl Conf {
    /// How many names of a list remain that an object still shows.
    pub(crate) fn shown_count(&self, list: Reg, a: Addr) -> u64
        ensures { result ≡ length (shown self.now.heap (frame_of self.now.frame) list a) }
    {
        let Some(names) = self.frame.remaining(list) else {
            return 0;
        };
        let mut count: u64 = 0;
        for index in 0..names.len() {
            if self.heap.shows(a, &names[index]) {
                count += 1;
            }
        }
        count
    }

    /// The name at a place among those of a list that remain and that an object still shows.
    pub(crate) fn shown_at(&self, list: Reg, a: Addr, place: u64) -> Option<&Text16>
        ensures { option_map (λ name. name.now) result
            ≡ slice_get (shown self.now.heap (frame_of self.now.frame) list a) place }
    {
        let names = self.frame.remaining(list)?;
        let mut before = place;
        for index in 0..names.len() {
            if self.heap.shows(a, &names[index]) {
                if before == 0 {
                    return Some(&names[index]);
                }
                before -= 1;
            }
        }
        None
    }

    /// The names that an object shows are fixed in a list.
    pub(crate) fn fixes_names(
        &mut self,
        alloc: Global,
        info: &NodeInfo,
        list: Reg,
        object: Reg,
    ) -> Result<Option<End>, Memory>
        ensures { IfOk result (λ end. leads_to self.old end self.new
            ≡ names_step (standing self.old info.now) list (held self.old object)) }
    {
        match self.frame.register(object) {
            Some(Value::Object(a)) => {
                let names = self.heap.names(alloc, *a)?;
                self.frame.fix_names(list, VecDeque::from_vec(names))?;
                Ok(self.goes_on(info))
            }
            _ => Ok(self.left_scope(info, ScopeKind::Register)),
        }
    }

    /// A name is taken: it remains no longer, and a register is set to it.
    fn takes(
        &mut self,
        alloc: Global,
        info: &NodeInfo,
        list: Reg,
        dst: Reg,
        name: Text16,
    ) -> Result<Option<End>, Memory>
        ensures { IfOk result (λ end. leads_to self.old end self.new
            ≡ takes (standing self.old info.now) list dst name) }
    {
        self.frame.take_name(alloc, list, &name)?;
        Ok(self.sets(info, dst, Value::Primitive(Primitive::Text(name))))
    }

    /// The name at the answer's place is taken, or, where none is shown, the node goes on to
    /// `other`. The machine has a step with the answer.
    pub(crate) fn picks(
        &mut self,
        alloc: Global,
        info: &NodeInfo,
        list: Reg,
        dst: Reg,
        object: Reg,
        answer: &Answer,
    ) -> Result<Option<End>, Memory>
        requires { IsSome (pick_step (standing self.old info.now) list dst answer.now
            (held self.old object)) }
        ensures { IfOk result (λ end. Some (leads_to self.old end self.new)
            ≡ pick_step (standing self.old info.now) list dst answer.now (held self.old object)) }
    {
        let Some(Value::Object(a)) = self.frame.register(object) else {
            return Ok(self.left_scope(info, ScopeKind::Register));
        };
        match answer {
            Answer::Tick => Ok(self.turns(info)),
            Answer::Pick(place) => match self.shown_at(list, *a, *place) {
                Some(name) => {
                    let name = name.copy()?;
                    self.takes(alloc, info, list, dst, name)
                }
                None => unreachable!(),
            },
            Answer::Device(_) => unreachable!(),
        }
    }
}
