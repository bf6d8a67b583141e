//! The functions that callees run, and call edges into them.

ghost use Rattle.std.specs.Prelude.{◌≡◌, ◌<◌, ◌==◌, ◌||◌, [], ◌++◌, ℕ, Bool, IfOk, false, if◌then◌else◌, length, filter, map};
ghost use Rattle.std.specs.Option.{option_map_or};
ghost use Rattle.ja_base.specs.declared.ids.FnId.{FnId};
ghost use Rattle.ja_abstract.specs.AbstractState.{labels_of};
ghost use Rattle.ja_rows.specs.Edges.{edge, edges_to, receivers};
ghost use Rattle.ja_aheap.specs.Heap.{heap_of};
ghost use Rattle.ja_value.specs.Value.{value_of, labels_in};
ghost use Rattle.ja_transfer.specs.declared.sites.Entry.TheVariants.{Call};
ghost use Rattle.ja_transfer.specs.code.Callees.{some_run, IsNext, edges_below};

use crate::sites::{Entry, entry_at};
use crate::stepper::Stepper;
use ja_base::{Context, FnId, Label, Memory};
use ja_graph::Program;
use ja_rows::Edge;
use ja_value::{AValue, LabelSet};

/// How many call edges lead from one node at most. More are as want of memory: each is a context.
const MOST_EDGES: usize = 1_048_576;

/// The lesser of two functions, of which the second may be out of a range.
fn lesser(next: Option<FnId>, called: Option<FnId>, from: usize, end: usize) -> Option<FnId>
    ensures { (is_run : ℕ → Bool) → IsNext is_run from end next → IsNext
        (λ f. is_run f || option_map_or (λ (g : FnId). g.0 == f) called false) from end result }
{
    let Some(function) = called else {
        return next;
    };
    let number = function.0 as usize;
    if number < from || end <= number {
        return next;
    }
    match next {
        Some(least) if least.0 <= function.0 => next,
        _ => called,
    }
}

/// The least function from a number on, and below another, that the objects of some labels run.
fn next_run(
    program: &Program,
    entry: Entry,
    callees: &[Label],
    from: usize,
    end: usize,
) -> Option<FnId>
    ensures { IsNext (some_run entry program.now callees.now) from end result }
{
    let mut next = None;
    for callee in callees {
        next = lesser(next, entry_at(program, entry, *callee), from, end);
    }
    next
}

impl Stepper<'_> {
    ghost use Rattle.ja_transfer.specs.Outcomes.{at_view, point_of};

    /// An edge into a function for each receiver. There is none where memory is refused, or where
    /// that would be more than `MOST_EDGES`.
    pub(crate) fn add_edges(
        &self,
        edges: &mut Vec<Edge>,
        function: FnId,
        receivers: &[Label],
    ) -> Result<(), Memory>
        ensures { IfOk result (λ _. edges.new.items
            ≡ edges.old.items ++ map (edge (point_of self.now) function.0) receivers.now) }
    {
        for receiver in receivers {
            if edges.len() >= MOST_EDGES {
                return Err(Memory);
            }
            edges.push(Edge {
                caller: self.context,
                node: self.number,
                callee: Context {
                    function,
                    receiver: *receiver,
                },
            })?;
        }
        Ok(())
    }

    /// An edge into each function that some callee runs, for each receiver.
    pub fn edges_into(
        &self,
        entry: Entry,
        callees: &[Label],
        receivers: &[Label],
    ) -> Result<Vec<Edge>, Memory>
        ensures { IfOk result (λ edges. edges.items ≡ edges_below (point_of self.now)
            (some_run entry self.now.reader.program.now callees.now) receivers.now
            (length self.now.reader.program.now.functions)) }
    {
        let program = self.reader.program;
        let end = program.functions.len();
        let mut edges = Vec::new(self.reader.alloc);
        let mut from = 0;
        while let Some(function) = next_run(program, entry, callees, from, end) {
            self.add_edges(&mut edges, function, receivers)?;
            from = function.0 as usize + 1;
        }
        Ok(edges)
    }

    /// An edge into each function that some callee runs, for each receiver of a value. Where none
    /// runs one, receivers aren't looked for.
    pub(crate) fn call_edges(
        &self,
        callees: &[Label],
        receiver: &AValue,
    ) -> Result<Vec<Edge>, Memory>
        requires { 0 < (heap_of self.now.reader.state.now.heap).sites }
        ensures { IfOk result (λ edges. edges.items ≡ edges_below (point_of self.now)
            (some_run Call self.now.reader.program.now callees.now)
            (filter (receivers (at_view self.now) (value_of receiver.now))
            (labels_of self.now.reader.program.now))
            (length self.now.reader.program.now.functions)) }
    {
        let program = self.reader.program;
        let end = program.functions.len();
        if next_run(program, Entry::Call, callees, 0, end).is_none() {
            return Ok(Vec::new(self.reader.alloc));
        }
        let receivers = self.receivers(receiver)?;
        self.edges_into(Entry::Call, callees, &receivers)
    }

    /// An edge into a function for each label of a set, if there is reason for them.
    pub(crate) fn edges_if(
        &self,
        is_run: bool,
        function: FnId,
        receivers: &LabelSet,
    ) -> Result<Vec<Edge>, Memory>
        ensures { IfOk result (λ edges. edges.items ≡ (if is_run then edges_to (at_view self.now)
            (point_of self.now) (λ g. g == function.0) (labels_in receivers.now) else [])) }
    {
        let mut edges = Vec::new(self.reader.alloc);
        if !is_run {
            return Ok(edges);
        }
        if self.reader.program.functions.len() <= function.0 as usize {
            return Ok(edges);
        }
        let receivers = self.reader.labels(receivers)?;
        self.add_edges(&mut edges, function, &receivers)?;
        Ok(edges)
    }
}
