ghost use Rattle.std.specs.Prelude.{◌≡◌, ℕ, ◌+◌, ◌*◌, ◌^◌, ◌<◌, ◌≤◌, ◌-◌, ◌/◌, IfOk, OnErr, MatchResult};
ghost use Rattle.std.specs.Prelude.{if◌then◌else◌, is_ok, is_some, nat_lt, length, map, flat_map};
ghost use Rattle.std.specs.Prelude.{Option, true};
ghost use Rattle.std.specs.Prelude.{replicate, slice_index_or, slice_set, unwrap_or};
ghost use Rattle.ja_trie.specs.code.Node.{places, places_after, IsNode, AreSame};
ghost use Rattle.ja_trie.specs.Join.{MayAnswer, kept_or, put_by};
ghost use Rattle.ja_trie.specs.code.Join.{JoinedTo};
ghost use Rattle.ja_trie.specs.Run.{IsRun};
ghost use Rattle.ja_trie.specs.Test.{MaySay};
ghost use Rattle.ja_trie.specs.code.Test.{SaysOfFirst};

use crate::steps::Steps;
use ja_base::Memory;
use std::alloc::Global;
use std::marker::Model;
use std::rc::Rc;
use std::sync::ledger::Ledger;

/// How many kids a node has.
pub const FAN_OUT: u32 = 8;

/// A node of a shared list. Contracts see the values at its places.
///
/// Each node is full: a list has as many places as its root, of which it shows the first ones, and
/// the places behind them share what the list was made with. So a node has 8 to the power of its
/// height in places, and its kids are equally high. The height is kept nowhere: a call is told the
/// `width`, how many places stand below each kid.
///
/// A node that was made with one kid eight times knows it until a place of it is put. Where both
/// sides of a join or a test know it of theirs, one step goes through all eight.
#[cycle(node)]
#[derive(Drop)]
pub struct Node<T> {
    kids: Kids<T>,
    /// Says that all eight kids have the same values. Where it doesn't they may have them too.
    same: bool,
}

/// What hangs at a node: eight values, or eight nodes of one height.
#[cycle(node)]
#[derive(Drop)]
pub enum Kids<T> {
    Values([Rc<T>; 8]),
    Nodes([Rc<Node<T>>; 8]),
}

impl<T> Model for Node<T> {
    ghost use Rattle.std.specs.Prelude.{◌≡◌, true, List, length};

    ghost Value = { List T };

    ghost use Rattle.ja_trie.specs.code.Node.{places, IsNode, AreSame};

    ghost view = { λ n. places n.kids };

    ghost invariant = { λ n. IsNode n.kids × (n.same ≡ true → AreSame n.kids) };

    ghost size = { length };

    ghost use Rattle.ja_trie.specs.code.NodeFalls.{depth_within_places};

    ghost size_decreases = { λ n h. depth_within_places n.kids h.0 };
}

impl<T: Drop> Node<T> {
    /// The one way to make a node, which is told whether its kids are the same. It is one step.
    /// There is none where memory is refused, and then no step is counted.
    pub fn new<L: Ledger>(
        alloc: Global,
        kids: Kids<T>,
        same: bool,
        steps: &mut Steps<L>,
    ) -> Result<Rc<Node<T>>, Memory>
        requires shape { IsNode kids }
        requires same { same ≡ true → AreSame kids }
        ensures ok { IfOk result (λ node. node.value ≡ places kids) }
        ensures ticked { steps.new ≡ steps.old + (if is_ok result then 1 else 0) }
    {
        let node = Rc::new(alloc, Node { kids, same })?;
        steps.tick();
        Ok(node)
    }

    /// A node with one value at each of its eight places, all of them shared.
    pub fn of_value<L: Ledger>(
        alloc: Global,
        value: &Rc<T>,
        steps: &mut Steps<L>,
    ) -> Result<Rc<Node<T>>, Memory>
        ensures ok { IfOk result (λ node. node.value ≡ replicate 8 value.now.value) }
        ensures nodes { steps.new ≤ steps.old + 1 }
    {
        let kids = [
            value.clone()?,
            value.clone()?,
            value.clone()?,
            value.clone()?,
            value.clone()?,
            value.clone()?,
            value.clone()?,
            value.clone()?,
        ];
        Node::new(alloc, Kids::Values(kids), true, steps)
    }

    /// A node with one node as each of its eight kids, all of them shared.
    pub fn of_node<L: Ledger>(
        alloc: Global,
        node: &Rc<Node<T>>,
        steps: &mut Steps<L>,
    ) -> Result<Rc<Node<T>>, Memory>
        requires { (w : ℕ) × (0 < w) × (length node.now.value ≡ 8 * w) }
        ensures ok { IfOk result (λ above.
            above.value ≡ flat_map (λ n. n.value) (replicate 8 node.now)) }
        ensures nodes { steps.new ≤ steps.old + 1 }
    {
        let kids = [
            node.clone()?,
            node.clone()?,
            node.clone()?,
            node.clone()?,
            node.clone()?,
            node.clone()?,
            node.clone()?,
            node.clone()?,
        ];
        Node::new(alloc, Kids::Nodes(kids), true, steps)
    }

    /// The value at a place.
    pub fn get(&self, index: u32, width: u32) -> &T
        requires within { index < length self.now }
        requires level { length self.now ≡ 8 * width }
        ensures { result.now ≡ slice_index_or self.now index result.now }
    {
        match &self.kids {
            Kids::Values(values) => &values[index as usize],
            Kids::Nodes(nodes) => {
                let at = (index / width) as usize;
                nodes[at].get(index % width, width / FAN_OUT)
            }
        }
    }

    /// The end of a run of one value that begins at a place: behind it, and as far as nodes know
    /// that their kids are the same.
    pub fn run_end(&self, index: u32, width: u32) -> u64
        requires within { index < length self.now }
        requires level { length self.now ≡ 8 * width }
        ensures { IsRun self.now index result }
    {
        match &self.kids {
            Kids::Values(_) => {
                if self.same {
                    return FAN_OUT as u64;
                }
                u64::from(index) + 1
            }
            Kids::Nodes(nodes) => {
                let at = (index / width) as usize;
                let inside = index % width;
                let end = nodes[at].run_end(inside, width / FAN_OUT);
                if self.same && inside == 0 && end == u64::from(width) {
                    return FAN_OUT as u64 * end;
                }
                u64::from(index - inside) + end
            }
        }
    }

    /// The same node with another value at a place, by one new node a level; all other nodes are
    /// shared with this one.
    pub fn set<L: Ledger>(
        &self,
        alloc: Global,
        index: u32,
        width: u32,
        value: Rc<T>,
        steps: &mut Steps<L>,
    ) -> Result<Rc<Node<T>>, Memory>
        requires within { index < length self.now }
        requires level { length self.now ≡ 8 * width }
        ensures ok { IfOk result (λ node. node.value ≡ slice_set self.now index value.value) }
        ensures grows { steps.old ≤ steps.new }
        ensures nodes { (h : ℕ) → length self.now ≡ 8 ^ (h + 1)
            → steps.new ≤ steps.old + h + 1 }
    {
        match &self.kids {
            Kids::Values(values) => {
                let mut values = values.clone()?;
                values[index as usize] = value;
                Node::new(alloc, Kids::Values(values), false, steps)
            }
            Kids::Nodes(nodes) => {
                let at = (index / width) as usize;
                let below = nodes[at].set(alloc, index % width, width / FAN_OUT, value, steps)?;
                let mut nodes = nodes.clone()?;
                nodes[at] = below;
                Node::new(alloc, Kids::Nodes(nodes), false, steps)
            }
        }
    }

    /// Puts a value at a place: where no copy shares the node, in the node itself, and else by new
    /// nodes, one a level at most.
    pub fn put<L: Ledger>(
        node: &mut Rc<Node<T>>,
        alloc: Global,
        index: u32,
        width: u32,
        value: Rc<T>,
        steps: &mut Steps<L>,
    ) -> Result<(), Memory>
        requires within { index < length node.old.value }
        requires level { length node.old.value ≡ 8 * width }
        ensures ok { IfOk result (λ _.
            node.new.value ≡ slice_set node.old.value index value.value) }
        ensures err { OnErr result (node.new.value ≡ node.old.value) }
        ensures nodes { (h : ℕ) → length node.old.value ≡ 8 ^ (h + 1)
            → steps.new ≤ steps.old + h + 1 }
    {
        match Rc::get_mut(node) {
            Some(own) => {
                own.same = false;
                match &mut own.kids {
                    Kids::Values(values) => {
                        values[index as usize] = value;
                        Ok(())
                    }
                    Kids::Nodes(nodes) => {
                        let at = (index / width) as usize;
                        Node::put(
                            &mut nodes[at],
                            alloc,
                            index % width,
                            width / FAN_OUT,
                            value,
                            steps,
                        )
                    }
                }
            }
            None => {
                *node = node.set(alloc, index, width, value, steps)?;
                Ok(())
            }
        }
    }

    /// The same node joined with another one at its first `count` places, or none where no place is
    /// put. It makes at most one node a level for each place that it put, and where memory is
    /// refused for each of the first `count` places. Where both know that their kids are the same
    /// and all their places count, it joins one kid with one, and has the result eight times.
    pub fn join<L: Ledger, F: Fn(&T, &T) -> Result<Option<T>, Memory>>(
        &self,
        other: &Node<T>,
        alloc: Global,
        count: u32,
        width: u32,
        join: &F,
        steps: &mut Steps<L>,
    ) -> Result<Option<Rc<Node<T>>>, Memory>
        requires level { length self.now ≡ 8 * width }
        requires same { length other.now ≡ length self.now }
        requires may { F.IsAlwaysCallable join.now }
        ensures { MatchResult result
            (λ node. (puts : ℕ) × (is_some node ≡ nat_lt 0 puts)
            × JoinedTo (MayAnswer F.Fn join.now) count self.now other.now
            (places_after self.now node) puts
            × ((h : ℕ) → length self.now ≡ 8 ^ (h + 1)
            → steps.new ≤ steps.old + (h + 1) * puts))
            (λ e. (h : ℕ) → length self.now ≡ 8 ^ (h + 1)
            → steps.new ≤ steps.old + (h + 1) * count) }
    {
        if count == 0 {
            return Ok(None);
        }
        match (&self.kids, &other.kids) {
            (Kids::Values(values), Kids::Values(others)) => {
                if self.same && other.same && count / FAN_OUT >= width {
                    return join_value(alloc, &values[0], &others[0], join, steps);
                }
                match join_values(alloc, values, others, count, join)? {
                    Some(kids) => Ok(Some(Node::new(alloc, Kids::Values(kids), false, steps)?)),
                    None => Ok(None),
                }
            }
            (Kids::Nodes(nodes), Kids::Nodes(others)) => {
                if self.same && other.same && count / FAN_OUT >= width {
                    return match nodes[0].join(
                        &others[0],
                        alloc,
                        width,
                        width / FAN_OUT,
                        join,
                        steps,
                    )? {
                        Some(kid) => Ok(Some(Node::of_node(alloc, &kid, steps)?)),
                        None => Ok(None),
                    };
                }
                let mut kids = None;
                let mut left = count;
                for i in 0..FAN_OUT as usize {
                    if let Some(kid) = nodes[i].join(
                        &others[i],
                        alloc,
                        left,
                        width / FAN_OUT,
                        join,
                        steps,
                    )? {
                        put_kid(&mut kids, nodes, i, kid)?;
                    }
                    left = left.saturating_sub(width);
                }
                match kids {
                    Some(kids) => Ok(Some(Node::new(alloc, Kids::Nodes(kids), false, steps)?)),
                    None => Ok(None),
                }
            }
            _ => unreachable!(),
        }
    }

    /// Whether a test holds of the values at each of the first `count` places of this node and of
    /// another one. It takes no memory, and ends at the first place where the test doesn't hold.
    /// Where both know that their kids are the same, the first one of each stands for all.
    pub fn all_with<F: Fn(&T, &T) -> bool>(
        &self,
        other: &Node<T>,
        count: u32,
        width: u32,
        test: &F,
    ) -> bool
        requires level { length self.now ≡ 8 * width }
        requires same { length other.now ≡ length self.now }
        requires may { F.IsAlwaysCallable test.now }
        ensures { SaysOfFirst (MaySay F.Fn test.now) count self.now other.now result }
    {
        if count == 0 {
            return true;
        }
        match (&self.kids, &other.kids) {
            (Kids::Values(values), Kids::Values(others)) => {
                if self.same && other.same {
                    return test(&values[0], &others[0]);
                }
                all_values(values, others, count, test)
            }
            (Kids::Nodes(nodes), Kids::Nodes(others)) => {
                if self.same && other.same {
                    return nodes[0].all_with(&others[0], count, width / FAN_OUT, test);
                }
                let mut left = count;
                for i in 0..FAN_OUT as usize {
                    if !nodes[i].all_with(&others[i], left, width / FAN_OUT, test) {
                        return false;
                    }
                    left = left.saturating_sub(width);
                }
                true
            }
            _ => unreachable!(),
        }
    }
}

/// A node with one value at its eight places, joined with another such node: `join` is asked once.
fn join_value<T: Drop, L: Ledger, F: Fn(&T, &T) -> Result<Option<T>, Memory>>(
    alloc: Global,
    value: &T,
    other: &T,
    join: &F,
    steps: &mut Steps<L>,
) -> Result<Option<Rc<Node<T>>>, Memory>
    requires { F.IsAlwaysCallable join.now }
    ensures { MatchResult result
        (λ node. (answer : Option T) × MayAnswer F.Fn join.now value.now other.now answer
        × (is_some node ≡ is_some answer)
        × (places_after (replicate 8 value.now) node ≡ replicate 8 (kept_or value.now answer))
        × (steps.new ≤ steps.old + put_by answer))
        (λ e. steps.new ≤ steps.old + 1) }
{
    match join(value, other)? {
        Some(joined) => {
            let joined = Rc::new(alloc, joined)?;
            Ok(Some(Node::of_value(alloc, &joined, steps)?))
        }
        None => Ok(None),
    }
}

/// The values of a node joined with those of another at the first `count` places; none where none
/// was put.
fn join_values<T: Drop, F: Fn(&T, &T) -> Result<Option<T>, Memory>>(
    alloc: Global,
    values: &[Rc<T>; 8],
    others: &[Rc<T>; 8],
    count: u32,
    join: &F,
) -> Result<Option<[Rc<T>; 8]>, Memory>
    requires { F.IsAlwaysCallable join.now }
    ensures { IfOk result (λ kids. (puts : ℕ) × (is_some kids ≡ nat_lt 0 puts)
        × JoinedTo (MayAnswer F.Fn join.now) count (map (λ x. x.value) values.now)
        (map (λ x. x.value) others.now) (map (λ x. x.value) (unwrap_or kids values.now)) puts) }
{
    let mut kids = None;
    for i in 0..count.min(FAN_OUT) as usize {
        if let Some(value) = join(&values[i], &others[i])? {
            put_kid(&mut kids, values, i, Rc::new(alloc, value)?)?;
        }
    }
    Ok(kids)
}

/// Puts a kid at a place of a copy of eight kids, which is made when the first one is put: most
/// joins put none, and copy nothing.
fn put_kid<X: Drop>(
    changed: &mut Option<[Rc<X>; 8]>,
    kids: &[Rc<X>; 8],
    index: usize,
    kid: Rc<X>,
) -> Result<(), Memory>
    requires { index < 8 }
    ensures { IfOk result (λ _. (is_some changed.new ≡ true)
        × (map (λ x. x.value) (unwrap_or changed.new kids.now)
        ≡ slice_set (map (λ x. x.value) (unwrap_or changed.old kids.now)) index kid.value)) }
{
    match changed {
        Some(own) => own[index] = kid,
        None => {
            let mut own = kids.clone()?;
            own[index] = kid;
            *changed = Some(own);
        }
    }
    Ok(())
}

/// Whether a test holds of the values of a node and of another at each of the first `count` places.
fn all_values<T, F: Fn(&T, &T) -> bool>(
    values: &[Rc<T>; 8],
    others: &[Rc<T>; 8],
    count: u32,
    test: &F,
) -> bool
    requires { F.IsAlwaysCallable test.now }
    ensures { SaysOfFirst (MaySay F.Fn test.now) count (map (λ x. x.value) values.now)
        (map (λ x. x.value) others.now) result }
{
    for i in 0..FAN_OUT.min(count) as usize {
        if !test(&values[i], &others[i]) {
            return false;
        }
    }
    true
}
