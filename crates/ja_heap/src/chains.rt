//! What is found along the prototypes of an object (ES3 8.6.2.1 to 8.6.2.4), and along a scope
//! chain (10.1.4).
ghost use Rattle.std.specs.Prelude.{◌≡◌, IfOk, find};
ghost use Rattle.std.specs.Option.{option_map, option_and_then};
ghost use Rattle.ja_machine.specs.Heap as spec;
ghost use Rattle.ja_machine.specs.Enumeration as enumeration;

use crate::Heap;
use ja_base::Memory;
use ja_machine::{Addr, Content, Property};
use ja_prim::Text16;
use std::alloc::Global;

/// Whether two addresses are of one object.
fn same_address(a: Addr, b: Addr) -> bool
    ensures { result ≡ spec.same_address a b }
{
    a.site.0 == b.site.0 && a.ordinal == b.ordinal
}

impl Heap {
    /// The object that one inherits from.
    fn prototype_at(&self, a: Addr) -> Option<Addr>
        ensures { result ≡ option_and_then spec.prototype_of (spec.object_at self.now a) }
    {
        self.object(a)?.prototype()
    }

    /// The object behind one of a scope chain.
    fn outer_at(&self, a: Addr) -> Option<Addr>
        ensures { result ≡ option_and_then spec.outer_of (spec.object_at self.now a) }
    {
        self.object(a)?.outer()
    }

    /// The property of a name, own or inherited: the nearest one (ES3 8.6.2.1).
    #[tactic(auto, using(crate::proofs::Links::walk))]
    pub fn get(&self, a: Addr, name: &Text16) -> Option<&Property>
        ensures { option_map (λ q. q.now) result ≡ spec.get self.now a name.now }
    {
        let mut at = Some(a);
        for _object in 0..self.size {
            match at {
                None => return None,
                Some(b) => match self.own(b, name) {
                    Some(held) => return Some(held),
                    None => at = self.prototype_at(b),
                },
            }
        }
        None
    }

    /// What the nearest property of a name holds.
    pub fn content_at(&self, a: Addr, name: &Text16) -> Option<&Content>
        ensures { option_map (λ content. content.now) result ≡ spec.content_at self.now a name.now }
    {
        match self.get(a, name) {
            Some(held) => Some(&held.content),
            None => None,
        }
    }

    /// Whether an object has a property of the name, own or inherited (ES3 8.6.2.4).
    pub fn has(&self, a: Addr, name: &Text16) -> bool
        ensures { result ≡ spec.has self.now a name.now }
    {
        self.get(a, name).is_some()
    }

    /// Whether a put isn't ignored: the nearest property of the name, if there is one, isn't
    /// read-only (ES3 8.6.2.3).
    pub fn can_put(&self, a: Addr, name: &Text16) -> bool
        ensures { result ≡ spec.can_put self.now a name.now }
    {
        match self.get(a, name) {
            Some(held) => !held.attrs.read_only,
            None => true,
        }
    }

    /// Whether an object shows a name to `for`-`in`: the nearest property of the name is enumerable
    /// (ES3 12.6.4).
    pub fn shows(&self, a: Addr, name: &Text16) -> bool
        ensures { result ≡ enumeration.shows self.now a name.now }
    {
        match self.get(a, name) {
            Some(held) => !held.attrs.dont_enum,
            None => false,
        }
    }

    /// The first object of a scope chain that has the name (ES3 10.1.4).
    #[tactic(auto, using(crate::proofs::Links::walk))]
    pub fn find_name(&self, scope: Addr, name: &Text16) -> Option<Addr>
        ensures { result ≡ find (λ b. spec.has self.now b name.now) (spec.scopes self.now scope) }
    {
        let mut at = Some(scope);
        for _object in 0..self.size {
            match at {
                None => return None,
                Some(b) => {
                    if self.has(b, name) {
                        return Some(b);
                    }
                    at = self.outer_at(b);
                }
            }
        }
        None
    }

    /// Whether an object is among those that another inherits from (ES3 15.3.5.3).
    #[tactic(auto, using(crate::proofs::Links::walk))]
    pub fn inherits_from(&self, left: Addr, prototype: Addr) -> bool
        ensures { result ≡ spec.inherits_from self.now left prototype }
    {
        let mut at = self.prototype_at(left);
        for _object in 1..self.size {
            match at {
                None => return false,
                Some(b) => {
                    if same_address(prototype, b) {
                        return true;
                    }
                    at = self.prototype_at(b);
                }
            }
        }
        false
    }

    /// An object and those that it inherits from.
    #[tactic(auto, using(crate::proofs::Links::walk))]
    pub(crate) fn prototypes(&self, alloc: Global, a: Addr) -> Result<Vec<Addr>, Memory>
        ensures { IfOk result (λ chain. chain.items ≡ spec.prototypes self.now a) }
    {
        let mut chain = Vec::new(alloc);
        let mut at = Some(a);
        for _object in 0..self.size {
            match at {
                None => return Ok(chain),
                Some(b) => {
                    chain.push(b)?;
                    at = self.prototype_at(b);
                }
            }
        }
        Ok(chain)
    }
}
