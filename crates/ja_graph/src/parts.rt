//! The parts of a program by their numbers. None takes memory.

ghost use Rattle.std.specs.Prelude.{◌≡◌, ◌<◌, ◌≤◌, ◌^◌, Some, length, slice_get};
ghost use Rattle.ja_graph.specs.code.Parts as spec;

use crate::{Function, Hint, ObjectSpec, Program, SiteInfo};
use ja_base::{FnId, NameId, Site};
use ja_prim::{Signature, Text16};

impl Program {
    /// The function of a number, which is below how many there are.
    pub fn function(&self, f: FnId) -> &Function
        requires { f.0 < length self.now.functions }
        ensures { slice_get self.now.functions f.0 ≡ Some result.now }
    {
        &self.functions.as_slice()[f.0 as usize]
    }

    /// What is told of a site, whose number is below how many there are.
    pub fn site(&self, s: Site) -> &SiteInfo
        requires { s.0 < length self.now.sites }
        ensures { slice_get self.now.sites s.0 ≡ Some result.now }
    {
        &self.sites.as_slice()[s.0 as usize]
    }

    /// The text of a name, whose number is below how many there are.
    pub fn name(&self, n: NameId) -> &Text16
        requires { n.0 < length self.now.names }
        ensures { slice_get self.now.names n.0 ≡ Some result.now }
    {
        &self.names.as_slice()[n.0 as usize]
    }

    /// The number of a name: its first place among the names, of which there are at most 2³², or
    /// `None` where it isn't one of them. It goes over the names.
    pub fn name_id(&self, t: &Text16) -> Option<NameId>
        requires { length self.now.names ≤ 2 ^ 32 }
        ensures { result ≡ spec.name_place self.now.names t.now }
    {
        for (place, name) in self.names.as_slice().iter().enumerate() {
            if t.units() == name.units() {
                return Some(NameId(place as u32));
            }
        }
        None
    }

    /// The objects that are there when a run begins, in order.
    pub fn opening(&self) -> &[ObjectSpec]
        ensures { result.now ≡ self.now.opening }
    {
        self.opening.as_slice()
    }

    /// The devices that the program asks, by their numbers.
    pub fn signatures(&self) -> &[Signature]
        ensures { result.now ≡ self.now.signatures }
    {
        self.signatures.as_slice()
    }

    /// The function that gives the default value of an object, for a number or for a text.
    pub fn default_value(&self, hint: Hint) -> FnId
        ensures { result ≡ spec.default_value self.now hint }
    {
        match hint {
            Hint::Number => self.value_first,
            Hint::Text => self.text_first,
        }
    }
}
