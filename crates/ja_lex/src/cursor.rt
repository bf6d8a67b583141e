ghost use Rattle.std.specs.Prelude.{◌≡◌, ◌≤◌, ◌+◌, ◌*◌, length, drop};
ghost use Rattle.ja_lex.specs.Spots as spec;

use crate::characters::{char_at, is_terminator};
use crate::spot::Spot;
use ja_base::Place;

/// The characters of a text that are left, and where their first stands.
#[derive(Drop)]
pub struct Cursor<'a> {
    pub rest: &'a [char],
    pub spot: Spot,
    ghost offsets: { spot.offset + 4 * length rest.now ≤ 134217728 },
    ghost lines: { spot.place.line + length rest.now ≤ 33554432 },
    ghost columns: { spot.place.column + length rest.now ≤ 33554432 },
}

/// Whether the first of some characters ends its line.
#[tactic(auto, unfolding(crate::specs::Spots::ends_line))]
fn ends_line(text: &[char]) -> bool
    ensures { result ≡ spec.ends_line text.now }
{
    is_terminator(char_at(text, 0)) && !(char_at(text, 0) == '\r' && char_at(text, 1) == '\n')
}

/// The spot behind the first of some characters.
#[tactic(auto, unfolding(crate::specs::Spots::after))]
fn after(spot: Spot, text: &[char]) -> Spot
    requires offset { spot.offset ≤ 134217728 }
    requires line { spot.place.line ≤ 33554432 }
    requires column { spot.place.column ≤ 33554432 }
    ensures value { result ≡ spec.after spot text.now }
    ensures offset { result.offset ≤ spot.offset + 4 }
    ensures line { result.place.line ≤ spot.place.line + 1 }
    ensures column { result.place.column ≤ spot.place.column + 1 }
{
    let offset = spot.offset + char_at(text, 0).len_utf8();
    let place = if ends_line(text) {
        Place {
            line: spot.place.line + 1,
            column: 1,
        }
    } else {
        Place {
            line: spot.place.line,
            column: spot.place.column + 1,
        }
    };
    Spot { offset, place }
}

impl<'a> Cursor<'a> {
    /// All characters of a text.
    pub fn new(text: &'a [char]) -> Self
        requires { length text.now ≤ spec.max_bytes }
        ensures rest { result.rest.now ≡ text.now }
        ensures spot { result.spot ≡ spec.beginning }
    {
        Cursor {
            rest: text,
            spot: Spot {
                offset: 0,
                place: Place { line: 1, column: 1 },
            },
        }
    }

    /// Goes past the first `count` characters.
    pub fn advance(&mut self, count: usize)
        ensures rest { self.new.rest.now ≡ drop count self.old.rest.now }
        ensures spot { self.new.spot ≡ spec.past count self.old.spot self.old.rest.now }
    {
        let mut left = count;
        'left: while left > 0 {
            let [_, rest @ ..] = self.rest else {
                return;
            };
            let spot = after(self.spot, self.rest);
            self.rest = rest;
            self.spot = spot;
            left -= 1;
        }
    }
}
