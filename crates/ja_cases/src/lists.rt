//! Lists that share what they have in common.

ghost use Rattle.std.specs.Prelude.{◌≡◌, ◌<◌};

use crate::out::Out;
use ja_base::Memory;
use ja_trie::{Shared, Steps};
use std::marker::Brand;
use std::sync::ledger::{Blank, Ledger};

/// A list of nine places and a fork of it, of which the list is written.
fn forks<L: Ledger>(out: &mut Out, blank: Blank) -> Result<(), Memory>
    requires name { blank.name ≡ L.name }
    requires parts { blank.parts ≡ L.parts }
    requires some { 0 < blank.parts }
{
    let mut steps = Steps::<L>::new(blank);
    let mut list = Shared::new(out.alloc, 9, 1u64, &mut steps)?;
    let fork = list.fork()?;
    let is_changed = list.join_with(&fork, |_: &u64, _: &u64| Ok(None), &mut steps)?;
    out.line_of_bool(
        "a join with a fork that puts nothing changes it",
        is_changed,
    );
    list.set(8, 7, &mut steps)?;
    out.line_of_number("of nine 1 and a 7 at place 8, that place", *list.get(8));
    out.line_of_number("of the fork", *fork.get(8));
    let is_below = list.all_with(&fork, |x: &u64, y: &u64| *x <= *y);
    out.line_of_bool("each is at most the fork's", is_below);
    let is_above = fork.all_with(&list, |x: &u64, y: &u64| *x <= *y);
    out.line_of_bool("the fork's are at most these", is_above);
    let is_changed = list.join_with(
        &fork,
        |x: &u64, y: &u64| if *x > *y { Ok(Some(9)) } else { Ok(None) },
        &mut steps,
    )?;
    out.line_of_bool(
        "a join that puts 9 where there is more changes it",
        is_changed,
    );
    out.line_of_number("place 8", *list.get(8));
    out.line_of_number("place 0", *list.get(0));
    Ok(())
}

/// Two lists of 600 places that have one value each throughout.
fn long_lists<L: Ledger>(out: &mut Out, blank: Blank) -> Result<(), Memory>
    requires name { blank.name ≡ L.name }
    requires parts { blank.parts ≡ L.parts }
    requires some { 0 < blank.parts }
{
    let mut steps = Steps::<L>::new(blank);
    let mut list = Shared::new(out.alloc, 600, 1u64, &mut steps)?;
    let other = Shared::new(out.alloc, 600, 2u64, &mut steps)?;
    let is_changed = list.join_with(&other, |_: &u64, y: &u64| Ok(Some(*y)), &mut steps)?;
    out.line_of_bool("a join that takes 600 places changes the list", is_changed);
    out.line_of_number("place 0", *list.get(0));
    out.line_of_number("place 599", *list.get(599));
    out.line_of_number("a run from place 0 ends at", u64::from(list.run_end(0)));
    list.set(64, 5, &mut steps)?;
    out.line_of_number(
        "with a 5 at place 64, it ends at",
        u64::from(list.run_end(0)),
    );
    out.line_of_number("and one from place 72 at", u64::from(list.run_end(72)));
    out.line_of_number("place 63", *list.get(63));
    out.line_of_number("place 64", *list.get(64));
    out.line_of_number("place 72", *list.get(72));
    list.join_with(
        &other,
        |x: &u64, y: &u64| if *x > *y { Ok(None) } else { Ok(Some(7)) },
        &mut steps,
    )?;
    out.line_of_number(
        "joined with 7 where there isn't more, place 63",
        *list.get(63),
    );
    out.line_of_number("place 64", *list.get(64));
    out.line_of_number("place 72", *list.get(72));
    Ok(())
}

pub fn lists(out: &mut Out) {
    let _ = forks::<Brand>(out, Blank::new(1));
    let _ = long_lists::<Brand>(out, Blank::new(1));
}
