//! Lists of so many values, and objects that have members of exactly these names.

ghost use Rattle.std.specs.Prelude.{◌≡◌, Some, is_some, map};
ghost use Rattle.ja_cert_json.specs.View.{view};
ghost use Rattle.ja_cert.specs.Certificate.{listed};
ghost use Rattle.ja_cert.specs.Wrong.{here_unless, members_of};
ghost use Rattle.ja_cert_parts.specs.code.Objects.{four_in, is_list_of, six_in, two_in};
ghost use Rattle.ja_cert_parts.specs.code.Reading.{Reads};

use crate::fault::{Fault, here};
use crate::members::{list, members};
use ja_cert_json::Json;
use std::alloc::Global;

/// Two values.
#[derive(Clone, Copy)]
pub struct Two<'a> {
    pub first: &'a Json,
    pub second: &'a Json,
}

/// Four values.
#[derive(Clone, Copy)]
pub struct Four<'a> {
    pub first: &'a Json,
    pub second: &'a Json,
    pub third: &'a Json,
    pub fourth: &'a Json,
}

/// Six values.
#[derive(Clone, Copy)]
pub struct Six<'a> {
    pub first: &'a Json,
    pub second: &'a Json,
    pub third: &'a Json,
    pub fourth: &'a Json,
    pub fifth: &'a Json,
    pub sixth: &'a Json,
}

/// The values of a list of two.
pub fn list_of_two<'a>(alloc: Global, value: &'a Json) -> Result<Two<'a>, Fault>
    ensures { Reads (here_unless (is_list_of 2 (view value.now)))
        (λ two. listed (two_in two) ≡ view value.now) result }
{
    let values = list(alloc, value)?;
    if values.len() != 2 {
        return Err(here(alloc));
    }
    Ok(Two {
        first: &values[0],
        second: &values[1],
    })
}

/// The values of a list of four.
pub fn list_of_four<'a>(alloc: Global, value: &'a Json) -> Result<Four<'a>, Fault>
    ensures { Reads (here_unless (is_list_of 4 (view value.now)))
        (λ four. listed (four_in four) ≡ view value.now) result }
{
    let values = list(alloc, value)?;
    if values.len() != 4 {
        return Err(here(alloc));
    }
    Ok(Four {
        first: &values[0],
        second: &values[1],
        third: &values[2],
        fourth: &values[3],
    })
}

/// The values of an object with four members.
pub fn four_members<'a>(
    alloc: Global,
    keys: &[&'static str; 4],
    value: &'a Json,
) -> Result<Four<'a>, Fault>
    ensures { let names = map (λ key. key.now) keys.now in
        Reads (here_unless (is_some (members_of names (view value.now))))
        (λ four. members_of names (view value.now) ≡ Some (four_in four)) result }
{
    let values = members(alloc, keys, value)?;
    Ok(Four {
        first: values[0],
        second: values[1],
        third: values[2],
        fourth: values[3],
    })
}

/// The values of an object with six members.
pub fn six_members<'a>(
    alloc: Global,
    keys: &[&'static str; 6],
    value: &'a Json,
) -> Result<Six<'a>, Fault>
    ensures { let names = map (λ key. key.now) keys.now in
        Reads (here_unless (is_some (members_of names (view value.now))))
        (λ six. members_of names (view value.now) ≡ Some (six_in six)) result }
{
    let values = members(alloc, keys, value)?;
    Ok(Six {
        first: values[0],
        second: values[1],
        third: values[2],
        fourth: values[3],
        fifth: values[4],
        sixth: values[5],
    })
}
