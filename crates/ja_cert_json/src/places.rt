//! Where the members of one list have their like in another. No contract says anything of it: it
//! only tells which value to share with, if it is the same.

use crate::value::Json;

/// How far the like of a value is looked for, so that each costs a few steps, whatever the lists are.
const REACH: usize = 16;

/// The first two numbers of a list, by which members of lists are in order in certificates, as one.
/// What isn't such a number comes behind all numbers.
fn place(json: &Json) -> u128 {
    let number = |values: &[Json], index: usize| match values.get(index) {
        Some(Json::Whole(number)) => u128::from(*number),
        _ => u128::from(u64::MAX),
    };
    match json.as_array() {
        Some(values) => number(values, 0) << 64 | number(values, 1),
        None => u128::MAX,
    }
}

/// Where the like of the next value stands, once this one was read.
pub(crate) fn next_place(kept: &[Json], from: usize, json: &Json) -> usize {
    let here = place(json);
    let end = from.saturating_add(REACH).min(kept.len());
    for index in from..end {
        let there = place(&kept[index]);
        if there > here {
            return index;
        }
        if there == here {
            return index + 1;
        }
    }
    end
}

/// The like of a value, by its place: the one at a place of another list, or the one that was read
/// last, which it is where that is an object.
pub(crate) fn like<'a>(
    kept: &'a [Json],
    from: usize,
    values: &'a [Json],
    null: &'a Json,
) -> &'a Json {
    match (kept.get(from), values.last()) {
        (_, Some(Json::Object(_))) => values.last().unwrap_or(null),
        (Some(json), _) => json,
        (None, Some(json)) => json,
        (None, None) => null,
    }
}
