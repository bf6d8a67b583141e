//! Where a text stands in another (ES3 15.5.4.7, 15.5.4.8), in a number of steps that is linear in
//! both: units are read one after another, and what is kept is how much of the text that is looked
//! for stands at the end of those that were read (Knuth, Morris and Pratt, 1977).

ghost use Rattle.std.specs.Prelude.{◌≡◌, ◌↔◌, ◌≤◌, ◌+◌, ◌++◌, ◌∷◌, [], ℕ, List, IfOk, IfSome, IsTrue, Some, length, drop, reverse, slice_get};
ghost use Rattle.ja_prim.specs.Search as spec;
ghost use Rattle.ja_search.specs.code.Search.{AreBorders, IsMet};

use ja_prim::Memory;
use std::alloc::Global;

/// Whether so many units of a text are followed by this one in it.
fn goes_on(mark: &[u16], count: usize, unit: u16) -> bool
    ensures { IsTrue result ↔ (slice_get mark.now count ≡ Some unit) }
{
    match mark.get(count) {
        Some(next) => *next == unit,
        None => false,
    }
}

/// How many of a text's first units stand at the end of those that were read, once this one is read
/// too, where `met` of them stood there before. Where this unit doesn't follow them in the text,
/// what may still stand there is behind a border of them.
fn meets(mark: &[u16], borders: &[usize], met: usize, unit: u16) -> usize
    requires borders { AreBorders mark.now borders.now }
    requires known { met ≤ length borders.now }
    requires within { met ≤ length mark.now }
    ensures within { result ≤ length mark.now }
    ensures known { result ≤ met + 1 }
    ensures met { (read : List ℕ) → IsMet mark.now read met
        → IsMet mark.now (read ++ unit ∷ []) result }
{
    let mut count = met;
    'counts: while !goes_on(mark, count, unit) {
        if count == 0 {
            return 0;
        }
        count = borders[count - 1];
    }
    count + 1
}

/// For each beginning of a text that has a unit or more, how many of the text's first units stand at
/// its end besides itself.
fn borders_of(alloc: Global, mark: &[u16]) -> Result<Vec<usize>, Memory>
    ensures borders { IfOk result (λ v. AreBorders mark.now v.items) }
    ensures each { IfOk result (λ v. length v.items ≡ length mark.now) }
{
    let mut borders = Vec::new(alloc);
    let mut met = 0;
    'units: for (i, unit) in mark.iter().enumerate() {
        if i > 0 {
            met = meets(mark, &borders, met, *unit);
        }
        borders.push(met)?;
    }
    Ok(borders)
}

/// The first place from one on where a text stands in another, if there is one. `Memory` comes
/// where memory is refused.
pub fn first_in(
    alloc: Global,
    mark: &[u16],
    units: &[u16],
    from: usize,
) -> Result<Option<usize>, Memory>
    requires { from ≤ length units.now }
    ensures value { IfOk result (λ place. place
        ≡ spec.first_in mark.now (drop from units.now) from) }
    ensures within { IfOk result (λ place. IfSome place (λ n. n ≤ length units.now)) }
{
    if mark.is_empty() {
        return Ok(Some(from));
    }
    let borders = borders_of(alloc, mark)?;
    let mut met = 0;
    'units: for (i, unit) in units[from..].iter().enumerate() {
        met = meets(mark, &borders, met, *unit);
        if met == mark.len() {
            return Ok(Some(from + i + 1 - met));
        }
    }
    Ok(None)
}

/// The units of a text from the last one to the first.
fn backwards(alloc: Global, units: &[u16]) -> Result<Vec<u16>, Memory>
    ensures { IfOk result (λ v. v.items ≡ reverse units.now) }
{
    let mut list = Vec::from_slice(alloc, units)?;
    list.reverse();
    Ok(list)
}

/// The last place not behind one where a text stands in another, if there is one. `Memory` comes
/// where memory is refused.
pub fn last_in(
    alloc: Global,
    mark: &[u16],
    units: &[u16],
    from: usize,
) -> Result<Option<usize>, Memory>
    requires { from ≤ length units.now }
    ensures value { IfOk result (λ place. place ≡ spec.last_in mark.now units.now from) }
    ensures within { IfOk result (λ place. IfSome place (λ n. n ≤ length units.now)) }
{
    if mark.is_empty() {
        return Ok(Some(from));
    }
    let backward = backwards(alloc, mark)?;
    let borders = borders_of(alloc, &backward)?;
    let mut met = 0;
    let mut place = if units.len() - from < mark.len() {
        units.len()
    } else {
        from + mark.len()
    };
    'places: while place > 0 {
        place -= 1;
        met = meets(&backward, &borders, met, units[place]);
        if met == mark.len() {
            return Ok(Some(place));
        }
    }
    Ok(None)
}
