ghost use Rattle.std.specs.Prelude.{◌≡◌, ◌≤◌, ◌-◌, length};
ghost use Rattle.std.specs.List.{prefix_len, suffix_len};
ghost use Rattle.ja_prim.specs.Blanks as spec;
ghost use Rattle.ja_prim.specs.Characters.{is_white, is_terminator, is_blank};

/// Whether a unit is white space (ES3 7.2).
#[tactic(auto, unfolding(crate::specs::Characters::is_white))]
fn is_white(unit: u16) -> bool
    ensures { result ≡ is_white unit }
{
    unit == 0x9
        || unit == 0xB
        || unit == 0xC
        || unit == 0x20
        || unit == 0xA0
        || unit == 0x1680
        || (unit >= 0x2000 && unit <= 0x200A)
        || unit == 0x202F
        || unit == 0x205F
        || unit == 0x3000
}

/// Whether a unit is a line terminator (ES3 7.3).
#[tactic(auto, unfolding(crate::specs::Characters::is_terminator))]
fn is_terminator(unit: u16) -> bool
    ensures { result ≡ is_terminator unit }
{
    unit == 0xA || unit == 0xD || unit == 0x2028 || unit == 0x2029
}

/// Whether a unit is white space or a line terminator.
fn is_blank(unit: u16) -> bool
    ensures { result ≡ is_blank unit }
{
    is_white(unit) || is_terminator(unit)
}

/// How many units that stand first are blank.
pub fn blanks_before(units: &[u16]) -> usize
    ensures value { result ≡ prefix_len is_blank units.now }
    ensures within { result ≤ length units.now }
{
    'units: for (i, unit) in units.iter().enumerate() {
        if !is_blank(*unit) {
            return i;
        }
    }
    units.len()
}

/// How many units stand before the blank ones at the end.
fn without_blanks_behind(units: &[u16]) -> usize
    ensures value { result ≡ length units.now - suffix_len is_blank units.now }
    ensures within { result ≤ length units.now }
{
    let mut count = units.len();
    'count: while count > 0 {
        if !is_blank(units[count - 1]) {
            return count;
        }
        count -= 1;
    }
    0
}

/// The units without the blank ones that stand first and last.
#[tactic(auto, unfolding(crate::specs::Blanks::behind_blanks, crate::specs::Blanks::before_blanks))]
pub fn trimmed(units: &[u16]) -> &[u16]
    ensures value { result.now ≡ spec.before_blanks (spec.behind_blanks units.now) }
    ensures within { length result.now ≤ length units.now }
{
    let rest = &units[blanks_before(units)..];
    &rest[..without_blanks_behind(rest)]
}
