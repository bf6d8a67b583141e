ghost use Rattle.std.specs.Prelude.{◌≡◌, IfOk, Some};
ghost use Rattle.ja_rows.specs.Warning as spec;
ghost use Rattle.ja_value.specs.Value.{value_of};
ghost use Rattle.ja_warn.specs.code.Faults as code;
ghost use Rattle.ja_warn.specs.code.Faults.{Spot, finding, finding_of, found_at, merged, with_reached};

use crate::reached::Reached;
use ja_base::{FnId, Memory};
use ja_rows::{Warning, WarningKind};
use ja_value::AValue;
use std::alloc::Global;
use std::collections::BTreeMap;

/// The numbers by which warnings are in order: of the built-in function, or 0, the line, the column
/// and the kind.
pub(crate) type Spot = (u64, u32, u32, u8);

// The number of a kind.
fn kind_number(kind: WarningKind) -> u8
    ensures { result ≡ spec.kind_number kind }
{
    match kind {
        WarningKind::NotAFunction => 1,
        WarningKind::NoObject => 2,
        WarningKind::UnboundName => 3,
        WarningKind::ScopeRow => 4,
    }
}

// The number of a built-in function, from 1, or 0 where there is none.
fn builtin_number(builtin: Option<FnId>) -> u64
    ensures { result ≡ spec.builtin_number builtin }
{
    match builtin {
        Some(function) => u64::from(function.0) + 1,
        None => 0,
    }
}

// The numbers of a warning.
fn spot_of(warning: &Warning) -> Spot
    ensures { result ≡ code.spot_of (spec.operation_of warning.now) }
{
    (
        builtin_number(warning.builtin),
        warning.place.line,
        warning.place.column,
        kind_number(warning.kind),
    )
}

impl Reached {
    // Takes in one more of the same operation: it may go wrong where either may, does so certainly
    // where both do, is about what either is about, and has either's name.
    fn merge(
        &mut self,
        alloc: Global,
        warning: Warning,
        fault: bool,
        value: &AValue,
        name: &AValue,
    ) -> Result<(), Memory>
        ensures { IfOk result (λ _. finding self.new ≡ merged (Some (finding self.old))
            (finding_of warning fault (value_of value.now) (value_of name.now))) }
    {
        self.value.join(alloc, value)?;
        self.name.join(alloc, name)?;
        self.warning = Warning {
            certain: self.warning.certain & warning.certain,
            ..warning
        };
        self.fault = self.fault | fault;
        Ok(())
    }
}

/// Adds an operation, merged with what was found of the same one.
pub(crate) fn add(
    alloc: Global,
    found: &mut BTreeMap<Spot, Reached>,
    warning: Warning,
    fault: bool,
    value: &AValue,
    name: &AValue,
) -> Result<(), Memory>
    ensures { IfOk result (λ _. (k : Spot) → found_at found.new k
        ≡ with_reached k (found_at found.old k)
        (finding_of warning fault (value_of value.now) (value_of name.now))) }
{
    let spot = spot_of(&warning);
    match found.get_mut(&spot) {
        Some(earlier) => earlier.merge(alloc, warning, fault, value, name),
        None => {
            let value = value.copy(alloc)?;
            let name = name.copy(alloc)?;
            found.insert(
                spot,
                Reached {
                    warning,
                    fault,
                    value,
                    name,
                },
            )?;
            Ok(())
        }
    }
}
