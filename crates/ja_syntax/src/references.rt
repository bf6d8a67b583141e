//! What can be written to (ES3 8.7).

ghost use Rattle.std.specs.Prelude.{◌≡◌};
ghost use Rattle.ja_syntax.specs.References as spec;

use crate::tree::{Expression, Suffix};

fn names_property(suffix: &Suffix<Expression>) -> bool
    ensures { result ≡ spec.names_property suffix.now }
{
    match suffix {
        Suffix::Member { .. } => true,
        Suffix::Index { .. } => true,
        Suffix::Call { .. } => false,
    }
}

#[tactic(auto, using(crate::proofs::ReferenceLemmas::ends_at))]
fn ends_in_property(suffixes: &[Suffix<Expression>]) -> bool
    ensures { result ≡ spec.ends_in_property suffixes.now }
{
    match suffixes {
        [] => false,
        [.., last] => names_property(last),
    }
}

/// Whether an expression is a reference (8.7): a name, or a chain that ends in a property.
#[tactic(auto, unfolding(crate::specs::References::is_reference))]
pub fn is_reference(expression: &Expression) -> bool
    ensures { result ≡ spec.is_reference expression.now }
{
    match expression {
        Expression::Name(_) => true,
        Expression::Chain { suffixes, .. } => ends_in_property(suffixes.as_slice()),
        _ => false,
    }
}
