ghost use Rattle.std.specs.Prelude.{◌≡◌, ◌↔◌, pos, ◌≤ℤ◌, IsSome, IfSome, neg_ℤ};

use std::marker::Model;

/// The greatest magnitude of a number: 2^53 - 1.
pub const MAX_MAGNITUDE: i64 = 9_007_199_254_740_991;

/// A whole number of magnitude at most 9,007,199,254,740,991. Contracts see the number.
#[derive(Clone, Copy, Debug, PartialEq, Eq)]
pub struct Int {
    value: i64,
}

impl Model for Int {
    ghost use Rattle.std.specs.Prelude.{ℤ, pos, neg_ℤ, ◌≤ℤ◌};

    ghost Value = { ℤ };

    ghost view = { λ n. n.value };

    ghost invariant = { λ n. (neg_ℤ (pos 9007199254740991) ≤ℤ n.value) × (n.value ≤ℤ pos 9007199254740991) };

    ghost inverse = { λ z. record { value = z } };
}

impl Int {
    /// The number, or `None` exactly where its magnitude is greater than 9,007,199,254,740,991.
    pub fn new(n: i64) -> Option<Int>
        ensures in_range { IsSome result ↔ ((neg_ℤ (pos 9007199254740991) ≤ℤ n)
            × (n ≤ℤ pos 9007199254740991)) }
        ensures value { IfSome result (λ i. i ≡ n) }
    {
        if n < -MAX_MAGNITUDE || n > MAX_MAGNITUDE {
            return None;
        }
        Some(Int { value: n })
    }

    /// The number.
    pub fn get(self) -> i64
        ensures value { result ≡ self }
        ensures low { neg_ℤ (pos 9007199254740991) ≤ℤ result }
        ensures high { result ≤ℤ pos 9007199254740991 }
    {
        self.value
    }
}
