//! What the definitions come to, in the words of the integers. The functions do nothing; their
//! contracts are the laws.
ghost use Rattle.std.specs.Prelude.{◌≡◌, ◌≢◌, ◌≤◌, ℕ, ◌&&◌, ◌||◌, ℤ, pos, ◌+ℤ◌, ◌-ℤ◌, ◌*ℤ◌, unsigned_abs};
ghost use Rattle.ja_prim.specs.Arithmetic as numbers;
ghost use Rattle.ja_prim.specs.Bits as bits;
ghost use Rattle.ja_prim.specs.declared.primitive.Num.{Num};
ghost use Rattle.ja_prim.specs.declared.primitive.Num.TheVariants.{Whole};
ghost use Rattle.ja_prim.specs.declared.stop.Stop.TheVariants.{Fraction};
ghost use Rattle.ja_prim.specs.Judged.{max_magnitude};
ghost use Rattle.ja_prim.specs.Laws.{IsOfIntegers, IsQuotient, IsRemainder, IsUnsignedResidue, IsSignedResidue, IsBitwise, IsComplement, IsPlaces, IsShiftedLeft, IsShiftedRight, differ};

/// Of whole numbers addition, subtraction and multiplication are those of the integers where the
/// magnitude of the result is at most 9,007,199,254,740,991, and `Range` exactly where it is
/// greater.
#[tactic(auto, using(crate::proofs::Integers::of_integers))]
pub fn operations_are_of_integers()
    ensures add { IsOfIntegers numbers.add (λ m n. m +ℤ n) }
    ensures sub { IsOfIntegers numbers.sub (λ m n. m -ℤ n) }
    ensures mul { IsOfIntegers numbers.mul (λ m n. m *ℤ n) }
{}

/// The quotient of whole numbers is q exactly where the divisor isn't 0 and the dividend is q times
/// the divisor, and it is a `Fraction` only where there is no such q.
pub fn quotients_are_exact()
    ensures exact { (m n q : ℤ) → numbers.div (Whole m) (Whole n) ≡ Ok (Whole q)
        → IsQuotient m n q }
    ensures found { (m n q : ℤ) → unsigned_abs q ≤ max_magnitude → IsQuotient m n q
        → numbers.div (Whole m) (Whole n) ≡ Ok (Whole q) }
    ensures fraction { (m n q : ℤ) → numbers.div (Whole m) (Whole n) ≡ Err Fraction → m ≢ q *ℤ n }
{}

/// The dividend is a multiple of the divisor and the remainder, whose magnitude is below the
/// divisor's, and which is 0 or has the sign of the dividend. There is a remainder by each divisor
/// but 0.
pub fn remainders_are_exact()
    ensures exact { (m n r : ℤ) → numbers.rem (Whole m) (Whole n) ≡ Ok (Whole r)
        → IsRemainder m n r }
    ensures found { (m n : ℤ) → unsigned_abs m ≤ max_magnitude → n ≢ pos 0
        → (r : ℤ) × (numbers.rem (Whole m) (Whole n) ≡ Ok (Whole r)) }
{}

/// A whole number is congruent modulo 2^32 to the one of 32 bits that it is converted to.
pub fn residues_are_congruent()
    ensures unsigned { (z : ℤ) → IsUnsignedResidue z (bits.to_uint32 (Whole z)) }
    ensures signed { (z : ℤ) → IsSignedResidue z (bits.to_int32 (Whole z)) }
{}

/// AND, OR, XOR and the complement go bit by bit over 32 bits (ES3 11.10, 11.4.8).
pub fn operations_go_by_bits()
    ensures and { IsBitwise bits.and (λ p q. p && q) }
    ensures or { IsBitwise bits.or (λ p q. p || q) }
    ensures xor { IsBitwise bits.xor differ }
    ensures not { IsComplement bits.not }
{}

/// A left shift multiplies by a power of two, modulo 2^32; a right shift divides by it and rounds
/// down, with sign the number of 32 bits and without sign its residue (ES3 11.7).
pub fn shifts_are_by_powers_of_two()
    ensures left { (a b : Num) (n : ℕ) → IsPlaces b n → IsShiftedLeft a n (bits.shl a b) }
    ensures right { (a b : Num) (n : ℕ) → IsPlaces b n
        → IsShiftedRight (bits.to_int32 a) n (bits.shr a b) }
    ensures unsigned { (a b : Num) (n : ℕ) → IsPlaces b n
        → IsShiftedRight (pos (bits.to_uint32 a)) n (bits.ushr a b) }
{}
