//! Primitive values of ES3 (section 8) in the profile: whole numbers and NaN, and texts of 16-bit
//! units.
//!
//! Every operation is its definition over whole numbers and lists of units (`specs/`), on all
//! operands: `add`, `sub`, `mul`, `div`, `rem`, `neg`, the shifts, `and`, `or`, `xor`, `not`,
//! `compare`, `loose_eq`, `strict_eq`, `to_num`, `to_bool`, `to_text`, `to_int32`, `to_uint32`,
//! `array_index`, `placed`, `hexadecimal_value`, `Text16::from_str`, `Primitive::copy`; the numbers
//! at the front of a text (`front_integer`, `front_decimal`). A text has at most 1,048,576 units, by
//! its type. `Range` comes exactly where the exact result passes the range, else `Fraction` exactly
//! where it isn't whole; `TextLength` exactly where a text is too long.
//!
//! Laws say what the definitions come to, in the words of the integers (`laws.rt`,
//! `laws_of_texts.rt`): sums, differences and products are those of the integers, quotients and
//! remainders are exact; `and`, `or`, `xor` and `not` go bit by bit over 32 bits, and shifts
//! multiply and divide by powers of two; a decimal literal has the value that its digits say; a
//! number is read back from its text; strict equality is an equivalence but for NaN; the orders of
//! numbers and of texts are strict.
#![tactic(auto)]

mod addition;
mod arithmetic;
mod ascii;
mod bits;
mod blanks;
mod capped;
mod comparison;
mod equality;
mod fronts;
mod index;
mod int;
mod keys;
mod laws;
mod laws_of_texts;
mod literals;
mod memory;
mod numbers;
mod primitive;
mod signature;
mod stop;
mod text16;
mod truth;
mod values;
mod writing;

pub use addition::add;
pub use arithmetic::{add_numbers, div, mul, neg, rem, sub};
pub use ascii::{push_ascii, spells};
pub use bits::{and, not, or, shl, shr, to_int32, to_uint32, ushr, xor};
pub use comparison::compare;
pub use equality::{loose_eq, strict_eq};
pub use fronts::{front_decimal, front_integer};
pub use index::array_index;
pub use int::Int;
pub use laws::{
    operations_are_of_integers, operations_go_by_bits, quotients_are_exact, remainders_are_exact,
    residues_are_congruent, shifts_are_by_powers_of_two,
};
pub use laws_of_texts::{
    literals_are_exact, numbers_are_read_back, order_is_strict, strict_equality_is_an_equivalence,
};
pub use memory::Memory;
pub use numbers::to_num;
pub use primitive::{Num, Prim, Primitive};
pub use signature::{Kinds, Signature};
pub use stop::{PrimFault, Stop};
pub use text16::{MAX_UNITS, Text16, push_character, units_of};
pub use truth::to_bool;
pub use values::{hexadecimal_value, placed};
pub use writing::to_text;
