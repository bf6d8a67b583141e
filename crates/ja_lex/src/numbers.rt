ghost use Rattle.std.specs.Prelude.{◌≡◌, ◌≤◌, true, false, length, IfOk};
ghost use Rattle.std.specs.List.{list_all};
ghost use Rattle.std.specs.Str.Parse.{AllDigits};
ghost use Rattle.ja_prim.specs.Characters.{is_ascii};
ghost use Rattle.ja_prim.specs.Numerals as numerals;
ghost use Rattle.ja_lex.specs.Spots.{max_bytes};
ghost use Rattle.ja_lex.specs.Numbers as spec;

use crate::characters::{
    Class, behind, char_at, is_digit, is_escape, is_part, run, run_length, units,
};
use crate::element::Element;
use crate::marks::bad;
use crate::token::{TokenFault, TokenKind};
use ja_base::ScopeKind;
use ja_prim::{Num, Stop, hexadecimal_value, placed};
use std::alloc::{AllocFailed, Global};

/// The longest beginning of digits.
#[tactic(auto, using(ja_prim::proofs::Digits::all_digits), unfolding(ja_prim::specs::Numerals::digits))]
fn digits(text: &[char]) -> &[char]
    ensures value { result.now ≡ numerals.digits text.now }
    ensures within { length result.now ≤ length text.now }
    ensures all { AllDigits 10 result.now }
{
    run(Class::Digit, text)
}

/// What stands behind the digits that stand first.
#[tactic(auto, unfolding(ja_prim::specs::Numerals::behind_digits))]
fn behind_digits(text: &[char]) -> &[char]
    ensures value { result.now ≡ numerals.behind_digits text.now }
    ensures within { length result.now ≤ length text.now }
{
    behind(text, run_length(Class::Digit, text))
}

/// The digits behind a `.`, if one stands first.
#[tactic(auto, unfolding(ja_prim::specs::Numerals::fraction))]
fn fraction(text: &[char]) -> &[char]
    ensures value { result.now ≡ numerals.fraction text.now }
    ensures within { length result.now ≤ length text.now }
    ensures all { AllDigits 10 result.now }
{
    if char_at(text, 0) == '.' {
        digits(behind(text, 1))
    } else {
        &[]
    }
}

/// What stands behind a `.` and its digits, if one stands first.
#[tactic(auto, unfolding(ja_prim::specs::Numerals::behind_fraction))]
fn behind_fraction(text: &[char]) -> &[char]
    ensures value { result.now ≡ numerals.behind_fraction text.now }
    ensures within { length result.now ≤ length text.now }
{
    if char_at(text, 0) == '.' {
        behind_digits(behind(text, 1))
    } else {
        text
    }
}

/// What stands behind an exponent's letter and its sign, if it has one.
#[tactic(auto, unfolding(ja_prim::specs::Numerals::power))]
fn power(text: &[char]) -> &[char]
    ensures value { result.now ≡ numerals.power text.now }
    ensures within { length result.now ≤ length text.now }
{
    if char_at(text, 1) == '+' || char_at(text, 1) == '-' {
        behind(text, 2)
    } else {
        behind(text, 1)
    }
}

/// The digits of an exponent, if one stands first.
#[tactic(auto, unfolding(ja_prim::specs::Numerals::exponent))]
fn exponent(text: &[char]) -> &[char]
    ensures value { result.now ≡ numerals.exponent text.now }
    ensures all { AllDigits 10 result.now }
{
    if char_at(text, 0) == 'e' || char_at(text, 0) == 'E' {
        digits(power(text))
    } else {
        &[]
    }
}

/// What stands behind an exponent, if one stands first.
#[tactic(auto, unfolding(ja_prim::specs::Numerals::behind_exponent))]
fn behind_exponent(text: &[char]) -> &[char]
    ensures value { result.now ≡ numerals.behind_exponent text.now }
    ensures within { length result.now ≤ length text.now }
{
    if exponent(text).len() == 0 {
        text
    } else {
        behind_digits(power(text))
    }
}

/// How many characters the longest decimal literal is.
#[tactic(auto, unfolding(ja_prim::specs::Numerals::behind_decimal))]
fn decimal_length(text: &[char]) -> usize
    ensures value { result ≡ spec.decimal_length text.now }
    ensures within { result ≤ length text.now }
{
    text.len() - behind_exponent(behind_fraction(behind_digits(text))).len()
}

/// The exact value of the longest decimal literal.
#[tactic(auto, using(crate::proofs::Rulesets::for_decimal_value), unfolding(ja_prim::specs::Numerals::decimal_value))]
fn decimal_value(alloc: Global, text: &[char]) -> Result<Result<Num, Stop>, AllocFailed<u16>>
    requires { length text.now ≤ max_bytes }
    ensures { IfOk result (λ value. value ≡ numerals.decimal_value false text.now) }
{
    let rest = behind_fraction(behind_digits(text));
    let whole = units(alloc, digits(text))?;
    let places = units(alloc, fraction(behind_digits(text)))?;
    let power = units(alloc, exponent(rest))?;
    Ok(placed(false, char_at(rest, 1) == '-', &whole, &places, &power))
}

/// The hexadecimal digits behind `0x` or `0X`, if these stand there.
#[tactic(auto, using(crate::proofs::Classed::all_hexadecimal), unfolding(crate::specs::Numbers::hexadecimal_digits))]
fn hexadecimal_digits(text: &[char]) -> &[char]
    ensures value { result.now ≡ spec.hexadecimal_digits text.now }
    ensures within { length result.now ≤ length text.now }
    ensures ascii { list_all is_ascii result.now ≡ true }
{
    if char_at(text, 0) == '0' && (char_at(text, 1) == 'x' || char_at(text, 1) == 'X') {
        run(Class::Hexadecimal, behind(text, 2))
    } else {
        &[]
    }
}

/// Whether 0 and a digit stand there.
fn is_octal(text: &[char]) -> bool
    ensures { result ≡ spec.is_octal text.now }
{
    char_at(text, 0) == '0' && is_digit(char_at(text, 1))
}

/// A literal of a length and a value.
fn of_value(length: usize, value: Result<Num, Stop>) -> Element
    ensures { result ≡ spec.of_value length value }
{
    match value {
        Err(_) => bad(TokenFault::Scope(ScopeKind::Number)),
        Ok(number) => match number {
            Num::NaN => bad(TokenFault::Scope(ScopeKind::Number)),
            Num::Whole(value) => Element::Token {
                kind: TokenKind::Number(value),
                length,
            },
        },
    }
}

/// Whether an identifier or a digit goes on at an index.
fn is_run_into(text: &[char], index: usize) -> bool
    requires { index ≤ 67108864 }
    ensures { result ≡ spec.is_run_into text.now index }
{
    is_part(char_at(text, index)) || is_escape(text, index)
}

/// The number that the text begins with.
#[tactic(auto, unfolding(crate::specs::Numbers::number))]
pub fn number(alloc: Global, text: &[char]) -> Result<Element, AllocFailed<u16>>
    requires { length text.now ≤ max_bytes }
    ensures { IfOk result (λ e. e ≡ spec.number text.now) }
{
    if is_octal(text) {
        return Ok(bad(TokenFault::Scope(ScopeKind::Octal)));
    }
    let digits = hexadecimal_digits(text);
    if digits.len() > 0 {
        let length = 2 + digits.len();
        if is_run_into(text, length) {
            return Ok(bad(TokenFault::Lexical));
        }
        let value = hexadecimal_value(&units(alloc, digits)?);
        return Ok(of_value(length, value));
    }
    let length = decimal_length(text);
    if is_run_into(text, length) {
        return Ok(bad(TokenFault::Lexical));
    }
    let value = decimal_value(alloc, text)?;
    Ok(of_value(length, value))
}
