//! Numbers (IEEE 1364-2005, clause 3.5).
ghost use Rattle.std.specs.Prelude.{◌≡◌, ◌<◌, ◌≤◌, ◌^◌, ◌%◌, ◌∷◌, SomeIff, IsTrue, MatchOption};
ghost use Rattle.vs_lexer.specs.Literals.{continues_number, decimal_piece};
ghost use Rattle.vs_lexer.specs.Numbers.{value_after, plain_literal, single_vector, is_single, is_well_formed, fits_unsized, literal_vector, based_literal};

use crate::base::{Base, is_unknown, is_unknown_or_high};
use crate::collector::Collector;
use crate::piece::Piece;
use crate::refusal::Refusal;
use crate::runs::{ByteClass, first_and_rest};
use crate::token::{Kind, Literal};
use vs_logic4::Vec4;

/// The number that decimal digits stand for, if it is below 2^32.
pub(crate) fn decimal_value(text: &[u8]) -> Option<u64>
    ensures { SomeIff result (value_after 0 text.now < 2 ^ 32) (value_after 0 text.now) }
{
    let mut value: u64 = 0;
    for byte in text {
        if *byte != b'_' {
            value = value * 10 + u64::from(byte.saturating_sub(b'0'));
            if value > u64::from(u32::MAX) {
                return None;
            }
        }
    }
    Some(value)
}

/// The literal of decimal digits alone.
#[tactic(auto, unfolding(crate::specs::Numbers::plain_literal))]
fn plain_literal(number: u64) -> Literal
    ensures { result ≡ plain_literal number }
{
    Literal {
        value: Vec4::from_number(32, number),
        signed: true,
        based: false,
    }
}

/// Whether a decimal number may not end before these bytes.
fn continues_number(rest: &[u8]) -> bool
    ensures { result ≡ continues_number rest.now }
{
    match rest {
        [] => false,
        [first] => first.is_ascii_alphabetic(),
        [first, second, ..] => {
            first.is_ascii_alphabetic() || *first == b'.' && second.is_ascii_digit()
        }
    }
}

/// What decimal digits are, where these bytes follow them.
pub(crate) fn decimal_piece(text: &[u8], rest: &[u8]) -> Piece
    ensures { result ≡ decimal_piece text.now rest.now }
{
    if continues_number(rest) {
        return Piece::Refused(Refusal::BadLiteral);
    }
    match decimal_value(text) {
        Some(value) => Piece::Token(Kind::Number(plain_literal(value))),
        None => Piece::Refused(Refusal::TooLarge),
    }
}

/// The vector of a single decimal x or z at a size.
fn single_vector(size: u32, digits: &[u8]) -> Vec4
    requires some { 0 < size }
    requires most { size ≤ 64 }
    requires single { IsTrue (is_single digits.now) }
    ensures { result ≡ single_vector size digits.now }
{
    match digits {
        [first, ..] if is_unknown(*first) => Vec4::unknown(size),
        _ => Vec4::high_impedance(size),
    }
}

/// The number that decimal digits stand for, wrapped at 2^64.
fn wrapped_value(text: &[u8]) -> u64
    ensures { result ≡ value_after 0 text.now % 2 ^ 64 }
{
    let mut value: u64 = 0;
    for byte in text {
        if *byte != b'_' {
            let digit = u64::from(byte.saturating_sub(b'0'));
            value = value.wrapping_mul(10).wrapping_add(digit);
        }
    }
    value
}

/// Whether decimal digits are a single x or z.
fn is_single(digits: &[u8]) -> bool
    ensures { result ≡ is_single digits.now }
{
    let Some((first, rest)) = first_and_rest(digits) else {
        return false;
    };
    is_unknown_or_high(first) && ByteClass::Filler.has_all(rest)
}

/// Whether digits are well formed.
pub(crate) fn is_well_formed(base: Base, digits: &[u8]) -> bool
    ensures { result ≡ is_well_formed base digits.now }
{
    match base {
        Base::Decimal => ByteClass::Decimal.has_all(digits) || is_single(digits),
        _ => true,
    }
}

/// Whether well formed digits need no more than 32 bits.
pub(crate) fn fits_unsized(base: Base, digits: &[u8]) -> bool
    ensures { result ≡ fits_unsized base digits.now }
{
    match base {
        Base::Decimal => { !ByteClass::Decimal.has_all(digits) || decimal_value(digits).is_some() }
        _ => Collector::of_text(base.digit_bits(), digits).fits,
    }
}

/// The vector of well formed digits at a size.
fn literal_vector(base: Base, size: u32, digits: &[u8]) -> Vec4
    requires some { 0 < size }
    requires most { size ≤ 64 }
    requires well_formed { IsTrue (is_well_formed base digits.now) }
    ensures { result ≡ literal_vector base size digits.now }
{
    match base {
        Base::Decimal => {
            if ByteClass::Decimal.has_all(digits) {
                Vec4::from_number(size, wrapped_value(digits))
            } else {
                single_vector(size, digits)
            }
        }
        _ => Collector::of_text(base.digit_bits(), digits).fitted(size),
    }
}

/// The literal of well formed digits.
#[tactic(auto, unfolding(crate::specs::Numbers::based_literal))]
pub(crate) fn based_literal(base: Base, size: u32, signed: bool, digits: &[u8]) -> Literal
    requires some { 0 < size }
    requires most { size ≤ 64 }
    requires well_formed { IsTrue (is_well_formed base digits.now) }
    ensures { result ≡ based_literal base size signed digits.now }
{
    Literal {
        value: literal_vector(base, size, digits),
        signed,
        based: true,
    }
}
