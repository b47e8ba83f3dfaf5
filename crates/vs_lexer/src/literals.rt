//! Reading numbers (IEEE 1364-2005, clause 3.5).
ghost use Rattle.std.specs.Prelude.{◌≡◌, ◌∷◌, MatchOption, IsTrue};
ghost use Rattle.std.specs.Option.{option_copied};
ghost use Rattle.vs_lexer.specs.Numbers.{is_well_formed, value_after};
ghost use Rattle.vs_lexer.specs.Literals.{literal_piece, sized_piece, base_form, quote_form, number_form, apostrophe_form};
ghost use Rattle.vs_lexer.specs.Reading.{Reads, HasNone};

use crate::base::{Base, base_of, is_sign};
use crate::numbers::{based_literal, decimal_piece, decimal_value, fits_unsized, is_well_formed};
use crate::piece::{Lexed, Piece};
use crate::refusal::Refusal;
use crate::runs::{ByteClass, first_and_rest, split_run};
use crate::token::Kind;

/// What well formed digits are at the size that a text says.
fn sized_piece(size: &[u8], signed: bool, base: Base, digits: &[u8]) -> Piece
    requires { IsTrue (is_well_formed base digits.now) }
    ensures { result ≡ sized_piece (value_after 0 size.now) signed base digits.now }
{
    match decimal_value(size) {
        Some(size) if 0 < size && size <= 64 => {
            Piece::Token(Kind::Number(based_literal(base, size as u32, signed, digits)))
        }
        _ => Piece::Refused(Refusal::TooLarge),
    }
}

/// What the digits of a base are.
#[tactic(auto, unfolding(crate::specs::Literals::literal_piece))]
fn literal_piece(size: Option<&[u8]>, signed: bool, base: Base, digits: &[u8]) -> Piece
    ensures { result ≡ literal_piece (option_copied size.entry) signed base digits.now }
{
    if !is_well_formed(base, digits) {
        return Piece::Refused(Refusal::BadLiteral);
    }
    if let Some(size) = size {
        return sized_piece(size, signed, base, digits);
    }
    if !fits_unsized(base, digits) {
        return Piece::Refused(Refusal::TooLarge);
    }
    Piece::Token(Kind::Number(based_literal(base, 32, signed, digits)))
}

/// Reads a base and its digits, if they stand there.
fn read_base<'s>(size: Option<&'s [u8]>, signed: bool, bytes: &'s [u8]) -> Option<Lexed<'s>>
    ensures { MatchOption result
        (HasNone (base_form (option_copied size.entry) signed) bytes.now)
        (λ read. Reads (base_form (option_copied size.entry) signed) bytes.now read) }
{
    let Some((letter, after)) = first_and_rest(bytes) else {
        return None;
    };
    let Some(base) = base_of(letter) else {
        return None;
    };
    let (_, behind) = split_run(after, ByteClass::White);
    let (digits, rest) = split_run(behind, ByteClass::Digits(base));
    let Some((first, _)) = first_and_rest(digits) else {
        return None;
    };
    if !base.starts_digits(first) {
        return None;
    }
    let piece = literal_piece(size, signed, base, digits);
    Some(Lexed { piece, rest })
}

/// Reads what stands behind the quote of a number.
fn read_quote<'s>(size: Option<&'s [u8]>, bytes: &'s [u8]) -> Lexed<'s>
    ensures { Reads (quote_form (option_copied size.entry)) bytes.now result }
{
    let refused = Lexed {
        piece: Piece::Refused(Refusal::BadLiteral),
        rest: bytes,
    };
    let Some((first, after)) = first_and_rest(bytes) else {
        return refused;
    };
    if is_sign(first) {
        let Some(read) = read_base(size, true, after) else {
            return refused;
        };
        return read;
    }
    let Some(read) = read_base(size, false, bytes) else {
        return refused;
    };
    read
}

/// Reads a number that begins with a digit.
pub fn read_number(bytes: &[u8]) -> Lexed<'_>
    ensures { Reads number_form bytes.now result }
{
    let (digits, after) = split_run(bytes, ByteClass::Decimal);
    let (_, behind) = split_run(after, ByteClass::White);
    let number = Lexed {
        piece: decimal_piece(digits, after),
        rest: after,
    };
    let Some((quote, body)) = first_and_rest(behind) else {
        return number;
    };
    if quote != b'\'' {
        return number;
    }
    read_quote(Some(digits), body)
}

/// Reads a number that begins with a quote, from the bytes after it.
pub fn read_apostrophe(quote: u8, after: &[u8]) -> Lexed<'_>
    ensures { Reads apostrophe_form (quote ∷ after.now) result }
{
    read_quote(None, after)
}
