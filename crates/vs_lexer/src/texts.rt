//! Texts in quotes (IEEE 1364-2005, clause 3.6).
ghost use Rattle.std.specs.Prelude.{◌≡◌, ◌&&◌, ◌∷◌, nat_le};
ghost use Rattle.vs_lexer.specs.Texts.{text_form, is_escape, is_octal};
ghost use Rattle.vs_lexer.specs.Reading.{Reads, ReadsText, Steps};

use crate::piece::{Lexed, Piece};
use crate::refusal::Refusal;
use crate::runs::{ByteClass, first_and_rest, first_two_and_rest};
use crate::token::Kind;

/// One step through a text: to its end, or past some of its bytes.
#[derive(Clone, Copy)]
pub(crate) enum TextStep<'s> {
    Ends(Lexed<'s>),
    Goes(&'s [u8]),
}

/// Whether the byte may stand behind a backslash.
fn is_escape(byte: u8) -> bool
    ensures { result ≡ is_escape byte }
{
    byte == b'n' || byte == b't' || byte == b'\\' || byte == b'"'
}

/// Whether the byte is an octal digit.
pub(crate) fn is_octal(byte: u8) -> bool
    ensures { result ≡ is_octal byte }
{
    b'0' <= byte && byte <= b'7'
}

/// Whether an octal digit and the two bytes after it are above 377.
fn is_above_377(digit: u8, second: u8, third: u8) -> bool
    ensures { result ≡ (nat_le 52 digit && (is_octal second && is_octal third)) }
{
    digit >= b'4' && is_octal(second) && is_octal(third)
}

/// The text ends here: this is what it is.
fn ends(piece: Piece, rest: &[u8]) -> TextStep<'_>
    ensures { result ≡ TextStep.Ends (record { piece = piece; rest = rest.entry }) }
{
    TextStep::Ends(Lexed { piece, rest })
}

/// Goes past an escape, from the bytes behind its backslash.
fn step_escape<'s>(after: &'s [u8]) -> TextStep<'s>
    ensures { Steps (92 ∷ after.now) result }
{
    let Some((escaped, behind)) = first_and_rest(after) else {
        return ends(Piece::Refused(Refusal::Unclosed), after);
    };
    if is_escape(escaped) {
        return TextStep::Goes(behind);
    }
    if !is_octal(escaped) {
        return ends(Piece::Refused(Refusal::BadLiteral), behind);
    }
    let Some((second, third, rest)) = first_two_and_rest(behind) else {
        return TextStep::Goes(behind);
    };
    if is_above_377(escaped, second, third) {
        return ends(Piece::Refused(Refusal::BadLiteral), rest);
    }
    TextStep::Goes(behind)
}

/// Goes one step through a text, behind its first quotation mark.
fn step_text<'s>(bytes: &'s [u8]) -> TextStep<'s>
    ensures { Steps bytes.now result }
{
    let Some((first, after)) = first_and_rest(bytes) else {
        return ends(Piece::Refused(Refusal::Unclosed), bytes);
    };
    if first == b'"' {
        return ends(Piece::Token(Kind::Text), after);
    }
    if first == b'\n' {
        return ends(Piece::Refused(Refusal::Unclosed), after);
    }
    if first == b'\\' {
        return step_escape(after);
    }
    if !ByteClass::Comment.has(first) {
        return ends(Piece::Refused(Refusal::BadByte), after);
    }
    TextStep::Goes(after)
}

/// Reads a text, behind its first quotation mark.
fn read_text_body(bytes: &[u8]) -> Lexed<'_>
    ensures { ReadsText bytes.now result }
{
    let mut rest = bytes;
    loop {
        match step_text(rest) {
            TextStep::Ends(read) => return read,
            TextStep::Goes(next) => {
                rest = next;
            }
        }
    }
}

/// Reads a text, from the bytes after its first quotation mark.
pub fn read_text(quote: u8, after: &[u8]) -> Lexed<'_>
    ensures { Reads text_form (quote ∷ after.now) result }
{
    read_text_body(after)
}
