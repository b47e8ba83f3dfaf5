//! Marks and operators (IEEE 1364-2005, clauses 3.4 and 5).
ghost use Rattle.std.specs.Prelude.{◌≡◌, ◌<◌, ◌∷◌, length, MatchOption};
ghost use Rattle.vs_lexer.specs.Pieces.{mark_form};
ghost use Rattle.vs_lexer.specs.Reading.{Reads};
ghost use Rattle.vs_lexer.specs.Taking.{HasNoMarkOfTwo, HasNoMarkOfThree};

use crate::reserved::{one_byte_mark, three_byte_mark, two_byte_mark};
use crate::{Lexed, Piece, Refusal, first_and_rest, first_two_and_rest};

/// The first three bytes, and those after them.
fn first_three_and_rest(bytes: &[u8]) -> Option<(u8, u8, u8, &[u8])>
    ensures { MatchOption result (length bytes.now < 3) (λ x. bytes.now ≡ x.0 ∷ x.1 ∷ x.2 ∷ x.3.now) }
{
    let (first, second, after) = first_two_and_rest(bytes)?;
    let (third, rest) = first_and_rest(after)?;
    Some((first, second, third, rest))
}

/// Reads a mark of three bytes, if one stands there.
fn read_three(bytes: &[u8]) -> Option<Lexed<'_>>
    ensures { MatchOption result (HasNoMarkOfThree bytes.now) (λ read. Reads mark_form bytes.now read) }
{
    let Some((first, second, third, rest)) = first_three_and_rest(bytes) else {
        return None;
    };
    let Some(kind) = three_byte_mark(&[first, second, third]) else {
        return None;
    };
    let piece = Piece::Token(kind);
    Some(Lexed { piece, rest })
}

/// Reads a mark of two bytes, if one stands there, where none of three does.
fn read_two(bytes: &[u8]) -> Option<Lexed<'_>>
    requires { HasNoMarkOfThree bytes.now }
    ensures { MatchOption result (HasNoMarkOfTwo bytes.now) (λ read. Reads mark_form bytes.now read) }
{
    let Some((first, second, rest)) = first_two_and_rest(bytes) else {
        return None;
    };
    let Some(kind) = two_byte_mark(&[first, second]) else {
        return None;
    };
    let piece = Piece::Token(kind);
    Some(Lexed { piece, rest })
}

/// Reads a mark, from its first byte and the bytes after it.
pub(crate) fn read_mark<'s>(first: u8, after: &'s [u8], bytes: &'s [u8]) -> Lexed<'s>
    requires { bytes.now ≡ first ∷ after.now }
    ensures { Reads mark_form bytes.now result }
{
    if let Some(read) = read_three(bytes) {
        return read;
    }
    if let Some(read) = read_two(bytes) {
        return read;
    }
    let Some(kind) = one_byte_mark(&[first]) else {
        return Lexed {
            piece: Piece::Refused(Refusal::BadByte),
            rest: after,
        };
    };
    Lexed {
        piece: Piece::Token(kind),
        rest: after,
    }
}
