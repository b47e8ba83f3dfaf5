//! Comments and attributes (IEEE 1364-2005, clauses 3.3 and 3.8).
ghost use Rattle.std.specs.Prelude.{◌≡◌, ◌++◌, ◌∷◌, [], MatchOption, Some, None};
ghost use Rattle.vs_lexer.specs.Pieces.{among, after_pair, closed_by, slash_form, parenthesis_form, opens_attribute};
ghost use Rattle.vs_lexer.specs.Reading.{Reads, in_class};

use crate::{ByteClass, Kind, Lexed, Mark, Piece, Refusal, first_and_rest, is_white, split_run};

/// The bytes up to the first place where the two bytes stand side by side, both included, and the
/// bytes behind it.
fn split_after_pair<'s>(bytes: &'s [u8], first: u8, second: u8) -> Option<(&'s [u8], &'s [u8])>
    ensures { MatchOption result (after_pair first second bytes.now ≡ None)
        (λ x. (bytes.now ≡ x.0.now ++ x.1.now) × (after_pair first second x.0.now ≡ Some [])) }
{
    let mut index = 0;
    while index + 1 < bytes.len() {
        if bytes[index] == first && bytes[index + 1] == second {
            return Some(bytes.split_at(index + 2));
        }
        index += 1;
    }
    None
}

/// The piece, unless a byte of the text may not stand in it.
fn among(text: &[u8], allowed: ByteClass, piece: Piece) -> Piece
    ensures { result ≡ among (in_class allowed) text.now piece }
{
    if allowed.has_all(text) {
        return piece;
    }
    Piece::Refused(Refusal::BadByte)
}

/// Reads on behind an opening, up to the two bytes that close it.
fn read_closed(bytes: &[u8], first: u8, second: u8, allowed: ByteClass) -> Lexed<'_>
    ensures { Reads (closed_by (in_class allowed) first second) bytes.now result }
{
    match split_after_pair(bytes, first, second) {
        Some((body, rest)) => Lexed {
            piece: among(body, allowed, Piece::Skipped),
            rest,
        },
        None => Lexed {
            piece: among(bytes, allowed, Piece::Refused(Refusal::Unclosed)),
            rest: &[],
        },
    }
}

/// Reads what a slash begins, from the bytes after it.
pub(crate) fn read_slash(slash: u8, after: &[u8]) -> Lexed<'_>
    ensures { Reads slash_form (slash ∷ after.now) result }
{
    let mark = Lexed {
        piece: Piece::Token(Kind::Mark(Mark::Slash)),
        rest: after,
    };
    let Some((second, body)) = first_and_rest(after) else {
        return mark;
    };
    if second == b'/' {
        let (line, rest) = split_run(body, ByteClass::Line);
        let piece = among(line, ByteClass::Comment, Piece::Skipped);
        return Lexed { piece, rest };
    }
    if second == b'*' {
        return read_closed(body, b'*', b'/', ByteClass::Comment);
    }
    mark
}

/// Whether `(*` before these bytes opens an attribute.
fn opens_attribute(bytes: &[u8]) -> bool
    ensures { result ≡ opens_attribute bytes.now }
{
    for byte in bytes {
        if !is_white(*byte) {
            return *byte != b')';
        }
    }
    true
}

/// Reads what a parenthesis begins, from the bytes after it.
pub(crate) fn read_parenthesis(parenthesis: u8, after: &[u8]) -> Lexed<'_>
    ensures { Reads parenthesis_form (parenthesis ∷ after.now) result }
{
    let mark = Lexed {
        piece: Piece::Token(Kind::Mark(Mark::Open)),
        rest: after,
    };
    let Some((second, body)) = first_and_rest(after) else {
        return mark;
    };
    if second != b'*' {
        return mark;
    }
    if !opens_attribute(body) {
        return mark;
    }
    read_closed(body, b'*', b')', ByteClass::Attribute)
}
