//! The pieces of a format's text (IEEE 1364-2005, clause 17.1.1).
ghost use Rattle.std.specs.Prelude.{◌≡◌, ◌<◌, ◌≤◌, None, Some, [], length, unwrap_or, IfOk, MatchOption, MatchResult};
ghost use Rattle.vs_strobe.specs.Pieces.{show_of, directive_of, joined, pieces_of, pieces_from, after_percent, wanted, Refuses, format_fault};

use crate::fault::{FormatFault, FormatReason};
use std::alloc::{AllocError, Global};

/// How a directive shows its argument.
#[derive(Clone, Copy)]
pub enum Show {
    /// `%b`
    Binary,
    /// `%o`
    Octal,
    /// `%h`
    Hex,
    /// `%d`
    Decimal,
    /// `%t`
    Time,
    /// `%c`
    Character,
    /// `%s`
    Text,
}

/// A piece of a text.
#[derive(Clone, Copy)]
pub enum FormatPiece {
    /// A byte that is printed as it is; `%%` is one `%`.
    Byte(u8),
    /// `%m`
    Path,
    /// A directive that takes an argument, and whether a `0` stands behind its `%`.
    Shown(Show, bool),
}

/// How the letter of a directive shows an argument.
fn show_of(letter: u8) -> Option<Show>
    ensures { result ≡ show_of letter }
{
    match letter {
        b'b' | b'B' => Some(Show::Binary),
        b'o' | b'O' => Some(Show::Octal),
        b'h' | b'H' => Some(Show::Hex),
        b'd' | b'D' => Some(Show::Decimal),
        b't' | b'T' => Some(Show::Time),
        b'c' | b'C' => Some(Show::Character),
        b's' | b'S' => Some(Show::Text),
        _ => None,
    }
}

/// The directive of a letter, behind a `0` or not.
fn directive_of(bare: bool, letter: u8) -> Option<FormatPiece>
    ensures { result ≡ directive_of bare letter }
{
    if letter == b'm' || letter == b'M' {
        return Some(FormatPiece::Path);
    }
    let show = show_of(letter)?;
    Some(FormatPiece::Shown(show, bare))
}

/// The piece behind a `%`, and the bytes behind it; nothing where it is no directive.
fn read_directive(bytes: &[u8]) -> Option<(FormatPiece, &[u8])>
    ensures { MatchOption result (pieces_from after_percent bytes.now ≡ None)
        (λ x. (pieces_from after_percent bytes.now ≡ joined (Some x.0) (pieces_of x.1.now)) × (length x.1.now ≤ length bytes.now)) }
{
    match bytes {
        [b'%', rest @ ..] => Some((FormatPiece::Byte(b'%'), rest)),
        [b'0', letter, rest @ ..] => Some((directive_of(true, *letter)?, rest)),
        [letter, rest @ ..] => Some((directive_of(false, *letter)?, rest)),
        [] => None,
    }
}

/// The piece that bytes begin with, and the bytes behind it; nothing where that is a bad directive.
fn read_piece(bytes: &[u8]) -> Option<(FormatPiece, &[u8])>
    requires { 0 < length bytes.now }
    ensures { MatchOption result (pieces_of bytes.now ≡ None)
        (λ x. (pieces_of bytes.now ≡ joined (Some x.0) (pieces_of x.1.now)) × (length x.1.now < length bytes.now)) }
{
    match bytes {
        [b'%', behind @ ..] => read_directive(behind),
        [first, behind @ ..] => Some((FormatPiece::Byte(*first), behind)),
        [] => None,
    }
}

/// The pieces of a text; nothing where it has a bad directive.
fn read_pieces(alloc: Global, text: &[u8]) -> Result<Option<Vec<FormatPiece>>, AllocError>
    ensures { IfOk result (λ o. MatchOption o (pieces_of text.now ≡ None) (λ pieces. pieces_of text.now ≡ Some pieces.items)) }
{
    let mut pieces = Vec::new(alloc);
    let mut rest = text;
    while !rest.is_empty() {
        let Some((piece, after)) = read_piece(rest) else {
            return Ok(None);
        };
        pieces.push(piece)?;
        rest = after;
    }
    Ok(Some(pieces))
}

/// The pieces of a text; none of a text with a bad directive.
pub(crate) fn any_pieces(alloc: Global, text: &[u8]) -> Result<Vec<FormatPiece>, AllocError>
    ensures { IfOk result (λ pieces. pieces.items ≡ unwrap_or (pieces_of text.now) []) }
{
    match read_pieces(alloc, text)? {
        Some(pieces) => Ok(pieces),
        None => Ok(Vec::new(alloc)),
    }
}

/// How many arguments pieces take.
fn wanted(pieces: &[FormatPiece]) -> usize
    ensures is { result ≡ wanted pieces.now }
    ensures most { result ≤ length pieces.now }
{
    let mut count = 0;
    for piece in pieces {
        if let FormatPiece::Shown(_, _) = piece {
            count += 1;
        }
    }
    count
}

/// The pieces of a text that takes so many arguments.
pub(crate) fn checked_pieces(
    alloc: Global,
    text: &[u8],
    given: usize,
) -> Result<Vec<FormatPiece>, FormatFault>
    ensures read { MatchResult result (λ pieces. (pieces_of text.now ≡ Some pieces.items) × (format_fault text.now given ≡ None))
        (Refuses (format_fault text.now given)) }
{
    let Some(pieces) = read_pieces(alloc, text)? else {
        return Err(FormatFault::Refused(FormatReason::BadDirective));
    };
    let wanted = wanted(&pieces);
    if given < wanted {
        return Err(FormatFault::Refused(FormatReason::TooFewArguments));
    }
    if wanted < given {
        return Err(FormatFault::Refused(FormatReason::TooManyArguments));
    }
    Ok(pieces)
}
