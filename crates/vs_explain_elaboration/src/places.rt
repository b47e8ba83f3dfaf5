//! Places in a piece of a source that has a fault.

use crate::limits::literal_range;
use vs_explain_outline::{Landmark, LandmarkKind, Piece, SourceText, is_marked};
use vs_syntax::vs_lexer::{Kind, Mark};

/// Whether a landmark stands in a piece, where one is given.
pub(crate) fn is_in_piece(landmark: &Landmark, piece: Option<Piece>) -> bool {
    match piece {
        Some(piece) => piece.first <= landmark.token && landmark.token <= piece.last,
        None => true,
    }
}

/// The first token of a piece that is this mark.
fn first_mark(text: &SourceText, piece: &Piece, mark: Mark) -> Option<usize> {
    for token in piece.first..piece.last.saturating_add(1) {
        if text.is_mark(token, mark) {
            return Some(token);
        }
    }
    None
}

/// The outermost bracket of the first part-select of a piece that has this mark in it.
fn part_select(text: &SourceText, piece: &Piece, mark: Mark) -> Option<usize> {
    let mut depth = 0usize;
    let mut outermost = piece.first;
    for token in piece.first..piece.last.saturating_add(1) {
        if text.is_mark(token, Mark::OpenBracket) {
            if depth == 0 {
                outermost = token;
            }
            depth = depth.saturating_add(1);
        } else if text.is_mark(token, Mark::CloseBracket) {
            depth = depth.saturating_sub(1);
        } else if depth > 0 && text.is_mark(token, mark) {
            return Some(outermost);
        }
    }
    None
}

/// The bracket of the first part-select with a width of a piece.
fn sized_select(text: &SourceText, piece: &Piece) -> Option<usize> {
    let upward = part_select(text, piece, Mark::PlusColon);
    if upward.is_some() {
        return upward;
    }
    part_select(text, piece, Mark::MinusColon)
}

/// The part of a piece that may have too many bits, and what it is called.
pub(crate) fn wide_part(text: &SourceText, piece: &Piece) -> (usize, &'static str) {
    if let Some(token) = first_mark(text, piece, Mark::OpenBrace) {
        return (
            token,
            "This concatenation or replication, or another one after it,",
        );
    }
    if let Some(token) = sized_select(text, piece) {
        return (token, "This part-select, or another one after it,");
    }
    match part_select(text, piece, Mark::Colon) {
        Some(token) => (token, "This part-select, or another one after it,"),
        None => (piece.first, "What begins here"),
    }
}

/// The token at which a replication begins in a piece: the brace before its count.
fn replication(text: &SourceText, piece: &Piece) -> Option<usize> {
    let mut open = None;
    for token in piece.first..piece.last.saturating_add(1) {
        if text.is_mark(token, Mark::OpenBrace) {
            let is_inner = open.is_some() && !text.is_mark(token.saturating_sub(1), Mark::Comma);
            if is_inner && !text.is_mark(token.saturating_sub(1), Mark::OpenBrace) {
                return open;
            }
            open = Some(token);
        }
    }
    None
}

/// The part of a piece that has to be a constant in its bounds, and what is said of it.
pub(crate) fn constant_part(text: &SourceText, piece: &Piece) -> (usize, &'static str) {
    if let Some(token) = sized_select(text, piece) {
        return (
            token,
            "The width of this part-select has to be a constant from 1 on.\n",
        );
    }
    if let Some(token) = replication(text, piece) {
        return (
            token,
            "The count of this replication has to be a constant from 1 on.\n",
        );
    }
    if let Some(token) = part_select(text, piece, Mark::Colon) {
        return (
            token,
            "The bounds of this part-select have to be constants, in the direction of the range of its signal.\n",
        );
    }
    if let Some(token) = first_mark(text, piece, Mark::Hash) {
        return (token, "This delay has to be a constant from 0 on.\n");
    }
    (
        piece.first,
        "Here something has to be a constant in its bounds and isn't: a delay, a width, a count or a bound.\n",
    )
}

/// The first range of marked regions whose bounds aren't two numbers.
pub(crate) fn open_range(text: &SourceText, marked: &[bool]) -> Option<usize> {
    for landmark in &text.outline.landmarks {
        let is_range = match text.tokens.get(landmark.token) {
            Some(token) => token.kind == Kind::Mark(Mark::OpenBracket),
            None => false,
        };
        if is_range
            && landmark.kind == LandmarkKind::Constant
            && is_marked(marked, landmark.region)
            && literal_range(text, landmark.token).is_none()
        {
            return Some(landmark.token);
        }
    }
    None
}
