//! Expressions and assignments without a meaning.

use crate::declared::{Visible, has_range, is_array, is_net, is_variable, word_of};
use crate::limits::literal_range;
use crate::names::{put_region, regions_of, unknown_name};
use crate::places::{constant_part, is_in_piece, open_range, wide_part};
use vs_explain_outline::{
    DeclaredKind, Landmark, LandmarkKind, Page, Piece, SourceText, UseRole, is_marked,
};
use vs_scopes::vs_widths::WidthReason;
use vs_syntax::vs_lexer::{Mark, Word};

/// The most bits of a value.
const WIDTH_LIMIT: u64 = 64;

/// An expression, an assignment or a delay has no meaning: in this piece of the source, where it is known.
pub(crate) fn no_meaning(
    page: &mut Page,
    text: &SourceText,
    why: WidthReason,
    path: &[u8],
    piece: Option<Piece>,
) {
    match why {
        WidthReason::Unknown => unknown_name(page, text, path),
        WidthReason::TooWide => too_wide(page, text, path, piece),
        WidthReason::NotConstant => not_constant(page, text, path, piece),
        WidthReason::WrongKind => wrong_kind(page, text, path, piece),
    }
}

/// Puts a range of two numbers in marked regions that is too wide. Whether there is one.
fn put_wide_range(page: &mut Page, text: &SourceText, marked: &[bool]) -> bool {
    for landmark in &text.outline.landmarks {
        if landmark.kind == LandmarkKind::Constant && is_marked(marked, landmark.region) {
            if let Some(bits) = literal_range(text, landmark.token) {
                if bits > WIDTH_LIMIT {
                    page.put_place(text.place_at(landmark.token));
                    page.put("This range has ");
                    page.put_shown(bits);
                    page.put(" bits, and a signal has at most 64. Cut it into parts.\n");
                    return true;
                }
            }
        }
    }
    false
}

fn too_wide(page: &mut Page, text: &SourceText, path: &[u8], piece: Option<Piece>) {
    if let Some(piece) = piece {
        let (token, words) = wide_part(text, &piece);
        page.put_place(text.place_at(token));
        page.put(words);
        page.put(" has more than 64 bits. Cut it into parts, in signals of their own.\n");
        return;
    }
    let marked = regions_of(page, text, path);
    if put_wide_range(page, text, &marked) {
        return;
    }
    if let Some(token) = open_range(text, &marked) {
        page.put_place(text.place_at(token));
        page.put(
            "This range, or another range or a parameter of its scope, has more than 64 bits, the most of a value. Cut it into parts.\n",
        );
    } else if put_region(page, text, path) {
        page.put(
            "In the scope that begins here a range, a concatenation, a replication or a part-select has more than 64 bits. Cut it into parts.\n",
        );
    }
}

/// Whether a used name stands where a constant is wanted.
fn wants_constant(text: &SourceText, token: usize) -> bool {
    let before = token.saturating_sub(1);
    let next = token.saturating_add(1);
    let is_count = text.is_mark(before, Mark::OpenBrace) && text.is_mark(next, Mark::OpenBrace);
    let is_left = text.is_mark(before, Mark::OpenBracket) && text.is_mark(next, Mark::Colon);
    let is_right = text.is_mark(before, Mark::Colon) && text.is_mark(next, Mark::CloseBracket);
    let is_width = text.is_mark(before, Mark::PlusColon) || text.is_mark(before, Mark::MinusColon);
    is_count || is_left || is_right || is_width || text.is_mark(before, Mark::Hash)
}

/// What is wrong with the kind of a used name: the words after it.
fn wrong_use(text: &SourceText, used: &Landmark, declared: &Landmark) -> Option<&'static str> {
    let next = used.token.saturating_add(1);
    let selected = text.is_mark(next, Mark::OpenBracket);
    if used.kind == LandmarkKind::Used(UseRole::Written) && is_net(declared.kind) {
        return Some(
            " is a net, and a process assigns to it. Declare it as `reg`, or drive it by `assign`.\n",
        );
    }
    if used.kind == LandmarkKind::Used(UseRole::Driven) && is_variable(declared.kind) {
        return Some(
            " is a variable, and an `assign` drives it. Declare it as `wire`, or assign to it in a process.\n",
        );
    }
    let is_constant = declared.kind == LandmarkKind::Declared(DeclaredKind::Constant);
    if is_constant && used.kind == LandmarkKind::Used(UseRole::Written) {
        return Some(" is a parameter, and nothing assigns to one.\n");
    }
    if declared.kind == LandmarkKind::Instance {
        return Some(" is an instance, and has no value. Name a signal of this scope.\n");
    }
    let is_signal = is_net(declared.kind) || is_variable(declared.kind);
    if is_signal && is_array(text, declared.token) && !selected {
        return Some(" is an array: choose a word of it by an index.\n");
    }
    let is_bit = is_signal && !is_array(text, declared.token) && !has_range(text, declared.token);
    if is_bit && selected {
        return Some(" has no range, so there are no bits to choose.\n");
    }
    None
}

/// Puts the first use in a region, or in a piece of it, whose kind is wrong. Whether there is one.
fn put_wrong_use(page: &mut Page, text: &SourceText, region: usize, piece: Option<Piece>) -> bool {
    let visible = Visible::seen_from(page, text, region);
    for used in &text.outline.landmarks {
        let is_use = matches!(used.kind, LandmarkKind::Used(_)) && is_in_piece(used, piece);
        if used.region == region && is_use {
            let name = text.name_at(used.token);
            if let Some(declared) = visible.declaration(text, name) {
                if let Some(words) = wrong_use(text, used, &declared) {
                    page.put_place(text.place_at(used.token));
                    page.put_name(name);
                    put_declared(page, text, &declared);
                    page.put(words);
                    return true;
                }
            }
        }
    }
    false
}

/// Puts where a name is declared.
fn put_declared(page: &mut Page, text: &SourceText, declared: &Landmark) {
    page.put(", declared at ");
    page.put_spot(text.place_at(declared.token));
    page.put(",");
}

fn wrong_kind(page: &mut Page, text: &SourceText, path: &[u8], piece: Option<Piece>) {
    if let Some(piece) = piece {
        if !put_wrong_use(page, text, piece.region, Some(piece)) {
            page.put_place(text.place_at(piece.first));
            page.put(
                "Here a name is of the wrong kind: a net that a process assigns to, a variable that `assign` drives, an array without an index, or a select of what has no range.\n",
            );
        }
        return;
    }
    let marked = regions_of(page, text, path);
    for region in 0..text.outline.regions.len() {
        if is_marked(&marked, region) && put_wrong_use(page, text, region, None) {
            return;
        }
    }
    if put_region(page, text, path) {
        page.put(
            "In the scope that begins here a name is of the wrong kind: a net that a process assigns to, a variable that `assign` drives, an array without an index, or a select of what has no range.\n",
        );
    }
}

/// Whether a used name that is a signal stands where it can't.
fn is_misplaced(text: &SourceText, used: &Landmark) -> bool {
    if wants_constant(text, used.token) {
        return true;
    }
    let is_value = matches!(
        word_of(text, used.token),
        Some((Word::Parameter, _)) | Some((Word::Localparam, _))
    );
    is_value && used.kind == LandmarkKind::Used(UseRole::Read)
}

/// Puts the first signal of a region, or of a piece of it, where a constant is wanted. Whether there is one.
fn put_signal(page: &mut Page, text: &SourceText, region: usize, piece: Option<Piece>) -> bool {
    let visible = Visible::seen_from(page, text, region);
    for used in &text.outline.landmarks {
        let is_use = matches!(used.kind, LandmarkKind::Used(_)) && is_in_piece(used, piece);
        if used.region == region && is_use {
            let name = text.name_at(used.token);
            if let Some(declared) = visible.declaration(text, name) {
                let is_signal = is_net(declared.kind) || is_variable(declared.kind);
                if is_signal && is_misplaced(text, used) {
                    page.put_place(text.place_at(used.token));
                    page.put_name(name);
                    put_declared(page, text, &declared);
                    page.put(
                        " is a signal, and here a constant is wanted: a number, a parameter or a genvar.\n",
                    );
                    return true;
                }
            }
        }
    }
    false
}

fn not_constant(page: &mut Page, text: &SourceText, path: &[u8], piece: Option<Piece>) {
    if let Some(piece) = piece {
        if !put_signal(page, text, piece.region, Some(piece)) {
            let (token, words) = constant_part(text, &piece);
            page.put_place(text.place_at(token));
            page.put(words);
        }
        return;
    }
    let marked = regions_of(page, text, path);
    for region in 0..text.outline.regions.len() {
        if is_marked(&marked, region) && put_signal(page, text, region, None) {
            return;
        }
    }
    if let Some(token) = open_range(text, &marked) {
        page.put_place(text.place_at(token));
        page.put(
            "The bounds of this range, or another constant of its scope, aren't constant, have an x or z digit, or are out of bounds.\n",
        );
    } else if put_region(page, text, path) {
        page.put(
            "In the scope that begins here something has to be a constant in its bounds and isn't: a range, a delay, a width, a count or a parameter.\n",
        );
    }
}
