//! Limits, loops without an end, blocks without a name, time scales.

use crate::names::{put_instance, put_region, regions_of};
use vs_explain_outline::{
    Landmark, LandmarkKind, Page, RegionKind, SourceText, first_part, is_marked,
};
use vs_syntax::vs_lexer::{Directive, Kind, Mark, Word};

/// The most words of an array.
const WORDS_LIMIT: u64 = 65536;

/// The most levels of instances.
const LEVELS_LIMIT: usize = 64;

/// The number that decimal digits are, at most the greatest one of 64 bits.
fn number_at(text: &SourceText, token: usize) -> Option<u64> {
    let mut number = 0u64;
    for byte in text.tokens.get(token)?.bytes {
        if *byte != b'_' {
            if !byte.is_ascii_digit() {
                return None;
            }
            let digit = u64::from(byte.saturating_sub(b'0'));
            number = number.saturating_mul(10).saturating_add(digit);
        }
    }
    Some(number)
}

/// How many places a range has whose two bounds are decimal digits, where it opens at a token.
pub(crate) fn literal_range(text: &SourceText, open: usize) -> Option<u64> {
    let colon = open.saturating_add(2);
    match text.tokens.get(colon)?.kind {
        Kind::Mark(Mark::Colon) => {}
        _ => return None,
    }
    match text.tokens.get(open.saturating_add(4))?.kind {
        Kind::Mark(Mark::CloseBracket) => {}
        _ => return None,
    }
    let left = number_at(text, open.saturating_add(1))?;
    let right = number_at(text, open.saturating_add(3))?;
    Some(left.abs_diff(right).saturating_add(1))
}

/// How many parts a path has.
fn parts_of(path: &[u8]) -> usize {
    let mut rest = path;
    let mut count = 0usize;
    for _ in 0..path.len() {
        match first_part(rest) {
            Some(part) => rest = part.rest,
            None => return count,
        }
        count = count.saturating_add(1);
    }
    count
}

/// Puts an array in marked regions that has too many words. Whether there is one.
fn put_array(page: &mut Page, text: &SourceText, marked: &[bool]) -> bool {
    for landmark in &text.outline.landmarks {
        let declared = matches!(landmark.kind, LandmarkKind::Declared(_));
        if declared && is_marked(marked, landmark.region) {
            if let Some(words) = literal_range(text, landmark.token.saturating_add(1)) {
                if words > WORDS_LIMIT {
                    page.put_place(text.place_at(landmark.token));
                    page.put("This array has ");
                    page.put_shown(words);
                    page.put(" words, and an array has at most 65,536.\n");
                    return true;
                }
            }
        }
    }
    false
}

/// A limit is passed.
pub(crate) fn limit_passed(page: &mut Page, text: &SourceText, path: &[u8]) {
    let marked = regions_of(page, text, path);
    if put_array(page, text, &marked) {
        return;
    }
    let levels = parts_of(path);
    if put_instance(page, text, path) {
        if levels > LEVELS_LIMIT {
            page.put(
                "Instances stand in one another more than 64 levels deep, the top among them.\n",
            );
        } else {
            page.put(
                "There are more than 16,384 instances, or a limit is passed inside this one: 65,536 signals of a design, 65,536 words of an array, 65,536 iterations of all generate loops.\n",
            );
        }
        return;
    }
    if put_region(page, text, path) {
        page.put(
            "In the scope that begins here a limit is passed: 65,536 signals of a design, 65,536 words of an array, 65,536 iterations of all generate loops, or delays below 4611686018427387904 ticks.\n",
        );
    }
}

/// The first generate loop of marked regions.
fn first_loop(text: &SourceText, marked: &[bool]) -> Option<Landmark> {
    for landmark in &text.outline.landmarks {
        let is_loop = match text.tokens.get(landmark.token) {
            Some(token) => token.kind == Kind::Word(Word::For),
            None => false,
        };
        if is_loop
            && landmark.kind == LandmarkKind::Construct
            && is_marked(marked, landmark.region)
        {
            return Some(*landmark);
        }
    }
    None
}

/// A generate loop doesn't end.
pub(crate) fn endless(page: &mut Page, text: &SourceText, path: &[u8]) {
    let marked = regions_of(page, text, path);
    if let Some(landmark) = first_loop(text, &marked) {
        page.put_place(text.place_at(landmark.token));
        page.put(
            "This generate loop, or another one of the same scope, goes on after 65,536 iterations. Let its condition become false: its step has to change the genvar towards it.\n",
        );
    }
}

/// An unnamed block has no free name.
pub(crate) fn unnamed(page: &mut Page, text: &SourceText, path: &[u8]) {
    let marked = regions_of(page, text, path);
    for region in &text.outline.regions {
        let inside = match region.around {
            Some(around) => is_marked(&marked, around),
            None => false,
        };
        if inside && region.kind == RegionKind::Generated && region.name.is_none() {
            page.put_place(text.place_at(region.first));
            page.put(
                "This block has no name, and each name `genblk` with its number and zeros before it is taken. Write `begin : name`.\n",
            );
            return;
        }
    }
}

/// Two time scales differ.
pub(crate) fn timescales(page: &mut Page, text: &SourceText) {
    let mut first: Option<usize> = None;
    for (index, token) in text.tokens.iter().enumerate() {
        if !matches!(token.kind, Kind::Directive(Directive::Timescale { .. })) {
            continue;
        }
        let Some(other) = first else {
            first = Some(index);
            continue;
        };
        let differs = match text.tokens.get(other) {
            Some(earlier) => earlier.kind != token.kind,
            None => false,
        };
        if differs {
            page.put_place(text.place_at(other));
            page.put_place(token.place);
            page.put("These time scales differ. Use one for all files.\n");
            return;
        }
    }
}
