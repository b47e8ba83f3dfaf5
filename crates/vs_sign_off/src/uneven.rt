//! A row that stands in two texts a different number of times.
ghost use Rattle.std.specs.Prelude.{◌≤◌, IfOk, IfSome, length};
ghost use Rattle.vs_sign_off.specs.Rows.{AreUneven};

use crate::rows::times_of;
use std::alloc::{AllocError, Global};

/// The most rows of each text that are tried.
const ROWS: usize = 256;

/// A row that stands in two texts a different number of times.
#[derive(Drop)]
pub struct Uneven {
    /// The row, without its line feed.
    pub row: Vec<u8>,
    /// How often it stands in the first text.
    pub first: u64,
    /// How often in the other one.
    pub other: u64,
}

// A row, where it stands in two texts a different number of times.
fn uneven_row(
    alloc: Global,
    one: &[u8],
    two: &[u8],
    row: &[u8],
) -> Result<Option<Uneven>, AllocError>
    ensures { IfOk result (λ o. IfSome o (λ u. AreUneven one.now two.now u)) }
{
    let first = times_of(alloc, one, row)?;
    let other = times_of(alloc, two, row)?;
    if first == other {
        return Ok(None);
    }
    let row = Vec::from_slice(alloc, row)?;
    Ok(Some(Uneven { row, first, other }))
}

// How many bytes of a text stand before its first line feed.
fn row_length(text: &[u8]) -> usize
    ensures { result ≤ length text.now }
{
    for place in 0..text.len() {
        if text[place] == b'\n' {
            return place;
        }
    }
    text.len()
}

// What stands in a text from a place on.
fn from_place(text: &[u8], place: usize) -> &[u8] {
    match text.get(place..text.len()) {
        Some(rest) => rest,
        None => &[],
    }
}

// The first of the first rows of a text that stands in two texts a different number of times.
fn uneven_among(
    alloc: Global,
    text: &[u8],
    one: &[u8],
    two: &[u8],
) -> Result<Option<Uneven>, AllocError>
    ensures { IfOk result (λ o. IfSome o (λ u. AreUneven one.now two.now u)) }
{
    let mut rest = text;
    for _ in 0..ROWS {
        if rest.is_empty() {
            break;
        }
        let length = row_length(rest);
        let (row, behind) = rest.split_at(length);
        let found = uneven_row(alloc, one, two, row)?;
        if found.is_some() {
            return Ok(found);
        }
        rest = from_place(behind, 1);
    }
    Ok(None)
}

// Where the row begins in which two texts first differ.
fn differing_row(one: &[u8], two: &[u8]) -> usize {
    let mut begin = 0;
    for place in 0..one.len().min(two.len()) {
        if one[place] != two[place] {
            return begin;
        }
        if one[place] == b'\n' {
            begin = place.saturating_add(1);
        }
    }
    begin
}

// How many rows a text has.
fn row_count(text: &[u8]) -> usize {
    let mut count: usize = 0;
    for byte in text {
        if *byte == b'\n' {
            count = count.saturating_add(1);
        }
    }
    count
}

// Where the last rows of a text begin.
fn last_rows(text: &[u8]) -> usize {
    let skipped = row_count(text).saturating_sub(ROWS);
    let mut count: usize = 0;
    for place in 0..text.len() {
        if count >= skipped {
            return place;
        }
        if text[place] == b'\n' {
            count = count.saturating_add(1);
        }
    }
    text.len()
}

// The same among rows of two texts from a place of each.
fn uneven_from(
    alloc: Global,
    one: &[u8],
    two: &[u8],
    first: usize,
    second: usize,
) -> Result<Option<Uneven>, AllocError>
    ensures { IfOk result (λ o. IfSome o (λ u. AreUneven one.now two.now u)) }
{
    let rest = from_place(one, first);
    let found = uneven_among(alloc, rest, one, two)?;
    if found.is_some() {
        return Ok(found);
    }
    let rest = from_place(two, second);
    uneven_among(alloc, rest, one, two)
}

/// A row that stands in two texts a different number of times; sought among the last rows of each, and among those from the first one that differs on.
pub fn first_uneven(alloc: Global, one: &[u8], two: &[u8]) -> Result<Option<Uneven>, AllocError>
    ensures { IfOk result (λ o. IfSome o (λ u. AreUneven one.now two.now u)) }
{
    let first = last_rows(one);
    let second = last_rows(two);
    let found = uneven_from(alloc, one, two, first, second)?;
    if found.is_some() {
        return Ok(found);
    }
    let from = differing_row(one, two);
    uneven_from(alloc, one, two, from, from)
}
