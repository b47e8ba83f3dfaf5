//! Whether ranges have each bit of a design that a range has.
ghost use Rattle.std.specs.Prelude.{ℕ, ◌≡◌, ◌<◌, ◌≤◌, ◌↔◌, IsTrue};
ghost use Rattle.vs_drivers.specs.Places.{end_of, EndsAt, CoverPlaces};
ghost use Rattle.vs_drivers.specs.Ranges.{Cover};

use crate::shares::{has, low_of};
use vs_design::{BitRange, Bits, Design};

// The place after the last one of a range, of so many.
fn end_of(width: u32, bits: Option<Bits>) -> u32
    ensures { result ≡ end_of width bits }
{
    match bits {
        None => width,
        Some(b) => b.low.saturating_add(b.width).min(width),
    }
}

// Where one of some ranges has a bit, a place after it up to which they have all.
fn end_after(ranges: &[BitRange], signal: usize, word: usize, width: u32, place: u32) -> Option<u32>
    requires { place < width }
    ensures { EndsAt ranges.now signal word place result }
{
    for range in ranges {
        if has(*range, signal, word, place) {
            return Some(end_of(width, range.bits));
        }
    }
    None
}

// Whether some ranges have all bits of a word from one place to before another one.
fn cover_places(ranges: &[BitRange], signal: usize, word: usize, low: u32, end: u32) -> bool
    ensures { IsTrue result ↔ CoverPlaces ranges.now signal word low end }
{
    let mut place = low;
    while place < end {
        match end_after(ranges, signal, word, end, place) {
            None => return false,
            Some(after) => place = after,
        }
    }
    true
}

// The same of each of so many words.
fn cover_words(ranges: &[BitRange], signal: usize, count: usize, low: u32, end: u32) -> bool
    ensures { IsTrue result ↔ ((w : ℕ) → w < count → CoverPlaces ranges.now signal w low end) }
{
    for word in 0..count {
        if !cover_places(ranges, signal, word, low, end) {
            return false;
        }
    }
    true
}

/// Whether some ranges have each bit of the design that a range has. It takes as long as there are ranges, for each of at most 64 places of a word,
/// and where the range has all words of an array, for each word.
pub fn covers(design: &Design, ranges: &[BitRange], range: BitRange) -> bool
    ensures { IsTrue result ↔ Cover design.now ranges.now range }
{
    match design.signals().get(range.signal) {
        None => true,
        Some(signal) => {
            let low = low_of(range.bits);
            let end = end_of(signal.width, range.bits);
            let count = signal.count as usize;
            match range.word {
                None => cover_words(ranges, range.signal, count, low, end),
                Some(word) => word >= count || cover_places(ranges, range.signal, word, low, end),
            }
        }
    }
}
