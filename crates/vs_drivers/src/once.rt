//! Ranges, each once.
ghost use Rattle.std.specs.Prelude.{◌≡◌, ◌↔◌};
ghost use Rattle.std.specs.List.{Contains};
ghost use Rattle.vs_design.specs.declared.range.BitRange as range;
ghost use Rattle.vs_drivers.specs.Same.{same_word, same_bits, same_range};

use vs_design::{BitRange, Bits};

// Whether two ranges have the same word, or both all words.
fn same_word(p: Option<usize>, q: Option<usize>) -> bool
    ensures { result ≡ same_word p q }
{
    match (p, q) {
        (None, None) => true,
        (Some(v), Some(w)) => v == w,
        _ => false,
    }
}

// Whether two ranges have the same bits, or both all bits.
fn same_bits(p: Option<Bits>, q: Option<Bits>) -> bool
    ensures { result ≡ same_bits p q }
{
    match (p, q) {
        (None, None) => true,
        (Some(a), Some(b)) => a.low == b.low && a.width == b.width,
        _ => false,
    }
}

// Whether two ranges are the same.
fn same_range(r: &BitRange, q: &BitRange) -> bool
    ensures { result ≡ same_range r.now q.now }
{
    r.signal == q.signal && same_word(r.word, q.word) && same_bits(r.bits, q.bits)
}

// By what ranges are put in order: the same ones stand side by side then.
#[derive(Clone, Copy, PartialEq, Eq, PartialOrd, Ord)]
struct Place {
    signal: usize,
    // One more than the word, or 0 for all words.
    word: usize,
    low: u32,
    // How many bits, or 0 for all bits.
    width: u32,
}

// The place of a range in that order.
fn place_of(range: &BitRange) -> Place {
    let word = match range.word {
        None => 0,
        Some(word) => word.saturating_add(1),
    };
    let bits = match range.bits {
        None => Bits { low: 0, width: 0 },
        Some(bits) => bits,
    };
    Place {
        signal: range.signal,
        word,
        low: bits.low,
        width: bits.width,
    }
}

/// Those of a list, each once. It takes as long as the list, times the logarithm of how many there are.
pub fn distinct(ranges: Vec<BitRange>) -> Vec<BitRange>
    ensures { (r : range.BitRange) → (Contains result.items r ↔ Contains ranges.items r) }
{
    let mut all = ranges;
    all.sort_unstable_by_key(|range| place_of(range));
    all.dedup_by(|r, q| same_range(r, q));
    all
}
