//! Whether ranges have bits of a design in common.
ghost use Rattle.std.specs.Prelude.{ℕ, ◌≡◌, ◌<◌, ◌↔◌, true, IsTrue};
ghost use Rattle.vs_design.specs.Uses.{covers, has_bit, has_word};
ghost use Rattle.vs_drivers.specs.Places.{low_of, SharesWord, SharesPlace};
ghost use Rattle.vs_drivers.specs.Ranges.{Share};

use vs_design::{BitRange, Bits, Design};

/// Whether a range has this word.
pub fn has_word(words: Option<usize>, word: usize) -> bool
    ensures { result ≡ has_word words word }
{
    match words {
        None => true,
        Some(w) => w == word,
    }
}

/// Whether a range has the bit at this place.
pub fn has_place(bits: Option<Bits>, place: u32) -> bool
    ensures { result ≡ has_bit bits place }
{
    match bits {
        None => true,
        Some(b) => b.low <= place && place - b.low < b.width,
    }
}

/// Whether a range has the bit at a place of a word of a signal.
pub fn has(range: BitRange, signal: usize, word: usize, place: u32) -> bool
    ensures { result ≡ covers signal word place range }
{
    range.signal == signal && has_word(range.word, word) && has_place(range.bits, place)
}

// The lowest place of a range.
pub(crate) fn low_of(bits: Option<Bits>) -> u32
    ensures { result ≡ low_of bits }
{
    match bits {
        None => 0,
        Some(b) => b.low,
    }
}

// Whether two ranges have one of so many words in common.
fn share_word(count: u32, p: Option<usize>, q: Option<usize>) -> bool
    ensures { IsTrue result ↔ SharesWord count p q }
{
    let word = match p {
        None => q.unwrap_or(0),
        Some(w) => w,
    };
    word < count as usize && has_word(p, word) && has_word(q, word)
}

// Whether two ranges have one of so many places in common.
fn share_place(width: u32, p: Option<Bits>, q: Option<Bits>) -> bool
    ensures { IsTrue result ↔ SharesPlace width p q }
{
    let place = low_of(p).max(low_of(q));
    place < width && has_place(p, place) && has_place(q, place)
}

/// Whether two ranges have a bit of the design in common.
pub fn share(design: &Design, r: BitRange, q: BitRange) -> bool
    ensures { IsTrue result ↔ Share design.now r q }
{
    if r.signal != q.signal {
        return false;
    }
    match design.signals().get(r.signal) {
        None => false,
        Some(signal) => share_word(signal.count, r.word, q.word)
            && share_place(signal.width, r.bits, q.bits),
    }
}
