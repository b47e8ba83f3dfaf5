//! Bits that behave alike, since each of some ranges has all of them or none.
ghost use Rattle.std.specs.Prelude.{ℕ, ◌≡◌, ◌<◌, ◌≤◌, ◌&&◌};
ghost use Rattle.vs_design.specs.Uses.{has_bit, has_word, is_of};
ghost use Rattle.vs_cert_blocks.specs.Corners.{SamePlaces, SameWords, AlikePlaces, AlikeWords};

use vs_design::{BitRange, Bits};

// Up to which place the bits of a range from a place on are in it alike: not beyond a bound.
fn same_until(bits: Option<Bits>, place: u32, bound: u32) -> u32
    requires { place < bound }
    ensures { SamePlaces bits place bound result }
{
    match bits {
        None => bound,
        Some(b) => {
            let end = b.low.saturating_add(b.width);
            if place < b.low {
                b.low.min(bound)
            } else if place < end {
                end.min(bound)
            } else {
                bound
            }
        }
    }
}

// Up to which word the words of a range from a word on are in it alike: not beyond a bound.
fn same_word_until(words: Option<usize>, word: usize, bound: usize) -> usize
    requires { word < bound }
    ensures { SameWords words word bound result }
{
    match words {
        None => bound,
        Some(w) => {
            if word < w {
                w.min(bound)
            } else if word == w {
                word + 1
            } else {
                bound
            }
        }
    }
}

// Whether a range is of a word of a signal.
fn is_of_word(range: BitRange, signal: usize, word: usize) -> bool
    ensures { result ≡ (is_of signal range && has_word range.word word) }
{
    if range.signal != signal {
        return false;
    }
    match range.word {
        None => true,
        Some(w) => w == word,
    }
}

/// Up to which place the bits of a word from a place on are in each of some ranges alike.
pub(crate) fn alike_until(
    ranges: &[BitRange],
    signal: usize,
    word: usize,
    width: u32,
    place: u32,
) -> u32
    requires { place < width }
    ensures { AlikePlaces ranges.now signal word width place result }
{
    let mut end = width;
    for range in ranges {
        if is_of_word(*range, signal, word) {
            end = same_until(range.bits, place, end);
        }
    }
    end
}

/// Up to which word the words of a signal from a word on are in each of some ranges alike.
pub(crate) fn alike_words_until(
    ranges: &[BitRange],
    signal: usize,
    count: usize,
    word: usize,
) -> usize
    requires { word < count }
    ensures { AlikeWords ranges.now signal count word result }
{
    let mut end = count;
    for range in ranges {
        if range.signal == signal {
            end = same_word_until(range.word, word, end);
        }
    }
    end
}
