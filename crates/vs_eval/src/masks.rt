//! Changes of words by their planes, and which of them wake whom by masks: what a run compares at each write.
ghost use Rattle.std.specs.Prelude.{◌≡◌};
ghost use Rattle.vs_design.specs.vs_logic4.specs.declared.edge.Edge.TheVariants.{Any, Negedge, Posedge};
ghost use Rattle.vs_eval.specs.Masks.{AreEdgesOf, IsMaskOf, IsTermMask, has_bits, lowest_bit, mask_in, range_bits, range_mask, term_mask};
ghost use Rattle.vs_eval.specs.Waking.{edge_word};
ghost use Rattle.vs_eval.specs.passes.Masks.{IsBitMask, IsLowestMask, IsWordOf};

use vs_design::vs_logic4::Edge;
use vs_design::{BitRange, Bits, EventTerm};

/// The planes of a word before and after a write.
#[derive(Clone, Copy)]
pub struct WordChange {
    pub value: u64,
    pub unknown: u64,
    pub new_value: u64,
    pub new_unknown: u64,
}

impl WordChange {
    /// The places at which the word differs, as the bits of a number.
    #[inline(always)]
    pub fn differing(self) -> u64
        ensures { AreEdgesOf Any self result }
    {
        self.value ^ self.new_value | self.unknown ^ self.new_unknown
    }

    /// Those at which it rises (IEEE 1364-2005, clause 9.7.2).
    #[inline(always)]
    pub fn rising(self) -> u64
        ensures { AreEdgesOf Posedge self result }
    {
        !self.value & !self.unknown & (self.new_value | self.new_unknown)
            | self.unknown & self.new_value & !self.new_unknown
    }

    /// Those at which it falls.
    #[inline(always)]
    pub fn falling(self) -> u64
        ensures { AreEdgesOf Negedge self result }
    {
        self.value & !self.unknown & (!self.new_value | self.new_unknown)
            | self.unknown & !self.new_value & !self.new_unknown
    }
}

/// Some bits of one word of a signal, or of all its words.
#[derive(Clone, Copy)]
pub struct WordMask {
    pub bits: u64,
    /// The number of the word; `usize::MAX` for all words.
    pub word: usize,
}

/// The bits of a range.
fn bits_of(bits: Option<Bits>) -> u64
    ensures is { result ≡ range_bits bits }
    ensures has { IsBitMask bits result }
{
    let Some(b) = bits else {
        return u64::MAX;
    };
    if b.low > 63 {
        return 0;
    }
    if b.width > 63 - b.low {
        !((1 << b.low) - 1)
    } else {
        (1 << b.low + b.width) - (1 << b.low)
    }
}

/// The lowest of them.
fn lowest_of(bits: Option<Bits>) -> u64
    ensures is { result ≡ lowest_bit bits }
    ensures has { IsLowestMask bits result }
{
    let Some(b) = bits else {
        return 1;
    };
    if b.width == 0 {
        return 0;
    }
    if b.low > 63 {
        return 0;
    }
    1 << b.low
}

/// The first of the words of a range.
fn first_word(only: Option<usize>) -> usize
    ensures { result ≡ edge_word only }
{
    match only {
        None => 0,
        Some(word) => word,
    }
}

/// One word or all.
fn in_word(word: Option<usize>, bits: u64) -> WordMask
    ensures is { result ≡ mask_in word bits }
    ensures has { IsWordOf word bits result }
{
    match word {
        None => WordMask {
            bits,
            word: usize::MAX,
        },
        Some(usize::MAX) => WordMask { bits: 0, word: 0 },
        Some(word) => WordMask { bits, word },
    }
}

impl WordMask {
    /// The bits of a range.
    pub fn of_range(range: BitRange) -> Self
        ensures is { result ≡ range_mask range }
        ensures has { IsMaskOf range result }
    {
        in_word(range.word, bits_of(range.bits))
    }

    /// Those of which an edge wakes a term, in the first word of its range; of a term that any change wakes all bits of the range.
    pub fn of_term(term: EventTerm) -> Self
        ensures is { result ≡ term_mask term }
        ensures wakes { IsTermMask term result }
    {
        match term.edge {
            Edge::Any => WordMask::of_range(term.range),
            _ => in_word(
                Some(first_word(term.range.word)),
                lowest_of(term.range.bits),
            ),
        }
    }

    /// Whether it has one of these bits of a word.
    #[inline(always)]
    pub fn has(self, word: usize, bits: u64) -> bool
        ensures { result ≡ has_bits self word bits }
    {
        self.bits & bits != 0 && (self.word == usize::MAX || self.word == word)
    }
}
