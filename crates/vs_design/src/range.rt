//! Ranges of bits: what an expression reads, and what an assignment writes.

/// Some bits of a word, by their places from its lowest one.
#[derive(Clone, Copy)]
pub struct Bits {
    /// The place of the lowest of them.
    pub low: u32,
    /// How many there are.
    pub width: u32,
}

/// A range of a signal's bits.
#[derive(Clone, Copy)]
pub struct BitRange {
    /// The signal's number in design order.
    pub signal: usize,
    /// The word of it; without one all words. A signal that is no array has the word 0 alone.
    pub word: Option<usize>,
    /// The bits of the word or words; without them all bits.
    pub bits: Option<Bits>,
}
