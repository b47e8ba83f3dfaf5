//! Bits of one word, by the place of the word in a store.
ghost use Rattle.std.specs.Prelude.{◌+◌, ◌<◌, ◌≤◌};

/// Bits of one word, all in range.
#[derive(Clone, Copy)]
pub struct Spot {
    /// The signal's number in design order.
    pub signal: usize,
    /// The word of it.
    pub word: usize,
    /// The number of the word, where the words of all signals are counted in design order.
    pub index: usize,
    /// The place of the lowest bit.
    pub shift: u32,
    /// How many bits there are.
    pub width: u32,
    /// The bits.
    pub mask: u64,
    pub ghost sized: { (0 < width) × (width ≤ 64) },
    pub ghost within: { shift + width ≤ 64 },
}
