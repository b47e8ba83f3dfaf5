//! Where the words of signals are in the planes of a store.
ghost use Rattle.std.specs.Prelude.{◌+◌, ◌<◌, ◌≤◌, ◌^◌};

/// Where the words of one signal are: one after another.
#[derive(Clone, Copy)]
pub(crate) struct Layout {
    /// The index of the first word in the planes.
    pub first: usize,
    /// How many words the signal has.
    pub count: u32,
    /// The size of each word in bits.
    pub width: u32,
    pub ghost sized: { (0 < width) × (width ≤ 64) },
    pub ghost fits: { first + count < 2 ^ 64 },
}

/// Where one word is.
#[derive(Clone, Copy)]
pub(crate) struct Spot {
    /// The index of the word in the planes.
    pub index: usize,
    /// The size of the word in bits.
    pub width: u32,
}
