//! How many words signals have.
ghost use Rattle.std.specs.Prelude.{◌<◌, ◌≤◌, ◌^◌};

use vs_design::Bounds;

/// How many words a signal has, and the range of those of an array.
#[derive(Clone, Copy)]
pub struct WordCount {
    /// The bounds of the range of its words, where it is an array.
    pub bounds: Option<Bounds>,
    /// How many words there are: one unless it is an array.
    pub count: u32,
    pub ghost counted: { (0 < count) × (count ≤ 2 ^ 16) },
}
