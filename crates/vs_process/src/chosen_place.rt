//! Places of assignments that indices choose.
ghost use Rattle.std.specs.Prelude.{◌≡◌, ◌<◌, ◌≤◌, length};

use vs_design::Axis;
use vs_eval::Resolved;

/// What an index chooses of the words of a signal or of the bits of a word: the number of the lowest element.
#[derive(Drop)]
pub enum Index<'a> {
    /// Always this one.
    Constant(i64),
    /// The one of its value.
    Variable(Axis, Resolved<'a>),
}

/// A place of an assignment that indices choose: bits of a word.
#[derive(Drop)]
pub struct ChosenPlace<'a> {
    /// The signal's number in design order.
    pub signal: usize,
    /// How many bits there are.
    pub width: u32,
    /// What chooses the word of the signal, and what chooses the place of the lowest bit in the word: a list, which can stand at a shorter
    /// lifetime than it was made at.
    pub indices: Vec<Index<'a>>,
    pub ghost sized: { (0 < width) × (width ≤ 64) },
    pub ghost two: { length indices.items ≡ 2 },
}
