//! What is logged of an event.

use vs_design::vs_logic4::{Digit, Vec4};

/// What an event does.
#[derive(Clone, Copy, PartialEq, Eq)]
pub(crate) enum Deed {
    /// A step of a process, at the statement of this number; at none where a `repeat` goes round.
    Step(usize, Option<u32>),
    /// The evaluation of a continuous assignment.
    Evaluate(usize),
    /// Its update.
    Propagate(usize),
    /// The nonblocking update of a statement of a process.
    Update(usize, Option<u32>),
    /// One whose statement was executed in an earlier slot.
    Late,
}

/// An event of a slot.
#[derive(Clone, Copy)]
pub(crate) struct Entry {
    pub(crate) deed: Deed,
    /// How many events of the same deed came before it in the slot.
    pub(crate) turn: usize,
    /// The event of the slot that made it active.
    pub(crate) cause: Option<usize>,
    /// Whether that woke a process at an event control.
    pub(crate) woken: bool,
    /// Of a step, the one before it of its process in the slot.
    pub(crate) before: Option<usize>,
    /// Whether it writes its places now.
    pub(crate) writes: bool,
    /// Where its reads begin and end among all.
    pub(crate) reads_from: usize,
    pub(crate) reads_to: usize,
    /// Where its places begin and end among all.
    pub(crate) places_from: usize,
    pub(crate) places_to: usize,
}

/// Bits that an event reads, with the value of their word then.
#[derive(Clone, Copy)]
pub(crate) struct Read {
    pub(crate) signal: usize,
    pub(crate) word: usize,
    pub(crate) low: u32,
    pub(crate) width: u32,
    pub(crate) value: Vec4,
}

/// Bits that an event writes.
#[derive(Clone, Copy)]
pub(crate) struct Place {
    pub(crate) signal: usize,
    pub(crate) word: usize,
    pub(crate) low: i64,
    pub(crate) width: u32,
}

/// One bit of a word.
#[derive(Clone, Copy)]
pub(crate) struct Bit {
    pub(crate) signal: usize,
    pub(crate) word: usize,
    pub(crate) place: u32,
}

impl Place {
    /// Whether it has a bit.
    pub(crate) fn has(self, bit: Bit) -> bool {
        if self.signal != bit.signal || self.word != bit.word {
            return false;
        }
        let distance = i64::from(bit.place).saturating_sub(self.low);
        distance >= 0 && distance < i64::from(self.width)
    }
}

/// The digit of a word at a place, where it has one.
pub(crate) fn digit_at(value: Vec4, place: u32) -> Option<Digit> {
    if place < value.width() {
        return Some(value.digit(place));
    }
    None
}

/// The lowest place, of so many from one on, at which two words differ.
pub(crate) fn differing_place(one: Vec4, other: Vec4, low: u32, width: u32) -> Option<u32> {
    for step in 0..width {
        let place = low.saturating_add(step);
        if digit_at(one, place) != digit_at(other, place) {
            return Some(place);
        }
    }
    None
}
