//! Nonblocking updates of a slot.
ghost use Rattle.vs_design.specs.vs_logic4.specs.Planes.{ArePlanes};

use vs_process::Spot;

/// What is written to bits of one word: both planes of the digits.
#[derive(Clone, Copy)]
pub struct Bits<'a> {
    pub spot: &'a Spot,
    pub value: u64,
    pub unknown: u64,
    pub ghost fit: { ArePlanes spot.now.width value unknown },
}

/// A nonblocking update that waits in the slot (IEEE 1364-2005, clause 9.2.2).
#[derive(Clone, Copy)]
pub enum Update<'a> {
    /// One of bits of one word.
    Bits(Bits<'a>),
    /// A write of any kind, by its number among those.
    Any(usize),
    /// One that was made out of its turn.
    Gone,
}
