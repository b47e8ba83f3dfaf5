//! What the dumps and the lines of two orders show.
ghost use Rattle.std.specs.Prelude.{◌<◌, ◌^◌};

use vs_design::vs_logic4::Vec4;
use vs_race_orders::Span;

/// Two orders under which a signal has different values at a moment: the first order, in which the first enabled event is always next, and another one.
#[derive(Drop)]
pub struct Witness {
    /// The moment, in ticks. Both executions are complete to it.
    pub time: u64,
    /// The number of the signal in the design.
    pub signal: usize,
    /// Its path as it is printed.
    pub path: Vec<u8>,
    /// The value in the first order.
    pub first: Vec4,
    /// That in the other one.
    pub other: Vec4,
    /// The choices of the other order. At all others the first event is next.
    pub choices: Vec<Span>,
    pub ghost early: { time < 2 ^ 62 },
}

/// Two orders under which `$strobe` prints a row a different number of times to a moment, in a design without `$display`: the first order, in which the
/// first enabled event is always next, and another one.
#[derive(Drop)]
pub struct LineWitness {
    /// The moment, in ticks. Both executions are complete to it.
    pub time: u64,
    /// The row, without its line feed.
    pub row: Vec<u8>,
    /// How often it is printed in the first order.
    pub first: u64,
    /// How often in the other one.
    pub other: u64,
    /// The choices of the other order. At all others the first event is next.
    pub choices: Vec<Span>,
    pub ghost early: { time < 2 ^ 62 },
}
