// What a queue holds, and what it answers where memory ran out.
use std::error::Error;
use std::fmt;

/// An event and the time at which it is due, in ticks.
#[derive(Clone, Copy, PartialEq, Eq, Drop)]
pub struct Timed<E> {
    /// When the event is due, in ticks.
    pub time: u64,
    /// The event.
    pub event: E,
}

/// An event that found no room: a growth was refused, and the queue is as it was.
#[derive(Clone, Copy, PartialEq, Eq, Drop)]
pub struct Full<E> {
    /// The event, handed back.
    pub event: E,
}

/// A growth was refused.
#[derive(Clone, Copy, Debug, PartialEq, Eq)]
pub struct Memory;

impl fmt::Display for Memory {
    ghost use Rattle.std.specs.Prelude.{Some, codes};

    ghost output = { λ _. Some (codes "out of memory") };

    fn fmt<W: fmt::Write>(&self, f: &mut fmt::Formatter<W>) -> fmt::Result {
        f.write_str("out of memory")
    }
}

impl Error for Memory {}
