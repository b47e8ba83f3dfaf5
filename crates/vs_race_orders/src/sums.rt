//! Sums of the lines of `$strobe` that runs print.
ghost use Rattle.std.specs.Prelude.{None};

use std::alloc::{AllocError, Global};
use std::io;
use vs_vcd_writing::Sink;

/// What the sum of a line begins with.
const BEGIN: u64 = 0xcbf2_9ce4_8422_2325;

/// The sum of all lines to the end of a slot.
#[derive(Clone, Copy)]
pub(crate) struct SumAt {
    /// The time of the slot, in ticks.
    pub(crate) time: u64,
    pub(crate) sum: u64,
}

/// A sink that keeps no line, but a sum of all: that of the same lines in another order is the same.
#[derive(Clone, Copy)]
pub(crate) struct LineSum {
    /// Whether lines count.
    counts: bool,
    /// The sum of the whole lines.
    sum: u64,
    /// That of the bytes of the line that isn't whole.
    line: u64,
}

impl LineSum {
    /// Before any line.
    pub(crate) fn new(counts: bool) -> Self {
        LineSum {
            counts,
            sum: 0,
            line: BEGIN,
        }
    }

    /// The sum of the lines.
    pub(crate) fn sum(&self) -> u64 {
        self.sum
    }

    // Takes a byte of a line.
    fn take(&mut self, byte: u8) {
        self.line = (self.line ^ byte as u64).wrapping_mul(0x100_0000_01b3);
        if byte == b'\n' {
            let mixed = (self.line ^ (self.line >> 29)).wrapping_mul(0xbf58_476d_1ce4_e5b9);
            self.sum = self.sum.wrapping_add(mixed ^ (mixed >> 32));
            self.line = BEGIN;
        }
    }
}

impl Sink for LineSum {
    ghost bytes = { λ _. None };

    ghost failed = { λ _. 0 };

    fn write(&mut self, piece: &[u8]) -> io::Result<usize> {
        if self.counts {
            for byte in piece {
                self.take(*byte);
            }
        }
        Ok(piece.len())
    }

    fn failures(&self) -> u64 {
        0
    }
}

/// The sums of the slots of a run, one for each slot that printed lines.
#[derive(Drop)]
pub(crate) struct Sums {
    sums: Vec<SumAt>,
    /// The time of the last slot that ended, in ticks.
    last: u64,
}

impl Sums {
    /// Of no slot.
    pub(crate) fn new(alloc: Global) -> Self {
        Sums {
            sums: Vec::new(alloc),
            last: 0,
        }
    }

    /// A slot ended, and the sum of all lines to its end is this.
    pub(crate) fn put(&mut self, time: u64, sum: u64) -> Result<(), AllocError> {
        self.last = time;
        let before = match self.sums.last() {
            Some(at) => at.sum,
            None => 0,
        };
        if sum != before {
            self.sums.push(SumAt { time, sum })?;
        }
        Ok(())
    }
}

/// The sums of a run, as they are met by another one.
#[derive(Clone, Copy)]
pub(crate) struct Meeting<'s> {
    sums: &'s Sums,
    /// How many of them were met.
    met: usize,
    /// The last one of these.
    sum: u64,
}

impl<'s> Meeting<'s> {
    /// Before any slot.
    pub(crate) fn new(sums: &'s Sums) -> Self {
        Meeting {
            sums,
            met: 0,
            sum: 0,
        }
    }

    // Goes on to a time.
    fn go_to(&mut self, time: u64) {
        let all = &self.sums.sums;
        for place in self.met..all.len() {
            let at = all[place];
            if at.time > time {
                return;
            }
            self.met = place.saturating_add(1);
            self.sum = at.sum;
        }
    }

    /// Whether the lines to the end of the slot at a time, which have this sum, differ from those of the other run, where that one came so far.
    pub(crate) fn differs(&mut self, time: u64, sum: u64) -> bool {
        if time > self.sums.last {
            return false;
        }
        self.go_to(time);
        self.sum != sum
    }

    /// Whether all lines, which have this sum, differ from all those of the other run.
    pub(crate) fn differs_at_end(&mut self, sum: u64) -> bool {
        self.go_to(u64::MAX);
        self.sum != sum
    }
}
