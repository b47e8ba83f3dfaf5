//! A sink that drops what it takes.
ghost use Rattle.std.specs.Prelude.{None};

use std::io;
use vs_vcd_writing::Sink;

/// A sink that takes every byte and keeps none.
#[derive(Clone, Copy, Debug)]
pub struct Dropped;

impl Sink for Dropped {
    ghost bytes = { λ _. None };

    ghost failed = { λ _. 0 };

    fn write(&mut self, piece: &[u8]) -> io::Result<usize> {
        Ok(piece.len())
    }

    fn failures(&self) -> u64 {
        0
    }

    fn keeps_nothing(&self) -> bool {
        true
    }
}
