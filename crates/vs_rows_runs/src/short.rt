//! A writer that fails.

use std::alloc::Global;
use std::io::{self, ErrorKind, Write};

/// A writer that takes `left` bytes, one at a time, and after these fails, or takes none. Its first write may be interrupted, and its flush fails.
#[derive(Drop)]
pub struct Short {
    pub taken: Vec<u8>,
    left: usize,
    fails: bool,
    /// Whether the next write is interrupted.
    pub interrupted: bool,
    /// How often it was flushed.
    pub flushed: u32,
}

impl Short {
    pub fn new(alloc: Global, left: usize, fails: bool) -> Self {
        Short {
            taken: Vec::new(alloc),
            left,
            fails,
            interrupted: false,
            flushed: 0,
        }
    }
}

impl Write for Short {
    fn write(&mut self, buf: &[u8]) -> io::Result<usize> {
        let Some(byte) = buf.first() else {
            return Ok(0);
        };
        if self.interrupted {
            self.interrupted = false;
            return Err(io::Error::from(ErrorKind::Interrupted));
        }
        if self.left == 0 && self.fails {
            return Err(io::Error::from(ErrorKind::BrokenPipe));
        }
        if self.left == 0 {
            return Ok(0);
        }
        self.left -= 1;
        self.taken.push(*byte)?;
        Ok(1)
    }

    fn flush(&mut self) -> io::Result<()> {
        self.flushed = self.flushed.saturating_add(1);
        Err(io::Error::from(ErrorKind::BrokenPipe))
    }
}
