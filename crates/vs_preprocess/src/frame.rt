//! A file that is being read.
ghost use Rattle.std.specs.Prelude.{◌≤◌, length};

use crate::conditionals::Conditionals;
use crate::places::line_feeds;
use std::alloc::Global;
use vs_prep_macros::Spot;

/// A file that is being read.
#[derive(Drop)]
pub(crate) struct Frame<'b> {
    /// Its number.
    pub(crate) file: usize,
    pub(crate) bytes: &'b [u8],
    pub(crate) conditionals: Conditionals,
    // Up to which byte lines have been counted, and the line there, from 1.
    counted: usize,
    line: usize,
}

impl<'b> Frame<'b> {
    /// A file of a number at its beginning.
    pub(crate) fn new(alloc: Global, file: usize, bytes: &'b [u8]) -> Frame<'b> {
        Frame {
            file,
            bytes,
            conditionals: Conditionals::new(alloc),
            counted: 0,
            line: 1,
        }
    }

    /// The place from which so many bytes are left.
    pub(crate) fn place(&self, left: usize) -> usize {
        self.bytes.len().saturating_sub(left)
    }

    /// The spot from which so many bytes are left.
    pub(crate) fn spot(&self, left: usize) -> Spot {
        Spot {
            file: self.file,
            place: self.place(left),
        }
    }

    /// The line of a place, from 1. Places don't fall from one call to the next, and so all calls together are linear in the file.
    pub(crate) fn line(&mut self, place: usize) -> usize {
        if let Some(passed) = self.bytes.get(self.counted..place) {
            self.line = self.line.saturating_add(line_feeds(passed));
            self.counted = place;
        }
        self.line
    }
}
