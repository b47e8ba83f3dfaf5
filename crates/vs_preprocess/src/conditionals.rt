//! Conditionals (IEEE 1364-2005, clause 19.4).

use std::alloc::{AllocError, Global};
use vs_prep_macros::Fault;

/// A conditional that is open.
#[derive(Clone, Copy)]
struct Conditional {
    /// Where it begins.
    place: usize,
    /// Whether the text around it is live.
    is_around_live: bool,
    /// Whether one of its branches has been taken.
    is_taken: bool,
    /// Whether its `else` has been.
    is_behind_else: bool,
}

/// The conditionals that are open in a file, the innermost last, and whether the text between them is live.
#[derive(Drop)]
pub(crate) struct Conditionals {
    open: Vec<Conditional>,
    is_live: bool,
}

impl Conditionals {
    /// None are open.
    pub(crate) fn new(alloc: Global) -> Conditionals {
        Conditionals {
            open: Vec::new(alloc),
            is_live: true,
        }
    }

    /// Whether the text is live here.
    pub(crate) fn is_live(&self) -> bool {
        self.is_live
    }

    /// Opens a conditional at a place.
    pub(crate) fn open(&mut self, place: usize, holds: bool) -> Result<(), AllocError> {
        let is_around_live = self.is_live;
        let is_taken = is_around_live && holds;
        self.open.push(Conditional {
            place,
            is_around_live,
            is_taken,
            is_behind_else: false,
        })?;
        self.is_live = is_taken;
        Ok(())
    }

    /// Goes over to the next branch, whose condition holds or not; `is_else`: it is the last one.
    pub(crate) fn turn(&mut self, holds: bool, is_else: bool) -> Result<(), Fault> {
        let Some(last) = self.open.last_mut() else {
            return Err(Fault::NotOpen);
        };
        if last.is_behind_else {
            return Err(Fault::BehindElse);
        }
        let is_live = last.is_around_live && !last.is_taken && holds;
        last.is_taken = last.is_taken || is_live;
        last.is_behind_else = is_else;
        self.is_live = is_live;
        Ok(())
    }

    /// Closes the innermost conditional.
    pub(crate) fn close(&mut self) -> Result<(), Fault> {
        match self.open.pop() {
            Some(last) => {
                self.is_live = last.is_around_live;
                Ok(())
            }
            None => Err(Fault::NotOpen),
        }
    }

    /// Where the innermost conditional begins, if one is open.
    pub(crate) fn begin_of_open(&self) -> Option<usize> {
        Some(self.open.last()?.place)
    }
}
