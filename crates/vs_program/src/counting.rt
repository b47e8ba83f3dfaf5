//! The count of orders that have been tried, on a terminal.

use std::io::Write;
use vs_sign_off::Watch;

/// Shows how many orders of a long search have been tried, where its writer is a terminal. The line is taken away at the end.
#[derive(Drop)]
pub struct Counting<E: Write + Drop> {
    err: E,
    /// Whether it shows anything.
    shows: bool,
    /// Whether a line stands there.
    stands: bool,
}

impl<E: Write + Drop> Counting<E> {
    /// Shows the count on a writer, where that is a terminal.
    pub fn new(err: E, is_terminal: bool) -> Self {
        Counting {
            err,
            shows: is_terminal,
            stands: false,
        }
    }
}

impl<E: Write + Drop> Watch for Counting<E> {
    fn tried(&mut self, tries: u64, most: u64) {
        if self.shows {
            self.stands = true;
            let _ = write!(self.err, "\r{tries} of {most} orders");
            let _ = self.err.flush();
        }
    }

    fn ended(&mut self) {
        if self.stands {
            self.stands = false;
            let _ = write!(self.err, "\r\x1b[K");
            let _ = self.err.flush();
        }
    }
}
