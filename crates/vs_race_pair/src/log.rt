//! The events of a slot.

use crate::entry::{Bit, Deed, Entry, Place, Read};
use std::alloc::{AllocError, Global};
use vs_design::vs_logic4::Vec4;

/// The most events of a slot that are logged.
const ENTRIES: usize = 4096;

/// The most reads, and the most places, after which no event is logged.
const PIECES: usize = 65536;

/// The events of a slot, in their order.
#[derive(Drop)]
pub(crate) struct Log {
    pub(crate) entries: Vec<Entry>,
    pub(crate) reads: Vec<Read>,
    pub(crate) places: Vec<Place>,
    /// Whether all events of the slot are logged.
    pub(crate) whole: bool,
    /// The value at the end of the slot of the signal that differs.
    pub(crate) value: Option<Vec4>,
}

impl Log {
    /// No events.
    pub(crate) fn new(alloc: Global) -> Self {
        Log {
            entries: Vec::new(alloc),
            reads: Vec::new(alloc),
            places: Vec::new(alloc),
            whole: false,
            value: None,
        }
    }

    /// Whether no more events are logged.
    pub(crate) fn is_full(&self) -> bool {
        self.entries.len() >= ENTRIES || self.reads.len() >= PIECES || self.places.len() >= PIECES
    }

    /// The event of a number.
    pub(crate) fn entry(&self, number: usize) -> Option<Entry> {
        self.entries.get(number).copied()
    }

    /// How many events of a deed there are.
    pub(crate) fn count(&self, deed: Deed) -> usize {
        let mut count: usize = 0;
        for entry in &self.entries {
            if entry.deed == deed {
                count = count.saturating_add(1);
            }
        }
        count
    }

    /// The event of a deed before which so many of it stand.
    pub(crate) fn find(&self, deed: Deed, turn: usize) -> Option<usize> {
        for (number, entry) in self.entries.iter().enumerate() {
            if entry.deed == deed && entry.turn == turn {
                return Some(number);
            }
        }
        None
    }

    /// What an event reads.
    pub(crate) fn reads_of(&self, entry: Entry) -> &[Read] {
        self.reads
            .get(entry.reads_from..entry.reads_to)
            .unwrap_or(&[])
    }

    /// Which bits it writes, now or later.
    pub(crate) fn places_of(&self, entry: Entry) -> &[Place] {
        self.places
            .get(entry.places_from..entry.places_to)
            .unwrap_or(&[])
    }

    // Whether an event writes a bit.
    fn is_writer(&self, entry: Entry, bit: Bit) -> bool {
        entry.writes && self.places_of(entry).iter().any(|place| place.has(bit))
    }

    /// The last event before one that writes a bit.
    pub(crate) fn last_writer(&self, bit: Bit, before: usize) -> Option<usize> {
        let mut last = None;
        for (number, entry) in self.entries.iter().enumerate() {
            if number >= before {
                break;
            }
            if self.is_writer(*entry, bit) {
                last = Some(number);
            }
        }
        last
    }

    /// Puts an event behind the others, with the reads and the places that were put since the one before.
    pub(crate) fn push(&mut self, entry: Entry) -> Result<(), AllocError> {
        self.entries.push(entry)?;
        Ok(())
    }
}
