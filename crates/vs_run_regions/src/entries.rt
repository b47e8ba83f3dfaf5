//! The entries of the list of enabled events: they leave at either end, and enter at the last one.

use crate::event::Event;
use std::alloc::AllocError;

/// An event in the list.
#[derive(Clone, Copy)]
pub(crate) struct AgendaEntry {
    /// None where it has left the list from within.
    pub(crate) event: Option<Event>,
    /// Whether it is an update that waits for an older one which names one of its signals.
    pub(crate) hidden: bool,
}

/// Entries in the order in which they came. Those that have left at the front keep their room until the list is empty, or no room is left.
#[derive(Drop)]
pub(crate) struct Entries {
    pub(crate) items: Vec<AgendaEntry>,
    /// How many have left at the front.
    pub(crate) from: usize,
}

impl Entries {
    /// How many there are.
    #[inline(always)]
    pub(crate) fn len(&self) -> usize {
        self.items.len().saturating_sub(self.from)
    }

    /// The entry at an index.
    #[inline(always)]
    pub(crate) fn get(&self, index: usize) -> Option<&AgendaEntry> {
        self.items.get(self.from.wrapping_add(index))
    }

    /// The entry at an index, to be changed.
    #[inline(always)]
    pub(crate) fn get_mut(&mut self, index: usize) -> Option<&mut AgendaEntry> {
        self.items.get_mut(self.from.wrapping_add(index))
    }

    /// Puts one at the end.
    #[inline(always)]
    pub(crate) fn push_back(&mut self, entry: AgendaEntry) -> Result<(), AllocError> {
        if self.items.len() == self.items.capacity() {
            self.make_room()?;
        }
        self.items.push(entry)?;
        Ok(())
    }

    /// Makes room for one more: where more than half of the room is that of entries which have left, by moving the others to the front.
    fn make_room(&mut self) -> Result<(), AllocError> {
        if self.from > self.items.len() / 2 {
            for index in self.from..self.items.len() {
                self.move_back(index);
            }
            let left = self.len();
            self.items.truncate(left);
            self.from = 0;
        }
        self.items.reserve(1)?;
        Ok(())
    }

    /// Moves an entry by as many places to the front as entries have left there.
    fn move_back(&mut self, index: usize) {
        let Some(entry) = self.items.get(index) else {
            return;
        };
        let entry = *entry;
        if let Some(place) = self.items.get_mut(index.wrapping_sub(self.from)) {
            *place = entry;
        }
    }

    /// Takes the first one away.
    #[inline(always)]
    pub(crate) fn pop_front(&mut self) -> bool {
        if self.from >= self.items.len() {
            return false;
        }
        self.from += 1;
        if self.from == self.items.len() {
            self.items.clear();
            self.from = 0;
        }
        true
    }
}
