//! The numbers of what is next, in their order.

use std::alloc::{AllocError, Global};

/// A queue of numbers. Those that have left keep their room until the queue is empty, or no room is left.
#[derive(Drop)]
pub struct Queue {
    items: Vec<usize>,
    head: usize,
    /// Of each continuous assignment whether it is silent: in a wave of updates nothing sees it.
    silent: Vec<bool>,
    /// Whether a wave of updates runs: from where they are activated to the next move of a region.
    in_wave: bool,
}

impl Queue {
    /// An empty one; of each continuous assignment it is told whether it is silent.
    pub fn new(alloc: Global, silent: Vec<bool>) -> Self {
        Queue {
            items: Vec::new(alloc),
            head: 0,
            silent,
            in_wave: false,
        }
    }

    /// Whether nothing is in it.
    #[inline(always)]
    pub fn is_empty(&self) -> bool {
        self.items.len() <= self.head
    }

    /// How many numbers are in it.
    #[inline(always)]
    pub fn len(&self) -> usize {
        self.items.len().saturating_sub(self.head)
    }

    /// Whether a continuous assignment is silent, in a wave of updates.
    #[inline(always)]
    fn is_unseen(&self, assign: usize) -> bool {
        self.in_wave && matches!(self.silent.get(assign), Some(true))
    }

    /// Whether the update of a continuous assignment may be made with its evaluation: it would be next, or nothing sees it before the wave is over.
    #[inline(always)]
    pub fn may_follow(&self, assign: usize) -> bool {
        self.is_empty() || self.is_unseen(assign)
    }

    /// A wave of updates runs from now on, or none.
    #[inline(always)]
    pub fn set_wave(&mut self, in_wave: bool) {
        self.in_wave = in_wave;
    }

    /// Puts a number at the end.
    #[inline(always)]
    pub fn push(&mut self, number: usize) -> Result<(), AllocError> {
        if self.items.len() == self.items.capacity() {
            self.make_room()?;
        }
        self.items.push(number)?;
        Ok(())
    }

    /// Makes room for one more: where more than half of the room is that of numbers which have left, by moving the others to the front.
    #[inline(never)]
    fn make_room(&mut self) -> Result<(), AllocError> {
        if self.head <= self.items.len() / 2 {
            self.items.reserve(1)?;
            return Ok(());
        }
        let left = self.len();
        for i in 0..left {
            let from = self.head.saturating_add(i);
            if let Some(number) = self.items.get(from) {
                let number = *number;
                if let Some(room) = self.items.get_mut(i) {
                    *room = number;
                }
            }
        }
        self.items.truncate(left);
        self.head = 0;
        Ok(())
    }

    /// Takes the first one.
    #[inline(always)]
    pub fn pop(&mut self) -> Option<usize> {
        let number = *self.items.get(self.head)?;
        self.head = self.head.wrapping_add(1);
        if self.head == self.items.len() {
            self.items.clear();
            self.head = 0;
        }
        Some(number)
    }

    /// Puts those after the first so many into order.
    #[inline(always)]
    pub fn sort_from(&mut self, from: usize) {
        let at = self.head.saturating_add(from);
        if at.saturating_add(1) < self.items.len() {
            self.items[at..].sort_unstable();
        }
    }
}
