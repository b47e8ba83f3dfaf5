// One rotation of the calendar: 256 slots, and which of them are busy.
ghost use Rattle.std.specs.Prelude.{◌≡◌, ◌≢◌, ℕ, ◌+◌, ◌%◌, ◌<◌, List, [], ◌∷◌, ◌++◌, drop, slice_set, length, MatchOption, IfErr, IfOk, OnOk, OnErr};
ghost use Rattle.vs_time_wheel.specs.Rotation.{slot_at, AllFree, first_of, IsFlagged};

use crate::busy::{Flags, SLOTS, clear_flag, next_flag, set_flag};
use crate::pool::{Chain, Pool};
use crate::timing::{Full, Memory};
use std::alloc::Global;
use std::marker::Model;
use std::mem;

/// The events of 256 slots.
#[derive(Drop)]
pub struct Rotation<E> {
    slots: Vec<Chain<E>>,
    flags: Flags,
}

impl<E> Model for Rotation<E> {
    ghost Value = { List (List E) };

    ghost view = { λ t. t.slots.items };

    ghost invariant = { λ t. IsFlagged t.slots.items t.flags };
}

impl<E> Rotation<E> {
    /// 256 free slots.
    pub fn new(alloc: Global) -> Result<Self, Memory>
    where
        E: Drop,
        ensures { IfOk result AllFree }
    {
        let mut slots = Vec::new(alloc);
        for _ in 0..SLOTS {
            if let Err(_) = slots.push(Chain::new()) {
                return Err(Memory);
            }
        }
        Ok(Rotation {
            slots,
            flags: [0; 4],
        })
    }

    /// Adds an event to a slot, behind the others. It is refused only where memory ran out.
    pub fn push(&mut self, pool: &mut Pool<E>, slot: usize, event: E) -> Result<(), Full<E>>
        requires { slot < 256 }
        ensures added { OnOk result (self.new ≡ slice_set self.old slot (slot_at self.old slot ++ event ∷ [])) }
        ensures handed_back { IfErr result (λ full. full.event ≡ event) }
        ensures unchanged { OnErr result (self.new ≡ self.old) }
    {
        let chain = &mut self.slots[slot];
        pool.push(chain, event)?;
        set_flag(&mut self.flags, slot);
        Ok(())
    }

    /// Takes the first event of a slot. It takes no memory.
    pub fn pop(&mut self, pool: &mut Pool<E>, slot: usize) -> Option<E>
        requires { slot < 256 }
        ensures first { result ≡ first_of (slot_at self.old slot) }
        ensures rest { self.new ≡ slice_set self.old slot (drop 1 (slot_at self.old slot)) }
    {
        let chain = &mut self.slots[slot];
        let event = pool.pop(chain);
        if chain.is_empty() {
            clear_flag(&mut self.flags, slot);
        }
        event
    }

    /// Fills a free slot. It takes no memory.
    pub fn put(&mut self, slot: usize, chain: Chain<E>)
    where
        E: Drop,
        requires within { slot < 256 }
        requires some { chain ≢ [] }
        ensures { self.new ≡ slice_set self.old slot chain }
    {
        self.slots[slot] = chain;
        set_flag(&mut self.flags, slot);
    }

    /// How far behind the slot `from`, going round, the next busy slot is. It takes no memory.
    pub fn next(&self, from: usize) -> Option<usize>
        requires { from < 256 }
        ensures { MatchOption result ((k : ℕ) → k < 256 → slot_at self.now ((from + k) % 256) ≡ [])
            (λ found. (found < 256) × (slot_at self.now ((from + found) % 256) ≢ [])
            × ((k : ℕ) → k < found → slot_at self.now ((from + k) % 256) ≡ [])) }
    {
        next_flag(&self.flags, from)
    }
}
