//! Room to compare the words that were written last with those of a store.
ghost use Rattle.std.specs.Prelude.{◌≡◌, ℕ, ◌<◌, ◌≤◌, IfOk, Some, length, slice_get};
ghost use Rattle.vs_vcd_writing.specs.Values.{shown_value};
ghost use Rattle.vs_vcd_writing.specs.Rooms.{IsRoom, is_same};

use crate::planes::Planes;
use std::alloc::{AllocError, Global};
use vs_design::Store;
use vs_design::vs_logic4::Vec4;

/// The words that a store shows, and of each for each plane a flag: 0 where the plane is the one that was written last.
#[derive(Drop)]
pub(crate) struct LineRoom {
    pub words: Planes,
    pub widths: Vec<u8>,
    pub values: Vec<u8>,
    pub unknowns: Vec<u8>,
}

/// The value that a store shows of a signal.
pub(crate) fn shown(store: &Store, signal: usize) -> Vec4
    ensures { result ≡ shown_value store.now signal }
{
    match store.word(signal, 0) {
        Some(value) => value,
        None => Vec4::unknown(1),
    }
}

/// Takes the words that a store shows of the signals from one number on, below another.
pub(crate) fn gather(now: &mut Planes, store: &Store, from: usize, to: usize)
    requires order { from ≤ to }
    requires within { to ≤ length now.old }
    ensures long { length now.new ≡ length now.old }
    ensures words { (k : ℕ) → from ≤ k → k < to → slice_get now.new k ≡ Some (shown_value store.now k) }
{
    for signal in from..to {
        now.set(signal, shown(store, signal));
    }
}

impl LineRoom {
    /// Room for so many signals.
    pub fn new(alloc: Global, count: usize) -> Result<Self, AllocError>
        ensures { IfOk result (λ r. IsRoom r count) }
    {
        Ok(LineRoom {
            words: Planes::unknown(alloc, count)?,
            widths: vec![in alloc; 0; count]?,
            values: vec![in alloc; 0; count]?,
            unknowns: vec![in alloc; 0; count]?,
        })
    }

    /// Whether no flag of a signal is set.
    pub fn is_same(&self, signal: usize) -> bool
        requires within { signal < length self.now.words }
        requires room { IsRoom self.now (length self.now.words) }
        ensures { result ≡ is_same self.now signal }
    {
        self.widths[signal] == 0 && self.values[signal] == 0 && self.unknowns[signal] == 0
    }
}
