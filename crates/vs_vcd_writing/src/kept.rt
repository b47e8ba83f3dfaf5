//! What the writer keeps of each signal.
ghost use Rattle.std.specs.Prelude.{◌≡◌, ◌<◌, ◌≤◌, IfOk, Some, length, slice_get};
ghost use Rattle.std.specs.List.{All};
ghost use Rattle.vs_vcd_writing.specs.Kept.{codes_of, kept_after};
ghost use Rattle.vs_vcd_writing.specs.Rooms.{IsRoom, AreCompared};

use crate::planes::Planes;
use crate::room::{LineRoom, gather};
use std::alloc::{AllocError, Global};
use std::marker::Model;
use vs_design::Store;
use vs_design::vs_logic4::Vec4;

/// Of a signal the number of its code, where it has one, and the value that was written last.
#[derive(Clone, Copy)]
pub(crate) struct Kept {
    pub code: Option<usize>,
    pub value: Vec4,
}

/// A value to write: the signal, the number of its code, and the value.
#[derive(Clone, Copy)]
pub(crate) struct DumpChange {
    pub signal: usize,
    pub number: usize,
    pub value: Vec4,
}

/// What is kept of each signal: the numbers of the codes, and the values in flat planes.
#[derive(Drop)]
pub(crate) struct Written {
    codes: Vec<Option<usize>>,
    words: Planes,
}

impl Model for Written {
    ghost use Rattle.std.specs.Prelude.{◌≡◌, List, length};
    ghost use Rattle.vs_vcd_writing.specs.declared.kept.Kept.{Kept};
    ghost use Rattle.vs_vcd_writing.specs.Words.{kept_of};

    ghost Value = { List Kept };

    ghost view = { λ w. kept_of w.codes.items w.words };

    ghost invariant = { λ w. length w.words ≡ length w.codes.items };
}

impl Written {
    /// What is kept before the first slot. The table has of each signal the number of its code.
    pub fn new(alloc: Global, table: Vec<Option<usize>>) -> Result<Self, AllocError>
        ensures { IfOk result (λ kept. codes_of kept ≡ table.items) }
    {
        let words = Planes::unknown(alloc, table.len())?;
        Ok(Written {
            codes: table,
            words,
        })
    }

    /// How many signals there are.
    pub fn len(&self) -> usize
        ensures { result ≡ length self.now }
    {
        self.codes.len()
    }

    /// What is kept of a signal.
    pub fn at(&self, signal: usize) -> Kept
        requires { signal < length self.now }
        ensures { slice_get self.now signal ≡ Some result }
    {
        Kept {
            code: self.codes[signal],
            value: self.words.word(signal),
        }
    }

    /// Compares the values of the signals from one number on, below another, with those that a store shows.
    pub fn compare(&self, room: &mut LineRoom, store: &Store, from: usize, to: usize)
        requires order { from ≤ to }
        requires within { to ≤ length self.now }
        requires room { IsRoom room.old (length self.now) }
        ensures room { IsRoom room.new (length self.now) }
        ensures compared { AreCompared room.new self.now store.now from to }
    {
        gather(&mut room.words, store, from, to);
        self.words.compare(
            &room.words,
            &mut room.widths,
            &mut room.values,
            &mut room.unknowns,
            from,
            to,
        );
    }

    /// Keeps the values of changes. It looks at these alone.
    pub fn keep(&mut self, changes: &[DumpChange])
        requires { All (λ c. c.signal < length self.old) changes.now }
        ensures { self.new ≡ kept_after self.old changes.now }
    {
        for change in changes {
            self.words.set(change.signal, change.value);
        }
    }
}
