//! Writes: what an assignment does to a store.
ghost use Rattle.std.specs.Prelude.{◌≡◌, ◌∷◌, ◌++◌, [], OnOk};
ghost use Rattle.vs_design.specs.Writes.{names, shares};

use std::alloc::{AllocError, Global};
use std::marker::Model;
use vs_logic4::Vec4;

/// One part of a write: digits for a word of a signal.
#[derive(Clone, Copy)]
pub struct Part {
    /// The signal's number in design order.
    pub signal: usize,
    /// The word of it.
    pub word: usize,
    /// The place in the word of the lowest digit. It may be out of range, and so may any other digit; such digits are dropped
    /// (IEEE 1364-2005, clause 5.2.1).
    pub low: i64,
    /// The digits, the lowest first.
    pub digits: Vec4,
}

impl Default for Part {
    /// One unknown digit for the lowest place of the first word of the first signal.
    fn default() -> Self {
        Part {
            signal: 0,
            word: 0,
            low: 0,
            digits: Vec4::unknown(1),
        }
    }
}

/// The parts of a write: one, which takes no memory, or a list.
#[derive(Drop)]
enum PartList {
    One([Part; 1]),
    Many(Vec<Part>),
}

/// One assignment's write, evaluated. A contract sees the list of its parts, of which the lowest is the first. One part takes no memory.
#[derive(Drop)]
pub struct Write {
    parts: PartList,
    alloc: Global,
}

impl Model for Write {
    ghost use Rattle.vs_design.specs.Writes.{Write, parts_of};

    ghost Value = { Write };

    ghost view = { λ w. parts_of w.parts };
}

impl Write {
    /// A write without a part.
    pub fn new(alloc: Global) -> Self
        ensures { result ≡ [] }
    {
        Write {
            parts: PartList::Many(Vec::new(alloc)),
            alloc,
        }
    }

    /// A write of one part. It takes no memory.
    #[inline(always)]
    pub fn one(alloc: Global, part: Part) -> Self
        ensures { result ≡ part ∷ [] }
    {
        Write {
            parts: PartList::One([part]),
            alloc,
        }
    }

    /// Adds a part above the others.
    #[inline(always)]
    pub fn push(&mut self, part: Part) -> Result<(), AllocError>
        ensures { OnOk result (self.new ≡ self.old ++ part ∷ []) }
    {
        match &mut self.parts {
            PartList::One(one) => {
                let first = one[0];
                let mut list = Vec::new(self.alloc);
                list.push(first)?;
                list.push(part)?;
                self.parts = PartList::Many(list);
                Ok(())
            }
            PartList::Many(list) => {
                list.push(part)?;
                Ok(())
            }
        }
    }

    /// Its parts, the lowest first.
    pub fn parts(&self) -> &[Part]
        ensures { result.now ≡ self.now }
    {
        match &self.parts {
            PartList::One(part) => part,
            PartList::Many(list) => list,
        }
    }

    /// Whether a part of it names a signal, be its digits in range or not.
    pub fn names(&self, signal: usize) -> bool
        ensures { result ≡ names self.now signal }
    {
        self.parts().iter().any(|part| part.signal == signal)
    }

    /// Whether it names a signal that another write names.
    pub fn shares(&self, other: &Write) -> bool
        ensures { result ≡ shares self.now other.now }
    {
        self.parts().iter().any(|part| other.names(part.signal))
    }
}
