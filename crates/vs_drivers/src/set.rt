//! Sets of signals.
ghost use Rattle.std.specs.Prelude.{ℕ, ◌≡◌, ◌↔◌, ◌⊎◌, [], IfOk, IsTrue, OnOk};
ghost use Rattle.std.specs.List.{Contains};

use std::alloc::{AllocError, Global};
use std::collections::BTreeSet;
use std::marker::Model;

/// A set of signals, by their numbers in design order. A contract sees them as a list.
#[derive(Drop)]
pub struct SignalSet {
    all: BTreeSet<usize>,
}

impl Model for SignalSet {
    ghost use Rattle.std.specs.Prelude.{ℕ, List};

    ghost Value = { List ℕ };

    ghost view = { λ x. x.all.keys };
}

impl SignalSet {
    /// None.
    pub fn none(alloc: Global) -> SignalSet
        ensures { result ≡ [] }
    {
        SignalSet {
            all: BTreeSet::new(alloc),
        }
    }

    /// Those of a list.
    pub fn of(alloc: Global, signals: &[usize]) -> Result<SignalSet, AllocError>
        ensures { IfOk result (λ set. (v : ℕ) → (Contains set v ↔ Contains signals.now v)) }
    {
        let mut set = SignalSet::none(alloc);
        for signal in signals {
            set.put(*signal)?;
        }
        Ok(set)
    }

    /// Puts a signal to them, where it isn't there.
    pub fn put(&mut self, signal: usize) -> Result<(), AllocError>
        ensures { OnOk result ((v : ℕ) → (Contains self.new v ↔ (Contains self.old v ⊎ (v ≡ signal)))) }
    {
        self.all.insert(signal)?;
        Ok(())
    }

    /// Whether a signal is there.
    pub fn has(&self, signal: usize) -> bool
        ensures { IsTrue result ↔ Contains self.now signal }
    {
        self.all.contains(&signal)
    }
}
