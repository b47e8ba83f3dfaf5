//! The union of some lists of residues.
ghost use Rattle.std.specs.Prelude.{ℕ, ◌≡◌, ◌↔◌, ◌⊎◌, [], OnOk};
ghost use Rattle.std.specs.List.{Contains};
ghost use Rattle.std.specs.List.Sorted.{IsStrictlyIncreasing};

use std::alloc::{AllocError, Global};
use std::marker::Model;

// So many residues aren't put in order before more of them come.
const FEW: usize = 1024;

/// Residues that are gathered. A contract sees them as a list, in which one can stand several times.
#[derive(Drop)]
pub struct Gathered {
    all: Vec<u64>,
    // How many are kept before they are put in order.
    limit: usize,
}

impl Model for Gathered {
    ghost use Rattle.std.specs.Prelude.{ℕ, List};

    ghost Value = { List ℕ };

    ghost view = { λ x. x.all.items };
}

// Puts residues in ascending order, each once.
fn settle(all: &mut Vec<u64>)
    ensures rise { IsStrictlyIncreasing all.new.items }
    ensures same { (r : ℕ) → (Contains all.new.items r ↔ Contains all.old.items r) }
{
    all.sort_unstable();
    all.dedup();
}

impl Gathered {
    /// None.
    pub fn none(alloc: Global) -> Gathered
        ensures { result ≡ [] }
    {
        Gathered {
            all: Vec::new(alloc),
            limit: FEW,
        }
    }

    /// Puts those of a list to them. Of any that come, at most as many are kept again as there are different ones, and few more.
    pub fn put(&mut self, more: &[u64]) -> Result<(), AllocError>
        ensures { OnOk result ((r : ℕ) → (Contains self.new r ↔ (Contains self.old r ⊎ Contains more.now r))) }
    {
        self.all.extend_from_slice(more)?;
        if self.all.len() > self.limit {
            settle(&mut self.all);
            self.limit = self.all.len().saturating_mul(2).max(FEW);
        }
        Ok(())
    }

    /// All of them in ascending order, each once.
    pub fn list(self) -> Vec<u64>
        ensures rise { IsStrictlyIncreasing result.items }
        ensures exact { (r : ℕ) → (Contains result.items r ↔ Contains self r) }
    {
        let mut all = self.all;
        settle(&mut all);
        all
    }
}
