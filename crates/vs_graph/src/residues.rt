//! Lists of residues in which one is found by halves.
ghost use Rattle.std.specs.Prelude.{ℕ, ◌≡◌, ◌↔◌, IsTrue};
ghost use Rattle.std.specs.List.{Contains};

use std::marker::Model;

/// A list of residues. A contract sees the list.
#[derive(Drop)]
pub struct Residues<'a> {
    all: &'a [u64],
    // Whether none is below the one before it.
    ascends: bool,
}

impl<'a> Model for Residues<'a> {
    ghost use Rattle.std.specs.Prelude.{ℕ, List, IsTrue};
    ghost use Rattle.std.specs.List.Sorted.{IsNonDecreasing};

    ghost Value = { List ℕ };

    ghost view = { λ x. x.all.now };

    ghost invariant = { λ x. IsTrue x.ascends → IsNonDecreasing x.all.now };
}

impl<'a> Residues<'a> {
    /// Those of a list. It takes as long as the list is.
    pub fn of(all: &'a [u64]) -> Residues<'a>
        ensures { result ≡ all.entry.now }
    {
        let ascends = all.is_sorted();
        Residues { all, ascends }
    }

    /// Whether a residue is there. It takes as long as the logarithm of how many there are, where they ascend.
    pub fn has(&self, residue: u64) -> bool
        ensures { IsTrue result ↔ Contains self.now residue }
    {
        if self.ascends {
            self.all.binary_search(&residue).is_ok()
        } else {
            self.all.contains(&residue)
        }
    }
}

/// Whether no residue is in both lists. It takes as long as both are, times the logarithm of the second's length, where that one ascends.
pub fn are_apart(a: &[u64], b: &[u64]) -> bool
    ensures { IsTrue result ↔ ((r : ℕ) → Contains a.now r → Contains b.now r → ⊥) }
{
    let others = Residues::of(b);
    for residue in a {
        if others.has(*residue) {
            return false;
        }
    }
    true
}
