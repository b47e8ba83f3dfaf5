//! A list of residues for each of some numbers.
ghost use Rattle.std.specs.Prelude.{ℕ, ◌≡◌, ◌<◌, ◌↔◌, ◌⊎◌, length, IfOk, OnOk};
ghost use Rattle.std.specs.List.{Contains};
ghost use Rattle.vs_graph.specs.Rows.{row};
ghost use Rattle.vs_slots.specs.Lists.{IsOneOf};

use std::alloc::{AllocError, Global};
use vs_graph::{Gathered, Rows};

/// A list of residues for each number.
pub trait Listing {
    ghost has: { Self → ℕ → ℕ → Type 0 };

    /// The list of a number.
    fn list(&self, alloc: Global, i: usize) -> Result<Vec<u64>, AllocError>
        ensures { IfOk result (λ list. (r : ℕ) → (Contains list.items r ↔ has self.now i r)) };
}

/// The lists of the numbers below one.
pub fn table_of<L: Listing>(alloc: Global, listing: &L, n: usize) -> Result<Rows<u64>, AllocError>
    ensures len { IfOk result (λ table. length table ≡ n) }
    ensures exact { IfOk result (λ table. (i r : ℕ) → i < n → (Contains (row table i) r ↔ L.has listing.now i r)) }
{
    let mut table = Rows::none(alloc);
    for i in 0..n {
        let list = listing.list(alloc, i)?;
        table.push(list)?;
    }
    Ok(table)
}

/// The residues that are in the list of one of the numbers below one, each once. It takes as long as the lists, times the logarithm of how many
/// residues there are.
pub fn union_of<L: Listing>(alloc: Global, listing: &L, n: usize) -> Result<Vec<u64>, AllocError>
    ensures { IfOk result (λ all. (r : ℕ) → (Contains all.items r ↔ ((i : ℕ) × (i < n) × L.has listing.now i r))) }
{
    let mut all = Gathered::none(alloc);
    for i in 0..n {
        let list = listing.list(alloc, i)?;
        all.put(&list)?;
    }
    Ok(all.list())
}

/// Puts the residues of the lists of some numbers to others. It takes as long as the lists together are, times the logarithm of how many residues
/// there are.
pub(crate) fn put_residues(
    out: &mut Gathered,
    table: &Rows<u64>,
    numbers: &[usize],
) -> Result<(), AllocError>
    ensures { OnOk result ((r : ℕ) → (Contains out.new r ↔ (Contains out.old r ⊎ IsOneOf table.now numbers.now r))) }
{
    for i in numbers {
        out.put(table.row(*i))?;
    }
    Ok(())
}
