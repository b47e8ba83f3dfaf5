//! The run slots of the places of a process.
ghost use Rattle.std.specs.Prelude.{ℕ, ◌≡◌, ◌↔◌, ◌⊎◌, [], IfOk, OnOk};
ghost use Rattle.std.specs.List.{Contains};
ghost use Rattle.vs_slots.specs.Kept.{IsRunIn};

use crate::listing::put_residues;
use std::alloc::{AllocError, Global};
use vs_graph::{Gathered, Rows};

/// For each place of a process, the controls before it, and the residues at which its own control can end.
#[derive(Drop)]
pub(crate) struct Runs {
    /// The controls from which a walk without further control leads to a place.
    pub(crate) before: Rows<usize>,
    /// The residues at which the control of a place can end.
    pub(crate) ends: Rows<u64>,
}

impl Runs {
    /// Those of a process without places.
    pub(crate) fn none(alloc: Global) -> Runs
        ensures before { result.before ≡ [] }
        ensures ends { result.ends ≡ [] }
    {
        Runs {
            before: Rows::none(alloc),
            ends: Rows::none(alloc),
        }
    }
}

/// Puts the run slots of a place of a process, by its number, to others; of one past the end there are none. It takes as long as the lists of the
/// controls before the place, times the logarithm of how many residues there are.
pub(crate) fn put_runs(
    out: &mut Gathered,
    runs: &[Runs],
    i: usize,
    place: usize,
) -> Result<(), AllocError>
    ensures { OnOk result ((r : ℕ) → (Contains out.new r ↔ (Contains out.old r ⊎ IsRunIn runs.now i place r))) }
{
    if i < runs.len() {
        let run = &runs[i];
        put_residues(out, &run.ends, run.before.row(place))
    } else {
        Ok(())
    }
}

/// The run slots of a place of a process, each once.
pub(crate) fn runs_at(
    alloc: Global,
    runs: &[Runs],
    i: usize,
    place: usize,
) -> Result<Vec<u64>, AllocError>
    ensures { IfOk result (λ all. (r : ℕ) → (Contains all.items r ↔ IsRunIn runs.now i place r)) }
{
    let mut all = Gathered::none(alloc);
    put_runs(&mut all, runs, i, place)?;
    Ok(all.list())
}
