//! An order in which the continuous assignments of a design without processes settle.
ghost use Rattle.std.specs.Prelude.{ℕ, ◌≡◌, ◌↔◌, [], IfOk, OnOk};
ghost use Rattle.std.specs.List.{Contains};
ghost use Rattle.vs_propose.specs.Needs.{ReadsFrom, AreNeeds, IsOrder, ArePut};
ghost use Rattle.vs_drivers.specs.Wires.{wiring};

use std::alloc::{AllocError, Global};
use vs_design::{BitRange, Design};
use vs_drivers::vs_maps::Sites;
use vs_drivers::{Cones, Written, share};
use vs_graph::sorted;

// Puts the drivers of a row that write a bit which a range has after others.
fn put_needed(
    design: &Design,
    row: &[Written],
    range: BitRange,
    needed: &mut Vec<usize>,
) -> Result<(), AllocError>
    ensures { OnOk result (ArePut design.now row.now range needed.old.items needed.new.items) }
{
    for written in row {
        if share(design, range, written.range) {
            needed.push(written.driver)?;
        }
    }
    Ok(())
}

// The continuous assignments that write a bit which one of them reads.
fn needed_by<'a>(
    alloc: Global,
    design: &Design,
    cones: &Cones<'a>,
    reader: usize,
) -> Result<Vec<usize>, AllocError>
    requires still { design.now.processes ≡ [] }
    requires cones { cones.now ≡ wiring design.now [] }
    ensures { IfOk result (λ needed. (y : ℕ) → (Contains needed.items y ↔ ReadsFrom design.now reader y)) }
{
    let ranges = cones.needs(reader);
    let mut needed = Vec::new(alloc);
    for range in ranges {
        let row = cones.writers(range.signal);
        put_needed(design, row, *range, &mut needed)?;
    }
    Ok(needed)
}

// For each continuous assignment those that write a bit which it reads.
fn needs_of<'a>(
    alloc: Global,
    design: &Design,
    cones: &Cones<'a>,
) -> Result<Vec<Vec<usize>>, AllocError>
    requires still { design.now.processes ≡ [] }
    requires cones { cones.now ≡ wiring design.now [] }
    ensures { IfOk result (λ needs. AreNeeds design.now needs.items) }
{
    let count = design.assigns().len();
    let mut needs = Vec::new(alloc);
    for x in 0..count {
        let needed = needed_by(alloc, design, cones, x)?;
        needs.push(needed)?;
    }
    Ok(needs)
}

/// The continuous assignments of a design without processes, each after those that write a bit which it reads; those that can't be ordered so are
/// left out. For each range that one reads it takes as long as there are ranges that are written of its signal.
pub(crate) fn assign_order(alloc: Global, design: &Design) -> Result<Vec<usize>, AllocError>
    requires { design.now.processes ≡ [] }
    ensures { IfOk result (λ order. IsOrder design.now order.items) }
{
    let sites = Sites::new(alloc, design, &[])?;
    let cones = Cones::new(alloc, &sites, &[])?;
    let needs = needs_of(alloc, design, &cones)?;
    let order = sorted(alloc, &needs)?;
    Ok(order)
}
