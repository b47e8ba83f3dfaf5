//! The rule K4 of a driver, on the facts of a certificate.
ghost use Rattle.std.specs.Prelude.{◌↔◌, IfOk, IsTrue};
ghost use Rattle.vs_drivers.specs.vs_rules.specs.Drivers.{assign, block};
ghost use Rattle.vs_drivers.specs.vs_rules.specs.Rules.{K4};
ghost use Rattle.vs_drivers.specs.Wires.{driver_at, IsWiringOf};
ghost use Rattle.vs_rules_of_signals.specs.Order.{KeepsReads};

use crate::order::keeps_range;
use std::alloc::{AllocError, Global};
use vs_claims::Facts;
use vs_design::{BitRange, reads};
use vs_drivers::vs_maps::text_reads;
use vs_drivers::{Cones, distinct};

// Whether a driver, by its number, keeps the rule K4 where it reads these ranges.
fn keeps_reads<'a>(
    alloc: Global,
    facts: &Facts,
    cones: &Cones<'a>,
    reader: usize,
    read: &[BitRange],
) -> Result<bool, AllocError>
    requires { IsWiringOf facts.now.design facts.now.claims cones.now }
    ensures { IfOk result (λ b. (IsTrue b ↔
        KeepsReads facts.entry.now.design facts.entry.now.claims (driver_at facts.entry.now.design reader) read.now)) }
{
    for range in read {
        let row = cones.writers(range.signal);
        let is_source = cones.is_source(range.signal);
        if !keeps_range(alloc, facts, row, is_source, reader, *range)? {
            return Ok(false);
        }
    }
    Ok(true)
}

// The same, each range once.
fn keeps_once<'a>(
    alloc: Global,
    facts: &Facts,
    cones: &Cones<'a>,
    reader: usize,
    read: Vec<BitRange>,
) -> Result<bool, AllocError>
    requires { IsWiringOf facts.now.design facts.now.claims cones.now }
    ensures { IfOk result (λ b. (IsTrue b ↔
        KeepsReads facts.entry.now.design facts.entry.now.claims (driver_at facts.entry.now.design reader) read.items)) }
{
    let once = distinct(read);
    keeps_reads(alloc, facts, cones, reader, &once)
}

/// Whether a continuous assignment keeps the rule K4, by what drivers write: each range that it reads is of a net or of a source, or drivers write
/// each bit of it; and the drivers that write a bit of it stand before it in the order. For each range that it reads, once, it takes as long as there
/// are ranges that drivers write of its signal.
pub fn keeps_assign_order<'a>(
    alloc: Global,
    facts: &Facts,
    cones: &Cones<'a>,
    j: usize,
) -> Result<bool, AllocError>
    requires { IsWiringOf facts.now.design facts.now.claims cones.now }
    ensures exact { IfOk result (λ b. (IsTrue b ↔ K4 facts.entry.now.design facts.entry.now.claims (assign j))) }
{
    let assigns = facts.design().assigns();
    if j >= assigns.len() {
        return Ok(true);
    }
    let read = reads(alloc, &assigns[j].source)?;
    let keeps = keeps_once(alloc, facts, cones, j, read)?;
    Ok(keeps)
}

/// Whether a process keeps the rule K4, as a combinational block: the same of what its text reads, where what it writes itself counts as before it.
pub fn keeps_process_order<'a>(
    alloc: Global,
    facts: &Facts,
    cones: &Cones<'a>,
    i: usize,
) -> Result<bool, AllocError>
    requires { IsWiringOf facts.now.design facts.now.claims cones.now }
    ensures exact { IfOk result (λ b. (IsTrue b ↔ K4 facts.entry.now.design facts.entry.now.claims (block i))) }
{
    if !facts.is_block(i) {
        return Ok(true);
    }
    let design = facts.design();
    let processes = design.processes();
    if i >= processes.len() {
        return Ok(true);
    }
    let read = text_reads(alloc, &processes[i].body)?;
    let keeps = keeps_once(alloc, facts, cones, design.assigns().len() + i, read)?;
    Ok(keeps)
}
