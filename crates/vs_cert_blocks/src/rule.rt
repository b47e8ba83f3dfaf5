//! The rule K5 of a process, on the facts of a certificate.
ghost use Rattle.std.specs.Prelude.{◌↔◌, IfOk, IsTrue};
ghost use Rattle.vs_drivers.specs.vs_rules.specs.Blocks.{K5};
ghost use Rattle.vs_cert_blocks.specs.Blocks.{BlocksByPlaces};

use crate::blocks::keeps_process;
use std::alloc::{AllocError, Global};
use vs_claims::Facts;

/// A process keeps the rule K5 exactly where `keeps_process` says so of its text, its map and the grain; what is no block keeps it.
pub fn blocks_by_places()
    ensures { BlocksByPlaces }
{}

/// Whether a process keeps the rule K5, on combinational blocks; what is no block keeps it.
pub fn keeps_block(alloc: Global, facts: &Facts, i: usize) -> Result<bool, AllocError>
    ensures exact { IfOk result (λ b. (IsTrue b ↔ K5 facts.entry.now.design facts.entry.now.claims i)) }
{
    if !facts.is_block(i) {
        return Ok(true);
    }
    let design = facts.design();
    let processes = design.processes();
    if i >= processes.len() {
        return Ok(true);
    }
    facts.maps();
    match facts.tables(i) {
        None => Ok(true),
        Some(tables) => keeps_process(alloc, design, &processes[i], tables, facts.grain()),
    }
}
