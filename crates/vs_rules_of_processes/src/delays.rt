//! The rule K8, of a process by its number.
ghost use Rattle.std.specs.Prelude.{◌↔◌, IfOk, IsTrue};
ghost use Rattle.vs_rules.specs.Rules.{K8};

use crate::delays_laws::closed_are_kept;
use crate::residues::keeps_residues;
use std::alloc::{AllocError, Global};
use vs_slots::Slots;

/// Whether a process keeps the rule K8: one of kind delay has delay controls alone; it and a mixed one have a list of residues for each, and the
/// lists are closed.
pub fn keeps_delays<'a>(alloc: Global, slots: &'a Slots<'a>, i: usize) -> Result<bool, AllocError>
    ensures { IfOk result (λ b. (IsTrue b ↔ K8 slots.entry.now.design slots.entry.now.claims i)) }
{
    let facts = slots.facts();
    facts.maps();
    closed_are_kept();
    let processes = facts.design().processes();
    if i >= processes.len() {
        return Ok(true);
    }
    let Some(tables) = facts.tables(i) else {
        return Ok(true);
    };
    let Some(lists) = facts.lists(i) else {
        return Ok(true);
    };
    keeps_residues(alloc, slots, tables, &processes[i].body, lists, i)
}
