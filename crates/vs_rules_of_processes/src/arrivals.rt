//! Where mixed processes come from delays to event controls.
ghost use Rattle.std.specs.Prelude.{ℕ, ◌↔◌, List, map, IfOk, IsTrue};
ghost use Rattle.std.specs.List.{Contains};
ghost use Rattle.vs_graph.specs.Rows.{row};
ghost use Rattle.vs_maps.specs.Reaches.{pause_at};
ghost use Rattle.vs_rules.specs.Certificates.{residues_from};
ghost use Rattle.vs_rules.specs.Claims.{HasMixedLists};
ghost use Rattle.vs_rules.specs.Controls.{controls_in, controls_of, list_of};
ghost use Rattle.vs_slots.specs.Controls.{list_by};
ghost use Rattle.vs_slots.specs.Runs.{DelayEndsBy};
ghost use Rattle.vs_rules_of_processes.specs.EdgePlaces.{AreArrivalsApart, ArrivesApart};

use std::alloc::{AllocError, Global};
use vs_design::Statement;
use vs_graph::{Rows, Rule, all_keep};
use vs_maps::{Pause, Tables, controls, delays_before};
use vs_slots::{ControlLists, Slots, are_apart, pause_ends};

// Whether no residue at which one of some delay controls can end is one of these.
fn are_all_apart<'a>(
    tables: &'a Tables<'a>,
    lists: &'a ControlLists<'a>,
    controls: &[usize],
    residues: &[u64],
) -> bool
    ensures { IsTrue result ↔ ((q : ℕ) → Contains controls.now q →
        (r : ℕ) → DelayEndsBy (list_by lists.entry.now) (pause_at tables.entry.now q) r → Contains residues.now r → ⊥) }
{
    for control in controls {
        if !are_apart(pause_ends(tables.pause(*control), lists), residues) {
            return false;
        }
    }
    true
}

// The event controls of a process, for each the delay controls from which a path that takes no time leads there, and the lists of those.
#[derive(Drop)]
struct Arrivals<'a> {
    slots: &'a Slots<'a>,
    tables: &'a Tables<'a>,
    before: &'a Rows<usize>,
    lists: &'a ControlLists<'a>,
}

impl<'a> Rule for Arrivals<'a> {
    ghost keeps = { λ f p. (q : ℕ) → Contains (row f.before.now p) q →
        ArrivesApart f.slots.now.design f.slots.now.claims f.tables.now (list_by f.lists.now) q p };

    fn test(&self, alloc: Global, i: usize) -> Result<bool, AllocError> {
        match self.tables.pause(i) {
            Pause::Event(_, terms) => {
                let fires = self.slots.firing_slots(alloc, terms)?;
                Ok(are_all_apart(self.tables, self.lists, self.before.row(i), &fires))
            }
            _ => Ok(true),
        }
    }
}

// Whether a text comes from no delay to an event control at a residue at which that can end, by the lists of its delay controls.
fn are_arrivals_apart<'a>(
    alloc: Global,
    slots: &'a Slots<'a>,
    tables: &'a Tables<'a>,
    body: &Statement,
    lists: &[Vec<u64>],
) -> Result<bool, AllocError>
    ensures { IfOk result (λ b. (IsTrue b ↔ AreArrivalsApart slots.entry.now.design slots.entry.now.claims tables.entry.now
        (list_of (controls_in body.now) (map residues_from lists.now)))) }
{
    tables.leads_in();
    let controls = controls(alloc, body)?;
    let lists = ControlLists::new(&controls, lists);
    let before = delays_before(alloc, &*tables)?;
    let arrivals = Arrivals {
        slots: &*slots,
        tables: &*tables,
        before: &before,
        lists: &lists,
    };
    let all = all_keep(alloc, &arrivals, tables.places())?;
    Ok(all)
}

/// Whether a process, where it is mixed, comes from no delay to an event control at a residue at which that can end. It takes as long as its text,
/// and for each event control and each delay control from which a path that takes no time leads there as long as the residues at which both can end.
pub(crate) fn arrives_apart<'a>(
    alloc: Global,
    slots: &'a Slots<'a>,
    tables: &'a Tables<'a>,
    i: usize,
) -> Result<bool, AllocError>
    ensures { IfOk result (λ b. (IsTrue b ↔ ((lists : List (List ℕ)) → HasMixedLists slots.entry.now.design slots.entry.now.claims i lists →
        AreArrivalsApart slots.entry.now.design slots.entry.now.claims tables.entry.now (list_of (controls_of slots.entry.now.design i) lists)))) }
{
    let facts = slots.facts();
    if !facts.is_mixed(i) {
        return Ok(true);
    }
    let processes = facts.design().processes();
    if i >= processes.len() {
        return Ok(true);
    }
    let Some(lists) = facts.lists(i) else {
        return Ok(true);
    };
    are_arrivals_apart(alloc, slots, tables, &processes[i].body, lists)
}
