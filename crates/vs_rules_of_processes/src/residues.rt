//! The rule K8, on the residues of times at which delays can end.
ghost use Rattle.std.specs.Prelude.{ℕ, ◌≡◌, ◌<◌, ◌≤◌, ◌+◌, ◌%◌, ◌^◌, ◌↔◌, Some, IfOk, IsTrue, slice_get};
ghost use Rattle.std.specs.List.{Contains};
ghost use Rattle.vs_slots.specs.Controls.{list_by};
ghost use Rattle.vs_maps.specs.Reaches.{places, IsPlace};
ghost use Rattle.vs_rules.specs.Claims.{IsDelay, is_wide};
ghost use Rattle.vs_rules_of_processes.specs.Closed.{EndsWell, KeepsResidues, PlaceIsClosed, StartsWell};

use std::alloc::{AllocError, Global};
use vs_design::Statement;
use vs_graph::{Residues, Rule, all_keep};
use vs_maps::{Pause, Tables, controls};
use vs_slots::{ControlLists, Slots};

// A residue after so many ticks.
fn shifted(r: u64, ticks: u64, modulus: u64) -> u64
    requires some { 0 < modulus }
    requires small { modulus ≤ 2 ^ 32 }
    ensures { result ≡ (r + ticks) % modulus }
{
    (r % modulus + ticks % modulus) % modulus
}

// Whether a list has a residue.
fn has_residue(xs: &Residues, x: u64) -> bool
    ensures { IsTrue result ↔ Contains xs.now x }
{
    xs.has(x)
}

// Whether a list has each of some residues, after so many ticks.
fn all_shifted(from: &[u64], ticks: u64, modulus: u64, list: &[u64]) -> bool
    requires some { 0 < modulus }
    requires small { modulus ≤ 2 ^ 32 }
    ensures { IsTrue result ↔ ((r : ℕ) → Contains from.now r → Contains list.now ((r + ticks) % modulus)) }
{
    let all = Residues::of(list);
    for r in from {
        if !has_residue(&all, shifted(*r, ticks, modulus)) {
            return false;
        }
    }
    true
}

// A process that waits for times: its number, its tables and the lists of its delay controls, with the slots of the whole.
#[derive(Drop)]
struct Waits<'a> {
    slots: &'a Slots<'a>,
    tables: &'a Tables<'a>,
    lists: &'a ControlLists<'a>,
    process: usize,
    modulus: u64,
    ghost modulus_is: { modulus ≡ slots.now.claims.modulus },
    ghost some: { 0 < modulus },
    ghost small: { modulus ≤ 2 ^ 32 },
    ghost is_chart: { slice_get slots.now.charts process ≡ Some tables.now },
}

impl<'a> Waits<'a> {
    // Whether a list has so many ticks, where they are above 0 and a path that takes no time, by wide rules past a turn that is sure by it alone,
    // leads to a place from the start.
    fn starts_well(&self, place: usize, ticks: u64, list: &[u64]) -> bool
        requires { place < places self.now.tables.now }
        ensures { IsTrue result ↔ StartsWell (is_wide self.now.slots.now.claims) self.now.tables.now place ticks list.now self.now.modulus }
    {
        if ticks == 0 {
            return true;
        }
        if !self.tables.is_slot0(self.slots.facts().is_wide(), place) {
            return true;
        }
        has_residue(&Residues::of(list), ticks % self.modulus)
    }

    // Whether a list has each run slot of a place, after so many ticks.
    fn ends_well(
        &self,
        alloc: Global,
        place: usize,
        ticks: u64,
        list: &[u64],
    ) -> Result<bool, AllocError>
        requires { place < places self.now.tables.now }
        ensures { IfOk result (λ b. (IsTrue b ↔ EndsWell self.now.slots.now.design self.now.slots.now.claims self.now.process
            self.now.tables.now place ticks list.now self.now.modulus)) }
    {
        let runs = self.slots.run_slots(alloc, self.process, place)?;
        Ok(all_shifted(&runs, ticks, self.modulus, list))
    }

    // Whether the list of a delay control of so many ticks at a place is closed.
    fn is_closed(
        &self,
        alloc: Global,
        place: usize,
        ticks: u64,
        list: &[u64],
    ) -> Result<bool, AllocError>
        requires { place < places self.now.tables.now }
        ensures { IfOk result (λ b. (IsTrue b ↔ (StartsWell (is_wide self.now.slots.now.claims) self.now.tables.now place ticks list.now
            self.now.modulus × EndsWell self.now.slots.now.design self.now.slots.now.claims self.now.process
            self.now.tables.now place ticks list.now self.now.modulus))) }
    {
        if !self.starts_well(place, ticks, list) {
            return Ok(false);
        }
        self.ends_well(alloc, place, ticks, list)
    }

    // Whether a place may be an event control: where the process doesn't wait for times alone, or it is no point.
    fn may_listen(&self, place: usize) -> bool
        requires { place < places self.now.tables.now }
        ensures { IsTrue result ↔
            (IsDelay self.now.slots.now.design self.now.slots.now.claims self.now.process → IsPlace self.now.tables.now place → ⊥) }
    {
        if !self.slots.facts().is_delay(self.process) {
            return true;
        }
        !self.tables.is_point(place)
    }
}

impl<'a> Rule for Waits<'a> {
    ghost keeps = { λ f p. PlaceIsClosed f.slots.now.design f.slots.now.claims f.process f.tables.now (list_by f.lists.now) p };

    fn test(&self, alloc: Global, i: usize) -> Result<bool, AllocError> {
        if i >= self.tables.places() {
            return Ok(true);
        }
        match self.tables.pause(i) {
            Pause::Nothing => Ok(true),
            Pause::Delay(number, ticks) => self.is_closed(alloc, i, ticks, self.lists.of(number)),
            Pause::Event(_, _) => Ok(self.may_listen(i)),
        }
    }
}

/// Whether a process that waits for times keeps the rule K8, by its text, its map and its lists of residues: one that waits for times alone has no
/// event control; there is a list for each delay control, in the order of the text; each control that ends the first slot has its ticks in its list;
/// and each has the run slots of its place, after its own ticks. It takes as long as the text, and for each control as long as the lists of those
/// before it, times the logarithm of how long its own list is.
pub fn keeps_residues<'a>(
    alloc: Global,
    slots: &'a Slots<'a>,
    tables: &'a Tables<'a>,
    body: &Statement,
    lists: &[Vec<u64>],
    i: usize,
) -> Result<bool, AllocError>
    requires { slice_get slots.now.charts i ≡ Some tables.now }
    ensures { IfOk result (λ b. (IsTrue b ↔
        KeepsResidues slots.entry.now.design slots.entry.now.claims i tables.entry.now body.now lists.now)) }
{
    let controls = controls(alloc, body)?;
    if lists.len() != controls.len() {
        return Ok(false);
    }
    let lists = ControlLists::new(&controls, lists);
    let facts = slots.facts();
    facts.is_certificate();
    let waits = Waits {
        slots: &*slots,
        tables: &*tables,
        lists: &lists,
        process: i,
        modulus: facts.modulus(),
    };
    let all = all_keep(alloc, &waits, tables.places())?;
    Ok(all)
}
