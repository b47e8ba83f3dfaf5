//! The residues at which delay controls can end.
ghost use Rattle.std.specs.Prelude.{ℕ, ◌≡◌, ◌<◌, ◌↔◌, map, IfOk};
ghost use Rattle.std.specs.List.{Contains};
ghost use Rattle.vs_maps.specs.vs_rules.specs.Certificates.{residues_from};
ghost use Rattle.vs_maps.specs.vs_rules.specs.Controls.{list_of};
ghost use Rattle.vs_claims.specs.vs_maps.specs.Reaches.{places, pause_at, pause_view, IsPlace};
ghost use Rattle.vs_graph.specs.Rows.{row};
ghost use Rattle.vs_slots.specs.Controls.{list_by};
ghost use Rattle.vs_slots.specs.Runs.{DelayEndsBy};

use crate::listing::{Listing, table_of};
use std::alloc::{AllocError, Global};
use vs_claims::vs_maps::{Pause, Tables};
use vs_graph::{Numbers, Rows};

/// The lists of residues of a process that waits for times: one for each delay control of its text, in the order of the text.
#[derive(Drop)]
pub struct ControlLists<'a> {
    /// The numbers of the controls in the process's text.
    pub controls: Numbers<'a>,
    /// The lists.
    pub lists: &'a [Vec<u64>],
}

impl<'a> ControlLists<'a> {
    /// The lists of these controls, the first of the first one. It takes as long as there are controls.
    pub fn new(controls: &'a [u32], lists: &'a [Vec<u64>]) -> ControlLists<'a>
        ensures { list_by result ≡ list_of controls.entry.now (map residues_from lists.entry.now) }
    {
        let controls = Numbers::of(controls);
        ControlLists { controls, lists }
    }

    /// The list of a control, by its number. It takes as long as the logarithm of how many controls there are, where their numbers rise, as
    /// elaboration gives them.
    pub fn of(&self, number: u32) -> &'a [u64]
        ensures { result.now ≡ list_by self.now number }
    {
        match self.controls.place(number) {
            None => &[],
            Some(i) => {
                if i < self.lists.len() {
                    &self.lists[i]
                } else {
                    &[]
                }
            }
        }
    }
}

/// The residues at which a place that goes on so can end, where it is a delay control.
pub fn pause_ends<'a>(pause: Pause<'a>, lists: &'a ControlLists<'a>) -> &'a [u64]
    ensures { (r : ℕ) → (Contains result.now r ↔ DelayEndsBy (list_by lists.entry.now) (pause_view pause.entry) r) }
{
    match pause {
        Pause::Delay(number, _) => lists.of(number),
        Pause::Nothing | Pause::Event(_, _) => &[],
    }
}

/// The places of a process that waits for times, and the lists of its delay controls.
#[derive(Drop)]
struct DelayEnds<'a> {
    tables: &'a Tables<'a>,
    lists: &'a ControlLists<'a>,
}

impl<'a> Listing for DelayEnds<'a> {
    ghost has = { λ f q r. (q < places f.tables.now) × IsPlace f.tables.now q × DelayEndsBy (list_by f.lists.now) (pause_at f.tables.now q) r };

    fn list(&self, alloc: Global, i: usize) -> Result<Vec<u64>, AllocError> {
        if i >= self.tables.places() {
            return Ok(Vec::new(alloc));
        }
        if !self.tables.is_point(i) {
            return Ok(Vec::new(alloc));
        }
        Vec::from_slice(alloc, pause_ends(self.tables.pause(i), self.lists))
    }
}

/// For each place of a process that waits for times the residues at which its delay control can end. It takes as long as their lists.
pub(crate) fn delay_ends<'a>(
    alloc: Global,
    tables: &'a Tables<'a>,
    lists: &'a ControlLists<'a>,
) -> Result<Rows<u64>, AllocError>
    ensures { IfOk result (λ ends. (q r : ℕ) → q < places tables.entry.now → (Contains (row ends q) r ↔
        (IsPlace tables.entry.now q × DelayEndsBy (list_by lists.entry.now) (pause_at tables.entry.now q) r))) }
{
    let ends = DelayEnds { tables, lists };
    table_of(alloc, &ends, tables.places())
}
