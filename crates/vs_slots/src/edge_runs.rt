//! The run slots behind event controls.
ghost use Rattle.std.specs.Prelude.{ℕ, ◌<◌, ◌↔◌, IfOk};
ghost use Rattle.std.specs.List.{Contains};
ghost use Rattle.vs_claims.specs.vs_maps.specs.Ranges.{pause_terms};
ghost use Rattle.vs_maps.specs.vs_rules.specs.Claims.{is_wide};
ghost use Rattle.vs_claims.specs.vs_maps.specs.declared.along.Along.TheVariants.{Plain};
ghost use Rattle.vs_claims.specs.vs_maps.specs.Reaches.{places, pause_at, pause_view, IsPlace};
ghost use Rattle.vs_slots.specs.Kept.{AreAllRuns, AreFirings, AreTermsIn, RunsWhere};
ghost use Rattle.vs_slots.specs.Runs.{AreRunsBy, EdgePauseEnds, TermsEnd};

use crate::listing::{Listing, table_of};
use crate::roots::Firing;
use crate::runs::Runs;
use std::alloc::{AllocError, Global};
use vs_claims::Facts;
use vs_claims::vs_maps::{Along, Pause, Tables, controls_before};

// The places of a process that waits for edges, and when terms can fire.
#[derive(Drop)]
struct EdgeEnds<'a> {
    facts: &'a Facts<'a>,
    firing: &'a Firing<'a>,
    tables: &'a Tables<'a>,
}

impl<'a> EdgeEnds<'a> {
    // The residues at which what goes on so can end, where it is an event control.
    fn of(&self, alloc: Global, pause: Pause) -> Result<Vec<u64>, AllocError>
        ensures { IfOk result (λ all. (r : ℕ) → (Contains all.items r ↔
            AreTermsIn self.now.facts.now self.now.firing.now (pause_terms (pause_view pause.entry)) r)) }
    {
        match pause {
            Pause::Event(_, terms) => self.firing.of_terms(alloc, self.facts, terms),
            Pause::Nothing | Pause::Delay(_, _) => Ok(Vec::new(alloc)),
        }
    }
}

impl<'a> Listing for EdgeEnds<'a> {
    ghost has = { λ f q r. (q < places f.tables.now) × IsPlace f.tables.now q
        × AreTermsIn f.facts.now f.firing.now (pause_terms (pause_at f.tables.now q)) r };

    fn list(&self, alloc: Global, i: usize) -> Result<Vec<u64>, AllocError> {
        if i >= self.tables.places() {
            return Ok(Vec::new(alloc));
        }
        if !self.tables.is_point(i) {
            return Ok(Vec::new(alloc));
        }
        self.of(alloc, self.tables.pause(i))
    }
}

// The runs of a process that waits for edges, by its tables.
fn fired_runs<'a>(
    alloc: Global,
    facts: &'a Facts<'a>,
    firing: &'a Firing<'a>,
    tables: &'a Tables<'a>,
) -> Result<Runs, AllocError>
    requires { AreFirings facts.now firing.now }
    ensures { IfOk result (λ x. AreRunsBy (Plain (is_wide facts.entry.now.claims))
        (TermsEnd facts.entry.now.design facts.entry.now.claims) tables.entry.now x.before x.ends) }
{
    let edges = EdgeEnds {
        facts,
        firing,
        tables,
    };
    let ends = table_of(alloc, &edges, tables.places())?;
    let before = controls_before(alloc, &*tables, Along::Plain(facts.is_wide()))?;
    Ok(Runs { before, ends })
}

// The runs of a process behind its event controls, where it waits for edges.
fn runs_of_edges<'a>(
    alloc: Global,
    facts: &'a Facts<'a>,
    firing: &'a Firing<'a>,
    i: usize,
) -> Result<Runs, AllocError>
    requires { AreFirings facts.now firing.now }
    ensures { IfOk result (λ x. RunsWhere EdgePauseEnds facts.entry.now i x) }
{
    if !facts.waits_for_edges(i) {
        return Ok(Runs::none(alloc));
    }
    match facts.tables(i) {
        None => Ok(Runs::none(alloc)),
        Some(tables) => {
            tables.leads_in();
            fired_runs(alloc, facts, firing, tables)
        }
    }
}

/// The runs of all processes behind their event controls, in their order; of those that wait for no edges there are none.
pub(crate) fn edge_runs<'a>(
    alloc: Global,
    facts: &'a Facts<'a>,
    firing: &'a Firing<'a>,
) -> Result<Vec<Runs>, AllocError>
    requires { AreFirings facts.now firing.now }
    ensures { IfOk result (λ runs. AreAllRuns EdgePauseEnds facts.entry.now runs.items) }
{
    let mut runs = Vec::new(alloc);
    for i in 0..facts.design().processes().len() {
        let own = runs_of_edges(alloc, &*facts, &*firing, i)?;
        runs.push(own)?;
    }
    Ok(runs)
}
