//! When edges of roots, and terms, can fire.
ghost use Rattle.std.specs.Prelude.{ℕ, ◌≡◌, ◌↔◌, ◌⊎◌, None, get_or, IfOk, OnOk};
ghost use Rattle.std.specs.List.{Contains};
ghost use Rattle.vs_maps.specs.vs_rules.specs.Claims.{IsRoot, is_wide};
ghost use Rattle.vs_slots_constants.specs.Inverted.{AreInverted};
ghost use Rattle.vs_slots.specs.Kept.{AreAllRuns, AreClocks, AreFirings, AreTermsIn, IsFiring, IsFiringOf, IsTermIn, IsTurned, table_by};
ghost use Rattle.vs_slots.specs.Runs.{DelayPauseEnds};

use crate::clocks::clocks;
use crate::firing::fires_of;
use crate::listing::{Listing, put_residues, table_of};
use crate::runs::Runs;
use crate::seen::seen_edge;
use std::alloc::{AllocError, Global};
use vs_claims::Facts;
use vs_design::EventTerm;
use vs_design::vs_logic4::Edge;
use vs_graph::{Gathered, Rows};
use vs_slots_constants::Clock;

// What a signal is as a clock; one past the end is none.
fn clock_at(clocks: &[Option<Clock>], v: usize) -> Option<Clock>
    ensures { result ≡ get_or clocks.now v None }
{
    if v < clocks.len() { clocks[v] } else { None }
}

// The roots, of which an edge may fire.
#[derive(Drop)]
struct RootFiring<'a> {
    facts: &'a Facts<'a>,
    runs: &'a [Runs],
    clocks: &'a [Option<Clock>],
    edge: Edge,
    ghost turned: { (v : ℕ) → IsTurned (get_or clocks.now v None) },
}

impl<'a> Listing for RootFiring<'a> {
    ghost has = { λ f root r. IsRoot f.facts.now.design f.facts.now.claims root
        × IsFiringOf f.facts.now f.runs.now (get_or f.clocks.now root None) root f.edge r };

    fn list(&self, alloc: Global, i: usize) -> Result<Vec<u64>, AllocError> {
        if !self.facts.is_root(i) {
            return Ok(Vec::new(alloc));
        }
        let clock = clock_at(self.clocks, i);
        fires_of(alloc, self.facts, self.runs, clock, i, self.edge)
    }
}

/// The residues at which an edge of a root can fire, by the number of the root: one table for each sort of edges. And which signals show a variable
/// inverted.
#[derive(Drop)]
pub(crate) struct Firing<'a> {
    /// Any change.
    pub(crate) any: Rows<u64>,
    /// `posedge`.
    pub(crate) posedge: Rows<u64>,
    /// `negedge`.
    pub(crate) negedge: Rows<u64>,
    /// For each signal, whether it shows a variable inverted.
    pub(crate) inverted: &'a [bool],
}

// The residues at which this edge of each root can fire.
fn table_for<'a>(
    alloc: Global,
    facts: &'a Facts<'a>,
    runs: &'a [Runs],
    clocks: &'a [Option<Clock>],
    edge: Edge,
) -> Result<Rows<u64>, AllocError>
    requires runs { AreAllRuns DelayPauseEnds facts.now runs.now }
    requires clocks { AreClocks facts.now clocks.now }
    ensures { IfOk result (λ table. IsFiring facts.entry.now edge table) }
{
    facts.maps();
    let roots = RootFiring {
        facts,
        runs,
        clocks,
        edge,
    };
    let table = table_of(alloc, &roots, facts.design().signals().len())?;
    Ok(table)
}

impl<'a> Firing<'a> {
    /// When edges of the roots can fire, by the runs behind delay controls, and by which signals show a variable inverted.
    pub(crate) fn of(
        alloc: Global,
        facts: &Facts<'a>,
        inverted: &'a [bool],
        runs: &[Runs],
    ) -> Result<Firing<'a>, AllocError>
        requires runs { AreAllRuns DelayPauseEnds facts.now runs.now }
        requires inverted { AreInverted facts.now.design (is_wide facts.now.claims) inverted.now }
        ensures { IfOk result (λ x. AreFirings facts.entry.now x) }
    {
        let clocks = clocks(alloc, &*facts)?;
        let any = table_for(alloc, &*facts, &*runs, &clocks, Edge::Any)?;
        let posedge = table_for(alloc, &*facts, &*runs, &clocks, Edge::Posedge)?;
        let negedge = table_for(alloc, &*facts, &*runs, &clocks, Edge::Negedge)?;
        Ok(Firing {
            any,
            posedge,
            negedge,
            inverted,
        })
    }

    // The residues at which an edge of a root can fire, by the number of the root.
    fn table(&self, edge: Edge) -> &Rows<u64>
        ensures { result.now ≡ table_by self.now edge }
    {
        match edge {
            Edge::Any => &self.any,
            Edge::Posedge => &self.posedge,
            Edge::Negedge => &self.negedge,
        }
    }

    // Puts the residues at which a term can fire to others.
    fn put_term(
        &self,
        alloc: Global,
        facts: &Facts<'a>,
        out: &mut Gathered,
        term: EventTerm,
    ) -> Result<(), AllocError>
        ensures { OnOk result ((r : ℕ) → (Contains out.new r ↔
            (Contains out.old r ⊎ IsTermIn facts.entry.now self.now term r))) }
    {
        let roots = facts.roots(alloc, term.range.signal)?;
        put_residues(out, self.table(seen_edge(self.inverted, term)), &roots)
    }

    /// The residues at which one of some terms can fire.
    pub(crate) fn of_terms(
        &self,
        alloc: Global,
        facts: &Facts<'a>,
        terms: &[EventTerm],
    ) -> Result<Vec<u64>, AllocError>
        ensures { IfOk result (λ all. (r : ℕ) → (Contains all.items r ↔ AreTermsIn facts.entry.now self.now terms.now r)) }
    {
        let mut all = Gathered::none(alloc);
        for i in 0..terms.len() {
            self.put_term(alloc, &*facts, &mut all, terms[i])?;
        }
        Ok(all.list())
    }
}
