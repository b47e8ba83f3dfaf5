//! The places at which signals are written by their writers.
ghost use Rattle.std.specs.Prelude.{◌≡◌, ◌<◌, Bool, Some, length, slice_get, IfOk, IsTrue};
ghost use Rattle.vs_maps.specs.vs_rules.specs.Claims.{IsDelay, IsWriter};
ghost use Rattle.vs_rules_of_signals.specs.Ranks.{AreAllPlaces, AreAllRanks, ArePlacesOf, AreRanksOf};
ghost use Rattle.vs_rules_of_signals.specs.Places.{NeverHotIn};

use crate::ranks::Ranks;
use std::alloc::{AllocError, Global};
use std::marker::Model;
use vs_claims::Facts;
use vs_claims::vs_maps::{Tables, places_written};
use vs_graph::Rows;

/// For each signal the places at which its writer writes it, and the ranks of the places of processes of kind delay. A contract sees the design,
/// what the certificate claims of it, and the maps of the texts of the processes.
#[derive(Drop)]
pub struct Writes<'a> {
    facts: &'a Facts<'a>,
    places: Rows<usize>,
    ranks: Vec<Ranks>,
}

impl<'a> Model for Writes<'a> {
    ghost use Rattle.std.specs.Coded.{codes};
    ghost use Rattle.vs_design.specs.contracts.expression.Typed as expression;
    ghost use Rattle.vs_design.specs.contracts.statement.Statement as statement;
    ghost use Rattle.vs_claims.specs.Facts.{Case};
    ghost use Rattle.vs_rules_of_signals.specs.Ranks.{KeepsWrites};

    ghost Value = { Case };

    ghost coded = { Prim.hlevel (codes, statement.the_row.coded, expression.the_row.coded) };

    ghost view = { λ w. w.facts.now };

    ghost invariant = { λ w. KeepsWrites w.facts.now w.places w.ranks.items };
}

// The places at which its writer writes a signal. It takes as long as there are sites of the signal.
fn places_of(alloc: Global, facts: &Facts, v: usize) -> Result<Vec<usize>, AllocError>
    requires { v < length facts.now.design.signals }
    ensures { IfOk result (λ places. ArePlacesOf facts.now v places.items) }
{
    match facts.writer(v) {
        None => Ok(Vec::new(alloc)),
        Some(i) => places_written(alloc, facts.sites().of_signal(v), i),
    }
}

// Those of all signals, in their order. It takes as long as there are sites.
fn all_places(alloc: Global, facts: &Facts) -> Result<Rows<usize>, AllocError>
    ensures { IfOk result (λ table. AreAllPlaces facts.now table) }
{
    let mut table = Rows::none(alloc);
    for v in 0..facts.design().signals().len() {
        let places = places_of(alloc, facts, v)?;
        table.push(places)?;
    }
    Ok(table)
}

// The ranks of the places of a process; where it isn't of kind delay, such as tell nothing.
fn ranks_of<'a>(alloc: Global, facts: &'a Facts<'a>, i: usize) -> Result<Ranks, AllocError>
    ensures { IfOk result (λ x. AreRanksOf facts.entry.now i x) }
{
    if !facts.is_delay(i) {
        return Ok(Ranks::none(alloc));
    }
    match facts.tables(i) {
        None => Ok(Ranks::none(alloc)),
        Some(tables) => Ranks::of(alloc, tables),
    }
}

// Those of all processes, in their order.
fn all_ranks<'a>(alloc: Global, facts: &'a Facts<'a>) -> Result<Vec<Ranks>, AllocError>
    ensures { IfOk result (λ ranks. AreAllRanks facts.entry.now ranks.items) }
{
    let mut ranks = Vec::new(alloc);
    for i in 0..facts.design().processes().len() {
        let own = ranks_of(alloc, &*facts, i)?;
        ranks.push(own)?;
    }
    Ok(ranks)
}

impl<'a> Writes<'a> {
    /// The writes of the signals of a design. It takes as long as its texts are, up to a logarithm.
    pub fn of(alloc: Global, facts: &'a Facts<'a>) -> Result<Writes<'a>, AllocError>
        ensures { IfOk result (λ w. w ≡ facts.entry.now) }
    {
        let places = all_places(alloc, &*facts)?;
        let ranks = all_ranks(alloc, facts)?;
        Ok(Writes {
            facts,
            places,
            ranks,
        })
    }

    /// The facts of which they are.
    pub fn facts(&self) -> &'a Facts<'a>
        ensures { result.now ≡ self.now }
    {
        self.facts
    }

    /// Whether the ranks tell that a process of kind delay writes a signal, of which it is the writer, nowhere where it is hot, by the ways of any
    /// version. It takes as long as there are places at which it does.
    pub fn are_apart(&self, tables: &'a Tables<'a>, i: usize, v: usize) -> bool
        requires text { slice_get self.now.charts i ≡ Some tables.now }
        requires delay { IsDelay self.now.design self.now.claims i }
        requires writer { IsWriter self.now.design self.now.claims v i }
        ensures { IsTrue result → (wide : Bool) → NeverHotIn wide tables.entry.now v }
    {
        tables.leads_in();
        if i >= self.ranks.len() {
            return false;
        }
        if v >= self.places.len() {
            return false;
        }
        let ranks = &self.ranks[i];
        ranks.are_apart(tables, self.places.row(v))
    }
}
