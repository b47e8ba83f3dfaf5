//! The residues at which edges of roots can fire.
ghost use Rattle.std.specs.Prelude.{ℕ, ◌≡◌, ◌<◌, ◌↔◌, ◌⊎◌, Some, length, slice_get, IfOk, OnOk, IsTrue};
ghost use Rattle.std.specs.List.{Contains};
ghost use Rattle.vs_process.specs.Stops.{statement_view};
ghost use Rattle.vs_maps.specs.vs_rules.specs.Constants.{bit_of};
ghost use Rattle.vs_slots_constants.specs.Givings.{given_here};
ghost use Rattle.vs_claims.specs.vs_maps.specs.Ranges.{statement_at};
ghost use Rattle.vs_slots.specs.Firing.{CountsAt, InPhaseOf};
ghost use Rattle.vs_maps.specs.Sites.{IsWrite};
ghost use Rattle.vs_maps.specs.declared.sites.Site.{Site};
ghost use Rattle.vs_slots.specs.Kept.{IsFiringBy, IsFiringOf, IsSiteFiring, IsTurned};

use crate::listing::{Listing, union_of};
use crate::phases::{is_in_phase, write_counts};
use crate::runs::{Runs, runs_at};
use std::alloc::{AllocError, Global};
use vs_claims::Facts;
use vs_claims::vs_maps::Tables;
use vs_design::Statement;
use vs_design::vs_logic4::{Digit, Edge};
use vs_maps::{Site, is_write_of};
use vs_slots_constants::{Bit, Clock, given_by};

// The constant that a statement, where there is one, gives the lowest bit of a signal.
fn given_of(
    alloc: Global,
    statement: Option<&Statement>,
    signal: usize,
) -> Result<Option<Digit>, AllocError>
    ensures { IfOk result (λ o. o ≡ given_here (statement_view statement.entry) (bit_of signal)) }
{
    match statement {
        None => Ok(None),
        Some(s) => given_by(alloc, s, Bit::lowest(signal)),
    }
}

/// The constant that the statement at a place gives the lowest bit of a signal.
pub(crate) fn given_at<'a>(
    alloc: Global,
    tables: &'a Tables<'a>,
    place: usize,
    signal: usize,
) -> Result<Option<Digit>, AllocError>
    ensures { IfOk result (λ o. o ≡ given_here (statement_at tables.entry.now place) (bit_of signal)) }
{
    given_of(alloc, tables.statement(place), signal)
}

// Whether an edge of a signal, which may be a clock, can fire at a residue.
fn is_phase_of(clock: Option<Clock>, edge: Edge, modulus: u64, residue: u64) -> bool
    requires { IsTurned clock }
    ensures { IsTrue result ↔ InPhaseOf clock edge modulus residue }
{
    match clock {
        None => true,
        Some(c) => is_in_phase(edge, c.digit, c.offset, c.half, modulus, residue),
    }
}

// Puts a residue at a list's end, where such an edge can fire at it.
fn put_phased(
    all: &mut Vec<u64>,
    clock: Option<Clock>,
    edge: Edge,
    modulus: u64,
    residue: u64,
) -> Result<(), AllocError>
    requires { IsTurned clock }
    ensures { OnOk result ((r : ℕ) → (Contains all.new.items r ↔
        (Contains all.old.items r ⊎ ((residue ≡ r) × InPhaseOf clock edge modulus residue)))) }
{
    if is_phase_of(clock, edge, modulus, residue) {
        all.push(residue)?;
    }
    Ok(())
}

// Those of some residues at which such an edge can fire.
fn phased(
    alloc: Global,
    residues: &[u64],
    clock: Option<Clock>,
    edge: Edge,
    modulus: u64,
) -> Result<Vec<u64>, AllocError>
    requires { IsTurned clock }
    ensures { IfOk result (λ all. (r : ℕ) → (Contains all.items r ↔ (Contains residues.now r × InPhaseOf clock edge modulus r))) }
{
    let mut all = Vec::new(alloc);
    for residue in residues {
        put_phased(&mut all, clock, edge, modulus, *residue)?;
    }
    Ok(all)
}

// The writer of a root, and places at which an edge of it may fire.
#[derive(Drop)]
struct PlaceFiring<'a> {
    tables: &'a Tables<'a>,
    runs: &'a [Runs],
    writer: usize,
    root: usize,
    edge: Edge,
    clock: Option<Clock>,
    modulus: u64,
    sites: &'a [Site],
    ghost turned: { IsTurned clock },
}

impl<'a> PlaceFiring<'a> {
    // Whether a site is a write of the writer, by no constant that doesn't count.
    fn writes(&self, alloc: Global, site: Site) -> Result<bool, AllocError>
        ensures { IfOk result (λ b. (IsTrue b ↔ ((site.process ≡ self.now.writer) × IsWrite site.usage
            × CountsAt self.now.tables.now site.place self.now.root self.now.edge))) }
    {
        if !is_write_of(site, self.writer) {
            return Ok(false);
        }
        let given = given_at(alloc, self.tables, site.place, self.root)?;
        Ok(write_counts(self.edge, given))
    }

    // The residues at which an edge of the root can fire at a site.
    fn at(&self, alloc: Global, site: Site) -> Result<Vec<u64>, AllocError>
        ensures { IfOk result (λ list. (r : ℕ) → (Contains list.items r ↔ IsSiteFiring self.now.tables.now self.now.runs.now self.now.clock
            self.now.modulus self.now.root self.now.edge self.now.writer site r)) }
    {
        if !self.writes(alloc, site)? {
            return Ok(Vec::new(alloc));
        }
        let runs = runs_at(alloc, self.runs, self.writer, site.place)?;
        phased(alloc, &runs, self.clock, self.edge, self.modulus)
    }
}

impl<'a> Listing for PlaceFiring<'a> {
    ghost has = { λ f i r. (s : Site) × (slice_get f.sites.now i ≡ Some s)
        × IsSiteFiring f.tables.now f.runs.now f.clock f.modulus f.root f.edge f.writer s r };

    fn list(&self, alloc: Global, i: usize) -> Result<Vec<u64>, AllocError> {
        if i >= self.sites.len() {
            return Ok(Vec::new(alloc));
        }
        self.at(alloc, self.sites[i])
    }
}

// The residues at which an edge of a signal can fire, by a process.
fn fires_by<'a>(
    alloc: Global,
    facts: &'a Facts<'a>,
    runs: &'a [Runs],
    clock: Option<Clock>,
    root: usize,
    edge: Edge,
    writer: usize,
) -> Result<Vec<u64>, AllocError>
    requires turned { IsTurned clock }
    requires root { root < length facts.now.design.signals }
    ensures { IfOk result (λ all. (r : ℕ) → (Contains all.items r ↔ IsFiringBy facts.entry.now runs.entry.now clock root edge writer r)) }
{
    if !facts.is_delay(writer) {
        return Ok(Vec::new(alloc));
    }
    let Some(tables) = facts.tables(writer) else {
        return Ok(Vec::new(alloc));
    };
    tables.leads_in();
    let firing = PlaceFiring {
        tables,
        runs,
        writer,
        root,
        edge,
        clock,
        modulus: facts.modulus(),
        sites: facts.sites().of_signal(root),
    };
    union_of(alloc, &firing, firing.sites.len())
}

/// The residues at which an edge of a signal can fire, which may be a clock, by the runs behind delay controls.
pub(crate) fn fires_of<'a>(
    alloc: Global,
    facts: &'a Facts<'a>,
    runs: &'a [Runs],
    clock: Option<Clock>,
    root: usize,
    edge: Edge,
) -> Result<Vec<u64>, AllocError>
    requires turned { IsTurned clock }
    ensures { IfOk result (λ all. (r : ℕ) → (Contains all.items r ↔ IsFiringOf facts.entry.now runs.entry.now clock root edge r)) }
{
    match facts.writer(root) {
        None => Ok(Vec::new(alloc)),
        Some(writer) => fires_by(alloc, facts, runs, clock, root, edge, writer),
    }
}
