//! The rule K9, on what processes that wait for edges or for times read.
ghost use Rattle.std.specs.Prelude.{ℕ, ◌≡◌, ◌<◌, ◌↔◌, Some, IfOk, IsTrue, slice_get};
ghost use Rattle.std.specs.List.{Contains};
ghost use Rattle.vs_design.specs.declared.range.BitRange as range;
ghost use Rattle.vs_design.specs.declared.statement.EventTerm as statement;
ghost use Rattle.vs_rules.specs.Claims.{IsWriter, is_wide};
ghost use Rattle.vs_rules.specs.Drivers.{InCone};
ghost use Rattle.vs_rules.specs.Rules.{K9};
ghost use Rattle.vs_rules.specs.Slots.{HasWriteSlot};
ghost use Rattle.vs_rules_of_processes.specs.vs_drivers.specs.Wires.{IsWiringOf};
ghost use Rattle.vs_claims.specs.vs_maps.specs.Ranges.{HasTermAt};
ghost use Rattle.vs_claims.specs.vs_maps.specs.Reaches.{places, IsPlace};
ghost use Rattle.vs_claims.specs.vs_maps.specs.Walks.{InHot};
ghost use Rattle.vs_rules_of_processes.specs.ReadingPlaces.{ApartAt, IsEdgeOf, IsTermApart, IsUndelayed, MayReadAt, MayReadOf, MayReadRange};
ghost use Rattle.vs_rules_of_processes.specs.ReadingPlaces.{OwnEdgeAt, OwnReadAt, RootsApart};

use crate::WriteClasses;
use crate::vs_drivers::Cones;
use crate::vs_slots::{Slots, are_apart};
use std::alloc::{AllocError, Global};
use vs_claims::vs_maps::{Tables, hot, terms};
use vs_design::vs_logic4::Edge;
use vs_design::{BitRange, EventTerm};
use vs_graph::{Rule, all_are, all_keep};

// Whether a root isn't written at a residue at which a term of another root can fire.
fn is_term_apart<'a>(
    alloc: Global,
    slots: &'a Slots<'a>,
    root: usize,
    term: EventTerm,
) -> Result<bool, AllocError>
    ensures { IfOk result (λ b. (IsTrue b ↔ IsTermApart slots.entry.now.design slots.entry.now.claims root term)) }
{
    let others = slots.facts().roots(alloc, term.range.signal)?;
    if all_are(&others, root) {
        return Ok(true);
    }
    let fires = slots.firing_slots(alloc, &[term])?;
    let apart = are_apart(slots.write_slots(root), &fires);
    Ok(apart)
}

// The terms of a process, by their numbers, and a root.
#[derive(Drop)]
struct Terms<'a> {
    slots: &'a Slots<'a>,
    terms: &'a [EventTerm],
    root: usize,
}

impl<'a> Rule for Terms<'a> {
    ghost keeps = { λ f k. (x : statement.EventTerm) → slice_get f.terms.now k ≡ Some x →
        IsTermApart f.slots.now.design f.slots.now.claims f.root x };

    fn test(&self, alloc: Global, i: usize) -> Result<bool, AllocError> {
        if i >= self.terms.len() {
            return Ok(true);
        }
        let apart = is_term_apart(alloc, self.slots, self.root, self.terms[i])?;
        Ok(apart)
    }
}

// The roots of a signal, by their numbers, and the terms of a process.
#[derive(Drop)]
struct Roots<'a> {
    slots: &'a Slots<'a>,
    terms: &'a [EventTerm],
    roots: &'a [usize],
}

impl<'a> Rule for Roots<'a> {
    ghost keeps = { λ f j. (root : ℕ) → slice_get f.roots.now j ≡ Some root →
        (k : ℕ) (x : statement.EventTerm) → slice_get f.terms.now k ≡ Some x → IsTermApart f.slots.now.design f.slots.now.claims root x };

    fn test(&self, alloc: Global, i: usize) -> Result<bool, AllocError> {
        if i >= self.roots.len() {
            return Ok(true);
        }
        let terms = Terms {
            slots: self.slots,
            terms: self.terms,
            root: self.roots[i],
        };
        let all = all_keep(alloc, &terms, self.terms.len())?;
        Ok(all)
    }
}

// Whether a term is an edge of a signal.
fn is_edge_of(term: EventTerm, v: usize) -> bool
    ensures { IsTrue result ↔ IsEdgeOf term v }
{
    match term.edge {
        Edge::Any => false,
        Edge::Posedge | Edge::Negedge => term.range.signal == v,
    }
}

// Whether one of some terms is.
fn has_edge(terms: &[EventTerm], v: usize) -> bool
    ensures { IsTrue result ↔ ((x : statement.EventTerm) × Contains terms.now x × IsEdgeOf x v) }
{
    for i in 0..terms.len() {
        if is_edge_of(terms[i], v) {
            return true;
        }
    }
    false
}

// A process that waits for edges or for times: its number and its tables, with the slots of the whole and their classes.
#[derive(Drop)]
struct Reader<'a> {
    slots: &'a Slots<'a>,
    classes: &'a WriteClasses<'a>,
    tables: &'a Tables<'a>,
    process: usize,
    ghost classes_are: { classes.now ≡ slots.now },
}

impl<'a> Reader<'a> {
    // Whether write slots of a signal's roots are no firing slots of other roots of the process.
    fn are_roots_apart(
        &self,
        alloc: Global,
        terms: &[EventTerm],
        v: usize,
    ) -> Result<bool, AllocError>
        requires { (x : statement.EventTerm) → (Contains terms.now x ↔ HasTermAt self.now.tables.now x) }
        ensures { IfOk result (λ b. (IsTrue b ↔ RootsApart self.now.slots.now.design self.now.slots.now.claims self.now.tables.now v)) }
    {
        let roots = self.slots.facts().roots(alloc, v)?;
        let rule = Roots {
            slots: self.slots,
            terms: &*terms,
            roots: &roots,
        };
        let all = all_keep(alloc, &rule, roots.len())?;
        Ok(all)
    }

    // Whether none of some roots is written at one of some residues.
    fn none_written(&self, roots: &[usize], residues: &[u64]) -> bool
        ensures { IsTrue result ↔ ((root : ℕ) → Contains roots.now root →
            (r : ℕ) → HasWriteSlot self.now.slots.now.design self.now.slots.now.claims root r → Contains residues.now r → ⊥) }
    {
        for root in roots {
            if !are_apart(self.slots.write_slots(*root), residues) {
                return false;
            }
        }
        true
    }

    // Whether, where the process is mixed, write slots of a signal's roots are no run slots of a place by delay controls.
    fn is_undelayed(&self, alloc: Global, place: usize, v: usize) -> Result<bool, AllocError>
        requires is_chart { slice_get self.now.slots.now.charts self.now.process ≡ Some self.now.tables.now }
        requires place { place < places self.now.tables.now }
        ensures { IfOk result (λ b. (IsTrue b ↔
            IsUndelayed self.now.slots.now.design self.now.slots.now.claims self.now.process self.now.tables.now place v)) }
    {
        let facts = self.slots.facts();
        if !facts.is_mixed(self.process) {
            return Ok(true);
        }
        let roots = facts.roots(alloc, v)?;
        let runs = self.slots.delay_slots(alloc, self.process, place)?;
        Ok(self.none_written(&roots, &runs))
    }

    // Whether a signal is one of an edge term of the process, whose roots are so apart, and so at a place.
    fn is_own_edge(&self, alloc: Global, place: usize, v: usize) -> Result<bool, AllocError>
        requires is_chart { slice_get self.now.slots.now.charts self.now.process ≡ Some self.now.tables.now }
        requires place { place < places self.now.tables.now }
        ensures { IfOk result (λ b. (IsTrue b ↔
            OwnEdgeAt self.now.slots.now.design self.now.slots.now.claims self.now.process self.now.tables.now place v)) }
    {
        let terms = terms(alloc, self.tables)?;
        let own = has_edge(&terms, v);
        if !own {
            return Ok(false);
        }
        let apart = self.are_roots_apart(alloc, &terms, v)?;
        if !apart {
            return Ok(false);
        }
        let undelayed = self.is_undelayed(alloc, place, v)?;
        Ok(undelayed)
    }

    // Whether the process is claimed to be a signal's writer.
    fn is_writer(&self, u: usize) -> bool
        ensures { IsTrue result ↔ IsWriter self.now.slots.now.design self.now.slots.now.claims u self.now.process }
    {
        match self.slots.facts().writer(u) {
            None => false,
            Some(writer) => writer == self.process,
        }
    }

    // Whether no path that takes no time, by wide rules past a turn that is sure by it alone, leads to a place from a write of a variable by `=`.
    fn is_cold(&self, alloc: Global, u: usize, place: usize) -> Result<bool, AllocError>
        requires { place < places self.now.tables.now }
        ensures { IfOk result (λ b. (IsTrue b ↔ (InHot (is_wide self.now.slots.now.claims) self.now.tables.now u place → ⊥))) }
    {
        let marks = hot(alloc, self.tables, self.slots.facts().is_wide(), u)?;
        Ok(!marks[place])
    }

    // Whether the process writes a variable, and either reads that very signal, or the variable isn't hot at the place.
    fn is_own_read(
        &self,
        alloc: Global,
        place: usize,
        v: usize,
        u: usize,
    ) -> Result<bool, AllocError>
        requires { place < places self.now.tables.now }
        ensures { IfOk result (λ b. (IsTrue b ↔
            OwnReadAt self.now.slots.now.design self.now.slots.now.claims self.now.process self.now.tables.now place u v)) }
    {
        if !self.is_writer(u) {
            return Ok(false);
        }
        if u == v {
            return Ok(true);
        }
        let cold = self.is_cold(alloc, u, place)?;
        Ok(cold)
    }

    // Whether the write slots of a variable are no run slots of a place.
    fn is_apart_at(&self, alloc: Global, u: usize, place: usize) -> Result<bool, AllocError>
        requires is_chart { slice_get self.now.slots.now.charts self.now.process ≡ Some self.now.tables.now }
        requires place { place < places self.now.tables.now }
        ensures { IfOk result (λ b. (IsTrue b ↔
            ApartAt self.now.slots.now.design self.now.slots.now.claims self.now.process self.now.tables.now place u)) }
    {
        let runs = self.slots.run_slots(alloc, self.process, place)?;
        let apart = are_apart(self.slots.write_slots(u), &runs);
        Ok(apart)
    }

    // Whether the process may read a signal at a place, of which a variable is a blocking source.
    fn may_read(&self, alloc: Global, place: usize, v: usize, u: usize) -> Result<bool, AllocError>
        requires is_chart { slice_get self.now.slots.now.charts self.now.process ≡ Some self.now.tables.now }
        requires place { place < places self.now.tables.now }
        ensures { IfOk result (λ b. (IsTrue b ↔
            MayReadOf self.now.slots.now.design self.now.slots.now.claims self.now.process self.now.tables.now place v u)) }
    {
        let apart = self.is_apart_at(alloc, u, place)?;
        if apart {
            return Ok(true);
        }
        let own = self.is_own_read(alloc, place, v, u)?;
        if own {
            return Ok(true);
        }
        let edge = self.is_own_edge(alloc, place, v)?;
        Ok(edge)
    }

    // Whether it may, of each of some variables.
    fn may_read_all(
        &self,
        alloc: Global,
        place: usize,
        v: usize,
        us: &[usize],
    ) -> Result<bool, AllocError>
        requires is_chart { slice_get self.now.slots.now.charts self.now.process ≡ Some self.now.tables.now }
        requires place { place < places self.now.tables.now }
        ensures { IfOk result (λ b. (IsTrue b ↔ ((u : ℕ) → Contains us.now u →
            MayReadOf self.now.slots.now.design self.now.slots.now.claims self.now.process self.now.tables.now place v u))) }
    {
        for u in us {
            let kept = self.may_read(alloc, place, v, *u)?;
            if !kept {
                return Ok(false);
            }
        }
        Ok(true)
    }

    // Whether the classes of residues tell that no variable in the cone of a range of a signal, which some driver writes, is written at a run slot
    // of a place.
    fn is_clear<'b>(
        &self,
        alloc: Global,
        cones: &'b Cones<'b>,
        place: usize,
        v: usize,
    ) -> Result<bool, AllocError>
        requires is_chart { slice_get self.now.slots.now.charts self.now.process ≡ Some self.now.tables.now }
        requires place { place < places self.now.tables.now }
        ensures { IfOk result (λ b. IsTrue b → (u : ℕ) (r : range.BitRange) → r.signal ≡ v →
            InCone self.now.slots.now.design self.now.slots.now.claims u r →
            ApartAt self.now.slots.now.design self.now.slots.now.claims self.now.process self.now.tables.now place u) }
    {
        if cones.writers(v).is_empty() {
            return Ok(false);
        }
        let runs = self.slots.run_slots(alloc, self.process, place)?;
        Ok(self.classes.are_clear(v, &runs))
    }

    // Whether it may read a range at a place.
    fn may_read_range<'b>(
        &self,
        alloc: Global,
        cones: &'b Cones<'b>,
        place: usize,
        range: BitRange,
    ) -> Result<bool, AllocError>
        requires wiring { IsWiringOf self.now.slots.now.design self.now.slots.now.claims cones.now }
        requires is_chart { slice_get self.now.slots.now.charts self.now.process ≡ Some self.now.tables.now }
        requires place { place < places self.now.tables.now }
        ensures { IfOk result (λ b. (IsTrue b ↔
            MayReadRange self.now.slots.now.design self.now.slots.now.claims self.now.process self.now.tables.now place range)) }
    {
        let clear = self.is_clear(alloc, &*cones, place, range.signal)?;
        if clear {
            return Ok(true);
        }
        let sources = cones.blocking_of(alloc, range)?;
        let all = self.may_read_all(alloc, place, range.signal, &sources)?;
        Ok(all)
    }

    // Whether it may read some ranges at a place.
    fn may_read_ranges<'b>(
        &self,
        alloc: Global,
        cones: &'b Cones<'b>,
        place: usize,
        ranges: &[BitRange],
    ) -> Result<bool, AllocError>
        requires wiring { IsWiringOf self.now.slots.now.design self.now.slots.now.claims cones.now }
        requires is_chart { slice_get self.now.slots.now.charts self.now.process ≡ Some self.now.tables.now }
        requires place { place < places self.now.tables.now }
        ensures { IfOk result (λ b. (IsTrue b ↔ ((k : ℕ) (r : range.BitRange) → slice_get ranges.now k ≡ Some r →
            MayReadRange self.now.slots.now.design self.now.slots.now.claims self.now.process self.now.tables.now place r))) }
    {
        for i in 0..ranges.len() {
            let kept = self.may_read_range(alloc, &*cones, place, ranges[i])?;
            if !kept {
                return Ok(false);
            }
        }
        Ok(true)
    }

    // Whether it may read what the statement at a place reads, and shows, where that counts.
    fn place_keeps<'b>(
        &self,
        alloc: Global,
        cones: &'b Cones<'b>,
        place: usize,
    ) -> Result<bool, AllocError>
        requires wiring { IsWiringOf self.now.slots.now.design self.now.slots.now.claims cones.now }
        requires is_chart { slice_get self.now.slots.now.charts self.now.process ≡ Some self.now.tables.now }
        requires place { place < places self.now.tables.now }
        ensures { IfOk result (λ b. (IsTrue b ↔ (IsPlace self.now.tables.now place →
            MayReadAt self.now.slots.now.design self.now.slots.now.claims self.now.process self.now.tables.now place))) }
    {
        if !self.tables.is_point(place) {
            return Ok(true);
        }
        let reads = self.tables.reads_at(alloc, place)?;
        let read = self.may_read_ranges(alloc, &*cones, place, &reads)?;
        if !read {
            return Ok(false);
        }
        let shown = self.slots.facts().displays();
        if !shown {
            return Ok(true);
        }
        let shows = self.tables.shows_at(alloc, place)?;
        let all = self.may_read_ranges(alloc, &*cones, place, &shows)?;
        Ok(all)
    }

    // Whether all places of the process keep the rule.
    fn places_keep<'b>(&self, alloc: Global, cones: &'b Cones<'b>) -> Result<bool, AllocError>
        requires wiring { IsWiringOf self.now.slots.now.design self.now.slots.now.claims cones.now }
        requires is_chart { slice_get self.now.slots.now.charts self.now.process ≡ Some self.now.tables.now }
        ensures { IfOk result (λ b. (IsTrue b ↔ ((p : ℕ) → IsPlace self.now.tables.now p →
            MayReadAt self.now.slots.now.design self.now.slots.now.claims self.now.process self.now.tables.now p))) }
    {
        self.tables.leads_in();
        for place in 0..self.tables.places() {
            let kept = self.place_keeps(alloc, &*cones, place)?;
            if !kept {
                return Ok(false);
            }
        }
        Ok(true)
    }
}

/// Whether a process keeps the rule K9: where it waits for edges or for times, what it reads at a place of a blocking source is its own, is a signal
/// of its edge terms, or is written at other residues than the place runs at. For each range that it reads it takes as long as there are residues at
/// which the place runs, and where a variable on which the range's signal hangs is written in a class of one of them, as the cone of the range, and
/// for each blocking source there as the residues at which that is written and the place runs.
pub fn keeps_readings<'a, 'b>(
    alloc: Global,
    slots: &'a Slots<'a>,
    classes: &'a WriteClasses<'a>,
    cones: &'b Cones<'b>,
    i: usize,
) -> Result<bool, AllocError>
    requires wiring { IsWiringOf slots.now.design slots.now.claims cones.now }
    requires classes { classes.now ≡ slots.now }
    ensures exact { IfOk result (λ b. (IsTrue b ↔ K9 slots.entry.now.design slots.entry.now.claims i)) }
{
    let facts = slots.facts();
    facts.maps();
    if !facts.is_sequential(i) {
        return Ok(true);
    }
    match facts.tables(i) {
        None => Ok(true),
        Some(tables) => {
            let reader = Reader {
                slots,
                classes,
                tables,
                process: i,
            };
            let all = reader.places_keep(alloc, cones)?;
            Ok(all)
        }
    }
}
