//! What processes do in the first slot.
ghost use Rattle.std.specs.Prelude.{ℕ, ◌≡◌, ◌<◌, ◌↔◌, ◌⊎◌, false, length, IfOk, IsTrue};
ghost use Rattle.vs_maps.specs.vs_rules.specs.Claims.{IsBlock, IsSequential, is_wide};
ghost use Rattle.vs_maps.specs.vs_rules.specs.Paths.{Writes};
ghost use Rattle.vs_maps.specs.vs_rules.specs.Rules.{K10_Process};
ghost use Rattle.vs_drivers.specs.Wires.{IsWiringOf};
ghost use Rattle.vs_drivers.specs.vs_maps.specs.Ranges.{now_at};
ghost use Rattle.vs_drivers.specs.vs_maps.specs.Reaches.{InSlot0, InPrologue};
ghost use Rattle.vs_rules_of_processes.specs.FirstSlot.{IsOwn, IsFirst, IsPast, AreOwn, NoneHangs, ReadsOwn, KeepsFirst};

use crate::hung::hung;
use std::alloc::{AllocError, Global};
use std::marker::Model;
use vs_claims::Facts;
use vs_design::BitRange;
use vs_drivers::vs_maps::Tables;
use vs_drivers::{Cones, is_variable};
use vs_graph::{Rule, all_keep, is_marked};
use vs_maps::{OneOf, SiteRule, any_write_of};

/// What the rule K10 asks of processes. A contract sees the facts.
#[derive(Drop)]
pub struct FirstSlot<'a> {
    facts: &'a Facts<'a>,
    // For each signal whether blocks hang on it.
    hung: Vec<bool>,
}

impl<'a> Model for FirstSlot<'a> {
    ghost use Rattle.std.specs.Coded.{codes};
    ghost use Rattle.vs_design.specs.contracts.expression.Typed as expression;
    ghost use Rattle.vs_design.specs.contracts.statement.Statement as statement;
    ghost use Rattle.vs_claims.specs.Facts.{Case};
    ghost use Rattle.vs_rules_of_processes.specs.FirstSlot.{AreFirst};

    ghost Value = { Case };

    ghost coded = { Prim.hlevel (codes, statement.the_row.coded, expression.the_row.coded) };

    ghost view = { λ s. s.facts.now };

    ghost invariant = { λ s. AreFirst s.facts.now s.hung.items };
}

// A point is of this process, or of no block.
#[derive(Drop)]
struct NoOtherBlock<'a> {
    facts: &'a Facts<'a>,
    reader: usize,
}

impl<'a> SiteRule for NoOtherBlock<'a> {
    ghost keeps = { λ f i p. (i ≡ f.reader) ⊎ (IsBlock f.facts.now.design f.facts.now.claims i → ⊥) };

    fn test(&self, process: usize, _place: usize) -> bool {
        if process == self.reader {
            return true;
        }
        !self.facts.is_block(process)
    }
}

// A point is of this process, or isn't done in the first slot, by the paths of version 3.
#[derive(Drop)]
struct IsPast<'a> {
    facts: &'a Facts<'a>,
    reader: usize,
}

impl<'a> SiteRule for IsPast<'a> {
    ghost keeps = { λ f i p. IsPast f.facts.now.charts f.reader i p };

    fn test(&self, process: usize, place: usize) -> bool {
        if process == self.reader {
            return true;
        }
        !self.facts.is_slot0(true, process, place)
    }
}

impl<'a> FirstSlot<'a> {
    /// What the rule asks, by the facts, and the cones of the ranges of the same design.
    pub fn new(
        alloc: Global,
        facts: &'a Facts<'a>,
        cones: &Cones,
    ) -> Result<FirstSlot<'a>, AllocError>
        requires wiring { IsWiringOf facts.now.design facts.now.claims cones.now }
        ensures { IfOk result (λ s. s ≡ facts.entry.now) }
    {
        let hung = hung(alloc, facts, cones)?;
        Ok(FirstSlot { facts, hung })
    }

    // Whether the certificate is of version 3.
    fn is_wide(&self) -> bool
        ensures { result ≡ is_wide self.now.claims }
    {
        self.facts.is_wide()
    }

    // Whether no other process than one is a block and writes a signal, and none but that one writes it by `=` in the first slot.
    fn is_first(&self, i: usize, v: usize) -> bool
        requires { v < length self.now.design.signals }
        ensures { IsTrue result ↔ IsFirst self.now i v }
    {
        let facts = self.facts;
        facts.maps();
        let uses = facts.uses();
        if !uses.all_writes(v, &NoOtherBlock { facts, reader: i }) {
            return false;
        }
        uses.all_now(v, &IsPast { facts, reader: i })
    }

    // Whether a process writes a signal, and no other one does.
    fn is_sole(&self, i: usize, v: usize) -> bool
        requires { v < length self.now.design.signals }
        ensures { IsTrue result ↔ (Writes self.now.design i v × ((j : ℕ) → Writes self.now.design j v → j ≡ i)) }
    {
        self.facts.maps();
        if !any_write_of(self.facts.sites().of_signal(v), i) {
            return false;
        }
        let this = OneOf {
            one: Some(i),
            other: None,
        };
        self.facts.uses().all_writes(v, &this)
    }

    // Whether a signal is a variable that a process writes, and no other one; in version 3 one that no other process writes in the first slot by `=`,
    // nor a block.
    fn is_own(&self, i: usize, v: usize) -> bool
        ensures { IsTrue result ↔ IsOwn self.now.design self.now.claims i v }
    {
        self.facts.maps();
        let signals = self.facts.design().signals();
        match signals.get(v) {
            None => false,
            Some(s) => {
                if !is_variable(s.kind) {
                    return false;
                }
                if self.is_wide() {
                    return self.is_first(i, v);
                }
                self.is_sole(i, v)
            }
        }
    }

    // Whether all ranges are of such variables.
    fn are_own(&self, i: usize, ranges: &[BitRange]) -> bool
        ensures { IsTrue result ↔ AreOwn self.now.design self.now.claims i ranges.now }
    {
        for range in ranges {
            if !self.is_own(i, range.signal) {
                return false;
            }
        }
        true
    }

    // Whether no range is of a signal that blocks hang on.
    fn none_hangs(&self, ranges: &[BitRange]) -> bool
        ensures { IsTrue result ↔ NoneHangs self.now.design self.now.claims ranges.now }
    {
        for range in ranges {
            if is_marked(&self.hung, range.signal) {
                return false;
            }
        }
        true
    }

    // Whether what a process reads at a place is its own, and where the certificate says so what it shows.
    fn reads_own(
        &self,
        alloc: Global,
        tables: &Tables,
        i: usize,
        place: usize,
    ) -> Result<bool, AllocError>
        ensures { IfOk result (λ b. (IsTrue b ↔ ReadsOwn self.now.design self.now.claims i tables.now place)) }
    {
        let reads = tables.reads_at(alloc, place)?;
        if !self.are_own(i, &reads) {
            return Ok(false);
        }
        if !self.facts.displays() {
            return Ok(true);
        }
        let shows = tables.shows_at(alloc, place)?;
        Ok(self.are_own(i, &shows))
    }

    // Whether no `=` at a place writes a signal that blocks hang on.
    fn is_untouched(&self, alloc: Global, tables: &Tables, place: usize) -> Result<bool, AllocError>
        ensures { IfOk result (λ b. (IsTrue b ↔ NoneHangs self.now.design self.now.claims (now_at tables.now place))) }
    {
        let ranges = tables.now_at(alloc, place)?;
        Ok(self.none_hangs(&ranges))
    }

    // Whether what a process that waits for edges or for times reads in the first slot is its own.
    fn keeps_reads<'b>(
        &'b self,
        alloc: Global,
        tables: &'b Tables<'b>,
        i: usize,
    ) -> Result<bool, AllocError>
        ensures { IfOk result (λ b. (IsTrue b ↔ (IsSequential self.entry.now.design self.entry.now.claims i →
            (p : ℕ) → InSlot0 (is_wide self.entry.now.claims) tables.entry.now p →
            ReadsOwn self.entry.now.design self.entry.now.claims i tables.entry.now p))) }
    {
        if !self.facts.is_sequential(i) {
            return Ok(true);
        }
        let readings = Readings {
            slot: self,
            tables,
            process: i,
        };
        let all = all_keep(alloc, &readings, tables.places())?;
        Ok(all)
    }

    // Whether no `=` of a process before any delay writes a signal that blocks hang on.
    fn keeps_writes<'b>(&'b self, alloc: Global, tables: &'b Tables<'b>) -> Result<bool, AllocError>
        ensures { IfOk result (λ b. (IsTrue b ↔ ((p : ℕ) → InPrologue (is_wide self.entry.now.claims) tables.entry.now p →
            NoneHangs self.entry.now.design self.entry.now.claims (now_at tables.entry.now p)))) }
    {
        let writings = Writings { slot: self, tables };
        let all = all_keep(alloc, &writings, tables.places())?;
        Ok(all)
    }

    // Whether the places of the map of a process keep the rule.
    fn keeps_places<'b>(
        &'b self,
        alloc: Global,
        tables: &'b Tables<'b>,
        i: usize,
    ) -> Result<bool, AllocError>
        ensures { IfOk result (λ b. (IsTrue b ↔ KeepsFirst self.entry.now.design self.entry.now.claims i tables.entry.now)) }
    {
        let reads = self.keeps_reads(alloc, tables, i)?;
        if !reads {
            return Ok(false);
        }
        let keeps = self.keeps_writes(alloc, tables)?;
        Ok(keeps)
    }

    /// Whether a process keeps the rule K10: what one that waits for edges or for times reads at a point of the first slot is a variable that it
    /// alone writes; and no `=` before its first delay writes what is in the cone of what a block needs. It takes as long as its text is, and for
    /// each read as often as texts write what is read.
    pub fn keeps_first_slot(&self, alloc: Global, i: usize) -> Result<bool, AllocError>
        ensures exact { IfOk result (λ b. (IsTrue b ↔ K10_Process self.now.design self.now.claims i)) }
    {
        self.facts.maps();
        match self.facts.tables(i) {
            None => Ok(true),
            Some(tables) => self.keeps_places(alloc, tables, i),
        }
    }
}

// The places where a process reads in the first slot.
#[derive(Drop)]
struct Readings<'s, 'a> {
    slot: &'s FirstSlot<'a>,
    tables: &'s Tables<'s>,
    process: usize,
}

impl<'s, 'a> Rule for Readings<'s, 'a> {
    ghost keeps = { λ f p. InSlot0 (is_wide f.slot.now.claims) f.tables.now p →
        ReadsOwn f.slot.now.design f.slot.now.claims f.process f.tables.now p };

    fn test(&self, alloc: Global, i: usize) -> Result<bool, AllocError> {
        if i >= self.tables.places() {
            return Ok(true);
        }
        if !self.tables.is_slot0(self.slot.is_wide(), i) {
            return Ok(true);
        }
        self.slot.reads_own(alloc, self.tables, self.process, i)
    }
}

// The places where a process writes before any delay.
#[derive(Drop)]
struct Writings<'s, 'a> {
    slot: &'s FirstSlot<'a>,
    tables: &'s Tables<'s>,
}

impl<'s, 'a> Rule for Writings<'s, 'a> {
    ghost keeps = { λ f p. InPrologue (is_wide f.slot.now.claims) f.tables.now p →
        NoneHangs f.slot.now.design f.slot.now.claims (now_at f.tables.now p) };

    fn test(&self, alloc: Global, i: usize) -> Result<bool, AllocError> {
        if i >= self.tables.places() {
            return Ok(true);
        }
        if !self.tables.is_prologue(self.slot.is_wide(), i) {
            return Ok(true);
        }
        self.slot.is_untouched(alloc, self.tables, i)
    }
}
