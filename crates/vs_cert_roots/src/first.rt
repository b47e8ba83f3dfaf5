//! The rule K10 of signals, on what a root is given in the first slot.
ghost use Rattle.std.specs.Prelude.{ℕ, ◌≡◌, ◌<◌, ◌↔◌, ◌⊎◌, false, Some, length, slice_get, IfOk, IsTrue};
ghost use Rattle.std.specs.List.{Contains};
ghost use Rattle.vs_rules.specs.Claims.{IsRoot, is_wide};
ghost use Rattle.vs_rules.specs.Rules.{K10_Signal};
ghost use Rattle.vs_rules.specs.Constants.{bit_of};
ghost use Rattle.vs_drivers.specs.vs_slots_constants.specs.Clocks.{known};
ghost use Rattle.vs_drivers.specs.vs_slots_constants.specs.Givings.{given_here};
ghost use Rattle.vs_drivers.specs.vs_slots_constants.specs.Inverted.{AreInverted};
ghost use Rattle.vs_drivers.specs.vs_maps.specs.Ranges.{statement_at};
ghost use Rattle.vs_drivers.specs.vs_maps.specs.Reaches.{Chart};
ghost use Rattle.vs_drivers.specs.vs_maps.specs.declared.sites.Site.{Site};
ghost use Rattle.vs_rules_of_signals.specs.vs_claims.specs.Facts.{NamesRoot};
ghost use Rattle.vs_cert_roots.specs.First.{IsFirst, SiteAt, HasSite, IsSilent, StartsSilently, StartsWellIn, StartsWell, WakesEntry, left_out, shown_by};

use crate::entries::Entries;
use std::alloc::{AllocError, Global};
use std::marker::Model;
use vs_design::vs_logic4::Digit;
use vs_drivers::only;
use vs_drivers::vs_maps::{Site, Tables, is_write};
use vs_drivers::vs_slots_constants::{Bit, given_by, known};
use vs_rules_of_signals::vs_claims::Facts;
use vs_rules_of_signals::vs_graph::is_marked;

// Whether a site is a write at a place that is done in the first slot.
fn is_first(facts: &Facts, site: Site) -> bool
    ensures { IsTrue result ↔ IsFirst (is_wide facts.now.claims) facts.now.charts site }
{
    if !is_write(site.usage) {
        return false;
    }
    facts.is_slot0(facts.is_wide(), site.process, site.place)
}

// Whether a site of a process is one.
fn is_first_of(facts: &Facts, site: Site, process: usize) -> bool
    ensures { IsTrue result ↔ (site.process ≡ process) × IsFirst (is_wide facts.now.claims) facts.now.charts site }
{
    if site.process == process {
        is_first(facts, site)
    } else {
        false
    }
}

// The processes of those of some sites that are such.
fn first_processes(alloc: Global, facts: &Facts, sites: &[Site]) -> Result<Vec<usize>, AllocError>
    ensures { IfOk result (λ all. (i : ℕ) → (Contains all.items i ↔
        ((s : Site) × Contains sites.now s × IsFirst (is_wide facts.now.claims) facts.now.charts s × (s.process ≡ i)))) }
{
    let mut all = Vec::new(alloc);
    for site in sites {
        if is_first(facts, *site) {
            all.push(site.process)?;
        }
    }
    Ok(all)
}

// The places of those of some sites that are such ones of a process.
fn first_places(
    alloc: Global,
    facts: &Facts,
    sites: &[Site],
    process: usize,
) -> Result<Vec<usize>, AllocError>
    ensures { IfOk result (λ all. (p : ℕ) → (Contains all.items p ↔
        ((s : Site) × Contains sites.now s × ((s.process ≡ process) × IsFirst (is_wide facts.now.claims) facts.now.charts s) × (s.place ≡ p)))) }
{
    let mut all = Vec::new(alloc);
    for site in sites {
        if is_first_of(facts, *site, process) {
            all.push(site.place)?;
        }
    }
    Ok(all)
}

/// The entries of a certificate, and which signals show a variable inverted. A contract sees the design, what the certificate claims of it, and the
/// maps of the texts of the processes.
#[derive(Drop)]
pub struct FirstWrites<'a> {
    entries: &'a Entries<'a>,
    inverted: &'a [bool],
}

impl<'a> Model for FirstWrites<'a> {
    ghost use Rattle.std.specs.Coded.{codes};
    ghost use Rattle.vs_design.specs.contracts.expression.Typed as expression;
    ghost use Rattle.vs_design.specs.contracts.statement.Statement as statement;
    ghost use Rattle.vs_rules_of_signals.specs.vs_claims.specs.Facts.{Case};
    ghost use Rattle.vs_cert_roots.specs.First.{KeepsFirst};

    ghost Value = { Case };

    ghost coded = { Prim.hlevel (codes, statement.the_row.coded, expression.the_row.coded) };

    ghost view = { λ w. w.entries.now };

    ghost invariant = { λ w. KeepsFirst w.entries.now w.inverted.now };
}

// The digit that a signal shows where its root has one, by which signals show a variable inverted.
fn shown(inverted: &[bool], v: usize, digit: Digit) -> Digit
    ensures { result ≡ shown_by inverted.now v digit }
{
    if is_marked(inverted, v) {
        digit.not()
    } else {
        digit
    }
}

// Of the root itself the process that writes it is left out.
fn left_out(writer: usize, root: usize, v: usize) -> Option<usize>
    ensures { result ≡ left_out writer root v }
{
    if v == root { Some(writer) } else { None }
}

// The digit 0 or 1 that the statement at a place gives a signal that is no array.
fn digit_at<'a>(
    alloc: Global,
    tables: &'a Tables<'a>,
    v: usize,
    p: usize,
) -> Result<Option<Digit>, AllocError>
    ensures { IfOk result (λ o. o ≡ known (given_here (statement_at tables.entry.now p) (bit_of v))) }
{
    match tables.statement(p) {
        None => Ok(None),
        Some(s) => {
            let digit = given_by(alloc, s, Bit::lowest(v))?;
            Ok(known(digit))
        }
    }
}

impl<'a> FirstWrites<'a> {
    /// What the entries of a certificate say of the first slot, by which signals show a variable inverted.
    pub fn of(entries: &'a Entries<'a>, inverted: &'a [bool]) -> FirstWrites<'a>
        requires { AreInverted entries.now.design (is_wide entries.now.claims) inverted.now }
        ensures { result ≡ entries.entry.now }
    {
        entries.facts().maps();
        FirstWrites { entries, inverted }
    }

    // The places of the entries with a root.
    fn claims_of(&self, root: usize) -> &[usize]
        ensures { (place : ℕ) → (Contains result.now place ↔ NamesRoot self.now.design self.now.claims.edges place root) }
    {
        self.entries.facts().entries_with_root(root)
    }

    // Whether a signal is the root of an entry.
    fn is_root(&self, v: usize) -> bool
        ensures { IsTrue result ↔ IsRoot self.now.design self.now.claims v }
    {
        self.entries.facts().is_root(v)
    }

    // Whether the entry of a place is not of a root, or a change of the root from x to a digit that a process makes wakes no edge term of its signal.
    fn is_calm(&self, writer: usize, place: usize, root: usize, digit: Digit) -> bool
        ensures { IsTrue result ↔ (WakesEntry self.now.design self.now.claims writer place root digit → ⊥) }
    {
        match self.entries.facts().edge(place) {
            None => true,
            Some((of, v)) => {
                if of != root {
                    return true;
                }
                let except = left_out(writer, root, v);
                self.entries
                    .is_calm(v, shown(self.inverted, v, digit), except)
            }
        }
    }

    // Whether this is so of the entries of some places.
    fn are_calm(&self, writer: usize, places: &[usize], root: usize, digit: Digit) -> bool
        ensures { IsTrue result ↔ ((place : ℕ) → Contains places.now place →
            WakesEntry self.now.design self.now.claims writer place root digit → ⊥) }
    {
        for place in places {
            if !self.is_calm(writer, *place, root, digit) {
                return false;
            }
        }
        true
    }

    /// Whether no edge term of a root is woken by a change of the root from x to a digit that a process makes; in version 3 none of an event control of
    /// the first slot, but for terms of that process that name the root itself. It takes as long as the signals that copy the root have edge terms.
    pub fn is_silent(&self, writer: usize, root: usize, digit: Digit) -> bool
        ensures { IsTrue result ↔ IsSilent self.now.design self.now.claims writer root digit }
    {
        self.are_calm(writer, self.claims_of(root), root, digit)
    }

    // The processes that write a signal in the first slot. It takes as long as there are sites of the signal.
    fn writers(&self, alloc: Global, v: usize) -> Result<Vec<usize>, AllocError>
        requires { v < length self.now.design.signals }
        ensures { IfOk result (λ all. (i : ℕ) → (Contains all.items i ↔ HasSite (is_wide self.now.claims) self.now.charts i v)) }
    {
        let facts = self.entries.facts();
        let all = first_processes(alloc, facts, facts.sites().of_signal(v))?;
        Ok(all)
    }

    // The places at which a process does. It takes as long.
    fn places(&self, alloc: Global, process: usize, v: usize) -> Result<Vec<usize>, AllocError>
        requires { v < length self.now.design.signals }
        ensures { IfOk result (λ all. (t : Chart) → slice_get self.now.charts process ≡ Some t →
            (p : ℕ) → (Contains all.items p ↔ SiteAt (is_wide self.now.claims) t v p)) }
    {
        let facts = self.entries.facts();
        let all = first_places(alloc, facts, facts.sites().of_signal(v), process)?;
        Ok(all)
    }
}

// Whether a place doesn't write a root by `<=`, and gives it a constant 0 or 1 that wakes no edge term of it.
fn starts_silently<'a>(
    alloc: Global,
    first: &FirstWrites,
    tables: &'a Tables<'a>,
    j: usize,
    v: usize,
    p: usize,
) -> Result<bool, AllocError>
    ensures { IfOk result (λ b. (IsTrue b ↔ StartsSilently first.entry.now.design first.entry.now.claims j tables.entry.now v p)) }
{
    if tables.writes_later(p, v) {
        return Ok(false);
    }
    match digit_at(alloc, tables, v, p)? {
        None => Ok(false),
        Some(digit) => Ok(first.is_silent(j, v, digit)),
    }
}

// Whether one place alone of the text of a process writes a root in the first slot, and does so.
fn starts_well_in<'a>(
    alloc: Global,
    first: &FirstWrites,
    tables: &'a Tables<'a>,
    j: usize,
    v: usize,
) -> Result<bool, AllocError>
    requires text { slice_get first.now.charts j ≡ Some tables.now }
    requires within { v < length first.now.design.signals }
    ensures { IfOk result (λ b. (IsTrue b ↔ StartsWellIn first.entry.now.design first.entry.now.claims j tables.entry.now v)) }
{
    let places = first.places(alloc, j, v)?;
    match only(&places) {
        None => Ok(false),
        Some(p) => starts_silently(alloc, first, tables, j, v, p),
    }
}

// The same of a process.
fn starts_well<'a>(
    alloc: Global,
    first: &FirstWrites<'a>,
    j: usize,
    v: usize,
) -> Result<bool, AllocError>
    requires { v < length first.now.design.signals }
    ensures { IfOk result (λ b. (IsTrue b ↔ StartsWell first.entry.now.design first.entry.now.claims first.entry.now.charts j v)) }
{
    match first.entries.facts().tables(j) {
        None => Ok(false),
        Some(tables) => starts_well_in(alloc, first, tables, j, v),
    }
}

/// Whether a signal keeps the rule K10: where it is a root, one statement at most of all processes writes it in the first slot, by `=`, and gives it
/// a constant 0 or 1, which from x wakes no edge term of it. It takes as long as there are sites of the signal, and as it has edge terms.
pub fn keeps_first_root(alloc: Global, first: &FirstWrites, v: usize) -> Result<bool, AllocError>
    ensures { IfOk result (λ b. (IsTrue b ↔ K10_Signal first.entry.now.design first.entry.now.claims v)) }
{
    let _ = &first.inverted;
    if !first.is_root(v) {
        return Ok(true);
    }
    let writers = first.writers(alloc, v)?;
    match only(&writers) {
        Some(j) => starts_well(alloc, first, j, v),
        None => Ok(writers.is_empty()),
    }
}
