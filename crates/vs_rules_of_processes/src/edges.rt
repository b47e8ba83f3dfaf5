//! The rule K7, on processes that wait for edges.
ghost use Rattle.std.specs.Prelude.{ℕ, ◌≡◌, ◌↔◌, Some, IfOk, IsTrue, slice_get};
ghost use Rattle.std.specs.List.{Contains, list_any};
ghost use Rattle.vs_claims.specs.vs_process.specs.Executions.{is_level};
ghost use Rattle.vs_rules.specs.Rules.{K7};
ghost use Rattle.vs_claims.specs.vs_maps.specs.Reaches.{pause_at, pause_view, IsPlace};
ghost use Rattle.vs_rules_of_processes.specs.declared.edges.Term as edges;
ghost use Rattle.vs_rules_of_processes.specs.EdgePlaces.{AreKnown, AreRootsApart, IsKnown, IsOneSignal, IsPair, K7_Places, MayWait};

use crate::arrivals::arrives_apart;
use crate::lists::are_same;
use crate::vs_slots::{Slots, are_apart};
use std::alloc::{AllocError, Global};
use vs_claims::vs_maps::{Pause, Tables, terms};
use vs_design::EventTerm;
use vs_design::vs_logic4::Edge;
use vs_graph::{Rule, all_keep, is_apart};

// ---- what is waited for

// Whether one of some terms is of another sort than an edge.
fn has_level(terms: &[EventTerm]) -> bool
    ensures { result ≡ list_any is_level terms.now }
{
    terms.iter().any(|t| t.edge == Edge::Any)
}

// Whether ways that go on so go on through no control, or wait for edges; or through a delay, where the process doesn't wait for edges alone.
fn may_wait(pause: Pause, alone: bool) -> bool
    ensures { IsTrue result ↔ MayWait (IsTrue alone) (pause_view pause.entry) }
{
    match pause {
        Pause::Nothing => true,
        Pause::Delay(_, _) => !alone,
        Pause::Event(_, terms) => !has_level(terms),
    }
}

// The points of a process, each of which waits for edges, where it waits.
#[derive(Drop)]
struct Waits<'a> {
    tables: &'a Tables<'a>,
    // Whether the process waits for edges alone.
    alone: bool,
}

impl<'a> Rule for Waits<'a> {
    ghost keeps = { λ f p. IsPlace f.tables.now p → MayWait (IsTrue f.alone) (pause_at f.tables.now p) };

    fn test(&self, _alloc: Global, i: usize) -> Result<bool, AllocError> {
        if i >= self.tables.places() {
            return Ok(true);
        }
        if !self.tables.is_point(i) {
            return Ok(true);
        }
        Ok(may_wait(self.tables.pause(i), self.alone))
    }
}

// ---- pairs of terms

/// What is known of a term of an event control.
#[derive(Drop)]
pub struct Term {
    /// The number of its signal in design order.
    pub signal: usize,
    /// The roots of that.
    pub roots: Vec<usize>,
    /// The residues at which it can fire.
    pub fires: Vec<u64>,
}

// Whether two terms of one root name one signal.
fn is_one_signal(a: &Term, b: &Term) -> bool
    ensures { IsTrue result ↔ IsOneSignal a.now b.now }
{
    if a.signal == b.signal {
        return true;
    }
    is_apart(&a.roots, &b.roots)
}

// Whether two terms that can fire at one residue have one root.
fn are_roots_apart(a: &Term, b: &Term) -> bool
    ensures { IsTrue result ↔ AreRootsApart a.now b.now }
{
    if are_same(&a.roots, &b.roots) {
        return true;
    }
    are_apart(&a.fires, &b.fires)
}

fn is_pair(a: &Term, b: &Term) -> bool
    ensures { IsTrue result ↔ IsPair a.now b.now }
{
    if !is_one_signal(a, b) {
        return false;
    }
    are_roots_apart(a, b)
}

// Whether a term and each of some others are such a pair.
fn all_pair_with(a: &Term, others: &[Term]) -> bool
    ensures { IsTrue result ↔ ((k : ℕ) (b : edges.Term) → slice_get others.now k ≡ Some b → IsPair a.now b) }
{
    for b in others {
        if !is_pair(a, b) {
            return false;
        }
    }
    true
}

// Whether any two of some terms are.
fn all_pair(terms: &[Term]) -> bool
    ensures { IsTrue result ↔ ((j : ℕ) (a : edges.Term) → slice_get terms.now j ≡ Some a →
        (k : ℕ) (b : edges.Term) → slice_get terms.now k ≡ Some b → IsPair a b) }
{
    for a in terms {
        if !all_pair_with(a, terms) {
            return false;
        }
    }
    true
}

// What is known of a term.
fn known<'a>(alloc: Global, slots: &'a Slots<'a>, term: EventTerm) -> Result<Term, AllocError>
    ensures { IfOk result (λ k. IsKnown slots.entry.now.design slots.entry.now.claims term k) }
{
    let roots = slots.facts().roots(alloc, term.range.signal)?;
    let fires = slots.firing_slots(alloc, &[term])?;
    Ok(Term {
        signal: term.range.signal,
        roots,
        fires,
    })
}

// What is known of some terms.
fn all_known<'a>(
    alloc: Global,
    slots: &'a Slots<'a>,
    terms: &[EventTerm],
) -> Result<Vec<Term>, AllocError>
    ensures { IfOk result (λ all. AreKnown slots.entry.now.design slots.entry.now.claims terms.now all.items) }
{
    let mut all = Vec::new(alloc);
    for i in 0..terms.len() {
        let one = known(alloc, &*slots, terms[i])?;
        all.push(one)?;
    }
    Ok(all)
}

// ---- the rule

// Whether the places of a process that waits for edges keep the rule.
fn places_keep<'a>(
    alloc: Global,
    slots: &'a Slots<'a>,
    tables: &'a Tables<'a>,
    i: usize,
) -> Result<bool, AllocError>
    ensures { IfOk result (λ b. (IsTrue b ↔ K7_Places slots.entry.now.design slots.entry.now.claims i tables.entry.now)) }
{
    tables.leads_in();
    let waits = Waits {
        tables: &*tables,
        alone: slots.facts().is_edge(i),
    };
    let waiting = all_keep(alloc, &waits, tables.places())?;
    if !waiting {
        return Ok(false);
    }
    let terms = terms(alloc, &*tables)?;
    let known = all_known(alloc, &*slots, &terms)?;
    if !all_pair(&known) {
        return Ok(false);
    }
    let apart = arrives_apart(alloc, slots, tables, i)?;
    Ok(apart)
}

/// Whether a process keeps the rule K7: one of kind edge waits for edges alone; in it and in a mixed one terms of one root name one signal, and no
/// two terms of different roots can fire at one residue; and a mixed one comes from no delay to an event control at a residue at which that can end.
/// It takes as long as its text, for any two of its terms as long as the residues at which they can fire, and for each event control and each delay
/// control from which a path that takes no time leads there, as long as the residues at which both can end.
pub fn keeps_edges<'a>(alloc: Global, slots: &'a Slots<'a>, i: usize) -> Result<bool, AllocError>
    ensures exact { IfOk result (λ b. (IsTrue b ↔ K7 slots.entry.now.design slots.entry.now.claims i)) }
{
    let facts = slots.facts();
    facts.maps();
    if !facts.waits_for_edges(i) {
        return Ok(true);
    }
    match facts.tables(i) {
        None => Ok(true),
        Some(tables) => {
            let kept = places_keep(alloc, slots, tables, i)?;
            Ok(kept)
        }
    }
}
