//! Walks once a way of some sort has been gone, and what the points of a text have.
ghost use Rattle.std.specs.Prelude.{ℕ, ◌≡◌, ◌↔◌, false, length, slice_index_or, IfOk, OnOk, IsTrue};
ghost use Rattle.std.specs.List.{Contains};
ghost use Rattle.vs_process.specs.Stops.{stops_tos};
ghost use Rattle.vs_graph.specs.Clear.{AreClear};
ghost use Rattle.vs_maps.specs.Reaches.{places, pause_view, IsPlace};
ghost use Rattle.vs_maps.specs.Ranges.{HasSignal, HasTermAt, now_at, pause_terms};
ghost use Rattle.vs_maps.specs.Walks.{WalkFrom, AreMarked, HasControl, HasTime, InLate, InHot, IsBefore, IsControlBefore, IsDelayBefore, is_control, takes_time};
ghost use Rattle.vs_graph.specs.Rows.{AreRows};
ghost use Rattle.vs_design.specs.declared.statement.EventTerm.{EventTerm};

use crate::along::Along;
use crate::pauses::Pause;
use crate::tables::Tables;
use std::alloc::{AllocError, Global};
use vs_design::EventTerm;
use vs_graph::{Family, Rows, Rule, clear_marks, gather};

/// Marks which of the things below a number keep a rule.
pub fn marks_of<R: Rule>(alloc: Global, rule: &R, n: usize) -> Result<Vec<bool>, AllocError>
    ensures len { IfOk result (λ marks. length marks.items ≡ n) }
    ensures exact { IfOk result (λ marks. AreMarked (R.keeps rule.now) n marks.items) }
{
    let mut marks = Vec::new(alloc);
    for i in 0..n {
        let keeps = rule.test(alloc, i)?;
        marks.push(keeps)?;
    }
    Ok(marks)
}

// Whether a pause is a control.
fn is_control(pause: Pause) -> bool
    ensures { result ≡ is_control (pause_view pause.entry) }
{
    match pause {
        Pause::Nothing => false,
        Pause::Delay(_, _) | Pause::Event(_, _) => true,
    }
}

/// The terms for one of which a pause waits.
pub(crate) fn pause_terms<'a>(pause: Pause<'a>) -> &'a [EventTerm]
    ensures { result.now ≡ pause_terms (pause_view pause.entry) }
{
    match pause {
        Pause::Event(_, terms) => terms,
        Pause::Nothing | Pause::Delay(_, _) => &[],
    }
}

// Controls.
#[derive(Drop)]
struct Controls<'a> {
    tables: &'a Tables<'a>,
}

impl<'a> Rule for Controls<'a> {
    ghost keeps = { λ f p. HasControl f.tables.now p };

    fn test(&self, _alloc: Global, i: usize) -> Result<bool, AllocError> {
        Ok(is_control(self.tables.pause(i)))
    }
}

// Whether a pause is a delay of more than zero ticks.
fn takes_time(pause: Pause) -> bool
    ensures { result ≡ takes_time (pause_view pause.entry) }
{
    match pause {
        Pause::Delay(_, ticks) => ticks > 0,
        Pause::Nothing | Pause::Event(_, _) => false,
    }
}

// Delay controls of more than zero ticks.
#[derive(Drop)]
struct Delays<'a> {
    tables: &'a Tables<'a>,
}

impl<'a> Rule for Delays<'a> {
    ghost keeps = { λ f p. HasTime f.tables.now p };

    fn test(&self, _alloc: Global, i: usize) -> Result<bool, AllocError> {
        Ok(takes_time(self.tables.pause(i)))
    }
}

// Writes of a signal by `=`.
#[derive(Drop)]
struct Writes<'a> {
    tables: &'a Tables<'a>,
    signal: usize,
}

impl<'a> Rule for Writes<'a> {
    ghost keeps = { λ f p. HasSignal (now_at f.tables.now p) f.signal };

    fn test(&self, _alloc: Global, i: usize) -> Result<bool, AllocError> {
        Ok(self.tables.writes_now(i, self.signal))
    }
}

// The places where the ways of points that are marked lead.
#[derive(Drop)]
struct Starts<'a> {
    tables: &'a Tables<'a>,
    marks: &'a [bool],
    ghost long: { length marks.now ≡ places tables.now },
}

impl<'a> Family for Starts<'a> {
    ghost has = { λ f p s.
        (IsPlace f.tables.now p × IsTrue (slice_index_or f.marks.now p false)) × Contains (stops_tos f.tables.now.stops p) s };

    fn put(&self, _alloc: Global, i: usize, out: &mut Vec<usize>) -> Result<(), AllocError> {
        if i >= self.marks.len() {
            return Ok(());
        }
        if self.marks[i] && self.tables.is_point(i) {
            out.extend_from_slice(self.tables.tos(i))?;
        }
        Ok(())
    }
}

/// The places to which walks along the ways that count lead, once a way from one of the points that keep a rule has been gone: a mark for each
/// place. It takes as long as there are places and ways.
pub fn walks_from<'a, R: Rule>(
    alloc: Global,
    tables: &'a Tables<'a>,
    along: Along,
    rule: &R,
) -> Result<Vec<bool>, AllocError>
    ensures len { IfOk result (λ marks. length marks.items ≡ places tables.entry.now) }
    ensures exact { IfOk result (λ marks.
        AreMarked (WalkFrom tables.entry.now along (R.keeps rule.now)) (places tables.entry.now) marks.items) }
{
    tables.leads_in();
    let marks = marks_of(alloc, rule, tables.places())?;
    let starts = Starts {
        tables: &*tables,
        marks: &marks,
    };
    let seeds = gather(alloc, &starts, tables.places())?;
    tables.along(alloc, along, &seeds)
}

/// The places to which a path leads once a control has been passed, one of zero ticks too: a mark for each.
pub fn late<'a>(alloc: Global, tables: &'a Tables<'a>) -> Result<Vec<bool>, AllocError>
    ensures len { IfOk result (λ marks. length marks.items ≡ places tables.entry.now) }
    ensures exact { IfOk result (λ marks. AreMarked (InLate tables.entry.now) (places tables.entry.now) marks.items) }
{
    walks_from(alloc, tables, Along::Any, &Controls { tables })
}

/// The places to which a path that takes no time leads from a write of a signal by `=`, by wide rules past a turn that is sure by it alone: a mark
/// for each.
pub fn hot<'a>(
    alloc: Global,
    tables: &'a Tables<'a>,
    wide: bool,
    signal: usize,
) -> Result<Vec<bool>, AllocError>
    ensures len { IfOk result (λ marks. length marks.items ≡ places tables.entry.now) }
    ensures exact { IfOk result (λ marks.
        AreMarked (InHot wide tables.entry.now signal) (places tables.entry.now) marks.items) }
{
    walks_from(
        alloc,
        tables,
        Along::ZeroTime(wide),
        &Writes { tables, signal },
    )
}

// The places to which a walk along the ways that count leads from a place, where that keeps a rule.
fn places_after<'a, R: Rule>(
    alloc: Global,
    tables: &'a Tables<'a>,
    along: Along,
    rule: &R,
    place: usize,
    marks: &mut Vec<bool>,
) -> Result<Vec<usize>, AllocError>
    requires { AreClear (places tables.now) marks.old.items }
    ensures clear { OnOk result (AreClear (places tables.entry.now) marks.new.items) }
    ensures exact { IfOk result (λ all. (p : ℕ) →
        (Contains all.items p ↔ IsBefore tables.entry.now along (R.keeps rule.now) place p)) }
{
    tables.leads_in();
    if place >= tables.places() {
        return Ok(Vec::new(alloc));
    }
    if !tables.is_point(place) {
        return Ok(Vec::new(alloc));
    }
    let keeps = rule.test(alloc, place)?;
    if !keeps {
        return Ok(Vec::new(alloc));
    }
    tables.places_from(alloc, along, tables.tos(place), marks)
}

// For each place those that keep a rule from which a walk along the ways that count leads to it. It takes as long as these rows are, and the ways
// of their places.
fn rows_before<'a, R: Rule>(
    alloc: Global,
    tables: &'a Tables<'a>,
    along: Along,
    rule: &R,
) -> Result<Rows<usize>, AllocError>
    ensures len { IfOk result (λ table. length table ≡ places tables.entry.now) }
    ensures exact { IfOk result (λ table.
        AreRows (IsBefore tables.entry.now along (R.keeps rule.now)) (places tables.entry.now) (places tables.entry.now) table) }
{
    let count = tables.places();
    let mut table = Rows::empty(alloc, count)?;
    let mut marks = clear_marks(alloc, count)?;
    for q in 0..count {
        let after = places_after(alloc, &*tables, along, rule, q, &mut marks)?;
        table.put_all(&after, q)?;
    }
    Ok(table)
}

/// For each place the controls from which a walk along the ways that count leads to it. It takes as long as these rows are, and the ways of their
/// places.
pub fn controls_before<'a>(
    alloc: Global,
    tables: &'a Tables<'a>,
    along: Along,
) -> Result<Rows<usize>, AllocError>
    ensures len { IfOk result (λ table. length table ≡ places tables.entry.now) }
    ensures exact { IfOk result (λ table.
        AreRows (IsControlBefore tables.entry.now along) (places tables.entry.now) (places tables.entry.now) table) }
{
    rows_before(alloc, tables, along, &Controls { tables })
}

/// For each place the delay controls of more than zero ticks from which a walk that takes no time leads to it, past a turn that is sure by it alone.
/// It takes as long as these rows are, and the ways of their places.
pub fn delays_before<'a>(alloc: Global, tables: &'a Tables<'a>) -> Result<Rows<usize>, AllocError>
    ensures len { IfOk result (λ table. length table ≡ places tables.entry.now) }
    ensures exact { IfOk result (λ table.
        AreRows (IsDelayBefore tables.entry.now) (places tables.entry.now) (places tables.entry.now) table) }
{
    rows_before(alloc, tables, Along::ZeroTime(true), &Delays { tables })
}

/// The terms of all event controls of a text (IEEE 1364-2005, clause 9.7.2).
pub fn terms<'a>(alloc: Global, tables: &'a Tables<'a>) -> Result<Vec<EventTerm>, AllocError>
    ensures { IfOk result (λ all. (term : EventTerm) → (Contains all.items term ↔ HasTermAt tables.entry.now term)) }
{
    tables.leads_in();
    let mut all = Vec::new(alloc);
    for p in 0..tables.places() {
        if tables.is_point(p) {
            all.extend_from_slice(pause_terms(tables.pause(p)))?;
        }
    }
    Ok(all)
}
