//! The ranges that are written, read and shown at a place.
ghost use Rattle.std.specs.Prelude.{◌≡◌, ◌++◌, ◌↔◌, map, IfOk, OnOk, IsTrue};
ghost use Rattle.std.specs.List.{list_any};
ghost use Rattle.vs_design.specs.Uses.{aim_range, is_of, joined, reads, writes_signal};
ghost use Rattle.vs_design.specs.Statements.{all_reads};
ghost use Rattle.vs_design.specs.declared.statement.Statement.TheViews.{out-Statement};
ghost use Rattle.vs_process.specs.Stops.{statement_view};
ghost use Rattle.vs_rules.specs.vs_process.specs.Threads.{item_reads, own_reads, own_shows};
ghost use Rattle.vs_rules.specs.Paths.{statement_now, statement_later};
ghost use Rattle.vs_maps.specs.Ranges.{ranges_of, HasSignal};
ghost use Rattle.vs_maps.specs.Ranges as ranges;

use crate::tables::Tables;
use std::alloc::{AllocError, Global};
use vs_design::{
    Aim, BitRange, CallKind, Statement, Target, Typed, reads, statement_reads, writes,
};

// ---- of a statement

/// The ranges that a statement writes by `=`, without those in it.
pub fn statement_now(alloc: Global, s: &Statement) -> Result<Vec<BitRange>, AllocError>
    ensures { IfOk result (λ rs. rs.items ≡ statement_now (out-Statement s.now)) }
{
    match s {
        Statement::Assign(_, target, _) => writes(alloc, target),
        _ => Ok(Vec::new(alloc)),
    }
}

/// The ranges that a statement writes by `<=`, without those in it.
pub fn statement_later(alloc: Global, s: &Statement) -> Result<Vec<BitRange>, AllocError>
    ensures { IfOk result (λ rs. rs.items ≡ statement_later (out-Statement s.now)) }
{
    match s {
        Statement::Later(_, _, target, _) => writes(alloc, target),
        _ => Ok(Vec::new(alloc)),
    }
}

fn push_label_reads(
    alloc: Global,
    out: &mut Vec<BitRange>,
    labels: &[Typed],
) -> Result<(), AllocError>
    ensures { OnOk result (out.new.items ≡ out.old.items ++ all_reads labels.now) }
{
    for e in labels {
        let ranges = reads(alloc, e)?;
        out.extend_from_slice(&ranges)?;
    }
    Ok(())
}

pub(crate) fn case_reads(
    alloc: Global,
    selector: &Typed,
    items: &[(Vec<Typed>, Statement)],
) -> Result<Vec<BitRange>, AllocError>
    ensures { IfOk result (λ rs. rs.items ≡ reads selector.now ++ joined (map item_reads items.now)) }
{
    let mut out = reads(alloc, selector)?;
    for (labels, _) in items {
        push_label_reads(alloc, &mut out, labels)?;
    }
    Ok(out)
}

/// The ranges that a statement reads, without those in it: indices of targets and labels are read too. Arguments of calls and event terms are none.
pub fn own_reads(alloc: Global, s: &Statement) -> Result<Vec<BitRange>, AllocError>
    ensures { IfOk result (λ rs. rs.items ≡ own_reads (out-Statement s.now)) }
{
    match s {
        Statement::Assign(_, _, _) | Statement::Later(_, _, _, _) => statement_reads(alloc, s),
        Statement::If(_, e, _, _) | Statement::While(_, e, _) | Statement::Repeat(_, _, e, _) =>
            reads(alloc, e),
        Statement::Case(_, _, selector, items) => case_reads(alloc, selector, items),
        _ => Ok(Vec::new(alloc)),
    }
}

fn statement_shows(alloc: Global, s: &Statement) -> Result<Vec<BitRange>, AllocError>
    ensures { IfOk result (λ rs. rs.items ≡ own_shows (out-Statement s.now)) }
{
    match s {
        Statement::Call(_, call) => {
            if call.kind == CallKind::Display {
                statement_reads(alloc, s)
            } else {
                Ok(Vec::new(alloc))
            }
        }
        _ => Ok(Vec::new(alloc)),
    }
}

fn is_aim_of(aim: &Aim, signal: usize) -> bool
    ensures { result ≡ is_of signal (aim_range aim.now) }
{
    match aim {
        Aim::Fixed(s) => s.signal == signal,
        Aim::Chosen(s, _, _) => s.signal == signal,
    }
}

// Whether a target names a signal.
fn target_names(target: &Target, signal: usize) -> bool
    ensures { result ≡ writes_signal target.now signal }
{
    for aim in &target.parts {
        if is_aim_of(aim, signal) {
            return true;
        }
    }
    false
}

fn statement_writes_now(s: &Statement, signal: usize) -> bool
    ensures { result ≡ list_any (is_of signal) (statement_now (out-Statement s.now)) }
{
    match s {
        Statement::Assign(_, target, _) => target_names(target, signal),
        _ => false,
    }
}

fn statement_writes_later(s: &Statement, signal: usize) -> bool
    ensures { result ≡ list_any (is_of signal) (statement_later (out-Statement s.now)) }
{
    match s {
        Statement::Later(_, _, target, _) => target_names(target, signal),
        _ => false,
    }
}

// ---- of a statement that may be there

fn now_of(alloc: Global, s: Option<&Statement>) -> Result<Vec<BitRange>, AllocError>
    ensures { IfOk result (λ rs. rs.items ≡ ranges_of statement_now (statement_view s.entry)) }
{
    match s {
        None => Ok(Vec::new(alloc)),
        Some(s) => statement_now(alloc, s),
    }
}

fn later_of(alloc: Global, s: Option<&Statement>) -> Result<Vec<BitRange>, AllocError>
    ensures { IfOk result (λ rs. rs.items ≡ ranges_of statement_later (statement_view s.entry)) }
{
    match s {
        None => Ok(Vec::new(alloc)),
        Some(s) => statement_later(alloc, s),
    }
}

fn reads_of(alloc: Global, s: Option<&Statement>) -> Result<Vec<BitRange>, AllocError>
    ensures { IfOk result (λ rs. rs.items ≡ ranges_of own_reads (statement_view s.entry)) }
{
    match s {
        None => Ok(Vec::new(alloc)),
        Some(s) => own_reads(alloc, s),
    }
}

fn shows_of(alloc: Global, s: Option<&Statement>) -> Result<Vec<BitRange>, AllocError>
    ensures { IfOk result (λ rs. rs.items ≡ ranges_of own_shows (statement_view s.entry)) }
{
    match s {
        None => Ok(Vec::new(alloc)),
        Some(s) => statement_shows(alloc, s),
    }
}

fn writes_now_of(s: Option<&Statement>, signal: usize) -> bool
    ensures { result ≡ list_any (is_of signal) (ranges_of statement_now (statement_view s.entry)) }
{
    match s {
        None => false,
        Some(s) => statement_writes_now(s, signal),
    }
}

fn writes_later_of(s: Option<&Statement>, signal: usize) -> bool
    ensures { result ≡ list_any (is_of signal) (ranges_of statement_later (statement_view s.entry)) }
{
    match s {
        None => false,
        Some(s) => statement_writes_later(s, signal),
    }
}

impl<'a> Tables<'a> {
    /// The statement at a place, where there is one.
    pub fn statement(&self, place: usize) -> Option<&'a Statement>
        ensures { statement_view result ≡ ranges.statement_at self.now place }
    {
        match self.stop(place) {
            None => None,
            Some(stop) => stop.statement,
        }
    }

    /// The ranges that the statement at a place writes by `=`.
    pub fn now_at(&self, alloc: Global, place: usize) -> Result<Vec<BitRange>, AllocError>
        ensures { IfOk result (λ rs. rs.items ≡ ranges.now_at self.now place) }
    {
        now_of(alloc, self.statement(place))
    }

    /// The ranges that it writes by `<=`.
    pub fn later_at(&self, alloc: Global, place: usize) -> Result<Vec<BitRange>, AllocError>
        ensures { IfOk result (λ rs. rs.items ≡ ranges.later_at self.now place) }
    {
        later_of(alloc, self.statement(place))
    }

    /// The ranges that it reads, indices of targets included. Arguments of calls and event terms are none.
    pub fn reads_at(&self, alloc: Global, place: usize) -> Result<Vec<BitRange>, AllocError>
        ensures { IfOk result (λ rs. rs.items ≡ ranges.reads_at self.now place) }
    {
        reads_of(alloc, self.statement(place))
    }

    /// The ranges that it shows by `$display` (IEEE 1364-2005, clause 17.1).
    pub fn shows_at(&self, alloc: Global, place: usize) -> Result<Vec<BitRange>, AllocError>
        ensures { IfOk result (λ rs. rs.items ≡ ranges.shows_at self.now place) }
    {
        shows_of(alloc, self.statement(place))
    }

    /// Whether the statement at a place writes a signal by `=`.
    pub fn writes_now(&self, place: usize, signal: usize) -> bool
        ensures { IsTrue result ↔ HasSignal (ranges.now_at self.now place) signal }
    {
        writes_now_of(self.statement(place), signal)
    }

    /// Whether it writes the signal by `<=`.
    pub fn writes_later(&self, place: usize, signal: usize) -> bool
        ensures { IsTrue result ↔ HasSignal (ranges.later_at self.now place) signal }
    {
        writes_later_of(self.statement(place), signal)
    }
}
