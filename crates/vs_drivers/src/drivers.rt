//! The drivers of a design: what each needs, and which write a signal.
ghost use Rattle.std.specs.Prelude.{ℕ, ◌+◌, ◌≡◌, ◌≤◌, ◌<◌, ◌↔◌, ◌⊎◌, false, length, slice_index_or, IfOk, IsTrue};
ghost use Rattle.std.specs.List.{Contains};
ghost use Rattle.vs_design.specs.Kinds.{is_variable};
ghost use Rattle.vs_drivers.specs.declared.writers.Written as written;
ghost use Rattle.vs_maps.specs.Texts.{AreCharts};
ghost use Rattle.vs_drivers.specs.Walks.{Passed, Named, AreFreed};
ghost use Rattle.vs_drivers.specs.Wires.{wiring, drivers, IsFree, WritesAt, NeedsAt};

use crate::walks::passed;
use crate::wires::Wires;
use crate::writers::{Written, writers_of};
use std::alloc::{AllocError, Global};
use std::marker::Model;
use vs_design::{BitRange, Design, Signal, SignalKind};
use vs_maps::Tables;
use vs_maps::vs_graph::Rows;

/// The drivers of a design. A contract sees the design and the marks of its processes of kind comb.
#[derive(Drop)]
pub(crate) struct Drivers<'a> {
    design: &'a Design,
    // For each process whether it is of kind comb.
    blocks: &'a [bool],
    // For each driver what it reads and waits for.
    needs: Vec<Vec<BitRange>>,
    // For each signal what drivers write of it.
    writers: Rows<Written>,
}

impl<'a> Model for Drivers<'a> {
    ghost use Rattle.std.specs.Coded.{codes};
    ghost use Rattle.vs_design.specs.contracts.expression.Typed as expression;
    ghost use Rattle.vs_design.specs.contracts.statement.Statement as statement;
    ghost use Rattle.vs_drivers.specs.Walks.{AreDrivers};
    ghost use Rattle.vs_drivers.specs.Wires.{Wiring, wiring};

    ghost Value = { Wiring };

    ghost coded = { Prim.hlevel (codes, statement.the_row.coded, expression.the_row.coded) };

    ghost view = { λ s. wiring s.design.now s.blocks.now };

    ghost invariant = { λ s. AreDrivers (wiring s.design.now s.blocks.now) s.needs.items s.writers };
}

/// Whether a signal is declared as a variable.
pub fn is_variable(kind: SignalKind) -> bool
    ensures { result ≡ is_variable kind }
{
    match kind {
        SignalKind::Wire => false,
        SignalKind::Reg | SignalKind::Integer => true,
    }
}

// Whether one of some ranges is written by a driver whose number isn't below this one.
fn has_process(row: &[Written], first: usize) -> bool
    ensures { IsTrue result ↔ ((w : written.Written) × Contains row.now w × (first ≤ w.driver)) }
{
    for w in row {
        if w.driver >= first {
            return true;
        }
    }
    false
}

// Sets a mark, where there is one for the number.
fn mark(marks: &mut Vec<bool>, u: usize)
    ensures len { length marks.new.items ≡ length marks.old.items }
    ensures exact { (k : ℕ) → (IsTrue (slice_index_or marks.new.items k false) ↔
        (IsTrue (slice_index_or marks.old.items k false) ⊎ ((k ≡ u) × (k < length marks.old.items)))) }
{
    if u < marks.len() {
        marks[u] = true;
    }
}

impl<'a> Drivers<'a> {
    /// The drivers of a design, by the tables of its processes and their marks.
    pub(crate) fn new(
        alloc: Global,
        design: &'a Design,
        tables: &'a [Tables<'a>],
        blocks: &'a [bool],
    ) -> Result<Drivers<'a>, AllocError>
        requires { AreCharts design.now tables.now }
        ensures { IfOk result (λ x. x ≡ wiring design.entry.now blocks.entry.now) }
    {
        let wires = Wires {
            design,
            tables,
            blocks,
        };
        let needs = wires.needs(alloc)?;
        let writers = writers_of(alloc, &wires)?;
        Ok(Drivers {
            design,
            blocks,
            needs,
            writers,
        })
    }

    /// The signals of the design.
    pub(crate) fn signals(&self) -> &'a [Signal]
        ensures { result.now ≡ self.now.design.signals }
    {
        self.design.signals()
    }

    /// What drivers write of a signal.
    pub(crate) fn writers(&self, v: usize) -> &[Written]
        ensures { (w : written.Written) → (Contains result.now w ↔
            ((v < length self.now.design.signals) × (w.range.signal ≡ v) × WritesAt self.now w.driver w.range)) }
    {
        self.writers.row(v)
    }

    /// What the driver of a number reads and waits for.
    pub(crate) fn needs(&self, n: usize) -> &[BitRange]
        ensures { (r : BitRange) → (Contains result.now r ↔ ((n < drivers self.now.design) × NeedsAt self.now n r)) }
    {
        match self.needs.get(n) {
            None => &[],
            Some(row) => row,
        }
    }

    /// The number of the first process.
    pub(crate) fn first_process(&self) -> usize
        ensures first { result ≡ length self.now.design.assigns }
        ensures within { result ≤ drivers self.now.design }
    {
        self.design.assigns().len()
    }

    /// What a process of kind comb reads and waits for.
    pub(crate) fn block_needs(&self, i: usize) -> &[BitRange]
        ensures { (r : BitRange) → (Contains result.now r ↔ ((i < length self.now.design.processes)
            × NeedsAt self.now (length self.now.design.assigns + i) r)) }
    {
        if i >= self.design.processes().len() {
            return &[];
        }
        self.needs(self.design.assigns().len() + i)
    }

    /// The drivers to which walks lead backward from some ranges: a mark for each number.
    pub(crate) fn passed(&self, alloc: Global, ranges: &[BitRange]) -> Result<Vec<bool>, AllocError>
        ensures len { IfOk result (λ marks. length marks.items ≡ drivers self.now.design) }
        ensures exact { IfOk result (λ marks. (n : ℕ) →
            (IsTrue (slice_index_or marks.items n false) ↔ Passed self.now ranges.now n)) }
    {
        let marks = passed(alloc, self.signals(), &self.needs, &self.writers, ranges)?;
        Ok(marks)
    }

    /// Whether a signal is a variable that no process of kind comb writes.
    pub(crate) fn is_free(&self, v: usize) -> bool
        ensures { IsTrue result ↔ IsFree self.now v }
    {
        match self.signals().get(v) {
            None => false,
            Some(s) => {
                if !is_variable(s.kind) {
                    return false;
                }
                !has_process(self.writers(v), self.design.assigns().len())
            }
        }
    }

    /// Sets the mark of a signal, where it is such a variable.
    pub(crate) fn mark_one(&self, marks: &mut Vec<bool>, v: usize)
        requires { length marks.old.items ≡ length self.now.design.signals }
        ensures len { length marks.new.items ≡ length marks.old.items }
        ensures exact { (k : ℕ) → (IsTrue (slice_index_or marks.new.items k false) ↔
            (IsTrue (slice_index_or marks.old.items k false) ⊎ (IsFree self.now k × (k ≡ v)))) }
    {
        if self.is_free(v) {
            mark(marks, v);
        }
    }

    // Sets the marks of those that ranges name.
    fn mark_all(&self, marks: &mut Vec<bool>, ranges: &[BitRange])
        requires { length marks.old.items ≡ length self.now.design.signals }
        ensures { AreFreed self.now marks.old.items ranges.now marks.new.items }
    {
        for range in ranges {
            self.mark_one(marks, range.signal);
        }
    }

    /// The variables in the cones of some ranges that no process of kind comb writes: a mark for each signal.
    pub(crate) fn cone(&self, alloc: Global, ranges: &[BitRange]) -> Result<Vec<bool>, AllocError>
        ensures len { IfOk result (λ marks. length marks.items ≡ length self.now.design.signals) }
        ensures exact { IfOk result (λ marks. (u : ℕ) →
            (IsTrue (slice_index_or marks.items u false) ↔ (IsFree self.now u × Named self.now ranges.now u))) }
    {
        let mut marks = vec![in alloc; false; self.signals().len()]?;
        self.mark_all(&mut marks, ranges);
        let passed = self.passed(alloc, ranges)?;
        for n in 0..passed.len() {
            if passed[n] {
                self.mark_all(&mut marks, self.needs(n));
            }
        }
        Ok(marks)
    }
}
