//! What drivers write and need, by their numbers.
ghost use Rattle.std.specs.Prelude.{ℕ, ◌≡◌, ◌<◌, ◌↔◌, false, length, slice_index_or, IfOk};
ghost use Rattle.std.specs.List.{Contains};
ghost use Rattle.vs_design.specs.Uses.{reads};
ghost use Rattle.vs_rules.specs.Drivers.{block, DriverNeeds};
ghost use Rattle.vs_drivers.specs.Walks.{AreNeeds};
ghost use Rattle.vs_drivers.specs.Wires.{drivers, WritesAt, NeedsAt};

use crate::names::push_ranges;
use crate::once::distinct;
use std::alloc::{AllocError, Global};
use std::marker::Model;
use vs_design::{BitRange, Design, reads, writes};
use vs_maps::vs_graph::is_marked;
use vs_maps::{Tables, terms, text_reads};
use vs_process::statement_writes;

/// A design, the tables of its processes, and a mark for each of these: whether it is of kind comb.
#[derive(Drop)]
pub(crate) struct Wires<'a> {
    pub(crate) design: &'a Design,
    pub(crate) tables: &'a [Tables<'a>],
    pub(crate) blocks: &'a [bool],
}

impl<'a> Model for Wires<'a> {
    ghost use Rattle.std.specs.Coded.{codes};
    ghost use Rattle.vs_design.specs.contracts.expression.Typed as expression;
    ghost use Rattle.vs_design.specs.contracts.statement.Statement as statement;
    ghost use Rattle.vs_maps.specs.Texts.{AreCharts};
    ghost use Rattle.vs_drivers.specs.Wires.{Wiring, wiring};

    ghost Value = { Wiring };

    ghost coded = { Prim.hlevel (codes, statement.the_row.coded, expression.the_row.coded) };

    ghost view = { λ w. wiring w.design.now w.blocks.now };

    ghost invariant = { λ w. AreCharts w.design.now w.tables.now };
}

impl<'a> Wires<'a> {
    /// How many drivers there are at most.
    pub(crate) fn count(&self) -> usize
        ensures { result ≡ drivers self.now.design }
    {
        self.design.assigns().len() + self.design.processes().len()
    }

    // Whether a process is of kind comb.
    fn is_block(&self, i: usize) -> bool
        ensures { result ≡ slice_index_or self.now.blocks i false }
    {
        is_marked(self.blocks, i)
    }

    // What the driver of a number writes.
    fn written(&self, alloc: Global, n: usize) -> Result<Vec<BitRange>, AllocError>
        ensures { IfOk result (λ rs. (r : BitRange) → (Contains rs.items r ↔ WritesAt self.now n r)) }
    {
        let assigns = self.design.assigns();
        if n < assigns.len() {
            return writes(alloc, &assigns[n].target);
        }
        let i = n - assigns.len();
        let processes = self.design.processes();
        if i >= processes.len() {
            return Ok(Vec::new(alloc));
        }
        if !self.is_block(i) {
            return Ok(Vec::new(alloc));
        }
        statement_writes(alloc, &processes[i].body)
    }

    /// The same, each range once.
    pub(crate) fn written_once(&self, alloc: Global, n: usize) -> Result<Vec<BitRange>, AllocError>
        ensures { IfOk result (λ rs. (r : BitRange) → (Contains rs.items r ↔ WritesAt self.now n r)) }
    {
        let ranges = self.written(alloc, n)?;
        Ok(distinct(ranges))
    }

    // What a process of kind comb reads and waits for.
    fn block_needs(&self, alloc: Global, i: usize) -> Result<Vec<BitRange>, AllocError>
        requires { i < length self.now.design.processes }
        ensures { IfOk result (λ rs. (r : BitRange) → (Contains rs.items r ↔ DriverNeeds self.now.design (block i) r)) }
    {
        let tables = self.tables;
        let mut out = text_reads(alloc, &self.design.processes()[i].body)?;
        let terms = terms(alloc, &tables[i])?;
        push_ranges(&mut out, &terms)?;
        Ok(out)
    }

    // What the driver of a number reads and waits for.
    fn needed(&self, alloc: Global, n: usize) -> Result<Vec<BitRange>, AllocError>
        requires { n < drivers self.now.design }
        ensures { IfOk result (λ rs. (r : BitRange) → (Contains rs.items r ↔ NeedsAt self.now n r)) }
    {
        let assigns = self.design.assigns();
        if n < assigns.len() {
            return reads(alloc, &assigns[n].source);
        }
        let i = n - assigns.len();
        if !self.is_block(i) {
            return Ok(Vec::new(alloc));
        }
        self.block_needs(alloc, i)
    }

    // The same, each range once.
    fn needed_once(&self, alloc: Global, n: usize) -> Result<Vec<BitRange>, AllocError>
        requires { n < drivers self.now.design }
        ensures { IfOk result (λ rs. (r : BitRange) → (Contains rs.items r ↔ NeedsAt self.now n r)) }
    {
        let ranges = self.needed(alloc, n)?;
        Ok(distinct(ranges))
    }

    /// For each driver what it reads and waits for, each range once.
    pub(crate) fn needs(&self, alloc: Global) -> Result<Vec<Vec<BitRange>>, AllocError>
        ensures { IfOk result (λ table. AreNeeds self.now table.items) }
    {
        let mut table = Vec::new(alloc);
        for n in 0..self.count() {
            let ranges = self.needed_once(alloc, n)?;
            table.push(ranges)?;
        }
        Ok(table)
    }
}
