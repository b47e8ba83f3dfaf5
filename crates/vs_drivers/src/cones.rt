//! The cones of ranges: the sources that are reached backward from them through drivers.
ghost use Rattle.std.specs.Prelude.{ℕ, ◌≡◌, ◌<◌, ◌↔◌, false, length, slice_index_or, IfOk, IsTrue};
ghost use Rattle.std.specs.List.{Contains};
ghost use Rattle.vs_design.specs.declared.range.BitRange as range;
ghost use Rattle.vs_rules.specs.Claims.{IsBlock};
ghost use Rattle.vs_rules.specs.Drivers.{block, IsDriver, DriverNeeds, DriverWrites, IsSource, IsBlocking, InCone, Passes};
ghost use Rattle.vs_drivers.specs.Assigned.{AssignsIn};
ghost use Rattle.vs_maps.specs.Texts.{AreCharts};
ghost use Rattle.vs_drivers.specs.Wires.{Wiring, wiring, driver_at, IsFree, OfWiring};

use crate::drivers::Drivers;
use crate::writers::Written;
use std::alloc::{AllocError, Global};
use std::marker::Model;
use vs_design::BitRange;
use vs_maps::vs_graph::{Rule, is_marked};
use vs_maps::{Sites, any_now, marks_of};

/// The drivers of a design, and the cones of what they drive. A contract sees the design, and a mark for each of its processes: whether it is of
/// kind comb.
#[derive(Drop)]
pub struct Cones<'a> {
    drivers: Drivers<'a>,
    // For each signal whether it is a blocking source.
    blocking: Vec<bool>,
    // The blocking sources.
    listed: Vec<usize>,
}

impl<'a> Model for Cones<'a> {
    ghost use Rattle.std.specs.Coded.{codes};
    ghost use Rattle.vs_design.specs.contracts.expression.Typed as expression;
    ghost use Rattle.vs_design.specs.contracts.statement.Statement as statement;
    ghost use Rattle.vs_drivers.specs.Assigned.{AreBlocking};
    ghost use Rattle.vs_drivers.specs.Wires.{Wiring};

    ghost Value = { Wiring };

    ghost coded = { Prim.hlevel (codes, statement.the_row.coded, expression.the_row.coded) };

    ghost view = { λ s. s.drivers };

    ghost invariant = { λ s. AreBlocking s.drivers s.blocking.items s.listed.items };
}

// A list of one number, or an empty one.
fn one_if(alloc: Global, u: usize, yes: bool) -> Result<Vec<usize>, AllocError>
    ensures { IfOk result (λ all. (k : ℕ) → (Contains all.items k ↔ (IsTrue yes × (u ≡ k)))) }
{
    let mut all = Vec::new(alloc);
    if yes {
        all.push(u)?;
    }
    Ok(all)
}

// The numbers of a list whose marks are set.
fn chosen(alloc: Global, among: &[usize], marks: &[bool]) -> Result<Vec<usize>, AllocError>
    ensures { IfOk result (λ all. (u : ℕ) →
        (Contains all.items u ↔ (Contains among.now u × IsTrue (slice_index_or marks.now u false)))) }
{
    let mut all = Vec::new(alloc);
    for u in among {
        if is_marked(marks, *u) {
            all.push(*u)?;
        }
    }
    Ok(all)
}

// The numbers whose marks are set.
fn marked(alloc: Global, marks: &[bool]) -> Result<Vec<usize>, AllocError>
    ensures { IfOk result (λ all. (u : ℕ) → (Contains all.items u ↔ IsTrue (slice_index_or marks.now u false))) }
{
    let mut all = Vec::new(alloc);
    for u in 0..marks.len() {
        if marks[u] {
            all.push(u)?;
        }
    }
    Ok(all)
}

// The blocking sources.
#[derive(Drop)]
struct Blocking<'a> {
    drivers: &'a Drivers<'a>,
    sites: &'a Sites<'a>,
    ghost within: { (v : ℕ) → IsFree drivers.now v → v < length sites.now.design.signals },
}

impl<'a> Rule for Blocking<'a> {
    ghost keeps = { λ f u. IsFree f.drivers.now u × AssignsIn f.sites.now.charts u };

    fn test(&self, _alloc: Global, i: usize) -> Result<bool, AllocError> {
        if !self.drivers.is_free(i) {
            return Ok(false);
        }
        Ok(any_now(self.sites.of_signal(i)))
    }
}

impl<'a> Cones<'a> {
    /// The drivers of a design, by the sites of its texts, and a mark for each process: whether it is of kind comb. It takes as long as the design's
    /// texts are.
    pub fn new(
        alloc: Global,
        sites: &'a Sites<'a>,
        blocks: &'a [bool],
    ) -> Result<Cones<'a>, AllocError>
        requires { AreCharts sites.now.design sites.now.charts }
        ensures { IfOk result (λ x. x ≡ wiring sites.entry.now.design blocks.entry.now) }
    {
        let design = sites.design();
        let drivers = Drivers::new(alloc, design, sites.tables(), blocks)?;
        let rule = Blocking {
            drivers: &drivers,
            sites: &*sites,
        };
        let blocking = marks_of(alloc, &rule, design.signals().len())?;
        let listed = marked(alloc, &blocking)?;
        Ok(Cones {
            drivers,
            blocking,
            listed,
        })
    }

    /// Whether a signal is a source: a variable that no driver writes.
    pub fn is_source(&self, v: usize) -> bool
        ensures { OfWiring self.now (λ d c. (IsTrue result ↔ IsSource d c v)) }
    {
        self.drivers.is_free(v)
    }

    /// Whether a signal is a blocking source: one that a process writes by `=`.
    pub fn is_blocking(&self, v: usize) -> bool
        ensures { OfWiring self.now (λ d c. (IsTrue result ↔ IsBlocking d c v)) }
    {
        is_marked(&self.blocking, v)
    }

    /// The sources in the cones of some ranges: a mark for each signal. It takes as long as the texts of the drivers that the cones pass through,
    /// and as there are drivers and signals.
    pub fn cone_of(&self, alloc: Global, ranges: &[BitRange]) -> Result<Vec<bool>, AllocError>
        ensures len { IfOk result (λ marks. length marks.items ≡ length self.now.design.signals) }
        ensures exact { IfOk result (λ marks. OfWiring self.now (λ d c. (u : ℕ) → (IsTrue (slice_index_or marks.items u false) ↔
            ((r : range.BitRange) × Contains ranges.now r × InCone d c u r)))) }
    {
        let marks = self.drivers.cone(alloc, ranges)?;
        Ok(marks)
    }

    /// The sources in the cone of a range.
    pub fn sources_of(&self, alloc: Global, range: BitRange) -> Result<Vec<usize>, AllocError>
        ensures { IfOk result (λ all. OfWiring self.now (λ d c. (u : ℕ) → (Contains all.items u ↔ InCone d c u range))) }
    {
        let marks = self.drivers.cone(alloc, &[range])?;
        let all = marked(alloc, &marks)?;
        Ok(all)
    }

    /// The blocking sources in the cone of a range. For one of a signal that no driver writes it takes no time.
    pub fn blocking_of(&self, alloc: Global, range: BitRange) -> Result<Vec<usize>, AllocError>
        ensures { IfOk result (λ all. OfWiring self.now (λ d c. (u : ℕ) →
            (Contains all.items u ↔ (IsBlocking d c u × InCone d c u range)))) }
    {
        if self.drivers.writers(range.signal).is_empty() {
            return one_if(alloc, range.signal, is_marked(&self.blocking, range.signal));
        }
        let marks = self.drivers.cone(alloc, &[range])?;
        let all = chosen(alloc, &self.listed, &marks)?;
        Ok(all)
    }

    /// The processes of kind comb that the cones of some ranges pass through: a mark for each process.
    pub fn passed_by(&self, alloc: Global, ranges: &[BitRange]) -> Result<Vec<bool>, AllocError>
        ensures { IfOk result (λ marks. OfWiring self.now (λ d c. (j : ℕ) → (IsTrue (slice_index_or marks.items j false) ↔
            ((r : range.BitRange) × Contains ranges.now r × Passes d c (block j) r)))) }
    {
        let passed = self.drivers.passed(alloc, ranges)?;
        let marks = Vec::from_slice(alloc, &passed[self.drivers.first_process()..])?;
        Ok(marks)
    }

    /// What the driver of a number reads and waits for: the continuous assignments come first, then the processes.
    pub fn needs(&self, driver: usize) -> &[BitRange]
        ensures { OfWiring self.now (λ d c. (r : range.BitRange) → (Contains result.now r ↔
            (IsDriver d c (driver_at d driver) × DriverNeeds d (driver_at d driver) r))) }
    {
        self.drivers.needs(driver)
    }

    /// What a process of kind comb reads and waits for; nothing of another process.
    pub fn block_needs(&self, i: usize) -> &[BitRange]
        ensures { OfWiring self.now (λ d c. (r : range.BitRange) → (Contains result.now r ↔ (IsBlock d c i × DriverNeeds d (block i) r))) }
    {
        self.drivers.block_needs(i)
    }

    /// What drivers write of a signal of the design.
    pub fn writers(&self, v: usize) -> &[Written]
        ensures { OfWiring self.now (λ d c. (n : ℕ) (r : range.BitRange) → (Contains result.now (record { driver = n; range = r }) ↔
            ((v < length d.signals) × (r.signal ≡ v) × IsDriver d c (driver_at d n) × DriverWrites d (driver_at d n) r))) }
    {
        self.drivers.writers(v)
    }
}
