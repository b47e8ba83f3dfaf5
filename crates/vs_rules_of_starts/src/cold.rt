//! Combinational blocks that a run on the settled first store leaves as they are.
ghost use Rattle.std.specs.Prelude.{ℕ, ◌≡◌, ◌<◌, ◌↔◌, true, Some, length, slice_get, IfOk, IsTrue};
ghost use Rattle.vs_design.specs.declared.design.Process as declared;
ghost use Rattle.vs_design.specs.Stores as stores;
ghost use Rattle.vs_design.specs.Stores.{start_store};
ghost use Rattle.vs_rules.specs.vs_process.specs.Places.{Todo};
ghost use Rattle.vs_rules.specs.vs_process.specs.BlockDrivers.{IsSettledStart, sizes};
ghost use Rattle.vs_rules.specs.vs_process.specs.Executions.{is_combinational};
ghost use Rattle.vs_rules.specs.Blocks.{run_alone};
ghost use Rattle.vs_rules_of_starts.specs.Settled.{IsInOrder};
ghost use Rattle.vs_rules_of_starts.specs.Alone.{store_if, ReachesControl};
ghost use Rattle.vs_rules_of_starts.specs.Cold.{IsAfterControl, StaysWithin, StaysAtEach};

use crate::alone::arrive;
use crate::outputs::is_same_written;
use crate::settled::settled_start;
use std::alloc::{AllocError, Global};
use std::marker::Model;
use vs_design::{Design, Store};
use vs_rules::vs_process::{Code, Cursor, compile};

/// How many steps a block that starts cold may take to arrive at its control again.
pub const MAX_COLD_STEPS: u64 = 10_000;

/// A design, the store in which its executions begin, and that store with the continuous assignments settled, where it can be settled. A contract
/// sees the design.
#[derive(Drop)]
pub struct Beginning<'a> {
    design: &'a Design,
    start: Store<'a>,
    settled: Option<Store<'a>>,
}

impl<'a> Model for Beginning<'a> {
    ghost use Rattle.std.specs.Coded.{codes};
    ghost use Rattle.vs_design.specs.contracts.expression.Typed as expression;
    ghost use Rattle.vs_design.specs.contracts.statement.Statement as statement;
    ghost use Rattle.vs_design.specs.Parts.{Parts};
    ghost use Rattle.vs_rules_of_starts.specs.Cold.{AreFirst};

    ghost Value = { Parts };

    ghost coded = { Prim.hlevel (codes, statement.the_row.coded, expression.the_row.coded) };

    ghost view = { λ b. b.design.now };

    ghost invariant = { λ b. AreFirst b.design.now b.start b.settled };
}

/// Runs a process alone on a store, from after the control that its text comes to in two steps, for so many steps at most: whether it arrives at a
/// control again.
pub fn returns_to_control(
    alloc: Global,
    code: &Code,
    store: &mut Store,
    most: u64,
) -> Result<bool, AllocError>
    ensures { IfOk result (λ b. (behind : Todo) → ReachesControl code.now store.old behind →
        store_if b store.new ≡ run_alone most behind store.old) }
{
    let mut cursor = Cursor::start(alloc, code)?;
    let waits = arrive(alloc, &mut cursor, store, 2)?;
    if !waits {
        return Ok(false);
    }
    arrive(alloc, &mut cursor, store, most)
}

// Whether a combinational block that is run on a store from after its control arrives there again within so many steps, what it writes as it was
// at the start.
fn stays_within(
    alloc: Global,
    design: &Design,
    i: usize,
    settled: &Store,
    start: &Store,
    most: u64,
) -> Result<bool, AllocError>
    requires within { i < length design.now.processes }
    requires shape { (q : declared.Process) → slice_get design.now.processes i ≡ Some q → is_combinational q ≡ true }
    requires settled { sizes settled.now ≡ sizes (start_store design.now) }
    requires start { start.now ≡ start_store design.now }
    ensures { IfOk result (λ b. (behind : Todo) → IsAfterControl design.now i behind →
        (IsTrue b ↔ StaysWithin most design.now i behind settled.now)) }
{
    let mut store = settled.copy(alloc)?;
    let code = compile(alloc, &design.processes()[i].body)?;
    let arrives = returns_to_control(alloc, &code, &mut store, most)?;
    if !arrives {
        return Ok(false);
    }
    is_same_written(alloc, design, i, &store, start)
}

impl<'a> Beginning<'a> {
    /// The beginning of the executions of a design. The order has each continuous assignment after those that drive what it reads. It takes as
    /// long as the design has words, and the assignments.
    pub fn new(
        alloc: Global,
        design: &'a Design,
        order: &[usize],
    ) -> Result<Beginning<'a>, AllocError>
        requires order { IsInOrder design.now order.now }
        ensures { IfOk result (λ b. b ≡ design.entry.now) }
    {
        let start = Store::start(alloc, design)?;
        let settled = settled_start(alloc, design, order)?;
        Ok(Beginning {
            design,
            start,
            settled,
        })
    }

    /// Whether a combinational block that is run on the settled first store, from after its control, arrives there again within 10,000 steps, what
    /// it writes as it was at the start. It takes as long as the design has words, the text of the block, and the steps.
    pub fn stays_cold(&self, alloc: Global, i: usize) -> Result<bool, AllocError>
        requires within { i < length self.now.processes }
        requires shape { (q : declared.Process) → slice_get self.now.processes i ≡ Some q → is_combinational q ≡ true }
        ensures { IfOk result (λ b. (IsTrue b ↔ StaysAtEach self.entry.now i)) }
    {
        match &self.settled {
            None => Ok(false),
            Some(settled) => stays_within(
                alloc,
                self.design,
                i,
                settled,
                &self.start,
                MAX_COLD_STEPS,
            ),
        }
    }
}
