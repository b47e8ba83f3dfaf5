//! A run of a design.
ghost use Rattle.std.specs.Prelude.{◌≡◌, List};
ghost use Rattle.vs_design.specs.Parts.{Parts};
ghost use Rattle.vs_design.specs.Traces.{Slot};
ghost use Rattle.vs_run_steps.specs.Runs.{state_of};
ghost use Rattle.vs_run_steps.specs.Recording.{HasNoted};
ghost use Rattle.vs_vcd_writing.specs.Progress.{is_write_fault, WritesPiece};
ghost use Rattle.vs_vcd_writing.specs.Sinks.{failed_after};
ghost use Rattle.vs_vcd_writing.specs.Text.{vcd_end};

use crate::vs_run_regions::vs_time_wheel::EventQueue;
use crate::vs_run_regions::{Agenda, Due, Event};
use crate::vs_run_steps::Forms;
use std::alloc::Global;
use std::marker::Model;
use vs_run_steps::{Recorder, RunState};
use vs_vcd_writing::{Sink, WriterFault};

/// A run: its state, what records its dump, and where a policy chooses, the combinational block that has taken a step since its control.
pub struct Run<'a, Q: EventQueue<Due>> {
    pub(crate) alloc: Global,
    /// Of each process whether it is a combinational block.
    pub(crate) blocks: Vec<bool>,
    /// How its continuous assignments are evaluated.
    pub(crate) forms: Forms<'a>,
    pub(crate) running: RunState<'a, Q>,
    pub(crate) inside: Option<usize>,
    /// Whether a policy chooses; else the first event of the queue is always next.
    pub(crate) chooses: bool,
    /// The list of a policy that chooses, and the place of what was chosen in it.
    pub(crate) agenda: Agenda,
    pub(crate) picked: Option<usize>,
    /// The event that it chose last; none where none was active.
    pub(crate) chosen: Option<Event>,
    pub(crate) recorder: Recorder,
}

impl<'a, Q: EventQueue<Due> + Drop> Drop for Run<'a, Q> {
    fn drop(self) {
        let Self {
            alloc: _,
            blocks: _,
            forms: _,
            running: _,
            inside: _,
            chooses: _,
            agenda: _,
            picked: _,
            chosen: _,
            recorder: _,
        } = self;
    }
}

impl<'a, Q: EventQueue<Due>> Model for Run<'a, Q> {
    ghost use Rattle.std.specs.Coded.{codes};
    ghost use Rattle.vs_design.specs.contracts.expression.Typed as expression;
    ghost use Rattle.vs_design.specs.contracts.statement.Statement as statement;
    ghost use Rattle.vs_kernel.specs.Snapshot.{Snapshot};

    ghost Value = { Snapshot };

    ghost coded = { Prim.hlevel (codes, statement.the_row.coded, expression.the_row.coded) };

    ghost use Rattle.vs_run_steps.specs.Runs.{running_of};

    ghost view = { λ r. record {
      design = r.forms;
      blocks = r.blocks.items;
      running = running_of r.running;
      inside = r.inside;
      chooses = r.chooses;
      writer = r.recorder;
    } };
}

impl<'a, Q: EventQueue<Due>> Run<'a, Q> {
    /// The time of the slot, in ticks.
    #[inline(always)]
    pub fn time(&self) -> u64
        ensures { result ≡ (state_of self.now.running).time }
    {
        self.running.regions.time()
    }

    /// Whether it is over.
    #[inline(always)]
    pub fn is_over(&self) -> bool
        ensures { result ≡ (state_of self.now.running).over }
    {
        self.running.over
    }

    /// Whether a `$finish` was executed.
    #[inline(always)]
    pub fn is_finishing(&self) -> bool
        ensures { result ≡ (state_of self.now.running).finishing }
    {
        self.running.finishing
    }

    /// The event that a policy chose for the last move; none where none was active.
    pub fn chosen(&self) -> Option<Event> {
        self.chosen
    }

    /// Writes the end of the dump, at a time in ticks.
    pub fn finish<V: Sink>(self, vcd: &mut V, time: u64) -> Result<(), WriterFault>
    where
        Q: Drop,
        ensures bytes { (d : Parts) (slots : List Slot) → HasNoted self.entry.writer (V.bytes vcd.old) d slots
            → WritesPiece result (V.bytes vcd.old) (V.bytes vcd.new) (vcd_end d slots time) }
        ensures failures { V.failed vcd.new ≡ failed_after (is_write_fault result) (V.failed vcd.old) }
    {
        let Run {
            alloc: _,
            blocks: _,
            forms: _,
            running: _,
            inside: _,
            chooses: _,
            agenda: _,
            picked: _,
            chosen: _,
            recorder,
        } = self;
        recorder.finish(vcd, time)
    }
}
