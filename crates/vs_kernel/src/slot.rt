//! The moves of a slot.
ghost use Rattle.std.specs.Io.KnownBytes.{Appends};
ghost use Rattle.std.specs.Prelude.{◌≡◌, ◌<◌, ◌≤◌, ◌^◌, false, true, None, Option, length, map, IfOk, OnOk, OnErr, IfNone, IfSome};
ghost use Rattle.vs_run_active.specs.vs_process.specs.Blocks.{is_step_of_any};
ghost use Rattle.vs_run_active.specs.vs_process.specs.Executions as executions;
ghost use Rattle.vs_run_active.specs.vs_process.specs.declared.moves.Move.TheVariants as moves;
ghost use Rattle.vs_design.specs.Parts.{Parts};
ghost use Rattle.vs_kernel.specs.Running.{IsActive, IsSingle, move_of};
ghost use Rattle.vs_kernel.specs.Snapshot.{HasMoved, HasMovedPart, IsRecorded, IsRecordedPart, IsSnapshot, point_of};
ghost use Rattle.vs_run_steps.specs.Runs.{IsRunOf, marks_of, running_of, state_of};
ghost use Rattle.vs_run_steps.specs.Failures.{OneFailed};
ghost use Rattle.vs_run_steps.specs.Prints.{lines_text};
ghost use Rattle.vs_run_steps.specs.Recording.{CoversNoted};
ghost use Rattle.vs_run_steps.specs.Turns.{AllTurnedPart, RunsTo, Turned, TurnedPart};
ghost use Rattle.vs_vcd_writing.specs.Progress.{is_write_fault};
ghost use Rattle.vs_vcd_writing.specs.Sinks.{AppendsPart, failed_after};

use crate::run::Run;
use crate::vs_run_active::clear;
use crate::vs_run_regions::vs_time_wheel::EventQueue;
use crate::vs_run_regions::{Due, Event};
use crate::{Region, first_event, leave, next_region, run_event};
use std::alloc::{AllocError, Global};
use vs_design::Store;
use vs_process::vs_strobe::full_line;
use vs_run_regions::Pick;
use vs_run_steps::{Called, Recorder, RunState};
use vs_vcd_writing::{Sink, WriterFault, write_all};

/// Writes the lines of calls of `$strobe`, in their order (IEEE 1364-2005, clause 17.1.2).
#[inline(never)]
fn print_calls<L: Sink>(
    alloc: Global,
    lines: &mut L,
    calls: &[Called],
    store: &Store,
    time: u64,
) -> Result<(), WriterFault>
    ensures ok { OnOk result (Appends (L.bytes lines.old) (L.bytes lines.new)
        (lines_text (map (λ c. executions.strobe_line c store.now time) calls.now))) }
    ensures err { OnErr result (AppendsPart (L.bytes lines.old) (L.bytes lines.new)
        (lines_text (map (λ c. executions.strobe_line c store.now time) calls.now))) }
    ensures failures { L.failed lines.new ≡ failed_after (is_write_fault result) (L.failed lines.old) }
{
    for call in calls {
        let text = full_line(alloc, call.format(), store, time)?;
        write_all(lines, &text)?;
    }
    Ok(())
}

/// Writes the lines of calls of `$strobe`, where there are any.
#[inline(always)]
fn print_some<L: Sink>(
    alloc: Global,
    lines: &mut L,
    calls: &[Called],
    store: &Store,
    time: u64,
) -> Result<(), WriterFault>
    ensures ok { OnOk result (Appends (L.bytes lines.old) (L.bytes lines.new)
        (lines_text (map (λ c. executions.strobe_line c store.now time) calls.now))) }
    ensures err { OnErr result (AppendsPart (L.bytes lines.old) (L.bytes lines.new)
        (lines_text (map (λ c. executions.strobe_line c store.now time) calls.now))) }
    ensures failures { L.failed lines.new ≡ failed_after (is_write_fault result) (L.failed lines.old) }
{
    if calls.is_empty() {
        return Ok(());
    }
    print_calls(alloc, lines, calls, store, time)
}

/// Writes the slot of the dump, after which nothing is marked.
#[inline(never)]
fn write_slot<Q: EventQueue<Due>, V: Sink>(
    recorder: &mut Recorder,
    running: &mut RunState<Q>,
    vcd: &mut V,
) -> Result<(), WriterFault>
    requires few { length (marks_of running.old) ≤ 2 ^ 57 }
    requires covers { CoversNoted (marks_of running.old) recorder.old (state_of running.old).store }
    ensures state { state_of running.new ≡ state_of running.old }
    ensures run { (d : Parts) → IsRunOf d running.old → IsRunOf d running.new }
    ensures recorded { OnOk result (IsRecorded (running_of running.old) (running_of running.new) recorder.old recorder.new
        (V.bytes vcd.old) (V.bytes vcd.new)) }
    ensures part { OnErr result (IsRecordedPart (state_of running.old) recorder.old (V.bytes vcd.old) (V.bytes vcd.new)) }
    ensures failures { V.failed vcd.new ≡ failed_after (is_write_fault result) (V.failed vcd.old) }
{
    let time = running.regions.time();
    let watched = &running.watched;
    recorder.slot(vcd, time, &watched.store, &watched.marks)?;
    clear(&mut running.watched.marks);
    Ok(())
}

/// The same, where slots are written.
#[inline(always)]
fn record_slot<Q: EventQueue<Due>, V: Sink>(
    recorder: &mut Recorder,
    running: &mut RunState<Q>,
    vcd: &mut V,
) -> Result<(), WriterFault>
    requires few { length (marks_of running.old) ≤ 2 ^ 57 }
    requires covers { CoversNoted (marks_of running.old) recorder.old (state_of running.old).store }
    ensures state { state_of running.new ≡ state_of running.old }
    ensures run { (d : Parts) → IsRunOf d running.old → IsRunOf d running.new }
    ensures recorded { OnOk result (IsRecorded (running_of running.old) (running_of running.new) recorder.old recorder.new
        (V.bytes vcd.old) (V.bytes vcd.new)) }
    ensures part { OnErr result (IsRecordedPart (state_of running.old) recorder.old (V.bytes vcd.old) (V.bytes vcd.new)) }
    ensures failures { V.failed vcd.new ≡ failed_after (is_write_fault result) (V.failed vcd.old) }
{
    if !recorder.is_writing() {
        return Ok(());
    }
    write_slot(recorder, running, vcd)
}

/// Writes the slot that ends: that of the dump, after which nothing is marked where slots are written, then its lines.
#[inline(always)]
fn note<Q: EventQueue<Due>, V: Sink, L: Sink>(
    recorder: &mut Recorder,
    running: &mut RunState<Q>,
    vcd: &mut V,
    lines: &mut L,
) -> Result<(), WriterFault>
    requires few { length (marks_of running.old) ≤ 2 ^ 57 }
    requires covers { CoversNoted (marks_of running.old) recorder.old (state_of running.old).store }
    ensures state { state_of running.new ≡ state_of running.old }
    ensures run { (d : Parts) → IsRunOf d running.old → IsRunOf d running.new }
    ensures recorded { OnOk result (IsRecorded (running_of running.old) (running_of running.new) recorder.old recorder.new
        (V.bytes vcd.old) (V.bytes vcd.new)) }
    ensures part { OnErr result (IsRecordedPart (state_of running.old) recorder.old (V.bytes vcd.old) (V.bytes vcd.new)) }
    ensures lines { OnOk result (Appends (L.bytes lines.old) (L.bytes lines.new) (lines_text
        (executions.strobe_lines (state_of running.old)))) }
    ensures lines_part { OnErr result (AppendsPart (L.bytes lines.old) (L.bytes lines.new) (lines_text
        (executions.strobe_lines (state_of running.old)))) }
    ensures failures { OneFailed (is_write_fault result) (V.failed vcd.old) (V.failed vcd.new) (L.failed lines.old) (L.failed lines.new) }
{
    record_slot(recorder, running, vcd)?;
    let time = running.regions.time();
    print_some(
        running.alloc,
        lines,
        &running.calls,
        &running.watched.store,
        time,
    )?;
    Ok(())
}

impl<'a, Q: EventQueue<Due>> Run<'a, Q> {
    /// Ends the slot: it is written to the dump, after which nothing is marked where slots are written, then its lines, and time goes on.
    #[inline(never)]
    fn end_slot<V: Sink, L: Sink>(&mut self, vcd: &mut V, lines: &mut L) -> Result<(), WriterFault>
        requires run { IsSnapshot self.old }
        requires going { (state_of self.old.running).over ≡ false }
        requires early { (state_of self.old.running).time < 2 ^ 62 }
        requires enabled { executions.is_enabled (state_of self.old.running) moves.EndSlot ≡ true }
        requires none { self.old.inside ≡ None }
        ensures run { OnOk result (IsSnapshot self.new) }
        ensures same { self.new ≡ record self.old { running = self.new.running; writer = self.new.writer } }
        ensures ok { OnOk result (Turned self.old.blocks (point_of self.old None (V.bytes vcd.old) (L.bytes lines.old))
            (point_of self.new None (V.bytes vcd.new) (L.bytes lines.new))) }
        ensures err { OnErr result (TurnedPart (point_of self.old None (V.bytes vcd.old) (L.bytes lines.old))
            (V.bytes vcd.new) (L.bytes lines.new)) }
        ensures failures { OneFailed (is_write_fault result) (V.failed vcd.old) (V.failed vcd.new)
            (L.failed lines.old) (L.failed lines.new) }
    {
        note(&mut self.recorder, &mut self.running, vcd, lines)?;
        leave(&mut self.running, Region::End)?;
        Ok(())
    }

    /// The updates that were activated enter the list of a policy that chooses.
    #[inline(always)]
    fn list_updates(&mut self) -> Result<(), AllocError>
        ensures { self.new ≡ self.old }
    {
        if self.chooses {
            self.running.regions.claim()?;
            self.agenda.list_updates(&self.running.regions)?;
        }
        Ok(())
    }

    /// Makes the move that is made where no event is active: the inactive processes go on, or the updates of the slot are activated, or the slot
    /// ends. The answer is whether the slot goes on.
    #[inline(always)]
    pub(crate) fn leave_region<V: Sink, L: Sink>(
        &mut self,
        vcd: &mut V,
        lines: &mut L,
    ) -> Result<bool, WriterFault>
        requires run { IsSnapshot self.old }
        requires going { (state_of self.old.running).over ≡ false }
        requires early { (state_of self.old.running).time < 2 ^ 62 }
        requires idle { executions.is_busy (state_of self.old.running) ≡ false }
        requires none { self.old.inside ≡ None }
        ensures run { OnOk result (IsSnapshot self.new) }
        ensures same { self.new ≡ record self.old { running = self.new.running; writer = self.new.writer } }
        ensures ok { OnOk result (Turned self.old.blocks (point_of self.old None (V.bytes vcd.old) (L.bytes lines.old))
            (point_of self.new None (V.bytes vcd.new) (L.bytes lines.new))) }
        ensures goes_on { IfOk result (λ goes. goes ≡ true → ((state_of self.new.running).over ≡ false)
            × ((state_of self.new.running).time ≡ (state_of self.old.running).time)) }
        ensures err { OnErr result (TurnedPart (point_of self.old None (V.bytes vcd.old) (L.bytes lines.old))
            (V.bytes vcd.new) (L.bytes lines.new)) }
        ensures failures { OneFailed (is_write_fault result) (V.failed vcd.old) (V.failed vcd.new)
            (L.failed lines.old) (L.failed lines.new) }
    {
        match next_region(&self.running) {
            Region::End => {
                self.end_slot(vcd, lines)?;
                Ok(false)
            }
            Region::Inactive => {
                leave(&mut self.running, Region::Inactive)?;
                Ok(true)
            }
            Region::Updates => {
                leave(&mut self.running, Region::Updates)?;
                self.list_updates()?;
                Ok(true)
            }
        }
    }

    /// The same; where a policy chooses, what this has woken enters the list.
    #[inline(always)]
    fn end_region<V: Sink, L: Sink>(
        &mut self,
        chooses: bool,
        vcd: &mut V,
        lines: &mut L,
    ) -> Result<bool, WriterFault>
        requires run { IsSnapshot self.old }
        requires going { (state_of self.old.running).over ≡ false }
        requires early { (state_of self.old.running).time < 2 ^ 62 }
        requires idle { executions.is_busy (state_of self.old.running) ≡ false }
        requires none { self.old.inside ≡ None }
        ensures run { OnOk result (IsSnapshot self.new) }
        ensures same { OnOk result (self.new ≡ record self.old { running = self.new.running; writer = self.new.writer }) }
        ensures ok { OnOk result (Turned self.old.blocks (point_of self.old None (V.bytes vcd.old) (L.bytes lines.old))
            (point_of self.new None (V.bytes vcd.new) (L.bytes lines.new))) }
        ensures goes_on { IfOk result (λ goes. goes ≡ true → ((state_of self.new.running).over ≡ false)
            × ((state_of self.new.running).time ≡ (state_of self.old.running).time)) }
        ensures err { OnErr result (TurnedPart (point_of self.old None (V.bytes vcd.old) (L.bytes lines.old))
            (V.bytes vcd.new) (L.bytes lines.new)) }
        ensures failures { OneFailed (is_write_fault result) (V.failed vcd.old) (V.failed vcd.new)
            (L.failed lines.old) (L.failed lines.new) }
    {
        let goes_on = self.leave_region(vcd, lines)?;
        if chooses {
            self.list_woken()?;
        }
        Ok(goes_on)
    }

    /// The next active event, where there is one: the one that a policy chooses, else the first.
    #[inline(always)]
    fn next<P: Pick>(&mut self, chooses: bool, policy: &mut P) -> Option<Event>
        requires run { IsSnapshot self.old }
        requires chooses { self.old.chooses ≡ chooses }
        ensures run { IsSnapshot self.new }
        ensures same { self.new ≡ record self.old { running = self.new.running } }
        ensures state { state_of self.new.running ≡ state_of self.old.running }
        ensures active { IfSome result (λ event. IsActive self.new.running event) }
        ensures single { IfSome result (λ event. chooses ≡ true → IsSingle event) }
        ensures free { IfSome result (λ event. is_step_of_any self.new.inside (move_of self.new.running event) ≡ true) }
        ensures idle { IfNone result ((executions.is_busy (state_of self.new.running) ≡ false) × (self.new.inside ≡ None)) }
    {
        if chooses {
            return self.choose(policy);
        }
        first_event(&mut self.running)
    }

    /// Makes the moves of an active event, at most so many, and one where a policy chooses, whose list follows: how many.
    #[inline(always)]
    fn make<L: Sink>(
        &mut self,
        chooses: bool,
        event: Event,
        limit: u64,
        lines: &mut L,
    ) -> Result<u64, WriterFault>
        requires run { IsSnapshot self.old }
        requires chooses { self.old.chooses ≡ chooses }
        requires limit { 0 < limit }
        requires going { (state_of self.old.running).over ≡ false }
        requires early { (state_of self.old.running).time < 2 ^ 62 }
        requires active { IsActive self.old.running event }
        requires single { chooses ≡ true → IsSingle event }
        requires free { is_step_of_any self.old.inside (move_of self.old.running event) ≡ true }
        ensures run { OnOk result (IsSnapshot self.new) }
        ensures same { OnOk result (self.new ≡ record self.old { running = self.new.running; inside = self.new.inside }) }
        ensures some { IfOk result (λ taken. 0 < taken) }
        ensures ok { IfOk result (λ taken. HasMoved limit taken self.old self.new (L.bytes lines.old) (L.bytes lines.new)) }
        ensures err { OnErr result (HasMovedPart limit self.old (L.bytes lines.old) (L.bytes lines.new)) }
        ensures failures { L.failed lines.new ≡ failed_after (is_write_fault result) (L.failed lines.old) }
    {
        if chooses {
            run_event(&mut self.running, &self.forms, event, 1, lines)?;
            self.inside = self.inside_after(event);
            self.follow(event)?;
            return Ok(1);
        }
        let taken = run_event(&mut self.running, &self.forms, event, limit, lines)?;
        Ok(taken)
    }

    /// The next moves, at least one and at most so many, until the slot ends: how many are left of these. It is compiled once for the policies that
    /// choose and once for those that take the first event.
    fn take_moves<const CHOOSES: bool, P: Pick, V: Sink, L: Sink>(
        &mut self,
        policy: &mut P,
        steps: u64,
        vcd: &mut V,
        lines: &mut L,
    ) -> Result<u64, WriterFault>
        requires run { IsSnapshot self.old }
        requires chooses { self.old.chooses ≡ CHOOSES }
        requires steps { 0 < steps }
        requires going { (state_of self.old.running).over ≡ false }
        requires early { (state_of self.old.running).time < 2 ^ 62 }
        ensures run { OnOk result (IsSnapshot self.new) }
        ensures same { OnOk result
            (self.new ≡ record self.old { running = self.new.running; inside = self.new.inside; writer = self.new.writer }) }
        ensures some { IfOk result (λ left. left < steps) }
        ensures ok { IfOk result (λ left. RunsTo steps left self.old.blocks (point_of self.old self.old.inside
            (V.bytes vcd.old) (L.bytes lines.old)) self.new.inside
            (λ now. point_of self.new now (V.bytes vcd.new) (L.bytes lines.new))) }
        ensures err { OnErr result (AllTurnedPart steps self.old.blocks (point_of self.old self.old.inside
            (V.bytes vcd.old) (L.bytes lines.old))
            (V.bytes vcd.new) (L.bytes lines.new)) }
        ensures failures { OneFailed (is_write_fault result) (V.failed vcd.old) (V.failed vcd.new)
            (L.failed lines.old) (L.failed lines.new) }
    {
        let mut left = steps;
        loop {
            match self.next(CHOOSES, policy) {
                Some(event) => {
                    let taken = self.make(CHOOSES, event, left, lines)?;
                    left -= taken;
                    if left == 0 {
                        return Ok(0);
                    }
                }
                None => {
                    let goes_on = self.end_region(CHOOSES, vcd, lines)?;
                    left -= 1;
                    if left == 0 || !goes_on {
                        return Ok(left);
                    }
                }
            }
        }
    }

    /// The next moves, at least one and at most so many, until the slot ends: how many are left of these.
    #[inline(always)]
    pub fn take_steps<P: Pick, V: Sink, L: Sink>(
        &mut self,
        policy: &mut P,
        steps: u64,
        vcd: &mut V,
        lines: &mut L,
    ) -> Result<u64, WriterFault>
        requires run { IsSnapshot self.old }
        requires steps { 0 < steps }
        requires going { (state_of self.old.running).over ≡ false }
        requires early { (state_of self.old.running).time < 2 ^ 62 }
        ensures run { OnOk result (IsSnapshot self.new) }
        ensures same { OnOk result
            (self.new ≡ record self.old { running = self.new.running; inside = self.new.inside; writer = self.new.writer }) }
        ensures some { IfOk result (λ left. left < steps) }
        ensures ok { IfOk result (λ left. RunsTo steps left self.old.blocks (point_of self.old self.old.inside
            (V.bytes vcd.old) (L.bytes lines.old)) self.new.inside
            (λ now. point_of self.new now (V.bytes vcd.new) (L.bytes lines.new))) }
        ensures err { OnErr result (AllTurnedPart steps self.old.blocks (point_of self.old self.old.inside
            (V.bytes vcd.old) (L.bytes lines.old))
            (V.bytes vcd.new) (L.bytes lines.new)) }
        ensures failures { OneFailed (is_write_fault result) (V.failed vcd.old) (V.failed vcd.new)
            (L.failed lines.old) (L.failed lines.new) }
    {
        if self.chooses {
            self.take_moves::<true, P, V, L>(policy, steps, vcd, lines)
        } else {
            self.take_moves::<false, P, V, L>(policy, steps, vcd, lines)
        }
    }
}
