//! The moves of events.
ghost use Rattle.std.specs.Prelude.{◌≡◌, ◌<◌, ◌≤◌, ◌^◌, false, true, Bool, Some, List, IfOk, OnOk, OnErr};
ghost use Rattle.vs_design.specs.Parts.{Parts};
ghost use Rattle.vs_run_regions.specs.vs_process.specs.Executions as executions;
ghost use Rattle.vs_kernel.specs.Leaving.{changed_each};
ghost use Rattle.vs_kernel.specs.Making.{WritesUpdate};
ghost use Rattle.vs_kernel.specs.Running.{IsActive, IsMade, IsSingle, move_of, region_move};
ghost use Rattle.vs_run_active.specs.ProcessPlaces as standings;
ghost use Rattle.vs_run_steps.specs.MembersMade.{AreDone};
ghost use Rattle.vs_run_steps.specs.Runs.{Agrees, IsRunOf, Keeps, marks_of, plan_of, state_of};
ghost use Rattle.vs_run_steps.specs.Prints.{lines_text};
ghost use Rattle.vs_run_steps.specs.Turns.{AreMade, EventTurned, EventTurnedPart};
ghost use Rattle.vs_run_regions.specs.Updates.{IsIn};
ghost use Rattle.vs_run_active.specs.Changes.{MarkChanges};
ghost use Rattle.vs_vcd_writing.specs.Progress.{is_write_fault};
ghost use Rattle.vs_vcd_writing.specs.Sinks.{AppendsPart, failed_after};

use crate::state::Region;
use std::alloc::AllocError;
use vs_run_regions::vs_time_wheel::EventQueue;
use vs_run_regions::{Due, Event, Update};
use vs_run_steps::vs_run_active::Events;
use vs_run_steps::{Forms, RunState, evaluate, may_follow, propagate, run_group};
use vs_vcd_writing::{Sink, WriterFault};

/// Writes what an update writes, where it isn't gone: whether it isn't.
#[inline(always)]
fn make<Q: EventQueue<Due>>(run: &mut RunState<Q>, update: Update) -> Result<bool, AllocError>
    requires agrees { Agrees (plan_of run.old).design (plan_of run.old).terms run.old }
    requires known { IsIn run.old.regions.listed.signals run.old.regions.listed.writes update }
    ensures written { IfOk result (λ made.
        WritesUpdate update.entry run.old.regions.listed.writes (state_of run.old) (state_of run.new) made) }
    ensures keeps { OnOk result (Keeps (plan_of run.old).design (plan_of run.old).terms run.old run.new) }
{
    match update {
        Update::Bits(bits) => {
            run.write_planes(bits.spot, bits.value, bits.unknown)?;
            Ok(true)
        }
        Update::Any(number) => {
            run.write_activated(number)?;
            Ok(true)
        }
        Update::Gone => Ok(false),
    }
}

/// An activated update, by its number among these.
#[inline(never)]
fn make_update<Q: EventQueue<Due>>(run: &mut RunState<Q>, number: usize) -> Result<(), AllocError>
    requires run { IsRunOf run.old.design.now run.old }
    requires active { IsActive run.old (Event.Make number) }
    ensures run { OnOk result (IsRunOf run.old.design.now run.new) }
    ensures made { OnOk result (state_of run.new
        ≡ executions.apply (move_of run.old (Event.Make number)) (state_of run.old)) }
    ensures marked { OnOk result (MarkChanges (marks_of run.old) (marks_of run.new) (state_of run.old).store (state_of run.new).store) }
{
    let Some(update) = run.regions.take(number) else {
        return Ok(());
    };
    let _made = make(run, update)?;
    Ok(())
}

/// Makes the oldest activated update, where there is one: whether there is.
#[inline(always)]
fn make_next<Q: EventQueue<Due>>(run: &mut RunState<Q>) -> Result<bool, AllocError>
    requires { IsRunOf run.old.design.now run.old }
    ensures run { OnOk result (IsRunOf run.old.design.now run.new) }
    ensures none { IfOk result (λ made. made ≡ false → state_of run.new ≡ state_of run.old) }
    ensures made { IfOk result (λ made. made ≡ true → AreMade 1 (state_of run.old) (state_of run.new)) }
    ensures active { IfOk result (λ made. IsActive run.old Event.Updates → made ≡ true) }
    ensures marked { OnOk result (MarkChanges (marks_of run.old) (marks_of run.new) (state_of run.old).store (state_of run.new).store) }
{
    let Some(update) = run.regions.next() else {
        return Ok(false);
    };
    let made = make(run, update)?;
    Ok(made)
}

/// Makes the activated updates, the oldest first and at most so many: how many.
#[inline(never)]
fn make_updates<Q: EventQueue<Due>>(run: &mut RunState<Q>, limit: u64) -> Result<u64, AllocError>
    requires limit { 0 < limit }
    requires run { IsRunOf run.old.design.now run.old }
    requires active { IsActive run.old Event.Updates }
    ensures some { IfOk result (λ taken. 0 < taken) }
    ensures done { IfOk result (λ taken. AreDone run.old.design.now limit run.old taken run.new) }
{
    let mut taken = 0;
    while taken < limit {
        let made = make_next(run)?;
        if !made {
            return Ok(taken);
        }
        taken += 1;
    }
    Ok(taken)
}

/// Makes the moves of an active event, at most so many: how many.
#[inline(always)]
pub fn run_event<Q: EventQueue<Due>, L: Sink>(
    run: &mut RunState<Q>,
    forms: &Forms,
    event: Event,
    limit: u64,
    lines: &mut L,
) -> Result<u64, WriterFault>
    requires limit { 0 < limit }
    requires run { IsRunOf forms.now run.old }
    requires going { (state_of run.old).over ≡ false }
    requires early { (state_of run.old).time < 2 ^ 62 }
    requires active { IsActive run.old event }
    ensures run { OnOk result (IsRunOf forms.now run.new) }
    ensures some { IfOk result (λ taken. 0 < taken) }
    ensures ok { IfOk result (λ taken. (blocks : List Bool) → EventTurned limit taken blocks (state_of run.old) (state_of run.new)
        (L.bytes lines.old) (L.bytes lines.new)) }
    ensures err { OnErr result ((blocks : List Bool) → EventTurnedPart limit blocks (state_of run.old)
        (L.bytes lines.old) (L.bytes lines.new)) }
    ensures one { IfOk result (λ taken. taken ≡ 1 → IsSingle event → IsMade (move_of run.old event) (state_of run.old) (state_of run.new)
        (L.bytes lines.old) (L.bytes lines.new)) }
    ensures part { OnErr result (limit ≡ 1 → AppendsPart (L.bytes lines.old) (L.bytes lines.new)
        (lines_text (executions.move_lines (move_of run.old event) (state_of run.old)))) }
    ensures marked { OnOk result (MarkChanges (marks_of run.old) (marks_of run.new) (state_of run.old).store (state_of run.new).store) }
    ensures failures { L.failed lines.new ≡ failed_after (is_write_fault result) (L.failed lines.old) }
{
    match event {
        Event::Step(process) => {
            let taken = run.run_process(process, limit, lines)?;
            Ok(taken)
        }
        Event::Evaluate(assign) => {
            let at_once = may_follow(run, assign, limit);
            let made = evaluate(run, forms, assign, limit, at_once)?;
            Ok(made)
        }
        Event::Propagate(assign) => {
            propagate(run, forms, assign)?;
            Ok(1)
        }
        Event::Group(group) => {
            let made = run_group(run, forms, group, limit)?;
            Ok(made)
        }
        Event::Make(number) => {
            make_update(run, number)?;
            Ok(1)
        }
        Event::Updates => {
            let made = make_updates(run, limit)?;
            Ok(made)
        }
    }
}

/// Processes go on that are inactive.
fn rouse_each(events: &mut Events, processes: &Vec<usize>) -> Result<(), AllocError>
    ensures processes { OnOk result (events.new.processes ≡ changed_each standings.roused_in processes.now.items events.old.processes) }
    ensures assigns { OnOk result (events.new.assigns ≡ events.old.assigns) }
{
    for process in processes {
        events.rouse(*process)?;
    }
    Ok(())
}

/// Processes go on whose delays end at a time.
fn wake_each(events: &mut Events, processes: &Vec<usize>, time: u64) -> Result<(), AllocError>
    ensures processes { OnOk result (events.new.processes
        ≡ changed_each (standings.woken_in time) processes.now.items events.old.processes) }
    ensures assigns { OnOk result (events.new.assigns ≡ events.old.assigns) }
{
    for process in processes {
        events.wake_at(*process, time)?;
    }
    Ok(())
}

/// The inactive processes go on.
#[inline(never)]
fn rouse<Q: EventQueue<Due>>(run: &mut RunState<Q>) -> Result<(), AllocError>
    requires { IsRunOf run.old.design.now run.old }
    ensures run { OnOk result (IsRunOf run.old.design.now run.new) }
    ensures made { OnOk result (state_of run.new ≡ executions.apply (region_move Region.Inactive) (state_of run.old)) }
    ensures marks { OnOk result (run.new.watched.marks ≡ run.old.watched.marks) }
{
    run.regions.rouse(&mut run.woken);
    rouse_each(&mut run.watched.events, &run.woken)?;
    Ok(())
}

/// The updates that are due in the slot are activated.
#[inline(always)]
fn activate<Q: EventQueue<Due>>(run: &mut RunState<Q>)
    requires run { IsRunOf run.old.design.now run.old }
    requires enabled { executions.is_enabled (state_of run.old) (region_move Region.Updates) ≡ true }
    ensures run { IsRunOf run.old.design.now run.new }
    ensures made { state_of run.new ≡ executions.apply (region_move Region.Updates) (state_of run.old) }
    ensures marks { run.new.watched.marks ≡ run.old.watched.marks }
{
    run.regions.activate();
}

/// The run is over.
#[inline(always)]
fn stop<Q: EventQueue<Due>>(run: &mut RunState<Q>)
    requires run { IsRunOf run.old.design.now run.old }
    requires ends { executions.ends (state_of run.old) ≡ true }
    ensures run { IsRunOf run.old.design.now run.new }
    ensures made { state_of run.new ≡ executions.apply (region_move Region.End) (state_of run.old) }
    ensures marks { run.new.watched.marks ≡ run.old.watched.marks }
{
    run.calls.clear();
    run.over = true;
}

/// Time goes to a time, the next at which something is due.
#[inline(always)]
fn advance<Q: EventQueue<Due>>(run: &mut RunState<Q>, time: u64) -> Result<(), AllocError>
    requires run { IsRunOf run.old.design.now run.old }
    requires going { (state_of run.old).over ≡ false }
    requires enabled { executions.is_enabled (state_of run.old) (region_move Region.End) ≡ true }
    requires goes_on { (state_of run.old).finishing ≡ false }
    requires next { executions.next_time (state_of run.old) ≡ Some time }
    requires not_over { (state_of run.old).time ≤ time }
    ensures run { OnOk result (IsRunOf run.old.design.now run.new) }
    ensures made { OnOk result (state_of run.new ≡ executions.apply (region_move Region.End) (state_of run.old)) }
    ensures marks { OnOk result (run.new.watched.marks ≡ run.old.watched.marks) }
{
    run.calls.clear();
    run.woken.clear();
    run.regions.advance(time, &mut run.woken)?;
    wake_each(&mut run.watched.events, &run.woken, time)?;
    Ok(())
}

/// Time goes to the next slot, where there is one; else the run is over.
#[inline(always)]
fn end_slot<Q: EventQueue<Due>>(run: &mut RunState<Q>) -> Result<(), AllocError>
    requires run { IsRunOf run.old.design.now run.old }
    requires going { (state_of run.old).over ≡ false }
    requires enabled { executions.is_enabled (state_of run.old) (region_move Region.End) ≡ true }
    ensures run { OnOk result (IsRunOf run.old.design.now run.new) }
    ensures made { OnOk result (state_of run.new ≡ executions.apply (region_move Region.End) (state_of run.old)) }
    ensures marks { OnOk result (run.new.watched.marks ≡ run.old.watched.marks) }
{
    if run.finishing {
        stop(run);
        return Ok(());
    }
    match run.regions.next_time() {
        Some(time) => advance(run, time),
        None => {
            stop(run);
            Ok(())
        }
    }
}

/// The inactive processes go on, or the updates that are due in the slot are activated, or time goes on.
#[inline(always)]
fn make_region<Q: EventQueue<Due>>(run: &mut RunState<Q>, region: Region) -> Result<(), AllocError>
    requires run { IsRunOf run.old.design.now run.old }
    requires going { (state_of run.old).over ≡ false }
    requires enabled { executions.is_enabled (state_of run.old) (region_move region) ≡ true }
    ensures run { OnOk result (IsRunOf run.old.design.now run.new) }
    ensures made { OnOk result (state_of run.new ≡ executions.apply (region_move region) (state_of run.old)) }
    ensures marks { OnOk result (run.new.watched.marks ≡ run.old.watched.marks) }
{
    match region {
        Region::Inactive => {
            rouse(run)?;
            Ok(())
        }
        Region::Updates => {
            activate(run);
            Ok(())
        }
        Region::End => {
            end_slot(run)?;
            Ok(())
        }
    }
}

/// Notes whether a wave of updates begins: the queue goes by that.
#[inline(always)]
fn note_wave<Q: EventQueue<Due>>(run: &mut RunState<Q>, region: Region)
    ensures state { state_of run.new ≡ state_of run.old }
    ensures marks { run.new.watched.marks ≡ run.old.watched.marks }
    ensures run { (design : Parts) → IsRunOf design run.old → IsRunOf design run.new }
    ensures design { run.new.design.now ≡ run.old.design.now }
{
    run.watched
        .events
        .queue
        .set_wave(matches!(region, Region::Updates));
}

/// The same; the queue is told whether a wave of updates begins.
#[inline(always)]
pub fn leave<Q: EventQueue<Due>>(run: &mut RunState<Q>, region: Region) -> Result<(), AllocError>
    requires run { IsRunOf run.old.design.now run.old }
    requires going { (state_of run.old).over ≡ false }
    requires enabled { executions.is_enabled (state_of run.old) (region_move region) ≡ true }
    ensures run { OnOk result (IsRunOf run.old.design.now run.new) }
    ensures made { OnOk result (state_of run.new ≡ executions.apply (region_move region) (state_of run.old)) }
    ensures marks { OnOk result (run.new.watched.marks ≡ run.old.watched.marks) }
{
    note_wave(run, region);
    make_region(run, region)?;
    Ok(())
}
