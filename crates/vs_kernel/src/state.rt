//! What is active in a run.
ghost use Rattle.std.specs.Prelude.{◌≡◌, false, true, slice_get, IfNone, IfSome, MatchOption};
ghost use Rattle.std.specs.List.{list_any};
ghost use Rattle.vs_design.specs.Parts.{Parts};
ghost use Rattle.vs_run_regions.specs.vs_process.specs.Places.{is_going, is_inside};
ghost use Rattle.vs_run_regions.specs.vs_process.specs.declared.moves.Move.TheVariants as moves;
ghost use Rattle.vs_run_regions.specs.vs_process.specs.Executions as executions;
ghost use Rattle.vs_kernel.specs.Running.{IsActive, IsChoice, region_move};
ghost use Rattle.vs_run_steps.specs.Runs.{IsRunOf, state_of};
ghost use Rattle.vs_run_regions.specs.Active.{is_active};
ghost use Rattle.vs_run_active.specs.Touches.{is_left};

use vs_run_regions::vs_time_wheel::EventQueue;
use vs_run_regions::{Due, Event};
use vs_run_steps::{RunState, is_group_active, is_pending, needs};

/// What is done where no event is active.
#[derive(Clone, Copy)]
pub enum Region {
    /// The inactive processes go on.
    Inactive,
    /// The updates that are due in the slot are activated.
    Updates,
    /// The slot ends.
    End,
}

/// Whether a process is active.
#[inline(always)]
pub fn is_going<Q: EventQueue<Due>>(run: &RunState<Q>, process: usize) -> bool
    ensures { result ≡ executions.is_enabled (state_of run.now) (moves.Step process) }
{
    match run.watched.events.processes.get(process) {
        Some(x) => x.is_going(),
        None => false,
    }
}

/// The event of a process, where it is active.
#[inline(always)]
fn step_of<Q: EventQueue<Due>>(run: &RunState<Q>, process: usize) -> Option<Event>
    ensures { IfSome result (λ event. IsActive run.now event) }
{
    if is_going(run, process) {
        return Some(Event::Step(process));
    }
    None
}

/// The event of a continuous assignment, where it is active.
#[inline(always)]
fn assign_event<Q: EventQueue<Due>>(run: &RunState<Q>, assign: usize) -> Option<Event>
    ensures { MatchOption result (executions.if_some is_left (slice_get (state_of run.now).assigns assign) ≡ false)
        (λ event. IsChoice run.now event) }
{
    if is_pending(run, assign) {
        return Some(Event::Propagate(assign));
    }
    if needs(run, assign) {
        return Some(Event::Evaluate(assign));
    }
    None
}

/// The event of a number, where it is active.
#[inline(always)]
fn event_of<Q: EventQueue<Due>>(run: &RunState<Q>, number: usize) -> Option<Event>
    ensures { IfSome result (λ event. IsActive run.now event) }
{
    let first = run.watched.events.first_process;
    if number >= first {
        return step_of(run, number - first);
    }
    let assigns = run.watched.tables.groups.assigns;
    if number >= assigns {
        let group = number - assigns;
        if is_group_active(run, group) {
            return Some(Event::Group(group));
        }
        return None;
    }
    let event = assign_event(run, number)?;
    Some(event)
}

/// Takes the next number of an active event out of the queue, where there is one, and what stands before it.
#[inline(never)]
fn later_number<Q: EventQueue<Due>>(run: &mut RunState<Q>) -> Option<usize>
    ensures state { state_of run.new ≡ state_of run.old }
    ensures marks { run.new.watched.marks ≡ run.old.watched.marks }
    ensures run { (design : Parts) → IsRunOf design run.old → IsRunOf design run.new }
{
    for _ in 0..run.watched.events.queue.len() {
        let number = run.watched.events.queue.pop()?;
        if event_of(run, number).is_some() {
            return Some(number);
        }
    }
    None
}

/// Takes the next active event out of the queue, where there is one.
#[inline(always)]
fn queued_event<Q: EventQueue<Due>>(run: &mut RunState<Q>) -> Option<Event>
    ensures state { state_of run.new ≡ state_of run.old }
    ensures marks { run.new.watched.marks ≡ run.old.watched.marks }
    ensures run { (design : Parts) → IsRunOf design run.old → IsRunOf design run.new }
    ensures active { IfSome result (λ event. IsActive run.new event) }
{
    let number = run.watched.events.queue.pop()?;
    let event = event_of(run, number);
    if event.is_some() {
        return event;
    }
    let later = later_number(run)?;
    event_of(run, later)
}

/// The event of an active process, where there is one. It looks for it among all.
#[inline(never)]
fn sought_step<Q: EventQueue<Due>>(run: &RunState<Q>) -> Option<Event>
    ensures { MatchOption result (list_any is_going (state_of run.now).places ≡ false) (λ event. IsChoice run.now event) }
{
    for process in 0..run.watched.events.processes.len() {
        if is_going(run, process) {
            return Some(Event::Step(process));
        }
    }
    None
}

/// The event of a continuous assignment that is active, where there is one. It looks for it among all.
#[inline(never)]
fn sought_assign<Q: EventQueue<Due>>(run: &RunState<Q>) -> Option<Event>
    ensures { MatchOption result (list_any is_left (state_of run.now).assigns ≡ false) (λ event. IsChoice run.now event) }
{
    for assign in 0..run.watched.events.assigns.len() {
        if let Some(event) = assign_event(run, assign) {
            return Some(event);
        }
    }
    None
}

/// The same, where their count says that there is one.
#[inline(always)]
fn going_event<Q: EventQueue<Due>>(run: &RunState<Q>) -> Option<Event>
    ensures { MatchOption result (list_any is_going (state_of run.now).places ≡ false) (λ event. IsChoice run.now event) }
{
    if !run.watched.events.processes.has_going() {
        return None;
    }
    sought_step(run)
}

/// The event of a continuous assignment that is active, where their count says that there is one.
#[inline(always)]
fn left_event<Q: EventQueue<Due>>(run: &RunState<Q>) -> Option<Event>
    ensures { MatchOption result (list_any is_left (state_of run.now).assigns ≡ false) (λ event. IsChoice run.now event) }
{
    if !run.watched.events.assigns.has_left() {
        return None;
    }
    sought_assign(run)
}

/// The event of an active process, or of a continuous assignment that is active, where their counts say that there is one.
#[inline(always)]
fn counted_event<Q: EventQueue<Due>>(run: &RunState<Q>) -> Option<Event>
    ensures { MatchOption result
        ((list_any is_going (state_of run.now).places ≡ false) × (list_any is_left (state_of run.now).assigns ≡ false))
        (λ event. IsChoice run.now event) }
{
    let going = going_event(run);
    if going.is_some() {
        return going;
    }
    left_event(run)
}

/// The event of an activated update, where there is one.
#[inline(always)]
fn update_event<Q: EventQueue<Due>>(run: &RunState<Q>) -> Option<Event>
    ensures { MatchOption result (list_any is_active (state_of run.now).updates ≡ false) (λ event. IsChoice run.now event) }
{
    if !run.regions.has_active() {
        return None;
    }
    let number = run.regions.oldest()?;
    Some(Event::Make(number))
}

/// The event of all activated updates, where there are any.
#[inline(always)]
fn updates_event<Q: EventQueue<Due>>(run: &RunState<Q>) -> Option<Event>
    ensures { MatchOption result (list_any is_active (state_of run.now).updates ≡ false) (λ event. IsActive run.now event) }
{
    if !run.regions.has_active() {
        return None;
    }
    if run.regions.is_first(0) {
        return Some(Event::Updates);
    }
    let event = update_event(run)?;
    Some(event)
}

/// An active event, where there is one, of one move.
#[inline(always)]
pub fn lost_event<Q: EventQueue<Due>>(run: &RunState<Q>) -> Option<Event>
    ensures { MatchOption result (executions.is_busy (state_of run.now) ≡ false) (λ event. IsChoice run.now event) }
{
    let counted = counted_event(run);
    if counted.is_some() {
        return counted;
    }
    update_event(run)
}

/// The first active event, where there is one: the next one of the queue, else one that was lost from it, else the activated updates.
#[inline(always)]
pub fn first_event<Q: EventQueue<Due>>(run: &mut RunState<Q>) -> Option<Event>
    ensures state { state_of run.new ≡ state_of run.old }
    ensures marks { run.new.watched.marks ≡ run.old.watched.marks }
    ensures run { (design : Parts) → IsRunOf design run.old → IsRunOf design run.new }
    ensures active { IfSome result (λ event. IsActive run.new event) }
    ensures idle { IfNone result (executions.is_busy (state_of run.new) ≡ false) }
{
    let queued = queued_event(run);
    if queued.is_some() {
        return queued;
    }
    let counted = counted_event(run);
    if counted.is_some() {
        return counted;
    }
    updates_event(run)
}

/// Whether an event is active; of those of several moves it says no, since a policy chooses one move.
#[inline(always)]
pub fn is_active<Q: EventQueue<Due>>(run: &RunState<Q>, event: Event) -> bool
    ensures { result ≡ true → IsChoice run.now event }
{
    match event {
        Event::Step(process) => is_going(run, process),
        Event::Evaluate(assign) => needs(run, assign),
        Event::Propagate(assign) => is_pending(run, assign),
        Event::Group(_) | Event::Updates => false,
        Event::Make(number) => run.regions.is_first(number),
    }
}

/// Whether a process is active and has taken a step since its timing control ended.
#[inline(always)]
pub fn is_inside<Q: EventQueue<Due>>(run: &RunState<Q>, process: usize) -> bool
    ensures { result ≡ executions.if_some is_inside (slice_get (state_of run.now).places process) }
{
    match run.watched.events.processes.get(process) {
        Some(x) => x.is_inside(),
        None => false,
    }
}

/// What is done where no event is active.
#[inline(always)]
pub fn next_region<Q: EventQueue<Due>>(run: &RunState<Q>) -> Region
    requires run { IsRunOf run.now.design.now run.now }
    requires idle { executions.is_busy (state_of run.now) ≡ false }
    ensures { executions.is_enabled (state_of run.now) (region_move result) ≡ true }
{
    if run.regions.has_inactive() {
        return Region::Inactive;
    }
    if run.regions.has_due() {
        return Region::Updates;
    }
    Region::End
}
