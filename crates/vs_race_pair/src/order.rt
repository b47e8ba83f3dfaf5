//! The moves of a run under a policy that chooses each event (IEEE 1364-2005, clause 11).
ghost use Rattle.std.specs.Prelude.{◌≡◌, ◌<◌, ◌^◌, false, IfNone, IfSome, OnOk};
ghost use Rattle.vs_run_active.specs.vs_process.specs.Executions as executions;
ghost use Rattle.vs_kernel.specs.Running.{IsChoice};
ghost use Rattle.vs_run_steps.specs.Runs.{IsRunOf, state_of};

use std::alloc::{AllocError, Global};
use vs_design::Design;
use vs_kernel::vs_run_regions::vs_time_wheel::EventQueue;
use vs_kernel::vs_run_regions::{Agenda, Due, Event};
use vs_kernel::vs_run_steps::Forms;
use vs_kernel::{
    Region, is_active, is_going, is_inside, leave, lost_event, next_region, run_event,
};
use vs_run_active::vs_process::is_combinational;
use vs_run_regions::Pick;
use vs_run_steps::{Dropped, RunState};
use vs_vcd_writing::WriterFault;

/// What a policy chooses from.
#[derive(Drop)]
pub(crate) struct Order {
    /// Of each process whether it is a combinational block.
    blocks: Vec<bool>,
    /// The block that has taken a step since its control.
    inside: Option<usize>,
    agenda: Agenda,
    /// The place in it of what was chosen.
    picked: Option<usize>,
}

// Of each process whether it is a combinational block.
fn blocks_of(alloc: Global, design: &Design) -> Result<Vec<bool>, AllocError> {
    let mut blocks = Vec::new(alloc);
    for process in design.processes() {
        blocks.push(is_combinational(process))?;
    }
    Ok(blocks)
}

/// What is chosen from at the start of a run.
pub(crate) fn order_of<Q: EventQueue<Due>>(
    alloc: Global,
    design: &Design,
    run: &mut RunState<Q>,
) -> Result<Order, AllocError>
    requires { IsRunOf design.now run.old }
    ensures { OnOk result (IsRunOf design.now run.new) }
{
    let blocks = blocks_of(alloc, design)?;
    let mut agenda = Agenda::new(alloc, design.signals().len(), design.assigns().len())?;
    let first_process = run.watched.events.first_process;
    let queue = &mut run.watched.events.queue;
    agenda.add_woken(queue, first_process)?;
    Ok(Order {
        blocks,
        inside: None,
        agenda,
        picked: None,
    })
}

// The event that comes next: that of a block that goes on, or what the policy chooses.
fn chosen_event<Q: EventQueue<Due>, P: Pick>(
    run: &RunState<Q>,
    order: &mut Order,
    policy: &mut P,
) -> Option<Event> {
    if let Some(process) = order.inside {
        order.picked = order.agenda.last();
        return Some(Event::Step(process));
    }
    order.picked = order.agenda.pick(policy);
    let index = order.picked?;
    if let Some(event) = order.agenda.event_at(index)
        && is_active(run, event)
    {
        return Some(event);
    }
    order.agenda.remove(order.picked);
    order.picked = None;
    None
}

/// The next event, where one is active.
pub(crate) fn next_event<Q: EventQueue<Due>, P: Pick>(
    run: &RunState<Q>,
    order: &mut Order,
    policy: &mut P,
) -> Option<Event>
    ensures active { IfSome result (λ event. IsChoice run.now event) }
    ensures idle { IfNone result (executions.is_busy (state_of run.now) ≡ false) }
{
    if let Some(event) = chosen_event(run, order, policy)
        && is_active(run, event)
    {
        return Some(event);
    }
    lost_event(run)
}

// The block that has taken a step since its control, after an event.
fn inside_after<Q: EventQueue<Due>>(
    run: &RunState<Q>,
    blocks: &[bool],
    event: Event,
) -> Option<usize> {
    let Event::Step(process) = event else {
        return None;
    };
    if *blocks.get(process)? && is_inside(run, process) {
        return Some(process);
    }
    None
}

// Whether the event of a process is still active after its move.
fn goes_on<Q: EventQueue<Due>>(run: &RunState<Q>, event: Event) -> bool {
    match event {
        Event::Step(process) => is_going(run, process),
        _ => false,
    }
}

/// Makes the move of an event.
pub(crate) fn make_event<Q: EventQueue<Due>>(
    run: &mut RunState<Q>,
    forms: &Forms,
    order: &mut Order,
    event: Event,
) -> Result<(), WriterFault>
    requires run { IsRunOf forms.now run.old }
    requires going { (state_of run.old).over ≡ false }
    requires early { (state_of run.old).time < 2 ^ 62 }
    requires active { IsChoice run.old event }
    ensures run { OnOk result (IsRunOf forms.now run.new) }
{
    run_event(run, forms, event, 1, &mut Dropped)?;
    order.inside = inside_after(run, &order.blocks, event);
    let goes_on = goes_on(run, event);
    let first_process = run.watched.events.first_process;
    let queue = &mut run.watched.events.queue;
    order
        .agenda
        .follow(event, order.picked, goes_on, queue, first_process)?;
    Ok(())
}

// The updates that a region has activated enter the list.
fn list_updates<Q: EventQueue<Due>>(
    run: &mut RunState<Q>,
    order: &mut Order,
    region: Region,
) -> Result<(), AllocError>
    ensures { run.new ≡ run.old }
{
    let Region::Updates = region else {
        return Ok(());
    };
    run.regions.claim()?;
    order.agenda.list_updates(&run.regions)
}

/// Makes the move that is made where no event is active.
pub(crate) fn leave_region<Q: EventQueue<Due>>(
    run: &mut RunState<Q>,
    forms: &Forms,
    order: &mut Order,
) -> Result<Region, WriterFault>
    requires run { IsRunOf forms.now run.old }
    requires going { (state_of run.old).over ≡ false }
    requires idle { executions.is_busy (state_of run.old) ≡ false }
    ensures run { OnOk result (IsRunOf forms.now run.new) }
{
    let region = next_region(run);
    leave(run, region)?;
    list_updates(run, order, region)?;
    let first_process = run.watched.events.first_process;
    let queue = &mut run.watched.events.queue;
    order.agenda.add_woken(queue, first_process)?;
    Ok(region)
}
