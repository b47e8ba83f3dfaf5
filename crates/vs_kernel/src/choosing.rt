//! What a policy chooses, and the list that it chooses from.
ghost use Rattle.std.specs.Prelude.{◌≡◌, ◌<◌, false, true, None, IfNone, IfSome};
ghost use Rattle.vs_run_active.specs.vs_process.specs.Blocks.{is_step_of_any};
ghost use Rattle.vs_run_active.specs.vs_process.specs.Executions as executions;
ghost use Rattle.vs_kernel.specs.Running.{IsChoice, move_of};
ghost use Rattle.vs_kernel.specs.Snapshot.{IsSnapshot};
ghost use Rattle.vs_run_steps.specs.Runs.{state_of};
ghost use Rattle.vs_run_steps.specs.Insides.{inside_by_flags};
ghost use Rattle.vs_run_steps.specs.Turns.{GoesOn};

use crate::run::Run;
use crate::vs_run_regions::vs_time_wheel::EventQueue;
use crate::vs_run_regions::{Due, Event};
use crate::{is_active, is_going, is_inside, lost_event};
use std::alloc::AllocError;
use vs_run_regions::Pick;
use vs_run_steps::RunState;

/// Whether the event of a process is still active after its move.
fn goes_on<Q: EventQueue<Due>>(run: &RunState<Q>, event: Event) -> bool {
    match event {
        Event::Step(process) => is_going(run, process),
        _ => false,
    }
}

impl<'a, Q: EventQueue<Due>> Run<'a, Q> {
    /// The next event. A combinational block that has left its control goes on, which is no choice. Else it is what the policy chooses of the list,
    /// where that is active, and else an event that the state has.
    pub(crate) fn choose<P: Pick>(&mut self, policy: &mut P) -> Option<Event>
        requires goes_on { GoesOn self.old.inside (state_of self.old.running) }
        ensures same { self.new ≡ self.old }
        ensures active { IfSome result (λ event. IsChoice self.new.running event) }
        ensures free { IfSome result (λ event. is_step_of_any self.new.inside (move_of self.new.running event) ≡ true) }
        ensures idle { IfNone result ((executions.is_busy (state_of self.new.running) ≡ false) × (self.new.inside ≡ None)) }
    {
        if let Some(process) = self.inside {
            self.picked = self.agenda.last();
            return Some(Event::Step(process));
        }
        self.picked = self.agenda.pick(policy);
        if let Some(index) = self.picked {
            if let Some(event) = self.agenda.event_at(index)
                && is_active(&self.running, event)
            {
                return Some(event);
            }
            self.agenda.remove(self.picked);
            self.picked = None;
        }
        lost_event(&self.running)
    }

    /// The combinational block that has taken a step since its control, after the move of an event: that of the step, if it is one.
    pub(crate) fn inside_after(&self, event: Event) -> Option<usize>
        ensures { result ≡ inside_by_flags self.now.blocks (state_of self.now.running).places (move_of self.now.running event) }
    {
        let Event::Step(process) = event else {
            return None;
        };
        let Some(block) = self.blocks.get(process) else {
            return None;
        };
        if *block && is_inside(&self.running, process) {
            Some(process)
        } else {
            None
        }
    }

    /// What a move between events has woken enters the list.
    pub(crate) fn list_woken(&mut self) -> Result<(), AllocError>
        ensures run { IsSnapshot self.old → IsSnapshot self.new }
        ensures same { self.new ≡ record self.old { running = self.new.running } }
        ensures state { state_of self.new.running ≡ state_of self.old.running }
    {
        self.chosen = None;
        let first_process = self.running.watched.events.first_process;
        self.agenda
            .add_woken(&mut self.running.watched.events.queue, first_process)?;
        Ok(())
    }

    /// The list is brought up to date after the move of an event.
    pub(crate) fn follow(&mut self, event: Event) -> Result<(), AllocError>
        ensures run { IsSnapshot self.old → IsSnapshot self.new }
        ensures same { self.new ≡ record self.old { running = self.new.running } }
        ensures state { state_of self.new.running ≡ state_of self.old.running }
    {
        self.chosen = Some(event);
        let goes_on = goes_on(&self.running, event);
        let first_process = self.running.watched.events.first_process;
        let queue = &mut self.running.watched.events.queue;
        self.agenda
            .follow(event, self.picked, goes_on, queue, first_process)?;
        Ok(())
    }
}
