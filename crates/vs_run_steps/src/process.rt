//! The steps of a process in a run, one after another, until it waits or is at its end (IEEE 1364-2005, clauses 9 and 11.3).
ghost use Rattle.std.specs.Prelude.{◌≡◌, ◌<◌, ◌≤◌, ◌^◌, true, false, Some, slice_get, IfOk, OnOk, OnErr};
ghost use Rattle.vs_process.specs.Places.{is_going};
ghost use Rattle.vs_process.specs.Scripts.{todo_on};
ghost use Rattle.vs_run_active.specs.vs_process.specs.Executions as executions;
ghost use Rattle.vs_run_active.specs.ProcessPlaces.{is_active, place_by, place_in};
ghost use Rattle.vs_run_active.specs.Taken.{placed};
ghost use Rattle.vs_run_steps.specs.Runs.{Agrees, IsRun, Keeps, Plan, counters_at, state_of};
ghost use Rattle.vs_run_steps.specs.Stepping.{Enters, HaveTaken, IsLater, IsValidWait, IsMovedFrom};
ghost use Rattle.vs_run_steps.specs.Taken.{TakenPart};
ghost use Rattle.vs_run_steps.specs.vs_run_active.specs.Changes.{MarkChanges};
ghost use Rattle.vs_vcd_writing.specs.Progress.{is_write_fault};
ghost use Rattle.vs_vcd_writing.specs.Sinks.{failed_after};

use crate::run::RunState;
use crate::step::Went;
use std::alloc::AllocError;
use vs_process::Gait;
use vs_run_active::vs_process::Move;
use vs_run_active::{Process, Wait, gait_after};
use vs_run_regions::vs_time_wheel::EventQueue;
use vs_run_regions::{Due, Regions};
use vs_vcd_writing::{Sink, WriterFault};

/// What steps of a process have come to: how many were taken, the index where it stands after them, and what it waits for there.
#[derive(Clone, Copy)]
struct StepOutcome<'a> {
    steps: u64,
    index: usize,
    wait: Wait<'a>,
}

/// A process begins to wait, where it waits for the end of a delay.
#[inline(always)]
fn enter<'a, Q: EventQueue<Due>>(
    regions: &mut Regions<'a, Q>,
    number: usize,
    wait: Wait<'_>,
) -> Result<(), AllocError>
    requires { IsLater regions.old.time wait }
    ensures { OnOk result (Enters number wait.entry regions.old regions.new) }
{
    match wait {
        Wait::Nothing(_) => Ok(()),
        Wait::Until(due) => {
            regions.sleep(number, due)?;
            Ok(())
        }
        Wait::Inactive => {
            regions.wait(number)?;
            Ok(())
        }
        Wait::Terms(_, _) => Ok(()),
    }
}

impl<'a, Q: EventQueue<Due>> RunState<'a, Q> {
    /// An active process stands elsewhere in its script, and waits so.
    #[inline(always)]
    fn move_process(&mut self, number: usize, process: Process<'a>) -> Result<(), AllocError>
        ghost plan: { Plan }
        requires agrees { Agrees plan.design plan.terms self.old }
        requires there { IsMovedFrom number process self.old.watched.events.processes }
        requires stands { IsValidWait process.script.now self.old.regions.time process.wait }
        ensures agrees { OnOk result (Agrees plan.design plan.terms self.new) }
        ensures state { OnOk result (state_of self.new
            ≡ placed (state_of self.old) number (place_in process.entry (counters_at number self.old))) }
        ensures store { self.new.watched.store ≡ self.old.watched.store }
        ensures marks { self.new.watched.marks ≡ self.old.watched.marks }
    {
        enter(&mut self.regions, number, process.wait)?;
        self.watched.events.processes.put(number, process);
        Ok(())
    }

    /// Takes steps of an active process, at most so many, until it waits or is at its end, and writes the lines that they print. Its own place stays.
    #[inline(always)]
    fn take_steps<L: Sink>(
        &mut self,
        number: usize,
        process: Process<'a>,
        gait: Gait,
        limit: u64,
        lines: &mut L,
    ) -> Result<StepOutcome<'a>, WriterFault>
        ghost plan: { Plan }
        requires agrees { Agrees plan.design plan.terms self.old }
        requires early { self.old.regions.time < 2 ^ 62 }
        requires limit { 0 < limit }
        requires there { slice_get self.old.watched.events.processes number ≡ Some process }
        requires active { process.wait ≡ Wait.Nothing gait }
        ensures within { IfOk result (λ t. t.steps ≤ limit) }
        ensures some { IfOk result (λ t. is_active process.entry ≡ true → 0 < t.steps) }
        ensures stopped { IfOk result (λ t. t.steps < limit
            → is_going (place_by t.wait (todo_on process.entry.script.now (counters_at number self.new) t.index)) ≡ false) }
        ensures taken { IfOk result (λ t. HaveTaken t.steps number (state_of self.old)
            (placed (state_of self.new) number (place_by t.wait (todo_on process.entry.script.now (counters_at number self.new) t.index)))
            (L.bytes lines.old) (L.bytes lines.new)) }
        ensures stands { IfOk result (λ t. IsValidWait process.entry.script.now self.old.regions.time t.wait) }
        ensures keeps { OnOk result (Keeps plan.design plan.terms self.old self.new) }
        ensures err { OnErr result (TakenPart limit number (state_of self.old) (L.bytes lines.old) (L.bytes lines.new)) }
        ensures failures { L.failed lines.new ≡ failed_after (is_write_fault result) (L.failed lines.old) }
    {
        let wait = Wait::Nothing(gait_after(gait));
        let script = process.script;
        let instructions = script.instructions();
        let mut index = process.index;
        for steps in 0..limit {
            let Some(x) = instructions.get(index) else {
                return Ok(StepOutcome { steps, index, wait });
            };
            self.print(&x.action, lines)?;
            match self.act(number, x)? {
                Went::On(next) => index = next,
                Went::Rests(next, rest) => {
                    return Ok(StepOutcome {
                        steps: steps + 1,
                        index: next,
                        wait: rest,
                    });
                }
            }
        }
        Ok(StepOutcome {
            steps: limit,
            index,
            wait,
        })
    }

    /// Takes steps of a process, at most so many, one after another until it waits or is at its end, and writes the lines that they print. The
    /// answer is how many were taken: none, where it isn't active.
    #[inline(never)]
    pub fn run_process<L: Sink>(
        &mut self,
        number: usize,
        limit: u64,
        lines: &mut L,
    ) -> Result<u64, WriterFault>
        ghost plan: { Plan }
        requires run { IsRun plan.design plan.terms self.old }
        requires early { self.old.regions.time < 2 ^ 62 }
        requires limit { 0 < limit }
        ensures run { OnOk result (IsRun plan.design plan.terms self.new) }
        ensures within { IfOk result (λ taken. taken ≤ limit) }
        ensures some { IfOk result (λ taken. executions.is_enabled (state_of self.old) (Move.Step number) ≡ true → 0 < taken) }
        ensures stopped { IfOk result (λ taken. taken < limit
            → executions.if_some is_going (slice_get (state_of self.new).places number) ≡ false) }
        ensures ok { IfOk result (λ taken. HaveTaken taken number (state_of self.old) (state_of self.new)
            (L.bytes lines.old) (L.bytes lines.new)) }
        ensures err { OnErr result (TakenPart limit number (state_of self.old) (L.bytes lines.old) (L.bytes lines.new)) }
        ensures marked { OnOk result (MarkChanges self.old.watched.marks.items self.new.watched.marks.items
            self.old.watched.store self.new.watched.store) }
        ensures failures { L.failed lines.new ≡ failed_after (is_write_fault result) (L.failed lines.old) }
    {
        let Some(process) = self.watched.events.processes.get(number) else {
            return Ok(0);
        };
        let process = *process;
        if !process.is_going() {
            return Ok(0);
        }
        let Wait::Nothing(gait) = process.wait else {
            return Ok(0);
        };
        let taken = self.take_steps(number, process, gait, limit, lines)?;
        let stands = Process {
            script: process.script,
            index: taken.index,
            wait: taken.wait,
        };
        self.move_process(number, stands)?;
        Ok(taken.steps)
    }
}
