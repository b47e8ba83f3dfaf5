//! The steps of a run, taken again and counted.
ghost use Rattle.std.specs.Prelude.{◌≡◌, true, map};
ghost use Rattle.vs_kernel.specs.Snapshot.{IsSnapshot};

use std::alloc::{AllocError, Global};
use vs_design::Design;
use vs_kernel::vs_run_steps::Dropped;
use vs_kernel::{Event, Run, codes_of, scripts_of};
use vs_run_regions::vs_process::Code;
use vs_run_regions::vs_time_wheel::{EventQueue, Wheel};
use vs_run_regions::{Due, Lifo, Listed, Pick};
use vs_vcd_writing::WriterFault;

/// How many steps at the end of a run are counted.
const COUNTED: u64 = 1000;

/// The first time that no run reaches, in ticks.
const END_OF_TIME: u64 = 1 << 62;

/// The last steps of a run: how many of them each process and each assignment took.
pub struct LastSteps {
    /// How many they are.
    pub steps: u64,
    /// The time at which the first of them was taken, in ticks.
    pub from: u64,
    /// For each process.
    pub processes: Vec<u64>,
    /// For each assignment.
    pub assigns: Vec<u64>,
}

impl Drop for LastSteps {
    fn drop(self) {
        let Self {
            steps: _,
            from: _,
            processes: _,
            assigns: _,
        } = self;
    }
}

/// Counts one more.
fn raise(counts: &mut Vec<u64>, place: usize) {
    if let Some(count) = counts.get_mut(place) {
        *count = count.saturating_add(1);
    }
}

impl LastSteps {
    /// Counts the step of an event.
    fn add(&mut self, event: Event) {
        match event {
            Event::Step(process) => raise(&mut self.processes, process),
            Event::Evaluate(assign) | Event::Propagate(assign) => raise(&mut self.assigns, assign),
            _ => {}
        }
    }
}

/// Takes the steps of a run from its start, so many, and counts the last of them. Nothing is written.
fn count_steps<'a, Q: EventQueue<Due>, P: Pick>(
    alloc: Global,
    design: &Design,
    run: &mut Run<'a, Q>,
    policy: &mut P,
    steps: u64,
) -> Result<LastSteps, WriterFault>
    requires run { IsSnapshot run.old }
    requires chooses { run.old.chooses ≡ true }
{
    let mut last = LastSteps {
        steps: steps.min(COUNTED),
        from: 0,
        processes: vec![in alloc; 0; design.processes().len()]?,
        assigns: vec![in alloc; 0; design.assigns().len()]?,
    };
    let mut vcd = Dropped;
    let mut lines = Dropped;
    let mut left = steps;
    while left > 0 {
        if left >= COUNTED {
            last.from = run.time();
        }
        if run.is_over() || run.time() >= END_OF_TIME {
            break;
        }
        run.take_steps(policy, 1, &mut vcd, &mut lines)?;
        if left <= COUNTED
            && let Some(event) = run.chosen()
        {
            last.add(event);
        }
        left -= 1;
    }
    Ok(last)
}

/// Takes the steps of a run under a policy again, and counts the last of them; these are the codes of its processes, one each in order.
fn count_codes<P: Pick>(
    alloc: Global,
    design: &Design,
    codes: &[Code],
    policy: &mut P,
    steps: u64,
) -> Result<LastSteps, WriterFault>
    requires { codes.now ≡ map (λ p. p.body) design.now.processes }
{
    let Ok(queue) = Wheel::<Due>::new(alloc) else {
        return Err(WriterFault::Memory);
    };
    let scripts = scripts_of(alloc, design, codes)?;
    let mut vcd = Dropped;
    let mut run = Run::start(alloc, &*design, &scripts, queue, true, &mut vcd)?;
    count_steps(alloc, design, &mut run, policy, steps)
}

/// Takes the steps of a run under a policy again, and counts the last of them.
fn count_under<P: Pick>(
    alloc: Global,
    design: &Design,
    policy: &mut P,
    steps: u64,
) -> Result<LastSteps, AllocError> {
    let codes = codes_of(alloc, design.processes())?;
    // No write to a sink that keeps nothing fails.
    let Ok(last) = count_codes(alloc, design, &codes, policy, steps) else {
        return Err(AllocError);
    };
    Ok(last)
}

/// The last steps of a run of so many, where always the first event or always the last one is chosen: the run is made again.
pub fn last_steps(
    alloc: Global,
    design: &Design,
    lifo: bool,
    steps: u64,
) -> Result<LastSteps, AllocError> {
    if lifo {
        return count_under(alloc, design, &mut Lifo, steps);
    }
    count_under(alloc, design, &mut Listed::new(&[]), steps)
}
