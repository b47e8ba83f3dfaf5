//! The run of a design, from its start to its end.
ghost use Rattle.std.specs.Prelude.{◌≡◌, [], ◌<◌, ◌^◌, map, IfOk, OnErr};
ghost use Rattle.vs_kernel.specs.Ends.{end_in, outcome_in};
ghost use Rattle.vs_kernel.specs.Runs.{RanTo, HasBegun};
ghost use Rattle.vs_kernel.specs.vs_run_steps.specs.Runs.{state_of};
ghost use Rattle.vs_kernel.specs.vs_run_steps.specs.Failures.{OneFailed};
ghost use Rattle.vs_vcd_writing.specs.Progress.{is_write_fault};

use crate::outcome::Outcome;
use crate::{Run, codes_of, scripts_of};
use std::alloc::Global;
use vs_design::Design;
use vs_run_regions::vs_process::{Code, blocks_exclude, inside_follows, none_inside_first};
use vs_run_regions::vs_time_wheel::EventQueue;
use vs_run_regions::{Due, Pick};
use vs_vcd_writing::{Sink, WriterFault};

/// How a run ends in a state in which its execution is complete.
fn outcome_of<Q: EventQueue<Due>>(run: &Run<Q>) -> Outcome
    ensures { result ≡ outcome_in (state_of run.now.running) }
{
    if !run.is_over() {
        return Outcome::Reached;
    }
    if run.is_finishing() {
        Outcome::Finished(run.time())
    } else {
        Outcome::Quiet
    }
}

/// The time at which the value change dump of a complete execution ends, in ticks.
fn end_of<Q: EventQueue<Due>>(run: &Run<Q>, until: u64) -> u64
    ensures { result ≡ end_in until (state_of run.now.running) }
{
    if run.is_over() && run.is_finishing() {
        run.time()
    } else {
        until
    }
}

/// Runs a design from its start; these are the codes of its processes, one each in order.
fn execute<Q: EventQueue<Due> + Drop, P: Pick, V: Sink, L: Sink>(
    alloc: Global,
    design: &Design,
    codes: &[Code],
    queue: Q,
    policy: &mut P,
    until: u64,
    steps: u64,
    vcd: &mut V,
    lines: &mut L,
) -> Result<Outcome, WriterFault>
    requires empty { Q.bag queue ≡ [] }
    requires at_zero { Q.clock queue ≡ 0 }
    requires codes { codes.now ≡ map (λ p. p.body) design.now.processes }
    requires early { until < 2 ^ 62 }
    ensures ran { IfOk result (λ outcome. RanTo design.now until steps outcome
        (V.bytes vcd.old) (V.bytes vcd.new) (L.bytes lines.old) (L.bytes lines.new)) }
    ensures begun { OnErr result (HasBegun design.now until steps
        (V.bytes vcd.old) (V.bytes vcd.new) (L.bytes lines.old) (L.bytes lines.new)) }
    ensures failures { OneFailed (is_write_fault result) (V.failed vcd.old) (V.failed vcd.new) (L.failed lines.old) (L.failed lines.new) }
{
    blocks_exclude();
    inside_follows();
    none_inside_first();
    let scripts = scripts_of(alloc, design, codes)?;
    let mut run = Run::start(alloc, &*design, &scripts, queue, !P::FIRST, vcd)?;
    let mut left = steps;
    while !run.is_over() && run.time() <= until {
        if left == 0 {
            return Ok(Outcome::StepLimit(run.time()));
        }
        let rest = run.take_steps(policy, left, vcd, lines)?;
        left = rest;
    }
    let outcome = outcome_of(&run);
    let end = end_of(&run, until);
    run.finish(vcd, end)?;
    Ok(outcome)
}

/// Compiles the processes of a design, and runs it from its start.
pub(crate) fn launch<Q: EventQueue<Due> + Drop, P: Pick, V: Sink, L: Sink>(
    alloc: Global,
    design: &Design,
    queue: Q,
    policy: &mut P,
    until: u64,
    steps: u64,
    vcd: &mut V,
    lines: &mut L,
) -> Result<Outcome, WriterFault>
    requires empty { Q.bag queue ≡ [] }
    requires at_zero { Q.clock queue ≡ 0 }
    requires early { until < 2 ^ 62 }
    ensures ran { IfOk result (λ outcome. RanTo design.now until steps outcome
        (V.bytes vcd.old) (V.bytes vcd.new) (L.bytes lines.old) (L.bytes lines.new)) }
    ensures begun { OnErr result (HasBegun design.now until steps
        (V.bytes vcd.old) (V.bytes vcd.new) (L.bytes lines.old) (L.bytes lines.new)) }
    ensures failures { OneFailed (is_write_fault result) (V.failed vcd.old) (V.failed vcd.new) (L.failed lines.old) (L.failed lines.new) }
{
    let codes = codes_of(alloc, design.processes())?;
    execute(
        alloc, design, &codes, queue, policy, until, steps, vcd, lines,
    )
}
