//! One simulation.
ghost use Rattle.std.specs.Prelude.{◌≡◌, ◌<◌, ◌^◌, true, false, IfOk, IfErr, OnErr, MatchResult};
ghost use Rattle.vs_kernel.specs.Faults.{FaultAt, OneFailed, is_write as is_run_write};
ghost use Rattle.vs_kernel.specs.Runs.{RanTo, HasBegun};
ghost use Rattle.vs_kernel.specs.declared.kernel.Status.TheVariants.{Ready};
ghost use Rattle.vs_run_regions.specs.vs_process.specs.Permitted.{NeverStuck};
ghost use Rattle.vs_simulate.specs.Honesty.{Defines, DefinesNone, IsRun, HasBegunRun, SimulationFails, is_refusal, is_write};

use crate::fault::SimFault;
use crate::laws::names_of_one_line;
use std::alloc::Global;
use vs_design::Design;
use vs_elaborate::elaborate;
use vs_kernel::vs_vcd_writing::Sink;
use vs_kernel::{Fifo, Kernel, Lifo, Listed, Outcome, Pick, RunFault, dumps_show_slot_ends};
use vs_parser::parse;
use vs_run_regions::Due;
use vs_run_regions::vs_process::never_stuck;
use vs_run_regions::vs_time_wheel::Wheel;
use vs_syntax::vs_lexer::lex;

/// Which enabled item is next.
#[derive(Clone, Copy)]
pub enum Policy<'v> {
    /// The first of the list.
    Fifo,
    /// The last of the list.
    Lifo,
    /// At each choice the item of the next of these numbers, modulo how many items there are; behind the last number the first item.
    Listed(&'v [usize]),
}

/// The design that a source and the name of a top module define, or why they define none.
pub fn design_of<'s>(alloc: Global, source: &'s [u8], top: &[u8]) -> Result<Design, SimFault<'s>>
    ensures { MatchResult result (λ d. Defines source.entry.now top.now d)
        (λ fault. DefinesNone source.entry.now top.now fault) }
{
    let tree = {
        let tokens = lex(alloc, source)?;
        parse(alloc, &tokens)?
    };
    let design = elaborate(alloc, &tree, top)?;
    Ok(design)
}

// Runs a design under a policy.
fn run_under<P: Pick + Drop, V: Sink, L: Sink>(
    alloc: Global,
    design: &Design,
    policy: P,
    until: u64,
    steps: u64,
    vcd: &mut V,
    lines: &mut L,
) -> Result<Outcome, RunFault>
    requires until { until < 2 ^ 62 }
    requires steps { steps < 2 ^ 62 }
    ensures ran { IfOk result (λ outcome. RanTo design.now until steps outcome
        (V.bytes vcd.old) (V.bytes vcd.new) (L.bytes lines.old) (L.bytes lines.new)) }
    ensures begun { OnErr result (HasBegun design.now until steps
        (V.bytes vcd.old) (V.bytes vcd.new) (L.bytes lines.old) (L.bytes lines.new)) }
    ensures fault { IfErr result (λ fault. FaultAt Ready fault) }
    ensures failures { OneFailed (is_run_write result) (V.failed vcd.old) (V.failed vcd.new) (L.failed lines.old) (L.failed lines.new) }
{
    let Ok(queue) = Wheel::<Due>::new(alloc) else {
        return Err(RunFault::Memory);
    };
    let mut kernel = Kernel::new(alloc, design, queue, policy)?;
    kernel.run(until, steps, vcd, lines)
}

/// Runs a design under one of the policies, until its time is past `until`, in ticks, no event is left or `$finish` took effect, in at most `steps`
/// steps. The value change dump is written to `vcd` and the lines to `lines`, as by `simulate`.
pub fn run_design<V: Sink, L: Sink>(
    alloc: Global,
    design: &Design,
    policy: &Policy,
    until: u64,
    steps: u64,
    vcd: &mut V,
    lines: &mut L,
) -> Result<Outcome, RunFault>
    requires until { until < 2 ^ 62 }
    requires steps { steps < 2 ^ 62 }
    ensures ran { IfOk result (λ outcome. RanTo design.now until steps outcome
        (V.bytes vcd.old) (V.bytes vcd.new) (L.bytes lines.old) (L.bytes lines.new)) }
    ensures begun { OnErr result (HasBegun design.now until steps
        (V.bytes vcd.old) (V.bytes vcd.new) (L.bytes lines.old) (L.bytes lines.new)) }
    ensures fault { IfErr result (λ fault. FaultAt Ready fault) }
    ensures failures { OneFailed (is_run_write result) (V.failed vcd.old) (V.failed vcd.new) (L.failed lines.old) (L.failed lines.new) }
{
    match policy {
        Policy::Fifo => run_under(alloc, design, Fifo, until, steps, vcd, lines),
        Policy::Lifo => run_under(alloc, design, Lifo, until, steps, vcd, lines),
        Policy::Listed(choices) => {
            let listed = Listed::new(choices);
            run_under(alloc, design, listed, until, steps, vcd, lines)
        }
    }
}

/// Runs the design that a source and the name of a top module define, until its time is past `until`, in ticks, no event is left or `$finish` took
/// effect, in at most `steps` steps. The value change dump is written to `vcd`, and the lines of `$display` and `$strobe` to `lines` (IEEE 1364-2005,
/// clauses 17.1 and 18).
///
/// Where it answers an outcome, the run is an execution of the design that the source defines, and the dump is that execution's: it shows, of each
/// signal that is no array, at each time, the value at the end of the last slot at or before that time; and the lines are those that its steps make, in
/// their order, those of `$strobe` at the end of their slot. Where the source is refused, nothing is written. That the dump reads back
/// to these values at these times is a law of `vs_vcd_reader`.
pub fn simulate<'s, V: Sink, L: Sink>(
    alloc: Global,
    source: &'s [u8],
    top: &[u8],
    until: u64,
    steps: u64,
    policy: &Policy,
    vcd: &mut V,
    lines: &mut L,
) -> Result<Outcome, SimFault<'s>>
    requires until { until < 2 ^ 62 }
    requires steps { steps < 2 ^ 62 }
    ensures honest { IfOk result (λ outcome.
        IsRun source.entry.now top.now until steps outcome (V.bytes vcd.old) (V.bytes vcd.new) (L.bytes lines.old) (L.bytes lines.new)) }
    ensures fault { IfErr result (λ fault. SimulationFails source.entry.now top.now fault) }
    ensures refused { IfErr result (λ fault. is_refusal fault ≡ true → (vcd.new ≡ vcd.old) × (lines.new ≡ lines.old)) }
    ensures begun { IfErr result (λ fault. is_refusal fault ≡ false →
        HasBegunRun source.entry.now top.now until steps (V.bytes vcd.old) (V.bytes vcd.new) (L.bytes lines.old) (L.bytes lines.new)) }
    // A failed write is told only where the count of a sink rose.
    ensures failures { OneFailed (is_write result) (V.failed vcd.old) (V.failed vcd.new) (L.failed lines.old) (L.failed lines.new) }
    ensures never_stuck { NeverStuck }
{
    never_stuck();
    dumps_show_slot_ends();
    names_of_one_line();
    let design = design_of(alloc, source, top)?;
    let outcome = run_design(alloc, &design, policy, until, steps, vcd, lines)?;
    Ok(outcome)
}
