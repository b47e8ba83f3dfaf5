//! Runs of a design to a moment.
ghost use Rattle.std.specs.Prelude.{◌≡◌, ◌<◌, ◌^◌, IfErr, IfOk};
ghost use Rattle.vs_kernel.specs.Faults.{FaultAt};
ghost use Rattle.vs_kernel.specs.Runs.{RanTo};
ghost use Rattle.vs_kernel.specs.declared.kernel.Status.TheVariants.{Ready};
ghost use Rattle.vs_vcd_reader.specs.BackReadBack.{is_whole};

use std::alloc::{AllocError, Global};
use vs_design::Design;
use vs_kernel::vs_vcd_writing::Sink;
use vs_kernel::{Kernel, Outcome, Pick, RunFault};
use vs_run_regions::Due;
use vs_run_regions::vs_time_wheel::Wheel;

/// Whether a run went to its end.
pub(crate) fn is_whole(outcome: Outcome) -> bool
    ensures { result ≡ is_whole outcome }
{
    match outcome {
        Outcome::Reached => true,
        Outcome::Quiet => true,
        Outcome::Finished(_) => true,
        Outcome::StepLimit(_) => false,
    }
}

/// Runs a design under a policy to a moment, in ticks, in at most so many steps.
pub fn run_to<P: Pick + Drop, V: Sink, L: Sink>(
    alloc: Global,
    design: &Design,
    policy: P,
    time: u64,
    steps: u64,
    vcd: &mut V,
    lines: &mut L,
) -> Result<Outcome, RunFault>
    requires time { time < 2 ^ 62 }
    requires steps { steps < 2 ^ 62 }
    ensures ran { IfOk result (λ outcome. RanTo design.now time steps outcome
        (V.bytes vcd.old) (V.bytes vcd.new) (L.bytes lines.old) (L.bytes lines.new)) }
    ensures fault { IfErr result (λ fault. FaultAt Ready fault) }
{
    let Ok(queue) = Wheel::<Due>::new(alloc) else {
        return Err(RunFault::Memory);
    };
    let mut kernel = Kernel::new(alloc, design, queue, policy)?;
    kernel.run(time, steps, vcd, lines)
}

/// Why a run shows nothing.
#[derive(Clone, Copy)]
pub(crate) enum Unshown {
    /// A growth of memory was refused.
    Memory,
    /// The steps don't suffice, or the dump has no time at or before the moment.
    Limit,
}

impl From<AllocError> for Unshown {
    fn from(_cause: AllocError) -> Unshown {
        Unshown::Memory
    }
}
