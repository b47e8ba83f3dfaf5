//! The value change dumps of the two runs of a race.
ghost use Rattle.std.specs.Prelude.{◌≡◌, ◌<◌, ◌^◌, true, IfErr, OnOk};
ghost use Rattle.vs_sign_off.specs.vs_simulate.specs.Honesty.{SimulationFails, is_refusal};
ghost use Rattle.vs_sign_off.specs.Dumps.{AreDumps};

use crate::runs::run_to;
use crate::vs_kernel::Fifo;
use crate::vs_kernel::vs_run_steps::Dropped;
use crate::vs_simulate::{SimFault, design_of};
use crate::vs_vcd_writing::Sink;
use std::alloc::Global;
use vs_race_orders::{Planned, Span};

/// Writes the value change dumps of two runs, to a moment in ticks, of the design that a source and the name of a top module define: that of the first
/// order, and that of an order that makes the choices of spans, which rise (IEEE 1364-2005, clause 18).
pub fn write_dumps<'s, V: Sink>(
    alloc: Global,
    source: &'s [u8],
    top: &[u8],
    choices: &[Span],
    time: u64,
    steps: u64,
    first: &mut V,
    other: &mut V,
) -> Result<(), SimFault<'s>>
    requires time { time < 2 ^ 62 }
    requires steps { steps < 2 ^ 62 }
    ensures dumps { OnOk result (AreDumps source.entry.now top.now time steps
        (V.bytes first.old) (V.bytes first.new) (V.bytes other.old) (V.bytes other.new)) }
    ensures fault { IfErr result (λ fault. SimulationFails source.entry.now top.now fault) }
    ensures refused { IfErr result (λ fault. is_refusal fault ≡ true → (first.new ≡ first.old) × (other.new ≡ other.old)) }
{
    let design = design_of(alloc, source, top)?;
    let _ = run_to(alloc, &design, Fifo, time, steps, first, &mut Dropped)?;
    let policy = Planned::new(choices);
    let _ = run_to(alloc, &design, policy, time, steps, other, &mut Dropped)?;
    Ok(())
}
