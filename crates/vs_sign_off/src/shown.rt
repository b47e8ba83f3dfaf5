//! What the dump of a run shows at a moment.
ghost use Rattle.std.specs.Prelude.{◌≡◌, ◌<◌, ◌^◌, IfOk, IfSome};
ghost use Rattle.vs_design.specs.OneLine.{HasNamesOfOneLine};
ghost use Rattle.vs_vcd_reader.specs.Conditions.{IsOutlined};
ghost use Rattle.vs_sign_off.specs.Witnesses.{IsWitness};
ghost use Rattle.vs_sign_off.specs.passes.Unequal.{Give};

use crate::runs::{Unshown, is_whole, run_to};
use crate::unequal::first_unequal;
use crate::values::values_at;
use crate::witness::Witness;
use std::alloc::{AllocError, Global};
use vs_design::Design;
use vs_design::vs_logic4::Vec4;
use vs_kernel::vs_run_steps::Dropped;
use vs_kernel::vs_vcd_writing::Counted;
use vs_kernel::{Fifo, Pick, dumps_show_slot_ends};
use vs_race_orders::{Difference, Planned};
use vs_vcd_reader::{complete_runs_end_slots, read, run_dumps_are_read};

// The values of all signals that are no arrays at a moment, in design order, in the dump of a run under a policy; none where the steps don't suffice.
fn shown_under<P: Pick + Drop>(
    alloc: Global,
    design: &Design,
    policy: P,
    time: u64,
    steps: u64,
) -> Result<Option<Vec<Vec4>>, AllocError>
    requires outlined { IsOutlined design.now }
    requires names { HasNamesOfOneLine design.now }
    requires time { time < 2 ^ 62 }
    requires steps { steps < 2 ^ 62 }
    ensures { IfOk result (λ o. IfSome o (λ values. Give design.now time values.items)) }
{
    run_dumps_are_read();
    dumps_show_slot_ends();
    complete_runs_end_slots();
    let room = Vec::new(alloc);
    let mut vcd = Counted::new(room);
    let Ok(outcome) = run_to(alloc, design, policy, time, steps, &mut vcd, &mut Dropped) else {
        return Err(AllocError);
    };
    if !is_whole(outcome) {
        return Ok(None);
    }
    let text = vcd.into_inner();
    let Ok(dump) = read(alloc, text.as_slice()) else {
        return Err(AllocError);
    };
    values_at(alloc, &dump.moments, time)
}

// The same, where there are some.
fn values_under<P: Pick + Drop>(
    alloc: Global,
    design: &Design,
    policy: P,
    time: u64,
    steps: u64,
) -> Result<Vec<Vec4>, Unshown>
    requires outlined { IsOutlined design.now }
    requires names { HasNamesOfOneLine design.now }
    requires time { time < 2 ^ 62 }
    requires steps { steps < 2 ^ 62 }
    ensures { IfOk result (λ values. Give design.now time values.items) }
{
    match shown_under(alloc, design, policy, time, steps) {
        Ok(Some(values)) => Ok(values),
        Ok(None) => Err(Unshown::Limit),
        Err(AllocError) => Err(Unshown::Memory),
    }
}

// The first signal that the dumps of two orders show with different values at a moment.
fn witness_between(
    alloc: Global,
    design: &Design,
    difference: Difference,
    steps: u64,
) -> Result<Option<Witness>, Unshown>
    requires outlined { IsOutlined design.now }
    requires names { HasNamesOfOneLine design.now }
    requires time { difference.time < 2 ^ 62 }
    requires steps { steps < 2 ^ 62 }
    ensures { IfOk result (λ o. IfSome o (λ w. IsWitness design.now w)) }
{
    let Difference {
        time,
        lines: _,
        choices,
    } = difference;
    let first = values_under(alloc, design, Fifo, time, steps)?;
    let other = values_under(alloc, design, Planned::new(&choices), time, steps)?;
    let one = first.as_slice();
    let two = other.as_slice();
    let signals = design.signals();
    let Some(unequal) = first_unequal(signals, one, two) else {
        return Ok(None);
    };
    let Some(known) = signals.get(unequal.signal) else {
        return Ok(None);
    };
    let path = Vec::from_slice(alloc, known.path.as_slice())?;
    Ok(Some(Witness {
        time,
        signal: unequal.signal,
        path,
        first: unequal.first,
        other: unequal.other,
        choices,
    }))
}

/// The runs in the first order and in another one to the moment to which they differ: the first signal that their dumps show with different values;
/// none where there is none.
pub fn witness_of(
    alloc: Global,
    design: &Design,
    difference: Difference,
    steps: u64,
) -> Result<Option<Witness>, AllocError>
    requires outlined { IsOutlined design.now }
    requires names { HasNamesOfOneLine design.now }
    requires time { difference.time < 2 ^ 62 }
    requires steps { steps < 2 ^ 62 }
    ensures { IfOk result (λ o. IfSome o (λ w. IsWitness design.now w)) }
{
    match witness_between(alloc, design, difference, steps) {
        Ok(witness) => Ok(witness),
        Err(Unshown::Limit) => Ok(None),
        Err(Unshown::Memory) => Err(AllocError),
    }
}
