//! What `$strobe` prints of a run to a moment.
ghost use Rattle.std.specs.Prelude.{◌≡◌, ◌<◌, ◌^◌, IfOk, IfSome, false};
ghost use Rattle.vs_sign_off.specs.Displays.{prints_at_once};
ghost use Rattle.vs_sign_off.specs.Witnesses.{IsLineWitness};
ghost use Rattle.vs_sign_off.specs.passes.Printed.{Print};

use crate::laws::all_lines_are_strobed;
use crate::runs::{Unshown, is_whole, run_to};
use crate::uneven::{Uneven, first_uneven};
use crate::witness::LineWitness;
use std::alloc::{AllocError, Global};
use vs_design::Design;
use vs_kernel::vs_run_steps::Dropped;
use vs_kernel::vs_vcd_writing::Counted;
use vs_kernel::{Fifo, Pick};
use vs_race_orders::{Difference, Planned};

// What the run of a design without `$display` under a policy prints to a moment.
fn printed_under<P: Pick + Drop>(
    alloc: Global,
    design: &Design,
    policy: P,
    time: u64,
    steps: u64,
) -> Result<Vec<u8>, Unshown>
    requires silent { prints_at_once design.now ≡ false }
    requires time { time < 2 ^ 62 }
    requires steps { steps < 2 ^ 62 }
    ensures { IfOk result (λ text. Print design.now time text.items) }
{
    all_lines_are_strobed();
    let room = Vec::new(alloc);
    let mut lines = Counted::new(room);
    let Ok(outcome) = run_to(alloc, design, policy, time, steps, &mut Dropped, &mut lines) else {
        return Err(Unshown::Memory);
    };
    if !is_whole(outcome) {
        return Err(Unshown::Limit);
    }
    let text = lines.into_inner();
    Ok(text)
}

// A row that `$strobe` prints a different number of times to a moment in two orders.
fn line_witness_between(
    alloc: Global,
    design: &Design,
    difference: Difference,
    steps: u64,
) -> Result<Option<LineWitness>, Unshown>
    requires silent { prints_at_once design.now ≡ false }
    requires time { difference.time < 2 ^ 62 }
    requires steps { steps < 2 ^ 62 }
    ensures { IfOk result (λ o. IfSome o (λ w. IsLineWitness design.now w)) }
{
    let Difference {
        time,
        lines: _,
        choices,
    } = difference;
    let one = printed_under(alloc, design, Fifo, time, steps)?;
    let two = printed_under(alloc, design, Planned::new(&choices), time, steps)?;
    let left = one.as_slice();
    let right = two.as_slice();
    let found = first_uneven(alloc, left, right)?;
    let Some(uneven) = found else {
        return Ok(None);
    };
    let Uneven { row, first, other } = uneven;
    Ok(Some(LineWitness {
        time,
        row,
        first,
        other,
        choices,
    }))
}

/// The runs of a design without `$display` in the first order and in another one to the moment to which they differ: a row that `$strobe` prints a
/// different number of times; none where none was found.
pub fn line_witness_of(
    alloc: Global,
    design: &Design,
    difference: Difference,
    steps: u64,
) -> Result<Option<LineWitness>, AllocError>
    requires silent { prints_at_once design.now ≡ false }
    requires time { difference.time < 2 ^ 62 }
    requires steps { steps < 2 ^ 62 }
    ensures { IfOk result (λ o. IfSome o (λ w. IsLineWitness design.now w)) }
{
    match line_witness_between(alloc, design, difference, steps) {
        Ok(witness) => Ok(witness),
        Err(Unshown::Limit) => Ok(None),
        Err(Unshown::Memory) => Err(AllocError),
    }
}
