//! What is told of a run that was stopped with events left.

use crate::doing::Done;
use crate::input::Kept;
use std::alloc::Global;
use std::io::Write;
use vs_program_words::{Call, Subcommand, text_tick};
use vs_sign_off::vs_kernel::Outcome;

// The moment up to which a call runs a design.
fn until_of(call: &Call) -> u64 {
    match call.subcommand {
        Subcommand::Run(request) => request.until.count,
        Subcommand::RunCertified(request) => request.until.count,
        _ => 0,
    }
}

/// Tells, where the source is the text of files, of a run that reached its moment with events left.
pub(crate) fn tell_stopped<E: Write>(
    alloc: Global,
    call: &Call,
    kept: &Kept,
    done: &Done,
    err: &mut E,
) {
    if kept.places.is_none() || !matches!(done, Done::Ran(Outcome::Reached)) {
        return;
    }
    if let Ok(tick) = text_tick(alloc, &kept.source) {
        let (until, zeros, unit) = (until_of(call), tick.zeros, tick.unit);
        let zeros = if until == 0 { "" } else { zeros };
        let _ = writeln!(
            err,
            "vsim: stopped at {until}{zeros} {unit} with events left"
        );
    }
}
