//! What is told where a source doesn't give what a call leaves to it.
ghost use Rattle.std.specs.Prelude.{◌≡◌};
ghost use Rattle.vs_program.specs.Statuses.{target_status};

use crate::telling::tell;
use crate::texts::{FAILED, MISUSED};
use std::io::Write;
use vs_program_words::{TargetFault, Tick};

// Writes the names of modules.
fn write_names<E: Write>(err: &mut E, names: &[Vec<u8>]) {
    for (place, name) in names.iter().enumerate() {
        if place > 0 {
            let _ = err.write_all(b", ");
        }
        let _ = err.write_all(name);
    }
}

// Tells that the top is wanted.
fn tell_top<E: Write>(err: &mut E, names: &[Vec<u8>]) -> u8
    ensures { result ≡ 64 }
{
    let _ = err.write_all(b"vsim: --top is wanted: ");
    if names.is_empty() {
        let _ = err.write_all(b"there is no module that isn't instantiated\n");
    } else {
        write_names(err, names);
        let _ = err.write_all(b" are instantiated by none\n");
    }
    MISUSED
}

// Tells that a time is no whole number of ticks.
fn tell_until<E: Write>(err: &mut E, tick: Tick) -> u8
    ensures { result ≡ 64 }
{
    let (zeros, unit) = (tick.zeros, tick.unit);
    if unit == "ticks" {
        let _ = writeln!(
            err,
            "vsim: --until is no whole number of ticks of 1 ns, or too large"
        );
    } else {
        let _ = writeln!(
            err,
            "vsim: --until is no whole number of ticks of 1{zeros} {unit}, or too large"
        );
    }
    MISUSED
}

/// Tells why a source doesn't give what a call leaves to it.
pub(crate) fn tell_target<E: Write>(fault: &TargetFault, err: &mut E) -> u8
    ensures { result ≡ target_status fault.now }
{
    match fault {
        TargetFault::Top(names) => tell_top(err, names),
        TargetFault::Until(tick) => tell_until(err, *tick),
        TargetFault::Memory => tell(err, b"memory", FAILED),
    }
}
