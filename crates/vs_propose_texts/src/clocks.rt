//! Which roots are clocks.

use crate::vs_certificate::Rules;
use std::alloc::{AllocError, Global};
use vs_design::vs_logic4::{Digit, Edge};
use vs_design::{Design, ProcessKind, Statement};
use vs_drivers::vs_slots_constants::{Clock, set_by, sets_and_turns, turns_forever};

// After how many ticks an edge of a clock comes first.
fn first_edge(clock: Clock, edge: Edge) -> u128 {
    match (edge, clock.digit) {
        (Edge::Posedge, Digit::One) | (Edge::Negedge, Digit::Zero) => clock.offset as u128,
        _ => clock.offset as u128 + clock.half as u128,
    }
}

/// Whether an edge of a clock can fire at a residue: at one alone by twice the ticks after which it is turned, where these divide the modulus.
pub(crate) fn is_in_phase(clock: Clock, edge: Edge, modulus: u64, residue: u64) -> bool {
    let period = 2 * clock.half as u128;
    if period == 0 {
        return true;
    }
    if modulus as u128 % period != 0 {
        return true;
    }
    residue as u128 % period == first_edge(clock, edge) % period
}

/// The second of a signal.
#[derive(Clone, Copy)]
pub struct Second {
    /// The process's number.
    pub process: usize,
    /// The 0 or 1 that each of its writes of the signal gives it, where each is a `=` of this constant.
    pub digit: Option<Digit>,
}

// The 0 or 1 to which the second of a signal sets it; but by wide rules it does nothing else.
fn set_by_second(
    alloc: Global,
    design: &Design,
    rules: Rules,
    v: usize,
    second: Second,
) -> Result<Option<Digit>, AllocError> {
    match rules {
        Rules::Narrow => set_by(alloc, design, v, second.process),
        Rules::Wide => Ok(second.digit),
    }
}

// The clock that a process with such a body turns, and that the second sets.
fn of_turned(
    alloc: Global,
    design: &Design,
    rules: Rules,
    v: usize,
    body: &Statement,
    second: Option<Second>,
) -> Result<Option<Clock>, AllocError> {
    let Some(half) = turns_forever(design, rules.is_wide(), v, body) else {
        return Ok(None);
    };
    let Some(second) = second else {
        return Ok(None);
    };
    match set_by_second(alloc, design, rules, v, second)? {
        None => Ok(None),
        Some(digit) => Ok(Some(Clock {
            digit,
            offset: 0,
            half,
        })),
    }
}

// The clock of an `initial` with such a body: it sets it and turns it, or by wide rules it turns what the second sets.
fn of_initial(
    alloc: Global,
    design: &Design,
    rules: Rules,
    v: usize,
    body: &Statement,
    second: Option<Second>,
) -> Result<Option<Clock>, AllocError> {
    match sets_and_turns(alloc, design, rules.is_wide(), v, body)? {
        Some(clock) => Ok(Some(clock)),
        None => match rules {
            Rules::Narrow => Ok(None),
            Rules::Wide => of_turned(alloc, design, rules, v, body, second),
        },
    }
}

/// The clock that a signal is, by its writer and its second: its writer sets it once and then turns it for ever, or its writer turns it and its second
/// sets it. It takes as long as their texts.
pub fn clock_by(
    alloc: Global,
    design: &Design,
    rules: Rules,
    v: usize,
    writer: usize,
    second: Option<Second>,
) -> Result<Option<Clock>, AllocError> {
    let Some(process) = design.processes().get(writer) else {
        return Ok(None);
    };
    match process.kind {
        ProcessKind::Initial => of_initial(alloc, design, rules, v, &process.body, second),
        ProcessKind::Always => of_turned(alloc, design, rules, v, &process.body, second),
    }
}
