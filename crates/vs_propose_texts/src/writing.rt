//! Which signals a text writes, and when.

use crate::arrivals::{Arrival, Arrivals, stop_at};
use std::alloc::{AllocError, Global};
use vs_design::vs_logic4::Digit;
use vs_design::{Statement, Target, writes};
use vs_drivers::vs_slots_constants::{Bit, given_by, known};
use vs_process::TextMap;

/// What an assignment of a text does to a signal.
#[derive(Clone, Copy)]
pub struct SignalWrite {
    /// The signal's number in design order.
    pub signal: usize,
    /// Whether it is by `<=`.
    pub is_later: bool,
    /// Whether it can be made in the first slot.
    pub is_first: bool,
    /// Whether it can be made once a control has been passed.
    pub is_late: bool,
    /// The 0 or 1 that it gives its lowest bit, where it is a `=` of a constant.
    pub digit: Option<Digit>,
}

// Whether a text comes somewhere in the first slot.
fn is_first(arrivals: &[Arrival]) -> bool {
    arrivals
        .iter()
        .any(|a| matches!(a, Arrival::Start | Arrival::FirstSlot))
}

// Whether it comes there once a control has been passed.
fn is_late(arrivals: &[Arrival]) -> bool {
    arrivals.iter().any(|a| !matches!(a, Arrival::Start))
}

// The target of an assignment, and whether it is by `<=`.
fn target_of<'a>(s: &'a Statement) -> Option<(&'a Target, bool)> {
    match s {
        Statement::Assign(_, target, _) => Some((target, false)),
        Statement::Later(_, _, target, _) => Some((target, true)),
        _ => None,
    }
}

// The 0 or 1 that an assignment gives the lowest bit of a signal, where it is a `=` of a constant.
fn digit_of(
    alloc: Global,
    s: &Statement,
    is_later: bool,
    signal: usize,
) -> Result<Option<Digit>, AllocError> {
    if is_later {
        return Ok(None);
    }
    let given = given_by(alloc, s, Bit::lowest(signal))?;
    Ok(known(given))
}

// Puts what a statement to which a text comes so does to each signal, where it is an assignment.
fn put_writes(
    alloc: Global,
    out: &mut Vec<SignalWrite>,
    s: &Statement,
    arrivals: &[Arrival],
) -> Result<(), AllocError> {
    let Some((target, is_later)) = target_of(s) else {
        return Ok(());
    };
    for range in writes(alloc, target)? {
        out.push(SignalWrite {
            signal: range.signal,
            is_later,
            is_first: is_first(arrivals),
            is_late: is_late(arrivals),
            digit: digit_of(alloc, s, is_later, range.signal)?,
        })?;
    }
    Ok(())
}

/// What the assignments of a text do to signals.
pub(crate) fn signal_writes(
    alloc: Global,
    map: &TextMap,
    arrivals: &Arrivals,
) -> Result<Vec<SignalWrite>, AllocError> {
    let mut out = Vec::new(alloc);
    for place in 0..map.stops.len().saturating_add(1) {
        if let Some(stop) = stop_at(&map.stops, place) {
            if let Some(statement) = stop.statement {
                put_writes(alloc, &mut out, statement, arrivals.at(place))?;
            }
        }
    }
    Ok(out)
}
