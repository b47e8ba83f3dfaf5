//! The writes of a signal in the texts of processes.

use crate::vs_explain_facts::{Facts, Point};
use crate::{Site, unsized_of};
use vs_design::vs_logic4::{Unary, Vec4};
use vs_design::{Aim, Signal, Statement, Target, Typed};

/// Which writes are looked for.
#[derive(Clone, Copy, PartialEq, Eq)]
pub enum Wanted {
    /// Any.
    Any,
    /// Those behind a control.
    Late,
    /// Those that can run in the first slot.
    First,
    /// Those by `=` that can run in the first slot.
    FirstNow,
    /// Those by `<=` that can run in the first slot.
    FirstLater,
    /// Those before any control.
    Prologue,
    /// Those by `=`.
    Now,
    /// Those by `<=`.
    Later,
}

/// Whether a write is looked for.
fn is_wanted(point: &Point, wanted: Wanted) -> bool {
    let moment = point.moment;
    match wanted {
        Wanted::Any => true,
        Wanted::Late => moment.is_late,
        Wanted::First => moment.is_first,
        Wanted::FirstNow => moment.is_first && point.is_blocking(),
        Wanted::FirstLater => moment.is_first && point.is_later(),
        Wanted::Prologue => moment.is_prologue,
        Wanted::Now => point.is_blocking(),
        Wanted::Later => point.is_later(),
    }
}

/// The first such write of a signal by a process.
pub(crate) fn write_in(
    facts: &Facts,
    process: usize,
    signal: usize,
    wanted: Wanted,
) -> Option<Site> {
    let text = facts.texts.get(process)?;
    for (number, point) in text.points.iter().enumerate() {
        if point.writes_signal(signal) && is_wanted(point, wanted) {
            return Some(Site { process, number });
        }
    }
    None
}

/// The first such write of a signal, by any process.
pub fn write_of(facts: &Facts, signal: usize, wanted: Wanted) -> Option<Site> {
    for process in facts.writers_of(signal) {
        let site = write_in(facts, *process, signal, wanted);
        if site.is_some() {
            return site;
        }
    }
    None
}

/// The right side of an assignment.
pub(crate) fn source_of<'s>(statement: &'s Statement) -> Option<&'s Typed> {
    match statement {
        Statement::Assign(_, _, source) | Statement::Later(_, _, _, source) => Some(source),
        _ => None,
    }
}

/// The left side of an assignment.
pub(crate) fn target_of<'s>(statement: &'s Statement) -> Option<&'s Target> {
    match statement {
        Statement::Assign(_, target, _) | Statement::Later(_, _, target, _) => Some(target),
        _ => None,
    }
}

/// Whether a left side has bits of a signal alone, or words of an array.
pub(crate) fn is_part(target: &Target, number: usize, signal: &Signal) -> bool {
    for aim in &target.parts {
        let is_part = match aim {
            Aim::Fixed(slice) => {
                slice.signal == number && (slice.width < signal.width || signal.words.is_some())
            }
            Aim::Chosen(selection, _, _) => selection.signal == number,
        };
        if is_part {
            return true;
        }
    }
    false
}

/// The number that an expression is.
pub(crate) fn number_of(source: &Typed) -> Option<Vec4> {
    match unsized_of(source) {
        Typed::Number(value) => Some(*value),
        _ => None,
    }
}

/// At which bit of a right side the lowest bit of a signal stands, which is one of the places that a left side names.
fn offset_of(target: &Target, signal: usize) -> u32 {
    let mut offset = 0u32;
    for aim in &target.parts {
        let (number, width) = match aim {
            Aim::Fixed(slice) => (slice.signal, slice.width),
            Aim::Chosen(selection, _, _) => (selection.signal, selection.width),
        };
        if number == signal {
            return offset;
        }
        offset = offset.saturating_add(width);
    }
    0
}

/// The lowest bit of a plane behind so many.
fn shifted_bit(plane: u64, offset: u32) -> bool {
    let mut rest = plane;
    for _ in 0..offset {
        rest >>= 1;
    }
    rest & 1 == 1
}

/// The lowest bit that an assignment of a constant gives a signal, where that is 0 or 1.
pub fn bit_given(statement: &Statement, signal: usize) -> Option<bool> {
    let value = number_of(source_of(statement)?)?;
    let offset = offset_of(target_of(statement)?, signal);
    if shifted_bit(value.unknown_plane(), offset) {
        return None;
    }
    Some(shifted_bit(value.value_plane(), offset))
}

/// Whether an expression is a signal, with or without a select.
fn is_of_signal(source: &Typed, signal: usize) -> bool {
    match source {
        Typed::Signal(operand) => operand.signal == signal,
        Typed::Slice(slice) => slice.signal == signal,
        Typed::Select(selection, _, _) => selection.signal == signal,
        _ => false,
    }
}

/// Whether an expression turns a signal over: `~clk` or `!clk`.
fn turns_over(source: &Typed, signal: usize) -> bool {
    match unsized_of(source) {
        Typed::Unary(Unary::Not | Unary::LogicalNot, inner) => is_of_signal(
            unsized_of(inner),
            signal,
        ),
        _ => false,
    }
}

/// Whether some process turns a signal over, as a clock is.
pub fn is_turned(facts: &Facts, signal: usize) -> bool {
    for process in facts.writers_of(signal) {
        let Some(text) = facts.texts.get(*process) else {
            continue;
        };
        for point in &text.points {
            if point.writes_signal(signal) {
                if let Some(source) = source_of(point.statement) {
                    if turns_over(source, signal) {
                        return true;
                    }
                }
            }
        }
    }
    false
}
