//! What runs a process.

use vs_design::{Process, Statement};
use vs_process::{TextMap, is_combinational};

/// What runs a process, as its text has it.
#[derive(Clone, Copy, PartialEq, Eq)]
pub enum TextKind {
    /// A combinational block.
    Block,
    /// It has event controls, and no delay control.
    Edge,
    /// It has delay controls and event controls.
    Mixed,
    /// Any other one.
    Delay,
}

// Whether the statement at a place is a delay control, or else an event control.
fn is_control(statement: Option<&Statement>, delay: bool) -> bool {
    match statement {
        None => false,
        Some(s) => match s {
            Statement::Delay(_, _, _) => delay,
            Statement::Event(_, _, _) => !delay,
            _ => false,
        },
    }
}

// Whether a text has a delay control, or else an event control.
fn has_control(map: &TextMap, delay: bool) -> bool {
    for stop in &map.stops {
        if is_control(stop.statement, delay) {
            return true;
        }
    }
    false
}

/// What runs a process with this map.
pub(crate) fn kind_of(process: &Process, map: &TextMap) -> TextKind {
    if is_combinational(process) {
        TextKind::Block
    } else if !has_control(map, false) {
        TextKind::Delay
    } else if has_control(map, true) {
        TextKind::Mixed
    } else {
        TextKind::Edge
    }
}
