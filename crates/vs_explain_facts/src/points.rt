//! The statements of a process's text, by their numbers.

use std::alloc::{AllocError, Global};
use vs_design::{BitRange, Statement, statement_reads};
use vs_drivers::vs_maps::{own_reads, push_signals, statement_later, statement_now};

/// When a statement can run, over all ways through its text.
#[derive(Clone, Copy, PartialEq, Eq)]
pub struct Moment {
    /// Before any control.
    pub is_prologue: bool,
    /// In the first slot: before any control, or behind delays of zero ticks alone.
    pub is_first: bool,
    /// Behind a control.
    pub is_late: bool,
}

/// A statement of a text.
#[derive(Drop)]
pub struct Point<'d> {
    /// The statement.
    pub statement: &'d Statement,
    /// When it can run.
    pub moment: Moment,
    /// The signals that it reads itself, in the order of the text: those of a right side, an index, a condition, a label, an argument.
    pub reads: Vec<usize>,
    /// The signals that it writes itself.
    pub writes: Vec<usize>,
    /// Whether it stands in a loop, the one of an `always` not counted.
    pub is_looped: bool,
    /// The first number behind those of the statements in it.
    pub behind: usize,
}

impl<'d> Point<'d> {
    /// Whether it is a write by `=`.
    pub fn is_blocking(&self) -> bool {
        matches!(self.statement, Statement::Assign(_, _, _))
    }

    /// Whether it is a write by `<=`.
    pub fn is_later(&self) -> bool {
        matches!(self.statement, Statement::Later(_, _, _, _))
    }

    /// Whether it is a delay control.
    pub fn is_delay(&self) -> bool {
        matches!(self.statement, Statement::Delay(_, _, _))
    }

    /// Whether it is an event control.
    pub fn is_event(&self) -> bool {
        matches!(self.statement, Statement::Event(_, _, _))
    }

    /// Whether it writes a signal.
    pub fn writes_signal(&self, signal: usize) -> bool {
        self.writes.contains(&signal)
    }

    /// Whether it reads a signal.
    pub fn reads_signal(&self, signal: usize) -> bool {
        self.reads.contains(&signal)
    }
}

/// A statement that never runs.
pub(crate) const NEVER: Moment = Moment {
    is_prologue: false,
    is_first: false,
    is_late: false,
};

/// The signals of ranges.
pub(crate) fn signals_of(alloc: Global, ranges: &[BitRange]) -> Result<Vec<usize>, AllocError> {
    let mut signals = Vec::new(alloc);
    push_signals(&mut signals, ranges)?;
    Ok(signals)
}

/// The signals that a statement reads itself, arguments of any call among them.
fn read_at(alloc: Global, statement: &Statement) -> Result<Vec<usize>, AllocError> {
    match statement {
        Statement::Call(_, _) => signals_of(alloc, &statement_reads(alloc, statement)?),
        _ => signals_of(alloc, &own_reads(alloc, statement)?),
    }
}

/// The signals that a statement writes itself.
fn write_at(alloc: Global, statement: &Statement) -> Result<Vec<usize>, AllocError> {
    let mut signals = signals_of(alloc, &statement_now(alloc, statement)?)?;
    push_signals(&mut signals, &statement_later(alloc, statement)?)?;
    Ok(signals)
}

/// Puts a statement, without those in it.
fn push_point<'d>(
    alloc: Global,
    points: &mut Vec<Point<'d>>,
    statement: &'d Statement,
    is_looped: bool,
) -> Result<(), AllocError> {
    let point = Point {
        statement,
        moment: NEVER,
        reads: read_at(alloc, statement)?,
        writes: write_at(alloc, statement)?,
        is_looped,
        behind: points.len().saturating_add(1),
    };
    points.push(point)?;
    Ok(())
}

/// Says that all statements from a place on stand in the one there.
fn close(points: &mut Vec<Point>, place: usize) {
    let behind = points.len();
    if let Some(point) = points.get_mut(place) {
        point.behind = behind;
    }
}

/// Puts a statement and those in it, in the order of their numbers.
#[cycle(listed)]
fn push_points<'d>(
    alloc: Global,
    points: &mut Vec<Point<'d>>,
    statement: &'d Statement,
    is_looped: bool,
) -> Result<(), AllocError> {
    if let Statement::Block(all) = statement {
        return push_block(alloc, points, all, is_looped);
    }
    let place = points.len();
    push_point(alloc, points, statement, is_looped)?;
    match statement {
        Statement::Delay(_, _, body) | Statement::Event(_, _, body) => {
            push_points(alloc, points, body, is_looped)?
        }
        Statement::Forever(_, body)
        | Statement::While(_, _, body)
        | Statement::Repeat(_, _, _, body) => push_points(alloc, points, body, true)?,
        Statement::If(_, _, then, other) => {
            push_points(alloc, points, then, is_looped)?;
            push_points(alloc, points, other, is_looped)?
        }
        Statement::Case(_, _, _, items) => {
            for (_, body) in items {
                push_points(alloc, points, body, is_looped)?;
            }
        }
        _ => {}
    }
    close(points, place);
    Ok(())
}

#[cycle(listed)]
fn push_block<'d>(
    alloc: Global,
    points: &mut Vec<Point<'d>>,
    all: &'d [Statement],
    is_looped: bool,
) -> Result<(), AllocError> {
    for statement in all {
        push_points(alloc, points, statement, is_looped)?;
    }
    Ok(())
}

/// The statements of the body of a process, which don't run yet; those of an `always` stand in no loop of their own.
pub(crate) fn points_of<'d>(
    alloc: Global,
    body: &'d Statement,
    is_always: bool,
) -> Result<Vec<Point<'d>>, AllocError> {
    let mut points = Vec::new(alloc);
    match body {
        Statement::Forever(_, inner) if is_always => {
            push_point(alloc, &mut points, body, false)?;
            push_points(alloc, &mut points, inner, false)?;
            close(&mut points, 0);
        }
        _ => push_points(alloc, &mut points, body, false)?,
    }
    Ok(points)
}
