//! What the texts of processes do.

use crate::flows::{AS_CHECKED, Flow, Reading, flow_of, moments_by, ways_by};
use crate::points::{Moment, Point, points_of};
use std::alloc::{AllocError, Global};
use vs_design::{EventTerm, Process, ProcessKind, Statement};
use vs_process::is_combinational;

/// What a process waits for, by its text.
#[derive(Clone, Copy, PartialEq, Eq)]
pub enum TextKind {
    /// It is a combinational block.
    Block,
    /// Events alone.
    Edges,
    /// Delays alone.
    Delays,
    /// Events and delays.
    Both,
    /// Nothing.
    Plain,
}

/// A term of an event control of a text.
#[derive(Clone, Copy)]
pub struct Term {
    /// The number of the control.
    pub number: u32,
    /// The term.
    pub term: EventTerm,
}

/// What the text of a process does.
#[derive(Drop)]
pub struct TextFacts<'d> {
    /// The process.
    pub process: &'d Process,
    /// What it waits for.
    pub kind: TextKind,
    /// Its statements, by their numbers.
    pub points: Vec<Point<'d>>,
    /// The terms of its event controls, in the order of the text.
    pub terms: Vec<Term>,
    /// Where its statements lead.
    pub(crate) flow: Flow,
    /// Where they do as certificates of the version count it.
    pub(crate) ways: Flow,
}

/// What a process waits for.
fn kind_of(process: &Process, points: &[Point]) -> TextKind {
    if is_combinational(process) {
        return TextKind::Block;
    }
    let mut delays = false;
    let mut events = false;
    for point in points {
        match point.statement {
            Statement::Delay(_, _, _) => delays = true,
            Statement::Event(_, _, _) => events = true,
            _ => {}
        }
    }
    match (events, delays) {
        (true, true) => TextKind::Both,
        (true, false) => TextKind::Edges,
        (false, true) => TextKind::Delays,
        (false, false) => TextKind::Plain,
    }
}

/// The terms of the event controls of a text.
fn terms_of(alloc: Global, points: &[Point]) -> Result<Vec<Term>, AllocError> {
    let mut found = Vec::new(alloc);
    for point in points {
        if let Statement::Event(number, terms, _) = point.statement {
            for term in terms {
                found.push(Term {
                    number: *number,
                    term: *term,
                })?;
            }
        }
    }
    Ok(found)
}

/// What the text of a process does, for claims of version 3 or of another one.
pub(crate) fn text_of<'d>(
    alloc: Global,
    process: &'d Process,
    is_third: bool,
) -> Result<TextFacts<'d>, AllocError> {
    let is_always = process.kind == ProcessKind::Always;
    let mut points = points_of(alloc, &process.body, is_always)?;
    let flow = flow_of(alloc, &process.body, points.len())?;
    let ways = ways_by(alloc, &flow, &points, is_third)?;
    let moments = moments_by(alloc, &points, &ways, AS_CHECKED)?;
    for (point, moment) in points.iter_mut().zip(&moments) {
        point.moment = *moment;
    }
    let terms = terms_of(alloc, &points)?;
    Ok(TextFacts {
        process,
        kind: kind_of(process, &points),
        points,
        terms,
        flow,
        ways,
    })
}

/// A walk behind the writes of a signal, up to the next controls.
#[derive(Drop)]
struct WriteWalk {
    /// For each statement that was come to, a write behind which it runs at once.
    writes: Vec<Option<usize>>,
    todo: Vec<(usize, usize)>,
}

impl WriteWalk {
    /// Comes to what a statement leads to, behind a write.
    fn visit_next(&mut self, flow: &Flow, place: usize, write: usize) -> Result<(), AllocError> {
        let Some(nexts) = flow.nexts.get(place) else {
            return Ok(());
        };
        for to in nexts {
            if let Some(entry) = self.writes.get_mut(*to) {
                if entry.is_none() {
                    *entry = Some(write);
                    self.todo.push((*to, write))?;
                }
            }
        }
        Ok(())
    }
}

impl<'d> TextFacts<'d> {
    /// Two writes of a signal of which the second can run behind the first without a control between. It takes as long as the text.
    pub fn written_twice(
        &self,
        alloc: Global,
        signal: usize,
    ) -> Result<Option<(usize, usize)>, AllocError> {
        let mut walk = WriteWalk {
            writes: vec![in alloc; None; self.points.len()]?,
            todo: Vec::new(alloc),
        };
        for (number, point) in self.points.iter().enumerate() {
            if point.writes_signal(signal) {
                walk.visit_next(&self.ways, number, number)?;
            }
        }
        for _ in 0..u64::MAX {
            let Some((place, write)) = walk.todo.pop() else {
                break;
            };
            match self.points.get(place) {
                Some(point) if point.writes_signal(signal) => return Ok(Some((write, place))),
                Some(point) if point.is_delay() || point.is_event() => {}
                _ => walk.visit_next(&self.ways, place, write)?,
            }
        }
        Ok(None)
    }

    /// When each of its statements can run, by another reading of its ways.
    pub fn moments(&self, alloc: Global, reading: Reading) -> Result<Vec<Moment>, AllocError> {
        moments_by(alloc, &self.points, &self.ways, reading)
    }

    /// Whether it waits for an edge, or any change, of a signal.
    pub fn waits_for(&self, signal: usize) -> bool {
        self.terms.iter().any(|t| t.term.range.signal == signal)
    }

    /// Whether a statement of it writes a signal.
    pub fn writes_signal(&self, signal: usize) -> bool {
        self.points.iter().any(|p| p.writes_signal(signal))
    }

    /// Whether a statement of it reads a signal.
    pub fn reads_signal(&self, signal: usize) -> bool {
        self.points.iter().any(|p| p.reads_signal(signal))
    }

    /// Whether a statement of it writes a signal behind a control.
    pub fn writes_late(&self, signal: usize) -> bool {
        self.points
            .iter()
            .any(|p| p.moment.is_late && p.writes_signal(signal))
    }
}
