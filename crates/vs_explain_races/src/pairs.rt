//! Reads of a process, and writes by `=` of what they depend on.

use std::alloc::{AllocError, Global};
use vs_explain_writers::vs_explain_facts::{
    Cone, Course, Facts, Point, Question, TextFacts, TextKind,
};
use vs_explain_writers::{Site, common, edge_times, in_order, push_times, text_at};

/// A read of a process, and a write by `=` of a variable on which that depends.
#[derive(Drop)]
pub(crate) struct Pair {
    /// The read.
    pub(crate) read: Site,
    /// The signal that is read.
    pub(crate) through: usize,
    /// The variable that is written: the same one, or one on which it depends.
    pub(crate) signal: usize,
    /// The write.
    pub(crate) write: Site,
    /// When both run.
    pub(crate) times: Vec<u64>,
}

/// The signals that a text reads behind a control, in its order.
fn late_reads(alloc: Global, text: &TextFacts) -> Result<Vec<usize>, AllocError> {
    let mut signals = Vec::new(alloc);
    for point in &text.points {
        if point.moment.is_late {
            signals.extend_from_slice(&point.reads)?;
        }
    }
    Ok(signals)
}

/// Whether a statement reads a signal behind a control.
fn is_read(point: &Point, signal: usize) -> bool {
    point.moment.is_late && point.reads_signal(signal)
}

/// Whether a statement writes a signal by `=` behind a control.
fn is_write(point: &Point, signal: usize) -> bool {
    point.moment.is_late && point.is_blocking() && point.writes_signal(signal)
}

/// The first statement of a text that reads a signal, or else writes it by `=`, behind a control.
fn first_of(text: &TextFacts, signal: usize, reads: bool) -> Option<usize> {
    for (number, point) in text.points.iter().enumerate() {
        if (reads && is_read(point, signal)) || (!reads && is_write(point, signal)) {
            return Some(number);
        }
    }
    None
}

/// Puts the pairs of a variable and those that write it.
fn push_pairs(
    alloc: Global,
    pairs: &mut Vec<Pair>,
    question: Question,
    process: usize,
    cone: &Cone,
    signal: usize,
) -> Result<(), AllocError> {
    let through = cone.top(signal);
    let Some(text) = text_at(question, process) else {
        return Ok(());
    };
    let Some(read) = first_of(text, through, true) else {
        return Ok(());
    };
    for writer in question.facts.writers_of(signal) {
        let is_other = *writer != process || through != signal;
        let write = text_at(question, *writer).and_then(|t| first_of(t, signal, false));
        if let Some(write) = write {
            if is_other {
                pairs.push(Pair {
                    read: Site {
                        process,
                        number: read,
                    },
                    through,
                    signal,
                    write: Site {
                        process: *writer,
                        number: write,
                    },
                    times: Vec::new(alloc),
                })?;
            }
        }
    }
    Ok(())
}

/// Whether a signal is a variable that no combinational block writes.
fn is_variable(facts: &Facts, signal: usize) -> bool {
    !facts.is_net(signal) && facts.block_of(signal).is_none()
}

/// All pairs of a process: one for each variable on which its reads depend, and each process that writes it, in the order of the reads.
pub(crate) fn pairs_of(
    alloc: Global,
    question: Question,
    process: usize,
) -> Result<Vec<Pair>, AllocError> {
    let mut pairs = Vec::new(alloc);
    let Some(text) = text_at(question, process) else {
        return Ok(pairs);
    };
    let cone = question.facts.cone(alloc, &late_reads(alloc, text)?)?;
    for signal in &cone.order {
        if is_variable(question.facts, *signal) {
            push_pairs(alloc, &mut pairs, question, process, &cone, *signal)?;
        }
    }
    Ok(pairs)
}

/// When the statements of a process with delays read a signal, or else write it by `=`, behind time 0.
fn exact_times(
    alloc: Global,
    course: &Course,
    text: &TextFacts,
    process: usize,
    signal: usize,
    reads: bool,
) -> Result<Vec<u64>, AllocError> {
    let mut all = Vec::new(alloc);
    for (number, point) in text.points.iter().enumerate() {
        if (reads && is_read(point, signal)) || (!reads && is_write(point, signal)) {
            push_times(&mut all, course.times(process, number))?;
        }
    }
    in_order(alloc, all)
}

/// When a process reads the signal of a pair, behind time 0: of one that waits for edges when these come, but for those of the pair's variable.
pub(crate) fn read_times(
    alloc: Global,
    question: Question,
    course: &Course,
    pair: &Pair,
) -> Result<Vec<u64>, AllocError> {
    let process = pair.read.process;
    match text_at(question, process) {
        None => Ok(Vec::new(alloc)),
        Some(text) if text.kind == TextKind::Edges => {
            edge_times(alloc, question.facts, course, text, Some(pair.signal))
        }
        Some(text) => exact_times(alloc, course, text, process, pair.through, true),
    }
}

/// When a process writes the variable of a pair, behind time 0: of one that waits for edges when these come.
pub(crate) fn write_times(
    alloc: Global,
    question: Question,
    course: &Course,
    pair: &Pair,
) -> Result<Vec<u64>, AllocError> {
    let process = pair.write.process;
    match text_at(question, process) {
        None => Ok(Vec::new(alloc)),
        Some(text) if text.kind == TextKind::Edges => {
            edge_times(alloc, question.facts, course, text, None)
        }
        Some(text) => exact_times(alloc, course, text, process, pair.signal, false),
    }
}

/// The statement of a process that reads a signal, or else writes it, at a time; another one that was found where none is known to.
fn site_at(
    question: Question,
    course: &Course,
    other: Site,
    signal: usize,
    time: u64,
    reads: bool,
) -> Site {
    let process = other.process;
    if let Some(text) = text_at(question, process) {
        for (number, point) in text.points.iter().enumerate() {
            let fits = (reads && is_read(point, signal)) || (!reads && is_write(point, signal));
            if fits && course.times(process, number).contains(&time) {
                return Site { process, number };
            }
        }
    }
    other
}

/// Finds the times at which both sides of a pair run, and the statements that run at the first of them.
pub(crate) fn meet(
    alloc: Global,
    question: Question,
    course: &Course,
    pair: &mut Pair,
) -> Result<(), AllocError> {
    let reads = read_times(alloc, question, course, pair)?;
    let writes = write_times(alloc, question, course, pair)?;
    pair.times = common(alloc, &reads, &writes)?;
    if let Some(time) = pair.times.first() {
        let read = site_at(question, course, pair.read, pair.through, *time, true);
        let write = site_at(question, course, pair.write, pair.signal, *time, false);
        pair.read = read;
        pair.write = write;
    }
    Ok(())
}
