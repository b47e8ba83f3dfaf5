//! Which processes write a signal, and when.

use crate::{SignalWrite, TextFacts};
use std::alloc::{AllocError, Global};
use vs_design::vs_logic4::Digit;

/// What a process does to a signal.
#[derive(Clone, Copy)]
pub(crate) struct Writer {
    /// The process's number.
    pub(crate) process: usize,
    /// Whether it writes the signal by `=`.
    pub(crate) has_now: bool,
    /// Whether it writes it by `<=`.
    pub(crate) has_later: bool,
    /// Whether it writes it by `=` in the first slot.
    pub(crate) is_first_now: bool,
    /// Whether it writes it by `<=` in the first slot.
    pub(crate) is_first_later: bool,
    /// Whether it writes it once a control has been passed.
    pub(crate) is_late: bool,
    /// The 0 or 1 that each of its writes gives the signal's lowest bit, where each is a `=` of this constant.
    pub(crate) digit: Option<Digit>,
}

// What one write of a process does.
fn writer_of(process: usize, write: SignalWrite) -> Writer {
    Writer {
        process,
        has_now: !write.is_later,
        has_later: write.is_later,
        is_first_now: write.is_first && !write.is_later,
        is_first_later: write.is_first && write.is_later,
        is_late: write.is_late,
        digit: write.digit,
    }
}

// A digit, where both of two are it.
fn alike(a: Option<Digit>, b: Option<Digit>) -> Option<Digit> {
    match (a, b) {
        (Some(Digit::Zero), Some(Digit::Zero)) => Some(Digit::Zero),
        (Some(Digit::One), Some(Digit::One)) => Some(Digit::One),
        _ => None,
    }
}

// What a process does by two writes.
fn both(a: Writer, b: Writer) -> Writer {
    Writer {
        process: a.process,
        has_now: a.has_now || b.has_now,
        has_later: a.has_later || b.has_later,
        is_first_now: a.is_first_now || b.is_first_now,
        is_first_later: a.is_first_later || b.is_first_later,
        is_late: a.is_late || b.is_late,
        digit: alike(a.digit, b.digit),
    }
}

// Notes a write of a process, whose earlier ones stand at the row's end.
fn note(row: &mut Vec<Writer>, writer: Writer) -> Result<(), AllocError> {
    let count = row.len();
    if count > 0 && row[count - 1].process == writer.process {
        row[count - 1] = both(row[count - 1], writer);
        return Ok(());
    }
    row.push(writer)?;
    Ok(())
}

// Notes all writes of a process; those of a signal past the end are none of the table.
fn note_all(
    table: &mut Vec<Vec<Writer>>,
    process: usize,
    writes: &[SignalWrite],
) -> Result<(), AllocError> {
    for write in writes {
        if let Some(row) = table.get_mut(write.signal) {
            note(row, writer_of(process, *write))?;
        }
    }
    Ok(())
}

/// For each of so many signals the processes that write it, in design order.
pub(crate) fn writers_of(
    alloc: Global,
    texts: &[TextFacts],
    signals: usize,
) -> Result<Vec<Vec<Writer>>, AllocError> {
    let mut table = Vec::new(alloc);
    for _ in 0..signals {
        table.push(Vec::new(alloc))?;
    }
    for i in 0..texts.len() {
        note_all(&mut table, i, &texts[i].writes)?;
    }
    Ok(table)
}
