//! What a wave of updates may do: from where nonblocking updates are activated to the next move of a region. A hint, of which no contract speaks.

use std::alloc::{AllocError, Global};
use vs_design::{BitRange, CallKind, Design, Statement, Target, Typed, statement_reads, writes};

/// What a wave may change, run and see.
#[derive(Drop)]
pub(crate) struct Wave {
    /// Of each signal whether it may change.
    changed: Vec<bool>,
    /// Of each whether a process that may run reads it.
    read: Vec<bool>,
    /// Of each whether such a process writes it by `=`.
    written: Vec<bool>,
    /// Of each process whether it may run.
    running: Vec<bool>,
    /// Whether such a process prints.
    prints: bool,
    /// Signals that may change, of which it has still to be looked at who is woken by them.
    todo: Vec<usize>,
}

/// Sets a mark: whether it is new. One past the end is none.
fn set_mark(marks: &mut Vec<bool>, number: usize) -> bool {
    let Some(mark) = marks.get_mut(number) else {
        return false;
    };
    let new = !*mark;
    *mark = true;
    new
}

/// Whether a mark is set.
fn is_set(marks: &[bool], number: usize) -> bool {
    match marks.get(number) {
        Some(mark) => *mark,
        None => false,
    }
}

impl Wave {
    /// Whether a process that may run prints.
    pub(crate) fn prints(&self) -> bool {
        self.prints
    }

    /// Whether a process that may run reads a signal or writes it by `=`.
    pub(crate) fn is_used(&self, signal: usize) -> bool {
        is_set(&self.read, signal) || is_set(&self.written, signal)
    }

    /// Whether a process that may run writes a signal by `=`.
    pub(crate) fn is_written(&self, signal: usize) -> bool {
        is_set(&self.written, signal)
    }

    /// These may change.
    fn change(&mut self, ranges: &[BitRange]) -> Result<(), AllocError> {
        for range in ranges {
            if set_mark(&mut self.changed, range.signal) {
                self.todo.push(range.signal)?;
            }
        }
        Ok(())
    }

    /// A process that may run writes a target by `=`.
    fn write(&mut self, alloc: Global, target: &Target) -> Result<(), AllocError> {
        let ranges = writes(alloc, target)?;
        for range in ranges.iter() {
            set_mark(&mut self.written, range.signal);
        }
        self.change(&ranges)
    }

    /// A process may run.
    fn run(&mut self, alloc: Global, design: &Design, process: usize) -> Result<(), AllocError> {
        if !set_mark(&mut self.running, process) {
            return Ok(());
        }
        let Some(found) = design.processes().get(process) else {
            return Ok(());
        };
        for range in statement_reads(alloc, &found.body)?.iter() {
            set_mark(&mut self.read, range.signal);
        }
        note(alloc, self, &found.body, true)
    }

    /// What is woken by the change of a signal.
    fn follow(&mut self, alloc: Global, design: &Design, signal: usize) -> Result<(), AllocError> {
        for reader in design.readers(signal) {
            if let Some(assign) = design.assigns().get(reader.assign) {
                let ranges = writes(alloc, &assign.target)?;
                self.change(&ranges)?;
            }
        }
        for process in design.listeners(signal) {
            self.run(alloc, design, *process)?;
        }
        Ok(())
    }
}

/// Notes what a statement of a process changes by updates, and where the process may run, what else it does.
#[cycle(noted)]
fn note(alloc: Global, wave: &mut Wave, s: &Statement, runs: bool) -> Result<(), AllocError> {
    match s {
        Statement::Null(_) | Statement::Finish(_) => Ok(()),
        Statement::Assign(_, target, _) => {
            if runs {
                wave.write(alloc, target)?;
            }
            Ok(())
        }
        Statement::Later(_, _, target, _) => {
            let ranges = writes(alloc, target)?;
            wave.change(&ranges)
        }
        Statement::Call(_, call) => {
            wave.prints = wave.prints || runs && call.kind == CallKind::Display;
            Ok(())
        }
        Statement::Block(all) => note_all(alloc, wave, all, runs),
        Statement::Delay(_, _, body)
        | Statement::Event(_, _, body)
        | Statement::While(_, _, body)
        | Statement::Repeat(_, _, _, body)
        | Statement::Forever(_, body) => note(alloc, wave, body, runs),
        Statement::If(_, _, then, other) => {
            note(alloc, wave, then, runs)?;
            note(alloc, wave, other, runs)
        }
        Statement::Case(_, _, _, items) => note_items(alloc, wave, items, runs),
    }
}

#[cycle(noted)]
fn note_all(
    alloc: Global,
    wave: &mut Wave,
    all: &[Statement],
    runs: bool,
) -> Result<(), AllocError> {
    for s in all {
        note(alloc, wave, s, runs)?;
    }
    Ok(())
}

#[cycle(noted)]
fn note_items(
    alloc: Global,
    wave: &mut Wave,
    items: &[(Vec<Typed>, Statement)],
    runs: bool,
) -> Result<(), AllocError> {
    for (_, body) in items {
        note(alloc, wave, body, runs)?;
    }
    Ok(())
}

/// What a wave of updates of a design may do.
pub(crate) fn wave_of(alloc: Global, design: &Design) -> Result<Wave, AllocError> {
    let signals = design.signals().len();
    let mut wave = Wave {
        changed: vec![in alloc; false; signals]?,
        read: vec![in alloc; false; signals]?,
        written: vec![in alloc; false; signals]?,
        running: vec![in alloc; false; design.processes().len()]?,
        prints: false,
        todo: Vec::new(alloc),
    };
    for process in design.processes() {
        note(alloc, &mut wave, &process.body, false)?;
    }
    for _ in 0..signals {
        let Some(signal) = wave.todo.pop() else {
            return Ok(wave);
        };
        wave.follow(alloc, design, signal)?;
    }
    Ok(wave)
}
