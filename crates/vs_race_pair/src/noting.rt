//! How an event is logged, before it is made.

use crate::entry::{Deed, Entry, Place};
use crate::log::Log;
use crate::reads::{push_index_reads, push_reads};
use crate::tracks::{Tracks, number_at, put};
use std::alloc::{AllocError, Global};
use vs_design::{Design, Statement, Store, Target, Typed};
use vs_eval::{cut_value, write_of};
use vs_kernel::vs_run_regions::vs_time_wheel::EventQueue;
use vs_kernel::vs_run_regions::{Due, Event};
use vs_process::TextMap;
use vs_run_steps::RunState;

/// The most bits of a word.
const WIDEST: u32 = 64;

/// What a statement is for its entry.
#[derive(Clone, Copy, PartialEq, Eq)]
enum Effect {
    /// It writes nothing.
    None,
    /// It writes now.
    Now,
    /// Its update is due in the slot.
    Due,
}

// The number of a statement; a block has none.
fn number_of(statement: &Statement) -> Option<u32> {
    match statement {
        Statement::Block(_) => None,
        Statement::Null(number)
        | Statement::Assign(number, _, _)
        | Statement::Later(number, _, _, _)
        | Statement::Call(number, _)
        | Statement::Finish(number)
        | Statement::Delay(number, _, _)
        | Statement::Event(number, _, _)
        | Statement::If(number, _, _, _)
        | Statement::Case(number, _, _, _)
        | Statement::While(number, _, _)
        | Statement::Repeat(number, _, _, _)
        | Statement::Forever(number, _) => Some(*number),
    }
}

// Puts what an assignment reads and where it writes.
fn put_assignment(
    alloc: Global,
    log: &mut Log,
    target: &Target,
    e: &Typed,
    store: &Store,
    time: u64,
) -> Result<(), AllocError> {
    push_reads(&mut log.reads, e, store, time)?;
    push_index_reads(&mut log.reads, target, store, time)?;
    let digits = cut_value(target, e, store, time);
    let write = write_of(alloc, target, digits, store, time)?;
    for part in write.parts() {
        log.places.push(Place {
            signal: part.signal,
            word: part.word,
            low: part.low,
            width: part.digits.width(),
        })?;
    }
    Ok(())
}

// Puts what the items of a `case` read.
fn put_labels(
    log: &mut Log,
    items: &[(Vec<Typed>, Statement)],
    store: &Store,
    time: u64,
) -> Result<(), AllocError> {
    for (labels, _) in items {
        for label in labels {
            push_reads(&mut log.reads, label, store, time)?;
        }
    }
    Ok(())
}

// Puts what a statement reads and where it writes.
fn put_statement(
    alloc: Global,
    log: &mut Log,
    statement: &Statement,
    store: &Store,
    time: u64,
) -> Result<Effect, AllocError> {
    match statement {
        Statement::Assign(_, target, e) => {
            put_assignment(alloc, log, target, e, store, time)?;
            Ok(Effect::Now)
        }
        Statement::Later(_, ticks, target, e) => {
            put_assignment(alloc, log, target, e, store, time)?;
            Ok(if ticks.count == 0 {
                Effect::Due
            } else {
                Effect::None
            })
        }
        Statement::If(_, e, _, _) | Statement::While(_, e, _) | Statement::Repeat(_, _, e, _) => {
            push_reads(&mut log.reads, e, store, time)?;
            Ok(Effect::None)
        }
        Statement::Case(_, _, e, items) => {
            push_reads(&mut log.reads, e, store, time)?;
            put_labels(log, items, store, time)?;
            Ok(Effect::None)
        }
        _ => Ok(Effect::None),
    }
}

// The statement at which a process stands.
fn statement_at<'m, 'a, Q: EventQueue<Due>>(
    maps: &'m [TextMap<'a>],
    run: &RunState<Q>,
    process: usize,
) -> Option<&'a Statement> {
    let standing = run.watched.events.processes.get(process)?;
    let map = maps.get(process)?;
    let stop = map.stops.get(standing.index)?;
    stop.statement
}

// An entry without reads and places yet.
fn entry_of(log: &Log, deed: Deed, cause: Option<usize>) -> Entry {
    Entry {
        deed,
        turn: log.count(deed),
        cause,
        woken: false,
        before: None,
        writes: false,
        reads_from: log.reads.len(),
        reads_to: log.reads.len(),
        places_from: log.places.len(),
        places_to: log.places.len(),
    }
}

// Logs an entry, whose reads and places end where those do that were put.
fn push_closed(log: &mut Log, entry: Entry) -> Result<(), AllocError> {
    let mut closed = entry;
    closed.reads_to = log.reads.len();
    closed.places_to = log.places.len();
    log.push(closed)
}

// Logs a step of a process.
fn note_step<'a, Q: EventQueue<Due>>(
    alloc: Global,
    maps: &[TextMap<'a>],
    log: &mut Log,
    tracks: &mut Tracks,
    run: &RunState<Q>,
    process: usize,
) -> Result<(), AllocError> {
    let number = log.entries.len();
    let statement = statement_at(maps, run, process);
    let before = number_at(&tracks.stepped, process);
    let woken = number_at(&tracks.woken, process);
    let deed = Deed::Step(process, statement.and_then(|s| number_of(s)));
    let cause = match woken {
        Some(event) => Some(event),
        None => before,
    };
    let mut entry = entry_of(log, deed, cause);
    entry.woken = woken.is_some();
    entry.before = before;
    if let Some(statement) = statement {
        let store = &run.watched.store;
        let effect = put_statement(alloc, log, statement, store, run.regions.time())?;
        entry.writes = effect == Effect::Now;
        if effect == Effect::Due {
            tracks.due.push(number)?;
        }
    }
    put(&mut tracks.stepped, process, Some(number));
    put(&mut tracks.woken, process, None);
    push_closed(log, entry)
}

// Logs the evaluation of a continuous assignment, or its update.
fn note_assign<Q: EventQueue<Due>>(
    alloc: Global,
    design: &Design,
    log: &mut Log,
    run: &RunState<Q>,
    assign: usize,
    entry: Entry,
) -> Result<(), AllocError> {
    if let Some(assign) = design.assigns().get(assign) {
        let store = &run.watched.store;
        let time = run.regions.time();
        put_assignment(alloc, log, &assign.target, &assign.source, store, time)?;
    }
    push_closed(log, entry)
}

// Logs an update whose statement was executed in an earlier slot: it is taken to write the whole of each signal that it names.
fn note_late<Q: EventQueue<Due>>(
    alloc: Global,
    log: &mut Log,
    run: &RunState<Q>,
    update: usize,
) -> Result<(), AllocError> {
    let mut entry = entry_of(log, Deed::Late, None);
    entry.writes = true;
    let mut signals = Vec::new(alloc);
    run.regions.name_all(update, &mut signals)?;
    for signal in &signals {
        log.places.push(Place {
            signal: *signal,
            word: 0,
            low: 0,
            width: WIDEST,
        })?;
    }
    push_closed(log, entry)
}

// Logs an activated update.
fn note_update<Q: EventQueue<Due>>(
    alloc: Global,
    log: &mut Log,
    tracks: &Tracks,
    run: &RunState<Q>,
    update: usize,
) -> Result<(), AllocError> {
    let step = number_at(&tracks.active, update);
    let made = step.and_then(|number| log.entry(number));
    let Some(made) = made else {
        return note_late(alloc, log, run, update);
    };
    let deed = match made.deed {
        Deed::Step(process, statement) => Deed::Update(process, statement),
        _ => Deed::Late,
    };
    let mut entry = entry_of(log, deed, step);
    entry.writes = true;
    entry.places_from = made.places_from;
    entry.places_to = made.places_to;
    log.push(entry)
}

/// Logs an event that is made next.
pub(crate) fn note_event<'a, Q: EventQueue<Due>>(
    alloc: Global,
    design: &Design,
    maps: &[TextMap<'a>],
    log: &mut Log,
    tracks: &mut Tracks,
    run: &RunState<Q>,
    event: Event,
) -> Result<(), AllocError> {
    match event {
        Event::Step(process) => note_step(alloc, maps, log, tracks, run, process),
        Event::Evaluate(assign) => {
            let cause = number_at(&tracks.changed, assign);
            let entry = entry_of(log, Deed::Evaluate(assign), cause);
            put(&mut tracks.evaluated, assign, Some(log.entries.len()));
            note_assign(alloc, design, log, run, assign, entry)
        }
        Event::Propagate(assign) => {
            let cause = number_at(&tracks.evaluated, assign);
            let mut entry = entry_of(log, Deed::Propagate(assign), cause);
            entry.writes = true;
            note_assign(alloc, design, log, run, assign, entry)
        }
        Event::Make(update) => note_update(alloc, log, tracks, run, update),
        Event::Group(_) | Event::Updates => Ok(()),
    }
}
