//! What is told of a pair of events.

use crate::course::{Stage, log_of};
use crate::entry::{Bit, Deed, Entry, differing_place, digit_at};
use crate::log::Log;
use crate::walk::{Logs, Pair, Side, pair_of};
use std::alloc::{AllocError, Global};
use vs_design::vs_logic4::{Digit, Vec4};
use vs_design::{Design, Process};
use vs_explain_outline::{
    Page, SourceText, found, ordinal_of, place_of, put_code, statement_tokens,
};
use vs_lexer::{Kind, Mark, Word};
use vs_race_orders::Span;

/// The most bits of a word.
const WIDEST: u32 = 64;

/// Two runs of which a signal has different values at the end of a slot.
#[derive(Clone, Copy)]
pub struct Asked<'c> {
    /// The time of the slot, in ticks.
    pub time: u64,
    /// The number of the signal, which is no array.
    pub signal: usize,
    /// Its value in the first run, which always chooses the first event.
    pub first: Vec4,
    /// That in the other run.
    pub other: Vec4,
    /// The choices of the other run, in spans that rise; at all others it chooses the first event.
    pub choices: &'c [Span],
    /// The most steps of a run.
    pub steps: u64,
}

// Puts the digits of a value, the highest first.
fn put_value(page: &mut Page, value: Vec4) {
    let width = value.width();
    for step in 0..width {
        let place = width.saturating_sub(step).saturating_sub(1);
        page.put(match digit_at(value, place) {
            Some(Digit::Zero) => "0",
            Some(Digit::One) => "1",
            Some(Digit::Z) => "z",
            _ => "x",
        });
    }
}

// The token of a statement of a process, where the text has it.
fn token_of(
    page: &mut Page,
    text: &SourceText,
    process: &Process,
    statement: Option<u32>,
) -> Option<usize> {
    let number = statement? as usize;
    let tokens = statement_tokens(page.alloc(), text, process);
    let tokens = found(page, tokens)?;
    tokens.get(number).copied()
}

// The last token of the head of a statement that begins at a token: of `if (a)`, `@*` or `@(posedge a)`.
fn head_end(text: &SourceText, token: usize) -> usize {
    let next = token.saturating_add(1);
    let mut depth = 0usize;
    for (index, token) in text.tokens.iter().enumerate().skip(next) {
        match token.kind {
            Kind::Mark(Mark::Open) => depth = depth.saturating_add(1),
            Kind::Mark(Mark::Close) => depth = depth.saturating_sub(1),
            _ => {}
        }
        if depth == 0 {
            return index;
        }
    }
    next
}

// Puts the head of a statement as it is written, between quotes.
fn put_head(page: &mut Page, text: &SourceText, token: usize) {
    let from = text.place_at(token);
    let last = head_end(text, token);
    let length = match text.tokens.get(last) {
        Some(token) => token.bytes.len(),
        None => 0,
    };
    let to = text.place_at(last).saturating_add(length);
    page.put("`");
    page.put_bytes(text.bytes.get(from..to).unwrap_or(&[]));
    page.put("`");
}

// Whether a token is a word with a value in brackets behind it, as that of an `if`.
fn is_headed(text: &SourceText, token: usize) -> bool {
    let is_word = match text.tokens.get(token) {
        Some(token) => matches!(
            token.kind,
            Kind::Word(
                Word::If
                    | Word::While
                    | Word::Repeat
                    | Word::Case
                    | Word::Casex
                    | Word::Casez
                    | Word::For
            )
        ),
        None => false,
    };
    is_word && text.is_mark(token.saturating_add(1), Mark::Open)
}

// Puts a step of a process: its statement, the process and the line.
fn put_step(
    page: &mut Page,
    text: &SourceText,
    design: &Design,
    process: usize,
    statement: Option<u32>,
) {
    let Some(process) = design.processes().get(process) else {
        return;
    };
    let token = token_of(page, text, process, statement);
    let (Some(token), Some(number)) = (token, statement) else {
        page.put_bytes(&process.name);
        return;
    };
    if is_headed(text, token) {
        put_head(page, text, token);
    } else {
        put_code(page, text, process, number as usize);
    }
    page.put(" (");
    page.put_bytes(&process.name);
    page.put(", ");
    page.put_line(text.place_at(token));
    page.put(")");
}

// Puts the path of a signal.
fn put_path(page: &mut Page, design: &Design, signal: usize) {
    if let Some(signal) = design.signals().get(signal) {
        page.put_bytes(&signal.path);
    }
}

// Puts the path of the signal that an event writes.
fn put_target(page: &mut Page, design: &Design, log: &Log, entry: Entry) {
    if let Some(place) = log.places_of(entry).first() {
        put_path(page, design, place.signal);
    }
}

// Puts the evaluation of a continuous assignment or of a port.
fn put_evaluation(
    page: &mut Page,
    text: &SourceText,
    design: &Design,
    log: &Log,
    entry: Entry,
    assign: usize,
) {
    page.put("the evaluation of ");
    put_target(page, design, log, entry);
    let Some(assign) = design.assigns().get(assign) else {
        return;
    };
    let place = place_of(page, text, &assign.name);
    let named = match ordinal_of(&assign.name) {
        Some((_, letter, _)) => letter == b'a',
        None => false,
    };
    if !named && place.is_none() {
        return;
    }
    page.put(" (");
    if named {
        page.put_bytes(&assign.name);
    }
    if let Some(place) = place {
        page.put(if named { ", " } else { "" });
        page.put_line(place);
    }
    page.put(")");
}

// The event behind one that writes a net: that of a process or of an update, or an evaluation that none made.
fn origin_of(log: &Log, number: usize) -> usize {
    let mut origin = number;
    for _ in 0..log.entries.len() {
        let Some(entry) = log.entry(origin) else {
            break;
        };
        match (entry.deed, entry.cause) {
            (Deed::Propagate(_) | Deed::Evaluate(_), Some(cause)) => origin = cause,
            _ => break,
        }
    }
    origin
}

// Puts an event.
fn put_event(
    page: &mut Page,
    text: &SourceText,
    design: &Design,
    log: &Log,
    number: usize,
    updates: bool,
) {
    let Some(entry) = log.entry(number) else {
        return;
    };
    match entry.deed {
        Deed::Step(process, statement) => put_step(page, text, design, process, statement),
        Deed::Update(process, statement) => {
            page.put(if updates { "the update of " } else { "" });
            put_step(page, text, design, process, statement);
        }
        Deed::Evaluate(assign) | Deed::Propagate(assign) => {
            put_evaluation(page, text, design, log, entry, assign)
        }
        Deed::Late => {}
    }
}

// Puts a write: what it comes from, and the net through which it comes.
fn put_write(
    page: &mut Page,
    text: &SourceText,
    design: &Design,
    log: &Log,
    number: usize,
    updates: bool,
) {
    let origin = origin_of(log, number);
    put_event(page, text, design, log, origin, updates);
    if origin == number {
        return;
    }
    let behind = log.entry(origin).map(|entry| entry.deed);
    if let Some(Deed::Step(_, _) | Deed::Update(_, _)) = behind
        && let Some(entry) = log.entry(number)
    {
        page.put(", through ");
        put_target(page, design, log, entry);
        page.put(",");
    }
}

// Puts the value of the signal in a run.
fn put_side(page: &mut Page, asked: &Asked, side: Side) {
    let value = match side {
        Side::First => asked.first,
        Side::Other => asked.other,
    };
    page.put("  ");
    put_value(page, value);
    page.put(": ");
}

// Puts of which signal a word is read.
fn put_read(page: &mut Page, design: &Design, number: usize) {
    if let Some(signal) = design.signals().get(number)
        && signal.words.is_some()
    {
        page.put("a word of ");
    }
    put_path(page, design, number);
}

// The signal that an event reads by the read of a number, and the value of the word.
fn read_at(log: &Log, event: usize, number: usize) -> Option<(usize, Vec4)> {
    let entry = log.entry(event)?;
    let read = log.reads_of(entry).get(number)?;
    Some((read.signal, read.value))
}

// Tells of a write and a reader, which has another number in the other run.
fn tell_read(
    page: &mut Page,
    text: &SourceText,
    design: &Design,
    logs: &Logs,
    asked: &Asked,
    side: Side,
    write: usize,
    reader: usize,
    there: usize,
    number: usize,
) {
    let log = logs.of(side);
    let Some((signal, value)) = read_at(log, reader, number) else {
        return;
    };
    let Some((_, later)) = read_at(logs.of(side.across()), there, number) else {
        return;
    };
    put_side(page, asked, side);
    put_write(page, text, design, log, write, true);
    page.put(" runs before ");
    put_event(page, text, design, log, reader, true);
    page.put(", which reads ");
    put_read(page, design, signal);
    page.put(" as ");
    put_value(page, value);
    page.put("\n");
    put_side(page, asked, side.across());
    page.put("after it; ");
    put_read(page, design, signal);
    page.put(" is read as ");
    put_value(page, later);
    page.put("\n");
}

// Tells of a write and a process that waits.
fn tell_missed(
    page: &mut Page,
    text: &SourceText,
    design: &Design,
    logs: &Logs,
    asked: &Asked,
    side: Side,
    write: usize,
    arrival: usize,
) {
    let log = logs.of(side);
    let Some(Deed::Step(number, statement)) = log.entry(arrival).map(|entry| entry.deed) else {
        return;
    };
    let Some(process) = design.processes().get(number) else {
        return;
    };
    put_side(page, asked, side);
    put_write(page, text, design, log, write, true);
    page.put(" runs before ");
    page.put_bytes(&process.name);
    page.put(" waits");
    if let Some(token) = token_of(page, text, process, statement) {
        page.put(" at ");
        put_head(page, text, token);
        page.put(" (");
        page.put_line(text.place_at(token));
        page.put(")");
    }
    page.put(", which so misses it\n");
    put_side(page, asked, side.across());
    page.put("after it, and wakes ");
    page.put_bytes(&process.name);
    page.put("\n");
}

// Tells of two writes.
fn tell_writes(
    page: &mut Page,
    text: &SourceText,
    design: &Design,
    logs: &Logs,
    asked: &Asked,
    one: usize,
    two: usize,
) {
    let log = &logs.first;
    put_side(page, asked, Side::First);
    put_write(page, text, design, log, one, false);
    page.put(if origin_of(log, one) == one {
        ", then "
    } else {
        " then "
    });
    put_write(page, text, design, log, two, false);
    page.put("\n");
    put_side(page, asked, Side::Other);
    page.put("the other way round\n");
}

// Whether an event is an update of an earlier slot, of which nothing is told.
fn is_late(log: &Log, number: usize) -> bool {
    match log.entry(number) {
        Some(entry) => entry.deed == Deed::Late,
        None => true,
    }
}

// Tells of a pair.
fn tell_pair(
    page: &mut Page,
    text: &SourceText,
    design: &Design,
    logs: &Logs,
    asked: &Asked,
    pair: Pair,
) {
    match pair {
        Pair::Read(side, write, reader, there, number) => {
            if !is_late(logs.of(side), write) {
                tell_read(
                    page, text, design, logs, asked, side, write, reader, there, number,
                );
            }
        }
        Pair::Missed(side, write, arrival) => {
            if !is_late(logs.of(side), write) {
                tell_missed(page, text, design, logs, asked, side, write, arrival);
            }
        }
        Pair::Writes(one, two) => {
            if !is_late(&logs.first, one) && !is_late(&logs.first, two) {
                tell_writes(page, text, design, logs, asked, one, two);
            }
        }
    }
}

// Whether a log is that of a whole slot, at whose end the signal has this value.
fn is_as_asked(log: &Log, value: Vec4) -> bool {
    match log.value {
        Some(found) => log.whole && found.same(value),
        None => false,
    }
}

// The logs of the two runs, where they show what was asked.
fn logs_of(alloc: Global, design: &Design, asked: &Asked) -> Result<Option<Logs>, AllocError> {
    let stage = Stage {
        time: asked.time,
        signal: asked.signal,
        steps: asked.steps,
    };
    let first = log_of(alloc, design, &[], stage)?;
    let other = log_of(alloc, design, asked.choices, stage)?;
    if is_as_asked(&first, asked.first) && is_as_asked(&other, asked.other) {
        return Ok(Some(Logs { first, other }));
    }
    Ok(None)
}

/// Puts the two events whose order makes the difference of two runs, where they are found: a line of the order in each run. Both runs are made again to
/// the slot, of which some thousands of events are kept at the most.
pub fn put_pair(page: &mut Page, text: &SourceText, design: &Design, asked: &Asked) {
    let logs = logs_of(page.alloc(), design, asked);
    let Some(Some(logs)) = found(page, logs) else {
        return;
    };
    let Some(place) = differing_place(asked.first, asked.other, 0, WIDEST) else {
        return;
    };
    let bit = Bit {
        signal: asked.signal,
        word: 0,
        place,
    };
    if let Some(pair) = pair_of(&logs, bit) {
        tell_pair(page, text, design, &logs, asked, pair);
    }
}
