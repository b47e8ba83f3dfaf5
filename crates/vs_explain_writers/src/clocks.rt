//! Variables that turn over, and whether they do so in the form of a clock.

use crate::spots::Site;
use crate::writes::bit_given;
use vs_design::vs_logic4::Unary;
use vs_design::{ProcessKind, Statement, Typed};
use vs_explain_facts::{Facts, Point, TextFacts, TextKind};

/// How deep a statement is looked into.
const DEEPEST: usize = 256;

/// What keeps a variable that turns over from being of the form of a clock.
#[derive(Clone, Copy, PartialEq, Eq)]
pub enum ClockForm {
    /// Nothing: it is a clock.
    Clock,
    /// It doesn't turn over, or no process with delays alone does it.
    Still,
    /// It is turned over by `!`.
    LogicalNot,
    /// Other statements stand between the delay and the assignment.
    Block,
    /// The `initial` that sets it does more.
    Initial,
    /// What sets it isn't one constant by `=`. In version 3 the process that does may do more.
    Start,
    /// The `initial` that turns it doesn't set it first.
    Forever,
    /// It turns over in a `repeat`.
    Repeat,
}

/// A statement without a `begin` and `end` round it alone.
fn core_of(statement: &Statement) -> &Statement {
    let mut core = statement;
    for _ in 0..DEEPEST {
        match core {
            Statement::Block(all) if all.len() == 1 => match all.first() {
                Some(inner) => core = inner,
                None => return core,
            },
            _ => return core,
        }
    }
    core
}

/// An expression without the sizes to which it is brought.
pub fn unsized_of(e: &Typed) -> &Typed {
    let mut core = e;
    for _ in 0..DEEPEST {
        match core {
            Typed::Resized(_, inner) => core = inner,
            _ => return core,
        }
    }
    core
}

/// The operator of an expression that is one of a signal alone.
fn operator_on(e: &Typed, signal: usize) -> Option<Unary> {
    match unsized_of(e) {
        Typed::Unary(operator, inner) => match unsized_of(inner) {
            Typed::Signal(operand) if operand.signal == signal => Some(*operator),
            _ => None,
        },
        _ => None,
    }
}

/// The operator by which an assignment turns a signal over.
fn turning_by(statement: &Statement, signal: usize) -> Option<Unary> {
    match statement {
        Statement::Assign(_, _, e) | Statement::Later(_, _, _, e) => operator_on(e, signal),
        _ => None,
    }
}

/// The statement of a text that turns a signal over, and the operator by which it does.
pub fn turning_in(text: &TextFacts, signal: usize) -> Option<(usize, Unary)> {
    for (number, point) in text.points.iter().enumerate() {
        if point.writes_signal(signal) {
            if let Some(operator) = turning_by(point.statement, signal) {
                return Some((number, operator));
            }
        }
    }
    None
}

/// The one process with delays alone that writes a signal behind a delay.
pub fn turner_of(facts: &Facts, signal: usize) -> Option<usize> {
    let mut turner = None;
    for number in facts.writers_of(signal) {
        if let Some(text) = facts.texts.get(*number) {
            if text.kind == TextKind::Delays && text.writes_late(signal) {
                if turner.is_some() {
                    return None;
                }
                turner = Some(*number);
            }
        }
    }
    turner
}

/// Where a signal is turned over by a process with delays.
pub fn turning_of(facts: &Facts, signal: usize) -> Option<Site> {
    let process = turner_of(facts, signal)?;
    let (number, _) = turning_in(facts.texts.get(process)?, signal)?;
    Some(Site { process, number })
}

/// Whether a text has a `repeat`.
fn has_repeat(text: &TextFacts) -> bool {
    text.points
        .iter()
        .any(|p| matches!(p.statement, Statement::Repeat(_, _, _, _)))
}

/// Whether a statement is `#h u = ~u`.
fn is_turning(statement: &Statement, signal: usize) -> bool {
    match core_of(statement) {
        Statement::Delay(_, _, inner) => {
            matches!(core_of(inner), Statement::Assign(_, _, _))
                && turning_by(core_of(inner), signal).is_some()
        }
        _ => false,
    }
}

/// Another process than the one that turns a signal over, an `initial`, that writes it and does more.
pub fn longer_initial(facts: &Facts, signal: usize, turner: usize) -> Option<usize> {
    for number in facts.writers_of(signal) {
        if *number != turner {
            if let Some(text) = facts.texts.get(*number) {
                let is_short = matches!(core_of(&text.process.body), Statement::Assign(_, _, _));
                if text.process.kind == ProcessKind::Initial && !is_short {
                    return Some(*number);
                }
            }
        }
    }
    None
}

/// The 0 or 1 to which a statement sets a signal by `=`, where it is a constant.
fn set_at(point: &Point, signal: usize) -> Option<bool> {
    if point.is_blocking() {
        bit_given(point.statement, signal)
    } else {
        None
    }
}

/// The statement of a text that writes a signal and doesn't set it to the constant to which the first one does.
fn unlike_in(text: &TextFacts, signal: usize) -> Option<usize> {
    let mut first = None;
    for (number, point) in text.points.iter().enumerate() {
        if point.writes_signal(signal) {
            let digit = set_at(point, signal);
            if digit.is_none() || (first.is_some() && first != digit) {
                return Some(number);
            }
            first = digit;
        }
    }
    None
}

/// Where another process than the one that turns a signal over sets it to what isn't one constant by `=`.
pub fn unlike_start(facts: &Facts, signal: usize, turner: usize) -> Option<Site> {
    for process in facts.writers_of(signal) {
        if *process != turner {
            if let Some(text) = facts.texts.get(*process) {
                if let Some(number) = unlike_in(text, signal) {
                    return Some(Site {
                        process: *process,
                        number,
                    });
                }
            }
        }
    }
    None
}

/// What keeps a signal from being a clock that another process than the one that turns it over sets, alone but in version 3.
fn form_by_start(facts: &Facts, signal: usize, turner: usize) -> ClockForm {
    if facts.is_third {
        return match unlike_start(facts, signal, turner) {
            Some(_) => ClockForm::Start,
            None => ClockForm::Clock,
        };
    }
    match longer_initial(facts, signal, turner) {
        Some(_) => ClockForm::Initial,
        None => ClockForm::Clock,
    }
}

/// What keeps a signal that a process with such a body turns over from being a clock, which another one sets.
fn form_of_always(facts: &Facts, signal: usize, process: usize, body: &Statement) -> ClockForm {
    let turns = match body {
        Statement::Forever(_, inner) => is_turning(inner, signal),
        _ => false,
    };
    if !turns {
        return ClockForm::Block;
    }
    form_by_start(facts, signal, process)
}

/// What keeps a signal that an `initial` turns over by a `forever` alone from being a clock: in version 3 another one may set it.
fn form_of_forever(facts: &Facts, signal: usize, process: usize, body: &Statement) -> ClockForm {
    if facts.is_third && facts.writers_of(signal).len() > 1 {
        form_of_always(facts, signal, process, body)
    } else {
        ClockForm::Forever
    }
}

/// What keeps a signal that an `initial` turns over from being a clock.
fn form_of_initial(facts: &Facts, signal: usize, process: usize, text: &TextFacts) -> ClockForm {
    let body = core_of(&text.process.body);
    let (first, last) = match body {
        Statement::Forever(_, _) => return form_of_forever(facts, signal, process, body),
        Statement::Block(all) => (all.first(), all.last()),
        _ => (None, None),
    };
    if matches!(first, Some(Statement::Forever(_, _))) {
        return ClockForm::Forever;
    }
    if has_repeat(text) {
        return ClockForm::Repeat;
    }
    if matches!(last, Some(Statement::Forever(_, _))) {
        return ClockForm::Clock;
    }
    ClockForm::Initial
}

/// Whether an operator turns a clock over: `~`, in version 3 `!` too.
fn turns_clocks(facts: &Facts, operator: Unary) -> bool {
    operator == Unary::Not || (facts.is_third && operator == Unary::LogicalNot)
}

/// What keeps a signal from being a clock.
pub fn form_of(facts: &Facts, signal: usize) -> ClockForm {
    let Some(process) = turner_of(facts, signal) else {
        return ClockForm::Still;
    };
    let Some(text) = facts.texts.get(process) else {
        return ClockForm::Still;
    };
    match turning_in(text, signal) {
        None => ClockForm::Still,
        Some((_, operator)) if !turns_clocks(facts, operator) => ClockForm::LogicalNot,
        Some(_) => match text.process.kind {
            ProcessKind::Always => form_of_always(facts, signal, process, &text.process.body),
            ProcessKind::Initial => form_of_initial(facts, signal, process, text),
        },
    }
}

/// Whether more than one variable whose edges are awaited is of the form of a clock.
pub fn has_clocks(facts: &Facts) -> bool {
    let mut clock = None;
    for text in &facts.texts {
        for term in &text.terms {
            let root = facts.root(term.term.range.signal);
            if clock != Some(root) && form_of(facts, root) == ClockForm::Clock {
                if clock.is_some() {
                    return true;
                }
                clock = Some(root);
            }
        }
    }
    false
}
