//! Who writes a signal, in the rule K2.

use crate::Site;
use crate::claimed::put_writers_claimed;
use crate::story::{Story, name_of, put_maybe, put_story};
use crate::vs_explain_facts::{Facts, Question, Reading, TextKind};
use crate::vs_explain_outline::{Page, is_declaration, put_marked};
use crate::writes::{Wanted, is_part, number_of, source_of, target_of, write_in};
use std::alloc::{AllocError, Global};
use vs_design::vs_logic4::{Binary, Edge};
use vs_design::{SignalKind, Statement, Typed};

/// Why two processes may not write a signal.
#[derive(Clone, Copy, PartialEq, Eq)]
enum Cause {
    BlockCounts,
    BlockAndStart,
    GenerateTurns,
    LoopVariable,
    SharedCounter,
    Memory,
    ClockBits,
    Bits,
    TwoEdges,
    SetAndClear,
    TwoProcesses,
    ZeroDelay,
    EmptyLoop,
    EmptyLoopOffEdge,
    TurnsAtStart,
    SameStart,
    TwoStarts,
    SetTwice,
}

/// A cause, and the writes that it marks.
#[derive(Clone, Copy)]
struct Fault {
    cause: Cause,
    first: Option<Site>,
    second: Option<Site>,
}

/// The processes that write a signal behind a control.
fn late_writers(alloc: Global, facts: &Facts, signal: usize) -> Result<Vec<usize>, AllocError> {
    let mut late = Vec::new(alloc);
    for process in facts.writers_of(signal) {
        if write_in(facts, *process, signal, Wanted::Late).is_some() {
            late.push(*process)?;
        }
    }
    Ok(late)
}

/// Whether a statement adds to a signal: `s = s + 1`.
fn adds_to(statement: &Statement, signal: usize) -> bool {
    let Some(Typed::Chain(first, rest)) = source_of(statement) else {
        return false;
    };
    let is_own = match &**first {
        Typed::Signal(operand) => operand.signal == signal,
        _ => false,
    };
    match rest.first() {
        Some((link, _)) => {
            is_own && (link.operator == Binary::Add || link.operator == Binary::Subtract)
        }
        None => false,
    }
}

/// What is asked of the writes of several processes.
#[derive(Clone, Copy, PartialEq, Eq)]
enum Asked {
    /// Whether each adds to the signal.
    Adds,
    /// Whether each writes bits of it alone.
    Parts,
}

/// Whether all writes of a signal by these processes are so.
fn all_are(asked: Question, processes: &[usize], signal: usize, what: Asked) -> bool {
    let Some(declared) = asked.design.signals().get(signal) else {
        return false;
    };
    for process in processes {
        let Some(text) = asked.facts.texts.get(*process) else {
            return false;
        };
        for point in &text.points {
            let is_so = match what {
                Asked::Adds => adds_to(point.statement, signal),
                Asked::Parts => match target_of(point.statement) {
                    Some(target) => is_part(target, signal, declared),
                    None => false,
                },
            };
            if point.writes_signal(signal) && !is_so {
                return false;
            }
        }
    }
    true
}

/// Whether a signal is used in loops alone, by these processes alone.
fn is_loop_variable(asked: Question, processes: &[usize], signal: usize) -> bool {
    match asked.design.signals().get(signal) {
        Some(declared) if declared.kind == SignalKind::Integer => {}
        _ => return false,
    }
    for (number, text) in asked.facts.texts.iter().enumerate() {
        let is_writer = processes.contains(&number);
        if !is_writer && text.reads_signal(signal) {
            return false;
        }
        let mut looped = !is_writer;
        for point in &text.points {
            looped = looped || (point.is_looped && point.writes_signal(signal));
        }
        if !looped {
            return false;
        }
    }
    true
}

/// Whether a process waits for `posedge`, and whether it waits for `negedge`.
fn edges_of(facts: &Facts, process: usize) -> (bool, bool) {
    let mut edges = (false, false);
    if let Some(text) = facts.texts.get(process) {
        for term in &text.terms {
            match term.term.edge {
                Edge::Posedge => edges.0 = true,
                Edge::Negedge => edges.1 = true,
                Edge::Any => {}
            }
        }
    }
    edges
}

/// Whether two processes stand at one place of the text, as turns of a generate loop do.
fn share_text(
    alloc: Global,
    asked: Question,
    one: usize,
    other: usize,
) -> Result<bool, AllocError> {
    let processes = asked.design.processes();
    let (Some(one), Some(other)) = (processes.get(one), processes.get(other)) else {
        return Ok(false);
    };
    Ok(asked.text.numbered(alloc, &one.name)? == asked.text.numbered(alloc, &other.name)?)
}

/// The kind of a process.
fn kind_of(facts: &Facts, process: usize) -> TextKind {
    match facts.texts.get(process) {
        Some(text) => text.kind,
        None => TextKind::Plain,
    }
}

/// Why two processes that write a signal after time 0 do.
fn cause_of_two(
    alloc: Global,
    asked: Question,
    late: &[usize],
    signal: usize,
    one: usize,
    other: usize,
) -> Result<Cause, AllocError> {
    if share_text(alloc, asked, one, other)? {
        return Ok(Cause::GenerateTurns);
    }
    if is_loop_variable(asked, late, signal) {
        return Ok(Cause::LoopVariable);
    }
    if all_are(asked, late, signal, Asked::Adds) {
        return Ok(Cause::SharedCounter);
    }
    if let Some(declared) = asked.design.signals().get(signal) {
        if declared.words.is_some() {
            return Ok(Cause::Memory);
        }
    }
    let waits_for_time = kind_of(asked.facts, one) == TextKind::Delays;
    if all_are(asked, late, signal, Asked::Parts) {
        return Ok(if waits_for_time {
            Cause::ClockBits
        } else {
            Cause::Bits
        });
    }
    Ok(cause_of_clocked(asked.facts, one, other))
}

/// Why two processes write a signal, by what they wait for.
fn cause_of_clocked(facts: &Facts, one: usize, other: usize) -> Cause {
    let are_clocked = kind_of(facts, one) == TextKind::Edges
        && kind_of(facts, other) == TextKind::Edges;
    match (are_clocked, edges_of(facts, one) == edges_of(facts, other)) {
        (false, _) => Cause::TwoProcesses,
        (true, true) => Cause::SetAndClear,
        (true, false) => Cause::TwoEdges,
    }
}

/// The fault of two processes that write a signal after time 0.
fn two_late(
    alloc: Global,
    asked: Question,
    late: &[usize],
    signal: usize,
) -> Result<Option<Fault>, AllocError> {
    let (Some(one), Some(other)) = (late.first(), late.get(1)) else {
        return Ok(None);
    };
    let cause = cause_of_two(alloc, asked, late, signal, *one, *other)?;
    let first = write_in(asked.facts, *one, signal, Wanted::Late);
    let second = write_in(asked.facts, *other, signal, Wanted::Late);
    Ok(Some(Fault {
        cause,
        first,
        second: if cause == Cause::GenerateTurns {
            None
        } else {
            second
        },
    }))
}

/// The first write of a signal by `=` that counts for the first slot, and no more by another reading of the text's ways.
fn no_more_first(
    alloc: Global,
    facts: &Facts,
    process: usize,
    signal: usize,
    reading: Reading,
) -> Result<Option<Site>, AllocError> {
    let Some(text) = facts.texts.get(process) else {
        return Ok(None);
    };
    let moments = text.moments(alloc, reading)?;
    let mut found = None;
    for (number, (point, moment)) in text.points.iter().zip(&moments).enumerate() {
        if !point.writes_signal(signal) || !point.is_blocking() {
            continue;
        }
        if moment.is_first {
            return Ok(None);
        }
        if point.moment.is_first && found.is_none() {
            found = Some(Site { process, number });
        }
    }
    Ok(found)
}

/// Whether a write at the very start reads the signal that it writes.
fn turning_start(facts: &Facts, process: usize, signal: usize) -> Option<Site> {
    let text = facts.texts.get(process)?;
    for (number, point) in text.points.iter().enumerate() {
        if point.moment.is_prologue && point.writes_signal(signal) && point.reads_signal(signal) {
            return Some(Site { process, number });
        }
    }
    None
}

/// Whether two writes are of one number.
fn same_value(facts: &Facts, one: Option<Site>, other: Option<Site>) -> bool {
    let (Some(one), Some(other)) = (one, other) else {
        return false;
    };
    let (Some(one), Some(other)) = (
        facts.point(one.process, one.number),
        facts.point(other.process, other.number),
    ) else {
        return false;
    };
    let one = source_of(one.statement).and_then(|source| number_of(source));
    let other = source_of(other.statement).and_then(|source| number_of(source));
    match (one, other) {
        (Some(one), Some(other)) => one.same(other),
        _ => false,
    }
}

/// Whether a process is a declaration with a value.
fn is_declared(alloc: Global, asked: Question, process: usize) -> Result<bool, AllocError> {
    match asked.design.processes().get(process) {
        Some(process) => is_declaration(alloc, asked.text, process),
        None => Ok(false),
    }
}

/// The ways of a text where `#0` takes time.
const NO_ZERO: Reading = Reading {
    zero_is_time: true,
    loops_are_entered: false,
};

/// The ways of a text where each loop with a wait in it is entered.
const NO_EMPTY: Reading = Reading {
    zero_is_time: false,
    loops_are_entered: true,
};

/// The fault of these writes, where there is a second one.
fn fault_at(cause: Cause, first: Option<Site>, second: Option<Site>) -> Option<Fault> {
    if second.is_none() {
        return None;
    }
    Some(Fault {
        cause,
        first,
        second,
    })
}

/// The fault of two processes that give a signal a value in the first slot.
fn two_first(
    alloc: Global,
    asked: Question,
    signal: usize,
    writer: usize,
    other: usize,
) -> Result<Option<Fault>, AllocError> {
    let facts = asked.facts;
    let first = write_in(facts, other, signal, Wanted::First);
    let at_zero = no_more_first(alloc, facts, writer, signal, NO_ZERO)?;
    let behind_loop = no_more_first(alloc, facts, writer, signal, NO_EMPTY)?;
    let turning = turning_start(facts, writer, signal);
    let loop_cause = if edges_of(facts, writer).0 {
        Cause::EmptyLoop
    } else {
        Cause::EmptyLoopOffEdge
    };
    let found = fault_at(Cause::ZeroDelay, first, at_zero)
        .or(fault_at(loop_cause, first, behind_loop))
        .or(fault_at(Cause::TurnsAtStart, first, turning));
    match found {
        Some(fault) => Ok(Some(fault)),
        None => two_starts(alloc, asked, signal, writer, other),
    }
}

/// The first write of a signal at time 0 by its writer that may not stand beside those of another process: by `=`, or by `<=` where the other's are too.
fn start_beside(facts: &Facts, signal: usize, writer: usize, other: usize) -> Option<Site> {
    let now = write_in(facts, writer, signal, Wanted::FirstNow);
    if now.is_none() && write_in(facts, other, signal, Wanted::FirstLater).is_some() {
        return write_in(facts, writer, signal, Wanted::FirstLater);
    }
    now
}

/// The fault of two processes that both give a signal its first value.
fn two_starts(
    alloc: Global,
    asked: Question,
    signal: usize,
    writer: usize,
    other: usize,
) -> Result<Option<Fault>, AllocError> {
    let facts = asked.facts;
    let first = write_in(facts, other, signal, Wanted::First);
    let second = start_beside(facts, signal, writer, other);
    if second.is_none() || first.is_none() {
        return Ok(None);
    }
    let declared = is_declared(alloc, asked, other)? || is_declared(alloc, asked, writer)?;
    let cause = match (declared, same_value(facts, first, second)) {
        (false, _) => Cause::SetTwice,
        (true, true) => Cause::SameStart,
        (true, false) => Cause::TwoStarts,
    };
    Ok(Some(Fault {
        cause,
        first,
        second,
    }))
}

/// The fault of the processes that write a signal, where they have one.
fn fault_of(alloc: Global, asked: Question, signal: usize) -> Result<Option<Fault>, AllocError> {
    let facts = asked.facts;
    let all = facts.writers_of(signal);
    let Some(last) = all.last() else {
        return Ok(None);
    };
    let late = late_writers(alloc, facts, signal)?;
    if let Some(block) = facts.block_of(signal) {
        return Ok(block_fault(facts, all, signal, block));
    }
    if late.len() > 1 {
        return two_late(alloc, asked, &late, signal);
    }
    let writer = late.first().copied().unwrap_or(*last);
    let mut before = None;
    for other in all {
        if *other == writer {
            continue;
        }
        let fault = two_first(alloc, asked, signal, writer, *other)?;
        if fault.is_some() {
            return Ok(fault);
        }
        if let Some(before) = before {
            return two_starts(alloc, asked, signal, *other, before);
        }
        before = Some(*other);
    }
    Ok(None)
}

/// The fault of a combinational block whose output another process writes.
fn block_fault(facts: &Facts, all: &[usize], signal: usize, block: usize) -> Option<Fault> {
    for other in all {
        if *other != block {
            let counts = match facts.texts.get(block) {
                Some(text) => text.reads_signal(signal),
                None => false,
            };
            return Some(Fault {
                cause: if counts {
                    Cause::BlockCounts
                } else {
                    Cause::BlockAndStart
                },
                first: write_in(facts, *other, signal, Wanted::Any),
                second: write_in(facts, block, signal, Wanted::Any),
            });
        }
    }
    None
}

/// What is said of signals that two processes write after time 0.
fn story_of_two(cause: Cause) -> Story {
    match cause {
        Cause::GenerateTurns => Story {
            cause: "Each turn of the generate loop is a process of its own that writes bits of `%`, and a variable counts as a whole.",
            remedy: "Use a `for` in one `always`: `for (i = 0; ..) %[i] <= ..;`. Or make `%` a net, with a register for each turn: `reg b; assign %[i] = b;`.",
        },
        Cause::LoopVariable => Story {
            cause: "Two processes use the loop variable `%`, so both write it.",
            remedy: "Give each process a loop variable of its own.",
        },
        Cause::SharedCounter => Story {
            cause: "Two processes count into `%`.",
            remedy: "Give each process a counter of its own, and add them where they are read: `% + %2`.",
        },
        Cause::Memory => Story {
            cause: "Two processes write the memory `%`, and an array counts as a whole.",
            remedy: "With one clock write both ports in one `always`. With two clocks keep a memory for each.",
        },
        Cause::ClockBits => Story {
            cause: "Two processes write bits of `%`, and a variable counts as a whole.",
            remedy: "Make each clock a variable of its own.",
        },
        Cause::Bits => Story {
            cause: "Two processes write bits of `%`, and a variable counts as a whole.",
            remedy: "Let one process write all bits, or give each process a variable and join them: `assign % = {..};`.",
        },
        Cause::TwoEdges => Story {
            cause: "`%` is written at both edges of a clock, by two processes.",
            remedy: "Use one process for both edges, `always @(posedge clk or negedge clk) % <= clk ? .. : ..;`, or two registers and a choice by the clock.",
        },
        Cause::SetAndClear => Story {
            cause: "Two clocked processes write `%`; where both do at one edge, the last one that runs wins.",
            remedy: "Write it in one process that says which goes first: `if (..) % <= ..; else if (..) % <= ..;`.",
        },
        _ => Story {
            cause: "Two processes write `%` after time 0.",
            remedy: "Let one process write it: join the two.",
        },
    }
}

/// What is said of a signal that two processes write.
fn story_of(cause: Cause) -> Story {
    match cause {
        Cause::BlockCounts => Story {
            cause: "A block that waits for levels writes `%` and reads it: it is taken for a combinational block, whose output has no first value and no memory.",
            remedy: "Count at the clock: keep the old value in a register and compare, `if (old !== new) % <= % + 1;`.",
        },
        Cause::BlockAndStart => Story {
            cause: "`%` is the output of a combinational block, and a first value is a second writer.",
            remedy: "Leave out that value: the block gives it.",
        },
        Cause::ZeroDelay => Story {
            cause: "`#0` takes no time, so this write counts for time 0, where another process writes `%` too.",
            remedy: "Give the first value once, or write it after a delay above 0.",
        },
        Cause::EmptyLoop => Story {
            cause: "This write stands behind a loop, which counts as possibly empty, so it counts for time 0, where another process writes `%` too.",
            remedy: "Write `%` by `<=` behind the loop; or leave out the other first value and write all values of `%` in this process by `<=`.",
        },
        Cause::EmptyLoopOffEdge => Story {
            cause: "This write stands behind a loop, which counts as possibly empty, so it counts for time 0, where another process writes `%` too.",
            remedy: "Put one wait before the loop, `@(negedge clk); repeat (2) @(negedge clk);` for three; or write `%` by `<=` behind it.",
        },
        _ => story_of_start(cause),
    }
}

/// What is said of a signal that gets two first values.
fn story_of_start(cause: Cause) -> Story {
    match cause {
        Cause::TurnsAtStart => Story {
            cause: "This write reads `%` at time 0, where another process gives its first value.",
            remedy: "Wait before it: `always #5 % = ~%;`.",
        },
        Cause::SameStart => Story {
            cause: "Two processes give `%` its first value at time 0, the declaration among them.",
            remedy: "Give the first value once: leave it out of the declaration, `reg %;`.",
        },
        Cause::TwoStarts => Story {
            cause: "`%` gets two values at time 0, one of them by its declaration; the last one that runs wins.",
            remedy: "Give the first value once: leave it out of the declaration, `reg %;`.",
        },
        Cause::SetTwice => Story {
            cause: "`%` gets its first value at time 0 from two processes.",
            remedy: "Leave out one of the two.",
        },
        _ => story_of_two(cause),
    }
}

/// Puts the first write; of a loop variable its declaration.
fn put_first(page: &mut Page, asked: Question, fault: Fault) {
    if fault.cause == Cause::LoopVariable {
        put_marked(page, asked.text, asked.place);
    } else {
        put_maybe(page, asked, fault.first);
    }
}

/// Puts the processes that write a signal, and why that breaks the rule.
pub fn put_writers(page: &mut Page, asked: Question) {
    let Some(signal) = asked.facts.signal_named(asked.place) else {
        return;
    };
    match fault_of(page.alloc(), asked, signal) {
        Ok(Some(fault)) => {
            put_first(page, asked, fault);
            put_maybe(page, asked, fault.second);
            put_story(page, 2, story_of(fault.cause), name_of(asked, signal));
        }
        Ok(None) => put_writers_claimed(page, asked, 2, signal),
        Err(_) => page.leave_out(),
    }
}
