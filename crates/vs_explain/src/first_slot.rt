//! What happens in the first slot, in the rule K10.

use crate::awaiting::{Reached, Waiting, control_in, edge_of, reached_block};
use std::alloc::{AllocError, Global};
use vs_design::Statement;
use vs_design::vs_logic4::Edge;
use vs_explain_facts::{Facts, Part, Point, Question, TextKind};
use vs_explain_outline::{Page, is_declaration, put_marked};
use vs_explain_races::vs_explain_writers::{
    Site, Story, Wanted, bit_given, is_turned, name_of, put_anew, put_maybe, put_story,
    put_subject, write_of,
};

/// A fault of the first slot: two places, a signal, and what is said of them.
#[derive(Clone, Copy)]
struct Fault {
    first: Option<Site>,
    second: Option<Site>,
    signal: usize,
    story: Story,
}

/// The edge that the first value of a root is, where that is 0 or 1.
fn first_edge(facts: &Facts, write: Site, signal: usize) -> Option<Edge> {
    let point = facts.point(write.process, write.number)?;
    let is_one = bit_given(point.statement, signal)?;
    Some(if is_one { Edge::Posedge } else { Edge::Negedge })
}

/// What is said of a clock whose first value is an edge.
fn story_of_clock(edge: Edge, is_stimulus: bool) -> Story {
    match (edge, is_stimulus) {
        (Edge::Posedge, _) => Story {
            cause: "`%` starts at 1 from x, which is a `posedge` at time 0, and this process waits for `posedge`: whether it waits already is open.",
            remedy: "Start the clock at 0, `reg % = 0;`; where others wait for `negedge`, leave it x: `initial begin #5 % = 1; forever #5 % = ~%; end`.",
        },
        (_, true) => Story {
            cause: "`%` starts at 0 from x, which is a `negedge` at time 0, and this `initial` waits for `negedge`: whether it waits already is open.",
            remedy: "Leave the clock x at time 0: `reg %; initial begin #5 % = 1; forever #5 % = ~%; end`; or drive at `posedge` by `<=`.",
        },
        (_, false) => Story {
            cause: "`%` starts at 0 from x, which is a `negedge` at time 0, and this process waits for `negedge`: whether it waits already is open.",
            remedy: "Leave the clock x at time 0: `reg %; initial begin #5 % = 1; forever #5 % = ~%; end`.",
        },
    }
}

/// What is said of a reset whose first value is an edge.
fn story_of_reset(edge: Edge) -> Story {
    match edge {
        Edge::Posedge => Story {
            cause: "`%` is 1 from time 0 on: x to 1 is a `posedge` at time 0, and whether this process waits for it already is open.",
            remedy: "Begin at the inactive level and assert it later, by `=`: `% = 0; #1 % = 1;`, and no value in the declaration.",
        },
        _ => Story {
            cause: "`%` is 0 from time 0 on: x to 0 is a `negedge` at time 0, and whether this process waits for it already is open.",
            remedy: "Begin at the inactive level and assert it later, by `=`: `% = 1; #1 % = 0;`, and no value in the declaration.",
        },
    }
}

/// What is said of a root whose first value is an edge of its inverse.
fn story_of_inverse(edge: Edge, is_clock: bool) -> Story {
    match (edge, is_clock) {
        (Edge::Posedge, true) => Story {
            cause: "`%` starts at 1 from x, which is a `negedge` of its inverse at time 0, and this process waits for that: whether it waits already is open.",
            remedy: "Start the clock at 0, `reg % = 0;`; where others wait for the other edge, leave it x: `initial begin #5 % = 1; forever #5 % = ~%; end`.",
        },
        (Edge::Posedge, false) => Story {
            cause: "`%` is 1 from time 0 on, which is a `negedge` of its inverse at time 0: whether this process waits for it already is open.",
            remedy: "Begin at the inactive level and assert it later, by `=`: `% = 0; #1 % = 1;`, and no value in the declaration.",
        },
        (_, true) => Story {
            cause: "`%` starts at 0 from x, which is a `posedge` of its inverse at time 0, and this process waits for that: whether it waits already is open.",
            remedy: "Leave the clock x at time 0: `reg %; initial begin #5 % = 1; forever #5 % = ~%; end`.",
        },
        (_, false) => Story {
            cause: "`%` is 0 from time 0 on, which is a `posedge` of its inverse at time 0: whether this process waits for it already is open.",
            remedy: "Begin at the inactive level and assert it later, by `=`: `% = 1; #1 % = 0;`, and no value in the declaration.",
        },
    }
}

/// What is said of a root whose first value is an edge that is awaited so.
fn story_of_edge(facts: &Facts, signal: usize, edge: Edge, waiting: Waiting) -> Story {
    let is_clock = is_turned(facts, signal);
    if waiting.is_inverse {
        story_of_inverse(edge, is_clock)
    } else if is_clock {
        story_of_clock(edge, facts.is_initial(waiting.site.process))
    } else {
        story_of_reset(edge)
    }
}

/// The second write of a signal in the text of a process that can run in the first slot.
fn second_write(facts: &Facts, signal: usize, first: Site) -> Option<Site> {
    for process in facts.writers_of(signal) {
        let Some(text) = facts.texts.get(*process) else {
            continue;
        };
        for (number, point) in text.points.iter().enumerate() {
            let site = Site {
                process: *process,
                number,
            };
            if point.moment.is_first && point.writes_signal(signal) && site != first {
                return Some(site);
            }
        }
    }
    None
}

/// The fault of a root whose first value is no constant 0 or 1, or comes twice.
fn shapeless_root(facts: &Facts, signal: usize, first: Site) -> Option<Fault> {
    if let Some(second) = second_write(facts, signal, first) {
        return Some(Fault {
            first: Some(first),
            second: Some(second),
            signal,
            story: Story {
                cause: "Two writes of `%` count for time 0, and edges of it are awaited; a loop counts as possibly empty.",
                remedy: "Keep one of them, or put a delay before the other.",
            },
        });
    }
    if first_edge(facts, first, signal).is_some() {
        return None;
    }
    Some(Fault {
        first: Some(first),
        second: None,
        signal,
        story: Story {
            cause: "The first value of `%`, of which edges are awaited, is no constant 0 or 1.",
            remedy: "Write a constant 0 or 1 at time 0, or write it after a delay.",
        },
    })
}

/// The fault of a root.
fn root_fault(facts: &Facts, signal: usize) -> Option<Fault> {
    if let Some(first) = write_of(facts, signal, Wanted::FirstLater) {
        let second = edge_of(facts, signal, Edge::Posedge, first.process);
        let second = second.or(edge_of(facts, signal, Edge::Negedge, first.process));
        let second = second.map(|waiting| waiting.site);
        let story = Story {
            cause: "The first value of `%` is written by `<=`; what edges are awaited of gets its value at time 0 by one `=` of a constant.",
            remedy: "Write it by `=`: `initial % = 0;`, or `reg % = 0;`.",
        };
        return Some(Fault {
            first: Some(first),
            second,
            signal,
            story,
        });
    }
    let first = write_of(facts, signal, Wanted::First)?;
    let shapeless = shapeless_root(facts, signal, first);
    if shapeless.is_some() {
        return shapeless;
    }
    let edge = first_edge(facts, first, signal)?;
    let waiting = edge_of(facts, signal, edge, first.process)?;
    Some(Fault {
        first: Some(first),
        second: Some(waiting.site),
        signal,
        story: story_of_edge(facts, signal, edge, waiting),
    })
}

/// Whether a process is a block, or writes a signal by `=` in the first slot.
fn writes_first(facts: &Facts, process: usize, signal: usize) -> bool {
    let Some(text) = facts.texts.get(process) else {
        return false;
    };
    text.kind == TextKind::Block
        || text.points.iter().any(|p| p.moment.is_first
            && p.is_blocking()
            && p.writes_signal(signal))
}

/// Whether a process other than this one writes a signal, or none does; in version 3, whether another one writes it by `=` in the first slot.
fn is_foreign(facts: &Facts, process: usize, signal: usize) -> bool {
    if facts.is_net(signal) {
        return true;
    }
    let writers = facts.writers_of(signal);
    for writer in writers {
        if *writer != process && (!facts.is_third || writes_first(facts, *writer, signal)) {
            return true;
        }
    }
    writers.is_empty() && !facts.is_third
}

/// The first signal that a statement reads in the first slot, and that another process writes.
fn foreign_in(facts: &Facts, process: usize, point: &Point, with_calls: bool) -> Option<usize> {
    let is_call = matches!(point.statement, Statement::Call(_, _));
    if !point.moment.is_first || is_call != with_calls {
        return None;
    }
    for signal in &point.reads {
        if is_foreign(facts, process, *signal) {
            return Some(*signal);
        }
    }
    None
}

/// What is said of a read in the first slot.
fn story_of_read(facts: &Facts, point: &Point, signal: usize) -> Story {
    let is_test = matches!(
        point.statement,
        Statement::While(_, _, _) | Statement::Repeat(_, _, _, _)
    );
    match (is_test, facts.is_net(signal)) {
        (true, true) => Story {
            cause: "The test of this loop reads the net `%` at time 0, before any wait: whether the net has its first value by then is open.",
            remedy: "Wait for one clock edge before the first test: `@(posedge clk); while (..) @(posedge clk);`.",
        },
        (true, false) => Story {
            cause: "The test of this loop reads `%` at time 0, where another process may write it: which one runs first is open.",
            remedy: "Wait for one clock edge before the first test: `@(posedge clk); while (..) @(posedge clk);`.",
        },
        (false, true) => Story {
            cause: "This reads the net `%` at time 0: whether the net has its first value by then is open.",
            remedy: "Read it after time 0, as behind `#1`.",
        },
        (false, false) => Story {
            cause: "This reads `%` at time 0, and another process may write it then: which one runs first is open.",
            remedy: "Read it after time 0, as behind `#1`; or let one process do both.",
        },
    }
}

/// The fault of a process that reads in the first slot what others write.
fn read_fault(facts: &Facts, process: usize, with_calls: bool) -> Option<Fault> {
    let text = facts.texts.get(process)?;
    for (number, point) in text.points.iter().enumerate() {
        let Some(signal) = foreign_in(facts, process, point, with_calls) else {
            continue;
        };
        let copied = facts.copied(signal);
        let mut first = write_of(facts, copied, Wanted::First);
        if first.is_none() && !facts.is_net(signal) {
            first = write_of(facts, copied, Wanted::Any);
        }
        return Some(Fault {
            first,
            second: Some(Site { process, number }),
            signal,
            story: story_of_read(facts, point, signal),
        });
    }
    None
}

/// What a write before a block waits is.
#[derive(Clone, Copy)]
struct Start {
    /// It is that of a declaration.
    is_declared: bool,
    /// A clocked process writes the variable later.
    is_clocked: bool,
}

/// What is said of a write by `=` at time 0 of what a block waits for.
fn story_of_start(facts: &Facts, signal: usize, reached: Reached, start: Start) -> Story {
    let is_monitor = match facts.texts.get(reached.block) {
        Some(text) => text.points.iter().all(|point| point.writes.is_empty()),
        None => false,
    };
    let is_array = match facts.design.signals().get(signal) {
        Some(declared) => declared.words.is_some(),
        None => false,
    };
    if is_monitor {
        return Story {
            cause: "A block that waits for levels is taken for a combinational block; `%` gets its first value by `=`, and whether the block waits already is open.",
            remedy: "Write the first value by `<=`: `reg %; initial % <= 0;`; or print at the clock: `always @(posedge clk) $strobe(..);`.",
        };
    }
    if is_array {
        return Story {
            cause: "The memory `%` is filled by `=` at time 0, and this block reads it: whether the block waits already is open.",
            remedy: "Fill it by `<=`; or read it by an `assign` in place of the block.",
        };
    }
    match (start.is_declared, start.is_clocked, reached.is_direct) {
        (true, true, false) => Story {
            cause: "This block hangs on the clocked register `%`, whose declaration gives it a value: that counts as an `=` at time 0, and whether the block waits already is open.",
            remedy: "Write the block as an `assign`; the declaration may stay. (`initial % <= 0;` in its place is K11, where the block doesn't give x for x.)",
        },
        (true, _, _) => Story {
            cause: "This block hangs on `%`, whose declaration gives it a value: that counts as an `=` at time 0, and whether the block waits already is open.",
            remedy: "Take the value out of the declaration, and give it by `<=`: `initial % <= 0;` for 0.",
        },
        (false, _, _) => Story {
            cause: "This block hangs on `%`, which is written by `=` at time 0: whether the block waits already is open.",
            remedy: "Write `%` by `<=`, the first value and all later ones: `% <= 0; .. % <= 1;`.",
        },
    }
}

/// Whether a clocked process writes a signal.
fn is_clocked(facts: &Facts, signal: usize) -> bool {
    for process in facts.writers_of(signal) {
        if let Some(text) = facts.texts.get(*process) {
            if text.kind == TextKind::Edges {
                return true;
            }
        }
    }
    false
}

/// The fault of a process that writes by `=`, before anything waits, what a block waits for.
fn start_fault(
    alloc: Global,
    asked: Question,
    process: usize,
) -> Result<Option<Fault>, AllocError> {
    let facts = asked.facts;
    let Some(text) = facts.texts.get(process) else {
        return Ok(None);
    };
    let mut passed = vec![in alloc; false; asked.design.signals().len()]?;
    for (number, point) in text.points.iter().enumerate() {
        if !point.moment.is_prologue || !point.is_blocking() {
            continue;
        }
        for signal in &point.writes {
            if let Some(reached) = reached_block(alloc, facts, *signal, &mut passed)? {
                let start = Start {
                    is_declared: is_declaration(alloc, asked.text, text.process)?,
                    is_clocked: is_clocked(facts, *signal),
                };
                return Ok(Some(Fault {
                    first: Some(Site { process, number }),
                    second: control_in(facts, reached.block),
                    signal: *signal,
                    story: story_of_start(facts, *signal, reached, start),
                }));
            }
        }
    }
    Ok(None)
}

/// The fault of a process.
fn process_fault(
    alloc: Global,
    asked: Question,
    process: usize,
) -> Result<Option<Fault>, AllocError> {
    if let Some(fault) = read_fault(asked.facts, process, false) {
        return Ok(Some(fault));
    }
    if let Some(fault) = start_fault(alloc, asked, process)? {
        return Ok(Some(fault));
    }
    Ok(read_fault(asked.facts, process, true))
}

/// The fault of the subject.
fn fault_of(alloc: Global, asked: Question) -> Result<Option<Fault>, AllocError> {
    if let Some(signal) = asked.facts.signal_named(asked.place) {
        return Ok(root_fault(asked.facts, signal));
    }
    match asked.facts.process_named(asked.place) {
        Some(process) => process_fault(alloc, asked, process),
        None => Ok(None),
    }
}

/// Puts where a signal gets its value: a net by its driver, where it has one.
fn put_origin(page: &mut Page, asked: Question, signal: usize) {
    let mut name = asked.facts.path(signal);
    if let Some(number) = asked.facts.drivers_of(signal).first() {
        name = Part::Assign(*number).name(asked.design);
    }
    put_marked(page, asked.text, name);
}

/// Puts what happens in the first slot, and why that breaks the rule.
pub(crate) fn put_first_slot(page: &mut Page, asked: Question) {
    match fault_of(page.alloc(), asked) {
        Ok(Some(fault)) => {
            match fault.first {
                Some(_) => put_maybe(page, asked, fault.first),
                None => put_origin(page, asked, fault.signal),
            }
            put_maybe(page, asked, fault.second);
            put_story(page, 10, fault.story, name_of(asked, fault.signal));
        }
        Ok(None) => {
            put_subject(page, asked, 10);
            put_anew(page);
        }
        Err(_) => page.leave_out(),
    }
}
