//! Blocks that may not have run when their inputs change first, in the rule K11.

use crate::awaiting::{control_in, push_new};
use std::alloc::{AllocError, Global};
use vs_design::{Statement, Typed};
use vs_explain_facts::{Facts, Part, Question, TextFacts, TextKind, mark};
use vs_explain_outline::{Page, ordinal_of, put_marked};
use vs_explain_races::vs_explain_writers::{
    Site, Story, mark_site, name_of, put_anew, put_maybe, put_story, put_subject, unsized_of,
};

/// What is marked beside the block.
#[derive(Clone, Copy)]
enum Beside {
    Nothing,
    Statement(Site),
    Signal(usize),
    Assign(usize),
}

/// A fault of a block: what is marked beside it, a signal, and what is said of them.
#[derive(Clone, Copy)]
struct Fault {
    beside: Beside,
    signal: usize,
    story: Story,
}

/// The signals that a block reads or waits for, and doesn't write, each once.
fn inputs_of(alloc: Global, facts: &Facts, text: &TextFacts) -> Result<Vec<usize>, AllocError> {
    let mut seen = vec![in alloc; false; facts.design.signals().len()]?;
    let mut inputs = Vec::new(alloc);
    for point in &text.points {
        for signal in &point.writes {
            mark(&mut seen, *signal);
        }
    }
    for term in &text.terms {
        push_new(&mut inputs, &mut seen, term.term.range.signal)?;
    }
    for point in &text.points {
        for signal in &point.reads {
            push_new(&mut inputs, &mut seen, *signal)?;
        }
    }
    Ok(inputs)
}

/// The fault of a block on whose inputs no variable has an influence.
fn constant_fault(
    alloc: Global,
    facts: &Facts,
    inputs: &[usize],
) -> Result<Option<Fault>, AllocError> {
    let cone = facts.cone(alloc, inputs)?;
    for (signal, mark) in cone.signals.iter().enumerate() {
        if *mark && !facts.is_net(signal) {
            return Ok(None);
        }
    }
    for signal in inputs {
        if let Some(assign) = facts.drivers_of(*signal).first() {
            return Ok(Some(Fault {
                beside: Beside::Assign(*assign),
                signal: *signal,
                story: Story {
                    cause: "The block waits for `%`, which is tied to a constant: whether it waits already when the net takes it is open, and else it never runs.",
                    remedy: "Make an `assign` of the block; or drive the net from a variable that an `initial` writes by `<=`.",
                },
            }));
        }
    }
    Ok(None)
}

/// The fault of a block that waits for what another block writes.
fn chain_fault(facts: &Facts, block: usize, inputs: &[usize]) -> Option<Fault> {
    for signal in inputs {
        match facts.block_of(facts.copied(*signal)) {
            Some(other) if other != block => {
                let beside = match control_in(facts, other) {
                    Some(site) => Beside::Statement(site),
                    None => Beside::Nothing,
                };
                return Some(Fault {
                    beside,
                    signal: *signal,
                    story: Story {
                        cause: "The block waits for `%`, which another block writes: at time 0 neither has run, and a run at x would change what it writes.",
                        remedy: "Join the two blocks, the reader behind the writer, or make an `assign` of one. Or let this one give x for x: `if (^% === 1'bx) .. = 'bx;` at its end.",
                    },
                });
            }
            _ => {}
        }
    }
    None
}

/// How many values a signal has, where they are few.
fn values_of(facts: &Facts, signal: usize) -> usize {
    match facts.design.signals().get(signal) {
        Some(declared) if declared.width <= 16 => {
            let mut count = 1usize;
            for _ in 0..declared.width {
                count = count.saturating_mul(2);
            }
            count
        }
        _ => usize::MAX,
    }
}

/// The fault of a block with a `case` that names all values, and has a `default` too.
fn default_fault(facts: &Facts, process: usize, text: &TextFacts) -> Option<Fault> {
    for (number, point) in text.points.iter().enumerate() {
        let Statement::Case(_, _, Typed::Signal(selector), items) = point.statement else {
            continue;
        };
        let mut labels = 0usize;
        let mut has_default = false;
        for (list, _) in items {
            labels = labels.saturating_add(list.len());
            has_default = has_default || list.is_empty();
        }
        if has_default && labels == values_of(facts, selector.signal) {
            return Some(Fault {
                beside: Beside::Statement(Site { process, number }),
                signal: selector.signal,
                story: Story {
                    cause: "The `case` names all values of `%`, which is x at first; its `default` would give a value then, while the block's output is x before its first run.",
                    remedy: "Let the `default`, which x alone comes to, give x: `default: .. = 'bx;`.",
                },
            });
        }
    }
    None
}

/// The first write of a signal by `<=` before any control, of an `initial` that waits for edges.
fn stimulus_of(facts: &Facts, signal: usize) -> Option<Site> {
    for process in facts.writers_of(signal) {
        let Some(text) = facts.texts.get(*process) else {
            continue;
        };
        if text.kind != TextKind::Edges || !facts.is_initial(*process) {
            continue;
        }
        for (number, point) in text.points.iter().enumerate() {
            if point.moment.is_prologue && point.is_later() && point.writes_signal(signal) {
                return Some(Site {
                    process: *process,
                    number,
                });
            }
        }
    }
    None
}

/// The fault of a block whose inputs an `initial` gives that waits for edges.
fn stimulus_fault(facts: &Facts, inputs: &[usize]) -> Option<Fault> {
    for input in inputs {
        let signal = facts.copied(*input);
        if let Some(site) = stimulus_of(facts, signal) {
            return Some(Fault {
                beside: Beside::Statement(site),
                signal,
                story: Story {
                    cause: "`%` gets its value at time 0 by `<=`, but from a process that waits for edges; what starts a block is written by a process with delays.",
                    remedy: "Give the stimuli by delays: `% <= 0; #5 % <= 1; ..`. By `<=` they may fall on the clock's edges: the design sees what it saw.",
                },
            });
        }
    }
    None
}

/// What is said of a net that is no copy of what starts the block: of a port by what is connected to it.
fn story_of_port(source: Option<&Typed>) -> Story {
    match source {
        Some(Typed::Signal(_)) => Story {
            cause: "`%` hasn't the size of what is connected to it, so it is no copy of it, and a `<=` at time 0 there doesn't count as what starts the block.",
            remedy: "Give both the same size.",
        },
        Some(Typed::Slice(_) | Typed::Select(_, _, _)) => Story {
            cause: "`%` is connected to a part of a variable, so it is no copy of it, and a `<=` at time 0 there doesn't count as what starts the block.",
            remedy: "Connect a variable of its own, or make an `assign` of the block.",
        },
        _ => Story {
            cause: "The block waits for `%`, which an `assign` computes: no input of it is sure to change at time 0, and a run at x would change what it writes.",
            remedy: "Make an `assign` of the block, or compute `%` in it. Or let it give x for x: `if (^% === 1'bx) .. = 'bx;` at its end.",
        },
    }
}

/// The fault of a block behind a net that is no copy.
fn port_fault(facts: &Facts, inputs: &[usize]) -> Option<Fault> {
    for input in inputs {
        let signal = facts.copied(*input);
        if !facts.is_net(signal) {
            continue;
        }
        let number = *facts.drivers_of(signal).first()?;
        let assign = facts.design.assigns().get(number)?;
        let is_port = matches!(ordinal_of(&assign.name), Some((_, b'i', _)));
        let story = story_of_port(if is_port {
            Some(unsized_of(&assign.source))
        } else {
            None
        });
        return Some(Fault {
            beside: Beside::Assign(number),
            signal,
            story,
        });
    }
    None
}

/// The fault of a block behind copies of registers.
fn copy_fault(facts: &Facts, inputs: &[usize]) -> Option<Fault> {
    for input in inputs {
        let signal = facts.copied(*input);
        if signal == *input {
            continue;
        }
        let number = *facts.drivers_of(*input).first()?;
        let assign = facts.design.assigns().get(number)?;
        if matches!(ordinal_of(&assign.name), Some((_, b'i', _))) {
            return Some(Fault {
                beside: Beside::Signal(signal),
                signal,
                story: Story {
                    cause: "The block waits for a port behind which the register `%` stands, x until its first write: a run at x would change what the block writes, and before it that is x.",
                    remedy: "Write the block as an `assign`. Or let it give x while its input is x: `if (^.. === 1'bx) .. = 'bx;` at its end. (`initial % <= 0;` doesn't help where a clocked process writes it.)",
                },
            });
        }
        return Some(Fault {
            beside: Beside::Assign(number),
            signal,
            story: Story {
                cause: "The block waits for a net that copies the register `%`; a wait for the register itself would do.",
                remedy: "Let the block read `%` itself, without the net between.",
            },
        });
    }
    None
}

/// The first variable on which a signal hangs; itself where there is none.
fn driving_variable(alloc: Global, facts: &Facts, signal: usize) -> Result<usize, AllocError> {
    for one in facts.cone(alloc, &[signal])?.order {
        if !facts.is_net(one) {
            return Ok(one);
        }
    }
    Ok(signal)
}

/// The fault of a block of several inputs, of which none is sure to change.
fn mixed_fault(alloc: Global, facts: &Facts, inputs: &[usize]) -> Result<Fault, AllocError> {
    let mut signal = inputs.first().copied().unwrap_or(0);
    for input in inputs {
        if facts.is_net(*input) {
            signal = *input;
        }
    }
    Ok(Fault {
        beside: Beside::Signal(driving_variable(alloc, facts, signal)?),
        signal,
        story: Story {
            cause: "None of the block's inputs is sure to change at time 0, `%` neither, and a run at x would change what it writes.",
            remedy: "Let it read a variable that an `initial` with delays writes by `<=`, as a reset. Or let it give x while an input is x: `if (^% === 1'bx) .. = 'bx;` at its end.",
        },
    })
}

/// The fault of a block.
fn fault_of(
    alloc: Global,
    facts: &Facts,
    block: usize,
    text: &TextFacts,
) -> Result<Fault, AllocError> {
    let inputs = inputs_of(alloc, facts, text)?;
    if let Some(fault) = constant_fault(alloc, facts, &inputs)? {
        return Ok(fault);
    }
    let found = chain_fault(facts, block, &inputs)
        .or(default_fault(facts, block, text))
        .or(stimulus_fault(facts, &inputs));
    if let Some(fault) = found {
        return Ok(fault);
    }
    let waits_for_variable = inputs.iter().any(|input| !facts.is_net(*input));
    let mut narrow = None;
    if inputs.len() == 1 || !waits_for_variable {
        narrow = port_fault(facts, &inputs);
    }
    if narrow.is_none() && inputs.len() == 1 {
        narrow = copy_fault(facts, &inputs);
    }
    match narrow {
        Some(fault) => Ok(fault),
        None => mixed_fault(alloc, facts, &inputs),
    }
}

/// Puts what is marked beside a block.
fn put_beside(page: &mut Page, asked: Question, beside: Beside) {
    match beside {
        Beside::Nothing => {}
        Beside::Statement(site) => mark_site(page, asked, site),
        Beside::Signal(signal) => {
            put_marked(page, asked.text, asked.facts.path(signal));
        }
        Beside::Assign(number) => {
            put_marked(page, asked.text, Part::Assign(number).name(asked.design));
        }
    }
}

/// Puts why it isn't known that a block has run.
pub(crate) fn put_start(page: &mut Page, asked: Question) {
    let facts = asked.facts;
    let block = match facts.process_named(asked.place) {
        Some(block) => block,
        None => return,
    };
    let Some(text) = facts.texts.get(block) else {
        return;
    };
    if text.kind != TextKind::Block {
        put_subject(page, asked, 11);
        return put_anew(page);
    }
    match fault_of(page.alloc(), facts, block, text) {
        Ok(fault) => {
            put_maybe(page, asked, control_in(facts, block));
            put_beside(page, asked, fault.beside);
            put_story(page, 11, fault.story, name_of(asked, fault.signal));
        }
        Err(_) => page.leave_out(),
    }
}
