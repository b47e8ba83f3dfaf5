//! Combinational blocks that are no function of what they wait for, in the rule K5.

use crate::awaiting::push_new;
use crate::coverage::{Gap, GapAt, gap_of};
use std::alloc::{AllocError, Global};
use vs_design::{CallKind, Statement};
use vs_explain_facts::vs_certificate::ClaimedGrain;
use vs_explain_facts::{Question, TextFacts, TextKind, mark};
use vs_explain_outline::{Page, put_marked};
use vs_explain_races::vs_explain_writers::{
    Site, Story, mark_site, name_of, put_anew, put_story, put_subject,
};

/// How many statements are looked at in all, over the outputs of a block.
const LOOKED_AT: usize = 4_000_000;

/// A fault of a block: the number of a statement, a signal, and what is said of them.
#[derive(Clone, Copy)]
struct Fault {
    number: usize,
    signal: usize,
    story: Story,
}

/// The first statement of a block that no combinational block has.
fn foreign_of(text: &TextFacts) -> Option<Fault> {
    for (number, point) in text.points.iter().enumerate() {
        let signal = point.writes.first().copied().unwrap_or(0);
        let story = match point.statement {
            Statement::Later(_, _, _, _) => Story {
                cause: "The combinational block writes `%` by `<=`.",
                remedy: "Write it by `=`.",
            },
            Statement::Finish(_) => Story {
                cause: "A block that waits for levels is taken for a combinational block, and those have no `$finish`.",
                remedy: "Put the check into a clocked process: `always @(posedge clk) if (..) $finish;`.",
            },
            Statement::Call(_, call) if call.kind == CallKind::Strobe => Story {
                cause: "A block that waits for levels is taken for a combinational block, and those have no `$strobe`.",
                remedy: "Print at the clock: `always @(posedge clk) $strobe(..);`.",
            },
            _ => continue,
        };
        return Some(Fault {
            number,
            signal,
            story,
        });
    }
    None
}

/// The first read of a signal that the block neither waits for nor writes.
fn unawaited_of(
    alloc: Global,
    asked: Question,
    text: &TextFacts,
) -> Result<Option<Fault>, AllocError> {
    let mut awaited = vec![in alloc; false; asked.design.signals().len()]?;
    for term in &text.terms {
        mark(&mut awaited, term.term.range.signal);
    }
    for point in &text.points {
        for signal in &point.writes {
            mark(&mut awaited, *signal);
        }
    }
    for (number, point) in text.points.iter().enumerate() {
        if matches!(point.statement, Statement::Call(_, _)) {
            continue;
        }
        for signal in &point.reads {
            if awaited.get(*signal) == Some(&false) {
                let story = Story {
                    cause: "The block reads `%`, which its control doesn't name.",
                    remedy: "Write `always @*`.",
                };
                return Ok(Some(Fault {
                    number,
                    signal: *signal,
                    story,
                }));
            }
        }
    }
    Ok(None)
}

/// The outputs of a block, each once, in the order of its text.
fn outputs_of(alloc: Global, asked: Question, text: &TextFacts) -> Result<Vec<usize>, AllocError> {
    let mut seen = vec![in alloc; false; asked.design.signals().len()]?;
    let mut outputs = Vec::new(alloc);
    for point in &text.points {
        for signal in &point.writes {
            push_new(&mut outputs, &mut seen, *signal)?;
        }
    }
    Ok(outputs)
}

/// What is said of an output that isn't written whole.
fn story_of(gap: Gap) -> Story {
    match gap {
        Gap::Branch => Story {
            cause: "`%` isn't written on one side of this `if`: the block is a latch.",
            remedy: "Give it a value on every path: `% = 0;` before the `if`, or an `else`. A wanted latch must become a clocked register with an enable.",
        },
        Gap::NoDefault => Story {
            cause: "This `case` has no `default`, so there is a path on which `%` isn't written; all values don't count as all, since x is none of them.",
            remedy: "Make the last item `default:`, or give `%` a value before the `case`.",
        },
        Gap::Item => Story {
            cause: "An item of this `case` doesn't write `%`: the block is a latch.",
            remedy: "Give `%` a value in each item, or before the `case`.",
        },
        Gap::ReadBefore => Story {
            cause: "The block reads `%` before it has written the whole of it.",
            remedy: "Write the whole first: `% = 0;` at its beginning.",
        },
        Gap::Loop => Story {
            cause: "`%` is written in a loop, which counts as possibly empty.",
            remedy: "Give the whole of `%` a value before the loop: `% = 0;`.",
        },
        Gap::Bits => Story {
            cause: "Only bits of `%` are written, or at an index that isn't constant, which counts as any bit.",
            remedy: "Give the whole of `%` a value first: `% = 0;` at the block's beginning.",
        },
    }
}

/// The first output that isn't written whole.
fn gap_in(alloc: Global, asked: Question, text: &TextFacts) -> Result<Option<Fault>, AllocError> {
    let mut left = LOOKED_AT;
    for signal in outputs_of(alloc, asked, text)? {
        if left < text.points.len() {
            return Ok(None);
        }
        left = left.saturating_sub(text.points.len());
        let Some(declared) = asked.design.signals().get(signal) else {
            continue;
        };
        if let Some(GapAt { gap, number }) = gap_of(
            &text.points,
            &text.process.body,
            signal,
            declared,
        ) {
            return Ok(Some(Fault {
                number,
                signal,
                story: story_of(gap),
            }));
        }
    }
    Ok(None)
}

/// The fault of a block.
fn fault_of(alloc: Global, asked: Question, text: &TextFacts) -> Result<Option<Fault>, AllocError> {
    if let Some(fault) = foreign_of(text) {
        return Ok(Some(fault));
    }
    if let Some(fault) = unawaited_of(alloc, asked, text)? {
        return Ok(Some(fault));
    }
    gap_in(alloc, asked, text)
}

/// What is said of a block of so many outputs that it isn't known which one isn't written whole.
const SOME_OUTPUT: Story = Story {
    cause: "An output of the block isn't written whole on each path, or is read before.",
    remedy: "Give each output a value at the block's beginning.",
};

/// Puts that a process is no block where a certificate calls it one.
fn put_no_block(page: &mut Page, asked: Question, text: &TextFacts) {
    let is_whole = asked.certificate.grain == ClaimedGrain::Block;
    if is_whole && text.kind == TextKind::Block {
        put_marked(page, asked.text, asked.place);
        return put_story(page, 5, SOME_OUTPUT, asked.place);
    }
    put_subject(page, asked, 5);
    page.put(if is_whole {
        "The certificate calls it a combinational block.\n"
    } else {
        "The certificate's grain is `statement`, at which there are no combinational blocks.\n"
    });
    put_anew(page);
}

/// Puts why a block is no function of what it waits for.
pub(crate) fn put_block(page: &mut Page, asked: Question) {
    let Some(process) = asked.facts.process_named(asked.place) else {
        return;
    };
    let Some(text) = asked.facts.texts.get(process) else {
        return;
    };
    if asked.certificate.grain == ClaimedGrain::Statement {
        return put_no_block(page, asked, text);
    }
    match fault_of(page.alloc(), asked, text) {
        Ok(Some(fault)) => {
            let number = fault.number;
            mark_site(page, asked, Site { process, number });
            put_story(page, 5, fault.story, name_of(asked, fault.signal));
        }
        Ok(None) => put_no_block(page, asked, text),
        Err(_) => page.leave_out(),
    }
}
