//! How signals are written.

use crate::plans::SignalPlan;
use crate::readers::{Readers, is_private, readers_of};
use crate::vs_certificate::{Rules, SignalMode};
use crate::writers::Writer;
use crate::{Second, TextFacts, TextKind};
use std::alloc::{AllocError, Global};
use vs_design::{Design, SignalKind};

// Whether one process may be the second of a signal whose writer is another one.
fn may_be_second(second: Writer, writer: Writer) -> bool {
    !second.is_late && !writer.is_first_now && !(second.has_later && writer.is_first_later)
}

// The writer of a signal and its second, of those that write it.
fn writer_and_second(row: &[Writer]) -> Option<(Writer, Option<Writer>)> {
    if row.is_empty() {
        return None;
    }
    let first = row[0];
    let last = row[row.len() - 1];
    if row.len() == 1 {
        return Some((last, None));
    }
    if !may_be_second(first, last) && may_be_second(last, first) {
        return Some((first, Some(last)));
    }
    Some((last, Some(first)))
}

// What runs a process.
fn kind_of(texts: &[TextFacts], i: usize) -> TextKind {
    match texts.get(i) {
        None => TextKind::Delay,
        Some(text) => text.kind,
    }
}

// How a signal is written that one process writes by `=` and by `<=`. Versions 1 and 2 have no mode for it, but where no other process reads it.
fn both_ways(rules: Rules) -> SignalMode {
    match rules {
        Rules::Narrow => SignalMode::Private,
        Rules::Wide => SignalMode::Both,
    }
}

// How a writer writes a signal, which no other process reads, or some may.
fn mode_of(writer: Writer, kind: TextKind, is_private: bool, rules: Rules) -> SignalMode {
    if kind == TextKind::Block {
        SignalMode::Combinational
    } else if !writer.has_now {
        SignalMode::Nonblocking
    } else if writer.has_later {
        both_ways(rules)
    } else if kind == TextKind::Edge && is_private {
        SignalMode::Private
    } else {
        SignalMode::Blocking
    }
}

// A signal that no process writes.
fn unwritten(kind: SignalKind) -> SignalPlan {
    let mode = match kind {
        SignalKind::Wire => SignalMode::Net,
        SignalKind::Reg | SignalKind::Integer => SignalMode::Unwritten,
    };
    SignalPlan {
        mode,
        writer: None,
        second: None,
        is_new: false,
    }
}

// What the process that writes a signal at the start alone does, where there is one.
fn second_of(writer: Option<Writer>) -> Option<Second> {
    match writer {
        None => None,
        Some(w) => Some(Second {
            process: w.process,
            digit: w.digit,
        }),
    }
}

// What is to be claimed of a signal.
fn signal_plan(
    design: &Design,
    texts: &[TextFacts],
    row: &[Writer],
    readers: &[Readers],
    v: usize,
    declared: SignalKind,
    rules: Rules,
) -> SignalPlan {
    match writer_and_second(row) {
        None => unwritten(declared),
        Some((writer, second)) => {
            let kind = kind_of(texts, writer.process);
            let is_private = is_private(design, readers, v, writer.process);
            let mode = mode_of(writer, kind, is_private, rules);
            SignalPlan {
                mode,
                writer: Some(writer.process),
                second: second_of(second),
                is_new: mode == SignalMode::Blocking && kind == TextKind::Edge,
            }
        }
    }
}

// The processes that write a signal.
fn row_of(writers: &[Vec<Writer>], v: usize) -> &[Writer] {
    match writers.get(v) {
        None => &[],
        Some(row) => row,
    }
}

/// What is to be claimed of each signal, by the processes that write it.
pub(crate) fn signal_plans(
    alloc: Global,
    design: &Design,
    rules: Rules,
    texts: &[TextFacts],
    writers: &[Vec<Writer>],
) -> Result<Vec<SignalPlan>, AllocError> {
    let readers = readers_of(alloc, design)?;
    let signals = design.signals();
    let mut plans = Vec::new(alloc);
    for v in 0..signals.len() {
        let row = row_of(writers, v);
        let declared = signals[v].kind;
        plans.push(signal_plan(design, texts, row, &readers, v, declared, rules))?;
    }
    Ok(plans)
}
