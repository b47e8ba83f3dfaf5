//! Why a combinational block that never ran has the outputs that a run would give it.

use crate::copied::all_shown;
use crate::drivers::{Needs, driver_order, drivers_needed};
use crate::plans::{KindPlan, SignalPlan};
use crate::vs_certificate::{Rules, SignalMode, Start};
use crate::vs_graph::is_marked;
use crate::{TextFacts, TextKind, Trial};
use std::alloc::{AllocError, Global};
use vs_design::{BitRange, Design, EventTerm, Statement, event_terms};
use vs_drivers::vs_maps::has_signal;
use vs_process::statement_writes;

// Whether a signal is a variable that no combinational block writes.
fn is_source(signals: &[SignalPlan], v: usize) -> bool {
    match signals.get(v) {
        None => false,
        Some(plan) => { plan.mode != SignalMode::Net && plan.mode != SignalMode::Combinational }
    }
}

// Whether terms name variables that no combinational block writes, and what the block itself writes, alone.
fn waits_for_sources(signals: &[SignalPlan], written: &[BitRange], terms: &[EventTerm]) -> bool {
    terms.iter().all(|term| {
        is_source(signals, term.range.signal) || has_signal(written, term.range.signal)
    })
}

// Whether the writer of a starter may be of a kind: of kind edge in version 3 alone, which alone has mixed ones.
fn is_of_starters(kind: TextKind, rules: Rules) -> bool {
    match kind {
        TextKind::Block => false,
        TextKind::Edge => rules.is_wide(),
        TextKind::Mixed | TextKind::Delay => true,
    }
}

// Whether a process that may be the writer of a starter writes a signal by `<=` in the first slot.
fn writes_first(texts: &[TextFacts], i: usize, signal: usize, rules: Rules) -> bool {
    match texts.get(i) {
        None => false,
        Some(text) => {
            is_of_starters(text.kind, rules)
                && text
                    .writes
                    .iter()
                    .any(|w| w.signal == signal && w.is_later && w.is_first)
        }
    }
}

// Whether a variable may be sure to change in the first slot. Mode `both` is one of version 3.
fn may_start(texts: &[TextFacts], signals: &[SignalPlan], v: usize, rules: Rules) -> bool {
    match signals.get(v) {
        None => false,
        Some(plan) => match plan.writer {
            None => false,
            Some(writer) => {
                matches!(plan.mode, SignalMode::Nonblocking | SignalMode::Both)
                    && writes_first(texts, writer, v, rules)
            }
        },
    }
}

// What is claimed of a process that waits for times and for edges. Versions 1 and 2 have no kind for it.
fn mixed_kind(rules: Rules) -> KindPlan {
    match rules {
        Rules::Narrow => KindPlan::Delay,
        Rules::Wide => KindPlan::Mixed,
    }
}

// What is claimed of a process that is no driver; of a block, before its start is known, that it is cold.
fn kind_plan(text: &TextFacts, rules: Rules) -> KindPlan {
    match text.kind {
        TextKind::Block => KindPlan::Block(Start::Cold),
        TextKind::Edge => KindPlan::Edge,
        TextKind::Mixed => mixed_kind(rules),
        TextKind::Delay => KindPlan::Delay,
    }
}

// For each signal whether it is, or copies, a variable that may be sure to change in the first slot. Inverse copies don't count, in version 3 neither.
fn starters_of(
    alloc: Global,
    design: &Design,
    texts: &[TextFacts],
    signals: &[SignalPlan],
    order: &[usize],
    rules: Rules,
) -> Result<Vec<bool>, AllocError> {
    let all = all_shown(alloc, design, Rules::Narrow, order)?;
    let mut marks = Vec::new(alloc);
    for shown in &all {
        marks.push(may_start(texts, signals, shown.root, rules))?;
    }
    Ok(marks)
}

// Blocks whose starts are found one after another, each after the drivers that it needs.
#[derive(Drop)]
struct Starts<'a> {
    design: &'a Design,
    signals: &'a [SignalPlan],
    trial: Trial<'a>,
    // For each signal whether it is, or copies, a variable that may be sure to change in the first slot.
    starters: Vec<bool>,
    // For each driver whether it, or one that it needs, is a block of start `starter`.
    behind: Vec<bool>,
    kinds: Vec<KindPlan>,
}

impl<'a> Starts<'a> {
    // The start of a block, by whether a driver that it needs is behind one of start `starter`. No block behind such a one may be cold.
    fn start_of(
        &mut self,
        alloc: Global,
        i: usize,
        body: &Statement,
        is_behind: bool,
    ) -> Result<Start, AllocError> {
        let terms = event_terms(alloc, body)?;
        let written = statement_writes(alloc, body)?;
        if waits_for_sources(self.signals, &written, &terms) {
            return Ok(Start::Sources);
        }
        if !is_behind && self.trial.stays_cold(alloc, i, &written)? {
            return Ok(Start::Cold);
        }
        let starts = terms
            .iter()
            .any(|term| is_marked(&self.starters, term.range.signal));
        Ok(if starts { Start::Starter } else { Start::Cold })
    }

    // Finds the start of a process, where it is a block, and whether it is of start `starter`.
    fn find_block_start(
        &mut self,
        alloc: Global,
        i: usize,
        is_behind: bool,
    ) -> Result<bool, AllocError> {
        let design = self.design;
        let Some(process) = design.processes().get(i) else {
            return Ok(false);
        };
        let start = self.start_of(alloc, i, &process.body, is_behind)?;
        if let Some(kind) = self.kinds.get_mut(i) {
            *kind = KindPlan::Block(start);
        }
        Ok(matches!(start, Start::Starter))
    }

    // Finds the start of a driver, where it is a block, once those of the drivers that it needs are found.
    fn find_start(
        &mut self,
        alloc: Global,
        driver: usize,
        needed: &[usize],
    ) -> Result<(), AllocError> {
        let assigns = self.design.assigns().len();
        let mut is_behind = needed.iter().any(|other| is_marked(&self.behind, *other));
        if driver >= assigns && self.find_block_start(alloc, driver - assigns, is_behind)? {
            is_behind = true;
        }
        if let Some(mark) = self.behind.get_mut(driver) {
            *mark = is_behind;
        }
        Ok(())
    }
}

/// What is to be claimed of each process. The starts of blocks are found in an order in which each stands after the drivers whose bits it reads or
/// waits for: `sources` and `cold` where they hold, and else `starter` where the control allows it.
pub(crate) fn kind_plans(
    alloc: Global,
    design: &Design,
    rules: Rules,
    texts: &[TextFacts],
    signals: &[SignalPlan],
    order: &[usize],
) -> Result<Vec<KindPlan>, AllocError> {
    let mut kinds = Vec::new(alloc);
    for text in texts {
        kinds.push(kind_plan(text, rules))?;
    }
    if !texts.iter().any(|text| text.kind == TextKind::Block) {
        return Ok(kinds);
    }
    let needed = drivers_needed(alloc, design, texts, Needs::ReadsAndWaits)?;
    let mut starts = Starts {
        design,
        signals,
        trial: Trial::new(alloc, design, order)?,
        starters: starters_of(alloc, design, texts, signals, order, rules)?,
        behind: vec![in alloc; false; needed.len()]?,
        kinds,
    };
    for driver in driver_order(alloc, design, texts, &needed)? {
        if let Some(row) = needed.get(driver) {
            starts.find_start(alloc, driver, row)?;
        }
    }
    Ok(starts.kinds)
}
