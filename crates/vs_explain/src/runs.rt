//! Runs that take too many steps, and the events whose order makes two runs differ.

use crate::limit::{StepCounts, explain_steps};
use crate::scopes::put_scope;
use crate::steps::last_steps;
use std::alloc::{AllocError, Global};
use vs_explain_outline::{Explanation, Page, SourceText};
use vs_race_pair::{Asked, put_pair};
use vs_simulate::design_of;

/// What is said of a run which took its most steps: how many, the time of its slot in ticks, and who took the last of them. The run is made
/// again for it, so it takes as long.
pub fn explain_limit(
    alloc: Global,
    source: &[u8],
    top: &[u8],
    lifo: bool,
    steps: u64,
    time: u64,
) -> Result<Explanation, AllocError> {
    let mut page = Page::new(alloc);
    let text = SourceText::read(alloc, source)?;
    let design = design_of(alloc, source, top);
    if let (Some(text), Ok(design)) = (&text, &design) {
        let last = last_steps(alloc, design, lifo, steps)?;
        let taken = StepCounts {
            steps: last.steps,
            from: last.from,
            processes: &last.processes,
            assigns: &last.assigns,
        };
        explain_steps(&mut page, text, design, steps, time, taken);
        put_scope(&mut page, text, top);
    }
    page.finish()
}

/// Two lines on the two events whose order makes a signal differ in two runs of the design that a source and a top define, where they are found.
/// Both runs are made again for it.
pub fn explain_pair(
    alloc: Global,
    source: &[u8],
    top: &[u8],
    asked: &Asked,
) -> Result<Explanation, AllocError> {
    let mut page = Page::new(alloc);
    let text = SourceText::read(alloc, source)?;
    let design = design_of(alloc, source, top);
    if let (Some(text), Ok(design)) = (&text, &design) {
        put_pair(&mut page, text, design, asked);
    }
    page.finish()
}
