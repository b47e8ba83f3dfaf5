//! Which processes wait for a signal, and where.

use std::alloc::{AllocError, Global};
use vs_design::vs_logic4::Edge;
use vs_explain_facts::{Facts, Term, TextKind, driven_by, mark};
use vs_explain_races::vs_explain_writers::Site;

/// The first control of a process.
pub(crate) fn control_in(facts: &Facts, process: usize) -> Option<Site> {
    let text = facts.texts.get(process)?;
    for (number, point) in text.points.iter().enumerate() {
        if point.is_event() {
            return Some(Site { process, number });
        }
    }
    None
}

/// An event control, and whether it waits for the inverse of a root.
#[derive(Clone, Copy)]
pub(crate) struct Waiting {
    /// The control.
    pub(crate) site: Site,
    /// Whether the signal of its term shows the root inverted.
    pub(crate) is_inverse: bool,
}

/// Whether a term counts for the first value of a root, which a process writes: in version 3 that of a control of the first slot, and not one of the
/// root itself for which that process waits.
fn counts_first(facts: &Facts, process: usize, term: Term, root: usize, writer: usize) -> bool {
    if !facts.is_third {
        return true;
    }
    if process == writer && term.term.range.signal == root {
        return false;
    }
    match facts.point(process, term.number as usize) {
        Some(point) => point.moment.is_first,
        None => true,
    }
}

/// The first control of any process that waits for an edge of a root, of the root itself or of a net that shows it, and counts for its first value,
/// which a process writes.
pub(crate) fn edge_of(facts: &Facts, root: usize, edge: Edge, writer: usize) -> Option<Waiting> {
    for (process, text) in facts.texts.iter().enumerate() {
        for term in &text.terms {
            let shown = facts.shown(term.term.range.signal);
            let is_awaited = shown.root == root && facts.edge(term.term) == edge;
            if is_awaited && counts_first(facts, process, *term, root, writer) {
                let number = term.number as usize;
                return Some(Waiting {
                    site: Site { process, number },
                    is_inverse: shown.is_inverted,
                });
            }
        }
    }
    None
}

/// A combinational block that waits for what hangs on a variable.
#[derive(Clone, Copy)]
pub(crate) struct Reached {
    /// The block.
    pub(crate) block: usize,
    /// Whether it waits for the variable itself.
    pub(crate) is_direct: bool,
}

/// The first combinational block that waits for a signal.
fn block_at(facts: &Facts, signal: usize) -> Option<usize> {
    for process in facts.design.listeners(signal) {
        if let Some(text) = facts.texts.get(*process) {
            if text.kind == TextKind::Block {
                return Some(*process);
            }
        }
    }
    None
}

/// Puts a signal at a list's end, where it wasn't passed.
pub(crate) fn push_new(
    list: &mut Vec<usize>,
    passed: &mut Vec<bool>,
    signal: usize,
) -> Result<(), AllocError> {
    if mark(passed, signal) {
        list.push(signal)?;
    }
    Ok(())
}

/// The first combinational block to which a change of a variable leads by way of assignments, where it doesn't lead to what was passed before. All calls with
/// the same marks take as long as the design.
pub(crate) fn reached_block(
    alloc: Global,
    facts: &Facts,
    from: usize,
    passed: &mut Vec<bool>,
) -> Result<Option<Reached>, AllocError> {
    let mut todo = Vec::new(alloc);
    push_new(&mut todo, passed, from)?;
    for next in 0..facts.design.signals().len() {
        let Some(signal) = todo.get(next).copied() else {
            break;
        };
        if let Some(block) = block_at(facts, signal) {
            let is_direct = signal == from;
            return Ok(Some(Reached { block, is_direct }));
        }
        for reader in facts.design.readers(signal) {
            if let Some(assign) = facts.design.assigns().get(reader.assign) {
                for driven in driven_by(alloc, assign)? {
                    push_new(&mut todo, passed, driven)?;
                }
            }
        }
    }
    Ok(None)
}
