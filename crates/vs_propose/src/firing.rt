//! The residues at which edges of the roots of a plan can fire.

use crate::copied::all_themselves;
use crate::moduli::root_marks;
use crate::plans::{EdgePlan, KindPlan, Plan};
use std::alloc::{AllocError, Global};
use vs_design::Design;
use vs_propose_texts::{Firing, Firings, Root, Shown, clock_by, text_firing};

// Whether a process is to be claimed as one of kind delay.
fn is_delay(kinds: &[KindPlan], i: usize) -> bool {
    match kinds.get(i) {
        None => false,
        Some(kind) => matches!(kind, KindPlan::Delay),
    }
}

// The residues at which the edges of a root can fire: none where its writer isn't of kind delay.
fn firing_of(
    alloc: Global,
    design: &Design,
    plan: &Plan,
    root: usize,
    modulus: u64,
) -> Result<Firing, AllocError> {
    let Some(claim) = plan.signals.get(root) else {
        return Ok(Firing::none(alloc));
    };
    let Some(writer) = claim.writer else {
        return Ok(Firing::none(alloc));
    };
    if writer >= design.processes().len() || !is_delay(&plan.kinds, writer) {
        return Ok(Firing::none(alloc));
    }
    let root = Root {
        signal: root,
        clock: clock_by(alloc, design, plan.rules, root, writer, claim.second)?,
        modulus,
    };
    text_firing(alloc, design, writer, plan.rules, root)
}

// For each of so many signals what it shows of its root: itself, where no edge term names it.
fn edges_shown(
    alloc: Global,
    signals: usize,
    edges: &[EdgePlan],
) -> Result<Vec<Shown>, AllocError> {
    let mut all = all_themselves(alloc, signals)?;
    for edge in edges {
        if let Some(entry) = all.get_mut(edge.signal) {
            *entry = Shown {
                root: edge.root,
                is_inverted: edge.is_inverted,
            };
        }
    }
    Ok(all)
}

/// The residues by a modulus at which the edges of the roots of a plan can fire. It takes as long as the texts of their writers, each times how many
/// residues there are.
pub(crate) fn firings_of(
    alloc: Global,
    design: &Design,
    plan: &Plan,
    modulus: u64,
) -> Result<Firings, AllocError> {
    let signals = design.signals().len();
    let marks = root_marks(alloc, signals, &plan.edges)?;
    let mut rows = Vec::new(alloc);
    for v in 0..marks.len() {
        let row = if marks[v] {
            firing_of(alloc, design, plan, v, modulus)?
        } else {
            Firing::none(alloc)
        };
        rows.push(row)?;
    }
    let shown = edges_shown(alloc, signals, &plan.edges)?;
    Ok(Firings::of_roots(shown, rows))
}
