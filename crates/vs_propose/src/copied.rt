//! The signals of edge terms, and what they copy.

use crate::plans::EdgePlan;
use crate::vs_certificate::Rules;
use std::alloc::{AllocError, Global};
use vs_design::vs_logic4::Edge;
use vs_design::{Assign, Design, EventTerm, event_terms, writes};
use vs_drivers::Copies;
use vs_propose_texts::Shown;

// Whether a term waits for an edge.
fn is_edge(term: EventTerm) -> bool {
    !matches!(term.edge, Edge::Any)
}

// For each signal whether an edge term names it.
fn edge_marks(alloc: Global, design: &Design) -> Result<Vec<bool>, AllocError> {
    let mut marks = vec![in alloc; false; design.signals().len()]?;
    for process in design.processes() {
        for term in event_terms(alloc, &process.body)? {
            if is_edge(term) {
                if let Some(mark) = marks.get_mut(term.range.signal) {
                    *mark = true;
                }
            }
        }
    }
    Ok(marks)
}

/// For each of so many signals itself.
pub(crate) fn all_themselves(alloc: Global, signals: usize) -> Result<Vec<Shown>, AllocError> {
    let mut all = Vec::new(alloc);
    for v in 0..signals {
        all.push(Shown::itself(v))?;
    }
    Ok(all)
}

// What a signal is known to show; one past the end shows itself.
fn at(all: &[Shown], v: usize) -> Shown {
    if v < all.len() {
        all[v]
    } else {
        Shown::itself(v)
    }
}

// What a net shows that copies a signal; by wide rules an inverse copy counts too.
fn copied(copies: &Copies, rules: Rules, all: &[Shown], v: usize) -> Option<Shown> {
    if let Some(source) = copies.source(v) {
        return Some(at(all, source));
    }
    match rules {
        Rules::Narrow => None,
        Rules::Wide => match copies.inverse_source(v) {
            None => None,
            Some(source) => Some(at(all, source).inverted()),
        },
    }
}

// Notes what the nets show that a continuous assignment drives.
fn note(
    alloc: Global,
    copies: &Copies,
    rules: Rules,
    assign: &Assign,
    all: &mut Vec<Shown>,
) -> Result<(), AllocError> {
    for range in writes(alloc, &assign.target)? {
        if let Some(shown) = copied(copies, rules, all, range.signal) {
            if let Some(entry) = all.get_mut(range.signal) {
                *entry = shown;
            }
        }
    }
    Ok(())
}

/// For each signal what it shows: by narrow rules what it copies, by wide ones an inverse too. The order has each continuous assignment after those
/// that drive what it reads.
pub(crate) fn all_shown(
    alloc: Global,
    design: &Design,
    rules: Rules,
    order: &[usize],
) -> Result<Vec<Shown>, AllocError> {
    let copies = Copies::of(alloc, design)?;
    let mut all = all_themselves(alloc, design.signals().len())?;
    for driver in order {
        if let Some(assign) = design.assigns().get(*driver) {
            note(alloc, &copies, rules, assign, &mut all)?;
        }
    }
    Ok(all)
}

/// The signals of the edge terms of a design, in design order, with what each shows.
pub(crate) fn edge_plans(
    alloc: Global,
    design: &Design,
    rules: Rules,
    order: &[usize],
) -> Result<Vec<EdgePlan>, AllocError> {
    let marks = edge_marks(alloc, design)?;
    let all = all_shown(alloc, design, rules, order)?;
    let mut edges = Vec::new(alloc);
    for signal in 0..marks.len() {
        if marks[signal] {
            let shown = at(&all, signal);
            edges.push(EdgePlan {
                root: shown.root,
                signal,
                is_inverted: shown.is_inverted,
            })?;
        }
    }
    Ok(edges)
}
