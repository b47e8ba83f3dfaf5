//! Lists of times.

use std::alloc::{AllocError, Global};
use vs_design::vs_logic4::Edge;
use vs_explain_facts::{Course, Facts, TextFacts};
use vs_explain_outline::Page;

/// How many times are told.
const REPORT_LIMIT: usize = 3;

/// Those of a rising list that come after time 0, in order and each once, with those of another one.
pub fn push_times(all: &mut Vec<u64>, more: &[u64]) -> Result<(), AllocError> {
    for time in more {
        if *time > 0 {
            all.push(*time)?;
        }
    }
    Ok(())
}

/// Times in order, each once.
pub fn in_order(alloc: Global, mut times: Vec<u64>) -> Result<Vec<u64>, AllocError> {
    times.sort()?;
    let mut all = Vec::new(alloc);
    for time in times {
        if all.last() != Some(&time) {
            all.push(time)?;
        }
    }
    Ok(all)
}

/// The times that two rising lists have in common.
pub fn common(alloc: Global, left: &[u64], right: &[u64]) -> Result<Vec<u64>, AllocError> {
    let mut both = Vec::new(alloc);
    let mut place = 0usize;
    for time in left {
        for _ in place..right.len() {
            match right.get(place) {
                Some(other) if *other < *time => place = place.saturating_add(1),
                _ => break,
            }
        }
        if right.get(place) == Some(time) {
            both.push(*time)?;
        }
    }
    Ok(both)
}

/// When an edge of a variable comes, behind time 0.
pub fn edge_of<'c>(course: &'c Course, root: usize, edge: Edge) -> &'c [u64] {
    match edge {
        Edge::Posedge => course.rises(root),
        Edge::Negedge => course.falls(root),
        Edge::Any => &[],
    }
}

/// When the edges come that a process waits for, those of one variable left out.
pub fn edge_times(
    alloc: Global,
    facts: &Facts,
    course: &Course,
    text: &TextFacts,
    left_out: Option<usize>,
) -> Result<Vec<u64>, AllocError> {
    let mut all = Vec::new(alloc);
    for term in &text.terms {
        let root = facts.root(term.term.range.signal);
        if left_out != Some(root) {
            push_times(&mut all, edge_of(course, root, facts.edge(term.term)))?;
        }
    }
    in_order(alloc, all)
}

/// Puts times, as `at 5`, `at 5 and 15`, `at 5, 15, 25 and later`.
pub fn put_times(page: &mut Page, times: &[u64]) {
    page.put("at ");
    for (index, time) in times.iter().enumerate().take(REPORT_LIMIT) {
        if index > 0 {
            let is_last = index.saturating_add(1) == times.len();
            page.put(if is_last { " and " } else { ", " });
        }
        page.put_shown(*time);
    }
    if times.len() > REPORT_LIMIT {
        page.put(" and later");
    }
}

/// The last time before one that is in neither of two rising lists, and behind time 0.
pub fn free_before(time: u64, left: &[u64], right: &[u64]) -> Option<u64> {
    let mut free = time;
    for _ in 0..left.len().saturating_add(right.len()).saturating_add(1) {
        free = free.saturating_sub(1);
        if free == 0 {
            return None;
        }
        if !left.contains(&free) && !right.contains(&free) {
            return Some(free);
        }
    }
    None
}
