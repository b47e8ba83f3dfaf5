//! Cycles through what drives signals.

use std::alloc::{AllocError, Global};
use vs_design::{BitRange, reads, statement_reads, writes};
use vs_drivers::meets;
use vs_explain_writers::vs_explain_facts::{Facts, Part, Point};

/// How long a cycle may be to be looked at statement by statement.
const FOLLOWED: usize = 64;

/// A step of a cycle: a driver, and the signal that it reads there, which the next one drives.
#[derive(Clone, Copy)]
pub(crate) struct Hop {
    pub(crate) driver: Part,
    pub(crate) reads: usize,
}

/// The driver of a name.
pub(crate) fn driver_named(facts: &Facts, name: &[u8]) -> Option<Part> {
    for (number, assign) in facts.design.assigns().iter().enumerate() {
        if assign.name.as_slice() == name {
            return Some(Part::Assign(number));
        }
    }
    facts
        .process_named(name)
        .map(|number| Part::Process(number))
}

/// What a driver reads; a block also what it waits for.
fn read_by(alloc: Global, facts: &Facts, driver: Part) -> Result<Vec<BitRange>, AllocError> {
    let design = facts.design;
    let number = match driver {
        Part::Assign(number) => {
            return match design.assigns().get(number) {
                Some(assign) => reads(alloc, &assign.source),
                None => Ok(Vec::new(alloc)),
            };
        }
        Part::Process(number) => number,
    };
    let Some(text) = facts.texts.get(number) else {
        return Ok(Vec::new(alloc));
    };
    let mut ranges = statement_reads(alloc, &text.process.body)?;
    for term in &text.terms {
        ranges.push(term.term.range)?;
    }
    Ok(ranges)
}

/// Whether a driver writes a bit of a range.
fn writes_of(
    alloc: Global,
    facts: &Facts,
    driver: Part,
    range: &BitRange,
) -> Result<bool, AllocError> {
    let Part::Assign(number) = driver else {
        return Ok(true);
    };
    let Some(assign) = facts.design.assigns().get(number) else {
        return Ok(false);
    };
    for written in &writes(alloc, &assign.target)? {
        if meets(facts.design.signals(), *written, *range) {
            return Ok(true);
        }
    }
    Ok(false)
}

/// A walk backward from a driver, through what drives that which is read.
#[derive(Drop)]
struct Walk {
    /// For each assignment and then each process the hop from which it was come to.
    from: Vec<Option<Hop>>,
    todo: Vec<Part>,
}

/// The place of a driver among all.
fn place_of(facts: &Facts, driver: Part) -> usize {
    match driver {
        Part::Assign(number) => number,
        Part::Process(number) => facts.design.assigns().len().saturating_add(number),
    }
}

impl Walk {
    /// Comes to a driver of what another one reads.
    fn visit(&mut self, facts: &Facts, driver: Part, hop: Hop) -> Result<(), AllocError> {
        if let Some(from) = self.from.get_mut(place_of(facts, driver)) {
            if from.is_none() {
                *from = Some(hop);
                self.todo.push(driver)?;
            }
        }
        Ok(())
    }

    /// Comes to all drivers of a range that a driver reads.
    fn visit_drivers(
        &mut self,
        alloc: Global,
        facts: &Facts,
        driver: Part,
        range: &BitRange,
    ) -> Result<(), AllocError> {
        let hop = Hop {
            driver,
            reads: range.signal,
        };
        for number in facts.drivers_of(range.signal) {
            let other = Part::Assign(*number);
            if writes_of(alloc, facts, other, range)? {
                self.visit(facts, other, hop)?;
            }
        }
        if let Some(number) = facts.block_of(range.signal) {
            let other = Part::Process(number);
            if other != driver {
                self.visit(facts, other, hop)?;
            }
        }
        Ok(())
    }

    /// The hops from a driver back to it, the last one first.
    fn hops(&self, alloc: Global, facts: &Facts, start: Part) -> Result<Vec<Hop>, AllocError> {
        let mut hops = Vec::new(alloc);
        let mut driver = start;
        for _ in 0..self.from.len() {
            let Some(Some(hop)) = self.from.get(place_of(facts, driver)) else {
                break;
            };
            hops.push(*hop)?;
            driver = hop.driver;
            if driver == start {
                break;
            }
        }
        hops.reverse();
        Ok(hops)
    }
}

/// The hops of a cycle through a driver, which begins with it; none where there is no cycle.
pub(crate) fn cycle_at(alloc: Global, facts: &Facts, start: Part) -> Result<Vec<Hop>, AllocError> {
    let count = place_of(facts, Part::Process(facts.texts.len()));
    let mut walk = Walk {
        from: vec![in alloc; None; count]?,
        todo: Vec::new(alloc),
    };
    walk.todo.push(start)?;
    let mut next = 0usize;
    for _ in 0..count.saturating_add(1) {
        let Some(driver) = walk.todo.get(next).copied() else {
            break;
        };
        next = next.saturating_add(1);
        for range in &read_by(alloc, facts, driver)? {
            walk.visit_drivers(alloc, facts, driver, range)?;
        }
    }
    match walk.from.get(place_of(facts, start)) {
        Some(Some(_)) => walk.hops(alloc, facts, start),
        _ => Ok(Vec::new(alloc)),
    }
}

/// Takes out the statements behind whose parts this number is, the innermost first.
fn close(points: &[Point], number: usize, around: &mut Vec<usize>) {
    for _ in 0..around.len() {
        let is_closed = match around.last() {
            Some(last) => match points.get(*last) {
                Some(point) => point.behind <= number,
                None => true,
            },
            None => false,
        };
        if !is_closed {
            return;
        }
        let _closed = around.pop();
    }
}

/// Puts what the statements of a block that write a signal read, and what the tests read in which they stand.
fn put_needs(
    alloc: Global,
    facts: &Facts,
    block: usize,
    signal: usize,
    needs: &mut Vec<usize>,
) -> Result<(), AllocError> {
    let Some(text) = facts.texts.get(block) else {
        return Ok(());
    };
    let mut around: Vec<usize> = Vec::new(alloc);
    for (number, point) in text.points.iter().enumerate() {
        close(&text.points, number, &mut around);
        if point.writes_signal(signal) {
            for test in &around {
                if let Some(test) = text.points.get(*test) {
                    needs.extend_from_slice(&test.reads)?;
                }
            }
            needs.extend_from_slice(&point.reads)?;
        }
        if point.behind > number.saturating_add(1) {
            around.push(number)?;
        }
    }
    Ok(())
}

/// What a signal hangs on by the statements that write it alone.
fn needs_of(alloc: Global, facts: &Facts, signal: usize) -> Result<Vec<usize>, AllocError> {
    let mut needs = Vec::new(alloc);
    for number in facts.drivers_of(signal) {
        if let Some(assign) = facts.design.assigns().get(*number) {
            for range in &reads(alloc, &assign.source)? {
                needs.push(range.signal)?;
            }
        }
    }
    if let Some(block) = facts.block_of(signal) {
        put_needs(alloc, facts, block, signal, &mut needs)?;
    }
    Ok(needs)
}

/// The first signal of a list that is in the other one too.
fn first_common(needs: &[usize], signals: &[usize]) -> Option<usize> {
    for signal in signals {
        if needs.contains(signal) {
            return Some(*signal);
        }
    }
    None
}

/// Whether each signal of a cycle hangs on another one of it, statement by statement: the cycle isn't made by blocks alone that count as a whole.
pub(crate) fn is_real(alloc: Global, facts: &Facts, hops: &[Hop]) -> Result<bool, AllocError> {
    if hops.len() > FOLLOWED {
        return Ok(true);
    }
    let mut left = Vec::new(alloc);
    for hop in hops {
        if !left.contains(&hop.reads) {
            left.push(hop.reads)?;
        }
    }
    for _ in 0..hops.len() {
        let mut kept = Vec::new(alloc);
        for signal in &left {
            if first_common(&needs_of(alloc, facts, *signal)?, &left).is_some() {
                kept.push(*signal)?;
            }
        }
        if kept.len() == left.len() {
            break;
        }
        left = kept;
    }
    Ok(!left.is_empty())
}
