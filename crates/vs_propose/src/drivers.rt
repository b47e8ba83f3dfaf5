//! An order in which drivers settle.

use crate::vs_drivers::share;
use crate::vs_graph::sorted;
use crate::{TextFacts, TextKind};
use std::alloc::{AllocError, Global};
use vs_design::{Assign, BitRange, Design, SignalKind, Statement, event_terms, reads, writes};
use vs_drivers::vs_maps::text_reads;
use vs_process::statement_writes;

// A range that a driver writes.
#[derive(Clone, Copy)]
struct Written {
    driver: usize,
    range: BitRange,
}

// Whether a signal is a net.
fn is_net(design: &Design, v: usize) -> bool {
    match design.signals().get(v) {
        None => false,
        Some(signal) => match signal.kind {
            SignalKind::Wire => true,
            SignalKind::Reg | SignalKind::Integer => false,
        },
    }
}

// Every bit of a signal.
fn all_of(signal: usize) -> BitRange {
    BitRange {
        signal,
        word: None,
        bits: None,
    }
}

// Notes a range that a driver writes, where it has bits of the design. A variable counts whole, once for each driver.
fn note(
    design: &Design,
    table: &mut Vec<Vec<Written>>,
    driver: usize,
    range: BitRange,
) -> Result<(), AllocError> {
    let is_net = is_net(design, range.signal);
    let Some(row) = table.get_mut(range.signal) else {
        return Ok(());
    };
    if is_net {
        if share(design, range, range) {
            row.push(Written { driver, range })?;
        }
        return Ok(());
    }
    let is_there = match row.last() {
        None => false,
        Some(last) => last.driver == driver,
    };
    if !is_there {
        row.push(Written {
            driver,
            range: all_of(range.signal),
        })?;
    }
    Ok(())
}

// A driver: a continuous assignment, or the text of a combinational block.
#[derive(Clone, Copy)]
enum Driver<'a> {
    Assign(&'a Assign),
    Block(&'a Statement),
}

// The driver of a number: those of continuous assignments come first, then those of processes.
fn driver_at<'a>(design: &'a Design, texts: &[TextFacts], driver: usize) -> Option<Driver<'a>> {
    let assigns = design.assigns();
    if driver < assigns.len() {
        return Some(Driver::Assign(&assigns[driver]));
    }
    let i = driver - assigns.len();
    let process = design.processes().get(i)?;
    if is_block(texts, i) {
        Some(Driver::Block(&process.body))
    } else {
        None
    }
}

// What a driver writes, where there is one.
fn written_by(alloc: Global, driver: Option<Driver>) -> Result<Vec<BitRange>, AllocError> {
    match driver {
        None => Ok(Vec::new(alloc)),
        Some(Driver::Assign(assign)) => writes(alloc, &assign.target),
        Some(Driver::Block(body)) => statement_writes(alloc, body),
    }
}

/// What a driver needs of others.
#[derive(Clone, Copy, PartialEq, Eq)]
pub(crate) enum Needs {
    /// What it reads.
    Reads,
    /// What it reads, and what its control names.
    ReadsAndWaits,
}

// What a combinational block needs.
fn needed_by_block(
    alloc: Global,
    body: &Statement,
    needs: Needs,
) -> Result<Vec<BitRange>, AllocError> {
    let mut needed = text_reads(alloc, body)?;
    if needs == Needs::ReadsAndWaits {
        for term in event_terms(alloc, body)? {
            needed.push(term.range)?;
        }
    }
    Ok(needed)
}

// What a driver needs, where there is one.
fn needed_by(
    alloc: Global,
    driver: Option<Driver>,
    needs: Needs,
) -> Result<Vec<BitRange>, AllocError> {
    match driver {
        None => Ok(Vec::new(alloc)),
        Some(Driver::Assign(assign)) => reads(alloc, &assign.source),
        Some(Driver::Block(body)) => needed_by_block(alloc, body, needs),
    }
}

// Whether a process is a combinational block.
fn is_block(texts: &[TextFacts], i: usize) -> bool {
    match texts.get(i) {
        None => false,
        Some(text) => text.kind == TextKind::Block,
    }
}

// How many drivers there are at most.
fn count_of(design: &Design) -> usize {
    design
        .assigns()
        .len()
        .saturating_add(design.processes().len())
}

// For each signal what drivers write of it.
fn table_of(
    alloc: Global,
    design: &Design,
    texts: &[TextFacts],
) -> Result<Vec<Vec<Written>>, AllocError> {
    let mut table = Vec::new(alloc);
    for _ in 0..design.signals().len() {
        table.push(Vec::new(alloc))?;
    }
    for driver in 0..count_of(design) {
        for range in written_by(alloc, driver_at(design, texts, driver))? {
            note(design, &mut table, driver, range)?;
        }
    }
    Ok(table)
}

// Puts the drivers, but for the reader itself where it is a block, that write a bit which a range has.
fn put_needed(
    design: &Design,
    row: &[Written],
    reader: usize,
    range: BitRange,
    out: &mut Vec<usize>,
) -> Result<(), AllocError> {
    for written in row {
        let is_self = written.driver == reader && reader >= design.assigns().len();
        if !is_self && share(design, range, written.range) {
            out.push(written.driver)?;
        }
    }
    Ok(())
}

/// For each driver those that write a bit which it needs.
pub(crate) fn drivers_needed(
    alloc: Global,
    design: &Design,
    texts: &[TextFacts],
    needs: Needs,
) -> Result<Vec<Vec<usize>>, AllocError> {
    let table = table_of(alloc, design, texts)?;
    let mut rows = Vec::new(alloc);
    for driver in 0..count_of(design) {
        let mut row = Vec::new(alloc);
        for range in needed_by(alloc, driver_at(design, texts, driver), needs)? {
            if let Some(written) = table.get(range.signal) {
                put_needed(design, written, driver, range, &mut row)?;
            }
        }
        rows.push(row)?;
    }
    Ok(rows)
}

// Puts a driver at the end of an order, where it doesn't stand there.
fn put_once(
    design: &Design,
    texts: &[TextFacts],
    order: &mut Vec<usize>,
    marks: &mut Vec<bool>,
    driver: usize,
) -> Result<(), AllocError> {
    if driver >= marks.len() || marks[driver] || driver_at(design, texts, driver).is_none() {
        return Ok(());
    }
    order.push(driver)?;
    marks[driver] = true;
    Ok(())
}

/// The drivers of a design, each after those that it needs; those that can't be ordered so come last.
pub(crate) fn driver_order(
    alloc: Global,
    design: &Design,
    texts: &[TextFacts],
    needed: &[Vec<usize>],
) -> Result<Vec<usize>, AllocError> {
    let placed = sorted(alloc, needed)?;
    let mut marks = vec![in alloc; false; needed.len()]?;
    let mut order = Vec::new(alloc);
    for driver in &placed {
        put_once(design, texts, &mut order, &mut marks, *driver)?;
    }
    for driver in 0..needed.len() {
        put_once(design, texts, &mut order, &mut marks, driver)?;
    }
    Ok(order)
}
