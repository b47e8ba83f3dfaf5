//! For each signal, which drivers write it: a table, made once.
ghost use Rattle.std.specs.Prelude.{◌≡◌, IfOk, OnOk};
ghost use Rattle.vs_drivers.specs.Walks.{all_noted, AreWriters};

use crate::wires::Wires;
use std::alloc::{AllocError, Global};
use vs_design::BitRange;
use vs_maps::vs_graph::Rows;

/// A range that a driver writes.
#[derive(Clone, Copy)]
pub struct Written {
    /// The driver's number: the continuous assignments come first, then the processes.
    pub driver: usize,
    /// What it writes.
    pub range: BitRange,
}

// Notes all that a driver writes; ranges of signals past the end are none of the table.
fn note_all(table: &mut Rows<Written>, driver: usize, ranges: &[BitRange]) -> Result<(), AllocError>
    ensures { OnOk result (table.new ≡ all_noted driver ranges.now table.old) }
{
    for range in ranges {
        let written = Written {
            driver,
            range: *range,
        };
        table.put(range.signal, written)?;
    }
    Ok(())
}

/// For each signal of a design the ranges of it that drivers write, each range of a driver once.
pub(crate) fn writers_of(alloc: Global, wires: &Wires) -> Result<Rows<Written>, AllocError>
    ensures { IfOk result (λ table. AreWriters wires.now table) }
{
    let mut table = Rows::empty(alloc, wires.design.signals().len())?;
    for n in 0..wires.count() {
        let ranges = wires.written_once(alloc, n)?;
        note_all(&mut table, n, &ranges)?;
    }
    Ok(table)
}
