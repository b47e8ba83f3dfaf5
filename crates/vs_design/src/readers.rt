//! Which continuous assignments read a signal: a table, made once.
ghost use Rattle.std.specs.Prelude.{◌≡◌, IfOk, OnOk, length};
ghost use Rattle.vs_design.specs.Tables.{rows, noted, all_noted, tabled, empty_rows};
ghost use Rattle.vs_design.specs.Uses.{reads};

use crate::design::Assign;
use crate::range::BitRange;
use crate::uses::reads;
use std::alloc::{AllocError, Global};

/// A continuous assignment that reads a range.
#[derive(Clone, Copy)]
pub struct Reader {
    /// Its number in design order.
    pub assign: usize,
    /// What it reads.
    pub range: BitRange,
}

/// Notes a reader of a signal; a signal past the end is none of the table.
fn note(table: &mut Vec<Vec<Reader>>, reader: Reader) -> Result<(), AllocError>
    ensures { OnOk result (rows table.new.items ≡ noted reader (rows table.old.items)) }
{
    if let Some(row) = table.get_mut(reader.range.signal) {
        row.push(reader)?;
    }
    Ok(())
}

/// Notes all that a continuous assignment reads.
fn note_all(
    table: &mut Vec<Vec<Reader>>,
    assign: usize,
    ranges: &[BitRange],
) -> Result<(), AllocError>
    ensures { OnOk result (rows table.new.items ≡ all_noted assign ranges.now (rows table.old.items)) }
{
    for range in ranges {
        note(
            table,
            Reader {
                assign,
                range: *range,
            },
        )?;
    }
    Ok(())
}

/// A table of as many rows, all of them empty.
pub(crate) fn empty_table<T: Drop>(alloc: Global, signals: usize) -> Result<Vec<Vec<T>>, AllocError>
    ensures { IfOk result (λ table. rows table.items ≡ empty_rows signals) }
{
    let mut table = Vec::new(alloc);
    for _ in 0..signals {
        table.push(Vec::new(alloc))?;
    }
    Ok(table)
}

/// For each of so many signals, which continuous assignments read it.
pub(crate) fn table_of(
    alloc: Global,
    assigns: &[Assign],
    signals: usize,
) -> Result<Vec<Vec<Reader>>, AllocError>
    ensures { IfOk result (λ table. rows table.items ≡ tabled 0 assigns.now (empty_rows signals)) }
{
    let mut table = empty_table(alloc, signals)?;
    for i in 0..assigns.len() {
        let ranges = reads(alloc, &assigns[i].source)?;
        note_all(&mut table, i, &ranges)?;
    }
    Ok(table)
}
