//! Which signals have an identifier code, and which number it has.
ghost use Rattle.std.specs.Prelude.{◌≡◌, IfOk, Some};
ghost use Rattle.vs_vcd_writing.specs.CodeTables.{code_table};

use std::alloc::{AllocError, Global};
use vs_design::Signal;

/// Of each signal the number of its code, where it has one.
pub(crate) fn code_numbers(
    alloc: Global,
    signals: &[Signal],
) -> Result<Vec<Option<usize>>, AllocError>
    ensures { IfOk result (λ table. table.items ≡ code_table 0 signals.now) }
{
    let mut table = Vec::new(alloc);
    let mut next: usize = 0;
    for i in 0..signals.len() {
        if signals[i].words.is_some() {
            table.push(None)?;
        } else {
            table.push(Some(next))?;
            next += 1;
        }
    }
    Ok(table)
}
