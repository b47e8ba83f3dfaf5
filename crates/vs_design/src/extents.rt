//! Where the words of each signal are in the planes of a store: a table, made once.
ghost use Rattle.std.specs.Prelude.{IfOk};
ghost use Rattle.vs_design.specs.Tables.{AreExtents};

use crate::extent::Layout;
use crate::signal::Signal;
use std::alloc::{AllocError, Global};

/// For each signal where its words are: those of one behind those of another. No memory holds more words than 64 bits count.
pub(crate) fn table_of(alloc: Global, signals: &[Signal]) -> Result<Vec<Layout>, AllocError>
    ensures { IfOk result (λ extents. AreExtents signals.now extents.items) }
{
    let mut extents = Vec::with_capacity(alloc, signals.len())?;
    let mut first: usize = 0;
    for signal in signals {
        let Some(next) = first.checked_add(signal.count as usize) else {
            return Err(AllocError);
        };
        extents.push(Layout {
            first,
            count: signal.count,
            width: signal.width,
        })?;
        first = next;
    }
    Ok(extents)
}
