//! Whole dumps.
ghost use Rattle.std.specs.Prelude.{◌≡◌, IfOk, IfErr};
ghost use Rattle.vs_vcd_reader.specs.Faults.{IsFault};
ghost use Rattle.vs_vcd_reader.specs.Layout.{values_of, IsDump};

use crate::dump::{Dump, Moment};
use crate::fault::VcdFault;
use crate::first::read_first;
use crate::header::{read_header, read_tick};
use crate::later::read_later;
use std::alloc::{AllocError, Global};
use vs_design::vs_logic4::Vec4;
use vs_vcd_lines::ValueChange;

/// The values of changes, in their order.
fn values_in(alloc: Global, changes: &[ValueChange]) -> Result<Vec<Vec4>, AllocError>
    ensures { IfOk result (λ values. values.items ≡ values_of changes.now) }
{
    changes.iter().map(|change| change.value).collect(alloc)
}

/// What a value change dump of the layout in `docs/vcd.md` says, or why a text is none. It takes time linear in the text, and memory for what it
/// says alone.
///
/// The fault is V5 where some text of the layout begins so; else it is that of the first line, ended or the last, that no such text has there.
pub fn read(alloc: Global, text: &[u8]) -> Result<Dump, VcdFault>
    ensures dump { IfOk result (λ x. IsDump text.now x) }
    ensures fault { IfErr result (λ fault. IsFault text.now fault) }
{
    let (tick, after_tick) = read_tick(text)?;
    let (header, after_header) = read_header(alloc, after_tick)?;
    let (changes, rest) = read_first(alloc, after_header, &header.widths)?;
    let values = values_in(alloc, &changes)?;
    let mut moments = Vec::new(alloc);
    moments.push(Moment { time: 0, changes })?;
    read_later(alloc, rest, &header.widths, values, &mut moments)?;
    Ok(Dump {
        tick,
        declarations: header.declarations,
        moments,
    })
}
