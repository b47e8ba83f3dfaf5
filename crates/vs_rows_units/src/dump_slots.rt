//! Slots of a run that is made by hand, and their dump.
use crate::small_design::{put, three_signals};
use std::alloc::Global;
use vs_design::vs_logic4::Vec4;
use vs_design::{Design, Store};
use vs_vcd_writing::{Sink, Writer, WriterFault};

pub static DUMP: &[u8] =
    b"$timescale 10 ps $end\n$scope module t $end\n$var reg 1 ! a $end\n$var reg 4 \" b [-1:2] $end\n$upscope $end\n$enddefinitions $end\n#0\n$dumpvars\n0!\nbx \"\n$end\n#5\n1!\n#7\nb101 \"\n#10\n";

// The time of a slot, and the signal that is written before it, with its digits.
pub type Slot = (u64, Option<(usize, Vec4)>);

// Writes these slots, and the end.
fn write_slots<S: Sink>(
    alloc: Global,
    sink: &mut S,
    mut writer: Writer,
    store: &mut Store,
    slots: &[Slot],
    end: u64,
) -> Result<(), WriterFault> {
    for (time, written) in slots {
        if let Some((signal, digits)) = written {
            put(alloc, store, *signal, *digits)?;
        }
        writer.slot(alloc, sink, *time, store)?;
    }
    writer.finish(sink, end)
}

// Writes the dump of a design with these slots, up to an end.
fn write_dump_of<S: Sink>(
    alloc: Global,
    sink: &mut S,
    design: &Design,
    slots: &[Slot],
    end: u64,
) -> Result<(), WriterFault> {
    let mut store = Store::start(alloc, design)?;
    let writer = Writer::header(alloc, sink, design)?;
    write_slots(alloc, sink, writer, &mut store, slots, end)
}

// Writes the dump of the module with these slots, up to an end.
pub fn write_dump<S: Sink>(
    alloc: Global,
    sink: &mut S,
    wide: bool,
    slots: &[Slot],
    end: u64,
) -> Result<(), WriterFault> {
    let design = three_signals(alloc, wide)?;
    write_dump_of(alloc, sink, &design, slots, end)
}

// `a` is 0 from the start and 1 from 5 on, `b` is 0101 from 7 on; at 3 nothing changes.
pub fn slots_of_a_dump() -> [Slot; 4] {
    [
        (0, Some((1, Vec4::from_number(1, 0)))),
        (3, None),
        (5, Some((1, Vec4::from_number(1, 1)))),
        (7, Some((2, Vec4::from_number(4, 5)))),
    ]
}
