//! Texts of dumps.
use crate::dump_slots::{DUMP, Slot, slots_of_a_dump, write_dump};
use std::alloc::Global;
use std::process::Abort;
use std::test::Fail;
use vs_design::vs_logic4::Vec4;
use vs_vcd_writing::{Counted, Sink, WriterFault, shows_values_at_slot_ends};

// The dump of the module with these slots, up to an end.
fn dump_of(alloc: Global, wide: bool, slots: &[Slot], end: u64) -> Result<Vec<u8>, WriterFault> {
    let mut sink = Counted::new(Vec::new(alloc));
    write_dump(alloc, &mut sink, wide, slots, end)?;
    if sink.failures() > 0 {
        return Err(WriterFault::Write);
    }
    Ok(sink.into_inner())
}

// The dump of the module with these slots, up to an end, has one text and then another.
fn is_dumped(
    rt: &impl Abort,
    alloc: Global,
    wide: bool,
    slots: &[Slot],
    end: u64,
    before: &[u8],
    rest: &[u8],
) -> Result<(), WriterFault> {
    let dump = dump_of(alloc, wide, slots, end)?;
    assert!(rt; dump.strip_prefix(before) == Some(rest));
    Ok(())
}

// What the dump has before its first slot, where `b` has four digits and where it has 64.
static HEADER: &[u8] =
    b"$timescale 10 ps $end\n$scope module t $end\n$var reg 1 ! a $end\n$var reg 4 \" b [-1:2] $end\n$upscope $end\n$enddefinitions $end\n";

static WIDE_HEADER: &[u8] =
    b"$timescale 10 ps $end\n$scope module t $end\n$var reg 1 ! a $end\n$var reg 64 \" b [63:0] $end\n$upscope $end\n$enddefinitions $end\n";

#[test]
fn whole_dumps(rt: HostRuntime) -> Result<(), Fail> {
    shows_values_at_slot_ends();
    assert!(rt; DUMP.len() == 171);
    is_dumped(&rt, rt.alloc(), false, &slots_of_a_dump(), 10, DUMP, b"")?;
    is_dumped(&rt, rt.alloc(), false, &[], 7, HEADER, b"#7\n")?;
    Ok(())
}

// Whether `b` has 64 digits, not four, the planes of its values and of its unknown digits, in which x is in both and z in the second alone, and what
// the dump says behind the header: left digits are dropped.
type PlanesRow = (bool, u64, u64, &'static [u8]);

static ROWS: [PlanesRow; 17] = [
    (
        false,
        0b0111,
        0b0110,
        b"#3\n$dumpvars\nx!\nb0xx1 \"\n$end\n",
    ),
    (false, 0b1101, 0b1100, b"#3\n$dumpvars\nx!\nbx01 \"\n$end\n"),
    (false, 0b1111, 0b1111, b"#3\n$dumpvars\nx!\nbx \"\n$end\n"),
    (false, 0b0000, 0b0000, b"#3\n$dumpvars\nx!\nb0 \"\n$end\n"),
    (false, 0b0000, 0b0011, b"#3\n$dumpvars\nx!\nb0zz \"\n$end\n"),
    (false, 0b0100, 0b0000, b"#3\n$dumpvars\nx!\nb100 \"\n$end\n"),
    (
        false,
        0b1111,
        0b0000,
        b"#3\n$dumpvars\nx!\nb1111 \"\n$end\n",
    ),
    (
        true,
        u64::MAX,
        u64::MAX,
        b"#0\n$dumpvars\nx!\nbx \"\n$end\n",
    ),
    (
        true,
        u64::MAX,
        0,
        b"#0\n$dumpvars\nx!\nb1111111111111111111111111111111111111111111111111111111111111111 \"\n$end\n",
    ),
    (true, 0, 0, b"#0\n$dumpvars\nx!\nb0 \"\n$end\n"),
    (true, 0, u64::MAX, b"#0\n$dumpvars\nx!\nbz \"\n$end\n"),
    (
        true,
        0x8000000000000003,
        0x0000000100000002,
        b"#0\n$dumpvars\nx!\nb1000000000000000000000000000000z000000000000000000000000000000x1 \"\n$end\n",
    ),
    (
        true,
        0x0000015555555555,
        0x0000010000000000,
        b"#0\n$dumpvars\nx!\nb0x0101010101010101010101010101010101010101 \"\n$end\n",
    ),
    (
        true,
        0xffaaaaaaaaaaaaaa,
        0xff95555555555555,
        b"#0\n$dumpvars\nx!\nbx01z1z1z1z1z1z1z1z1z1z1z1z1z1z1z1z1z1z1z1z1z1z1z1z1z1z1z \"\n$end\n",
    ),
    (
        true,
        0x0000000000800000,
        0xffffffffff000000,
        b"#0\n$dumpvars\nx!\nbz100000000000000000000000 \"\n$end\n",
    ),
    (true, 1, 0, b"#0\n$dumpvars\nx!\nb1 \"\n$end\n"),
    (
        true,
        0,
        0x0000000180000000,
        b"#0\n$dumpvars\nx!\nb0zz0000000000000000000000000000000 \"\n$end\n",
    ),
];

// The dump of one slot, at 0 where `b` is wide and else at 3, in which `b` has the digits of two planes.
fn is_shown(rt: &impl Abort, alloc: Global, row: &PlanesRow) -> Result<(), WriterFault> {
    let &(wide, value, unknown, text) = row;
    let (width, time, header) = if wide {
        (64, 0, WIDE_HEADER)
    } else {
        (4, 3, HEADER)
    };
    let slots = [(time, Some((2, Vec4::from_planes(width, value, unknown))))];
    is_dumped(rt, alloc, wide, &slots, time, header, text)
}

#[test]
fn digits(rt: HostRuntime) -> Result<(), Fail> {
    for row in &ROWS {
        is_shown(&rt, rt.alloc(), row)?;
    }
    Ok(())
}
