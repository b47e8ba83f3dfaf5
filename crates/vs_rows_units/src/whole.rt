//! Whole dumps.
use std::alloc::{AllocError, Global};
use std::test::Fail;
use vs_vcd_reader::{Moment, VcdFault, read};

const HEADER_2: &[u8] =
    b"$timescale 1 ns $end\n$scope module t $end\n$var reg 1 ! a $end\n$upscope $end\n$enddefinitions $end\n";

const HEADER_4: &[u8] =
    b"$timescale 1 ns $end\n$scope module t $end\n$var reg 4 ! a [3:0] $end\n$upscope $end\n$enddefinitions $end\n";

const DUMP_2: &[u8] =
    b"$timescale 1 ns $end\n$scope module t $end\n$var reg 1 ! a $end\n$upscope $end\n$enddefinitions $end\n#0\n$dumpvars\n0!\n$end\n#5\n1!\n#10\n";

const DUMP_3: &[u8] =
    b"$timescale 1 ns $end\n$scope module t $end\n$var reg 1 ! clk $end\n$var reg 1 \" a $end\n$var reg 1 # b $end\n$upscope $end\n$enddefinitions $end\n#0\n$dumpvars\n0!\n0\"\n1#\n$end\n#5\n1!\n1\"\n0#\n#10\n0!\n#15\n1!\n0\"\n1#\n#20\n0!\n";

const DUMP_10: &[u8] =
    b"$timescale 1 ns $end\n$scope module t $end\n$var reg 8 ! a [7:0] $end\n$var reg 8 \" b [7:0] $end\n$var reg 1 # ci $end\n$var wire 9 $ c [8:0] $end\n$var wire 8 % s [7:0] $end\n$scope begin g[0] $end\n$upscope $end\n$scope begin g[1] $end\n$upscope $end\n$upscope $end\n$enddefinitions $end\n#0\n$dumpvars\nb11001000 !\nb1100100 \"\n1#\nb110000001 $\nb101101 %\n$end\n";

const DUMP_NAMES: &[u8] =
    b"$timescale 100 fs $end\n$scope module \\u!  $end\n$var wire 4 ! \\a+b  [-1:2] $end\n$var integer 32 \" i [31:0] $end\n$scope begin \\g+ [-12] $end\n$var wire 64 # w [63:0] $end\n$scope module u1 $end\n$upscope $end\n$upscope $end\n$upscope $end\n$enddefinitions $end\n#0\n$dumpvars\nb0zz !\nbx \"\nbz #\n$end\n#18446744073709551615\nb1x01 !\n";

// The fault that is told of a text; none where it is a dump.
fn fault_of(alloc: Global, text: &[u8]) -> Option<VcdFault> {
    match read(alloc, text) {
        Ok(_) => None,
        Err(fault) => Some(fault),
    }
}

// The fault that is told of a header and a body.
fn fault_of_body(
    alloc: Global,
    header: &[u8],
    body: &[u8],
) -> Result<Option<VcdFault>, AllocError> {
    let mut text = Vec::from_slice(alloc, header)?;
    text.extend_from_slice(body)?;
    Ok(fault_of(alloc, &text))
}

// A moment has a time and changes, each of a number and a bit.
fn is_moment(moment: &Moment, time: u64, bits: &[(usize, u64)]) -> bool {
    moment.time == time
        && moment.changes.len() == bits.len()
        && moment.changes.iter().zip(bits).all(|(change, bit)| {
            change.number == bit.0
                && change.value.width() == 1
                && change.value.value_plane() == bit.1
                && change.value.unknown_plane() == 0
        })
}

#[test]
fn values_at_times(rt: HostRuntime) -> Result<(), Fail> {
    let Ok(dump) = read(rt.alloc(), DUMP_3) else {
        return Err(Fail::new("the dump is refused"));
    };
    let [first, second, third, fourth, fifth] = dump.moments.as_slice() else {
        return Err(Fail::new("the dump has other times"));
    };
    assert!(rt; dump.declarations.len() == 5);
    assert!(rt; is_moment(first, 0, &[(0, 0), (1, 0), (2, 1)]));
    assert!(rt; is_moment(second, 5, &[(0, 1), (1, 1), (2, 0)]));
    assert!(rt; is_moment(third, 10, &[(0, 0)]));
    assert!(rt; is_moment(fourth, 15, &[(0, 1), (1, 0), (2, 1)]));
    assert!(rt; is_moment(fifth, 20, &[(0, 0)]));
    Ok(())
}

#[test]
fn whole_texts(rt: HostRuntime) -> Result<(), Fail> {
    let alloc = rt.alloc();
    assert!(rt; fault_of(alloc, DUMP_2).is_none());
    assert!(rt; fault_of(alloc, DUMP_3).is_none());
    assert!(rt; fault_of(alloc, DUMP_10).is_none());
    assert!(rt; fault_of(alloc, DUMP_NAMES).is_none());
    assert!(rt; fault_of_body(alloc, HEADER_2, b"#0\n$dumpvars\n0!\n$end\n")?.is_none());
    assert!(rt; fault_of_body(alloc, HEADER_2, b"#0\n$dumpvars\n0!\n$end\n#5\n")?.is_none());
    assert!(rt; fault_of_body(alloc, HEADER_2, b"#0\n$dumpvars\n0!\n$end\n#5\n1!\n")?.is_none());
    Ok(())
}

#[test]
fn faults(rt: HostRuntime) -> Result<(), Fail> {
    let alloc = rt.alloc();
    assert!(rt;
        fault_of(alloc, b"$scope module t $end\n$upscope $end\n") == Some(VcdFault::Header)
    );
    assert!(rt; fault_of(alloc, HEADER_2) == Some(VcdFault::Cut));
    assert!(rt; fault_of(alloc, b"") == Some(VcdFault::Cut));
    assert!(rt; fault_of_body(alloc, HEADER_2, b"#0\n$dumpvars\n")? == Some(VcdFault::Cut));
    assert!(rt;
        fault_of_body(alloc, HEADER_2, b"#0\n$dumpvars\n0!\n$end\n#5\n1\"\n#10\n")?
            == Some(VcdFault::Code)
    );
    assert!(rt;
        fault_of_body(alloc, HEADER_2, b"#0\n$dumpvars\n0!\n$end\n#5\n1!\n#5\n")?
            == Some(VcdFault::Time)
    );
    assert!(rt;
        fault_of_body(alloc, HEADER_2, b"#0\n$dumpvars\n0!\n$end\n#5\n#10\n")?
            == Some(VcdFault::Time)
    );
    assert!(rt;
        fault_of_body(alloc, HEADER_2, b"#0\n$dumpvars\n0!\n$end\n#5\n0!\n")?
            == Some(VcdFault::Line)
    );
    assert!(rt; fault_of_body(alloc, HEADER_2, b"#0\n$dumpvars\n$end\n")? == Some(VcdFault::Line));
    assert!(rt;
        fault_of_body(alloc, HEADER_2, b"#0\n$dumpvars\nb1 !\n$end\n")? == Some(VcdFault::Line)
    );
    assert!(rt; fault_of_body(alloc, HEADER_2, b"#1\n")? == Some(VcdFault::Time));
    Ok(())
}

// The fault of a text with a body of one variable, which is 0 at 0, and more after it.
fn fault_after(alloc: Global, more: &[u8]) -> Result<Option<VcdFault>, AllocError> {
    let mut body = Vec::from_slice(alloc, b"#0\n$dumpvars\n0!\n$end\n")?;
    body.extend_from_slice(more)?;
    fault_of_body(alloc, HEADER_2, &body)
}

#[test]
fn last_lines_of_headers(rt: HostRuntime) -> Result<(), Fail> {
    let alloc = rt.alloc();
    assert!(rt; fault_of(alloc, b"$timescale 1") == Some(VcdFault::Cut));
    assert!(rt; fault_of(alloc, b"$timescale 10 n") == Some(VcdFault::Cut));
    assert!(rt; fault_of(alloc, b"$timescale 10 ns $end") == Some(VcdFault::Cut));
    assert!(rt; fault_of(alloc, b"$timescale 1000") == Some(VcdFault::Header));
    assert!(rt; fault_of(alloc, b"$timescale 1 x") == Some(VcdFault::Header));
    assert!(rt; fault_of(alloc, b"$timescale 1 ns $end\n$scope b") == Some(VcdFault::Header));
    assert!(rt; fault_of(alloc, b"$timescale 1 ns $end\n$scope module \\a") == Some(VcdFault::Cut));
    assert!(rt;
        fault_of(
            alloc,
            b"$timescale 1 ns $end\n$scope module t $end\n$scope begin g[-"
        ) == Some(VcdFault::Cut)
    );
    assert!(rt;
        fault_of(
            alloc,
            b"$timescale 1 ns $end\n$scope module t $end\n$scope begin g[0"
        ) == Some(VcdFault::Cut)
    );
    assert!(rt;
        fault_of(
            alloc,
            b"$timescale 1 ns $end\n$scope module t $end\n$scope begin g[00"
        ) == Some(VcdFault::Header)
    );
    assert!(rt;
        fault_of(
            alloc,
            b"$timescale 1 ns $end\n$scope module t $end\n$var reg 6"
        ) == Some(VcdFault::Cut)
    );
    assert!(rt;
        fault_of(
            alloc,
            b"$timescale 1 ns $end\n$scope module t $end\n$var reg 65"
        ) == Some(VcdFault::Header)
    );
    assert!(rt;
        fault_of(
            alloc,
            b"$timescale 1 ns $end\n$scope module t $end\n$var reg 4 ! a [3:"
        ) == Some(VcdFault::Cut)
    );
    assert!(rt;
        fault_of(
            alloc,
            b"$timescale 1 ns $end\n$scope module t $end\n$var reg 4 \""
        ) == Some(VcdFault::Header)
    );
    assert!(rt;
        fault_of(
            alloc,
            b"$timescale 1 ns $end\n$scope module t $end\n$upscope $end\n$var"
        ) == Some(VcdFault::Header)
    );
    Ok(())
}

#[test]
fn last_lines_of_bodies(rt: HostRuntime) -> Result<(), Fail> {
    let alloc = rt.alloc();
    assert!(rt; fault_of_body(alloc, HEADER_2, b"#")? == Some(VcdFault::Cut));
    assert!(rt; fault_of_body(alloc, HEADER_2, b"#1")? == Some(VcdFault::Time));
    assert!(rt; fault_of_body(alloc, HEADER_2, b"#0\n$dump")? == Some(VcdFault::Cut));
    assert!(rt; fault_of_body(alloc, HEADER_2, b"#0\n$dumpvars\n0")? == Some(VcdFault::Cut));
    assert!(rt; fault_of_body(alloc, HEADER_2, b"#0\n$dumpvars\nb")? == Some(VcdFault::Line));
    assert!(rt; fault_of_body(alloc, HEADER_2, b"#0\n$dumpvars\n0!\n$e")? == Some(VcdFault::Cut));
    assert!(rt; fault_after(alloc, b"#5\n1")? == Some(VcdFault::Cut));
    assert!(rt; fault_after(alloc, b"#5\n0")? == Some(VcdFault::Line));
    assert!(rt; fault_after(alloc, b"#5\n1\"")? == Some(VcdFault::Code));
    assert!(rt; fault_after(alloc, b"#5\n#")? == Some(VcdFault::Time));
    assert!(rt; fault_after(alloc, b"#5\n1!\n1")? == Some(VcdFault::Line));
    assert!(rt; fault_after(alloc, b"#0")? == Some(VcdFault::Time));
    assert!(rt; fault_after(alloc, b"#10\n1!\n#1")? == Some(VcdFault::Cut));
    assert!(rt; fault_after(alloc, b"#18446744073709551614\n1!\n#1")? == Some(VcdFault::Cut));
    assert!(rt; fault_after(alloc, b"#18446744073709551614\n1!\n#2")? == Some(VcdFault::Time));
    assert!(rt; fault_after(alloc, b"#18446744073709551615\n1!\n#")? == Some(VcdFault::Time));
    Ok(())
}

// The fault of a text with a body of one variable of four bits, which is 0101 at 0, and more after its time 5.
fn fault_at_5(alloc: Global, more: &[u8]) -> Result<Option<VcdFault>, AllocError> {
    let mut body = Vec::from_slice(alloc, b"#0\n$dumpvars\nb101 !\n$end\n#5\n")?;
    body.extend_from_slice(more)?;
    fault_of_body(alloc, HEADER_4, &body)
}

#[test]
fn last_lines_of_wide_values(rt: HostRuntime) -> Result<(), Fail> {
    let alloc = rt.alloc();
    assert!(rt; fault_of_body(alloc, HEADER_4, b"#0\n$dumpvars\nb")? == Some(VcdFault::Cut));
    assert!(rt; fault_of_body(alloc, HEADER_4, b"#0\n$dumpvars\nb101 ")? == Some(VcdFault::Cut));
    assert!(rt; fault_of_body(alloc, HEADER_4, b"#0\n$dumpvars\n1")? == Some(VcdFault::Line));
    assert!(rt; fault_at_5(alloc, b"b101")? == Some(VcdFault::Cut));
    assert!(rt; fault_at_5(alloc, b"b101 ")? == Some(VcdFault::Line));
    assert!(rt; fault_at_5(alloc, b"b110 ")? == Some(VcdFault::Cut));
    assert!(rt; fault_at_5(alloc, b"b110 !")? == Some(VcdFault::Cut));
    assert!(rt; fault_at_5(alloc, b"b110 !!")? == Some(VcdFault::Code));
    assert!(rt; fault_at_5(alloc, b"b1x0z")? == Some(VcdFault::Cut));
    assert!(rt; fault_at_5(alloc, b"b10101")? == Some(VcdFault::Line));
    assert!(rt; fault_at_5(alloc, b"b00")? == Some(VcdFault::Line));
    Ok(())
}
