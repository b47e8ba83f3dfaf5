//! The lines of dumps.
use std::alloc::{AllocError, Global};
use std::process::Abort;
use std::test::Fail;
use vs_design::{Magnitude, ScopeKind, SignalKind, TimeUnit};
use vs_vcd_reader::vs_vcd_lines::{change_of, number_of, scope_of, span_of, time_of, variable_of};

// What a tick stands for, by a line.
fn is_span(line: &[u8], magnitude: Magnitude, unit: TimeUnit) -> bool {
    match span_of(line) {
        Some(span) => span.magnitude == magnitude && span.unit == unit,
        None => false,
    }
}

#[test]
fn lines_of_ticks(rt: HostRuntime) -> Result<(), Fail> {
    assert!(rt;
        is_span(
            b"$timescale 1 ns $end",
            Magnitude::One,
            TimeUnit::Nanosecond
        )
    );
    assert!(rt;
        is_span(
            b"$timescale 10 ps $end",
            Magnitude::Ten,
            TimeUnit::Picosecond
        )
    );
    assert!(rt;
        is_span(
            b"$timescale 100 s $end",
            Magnitude::Hundred,
            TimeUnit::Second
        )
    );
    assert!(rt; span_of(b"$timescale 1ns $end").is_none());
    assert!(rt; span_of(b"$timescale 1000 ns $end").is_none());
    assert!(rt; span_of(b"$timescale 1 ns $end ").is_none());
    Ok(())
}

// A line opens a scope of this kind and name.
fn is_scope(line: &[u8], kind: ScopeKind, name: &[u8]) -> bool {
    match scope_of(line) {
        Some((found, text)) => found == kind && text == name,
        None => false,
    }
}

#[test]
fn lines_of_scopes(rt: HostRuntime) -> Result<(), Fail> {
    assert!(rt; is_scope(b"$scope module t $end", ScopeKind::Module, b"t"));
    assert!(rt; is_scope(b"$scope begin g[0] $end", ScopeKind::Begin, b"g[0]"));
    assert!(rt;
        is_scope(
            b"$scope begin \\g+ [-12] $end",
            ScopeKind::Begin,
            b"\\g+ [-12]"
        )
    );
    assert!(rt; is_scope(b"$scope module \\u!  $end", ScopeKind::Module, b"\\u! "));
    assert!(rt; scope_of(b"$scope module g[0] $end").is_none());
    assert!(rt; scope_of(b"$scope module 1t $end").is_none());
    assert!(rt; scope_of(b"$scope module \\u! $end").is_none());
    assert!(rt; scope_of(b"$scope begin g[00] $end").is_none());
    Ok(())
}

// A line declares a variable of the code of this number, with this kind, size, name and range.
fn is_variable(
    alloc: Global,
    line: &[u8],
    number: usize,
    kind: SignalKind,
    width: u32,
    name: &[u8],
    range: Option<(i64, i64)>,
) -> Result<bool, AllocError> {
    let Some(found) = variable_of(alloc, line, number)? else {
        return Ok(false);
    };
    let same_range = match (found.range, range) {
        (Some(bounds), Some((left, right))) => bounds.left == left && bounds.right == right,
        (None, None) => true,
        _ => false,
    };
    Ok(found.kind == kind && found.width == width && found.name.as_slice() == name && same_range)
}

#[test]
fn lines_of_variables(rt: HostRuntime) -> Result<(), Fail> {
    let alloc = rt.alloc();
    assert!(rt;
        is_variable(
            alloc,
            b"$var reg 1 ! clk $end",
            0,
            SignalKind::Reg,
            1,
            b"clk",
            None
        )?
    );
    assert!(rt;
        is_variable(
            alloc,
            b"$var reg 4 \" b [-1:2] $end",
            1,
            SignalKind::Reg,
            4,
            b"b",
            Some((-1, 2))
        )?
    );
    assert!(rt;
        is_variable(
            alloc,
            b"$var wire 64 !! \\a+b  [63:0] $end",
            94,
            SignalKind::Wire,
            64,
            b"\\a+b ",
            Some((63, 0))
        )?
    );
    assert!(rt; variable_of(alloc, b"$var reg 1 ! clk $end", 1)?.is_none());
    assert!(rt; variable_of(alloc, b"$var reg 65 ! a [64:0] $end", 0)?.is_none());
    assert!(rt; variable_of(alloc, b"$var reg 01 ! a $end", 0)?.is_none());
    assert!(rt; variable_of(alloc, b"$var reg 4 ! a[3:0] $end", 0)?.is_none());
    Ok(())
}

#[test]
fn lines_of_times_and_codes(rt: HostRuntime) -> Result<(), Fail> {
    assert!(rt; time_of(b"#0") == Some(0));
    assert!(rt; time_of(b"#18446744073709551615") == Some(u64::MAX));
    assert!(rt; time_of(b"#18446744073709551616").is_none());
    assert!(rt; time_of(b"#05").is_none());
    assert!(rt; time_of(b"5").is_none());
    assert!(rt; number_of(b"~", 200) == Some(93));
    assert!(rt; number_of(b"!!", 200) == Some(94));
    assert!(rt; number_of(b"\"!", 200) == Some(95));
    assert!(rt; number_of(b"!\"", 200) == Some(188));
    assert!(rt; number_of(b"!\"", 188).is_none());
    assert!(rt; number_of(b"", 200).is_none());
    Ok(())
}

// A line changes the variable of this number to this value, which is as `Debug` writes it.
fn is_change(line: &[u8], number: usize, width: u32, value: u64, unknown: u64) -> bool {
    let widths = [1, 4, 64];
    match change_of(line, &widths) {
        Some(change) => {
            change.number == number
                && change.value.width() == width
                && change.value.value_plane() == value
                && change.value.unknown_plane() == unknown
        }
        None => false,
    }
}

#[test]
fn lines_of_changes(rt: HostRuntime) -> Result<(), Fail> {
    assert!(rt; is_change(b"1!", 0, 1, 1, 0));
    assert!(rt; is_change(b"x!", 0, 1, 1, 1));
    assert!(rt; is_change(b"b0 \"", 1, 4, 0, 0));
    assert!(rt; is_change(b"bx \"", 1, 4, 15, 15));
    assert!(rt; is_change(b"b0zz \"", 1, 4, 0, 3));
    assert!(rt; is_change(b"b1x01 \"", 1, 4, 13, 4));
    assert!(rt; is_change(b"bz #", 2, 64, 0, u64::MAX));
    assert!(rt; change_of(b"b00 \"", &[1, 4]).is_none());
    assert!(rt; change_of(b"b11111 \"", &[1, 4]).is_none());
    assert!(rt; change_of(b"1\"", &[1, 4]).is_none());
    assert!(rt; change_of(b"b1 !", &[1, 4]).is_none());
    assert!(rt; change_of(b"1#", &[1, 4]).is_none());
    Ok(())
}
