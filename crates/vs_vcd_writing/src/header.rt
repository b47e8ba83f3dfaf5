//! The header: the time scale, scopes and signals.
ghost use Rattle.std.specs.Prelude.{◌≡◌, ◌++◌, ◌∷◌, [], IfOk, OnOk, Some, codes, slice_get};
ghost use Rattle.std.specs.Option.{option_flatten};
ghost use Rattle.vs_vcd_writing.specs.CodeTables.{code_table};
ghost use Rattle.vs_vcd_writing.specs.Text.{text_of, magnitude_word, unit_word, precision, scope_word, kind_word};
ghost use Rattle.vs_vcd_writing.specs.Text.{scope_line, range_text, shape_text};
ghost use Rattle.vs_vcd_writing.specs.Text.{declaration, declared, entry_lines, outline_lines, vcd_header};

use crate::texts::push_texts;
use crate::value::push_code;
use itoa::Buffer;
use std::alloc::{AllocError, Global};
use vs_design::{Bounds, Design, Entry, Magnitude, ScopeKind, Signal, SignalKind, TimeUnit};

/// How many of a unit.
fn magnitude_text(magnitude: Magnitude) -> &'static [u8]
    ensures { result.now ≡ magnitude_word magnitude }
{
    match magnitude {
        Magnitude::One => b"1",
        Magnitude::Ten => b"10",
        Magnitude::Hundred => b"100",
    }
}

/// The word for a unit of time.
fn unit_text(unit: TimeUnit) -> &'static [u8]
    ensures { result.now ≡ unit_word unit }
{
    match unit {
        TimeUnit::Second => b"s",
        TimeUnit::Millisecond => b"ms",
        TimeUnit::Microsecond => b"us",
        TimeUnit::Nanosecond => b"ns",
        TimeUnit::Picosecond => b"ps",
        TimeUnit::Femtosecond => b"fs",
    }
}

/// Appends the line of the time that a tick stands for.
fn push_tick(text: &mut Vec<u8>, design: &Design) -> Result<(), AllocError>
    ensures { OnOk result (text.new.items ≡ text.old.items
        ++ text_of ((codes "$timescale " ++ precision design.now ++ codes " $end") ∷ [])) }
{
    let span = design.timescale().precision;
    let (magnitude, unit) = (magnitude_text(span.magnitude), unit_text(span.unit));
    push_texts(text, &[b"$timescale ", magnitude, b" ", unit, b" $end\n"])
}

/// The word for a scope's kind.
fn scope_text(kind: ScopeKind) -> &'static [u8]
    ensures { result.now ≡ scope_word kind }
{
    match kind {
        ScopeKind::Module => b"module",
        ScopeKind::Begin => b"begin",
    }
}

/// The word for a signal's kind.
fn kind_text(kind: SignalKind) -> &'static [u8]
    ensures { result.now ≡ kind_word kind }
{
    match kind {
        SignalKind::Wire => b"wire",
        SignalKind::Reg => b"reg",
        SignalKind::Integer => b"integer",
    }
}

/// Appends the line that opens a scope.
fn push_scope(text: &mut Vec<u8>, kind: ScopeKind, name: &[u8]) -> Result<(), AllocError>
    ensures { OnOk result (text.new.items ≡ text.old.items ++ text_of (scope_line kind name.now ∷ [])) }
{
    push_texts(text, &[b"$scope ", scope_text(kind), b" "])?;
    text.extend_from_slice(name)?;
    text.extend_from_slice(b" $end\n")?;
    Ok(())
}

/// Appends the range of a signal's bits.
fn push_range(text: &mut Vec<u8>, range: Option<Bounds>) -> Result<(), AllocError>
    ensures { OnOk result (text.new.items ≡ text.old.items ++ range_text range) }
{
    let Some(bounds) = range else {
        return Ok(());
    };
    let (mut left, mut right) = (Buffer::new(), Buffer::new());
    let first = left.format(bounds.left).as_bytes();
    let last = right.format(bounds.right).as_bytes();
    push_texts(text, &[b" [", first, b":", last, b"]"])
}

/// Appends what stands before the code in the declaration of a signal: its kind and its size.
fn push_shape(text: &mut Vec<u8>, signal: &Signal) -> Result<(), AllocError>
    ensures { OnOk result (text.new.items ≡ text.old.items ++ codes "$var " ++ shape_text signal.now ++ codes " ") }
{
    let mut buffer = Buffer::new();
    let width = buffer.format(signal.width).as_bytes();
    push_texts(text, &[b"$var ", kind_text(signal.kind), b" ", width, b" "])
}

/// Appends what stands behind the code in the declaration of a signal: its name and its range.
fn push_name(text: &mut Vec<u8>, signal: &Signal) -> Result<(), AllocError>
    ensures { OnOk result (text.new.items ≡ text.old.items
        ++ codes " " ++ signal.now.name.items ++ range_text signal.now.range ++ codes " $end\n") }
{
    push_texts(text, &[b" ", &signal.name])?;
    push_range(text, signal.range)?;
    text.extend_from_slice(b" $end\n")?;
    Ok(())
}

/// Appends the declaration of a signal whose code has this number.
fn push_declaration(text: &mut Vec<u8>, signal: &Signal, number: usize) -> Result<(), AllocError>
    ensures { OnOk result (text.new.items ≡ text.old.items ++ text_of (declaration signal.now number ∷ [])) }
{
    push_shape(text, signal)?;
    push_code(text, number)?;
    push_name(text, signal)
}

/// Appends the declaration of the signal of this number, where it has a code.
fn push_declared(
    text: &mut Vec<u8>,
    signals: &[Signal],
    table: &[Option<usize>],
    signal: usize,
) -> Result<(), AllocError>
    ensures { OnOk result (text.new.items ≡ text.old.items
        ++ text_of (declared (slice_get signals.now signal) (option_flatten (slice_get table.now signal)))) }
{
    if signal >= signals.len() || signal >= table.len() {
        return Ok(());
    }
    match table[signal] {
        Some(number) => push_declaration(text, &signals[signal], number),
        None => Ok(()),
    }
}

/// Appends the lines of one entry of the outline.
fn push_entry(
    text: &mut Vec<u8>,
    design: &Design,
    table: &[Option<usize>],
    entry: &Entry,
) -> Result<(), AllocError>
    requires table { table.now ≡ code_table 0 design.now.signals }
    ensures { OnOk result (text.new.items ≡ text.old.items ++ text_of (entry_lines design.now entry.now)) }
{
    match entry {
        Entry::Enter(kind, name) => push_scope(text, *kind, name),
        Entry::Declare(signal) => push_declared(text, design.signals(), table, *signal),
        Entry::Leave => {
            text.extend_from_slice(b"$upscope $end\n")?;
            Ok(())
        }
    }
}

/// Appends the lines of the outline.
fn push_outline(
    text: &mut Vec<u8>,
    design: &Design,
    table: &[Option<usize>],
) -> Result<(), AllocError>
    requires table { table.now ≡ code_table 0 design.now.signals }
    ensures { OnOk result (text.new.items ≡ text.old.items ++ text_of (outline_lines design.now design.now.outline)) }
{
    for entry in design.outline() {
        push_entry(text, design, table, entry)?;
    }
    Ok(())
}

/// The header of a design. The table has of each signal the number of its code.
pub(crate) fn header_text(
    alloc: Global,
    design: &Design,
    table: &[Option<usize>],
) -> Result<Vec<u8>, AllocError>
    requires table { table.now ≡ code_table 0 design.now.signals }
    ensures { IfOk result (λ text. text.items ≡ vcd_header design.now) }
{
    let mut text = Vec::new(alloc);
    push_tick(&mut text, design)?;
    push_outline(&mut text, design, table)?;
    text.extend_from_slice(b"$enddefinitions $end\n")?;
    Ok(text)
}
