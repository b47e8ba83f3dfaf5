//! The listing of a design.
ghost use Rattle.std.specs.Prelude.{◌≡◌, ◌++◌, ◌∷◌, [], true, false, IfOk, IfErr, OnOk, OnErr};
ghost use Rattle.std.specs.List.{flat_map};
ghost use Rattle.vs_kernel.specs.vs_vcd_writing.specs.Sinks.{failed_after};
ghost use Rattle.vs_simulate.specs.Honesty.{SimulationFails, is_refusal, is_write};
ghost use Rattle.vs_simulate.specs.Listing.{kind_word, sign_word, process_word, spaced, signal_line, assign_line, process_line, listing, IsListing, HasBegunListing};

use crate::fault::SimFault;
use crate::simulation::design_of;
use std::alloc::{AllocError, Global};
use vs_design::{Assign, Design, Process, ProcessKind, Signal, SignalKind};
use vs_kernel::RunFault;
use vs_kernel::vs_vcd_writing::{Sink, WriteFault, write_all};

fn kind_word(kind: SignalKind) -> &'static [u8]
    ensures { result.now ≡ kind_word kind }
{
    match kind {
        SignalKind::Wire => b"wire",
        SignalKind::Reg => b"reg",
        SignalKind::Integer => b"integer",
    }
}

fn sign_word(signed: bool) -> &'static [u8]
    ensures { result.now ≡ sign_word signed }
{
    if signed { b"signed" } else { b"unsigned" }
}

fn process_word(kind: ProcessKind) -> &'static [u8]
    ensures { result.now ≡ process_word kind }
{
    match kind {
        ProcessKind::Initial => b"initial",
        ProcessKind::Always => b"always",
    }
}

// Appends a space and a word.
fn push_word(text: &mut Vec<u8>, word: &[u8]) -> Result<(), AllocError>
    ensures { OnOk result (text.new.items ≡ text.old.items ++ spaced word.now) }
{
    text.push(b' ')?;
    text.extend_from_slice(word)
}

// Appends the line of a signal.
fn push_signal(alloc: Global, text: &mut Vec<u8>, signal: &Signal) -> Result<(), AllocError>
    ensures { OnOk result (text.new.items ≡ text.old.items ++ signal_line signal.now) }
{
    text.extend_from_slice(&signal.path)?;
    push_word(text, kind_word(signal.kind))?;
    let width = signal.width.to_string(alloc)?;
    push_word(text, width.as_bytes())?;
    push_word(text, sign_word(signal.signed))?;
    let words = signal.count.to_string(alloc)?;
    push_word(text, words.as_bytes())?;
    text.push(b'\n')?;
    Ok(())
}

// Appends the line of a part of a design: its name, and a word.
fn push_part(text: &mut Vec<u8>, name: &[u8], word: &[u8]) -> Result<(), AllocError>
    ensures { OnOk result (text.new.items ≡ text.old.items ++ name.now ++ spaced word.now ++ 10 ∷ []) }
{
    text.extend_from_slice(name)?;
    push_word(text, word)?;
    text.push(b'\n')?;
    Ok(())
}

fn push_signals(alloc: Global, text: &mut Vec<u8>, signals: &[Signal]) -> Result<(), AllocError>
    ensures { OnOk result (text.new.items ≡ text.old.items ++ flat_map signal_line signals.now) }
{
    for signal in signals {
        push_signal(alloc, text, signal)?;
    }
    Ok(())
}

fn push_assigns(text: &mut Vec<u8>, assigns: &[Assign]) -> Result<(), AllocError>
    ensures { OnOk result (text.new.items ≡ text.old.items ++ flat_map assign_line assigns.now) }
{
    for assign in assigns {
        push_part(text, &assign.name, b"assign")?;
    }
    Ok(())
}

fn push_processes(text: &mut Vec<u8>, processes: &[Process]) -> Result<(), AllocError>
    ensures { OnOk result (text.new.items ≡ text.old.items ++ flat_map process_line processes.now) }
{
    for process in processes {
        push_part(text, &process.name, process_word(process.kind))?;
    }
    Ok(())
}

// The lines of a design, in design order.
fn design_text(alloc: Global, design: &Design) -> Result<Vec<u8>, AllocError>
    ensures { IfOk result (λ text. text.items ≡ listing design.now) }
{
    let mut text = Vec::new(alloc);
    push_signals(alloc, &mut text, design.signals())?;
    push_assigns(&mut text, design.assigns())?;
    push_processes(&mut text, design.processes())?;
    Ok(text)
}

/// Writes a line for each signal, continuous assignment and process of the design that a source and the name of a top module define, in design order.
/// Where the source is refused, nothing is written; where the sink fails, a beginning of the lines.
pub fn list_design<'s, L: Sink>(
    alloc: Global,
    source: &'s [u8],
    top: &[u8],
    lines: &mut L,
) -> Result<(), SimFault<'s>>
    ensures listed { IfOk result (λ _. IsListing source.entry.now top.now (L.bytes lines.old) (L.bytes lines.new)) }
    ensures fault { IfErr result (λ fault. SimulationFails source.entry.now top.now fault) }
    ensures refused { IfErr result (λ fault. is_refusal fault ≡ true → lines.new ≡ lines.old) }
    ensures begun { IfErr result (λ fault. is_refusal fault ≡ false →
        HasBegunListing source.entry.now top.now (L.bytes lines.old) (L.bytes lines.new)) }
    // A failed write is told only where the count of the sink rose.
    ensures failures { L.failed lines.new ≡ failed_after (is_write result) (L.failed lines.old) }
{
    let design = design_of(alloc, source, top)?;
    let text = design_text(alloc, &design)?;
    match write_all(lines, &text) {
        Ok(()) => Ok(()),
        Err(WriteFault) => Err(SimFault::Run(RunFault::Write)),
    }
}
