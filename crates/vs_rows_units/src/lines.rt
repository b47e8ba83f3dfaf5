//! Lines of given values.
use crate::calls::{arguments, call, split};
use crate::process_steps::steps_of_a_body;
use crate::small_design::{put, three_signals};
use std::alloc::{AllocError, Global};
use std::process::Abort;
use vs_design::vs_logic4::Vec4;
use vs_design::{CallKind, Design, Store};
use vs_process::vs_strobe::{Format, FormatFault, FormatReason, full_line, line};

/// What is asked of a text.
#[derive(Clone, Copy)]
pub enum Asked {
    /// Its line where a unit is so many ticks, at a time.
    Line(u64, u64),
    /// Its line where `a` is 0.
    LineOfZero,
    /// All of its line as a call's.
    Call,
    /// So many steps of a process that makes calls, whatever the text.
    Steps(usize),
}

/// The number of a fault.
fn number(reason: FormatReason) -> &'static [u8] {
    match reason {
        FormatReason::BadDirective => b"F1",
        FormatReason::TooFewArguments => b"F2",
        FormatReason::TooManyArguments => b"F3",
    }
}

/// The line of a text at a time, in a store, or the number of its fault. A unit is `ratio` ticks, 1 or 1,000, and the path is `t.g[0]`.
fn line_in(
    rt: &impl Abort,
    alloc: Global,
    question: &str,
    ratio: u64,
    time: u64,
    store: &Store,
) -> Vec<u8> {
    let ratio = if ratio == 1000 { 1000 } else { 1 };
    let (text, list) = split(question);
    let args = arguments(rt, alloc, list);
    match Format::read(alloc, text.as_bytes(), &args, b"t.g[0]", ratio) {
        Ok(format) => line(alloc, &format, store, time),
        Err(FormatFault::Memory) => Err(AllocError),
        Err(FormatFault::Refused(reason)) => Vec::from_slice(alloc, number(reason)),
    }
    .expect(rt, "memory")
}

/// The line of a text in a store where `a` is 0.
fn line_of_zero(rt: &impl Abort, alloc: Global, question: &str, store: &mut Store) -> Vec<u8> {
    put(alloc, store, 1, Vec4::from_number(1, 0)).expect(rt, "memory");
    line_in(rt, alloc, question, 1, 0, store)
}

/// The whole line of a call, in a store.
fn line_of_call(rt: &impl Abort, alloc: Global, question: &str, store: &Store) -> Vec<u8> {
    let (text, list) = split(question);
    let call = call(rt, alloc, CallKind::Display, text, list);
    let format = Format::of(alloc, &call).expect(rt, "memory");
    full_line(alloc, &format, store, 0).expect(rt, "memory")
}

/// What is asked of a text, in a store of a design.
fn answer_in(
    rt: &impl Abort,
    alloc: Global,
    asked: Asked,
    question: &str,
    design: &Design,
    store: &mut Store,
) -> Vec<u8> {
    match asked {
        Asked::Line(ratio, time) => line_in(rt, alloc, question, ratio, time, store),
        Asked::LineOfZero => line_of_zero(rt, alloc, question, store),
        Asked::Call => line_of_call(rt, alloc, question, store),
        Asked::Steps(count) => steps_of_a_body(rt, alloc, design, count, store),
    }
}

/// What is asked of a text.
pub fn answer_to(rt: &impl Abort, alloc: Global, asked: Asked, question: &str) -> Vec<u8> {
    let design = three_signals(alloc, false).expect(rt, "memory");
    let mut store = Store::start(alloc, &design).expect(rt, "memory");
    answer_in(rt, alloc, asked, question, &design, &mut store)
}
