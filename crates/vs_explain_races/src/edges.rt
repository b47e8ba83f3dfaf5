//! K6: edges are awaited of what isn't written by `=` by one process with delays.

use crate::delays::ANEW_BY_WIDE;
use std::alloc::{AllocError, Global};
use vs_design::vs_logic4::Unary;
use vs_design::{ProcessKind, Typed, reads};
use vs_explain_writers::vs_explain_facts::{
    Question, TextFacts, TextKind, entry_of, mode_word, root_of,
};
use vs_explain_writers::vs_explain_outline::{Page, found, put_marked, put_named};
use vs_explain_writers::{
    Site, mark_assign, mark_site, mark_term, put_path, put_short, put_signal, sentence_of, term_of,
    text_at, turning_in, turning_of, unsized_of, waiter_of,
};

/// The rule as version 3 has it.
const RULE_OF_THIRD: &str =
    "K6: an edge is awaited of a variable that one process with delays writes by `=`, or of a net that copies it or its inverse.";

/// What is said of a cause that is in the certificate, of version 3.
const UNCLAIMED_BY_THIRD: &str =
    " isn't claimed to be a variable that one process with delays writes by `=`, or a net that copies it or its inverse.\n";

/// Why edges of a signal can't be awaited.
#[derive(Clone, Copy, PartialEq, Eq)]
enum Cause {
    /// Nothing drives it.
    Undriven,
    /// It is a net that inverts a clock, or a reset. In version 3 such a one is a copy.
    InvertedClock,
    InvertedReset,
    /// It is a net that takes bits of a vector, or puts bits together.
    BusBit,
    /// It is a net that chooses among clocks.
    ClockChoice,
    /// It is a net that computes a reset.
    ComputedReset,
    /// It is a net that computes a clock, from a clock or from other signals.
    GatedClock,
    DecodedClock,
    /// A combinational block writes it.
    OfBlock,
    /// A process that waits for edges writes it: a testbench waits for it, a testbench drives a reset by it, it is a register that resets,
    /// a bit of a counter, a stage of a ripple counter, the clock of a bus, a divided clock.
    AwaitedOutput,
    ResetByEdges,
    ResetRegister,
    CounterBit,
    Ripple,
    BusClock,
    DividedClock,
    /// It is written by `<=`.
    LaterReset,
    LaterClock,
    /// It is a variable of more than one bit.
    Vector,
    /// It is written twice at one time.
    Pulse,
    /// None of these.
    Claim,
}

/// A signal whose edges are awaited, and what it is.
#[derive(Clone, Copy)]
struct Awaited {
    /// The signal that is named.
    signal: usize,
    /// What it shows, or itself.
    root: usize,
    /// Whether it shows that inverted.
    is_inverted: bool,
    /// A process that waits for it.
    waiter: usize,
    /// Whether it is a reset: the process waits for another signal too, and reads this one.
    is_reset: bool,
}

/// Whether one of the processes that wait for a signal waits for another root too.
fn waits_for_others(question: Question, signal: usize) -> bool {
    let facts = question.facts;
    let root = facts.root(signal);
    for text in &facts.texts {
        if text.waits_for(signal) {
            for term in &text.terms {
                if facts.root(term.term.range.signal) != root {
                    return true;
                }
            }
        }
    }
    false
}

/// Whether one of the processes that wait for a signal reads it.
fn is_read_there(question: Question, signal: usize) -> bool {
    let texts = &question.facts.texts;
    texts
        .iter()
        .any(|t| t.waits_for(signal) && t.reads_signal(signal))
}

/// What is awaited of a subject.
fn awaited_of(question: Question) -> Option<Awaited> {
    let signal = question.facts.signal_named(question.place)?;
    let waiter = waiter_of(question, signal)?;
    let shown = question.facts.shown(signal);
    Some(Awaited {
        signal,
        root: shown.root,
        is_inverted: shown.is_inverted,
        waiter,
        is_reset: waits_for_others(question, signal) && is_read_there(question, signal),
    })
}

/// Whether an expression reads a variable that a process with delays turns over.
fn reads_clock(alloc: Global, question: Question, e: &Typed) -> Result<bool, AllocError> {
    for range in &reads(alloc, e)? {
        if turning_of(question.facts, question.facts.root(range.signal)).is_some() {
            return Ok(true);
        }
    }
    Ok(false)
}

/// Why a net that inverts a signal is no copy: in version 3 its size differs.
fn cause_of_inverse(question: Question, awaited: Awaited) -> Cause {
    if question.facts.is_third {
        Cause::BusBit
    } else if awaited.is_reset {
        Cause::InvertedReset
    } else {
        Cause::InvertedClock
    }
}

/// Why a net that is driven so is no copy.
fn cause_of_net(
    alloc: Global,
    question: Question,
    awaited: Awaited,
    e: &Typed,
) -> Result<Cause, AllocError> {
    let e = unsized_of(e);
    let inverts = match e {
        Typed::Unary(Unary::Not | Unary::LogicalNot, inner) => {
            matches!(unsized_of(inner), Typed::Signal(_))
        }
        _ => false,
    };
    if inverts {
        return Ok(cause_of_inverse(question, awaited));
    }
    match e {
        Typed::Slice(_) | Typed::Select(_, _, _) | Typed::Concat(_, _) => {
            return Ok(Cause::BusBit);
        }
        Typed::Choice(_, _) => return Ok(Cause::ClockChoice),
        _ => {}
    }
    if awaited.is_reset {
        return Ok(Cause::ComputedReset);
    }
    let is_gated = reads_clock(alloc, question, e)?;
    Ok(if is_gated {
        Cause::GatedClock
    } else {
        Cause::DecodedClock
    })
}

/// The first process that writes a signal behind a control; where none does, the first that writes it.
fn writer_of(question: Question, signal: usize) -> Option<usize> {
    let writers = question.facts.writers_of(signal);
    for number in writers {
        if let Some(text) = text_at(question, *number) {
            if text.writes_late(signal) {
                return Some(*number);
            }
        }
    }
    writers.first().copied()
}

/// The first statement of a process that writes a signal, by `<=` alone where that is asked: one behind a control before others.
fn write_of(text: &TextFacts, signal: usize, later: bool) -> Option<usize> {
    let mut first = None;
    for (number, point) in text.points.iter().enumerate() {
        if point.writes_signal(signal) && (point.is_later() || !later) {
            if point.moment.is_late {
                return Some(number);
            }
            if first.is_none() {
                first = Some(number);
            }
        }
    }
    first
}

/// Whether a process writes another signal too.
fn writes_more(text: &TextFacts, signal: usize) -> bool {
    for point in &text.points {
        for written in &point.writes {
            if *written != signal {
                return true;
            }
        }
    }
    false
}

/// Whether a process turns one of its signals over.
fn turns_itself(text: &TextFacts) -> bool {
    for point in &text.points {
        for signal in &point.writes {
            if turning_in(text, *signal).is_some() {
                return true;
            }
        }
    }
    false
}

/// Why edges of a register can't be awaited that a process with edges writes.
fn cause_of_register(
    question: Question,
    awaited: Awaited,
    writer: &TextFacts,
    waiter: &TextFacts,
) -> Cause {
    if waiter.process.kind == ProcessKind::Initial {
        Cause::AwaitedOutput
    } else if awaited.is_reset && writer.process.kind == ProcessKind::Initial {
        Cause::ResetByEdges
    } else if awaited.is_reset {
        Cause::ResetRegister
    } else if is_wide(question, awaited.signal) {
        Cause::CounterBit
    } else if turns_itself(waiter) {
        Cause::Ripple
    } else if writes_more(writer, awaited.root) {
        Cause::BusClock
    } else {
        Cause::DividedClock
    }
}

/// Whether a signal has more than one bit.
fn is_wide(question: Question, signal: usize) -> bool {
    match question.design.signals().get(signal) {
        Some(signal) => signal.width > 1 || signal.count > 1,
        None => false,
    }
}

/// Why edges of a variable can't be awaited.
fn cause_of_variable(
    alloc: Global,
    question: Question,
    awaited: Awaited,
) -> Result<Cause, AllocError> {
    let root = awaited.root;
    let writer = writer_of(question, root).and_then(|number| text_at(question, number));
    let (Some(writer), Some(waiter)) = (writer, text_at(question, awaited.waiter)) else {
        return Ok(Cause::Claim);
    };
    if writer.kind == TextKind::Edges && writer.writes_late(root) {
        return Ok(cause_of_register(question, awaited, writer, waiter));
    }
    if is_wide(question, root) {
        return Ok(Cause::Vector);
    }
    if write_of(writer, root, true).is_some() {
        return Ok(if awaited.is_reset {
            Cause::LaterReset
        } else {
            Cause::LaterClock
        });
    }
    Ok(match writer.written_twice(alloc, root)? {
        Some(_) => Cause::Pulse,
        None => Cause::Claim,
    })
}

/// Why edges of a signal can't be awaited.
fn cause_of(alloc: Global, question: Question, awaited: Awaited) -> Result<Cause, AllocError> {
    let facts = question.facts;
    let root = awaited.root;
    if let Some(first) = facts.drivers_of(root).first() {
        return match question.design.assigns().get(*first) {
            Some(assign) => cause_of_net(alloc, question, awaited, &assign.source),
            None => Ok(Cause::Claim),
        };
    }
    if facts.writers_of(root).is_empty() {
        return Ok(Cause::Undriven);
    }
    if facts.block_of(root).is_some() {
        return Ok(Cause::OfBlock);
    }
    cause_of_variable(alloc, question, awaited)
}

/// Where an assignment takes bits of a vector: the assignment that drives that.
fn bus_of(question: Question, assign: usize) -> Option<usize> {
    let assign = question.design.assigns().get(assign)?;
    let bus = match unsized_of(&assign.source) {
        Typed::Slice(slice) => slice.signal,
        Typed::Select(selection, _, _) => selection.signal,
        _ => return None,
    };
    question.facts.drivers_of(bus).first().copied()
}

/// Puts the line of what makes a signal what it is.
fn mark_origin(page: &mut Page, question: Question, awaited: Awaited, cause: Cause) {
    let root = awaited.root;
    if let Some(first) = question.facts.drivers_of(root).first() {
        let bus = bus_of(question, *first);
        return mark_assign(page, question, bus.unwrap_or(*first));
    }
    if cause == Cause::Undriven {
        put_marked(page, question.text, question.facts.path(root));
        return;
    }
    let Some(process) = writer_of(question, root) else {
        return;
    };
    let Some(text) = text_at(question, process) else {
        return;
    };
    if cause == Cause::Pulse {
        return mark_pulse(page, question, process, text, root);
    }
    let is_later = cause == Cause::LaterClock || cause == Cause::LaterReset;
    if let Some(number) = write_of(text, root, is_later) {
        mark_site(page, question, Site { process, number });
    }
}

/// Puts the lines of two writes of a variable at one time.
fn mark_pulse(page: &mut Page, question: Question, process: usize, text: &TextFacts, root: usize) {
    let twice = text.written_twice(page.alloc(), root);
    if let Some(Some((first, second))) = found(page, twice) {
        for number in [first, second] {
            mark_site(page, question, Site { process, number });
        }
    }
}

/// Puts the line of the term that waits for a signal.
fn mark_waiter(page: &mut Page, question: Question, awaited: Awaited) {
    if let Some(index) = term_of(question, awaited.waiter, awaited.signal) {
        mark_term(page, question, awaited.waiter, index);
    }
}

/// What is said of a cause, behind the name of the signal.
fn words_of(cause: Cause) -> &'static str {
    match cause {
        Cause::Undriven => " is driven by nothing: it never has an edge.\n",
        Cause::InvertedClock => " is an inverted clock: it is computed, and no copy of a clock.\n",
        Cause::InvertedReset => " is an inverted reset: it is computed, and no copy of a reset.\n",
        Cause::BusBit =>
            " goes through a vector or a concatenation: a copy of a clock is a whole signal of the same size.\n",
        Cause::ClockChoice => " is chosen by `?:`: it is computed, and no copy of a clock.\n",
        Cause::ComputedReset => " is computed from other signals, and no copy of a reset.\n",
        Cause::GatedClock =>
            " is a gated clock: it is computed, and may have more than one edge in a time slot.\n",
        Cause::DecodedClock =>
            " is computed from other signals: it may have more than one edge in a time slot.\n",
        Cause::OfBlock =>
            " is the output of a combinational block: it may have more than one edge in a time slot.\n",
        Cause::AwaitedOutput =>
            " is an output of clocked logic: a testbench waits for the edges of clocks alone.\n",
        Cause::ResetByEdges =>
            " is an asynchronous reset that changes at the very edges at which its flip-flops are clocked.\n",
        Cause::ResetRegister => " is an asynchronous reset that is itself a register.\n",
        Cause::CounterBit => " is a register, a bit of which is used as a clock.\n",
        Cause::Ripple => " is the register of another stage: this is a ripple counter.\n",
        Cause::BusClock => " is a register of the design that is used as a clock.\n",
        Cause::DividedClock => " is a register that clocked logic writes: a divided clock.\n",
        Cause::LaterReset | Cause::LaterClock =>
            " is written by `<=`: edges are awaited of what is written by `=`.\n",
        Cause::Vector => " is a vector: edges are awaited of variables of one bit.\n",
        Cause::Pulse => " is written twice at one time: a pulse of no width.\n",
        Cause::Claim =>
            " isn't claimed to be a variable that one process with delays writes by `=`, or a net that copies it.\n",
    }
}

/// What mends a cause, where that hangs on no name.
fn remedy_of(cause: Cause) -> &'static str {
    match cause {
        Cause::Undriven =>
            "Certify a testbench: a module around this one, with `initial begin #5 clk = 1; forever #5 clk = ~clk; end` and the inputs.",
        Cause::InvertedClock =>
            "Make the inverted clock in the testbench beside the clock, `initial begin #5 clk_n = 0; forever #5 clk_n = ~clk_n; end`, or use `negedge clk` inside.",
        Cause::InvertedReset =>
            "Drive the reset in the polarity that the module has, as `reg rst_n = 1;`.",
        Cause::BusBit => "Connect the clock variable itself; keep clocks out of vectors.",
        Cause::ClockChoice =>
            "In a testbench let one process make the switched clock, `initial begin #5 c = 1; #5 c = 0; forever #7 c = ~c; end`; in a design give each register an enable.",
        Cause::ComputedReset =>
            "Wait for each of them: `always @(posedge clk or posedge rst or posedge clr) if (rst || clr) ..`.",
        Cause::DecodedClock | Cause::OfBlock =>
            "Clock by the clock, with an enable that is true in the cycle before: `always @(posedge clk) if (n == 2) ..`.",
        Cause::AwaitedOutput => "Poll it at the clock: `while (!done) @(posedge clk);`.",
        Cause::ResetByEdges =>
            "Drive an asynchronous reset by delays, between the edges: `#6 rst_n = 0; #20 rst_n = 1;`; or make the reset synchronous.",
        Cause::ResetRegister =>
            "Reset by the raw reset asynchronously, and by this one synchronously: `always @(posedge clk or negedge arst_n) if (!arst_n) q <= 0; else if (!rst_n) q <= 0; else ..`.",
        Cause::CounterBit =>
            "Use the clock and an enable that names the count before the bit rises: `always @(posedge clk) if (n[1:0] == 1) ..`.",
        Cause::BusClock =>
            "Sample with the clock of the design and find the edge: `old <= sclk; if (sclk && !old) ..`.",
        Cause::LaterReset =>
            "Write it by `=`, between the edges of the clock, first value included.",
        Cause::LaterClock =>
            "Write it by `=`: `initial begin #5 clk = 1; forever #5 clk = ~clk; end`.",
        Cause::Vector => "Keep each clock in a variable of its own.",
        Cause::Pulse => "Give the pulse a width: `#4 clk = 1; #1 clk = 0;`.",
        Cause::Claim => "Make the certificate anew of this source: `vsim certify`.",
        Cause::GatedClock | Cause::Ripple | Cause::DividedClock => "",
    }
}

/// The clock that a gated clock is computed from, and another signal that it reads.
fn gate_of(
    alloc: Global,
    question: Question,
    root: usize,
) -> Result<Option<(usize, usize)>, AllocError> {
    let Some(first) = question.facts.drivers_of(root).first() else {
        return Ok(None);
    };
    let Some(assign) = question.design.assigns().get(*first) else {
        return Ok(None);
    };
    let (mut clock, mut enable) = (None, None);
    for range in &reads(alloc, &assign.source)? {
        if turning_of(question.facts, question.facts.root(range.signal)).is_some() {
            clock = Some(range.signal);
        } else {
            enable = Some(range.signal);
        }
    }
    Ok(match (clock, enable) {
        (Some(clock), Some(enable)) => Some((clock, enable)),
        _ => None,
    })
}

/// The clock of the process that writes a register.
fn clock_of_writer(question: Question, root: usize) -> Option<usize> {
    let writer = writer_of(question, root)?;
    let term = text_at(question, writer)?.terms.first()?;
    Some(term.term.range.signal)
}

/// Puts `always @(posedge clk) if (en) ..` with names of the design.
fn put_enabled(page: &mut Page, question: Question, clock: usize, not: bool, enable: usize) {
    page.put("`always @(posedge ");
    put_short(page, question, clock);
    page.put(if not { ") if (!" } else { ") if (" });
    put_short(page, question, enable);
    page.put(") ..`.\n");
}

/// Puts what mends a cause.
fn put_remedy(page: &mut Page, question: Question, awaited: Awaited, cause: Cause) {
    let root = awaited.root;
    match cause {
        Cause::GatedClock => {
            let gate = gate_of(page.alloc(), question, root);
            page.put("Use the clock itself and an enable");
            match found(page, gate) {
                Some(Some((clock, enable))) => {
                    page.put(": ");
                    put_enabled(page, question, clock, false, enable);
                }
                _ => page.put(".\n"),
            }
        }
        Cause::DividedClock | Cause::Ripple => {
            page.put(
                "Clock by the fast clock, with an enable that is true in the cycle at whose end this one has its edge",
            );
            match clock_of_writer(question, root) {
                Some(clock) => {
                    page.put(": ");
                    put_enabled(page, question, clock, cause == Cause::DividedClock, root);
                }
                None => page.put(".\n"),
            }
        }
        _ => {
            page.put(remedy_of(cause));
            page.put("\n");
        }
    }
}

/// Puts the mode and the writer of the root that a certificate claims.
fn put_claimed_root(page: &mut Page, question: Question) {
    let root = root_of(question.certificate, question.place);
    page.put("The certificate says: its root is ");
    put_named(page, question.text, root);
    if let Some(entry) = entry_of(question.certificate, root) {
        page.put(", of mode `");
        page.put(mode_word(entry.mode));
        page.put("`");
        if !entry.writer.is_empty() {
            page.put(", which ");
            put_named(page, question.text, entry.writer.as_bytes());
            page.put(" writes");
        }
    }
    page.put(".\n");
}

/// Puts that a certificate claims another root of a signal, or nothing of one.
fn put_claim(page: &mut Page, question: Question) {
    let (words, remedy) = if question.facts.is_third {
        (UNCLAIMED_BY_THIRD, ANEW_BY_WIDE)
    } else {
        (words_of(Cause::Claim), remedy_of(Cause::Claim))
    };
    page.put(words);
    put_claimed_root(page, question);
    page.put(remedy);
    page.put("\n");
}

/// Puts why edges of a signal can't be awaited.
fn put_cause(page: &mut Page, question: Question, awaited: Awaited, cause: Cause) {
    mark_origin(page, question, awaited, cause);
    if cause != Cause::Pulse {
        mark_waiter(page, question, awaited);
    }
    page.put("K6: ");
    put_path(page, question, awaited.signal);
    if awaited.root != awaited.signal {
        page.put(if awaited.is_inverted {
            " is an inverse copy of "
        } else {
            " copies "
        });
        put_signal(page, question, awaited.root);
        page.put(", which");
    }
    if cause == Cause::Claim {
        return put_claim(page, question);
    }
    page.put(words_of(cause));
    put_remedy(page, question, awaited, cause);
}

/// Says why a signal breaks K6.
pub fn put_edges(page: &mut Page, question: Question) {
    let Some(awaited) = awaited_of(question) else {
        put_marked(page, question.text, question.place);
        page.put(if question.facts.is_third {
            RULE_OF_THIRD
        } else {
            sentence_of(6)
        });
        page.put("\n");
        return put_claimed_root(page, question);
    };
    let cause = cause_of(page.alloc(), question, awaited);
    if let Some(cause) = found(page, cause) {
        put_cause(page, question, awaited, cause);
    }
}
