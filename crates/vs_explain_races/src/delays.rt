//! K8: a process waits for delays and for edges where it may not, or the lists of a certificate lack a time.

use crate::waits::mixed_lists;
use std::alloc::{AllocError, Global};
use vs_certificate::ClaimedKind;
use vs_design::ProcessKind;
use vs_design::vs_logic4::Edge;
use vs_explain_writers::vs_explain_facts::{
    Question, TextFacts, TextKind, delay_ends, kind_word, process_of,
};
use vs_explain_writers::vs_explain_outline::{Page, found, put_marked};
use vs_explain_writers::{Site, is_finish, mark_site, put_residues, put_rule, put_site, text_at};

/// What mends a certificate of version 3 that isn't of this source.
pub(crate) const ANEW_BY_WIDE: &str =
    "Make the certificate anew of this source: `vsim certify --rules wide`.";

/// Why a process has both kinds of wait.
#[derive(Clone, Copy, PartialEq, Eq)]
enum Mix {
    /// A gate with a delay.
    Gate,
    /// A flip-flop with a delay from its clock to its output.
    ClockToOutput,
    /// A reset by several delays, and then edges.
    ResetFirst,
    /// One delay, and then edges.
    DelayFirst,
    /// Edges, and then delays up to the end.
    EndByDelay,
    /// A delay behind each edge.
    DelayAfterEdge,
}

/// How many delays stand before the first event control, and how many event controls behind the first delay that comes after one.
fn turns_between(text: &TextFacts) -> (usize, bool) {
    let mut delays = 0usize;
    let mut events = 0usize;
    let mut alternates = false;
    for point in &text.points {
        if point.is_delay() {
            delays = delays.saturating_add(1);
        }
        if point.is_event() {
            if events > 0 && delays > 0 {
                alternates = true;
            }
            events = events.saturating_add(1);
        }
    }
    (delays, alternates)
}

/// The first statement of a sort.
fn first_of(text: &TextFacts, delay: bool) -> Option<usize> {
    for (number, point) in text.points.iter().enumerate() {
        if (delay && point.is_delay()) || (!delay && point.is_event()) {
            return Some(number);
        }
    }
    None
}

/// Why a process has both kinds of wait, whose first delay and first event control have these numbers.
fn mix_of(text: &TextFacts, delay: usize, event: usize) -> Mix {
    if text.terms.iter().any(|t| t.term.edge == Edge::Any) {
        return Mix::Gate;
    }
    if text.process.kind == ProcessKind::Always {
        return Mix::ClockToOutput;
    }
    let (delays, alternates) = turns_between(text);
    if delay < event {
        return if delays > 1 {
            Mix::ResetFirst
        } else {
            Mix::DelayFirst
        };
    }
    if !alternates && text.points.iter().any(is_finish) {
        return Mix::EndByDelay;
    }
    Mix::DelayAfterEdge
}

/// What mends it.
fn remedy_of(mix: Mix) -> &'static str {
    match mix {
        Mix::Gate => "Leave the delay out: `always @* y = a;`.",
        Mix::ClockToOutput => "Put the delay into the assignment: `q <= #1 d;`.",
        Mix::ResetFirst =>
            "Part it where the kind of wait changes: one `initial` drives the reset by `#`, another one starts at time 0 and counts edges by `@`.",
        Mix::DelayFirst =>
            "Let it count edges alone: `repeat (n) @(posedge clk);` for the delay. What has to come at a fixed time goes into an `initial` of its own.",
        Mix::EndByDelay =>
            "Let it count edges alone: `repeat (n) @(posedge clk);` for the delay before the end.",
        Mix::DelayAfterEdge =>
            "Keep the edges, and put the delay into the assignment, `d <= #1 1;`, or leave it out, `d <= 1;`.",
    }
}

/// Puts both kinds of wait of a process.
fn put_mix(page: &mut Page, question: Question, process: usize, text: &TextFacts) -> bool {
    let (Some(delay), Some(event)) = (first_of(text, true), first_of(text, false)) else {
        return false;
    };
    let first = delay.min(event);
    for number in [first, delay.max(event)] {
        mark_site(page, question, Site { process, number });
    }
    let is_third = question.facts.is_third;
    page.put(if is_third {
        "K8: a process of kind `delay` waits by `#` alone, one of kind `mixed` by `@` too. "
    } else {
        "K8: a process waits by `#` or by `@`, not by both. "
    });
    page.put(if first == delay {
        "This one waits for a delay, and then for an event.\n"
    } else {
        "This one waits for an event, and then for a delay.\n"
    });
    page.put(if is_third {
        ANEW_BY_WIDE
    } else {
        remedy_of(mix_of(text, delay, event))
    });
    page.put("\n");
    true
}

/// A delay that can end at a residue which its list lacks.
#[derive(Clone, Copy)]
struct Missing {
    /// The number of the delay among those of its process, from 0 on, and that of the statement.
    index: usize,
    number: usize,
    /// The residue.
    residue: u64,
}

/// The first delay of a process that can end at a residue which its list lacks.
fn missing_of(
    alloc: Global,
    text: &TextFacts,
    lists: &[Vec<u64>],
    modulus: u64,
) -> Result<Option<Missing>, AllocError> {
    let Some(ends) = delay_ends(alloc, text, modulus)? else {
        return Ok(None);
    };
    for (index, (number, residues)) in ends.iter().enumerate() {
        for residue in residues {
            let is_listed = match lists.get(index) {
                Some(list) => list.contains(residue),
                None => false,
            };
            if !is_listed {
                return Ok(Some(Missing {
                    index,
                    number: *number,
                    residue: *residue,
                }));
            }
        }
    }
    Ok(None)
}

/// Puts a delay that can end at a residue which its list lacks.
fn put_missing(
    page: &mut Page,
    question: Question,
    process: usize,
    lists: &[Vec<u64>],
    missing: Missing,
) {
    let modulus = question.certificate.modulus;
    let site = Site {
        process,
        number: missing.number,
    };
    mark_site(page, question, site);
    put_rule(page, 8);
    put_site(page, question, site);
    page.put(" can end at ");
    put_residues(page, &[missing.residue], modulus);
    page.put(". The certificate says: delay ");
    page.put_shown(missing.index.saturating_add(1));
    match lists.get(missing.index) {
        Some(list) if !list.is_empty() => {
            page.put(" ends at ");
            put_residues(page, list, modulus);
        }
        _ => page.put(" never ends"),
    }
    page.put(".\n");
}

/// Puts what a certificate claims of a process that keeps its lists.
fn put_claims(page: &mut Page, question: Question) {
    put_marked(page, question.text, question.place);
    put_rule(page, 8);
    match process_of(question.certificate, question.place) {
        Some(entry) => {
            page.put("The certificate says: kind `");
            page.put(kind_word(&entry.kind));
            page.put("`.\n");
        }
        None => page.put("The certificate has no such process.\n"),
    }
}

/// The lists that a certificate claims of a process that waits for times alone.
fn lists_of<'q>(question: Question<'q>) -> Option<&'q [Vec<u64>]> {
    match &process_of(question.certificate, question.place)?.kind {
        ClaimedKind::Delay(lists) => Some(lists),
        _ => None,
    }
}

/// Puts that the lists of a process that waits for edges too lack a time.
fn put_unclosed(page: &mut Page, question: Question) {
    put_marked(page, question.text, question.place);
    put_rule(page, 8);
    page.put(
        "This one is of kind `mixed`. From its start, from a delay or from an edge it comes to a delay that can end at a residue which its list lacks, or there aren't as many lists as delays.\n",
    );
    page.put(ANEW_BY_WIDE);
    page.put("\n");
}

/// Puts what is wrong with the lists of a process.
fn put_stale(page: &mut Page, question: Question, process: usize, text: &TextFacts) {
    let lists = lists_of(question).unwrap_or(&[]);
    let missing = missing_of(page.alloc(), text, lists, question.certificate.modulus);
    match found(page, missing) {
        Some(Some(missing)) if lists_of(question).is_some() => {
            put_missing(page, question, process, lists, missing)
        }
        _ => put_claims(page, question),
    }
    page.put("Make the certificate anew of this source: `vsim certify`.\n");
}

/// Says why a process breaks K8.
pub fn put_delays(page: &mut Page, question: Question) {
    let Some(process) = question.facts.process_named(question.place) else {
        return;
    };
    let Some(text) = text_at(question, process) else {
        return;
    };
    if mixed_lists(question).is_some() {
        return put_unclosed(page, question);
    }
    if text.kind != TextKind::Both || !put_mix(page, question, process, text) {
        put_stale(page, question, process, text);
    }
}
