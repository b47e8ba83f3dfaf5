//! K7: more than one edge can wake a process in a time slot, or a process waits for a change that is no edge.

use std::alloc::{AllocError, Global};
use vs_certificate::ClaimedKind;
use vs_design::vs_logic4::Edge;
use vs_design::{ProcessKind, Statement};
use vs_explain_writers::vs_explain_facts::{Course, Question, TextFacts, TextKind, process_of};
use vs_explain_writers::vs_explain_outline::{Page, found, put_marked};
use vs_explain_writers::{
    ClockForm, Site, common, edge_of, form_of, has_clocks, mark_site, mark_term, push_edge,
    put_path, put_residues, put_rule, put_short, put_site, put_times, text_at, turning_of,
};

/// Two terms of a process whose edges come at one time.
#[derive(Drop)]
struct Meeting {
    /// The numbers of the terms.
    left: usize,
    right: usize,
    /// The variables whose edges these are.
    left_root: usize,
    right_root: usize,
    /// When both come.
    times: Vec<u64>,
}

/// The first term of a text that waits for any change.
fn level_of(text: &TextFacts) -> Option<usize> {
    for (index, term) in text.terms.iter().enumerate() {
        if term.term.edge == Edge::Any {
            return Some(index);
        }
    }
    None
}

/// The first loop of a text that tests a condition.
fn while_of(text: &TextFacts) -> Option<usize> {
    for (number, point) in text.points.iter().enumerate() {
        if matches!(point.statement, Statement::While(_, _, _)) {
            return Some(number);
        }
    }
    None
}

/// Whether a process that waits for edges writes a signal behind one.
fn is_clocked(question: Question, signal: usize) -> bool {
    for number in question.facts.writers_of(signal) {
        if let Some(text) = text_at(question, *number) {
            if text.writes_late(signal) && text.kind == TextKind::Edges {
                return true;
            }
        }
    }
    false
}

/// The first write of a signal behind a control.
fn late_write(question: Question, signal: usize) -> Option<Site> {
    for process in question.facts.writers_of(signal) {
        if let Some(text) = text_at(question, *process) {
            for (number, point) in text.points.iter().enumerate() {
                if point.moment.is_late && point.writes_signal(signal) {
                    return Some(Site {
                        process: *process,
                        number,
                    });
                }
            }
        }
    }
    None
}

/// Puts what mends a wait for any change of a signal in an `initial`.
fn put_level_remedy(page: &mut Page, question: Question, text: &TextFacts, signal: usize) {
    if is_clocked(question, signal) {
        page.put("Poll it at the clock: `while (!");
        put_short(page, question, signal);
        page.put(") @(posedge clk);`.\n");
    } else if while_of(text).is_some() {
        page.put("Where one process with delays writes it by `=`, wait for its edge: `@(posedge ");
        put_short(page, question, signal);
        page.put(");`. In a clocked testbench poll it: `@(posedge clk); while (!");
        put_short(page, question, signal);
        page.put(") @(posedge clk);`.\n");
    } else {
        page.put("Make it an edge: `");
        put_short(page, question, signal);
        page.put(" = 0; .. ");
        put_short(page, question, signal);
        page.put(" = 1;` and `@(posedge ");
        put_short(page, question, signal);
        page.put(")`, written by `=` by one process with delays.\n");
    }
}

/// Puts a term that waits for any change.
fn put_level(page: &mut Page, question: Question, process: usize, text: &TextFacts, index: usize) {
    let Some(term) = text.terms.get(index) else {
        return;
    };
    let signal = term.term.range.signal;
    if text.process.kind == ProcessKind::Initial && while_of(text).is_none() {
        if let Some(write) = late_write(question, signal) {
            mark_site(page, question, write);
        }
    }
    mark_term(page, question, process, index);
    page.put(
        "K7: a process that isn't a combinational block waits for `posedge` and `negedge` alone; this one waits for any change of ",
    );
    put_path(page, question, signal);
    page.put(".\n");
    if text.process.kind == ProcessKind::Always {
        page.put("Give it an edge: `posedge ");
        put_short(page, question, signal);
        page.put("` or `negedge ");
        put_short(page, question, signal);
        page.put("`.\n");
    } else {
        put_level_remedy(page, question, text, signal);
    }
}

/// When the edges of two terms of a process come at one time.
fn meeting_of(
    alloc: Global,
    question: Question,
    course: &Course,
    text: &TextFacts,
    left: usize,
    right: usize,
) -> Result<Option<Meeting>, AllocError> {
    let (Some(one), Some(other)) = (text.terms.get(left), text.terms.get(right)) else {
        return Ok(None);
    };
    let left_root = question.facts.root(one.term.range.signal);
    let right_root = question.facts.root(other.term.range.signal);
    if left_root == right_root {
        return Ok(None);
    }
    let left_times = edge_of(course, left_root, question.facts.edge(one.term));
    let right_times = edge_of(course, right_root, question.facts.edge(other.term));
    let times = common(alloc, left_times, right_times)?;
    if times.is_empty() {
        return Ok(None);
    }
    Ok(Some(Meeting {
        left,
        right,
        left_root,
        right_root,
        times,
    }))
}

/// The first two terms of a process whose edges come at one time.
fn first_meeting(
    alloc: Global,
    question: Question,
    course: &Course,
    text: &TextFacts,
) -> Result<Option<Meeting>, AllocError> {
    for right in 0..text.terms.len() {
        for left in 0..right {
            let meeting = meeting_of(alloc, question, course, text, left, right)?;
            if meeting.is_some() {
                return Ok(meeting);
            }
        }
    }
    Ok(None)
}

/// The statement that writes a variable at a time.
fn write_at(question: Question, course: &Course, signal: usize, time: u64) -> Option<Site> {
    for process in question.facts.writers_of(signal) {
        if let Some(text) = text_at(question, *process) {
            for (number, point) in text.points.iter().enumerate() {
                if point.writes_signal(signal) && course.times(*process, number).contains(&time) {
                    return Some(Site {
                        process: *process,
                        number,
                    });
                }
            }
        }
    }
    None
}

/// Puts a statement at which the edge of a variable comes; the variable where there is none.
fn put_write(page: &mut Page, question: Question, write: Option<Site>, root: usize) {
    match write {
        Some(site) => put_site(page, question, site),
        None => put_path(page, question, root),
    }
}

/// Puts two edges that come at one time.
fn put_meeting(
    page: &mut Page,
    question: Question,
    course: &Course,
    process: usize,
    meeting: &Meeting,
) {
    let facts = question.facts;
    let are_clocks = form_of(facts, meeting.left_root) != ClockForm::Still
        && form_of(facts, meeting.right_root) != ClockForm::Still;
    let first = meeting.times.first().copied().unwrap_or(0);
    let is_left = form_of(facts, meeting.left_root) == ClockForm::Still;
    let (reset, index) = if is_left {
        (meeting.left_root, meeting.left)
    } else {
        (meeting.right_root, meeting.right)
    };
    let write = write_at(question, course, reset, first);
    if are_clocks {
        mark_term(page, question, process, meeting.left);
        mark_term(page, question, process, meeting.right);
    } else {
        if let Some(site) = write {
            mark_site(page, question, site);
        }
        mark_term(page, question, process, index);
    }
    put_rule(page, 7);
    put_edges_met(page, question, meeting);
    page.put("both come ");
    put_times(page, &meeting.times);
    if !are_clocks {
        page.put("; ");
        put_write(page, question, write, reset);
        page.put(" is one of them");
    }
    page.put(".\n");
    put_remedy(page, question, reset, first, are_clocks);
}

/// Puts the names of two signals whose edges come at one time.
fn put_edges_met(page: &mut Page, question: Question, meeting: &Meeting) {
    page.put("The edges of ");
    put_path(page, question, meeting.left_root);
    page.put(" and ");
    put_path(page, question, meeting.right_root);
    page.put(" for which it waits ");
}

/// Puts what mends two edges at one time.
fn put_remedy(page: &mut Page, question: Question, reset: usize, time: u64, are_clocks: bool) {
    if are_clocks {
        page.put(
            "Shift one of the clocks, as `initial begin #1 b = 0; forever #15 b = ~b; end`; or count each in a process of its own and add.\n",
        );
        return;
    }
    page.put("Let `");
    put_short(page, question, reset);
    page.put(if has_clocks(question.facts) {
        "` go active between the edges of all clocks, at another time than "
    } else {
        "` go active between the edges of the clock, at another time than "
    });
    page.put_shown(time);
    page.put(".\n");
}

/// Puts that no two edges were found at one time.
fn put_apart(page: &mut Page, question: Question, text: &TextFacts) {
    let mut told: Vec<usize> = Vec::new(page.alloc());
    for term in &text.terms {
        let root = question.facts.root(term.term.range.signal);
        if !told.contains(&root) {
            if let Some(site) = turning_of(question.facts, root) {
                mark_site(page, question, site);
            }
            if told.push(root).is_err() {
                page.leave_out();
            }
        }
    }
    put_rule(page, 7);
    page.put(
        "No time was found at which two of these edges come, but by the certificate they can:\n",
    );
    for term in &text.terms {
        put_term_times(page, question, term.term.edge, term.term.range.signal);
    }
    page.put(
        "The periods of what writes them have no small common multiple. Reset synchronously, by `<=`; or let the periods have one.\n",
    );
}

/// The lists that a certificate claims of a process that waits for times and for edges.
pub(crate) fn mixed_lists<'q>(question: Question<'q>) -> Option<&'q [Vec<u64>]> {
    match &process_of(question.certificate, question.place)?.kind {
        ClaimedKind::Mixed(lists) => Some(lists),
        _ => None,
    }
}

/// Whether an edge of a signal can come at a residue of one of some lists.
fn may_fire_at(
    alloc: Global,
    question: Question,
    signal: usize,
    lists: &[Vec<u64>],
) -> Result<bool, AllocError> {
    let mut residues = Vec::new(alloc);
    push_edge(
        &mut residues,
        question.certificate,
        question.facts.path(signal),
    )?;
    for list in lists {
        for residue in list {
            if residues.contains(residue) {
                return Ok(true);
            }
        }
    }
    Ok(false)
}

/// The first term of a process whose edge can come where one of its delays ends, by the lists of these.
fn arrival_of(
    alloc: Global,
    question: Question,
    text: &TextFacts,
    lists: &[Vec<u64>],
) -> Result<Option<usize>, AllocError> {
    for (index, term) in text.terms.iter().enumerate() {
        if may_fire_at(alloc, question, term.term.range.signal, lists)? {
            return Ok(Some(index));
        }
    }
    Ok(None)
}

/// Puts that a process comes from a delay to an event control when its edge can come.
fn put_arrival(
    page: &mut Page,
    question: Question,
    process: usize,
    text: &TextFacts,
    index: usize,
) {
    mark_term(page, question, process, index);
    page.put(
        "K7: where a process comes from a delay to an event control, the edge doesn't come in that time slot: whether the process waits by then is a choice. By the certificate a delay of this one can end when one of these edges comes:\n",
    );
    for term in &text.terms {
        put_term_times(page, question, term.term.edge, term.term.range.signal);
    }
    page.put(
        "Let the delay end between the edges, as `#12` in place of `#10`; or count edges in its place: `repeat (n) @(posedge clk);`.\n",
    );
}

/// Puts why no two edges were found at one time.
fn put_unmet(page: &mut Page, question: Question, process: usize, text: &TextFacts) {
    let lists = mixed_lists(question).unwrap_or(&[]);
    let arrival = arrival_of(page.alloc(), question, text, lists);
    match found(page, arrival) {
        Some(Some(index)) => put_arrival(page, question, process, text, index),
        Some(None) => {
            put_marked(page, question.text, question.place);
            put_apart(page, question, text)
        }
        None => {}
    }
}

/// Puts the residues at which an edge of a signal can come.
fn put_term_times(page: &mut Page, question: Question, edge: Edge, signal: usize) {
    let mut residues = Vec::new(page.alloc());
    let path = question.facts.path(signal);
    if push_edge(&mut residues, question.certificate, path).is_err() {
        page.leave_out();
    }
    page.put(match edge {
        Edge::Posedge => "`posedge ",
        Edge::Negedge => "`negedge ",
        Edge::Any => "`",
    });
    put_short(page, question, signal);
    page.put("` at ");
    put_residues(page, &residues, question.certificate.modulus);
    page.put(".\n");
}

/// Says why a process breaks K7.
pub fn put_waits(page: &mut Page, question: Question) {
    let process = question.facts.process_named(question.place);
    let Some(process) = process else {
        return;
    };
    let Some(text) = text_at(question, process) else {
        return;
    };
    if let Some(index) = level_of(text) {
        return put_level(page, question, process, text, index);
    }
    let course = Course::of(page.alloc(), question.facts);
    let Some(course) = found(page, course) else {
        return;
    };
    let meeting = first_meeting(page.alloc(), question, &course, text);
    match found(page, meeting) {
        Some(Some(meeting)) => put_meeting(page, question, &course, process, &meeting),
        Some(None) => put_unmet(page, question, process, text),
        None => {}
    }
}
