//! K9: a process reads a variable that another one can write by `=` at the same time.

use crate::pairs::{Pair, meet, pairs_of, read_times, write_times};
use std::alloc::{AllocError, Global};
use vs_design::{ProcessKind, Statement};
use vs_explain_writers::vs_explain_facts::{Course, Facts, Question, TextFacts, TextKind};
use vs_explain_writers::vs_explain_outline::{Page, found, put_marked};
use vs_explain_writers::{
    ClockForm, Site, common, form_of, free_before, has_clocks, longer_initial, mark_site, point_at,
    put_path, put_residues, put_rule, put_short, put_signal, put_site, put_times, residues_of,
    text_at, turner_of, turning_in, turning_of, unlike_start,
};

/// What a race is.
#[derive(Clone, Copy, PartialEq, Eq)]
enum Cause {
    /// A process reads a net at the time at which it writes what that depends on.
    NoTimeToSettle,
    /// The same of a process that waits for edges.
    NoEdgeToSettle,
    /// A reset is let go at an edge of the clock.
    ResetAtEdge,
    /// The clock of another process is read.
    ClockAsData,
    /// A process with delays reads at an edge.
    CheckAtEdge,
    /// A testbench writes by `=` behind an edge.
    TestbenchWrite,
    /// Two processes read each other's variable.
    Swap,
    /// Clocked logic writes by `=`.
    BlockingRegister,
    /// One process writes the data and the clock.
    OwnClock,
    /// A stimulus is written at an edge.
    StimulusAtEdge,
    /// A stimulus is written in a loop, some turn of which comes at an edge.
    StimulusInLoop,
}

/// The variables whose edges a process waits for.
fn roots_of(alloc: Global, facts: &Facts, text: &TextFacts) -> Result<Vec<usize>, AllocError> {
    let mut roots = Vec::new(alloc);
    for term in &text.terms {
        roots.push(facts.root(term.term.range.signal))?;
    }
    Ok(roots)
}

/// Whether a process writes one of some signals behind a control: what only starts a clock doesn't.
fn writes_one(text: &TextFacts, signals: &[usize]) -> bool {
    signals.iter().any(|s| text.writes_late(*s))
}

/// Whether a process reads what another one writes.
fn reads_of_other(text: &TextFacts, other: &TextFacts) -> bool {
    for point in &other.points {
        for signal in &point.writes {
            if text.reads_signal(*signal) {
                return true;
            }
        }
    }
    false
}

/// What a race with clocked logic is.
fn cause_of_clocked(pair: &Pair, reader: &TextFacts, writer: &TextFacts) -> Cause {
    if reader.kind == TextKind::Delays {
        Cause::CheckAtEdge
    } else if writer.process.kind == ProcessKind::Initial
        || reader.process.kind == ProcessKind::Initial
    {
        Cause::TestbenchWrite
    } else if pair.through == pair.signal && reads_of_other(writer, reader) {
        Cause::Swap
    } else {
        Cause::BlockingRegister
    }
}

/// What a race is.
fn cause_of(question: Question, pair: &Pair, roots: &[usize]) -> Cause {
    let (Some(reader), Some(writer)) = (
        text_at(question, pair.read.process),
        text_at(question, pair.write.process),
    ) else {
        return Cause::StimulusAtEdge;
    };
    if pair.read.process == pair.write.process {
        return if reader.kind == TextKind::Edges {
            Cause::NoEdgeToSettle
        } else {
            Cause::NoTimeToSettle
        };
    }
    if roots.contains(&pair.signal) {
        return Cause::ResetAtEdge;
    }
    if question.facts.is_root(pair.signal) {
        return Cause::ClockAsData;
    }
    if writer.kind == TextKind::Edges {
        return cause_of_clocked(pair, reader, writer);
    }
    if writes_one(writer, roots) {
        return Cause::OwnClock;
    }
    let is_looped = match point_at(question, pair.write) {
        Some(point) => point.is_looped || writer.process.kind == ProcessKind::Always,
        None => false,
    };
    if is_looped {
        Cause::StimulusInLoop
    } else {
        Cause::StimulusAtEdge
    }
}

/// Puts a read, what it depends on, and the write.
fn put_pair(page: &mut Page, question: Question, pair: &Pair) {
    put_site(page, question, pair.read);
    page.put(" reads ");
    put_path(page, question, pair.through);
    if pair.through != pair.signal {
        page.put(", which depends on ");
        put_signal(page, question, pair.signal);
    }
    page.put(", which ");
    put_site(page, question, pair.write);
    page.put(" writes");
}

/// Puts another time at which something can be done, where one is known.
fn put_free(page: &mut Page, free: Option<u64>) {
    if let Some(time) = free {
        page.put(", as at ");
        page.put_shown(time);
    }
}

/// What mends a race, where that hangs on no name and no time.
fn remedy_of(cause: Cause) -> &'static str {
    match cause {
        Cause::NoTimeToSettle => "Let the net settle before it is read: `#1` between the two.",
        Cause::NoEdgeToSettle =>
            "Compute it in the process itself; or write by `<=`, and read it at the next edge.",
        Cause::ClockAsData =>
            "A clock isn't written by `<=`. Read a register of that clock instead, one that changes at each of its rises.",
        Cause::TestbenchWrite =>
            "Write the stimuli by `<=`, first values included: `@(posedge clk); d <= 1;`. The design sees the new value at the next edge.",
        Cause::Swap => "Write both by `<=`.",
        Cause::BlockingRegister => "Write it by `<=`.",
        Cause::OwnClock => "Change the data some time before the edge: `#4 d = ~d; #1 clk = 1;`.",
        Cause::StimulusInLoop => "Write it by `<=`; or let it change between the edges alone.",
        Cause::ResetAtEdge | Cause::CheckAtEdge | Cause::StimulusAtEdge => "",
    }
}

/// Puts what mends a race.
fn put_remedy(page: &mut Page, question: Question, pair: &Pair, cause: Cause, free: Option<u64>) {
    match cause {
        Cause::ResetAtEdge => {
            page.put("Let `");
            put_short(page, question, pair.signal);
            page.put("` go between the edges of the clock");
            put_free(page, free);
            page.put(". An asynchronous reset isn't written by `<=`.\n");
        }
        Cause::CheckAtEdge => {
            page.put("Read it between the edges");
            put_free(page, free);
            page.put("; or write it by `<=`.\n");
        }
        Cause::StimulusAtEdge => {
            page.put(
                "Write it by `<=`: the edge then sees the old value. Or write it by `=` between the edges",
            );
            put_free(page, free);
            page.put(".\n");
        }
        _ => {
            page.put(remedy_of(cause));
            page.put("\n");
        }
    }
}

/// A time shortly before a race at which what is moved meets nothing: the read of a check, else the write.
fn free_time(
    alloc: Global,
    question: Question,
    course: &Course,
    pair: &Pair,
    cause: Cause,
) -> Result<Option<u64>, AllocError> {
    let others = if cause == Cause::CheckAtEdge {
        write_times(alloc, question, course, pair)?
    } else {
        read_times(alloc, question, course, pair)?
    };
    Ok(match pair.times.first() {
        Some(time) => free_before(*time, &others, &[]),
        None => None,
    })
}

/// Whether a process waits for edges at several places, so that one statement of it runs at some of them alone.
fn counts_edges(question: Question, process: usize) -> bool {
    match text_at(question, process) {
        Some(text) => { text.kind == TextKind::Edges && text.process.kind == ProcessKind::Initial }
        None => false,
    }
}

/// Puts when both sides of a race run.
fn put_when(page: &mut Page, question: Question, pair: &Pair) {
    let (reader, writer) = (pair.read.process, pair.write.process);
    if !counts_edges(question, reader) && !counts_edges(question, writer) {
        return put_times(page, &pair.times);
    }
    page.put("at an edge of ");
    let counting = if counts_edges(question, writer) {
        writer
    } else {
        reader
    };
    let term = text_at(question, counting).and_then(|text| text.terms.first());
    if let Some(term) = term {
        put_path(page, question, question.facts.root(term.term.range.signal));
    }
}

/// Puts a race.
fn put_race(page: &mut Page, question: Question, course: &Course, pair: &Pair, roots: &[usize]) {
    let cause = cause_of(question, pair, roots);
    mark_site(page, question, pair.read);
    mark_site(page, question, pair.write);
    put_rule(page, 9);
    put_pair(page, question, pair);
    page.put(if pair.read.process == pair.write.process {
        " in the same process, with no time between, "
    } else {
        " by `=`, both "
    });
    put_when(page, question, pair);
    page.put(".\n");
    let free = free_time(page.alloc(), question, course, pair, cause);
    if let Some(free) = found(page, free) {
        put_remedy(page, question, pair, cause, free);
    }
}

/// Whether a pair is a read of the one clock of a process.
fn is_own_clock(pair: &Pair, roots: &[usize]) -> bool {
    roots.len() == 1 && roots.contains(&pair.signal)
}

/// The first pair, of those whose writer is the process itself or else of the others, both sides of which run at one time.
fn first_met(
    alloc: Global,
    question: Question,
    course: &Course,
    pairs: &mut [Pair],
    roots: &[usize],
    own: bool,
) -> Result<Option<usize>, AllocError> {
    for (index, pair) in pairs.iter_mut().enumerate() {
        let is_own = pair.write.process == pair.read.process;
        if is_own == own && !is_own_clock(pair, roots) {
            meet(alloc, question, course, pair)?;
            if !pair.times.is_empty() {
                return Ok(Some(index));
            }
        }
    }
    Ok(None)
}

/// The first race of a process: one with its own writes before others.
fn first_race(
    alloc: Global,
    question: Question,
    course: &Course,
    pairs: &mut [Pair],
    roots: &[usize],
) -> Result<Option<usize>, AllocError> {
    match first_met(alloc, question, course, pairs, roots, true)? {
        Some(index) => Ok(Some(index)),
        None => first_met(alloc, question, course, pairs, roots, false),
    }
}

/// The first pair of a process with a write of another one of what isn't its clock.
fn first_other<'p>(pairs: &'p [Pair], roots: &[usize], process: usize) -> Option<&'p Pair> {
    for pair in pairs {
        if pair.write.process != process && !roots.contains(&pair.signal) {
            return Some(pair);
        }
    }
    None
}

/// The first of some roots that turns over and isn't of the form of a clock.
fn formless(facts: &Facts, roots: &[usize]) -> Option<(usize, ClockForm)> {
    for root in roots {
        let form = form_of(facts, *root);
        if form != ClockForm::Still && form != ClockForm::Clock {
            return Some((*root, form));
        }
    }
    None
}

/// The first statement of a sort in a process: a delay, or else a `repeat`.
fn first_control(question: Question, process: usize, delay: bool) -> Option<Site> {
    let text = text_at(question, process)?;
    for (number, point) in text.points.iter().enumerate() {
        let is_repeat = matches!(point.statement, Statement::Repeat(_, _, _, _));
        if (delay && point.is_delay()) || (!delay && is_repeat) {
            return Some(Site { process, number });
        }
    }
    None
}

/// The statement that keeps a variable from being of the form of a clock.
fn culprit_of(question: Question, root: usize, form: ClockForm) -> Option<Site> {
    let turner = turner_of(question.facts, root)?;
    match form {
        ClockForm::Block => first_control(question, turner, true),
        ClockForm::Repeat => first_control(question, turner, false),
        ClockForm::Initial => {
            let process = longer_initial(question.facts, root, turner).unwrap_or(turner);
            let text = text_at(question, process)?;
            let number = text.points.iter().position(|p| p.writes_signal(root))?;
            Some(Site { process, number })
        }
        ClockForm::Start => unlike_start(question.facts, root, turner),
        _ => {
            let (number, _) = turning_in(text_at(question, turner)?, root)?;
            Some(Site {
                process: turner,
                number,
            })
        }
    }
}

/// What a variable lacks of the form of a clock.
fn lack_of(form: ClockForm) -> &'static str {
    match form {
        ClockForm::LogicalNot => "it is turned over by `!`",
        ClockForm::Block => "the delay and the assignment are two statements",
        ClockForm::Initial => "the `initial` that sets it does more than that",
        ClockForm::Start => "what sets it isn't one constant by `=`",
        ClockForm::Forever => "the `initial` that turns it over doesn't set it first",
        ClockForm::Repeat => "it turns over in a `repeat`",
        ClockForm::Clock | ClockForm::Still => "",
    }
}

/// What gives a variable the form of a clock.
fn form_remedy(form: ClockForm) -> &'static str {
    match form {
        ClockForm::LogicalNot => "Write `clk = ~clk;`.\n",
        ClockForm::Block => "Write `always #5 clk = ~clk;`.\n",
        ClockForm::Initial => "Set the clock by itself: `reg clk = 0;` or `initial clk = 0;`.\n",
        ClockForm::Start => "Set the clock to one constant: `clk = 0;`.\n",
        ClockForm::Forever =>
            "Set it first in the same process: `initial begin clk = 0; forever #5 clk = ~clk; end`.\n",
        ClockForm::Repeat => "Write `always #5 clk = ~clk;`, and end by `$finish`.\n",
        ClockForm::Clock | ClockForm::Still => "",
    }
}

/// Puts that a variable isn't of the form of a clock, so that a write at its other edge counts as at this one.
fn put_formless(
    page: &mut Page,
    question: Question,
    course: &Course,
    root: usize,
    form: ClockForm,
    pair: &Pair,
) {
    if let Some(site) = culprit_of(question, root, form) {
        mark_site(page, question, site);
    }
    mark_site(page, question, pair.write);
    put_rule(page, 9);
    put_path(page, question, root);
    page.put(" isn't of the form of a clock, since ");
    page.put(lack_of(form));
    page.put(": so rise and fall aren't told apart, and ");
    put_site(page, question, pair.write);
    let times = course.times(pair.write.process, pair.write.number);
    if !times.is_empty() {
        page.put(", ");
        put_times(page, times);
        page.put(",");
    }
    page.put(" counts as at an edge at which ");
    put_site(page, question, pair.read);
    page.put(" reads ");
    put_path(page, question, pair.through);
    page.put(".\n");
    page.put(form_remedy(form));
}

/// The residues at which both sides of a pair can run, by the certificate.
fn both_by_claims(alloc: Global, question: Question, pair: &Pair) -> Result<Vec<u64>, AllocError> {
    let (Some(reader), Some(writer)) = (
        text_at(question, pair.read.process),
        text_at(question, pair.write.process),
    ) else {
        return Ok(Vec::new(alloc));
    };
    let reads = residues_of(alloc, question, reader)?;
    let writes = residues_of(alloc, question, writer)?;
    common(alloc, &reads, &writes)
}

/// The first pair whose sides can both run at one residue by the certificate, with these residues.
fn first_claimed<'p>(
    alloc: Global,
    question: Question,
    pairs: &'p [Pair],
) -> Result<Option<(&'p Pair, Vec<u64>)>, AllocError> {
    for pair in pairs {
        let both = both_by_claims(alloc, question, pair)?;
        if !both.is_empty() {
            return Ok(Some((pair, both)));
        }
    }
    Ok(None)
}

/// Puts that no time was found at which two run, and at which residues both can by the certificate.
fn put_claimed(page: &mut Page, question: Question, pair: &Pair, both: &[u64], roots: &[usize]) {
    mark_site(page, question, pair.write);
    let turning = roots
        .first()
        .and_then(|root| turning_of(question.facts, *root));
    match turning {
        Some(site) if has_clocks(question.facts) => mark_site(page, question, site),
        _ => mark_site(page, question, pair.read),
    }
    put_rule(page, 9);
    put_pair(page, question, pair);
    page.put(" by `=`. No time was found at which both run, but by the certificate both can at ");
    put_residues(page, both, question.certificate.modulus);
    page.put(".\n");
    page.put(if has_clocks(question.facts) {
        "The periods of clocks and stimuli have no small common multiple by which it shows. "
    } else {
        ""
    });
    page.put("Write it by `<=`.\n");
}

/// Puts a process of which no race was found.
fn put_unknown(page: &mut Page, question: Question) {
    put_marked(page, question.text, question.place);
    put_rule(page, 9);
    page.put("It reads a variable whose writer can run at the same times by the certificate.\n");
    page.put("Write it by `<=`.\n");
}

/// The facts that are found of a process.
#[derive(Drop)]
struct Found {
    course: Course,
    pairs: Vec<Pair>,
    roots: Vec<usize>,
    /// Which of the pairs is a race.
    race: Option<usize>,
}

/// Finds the races of a process.
fn find(alloc: Global, question: Question, process: usize) -> Result<Option<Found>, AllocError> {
    let Some(text) = text_at(question, process) else {
        return Ok(None);
    };
    let course = Course::of(alloc, question.facts)?;
    let roots = roots_of(alloc, question.facts, text)?;
    let mut pairs = pairs_of(alloc, question, process)?;
    let race = first_race(alloc, question, &course, &mut pairs, &roots)?;
    Ok(Some(Found {
        course,
        pairs,
        roots,
        race,
    }))
}

/// Puts the race of a process, or why it counts as one.
fn put_found(page: &mut Page, question: Question, process: usize, all: &Found) {
    let race = all.race.and_then(|index| all.pairs.get(index));
    if let Some(pair) = race {
        return put_race(page, question, &all.course, pair, &all.roots);
    }
    let other = first_other(&all.pairs, &all.roots, process);
    let turning = formless(question.facts, &all.roots);
    if let (Some((root, form)), Some(pair)) = (turning, other) {
        return put_formless(page, question, &all.course, root, form, pair);
    }
    let claimed = first_claimed(page.alloc(), question, &all.pairs);
    match found(page, claimed) {
        Some(Some((pair, both))) => put_claimed(page, question, pair, &both, &all.roots),
        _ => put_unknown(page, question),
    }
}

/// Says why a process breaks K9.
pub fn put_reads(page: &mut Page, question: Question) {
    let Some(process) = question.facts.process_named(question.place) else {
        return;
    };
    let all = find(page.alloc(), question, process);
    if let Some(Some(all)) = found(page, all) {
        put_found(page, question, process, &all);
    }
}
