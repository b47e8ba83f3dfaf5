//! Runs under twelve policies that write the same.

use crate::certified::checking::put_verdict;
use crate::certified::running::{Case, Written, run};
use std::alloc::{AllocError, Global};
use vs_program::Policy;
use vs_row_files::Text;

/// How many lists of choices there are.
const LISTS: u32 = 10;

/// How many choices are in a list; after these the first item is chosen.
const CHOICES: usize = 400;

/// The line before the body of a dump.
const DECLARED: &str = "$enddefinitions $end\n";

/// The choices of a list, by its number: upper halves of x, where the next x is 1,664,525 x + 1,013,904,223 modulo 2^32.
pub fn choices(alloc: Global, number: u32) -> Result<Vec<usize>, AllocError> {
    let mut x = number;
    let mut list = Vec::new(alloc);
    for _ in 0..CHOICES {
        x = x.wrapping_mul(1_664_525).wrapping_add(1_013_904_223);
        list.push((x >> 16) as usize)?;
    }
    Ok(list)
}

/// How often a line stands in a text.
fn count(text: &str, line: &str) -> usize {
    let mut times = 0usize;
    for other in text.split('\n') {
        if other == line {
            times = times.saturating_add(1);
        }
    }
    times
}

/// Whether two texts have the same lines, each as often.
fn have_same_lines(a: &[u8], b: &[u8]) -> bool {
    let (Ok(a), Ok(b)) = (str::from_utf8(a), str::from_utf8(b)) else {
        return false;
    };
    for line in a.split('\n') {
        if count(a, line) != count(b, line) {
            return false;
        }
    }
    a.len() == b.len()
}

/// Whether a run under a policy to this moment writes the same lines as one under `Fifo`, each as often.
fn are_lines_alike(alloc: Global, case: Case, until: u32, policy: &Policy) -> bool {
    match (
        run(alloc, case, until, &Policy::Fifo),
        run(alloc, case, until, policy),
    ) {
        (Some(first), Some(other)) => have_same_lines(&first.lines, &other.lines),
        _ => false,
    }
}

/// Whether a run under a policy writes the dump of the first run, and, where lines count, the same lines up to each moment.
fn is_alike(alloc: Global, case: Case, lines: bool, first: &Written, policy: &Policy) -> bool {
    let Some(other) = run(alloc, case, case.until, policy) else {
        return false;
    };
    if other.dump.as_slice() != first.dump.as_slice() {
        return false;
    }
    if !lines || first.lines.is_empty() && other.lines.is_empty() {
        return true;
    }
    for until in 0..case.until.saturating_add(1) {
        if !are_lines_alike(alloc, case, until, policy) {
            return false;
        }
    }
    true
}

/// How many of `Lifo` and the lists of choices write what the first run has written.
fn count_alike(alloc: Global, case: Case, lines: bool, first: &Written) -> Result<u32, AllocError> {
    let mut alike = u32::from(is_alike(alloc, case, lines, first, &Policy::Lifo));
    for number in 0..LISTS {
        let list = choices(alloc, number)?;
        if is_alike(alloc, case, lines, first, &Policy::Listed(&list)) {
            alike = alike.saturating_add(1);
        }
    }
    Ok(alike)
}

/// The body of a dump.
pub fn body_of(written: &Written) -> &str {
    let dump = str::from_utf8(&written.dump).unwrap_or("");
    match dump.split_once(DECLARED) {
        Some((_, body)) => body,
        None => dump,
    }
}

/// Puts what a run under `Fifo` writes, and how many schedules write the same.
fn put_schedules(case: Case, lines: bool, first: &Written, text: &mut Text) {
    let alloc = text.alloc();
    text.put(body_of(first).as_bytes());
    text.put(&first.lines);
    match count_alike(alloc, case, lines, first) {
        Ok(alike) => {
            text.put_shown(alike.saturating_add(1));
            text.put(b" schedules alike\n");
        }
        Err(_) => text.leave_out(),
    }
}

/// The verdict on a case; what a run under `Fifo` writes, the body of its dump and its lines; and how many of twelve schedules write the same dump
/// and, where lines count, up to each moment the same lines, each as often.
pub fn answer(case: Case, lines: bool, text: &mut Text) {
    put_verdict(case, text);
    match run(text.alloc(), case, case.until, &Policy::Fifo) {
        Some(first) => put_schedules(case, lines, &first, text),
        None => text.put(b"no run\n"),
    }
}
