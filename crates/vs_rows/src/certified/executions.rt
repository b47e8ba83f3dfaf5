//! Two executions of a design that no certificate accepts.

use crate::certified::checking::put_verdict;
use crate::certified::running::{Case, Written, run};
use crate::certified::schedules::{body_of, choices};
use vs_program::Policy;
use vs_row_files::Text;

/// What a run by a list of choices writes, the body of its dump and its lines; `None` where it comes to no end.
fn run_by(text: &Text, case: Case, list: &str) -> Option<Written> {
    let alloc = text.alloc();
    let number = list.parse().ok()?;
    let choices = choices(alloc, number).ok()?;
    run(alloc, case, case.until, &Policy::Listed(&choices))
}

/// Puts what a run by a list of choices writes, after a line with its number.
fn put_run(case: Case, list: &str, text: &mut Text) {
    text.put_all(&["list ", list, "\n"]);
    match run_by(text, case, list) {
        Some(written) => {
            text.put(body_of(&written).as_bytes());
            text.put(&written.lines);
        }
        None => text.put(b"no run\n"),
    }
}

/// The verdict on a case, and what runs by two lists of choices write, by their numbers.
pub fn answer(case: Case, words: &str, text: &mut Text) {
    let (first, second) = words.split_once(" ").unwrap_or((words, ""));
    put_verdict(case, text);
    put_run(case, first, text);
    put_run(case, second, text);
}
