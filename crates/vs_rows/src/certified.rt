//! Rows of certified designs: a certificate on the first line and a design after it, with the verdict of the checker and what runs under several
//! policies write.
mod checking;
mod executions;
mod races;
mod running;
mod schedules;

use crate::certified::running::Case;
use vs_row_files::{Answers, Text, first_and_rest};

/// The answer of a kind of question.
fn put_answer(kind: &str, rest: &str, case: Case, text: &mut Text) {
    match kind {
        "schedules" => schedules::answer(case, true, text),
        "dumps" => schedules::answer(case, false, text),
        "race" => races::answer(case, rest, text),
        "executions" => executions::answer(case, rest, text),
        _ => text.put(b"no such question\n"),
    }
}

/// Who checks and runs.
#[derive(Clone, Copy)]
pub(crate) struct CertifiedRuns;

impl Answers for CertifiedRuns {
    fn answer(&self, words: &str, question: &str, text: &mut Text) {
        let (kind, rest) = first_and_rest(words, " ");
        let (top, rest) = first_and_rest(rest, " ");
        let (until, rest) = first_and_rest(rest, " ");
        let (certificate, source) = first_and_rest(question, "\n");
        let case = Case {
            certificate,
            source,
            top,
            until: until.parse().ok().unwrap_or(0),
        };
        put_answer(kind, rest, case, text)
    }
}
