//! Files of rows: questions with the answers that are wanted, and how what is answered is compared with these.
//!
//! A file has groups. A group begins with a line `==== TITLE` and a line of words, which say how its questions are meant. After these stand a line `----`,
//! one question of any length, a line `----` and its answer, exactly, with a line feed at its end (or no line, for an empty answer); or rows of a line each,
//! `QUESTION => ANSWER`, whose answers end with a line feed too.
#![tactic(auto)]

mod pieces;
mod sources;
mod text;

pub use pieces::put_pieces;
pub use sources::files_of;
use std::io::{self, Write};
use std::{env, fs};
pub use text::Text;

/// Who answers the questions of a file.
pub trait Answers {
    /// Puts the answer to a question, asked with these words, after the text.
    fn answer(&self, words: &str, question: &str, text: &mut Text);
}

/// A row: how its question is meant, the question, and what is wanted.
#[derive(Clone, Copy)]
struct Row<'t> {
    /// The title of its group.
    title: &'t str,
    /// The words of its group.
    words: &'t str,
    question: &'t str,
    /// The answer that is wanted without its last line feed, or `None` for an empty one.
    wanted: Option<&'t str>,
}

/// What the comparison of files has come to.
#[derive(Drop)]
struct Comparison {
    /// How many rows of the file were compared.
    rows: usize,
    /// How many of them differ.
    differ: usize,
    /// What is written in the end.
    report: Text,
}

/// Whether an answer is the one that is wanted. An answer that isn't whole is none.
fn is_wanted(answer: &Text, wanted: Option<&str>) -> bool {
    match (answer.whole(), wanted) {
        (Ok(bytes), Some(text)) => bytes.strip_suffix(b"\n") == Some(text.as_bytes()),
        (Ok(bytes), None) => bytes.is_empty(),
        (Err(_), _) => false,
    }
}

/// Tells a row whose answer differs.
fn tell(row: Row, answer: &Text, report: &mut Text) {
    report.put_all(&[
        "==== ",
        row.title,
        "\n",
        row.words,
        "\n----\n",
        row.question,
        "\n---- wanted\n",
        row.wanted.unwrap_or(""),
        "\n---- answered\n",
    ]);
    report.append(answer);
    report.put(b"\n");
}

/// Asks a row's question, and compares.
fn compare_row<A: Answers>(answers: &A, row: Row, comparison: &mut Comparison) {
    let mut answer = Text::new(comparison.report.alloc());
    answers.answer(row.words, row.question, &mut answer);
    comparison.rows = comparison.rows.saturating_add(1);
    if !is_wanted(&answer, row.wanted) {
        comparison.differ = comparison.differ.saturating_add(1);
        tell(row, &answer, &mut comparison.report);
    }
}

/// What stands before the first such separator, and what stands after it; where there is none, the whole text and nothing.
pub fn first_and_rest<'t>(text: &'t str, separator: &str) -> (&'t str, &'t str) {
    text.split_once(separator).unwrap_or((text, ""))
}

/// The row of a question between lines `----`, with its answer after it.
fn long_row<'t>(title: &'t str, words: &'t str, text: &'t str) -> Row<'t> {
    let (question, tail) = first_and_rest(text, "\n----");
    Row {
        title,
        words,
        question,
        wanted: tail.strip_prefix('\n'),
    }
}

/// The row of a line.
fn short_row<'t>(title: &'t str, words: &'t str, line: &'t str) -> Row<'t> {
    let (question, wanted) = line.rsplit_once(" => ").unwrap_or((line, ""));
    Row {
        title,
        words,
        question,
        wanted: Some(wanted),
    }
}

/// Compares the rows of a group, whose text stands after `==== `.
fn compare_group<A: Answers>(answers: &A, group: &str, comparison: &mut Comparison) {
    let (title, rest) = first_and_rest(group, "\n");
    let (words, body) = first_and_rest(rest, "\n");
    if let Some(text) = body.strip_prefix("----\n") {
        return compare_row(answers, long_row(title, words, text), comparison);
    }
    for line in body.split('\n') {
        compare_row(answers, short_row(title, words, line), comparison);
    }
}

/// Compares the rows of a file's text.
fn compare_text<A: Answers>(answers: &A, text: &str, comparison: &mut Comparison) {
    let (_, groups) = first_and_rest(text, "==== ");
    let groups = groups.strip_suffix('\n').unwrap_or(groups);
    for group in groups.split("\n==== ") {
        compare_group(answers, group, comparison);
    }
}

/// Compares the rows of a file, and writes each row that differs, and the number of its rows and of those that differ.
fn compare_file<A: Answers>(rt: &HostRuntime, answers: &A, name: &str) -> io::Result<()> {
    let text = fs::read_to_string(rt, name)?;
    let mut comparison = Comparison {
        rows: 0,
        differ: 0,
        report: Text::new(rt.alloc()),
    };
    compare_text(answers, &text, &mut comparison);
    let (rows, differ) = (comparison.rows, comparison.differ);
    let mut report = comparison.report;
    report.put_shown(format_args!("{name}: {rows} rows, {differ} differ\n"));
    rt.stdout().write_all(report.whole()?)
}

/// Compares the rows of the files of a folder that the words of the call name, and writes each row that differs, and of each file the number of its rows and
/// of those that differ.
pub fn compare_folder<A: Answers>(rt: &HostRuntime, folder: &str, answers: &A) -> io::Result<()> {
    for name in env::args(rt)?.skip(1) {
        let (of, _) = first_and_rest(&name, "/");
        if of == folder {
            compare_file(rt, answers, &name)?;
        }
    }
    Ok(())
}
