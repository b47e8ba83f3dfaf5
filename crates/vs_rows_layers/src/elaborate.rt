//! Rows of elaboration: sources with the parts of their designs, or with their faults.
mod elaborating;
mod showing;

use crate::elaborate::elaborating::{Asked, answer_of};
use vs_row_files::{Answers, Text, put_pieces};

/// Who elaborates.
#[derive(Clone, Copy)]
pub struct Sources;

/// Whether what is told is one of some answers, with `; ` between these.
fn is_one(told: &[u8], answers: &str) -> bool {
    for answer in answers.split("; ") {
        if told == answer.as_bytes() {
            return true;
        }
    }
    false
}

/// What is told of a source where it is one of some answers, with `; ` between these: all of them, else what is told.
fn one_of(answers: &str, source: &str, text: &mut Text) {
    let mut told = Text::new(text.alloc());
    answer_of(Asked::Told, "t", source.as_bytes(), &mut told);
    match told.whole() {
        Ok(bytes) if is_one(bytes, answers) => text.put(answers.as_bytes()),
        _ => text.append(&told),
    }
}

/// What is told of a source that is made of repeated pieces.
fn answer_of_pieces(top: &str, pieces: &str, text: &mut Text) {
    let mut source = Text::new(text.alloc());
    put_pieces(pieces, &mut source);
    match source.whole() {
        Ok(bytes) => answer_of(Asked::Told, top, bytes, text),
        Err(_) => text.leave_out(),
    }
}

/// What is asked with this word.
fn asked_with(word: &str) -> Asked {
    match word {
        "signals" => Asked::Signals,
        "assignments" => Asked::Assigns,
        "processes" => Asked::Processes,
        "outline" => Asked::Outline,
        _ => Asked::Told,
    }
}

impl Answers for Sources {
    fn answer(&self, words: &str, question: &str, text: &mut Text) {
        let (word, rest) = words.split_once(" of ").unwrap_or((words, "t"));
        match word {
            "pieces" => answer_of_pieces(rest, question, text),
            "one" => one_of(rest, question, text),
            _ => answer_of(asked_with(word), rest, question.as_bytes(), text),
        }
        text.put(b"\n");
    }
}
