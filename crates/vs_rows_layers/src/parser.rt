//! Rows of the parser: texts with the syntax trees that they have, or with their faults.
mod asked;
mod generated;
mod instances;
mod statements;
mod tasks;
mod trees;

use crate::parser::asked::{Asked, answer_of};
use vs_row_files::{Answers, Text, put_pieces};

/// Who parses.
#[derive(Clone, Copy)]
pub struct Texts;

/// What is asked with some words, and what stands before and behind the question in its source; a fault of the question alone with any others.
static KINDS: [(&str, Asked, &str, &str); 10] = [
    (
        "expression",
        Asked::Value,
        "module t; initial x = ",
        "; endmodule",
    ),
    (
        "left side before `=`",
        Asked::Left,
        "module t; initial ",
        " = x; endmodule",
    ),
    (
        "left side before `<=`",
        Asked::Left,
        "module t; initial ",
        " <= x; endmodule",
    ),
    ("item", Asked::Item, "module t; ", " endmodule"),
    ("items", Asked::Item, "module t; ", " endmodule"),
    (
        "statement",
        Asked::Statement,
        "module t; initial ",
        " endmodule",
    ),
    ("header", Asked::Header, "module ", " endmodule"),
    ("source", Asked::Source, "", ""),
    (
        "refused behind `module t; `",
        Asked::Fault,
        "module t; ",
        "",
    ),
    (
        "refused behind `module t; initial `",
        Asked::Fault,
        "module t; initial ",
        "",
    ),
];

/// What is asked with these words, and what stands before and behind the question in its source.
fn asked_with(words: &str) -> (Asked, &'static str, &'static str) {
    for (name, asked, before, behind) in &KINDS {
        if *name == words {
            return (*asked, *before, *behind);
        }
    }
    (Asked::Fault, "", "")
}

/// Puts what is answered of a question that is asked with these words.
fn answer(words: &str, question: &str, text: &mut Text) {
    let (asked, before, behind) = asked_with(words);
    let mut source = Text::new(text.alloc());
    if words == "pieces" {
        put_pieces(question, &mut source);
    } else {
        source.put(before.as_bytes());
        source.put(question.as_bytes());
        source.put(behind.as_bytes());
    }
    match source.whole() {
        Ok(bytes) => answer_of(asked, bytes, text),
        Err(_) => text.leave_out(),
    }
}

/// Puts what is answered of a left side before `=` and before `<=`, where it is the same; else both.
fn left_side(question: &str, text: &mut Text) {
    let mut blocking = Text::new(text.alloc());
    let mut later = Text::new(text.alloc());
    answer("left side before `=`", question, &mut blocking);
    answer("left side before `<=`", question, &mut later);
    match (blocking.whole(), later.whole()) {
        (Ok(one), Ok(other)) if one == other => text.put(one),
        _ => {
            text.append(&blocking);
            text.put(b"; ");
            text.append(&later);
        }
    }
}

impl Answers for Texts {
    fn answer(&self, words: &str, question: &str, text: &mut Text) {
        match words {
            "left side" => left_side(question, text),
            _ => answer(words, question, text),
        }
        text.put(b"\n");
    }
}
