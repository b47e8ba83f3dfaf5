//! Rows of the whole program: sources with the exact bytes that it writes for them, and expressions with the digits of their values.
mod expressions;
mod signals;

use std::alloc::Global;
use vs_program::program;
use vs_row_files::{Answers, Text, put_pieces};

/// Who asks the program.
#[derive(Clone, Copy)]
pub(crate) struct Calls;

/// What a call of the program answers.
#[derive(Drop)]
struct Answer {
    status: u8,
    out: Vec<u8>,
    err: Vec<u8>,
}

/// Calls the program with words on a source.
fn run(alloc: Global, words: &[&str], source: &[u8]) -> Answer {
    let mut out = Vec::new(alloc);
    let mut err = Vec::new(alloc);
    let (status, _) = program(alloc, words, source, &mut out, &mut err);
    Answer { status, out, err }
}

/// Puts what an answer has: what the program wrote, and where it refused something or failed, a line with its status and the text of its refusal.
fn put_answer(answer: &Answer, text: &mut Text) {
    text.put(&answer.out);
    if answer.status != 0 || !answer.err.is_empty() {
        text.put(b"---- ");
        text.put_shown(answer.status);
        text.put(b"\n");
        text.put(&answer.err);
    }
}

/// Whether an answer is a refusal of the source, and nothing else was written.
fn is_refusal(answer: &Answer) -> bool {
    answer.status == 1 && answer.out.is_empty()
}

/// A source that runs and listings refuse alike: the text of its refusal; else both answers.
fn refused(source: &[u8], text: &mut Text) {
    let words = ["vsim", "run", "--top", "t", "--until", "10", "--out", "vcd"];
    let run = run(text.alloc(), &words, source);
    let listed = crate::program::run(text.alloc(), &["vsim", "elab", "--top", "t"], source);
    if is_refusal(&run) && is_refusal(&listed) && run.err.as_slice() == listed.err.as_slice() {
        return text.put(&run.err);
    }
    put_answer(&run, text);
    put_answer(&listed, text);
}

/// Whether a source runs, or is refused with a text.
fn runs_or_refuses(alloc: Global, source: &[u8]) -> bool {
    let words = ["vsim", "run", "--top", "t", "--until", "10"];
    let answer = run(alloc, &words, source);
    let has_text = answer.err.as_slice().starts_with(b"vsim: ");
    answer.status < 2 && (answer.status == 1) == has_text
}

/// A source that is cut after each byte: how many of the cut ones run or are refused with a text.
fn cut(source: &[u8], text: &mut Text) {
    let mut told = 0usize;
    for length in 0..source.len() {
        if runs_or_refuses(text.alloc(), &source[..length]) {
            told = told.saturating_add(1);
        }
    }
    text.put_shown(told);
    text.put(b"\n");
}

/// A call on a source: what the program answers.
fn called(words: &str, source: &[u8], text: &mut Text) {
    let mut list = Vec::new(text.alloc());
    for word in words.split_whitespace() {
        if list.push(word).is_err() {
            text.leave_out();
        }
    }
    put_answer(&run(text.alloc(), &list, source), text);
}

/// The same of a source that is made of repeated pieces.
fn called_on_pieces(words: &str, pieces: &str, text: &mut Text) {
    let mut source = Text::new(text.alloc());
    put_pieces(pieces, &mut source);
    match source.whole() {
        Ok(bytes) => called(words, bytes, text),
        Err(_) => text.leave_out(),
    }
}

/// A source for which a certificate is to be made by rules, at grain block: the verdict on what is made, or why it isn't.
fn made(top: &str, rules: &str, source: &[u8], text: &mut Text) {
    let words = ["vsim", "certify", "--rules", rules, "--top", top];
    let certificate = run(text.alloc(), &words, source);
    if certificate.status != 0 {
        return put_answer(&certificate, text);
    }
    let mut both = certificate.out;
    if both.extend_from_slice(source).is_err() {
        return text.leave_out();
    }
    let words = ["vsim", "check", "--rules", rules, "--top", top];
    put_answer(&run(text.alloc(), &words, &both), text);
}

impl Answers for Calls {
    fn answer(&self, words: &str, question: &str, text: &mut Text) {
        let (kind, rest) = words.split_once(' ').unwrap_or((words, ""));
        match kind {
            "vsim" => called(words, question.as_bytes(), text),
            "pieces" => called_on_pieces(rest, question, text),
            "refused" => refused(question.as_bytes(), text),
            "cut" => cut(question.as_bytes(), text),
            "made" => made(rest, "narrow", question.as_bytes(), text),
            "wide" => made(rest, "wide", question.as_bytes(), text),
            _ => expressions::answer(words, question, text),
        }
    }
}
