//! Designs whose values depend on the order.

use crate::certified::checking::put_verdict;
use crate::certified::running::{Case, run};
use vs_program::Policy;
use vs_row_files::{Text, first_and_rest};

/// The code of a signal of the top module in a dump.
fn code_of<'d>(dump: &'d str, signal: &str) -> Option<&'d str> {
    for line in dump.split('\n') {
        let Some(words) = line.strip_prefix("$var ") else {
            continue;
        };
        let (_, rest) = words.split_once(" ")?;
        let (_, rest) = rest.split_once(" ")?;
        let (code, rest) = rest.split_once(" ")?;
        let (name, _) = rest.split_once(" ")?;
        if name == signal {
            return Some(code);
        }
    }
    None
}

/// The value that a line of a dump gives the signal of this code: a digit, or digits between a `b` and a space.
fn value_in<'d>(line: &'d str, code: &str) -> Option<&'d str> {
    let value = line.strip_suffix(code)?;
    match value.strip_prefix("b") {
        Some(digits) => digits.strip_suffix(" "),
        None if value.len() == 1 => Some(value),
        None => None,
    }
}

/// The last value that a dump gives a signal.
fn last_value<'d>(dump: &'d str, signal: &str) -> Option<&'d str> {
    let code = code_of(dump, signal)?;
    let mut last = None;
    for line in dump.split('\n') {
        if let Some(value) = value_in(line, code) {
            last = Some(value);
        }
    }
    last
}

/// Puts the last value of a signal in a run under a policy.
fn put_value(case: Case, signal: &str, policy: &Policy, text: &mut Text) {
    let Some(written) = run(text.alloc(), case, case.until, policy) else {
        return text.put(b"no run");
    };
    let dump = str::from_utf8(&written.dump).unwrap_or("");
    text.put(last_value(dump, signal).unwrap_or("no value").as_bytes());
}

/// The verdict on a case, and the values of a signal at the end of the last slot under `Fifo` and under another policy: `lifo`, or `listed` for the
/// choices 0 and 1.
pub fn answer(case: Case, words: &str, text: &mut Text) {
    let (signal, other) = first_and_rest(words, " ");
    put_verdict(case, text);
    text.put(b"fifo ");
    put_value(case, signal, &Policy::Fifo, text);
    text.put_all(&[", ", other, " "]);
    let policy = match other {
        "listed" => Policy::Listed(&[0, 1]),
        _ => Policy::Lifo,
    };
    put_value(case, signal, &policy, text);
    text.put(b"\n");
}
