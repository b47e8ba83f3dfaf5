//! Calls with the arguments that rows write.
use std::alloc::Global;
use std::process::Abort;
use vs_design::vs_logic4::Vec4;
use vs_design::{Call, CallKind, FormatArg, Operand, Typed};

/// The vector of these 1 to 64 digits, the highest first; anything else is x.
fn vector(digits: &str) -> Vec4 {
    let (mut value, mut unknown) = (0u64, 0u64);
    for letter in digits.bytes() {
        value = value << 1 | u64::from(letter != b'0' && letter != b'z');
        unknown = unknown << 1 | u64::from(letter != b'0' && letter != b'1');
    }
    match digits.len() {
        1..=64 => Vec4::from_planes(digits.len() as u32, value, unknown),
        _ => Vec4::unknown(1),
    }
}

/// The argument that a word says: `time`, the signal `a`, or a value by its digits, with `s` before them where it is signed.
fn argument(word: &str) -> FormatArg {
    let a = Operand {
        signal: 1,
        width: 1,
        signed: false,
    };
    match (word, word.strip_prefix('s')) {
        ("time", _) => FormatArg::Time,
        ("a", _) => FormatArg::Value(false, Typed::Signal(a)),
        (_, Some(digits)) => FormatArg::Value(true, Typed::Number(vector(digits))),
        (digits, None) => FormatArg::Value(false, Typed::Number(vector(digits))),
    }
}

/// The arguments of a list of words.
pub fn arguments(rt: &impl Abort, alloc: Global, list: &str) -> Vec<FormatArg> {
    let mut args = Vec::new(alloc);
    for word in list.split_whitespace() {
        args.push(argument(word)).expect(rt, "memory");
    }
    args
}

/// The text of a question, and its list of arguments behind ` of `.
pub fn split(question: &str) -> (&str, &str) {
    question.rsplit_once(" of ").unwrap_or((question, ""))
}

/// A call in the scope `t`, with the arguments of a list.
pub fn call(rt: &impl Abort, alloc: Global, kind: CallKind, text: &str, list: &str) -> Call {
    Call {
        kind,
        text: Vec::from_slice(alloc, text.as_bytes()).expect(rt, "memory"),
        args: arguments(rt, alloc, list),
        path: Vec::from_slice(alloc, b"t").expect(rt, "memory"),
        ratio: 1,
    }
}
