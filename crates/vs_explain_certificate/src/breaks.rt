//! Where bytes break off from JSON.

use json::{Reader, Scratch, Token};
use serde_json::Value;
use std::alloc::{AllocError, Global};

/// How deep arrays and objects nest at most.
const DEPTH_LIMIT: usize = 127;

/// The fewest digits and letters of a number that no double holds, as `9e308`.
const SHORTEST_TOO_LARGE: usize = 5;

/// Why bytes are no JSON text.
#[derive(Clone, Copy, PartialEq, Eq)]
pub(crate) enum Reason {
    /// A byte isn't UTF-8.
    NoUtf8,
    /// The bytes end too early.
    Ended,
    /// What begins there is no token, or stands where it can't.
    Misplaced,
    /// The name of a member, or the end of an object is wanted.
    NoName,
    /// Arrays and objects nest too deep.
    TooDeep,
    /// No double holds a number.
    TooLarge,
    /// Something stands after the value.
    NotOne,
}

/// A place at which bytes break off from JSON, and why.
#[derive(Clone, Copy)]
pub(crate) struct Break {
    pub(crate) reason: Reason,
    /// Its byte.
    pub(crate) place: usize,
}

/// What is open after some tokens.
#[derive(Drop)]
struct Nesting {
    /// For each open array and object, whether it is an object.
    open: Vec<bool>,
    /// Whether the last token is the name of a member.
    is_named: bool,
    /// Whether the one value has ended.
    is_done: bool,
}

/// Whether no double holds a number.
fn is_too_large(alloc: Global, number: &str) -> bool {
    number.len() >= SHORTEST_TOO_LARGE && Value::from_str(alloc, number).is_err()
}

impl Nesting {
    fn new(alloc: Global) -> Nesting {
        Nesting {
            open: Vec::new(alloc),
            is_named: false,
            is_done: false,
        }
    }

    /// Whether the innermost one that is open is an object.
    fn in_object(&self) -> bool {
        self.open.last() == Some(&true)
    }

    /// Whether the name of a member is wanted, or the end of an object.
    fn wants_name(&self) -> bool {
        self.in_object() && !self.is_named
    }

    /// A value has ended.
    fn end_value(&mut self) {
        self.is_named = false;
        self.is_done = self.open.is_empty();
    }

    /// An array or an object ends, where the innermost one that is open is such. Why it can't.
    fn close(&mut self, is_object: bool) -> Option<Reason> {
        if self.is_named || self.open.last() != Some(&is_object) {
            return Some(Reason::Misplaced);
        }
        let _closed = self.open.pop();
        self.end_value();
        None
    }

    /// An array or an object begins. Why it can't.
    fn begin(&mut self, is_object: bool) -> Result<Option<Reason>, AllocError> {
        if self.open.len() >= DEPTH_LIMIT {
            return Ok(Some(Reason::TooDeep));
        }
        self.open.push(is_object)?;
        self.is_named = false;
        Ok(None)
    }

    /// The name of a member comes. Why it can't.
    fn name(&mut self) -> Option<Reason> {
        if !self.wants_name() {
            return Some(Reason::Misplaced);
        }
        self.is_named = true;
        None
    }

    /// One more token. Why it can't come.
    fn take(&mut self, alloc: Global, token: Token) -> Result<Option<Reason>, AllocError> {
        if self.is_done {
            return Ok(Some(Reason::NotOne));
        }
        match token {
            Token::Bad => return Ok(Some(Reason::Misplaced)),
            Token::Key(_) => return Ok(self.name()),
            Token::EndObject => return Ok(self.close(true)),
            Token::EndArray => return Ok(self.close(false)),
            _ => {}
        }
        if self.wants_name() {
            return Ok(Some(Reason::NoName));
        }
        match token {
            Token::BeginObject => return self.begin(true),
            Token::BeginArray => return self.begin(false),
            Token::Number(number) if is_too_large(alloc, number) => {
                return Ok(Some(Reason::TooLarge));
            }
            _ => self.end_value(),
        }
        Ok(None)
    }
}

/// The first place at which a text breaks off from JSON.
fn break_in(alloc: Global, text: &str) -> Result<Option<Break>, AllocError> {
    let mut scratch = Scratch::new(alloc);
    let mut reader = Reader::new(text, &mut scratch)?;
    let mut nesting = Nesting::new(alloc);
    for _ in 0..text.len() {
        let place = reader.offset();
        let Some(token) = reader.next() else {
            break;
        };
        if let Some(reason) = nesting.take(alloc, token)? {
            let reason = if place >= text.len() {
                Reason::Ended
            } else {
                reason
            };
            return Ok(Some(Break { reason, place }));
        }
    }
    let reason = Reason::Ended;
    let place = text.len();
    Ok(if nesting.is_done {
        None
    } else {
        Some(Break { reason, place })
    })
}

/// The first place at which bytes break off from JSON; none where they are a JSON text.
pub(crate) fn break_of(alloc: Global, bytes: &[u8]) -> Result<Option<Break>, AllocError> {
    match str::from_utf8(bytes) {
        Ok(text) => break_in(alloc, text),
        Err(fault) => Ok(Some(Break {
            reason: Reason::NoUtf8,
            place: fault.valid_up_to(),
        })),
    }
}
