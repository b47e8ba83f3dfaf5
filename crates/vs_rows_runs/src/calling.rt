//! How the program is called.

use crate::short::Short;
use std::alloc::{AllocError, Global};
use std::io::{self, ErrorKind, Read};
use vs_program::program;

/// What the program answered.
#[derive(Drop)]
pub struct Answer {
    pub status: u8,
    pub out: Vec<u8>,
    pub err: Vec<u8>,
}

/// A source as a reader, which counts what it gave.
#[derive(Drop)]
pub struct Input<'s> {
    /// What is left.
    pub rest: &'s [u8],
    /// How many bytes it gave.
    pub given: usize,
    /// Whether it fails behind its last byte.
    pub fails: bool,
}

impl<'s> Input<'s> {
    /// A reader that gives a source and ends.
    pub fn new(source: &'s [u8]) -> Self {
        Input {
            rest: source,
            given: 0,
            fails: false,
        }
    }
}

impl<'s> Read for Input<'s> {
    fn read(&mut self, buf: &mut [u8]) -> io::Result<usize> {
        if self.fails && self.rest.is_empty() {
            return Err(io::Error::from(ErrorKind::BrokenPipe));
        }
        let n = buf.len().min(self.rest.len());
        buf[..n].copy_from_slice(&self.rest[..n]);
        self.rest = &self.rest[n..];
        self.given = self.given.saturating_add(n);
        Ok(n)
    }
}

/// Runs the program with these words, a reader and a writer, and answers its status and what it told.
pub fn call(
    alloc: Global,
    words: &str,
    input: &mut Input,
    out: &mut Short,
) -> Result<(u8, Vec<u8>), AllocError> {
    let mut list = Vec::new(alloc);
    for word in words.split_whitespace() {
        list.push(word)?;
    }
    let mut err = Vec::new(alloc);
    let (status, _) = program(alloc, list.as_slice(), input, out, &mut err);
    Ok((status, err))
}

/// Runs the program on a source with these words.
pub fn run(alloc: Global, words: &str, source: &[u8]) -> Result<Answer, AllocError> {
    let mut out = Short::new(alloc, usize::MAX, true);
    let (status, err) = call(alloc, words, &mut Input::new(source), &mut out)?;
    Ok(Answer {
        status,
        out: out.taken,
        err,
    })
}
