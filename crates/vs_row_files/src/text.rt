//! Texts that are put together piece by piece.

use std::alloc::{AllocError, Global};
use std::fmt::Display;
use std::io::Write;

/// A text that is put together piece by piece. A piece that finds no room is left out, and in the end the text says whether it is whole.
#[derive(Drop)]
pub struct Text {
    alloc: Global,
    bytes: Vec<u8>,
    /// Whether a piece found no room.
    is_short: bool,
}

impl Text {
    /// No bytes.
    pub fn new(alloc: Global) -> Text {
        Text {
            alloc,
            bytes: Vec::new(alloc),
            is_short: false,
        }
    }

    /// Where its bytes come from.
    pub fn alloc(&self) -> Global {
        self.alloc
    }

    /// Puts bytes after the text.
    pub fn put(&mut self, piece: &[u8]) {
        if self.bytes.extend_from_slice(piece).is_err() {
            self.is_short = true;
        }
    }

    /// Puts words after the text, one after the other.
    pub fn put_all(&mut self, words: &[&str]) {
        for word in words {
            self.put(word.as_bytes());
        }
    }

    /// Puts what is shown of a value after the text: the decimal digits of a number, a letter, a word.
    pub fn put_shown<T: Display + Drop>(&mut self, value: T) {
        if write!(self.bytes, "{value}").is_err() {
            self.is_short = true;
        }
    }

    /// Puts a piece after the text that itself took memory, if there was enough.
    pub fn put_made(&mut self, piece: Result<Vec<u8>, AllocError>) {
        match piece {
            Ok(bytes) => self.put(&bytes),
            Err(_) => self.is_short = true,
        }
    }

    /// Puts another text after this one; where that one isn't whole, this one isn't either.
    pub fn append(&mut self, other: &Text) {
        self.put(&other.bytes);
        if other.is_short {
            self.is_short = true;
        }
    }

    /// Leaves a piece out that found no room.
    pub fn leave_out(&mut self) {
        self.is_short = true;
    }

    /// All of it, where each piece found room.
    pub fn whole(&self) -> Result<&[u8], AllocError> {
        if self.is_short {
            return Err(AllocError);
        }
        Ok(self.bytes.as_slice())
    }
}
