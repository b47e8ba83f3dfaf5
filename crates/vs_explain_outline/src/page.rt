//! An explanation that is put together.

use crate::explanation::{Explanation, PlaceForm, Placed, PlacedIn, shown_byte};
use std::alloc::{AllocError, Global};
use std::fmt::Display;
use std::io::Write;

/// An explanation, put together piece by piece. In the end it says whether each piece found room.
#[derive(Drop)]
pub struct Page {
    alloc: Global,
    words: Vec<u8>,
    places: Vec<Placed>,
    /// Whether a piece found no room.
    is_short: bool,
}

impl Page {
    /// No words.
    pub fn new(alloc: Global) -> Page {
        Page {
            alloc,
            words: Vec::new(alloc),
            places: Vec::new(alloc),
            is_short: false,
        }
    }

    /// Where its bytes come from.
    pub fn alloc(&self) -> Global {
        self.alloc
    }

    /// Whether a place was put.
    pub fn has_place(&self) -> bool {
        !self.places.is_empty()
    }

    /// Says that a piece found no room.
    pub fn leave_out(&mut self) {
        self.is_short = true;
    }

    fn put_byte(&mut self, byte: u8) {
        if self.words.push(byte).is_err() {
            self.is_short = true;
        }
    }

    /// Puts words.
    pub fn put(&mut self, words: &str) {
        if self.words.extend_from_slice(words.as_bytes()).is_err() {
            self.is_short = true;
        }
    }

    /// Puts what is shown of a value.
    pub fn put_shown<T: Display + Drop>(&mut self, value: T) {
        if write!(self.words, "{value}").is_err() {
            self.is_short = true;
        }
    }

    /// Puts bytes of a source on one line.
    pub fn put_bytes(&mut self, bytes: &[u8]) {
        for byte in bytes {
            self.put_byte(shown_byte(*byte));
        }
    }

    /// Puts a name of a source between quotes.
    pub fn put_name(&mut self, name: &[u8]) {
        self.put("`");
        self.put_bytes(name);
        self.put("`");
    }

    fn put_placed(&mut self, text: PlacedIn, form: PlaceForm, place: usize) {
        let placed = Placed {
            before: self.words.len(),
            place,
            text,
            form,
        };
        if self.places.push(placed).is_err() {
            self.is_short = true;
        }
    }

    /// Puts the line of a place of the source, as `line 3`.
    pub fn put_line(&mut self, place: usize) {
        self.put_placed(PlacedIn::Source, PlaceForm::Line, place);
    }

    /// Puts the line and the column of a place of the source, as `line 3, column 7`.
    pub fn put_spot(&mut self, place: usize) {
        self.put_placed(PlacedIn::Source, PlaceForm::Spot, place);
    }

    /// Puts the line and the column of a place of the source, its line, and a mark under the place.
    pub fn put_place(&mut self, place: usize) {
        self.put_placed(PlacedIn::Source, PlaceForm::Marked, place);
    }

    /// Puts the line and the column of a place of the certificate.
    pub fn put_certificate_spot(&mut self, place: usize) {
        self.put_placed(PlacedIn::Certificate, PlaceForm::Spot, place);
    }

    /// Puts the line and the column of a place of the certificate, its line, and a mark under the place.
    pub fn put_certificate_place(&mut self, place: usize) {
        self.put_placed(PlacedIn::Certificate, PlaceForm::Marked, place);
    }

    /// All of it, where each piece found room.
    pub fn finish(self) -> Result<Explanation, AllocError> {
        let Page {
            alloc: _,
            words,
            places,
            is_short,
        } = self;
        if is_short {
            return Err(AllocError);
        }
        Ok(Explanation { words, places })
    }
}
