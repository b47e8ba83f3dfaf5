//! An explanation: words, and the places that stand between them.

use crate::places::{Spot, spot_of};
use std::alloc::{AllocError, Global};

/// How many bytes of a line are shown before the mark, and how many from it on.
const SHOWN: usize = 60;

/// Which text a place is of.
#[derive(Clone, Copy, PartialEq, Eq)]
pub enum PlacedIn {
    /// The source.
    Source,
    /// The certificate.
    Certificate,
}

/// How a place is told.
#[derive(Clone, Copy, PartialEq, Eq)]
pub enum PlaceForm {
    /// By its line.
    Line,
    /// By its line and its column.
    Spot,
    /// By its line and its column, and below them by the line with a mark under it. It ends a line of the explanation.
    Marked,
}

/// A place that is told between words.
#[derive(Clone, Copy)]
pub struct Placed {
    /// How many bytes of the words stand before it.
    pub before: usize,
    /// The byte of its text, from 0.
    pub place: usize,
    /// Its text.
    pub text: PlacedIn,
    /// How it is told.
    pub form: PlaceForm,
}

/// Words, and the places that stand between them, in the order in which they are told.
#[derive(Drop)]
pub struct Explanation {
    /// The words, each line with its line feed but those that a place ends.
    pub words: Vec<u8>,
    /// The places.
    pub places: Vec<Placed>,
}

/// What is shown for a byte: a tab and a visible letter as it is, any other one as `?`.
pub fn shown_byte(byte: u8) -> u8 {
    if byte == b'\t' || byte == b' ' || byte.is_ascii_graphic() {
        byte
    } else {
        b'?'
    }
}

/// What stands under a byte that comes before the mark.
fn blank_under(byte: u8) -> u8 {
    if byte == b'\t' { b'\t' } else { b' ' }
}

/// Puts bytes on one line behind a text.
pub fn push_shown(text: &mut Vec<u8>, bytes: &[u8]) -> Result<(), AllocError> {
    for byte in bytes {
        text.push(shown_byte(*byte))?;
    }
    Ok(())
}

/// Puts a line behind a text, and a mark under the byte of it that stands behind so many.
pub fn push_marked(text: &mut Vec<u8>, line: &[u8], before: usize) -> Result<(), AllocError> {
    let mark = before.min(line.len());
    let from = mark.saturating_sub(SHOWN);
    let to = mark.saturating_add(SHOWN).min(line.len());
    text.extend_from_slice(b"  ")?;
    push_shown(text, line.get(from..to).unwrap_or(&[]))?;
    text.extend_from_slice(b"\n  ")?;
    for byte in line.get(from..mark).unwrap_or(&[]) {
        text.push(blank_under(*byte))?;
    }
    text.extend_from_slice(b"^\n")
}

/// Puts a place of a text behind another one, told by the lines of its own text: `line 3, column 7`.
pub fn push_place(
    alloc: Global,
    told: &mut Vec<u8>,
    bytes: &[u8],
    placed: &Placed,
) -> Result<(), AllocError> {
    let Spot {
        line,
        column,
        start,
        end,
    } = spot_of(bytes, placed.place);
    let number = format!(in alloc; "line {line}")?;
    told.extend_from_slice(number.as_bytes())?;
    if placed.form != PlaceForm::Line {
        let number = format!(in alloc; ", column {column}")?;
        told.extend_from_slice(number.as_bytes())?;
    }
    if placed.form == PlaceForm::Marked {
        told.extend_from_slice(b":\n")?;
        let line = bytes.get(start..end).unwrap_or(&[]);
        push_marked(told, line, column.saturating_sub(1))?;
    }
    Ok(())
}

impl Explanation {
    /// The words between two numbers of bytes.
    pub fn between(&self, from: usize, to: usize) -> &[u8] {
        self.words.get(from..to).unwrap_or(&[])
    }

    /// The text of it, in which places are told by the lines of the source and of the certificate.
    pub fn plain(
        &self,
        alloc: Global,
        source: &[u8],
        certificate: &[u8],
    ) -> Result<Vec<u8>, AllocError> {
        let mut told = Vec::new(alloc);
        let mut from = 0usize;
        for placed in &self.places {
            told.extend_from_slice(self.between(from, placed.before))?;
            let bytes = match placed.text {
                PlacedIn::Source => source,
                PlacedIn::Certificate => certificate,
            };
            push_place(alloc, &mut told, bytes, placed)?;
            from = placed.before;
        }
        told.extend_from_slice(self.between(from, self.words.len()))?;
        Ok(told)
    }
}
