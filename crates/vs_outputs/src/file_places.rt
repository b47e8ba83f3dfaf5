//! Places as they are told where the source is the text of files.

use std::alloc::{AllocError, Global};
use vs_explain::{
    Explanation, PlaceForm, Placed, PlacedIn, push_marked, push_place, push_shown, spot_of,
};
use vs_preprocess::{Line, Places, Spot};

/// How many files include one another at most.
const FILES_NESTED: usize = 64;

/// Where the bytes of a source come from, and a certificate, which has a name of its own.
#[derive(Clone, Copy)]
pub(crate) struct Sheet<'p> {
    pub(crate) alloc: Global,
    pub(crate) places: &'p Places,
    pub(crate) certificate: &'p [u8],
    pub(crate) certificate_name: &'p [u8],
}

/// Puts a place behind a text, as `a.v:4:13`.
pub(crate) fn push_line(alloc: Global, text: &mut Vec<u8>, line: &Line) -> Result<(), AllocError> {
    let (number, column) = (line.number, line.column);
    push_shown(text, line.name)?;
    let numbers = format!(in alloc; ":{number}:{column}")?;
    text.extend_from_slice(numbers.as_bytes())
}

/// Puts the line of a place behind a text, without a carriage return at its end, and a mark under the place.
pub(crate) fn push_mark(text: &mut Vec<u8>, line: &Line) -> Result<(), AllocError> {
    let shown = line.text.strip_suffix(b"\r").unwrap_or(line.text);
    push_marked(text, shown, line.column.saturating_sub(1))
}

/// Puts a note of a place behind a text: `a.v:4:13: note: included here`.
pub(crate) fn push_note(
    alloc: Global,
    text: &mut Vec<u8>,
    line: &Line,
    words: &[u8],
) -> Result<(), AllocError> {
    push_line(alloc, text, line)?;
    text.extend_from_slice(b": note: ")?;
    push_shown(text, words)?;
    text.push(b'\n')?;
    Ok(())
}

/// Puts notes of where the file of a place is included.
fn push_includers(
    alloc: Global,
    text: &mut Vec<u8>,
    places: &Places,
    spot: Spot,
) -> Result<(), AllocError> {
    let mut file = spot.file;
    for _ in 0..FILES_NESTED {
        let Some(at) = places.includer(file) else {
            break;
        };
        push_note(alloc, text, &places.line(at), b"included here")?;
        file = at.file;
    }
    Ok(())
}

/// Puts notes of where the definition stands of the macro in whose expansion a place is, and of where its file is included.
pub(crate) fn push_notes(
    alloc: Global,
    text: &mut Vec<u8>,
    places: &Places,
    spot: Spot,
    definition: Option<usize>,
) -> Result<(), AllocError> {
    if let Some((name, at)) = definition.and_then(|number| places.definition(number)) {
        let mut words = Vec::from_slice(alloc, b"in the text of `")?;
        words.extend_from_slice(name)?;
        push_note(alloc, text, &places.line(at), &words)?;
    }
    push_includers(alloc, text, places, spot)
}

impl<'p> Sheet<'p> {
    /// The line of a place of an explanation. A text without bytes has none.
    pub(crate) fn line_of(&self, placed: &Placed) -> Option<Line<'p>> {
        match placed.text {
            PlacedIn::Source => {
                let origin = self.places.spot(placed.place)?;
                Some(self.places.line(origin.spot))
            }
            PlacedIn::Certificate => {
                let spot = spot_of(self.certificate, placed.place);
                Some(Line {
                    name: self.certificate_name,
                    number: spot.line,
                    column: spot.column,
                    text: self.certificate.get(spot.start..spot.end).unwrap_or(&[]),
                })
            }
        }
    }

    /// Puts notes on a place of an explanation behind a text.
    pub(crate) fn push_notes_of(
        &self,
        text: &mut Vec<u8>,
        placed: &Placed,
    ) -> Result<(), AllocError> {
        if placed.text == PlacedIn::Certificate {
            return Ok(());
        }
        match self.places.spot(placed.place) {
            Some(origin) => push_notes(
                self.alloc,
                text,
                self.places,
                origin.spot,
                origin.definition,
            ),
            None => Ok(()),
        }
    }

    /// Puts a place behind words: of the source as `a.v:4:13`, of the certificate as `line 1, column 50`. A text without bytes has no place.
    fn push_placed(&self, text: &mut Vec<u8>, placed: &Placed) -> Result<(), AllocError> {
        if placed.text == PlacedIn::Certificate {
            return push_place(self.alloc, text, self.certificate, placed);
        }
        let Some(line) = self.line_of(placed) else {
            return Ok(());
        };
        push_line(self.alloc, text, &line)?;
        if placed.form != PlaceForm::Marked {
            return Ok(());
        }
        text.extend_from_slice(b":\n")?;
        push_mark(text, &line)
    }

    /// The text of an explanation behind so many bytes of its words and so many of its places.
    pub(crate) fn body_of(
        &self,
        explanation: &Explanation,
        words: usize,
        places: usize,
    ) -> Result<Vec<u8>, AllocError> {
        let mut text = Vec::new(self.alloc);
        let mut from = words;
        for placed in explanation.places.iter().skip(places) {
            text.extend_from_slice(explanation.between(from, placed.before))?;
            self.push_placed(&mut text, placed)?;
            from = placed.before;
        }
        text.extend_from_slice(explanation.between(from, explanation.words.len()))?;
        Ok(text)
    }
}
