//! The first line of what is told of a refusal in files: its place, what is wrong in a clause, and its number. What follows it are the line of
//! the file, notes of other places, and the rest of what is said.

use crate::fault_line::FaultLine;
use crate::file_places::{Sheet, push_line, push_mark, push_note};
use crate::given::Extent;
use crate::remedies::{remedy_of, without_mark};
use std::alloc::AllocError;
use vs_explain::{Explanation, PlaceForm, Placed};

/// The places with which an explanation begins, each on a line of its own.
#[derive(Clone, Copy)]
struct Leads {
    /// How many they are.
    count: usize,
    /// How many bytes of the words stand before the end of the last one.
    words: usize,
}

/// The places with which an explanation begins.
fn leads_of(explanation: &Explanation) -> Leads {
    let mut leads = Leads { count: 0, words: 0 };
    for (number, placed) in explanation.places.iter().enumerate() {
        if explanation
            .between(leads.words, placed.before)
            .contains(&b'\n')
        {
            break;
        }
        if placed.form == PlaceForm::Marked {
            leads = Leads {
                count: number.saturating_add(1),
                words: placed.before,
            };
        }
    }
    leads
}

/// The first clause of a text, and what follows it: it ends at its first full stop that isn't between backquotes, or with its line.
fn first_clause(text: &[u8]) -> (&[u8], &[u8]) {
    let mut is_quoted = false;
    for (index, byte) in text.iter().enumerate() {
        let next = index.saturating_add(1);
        match *byte {
            b'`' => is_quoted = !is_quoted,
            b'\n' => {
                let line = text.get(..index).unwrap_or(&[]);
                let clause = line.strip_suffix(b".").unwrap_or(line);
                return (clause, text.get(next..).unwrap_or(&[]));
            }
            b'.' if !is_quoted && text.get(next) == Some(&b' ') => {
                let rest = text.get(next.saturating_add(1)..).unwrap_or(&[]);
                return (text.get(..index).unwrap_or(&[]), rest);
            }
            _ => {}
        }
    }
    (text, &[])
}

/// A clause without the number of a rule in front of it.
fn without_number(clause: &[u8]) -> &[u8] {
    let Some(rest) = clause.strip_prefix(b"K") else {
        return clause;
    };
    for (index, byte) in rest.iter().enumerate() {
        if !byte.is_ascii_digit() {
            let behind = rest.get(index..).unwrap_or(&[]);
            return behind.strip_prefix(b": ").unwrap_or(clause);
        }
    }
    clause
}

/// Puts a clause behind a text, with a small letter in front, and a space behind it; where it has no words nothing.
fn push_clause(text: &mut Vec<u8>, clause: &[u8]) -> Result<(), AllocError> {
    match clause {
        [] => return Ok(()),
        [first, second, rest @ ..] if !second.is_ascii_uppercase() => {
            text.push(first.to_ascii_lowercase())?;
            text.push(*second)?;
            text.extend_from_slice(rest)?;
        }
        _ => text.extend_from_slice(clause)?,
    }
    text.push(b' ')?;
    Ok(())
}

/// Puts the lines of a text behind another one, two spaces in front of each.
fn push_indented(text: &mut Vec<u8>, lines: &[u8]) -> Result<(), AllocError> {
    for line in lines.split(|byte| *byte == b'\n') {
        if !line.is_empty() {
            text.extend_from_slice(b"  ")?;
            text.extend_from_slice(line)?;
            text.push(b'\n')?;
        }
    }
    Ok(())
}

/// What is said of a further place, by the words before it.
fn note_words(words: &[u8]) -> &[u8] {
    let name = words.strip_suffix(b" at ").unwrap_or(words);
    let name = name.strip_suffix(b",").unwrap_or(name);
    if name.is_empty() { b"and here" } else { name }
}

impl<'p> Sheet<'p> {
    /// Puts a note of a further place behind a text, and its line.
    fn push_further(
        &self,
        text: &mut Vec<u8>,
        words: &[u8],
        placed: &Placed,
    ) -> Result<(), AllocError> {
        let Some(line) = self.line_of(placed) else {
            return Ok(());
        };
        push_note(self.alloc, text, &line, note_words(words))?;
        push_mark(text, &line)
    }

    /// Puts notes of the places behind the first one with which an explanation begins.
    fn push_leads(
        &self,
        text: &mut Vec<u8>,
        explanation: &Explanation,
        count: usize,
    ) -> Result<(), AllocError> {
        let mut from = 0usize;
        for (number, placed) in explanation.places.iter().enumerate() {
            if number >= count {
                break;
            }
            if number > 0 && placed.form == PlaceForm::Marked {
                self.push_further(text, explanation.between(from, placed.before), placed)?;
            }
            from = placed.before;
        }
        Ok(())
    }

    /// What is told of a refusal in one line: `a.v:4:13: error: P1`. Where its explanation has no place there is none.
    pub(crate) fn short_of(
        &self,
        explanation: &Explanation,
        told: FaultLine,
    ) -> Result<Option<Vec<u8>>, AllocError> {
        let Some(first) = explanation.places.first() else {
            return Ok(None);
        };
        let Some(line) = self.line_of(first) else {
            return Ok(None);
        };
        let mut text = Vec::new(self.alloc);
        push_line(self.alloc, &mut text, &line)?;
        text.extend_from_slice(b": error: ")?;
        text.extend_from_slice(told.number)?;
        text.extend_from_slice(told.behind)?;
        text.push(b'\n')?;
        Ok(Some(text))
    }

    /// What is told of a refusal: `a.v:4:13: error: this number isn't well formed [L3]`, the line, notes, and what more its explanation says.
    /// Where that has no place there is nothing.
    pub(crate) fn whole_of(
        &self,
        explanation: &Explanation,
        told: FaultLine,
    ) -> Result<Option<Vec<u8>>, AllocError> {
        let Some(first) = explanation.places.first() else {
            return Ok(None);
        };
        let Some(line) = self.line_of(first) else {
            return Ok(None);
        };
        let leads = leads_of(explanation);
        let body = self.body_of(explanation, leads.words, leads.count)?;
        let (clause, rest) = first_clause(&body);
        let mut text = Vec::new(self.alloc);
        push_line(self.alloc, &mut text, &line)?;
        text.extend_from_slice(b": error: ")?;
        push_clause(&mut text, without_number(clause))?;
        text.push(b'[')?;
        text.extend_from_slice(told.number)?;
        text.extend_from_slice(b"]\n")?;
        push_mark(&mut text, &line)?;
        self.push_notes_of(&mut text, first)?;
        self.push_leads(&mut text, explanation, leads.count)?;
        push_indented(&mut text, rest)?;
        push_indented(&mut text, remedy_of(told.number, rest).as_bytes())?;
        Ok(Some(text))
    }

    /// What is told of a refusal whose explanation has no place: `vsim: C1`, and what its explanation says.
    pub(crate) fn unplaced_of(
        &self,
        explanation: &Explanation,
        told: FaultLine,
        extent: Extent,
    ) -> Result<Vec<u8>, AllocError> {
        let mut text = Vec::from_slice(self.alloc, b"vsim: ")?;
        text.extend_from_slice(told.line)?;
        text.push(b'\n')?;
        if extent == Extent::Explained {
            let body = self.body_of(explanation, 0, 0)?;
            push_indented(&mut text, without_mark(&body))?;
            push_indented(&mut text, remedy_of(told.number, &body).as_bytes())?;
        }
        Ok(text)
    }
}
