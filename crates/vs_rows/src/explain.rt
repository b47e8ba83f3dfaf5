//! Rows of explanations: refused sources, broken rules, bytes that are no certificate and step limits, with the text that says what is wrong.
use crate::check::rules_of;
use std::alloc::{AllocError, Global};
use vs_certificate::{Rules, from_json_by};
use vs_explain::vs_simulate::list_design;
use vs_explain::{
    CertificatePlace, Further, Offender, explain, explain_after, explain_certificate,
    explain_limit, explain_rule,
};
use vs_row_files::{Answers, Text, first_and_rest};
use vs_vcd_writing::Counted;

/// Who explains.
#[derive(Clone, Copy)]
pub(crate) struct Explains;

/// What is said of a source that is refused; nothing of one that isn't.
fn refused(alloc: Global, top: &str, source: &str) -> Result<Vec<u8>, AllocError> {
    let mut lines = Counted::new(Vec::new(alloc));
    match list_design(alloc, source.as_bytes(), top.as_bytes(), &mut lines) {
        Ok(()) => Ok(Vec::new(alloc)),
        Err(fault) => {
            let explained = explain(alloc, source.as_bytes(), top.as_bytes(), &fault)?;
            explained.plain(alloc, source.as_bytes(), &[])
        }
    }
}

/// What is said of a source that is refused after the line of a certificate; nothing of one that isn't.
fn refused_after(alloc: Global, top: &str, question: &str) -> Result<Vec<u8>, AllocError> {
    let (certificate, source) = first_and_rest(question, "\n");
    let mut lines = Counted::new(Vec::new(alloc));
    match list_design(alloc, source.as_bytes(), top.as_bytes(), &mut lines) {
        Ok(()) => Ok(Vec::new(alloc)),
        Err(fault) => {
            let explained = explain_after(
                alloc,
                certificate.as_bytes(),
                source.as_bytes(),
                top.as_bytes(),
                &fault,
            )?;
            explained.plain(alloc, source.as_bytes(), certificate.as_bytes())
        }
    }
}

/// What is said of a certificate, on the first line, whose rule of this number is broken at a place of the source after it.
fn broken(
    alloc: Global,
    rules: Rules,
    words: &str,
    question: &str,
    further: Further,
) -> Result<Vec<u8>, AllocError> {
    let (certificate, source) = first_and_rest(question, "\n");
    let (number, rest) = first_and_rest(words, " ");
    let (top, place) = first_and_rest(rest, " ");
    let offender = Offender {
        certificate: certificate.as_bytes(),
        number: number.parse().ok().unwrap_or(0),
        place: place.as_bytes(),
    };
    let (text, name) = (source.as_bytes(), top.as_bytes());
    let explained = explain_rule(alloc, text, name, rules, offender, further)?;
    explained.plain(alloc, source.as_bytes(), certificate.as_bytes())
}

/// What is said of the further subjects that break rules of a certificate, on the first line, behind what is said of the one of this rule and name.
fn others(alloc: Global, words: &str, question: &str) -> Result<Vec<u8>, AllocError> {
    let first = broken(alloc, Rules::Narrow, words, question, Further::Left)?;
    let all = broken(alloc, Rules::Narrow, words, question, Further::Told)?;
    match all.strip_prefix(first.as_slice()) {
        Some(others) => Vec::from_slice(alloc, others),
        None => Ok(all),
    }
}

/// What is said of bytes that are no certificate which is read by these rules; nothing of those that are one.
fn malformed(alloc: Global, rules: Rules, question: &str) -> Result<Vec<u8>, AllocError> {
    match from_json_by(alloc, rules, question.as_bytes()) {
        Ok(_) => Ok(Vec::new(alloc)),
        Err(fault) => {
            let certificate = question.as_bytes();
            let explained = explain_certificate(
                alloc,
                certificate,
                rules,
                CertificatePlace::First,
                fault,
            )?;
            explained.plain(alloc, &[], certificate)
        }
    }
}

/// What is said of a run that took its most steps, so many, up to a time.
fn limited(alloc: Global, words: &str, question: &str) -> Result<Vec<u8>, AllocError> {
    let (top, rest) = first_and_rest(words, " ");
    let (steps, time) = first_and_rest(rest, " ");
    let explained = explain_limit(
        alloc,
        question.as_bytes(),
        top.as_bytes(),
        false,
        steps.parse().ok().unwrap_or(0),
        time.parse().ok().unwrap_or(0),
    )?;
    explained.plain(alloc, question.as_bytes(), &[])
}

impl Answers for Explains {
    fn answer(&self, words: &str, question: &str, text: &mut Text) {
        let alloc = text.alloc();
        let (kind, rest) = first_and_rest(words, " ");
        let explained = match kind {
            "rule" => broken(alloc, Rules::Narrow, rest, question, Further::Left),
            "wide" => broken(alloc, Rules::Wide, rest, question, Further::Left),
            "others" => others(alloc, rest, question),
            "certificate" => malformed(alloc, rules_of(rest), question),
            "limit" => limited(alloc, rest, question),
            "after" => refused_after(alloc, rest, question),
            _ => refused(alloc, rest, question),
        };
        text.put_made(explained);
    }
}
