//! Rows of verdicts: a certificate on the first line and a design after it, with the answer of the checker. Behind the top `wide` may stand: then
//! certificates of version 3 are read too.
use std::alloc::Global;
use vs_cert_check::{Verdict, check_by};
use vs_certificate::{Certificate, Rules, from_json_by};
use vs_design::Design;
use vs_elaborate::elaborate;
use vs_lexer::lex;
use vs_parser::parse;
use vs_row_files::{Answers, Text, first_and_rest};

/// Who checks.
#[derive(Clone, Copy)]
pub(crate) struct Checks;

/// The rules of a word.
pub(crate) fn rules_of(word: &str) -> Rules {
    match word {
        "wide" => Rules::Wide,
        _ => Rules::Narrow,
    }
}

/// The design that a source and a top define, where they define one.
fn design_of(alloc: Global, source: &[u8], top: &[u8]) -> Option<Design> {
    let Ok(tokens) = lex(alloc, source) else {
        return None;
    };
    let Ok(tree) = parse(alloc, &tokens) else {
        return None;
    };
    match elaborate(alloc, &tree, top) {
        Ok(design) => Some(design),
        Err(_) => None,
    }
}

/// Puts the verdict on a certificate of a design.
fn put_verdict(design: &Design, rules: Rules, certificate: &Certificate, text: &mut Text) {
    if !certificate.is_sound_by(rules) {
        return text.put(b"not sound");
    }
    match check_by(text.alloc(), design, rules, certificate) {
        Ok(Verdict::Yes) => text.put(b"yes"),
        Ok(Verdict::No(rule, place)) => {
            text.put(b"no K");
            text.put_shown(rule);
            text.put(b" at ");
            text.put(&place);
        }
        Err(_) => text.leave_out(),
    }
}

impl Answers for Checks {
    fn answer(&self, words: &str, question: &str, text: &mut Text) {
        let (line, source) = first_and_rest(question, "\n");
        let (top, by) = first_and_rest(words, " ");
        let rules = rules_of(by);
        let alloc = text.alloc();
        let certificate = from_json_by(alloc, rules, line.as_bytes());
        let design = design_of(alloc, source.as_bytes(), top.as_bytes());
        match (&design, &certificate) {
            (Some(design), Ok(certificate)) => put_verdict(design, rules, certificate, text),
            (Some(_), Err(fault)) => text.put(fault.text().as_bytes()),
            (None, _) => text.put(b"no design"),
        }
        text.put(b"\n");
    }
}
