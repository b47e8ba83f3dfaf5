//! The verdict on a certificate of a design, which may be of any version.

use crate::certified::running::Case;
use std::alloc::Global;
use vs_cert_check::{Verdict, check_by};
use vs_certificate::{Certificate, Rules, from_json_by};
use vs_design::Design;
use vs_lexer::lex;
use vs_program::vs_elaborate::elaborate;
use vs_program::vs_parser::parse;
use vs_row_files::Text;

/// The design that a source and a top define, where they define one.
fn design_of(alloc: Global, source: &[u8], top: &[u8]) -> Option<Design> {
    let tokens = lex(alloc, source).ok()?;
    let tree = parse(alloc, &tokens).ok()?;
    elaborate(alloc, &tree, top).ok()
}

/// Puts the verdict on a certificate of a design.
fn put_checked(design: &Design, rules: Rules, certificate: &Certificate, text: &mut Text) {
    if !certificate.is_sound_by(rules) {
        return text.put(b"not sound");
    }
    match check_by(text.alloc(), design, rules, certificate) {
        Ok(Verdict::Yes) => text.put(b"yes"),
        Ok(Verdict::No(rule, place)) => {
            text.put(b"no K");
            text.put_shown(rule);
            text.put(b" at ");
            text.put(&place);
        }
        Err(_) => text.leave_out(),
    }
}

/// Puts a line with the verdict on a case.
pub fn put_verdict(case: Case, text: &mut Text) {
    let alloc = text.alloc();
    let certificate = from_json_by(alloc, Rules::Wide, case.certificate.as_bytes()).ok();
    let design = design_of(alloc, case.source.as_bytes(), case.top.as_bytes());
    match (&design, &certificate) {
        (Some(design), Some(certificate)) => put_checked(design, Rules::Wide, certificate, text),
        (Some(_), None) => text.put(b"no certificate"),
        (None, _) => text.put(b"no design"),
    }
    text.put(b"\n");
}
