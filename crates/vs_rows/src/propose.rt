//! Rows of proposals: designs, and whether a certificate is made for them; families of designs, and how many of them have one.
mod families;

use crate::check::rules_of;
use families::put_design;
use std::alloc::{AllocError, Global};
use vs_cert_check::{Verdict, check_by};
use vs_design::Design;
use vs_elaborate::elaborate;
use vs_lexer::lex;
use vs_parser::parse;
use vs_propose::vs_certificate::{Certificate, ClaimedGrain, Rules, from_json_by, to_json};
use vs_propose::{Proposal, propose_by};
use vs_row_files::{Answers, Text, first_and_rest};

/// Who proposes.
#[derive(Clone, Copy)]
pub(crate) struct Proposes;

/// The design that a source and a top define, where they define one.
fn design_of(alloc: Global, source: &[u8], top: &[u8]) -> Option<Design> {
    let Ok(tokens) = lex(alloc, source) else {
        return None;
    };
    let Ok(tree) = parse(alloc, &tokens) else {
        return None;
    };
    match elaborate(alloc, &tree, top) {
        Ok(design) => Some(design),
        Err(_) => None,
    }
}

/// Whether a certificate that is written, read and checked is accepted.
fn is_accepted(
    alloc: Global,
    design: &Design,
    rules: Rules,
    certificate: &Certificate,
) -> Result<bool, AllocError> {
    let line = to_json(alloc, certificate)?;
    let Ok(read) = from_json_by(alloc, rules, &line) else {
        return Ok(false);
    };
    if !read.is_sound_by(rules) {
        return Ok(false);
    }
    let verdict = check_by(alloc, design, rules, &read)?;
    Ok(matches!(verdict, Verdict::Yes))
}

/// Puts whether a certificate is made for a design, and of which version where that may be 3.
fn put_proposal(
    design: &Design,
    rules: Rules,
    grain: ClaimedGrain,
    text: &mut Text,
) -> Result<(), AllocError> {
    match propose_by(text.alloc(), design, rules, grain)? {
        Proposal::Made(certificate) => {
            text.put(if is_accepted(text.alloc(), design, rules, &certificate)? {
                b"made"
            } else {
                b"lost"
            });
            if rules.is_wide() {
                text.put(b" of version ");
                text.put_shown(certificate.version.number());
            }
        }
        Proposal::NotMade(refusal) => {
            text.put(b"not made K");
            text.put_shown(refusal.number);
            text.put(b" at ");
            text.put(&refusal.place);
        }
    }
    Ok(())
}

/// Puts the answer for a source.
fn put_row(top: &str, rules: Rules, grain: ClaimedGrain, source: &[u8], text: &mut Text) {
    match design_of(text.alloc(), source, top.as_bytes()) {
        None => text.put(b"no design"),
        Some(design) => {
            if put_proposal(&design, rules, grain, text).is_err() {
                text.leave_out();
            }
        }
    }
}

/// Whether a certificate is made for a design of a family.
fn is_made(family: &str, n: u64, h: u64, alloc: Global) -> bool {
    let mut source = Text::new(alloc);
    put_design(family, n, h, &mut source);
    let Ok(bytes) = source.whole() else {
        return false;
    };
    let mut answer = Text::new(alloc);
    put_row("t", Rules::Narrow, ClaimedGrain::Block, bytes, &mut answer);
    match answer.whole() {
        Ok(b"made") => true,
        _ => false,
    }
}

/// Puts for how many designs of a family, of sizes and half periods up to these, a certificate is made.
fn put_family(family: &str, sizes: u64, halves: u64, text: &mut Text) {
    let mut made: u64 = 0;
    for n in 1..=sizes {
        for h in 1..=halves {
            if is_made(family, n, h, text.alloc()) {
                made = made.saturating_add(1);
            }
        }
    }
    text.put_shown(made);
    text.put(b" made");
}

/// A number that is written.
fn number(word: &str) -> u64 {
    word.parse().ok().unwrap_or(0)
}

impl Answers for Proposes {
    fn answer(&self, words: &str, question: &str, text: &mut Text) {
        let (first, second) = first_and_rest(words, " ");
        let (grain, by) = first_and_rest(second, " ");
        let (source, rules) = (question.as_bytes(), rules_of(by));
        match grain {
            "block" => put_row(first, rules, ClaimedGrain::Block, source, text),
            "statement" => put_row(first, rules, ClaimedGrain::Statement, source, text),
            _ => {
                let (sizes, halves) = question.split_once(" ").unwrap_or((question, "1"));
                put_family(first, number(sizes), number(halves), text);
            }
        }
        text.put(b"\n");
    }
}
