//! What is said of a broken rule.

use crate::blocks::put_block;
use crate::first_slot::put_first_slot;
use crate::named::put_names;
use crate::starts::put_start;
use vs_design::Design;
use vs_explain_facts::vs_certificate::Certificate;
use vs_explain_facts::{Facts, Question};
use vs_explain_outline::{Page, SourceText};
use vs_explain_races::vs_explain_writers::{put_ways, put_writers};
use vs_explain_races::{put_delays, put_edges, put_loops, put_reads, put_waits};

/// Says which rule of certificates a design breaks, where, why, and what mends it.
pub fn explain_broken(
    page: &mut Page,
    text: &SourceText,
    design: &Design,
    certificate: &Certificate,
    number: u8,
    place: &[u8],
) {
    match Facts::of(page.alloc(), design, certificate.version.number() == 3) {
        Ok(facts) => {
            let asked = Question {
                text,
                design,
                certificate,
                facts: &facts,
                place,
            };
            put_rule(page, asked, number);
        }
        Err(_) => page.leave_out(),
    }
}

/// Puts why a subject breaks the rule of a number.
fn put_rule(page: &mut Page, asked: Question, number: u8) {
    match number {
        1 => put_names(page, asked),
        2 => put_writers(page, asked),
        3 => put_ways(page, asked),
        4 => put_loops(page, asked),
        5 => put_block(page, asked),
        6 => put_edges(page, asked),
        7 => put_waits(page, asked),
        8 => put_delays(page, asked),
        9 => put_reads(page, asked),
        10 => put_first_slot(page, asked),
        _ => put_start(page, asked),
    }
}
