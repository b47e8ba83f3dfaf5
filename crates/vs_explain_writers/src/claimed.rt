//! What a certificate says of a subject, where nothing is wrong with the design itself.

use crate::sentence_of;
use crate::vs_explain_facts::{Question, entry_of, mode_word};
use crate::vs_explain_outline::{Page, put_marked};
use crate::writes::{Wanted, write_in};
use vs_certificate::SignalEntry;

/// How many writers are told.
const REPORT_LIMIT: usize = 4;

/// What mends a certificate that doesn't fit.
const ANEW: &str =
    "Ask `vsim certify`: it makes a certificate of this source, or tells what is to be changed in it.\n";

/// Puts a name that a certificate claims, or that it claims none.
fn put_claimed(page: &mut Page, name: &[u8]) {
    if name.is_empty() {
        page.put("none");
    } else {
        page.put_name(name);
    }
}

/// Puts what a certificate says of a signal.
fn put_entry(page: &mut Page, entry: &SignalEntry) {
    page.put("The certificate says: mode `");
    page.put(mode_word(entry.mode));
    page.put("`, writer ");
    put_claimed(page, entry.writer.as_bytes());
    page.put(", second ");
    put_claimed(page, entry.second.as_bytes());
    page.put(".\n");
}

/// Puts how a process writes a signal.
fn put_how(page: &mut Page, asked: Question, process: usize, signal: usize) {
    let now = write_in(asked.facts, process, signal, Wanted::Now).is_some();
    let later = write_in(asked.facts, process, signal, Wanted::Later).is_some();
    page.put(match (now, later) {
        (true, true) => "It writes the signal by `=` and by `<=`.\n",
        (true, false) => "It writes the signal by `=`.\n",
        (false, _) => "It writes the signal by `<=`.\n",
    });
}

/// Puts the subject and the rule.
pub fn put_subject(page: &mut Page, asked: Question, number: u8) {
    put_marked(page, asked.text, asked.place);
    page.put(sentence_of(number));
    page.put("\n");
}

/// Puts that a certificate has to be made anew.
pub fn put_anew(page: &mut Page) {
    page.put(ANEW);
}

/// Puts what a certificate says of a signal, and the processes that write it.
pub(crate) fn put_writers_claimed(page: &mut Page, asked: Question, number: u8, signal: usize) {
    put_subject(page, asked, number);
    if let Some(entry) = entry_of(asked.certificate, asked.place) {
        put_entry(page, entry);
    }
    for process in asked.facts.writers_of(signal).iter().take(REPORT_LIMIT) {
        if let Some(one) = asked.design.processes().get(*process) {
            put_marked(page, asked.text, &one.name);
            put_how(page, asked, *process, signal);
        }
    }
    put_anew(page);
}
