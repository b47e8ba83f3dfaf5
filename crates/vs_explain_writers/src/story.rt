//! What is said of a cause: what is wrong, and what mends it.

use crate::vs_explain_facts::Question;
use crate::vs_explain_outline::Page;
use crate::{Site, mark_site, sentence_of};

/// A cause in a sentence, and what mends it in one; `%` stands for the name of a signal.
#[derive(Clone, Copy)]
pub struct Story {
    /// What is wrong.
    pub cause: &'static str,
    /// What mends it.
    pub remedy: &'static str,
}

/// Puts words, with a name in place of each `%`.
fn put_words(page: &mut Page, words: &str, name: &[u8]) {
    let bytes = words.as_bytes();
    let mut from = 0usize;
    for (index, byte) in bytes.iter().enumerate() {
        if *byte == b'%' {
            page.put_bytes(bytes.get(from..index).unwrap_or(&[]));
            page.put_bytes(name);
            from = index.saturating_add(1);
        }
    }
    page.put_bytes(bytes.get(from..).unwrap_or(&[]));
    page.put("\n");
}

/// Puts the rule, what is wrong, and what mends it.
pub fn put_story(page: &mut Page, number: u8, story: Story, name: &[u8]) {
    page.put(sentence_of(number));
    page.put("\n");
    put_words(page, story.cause, name);
    put_words(page, story.remedy, name);
}

/// Puts the line of a statement, where there is one.
pub fn put_maybe(page: &mut Page, asked: Question, site: Option<Site>) {
    if let Some(site) = site {
        mark_site(page, asked, site);
    }
}

/// The name of a signal as it is declared.
pub fn name_of<'q>(asked: Question<'q>, signal: usize) -> &'q [u8] {
    match asked.design.signals().get(signal) {
        Some(signal) => &signal.name,
        None => &[],
    }
}
