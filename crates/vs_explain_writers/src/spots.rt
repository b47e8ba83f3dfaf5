//! Statements, terms and signals of a design, with their places in the source.

use crate::connections::connection_of;
use vs_design::Statement;
use vs_explain_facts::{Point, Question, TextFacts};
use vs_explain_outline::vs_lexer::{Kind, Mark, Word};
use vs_explain_outline::{
    Page, found, last_name, put_code, put_marked, put_named, put_statement, statement_tokens,
};

/// A statement of a process, by its number.
#[derive(Clone, Copy, PartialEq, Eq)]
pub struct Site {
    /// The number of the process.
    pub process: usize,
    /// The number of the statement.
    pub number: usize,
}

/// What the text of a process does.
pub fn text_at<'q>(question: Question<'q>, process: usize) -> Option<&'q TextFacts<'q>> {
    question.facts.texts.get(process)
}

/// The statement at a place.
pub fn point_at<'q>(question: Question<'q>, site: Site) -> Option<&'q Point<'q>> {
    question.facts.point(site.process, site.number)
}

/// The token of a statement.
fn token_at(page: &mut Page, question: Question, site: Site) -> Option<usize> {
    let process = question.design.processes().get(site.process)?;
    let tokens = statement_tokens(page.alloc(), question.text, process);
    let tokens = found(page, tokens)?;
    tokens.get(site.number).copied()
}

/// Puts a statement as it is written, with its line and column.
pub fn put_site(page: &mut Page, question: Question, site: Site) {
    let Some(process) = question.design.processes().get(site.process) else {
        return;
    };
    put_code(page, question.text, process, site.number);
    if let Some(token) = token_at(page, question, site) {
        page.put(" (");
        page.put_spot(question.text.place_at(token));
        page.put(")");
    }
}

/// Puts the line of a statement, with a mark under it.
pub fn mark_site(page: &mut Page, question: Question, site: Site) {
    if let Some(process) = question.design.processes().get(site.process) {
        put_statement(page, question.text, process, site.number);
    }
}

/// Puts the line of an assignment, with a mark under it.
pub fn mark_assign(page: &mut Page, question: Question, assign: usize) {
    let Some(assign) = question.design.assigns().get(assign) else {
        return;
    };
    let token = connection_of(page.alloc(), question.text, &assign.name);
    if let Some(Some(token)) = found(page, token) {
        return put_token(page, question, &assign.name, token);
    }
    put_marked(page, question.text, &assign.name);
}

/// Puts the path of a signal, with the line and column of its declaration.
pub fn put_signal(page: &mut Page, question: Question, signal: usize) {
    put_named(page, question.text, question.facts.path(signal));
}

/// Puts the path of a signal.
pub fn put_path(page: &mut Page, question: Question, signal: usize) {
    page.put_name(question.facts.path(signal));
}

/// Puts the last name of a signal, for a text to be written.
pub fn put_short(page: &mut Page, question: Question, signal: usize) {
    page.put_bytes(last_name(question.facts.path(signal)));
}

/// The token at which a term of an event control begins, by its number in the control whose first token this is.
fn token_of_term(question: Question, control: usize, number: usize) -> usize {
    let first = control.saturating_add(2);
    let mut left = number;
    for (index, token) in question.text.tokens.iter().enumerate().skip(first) {
        if left == 0 {
            return index;
        }
        match token.kind {
            Kind::Word(Word::Or) | Kind::Mark(Mark::Comma) => left = left.saturating_sub(1),
            Kind::Mark(Mark::Semicolon) => return control,
            _ => {}
        }
    }
    control
}

/// Puts the line of a term of a process, by its number in the text, with a mark under it: where its control has no other one, under the control.
pub fn mark_term(page: &mut Page, question: Question, process: usize, index: usize) {
    let Some(text) = text_at(question, process) else {
        return;
    };
    let Some(term) = text.terms.get(index) else {
        return;
    };
    let mut before = 0usize;
    let mut count = 0usize;
    for (place, other) in text.terms.iter().enumerate() {
        if other.number == term.number {
            count = count.saturating_add(1);
            before = before.saturating_add(usize::from(place < index));
        }
    }
    let site = Site {
        process,
        number: term.number as usize,
    };
    if count < 2 {
        return mark_site(page, question, site);
    }
    if let Some(control) = token_at(page, question, site) {
        let token = token_of_term(question, control, before);
        put_token(page, question, &text.process.name, token);
    }
}

/// Puts a name and the line of a token, with a mark under it.
fn put_token(page: &mut Page, question: Question, name: &[u8], token: usize) {
    page.put_name(name);
    page.put(" at ");
    page.put_place(question.text.place_at(token));
}

/// The number of the first term of a process that waits for a signal.
pub fn term_of(question: Question, process: usize, signal: usize) -> Option<usize> {
    let text = text_at(question, process)?;
    for (index, term) in text.terms.iter().enumerate() {
        if term.term.range.signal == signal {
            return Some(index);
        }
    }
    None
}

/// The processes that wait for a signal: the first one.
pub fn waiter_of(question: Question, signal: usize) -> Option<usize> {
    for (number, text) in question.facts.texts.iter().enumerate() {
        if text.waits_for(signal) {
            return Some(number);
        }
    }
    None
}

/// Whether a statement is a `$finish`.
pub fn is_finish(point: &Point) -> bool {
    matches!(point.statement, Statement::Finish(_))
}
