//! Where the statements of a process stand in the text.

use crate::SourceText;
use crate::vs_lexer::{Kind, Mark, Word};
use std::alloc::{AllocError, Global};
use vs_design::{Process, Statement};

/// A walk through the tokens of a process, beside its statements in a design.
#[derive(Drop)]
struct Walk<'t, 's> {
    text: &'t SourceText<'s>,
    /// The token at which the next statement begins.
    next: usize,
    /// The token of each statement, by its number.
    found: Vec<usize>,
}

/// The tokens of a `for`.
#[derive(Clone, Copy)]
struct ForTokens {
    /// The word.
    word: usize,
    /// Its first assignment.
    first: usize,
    /// Its second assignment.
    step: usize,
}

impl<'t, 's> Walk<'t, 's> {
    /// Behind the first mark of this kind from a token on that stands in no brackets which open there.
    fn after_mark(&self, from: usize, wanted: Mark) -> usize {
        let mut depth = 0usize;
        for (index, token) in self.text.tokens.iter().enumerate().skip(from) {
            let Kind::Mark(mark) = token.kind else {
                continue;
            };
            match mark {
                Mark::Open | Mark::OpenBracket | Mark::OpenBrace => depth = depth.saturating_add(1),
                Mark::Close | Mark::CloseBracket | Mark::CloseBrace => {
                    depth = depth.saturating_sub(1)
                }
                _ => {}
            }
            if depth == 0 && mark == wanted {
                return index.saturating_add(1);
            }
        }
        self.text.tokens.len()
    }

    /// Behind a value without brackets, or brackets with one.
    fn after_value(&self, from: usize) -> usize {
        if self.text.is_mark(from, Mark::Open) {
            return self.after_mark(from, Mark::Close);
        }
        from.saturating_add(1)
    }

    /// Notes the token of a statement.
    fn note(&mut self, number: u32, token: usize) -> Result<(), AllocError> {
        let number = number as usize;
        for _ in self.found.len()..number.saturating_add(1) {
            self.found.push(token)?;
        }
        if let Some(place) = self.found.get_mut(number) {
            *place = token;
        }
        Ok(())
    }

    /// Notes the next token, and goes on behind the word and the value in brackets after it.
    fn note_value(&mut self, number: u32) -> Result<(), AllocError> {
        let next = self.next;
        self.note(number, next)?;
        self.next = self.after_value(next.saturating_add(1));
        Ok(())
    }

    /// Notes the next token, and goes on behind the next semicolon.
    fn note_short(&mut self, number: u32) -> Result<(), AllocError> {
        let next = self.next;
        self.note(number, next)?;
        self.next = self.after_mark(next, Mark::Semicolon);
        Ok(())
    }

    /// Goes on behind a label of a `case`.
    fn skip_label(&mut self) {
        let next = self.next;
        if !self.text.is_word(next, Word::Default) {
            self.next = self.after_mark(next, Mark::Colon);
            return;
        }
        let behind = next.saturating_add(1);
        self.next = if self.text.is_mark(behind, Mark::Colon) {
            behind.saturating_add(1)
        } else {
            behind
        };
    }

    /// Goes on behind a `begin`, its name and its declarations.
    fn skip_begin(&mut self) {
        let mut next = self.next.saturating_add(1);
        if self.text.is_mark(next, Mark::Colon) {
            next = next.saturating_add(2);
        }
        for _ in 0..self.text.tokens.len() {
            if !self.text.is_word(next, Word::Reg) && !self.text.is_word(next, Word::Integer) {
                break;
            }
            next = self.after_mark(next, Mark::Semicolon);
        }
        self.next = next;
    }

    /// Goes on behind a word, where it comes next. Whether it does.
    fn skip_word(&mut self, word: Word) -> bool {
        let next = self.next;
        let comes = self.text.is_word(next, word);
        if comes {
            self.next = next.saturating_add(1);
        }
        comes
    }

    /// Goes on behind the head of a `for`.
    fn skip_for(&mut self) -> ForTokens {
        let word = self.next;
        let first = word.saturating_add(2);
        let condition = self.after_mark(first, Mark::Semicolon);
        let step = self.after_mark(condition, Mark::Semicolon);
        self.next = self.after_mark(word, Mark::Close);
        ForTokens { word, first, step }
    }
}

#[cycle(stands)]
fn note_statement(walk: &mut Walk, statement: &Statement) -> Result<(), AllocError> {
    match statement {
        Statement::Null(number)
        | Statement::Assign(number, _, _)
        | Statement::Later(number, _, _, _)
        | Statement::Call(number, _)
        | Statement::Finish(number) => walk.note_short(*number),
        Statement::Block(all) => note_block(walk, all),
        Statement::Delay(number, _, body)
        | Statement::Event(number, _, body)
        | Statement::While(number, _, body)
        | Statement::Repeat(number, _, _, body) => {
            walk.note_value(*number)?;
            note_statement(walk, body)
        }
        Statement::Forever(number, body) => {
            let next = walk.next;
            walk.note(*number, next)?;
            walk.next = next.saturating_add(1);
            note_statement(walk, body)
        }
        Statement::If(number, _, then, other) => {
            walk.note_value(*number)?;
            note_statement(walk, then)?;
            if walk.skip_word(Word::Else) {
                note_statement(walk, other)?;
            }
            Ok(())
        }
        Statement::Case(number, _, _, items) => {
            walk.note_value(*number)?;
            for (_, body) in items {
                walk.skip_label();
                note_statement(walk, body)?;
            }
            walk.skip_word(Word::Endcase);
            Ok(())
        }
    }
}

/// Notes the statements between a `begin` and its `end`, or those of a `for`.
#[cycle(stands)]
fn note_block(walk: &mut Walk, all: &[Statement]) -> Result<(), AllocError> {
    let next = walk.next;
    if walk.text.is_word(next, Word::For) {
        return note_for(walk, all);
    }
    walk.skip_begin();
    for statement in all {
        note_statement(walk, statement)?;
    }
    walk.skip_word(Word::End);
    Ok(())
}

/// Notes the first assignment of a `for`, its `while`, and what that repeats.
#[cycle(stands)]
fn note_for(walk: &mut Walk, all: &[Statement]) -> Result<(), AllocError> {
    let tokens = walk.skip_for();
    for statement in all {
        match statement {
            Statement::Assign(number, _, _) => walk.note(*number, tokens.first)?,
            Statement::While(number, _, body) => {
                walk.note(*number, tokens.word)?;
                note_turn(walk, body, tokens.step)?;
            }
            _ => {}
        }
    }
    Ok(())
}

/// Notes what a `for` repeats: its statement, and its second assignment.
#[cycle(stands)]
fn note_turn(walk: &mut Walk, body: &Statement, step: usize) -> Result<(), AllocError> {
    let Statement::Block(all) = body else {
        return Ok(());
    };
    for (index, statement) in all.iter().enumerate() {
        match statement {
            Statement::Assign(number, _, _) if index > 0 => walk.note(*number, step)?,
            _ => note_statement(walk, statement)?,
        }
    }
    Ok(())
}

/// Notes the statements of a process from its first token on.
fn note_process(walk: &mut Walk, body: &Statement) -> Result<(), AllocError> {
    if walk.skip_word(Word::Initial) {
        return note_statement(walk, body);
    }
    let next = walk.next;
    if !walk.text.is_word(next, Word::Always) {
        if let Statement::Assign(number, _, _) = body {
            return walk.note(*number, next);
        }
        return Ok(());
    }
    note_statement(walk, body)
}

/// The token of each statement of a process, by the statement's number: its first word, of an assignment the first token of its left side. It is empty
/// where the text hasn't the process.
pub fn statement_tokens(
    alloc: Global,
    text: &SourceText,
    process: &Process,
) -> Result<Vec<usize>, AllocError> {
    let mut walk = Walk {
        text,
        next: 0,
        found: Vec::new(alloc),
    };
    if let Some(token) = text.numbered(alloc, &process.name)? {
        walk.next = token;
        note_process(&mut walk, &process.body)?;
    }
    Ok(walk.found)
}
