//! Marks under statements, and statements as they are written.

use crate::named::found;
use crate::statements::statement_tokens;
use crate::vs_lexer::{Kind, Mark, Word};
use crate::{Page, SourceText};
use std::alloc::{AllocError, Global};
use vs_design::Process;

/// How many bytes of a statement are shown.
const SHOWN: usize = 48;

/// The token of a statement of a process.
fn token_of(page: &mut Page, text: &SourceText, process: &Process, number: usize) -> Option<usize> {
    let tokens = statement_tokens(page.alloc(), text, process);
    let tokens = found(page, tokens)?;
    tokens.get(number).copied()
}

/// Puts the name of a process and the line of one of its statements, with a mark under the statement.
pub fn put_statement(page: &mut Page, text: &SourceText, process: &Process, number: usize) {
    if let Some(token) = token_of(page, text, process, number) {
        page.put_name(&process.name);
        page.put(" at ");
        page.put_place(text.place_at(token));
    }
}

/// The token at which a statement without statements in it ends, that begins at a token.
fn end_of(text: &SourceText, from: usize) -> usize {
    let mut depth = 0usize;
    for (index, token) in text.tokens.iter().enumerate().skip(from) {
        let Kind::Mark(mark) = token.kind else {
            continue;
        };
        match mark {
            Mark::Open | Mark::OpenBracket | Mark::OpenBrace => depth = depth.saturating_add(1),
            Mark::Close | Mark::CloseBracket | Mark::CloseBrace if depth > 0 => {
                depth = depth.saturating_sub(1)
            }
            Mark::Close | Mark::Semicolon => return index,
            Mark::Comma if depth == 0 => return index,
            _ => {}
        }
    }
    text.tokens.len()
}

/// The bytes before those blanks and line ends with which they end.
fn trimmed(bytes: &[u8]) -> &[u8] {
    for (index, byte) in bytes.iter().enumerate().rev() {
        if byte.is_ascii_graphic() {
            return bytes.get(..index.saturating_add(1)).unwrap_or(&[]);
        }
    }
    &[]
}

/// The bytes from one token up to another one, on one line: where lines end between two tokens, a blank stands for all that is there.
fn on_one_line(
    alloc: Global,
    text: &SourceText,
    first: usize,
    end: usize,
) -> Result<Vec<u8>, AllocError> {
    let mut line = Vec::new(alloc);
    let mut behind = text.place_at(first);
    let count = end.saturating_sub(first);
    for token in text.tokens.iter().skip(first).take(count) {
        let between = text.bytes.get(behind..token.place).unwrap_or(&[]);
        line.extend_from_slice(if between.contains(&b'\n') {
            b" "
        } else {
            between
        })?;
        line.extend_from_slice(token.bytes)?;
        behind = token.place.saturating_add(token.bytes.len());
    }
    Ok(line)
}

/// Puts code between quotes; of a long one its beginning.
fn put_quoted(page: &mut Page, code: &[u8]) {
    page.put("`");
    page.put_bytes(code.get(..SHOWN).unwrap_or(code));
    page.put(if code.len() > SHOWN { " ..`" } else { "`" });
}

/// Puts a statement as it is written, but on one line, between quotes; of a long one its beginning.
pub fn put_code(page: &mut Page, text: &SourceText, process: &Process, number: usize) {
    let Some(token) = token_of(page, text, process, number) else {
        return;
    };
    let end = end_of(text, token);
    let (from, to) = (text.place_at(token), text.place_at(end));
    let code = trimmed(text.bytes.get(from..to).unwrap_or(&[]));
    if !code.contains(&b'\n') {
        return put_quoted(page, code);
    }
    match on_one_line(page.alloc(), text, token, end) {
        Ok(line) => put_quoted(page, &line),
        Err(_) => page.leave_out(),
    }
}

/// Whether a process is a declaration with a value.
pub fn is_declaration(
    alloc: Global,
    text: &SourceText,
    process: &Process,
) -> Result<bool, AllocError> {
    let Some(token) = text.numbered(alloc, &process.name)? else {
        return Ok(false);
    };
    Ok(match text.tokens.get(token) {
        Some(token) => {
            token.kind != Kind::Word(Word::Initial) && token.kind != Kind::Word(Word::Always)
        }
        None => false,
    })
}
