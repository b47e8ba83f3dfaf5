//! How a row shows tokens.

use std::alloc::{AllocError, Global};
use vs_lexer::{Kind, LexFault, Literal, Mark, Token, lex};

/// What is shown of the tokens of a source.
#[derive(Clone, Copy)]
pub enum TokenAspect {
    /// Their kinds and places in each beginning.
    Beginnings,
    /// Their kinds and places, and the values of numbers.
    Values,
    /// What they stand for.
    Meanings,
}

// A line that is written piece by piece, and whether it has each of them: none is refused for want of memory.
#[derive(Drop)]
struct Line {
    text: String,
    is_whole: bool,
}

impl Line {
    // Writes a piece.
    fn push(&mut self, piece: &str) {
        self.is_whole &= self.text.push_str(piece).is_ok();
    }

    // Writes a letter.
    fn push_letter(&mut self, letter: char) {
        self.is_whole &= self.text.push(letter).is_ok();
    }

    // Writes bytes as a list of numbers.
    fn push_bytes(&mut self, bytes: &[u8]) {
        self.is_whole &= write!(self.text, "{bytes:?}").is_ok();
    }

    // Writes a token: a letter for its kind, its place, and how many bytes it has.
    fn push_place(&mut self, token: &Token) {
        let letter = kind_letter(token.kind);
        self.is_whole &= write!(self.text, "{letter}{}+{}", token.place, token.bytes.len()).is_ok();
    }
}

// Writes a number: `s` where it is signed, `b` where it has a base, and its digits from the highest on.
fn number(literal: Literal, line: &mut Line) {
    line.push(match (literal.signed, literal.based) {
        (false, false) => "=",
        (true, false) => "=s",
        (false, true) => "=b",
        (true, true) => "=sb",
    });
    for index in (0..literal.value.width()).rev() {
        line.push_letter(literal.value.digit(index).letter());
    }
}

// The letter of a kind of tokens.
fn kind_letter(kind: Kind) -> char {
    match kind {
        Kind::Mark(_) => 'm',
        Kind::Word(_) => 'w',
        Kind::LeftOut => 'l',
        Kind::Name => 'n',
        Kind::System => 's',
        Kind::Number(_) => '#',
        Kind::Text => 't',
        Kind::Directive(_) => 'd',
    }
}

// What is said of a mark.
fn mark_shown(mark: Mark) -> &'static str {
    match (mark, mark.is_left_out()) {
        (Mark::Star, false) => "a star",
        (_, false) => "another mark",
        (_, true) => "a mark that is left out",
    }
}

// Writes what a token stands for: the bytes of a text or of a name, and which mark a mark is.
fn meaning(alloc: Global, token: &Token, line: &mut Line) {
    match token.kind {
        Kind::Mark(mark) => line.push(mark_shown(mark)),
        Kind::Text => match token.text(alloc) {
            Ok(bytes) => line.push_bytes(&bytes),
            Err(_) => line.is_whole = false,
        },
        _ => line.push_bytes(token.name()),
    }
}

// Writes what is shown of a token.
fn token(alloc: Global, view: TokenAspect, token: &Token, line: &mut Line) {
    match (view, token.kind) {
        (TokenAspect::Meanings, _) => meaning(alloc, token, line),
        (TokenAspect::Values, Kind::Number(literal)) => {
            line.push_place(token);
            number(literal, line);
        }
        _ => line.push_place(token),
    }
}

// Writes what is shown of tokens.
fn tokens(alloc: Global, view: TokenAspect, list: &[Token], line: &mut Line) {
    let mut between = "";
    for each in list {
        line.push(between);
        token(alloc, view, each, line);
        between = " ";
    }
}

// Writes what is shown of a source's tokens, or its refusal.
fn read(alloc: Global, view: TokenAspect, source: &[u8], line: &mut Line) {
    match lex(alloc, source) {
        Ok(list) => tokens(alloc, view, &list, line),
        Err(LexFault::Memory) => line.is_whole = false,
        Err(fault) => line.is_whole &= write!(line.text, "{fault}").is_ok(),
    }
}

// Writes the same of each beginning of a source, with `|` behind it.
fn beginnings(alloc: Global, source: &[u8], line: &mut Line) {
    for last in 0..source.len() {
        read(alloc, TokenAspect::Beginnings, &source[..=last], line);
        line.push("|");
    }
}

/// What is shown of a source.
pub fn shown(alloc: Global, view: TokenAspect, source: &[u8]) -> Result<String, AllocError> {
    let mut line = Line {
        text: String::new(alloc),
        is_whole: true,
    };
    match view {
        TokenAspect::Beginnings => beginnings(alloc, source, &mut line),
        _ => read(alloc, view, source, &mut line),
    }
    if line.is_whole {
        Ok(line.text)
    } else {
        Err(AllocError)
    }
}
