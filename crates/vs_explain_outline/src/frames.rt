//! What is open, and what the next token belongs to, in a walk over the tokens of a source.

use crate::outline::DeclaredKind;
use vs_lexer::{Kind, Mark, Token, Word};

/// What an open frame is.
#[derive(Clone, Copy, PartialEq, Eq)]
pub(crate) enum FrameKind {
    /// Items up to an `endmodule` or an `end`.
    Items,
    /// One item without `begin`, with a region of its own.
    Single,
    /// A generate loop, up to the end of what it generates.
    Loop,
    /// A generate `if`, up to its `else`.
    Branch,
    /// What stands after the `else` of a generate `if`.
    Otherwise,
    /// Statements between `begin` and `end`, or the items of a `case`.
    Statements,
}

/// An open frame.
#[derive(Clone, Copy)]
pub(crate) struct Frame {
    pub(crate) kind: FrameKind,
    /// The region in which names stand there.
    pub(crate) region: usize,
    /// Of items how many generate constructs there were; of a construct its number.
    pub(crate) count: usize,
    /// The token with which it begins.
    pub(crate) token: usize,
}

/// What the next token belongs to.
#[derive(Clone, Copy, PartialEq, Eq)]
pub(crate) enum Mode {
    Outside,
    Header,
    Items,
    Declaration(DeclaredKind, bool),
    Assigns,
    Instances(usize),
    Condition,
    Content,
    Process,
}

/// Whether a token is this word.
pub(crate) fn is_word(tokens: &[Token], index: usize, word: Word) -> bool {
    match tokens.get(index) {
        Some(token) => token.kind == Kind::Word(word),
        None => false,
    }
}

/// Whether a token is this mark.
pub(crate) fn is_mark(tokens: &[Token], index: usize, mark: Mark) -> bool {
    match tokens.get(index) {
        Some(token) => token.kind == Kind::Mark(mark),
        None => false,
    }
}

/// What an item declares that begins with this word: the kind of its names, and whether a value makes a process of it.
pub(crate) fn declared_by(word: Word) -> Option<(DeclaredKind, bool)> {
    match word {
        Word::Input | Word::Output => Some((DeclaredKind::NetPort, false)),
        Word::Wire => Some((DeclaredKind::Net, false)),
        Word::Reg | Word::Integer => Some((DeclaredKind::Variable, true)),
        Word::Parameter | Word::Localparam => Some((DeclaredKind::Constant, false)),
        Word::Genvar => Some((DeclaredKind::Genvar, false)),
        _ => None,
    }
}
