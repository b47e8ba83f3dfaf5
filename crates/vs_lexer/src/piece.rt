//! Pieces of a source.
use crate::refusal::Refusal;
use crate::token::Kind;

/// A piece of a source: skipped, a token, or refused.
#[derive(Clone, Copy)]
pub enum Piece {
    /// White space, a comment or an attribute.
    Skipped,
    Token(Kind),
    Refused(Refusal),
}

/// A piece, and what follows it.
#[derive(Clone, Copy)]
pub struct Lexed<'s> {
    pub piece: Piece,
    pub rest: &'s [u8],
}
