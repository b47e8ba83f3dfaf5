//! What each function that reads a part of a source answers.
ghost use Rattle.std.specs.Prelude.{◌≡◌};
ghost use Rattle.vs_parse_expressions.specs.declared.reading.ReadFault.TheVariants.{Memory};

use std::alloc::{AllocError, AllocFailed};
use vs_syntax::vs_lexer::Token;

/// A part that was read: its syntax tree, and the tokens behind it.
#[derive(Drop)]
pub struct Parsed<'t, 's, T> {
    pub tree: T,
    pub rest: &'t [Token<'s>],
}

/// Why reading stopped, and the tokens from the place on.
#[derive(Drop)]
pub enum ReadFault<'t, 's> {
    /// Memory ran out.
    Memory,
    /// No source goes on with the next token, or ends there.
    Unexpected(&'t [Token<'s>]),
    /// Only a source of a deeper nesting goes on so.
    TooDeep(&'t [Token<'s>]),
}

impl<'t, 's> From<AllocError> for ReadFault<'t, 's> {
    ghost from_gives = { λ _ e. e ≡ Memory };

    fn from(_error: AllocError) -> ReadFault<'t, 's> {
        ReadFault::Memory
    }
}

impl<'t, 's, T: Drop> From<AllocFailed<T>> for ReadFault<'t, 's> {
    ghost from_gives = { λ _ e. e ≡ Memory };

    fn from(_error: AllocFailed<T>) -> ReadFault<'t, 's> {
        ReadFault::Memory
    }
}
