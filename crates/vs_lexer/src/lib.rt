//! Tokens, and the lexer: from the bytes of a source to its tokens, literals read (IEEE 1364-2005, clause 3).
#![tactic(auto)]

mod base;
mod collector;
mod comments;
mod directives;
mod fault;
mod laws;
mod lexing;
mod literals;
mod marks;
mod names;
mod numbers;
mod piece;
mod refusal;
mod reserved;
mod resolving;
mod runs;
mod scan;
mod texts;
mod token;

pub use base::Base;
pub use fault::LexFault;
pub use laws::{names_of_one_line, no_spelling_of_refused, one_refusal, one_spelling};
pub use lexing::lex;
pub use literals::{read_apostrophe, read_number};
pub use piece::{Lexed, Piece};
pub use refusal::Refusal;
pub use runs::{ByteClass, first_and_rest, first_two_and_rest, is_white, split_run, starts_name};
pub use texts::read_text;
pub use token::{
    Directive, ImplicitNet, Kind, Literal, Mark, TextMagnitude, TextUnit, Time, Token, Word,
};
