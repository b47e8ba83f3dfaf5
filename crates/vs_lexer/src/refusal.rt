//! What is refused in a source.

use std::fmt;

/// What is wrong with a source, by its number.
#[derive(Clone, Copy, PartialEq, Eq, Debug)]
pub enum Refusal {
    /// L1: a byte that no token has there.
    BadByte,
    /// L2: a comment, an attribute or a text that is not closed.
    Unclosed,
    /// L3: a literal that is not well formed.
    BadLiteral,
    /// L4: a literal that is too large: unsized past 32 bits, or of size 0 or over 64.
    TooLarge,
    /// L5: a directive out of scope.
    BadDirective,
    /// L6: a source over 4 MiB, or a name over 1,024 bytes.
    TooLong,
}

impl fmt::Display for Refusal {
    ghost use Rattle.std.specs.Prelude.{Some};
    ghost use Rattle.vs_lexer.specs.Tokens.{refusal_text};

    ghost output = { λ refusal. Some (refusal_text refusal) };

    fn fmt<W: fmt::Write>(&self, f: &mut fmt::Formatter<W>) -> fmt::Result {
        match self {
            Refusal::BadByte => f.write_str("L1"),
            Refusal::Unclosed => f.write_str("L2"),
            Refusal::BadLiteral => f.write_str("L3"),
            Refusal::TooLarge => f.write_str("L4"),
            Refusal::BadDirective => f.write_str("L5"),
            Refusal::TooLong => f.write_str("L6"),
        }
    }
}
