//! Why tokens are refused.
ghost use Rattle.std.specs.Prelude.{◌≡◌, IfOk};
ghost use Rattle.vs_parser.specs.Faults.{fault_text};
ghost use Rattle.vs_parser.specs.LeftOut.{is_left_out};

use crate::vs_parse_expressions::system_name;
use std::alloc::{AllocError, Global};
use thiserror::Error;
use vs_syntax::vs_lexer::{Kind, Token};

/// What is wrong with the tokens. The place of a token is that of its first byte in the source.
#[derive(Clone, Copy, PartialEq, Eq, Debug, Error)]
pub enum ParseFault<'s> {
    /// P1: no source goes on with the token at this place.
    #[error("P1 at {0}")]
    Unexpected(usize),
    /// P2: the same, where the token is an operator, a reserved word or a system name that the
    /// grammar leaves out; with the bytes that it is.
    #[error("P2 at {place}")]
    LeftOut { place: usize, text: &'s [u8] },
    /// P3: with the token at this place only sources go on whose nesting is above 256.
    #[error("P3 at {0}")]
    TooDeep(usize),
    /// P4: the tokens end before a source does; the place behind the last one.
    #[error("P4 at {0}")]
    UnexpectedEnd(usize),
    /// Memory ran out.
    #[error("out of memory")]
    Memory,
}

impl<'s> ParseFault<'s> {
    /// The text that the program prints of the fault: its number, its place, and what the grammar
    /// leaves out, where it is that.
    pub fn text(&self, alloc: Global) -> Result<Vec<u8>, AllocError>
        ensures { IfOk result (λ t. t.items ≡ fault_text self.now) }
    {
        let line = match self {
            ParseFault::Unexpected(place) => format!(in alloc; "P1 at {place}")?,
            ParseFault::LeftOut { place, text: _ } => format!(in alloc; "P2 at {place}: ")?,
            ParseFault::TooDeep(place) => format!(in alloc; "P3 at {place}")?,
            ParseFault::UnexpectedEnd(place) => format!(in alloc; "P4 at {place}")?,
            ParseFault::Memory => format!(in alloc; "memory")?,
        };
        let mut bytes = line.into_bytes();
        if let ParseFault::LeftOut { place: _, text } = self {
            bytes.extend_from_slice(text)?;
        }
        Ok(bytes)
    }
}

/// Whether a token is an operator, a reserved word or a system name that the grammar leaves out.
pub(crate) fn left_out(token: &Token) -> bool
    ensures { result ≡ is_left_out token.now.kind token.now.bytes.now }
{
    match token.kind {
        Kind::Mark(mark) => mark.is_left_out(),
        Kind::LeftOut => true,
        Kind::System => system_name(token.bytes).is_none(),
        _ => false,
    }
}
