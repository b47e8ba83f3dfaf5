//! The tokens of a source.
ghost use Rattle.std.specs.Prelude.{◌≡◌, ◌<◌, ◌≤◌, [], ◌∷◌, ◌++◌, length, MatchResult, OnOk};
ghost use Rattle.vs_lexer.specs.Spelling.{IsSpelled, Fails};
ghost use Rattle.vs_lexer.specs.Taking.{Takes, Stops};
ghost use Rattle.vs_lexer.specs.Tokens.{lexemes};

use crate::fault::LexFault;
use crate::scan::read_piece;
use crate::{Kind, Lexed, Piece, Refusal, Token};
use std::alloc::{AllocError, Global};

/// The most bytes that a source has: 4 MiB.
const SOURCE_LIMIT: usize = 4194304;

/// Puts a token behind the others.
fn add<'s>(
    tokens: &mut Vec<Token<'s>>,
    kind: Kind,
    place: usize,
    bytes: &'s [u8],
) -> Result<(), AllocError>
    ensures { OnOk result (lexemes tokens.new.items
        ≡ lexemes tokens.old.items ++ record { kind = kind; place = place; bytes = bytes.now } ∷ []) }
{
    tokens.extend_from_slice(&[Token { kind, place, bytes }])
}

/// Reads the piece with which these bytes begin, at this place of the source, and answers the bytes
/// after it. A token goes behind the others.
fn take_piece<'s>(
    tokens: &mut Vec<Token<'s>>,
    place: usize,
    bytes: &'s [u8],
) -> Result<&'s [u8], LexFault>
    requires { 0 < length bytes.now }
    ensures { MatchResult result
        (λ rest. Takes place bytes.now (lexemes tokens.old.items) (lexemes tokens.new.items) rest.now)
        (λ fault. Stops place bytes.now fault) }
{
    let Lexed { piece, rest } = read_piece(bytes);
    match piece {
        Piece::Skipped => Ok(rest),
        Piece::Token(kind) => {
            let text = &bytes[..bytes.len() - rest.len()];
            add(tokens, kind, place, text)?;
            Ok(rest)
        }
        Piece::Refused(why) => Err(LexFault::Refused { why, place }),
    }
}

/// The tokens of a source, or the first place where it is refused. Linear in the source.
pub fn lex<'s>(alloc: Global, source: &'s [u8]) -> Result<Vec<Token<'s>>, LexFault>
    // Exactly the tokens that the source spells, and a refusal only of what stands first.
    ensures { MatchResult result
        (λ tokens. IsSpelled source.now (lexemes tokens.items))
        (λ fault. Fails source.now fault) }
{
    let mut tokens = Vec::new(alloc);
    let mut rest = source;
    while !rest.is_empty() {
        let place = source.len() - rest.len();
        if place >= SOURCE_LIMIT {
            return Err(LexFault::Refused {
                why: Refusal::TooLong,
                place: SOURCE_LIMIT,
            });
        }
        rest = take_piece(&mut tokens, place, rest)?;
    }
    if source.len() > SOURCE_LIMIT {
        return Err(LexFault::Refused {
            why: Refusal::TooLong,
            place: SOURCE_LIMIT,
        });
    }
    Ok(tokens)
}
