//! The source that a text is.
ghost use Rattle.std.specs.Prelude.{IfOk, MatchOption};
ghost use Rattle.vs_syntax.specs.Derives.{Derives};
ghost use Rattle.vs_syntax.specs.Symbols.{symbols};
ghost use Rattle.vs_syntax.specs.vs_lexer.specs.Tokens.{lexemes};
ghost use Rattle.vs_program_words.specs.Targets.{DerivesNone, IsNoSource, IsSourceOf};

use std::alloc::{AllocError, Global};
use vs_parser::{ParseFault, parse};
use vs_syntax::Source;
use vs_syntax::vs_lexer::{LexFault, Token, lex};

// The source that tokens derive, if they derive one.
fn derived(alloc: Global, tokens: &[Token]) -> Result<Option<Source>, AllocError>
    ensures { IfOk result (λ o. MatchOption o (DerivesNone (lexemes tokens.now)) (λ s. Derives (symbols (lexemes tokens.now)) s)) }
{
    match parse(alloc, tokens) {
        Ok(source) => Ok(Some(source)),
        Err(ParseFault::Memory) => Err(AllocError),
        Err(_) => Ok(None),
    }
}

/// The source that a text is, if it is one.
pub(crate) fn read_source(alloc: Global, text: &[u8]) -> Result<Option<Source>, AllocError>
    ensures { IfOk result (λ o. MatchOption o (IsNoSource text.now) (IsSourceOf text.now)) }
{
    match lex(alloc, text) {
        Ok(tokens) => derived(alloc, &tokens),
        Err(LexFault::Memory) => Err(AllocError),
        Err(_) => Ok(None),
    }
}
