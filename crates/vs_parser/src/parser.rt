//! The parser's call.
ghost use Rattle.std.specs.Prelude.{◌≡◌, [], true, false, MatchResult};
ghost use Rattle.vs_syntax.specs.vs_lexer.specs.Tokens.{lexemes};
ghost use Rattle.vs_syntax.specs.Symbols.{symbols};
ghost use Rattle.vs_syntax.specs.Derivation.{Tree};
ghost use Rattle.vs_syntax.specs.Derives.{Derives};
ghost use Rattle.vs_syntax.specs.Views.{source_tree};
ghost use Rattle.vs_parser.specs.declared.fault.ParseFault.TheVariants.{Memory};
ghost use Rattle.vs_parser.specs.vs_parse_expressions.specs.Answers.{seen};
ghost use Rattle.vs_parser.specs.Faults.{IsRefused, IsTreeOf, Halts, StopsAt};

use crate::fault::{ParseFault, left_out};
use crate::source::source;
use crate::vs_parse_expressions::{ReadFault, next};
use std::alloc::Global;
use vs_syntax::Source;
use vs_syntax::vs_lexer::Token;

/// The deepest nesting, in nodes below one another.
const NESTING: u32 = 256;

/// The source that the tokens derive (IEEE 1364-2005, annex A). A refusal has the first place at
/// which no source goes on.
pub fn parse<'s>(alloc: Global, tokens: &[Token<'s>]) -> Result<Source, ParseFault<'s>>
    // What is answered holds: the tokens derive the source, or the condition of the fault stands.
    ensures exact { MatchResult result (λ s. Derives (symbols (lexemes tokens.now)) s)
        (λ e. IsRefused (lexemes tokens.now) e) }
    // What holds is answered: each source of the tokens, unless memory runs out.
    ensures complete { (x : Tree) → IsTreeOf (lexemes tokens.now) x →
        MatchResult result (λ s. source_tree s ≡ x) (λ e. e ≡ Memory) }
{
    match whole(alloc, tokens) {
        Ok(tree) => Ok(tree),
        Err(stop) => Err(fault_of(tokens, stop)),
    }
}

/// Reads a source that is all of the tokens.
fn whole<'t, 's>(alloc: Global, tokens: &'t [Token<'s>]) -> Result<Source, ReadFault<'t, 's>>
    ensures { MatchResult result (λ s. Derives (seen tokens.now) s) (λ e. StopsAt (seen tokens.now) e) }
{
    let read = source(alloc, NESTING, tokens)?;
    let Some((_first, _others)) = next(read.rest) else {
        return Ok(read.tree);
    };
    Err(ReadFault::Unexpected(read.rest))
}

/// The fault of tokens at which reading stopped so.
fn fault_of<'s>(tokens: &[Token<'s>], stop: ReadFault<'_, 's>) -> ParseFault<'s>
    requires { StopsAt (seen tokens.now) stop }
    ensures { IsRefused (lexemes tokens.now) result }
{
    match stop {
        ReadFault::Memory => ParseFault::Memory,
        ReadFault::Unexpected(rest) => unexpected(tokens, rest),
        ReadFault::TooDeep(rest) => too_deep(tokens, rest),
    }
}

/// The fault where no source goes on with the first of the tokens `rest`, or ends before them.
fn unexpected<'s>(tokens: &[Token<'s>], rest: &[Token<'s>]) -> ParseFault<'s>
    requires { Halts false (seen tokens.now) (seen rest.now) }
    ensures { IsRefused (lexemes tokens.now) result }
{
    let (_before, after) = tokens.split_at(tokens.len() - rest.len());
    let Some((token, _others)) = next(after) else {
        return unfinished(tokens);
    };
    if left_out(token) {
        ParseFault::LeftOut {
            place: token.place,
            text: token.bytes,
        }
    } else {
        ParseFault::Unexpected(token.place)
    }
}

/// The fault where only sources of a deeper nesting go on with the first of the tokens `rest`.
fn too_deep<'s>(tokens: &[Token<'s>], rest: &[Token<'s>]) -> ParseFault<'s>
    requires { Halts true (seen tokens.now) (seen rest.now) }
    ensures { IsRefused (lexemes tokens.now) result }
{
    let (_before, after) = tokens.split_at(tokens.len() - rest.len());
    let Some((token, _others)) = next(after) else {
        unreachable!()
    };
    ParseFault::TooDeep(token.place)
}

/// The fault where the tokens begin a source and are none.
fn unfinished<'s>(tokens: &[Token<'s>]) -> ParseFault<'s>
    requires { Halts false (seen tokens.now) [] }
    ensures { IsRefused (lexemes tokens.now) result }
{
    let Some((last, _before)) = tokens.split_last() else {
        unreachable!()
    };
    ParseFault::UnexpectedEnd(last.place.saturating_add(last.bytes.len()))
}
