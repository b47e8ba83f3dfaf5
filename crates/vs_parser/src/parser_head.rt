//! How modules and directives begin.
ghost use Rattle.std.specs.Prelude.{◌≡◌, ◌∷◌, false, MatchOption};
ghost use Rattle.vs_syntax.specs.Tables.{goes};
ghost use Rattle.vs_parser.specs.vs_parse_expressions.specs.Answers.{seen};
ghost use Rattle.vs_parser.specs.ParserHeads.{source_symbol, module_or_directive};

use crate::vs_parse_expressions::next;
use vs_syntax::vs_lexer::{Directive, Kind, Token, Word};

/// What stands between modules.
#[derive(Clone, Copy)]
pub(crate) enum SourceHead {
    /// `module`, with which a module begins.
    Module,
    /// A directive.
    Directive(Directive),
}

/// What is next of a module or a directive, if one of them is, and the tokens behind its first one.
pub(crate) fn source_head<'t, 's>(tokens: &'t [Token<'s>]) -> Option<(SourceHead, &'t [Token<'s>])>
    ensures { MatchOption result (goes module_or_directive (seen tokens.now) ≡ false)
        (λ x. seen tokens.now ≡ source_symbol x.0 ∷ seen x.1.now) }
{
    let (first, rest) = next(tokens)?;
    match first.kind {
        Kind::Word(word) => match word {
            Word::Module => Some((SourceHead::Module, rest)),
            _ => None,
        },
        Kind::Directive(directive) => Some((SourceHead::Directive(directive), rest)),
        _ => None,
    }
}
