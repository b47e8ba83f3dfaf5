//! What is next in the header of a module.
ghost use Rattle.std.specs.Prelude.{◌≡◌, ◌∷◌, false, MatchOption};
ghost use Rattle.vs_syntax.specs.vs_lexer.specs.declared.token.Word.TheVariants as w;
ghost use Rattle.vs_syntax.specs.Symbols.{a_word};
ghost use Rattle.vs_syntax.specs.Grammar.{◌or◌, word, name};
ghost use Rattle.vs_syntax.specs.Tables.{goes};
ghost use Rattle.vs_syntax.specs.Views.{direction_word};
ghost use Rattle.vs_parse_expressions.specs.Answers.{seen};
ghost use Rattle.vs_parser.specs.Ports.{port_kind, kind_word};

use vs_parse_expressions::next;
use vs_syntax::vs_lexer::{Kind, Token, Word};
use vs_syntax::{Direction, PortKind};

/// Whether a name is next.
pub(crate) fn begins_name(tokens: &[Token]) -> bool
    ensures { result ≡ goes name (seen tokens.now) }
{
    match next(tokens) {
        Some((first, _rest)) => first.kind == Kind::Name,
        None => false,
    }
}

/// The direction that is next, if one is, and the tokens behind it.
pub(crate) fn direction_at<'t, 's>(tokens: &'t [Token<'s>]) -> Option<(Direction, &'t [Token<'s>])>
    ensures { MatchOption result (goes (word w.Input or word w.Output) (seen tokens.now) ≡ false)
        (λ x. seen tokens.now ≡ a_word (direction_word x.0) ∷ seen x.1.now) }
{
    let (first, rest) = next(tokens)?;
    match first.kind {
        Kind::Word(word) => match word {
            Word::Input => Some((Direction::Input, rest)),
            Word::Output => Some((Direction::Output, rest)),
            _ => None,
        },
        _ => None,
    }
}

/// The kind of a port that is next, if one is, and the tokens behind it.
pub(crate) fn kind_at<'t, 's>(tokens: &'t [Token<'s>]) -> Option<(PortKind, &'t [Token<'s>])>
    ensures { MatchOption result (goes port_kind (seen tokens.now) ≡ false)
        (λ x. seen tokens.now ≡ a_word (kind_word x.0) ∷ seen x.1.now) }
{
    let (first, rest) = next(tokens)?;
    match first.kind {
        Kind::Word(word) => match word {
            Word::Wire => Some((PortKind::Wire, rest)),
            Word::Reg => Some((PortKind::Reg, rest)),
            Word::Integer => Some((PortKind::Integer, rest)),
            _ => None,
        },
        _ => None,
    }
}
