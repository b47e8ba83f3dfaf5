//! How operands and left sides begin.
ghost use Rattle.std.specs.Prelude.{◌≡◌, false, ◌∷◌, MatchOption};
ghost use Rattle.vs_syntax.specs.Symbols.{a_mark, the_mark};
ghost use Rattle.vs_syntax.specs.Grammar.{part, a_target, an_expr, an_operand};
ghost use Rattle.vs_syntax.specs.Tables.{among, operand_fronts, goes};
ghost use Rattle.vs_parse_expressions.specs.Answers.{seen};
ghost use Rattle.vs_parse_expressions.specs.Heads.{BeginsOperand, BeginsTarget};

use crate::operator::unary;
use crate::token::{SystemName, next, spelled, system_name};
use vs_syntax::vs_lexer::{Kind, Mark, Token};
use vs_syntax::vs_logic4::Unary;

/// What an operand begins with, and mostly the tokens behind that.
#[derive(Drop)]
pub(crate) enum OperandHead<'t, 's> {
    /// A number.
    Number,
    /// A name.
    Name,
    /// An operator.
    Unary(Unary, &'t [Token<'s>]),
    /// `(`
    Open(&'t [Token<'s>]),
    /// `{`
    Brace(&'t [Token<'s>]),
    /// `$signed`, else `$unsigned`.
    Cast(bool, &'t [Token<'s>]),
}

/// What the left side of an assignment begins with, and mostly the tokens behind that.
#[derive(Drop)]
pub(crate) enum LeftHead<'t, 's> {
    /// A name.
    Name,
    /// `{`
    Brace(&'t [Token<'s>]),
}

/// How the operand begins that is next, if one is.
pub(crate) fn operand_head<'t, 's>(tokens: &'t [Token<'s>]) -> Option<OperandHead<'t, 's>>
    ensures { MatchOption result (goes (part an_operand) (seen tokens.now) ≡ false)
        (λ head. BeginsOperand (seen tokens.now) head) }
{
    let (first, rest) = next(tokens)?;
    match first.kind {
        Kind::Name => Some(OperandHead::Name),
        Kind::Number(_) => Some(OperandHead::Number),
        Kind::Mark(found) => marked_operand(spelled(found), rest),
        Kind::System => match system_name(first.bytes) {
            Some(SystemName::Cast(signed)) => Some(OperandHead::Cast(signed, rest)),
            _ => None,
        },
        _ => None,
    }
}

/// Whether the next token can begin an expression.
pub fn begins_expr(tokens: &[Token]) -> bool
    ensures { result ≡ goes (part an_expr) (seen tokens.now) }
{
    operand_head(tokens).is_some()
}

/// How the operand begins that the mark begins, behind which `rest` stands, if it begins one.
fn marked_operand<'t, 's>(mark: Mark, rest: &'t [Token<'s>]) -> Option<OperandHead<'t, 's>>
    ensures { MatchOption result (among (the_mark mark) operand_fronts ≡ false)
        (λ head. BeginsOperand (a_mark mark ∷ seen rest.now) head) }
{
    match mark {
        Mark::Open => Some(OperandHead::Open(rest)),
        Mark::OpenBrace => Some(OperandHead::Brace(rest)),
        _ => match unary(mark) {
            Some(operator) => Some(OperandHead::Unary(operator, rest)),
            None => None,
        },
    }
}

/// How the left side of an assignment begins that is next, if one is.
pub(crate) fn left_head<'t, 's>(tokens: &'t [Token<'s>]) -> Option<LeftHead<'t, 's>>
    ensures { MatchOption result (goes (part a_target) (seen tokens.now) ≡ false)
        (λ head. BeginsTarget (seen tokens.now) head) }
{
    let (first, rest) = next(tokens)?;
    match first.kind {
        Kind::Name => Some(LeftHead::Name),
        Kind::Mark(mark) => match mark {
            Mark::OpenBrace => Some(LeftHead::Brace(rest)),
            _ => None,
        },
        _ => None,
    }
}
