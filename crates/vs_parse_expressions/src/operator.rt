//! The operators of expressions.
ghost use Rattle.std.specs.Prelude.{◌≡◌, ℕ, MatchOption};
ghost use Rattle.vs_parse_expressions.specs.Answers.{seen};
ghost use Rattle.vs_parse_expressions.specs.Operators.{unary_of, binary_of, NoOperator, BeginsLink};

use crate::token::next_mark;
use vs_syntax::vs_lexer::{Mark, Token};
use vs_syntax::vs_logic4::{Binary, Unary};

/// How many levels operators between operands have (IEEE 1364-2005, clause 5.1.2).
pub(crate) const LEVELS: usize = 10;

/// The operator that a mark is before an operand, if it is one.
pub(crate) fn unary(mark: Mark) -> Option<Unary>
    ensures { result ≡ unary_of mark }
{
    match mark {
        Mark::Plus => Some(Unary::Plus),
        Mark::Minus => Some(Unary::Minus),
        Mark::Not => Some(Unary::LogicalNot),
        Mark::Tilde => Some(Unary::Not),
        Mark::And => Some(Unary::ReduceAnd),
        Mark::Nand => Some(Unary::ReduceNand),
        Mark::Or => Some(Unary::ReduceOr),
        Mark::Nor => Some(Unary::ReduceNor),
        Mark::Xor => Some(Unary::ReduceXor),
        Mark::Xnor => Some(Unary::ReduceXnor),
        _ => None,
    }
}

/// The operator that a mark is between operands, if it is one, and before it the number of its
/// level, from 0 for the one that binds tightest.
pub(crate) fn binary(mark: Mark) -> Option<(usize, Binary)>
    ensures { result ≡ binary_of mark }
{
    match mark {
        Mark::Star => Some((0, Binary::Multiply)),
        Mark::Slash => Some((0, Binary::Divide)),
        Mark::Percent => Some((0, Binary::Remainder)),
        Mark::Plus => Some((1, Binary::Add)),
        Mark::Minus => Some((1, Binary::Subtract)),
        Mark::ShiftLeft => Some((2, Binary::ShiftLeft)),
        Mark::ShiftRight => Some((2, Binary::ShiftRight)),
        Mark::ArithmeticShiftLeft => Some((2, Binary::SignedShiftLeft)),
        Mark::ArithmeticShiftRight => Some((2, Binary::SignedShiftRight)),
        Mark::Less => Some((3, Binary::Less)),
        Mark::LessEqual => Some((3, Binary::LessEqual)),
        Mark::Greater => Some((3, Binary::Greater)),
        Mark::GreaterEqual => Some((3, Binary::GreaterEqual)),
        Mark::Equal => Some((4, Binary::Equal)),
        Mark::NotEqual => Some((4, Binary::NotEqual)),
        Mark::CaseEqual => Some((4, Binary::CaseEqual)),
        Mark::CaseNotEqual => Some((4, Binary::CaseNotEqual)),
        Mark::And => Some((5, Binary::And)),
        Mark::Xor => Some((6, Binary::Xor)),
        Mark::Xnor => Some((6, Binary::Xnor)),
        Mark::Or => Some((7, Binary::Or)),
        Mark::LogicalAnd => Some((8, Binary::LogicalAnd)),
        Mark::LogicalOr => Some((9, Binary::LogicalOr)),
        _ => None,
    }
}

/// The operator of the level that is next, if one is, and the tokens behind it.
pub(crate) fn binary_at<'t, 's>(
    tokens: &'t [Token<'s>],
    level: usize,
) -> Option<(Binary, &'t [Token<'s>])>
    ensures { MatchOption result (NoOperator level (seen tokens.now))
        (λ x. BeginsLink level (seen tokens.now) x.0 (seen x.1.now)) }
{
    let (mark, rest) = next_mark(tokens)?;
    let (found, operator) = binary(mark)?;
    if found == level {
        Some((operator, rest))
    } else {
        None
    }
}
