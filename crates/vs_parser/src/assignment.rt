//! Reading assignments, and expressions before a mark.
ghost use Rattle.std.specs.Prelude.{◌≡◌, ◌≤◌, true, IfOk};
ghost use Rattle.vs_syntax.specs.vs_lexer.specs.declared.token.Mark.TheVariants as m;
ghost use Rattle.vs_syntax.specs.Grammar.{Grammar, ◌·◌, part, mark, assignment, guarded, for_parts, a_stmt, a_target, an_expr};
ghost use Rattle.vs_syntax.specs.Tables.{goes};
ghost use Rattle.vs_syntax.specs.Derivation.{both};
ghost use Rattle.vs_syntax.specs.Views.{expr_tree, assigned_tree, guarded_tree, for_tree, stmt_tree};
ghost use Rattle.vs_parse_expressions.specs.Answers.{seen, ReadsTree};
ghost use Rattle.vs_parse_expressions.specs.Parts.{Leads, marked, sides_tree};
ghost use Rattle.vs_parser.specs.Timings.{timing, timing_tree};

use crate::control::delay_value;
use std::alloc::{AllocError, Global};
use vs_parse_expressions::{Parsed, ReadFault, ended, expect_mark, expr, left, mark_at};
use vs_syntax::vs_lexer::{Mark, Token};
use vs_syntax::{DelayValue, Expr, ForHeader, Left, Stmt};

/// When an assignment as a statement assigns.
#[derive(Drop)]
pub(crate) enum Timing {
    /// `=`: at once (IEEE 1364-2005, clause 9.2.1).
    Blocking,
    /// `<=`: later, by its delay, where it has one (IEEE 1364-2005, clause 9.2.2).
    Nonblocking(Option<DelayValue>),
}

/// Reads an assignment as a statement, which begins with its left side.
pub(crate) fn assigned_stmt<'t, 's>(
    alloc: Global,
    depth: u32,
    tokens: &'t [Token<'s>],
) -> Result<Parsed<'t, 's, Stmt>, ReadFault<'t, 's>>
    requires depth { 2 ≤ depth }
    requires first { goes (part a_target) (seen tokens.now) ≡ true }
    ensures { ReadsTree (part a_stmt) depth tokens.now stmt_tree result }
{
    let target = left(alloc, depth - 1, tokens)?;
    let timing = sign(alloc, depth - 1, target.rest)?;
    let value = expr(alloc, depth - 1, timing.rest)?;
    let tree = assigned(alloc, timing.tree, target.tree, value.tree)?;
    let stmt = Parsed {
        tree,
        rest: value.rest,
    };
    ended(stmt, Mark::Semicolon)
}

/// The assignment of a value to a target.
fn assigned(alloc: Global, timing: Timing, target: Left, value: Expr) -> Result<Stmt, AllocError>
    ensures { IfOk result (λ s. stmt_tree s ≡ assigned_tree target (timing_tree timing) value) }
{
    let place = Box::new(alloc, target)?;
    match timing {
        Timing::Blocking => Ok(Stmt::Assign(place, value)),
        Timing::Nonblocking(delay) => Ok(Stmt::Later(place, delay, Box::new(alloc, value)?)),
    }
}

/// Reads the sign of an assignment as a statement, and the delay behind it, where there is one.
fn sign<'t, 's>(
    alloc: Global,
    depth: u32,
    tokens: &'t [Token<'s>],
) -> Result<Parsed<'t, 's, Timing>, ReadFault<'t, 's>>
    ensures { ReadsTree timing depth tokens.now timing_tree result }
{
    if let Some(rest) = mark_at(tokens, Mark::Assign) {
        return Ok(Parsed {
            tree: Timing::Blocking,
            rest,
        });
    }
    let after = expect_mark(tokens, Mark::LessEqual)?;
    let Some(behind) = mark_at(after, Mark::Hash) else {
        return Ok(Parsed {
            tree: Timing::Nonblocking(None),
            rest: after,
        });
    };
    let delay = delay_value(alloc, depth, behind)?;
    Ok(Parsed {
        tree: Timing::Nonblocking(Some(delay.tree)),
        rest: delay.rest,
    })
}

/// Reads an expression and the mark behind it, in at most `depth` nodes below one another.
pub fn expr_until<'t, 's>(
    alloc: Global,
    depth: u32,
    tokens: &'t [Token<'s>],
    end: Mark,
) -> Result<Parsed<'t, 's, Expr>, ReadFault<'t, 's>>
    ensures { (a : Grammar) → Leads a (part an_expr · mark end · a)
        (λ x y. both (expr_tree x) (marked end y)) depth tokens.now result }
{
    let value = expr(alloc, depth, tokens)?;
    ended(value, end)
}

/// Reads an expression in parentheses that are no node, in at most `depth` nodes below one another.
pub fn guard<'t, 's>(
    alloc: Global,
    depth: u32,
    tokens: &'t [Token<'s>],
) -> Result<Parsed<'t, 's, Expr>, ReadFault<'t, 's>>
    ensures { (a : Grammar) → Leads a (guarded a) (λ x y. guarded_tree (expr_tree x) y) depth tokens.now result }
{
    let inside = expect_mark(tokens, Mark::Open)?;
    expr_until(alloc, depth, inside, Mark::Close)
}

/// Reads the two sides of a blocking assignment, and the mark behind it.
fn sides_until<'t, 's>(
    alloc: Global,
    depth: u32,
    tokens: &'t [Token<'s>],
    end: Mark,
) -> Result<Parsed<'t, 's, (Left, Expr)>, ReadFault<'t, 's>>
    ensures { (a : Grammar) → Leads a (assignment · mark end · a)
        (λ x y. both (sides_tree x) (marked end y)) depth tokens.now result }
{
    let target = left(alloc, depth, tokens)?;
    let after_sign = expect_mark(target.rest, Mark::Assign)?;
    let value = expr(alloc, depth, after_sign)?;
    let sides = Parsed {
        tree: (target.tree, value.tree),
        rest: value.rest,
    };
    ended(sides, end)
}

/// Reads what stands in the parentheses of a `for` statement, with them.
pub(crate) fn for_header<'t, 's>(
    alloc: Global,
    depth: u32,
    tokens: &'t [Token<'s>],
) -> Result<Parsed<'t, 's, ForHeader>, ReadFault<'t, 's>>
    ensures { Leads (part a_stmt) for_parts
        (λ x y. for_tree x.first.0 x.first.1 x.condition x.step.0 x.step.1 y) depth tokens.now result }
{
    let inside = expect_mark(tokens, Mark::Open)?;
    let first = sides_until(alloc, depth, inside, Mark::Semicolon)?;
    let condition = expr_until(alloc, depth, first.rest, Mark::Semicolon)?;
    let step = sides_until(alloc, depth, condition.rest, Mark::Close)?;
    Ok(Parsed {
        tree: ForHeader {
            first: first.tree,
            condition: condition.tree,
            step: step.tree,
        },
        rest: step.rest,
    })
}
