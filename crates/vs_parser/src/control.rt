//! Reading delays, and what event controls wait for.
ghost use Rattle.std.specs.Prelude.{◌≡◌, ℕ, map};
ghost use Rattle.vs_syntax.specs.vs_lexer.specs.declared.token.Mark.TheVariants as m;
ghost use Rattle.vs_syntax.specs.vs_lexer.specs.declared.token.Word.TheVariants as w;
ghost use Rattle.vs_syntax.specs.Symbols.{any_number, first};
ghost use Rattle.vs_syntax.specs.Grammar.{◌·◌, ◌or◌, many, part, mark, word, delay, event, event_exprs, an_event_expr};
ghost use Rattle.vs_syntax.specs.Views.{row_of, delay_tree, event_expr_tree, other_event_tree, event_tree};
ghost use Rattle.vs_parse_expressions.specs.Answers.{seen, ReadsTree};
ghost use Rattle.vs_parse_expressions.specs.Parts.{ReadsWithin, marked};

use crate::head::{DelayHead, EventHead, delay_head, edge_at, event_head, separator_at};
use std::alloc::Global;
use vs_parse_expressions::{
    Parsed, ReadFault, ended, expect_name, expr, literal, mark_at, name_selects, next,
};
use vs_syntax::vs_lexer::{Mark, Token};
use vs_syntax::{DelayValue, EventControl, EventExpr, Separator};

/// Reads a delay.
pub(crate) fn delay_value<'t, 's>(
    alloc: Global,
    depth: u32,
    tokens: &'t [Token<'s>],
) -> Result<Parsed<'t, 's, DelayValue>, ReadFault<'t, 's>>
    ensures { ReadsTree delay depth tokens.now delay_tree result }
{
    let Some((head, after)) = delay_head(tokens) else {
        return Err(ReadFault::Unexpected(tokens));
    };
    match head {
        DelayHead::Number => delay_number(tokens),
        DelayHead::Name => {
            let (name, rest) = expect_name(alloc, tokens)?;
            Ok(Parsed {
                tree: DelayValue::Name(name),
                rest,
            })
        }
        DelayHead::Open => {
            let inner = expr(alloc, depth, after)?;
            let boxed = Box::new(alloc, inner.tree)?;
            let group = Parsed {
                tree: DelayValue::Group(boxed),
                rest: inner.rest,
            };
            ended(group, Mark::Close)
        }
    }
}

/// Reads a delay that is a number.
fn delay_number<'t, 's>(
    tokens: &'t [Token<'s>],
) -> Result<Parsed<'t, 's, DelayValue>, ReadFault<'t, 's>>
    requires { first (seen tokens.now) ≡ any_number }
    ensures { (depth : ℕ) → ReadsTree delay depth tokens.now delay_tree result }
{
    let Some((first, rest)) = next(tokens) else {
        return Err(ReadFault::Unexpected(tokens));
    };
    let Some(time) = literal(first.kind) else {
        return Err(ReadFault::Unexpected(tokens));
    };
    Ok(Parsed {
        tree: DelayValue::Number(time),
        rest,
    })
}

/// Reads what an event control waits for.
pub(crate) fn event_control<'t, 's>(
    alloc: Global,
    depth: u32,
    tokens: &'t [Token<'s>],
) -> Result<Parsed<'t, 's, EventControl>, ReadFault<'t, 's>>
    ensures { ReadsTree event depth tokens.now event_tree result }
{
    let Some((head, after)) = event_head(tokens) else {
        return Err(ReadFault::Unexpected(tokens));
    };
    match head {
        EventHead::Star => Ok(Parsed {
            tree: EventControl::Star,
            rest: after,
        }),
        EventHead::Name => {
            let (name, rest) = expect_name(alloc, tokens)?;
            Ok(Parsed {
                tree: EventControl::Name(name),
                rest,
            })
        }
        EventHead::Open => event_group(alloc, depth, after),
    }
}

/// Reads what stands in the parentheses of an event control, and the one behind it.
fn event_group<'t, 's>(
    alloc: Global,
    depth: u32,
    tokens: &'t [Token<'s>],
) -> Result<Parsed<'t, 's, EventControl>, ReadFault<'t, 's>>
    ensures { ReadsWithin event_tree (marked m.Open) ((mark m.Star or event_exprs) · mark m.Close)
        depth tokens.now result }
{
    match mark_at(tokens, Mark::Star) {
        Some(rest) => {
            let star = Parsed {
                tree: EventControl::GroupedStar,
                rest,
            };
            ended(star, Mark::Close)
        }
        None => {
            let first = event_term(alloc, depth, tokens)?;
            let others = other_terms(alloc, depth, first.rest)?;
            let term = Box::new(alloc, first.tree)?;
            let control = Parsed {
                tree: EventControl::Terms(term, others.tree),
                rest: others.rest,
            };
            ended(control, Mark::Close)
        }
    }
}

/// Reads the terms of an event control behind the first one.
fn other_terms<'t, 's>(
    alloc: Global,
    depth: u32,
    tokens: &'t [Token<'s>],
) -> Result<Parsed<'t, 's, Vec<(Separator, EventExpr)>>, ReadFault<'t, 's>>
    ensures { ReadsTree (many ((word w.Or or mark m.Comma) · part an_event_expr)) depth tokens.now
        (λ xs. row_of (map other_event_tree xs.items)) result }
{
    let mut tree = Vec::new(alloc);
    // All of them, but from a call: so the borrow checker can join it with what the loop sets.
    let (_none, mut rest) = tokens.split_at(0);
    while let Some((separator, after)) = separator_at(rest) {
        let term = event_term(alloc, depth, after)?;
        rest = term.rest;
        tree.push((separator, term.tree))?;
    }
    Ok(Parsed { tree, rest })
}

/// Reads a term of an event control.
fn event_term<'t, 's>(
    alloc: Global,
    depth: u32,
    tokens: &'t [Token<'s>],
) -> Result<Parsed<'t, 's, EventExpr>, ReadFault<'t, 's>>
    ensures { ReadsTree (part an_event_expr) depth tokens.now event_expr_tree result }
{
    let (edge, after_edge) = edge_at(tokens);
    let (name, after_name) = expect_name(alloc, after_edge)?;
    let selects = name_selects(alloc, depth, after_name)?;
    Ok(Parsed {
        tree: EventExpr {
            edge,
            name,
            selects: selects.tree,
        },
        rest: selects.rest,
    })
}
