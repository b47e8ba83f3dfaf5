//! Reading the left sides of assignments.
ghost use Rattle.std.specs.Prelude.{◌≡◌, ◌∷◌, map};
ghost use Rattle.vs_syntax.specs.vs_lexer.specs.declared.token.Mark.TheVariants as m;
ghost use Rattle.vs_syntax.specs.Symbols.{a_mark, any_name, first};
ghost use Rattle.vs_syntax.specs.Grammar.{part, many, select, a_target};
ghost use Rattle.vs_syntax.specs.Views.{row_of, chosen_tree, left_tree};
ghost use Rattle.vs_parse_expressions.specs.Answers.{seen, ReadsTree};

use crate::expression::selects;
use crate::head::{LeftHead, left_head};
use crate::reading::{Parsed, ReadFault};
use crate::token::{expect_mark, expect_name, mark_at};
use std::alloc::Global;
use vs_syntax::vs_lexer::{Mark, Token};
use vs_syntax::{Expr, Left, PartSelect};

/// Reads the left side of an assignment, in at most `depth` nodes below one another.
#[cycle(left)]
pub fn left<'t, 's>(
    alloc: Global,
    depth: u32,
    tokens: &'t [Token<'s>],
) -> Result<Parsed<'t, 's, Left>, ReadFault<'t, 's>>
    ensures { ReadsTree (part a_target) depth tokens.now left_tree result }
{
    let Some(head) = left_head(tokens) else {
        return Err(ReadFault::Unexpected(tokens));
    };
    match head {
        LeftHead::Name => place(alloc, depth, tokens),
        LeftHead::Brace(after) => places(alloc, depth, tokens, after),
    }
}

/// Reads a name and its selects. They are a node.
fn place<'t, 's>(
    alloc: Global,
    depth: u32,
    tokens: &'t [Token<'s>],
) -> Result<Parsed<'t, 's, Left>, ReadFault<'t, 's>>
    requires { first (seen tokens.now) ≡ any_name }
    ensures { ReadsTree (part a_target) depth tokens.now left_tree result }
{
    if depth == 0 {
        return Err(ReadFault::TooDeep(tokens));
    }
    let (name, after_name) = expect_name(alloc, tokens)?;
    let read = selects(alloc, depth - 1, after_name)?;
    Ok(Parsed {
        tree: Left::Name(name, read.tree),
        rest: read.rest,
    })
}

/// Reads the selects that are next behind a name, in at most `depth` nodes below one another.
pub fn name_selects<'t, 's>(
    alloc: Global,
    depth: u32,
    tokens: &'t [Token<'s>],
) -> Result<Parsed<'t, 's, Vec<(Expr, Option<(PartSelect, Expr)>)>>, ReadFault<'t, 's>>
    ensures { ReadsTree (many select) depth tokens.now (λ xs. row_of (map chosen_tree xs.items)) result }
{
    let read = selects(alloc, depth, tokens)?;
    Ok(Parsed {
        tree: read.tree,
        rest: read.rest,
    })
}

/// Reads left sides in braces, behind the first of which `after` stands. They are a node.
#[cycle(left)]
fn places<'t, 's>(
    alloc: Global,
    depth: u32,
    tokens: &'t [Token<'s>],
    after: &'t [Token<'s>],
) -> Result<Parsed<'t, 's, Left>, ReadFault<'t, 's>>
    requires { seen tokens.now ≡ a_mark m.OpenBrace ∷ seen after.now }
    ensures { ReadsTree (part a_target) depth tokens.now left_tree result }
{
    if depth < 2 {
        return Err(ReadFault::TooDeep(tokens));
    }
    let first = left(alloc, depth - 1, after)?;
    let mut others = Vec::new(alloc);
    // All of them, but from a call: so the borrow checker can join it with what the loop sets.
    let (_none, mut rest) = first.rest.split_at(0);
    while let Some(next) = mark_at(rest, Mark::Comma) {
        let part = left(alloc, depth - 1, next)?;
        rest = part.rest;
        others.push(part.tree)?;
    }
    let behind = expect_mark(rest, Mark::CloseBrace)?;
    let head = Box::new(alloc, first.tree)?;
    Ok(Parsed {
        tree: Left::Concat(head, others),
        rest: behind,
    })
}
