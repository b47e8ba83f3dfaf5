//! Reading expressions.
ghost use Rattle.std.specs.Prelude.{◌≡◌, [], ℕ, suc, ◌∷◌, map, IfOk};
ghost use Rattle.vs_syntax.specs.vs_lexer.specs.declared.token.Mark.TheVariants as m;
ghost use Rattle.vs_syntax.specs.Symbols.{a_mark, a_cast, any_name, any_number, first};
ghost use Rattle.vs_syntax.specs.Grammar.{◌·◌, part, many, mark, a_level, a_condition, an_expr, an_operand, other_parts, select};
ghost use Rattle.vs_syntax.specs.Derivation.{leaf, both, height};
ghost use Rattle.vs_syntax.specs.Views.{row_of, unary_mark, others_tree, chosen_tree, expr_tree};
ghost use Rattle.vs_syntax.specs.Reading.{Gets};
ghost use Rattle.vs_parse_expressions.specs.Answers.{seen, ReadsTree, Measures, Nests, Measured};

use crate::head::{OperandHead, operand_head};
use crate::operator::{LEVELS, binary_at};
use crate::reading::{Parsed, ReadFault};
use crate::token::{expect_mark, expect_name, literal, mark_at, next, part_select_at};
use std::alloc::{AllocError, Global};
use vs_syntax::vs_lexer::{Mark, Token};
use vs_syntax::vs_logic4::Unary;
use vs_syntax::{Expr, PartSelect};

/// An expression that was read: its syntax tree, its nesting (in nodes), and the tokens behind it.
#[derive(Drop)]
pub(crate) struct Nested<'t, 's> {
    tree: Expr,
    height: u32,
    rest: &'t [Token<'s>],
}

/// Selects that were read, in the order of the text, their nesting (in nodes), and the tokens behind
/// them.
#[derive(Drop)]
pub(crate) struct ReadSelects<'t, 's> {
    pub(crate) tree: Vec<(Expr, Option<(PartSelect, Expr)>)>,
    pub(crate) height: u32,
    pub(crate) rest: &'t [Token<'s>],
}

/// A select that was read: its expressions, their nesting, and the tokens behind it.
#[derive(Drop)]
struct ReadSelect<'t, 's> {
    tree: (Expr, Option<(PartSelect, Expr)>),
    height: u32,
    rest: &'t [Token<'s>],
}

/// The parts of a concatenation behind the first one, their nesting, and the tokens behind the
/// brace.
#[derive(Drop)]
struct ReadOthers<'t, 's> {
    tree: Vec<Expr>,
    height: u32,
    rest: &'t [Token<'s>],
}

/// Reads an expression, in at most `depth` nodes below one another.
pub fn expr<'t, 's>(
    alloc: Global,
    depth: u32,
    tokens: &'t [Token<'s>],
) -> Result<Parsed<'t, 's, Expr>, ReadFault<'t, 's>>
    ensures { ReadsTree (part an_expr) depth tokens.now expr_tree result }
{
    let read = nested_expr(alloc, depth, tokens)?;
    Ok(Parsed {
        tree: read.tree,
        rest: read.rest,
    })
}

/// Reads an expression and its nesting.
#[cycle(expr)]
fn nested_expr<'t, 's>(
    alloc: Global,
    depth: u32,
    tokens: &'t [Token<'s>],
) -> Result<Nested<'t, 's>, ReadFault<'t, 's>>
    ensures { Measured (part an_expr) depth (seen tokens.now) result }
{
    let first = operands(alloc, depth, tokens, LEVELS)?;
    choice(alloc, depth, first)
}

/// Reads what stands behind a first condition, which was read: it alone, or a node of all
/// conditions and operands.
#[cycle(expr)]
fn choice<'t, 's>(
    alloc: Global,
    depth: u32,
    first: Nested<'t, 's>,
) -> Result<Nested<'t, 's>, ReadFault<'t, 's>>
    requires { first.height ≡ height (expr_tree first.tree) }
    ensures { (ts : _) → Gets (part a_condition) depth ts (expr_tree first.entry.tree) (seen first.entry.rest.now)
        → Measured (part an_expr) depth ts result }
{
    let Some(_) = mark_at(first.rest, Mark::Question) else {
        return Ok(first);
    };
    if first.height >= depth {
        return Err(ReadFault::TooDeep(first.rest));
    }
    let mut height = first.height;
    // All of them, but from a call: so the borrow checker can join it with what the loop sets.
    let (_none, mut rest) = first.rest.split_at(0);
    let mut last = first.tree;
    let mut pairs = Vec::new(alloc);
    while let Some(after) = mark_at(rest, Mark::Question) {
        let value = closed(alloc, depth - 1, after, Mark::Colon)?;
        let other = operands(alloc, depth - 1, value.rest, LEVELS)?;
        height = height.max(value.height).max(other.height);
        rest = other.rest;
        pairs.push((last, value.tree))?;
        last = other.tree;
    }
    let other = Box::new(alloc, last)?;
    Ok(Nested {
        tree: Expr::Choice(pairs, other),
        height: height + 1,
        rest,
    })
}

/// Reads operands with operators of the `top` tightest levels between them: an operand, and then
/// level by level what goes on with it. So the depth of the stack doesn't grow with the levels.
#[cycle(expr)]
fn operands<'t, 's>(
    alloc: Global,
    depth: u32,
    tokens: &'t [Token<'s>],
    top: usize,
) -> Result<Nested<'t, 's>, ReadFault<'t, 's>>
    ensures { Measured (part (a_level top)) depth (seen tokens.now) result }
{
    let mut read = operand(alloc, depth, tokens)?;
    for level in 0..top {
        read = chain(alloc, depth, read, level)?;
    }
    Ok(read)
}

/// Reads the operands behind the first one, which was read, with operators of the level between
/// them: the first one alone, or a node of all of them.
#[cycle(expr)]
fn chain<'t, 's>(
    alloc: Global,
    depth: u32,
    first: Nested<'t, 's>,
    level: usize,
) -> Result<Nested<'t, 's>, ReadFault<'t, 's>>
    requires { first.height ≡ height (expr_tree first.tree) }
    ensures { (ts : _) → Gets (part (a_level level)) depth ts (expr_tree first.entry.tree) (seen first.entry.rest.now)
        → Measured (part (a_level (suc level))) depth ts result }
{
    let Some(_) = binary_at(first.rest, level) else {
        return Ok(first);
    };
    if first.height >= depth {
        return Err(ReadFault::TooDeep(first.rest));
    }
    let mut height = first.height;
    // All of them, but from a call: so the borrow checker can join it with what the loop sets.
    let (_none, mut rest) = first.rest.split_at(0);
    let operand = Box::new(alloc, first.tree)?;
    let mut links = Vec::with_capacity(alloc, 1)?;
    while let Some((operator, after)) = binary_at(rest, level) {
        let other = operands(alloc, depth - 1, after, level)?;
        height = height.max(other.height);
        rest = other.rest;
        links.push((operator, other.tree))?;
    }
    Ok(Nested {
        tree: Expr::Chain(operand, links),
        height: height + 1,
        rest,
    })
}

/// Reads an operand.
#[cycle(expr)]
fn operand<'t, 's>(
    alloc: Global,
    depth: u32,
    tokens: &'t [Token<'s>],
) -> Result<Nested<'t, 's>, ReadFault<'t, 's>>
    ensures { Measured (part an_operand) depth (seen tokens.now) result }
{
    let Some(head) = operand_head(tokens) else {
        return Err(ReadFault::Unexpected(tokens));
    };
    match head {
        OperandHead::Number => number(tokens),
        OperandHead::Name => named(alloc, depth, tokens),
        OperandHead::Unary(operator, after) => prefixed(alloc, depth, tokens, operator, after),
        OperandHead::Open(after) => group(alloc, depth, tokens, after),
        OperandHead::Brace(after) => braces(alloc, depth, tokens, after),
        OperandHead::Cast(signed, after) => cast(alloc, depth, tokens, signed, after),
    }
}

/// Reads a number. It has no nodes.
fn number<'t, 's>(tokens: &'t [Token<'s>]) -> Result<Nested<'t, 's>, ReadFault<'t, 's>>
    requires { first (seen tokens.now) ≡ any_number }
    ensures reads { (depth : ℕ) → Nests (part an_operand) depth (seen tokens.now) result }
    ensures height { IfOk result (λ x. x.height ≡ height (expr_tree x.tree)) }
{
    let Some((first, rest)) = next(tokens) else {
        return Err(ReadFault::Unexpected(tokens));
    };
    let Some(number) = literal(first.kind) else {
        return Err(ReadFault::Unexpected(tokens));
    };
    Ok(Nested {
        tree: Expr::Number(number),
        height: 0,
        rest,
    })
}

/// Reads a name and its selects: it alone, which has no nodes, or a node of it and of them.
#[cycle(expr)]
fn named<'t, 's>(
    alloc: Global,
    depth: u32,
    tokens: &'t [Token<'s>],
) -> Result<Nested<'t, 's>, ReadFault<'t, 's>>
    requires { first (seen tokens.now) ≡ any_name }
    ensures { Measured (part an_operand) depth (seen tokens.now) result }
{
    let (name, start) = expect_name(alloc, tokens)?;
    let Some(_) = mark_at(start, Mark::OpenBracket) else {
        return Ok(Nested {
            tree: Expr::Name(name),
            height: 0,
            rest: start,
        });
    };
    if depth == 0 {
        return Err(ReadFault::TooDeep(start));
    }
    let read = selects(alloc, depth - 1, start)?;
    Ok(Nested {
        tree: Expr::Select(name, read.tree),
        height: read.height + 1,
        rest: read.rest,
    })
}

/// Room for the selects that are next. Most operands have one: it takes no room for others.
fn room_for_selects<'s>(
    alloc: Global,
    tokens: &[Token<'s>],
) -> Result<Vec<(Expr, Option<(PartSelect, Expr)>)>, AllocError>
    ensures { IfOk result (λ room. room.items ≡ []) }
{
    if mark_at(tokens, Mark::OpenBracket).is_some() {
        return Vec::with_capacity(alloc, 1);
    }
    Ok(Vec::new(alloc))
}

/// Reads the selects that are next, in at most `depth` nodes below one another.
#[cycle(expr)]
pub(crate) fn selects<'t, 's>(
    alloc: Global,
    depth: u32,
    tokens: &'t [Token<'s>],
) -> Result<ReadSelects<'t, 's>, ReadFault<'t, 's>>
    ensures { Measures (many select) depth (seen tokens.now)
        (λ x. row_of (map chosen_tree x.tree.items)) (λ x. x.height) (λ x. seen x.rest.now) result }
{
    let mut height: u32 = 0;
    // All of them, but from a call: so the borrow checker can join it with what the loop sets.
    let (_none, mut rest) = tokens.split_at(0);
    let mut tree = room_for_selects(alloc, tokens)?;
    while let Some(after) = mark_at(rest, Mark::OpenBracket) {
        let read = chosen(alloc, depth, rest, after)?;
        height = height.max(read.height);
        rest = read.rest;
        tree.push(read.tree)?;
    }
    Ok(ReadSelects { tree, height, rest })
}

/// Reads a select, behind whose bracket `after` stands.
#[cycle(expr)]
fn chosen<'t, 's>(
    alloc: Global,
    depth: u32,
    tokens: &'t [Token<'s>],
    after: &'t [Token<'s>],
) -> Result<ReadSelect<'t, 's>, ReadFault<'t, 's>>
    requires { seen tokens.now ≡ a_mark m.OpenBracket ∷ seen after.now }
    ensures { Measures select depth (seen tokens.now)
        (λ x. chosen_tree x.tree) (λ x. x.height) (λ x. seen x.rest.now) result }
{
    let index = nested_expr(alloc, depth, after)?;
    let Some((kind, behind)) = part_select_at(index.rest) else {
        let rest = expect_mark(index.rest, Mark::CloseBracket)?;
        return Ok(ReadSelect {
            tree: (index.tree, None),
            height: index.height,
            rest,
        });
    };
    let other = closed(alloc, depth, behind, Mark::CloseBracket)?;
    Ok(ReadSelect {
        tree: (index.tree, Some((kind, other.tree))),
        height: index.height.max(other.height),
        rest: other.rest,
    })
}

/// Reads an operator, behind which `after` stands, and its operand.
#[cycle(expr)]
fn prefixed<'t, 's>(
    alloc: Global,
    depth: u32,
    tokens: &'t [Token<'s>],
    operator: Unary,
    after: &'t [Token<'s>],
) -> Result<Nested<'t, 's>, ReadFault<'t, 's>>
    requires { seen tokens.now ≡ a_mark (unary_mark operator) ∷ seen after.now }
    ensures { Measured (part an_operand) depth (seen tokens.now) result }
{
    if depth == 0 {
        return Err(ReadFault::TooDeep(tokens));
    }
    let inner = operand(alloc, depth - 1, after)?;
    let part = Box::new(alloc, inner.tree)?;
    Ok(Nested {
        tree: Expr::Unary(operator, part),
        height: inner.height + 1,
        rest: inner.rest,
    })
}

/// Reads an expression in parentheses, behind whose `(` `after` stands.
#[cycle(expr)]
fn group<'t, 's>(
    alloc: Global,
    depth: u32,
    tokens: &'t [Token<'s>],
    after: &'t [Token<'s>],
) -> Result<Nested<'t, 's>, ReadFault<'t, 's>>
    requires { seen tokens.now ≡ a_mark m.Open ∷ seen after.now }
    ensures { Measured (part an_operand) depth (seen tokens.now) result }
{
    if depth == 0 {
        return Err(ReadFault::TooDeep(tokens));
    }
    let inner = closed(alloc, depth - 1, after, Mark::Close)?;
    let part = Box::new(alloc, inner.tree)?;
    Ok(Nested {
        tree: Expr::Group(part),
        height: inner.height + 1,
        rest: inner.rest,
    })
}

/// Reads a conversion to signed or to unsigned, behind whose name `after` stands.
#[cycle(expr)]
fn cast<'t, 's>(
    alloc: Global,
    depth: u32,
    tokens: &'t [Token<'s>],
    signed: bool,
    after: &'t [Token<'s>],
) -> Result<Nested<'t, 's>, ReadFault<'t, 's>>
    requires { seen tokens.now ≡ a_cast signed ∷ seen after.now }
    ensures { Measured (part an_operand) depth (seen tokens.now) result }
{
    if depth == 0 {
        return Err(ReadFault::TooDeep(tokens));
    }
    let opened = expect_mark(after, Mark::Open)?;
    let inner = closed(alloc, depth - 1, opened, Mark::Close)?;
    let part = Box::new(alloc, inner.tree)?;
    Ok(Nested {
        tree: Expr::Cast(signed, part),
        height: inner.height + 1,
        rest: inner.rest,
    })
}

/// Reads an expression and the mark behind it.
#[cycle(expr)]
fn closed<'t, 's>(
    alloc: Global,
    depth: u32,
    tokens: &'t [Token<'s>],
    end: Mark,
) -> Result<Nested<'t, 's>, ReadFault<'t, 's>>
    ensures { Measures (part an_expr · mark end) depth (seen tokens.now)
        (λ x. both (expr_tree x.tree) (leaf (a_mark end))) (λ x. x.height) (λ x. seen x.rest.now) result }
{
    let inner = nested_expr(alloc, depth, tokens)?;
    let rest = expect_mark(inner.rest, end)?;
    Ok(Nested {
        tree: inner.tree,
        height: inner.height,
        rest,
    })
}

/// Reads a concatenation or a multiple one, behind whose `{` `after` stands. Either is one node.
#[cycle(expr)]
fn braces<'t, 's>(
    alloc: Global,
    depth: u32,
    tokens: &'t [Token<'s>],
    after: &'t [Token<'s>],
) -> Result<Nested<'t, 's>, ReadFault<'t, 's>>
    requires { seen tokens.now ≡ a_mark m.OpenBrace ∷ seen after.now }
    ensures { Measured (part an_operand) depth (seen tokens.now) result }
{
    if depth == 0 {
        return Err(ReadFault::TooDeep(tokens));
    }
    let first = nested_expr(alloc, depth - 1, after)?;
    let head = Box::new(alloc, first.tree)?;
    let Some(inner) = mark_at(first.rest, Mark::OpenBrace) else {
        let behind = others(alloc, depth - 1, first.rest)?;
        return Ok(Nested {
            tree: Expr::Concat(head, behind.tree),
            height: first.height.max(behind.height) + 1,
            rest: behind.rest,
        });
    };
    let part = nested_expr(alloc, depth - 1, inner)?;
    let content = Box::new(alloc, part.tree)?;
    let behind = others(alloc, depth - 1, part.rest)?;
    let rest = expect_mark(behind.rest, Mark::CloseBrace)?;
    Ok(Nested {
        tree: Expr::Repeat(head, content, behind.tree),
        height: first.height.max(part.height).max(behind.height) + 1,
        rest,
    })
}

/// Reads the parts of a concatenation behind the first one, and the brace behind them.
#[cycle(expr)]
fn others<'t, 's>(
    alloc: Global,
    depth: u32,
    tokens: &'t [Token<'s>],
) -> Result<ReadOthers<'t, 's>, ReadFault<'t, 's>>
    ensures { Measures (other_parts an_expr) depth (seen tokens.now)
        (λ x. others_tree (map expr_tree x.tree.items)) (λ x. x.height) (λ x. seen x.rest.now) result }
{
    let mut height: u32 = 0;
    // All of them, but from a call: so the borrow checker can join it with what the loop sets.
    let (_none, mut rest) = tokens.split_at(0);
    let mut tree = Vec::new(alloc);
    while let Some(after) = mark_at(rest, Mark::Comma) {
        let part = nested_expr(alloc, depth, after)?;
        height = height.max(part.height);
        rest = part.rest;
        tree.push(part.tree)?;
    }
    let behind = expect_mark(rest, Mark::CloseBrace)?;
    Ok(ReadOthers {
        tree,
        height,
        rest: behind,
    })
}
