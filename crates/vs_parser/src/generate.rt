//! Reading generate constructs and the items in them. What one form of them needs is never inlined, so that a level of nesting takes little
//! stack.
ghost use Rattle.std.specs.Prelude.{ℕ, map};
ghost use Rattle.vs_syntax.specs.vs_lexer.specs.declared.token.Mark.TheVariants as m;
ghost use Rattle.vs_syntax.specs.vs_lexer.specs.declared.token.Word.TheVariants as w;
ghost use Rattle.vs_syntax.specs.Symbols.{a_word, the_word};
ghost use Rattle.vs_syntax.specs.Grammar.{Grammar, ◌·◌, many, part, mark, word, optional, guarded, named_value, generate_loop, generate_branches, block_name, a_generate_block, an_item};
ghost use Rattle.vs_syntax.specs.Derivation.{both};
ghost use Rattle.vs_syntax.specs.Views.{row_of, constant_tree, loop_tree, block_name_tree, module_item_tree};
ghost use Rattle.vs_parser.specs.vs_parse_expressions.specs.Answers.{seen, ReadsTree};
ghost use Rattle.vs_parser.specs.vs_parse_expressions.specs.Parts.{ReadsWithin, Leads, headed, marked};
ghost use Rattle.vs_parser.specs.ItemsHeads.{BeginsItem};
ghost use Rattle.vs_parser.specs.Generated.{boxed_item_tree, other_item_tree, begun, block_rest};

use crate::item::plain_item;
use crate::items_head::{GenerateWord, ItemHead, item_head, least_item};
use crate::vs_parse_expressions::{
    Parsed, ReadFault, ended, expect_mark, expect_name, expect_word, expr, mark_at, word_at,
};
use crate::{expr_until, guard};
use std::alloc::Global;
use vs_syntax::vs_lexer::{Mark, Token, Word};
use vs_syntax::{Constant, LoopHeader, ModuleItem};

/// Reads an item, behind whose first token `after` stands, in at most `depth` nodes below one another.
#[cycle(item)]
fn item<'t, 's>(
    alloc: Global,
    depth: u32,
    tokens: &'t [Token<'s>],
    head: ItemHead<'s>,
    after: &'t [Token<'s>],
) -> Result<Parsed<'t, 's, ModuleItem>, ReadFault<'t, 's>>
    requires { BeginsItem (seen tokens.now) head (seen after.now) }
    ensures { ReadsTree (part an_item) depth tokens.now module_item_tree result }
{
    if depth < least_item(head) {
        return Err(ReadFault::TooDeep(tokens));
    }
    let below = depth - 1;
    match head {
        ItemHead::Plain(plain) => plain_item(alloc, below, after, plain),
        ItemHead::Generate(word) => match word {
            GenerateWord::Region => region(alloc, below, after),
            GenerateWord::For => generate_for(alloc, below, after),
            GenerateWord::If => generate_if(alloc, below, after),
        },
    }
}

/// Reads the items that are next, in at most `depth` nodes below one another.
#[cycle(item)]
#[inline(never)]
pub fn items<'t, 's>(
    alloc: Global,
    depth: u32,
    tokens: &'t [Token<'s>],
) -> Result<Parsed<'t, 's, Vec<ModuleItem>>, ReadFault<'t, 's>>
    ensures { ReadsTree (many (part an_item)) depth tokens.now (λ xs. row_of (map module_item_tree xs.items)) result }
{
    let mut tree = Vec::new(alloc);
    // All of them, but from a call: so the borrow checker can join it with what the loop sets.
    let (_none, mut rest) = tokens.split_at(0);
    while let Some((head, after)) = item_head(rest) {
        let inner = item(alloc, depth, rest, head, after)?;
        rest = inner.rest;
        tree.push(inner.tree)?;
    }
    Ok(Parsed { tree, rest })
}

/// Reads what stands behind `generate`: items, and `endgenerate`.
#[cycle(item)]
#[inline(never)]
fn region<'t, 's>(
    alloc: Global,
    depth: u32,
    tokens: &'t [Token<'s>],
) -> Result<Parsed<'t, 's, ModuleItem>, ReadFault<'t, 's>>
    ensures { ReadsWithin module_item_tree (headed (a_word w.Generate)) (many (part an_item) · word w.Endgenerate) depth tokens.now result }
{
    let inner = items(alloc, depth, tokens)?;
    let rest = expect_word(inner.rest, Word::Endgenerate)?;
    Ok(Parsed {
        tree: ModuleItem::Region(inner.tree),
        rest,
    })
}

/// Reads what stands behind the `for` of a generate loop.
#[cycle(item)]
#[inline(never)]
fn generate_for<'t, 's>(
    alloc: Global,
    depth: u32,
    tokens: &'t [Token<'s>],
) -> Result<Parsed<'t, 's, ModuleItem>, ReadFault<'t, 's>>
    ensures { ReadsWithin module_item_tree (headed (a_word w.For)) generate_loop depth tokens.now result }
{
    let header = loop_header(alloc, depth, tokens)?;
    let inner = boxed(alloc, depth, header.rest)?;
    Ok(Parsed {
        tree: ModuleItem::For(header.tree, inner.tree),
        rest: inner.rest,
    })
}

/// Reads what stands behind the `if` of a generate construct: the condition, what is generated where it holds, and what stands behind
/// `else`, where that is next.
#[cycle(item)]
#[inline(never)]
fn generate_if<'t, 's>(
    alloc: Global,
    depth: u32,
    tokens: &'t [Token<'s>],
) -> Result<Parsed<'t, 's, ModuleItem>, ReadFault<'t, 's>>
    ensures { ReadsWithin module_item_tree (headed (a_word w.If)) (guarded generate_branches) depth tokens.now result }
{
    let condition = guard(alloc, depth, tokens)?;
    let inner = boxed(alloc, depth, condition.rest)?;
    let other = alternative(alloc, depth, inner.rest)?;
    Ok(Parsed {
        tree: ModuleItem::If(condition.tree, inner.tree, other.tree),
        rest: other.rest,
    })
}

/// Reads `else` and what is generated where the condition does not hold, where that is next.
#[cycle(item)]
#[inline(never)]
fn alternative<'t, 's>(
    alloc: Global,
    depth: u32,
    tokens: &'t [Token<'s>],
) -> Result<Parsed<'t, 's, Option<Box<ModuleItem>>>, ReadFault<'t, 's>>
    ensures { ReadsTree (optional (the_word w.Else) (part a_generate_block)) depth tokens.now other_item_tree result }
{
    let Some(after) = word_at(tokens, Word::Else) else {
        return Ok(Parsed {
            tree: None,
            rest: tokens,
        });
    };
    let inner = boxed(alloc, depth, after)?;
    Ok(Parsed {
        tree: Some(inner.tree),
        rest: inner.rest,
    })
}

/// Reads what a generate construct generates, into a box.
#[cycle(item)]
#[inline(never)]
fn boxed<'t, 's>(
    alloc: Global,
    depth: u32,
    tokens: &'t [Token<'s>],
) -> Result<Parsed<'t, 's, Box<ModuleItem>>, ReadFault<'t, 's>>
    ensures { ReadsTree (part a_generate_block) depth tokens.now boxed_item_tree result }
{
    let inner = generated(alloc, depth, tokens)?;
    let rest = inner.rest;
    let tree = Box::new(alloc, inner.tree)?;
    Ok(Parsed { tree, rest })
}

/// Reads what a generate construct generates: nothing, a block, or an item.
#[cycle(item)]
fn generated<'t, 's>(
    alloc: Global,
    depth: u32,
    tokens: &'t [Token<'s>],
) -> Result<Parsed<'t, 's, ModuleItem>, ReadFault<'t, 's>>
    ensures { ReadsTree (part a_generate_block) depth tokens.now module_item_tree result }
{
    if let Some(rest) = mark_at(tokens, Mark::Semicolon) {
        return Ok(Parsed {
            tree: ModuleItem::Null,
            rest,
        });
    }
    if let Some(after) = word_at(tokens, Word::Begin) {
        return block(alloc, depth, after);
    }
    match item_head(tokens) {
        Some((head, after)) => item(alloc, depth, tokens, head, after),
        None => Err(ReadFault::Unexpected(tokens)),
    }
}

/// Reads what stands behind the `begin` of a block: its name, where it has one, its items, and `end`.
#[cycle(item)]
#[inline(never)]
fn block<'t, 's>(
    alloc: Global,
    depth: u32,
    tokens: &'t [Token<'s>],
) -> Result<Parsed<'t, 's, ModuleItem>, ReadFault<'t, 's>>
    ensures { ReadsWithin module_item_tree begun block_rest depth tokens.now result }
{
    let name = block_name(alloc, tokens)?;
    let inner = items(alloc, depth, name.rest)?;
    let rest = expect_word(inner.rest, Word::End)?;
    Ok(Parsed {
        tree: ModuleItem::Block(name.tree, inner.tree),
        rest,
    })
}

/// Reads the colon behind the `begin` of a block, and the name, where the colon is next.
fn block_name<'t, 's>(
    alloc: Global,
    tokens: &'t [Token<'s>],
) -> Result<Parsed<'t, 's, Option<Vec<u8>>>, ReadFault<'t, 's>>
    ensures { (depth : ℕ) → ReadsTree block_name depth tokens.now block_name_tree result }
{
    let Some(after) = mark_at(tokens, Mark::Colon) else {
        return Ok(Parsed {
            tree: None,
            rest: tokens,
        });
    };
    let (name, rest) = expect_name(alloc, after)?;
    Ok(Parsed {
        tree: Some(name),
        rest,
    })
}

/// Reads a name, the sign, and its value.
fn named_value<'t, 's>(
    alloc: Global,
    depth: u32,
    tokens: &'t [Token<'s>],
) -> Result<Parsed<'t, 's, Constant>, ReadFault<'t, 's>>
    ensures { ReadsTree named_value depth tokens.now constant_tree result }
{
    let (name, after_name) = expect_name(alloc, tokens)?;
    let after_sign = expect_mark(after_name, Mark::Assign)?;
    let value = expr(alloc, depth, after_sign)?;
    Ok(Parsed {
        tree: Constant {
            name,
            value: value.tree,
        },
        rest: value.rest,
    })
}

/// Reads a name, the sign, and its value, and the mark behind it.
fn named_value_until<'t, 's>(
    alloc: Global,
    depth: u32,
    tokens: &'t [Token<'s>],
    end: Mark,
) -> Result<Parsed<'t, 's, Constant>, ReadFault<'t, 's>>
    ensures { (a : Grammar) → Leads a (named_value · mark end · a)
        (λ x y. both (constant_tree x) (marked end y)) depth tokens.now result }
{
    let value = named_value(alloc, depth, tokens)?;
    ended(value, end)
}

/// Reads the header of a generate loop.
fn loop_header<'t, 's>(
    alloc: Global,
    depth: u32,
    tokens: &'t [Token<'s>],
) -> Result<Parsed<'t, 's, LoopHeader>, ReadFault<'t, 's>>
    ensures { Leads (part a_generate_block) generate_loop loop_tree depth tokens.now result }
{
    let inside = expect_mark(tokens, Mark::Open)?;
    let first = named_value_until(alloc, depth, inside, Mark::Semicolon)?;
    let condition = expr_until(alloc, depth, first.rest, Mark::Semicolon)?;
    let step = named_value_until(alloc, depth, condition.rest, Mark::Close)?;
    Ok(Parsed {
        tree: LoopHeader {
            name: first.tree.name,
            first: first.tree.value,
            condition: condition.tree,
            next: step.tree.name,
            step: step.tree.value,
        },
        rest: step.rest,
    })
}
