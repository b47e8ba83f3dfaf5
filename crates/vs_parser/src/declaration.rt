//! Reading declarations and net assignments.
ghost use Rattle.vs_syntax.specs.vs_lexer.specs.declared.token.Mark.TheVariants as m;
ghost use Rattle.vs_syntax.specs.Symbols.{a_mark};
ghost use Rattle.vs_syntax.specs.Grammar.{part, a_net, a_variable, a_bare_name, an_assignment, an_expr};
ghost use Rattle.vs_syntax.specs.Derivation.{leaf, both};
ghost use Rattle.vs_syntax.specs.Views.{name_tree, declarator_tree, net_assignment_tree, bare_name_tree};
ghost use Rattle.vs_parse_expressions.specs.Answers.{ReadsTree};
ghost use Rattle.vs_parse_expressions.specs.Parts.{ReadsWithin};

use std::alloc::Global;
use vs_parse_expressions::{
    Element, Parsed, ReadFault, declared_range, expect_mark, expect_name, expr, left, mark_at,
};
use vs_syntax::vs_lexer::{Mark, Token};
use vs_syntax::{Declarator, NetAssignment};

/// A name of a declaration of nets.
pub struct Net;

/// A name of a declaration of variables.
pub struct Variable;

/// A name alone.
pub struct BareName;

/// An assignment of an `assign` item.
pub struct Assignment;

impl Element for Net {
    type Syntax = Declarator;

    ghost grammar = { part a_net };

    ghost tree_of = { declarator_tree };

    fn read<'t, 's>(
        alloc: Global,
        depth: u32,
        tokens: &'t [Token<'s>],
    ) -> Result<Parsed<'t, 's, Declarator>, ReadFault<'t, 's>> {
        let (name, after_name) = expect_name(alloc, tokens)?;
        let Some(after) = mark_at(after_name, Mark::Assign) else {
            return Ok(Parsed {
                tree: Declarator {
                    name,
                    words: None,
                    value: None,
                },
                rest: after_name,
            });
        };
        initialised(alloc, depth, name, after)
    }
}

impl Element for Variable {
    type Syntax = Declarator;

    ghost grammar = { part a_variable };

    ghost tree_of = { declarator_tree };

    fn read<'t, 's>(
        alloc: Global,
        depth: u32,
        tokens: &'t [Token<'s>],
    ) -> Result<Parsed<'t, 's, Declarator>, ReadFault<'t, 's>> {
        let (name, after_name) = expect_name(alloc, tokens)?;
        let Some(after) = mark_at(after_name, Mark::Assign) else {
            let words = declared_range(alloc, depth, after_name)?;
            return Ok(Parsed {
                tree: Declarator {
                    name,
                    words: words.tree,
                    value: None,
                },
                rest: words.rest,
            });
        };
        initialised(alloc, depth, name, after)
    }
}

impl Element for BareName {
    type Syntax = Vec<u8>;

    ghost grammar = { part a_bare_name };

    ghost tree_of = { bare_name_tree };

    fn read<'t, 's>(
        alloc: Global,
        _room: u32,
        tokens: &'t [Token<'s>],
    ) -> Result<Parsed<'t, 's, Vec<u8>>, ReadFault<'t, 's>> {
        let (name, rest) = expect_name(alloc, tokens)?;
        Ok(Parsed { tree: name, rest })
    }
}

impl Element for Assignment {
    type Syntax = NetAssignment;

    ghost grammar = { part an_assignment };

    ghost tree_of = { net_assignment_tree };

    fn read<'t, 's>(
        alloc: Global,
        depth: u32,
        tokens: &'t [Token<'s>],
    ) -> Result<Parsed<'t, 's, NetAssignment>, ReadFault<'t, 's>> {
        let target = left(alloc, depth, tokens)?;
        let after_sign = expect_mark(target.rest, Mark::Assign)?;
        let value = expr(alloc, depth, after_sign)?;
        Ok(Parsed {
            tree: NetAssignment {
                target: target.tree,
                value: value.tree,
            },
            rest: value.rest,
        })
    }
}

/// Reads the expression of a declaration assignment to the name.
fn initialised<'t, 's>(
    alloc: Global,
    depth: u32,
    name: Vec<u8>,
    tokens: &'t [Token<'s>],
) -> Result<Parsed<'t, 's, Declarator>, ReadFault<'t, 's>>
    ensures { ReadsWithin declarator_tree (λ y. both (name_tree name.items) (both (leaf (a_mark m.Assign)) y)) (part an_expr)
        depth tokens.now result }
{
    let value = expr(alloc, depth, tokens)?;
    Ok(Parsed {
        tree: Declarator {
            name,
            words: None,
            value: Some(value.tree),
        },
        rest: value.rest,
    })
}
