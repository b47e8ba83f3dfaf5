//! Reading instances of modules.
ghost use Rattle.std.specs.Prelude.{◌≤◌, map};
ghost use Rattle.vs_syntax.specs.vs_lexer.specs.declared.token.Mark.TheVariants as m;
ghost use Rattle.vs_syntax.specs.Symbols.{a_mark};
ghost use Rattle.vs_syntax.specs.Grammar.{◌·◌, ◌or◌, nothing, part, mark, an_end, connections, a_connection, an_instance};
ghost use Rattle.vs_syntax.specs.Grammar as g;
ghost use Rattle.vs_syntax.specs.Tables.{low};
ghost use Rattle.vs_syntax.specs.Derivation.{leaf, both};
ghost use Rattle.vs_syntax.specs.Views.{comma_list_tree, end_tree, connection_tree, connections_tree, overrides_tree, instance_tree};
ghost use Rattle.vs_parse_expressions.specs.Answers.{ReadsTree};
ghost use Rattle.vs_parse_expressions.specs.Lists.{comma_tail};

use std::alloc::Global;
use vs_parse_expressions::{
    Element, Parsed, ReadFault, begins_expr, comma_list, ended, expect_mark, expect_name, expr,
    mark_at, others,
};
use vs_syntax::vs_lexer::{Mark, Token};
use vs_syntax::{Connection, Connections, Expr, Instance};

/// A connection by name.
struct Named;

/// A connection in the order of the ports or of the parameters.
struct Ordered;

/// What ports are connected to, or the values of parameters: by name, or in order.
struct Connected;

/// An instance of a module.
struct Placed;

impl Element for Named {
    type Syntax = Connection;

    ghost grammar = { part a_connection };

    ghost tree_of = { connection_tree };

    fn read<'t, 's>(
        alloc: Global,
        depth: u32,
        tokens: &'t [Token<'s>],
    ) -> Result<Parsed<'t, 's, Connection>, ReadFault<'t, 's>> {
        let after_dot = expect_mark(tokens, Mark::Dot)?;
        let (name, after_name) = expect_name(alloc, after_dot)?;
        let value = enclosed::<Ordered>(alloc, depth, after_name)?;
        Ok(Parsed {
            tree: Connection {
                name,
                value: value.tree,
            },
            rest: value.rest,
        })
    }
}

impl Element for Ordered {
    type Syntax = Option<Expr>;

    ghost grammar = { an_end };

    ghost tree_of = { end_tree };

    fn read<'t, 's>(
        alloc: Global,
        depth: u32,
        tokens: &'t [Token<'s>],
    ) -> Result<Parsed<'t, 's, Option<Expr>>, ReadFault<'t, 's>> {
        if begins_expr(tokens) {
            let value = expr(alloc, depth, tokens)?;
            Ok(Parsed {
                tree: Some(value.tree),
                rest: value.rest,
            })
        } else {
            Ok(Parsed {
                tree: None,
                rest: tokens,
            })
        }
    }
}

impl Element for Connected {
    type Syntax = Connections;

    ghost grammar = { connections };

    ghost tree_of = { connections_tree };

    fn read<'t, 's>(
        alloc: Global,
        depth: u32,
        tokens: &'t [Token<'s>],
    ) -> Result<Parsed<'t, 's, Connections>, ReadFault<'t, 's>> {
        match mark_at(tokens, Mark::Dot) {
            Some(_) => by_name(alloc, depth, tokens),
            None => in_order(alloc, depth, tokens),
        }
    }
}

impl Element for Placed {
    type Syntax = Instance;

    ghost grammar = { part an_instance };

    ghost tree_of = { instance_tree };

    fn read<'t, 's>(
        alloc: Global,
        depth: u32,
        tokens: &'t [Token<'s>],
    ) -> Result<Parsed<'t, 's, Instance>, ReadFault<'t, 's>> {
        let (name, after_name) = expect_name(alloc, tokens)?;
        let ports = enclosed::<Connected>(alloc, depth, after_name)?;
        Ok(Parsed {
            tree: Instance {
                name,
                ports: ports.tree,
            },
            rest: ports.rest,
        })
    }
}

/// Reads the values of the parameters of instances, if they are next, and the instances, and the
/// semicolon behind them.
pub fn instances<'t, 's>(
    alloc: Global,
    depth: u32,
    tokens: &'t [Token<'s>],
) -> Result<Parsed<'t, 's, (Option<Connections>, Vec<Instance>)>, ReadFault<'t, 's>>
    ensures { ReadsTree g.instances depth tokens.now
        (λ x. both (overrides_tree x.0) (comma_list_tree (map instance_tree x.1.items))) result }
{
    let values = overrides(alloc, depth, tokens)?;
    let placed = comma_list::<Placed>(alloc, depth, values.rest)?;
    Ok(Parsed {
        tree: (values.tree, placed.tree),
        rest: placed.rest,
    })
}

/// Reads the values of the parameters of instances, if they are next.
fn overrides<'t, 's>(
    alloc: Global,
    depth: u32,
    tokens: &'t [Token<'s>],
) -> Result<Parsed<'t, 's, Option<Connections>>, ReadFault<'t, 's>>
    ensures { ReadsTree (mark m.Hash · mark m.Open · connections · mark m.Close or nothing) depth tokens.now
        overrides_tree result }
{
    let Some(after) = mark_at(tokens, Mark::Hash) else {
        return Ok(Parsed {
            tree: None,
            rest: tokens,
        });
    };
    let values = enclosed::<Connected>(alloc, depth, after)?;
    Ok(Parsed {
        tree: Some(values.tree),
        rest: values.rest,
    })
}

/// Reads what stands in parentheses, and they.
fn enclosed<'t, 's, T: Element>(
    alloc: Global,
    depth: u32,
    tokens: &'t [Token<'s>],
) -> Result<Parsed<'t, 's, T::Syntax>, ReadFault<'t, 's>>
    requires { low T.grammar ≤ depth }
    ensures { ReadsTree (mark m.Open · T.grammar · mark m.Close) depth tokens.now
        (λ x. both (leaf (a_mark m.Open)) (both (T.tree_of x) (leaf (a_mark m.Close)))) result }
{
    let after = expect_mark(tokens, Mark::Open)?;
    let inside = T::read(alloc, depth, after)?;
    ended(inside, Mark::Close)
}

/// Reads connections by name.
fn by_name<'t, 's>(
    alloc: Global,
    depth: u32,
    tokens: &'t [Token<'s>],
) -> Result<Parsed<'t, 's, Connections>, ReadFault<'t, 's>>
    ensures { ReadsTree (part a_connection · comma_tail (part a_connection)) depth tokens.now
        connections_tree result }
{
    let first = Named::read(alloc, depth, tokens)?;
    let behind = others::<Named>(alloc, depth, first.rest, Vec::new(alloc))?;
    Ok(Parsed {
        tree: Connections::Named(first.tree, behind.tree),
        rest: behind.rest,
    })
}

/// Reads connections in order.
fn in_order<'t, 's>(
    alloc: Global,
    depth: u32,
    tokens: &'t [Token<'s>],
) -> Result<Parsed<'t, 's, Connections>, ReadFault<'t, 's>>
    ensures { ReadsTree (an_end · comma_tail an_end) depth tokens.now connections_tree result }
{
    let first = Ordered::read(alloc, depth, tokens)?;
    let behind = others::<Ordered>(alloc, depth, first.rest, Vec::new(alloc))?;
    Ok(Parsed {
        tree: Connections::Ordered(first.tree, behind.tree),
        rest: behind.rest,
    })
}
