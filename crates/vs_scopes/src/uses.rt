//! The names that are used where an undeclared one is an implicit net.
ghost use Rattle.std.specs.Prelude.{◌≡◌, ◌∷◌, ◌++◌, [], map, IfOk, OnOk};
ghost use Rattle.std.specs.List.{flat_map};
ghost use Rattle.vs_scopes.specs.Reads.{read_names, read_piece, referred};
ghost use Rattle.vs_scopes.specs.Uses.{expr_names, second_expr_names, select_expr_names, left_names, end_names, connection_names, connections_names, instance_names, assignment_names, names_used_by, names_used};
ghost use Rattle.vs_scopes.specs.pieces_passes.Parts.{exprs_names, links_names, pairs_names, selects_names, lefts_names};

use crate::scope::ScopePiece;
use std::alloc::{AllocError, Global};
use vs_syntax::vs_logic4::Binary;
use vs_syntax::{Connection, Connections, Expr, Instance, Item, Left, NetAssignment, PartSelect};

/// Adds a name.
#[inline(never)]
fn add_name<'s>(names: &mut Vec<&'s [u8]>, name: &'s [u8]) -> Result<(), AllocError>
    ensures { OnOk result (read_names names.new.items ≡ read_names names.old.items ++ name.entry.now ∷ []) }
{
    names.push(name)?;
    Ok(())
}

/// Adds the names in an expression.
#[cycle(used)]
fn add_expr<'s>(names: &mut Vec<&'s [u8]>, e: &'s Expr) -> Result<(), AllocError>
    ensures { OnOk result (read_names names.new.items ≡ read_names names.old.items ++ expr_names e.entry.now) }
{
    match e {
        Expr::Number(_) => Ok(()),
        Expr::Name(name) => add_name(names, name),
        Expr::Select(name, selects) => {
            add_name(names, name)?;
            add_selects(names, selects)
        }
        Expr::Group(inner) => add_expr(names, inner),
        Expr::Unary(_, x) => add_expr(names, x),
        Expr::Chain(first, links) => {
            add_expr(names, first)?;
            add_links(names, links)
        }
        Expr::Choice(pairs, last) => {
            add_pairs(names, pairs)?;
            add_expr(names, last)
        }
        Expr::Concat(first, rest) => {
            add_expr(names, first)?;
            add_exprs(names, rest)
        }
        Expr::Repeat(count, first, rest) => {
            add_expr(names, count)?;
            add_expr(names, first)?;
            add_exprs(names, rest)
        }
        Expr::Cast(_, x) => add_expr(names, x),
    }
}

/// Adds the names in expressions.
#[cycle(used)]
#[inline(never)]
fn add_exprs<'s>(names: &mut Vec<&'s [u8]>, all: &'s [Expr]) -> Result<(), AllocError>
    ensures { OnOk result (read_names names.new.items ≡ read_names names.old.items ++ exprs_names all.entry.now) }
{
    for e in all {
        add_expr(names, e)?;
    }
    Ok(())
}

/// Adds the names in operands.
#[cycle(used)]
#[inline(never)]
fn add_links<'s>(names: &mut Vec<&'s [u8]>, links: &'s [(Binary, Expr)]) -> Result<(), AllocError>
    ensures { OnOk result (read_names names.new.items ≡ read_names names.old.items ++ links_names links.entry.now) }
{
    for (_, e) in links {
        add_expr(names, e)?;
    }
    Ok(())
}

/// Adds the names in conditions and their operands.
#[cycle(used)]
#[inline(never)]
fn add_pairs<'s>(names: &mut Vec<&'s [u8]>, pairs: &'s [(Expr, Expr)]) -> Result<(), AllocError>
    ensures { OnOk result (read_names names.new.items ≡ read_names names.old.items ++ pairs_names pairs.entry.now) }
{
    for (condition, e) in pairs {
        add_expr(names, condition)?;
        add_expr(names, e)?;
    }
    Ok(())
}

/// Adds the names in the second expression of a part-select, where there is one.
#[cycle(used)]
#[inline(never)]
fn add_second<'s>(
    names: &mut Vec<&'s [u8]>,
    other: &'s Option<(PartSelect, Expr)>,
) -> Result<(), AllocError>
    ensures { OnOk result (read_names names.new.items ≡ read_names names.old.items ++ second_expr_names other.entry.now) }
{
    match other {
        Some((_, e)) => add_expr(names, e),
        None => Ok(()),
    }
}

/// Adds the names in the expressions of a select.
#[cycle(used)]
#[inline(never)]
fn add_select<'s>(
    names: &mut Vec<&'s [u8]>,
    select: &'s (Expr, Option<(PartSelect, Expr)>),
) -> Result<(), AllocError>
    ensures { OnOk result (read_names names.new.items ≡ read_names names.old.items ++ select_expr_names select.entry.now) }
{
    add_expr(names, &select.0)?;
    add_second(names, &select.1)
}

/// Adds the names in the expressions of selects.
#[cycle(used)]
#[inline(never)]
fn add_selects<'s>(
    names: &mut Vec<&'s [u8]>,
    selects: &'s [(Expr, Option<(PartSelect, Expr)>)],
) -> Result<(), AllocError>
    ensures { OnOk result (read_names names.new.items ≡ read_names names.old.items ++ selects_names selects.entry.now) }
{
    for select in selects {
        add_select(names, select)?;
    }
    Ok(())
}

/// Adds the names in the left side of an assignment.
#[cycle(used_left)]
fn add_left<'s>(names: &mut Vec<&'s [u8]>, left: &'s Left) -> Result<(), AllocError>
    ensures { OnOk result (read_names names.new.items ≡ read_names names.old.items ++ left_names left.entry.now) }
{
    match left {
        Left::Name(name, selects) => {
            add_name(names, name)?;
            add_selects(names, selects)
        }
        Left::Concat(first, rest) => {
            add_left(names, first)?;
            add_lefts(names, rest)
        }
    }
}

/// Adds the names in left sides.
#[cycle(used_left)]
#[inline(never)]
fn add_lefts<'s>(names: &mut Vec<&'s [u8]>, all: &'s [Left]) -> Result<(), AllocError>
    ensures { OnOk result (read_names names.new.items ≡ read_names names.old.items ++ lefts_names all.entry.now) }
{
    for left in all {
        add_left(names, left)?;
    }
    Ok(())
}

/// Adds the names in an expression, where there is one.
fn add_end<'s>(names: &mut Vec<&'s [u8]>, end: &'s Option<Expr>) -> Result<(), AllocError>
    ensures { OnOk result (read_names names.new.items ≡ read_names names.old.items ++ end_names end.entry.now) }
{
    match end {
        Some(e) => add_expr(names, e),
        None => Ok(()),
    }
}

/// Adds the names in connections in order.
fn add_ends<'s>(names: &mut Vec<&'s [u8]>, ends: &'s [Option<Expr>]) -> Result<(), AllocError>
    ensures { OnOk result (read_names names.new.items ≡ read_names names.old.items ++ flat_map end_names ends.entry.now) }
{
    for end in ends {
        add_end(names, end)?;
    }
    Ok(())
}

/// Adds the names in connections by name.
fn add_named<'s>(names: &mut Vec<&'s [u8]>, list: &'s [Connection]) -> Result<(), AllocError>
    ensures { OnOk result (read_names names.new.items ≡ read_names names.old.items ++ flat_map connection_names list.entry.now) }
{
    for one in list {
        add_end(names, &one.value)?;
    }
    Ok(())
}

/// Adds the names in the connections of an instance.
fn add_connections<'s>(
    names: &mut Vec<&'s [u8]>,
    connections: &'s Connections,
) -> Result<(), AllocError>
    ensures { OnOk result (read_names names.new.items ≡ read_names names.old.items ++ connections_names connections.entry.now) }
{
    match connections {
        Connections::Ordered(first, rest) => {
            add_end(names, first)?;
            add_ends(names, rest)
        }
        Connections::Named(first, rest) => {
            add_end(names, &first.value)?;
            add_named(names, rest)
        }
    }
}

/// Adds the names in the connections of instances.
fn add_instances<'s>(names: &mut Vec<&'s [u8]>, list: &'s [Instance]) -> Result<(), AllocError>
    ensures { OnOk result (read_names names.new.items ≡ read_names names.old.items ++ flat_map instance_names list.entry.now) }
{
    for one in list {
        add_connections(names, &one.ports)?;
    }
    Ok(())
}

/// Adds the names on the left of continuous assignments.
fn add_assignments<'s>(
    names: &mut Vec<&'s [u8]>,
    list: &'s [NetAssignment],
) -> Result<(), AllocError>
    ensures { OnOk result (read_names names.new.items ≡ read_names names.old.items ++ flat_map assignment_names list.entry.now) }
{
    for one in list {
        add_left(names, &one.target)?;
    }
    Ok(())
}

/// Adds the names that an item uses where an undeclared one is an implicit net.
fn add_item<'s>(names: &mut Vec<&'s [u8]>, item: &'s Item) -> Result<(), AllocError>
    ensures { OnOk result (read_names names.new.items ≡ read_names names.old.items ++ names_used_by item.entry.now) }
{
    match item {
        Item::Instances(_, _, list) => add_instances(names, list),
        Item::Assign(list) => add_assignments(names, list),
        _ => Ok(()),
    }
}

/// The names that a piece uses where an undeclared one is an implicit net: those in the connections of instances, and those on the left of
/// continuous assignments, in the order of the text (IEEE 1364-2005, clause 4.5).
pub fn names_used<'s>(alloc: Global, piece: ScopePiece<'s>) -> Result<Vec<&'s [u8]>, AllocError>
    ensures { IfOk result (λ v. read_names v.items ≡ names_used (read_piece piece.entry)) }
{
    let mut names = Vec::new(alloc);
    match piece {
        ScopePiece::Plain(item) => add_item(&mut names, item)?,
        _ => (),
    }
    Ok(names)
}

/// The names in an expression, in the order of the text.
pub fn names_in<'s>(alloc: Global, e: &'s Expr) -> Result<Vec<&'s [u8]>, AllocError>
    ensures { IfOk result (λ v. read_names v.items ≡ expr_names e.entry.now) }
{
    let mut names = Vec::new(alloc);
    add_expr(&mut names, e)?;
    Ok(names)
}
