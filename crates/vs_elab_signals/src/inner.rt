//! The names of genvars and of inner scopes, as the text has them.
ghost use Rattle.std.specs.Prelude.{◌≡◌, ℕ, ◌∷◌, ◌++◌, List, map, reverse, IfOk, OnOk};
ghost use Rattle.std.specs.List.{flat_map};
ghost use Rattle.std.specs.declared.vec.Vec.{Vec};
ghost use Rattle.std.specs.declared.alloc.Global.{Global};
ghost use Rattle.vs_syntax.specs.declared.tree.Connections.{Connections};
ghost use Rattle.std.specs.Prelude.{Option};
ghost use Rattle.vs_elab_signals.specs.vs_scopes.specs.Pieces.{NamedBlock as TheBlock, plain, content_of, block_name};
ghost use Rattle.vs_elab_signals.specs.vs_scopes.specs.Reads.{read_block, read_piece};
ghost use Rattle.vs_scopes.specs.Declarations.{Use, use_of, uses_by_item, genvars_in, inner_names_in, inner_names_among, each_once};
ghost use Rattle.vs_scopes.specs.scopes_passes.Answers.{borrowed};
ghost use Rattle.vs_elab_signals.specs.signal_passes.Naming.{KeepsOnce};

use crate::vs_scopes::{Content, NamedBlock, ScopePiece, branch_names, content_of, item_blocks};
use crate::vs_widths::Names;
use std::alloc::{AllocError, Global};
use vs_syntax::{Instance, Item, ModuleItem};

/// Adds names.
fn add_names<'s>(list: &'s [Vec<u8>], names: &mut Vec<&'s [u8]>) -> Result<(), AllocError>
    ensures { OnOk result (borrowed names.new.items
        ≡ borrowed names.old.items ++ map (λ (n : Vec ℕ Global). n.items) list.entry.now) }
{
    for name in list {
        names.push(name)?;
    }
    Ok(())
}

/// Adds the genvars that a piece declares (IEEE 1364-2005, clause 12.4.1).
fn add_genvars<'s>(piece: ScopePiece<'s>, names: &mut Vec<&'s [u8]>) -> Result<(), AllocError>
    ensures { OnOk result (borrowed names.new.items
        ≡ borrowed names.old.items ++ genvars_in (read_piece piece.entry)) }
{
    match piece {
        ScopePiece::Plain(Item::Genvar(list)) => add_names(list, names),
        _ => Ok(()),
    }
}

/// The genvars that pieces declare, in the order of the text.
pub fn genvars<'s>(alloc: Global, pieces: &[ScopePiece<'s>]) -> Result<Vec<&'s [u8]>, AllocError>
    ensures { IfOk result (λ v. borrowed v.items ≡ flat_map genvars_in (map read_piece pieces.now)) }
{
    let mut names = Vec::new(alloc);
    for piece in pieces {
        add_genvars(*piece, &mut names)?;
    }
    Ok(names)
}

/// Adds the names of instances.
fn add_instances<'s>(instances: &'s [Instance], names: &mut Vec<&'s [u8]>) -> Result<(), AllocError>
    ensures { (n : List ℕ) (o : Option Connections) → OnOk result (borrowed names.new.items
        ≡ borrowed names.old.items ++ map (λ (u : Use). u.name) (map (use_of n o) instances.entry.now)) }
{
    for instance in instances {
        names.push(&instance.name)?;
    }
    Ok(())
}

/// Adds the names of the instances of an item.
fn add_uses<'s>(item: &'s Item, names: &mut Vec<&'s [u8]>) -> Result<(), AllocError>
    ensures { OnOk result (borrowed names.new.items
        ≡ borrowed names.old.items ++ map (λ (u : Use). u.name) (uses_by_item item.entry.now)) }
{
    match item {
        Item::Instances(_, _, instances) => add_instances(instances, names),
        _ => Ok(()),
    }
}

/// Adds the names of named blocks.
fn add_blocks<'s>(blocks: &[NamedBlock<'s>], names: &mut Vec<&'s [u8]>) -> Result<(), AllocError>
    ensures { OnOk result (borrowed names.new.items
        ≡ borrowed names.old.items ++ map (λ (b : TheBlock). b.name) (map read_block blocks.now)) }
{
    for block in blocks {
        names.push(block.name)?;
    }
    Ok(())
}

/// Adds the names of the instances of an item, and of the outermost named blocks of the process that it is.
fn add_item_inner<'s>(
    alloc: Global,
    item: &'s Item,
    names: &mut Vec<&'s [u8]>,
) -> Result<(), AllocError>
    ensures { OnOk result (borrowed names.new.items
        ≡ borrowed names.old.items ++ inner_names_in (plain item.entry.now)) }
{
    add_uses(item, names)?;
    let blocks = item_blocks(alloc, item)?;
    add_blocks(&blocks, names)
}

/// Adds the name of the block that a turn of a loop generates, where it has one (IEEE 1364-2005, clause 12.4.1).
fn add_generated<'s>(inner: &'s ModuleItem, names: &mut Vec<&'s [u8]>) -> Result<(), AllocError>
    ensures { OnOk result (borrowed names.new.items
        ≡ borrowed names.old.items ++ block_name (content_of inner.entry.now)) }
{
    if let Content::Block(Some(name), _) = content_of(inner) {
        names.push(name)?;
    }
    Ok(())
}

/// Keeps a name, unless it is there.
fn keep_fresh<'s>(
    name: &'s [u8],
    there: &mut Names<'s, bool>,
    kept: &mut Vec<&'s [u8]>,
) -> Result<(), AllocError>
    ensures { (ns : List (List ℕ)) → KeepsOnce ns there.old (borrowed kept.old.items)
        → OnOk result (KeepsOnce (name.entry.now ∷ ns) there.new (borrowed kept.new.items)) }
{
    if there.find(name).is_some() {
        return Ok(());
    }
    there.bind(name, true)?;
    kept.push(name)?;
    Ok(())
}

/// Names, each once: the last of equal ones, from the last on.
fn once_from_last<'s>(alloc: Global, list: &[&'s [u8]]) -> Result<Vec<&'s [u8]>, AllocError>
    ensures { IfOk result (λ v. borrowed (reverse v.items) ≡ each_once (borrowed list.now)) }
{
    let mut there = Names::new(alloc);
    let mut kept = Vec::new(alloc);
    for step in 0..list.len() {
        keep_fresh(list[list.len() - 1 - step], &mut there, &mut kept)?;
    }
    Ok(kept)
}

/// Adds names, each once: the last of equal ones.
fn add_once<'s>(
    alloc: Global,
    list: &[&'s [u8]],
    names: &mut Vec<&'s [u8]>,
) -> Result<(), AllocError>
    ensures { OnOk result (borrowed names.new.items
        ≡ borrowed names.old.items ++ each_once (borrowed list.now)) }
{
    let mut once = once_from_last(alloc, list)?;
    once.reverse();
    names.extend_from_slice(&once)
}

/// Adds the names of the scopes that a piece may open (IEEE 1364-2005, clauses 9.8.3, 12.1.2 and 12.4.3).
fn add_inner<'s>(
    alloc: Global,
    piece: ScopePiece<'s>,
    names: &mut Vec<&'s [u8]>,
) -> Result<(), AllocError>
    ensures { OnOk result (borrowed names.new.items
        ≡ borrowed names.old.items ++ inner_names_in (read_piece piece.entry)) }
{
    match piece {
        ScopePiece::Plain(item) => add_item_inner(alloc, item, names),
        ScopePiece::Loop(_, inner) => add_generated(inner, names),
        ScopePiece::Choice(_, first, other) => {
            let list = branch_names(alloc, first, other)?;
            add_once(alloc, &list, names)
        }
        ScopePiece::Inside(block) => names.extend_from_slice(&[block.name]),
        ScopePiece::Local(_) | ScopePiece::Net(_) => Ok(()),
    }
}

/// The names of the scopes that pieces may open, in the order of the text.
pub fn inner_names<'s>(
    alloc: Global,
    pieces: &[ScopePiece<'s>],
) -> Result<Vec<&'s [u8]>, AllocError>
    ensures { IfOk result (λ v. borrowed v.items ≡ inner_names_among (map read_piece pieces.now)) }
{
    let mut names = Vec::new(alloc);
    for piece in pieces {
        add_inner(alloc, *piece, &mut names)?;
    }
    Ok(names)
}
