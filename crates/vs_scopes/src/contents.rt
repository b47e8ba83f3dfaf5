//! What a generate construct generates in a turn or a branch.
ghost use Rattle.std.specs.Prelude.{◌≡◌, ◌++◌, map, IfOk, OnOk};
ghost use Rattle.vs_scopes.specs.Pieces.{name_given, content_of, branch_names, other_names, unboxed};
ghost use Rattle.vs_scopes.specs.Reads.{read_content, read_names, referred};
ghost use Rattle.vs_scopes.specs.pieces_passes.Parts.{own_name};

use std::alloc::{AllocError, Global};
use std::slice;
use vs_syntax::ModuleItem;

/// What a generate construct generates in a turn or a branch (IEEE 1364-2005, clauses 12.4.1 and 12.4.2).
#[derive(Clone, Copy)]
pub enum Content<'s> {
    /// Nothing.
    Nothing,
    /// A block: the bytes of its name, where it has one, and its items.
    Block(Option<&'s [u8]>, &'s [ModuleItem]),
}

/// A name, where there is one.
fn name_given<'s>(name: &'s Option<Vec<u8>>) -> Option<&'s [u8]>
    ensures { referred result ≡ name_given name.entry.now }
{
    match name {
        Some(bytes) => Some(bytes),
        None => None,
    }
}

/// What a module item is behind `for`, `if` or `else`: an item that is no block is a block of its own, without a name
/// (IEEE 1364-2005, clauses 12.4.1 and 12.4.2).
pub fn content_of<'s>(item: &'s ModuleItem) -> Content<'s>
    ensures { read_content result ≡ content_of item.entry.now }
{
    match item {
        ModuleItem::Null => Content::Nothing,
        ModuleItem::Block(name, items) => Content::Block(name_given(name), items),
        _ => Content::Block(None, slice::from_ref(item)),
    }
}

/// Adds a name, where there is one.
#[inline(never)]
fn add_name<'s>(names: &mut Vec<&'s [u8]>, name: &'s Option<Vec<u8>>) -> Result<(), AllocError>
    ensures { OnOk result (read_names names.new.items
        ≡ read_names names.old.items ++ own_name name.entry.now) }
{
    if let Some(bytes) = name {
        names.push(bytes)?;
    }
    Ok(())
}

/// Adds the names of the blocks that a branch of an `if` may generate.
#[cycle(names)]
fn add_names<'s>(names: &mut Vec<&'s [u8]>, item: &'s ModuleItem) -> Result<(), AllocError>
    ensures { OnOk result (read_names names.new.items
        ≡ read_names names.old.items ++ branch_names item.entry.now) }
{
    match item {
        ModuleItem::If(_, x, other) => {
            add_names(names, x)?;
            add_else_names(names, other)
        }
        ModuleItem::Block(name, _) => add_name(names, name),
        _ => Ok(()),
    }
}

/// Adds the names of the blocks that stand behind `else`.
#[cycle(names)]
#[inline(never)]
fn add_else_names<'s>(
    names: &mut Vec<&'s [u8]>,
    other: &'s Option<Box<ModuleItem>>,
) -> Result<(), AllocError>
    ensures { OnOk result (read_names names.new.items
        ≡ read_names names.old.items ++ other_names (unboxed other.entry.now)) }
{
    match other {
        Some(x) => add_names(names, x),
        None => Ok(()),
    }
}

/// The names of the blocks that the branches of an `if` may generate, in the order of the text (IEEE 1364-2005, clause 12.4.2).
pub fn branch_names<'s>(
    alloc: Global,
    first: &'s ModuleItem,
    other: &'s Option<Box<ModuleItem>>,
) -> Result<Vec<&'s [u8]>, AllocError>
    ensures { IfOk result (λ v. read_names v.items
        ≡ branch_names first.entry.now ++ other_names (unboxed other.entry.now)) }
{
    let mut names = Vec::new(alloc);
    add_names(&mut names, first)?;
    add_else_names(&mut names, other)?;
    Ok(names)
}
