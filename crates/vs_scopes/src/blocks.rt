//! The outermost named blocks of statements.
ghost use Rattle.std.specs.Prelude.{◌≡◌, [], ◌∷◌, ◌++◌, map, IfOk, OnOk};
ghost use Rattle.std.specs.List.{flat_map};
ghost use Rattle.vs_scopes.specs.Pieces.{blocks_in, blocks_among, blocks_of};
ghost use Rattle.vs_scopes.specs.Reads.{read_block};
ghost use Rattle.vs_scopes.specs.pieces_passes.Parts.{blocks_of_else, blocks_in_items};

use std::alloc::{AllocError, Global};
use vs_syntax::{CaseLabel, Item, LocalDeclaration, Stmt};

/// A named block (IEEE 1364-2005, clause 9.8.3).
#[derive(Clone, Copy)]
pub struct NamedBlock<'s> {
    /// The bytes of its name.
    pub name: &'s [u8],
    /// What it declares, in the order of the text.
    pub locals: &'s [LocalDeclaration],
    /// Its statements, in the order of the text.
    pub statements: &'s [Stmt],
}

/// Adds a named block of these parts.
#[inline(never)]
fn add_block<'s>(
    blocks: &mut Vec<NamedBlock<'s>>,
    name: &'s [u8],
    locals: &'s [LocalDeclaration],
    statements: &'s [Stmt],
) -> Result<(), AllocError>
    ensures { OnOk result (map read_block blocks.new.items ≡ map read_block blocks.old.items
        ++ record { name = name.entry.now; locals = locals.entry.now; statements = statements.entry.now } ∷ []) }
{
    blocks.push(NamedBlock {
        name,
        locals,
        statements,
    })?;
    Ok(())
}

/// Adds the outermost named blocks of a statement.
#[cycle(blocks)]
fn add_blocks<'s>(blocks: &mut Vec<NamedBlock<'s>>, s: &'s Stmt) -> Result<(), AllocError>
    ensures { OnOk result (map read_block blocks.new.items
        ≡ map read_block blocks.old.items ++ blocks_in s.entry.now) }
{
    match s {
        Stmt::Null => Ok(()),
        Stmt::Assign(_, _) => Ok(()),
        Stmt::Later(_, _, _) => Ok(()),
        Stmt::Block(inner) => add_blocks_among(blocks, inner),
        Stmt::Named(name, locals, inner) => add_block(blocks, name, locals, inner),
        Stmt::If(_, x, other) => {
            add_blocks(blocks, x)?;
            add_else_blocks(blocks, other)
        }
        Stmt::Case(_, _, items) => add_blocks_in_items(blocks, items),
        Stmt::For(_, x) => add_blocks(blocks, x),
        Stmt::While(_, x) => add_blocks(blocks, x),
        Stmt::Repeat(_, x) => add_blocks(blocks, x),
        Stmt::Forever(x) => add_blocks(blocks, x),
        Stmt::Delay(_, x) => add_blocks(blocks, x),
        Stmt::Event(_, x) => add_blocks(blocks, x),
        Stmt::Print(_, _) => Ok(()),
        Stmt::Finish(_) => Ok(()),
        Stmt::Dump(_, _) => Ok(()),
    }
}

/// Adds the outermost named blocks of statements.
#[cycle(blocks)]
#[inline(never)]
fn add_blocks_among<'s>(blocks: &mut Vec<NamedBlock<'s>>, all: &'s [Stmt]) -> Result<(), AllocError>
    ensures { OnOk result (map read_block blocks.new.items
        ≡ map read_block blocks.old.items ++ blocks_among all.entry.now) }
{
    for s in all {
        add_blocks(blocks, s)?;
    }
    Ok(())
}

/// Adds the outermost named blocks of the statement behind `else`, where there is one.
#[cycle(blocks)]
#[inline(never)]
fn add_else_blocks<'s>(
    blocks: &mut Vec<NamedBlock<'s>>,
    other: &'s Option<Box<Stmt>>,
) -> Result<(), AllocError>
    ensures { OnOk result (map read_block blocks.new.items
        ≡ map read_block blocks.old.items ++ blocks_of_else other.entry.now) }
{
    match other {
        Some(s) => add_blocks(blocks, s),
        None => Ok(()),
    }
}

/// Adds the outermost named blocks of the items of a `case`.
#[cycle(blocks)]
#[inline(never)]
fn add_blocks_in_items<'s>(
    blocks: &mut Vec<NamedBlock<'s>>,
    items: &'s [(CaseLabel, Stmt)],
) -> Result<(), AllocError>
    ensures { OnOk result (map read_block blocks.new.items
        ≡ map read_block blocks.old.items ++ blocks_in_items items.entry.now) }
{
    for (_, s) in items {
        add_blocks(blocks, s)?;
    }
    Ok(())
}

/// The outermost named blocks of statements, in the order of the text (IEEE 1364-2005, clause 9.8.3).
pub fn statement_blocks<'s>(
    alloc: Global,
    all: &'s [Stmt],
) -> Result<Vec<NamedBlock<'s>>, AllocError>
    ensures { IfOk result (λ v. map read_block v.items ≡ blocks_among all.entry.now) }
{
    let mut blocks = Vec::new(alloc);
    add_blocks_among(&mut blocks, all)?;
    Ok(blocks)
}

/// The outermost named blocks of the process that an item is, in the order of the text (IEEE 1364-2005, clauses 9.8.3 and 9.9).
pub fn item_blocks<'s>(alloc: Global, item: &'s Item) -> Result<Vec<NamedBlock<'s>>, AllocError>
    ensures { IfOk result (λ v. map read_block v.items ≡ blocks_of item.entry.now) }
{
    let mut blocks = Vec::new(alloc);
    match item {
        Item::Initial(s) => add_blocks(&mut blocks, s)?,
        Item::Always(s) => add_blocks(&mut blocks, s)?,
        _ => (),
    }
    Ok(blocks)
}
