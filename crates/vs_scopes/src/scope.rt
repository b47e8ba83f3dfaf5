//! The pieces of a scope.
ghost use Rattle.std.specs.Prelude.{◌≡◌, [], ◌∷◌, ◌++◌, map, IfOk, OnOk};
ghost use Rattle.vs_scopes.specs.Pieces.{local, inside, pieces_in, pieces_of, block_pieces};
ghost use Rattle.vs_scopes.specs.Reads.{read_block, read_piece};

use crate::blocks::{NamedBlock, statement_blocks};
use std::alloc::{AllocError, Global};
use vs_syntax::{Expr, Item, LocalDeclaration, LoopHeader, ModuleItem};

/// A part of a scope (IEEE 1364-2005, clauses 9.8.3 and 12.4). It refers to boxes as the tree has them, since the types in them are large.
#[derive(Clone, Copy)]
pub enum ScopePiece<'s> {
    /// An item that is no generate construct.
    Plain(&'s Item),
    /// A generate loop: its header, and what each turn generates.
    Loop(&'s LoopHeader, &'s Box<ModuleItem>),
    /// A generate `if`: the condition, what is generated where it holds, and what stands behind `else`, where there is one.
    Choice(&'s Expr, &'s Box<ModuleItem>, &'s Option<Box<ModuleItem>>),
    /// In a named block, a declaration.
    Local(&'s LocalDeclaration),
    /// In a named block, a named block inside.
    Inside(NamedBlock<'s>),
    /// An implicit net, by the bytes of its name; it stands before the item that uses it first (IEEE 1364-2005, clause 4.5).
    Net(&'s [u8]),
}

/// Adds a piece.
#[inline(never)]
fn add_piece<'s>(pieces: &mut Vec<ScopePiece<'s>>, piece: ScopePiece<'s>) -> Result<(), AllocError>
    ensures { OnOk result (map read_piece pieces.new.items
        ≡ map read_piece pieces.old.items ++ read_piece piece.entry ∷ []) }
{
    pieces.push(piece)?;
    Ok(())
}

/// Adds the pieces of a module item.
#[cycle(pieces)]
fn add_pieces<'s>(pieces: &mut Vec<ScopePiece<'s>>, item: &'s ModuleItem) -> Result<(), AllocError>
    ensures { OnOk result (map read_piece pieces.new.items
        ≡ map read_piece pieces.old.items ++ pieces_in item.entry.now) }
{
    match item {
        ModuleItem::Plain(x) => add_piece(pieces, ScopePiece::Plain(x)),
        ModuleItem::Region(items) => add_pieces_among(pieces, items),
        ModuleItem::For(header, x) => add_piece(pieces, ScopePiece::Loop(header, x)),
        ModuleItem::If(e, x, other) => add_piece(pieces, ScopePiece::Choice(e, x, other)),
        ModuleItem::Null => Ok(()),
        ModuleItem::Block(_, _) => Ok(()),
    }
}

/// Adds the pieces of module items.
#[cycle(pieces)]
#[inline(never)]
fn add_pieces_among<'s>(
    pieces: &mut Vec<ScopePiece<'s>>,
    items: &'s [ModuleItem],
) -> Result<(), AllocError>
    ensures { OnOk result (map read_piece pieces.new.items
        ≡ map read_piece pieces.old.items ++ pieces_of items.entry.now) }
{
    for item in items {
        add_pieces(pieces, item)?;
    }
    Ok(())
}

/// The pieces of module items, in the order of the text (IEEE 1364-2005, clause 12.4).
pub fn pieces<'s>(alloc: Global, items: &'s [ModuleItem]) -> Result<Vec<ScopePiece<'s>>, AllocError>
    ensures { IfOk result (λ v. map read_piece v.items ≡ pieces_of items.entry.now) }
{
    let mut pieces = Vec::new(alloc);
    add_pieces_among(&mut pieces, items)?;
    Ok(pieces)
}

/// Adds declarations of a named block.
fn add_locals<'s>(
    pieces: &mut Vec<ScopePiece<'s>>,
    locals: &'s [LocalDeclaration],
) -> Result<(), AllocError>
    ensures { OnOk result (map read_piece pieces.new.items
        ≡ map read_piece pieces.old.items ++ map local locals.entry.now) }
{
    for one in locals {
        add_piece(pieces, ScopePiece::Local(one))?;
    }
    Ok(())
}

/// Adds named blocks inside of one.
fn add_inside<'s>(
    pieces: &mut Vec<ScopePiece<'s>>,
    blocks: &[NamedBlock<'s>],
) -> Result<(), AllocError>
    ensures { OnOk result (map read_piece pieces.new.items
        ≡ map read_piece pieces.old.items ++ map inside (map read_block blocks.now)) }
{
    for block in blocks {
        add_piece(pieces, ScopePiece::Inside(*block))?;
    }
    Ok(())
}

/// The pieces of a named block: its declarations, then the named blocks in its statements (IEEE 1364-2005, clause 9.8.3).
pub fn block_pieces<'s>(
    alloc: Global,
    block: NamedBlock<'s>,
) -> Result<Vec<ScopePiece<'s>>, AllocError>
    ensures { IfOk result (λ v. map read_piece v.items ≡ block_pieces (read_block block.entry)) }
{
    let inner = statement_blocks(alloc, block.statements)?;
    let mut pieces = Vec::new(alloc);
    add_locals(&mut pieces, block.locals)?;
    add_inside(&mut pieces, &inner)?;
    Ok(pieces)
}
