//! What opens a scope in another one.
ghost use Rattle.std.specs.Prelude.{◌≡◌, ℕ, suc, List, [], ◌∷◌, ◌++◌, Some, map, OnOk, if◌then◌else◌};
ghost use Rattle.vs_widths.specs.Names.{meaning_of};
ghost use Rattle.vs_scopes.specs.Pieces.{unboxed, blocks_of, loop, choice};
ghost use Rattle.vs_scopes.specs.Reads.{read_block, read_piece, referred};
ghost use Rattle.vs_scopes.specs.Declarations.{use_of, uses_by_item};
ghost use Rattle.vs_scopes.specs.Generate.{instance, named, name_of_block, inner_in, inner_from, after_piece, construct_fault, constructs_fault};
ghost use Rattle.vs_scopes.specs.scopes_passes.Answers.{Elaborates};
ghost use Rattle.vs_scopes.specs.scopes_passes.Names.{read_part};
ghost use Rattle.vs_elab_constants.specs.Reads.{read_inners};
ghost use Rattle.vs_elab_constants.specs.generate_passes.Numbering.{AreNames};
ghost use Rattle.vs_elab_constants.specs.generate_passes.Opening.{nameless_fault, turn_blocks};

use crate::branches::chosen;
use crate::loops::turns;
use crate::numbering::unnamed_name;
use std::alloc::{AllocError, Global};
use std::slice;
use vs_scopes::vs_widths::{Binding, Const};
use vs_scopes::{
    BodyFault, Content, NamedBlock, PartName, PathName, Reason, ScopePiece, content_of, item_blocks,
};
use vs_syntax::{Connections, Expr, Instance, Item, LoopHeader, ModuleItem};
use vs_widths::{Levels, Names};

/// An instance, with the name of its module and the values of its parameters (IEEE 1364-2005, clause 12.1.2).
#[derive(Clone, Copy)]
pub struct Use<'s> {
    /// The name of its module.
    pub of: &'s [u8],
    /// The values of its parameters.
    pub overrides: Option<&'s Connections>,
    /// Its own name.
    pub name: &'s [u8],
    /// What its ports are connected to.
    pub ports: &'s Connections,
}

/// What opens a scope in another one (IEEE 1364-2005, clauses 9.8.3, 12.1.2 and 12.4.3).
#[derive(Clone, Copy)]
pub enum Inner<'s> {
    /// An instance.
    Instance(Use<'s>),
    /// A generate block: the place of its construct among the pieces of the scope, its name in the path, the genvar of a loop with its value, and
    /// its items.
    Generated(usize, PathName<'s>, Option<(&'s [u8], Const)>, &'s [ModuleItem]),
    /// A named block.
    Named(NamedBlock<'s>),
}

/// Adds what opens a scope.
fn append<'s>(inners: &mut Vec<Inner<'s>>, one: &Inner<'s>) -> Result<(), AllocError>
    ensures { OnOk result (inners.new.items ≡ inners.old.items ++ one.now ∷ []) }
{
    inners.extend_from_slice(slice::from_ref(one))
}

/// Adds the instances of an item.
fn add_instances<'s>(
    inners: &mut Vec<Inner<'s>>,
    of: &'s [u8],
    overrides: &'s Option<Connections>,
    list: &'s [Instance],
) -> Result<(), AllocError>
    ensures { OnOk result (read_inners inners.new.items ≡ read_inners inners.old.items
        ++ map instance (map (use_of of.entry.now overrides.entry.now) list.entry.now)) }
{
    for one in list {
        let inner = Inner::Instance(Use {
            of,
            overrides: overrides.as_ref(),
            name: &one.name,
            ports: &one.ports,
        });
        append(inners, &inner)?;
    }
    Ok(())
}

/// Adds the instances of an item, where it has some.
fn add_uses<'s>(inners: &mut Vec<Inner<'s>>, item: &'s Item) -> Result<(), AllocError>
    ensures { OnOk result (read_inners inners.new.items ≡ read_inners inners.old.items
        ++ map instance (uses_by_item item.entry.now)) }
{
    match item {
        Item::Instances(of, overrides, list) => add_instances(inners, of, overrides, list),
        _ => Ok(()),
    }
}

/// Adds named blocks.
fn add_named<'s>(inners: &mut Vec<Inner<'s>>, blocks: &[NamedBlock<'s>]) -> Result<(), AllocError>
    ensures { OnOk result (read_inners inners.new.items ≡ read_inners inners.old.items
        ++ map named (map read_block blocks.now)) }
{
    for block in blocks {
        append(inners, &Inner::Named(*block))?;
    }
    Ok(())
}

/// Adds what an item opens: its instances, and the named blocks of its process.
fn add_plain<'s>(
    alloc: Global,
    inners: &mut Vec<Inner<'s>>,
    item: &'s Item,
) -> Result<(), AllocError>
    ensures { OnOk result (read_inners inners.new.items ≡ read_inners inners.old.items
        ++ (map instance (uses_by_item item.entry.now) ++ map named (blocks_of item.entry.now))) }
{
    add_uses(inners, item)?;
    let blocks = item_blocks(alloc, item)?;
    add_named(inners, &blocks)
}

/// The name of a block, where the construct that generates it has this number (IEEE 1364-2005, clause 12.4.3).
fn block_name<'s>(
    alloc: Global,
    own: &Names<Binding>,
    number: usize,
    name: Option<&'s [u8]>,
) -> Result<PartName<'s>, BodyFault>
    ensures { (ns : List (List ℕ)) → AreNames ns own.now
        → Elaborates (nameless_fault ns number (referred name.entry))
        (λ p. name_of_block ns number (referred name.entry) ≡ Some (read_part p)) result }
{
    match name {
        Some(bytes) => Ok(PartName::Text(bytes)),
        None => match unnamed_name(alloc, own, number)? {
            Some(name) => Ok(name),
            None => Err(BodyFault::Refused(Reason::Unnamed)),
        },
    }
}

/// Adds the blocks of the turns of a loop.
fn add_turns<'s>(
    inners: &mut Vec<Inner<'s>>,
    place: usize,
    name: PartName<'s>,
    genvar: &'s [u8],
    items: &'s [ModuleItem],
    values: &[Const],
) -> Result<(), AllocError>
    ensures { OnOk result (read_inners inners.new.items ≡ read_inners inners.old.items
        ++ turn_blocks place (read_part name.entry) genvar.entry.now items.entry.now values.now) }
{
    for value in values {
        let turn = value.value.to_signed();
        let inner = Inner::Generated(
            place,
            PathName { name, turn },
            Some((genvar, *value)),
            items,
        );
        append(inners, &inner)?;
    }
    Ok(())
}

/// Adds what the turns of a loop generate (IEEE 1364-2005, clause 12.4.1).
fn add_loop<'s, 'o>(
    alloc: Global,
    names: &Levels<'s, 'o>,
    own: &Names<Binding>,
    place: usize,
    number: usize,
    inners: &mut Vec<Inner<'s>>,
    header: &'s LoopHeader,
    item: &'s ModuleItem,
) -> Result<(), BodyFault>
    ensures { let env = meaning_of names.now in let p = loop header.entry.now item.entry.now in
        (ns : List (List ℕ)) → AreNames ns own.now → Elaborates (λ r. construct_fault r env ns number p)
        (λ u. read_inners inners.new.items ≡ read_inners inners.old.items ++ inner_in place env ns number p) result }
{
    let values = turns(alloc, names, header)?;
    let Content::Block(name, items) = content_of(item) else {
        return Ok(());
    };
    if values.len() == 0 {
        return Ok(());
    }
    let name = block_name(alloc, own, number, name)?;
    add_turns(inners, place, name, &header.name, items, &values)?;
    Ok(())
}

/// Adds the block that an `if` generates (IEEE 1364-2005, clause 12.4.2).
fn add_choice<'s, 'o>(
    alloc: Global,
    names: &Levels<'s, 'o>,
    own: &Names<Binding>,
    place: usize,
    number: usize,
    inners: &mut Vec<Inner<'s>>,
    condition: &'s Expr,
    first: &'s ModuleItem,
    other: &'s Option<Box<ModuleItem>>,
) -> Result<(), BodyFault>
    ensures { let env = meaning_of names.now in
        let p = choice condition.entry.now first.entry.now (unboxed other.entry.now) in
        (ns : List (List ℕ)) → AreNames ns own.now → Elaborates (λ r. construct_fault r env ns number p)
        (λ u. read_inners inners.new.items ≡ read_inners inners.old.items ++ inner_in place env ns number p) result }
{
    let Content::Block(name, items) = chosen(alloc, names, condition, first, other)? else {
        return Ok(());
    };
    let name = block_name(alloc, own, number, name)?;
    let inner = Inner::Generated(place, PathName { name, turn: None }, None, items);
    append(inners, &inner)?;
    Ok(())
}

/// Adds what the piece at a place opens, where it is the construct of this number if it is one.
fn add_piece<'s, 'o>(
    alloc: Global,
    names: &Levels<'s, 'o>,
    own: &Names<Binding>,
    place: usize,
    number: usize,
    inners: &mut Vec<Inner<'s>>,
    piece: ScopePiece<'s>,
) -> Result<(), BodyFault>
    ensures { let env = meaning_of names.now in let p = read_piece piece.entry in
        (ns : List (List ℕ)) → AreNames ns own.now → Elaborates (λ r. construct_fault r env ns number p)
        (λ u. read_inners inners.new.items ≡ read_inners inners.old.items ++ inner_in place env ns number p) result }
{
    match piece {
        ScopePiece::Plain(item) => Ok(add_plain(alloc, inners, item)?),
        ScopePiece::Loop(header, item) => add_loop(
            alloc, names, own, place, number, inners, header, item,
        ),
        ScopePiece::Choice(condition, first, other) => {
            add_choice(
                alloc, names, own, place, number, inners, condition, first, other,
            )
        }
        ScopePiece::Inside(block) => Ok(append(inners, &Inner::Named(block))?),
        ScopePiece::Local(_) | ScopePiece::Net(_) => Ok(()),
    }
}

/// Whether a piece is a generate construct, which has a number of its own (IEEE 1364-2005, clause 12.4.3).
fn is_construct(piece: ScopePiece) -> bool
    ensures { (k : ℕ) → after_piece k (read_piece piece.entry) ≡ (if result then suc k else k) }
{
    match piece {
        ScopePiece::Loop(_, _) => true,
        ScopePiece::Choice(_, _, _) => true,
        _ => false,
    }
}

/// What pieces of a scope open, in the order of the text, where names are bound so: those of the scope by the text itself, with those that
/// the text declares there among all (IEEE 1364-2005, clauses 9.8.3, 12.1.2 and 12.4).
pub fn inners<'s, 'o>(
    alloc: Global,
    names: &Levels<'s, 'o>,
    own: &Names<Binding>,
    pieces: &[ScopePiece<'s>],
) -> Result<Vec<Inner<'s>>, BodyFault>
    ensures { let env = meaning_of names.now in let ps = map read_piece pieces.now in
        (ns : List (List ℕ)) → AreNames ns own.now → Elaborates (λ r. constructs_fault r env ns 1 ps)
        (λ v. read_inners v.items ≡ inner_from 0 env ns 1 ps) result }
{
    let mut all = Vec::new(alloc);
    let mut number = 1;
    for (place, piece) in pieces.iter().enumerate() {
        add_piece(alloc, names, own, place, number, &mut all, *piece)?;
        if is_construct(*piece) {
            number += 1;
        }
    }
    Ok(all)
}
