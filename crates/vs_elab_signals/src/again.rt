//! Names of ports that items declare once more.
ghost use Rattle.std.specs.Prelude.{◌≡◌, ℕ, ◌∷◌, [], List, map, IfOk, OnOk};
ghost use Rattle.std.specs.declared.vec.Vec.{Vec};
ghost use Rattle.std.specs.declared.alloc.Global.{Global};
ghost use Rattle.vs_scopes.specs.Pieces.{plain};
ghost use Rattle.vs_scopes.specs.Reads.{read_piece};
ghost use Rattle.vs_scopes.specs.Ports.{is_of_items, names_where, port_names_in, ports_again};
ghost use Rattle.vs_scopes.specs.scopes_passes.Answers.{borrowed};
ghost use Rattle.vs_scopes.specs.scopes_passes.Parts.{read_port, read_source};
ghost use Rattle.vs_elab_signals.specs.passes.Counting.{Counts, Leaves};

use crate::counts::{counted, take_one};
use std::alloc::{AllocError, Global};
use vs_scopes::{ModulePort, PortSource, ScopePiece};
use vs_syntax::Item;
use vs_widths::Names;

/// Whether the header has a port's name alone.
fn is_of_items(source: PortSource) -> bool
    ensures { result ≡ is_of_items (read_source source) }
{
    match source {
        PortSource::Header => false,
        PortSource::Item => true,
        PortSource::Items => true,
        PortSource::Nothing => true,
    }
}

/// The names of ports of which the header has the name alone.
fn names_of_items<'s>(alloc: Global, ports: &[ModulePort<'s>]) -> Result<Vec<&'s [u8]>, AllocError>
    ensures { IfOk result (λ v. borrowed v.items ≡ names_where is_of_items (map read_port ports.now)) }
{
    let mut names = Vec::new(alloc);
    for port in ports {
        if is_of_items(port.source) {
            names.push(port.name)?;
        }
    }
    Ok(names)
}

/// Adds a name, where it is left over.
fn add_name_left<'s>(
    name: &'s [u8],
    counts: &mut Names<'s, usize>,
    again: &mut Vec<&'s [u8]>,
) -> Result<(), AllocError>
    ensures { (ns : List (List ℕ)) → Counts ns counts.old → OnOk result
        (Leaves ns (name.entry.now ∷ []) (borrowed again.old.items) (borrowed again.new.items) counts.new) }
{
    let taken = take_one(name, counts)?;
    if taken {
        return Ok(());
    }
    again.push(name)?;
    Ok(())
}

/// Adds the names that are left over of these.
fn add_left<'s>(
    list: &'s [Vec<u8>],
    counts: &mut Names<'s, usize>,
    again: &mut Vec<&'s [u8]>,
) -> Result<(), AllocError>
    ensures { (ns : List (List ℕ)) → Counts ns counts.old → OnOk result
        (Leaves ns (map (λ (n : Vec ℕ Global). n.items) list.entry.now) (borrowed again.old.items) (borrowed again.new.items) counts.new) }
{
    for name in list {
        add_name_left(name, counts, again)?;
    }
    Ok(())
}

/// Adds the names of ports that an item declares and that are left over.
fn add_item_left<'s>(
    item: &'s Item,
    counts: &mut Names<'s, usize>,
    again: &mut Vec<&'s [u8]>,
) -> Result<(), AllocError>
    ensures { (ns : List (List ℕ)) → Counts ns counts.old → OnOk result
        (Leaves ns (port_names_in (plain item.entry.now)) (borrowed again.old.items) (borrowed again.new.items) counts.new) }
{
    match item {
        Item::Port(_, list) => add_left(list, counts, again),
        _ => Ok(()),
    }
}

/// Adds the names of ports that a piece declares and that are left over.
fn add_piece_left<'s>(
    piece: ScopePiece<'s>,
    counts: &mut Names<'s, usize>,
    again: &mut Vec<&'s [u8]>,
) -> Result<(), AllocError>
    ensures { (ns : List (List ℕ)) → Counts ns counts.old → OnOk result
        (Leaves ns (port_names_in (read_piece piece.entry)) (borrowed again.old.items) (borrowed again.new.items) counts.new) }
{
    match piece {
        ScopePiece::Plain(item) => add_item_left(item, counts, again),
        ScopePiece::Loop(_, _) => Ok(()),
        ScopePiece::Choice(_, _, _) => Ok(()),
        ScopePiece::Local(_) => Ok(()),
        ScopePiece::Inside(_) => Ok(()),
        ScopePiece::Net(_) => Ok(()),
    }
}

/// The names of ports that pieces declare once more (IEEE 1364-2005, clause 3.12).
pub fn ports_again<'s>(
    alloc: Global,
    ports: &[ModulePort<'s>],
    pieces: &[ScopePiece<'s>],
) -> Result<Vec<&'s [u8]>, AllocError>
    ensures { IfOk result (λ v. borrowed v.items ≡ ports_again (map read_port ports.now) (map read_piece pieces.now)) }
{
    let names = names_of_items(alloc, ports)?;
    let mut counts = counted(alloc, &names)?;
    let mut again = Vec::new(alloc);
    for piece in pieces {
        add_piece_left(*piece, &mut counts, &mut again)?;
    }
    Ok(again)
}
