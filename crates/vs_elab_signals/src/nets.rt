//! Implicit nets among the pieces of a scope.
ghost use Rattle.std.specs.Prelude.{◌≡◌, ◌∷◌, [], ℕ, List, map, IfOk, OnOk};
ghost use Rattle.vs_elab_signals.specs.vs_scopes.specs.Reads.{read_piece};
ghost use Rattle.vs_scopes.specs.Nets.{is_known, with_nets, pieces_with_nets};
ghost use Rattle.vs_scopes.specs.Scopes.{Scope};
ghost use Rattle.vs_scopes.specs.scopes_passes.Answers.{borrowed};
ghost use Rattle.vs_scopes.specs.scopes_passes.Parts.{IsSet};
ghost use Rattle.vs_elab_signals.specs.Opened.{AreSeated};
ghost use Rattle.vs_elab_signals.specs.nets_passes.Nets.{IsAround, IsPlaced, AddsNets};

use crate::around::{Enclosing, is_known};
use crate::vs_scopes::{ScopePiece, names_used};
use std::alloc::{AllocError, Global};
use vs_elab_constants::vs_widths::Names;
use vs_scopes::vs_widths::Binding;

/// Adds the net of a name that is used, where the name isn't known and wasn't used before.
fn add_net<'s>(
    around: Enclosing,
    text: &Names<Binding>,
    name: &'s [u8],
    used: &mut Names<'s, bool>,
    pieces: &mut Vec<ScopePiece<'s>>,
) -> Result<(), AllocError>
    requires place { IsPlaced around }
    requires seated { AreSeated around.list.now }
    ensures { (ss : List Scope) (s : Scope) (before : List (List ℕ)) → IsAround ss around.entry s → IsSet before used.old →
        OnOk result (AddsNets text.now s.sight before (name.entry.now ∷ []) used.new pieces.old.items pieces.new.items) }
{
    if used.find(name).is_some() {
        return Ok(());
    }
    used.bind(name, true)?;
    if is_known(around, text, name) {
        return Ok(());
    }
    pieces.push(ScopePiece::Net(name))?;
    Ok(())
}

/// Adds the nets of names that are used.
fn add_nets<'s>(
    around: Enclosing,
    text: &Names<Binding>,
    names: &[&'s [u8]],
    used: &mut Names<'s, bool>,
    pieces: &mut Vec<ScopePiece<'s>>,
) -> Result<(), AllocError>
    requires place { IsPlaced around }
    requires seated { AreSeated around.list.now }
    ensures { (ss : List Scope) (s : Scope) (before : List (List ℕ)) → IsAround ss around.entry s → IsSet before used.old →
        OnOk result (AddsNets text.now s.sight before (borrowed names.now) used.new pieces.old.items pieces.new.items) }
{
    for name in names {
        add_net(around, text, *name, used, pieces)?;
    }
    Ok(())
}

/// Pieces, each behind the nets of the names that it is the first to use.
fn all_nets<'s>(
    alloc: Global,
    around: Enclosing,
    text: &Names<Binding>,
    pieces: &[ScopePiece<'s>],
) -> Result<Vec<ScopePiece<'s>>, AllocError>
    requires place { IsPlaced around }
    requires seated { AreSeated around.list.now }
    ensures { (ss : List Scope) (s : Scope) → IsAround ss around.entry s →
        IfOk result (λ v. map read_piece v.items ≡ with_nets (is_known text.now s.sight) [] (map read_piece pieces.now)) }
{
    let mut used = Names::new(alloc);
    let mut all = Vec::new(alloc);
    for piece in pieces {
        let names = names_used(alloc, *piece)?;
        add_nets(around, text, &names, &mut used, &mut all)?;
        all.push(*piece)?;
    }
    Ok(all)
}

/// The pieces of a scope whose text declares these names, with its implicit nets, where it may have them (IEEE 1364-2005, clause 4.5).
pub fn with_nets<'s>(
    alloc: Global,
    nets: bool,
    around: Enclosing,
    text: &Names<Binding>,
    pieces: Vec<ScopePiece<'s>>,
) -> Result<Vec<ScopePiece<'s>>, AllocError>
    requires place { IsPlaced around }
    requires seated { AreSeated around.list.now }
    ensures { (ss : List Scope) (s : Scope) → IsAround ss around.entry s →
        IfOk result (λ v. map read_piece v.items ≡ pieces_with_nets nets text.now s.sight (map read_piece pieces.entry.items)) }
{
    if nets {
        all_nets(alloc, around, text, &pieces)
    } else {
        Ok(pieces)
    }
}
