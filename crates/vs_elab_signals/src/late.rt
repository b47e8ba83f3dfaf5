//! Nets that are declared behind their use.
ghost use Rattle.std.specs.Prelude.{◌≡◌, ◌<◌, [], List, length, map, MatchResult};
ghost use Rattle.vs_elab_signals.specs.vs_scopes.specs.Reads.{read_piece};
ghost use Rattle.vs_scopes.specs.Nets.{coming_paths};
ghost use Rattle.vs_scopes.specs.Scopes.{Scope, sight_in, late_nets};
ghost use Rattle.vs_scopes.specs.scopes_passes.Answers.{borrowed, IsReported};
ghost use Rattle.vs_scopes.specs.scopes_passes.Names.{read_path};
ghost use Rattle.vs_elab_signals.specs.Opened.{AreSeated};
ghost use Rattle.vs_elab_signals.specs.nets_passes.Nets.{IsAround, IsPlaced, HasNetPlaces, IsLate, late_among};

use crate::around::Enclosing;
use crate::vs_scopes::{ScopePiece, names_used};
use crate::{Level, Sight, member_fault, named_fault, own_sight, sight_around};
use std::alloc::Global;
use vs_elab_constants::vs_widths::Names;
use vs_scopes::vs_widths::Binding;
use vs_scopes::{ElabFault, PathName, Reason};

/// Sees that a name, which the scope itself doesn't declare, is none of a net that is declared behind.
fn check_outward(alloc: Global, around: Enclosing, name: &[u8]) -> Result<(), ElabFault>
    requires place { IsPlaced around }
    requires seated { AreSeated around.list.now }
    ensures { (ss : List Scope) (s : Scope) → IsAround ss around.entry s →
        MatchResult result (λ _. coming_paths (s.sight name.now) ≡ []) (IsReported (IsLate (coming_paths (s.sight name.now)))) }
{
    let sight = sight_around(around.list, around.kind, around.around, around.piece, name);
    match sight {
        Sight::Unseen => Ok(()),
        Sight::Seen => Ok(()),
        Sight::Coming(place) => Err(named_fault(
            alloc,
            around.list,
            place,
            name,
            Reason::DeclaredTwice,
        )),
    }
}

/// Sees that a name that the piece at a place uses is none of a net that is declared behind.
fn check_name(
    alloc: Global,
    around: Enclosing,
    path: &[PathName],
    text: &Names<Binding>,
    told: &Names<usize>,
    place: usize,
    name: &[u8],
) -> Result<(), ElabFault>
    requires rooted { 0 < length path.now }
    requires place { IsPlaced around }
    requires seated { AreSeated around.list.now }
    ensures { (ss : List Scope) (s : Scope) → IsAround ss around.entry s → HasNetPlaces s text.now told.now → read_path path.now ≡ s.path →
        MatchResult result (λ _. coming_paths (sight_in s place name.now) ≡ []) (IsReported (IsLate (coming_paths (sight_in s place name.now)))) }
{
    match own_sight(text, told, place, name) {
        Level::Here => Ok(()),
        Level::Late => Err(member_fault(alloc, path, name, Reason::DeclaredTwice)),
        Level::Outward => check_outward(alloc, around, name),
    }
}

/// Sees that names that the piece at a place uses are none of nets that are declared behind.
fn check_names(
    alloc: Global,
    around: Enclosing,
    path: &[PathName],
    text: &Names<Binding>,
    told: &Names<usize>,
    place: usize,
    names: &[&[u8]],
) -> Result<(), ElabFault>
    requires rooted { 0 < length path.now }
    requires place { IsPlaced around }
    requires seated { AreSeated around.list.now }
    ensures { (ss : List Scope) (s : Scope) → IsAround ss around.entry s → HasNetPlaces s text.now told.now → read_path path.now ≡ s.path →
        MatchResult result (λ _. late_among s place (borrowed names.now) ≡ []) (IsReported (IsLate (late_among s place (borrowed names.now)))) }
{
    for name in names {
        check_name(alloc, around, path, text, told, place, *name)?;
    }
    Ok(())
}

/// Sees that no net is declared behind its use in these pieces, which are those of a scope of these names (IEEE 1364-2005, clause 4.5).
pub fn check_late(
    alloc: Global,
    around: Enclosing,
    path: &[PathName],
    text: &Names<Binding>,
    told: &Names<usize>,
    pieces: &[ScopePiece],
) -> Result<(), ElabFault>
    requires rooted { 0 < length path.now }
    requires place { IsPlaced around }
    requires seated { AreSeated around.list.now }
    ensures { (ss : List Scope) (s : Scope) → IsAround ss around.entry s → HasNetPlaces s text.now told.now → read_path path.now ≡ s.path →
        map read_piece pieces.now ≡ s.pieces → MatchResult result (λ _. late_nets s ≡ []) (IsReported (IsLate (late_nets s))) }
{
    for (place, piece) in pieces.iter().enumerate() {
        let names = names_used(alloc, *piece)?;
        check_names(alloc, around, path, text, told, place, &names)?;
    }
    Ok(())
}
