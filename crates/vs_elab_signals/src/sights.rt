//! How names stand at places of the text.
ghost use Rattle.std.specs.Prelude.{◌≡◌, ◌<◌, ℕ, [], not, List, Some, length, map, slice_get, IfOk, OnOk};
ghost use Rattle.std.specs.declared.vec.Vec.{Vec};
ghost use Rattle.std.specs.declared.alloc.Global.{Global};
ghost use Rattle.vs_syntax.specs.declared.tree.Declarator.{Declarator};
ghost use Rattle.vs_design.specs.Kinds.{is_variable};
ghost use Rattle.vs_elab_signals.specs.vs_widths.specs.Names.{meaning_of};
ghost use Rattle.vs_elab_signals.specs.vs_scopes.specs.Reads.{read_piece};
ghost use Rattle.vs_scopes.specs.Nets.{nets_in, nets_from, is_before, is_net};
ghost use Rattle.vs_scopes.specs.Scopes.{Scope, sight_in};
ghost use Rattle.vs_scopes.specs.scopes_passes.Declared.{AddsNames};
ghost use Rattle.vs_elab_signals.specs.Opened.{AreOpened, AreSeated, HasSight};
ghost use Rattle.vs_elab_signals.specs.signal_passes.Sites.{outward_place};
ghost use Rattle.vs_elab_signals.specs.signal_passes.Sights.{placed, level_of, IsSight, IsIn, IsInSome, IsHere};

use crate::opened::ElabScope;
use crate::sites::outward_place;
use crate::vs_scopes::ScopePiece;
use crate::vs_widths::Names;
use std::alloc::{AllocError, Global};
use vs_design::{ScopeKind, SignalKind};
use vs_scopes::add_first;
use vs_scopes::vs_widths::Binding;
use vs_syntax::{Declarator, Item};

/// How a name stands at a place of the text (IEEE 1364-2005, clauses 4.5 and 12.7).
#[derive(Clone, Copy)]
pub enum Sight {
    /// It isn't declared.
    Unseen,
    /// It is declared.
    Seen,
    /// It is that of a net that is declared behind, in the scope of this place.
    Coming(usize),
}

/// How a name stands in one scope.
#[derive(Clone, Copy)]
pub enum Level {
    /// The scope declares it.
    Here,
    /// The scope declares it as a net behind.
    Late,
    /// The scope doesn't declare it.
    Outward,
}

/// Adds names of a declaration, with the place of its piece.
fn add_names<'s>(
    place: usize,
    list: &'s [Vec<u8>],
    told: &mut Names<'s, usize>,
) -> Result<(), AllocError>
    ensures { OnOk result (AddsNames told.old told.new (placed place (map (λ (n : Vec ℕ Global). n.items) list.entry.now))) }
{
    for name in list {
        add_first(name, place, told)?;
    }
    Ok(())
}

/// Adds the names of declarators, with the place of their piece.
fn add_declarators<'s>(
    place: usize,
    list: &'s [Declarator],
    told: &mut Names<'s, usize>,
) -> Result<(), AllocError>
    ensures { OnOk result (AddsNames told.old told.new (placed place (map (λ (d : Declarator). d.name.items) list.entry.now))) }
{
    for declarator in list {
        add_first(&declarator.name, place, told)?;
    }
    Ok(())
}

/// Adds the ports and nets that a piece declares, with its place.
fn add_piece<'s>(
    place: usize,
    piece: ScopePiece<'s>,
    told: &mut Names<'s, usize>,
) -> Result<(), AllocError>
    ensures { OnOk result (AddsNames told.old told.new (placed place (nets_in (read_piece piece.entry)))) }
{
    match piece {
        ScopePiece::Plain(Item::Port(_, list)) => add_names(place, list, told),
        ScopePiece::Plain(Item::Wire(_, list)) => add_declarators(place, list, told),
        ScopePiece::Net(name) => add_first(name, place, told),
        _ => Ok(()),
    }
}

/// The ports and nets that pieces declare, each with the place of the first piece that does.
pub fn declared_places<'s>(
    alloc: Global,
    pieces: &[ScopePiece<'s>],
) -> Result<Names<'s, usize>, AllocError>
    ensures { IfOk result (λ v. AddsNames [] v (nets_from 0 (map read_piece pieces.now))) }
{
    let mut names = Names::new(alloc);
    for (place, piece) in pieces.iter().enumerate() {
        add_piece(place, *piece, &mut names)?;
    }
    Ok(names)
}

/// Whether a place was found before another one.
fn is_before(found: Option<usize>, place: usize) -> bool
    ensures { result ≡ is_before found place }
{
    match found {
        Some(k) => k < place,
        None => false,
    }
}

/// Whether a signal is a net (IEEE 1364-2005, clause 4.2).
fn is_wire(kind: SignalKind) -> bool
    ensures { result ≡ not (is_variable kind) }
{
    match kind {
        SignalKind::Wire => true,
        SignalKind::Reg => false,
        SignalKind::Integer => false,
    }
}

/// Whether a name is bound to a net (IEEE 1364-2005, clause 4.2).
fn is_net(binding: Binding) -> bool
    ensures { result ≡ is_net binding }
{
    match binding {
        Binding::Signal(meaning, _) => is_wire(meaning.kind),
        Binding::Constant(_) => false,
        Binding::Pending => false,
        Binding::Other => false,
        Binding::Genvar => false,
    }
}

/// How a name stands in a scope that declares these names, before the piece at a place: only a net has to be declared before it is used in a
/// connection or on the left of a continuous assignment (IEEE 1364-2005, clauses 4.5 and 12.7).
pub fn own_sight(text: &Names<Binding>, told: &Names<usize>, place: usize, name: &[u8]) -> Level
    ensures { result ≡ level_of (meaning_of told.now name.now) place (meaning_of text.now name.now) }
{
    let found = told.find(name);
    if is_before(found, place) {
        return Level::Here;
    }
    match text.find(name) {
        Some(binding) => {
            if found.is_some() && is_net(binding) {
                Level::Late
            } else {
                Level::Here
            }
        }
        None => Level::Outward,
    }
}

/// How a name stands in the scope at a place before one of its pieces, where that scope declares it.
fn sight_here(list: &[ElabScope], place: usize, piece: usize, name: &[u8]) -> Option<Sight>
    requires place { place < length list.now }
    ensures within { IsInSome (length list.now) result }
    ensures sight { (ss : List Scope) (s : Scope) → AreOpened list.now ss → slice_get ss place ≡ Some s
        → IsHere ss s place piece name.now result }
{
    let scope = &list[place];
    match own_sight(&scope.text, &scope.told, piece, name) {
        Level::Here => Some(Sight::Seen),
        Level::Late => Some(Sight::Coming(place)),
        Level::Outward => None,
    }
}

/// How a name stands in the scope at a place before one of its pieces (IEEE 1364-2005, clauses 4.5 and 12.7).
fn sight_at(list: &[ElabScope], place: usize, piece: usize, name: &[u8]) -> Sight
    requires place { place < length list.now }
    requires seated { AreSeated list.now }
    ensures within { IsIn (length list.now) result }
    ensures sight { (ss : List Scope) (s : Scope) → AreOpened list.now ss → slice_get ss place ≡ Some s →
        IsSight ss name.now (sight_in s piece name.now) result }
{
    let mut at = place;
    let mut from = piece;
    for _step in 0..place + 1 {
        if let Some(sight) = sight_here(list, at, from, name) {
            return sight;
        }
        let scope = &list[at];
        match outward_place(scope.kind, scope.around) {
            Some(next) => {
                from = scope.piece;
                at = next;
            }
            None => return Sight::Unseen,
        }
    }
    Sight::Unseen
}

/// How a name stands around a scope of this kind, where it stands in the text (IEEE 1364-2005, clauses 4.5 and 12.7).
pub fn sight_around(
    list: &[ElabScope],
    kind: ScopeKind,
    around: Option<usize>,
    piece: usize,
    name: &[u8],
) -> Sight
    requires place { (place : ℕ) → outward_place kind around ≡ Some place → place < length list.now }
    requires seated { AreSeated list.now }
    ensures within { IsIn (length list.now) result }
    ensures sight { (ss : List Scope) (s : Scope) → AreOpened list.now ss → HasSight ss around piece s → kind ≡ s.kind →
        IsSight ss name.now (s.sight name.now) result }
{
    match outward_place(kind, around) {
        Some(place) => sight_at(list, place, piece, name),
        None => Sight::Unseen,
    }
}
