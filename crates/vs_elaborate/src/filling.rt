//! The continuous assignments and the processes of all scopes.
ghost use Rattle.std.specs.Prelude.{◌≡◌, ◌<◌, ℕ, List, [], Some, length, slice_get, IfOk, MatchResult};
ghost use Rattle.vs_elab_statements.specs.vs_widths.specs.Names.{meaning_of, nested_names};
ghost use Rattle.vs_elab_statements.specs.vs_scopes.specs.Printed.{Path};
ghost use Rattle.vs_elab_statements.specs.vs_scopes.specs.Scopes.{Scope, has_wrong_end};
ghost use Rattle.std.specs.Prelude.{false, map};
ghost use Rattle.vs_elab_statements.specs.vs_scopes.specs.scopes_passes.Answers.{IsReported};
ghost use Rattle.vs_elab_statements.specs.vs_scopes.specs.scopes_passes.Parts.{read_port, read_ends};
ghost use Rattle.vs_elab_statements.specs.vs_elab_signals.specs.declared.opened.ElabScope.{ElabScope as FoundScope};
ghost use Rattle.vs_elab_statements.specs.vs_elab_signals.specs.Opened.{AreOpened, AreSeated, HasParentScope};
ghost use Rattle.vs_elab_statements.specs.Surroundings.{Surroundings, surroundings_at};
ghost use Rattle.vs_elab_statements.specs.passes.Views.{AreSites, IsPlaced};
ghost use Rattle.vs_elaborate.specs.passes.Filling.{IsFrame, HasMembers, AreLefts, HaveBlockScopes, Fills, FillsNot, FillsOneNot, DrivesScope, FillsScope};

use crate::Contents;
use crate::connecting::drive_ports;
use crate::drivers::drive_pieces;
use crate::frames::Frame;
use crate::processes::{run_pieces, run_ports};
use std::alloc::{AllocError, Global};
use vs_elab_statements::vs_elab_signals::{ElabScope, names_around, names_outward, path};
use vs_elab_statements::vs_scopes::ElabFault;
use vs_elab_statements::vs_scopes::vs_widths::Binding;
use vs_elab_statements::vs_widths::{Levels, Names};
use vs_elab_statements::{Ratio, View};

/// The names of the scope around one and those seen there, the innermost first.
fn names_outside<'s, 'o>(
    alloc: Global,
    list: &'o [ElabScope<'s>],
    around: Option<usize>,
) -> Result<Vec<&'o Names<'s, Binding>>, AllocError>
    requires place { (place : ℕ) → around ≡ Some place → place < length list.now }
    requires seated { AreSeated list.now }
    ensures { (ss : List Scope) (s : Scope) → AreOpened list.entry.now ss → HasParentScope ss around s →
        IfOk result (λ v. (n : List ℕ) → meaning_of (nested_names v.items) n ≡ s.outer n) }
{
    match around {
        Some(place) => names_outward(alloc, list, place),
        None => Ok(Vec::new(alloc)),
    }
}

/// Adds the continuous assignments of a scope in a frame: those of its ports, and behind them those of its text
/// (IEEE 1364-2005, clause 12.3.10).
fn drive_frame(
    alloc: Global,
    frame: &Frame,
    scope: &ElabScope,
    outer: &Levels,
    contents: &mut Contents,
) -> Result<(), ElabFault>
    requires { AreLefts scope.now }
    ensures { (envs : Path → Surroundings) (s : Scope) → IsFrame frame.now envs s → HasMembers scope.now s
        → meaning_of outer.now ≡ s.outer → MatchResult result (λ _. DrivesScope s contents.old contents.new)
        (IsReported (FillsNot envs s)) }
{
    let mut ports = Vec::new(alloc);
    drive_ports(alloc, frame, outer, &scope.ports, &scope.ends, &mut ports)?;
    let mut text = Vec::new(alloc);
    drive_pieces(alloc, frame, &scope.pieces, &mut text)?;
    contents.add_assigns(&mut ports, &mut text)?;
    Ok(())
}

/// Adds the continuous assignments and the processes of a scope in a frame.
fn fill_frame(
    alloc: Global,
    frame: &Frame,
    scope: &ElabScope,
    outer: &Levels,
    contents: &mut Contents,
) -> Result<(), ElabFault>
    requires placed { IsPlaced frame.now.view.list.now frame.now.view.place }
    requires lefts { AreLefts scope.now }
    requires blocks { HaveBlockScopes frame.now.view.list.now frame.now.view.place scope.now.pieces.items }
    ensures { (envs : Path → Surroundings) (s : Scope) → IsFrame frame.now envs s → HasMembers scope.now s
        → meaning_of outer.now ≡ s.outer → MatchResult result (λ _. FillsScope envs s contents.old contents.new)
        (IsReported (FillsNot envs s)) }
{
    drive_frame(alloc, frame, scope, outer, contents)?;
    let first = contents.processes.len();
    run_ports(alloc, frame, first, &scope.ports, contents)?;
    run_pieces(alloc, frame, first, &scope.pieces, contents)
}

/// Adds the continuous assignments and the processes of the scope of a place, around which names are bound so.
fn fill_named(
    alloc: Global,
    ratio: Ratio,
    list: &[ElabScope],
    place: usize,
    outer: &Levels,
    contents: &mut Contents,
) -> Result<(), ElabFault>
    requires placed { IsPlaced list.now place }
    requires lefts { (o : FoundScope) → slice_get list.now place ≡ Some o → AreLefts o }
    requires blocks { (o : FoundScope) → slice_get list.now place ≡ Some o → HaveBlockScopes list.now place o.pieces.items }
    ensures { (ss : List Scope) (s : Scope) → let envs = surroundings_at ratio.ticks ss in AreSites list.now ss envs
        → slice_get ss place ≡ Some s →
        meaning_of outer.now ≡ s.outer →
        MatchResult result (λ _. FillsScope envs s contents.old contents.new) (IsReported (FillsNot envs s)) }
{
    let scope = &list[place];
    let around = names_around(alloc, list, scope.kind, scope.around)?;
    let names = Levels::new(&scope.names, &around);
    let path = path(alloc, list, place)?;
    let view = View {
        list,
        place,
        names: &names,
        ratio,
    };
    let frame = Frame { path, view };
    fill_frame(alloc, &frame, scope, outer, contents)
}

/// Adds the continuous assignments and the processes of the scope of a place; `nothing` has no names.
fn fill_within<'s>(
    alloc: Global,
    ratio: Ratio,
    list: &[ElabScope<'s>],
    place: usize,
    nothing: &Names<'s, Binding>,
    contents: &mut Contents,
) -> Result<(), ElabFault>
    requires placed { IsPlaced list.now place }
    requires lefts { (o : FoundScope) → slice_get list.now place ≡ Some o → AreLefts o }
    requires blocks { (o : FoundScope) → slice_get list.now place ≡ Some o → HaveBlockScopes list.now place o.pieces.items }
    requires nothing { nothing.now ≡ [] }
    ensures { (ss : List Scope) (s : Scope) → let envs = surroundings_at ratio.ticks ss in AreSites list.now ss envs
        → slice_get ss place ≡ Some s →
        MatchResult result (λ _. FillsScope envs s contents.old contents.new) (IsReported (FillsNot envs s)) }
{
    let outside = names_outside(alloc, list, list[place].around)?;
    let outer = Levels::new(nothing, &outside);
    fill_named(alloc, ratio, list, place, &outer, contents)
}

/// Adds the continuous assignments and the processes of the scope of a place.
fn fill(
    alloc: Global,
    ratio: Ratio,
    list: &[ElabScope],
    place: usize,
    contents: &mut Contents,
) -> Result<(), ElabFault>
    requires placed { IsPlaced list.now place }
    requires lefts { (o : FoundScope) → slice_get list.now place ≡ Some o → AreLefts o }
    requires blocks { (o : FoundScope) → slice_get list.now place ≡ Some o → HaveBlockScopes list.now place o.pieces.items }
    ensures { (ss : List Scope) (s : Scope) → let envs = surroundings_at ratio.ticks ss in AreSites list.now ss envs
        → slice_get ss place ≡ Some s →
        MatchResult result (λ _. FillsScope envs s contents.old contents.new) (IsReported (FillsNot envs s)) }
{
    let nothing = Names::new(alloc);
    fill_within(alloc, ratio, list, place, &nothing, contents)
}

/// The continuous assignments and the processes of scopes, in design order.
pub fn fill_all(alloc: Global, ratio: Ratio, list: &[ElabScope]) -> Result<Contents, ElabFault>
    requires placed { (place : ℕ) → place < length list.now → IsPlaced list.now place }
    requires lefts { (place : ℕ) (o : FoundScope) → slice_get list.now place ≡ Some o → AreLefts o }
    requires blocks { (place : ℕ) (o : FoundScope) → slice_get list.now place ≡ Some o →
        HaveBlockScopes list.now place o.pieces.items }
    ensures { (ss : List Scope) → let envs = surroundings_at ratio.ticks ss in AreSites list.now ss envs →
        MatchResult result (Fills envs ss) (IsReported (FillsOneNot envs ss)) }
{
    let mut contents = Contents::new(alloc);
    for place in 0..list.len() {
        fill(alloc, ratio, list, place, &mut contents)?;
    }
    Ok(contents)
}
