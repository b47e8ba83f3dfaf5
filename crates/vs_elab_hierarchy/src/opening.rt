//! The scopes inside a scope, in design order.
ghost use Rattle.std.specs.Prelude.{◌≡◌, ◌<◌, ◌+◌, ◌-◌, ◌*◌, ◌^◌, List, Some, [], ◌∷◌, ◌++◌, length, map, slice_get, MatchResult, OnOk};
ghost use Rattle.vs_syntax.specs.declared.tree.Module.{Module as Tree};
ghost use Rattle.vs_elab_signals.specs.vs_elab_constants.specs.Reads.{read_inner};
ghost use Rattle.vs_scopes.specs.Scopes.{Scope};
ghost use Rattle.vs_scopes.specs.scopes_passes.Answers.{IsRefusal, IsReported};
ghost use Rattle.vs_elab_signals.specs.Opened.{AreOpened, AreSeated};
ghost use Rattle.vs_elab_signals.specs.ScopeFaults.{HasConstructFault};
ghost use Rattle.vs_elab_hierarchy.specs.hierarchy_passes.Opens.{FindsInner, HasInner, HasInnerNot, IsReady, OpensInside, OpensInsideNot};
ghost use Rattle.vs_elab_hierarchy.specs.hierarchy_passes.InHand.{Asked, InHand};

use crate::vs_elab_signals::check_blocks;
use crate::{NamedModule, add};
use std::alloc::Global;
use vs_design::Entry;
use vs_elab_constants::vs_widths::{Levels, Names};
use vs_elab_signals::vs_elab_constants::{Inner, inners};
use vs_elab_signals::{ElabScope, Numbering, names_around, scope_fault};
use vs_scopes::{BodyFault, ElabFault};

/// A fault of a generate construct of the scope at a place.
fn construct_fault(alloc: Global, list: &[ElabScope], place: usize, fault: BodyFault) -> ElabFault
    requires place { place < length list.now }
    requires seated { AreSeated list.now }
    ensures { (ss : List Scope) (s : Scope) → AreOpened list.now ss → slice_get ss place ≡ Some s → IsRefusal s.path fault result }
{
    match fault {
        BodyFault::Memory => ElabFault::Memory,
        BodyFault::Refused(reason) => scope_fault(alloc, list, place, reason),
    }
}

/// What opens scopes in the one at a place, in the order of the text (IEEE 1364-2005, clauses 9.8.3, 12.1.2 and 12.4).
fn found_at<'s>(
    alloc: Global,
    list: &[ElabScope<'s>],
    place: usize,
) -> Result<Vec<Inner<'s>>, ElabFault>
    requires place { place < length list.now }
    requires seated { AreSeated list.now }
    ensures { (ss : List Scope) (s : Scope) → AreOpened list.now ss → slice_get ss place ≡ Some s →
        MatchResult result (λ v. FindsInner s (map read_inner v.items)) (IsReported (HasConstructFault s)) }
{
    let scope = &list[place];
    let outer = names_around(alloc, list, scope.kind, scope.around)?;
    let levels = Levels::new(&scope.names, &outer);
    match inners(alloc, &levels, &scope.text, &scope.pieces) {
        Ok(inner) => Ok(inner),
        Err(fault) => Err(construct_fault(alloc, list, place, fault)),
    }
}

/// The same, where no generate block has the name of an implicit net (IEEE 1364-2005, clauses 4.5 and 12.4.3).
fn inner_at<'s>(
    alloc: Global,
    list: &[ElabScope<'s>],
    place: usize,
) -> Result<Vec<Inner<'s>>, ElabFault>
    requires place { place < length list.now }
    requires seated { AreSeated list.now }
    ensures { (ss : List Scope) (s : Scope) → AreOpened list.now ss → slice_get ss place ≡ Some s →
        MatchResult result (λ v. HasInner s (map read_inner v.items)) (IsReported (HasInnerNot s)) }
{
    let inner = found_at(alloc, list, place)?;
    check_blocks(alloc, list, place, &inner)?;
    Ok(inner)
}

/// A scope whose inner scopes are opened in turn: its place in the list, what opens scopes in it, and how many of these are opened.
#[derive(Drop)]
struct Opening<'s> {
    place: usize,
    inner: Vec<Inner<'s>>,
    opened: usize,
}

/// Opens the next scope inside one, which then waits below it; or closes the one in the outline, where all inside it are opened.
fn open_next<'s>(
    alloc: Global,
    modules: &Names<'s, NamedModule<'s>>,
    scope: Opening<'s>,
    stack: &mut Vec<Opening<'s>>,
    list: &mut Vec<ElabScope<'s>>,
    plan: &mut Numbering,
) -> Result<(), ElabFault>
    requires { (a : Asked) × InHand a modules.now (stack.old.items ++ scope ∷ []) list.old.items plan.old }
    ensures in_hand { (a : Asked) → InHand a modules.now (stack.old.items ++ scope.entry ∷ []) list.old.items plan.old →
        MatchResult result (λ _. InHand a modules.now stack.new.items list.new.items plan.new) (IsReported (OpensInsideNot a.depth_left a.ms a.s)) }
    ensures less { OnOk result (2 * (2 ^ 64 - length list.new.items) + length stack.new.items <
        2 * (2 ^ 64 - length list.old.items) + length stack.old.items + 1) }
{
    match scope.inner.get(scope.opened) {
        None => {
            plan.outline.push(Entry::Leave)?;
            Ok(())
        }
        Some(one) => {
            let next = add(alloc, modules, scope.place, one, list, plan)?;
            let inner = inner_at(alloc, list, next)?;
            stack.push(Opening {
                place: scope.place,
                inner: scope.inner,
                opened: scope.opened + 1,
            })?;
            stack.push(Opening {
                place: next,
                inner,
                opened: 0,
            })?;
            Ok(())
        }
    }
}

/// Lists the scopes inside the scope at a place, which is the last one, down to so many levels, and closes it in the outline. The scopes that are being
/// opened stand in a list: instances and blocks nest up to 16,449 deep, more than a thread's stack holds.
pub fn open_inside<'s>(
    alloc: Global,
    modules: &Names<'s, NamedModule<'s>>,
    depth_left: u32,
    place: usize,
    list: &mut Vec<ElabScope<'s>>,
    plan: &mut Numbering,
) -> Result<(), ElabFault>
    requires depth_left { 0 < depth_left }
    requires ready { (ms : List Tree) × (ss : List Scope) × (s : Scope) ×
        IsReady ms ss s modules.now list.old.items plan.old place depth_left }
    ensures { (ms : List Tree) (ss : List Scope) (s : Scope) → IsReady ms ss s modules.now list.old.items plan.old place depth_left →
        MatchResult result (λ _. OpensInside depth_left ms ss s place list.old.items list.new.items plan.old plan.new)
        (IsReported (OpensInsideNot depth_left ms s)) }
{
    let _ = depth_left;
    let inner = inner_at(alloc, list, place)?;
    let mut stack = Vec::new(alloc);
    stack.push(Opening {
        place,
        inner,
        opened: 0,
    })?;
    while let Some(scope) = stack.pop() {
        open_next(alloc, modules, scope, &mut stack, list, plan)?;
    }
    Ok(())
}
