//! Scopes are listed, each with its own members.
ghost use Rattle.std.specs.Prelude.{◌≡◌, List, MatchResult};
ghost use Rattle.vs_syntax.specs.declared.tree.Module.{Module as Tree};
ghost use Rattle.vs_elab_signals.specs.vs_elab_constants.specs.Reads.{read_inner};
ghost use Rattle.vs_scopes.specs.Scopes.{Scope};
ghost use Rattle.vs_scopes.specs.scopes_passes.Answers.{IsReported};
ghost use Rattle.vs_elab_hierarchy.specs.passes.Entering.{before_next};
ghost use Rattle.vs_elab_hierarchy.specs.scope_passes.Adding.{with_names, IsPlanned, IsNext, IsHolding, AddsScope, AddsInnerAt, AddsInnerNot, HasRoomToCount, CountsOne};
ghost use Rattle.vs_elab_hierarchy.specs.scope_passes.Own.{HoldsOwn};

use crate::own::{count_turns, list_members};
use crate::{NamedModule, enter};
use std::alloc::Global;
use std::mem;
use vs_design::ScopeKind;
use vs_elab_signals::vs_elab_constants::Inner;
use vs_elab_signals::{ElabScope, Numbering, path_inside};
use vs_scopes::ElabFault;
use vs_scopes::vs_widths::Binding;
use vs_widths::Names;

/// Counts a scope as an instance, where it is one, and the turns of generate loops behind it.
fn count(kind: ScopeKind, turns: usize, plan: &mut Numbering)
    requires { HasRoomToCount plan.old }
    ensures { CountsOne kind turns plan.old plan.new }
{
    if let ScopeKind::Module = kind {
        plan.instances += 1;
    }
    plan.turns = turns;
}

/// A scope with its names.
fn with_names<'s>(scope: ElabScope<'s>, names: Names<'s, Binding>) -> ElabScope<'s>
    ensures { result ≡ with_names scope.entry names.entry }
{
    let mut scope = scope;
    let _nothing = mem::replace(&mut scope.names, names);
    scope
}

/// Lists a scope, with its own members.
#[inline(never)]
pub fn list_scope<'s>(
    alloc: Global,
    scope: ElabScope<'s>,
    list: &mut Vec<ElabScope<'s>>,
    plan: &mut Numbering,
) -> Result<(), ElabFault>
    requires { (ss : List Scope) × (s : Scope) × IsPlanned list.old.items plan.old ss × IsNext ss plan.old scope s }
    ensures { (ss : List Scope) (s : Scope) → IsPlanned list.old.items plan.old ss → IsNext ss plan.old scope.entry s →
        MatchResult result (λ _. AddsScope ss s scope.entry list.old.items list.new.items plan.old plan.new) (IsReported (HoldsOwn s)) }
{
    let path = path_inside(alloc, list, scope.around, scope.title)?;
    let names = list_members(alloc, list, &path, &scope, plan)?;
    let turns = count_turns(alloc, list, &path, &scope, &names, plan.turns)?;
    count(scope.kind, turns, plan);
    list.push(with_names(scope, names))?;
    Ok(())
}

/// Lists the scope of an instance or a block in the scope at a place. The answer is its own place.
#[inline(never)]
pub fn add<'s>(
    alloc: Global,
    modules: &Names<'s, NamedModule<'s>>,
    place: usize,
    one: &Inner<'s>,
    list: &mut Vec<ElabScope<'s>>,
    plan: &mut Numbering,
) -> Result<usize, ElabFault>
    requires { (ms : List Tree) × (ss : List Scope) × (s : Scope) × IsHolding ms ss s modules.now list.old.items plan.old place }
    ensures { (ms : List Tree) (ss : List Scope) (s : Scope) → IsHolding ms ss s modules.now list.old.items plan.old place →
        MatchResult result
        (AddsInnerAt ms ss s place (before_next list.old.items plan.old) (read_inner one.now) list.old.items list.new.items plan.old
        plan.new)
        (IsReported (AddsInnerNot ms s (before_next list.old.items plan.old) (read_inner one.now))) }
{
    let next = list.len();
    let scope = enter(alloc, modules, list, plan, place, one)?;
    list_scope(alloc, scope, list, plan)?;
    Ok(next)
}
