//! Generate blocks with the names of implicit nets.
ghost use Rattle.std.specs.Prelude.{◌≡◌, ◌<◌, ◌&&◌, ◌∷◌, [], false, is_some, is_none, List, Some, length, map, slice_get, MatchResult};
ghost use Rattle.std.specs.List.{list_any};
ghost use Rattle.vs_elab_signals.specs.vs_elab_constants.specs.Reads.{read_inner};
ghost use Rattle.vs_scopes.specs.Scopes.{Scope, is_implicit, is_named_as_net};
ghost use Rattle.vs_scopes.specs.scopes_passes.Answers.{IsReported};
ghost use Rattle.vs_scopes.specs.scopes_passes.Names.{read_part};
ghost use Rattle.vs_elab_signals.specs.Opened.{AreOpened, AreSeated};
ghost use Rattle.vs_elab_signals.specs.nets_passes.Nets.{IsNetName, IsNamedAsNet};

use crate::vs_elab_constants::Inner;
use crate::{ElabScope, named_fault};
use std::alloc::Global;
use vs_scopes::vs_widths::Binding;
use vs_scopes::{ElabFault, PartName, Reason, numbered_name};

/// Whether a name that a scope declares as a port or net at this place is none of its text.
fn is_implicit_net(told: Option<usize>, text: Option<Binding>) -> bool
    ensures { result ≡ (is_some told && is_none text) }
{
    match text {
        Some(_) => false,
        None => told.is_some(),
    }
}

/// Whether a name is that of an implicit net of the scope at a place.
fn is_implicit(list: &[ElabScope], place: usize, name: &[u8]) -> bool
    requires place { place < length list.now }
    ensures { (ss : List Scope) (s : Scope) → AreOpened list.now ss → slice_get ss place ≡ Some s → result ≡ is_implicit s name.now }
{
    let scope = &list[place];
    is_implicit_net(scope.told.find(name), scope.text.find(name))
}

/// Sees that a name is none of an implicit net of the scope at a place.
fn check_name(alloc: Global, list: &[ElabScope], place: usize, name: &[u8]) -> Result<(), ElabFault>
    requires place { place < length list.now }
    requires seated { AreSeated list.now }
    ensures { (ss : List Scope) (s : Scope) → AreOpened list.now ss → slice_get ss place ≡ Some s →
        MatchResult result (λ _. is_implicit s name.now ≡ false) (IsReported (IsNetName s name.now)) }
{
    if is_implicit(list, place, name) {
        return Err(named_fault(alloc, list, place, name, Reason::DeclaredTwice));
    }
    Ok(())
}

/// Sees that a generate block has not the name of an implicit net of the scope at a place (IEEE 1364-2005, clauses 4.5 and 12.4.3).
fn check_block(
    alloc: Global,
    list: &[ElabScope],
    place: usize,
    name: PartName,
) -> Result<(), ElabFault>
    requires place { place < length list.now }
    requires seated { AreSeated list.now }
    ensures { (ss : List Scope) (s : Scope) → AreOpened list.now ss → slice_get ss place ≡ Some s →
        MatchResult result (λ _. is_implicit s (read_part name.entry) ≡ false) (IsReported (IsNetName s (read_part name.entry))) }
{
    match name {
        PartName::Text(bytes) => check_name(alloc, list, place, bytes),
        PartName::Unnamed { zeros, number } => {
            let bytes = numbered_name(alloc, zeros, number)?;
            check_name(alloc, list, place, &bytes)
        }
    }
}

/// Sees that what opens a scope is no generate block with the name of an implicit net of the scope at a place.
fn check_one(alloc: Global, list: &[ElabScope], place: usize, one: &Inner) -> Result<(), ElabFault>
    requires place { place < length list.now }
    requires seated { AreSeated list.now }
    ensures { (ss : List Scope) (s : Scope) → AreOpened list.now ss → slice_get ss place ≡ Some s →
        MatchResult result (λ _. is_named_as_net s (read_inner one.now) ≡ false) (IsReported (IsNamedAsNet s (read_inner one.now ∷ []))) }
{
    match one {
        Inner::Instance(_) => Ok(()),
        Inner::Generated(_, title, _, _) => check_block(alloc, list, place, title.name),
        Inner::Named(_) => Ok(()),
    }
}

/// Sees that none of the generate blocks in the scope at a place has the name of an implicit net there (IEEE 1364-2005, clauses 4.5 and 12.4.3).
pub fn check_blocks(
    alloc: Global,
    list: &[ElabScope],
    place: usize,
    inner: &[Inner],
) -> Result<(), ElabFault>
    requires place { place < length list.now }
    requires seated { AreSeated list.now }
    ensures { (ss : List Scope) (s : Scope) → AreOpened list.now ss → slice_get ss place ≡ Some s →
        MatchResult result (λ _. list_any (is_named_as_net s) (map read_inner inner.now) ≡ false)
        (IsReported (IsNamedAsNet s (map read_inner inner.now))) }
{
    for one in inner {
        check_one(alloc, list, place, one)?;
    }
    Ok(())
}
