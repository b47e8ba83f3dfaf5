//! Faults of scopes, at their paths.
ghost use Rattle.std.specs.Prelude.{◌≡◌, ◌<◌, ◌∷◌, ◌++◌, [], List, Some, length, slice_get};
ghost use Rattle.vs_scopes.specs.Printed.{plainly};
ghost use Rattle.vs_scopes.specs.Scopes.{Scope, named};
ghost use Rattle.vs_scopes.specs.scopes_passes.Answers.{IsFaultAt, IsRefusal};
ghost use Rattle.vs_scopes.specs.scopes_passes.Names.{read_path};
ghost use Rattle.vs_elab_signals.specs.Opened.{AreOpened, AreSeated};

use crate::opened::ElabScope;
use crate::sites::path;
use std::alloc::Global;
use vs_scopes::{BodyFault, ElabFault, PathName, Reason, print_member, print_path};

/// A fault at a path.
#[inline(never)]
pub fn fault_at(alloc: Global, path: &[PathName], reason: Reason) -> ElabFault
    ensures { IsFaultAt reason (read_path path.now) result }
{
    match print_path(alloc, path) {
        Ok(path) => ElabFault::At(reason, path),
        Err(_) => ElabFault::Memory,
    }
}

/// A fault at a name of the scope of a path.
#[inline(never)]
pub fn member_fault(alloc: Global, path: &[PathName], name: &[u8], reason: Reason) -> ElabFault
    requires { 0 < length path.now }
    ensures { IsFaultAt reason (read_path path.now ++ plainly name.now ∷ []) result }
{
    match print_member(alloc, path, name) {
        Ok(path) => ElabFault::At(reason, path),
        Err(_) => ElabFault::Memory,
    }
}

/// A fault of a part of the scope of a path.
#[inline(never)]
pub fn part_fault(alloc: Global, path: &[PathName], fault: BodyFault) -> ElabFault
    ensures { IsRefusal (read_path path.now) fault result }
{
    match fault {
        BodyFault::Memory => ElabFault::Memory,
        BodyFault::Refused(reason) => fault_at(alloc, path, reason),
    }
}

/// A fault at the scope at a place.
#[inline(never)]
pub fn scope_fault(alloc: Global, list: &[ElabScope], place: usize, reason: Reason) -> ElabFault
    requires place { place < length list.now }
    requires seated { AreSeated list.now }
    ensures { (ss : List Scope) (s : Scope) → AreOpened list.now ss → slice_get ss place ≡ Some s → IsFaultAt reason s.path result }
{
    match path(alloc, list, place) {
        Ok(path) => fault_at(alloc, &path, reason),
        Err(_) => ElabFault::Memory,
    }
}

/// A fault at a name of the scope at a place.
#[inline(never)]
pub fn named_fault(
    alloc: Global,
    list: &[ElabScope],
    place: usize,
    name: &[u8],
    reason: Reason,
) -> ElabFault
    requires place { place < length list.now }
    requires seated { AreSeated list.now }
    ensures { (ss : List Scope) (s : Scope) → AreOpened list.now ss → slice_get ss place ≡ Some s →
        IsFaultAt reason (named s name.now) result }
{
    match path(alloc, list, place) {
        Ok(path) => member_fault(alloc, &path, name, reason),
        Err(_) => ElabFault::Memory,
    }
}
