//! Where scopes stand: their paths, and what names are bound to outward of them.
ghost use Rattle.std.specs.Prelude.{◌≡◌, ◌<◌, ℕ, List, Some, length, slice_get, IfOk};
ghost use Rattle.vs_elab_signals.specs.vs_widths.specs.Names.{meaning_of, nested_names};
ghost use Rattle.vs_scopes.specs.Scopes.{Scope, environment, seen_from};
ghost use Rattle.vs_scopes.specs.scopes_passes.Names.{read_title, read_path};
ghost use Rattle.vs_elab_signals.specs.Opened.{AreOpened, AreSeated, HasParentScope};
ghost use Rattle.vs_elab_signals.specs.signal_passes.Sites.{outward_place};

use crate::opened::ElabScope;
use crate::vs_widths::Names;
use std::alloc::{AllocError, Global};
use vs_design::ScopeKind;
use vs_scopes::PathName;
use vs_scopes::vs_widths::Binding;

/// The place of the scope whose names are seen in one of this kind (IEEE 1364-2005, clause 12.7).
pub fn outward_place(kind: ScopeKind, around: Option<usize>) -> Option<usize>
    ensures { result ≡ outward_place kind around }
{
    match kind {
        ScopeKind::Module => None,
        ScopeKind::Begin => around,
    }
}

/// The names of a scope and those of the scopes around it that are seen there, the innermost first (IEEE 1364-2005, clause 12.7).
pub fn names_outward<'s, 'o>(
    alloc: Global,
    list: &'o [ElabScope<'s>],
    place: usize,
) -> Result<Vec<&'o Names<'s, Binding>>, AllocError>
    requires place { place < length list.now }
    requires seated { AreSeated list.now }
    ensures { (ss : List Scope) (s : Scope) → AreOpened list.entry.now ss → slice_get ss place ≡ Some s →
        IfOk result (λ v. (n : List ℕ) → meaning_of (nested_names v.items) n ≡ environment s n) }
{
    let mut levels = Vec::new(alloc);
    let mut at = place;
    for _step in 0..place + 1 {
        let scope = &list[at];
        levels.push(&scope.names)?;
        match outward_place(scope.kind, scope.around) {
            Some(next) => at = next,
            None => return Ok(levels),
        }
    }
    Ok(levels)
}

/// The names of the scopes around a scope of this kind that are seen there, the innermost first (IEEE 1364-2005, clause 12.7).
pub fn names_around<'s, 'o>(
    alloc: Global,
    list: &'o [ElabScope<'s>],
    kind: ScopeKind,
    around: Option<usize>,
) -> Result<Vec<&'o Names<'s, Binding>>, AllocError>
    requires place { (place : ℕ) → outward_place kind around ≡ Some place → place < length list.now }
    requires seated { AreSeated list.now }
    ensures { (ss : List Scope) (s : Scope) → AreOpened list.entry.now ss → HasParentScope ss around s → kind ≡ s.kind →
        IfOk result (λ v. (n : List ℕ) → meaning_of (nested_names v.items) n ≡ seen_from s.kind s.outer n) }
{
    match outward_place(kind, around) {
        Some(place) => names_outward(alloc, list, place),
        None => Ok(Vec::new(alloc)),
    }
}

/// The names from the top to a scope (IEEE 1364-2005, clause 12.5).
pub fn path<'s>(
    alloc: Global,
    list: &[ElabScope<'s>],
    place: usize,
) -> Result<Vec<PathName<'s>>, AllocError>
    requires place { place < length list.now }
    requires seated { AreSeated list.now }
    ensures rooted { IfOk result (λ v. 0 < length v.items) }
    ensures path { (ss : List Scope) (s : Scope) → AreOpened list.now ss → slice_get ss place ≡ Some s →
        IfOk result (λ v. read_path v.items ≡ s.path) }
{
    let mut titles = Vec::new(alloc);
    let mut at = place;
    for _step in 0..place + 1 {
        let scope = &list[at];
        titles.push(scope.title)?;
        match scope.around {
            Some(next) => at = next,
            None => {
                titles.reverse();
                return Ok(titles);
            }
        }
    }
    Ok(titles)
}

/// The names from the top to a scope of this name in the one at a place, or to the outermost one.
pub fn path_inside<'s>(
    alloc: Global,
    list: &[ElabScope<'s>],
    around: Option<usize>,
    title: PathName<'s>,
) -> Result<Vec<PathName<'s>>, AllocError>
    requires place { (place : ℕ) → around ≡ Some place → place < length list.now }
    requires seated { AreSeated list.now }
    ensures rooted { IfOk result (λ v. 0 < length v.items) }
    ensures path { (ss : List Scope) (s : Scope) → AreOpened list.now ss → HasParentScope ss around s → read_title title.entry ≡ s.title →
        IfOk result (λ v. read_path v.items ≡ s.path) }
{
    let mut titles = match around {
        Some(place) => path(alloc, list, place)?,
        None => Vec::new(alloc),
    };
    titles.push(title)?;
    Ok(titles)
}
