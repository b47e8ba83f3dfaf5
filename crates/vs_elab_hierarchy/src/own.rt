//! The names and signals of a scope.
ghost use Rattle.std.specs.Prelude.{◌≡◌, ◌<◌, ◌≤◌, ◌∷◌, ◌++◌, [], List, Some, length, map, IfOk, OnOk, MatchResult};
ghost use Rattle.vs_widths.specs.Names.{meaning_of};
ghost use Rattle.vs_elab_signals.specs.vs_scopes.specs.Reads.{read_piece};
ghost use Rattle.vs_scopes.specs.Ports.{names_where, is_joined, ports_again};
ghost use Rattle.vs_scopes.specs.Scopes.{Scope};
ghost use Rattle.vs_scopes.specs.scopes_passes.Answers.{borrowed, IsFaultAt, IsReported};
ghost use Rattle.vs_scopes.specs.scopes_passes.Names.{read_path};
ghost use Rattle.vs_scopes.specs.scopes_passes.Parts.{read_port, read_source};
ghost use Rattle.vs_elab_signals.specs.Opened.{AreOpened, AreSeated, IsScopeOf};
ghost use Rattle.vs_elab_signals.specs.signal_passes.Sites.{IsSite};
ghost use Rattle.vs_elab_signals.specs.signal_passes.Declaring.{IsAt};
ghost use Rattle.vs_elab_hierarchy.specs.scope_passes.Own.{HoldsOwn, IsFitting, HasFittingPieces, HasFewTurns, NamesMean, HasTimelyNets, block_has_parameter, AreAlike, IsAgainNot, DeclaresAll, DeclaresAllNot, Binds, BindsNot, OpensNames, OpensOwn, EntersLast, HasOuter};

use crate::vs_elab_signals::{Enclosing, check_late};
use std::alloc::{AllocError, Global};
use vs_design::{Entry, ScopeKind};
use vs_elab_signals::vs_elab_constants::turns_after;
use vs_elab_signals::vs_scopes::ScopePiece;
use vs_elab_signals::{
    Declared, ElabScope, LEVELS, Numbering, Site, bind_all, bind_constants, counted,
    declare_pieces, declare_ports, fault_at, genvars, has_parameter, has_stray_port,
    has_wrong_port, inner_names, is_unlike, member_fault, names_around, passes_limit, ports_again,
    scope_fault,
};
use vs_scopes::vs_widths::Binding;
use vs_scopes::{ElabFault, ModulePort, PathName, PortSource, Reason, kinds_said, print_title};
use vs_widths::{Levels, Names};

/// Whether two items declare a port.
fn is_joined_port(source: PortSource) -> bool
    ensures { result ≡ is_joined (read_source source) }
{
    match source {
        PortSource::Items => true,
        PortSource::Header => false,
        PortSource::Item => false,
        PortSource::Nothing => false,
    }
}

/// Adds the name of a port, where two items declare it.
fn add_joined<'s>(port: &ModulePort<'s>, names: &mut Vec<&'s [u8]>) -> Result<(), AllocError>
    ensures { OnOk result (borrowed names.new.items
        ≡ borrowed names.old.items ++ names_where is_joined (read_port port.now ∷ [])) }
{
    if is_joined_port(port.source) {
        names.push(port.name)?;
    }
    Ok(())
}

/// The names of ports that two items declare.
fn joined_names<'s>(alloc: Global, ports: &[ModulePort<'s>]) -> Result<Vec<&'s [u8]>, AllocError>
    ensures { IfOk result (λ v. borrowed v.items ≡ names_where is_joined (map read_port ports.now)) }
{
    let mut names = Vec::new(alloc);
    for port in ports {
        add_joined(port, &mut names)?;
    }
    Ok(names)
}

/// Sees that a scope passes no limit, and that a module can have its ports.
#[inline(never)]
fn check_scope(
    alloc: Global,
    list: &[ElabScope],
    path: &[PathName],
    scope: &ElabScope,
) -> Result<(), ElabFault>
    requires { AreSeated list.now }
    ensures { (ss : List Scope) (s : Scope) → AreOpened list.now ss → EntersLast ss scope.now s → read_path path.now ≡ s.path →
        MatchResult result (λ _. IsFitting s) (IsReported (HoldsOwn s)) }
{
    if scope.depth > LEVELS {
        return Err(home_fault(alloc, list, path, scope, Reason::Limit));
    }
    if passes_limit(scope.kind, scope.instances, path.len()) {
        return Err(fault_at(alloc, path, Reason::Limit));
    }
    if has_wrong_port(&scope.ports) {
        return Err(fault_at(alloc, path, Reason::PortMismatch));
    }
    Ok(())
}

/// A fault at the instance that a scope of this path stands in, which may be the scope itself.
fn home_fault(
    alloc: Global,
    list: &[ElabScope],
    path: &[PathName],
    scope: &ElabScope,
    reason: Reason,
) -> ElabFault
    requires { AreSeated list.now }
    ensures { (ss : List Scope) (s : Scope) → AreOpened list.now ss → EntersLast ss scope.now s → read_path path.now ≡ s.path →
        IsFaultAt reason s.home result }
{
    if scope.home < list.len() {
        scope_fault(alloc, list, scope.home, reason)
    } else {
        fault_at(alloc, path, reason)
    }
}

/// Whether a scope is a block with a parameter that might be overridden (IEEE 1364-2005, clause 12.4).
fn has_block_parameter(kind: ScopeKind, pieces: &[ScopePiece]) -> bool
    ensures { result ≡ block_has_parameter kind (map read_piece pieces.now) }
{
    match kind {
        ScopeKind::Module => false,
        ScopeKind::Begin => has_parameter(pieces),
    }
}

/// Sees that a scope declares no port that its header doesn't have, and as a block no parameter that might be overridden.
#[inline(never)]
fn check_pieces(
    alloc: Global,
    list: &[ElabScope],
    path: &[PathName],
    scope: &ElabScope,
) -> Result<(), ElabFault>
    requires { AreSeated list.now }
    ensures { (ss : List Scope) (s : Scope) → AreOpened list.now ss → EntersLast ss scope.now s → read_path path.now ≡ s.path →
        MatchResult result (λ _. HasFittingPieces s) (IsReported (HoldsOwn s)) }
{
    if has_stray_port(alloc, &scope.ports, &scope.pieces)? {
        return Err(home_fault(alloc, list, path, scope, Reason::PortMismatch));
    }
    if has_block_parameter(scope.kind, &scope.pieces) {
        return Err(home_fault(alloc, list, path, scope, Reason::ParameterMismatch));
    }
    Ok(())
}

/// Sees that ports that two items declare are declared alike (IEEE 1364-2005, clause 12.3.3).
#[inline(never)]
fn check_alike<'s>(
    alloc: Global,
    site: Site,
    ports: &[ModulePort<'s>],
    pieces: &[ScopePiece<'s>],
) -> Result<(), ElabFault>
    requires { 0 < length site.path.now }
    ensures { (s : Scope) → IsAt s site.entry → map read_port ports.now ≡ s.ports → map read_piece pieces.now ≡ s.pieces →
        MatchResult result (λ _. AreAlike s) (IsReported (HoldsOwn s)) }
{
    let kinds = kinds_said(alloc, pieces)?;
    for port in ports {
        if is_unlike(alloc, site.known, &kinds, port)? {
            return Err(member_fault(alloc, site.path, port.name, Reason::DeclaredTwice));
        }
    }
    Ok(())
}

/// Sees that pieces declare no port once more.
#[inline(never)]
fn check_again<'s>(
    alloc: Global,
    path: &[PathName],
    ports: &[ModulePort<'s>],
    pieces: &[ScopePiece<'s>],
) -> Result<(), ElabFault>
    requires { 0 < length path.now }
    ensures { MatchResult result (λ _. ports_again (map read_port ports.now) (map read_piece pieces.now) ≡ [])
        (IsReported (IsAgainNot (read_path path.now) (map read_port ports.now) (map read_piece pieces.now))) }
{
    let again = ports_again(alloc, ports, pieces)?;
    match again.first() {
        Some(name) => Err(member_fault(alloc, path, *name, Reason::DeclaredTwice)),
        None => Ok(()),
    }
}

/// Gives the names of a scope their signals behind its constants: those of its ports, and then those of its pieces.
#[inline(never)]
fn declare<'s>(
    alloc: Global,
    site: Site,
    scope: &ElabScope<'s>,
    plan: &mut Numbering,
) -> Result<Names<'s, Binding>, ElabFault>
    requires rooted { 0 < length site.path.now }
    requires room { length plan.old.signals.items ≤ 65536 }
    ensures { (ss : List Scope) (s : Scope) → IsScopeOf ss scope.now s → IsAt s site.entry →
        MatchResult result (λ names. DeclaresAll s names plan.new plan.old) (IsReported (DeclaresAllNot s plan.old)) }
{
    let mut names = Names::new(alloc);
    bind_constants(alloc, site.path, &scope.constants, &mut names)?;
    declare_ports(alloc, site, &scope.ports, &mut names, plan)?;
    let twice = joined_names(alloc, &scope.ports)?;
    let joined = counted(alloc, &twice)?;
    let mut to = Declared { names, joined };
    declare_pieces(alloc, site, &scope.pieces, &mut to, plan)?;
    Ok(to.names)
}

/// Opens a scope in the outline, binds its names, and gives its signals their numbers.
#[inline(never)]
fn begin<'s>(
    alloc: Global,
    site: Site,
    scope: &ElabScope<'s>,
    plan: &mut Numbering,
) -> Result<Names<'s, Binding>, ElabFault>
    requires rooted { 0 < length site.path.now }
    requires room { length plan.old.signals.items ≤ 65536 }
    ensures { (ss : List Scope) (s : Scope) → IsScopeOf ss scope.now s → IsAt s site.entry → s.base ≡ length plan.old.signals.items →
        MatchResult result (λ names. Binds s names plan.old plan.new) (IsReported (BindsNot s)) }
{
    let title = print_title(alloc, scope.title)?;
    plan.outline.push(Entry::Enter(scope.kind, title))?;
    let mut names = declare(alloc, site, scope, plan)?;
    let genvars = genvars(alloc, &scope.pieces)?;
    bind_all(alloc, site.path, &genvars, Binding::Genvar, &mut names)?;
    let inner = inner_names(alloc, &scope.pieces)?;
    bind_all(alloc, site.path, &inner, Binding::Other, &mut names)?;
    Ok(names)
}

/// Sees that a scope uses no net that is declared behind (IEEE 1364-2005, clause 4.5).
#[inline(never)]
fn check_nets(
    alloc: Global,
    list: &[ElabScope],
    path: &[PathName],
    scope: &ElabScope,
) -> Result<(), ElabFault>
    requires rooted { 0 < length path.now }
    requires around { HasOuter list.now scope.now }
    requires seated { AreSeated list.now }
    ensures { (ss : List Scope) (s : Scope) → AreOpened list.now ss → EntersLast ss scope.now s → read_path path.now ≡ s.path →
        MatchResult result (λ _. HasTimelyNets s) (IsReported (HoldsOwn s)) }
{
    let around = Enclosing {
        list,
        kind: scope.kind,
        around: scope.around,
        piece: scope.piece,
    };
    check_late(alloc, around, path, &scope.text, &scope.told, &scope.pieces)
}

/// Binds the names of a scope, whose ports are declared alike and once.
#[inline(never)]
fn open_names<'a, 's, 'o>(
    alloc: Global,
    path: &'a [PathName<'s>],
    known: &'a Levels<'s, 'o>,
    scope: &ElabScope<'s>,
    plan: &mut Numbering,
) -> Result<Names<'s, Binding>, ElabFault>
    requires rooted { 0 < length path.now }
    requires room { length plan.old.signals.items ≤ 65536 }
    ensures { (ss : List Scope) (s : Scope) → IsScopeOf ss scope.now s → IsSite s (read_path path.entry.now) (meaning_of known.entry.now)
        → HasFittingPieces s →
        s.base ≡ length plan.old.signals.items →
        MatchResult result (λ names. OpensNames s names plan.old plan.new) (IsReported (HoldsOwn s)) }
{
    let site = Site { path, known };
    check_alike(alloc, site, &scope.ports, &scope.pieces)?;
    let names = begin(alloc, site, scope, plan)?;
    check_again(alloc, path, &scope.ports, &scope.pieces)?;
    Ok(names)
}

/// What a scope's own names are bound to, with its signals and its first lines of the outline, where its own members have no fault; `list` has
/// the scopes before it.
#[inline(never)]
pub fn list_members<'s>(
    alloc: Global,
    list: &[ElabScope<'s>],
    path: &[PathName<'s>],
    scope: &ElabScope<'s>,
    plan: &mut Numbering,
) -> Result<Names<'s, Binding>, ElabFault>
    requires rooted { 0 < length path.now }
    requires around { HasOuter list.now scope.now }
    requires seated { AreSeated list.now }
    requires room { length plan.old.signals.items ≤ 65536 }
    ensures { (ss : List Scope) (s : Scope) → AreOpened list.now ss → EntersLast ss scope.now s → read_path path.now ≡ s.path →
        s.base ≡ length plan.old.signals.items →
        MatchResult result (λ names. OpensOwn s names plan.old plan.new) (IsReported (HoldsOwn s)) }
{
    check_scope(alloc, list, path, scope)?;
    check_pieces(alloc, list, path, scope)?;
    check_nets(alloc, list, path, scope)?;
    let outer = names_around(alloc, list, scope.kind, scope.around)?;
    let known = Levels::new(&scope.known, &outer);
    open_names(alloc, path, &known, scope, plan)
}

/// How many turns of generate loops there are behind those of a scope with these names, where there are so many before it.
#[inline(never)]
pub fn count_turns<'s>(
    alloc: Global,
    list: &[ElabScope<'s>],
    path: &[PathName<'s>],
    scope: &ElabScope<'s>,
    names: &Names<'s, Binding>,
    before: usize,
) -> Result<usize, ElabFault>
    requires few { before ≤ 65536 }
    requires around { HasOuter list.now scope.now }
    requires seated { AreSeated list.now }
    ensures { (ss : List Scope) (s : Scope) → AreOpened list.now ss → EntersLast ss scope.now s → read_path path.now ≡ s.path →
        before ≡ s.turns → NamesMean s names.now →
        MatchResult result (HasFewTurns s) (IsReported (HoldsOwn s)) }
{
    let outer = names_around(alloc, list, scope.kind, scope.around)?;
    let levels = Levels::new(names, &outer);
    match turns_after(alloc, &levels, &scope.pieces, before)? {
        Some(turns) => Ok(turns),
        None => Err(fault_at(alloc, path, Reason::Limit)),
    }
}
