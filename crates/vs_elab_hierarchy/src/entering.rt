//! From a scope to the scopes of the instances and blocks in it.
ghost use Rattle.std.specs.Prelude.{◌≡◌, ◌<◌, [], List, Some, length, map, slice_get, IfOk, IfErr, MatchResult};
ghost use Rattle.std.specs.List.{list_any};
ghost use Rattle.std.specs.Str.{bytes_eq};
ghost use Rattle.vs_syntax.specs.declared.tree.Module.{Module as Tree};
ghost use Rattle.vs_elab_constants.specs.vs_widths.specs.Names.{by_bytes};
ghost use Rattle.vs_scopes.specs.Reads.{read_piece};
ghost use Rattle.vs_scopes.specs.Pieces.{pieces_of};
ghost use Rattle.vs_elab_constants.specs.Reads.{read_use, read_constant, read_inner};
ghost use Rattle.vs_elab_signals.specs.vs_scopes.specs.Generate.{instance, generated};
ghost use Rattle.vs_elab_signals.specs.vs_scopes.specs.Ports.{ports_of};
ghost use Rattle.vs_elab_signals.specs.vs_scopes.specs.Printed.{plainly};
ghost use Rattle.vs_elab_signals.specs.vs_scopes.specs.Scopes.{Scope, environment, named};
ghost use Rattle.vs_elab_signals.specs.vs_scopes.specs.scopes_passes.Answers.{borrowed, IsFaultAt, IsReported};
ghost use Rattle.vs_elab_signals.specs.vs_scopes.specs.scopes_passes.Names.{read_title};
ghost use Rattle.vs_elab_signals.specs.vs_scopes.specs.scopes_passes.Parts.{read_end, read_port};
ghost use Rattle.vs_elab_signals.specs.vs_elab_constants.specs.passes.Values.{AreValues, AreNoValues};
ghost use Rattle.vs_elab_signals.specs.Opened.{AreOpened, AreSeated};
ghost use Rattle.vs_elab_hierarchy.specs.passes.Blocks.{text_name};
ghost use Rattle.vs_elab_hierarchy.specs.passes.Entering.{Lists, before_next, IsParameterFault, IsBlockRefusal, EntersInstance, EntersInstanceNot, EntersBlock, EntersBlockNot, Enters, EntersNot, IsShallow};

use std::alloc::Global;
use std::slice;
use vs_design::ScopeKind;
use vs_elab_constants::vs_widths::{Levels, Names};
use vs_elab_constants::{Inner, Use};
use vs_elab_signals::vs_elab_constants::{ParameterValues, block_values, values};
use vs_elab_signals::vs_scopes::{
    ElabFault, ModulePort, ParameterRefusal, PartName, PathName, Reason, module_ports, with_first,
};
use vs_elab_signals::{
    ElabScope, Enclosing, Numbering, block_members, connections, fault_at, module_members,
    named_fault, names_outward, path_inside, scope_fault,
};
use vs_scopes::{ScopePiece, block_pieces, pieces};
use vs_syntax::{Module, ModuleItem};
use vs_widths::{Const, WidthFault};

/// A module, as it is listed.
#[derive(Clone, Copy)]
pub struct NamedModule<'s> {
    /// The module.
    pub module: &'s Module,
    /// Whether undeclared names may be nets in it.
    pub nets: bool,
}

/// Whether a name is among others.
fn is_among(names: &[&[u8]], name: &[u8]) -> bool
    ensures { result ≡ list_any (bytes_eq name.now) (borrowed names.now) }
{
    for other in names {
        if name == *other {
            return true;
        }
    }
    false
}

/// The fault of an instance of this name in the scope at a place, whose parameters have no values.
fn parameter_refusal(
    alloc: Global,
    list: &[ElabScope],
    place: usize,
    name: &[u8],
    refusal: ParameterRefusal,
) -> ElabFault
    requires place { place < length list.now }
    requires seated { AreSeated list.now }
    ensures { (ss : List Scope) (s : Scope) → AreOpened list.now ss → slice_get ss place ≡ Some s →
        IsParameterFault s name.now refusal result }
{
    match refusal {
        ParameterRefusal::Memory => ElabFault::Memory,
        ParameterRefusal::Mismatch => {
            named_fault(alloc, list, place, name, Reason::ParameterMismatch)
        }
        ParameterRefusal::Outer(reason) => scope_fault(alloc, list, place, Reason::Width(reason)),
        ParameterRefusal::Own(reason) => {
            named_fault(alloc, list, place, name, Reason::Width(reason))
        }
    }
}

/// The fault of a block of this name in the scope at a place, whose parameters have no values.
fn block_refusal<'s>(
    alloc: Global,
    list: &[ElabScope<'s>],
    place: usize,
    title: PathName<'s>,
    fault: WidthFault,
) -> ElabFault
    requires place { place < length list.now }
    requires seated { AreSeated list.now }
    ensures { (ss : List Scope) (s : Scope) → AreOpened list.now ss → slice_get ss place ≡ Some s →
        IsBlockRefusal s (read_title title.entry) fault result }
{
    match fault {
        WidthFault::Memory => ElabFault::Memory,
        WidthFault::Refused(reason) => match path_inside(alloc, list, Some(place), title) {
            Ok(path) => fault_at(alloc, &path, Reason::Width(reason)),
            Err(_) => ElabFault::Memory,
        },
    }
}

/// The values of the parameters of a module that is instantiated in the scope at a place (IEEE 1364-2005, clause 12.2.2).
#[inline(never)]
fn instance_values<'s>(
    alloc: Global,
    list: &[ElabScope<'s>],
    place: usize,
    module: &'s Module,
    ports: &[ModulePort<'s>],
    pieces: &[ScopePiece<'s>],
    one: &Use<'s>,
) -> Result<ParameterValues<'s>, ParameterRefusal>
    requires place { place < length list.now }
    requires seated { AreSeated list.now }
    requires ports { map read_port ports.now ≡ ports_of «module».now }
    requires pieces { map read_piece pieces.now ≡ pieces_of «module».now.items.items }
    ensures ok { (ss : List Scope) (s : Scope) → AreOpened list.now ss → slice_get ss place ≡ Some s →
        IfOk result (AreValues (environment s) (read_end one.now.overrides) «module».entry.now) }
    ensures fault { (ss : List Scope) (s : Scope) → AreOpened list.now ss → slice_get ss place ≡ Some s →
        IfErr result (AreNoValues (environment s) (read_end one.now.overrides) «module».entry.now) }
{
    let names = names_outward(alloc, list, place)?;
    let nothing = Names::new(alloc);
    let around = Levels::new(&nothing, &names);
    values(alloc, &around, module, ports, pieces, one.overrides)
}

/// The scope of an instance of this module in the scope at a place.
fn module_scope<'s>(
    alloc: Global,
    listed: NamedModule<'s>,
    list: &[ElabScope<'s>],
    plan: &Numbering,
    place: usize,
    one: &Use<'s>,
) -> Result<ElabScope<'s>, ElabFault>
    requires place { place < length list.now }
    requires seated { AreSeated list.now }
    requires depth { IsShallow list.now place }
    ensures { (ss : List Scope) (s : Scope) → AreOpened list.now ss → slice_get ss place ≡ Some s →
        MatchResult result
        (EntersInstance listed.entry.nets ss s place (before_next list.now plan.now) (read_use one.now) listed.entry.«module».now)
        (IsReported (EntersInstanceNot s (read_use one.now) listed.entry.«module».now)) }
{
    let module = listed.module;
    let pieces = pieces(alloc, &module.items)?;
    let ports = module_ports(alloc, module, &pieces)?;
    let values = match instance_values(alloc, list, place, module, &ports, &pieces, one) {
        Ok(values) => values,
        Err(refusal) => return Err(parameter_refusal(alloc, list, place, one.name, refusal)),
    };
    let Some(ends) = connections(alloc, one, &ports)? else {
        return Err(named_fault(alloc, list, place, one.name, Reason::PortMismatch));
    };
    let around = Enclosing {
        list,
        kind: ScopeKind::Module,
        around: Some(place),
        piece: 0,
    };
    let members = module_members(alloc, listed.nets, around, module, &ports, pieces)?;
    let home = list[place].home;
    let within = with_first(alloc, &module.name, &list[home].within)?;
    Ok(ElabScope {
        title: plain_title(one.name),
        kind: ScopeKind::Module,
        number: list.len(),
        base: plan.signals.len(),
        instances: plan.instances,
        turns: plan.turns,
        depth: list[place].depth + 1,
        nets: listed.nets,
        text: members.text,
        told: members.told,
        ports,
        pieces: members.pieces,
        constants: values.constants,
        known: values.known,
        names: Names::new(alloc),
        within,
        home: list.len(),
        around: Some(place),
        piece: 0,
        ends,
        blocks: Names::new(alloc),
    })
}

/// A name that is no turn of a loop.
pub fn plain_title<'s>(name: &'s [u8]) -> PathName<'s>
    ensures title { read_title result ≡ plainly name.entry.now }
    ensures text { text_name result ≡ Some name.entry.now }
{
    PathName {
        name: PartName::Text(name),
        turn: None,
    }
}

/// The scope of an instance in the scope at a place (IEEE 1364-2005, clauses 12.1.2, 12.2.2 and 12.3).
#[inline(never)]
fn enter_instance<'s>(
    alloc: Global,
    modules: &Names<'s, NamedModule<'s>>,
    list: &[ElabScope<'s>],
    plan: &Numbering,
    place: usize,
    one: &Use<'s>,
) -> Result<ElabScope<'s>, ElabFault>
    requires place { place < length list.now }
    requires seated { AreSeated list.now }
    requires depth { IsShallow list.now place }
    ensures { (ms : List Tree) (ss : List Scope) (s : Scope) → Lists ms modules.now → AreOpened list.now ss → slice_get ss place ≡ Some s →
        MatchResult result (Enters ms ss s place (before_next list.now plan.now) (instance (read_use one.now)))
        (IsReported (EntersNot ms s (instance (read_use one.now)))) }
{
    let Some(listed) = modules.find(one.of) else {
        return Err(named_fault(alloc, list, place, one.name, Reason::NoModule));
    };
    let home = list[place].home;
    if is_among(&list[home].within, &listed.module.name) {
        return Err(named_fault(alloc, list, place, one.name, Reason::Inside));
    }
    module_scope(alloc, listed, list, plan, place, one)
}

/// The scope of a block before a piece of the scope at a place, of these constants and pieces (IEEE 1364-2005, clauses 9.8.3 and 12.4).
#[inline(never)]
fn block_scope<'s>(
    alloc: Global,
    list: &[ElabScope<'s>],
    plan: &Numbering,
    place: usize,
    piece: usize,
    title: PathName<'s>,
    constants: &[(&'s [u8], Const)],
    pieces: Vec<ScopePiece<'s>>,
) -> Result<ElabScope<'s>, ElabFault>
    requires place { place < length list.now }
    requires seated { AreSeated list.now }
    ensures { (ss : List Scope) (s : Scope) → AreOpened list.now ss → slice_get ss place ≡ Some s →
        MatchResult result
        (EntersBlock piece ss s place (before_next list.now plan.now) title.entry (by_bytes constants.now)
        (map read_piece pieces.entry.items))
        (IsReported (EntersBlockNot s (read_title title.entry) (by_bytes constants.now) (map read_piece pieces.entry.items))) }
{
    let outer = names_outward(alloc, list, place)?;
    let values = match block_values(alloc, &outer, constants, &pieces) {
        Ok(values) => values,
        Err(fault) => return Err(block_refusal(alloc, list, place, title, fault)),
    };
    let around = Enclosing {
        list,
        kind: ScopeKind::Begin,
        around: Some(place),
        piece,
    };
    let nets = list[place].nets;
    let members = block_members(alloc, nets, around, constants, pieces)?;
    Ok(ElabScope {
        title,
        kind: ScopeKind::Begin,
        number: list.len(),
        base: plan.signals.len(),
        instances: plan.instances,
        turns: plan.turns,
        depth: list[place].depth,
        nets,
        text: members.text,
        told: members.told,
        ports: Vec::new(alloc),
        pieces: members.pieces,
        constants: values.constants,
        known: values.known,
        names: Names::new(alloc),
        within: Vec::new(alloc),
        home: list[place].home,
        around: Some(place),
        piece,
        ends: Vec::new(alloc),
        blocks: Names::new(alloc),
    })
}

/// The scope of a generate block, of the construct that is a piece of the scope at a place; `turn` is the genvar of the turn that it is, with its
/// value (IEEE 1364-2005, clause 12.4).
#[inline(never)]
fn enter_generated<'s>(
    alloc: Global,
    list: &[ElabScope<'s>],
    plan: &Numbering,
    place: usize,
    piece: usize,
    title: PathName<'s>,
    turn: &Option<(&'s [u8], Const)>,
    items: &'s [ModuleItem],
) -> Result<ElabScope<'s>, ElabFault>
    requires place { place < length list.now }
    requires seated { AreSeated list.now }
    ensures { (ms : List Tree) (ss : List Scope) (s : Scope) → AreOpened list.now ss → slice_get ss place ≡ Some s →
        MatchResult result
        (Enters ms ss s place (before_next list.now plan.now)
        (generated piece (read_title title.entry) (read_constant turn.now) items.entry.now))
        (IsReported (EntersNot ms s (generated piece (read_title title.entry) (read_constant turn.now) items.entry.now))) }
{
    let pieces = pieces(alloc, items)?;
    match turn {
        Some(genvar) => {
            block_scope(
                alloc,
                list,
                plan,
                place,
                piece,
                title,
                slice::from_ref(genvar),
                pieces,
            )
        }
        None => block_scope(alloc, list, plan, place, piece, title, &[], pieces),
    }
}

/// The scope of an instance or a block in the scope at a place.
#[inline(never)]
pub fn enter<'s>(
    alloc: Global,
    modules: &Names<'s, NamedModule<'s>>,
    list: &[ElabScope<'s>],
    plan: &Numbering,
    place: usize,
    one: &Inner<'s>,
) -> Result<ElabScope<'s>, ElabFault>
    requires place { place < length list.now }
    requires seated { AreSeated list.now }
    requires depth { IsShallow list.now place }
    ensures { (ms : List Tree) (ss : List Scope) (s : Scope) → Lists ms modules.now → AreOpened list.now ss → slice_get ss place ≡ Some s →
        MatchResult result (Enters ms ss s place (before_next list.now plan.now) (read_inner one.now))
        (IsReported (EntersNot ms s (read_inner one.now))) }
{
    match one {
        Inner::Instance(one) => enter_instance(alloc, modules, list, plan, place, one),
        Inner::Generated(piece, title, turn, items) => {
            enter_generated(alloc, list, plan, place, *piece, *title, turn, *items)
        }
        Inner::Named(block) => {
            let pieces = block_pieces(alloc, *block)?;
            let title = plain_title(block.name);
            block_scope(alloc, list, plan, place, 0, title, &[], pieces)
        }
    }
}
