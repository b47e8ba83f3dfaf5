//! All scopes of a source.
ghost use Rattle.std.specs.Prelude.{◌≡◌, ◌<◌, ◌∷◌, [], ℕ, None, length, map, IfOk, OnOk, MatchResult};
ghost use Rattle.std.specs.List.{All};
ghost use Rattle.vs_scopes.specs.Printed.{plainly};
ghost use Rattle.vs_scopes.specs.Ports.{ports_of};
ghost use Rattle.vs_scopes.specs.Scopes.{nowhere};
ghost use Rattle.vs_scopes.specs.scopes_passes.Answers.{IsFaultAt, IsReported};
ghost use Rattle.vs_scopes.specs.scopes_passes.Parts.{read_port};
ghost use Rattle.vs_elab_constants.specs.passes.Values.{AreValues};
ghost use Rattle.vs_elab_signals.specs.Opened.{AreSeated, OpensAll};
ghost use Rattle.vs_elab_signals.specs.ScopeFaults.{HasOpeningFault};
ghost use Rattle.vs_elab_hierarchy.specs.passes.Entering.{Lists, ListsNot};
ghost use Rattle.vs_elab_signals.specs.vs_scopes.specs.Pieces.{pieces_of};
ghost use Rattle.vs_elab_signals.specs.vs_scopes.specs.Reads.{read_piece, referred};
ghost use Rattle.vs_elab_hierarchy.specs.passes.Blocks.{text_name, HasIndex, HasNoBlocks, AddsBlock, AreIndexed};
ghost use Rattle.vs_elab_hierarchy.specs.scope_passes.Adding.{IsPlanned};
ghost use Rattle.vs_elab_hierarchy.specs.hierarchy_passes.Opens.{IsTop, TopNot, Made};

use crate::opening::open_inside;
use crate::vs_elab_signals::{Enclosing, module_members, permits_after};
use crate::{NamedModule, list_scope, plain_title};
use std::alloc::{AllocError, Global};
use vs_design::ScopeKind;
use vs_elab_constants::vs_widths::{Levels, Names};
use vs_elab_constants::{ParameterValues, values};
use vs_elab_signals::vs_scopes::{ScopePiece, pieces};
use vs_elab_signals::{DEEPEST, ElabScope, Hierarchy, Numbering, fault_at};
use vs_scopes::{
    ElabFault, ModulePort, ParameterRefusal, PartName, PathName, Reason, module_ports,
};
use vs_syntax::Module;

/// A fault at a module's name.
fn module_fault(alloc: Global, name: &[u8], reason: Reason) -> ElabFault
    ensures { IsFaultAt reason (plainly name.now ∷ []) result }
{
    fault_at(alloc, &[plain_title(name)], reason)
}

/// Modules by their names, which differ, each with whether undeclared names may be nets in it (IEEE 1364-2005, clause 19.2).
fn list_modules<'s>(
    alloc: Global,
    modules: &'s [Module],
) -> Result<Names<'s, NamedModule<'s>>, ElabFault>
    ensures { MatchResult result (Lists modules.entry.now) (IsReported (ListsNot modules.entry.now)) }
{
    let mut names = Names::new(alloc);
    let mut nets = true;
    for module in modules {
        nets = permits_after(nets, &module.directives);
        if !names.declare(&module.name, NamedModule { module, nets })? {
            return Err(module_fault(alloc, &module.name, Reason::DeclaredTwice));
        }
    }
    Ok(names)
}

/// The values of the parameters of the top, around which nothing has a name.
#[inline(never)]
fn top_values<'s>(
    alloc: Global,
    module: &'s Module,
    ports: &[ModulePort<'s>],
    pieces: &[ScopePiece<'s>],
) -> Result<ParameterValues<'s>, ElabFault>
    requires ports { map read_port ports.now ≡ ports_of «module».now }
    requires pieces { map read_piece pieces.now ≡ pieces_of «module».now.items.items }
    ensures { MatchResult result (AreValues nowhere None «module».entry.now) (IsReported (TopNot «module».entry.now)) }
{
    let nothing = Names::new(alloc);
    let around = Levels::alone(&nothing);
    match values(alloc, &around, module, ports, pieces, None) {
        Ok(values) => Ok(values),
        Err(ParameterRefusal::Own(reason)) => {
            Err(module_fault(alloc, &module.name, Reason::Width(reason)))
        }
        Err(ParameterRefusal::Memory) => Err(ElabFault::Memory),
        Err(ParameterRefusal::Mismatch) => unreachable!(),
        Err(ParameterRefusal::Outer(_)) => unreachable!(),
    }
}

/// The scope of the top module (IEEE 1364-2005, clause 12.1.1).
#[inline(never)]
fn top_scope<'s>(alloc: Global, listed: NamedModule<'s>) -> Result<ElabScope<'s>, ElabFault>
    ensures { MatchResult result (IsTop listed.entry.nets listed.entry.«module».now) (IsReported (TopNot listed.entry.«module».now)) }
{
    let module = listed.module;
    let pieces = pieces(alloc, &module.items)?;
    let ports = module_ports(alloc, module, &pieces)?;
    let values = top_values(alloc, module, &ports, &pieces)?;
    let mut within = Vec::new(alloc);
    within.push(module.name.as_slice())?;
    let around = Enclosing {
        list: &[],
        kind: ScopeKind::Module,
        around: None,
        piece: 0,
    };
    let members = module_members(alloc, listed.nets, around, module, &ports, pieces)?;
    Ok(ElabScope {
        title: plain_title(&module.name),
        kind: ScopeKind::Module,
        number: 0,
        base: 0,
        instances: 0,
        turns: 0,
        depth: 1,
        nets: listed.nets,
        text: members.text,
        told: members.told,
        ports,
        pieces: members.pieces,
        constants: values.constants,
        known: values.known,
        names: Names::new(alloc),
        within,
        home: 0,
        around: None,
        piece: 0,
        ends: Vec::new(alloc),
        blocks: Names::new(alloc),
    })
}

/// Lists the scopes of a source with a top, in design order.
fn open_top<'s>(
    alloc: Global,
    modules: &'s [Module],
    top: &[u8],
    list: &mut Vec<ElabScope<'s>>,
    plan: &mut Numbering,
) -> Result<(), ElabFault>
    requires empty { list.old.items ≡ [] }
    requires planned { IsPlanned list.old.items plan.old [] }
    requires outline { plan.old.outline.items ≡ [] }
    ensures { MatchResult result (λ _. Made modules.entry.now top.now list.new.items plan.new)
        (IsReported (HasOpeningFault modules.entry.now top.now)) }
{
    let names = list_modules(alloc, modules)?;
    let Some(listed) = names.find(top) else {
        return Err(module_fault(alloc, top, Reason::NoModule));
    };
    let scope = top_scope(alloc, listed)?;
    list_scope(alloc, scope, list, plan)?;
    open_inside(alloc, &names, DEEPEST as u32, 0, list, plan)
}

/// The name of the text that a scope of this title has in the one around it, where it is no turn of a loop.
fn text_name<'s>(title: PathName<'s>) -> Option<&'s [u8]>
    ensures { referred result ≡ text_name title.entry }
{
    if title.turn.is_some() {
        return None;
    }
    match title.name {
        PartName::Text(name) => Some(name),
        PartName::Unnamed { .. } => None,
    }
}

/// Tells the scope around the one at a place that it stands there.
fn index_one<'s>(place: usize, list: &mut [ElabScope<'s>]) -> Result<(), AllocError>
    requires { HasIndex list.old place }
    ensures { OnOk result (AddsBlock place list.old list.new) }
{
    let Some(around) = list[place].around else {
        return Ok(());
    };
    let Some(name) = text_name(list[place].title) else {
        return Ok(());
    };
    match list[around].blocks.bind(name, place) {
        Ok(()) => Ok(()),
        Err(_) => Err(AllocError),
    }
}

/// Tells each scope of a list the places of the scopes in it, by their names.
fn index_all<'s>(list: &mut [ElabScope<'s>]) -> Result<(), AllocError>
    requires places { (place : ℕ) → place < length list.old → HasIndex list.old place }
    requires none { All HasNoBlocks list.old }
    ensures { OnOk result (AreIndexed list.old list.new) }
{
    for place in 0..list.len() {
        index_one(place, list)?;
    }
    Ok(())
}

/// The scopes of a source with a top module of this name, in design order, with their signals and their outline (IEEE 1364-2005, clause 12):
/// the name's own bytes, without the backslash of an escaped one. A refusal has the printed path where its fault stands; where several stand,
/// it names any one of them; those of continuous assignments and of processes aren't looked for. `Memory` is answered only where a growth was
/// refused.
pub fn open_all<'s>(
    alloc: Global,
    modules: &'s [Module],
    top: &[u8],
) -> Result<Hierarchy<'s>, ElabFault>
    ensures opens { MatchResult result (OpensAll modules.entry.now top.now) (IsReported (HasOpeningFault modules.entry.now top.now)) }
    ensures seated { IfOk result (λ x. AreSeated x.scopes.items) }
{
    let mut scopes = Vec::new(alloc);
    let mut plan = Numbering::new(alloc);
    open_top(alloc, modules, top, &mut scopes, &mut plan)?;
    index_all(&mut scopes)?;
    Ok(Hierarchy {
        scopes,
        signals: plan.signals,
        outline: plan.outline,
    })
}
