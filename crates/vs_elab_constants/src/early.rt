//! What names of a scope are bound to before the values of its parameters are known.
ghost use Rattle.std.specs.Prelude.{◌≡◌, ℕ, List, Option, None, map, IfOk, OnOk};
ghost use Rattle.std.specs.List.{flat_map};
ghost use Rattle.std.specs.declared.vec.Vec.{Vec};
ghost use Rattle.std.specs.declared.alloc.Global.{Global};
ghost use Rattle.vs_syntax.specs.declared.tree.Connections.{Connections};
ghost use Rattle.vs_scopes.specs.Pieces.{NamedBlock as TheBlock, plain, content_of, block_name};
ghost use Rattle.vs_scopes.specs.Reads.{read_block, read_piece};
ghost use Rattle.vs_scopes.specs.vs_widths.specs.declared.bindings.Binding.TheVariants.{Genvar, Other};
ghost use Rattle.vs_scopes.specs.Ranges.{Sized};
ghost use Rattle.vs_scopes.specs.Declarations.{declared_as, declared_by_port, declared_by_item, declared_local, declared_locally, declared_in, declared_among, Use, use_of, uses_by_item, genvars_in, inner_names_in, inner_names_among, bound_to, unsized_of, signal_names, pending_names};
ghost use Rattle.vs_scopes.specs.scopes_passes.Answers.{borrowed};
ghost use Rattle.vs_scopes.specs.scopes_passes.Declared.{AddsNames};
ghost use Rattle.vs_scopes.specs.scopes_passes.Parts.{read_port, read_parameter};
ghost use Rattle.vs_elab_constants.specs.passes.Early.{bound_by, AreEarly};

use std::alloc::{AllocError, Global};
use vs_design::SignalKind;
use vs_scopes::vs_widths::{Binding, Meaning, Shape};
use vs_scopes::{
    Content, ModulePort, NamedBlock, Parameter, ScopePiece, add_first, branch_names, content_of,
    item_blocks,
};
use vs_syntax::{Declarator, Instance, Item, Local, LocalDeclaration, ModuleItem};
use vs_widths::Names;

/// What the names of signals are bound to.
#[derive(Clone, Copy)]
pub enum SignalNames {
    /// Signals of their kinds, as the text declares them.
    Kinds,
    /// No value, as the constant expressions of their own scope find them.
    Valueless,
}

/// The size and sign of a signal without a range.
const SCALAR: Shape = Shape {
    width: 1,
    signed: false,
};

/// What the text binds a signal's name to.
fn unsized_signal(kind: SignalKind) -> Binding
    ensures { result ≡ unsized_of kind }
{
    let meaning = Meaning {
        kind,
        shape: SCALAR,
        bits: None,
        words: None,
        count: 1,
    };
    Binding::Signal(meaning, 0)
}

/// What the name of a signal of this kind is bound to.
fn signal_binding(signals: SignalNames, kind: SignalKind) -> Binding
    ensures { result ≡ bound_by signals kind }
{
    match signals {
        SignalNames::Kinds => unsized_signal(kind),
        SignalNames::Valueless => Binding::Pending,
    }
}

/// Adds names of scopes.
fn add_names<'s>(list: &[&'s [u8]], names: &mut Names<'s, Binding>) -> Result<(), AllocError>
    ensures { OnOk result (AddsNames names.old names.new (bound_to Other (borrowed list.now))) }
{
    for name in list {
        add_first(*name, Binding::Other, names)?;
    }
    Ok(())
}

/// Adds the names of parameters.
fn add_parameters<'s>(
    parameters: &[Parameter<'s>],
    names: &mut Names<'s, Binding>,
) -> Result<(), AllocError>
    ensures { OnOk result (AddsNames names.old names.new
        (pending_names (map read_parameter parameters.now))) }
{
    for parameter in parameters {
        add_first(parameter.name, Binding::Pending, names)?;
    }
    Ok(())
}

/// Adds the names of ports.
fn add_ports<'s>(
    signals: SignalNames,
    ports: &[ModulePort<'s>],
    names: &mut Names<'s, Binding>,
) -> Result<(), AllocError>
    ensures { OnOk result (AddsNames names.old names.new
        (signal_names (bound_by signals) (map (declared_by_port (λ n. None)) (map read_port ports.now)))) }
{
    for port in ports {
        add_first(port.name, signal_binding(signals, port.kind), names)?;
    }
    Ok(())
}

/// Adds the names of a declaration.
fn add_declarators<'s>(
    signals: SignalNames,
    kind: SignalKind,
    declarators: &'s [Declarator],
    names: &mut Names<'s, Binding>,
) -> Result<(), AllocError>
    ensures { (z : Sized) → OnOk result (AddsNames names.old names.new
        (signal_names (bound_by signals) (declared_as (λ n. None) kind z declarators.entry.now))) }
{
    for declarator in declarators {
        add_first(&declarator.name, signal_binding(signals, kind), names)?;
    }
    Ok(())
}

/// Adds the names of a declaration of a named block.
fn add_locals<'s>(
    signals: SignalNames,
    kind: SignalKind,
    locals: &'s [Local],
    names: &mut Names<'s, Binding>,
) -> Result<(), AllocError>
    ensures { (z : Sized) → OnOk result (AddsNames names.old names.new
        (signal_names (bound_by signals) (map (declared_local (λ n. None) kind z) locals.entry.now))) }
{
    for one in locals {
        add_first(&one.name, signal_binding(signals, kind), names)?;
    }
    Ok(())
}

/// Adds the names of the signals that an item declares.
fn add_item_signals<'s>(
    signals: SignalNames,
    item: &'s Item,
    names: &mut Names<'s, Binding>,
) -> Result<(), AllocError>
    ensures { OnOk result (AddsNames names.old names.new
        (signal_names (bound_by signals) (declared_by_item (λ n. None) item.entry.now))) }
{
    match item {
        Item::Wire(_, list) => add_declarators(signals, SignalKind::Wire, list, names),
        Item::Reg(_, list) => add_declarators(signals, SignalKind::Reg, list, names),
        Item::Integer(list) => add_declarators(signals, SignalKind::Integer, list, names),
        _ => Ok(()),
    }
}

/// Adds the names that a declaration of a named block declares (IEEE 1364-2005, clause 9.8.3).
fn add_local_signals<'s>(
    signals: SignalNames,
    declaration: &'s LocalDeclaration,
    names: &mut Names<'s, Binding>,
) -> Result<(), AllocError>
    ensures { OnOk result (AddsNames names.old names.new
        (signal_names (bound_by signals) (declared_locally (λ n. None) declaration.entry.now))) }
{
    match declaration {
        LocalDeclaration::Reg(_, list) => add_locals(signals, SignalKind::Reg, list, names),
        LocalDeclaration::Integer(list) => add_locals(signals, SignalKind::Integer, list, names),
    }
}

/// Adds the names of the signals that a piece declares.
fn add_signals<'s>(
    signals: SignalNames,
    piece: ScopePiece<'s>,
    names: &mut Names<'s, Binding>,
) -> Result<(), AllocError>
    ensures { OnOk result (AddsNames names.old names.new
        (signal_names (bound_by signals) (declared_in (λ n. None) (read_piece piece.entry)))) }
{
    match piece {
        ScopePiece::Plain(item) => add_item_signals(signals, item, names),
        ScopePiece::Local(declaration) => add_local_signals(signals, declaration, names),
        ScopePiece::Net(name) => add_first(name, signal_binding(signals, SignalKind::Wire), names),
        _ => Ok(()),
    }
}

/// Adds the names of the signals that pieces declare.
fn add_all_signals<'s>(
    signals: SignalNames,
    pieces: &[ScopePiece<'s>],
    names: &mut Names<'s, Binding>,
) -> Result<(), AllocError>
    ensures { OnOk result (AddsNames names.old names.new
        (signal_names (bound_by signals) (declared_among (λ n. None) (map read_piece pieces.now)))) }
{
    for piece in pieces {
        add_signals(signals, *piece, names)?;
    }
    Ok(())
}

/// Adds the names of genvars.
fn add_genvar_names<'s>(
    list: &'s [Vec<u8>],
    names: &mut Names<'s, Binding>,
) -> Result<(), AllocError>
    ensures { OnOk result (AddsNames names.old names.new
        (bound_to Genvar (map (λ (n : Vec ℕ Global). n.items) list.entry.now))) }
{
    for name in list {
        add_first(name, Binding::Genvar, names)?;
    }
    Ok(())
}

/// Adds the genvars that a piece declares (IEEE 1364-2005, clause 12.4.1).
fn add_genvars<'s>(piece: ScopePiece<'s>, names: &mut Names<'s, Binding>) -> Result<(), AllocError>
    ensures { OnOk result (AddsNames names.old names.new
        (bound_to Genvar (genvars_in (read_piece piece.entry)))) }
{
    match piece {
        ScopePiece::Plain(Item::Genvar(list)) => add_genvar_names(list, names),
        _ => Ok(()),
    }
}

/// Adds the genvars that pieces declare.
fn add_all_genvars<'s>(
    pieces: &[ScopePiece<'s>],
    names: &mut Names<'s, Binding>,
) -> Result<(), AllocError>
    ensures { OnOk result (AddsNames names.old names.new
        (bound_to Genvar (flat_map genvars_in (map read_piece pieces.now)))) }
{
    for piece in pieces {
        add_genvars(*piece, names)?;
    }
    Ok(())
}

/// Adds the names of instances.
fn add_instances<'s>(
    instances: &'s [Instance],
    names: &mut Names<'s, Binding>,
) -> Result<(), AllocError>
    ensures { (n : List ℕ) → (o : Option Connections) → OnOk result (AddsNames names.old names.new
        (bound_to Other (map (λ (u : Use). u.name) (map (use_of n o) instances.entry.now)))) }
{
    for instance in instances {
        add_first(&instance.name, Binding::Other, names)?;
    }
    Ok(())
}

/// Adds the names of the instances of an item.
fn add_uses<'s>(item: &'s Item, names: &mut Names<'s, Binding>) -> Result<(), AllocError>
    ensures { OnOk result (AddsNames names.old names.new
        (bound_to Other (map (λ (u : Use). u.name) (uses_by_item item.entry.now)))) }
{
    match item {
        Item::Instances(_, _, instances) => add_instances(instances, names),
        _ => Ok(()),
    }
}

/// Adds the names of named blocks.
fn add_blocks<'s>(
    blocks: &[NamedBlock<'s>],
    names: &mut Names<'s, Binding>,
) -> Result<(), AllocError>
    ensures { OnOk result (AddsNames names.old names.new
        (bound_to Other (map (λ (b : TheBlock). b.name) (map read_block blocks.now)))) }
{
    for block in blocks {
        add_first(block.name, Binding::Other, names)?;
    }
    Ok(())
}

/// Adds the names of the instances of an item, and of the outermost named blocks of the process that it is.
fn add_item_inner<'s>(
    alloc: Global,
    item: &'s Item,
    names: &mut Names<'s, Binding>,
) -> Result<(), AllocError>
    ensures { OnOk result (AddsNames names.old names.new
        (bound_to Other (inner_names_in (plain item.entry.now)))) }
{
    add_uses(item, names)?;
    let blocks = item_blocks(alloc, item)?;
    add_blocks(&blocks, names)
}

/// Adds the name of the block that a turn of a loop generates, where it has one (IEEE 1364-2005, clause 12.4.1).
fn add_generated<'s>(
    inner: &'s ModuleItem,
    names: &mut Names<'s, Binding>,
) -> Result<(), AllocError>
    ensures { OnOk result (AddsNames names.old names.new
        (bound_to Other (block_name (content_of inner.entry.now)))) }
{
    match content_of(inner) {
        Content::Nothing => Ok(()),
        Content::Block(None, _) => Ok(()),
        Content::Block(Some(name), _) => add_first(name, Binding::Other, names),
    }
}

/// Adds the names of the scopes that a piece may open (IEEE 1364-2005, clauses 9.8.3, 12.1.2 and 12.4.3).
fn add_inner<'s>(
    alloc: Global,
    piece: ScopePiece<'s>,
    names: &mut Names<'s, Binding>,
) -> Result<(), AllocError>
    ensures { OnOk result (AddsNames names.old names.new
        (bound_to Other (inner_names_in (read_piece piece.entry)))) }
{
    match piece {
        ScopePiece::Plain(item) => add_item_inner(alloc, item, names),
        ScopePiece::Loop(_, inner) => add_generated(inner, names),
        ScopePiece::Choice(_, first, other) => {
            let list = branch_names(alloc, first, other)?;
            add_names(&list, names)?;
            Ok(())
        }
        ScopePiece::Inside(block) => add_first(block.name, Binding::Other, names),
        ScopePiece::Local(_) | ScopePiece::Net(_) => Ok(()),
    }
}

/// Adds the names of the scopes that pieces may open.
fn add_all_inner<'s>(
    alloc: Global,
    pieces: &[ScopePiece<'s>],
    names: &mut Names<'s, Binding>,
) -> Result<(), AllocError>
    ensures { OnOk result (AddsNames names.old names.new
        (bound_to Other (inner_names_among (map read_piece pieces.now)))) }
{
    for piece in pieces {
        add_inner(alloc, *piece, names)?;
    }
    Ok(())
}

/// What names of a scope are bound to before the value of a parameter is known (IEEE 1364-2005, clause 12.7); of equal ones the first.
pub fn early_names<'s>(
    alloc: Global,
    signals: SignalNames,
    parameters: &[Parameter<'s>],
    ports: &[ModulePort<'s>],
    pieces: &[ScopePiece<'s>],
) -> Result<Names<'s, Binding>, AllocError>
    ensures { IfOk result (AreEarly (bound_by signals) (map read_parameter parameters.now) (map read_port ports.now)
        (map read_piece pieces.now)) }
{
    let mut names = Names::new(alloc);
    add_parameters(parameters, &mut names)?;
    add_ports(signals, ports, &mut names)?;
    add_all_signals(signals, pieces, &mut names)?;
    add_all_genvars(pieces, &mut names)?;
    add_all_inner(alloc, pieces, &mut names)?;
    Ok(names)
}
