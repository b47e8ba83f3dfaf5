//! What a scope declares, as signals of a design.
ghost use Rattle.std.specs.Prelude.{◌≡◌, ◌<◌, ◌∷◌, [], Option, length, map, IfOk};
ghost use Rattle.vs_syntax.specs.declared.tree.Range.{Range};
ghost use Rattle.vs_elab_signals.specs.vs_scopes.specs.Pieces.{plain, local, net};
ghost use Rattle.vs_elab_signals.specs.vs_scopes.specs.Reads.{read_piece};
ghost use Rattle.vs_scopes.specs.Ranges.{Sized, Words, words_as};
ghost use Rattle.vs_scopes.specs.Declarations.{declared_as, declared_local, declared_by_port, declared_in, declared_among, selectable};
ghost use Rattle.vs_scopes.specs.Scopes.{Scope};
ghost use Rattle.vs_scopes.specs.scopes_passes.Answers.{Elaborates, Grows};
ghost use Rattle.vs_scopes.specs.scopes_passes.Names.{read_path};
ghost use Rattle.vs_scopes.specs.scopes_passes.Parts.{read_port};
ghost use Rattle.vs_scopes.specs.scopes_passes.Sizes.{width_faults, IsSize, AreWords};
ghost use Rattle.vs_elab_signals.specs.Outlines.{declared, signal_of};
ghost use Rattle.vs_elab_signals.specs.signal_passes.Declaring.{IsAt, declared_so, Keeps, KeepsNot, DeclaresPorts, DeclaresPortsNot, Declares, DeclaresNot};

use crate::naming::declare_once;
use crate::opened::Numbering;
use crate::take_one;
use crate::telling::{fault_at, member_fault, part_fault};
use crate::vs_scopes::ScopePiece;
use crate::vs_widths::{Levels, Names};
use std::alloc::{AllocError, Global};
use vs_design::{Bounds, Entry, Signal, SignalKind};
use vs_scopes::vs_widths::{Binding, Meaning, Shape};
use vs_scopes::{
    BodyFault, ElabFault, INTEGER, ModulePort, PathName, Reason, Size, WordCount, declared_size,
    declared_words, port_size, print_member, print_name,
};
use vs_syntax::{Declarator, Item, Local, LocalDeclaration};

/// A design has at most this many signals.
const SIGNAL_LIMIT: usize = 65536;

/// The size and sign of an implicit net (IEEE 1364-2005, clause 4.5).
const SCALAR: Size = Size {
    shape: Shape {
        width: 1,
        signed: false,
    },
    bounds: None,
};

/// The path of a scope, and what names are bound to in its constant expressions.
#[derive(Clone, Copy)]
pub struct Site<'a, 's, 'o> {
    /// The path.
    pub path: &'a [PathName<'s>],
    /// The names.
    pub known: &'a Levels<'s, 'o>,
}

/// The names of a scope while they are declared.
#[derive(Drop)]
pub struct Declared<'s> {
    /// What they are bound to.
    pub names: Names<'s, Binding>,
    /// How often each name of a port that another item declares too is still to come.
    pub joined: Names<'s, usize>,
}

/// The range by which bits of a signal are selected: that of an `integer` is `[31:0]` (IEEE 1364-2005, clause 4.8).
fn selectable_range(kind: SignalKind, range: Option<Bounds>) -> Option<Bounds>
    ensures { result ≡ selectable kind range }
{
    match kind {
        SignalKind::Wire => range,
        SignalKind::Reg => range,
        SignalKind::Integer => match range {
            Some(range) => Some(range),
            None => Some(Bounds { left: 31, right: 0 }),
        },
    }
}

/// The signal of a name.
fn signal(
    alloc: Global,
    path: &[PathName],
    kind: SignalKind,
    size: Size,
    words: WordCount,
    name: &[u8],
) -> Result<Signal, AllocError>
    requires { 0 < length path.now }
    ensures { (s : Scope) (z : Sized) (w : Words) → read_path path.now ≡ s.path → IsSize z size → AreWords w words → IfOk result
        (λ y. declared y ≡ signal_of s (record { kind = kind; size = z; words = w; name = name.now })) }
{
    let printed = print_name(alloc, name)?;
    let path = print_member(alloc, path, name)?;
    Ok(Signal {
        name: printed,
        path,
        kind,
        width: size.shape.width,
        signed: size.shape.signed,
        range: size.bounds,
        words: words.bounds,
        count: words.count,
    })
}

/// Gives a name of a scope its signal.
fn add_signal<'s>(
    alloc: Global,
    path: &[PathName],
    kind: SignalKind,
    size: Size,
    words: WordCount,
    name: &'s [u8],
    names: &mut Names<'s, Binding>,
    plan: &mut Numbering,
) -> Result<(), ElabFault>
    requires { 0 < length path.now }
    ensures { (s : Scope) (z : Sized) (w : Words) → read_path path.now ≡ s.path → IsSize z size → AreWords w words →
        Grows (Keeps s names.old plan.old) (Keeps s names.new plan.new) (KeepsNot s)
        (record { kind = kind; size = z; words = w; name = name.entry.now } ∷ []) result }
{
    let number = plan.signals.len();
    let meaning = Meaning {
        kind,
        shape: size.shape,
        bits: selectable_range(kind, size.bounds),
        words: words.bounds,
        count: words.count,
    };
    if !declare_once(names, name, Binding::Signal(meaning, number))? {
        return Err(member_fault(alloc, path, name, Reason::DeclaredTwice));
    }
    if number >= SIGNAL_LIMIT {
        return Err(fault_at(alloc, path, Reason::Limit));
    }
    let signal = signal(alloc, path, kind, size, words, name)?;
    plan.signals.push(signal)?;
    plan.outline.push(Entry::Declare(number))?;
    Ok(())
}

/// Gives a name of a scope its signal, but not where it declares a port once more.
fn declare_name<'s>(
    alloc: Global,
    site: Site,
    kind: SignalKind,
    size: &Result<Size, BodyFault>,
    words: &Result<WordCount, BodyFault>,
    name: &'s [u8],
    to: &mut Declared<'s>,
    plan: &mut Numbering,
) -> Result<(), ElabFault>
    requires { 0 < length site.path.now }
    ensures { (s : Scope) (z : Sized) (range : Option Range) → IsAt s site.entry → Elaborates (width_faults z.faults) (IsSize z) size.now →
        Elaborates (words_as s.known kind range).faults (AreWords (words_as s.known kind range)) words.now →
        Grows (Declares s to.old plan.old) (Declares s to.new plan.new) (DeclaresNot s)
        (declared_so s.known kind z range name.entry.now ∷ []) result }
{
    let size = match size {
        Ok(size) => *size,
        Err(fault) => return Err(part_fault(alloc, site.path, *fault)),
    };
    let words = match words {
        Ok(words) => *words,
        Err(fault) => return Err(part_fault(alloc, site.path, *fault)),
    };
    if take_one(name, &mut to.joined)? {
        return Ok(());
    }
    add_signal(
        alloc,
        site.path,
        kind,
        size,
        words,
        name,
        &mut to.names,
        plan,
    )
}

/// Gives the names of a declaration their signals.
fn declare_names<'s>(
    alloc: Global,
    site: Site,
    kind: SignalKind,
    size: &Result<Size, BodyFault>,
    declarators: &'s [Declarator],
    to: &mut Declared<'s>,
    plan: &mut Numbering,
) -> Result<(), ElabFault>
    requires { 0 < length site.path.now }
    ensures { (s : Scope) (z : Sized) → IsAt s site.entry → Elaborates (width_faults z.faults) (IsSize z) size.now →
        Grows (Declares s to.old plan.old) (Declares s to.new plan.new) (DeclaresNot s)
        (declared_as s.known kind z declarators.entry.now) result }
{
    for declarator in declarators {
        let words = declared_words(alloc, site.known, kind, &declarator.words);
        declare_name(alloc, site, kind, size, &words, &declarator.name, to, plan)?;
    }
    Ok(())
}

/// Gives the names of a declaration of a named block their signals.
fn declare_locals<'s>(
    alloc: Global,
    site: Site,
    kind: SignalKind,
    size: &Result<Size, BodyFault>,
    locals: &'s [Local],
    to: &mut Declared<'s>,
    plan: &mut Numbering,
) -> Result<(), ElabFault>
    requires { 0 < length site.path.now }
    ensures { (s : Scope) (z : Sized) → IsAt s site.entry → Elaborates (width_faults z.faults) (IsSize z) size.now →
        Grows (Declares s to.old plan.old) (Declares s to.new plan.new) (DeclaresNot s)
        (map (declared_local s.known kind z) locals.entry.now) result }
{
    for one in locals {
        let words = declared_words(alloc, site.known, kind, &one.words);
        declare_name(alloc, site, kind, size, &words, &one.name, to, plan)?;
    }
    Ok(())
}

/// Gives the names of an item their signals.
fn declare_item<'s>(
    alloc: Global,
    site: Site,
    item: &'s Item,
    to: &mut Declared<'s>,
    plan: &mut Numbering,
) -> Result<(), ElabFault>
    requires { 0 < length site.path.now }
    ensures { (s : Scope) → IsAt s site.entry → Grows (Declares s to.old plan.old) (Declares s to.new plan.new) (DeclaresNot s)
        (declared_in s.known (plain item.entry.now)) result }
{
    match item {
        Item::Wire(form, list) => {
            let size = declared_size(alloc, site.known, form);
            declare_names(alloc, site, SignalKind::Wire, &size, list, to, plan)
        }
        Item::Reg(form, list) => {
            let size = declared_size(alloc, site.known, form);
            declare_names(alloc, site, SignalKind::Reg, &size, list, to, plan)
        }
        Item::Integer(list) => {
            let size = Ok(INTEGER);
            declare_names(alloc, site, SignalKind::Integer, &size, list, to, plan)
        }
        _ => Ok(()),
    }
}

/// Gives the names of a declaration of a named block their signals (IEEE 1364-2005, clause 9.8.3).
fn declare_locally<'s>(
    alloc: Global,
    site: Site,
    declaration: &'s LocalDeclaration,
    to: &mut Declared<'s>,
    plan: &mut Numbering,
) -> Result<(), ElabFault>
    requires { 0 < length site.path.now }
    ensures { (s : Scope) → IsAt s site.entry → Grows (Declares s to.old plan.old) (Declares s to.new plan.new) (DeclaresNot s)
        (declared_in s.known (local declaration.entry.now)) result }
{
    match declaration {
        LocalDeclaration::Reg(form, list) => {
            let size = declared_size(alloc, site.known, form);
            declare_locals(alloc, site, SignalKind::Reg, &size, list, to, plan)
        }
        LocalDeclaration::Integer(list) => {
            let size = Ok(INTEGER);
            declare_locals(alloc, site, SignalKind::Integer, &size, list, to, plan)
        }
    }
}

/// Gives an implicit net its signal, which is a scalar (IEEE 1364-2005, clause 4.5).
fn declare_net<'s>(
    alloc: Global,
    site: Site,
    name: &'s [u8],
    to: &mut Declared<'s>,
    plan: &mut Numbering,
) -> Result<(), ElabFault>
    requires { 0 < length site.path.now }
    ensures { (s : Scope) → IsAt s site.entry → Grows (Declares s to.old plan.old) (Declares s to.new plan.new) (DeclaresNot s)
        (declared_in s.known (net name.entry.now)) result }
{
    let size = Ok(SCALAR);
    let words = Ok(WordCount {
        bounds: None,
        count: 1,
    });
    declare_name(alloc, site, SignalKind::Wire, &size, &words, name, to, plan)
}

/// Gives the names of a piece their signals.
fn declare_piece<'s>(
    alloc: Global,
    site: Site,
    piece: ScopePiece<'s>,
    to: &mut Declared<'s>,
    plan: &mut Numbering,
) -> Result<(), ElabFault>
    requires { 0 < length site.path.now }
    ensures { (s : Scope) → IsAt s site.entry → Grows (Declares s to.old plan.old) (Declares s to.new plan.new) (DeclaresNot s)
        (declared_in s.known (read_piece piece.entry)) result }
{
    match piece {
        ScopePiece::Plain(item) => declare_item(alloc, site, item, to, plan),
        ScopePiece::Local(declaration) => declare_locally(alloc, site, declaration, to, plan),
        ScopePiece::Net(name) => declare_net(alloc, site, name, to, plan),
        _ => Ok(()),
    }
}

/// Gives the names of pieces their signals, but not where one declares a port once more.
pub fn declare_pieces<'s>(
    alloc: Global,
    site: Site,
    pieces: &[ScopePiece<'s>],
    to: &mut Declared<'s>,
    plan: &mut Numbering,
) -> Result<(), ElabFault>
    requires { 0 < length site.path.now }
    ensures { (s : Scope) → IsAt s site.entry → Grows (Declares s to.old plan.old) (Declares s to.new plan.new) (DeclaresNot s)
        (declared_among s.known (map read_piece pieces.now)) result }
{
    for piece in pieces {
        declare_piece(alloc, site, *piece, to, plan)?;
    }
    Ok(())
}

/// Gives a port of a scope its signal.
fn declare_port<'s>(
    alloc: Global,
    site: Site,
    port: &ModulePort<'s>,
    names: &mut Names<'s, Binding>,
    plan: &mut Numbering,
) -> Result<(), ElabFault>
    requires { 0 < length site.path.now }
    ensures { (s : Scope) → IsAt s site.entry → Grows (DeclaresPorts s names.old plan.old) (DeclaresPorts s names.new plan.new)
        (DeclaresPortsNot s) (declared_by_port s.known (read_port port.now) ∷ []) result }
{
    let size = match port_size(alloc, site.known, port) {
        Ok(size) => size,
        Err(fault) => return Err(part_fault(alloc, site.path, fault)),
    };
    let words = WordCount {
        bounds: None,
        count: 1,
    };
    add_signal(
        alloc, site.path, port.kind, size, words, port.name, names, plan,
    )
}

/// Gives the ports of a scope their signals (IEEE 1364-2005, clause 12.3.3).
pub fn declare_ports<'s>(
    alloc: Global,
    site: Site,
    ports: &[ModulePort<'s>],
    names: &mut Names<'s, Binding>,
    plan: &mut Numbering,
) -> Result<(), ElabFault>
    requires { 0 < length site.path.now }
    ensures { (s : Scope) → IsAt s site.entry → Grows (DeclaresPorts s names.old plan.old) (DeclaresPorts s names.new plan.new)
        (DeclaresPortsNot s) (map (declared_by_port s.known) (map read_port ports.now)) result }
{
    for port in ports {
        declare_port(alloc, site, port, names, plan)?;
    }
    Ok(())
}
