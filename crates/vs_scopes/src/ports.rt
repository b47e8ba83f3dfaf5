//! The ports of a module.
ghost use Rattle.std.specs.Prelude.{◌≡◌, ℕ, List, map, Some, None, IfOk};
ghost use Rattle.vs_scopes.specs.Pieces.{Piece as GivenPiece};
ghost use Rattle.vs_scopes.specs.Reads.{read_piece};
ghost use Rattle.vs_scopes.specs.Ports.{kind_of_port, port_as, ports_from, port_said, kind_said, is_name_list, port_of_items, port_by_items, ports_of_header};
ghost use Rattle.vs_scopes.specs.scopes_passes.Parts.{read_end, read_port};
ghost use Rattle.vs_scopes.specs.scopes_passes.Declared.{read_said, ArePortForms, AreKinds};

use crate::declared::{KindSaid, kinds_said, port_forms};
use crate::vs_widths::Names;
use crate::{ScopePiece, said};
use std::alloc::{AllocError, Global};
use vs_design::SignalKind;
use vs_syntax::{Direction, Expr, Module, Port, PortForm, PortKind, Range};

/// What says which way a port goes (IEEE 1364-2005, clauses 12.3.3 and 12.3.4).
#[derive(Clone, Copy)]
pub enum PortSource {
    /// The header.
    Header,
    /// An item, which says what it is declared as too, or leaves it a net.
    Item,
    /// An item; another one says what it is declared as.
    Items,
    /// Nothing.
    Nothing,
}

/// A port of a module (IEEE 1364-2005, clause 12.3).
#[derive(Clone, Copy)]
pub struct ModulePort<'s> {
    /// Its direction.
    pub direction: Direction,
    /// What it is declared as.
    pub kind: SignalKind,
    /// Whether it is signed.
    pub signed: bool,
    /// Its range, where it has one.
    pub range: Option<&'s Range>,
    /// The bytes of its name.
    pub name: &'s [u8],
    /// The value in its declaration, where it has one.
    pub value: Option<&'s Expr>,
    /// What says so.
    pub source: PortSource,
}

/// What a port is declared as: a net where the text doesn't say (IEEE 1364-2005, clause 12.3.3).
fn port_kind(kind: Option<PortKind>) -> SignalKind
    ensures { result ≡ kind_of_port kind }
{
    match kind {
        None => SignalKind::Wire,
        Some(PortKind::Wire) => SignalKind::Wire,
        Some(PortKind::Reg) => SignalKind::Reg,
        Some(PortKind::Integer) => SignalKind::Integer,
    }
}

/// A port of which nothing says which way it goes.
fn unsaid<'s>(name: &'s [u8], value: Option<&'s Expr>) -> ModulePort<'s>
    ensures { read_port result ≡ port_as None name.entry.now (read_end value.entry) }
{
    ModulePort {
        direction: Direction::Input,
        kind: SignalKind::Wire,
        signed: false,
        range: None,
        name,
        value,
        source: PortSource::Nothing,
    }
}

/// A port by what is said of it in the header; the grammar says something of the first one (IEEE 1364-2005, clause 12.3.4).
fn described<'s>(
    form: Option<&'s PortForm>,
    name: &'s [u8],
    value: Option<&'s Expr>,
) -> ModulePort<'s>
    ensures { read_port result ≡ port_as (read_end form.entry) name.entry.now (read_end value.entry) }
{
    match form {
        Some(form) => ModulePort {
            direction: form.direction,
            kind: port_kind(form.kind),
            signed: form.form.signed,
            range: form.form.range.as_ref(),
            name,
            value,
            source: PortSource::Header,
        },
        None => unsaid(name, value),
    }
}

/// The ports of a header that declares them (IEEE 1364-2005, clause 12.3.4).
fn header_ports<'s>(alloc: Global, list: &'s [Port]) -> Result<Vec<ModulePort<'s>>, AllocError>
    ensures { IfOk result (λ v. map read_port v.items ≡ ports_from None list.entry.now) }
{
    let mut ports = Vec::new(alloc);
    let mut before = None;
    for port in list {
        before = said(before, &port.form);
        ports.push(described(before, &port.name, port.value.as_ref()))?;
    }
    Ok(ports)
}

/// A port that an item declares, and of which another one may say what it is declared as (IEEE 1364-2005, clause 12.3.3).
fn declared_port<'s>(
    form: &'s PortForm,
    name: &'s [u8],
    said: Option<KindSaid<'s>>,
) -> ModulePort<'s>
    ensures { read_port result ≡ port_of_items (Some form.entry.now) name.entry.now (read_said said.entry) }
{
    let range = form.form.range.as_ref();
    let (kind, signed, source) = match (form.kind, said) {
        (Some(kind), _) => (port_kind(Some(kind)), form.form.signed, PortSource::Item),
        (None, Some(x)) => (x.kind, form.form.signed || x.signed, PortSource::Items),
        (None, None) => (SignalKind::Wire, form.form.signed, PortSource::Item),
    };
    ModulePort {
        direction: form.direction,
        kind,
        signed,
        range,
        name,
        value: None,
        source,
    }
}

/// A port of which the header has the name alone (IEEE 1364-2005, clause 12.3.3).
fn port_by_name<'s>(
    forms: &Names<'s, &'s PortForm>,
    kinds: &Names<'s, KindSaid<'s>>,
    name: &'s [u8],
) -> ModulePort<'s>
    ensures { (ps : List GivenPiece) → ArePortForms ps forms.now → AreKinds ps kinds.now
        → read_port result ≡ port_of_items (port_said ps name.entry.now) name.entry.now (kind_said ps name.entry.now) }
{
    match forms.find(name) {
        Some(form) => declared_port(form, name, kinds.find(name)),
        None => unsaid(name, None),
    }
}

/// The ports of a header of names alone.
fn ports_by_name<'s>(
    alloc: Global,
    list: &'s [Port],
    pieces: &[ScopePiece<'s>],
) -> Result<Vec<ModulePort<'s>>, AllocError>
    ensures { IfOk result (λ v. map read_port v.items
        ≡ map (port_by_items (map read_piece pieces.now)) list.entry.now) }
{
    let forms = port_forms(alloc, pieces)?;
    let kinds = kinds_said(alloc, pieces)?;
    let mut ports = Vec::new(alloc);
    for port in list {
        ports.push(port_by_name(&forms, &kinds, &port.name))?;
    }
    Ok(ports)
}

/// Whether a header's list is one of names alone: nothing is said of the first (IEEE 1364-2005, clause 12.3.2).
fn is_name_list(list: &[Port]) -> bool
    ensures { result ≡ is_name_list list.now }
{
    match list.first() {
        Some(port) => port.form.is_none(),
        None => false,
    }
}

/// The ports of a module of these pieces, in their order (IEEE 1364-2005, clauses 12.3.1 to 12.3.4).
pub fn module_ports<'s>(
    alloc: Global,
    module: &'s Module,
    pieces: &[ScopePiece<'s>],
) -> Result<Vec<ModulePort<'s>>, AllocError>
    ensures { IfOk result (λ v. map read_port v.items
        ≡ ports_of_header (map read_piece pieces.now) «module».entry.now.ports) }
{
    let Some(list) = &module.ports else {
        return Ok(Vec::new(alloc));
    };
    if is_name_list(list) {
        ports_by_name(alloc, list, pieces)
    } else {
        header_ports(alloc, list)
    }
}
