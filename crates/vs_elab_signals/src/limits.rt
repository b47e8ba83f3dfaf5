//! The limits of a design, and what a scope may not have.
ghost use Rattle.std.specs.Prelude.{◌≡◌, map};
ghost use Rattle.std.specs.List.{list_any};
ghost use Rattle.vs_elab_signals.specs.vs_scopes.specs.Reads.{read_piece};
ghost use Rattle.vs_scopes.specs.Ports.{is_wrong_as, is_unsaid, is_wrong_port};
ghost use Rattle.vs_scopes.specs.Scopes.{is_parameter};
ghost use Rattle.vs_scopes.specs.scopes_passes.Parts.{read_port, read_source};
ghost use Rattle.vs_elab_signals.specs.signal_passes.Sites.{passes_limit};

use crate::vs_scopes::ScopePiece;
use vs_design::{ScopeKind, SignalKind};
use vs_scopes::{ModulePort, PortSource};
use vs_syntax::{Direction, Item};

/// A design has at most this many instances beside its top.
const INSTANCE_LIMIT: usize = 16384;

/// A design has at most this many levels of instances, the top among them.
pub const LEVELS: usize = 64;

/// Scopes stand at most so deep in one another: in each instance there are at most 256 blocks, as a source is nested no deeper.
pub const DEEPEST: usize = 16448;

/// Whether a scope of this kind, with so many instances before it and so deep in others, passes a limit.
pub fn passes_limit(kind: ScopeKind, instances: usize, deep: usize) -> bool
    ensures { result ≡ passes_limit kind instances deep }
{
    if deep > DEEPEST {
        return true;
    }
    match kind {
        ScopeKind::Module => instances > INSTANCE_LIMIT,
        ScopeKind::Begin => false,
    }
}

/// Whether a port is an input and a variable (IEEE 1364-2005, clause 12.3.3).
fn is_driven_variable(direction: Direction, kind: SignalKind) -> bool
    ensures { result ≡ is_wrong_as direction kind }
{
    match direction {
        Direction::Input => match kind {
            SignalKind::Wire => false,
            SignalKind::Reg => true,
            SignalKind::Integer => true,
        },
        Direction::Output => false,
    }
}

/// Whether nothing says which way a port goes.
fn is_unsaid(source: PortSource) -> bool
    ensures { result ≡ is_unsaid (read_source source) }
{
    match source {
        PortSource::Nothing => true,
        PortSource::Header => false,
        PortSource::Item => false,
        PortSource::Items => false,
    }
}

/// Whether a port is none that a module can have (IEEE 1364-2005, clause 12.3.3).
fn is_wrong(port: &ModulePort) -> bool
    ensures { result ≡ is_wrong_port (read_port port.now) }
{
    is_driven_variable(port.direction, port.kind) || is_unsaid(port.source)
}

/// Whether one of the ports is none that a module can have.
pub fn has_wrong_port(ports: &[ModulePort]) -> bool
    ensures { result ≡ list_any (λ p. is_wrong_port (read_port p)) ports.now }
{
    ports.iter().any(|port| is_wrong(port))
}

/// Whether a piece declares a parameter that might be overridden.
fn is_parameter(piece: ScopePiece) -> bool
    ensures { result ≡ is_parameter (read_piece piece.entry) }
{
    match piece {
        ScopePiece::Plain(Item::Parameter(_, _)) => true,
        _ => false,
    }
}

/// Whether pieces declare a parameter that might be overridden.
pub fn has_parameter(pieces: &[ScopePiece]) -> bool
    ensures { result ≡ list_any is_parameter (map read_piece pieces.now) }
{
    for piece in pieces {
        if is_parameter(*piece) {
            return true;
        }
    }
    false
}
