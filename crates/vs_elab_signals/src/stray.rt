//! Ports that the header of a module doesn't have.
ghost use Rattle.std.specs.Prelude.{◌≡◌, ℕ, List, not, map, IfOk};
ghost use Rattle.std.specs.List.{list_any};
ghost use Rattle.std.specs.Str.{bytes_eq};
ghost use Rattle.std.specs.declared.vec.Vec.{Vec};
ghost use Rattle.std.specs.declared.alloc.Global.{Global};
ghost use Rattle.vs_scopes.specs.Pieces.{plain};
ghost use Rattle.vs_scopes.specs.Reads.{read_piece};
ghost use Rattle.vs_scopes.specs.Ports.{port_names, port_names_in, has_stray_port};
ghost use Rattle.vs_scopes.specs.scopes_passes.Parts.{read_port, IsSet};
ghost use Rattle.vs_elab_signals.specs.passes.Strays.{has_other_name};

use std::alloc::{AllocError, Global};
use vs_scopes::{ModulePort, ScopePiece};
use vs_syntax::Item;
use vs_widths::Names;

/// The names of ports, to look one up among them.
fn port_set<'s>(alloc: Global, ports: &[ModulePort<'s>]) -> Result<Names<'s, bool>, AllocError>
    ensures { IfOk result (IsSet (port_names (map read_port ports.now))) }
{
    let mut set = Names::new(alloc);
    for port in ports {
        set.bind(port.name, true)?;
    }
    Ok(set)
}

/// Whether a name is one of those.
fn has(set: &Names<bool>, name: &[u8]) -> bool
    ensures { (ns : List (List ℕ)) → IsSet ns set.now → result ≡ list_any (bytes_eq name.now) ns }
{
    set.find(name).is_some()
}

/// Whether one of some names is none of those.
fn has_other(set: &Names<bool>, list: &[Vec<u8>]) -> bool
    ensures { (ns : List (List ℕ)) → IsSet ns set.now
        → result ≡ has_other_name ns (map (λ (n : Vec ℕ Global). n.items) list.now) }
{
    for name in list {
        if !has(set, name) {
            return true;
        }
    }
    false
}

/// Whether an item declares a port that is none of those.
fn has_other_port(set: &Names<bool>, item: &Item) -> bool
    ensures { (ns : List (List ℕ)) → IsSet ns set.now → result ≡ has_other_name ns (port_names_in (plain item.now)) }
{
    match item {
        Item::Port(_, list) => has_other(set, list),
        _ => false,
    }
}

/// Whether a piece declares a port that is none of those.
fn is_stray(set: &Names<bool>, piece: ScopePiece) -> bool
    ensures { (ns : List (List ℕ)) → IsSet ns set.now → result ≡ has_other_name ns (port_names_in (read_piece piece.entry)) }
{
    match piece {
        ScopePiece::Plain(item) => has_other_port(set, item),
        ScopePiece::Loop(_, _) => false,
        ScopePiece::Choice(_, _, _) => false,
        ScopePiece::Local(_) => false,
        ScopePiece::Inside(_) => false,
        ScopePiece::Net(_) => false,
    }
}

/// Whether pieces declare a port that the header doesn't have (IEEE 1364-2005, clause 12.3.3).
pub fn has_stray_port(
    alloc: Global,
    ports: &[ModulePort],
    pieces: &[ScopePiece],
) -> Result<bool, AllocError>
    ensures { IfOk result (λ b. b ≡ has_stray_port (map read_port ports.now) (map read_piece pieces.now)) }
{
    let set = port_set(alloc, ports)?;
    for piece in pieces {
        if is_stray(&set, *piece) {
            return Ok(true);
        }
    }
    Ok(false)
}
