//! What the ports of instances are connected to.
ghost use Rattle.std.specs.Prelude.{◌≡◌, map, IfOk};
ghost use Rattle.vs_elab_constants.specs.Reads.{read_use};
ghost use Rattle.vs_scopes.specs.Ports.{port_names};
ghost use Rattle.vs_scopes.specs.Scopes.{is_wrong_end, has_wrong_end};
ghost use Rattle.vs_scopes.specs.scopes_passes.Answers.{borrowed};
ghost use Rattle.vs_scopes.specs.scopes_passes.Parts.{read_port, read_end, read_ends};
ghost use Rattle.vs_elab_signals.specs.signal_passes.Connecting.{ConnectsTo};

use crate::vs_widths::is_left;
use std::alloc::{AllocError, Global};
use vs_elab_constants::Use;
use vs_scopes::{ModulePort, ends};
use vs_syntax::{Direction, Expr};

/// The names of ports.
fn names_of_ports<'s>(alloc: Global, ports: &[ModulePort<'s>]) -> Result<Vec<&'s [u8]>, AllocError>
    ensures { IfOk result (λ v. borrowed v.items ≡ port_names (map read_port ports.now)) }
{
    let mut names = Vec::new(alloc);
    for port in ports {
        names.push(port.name)?;
    }
    Ok(names)
}

/// Whether an output is connected to an expression that isn't the left side of an assignment (IEEE 1364-2005, clause 12.3.3).
fn is_wrong_connection(port: &ModulePort, end: Option<&Expr>) -> bool
    ensures { result ≡ is_wrong_end (read_port port.now) (read_end end.entry) }
{
    match port.direction {
        Direction::Input => false,
        Direction::Output => match end {
            Some(e) => !is_left(e),
            None => false,
        },
    }
}

/// Whether one of the ports has such a connection.
fn has_wrong_connection(ports: &[ModulePort], ends: &[Option<&Expr>]) -> bool
    ensures { result ≡ has_wrong_end (map read_port ports.now) (read_ends ends.now) }
{
    let count = ports.len().min(ends.len());
    for place in 0..count {
        if is_wrong_connection(&ports[place], ends[place]) {
            return true;
        }
    }
    false
}

/// What the ports of an instance are connected to, where its connections fit them (IEEE 1364-2005, clause 12.3).
pub fn connections<'s>(
    alloc: Global,
    one: &Use<'s>,
    ports: &[ModulePort<'s>],
) -> Result<Option<Vec<Option<&'s Expr>>>, AllocError>
    ensures { IfOk result (ConnectsTo (read_use one.now) (map read_port ports.now)) }
{
    let names = names_of_ports(alloc, ports)?;
    let found = ends(alloc, one.ports, &names)?;
    match found {
        Some(ends) => {
            if has_wrong_connection(ports, &ends) {
                Ok(None)
            } else {
                Ok(Some(ends))
            }
        }
        None => Ok(None),
    }
}
