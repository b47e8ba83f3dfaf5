//! The names that the text of a scope declares.
ghost use Rattle.std.specs.Prelude.{◌≡◌, map, IfOk, OnOk};
ghost use Rattle.vs_elab_constants.specs.vs_widths.specs.Names.{by_bytes};
ghost use Rattle.vs_elab_signals.specs.vs_scopes.specs.Pieces.{pieces_of};
ghost use Rattle.vs_elab_signals.specs.vs_scopes.specs.Reads.{read_piece};
ghost use Rattle.vs_scopes.specs.Ports.{ports_of};
ghost use Rattle.vs_scopes.specs.Scopes.{text_of, block_text, constant_names};
ghost use Rattle.vs_scopes.specs.scopes_passes.Declared.{AddsNames};
ghost use Rattle.vs_scopes.specs.scopes_passes.Parts.{read_port};
ghost use Rattle.vs_elab_signals.specs.nets_passes.Nets.{MeansAs};

use crate::vs_scopes::ScopePiece;
use std::alloc::{AllocError, Global};
use vs_elab_constants::vs_widths::Names;
use vs_elab_constants::{SignalNames, early_names};
use vs_scopes::vs_widths::{Binding, Const};
use vs_scopes::{ModulePort, add_first, block_parameters, module_parameters};
use vs_syntax::Module;

/// The names that the text of a module of these ports and pieces declares, with what they are bound to before the values of its parameters are
/// known (IEEE 1364-2005, clause 12.7).
pub fn module_text<'s>(
    alloc: Global,
    module: &'s Module,
    ports: &[ModulePort<'s>],
    pieces: &[ScopePiece<'s>],
) -> Result<Names<'s, Binding>, AllocError>
    requires ports { map read_port ports.now ≡ ports_of «module».now }
    requires pieces { map read_piece pieces.now ≡ pieces_of «module».now.items.items }
    ensures { IfOk result (MeansAs (text_of «module».entry.now)) }
{
    let parameters = module_parameters(alloc, module, pieces)?;
    early_names(alloc, SignalNames::Kinds, &parameters, ports, pieces)
}

/// Adds constants.
fn add_constants<'s>(
    constants: &[(&'s [u8], Const)],
    names: &mut Names<'s, Binding>,
) -> Result<(), AllocError>
    ensures { OnOk result (AddsNames names.old names.new (constant_names (by_bytes constants.now))) }
{
    for constant in constants {
        add_first(constant.0, Binding::Constant(constant.1), names)?;
    }
    Ok(())
}

/// The names that the text of a block of these constants and pieces declares, with what they are bound to before its constants are known.
pub fn block_text<'s>(
    alloc: Global,
    constants: &[(&'s [u8], Const)],
    pieces: &[ScopePiece<'s>],
) -> Result<Names<'s, Binding>, AllocError>
    ensures { IfOk result (MeansAs (block_text (by_bytes constants.now) (map read_piece pieces.now))) }
{
    let parameters = block_parameters(alloc, pieces)?;
    let mut names = early_names(alloc, SignalNames::Kinds, &parameters, &[], pieces)?;
    add_constants(constants, &mut names)?;
    Ok(names)
}
