//! What stands in a scope, with its implicit nets.
ghost use Rattle.std.specs.Prelude.{◌≡◌, List, map, IfOk};
ghost use Rattle.vs_elab_constants.specs.vs_widths.specs.Names.{by_bytes};
ghost use Rattle.vs_elab_signals.specs.vs_scopes.specs.Pieces.{pieces_of};
ghost use Rattle.vs_elab_signals.specs.vs_scopes.specs.Reads.{read_piece};
ghost use Rattle.vs_scopes.specs.Declarations.{Bindings};
ghost use Rattle.vs_scopes.specs.Ports.{ports_of};
ghost use Rattle.vs_scopes.specs.Scopes.{Scope, text_of, block_text};
ghost use Rattle.vs_scopes.specs.scopes_passes.Parts.{read_port};
ghost use Rattle.vs_elab_signals.specs.Opened.{AreSeated};
ghost use Rattle.vs_elab_signals.specs.nets_passes.Nets.{MeansAs, IsAround, IsPlaced, AreMembers};

use crate::around::Enclosing;
use crate::declared_places;
use crate::nets::with_nets;
use crate::texts::{block_text, module_text};
use crate::vs_scopes::ScopePiece;
use std::alloc::{AllocError, Global};
use vs_elab_constants::vs_widths::Names;
use vs_scopes::ModulePort;
use vs_scopes::vs_widths::{Binding, Const};
use vs_syntax::Module;

/// What stands in a scope.
#[derive(Drop)]
pub struct Members<'s> {
    /// The names that its text declares, with what they are bound to before its constants are known.
    pub text: Names<'s, Binding>,
    /// Its pieces, its implicit nets among them.
    pub pieces: Vec<ScopePiece<'s>>,
    /// The ports and nets that those declare, each with the place of the first piece that does.
    pub told: Names<'s, usize>,
}

/// What stands in a scope of these pieces, whose text declares these names.
fn gathered<'s>(
    alloc: Global,
    nets: bool,
    around: Enclosing,
    text: Names<'s, Binding>,
    pieces: Vec<ScopePiece<'s>>,
) -> Result<Members<'s>, AllocError>
    requires place { IsPlaced around }
    requires seated { AreSeated around.list.now }
    ensures { (ss : List Scope) (s : Scope) (bs : Bindings) → IsAround ss around.entry s → MeansAs bs text.entry →
        IfOk result (AreMembers nets bs s.sight (map read_piece pieces.entry.items)) }
{
    let pieces = with_nets(alloc, nets, around, &text, pieces)?;
    let told = declared_places(alloc, &pieces)?;
    Ok(Members { text, pieces, told })
}

/// What stands in a module of these ports and pieces, with its implicit nets, where it may have them (IEEE 1364-2005, clause 4.5).
pub fn module_members<'s>(
    alloc: Global,
    nets: bool,
    around: Enclosing,
    module: &'s Module,
    ports: &[ModulePort<'s>],
    pieces: Vec<ScopePiece<'s>>,
) -> Result<Members<'s>, AllocError>
    requires place { IsPlaced around }
    requires seated { AreSeated around.list.now }
    requires ports { map read_port ports.now ≡ ports_of «module».now }
    requires pieces { map read_piece pieces.items ≡ pieces_of «module».now.items.items }
    ensures { (ss : List Scope) (s : Scope) → IsAround ss around.entry s →
        IfOk result (AreMembers nets (text_of «module».entry.now) s.sight (pieces_of «module».entry.now.items.items)) }
{
    let text = module_text(alloc, module, ports, &pieces)?;
    gathered(alloc, nets, around, text, pieces)
}

/// What stands in a block of these constants and pieces, with its implicit nets, where it may have them (IEEE 1364-2005, clause 4.5).
pub fn block_members<'s>(
    alloc: Global,
    nets: bool,
    around: Enclosing,
    constants: &[(&'s [u8], Const)],
    pieces: Vec<ScopePiece<'s>>,
) -> Result<Members<'s>, AllocError>
    requires place { IsPlaced around }
    requires seated { AreSeated around.list.now }
    ensures { (ss : List Scope) (s : Scope) → IsAround ss around.entry s → IfOk result
        (AreMembers nets (block_text (by_bytes constants.now) (map read_piece pieces.entry.items)) s.sight
        (map read_piece pieces.entry.items)) }
{
    let text = block_text(alloc, constants, &pieces)?;
    gathered(alloc, nets, around, text, pieces)
}
