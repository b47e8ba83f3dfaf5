//! Ports that two items declare, not alike.
ghost use Rattle.std.specs.Prelude.{◌≡◌, List, Some, IfOk, OnOk};
ghost use Rattle.vs_scopes.specs.Pieces.{Piece as GivenPiece};
ghost use Rattle.vs_widths.specs.Names.{meaning_of};
ghost use Rattle.vs_scopes.specs.Ranges.{range_bounds};
ghost use Rattle.vs_scopes.specs.Ports.{is_joined};
ghost use Rattle.vs_scopes.specs.Declarations.{are_same_bounds, differs_from, is_unlike};
ghost use Rattle.vs_scopes.specs.scopes_passes.Declared.{read_kind, AreKinds};
ghost use Rattle.vs_scopes.specs.scopes_passes.Parts.{read_end, read_port, read_source};

use std::alloc::{AllocError, Global};
use vs_design::Bounds;
use vs_scopes::{BodyFault, KindSaid, ModulePort, PortSource, declared_bounds};
use vs_syntax::Range;
use vs_widths::{Levels, Names};

/// Whether two items declare a port: one its direction, another its kind.
fn is_joined(source: PortSource) -> bool
    ensures { result ≡ is_joined (read_source source) }
{
    match source {
        PortSource::Header => false,
        PortSource::Item => false,
        PortSource::Items => true,
        PortSource::Nothing => false,
    }
}

/// The bounds of a range, where there is one and both have a number.
fn bounds_of(
    alloc: Global,
    names: &Levels,
    range: Option<&Range>,
) -> Result<Option<Bounds>, AllocError>
    ensures { IfOk result (λ b. b ≡ range_bounds (meaning_of names.now) (read_end range.entry)) }
{
    let Some(range) = range else {
        return Ok(None);
    };
    match declared_bounds(alloc, names, range) {
        Ok(bounds) => Ok(Some(bounds)),
        Err(BodyFault::Memory) => Err(AllocError),
        Err(BodyFault::Refused(_)) => Ok(None),
    }
}

/// Whether two ranges have the same bounds, or there is none of both.
fn are_same_bounds(left: Option<Bounds>, right: Option<Bounds>) -> bool
    ensures { result ≡ are_same_bounds left right }
{
    match (left, right) {
        (None, None) => true,
        (Some(a), Some(b)) => a.left == b.left && a.right == b.right,
        _ => false,
    }
}

/// Whether a declaration says another range than this, or that its name is an array.
fn differs_from(
    alloc: Global,
    names: &Levels,
    range: Option<&Range>,
    said: KindSaid,
) -> Result<bool, AllocError>
    ensures { IfOk result (λ b. b ≡ differs_from (meaning_of names.now) (read_end range.entry) (Some (read_kind said.entry))) }
{
    if said.words.is_some() {
        return Ok(true);
    }
    let left = bounds_of(alloc, names, range)?;
    let right = bounds_of(alloc, names, said.range)?;
    Ok(!are_same_bounds(left, right))
}

/// Whether a port is declared by two items with different ranges, or as an array; `kinds` is what items declare names as
/// (IEEE 1364-2005, clause 12.3.3).
pub fn is_unlike(
    alloc: Global,
    names: &Levels,
    kinds: &Names<KindSaid>,
    port: &ModulePort,
) -> Result<bool, AllocError>
    ensures { (ps : List GivenPiece) → AreKinds ps kinds.now
        → IfOk result (λ b. b ≡ is_unlike (meaning_of names.now) ps (read_port port.now)) }
{
    if !is_joined(port.source) {
        return Ok(false);
    }
    match kinds.find(port.name) {
        Some(said) => differs_from(alloc, names, port.range, said),
        None => Ok(false),
    }
}
