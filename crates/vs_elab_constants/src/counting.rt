//! How many turns generate loops have.
ghost use Rattle.std.specs.Prelude.{◌≡◌, ◌≤◌, map, IfOk};
ghost use Rattle.vs_widths.specs.Names.{meaning_of};
ghost use Rattle.vs_scopes.specs.Reads.{read_piece};
ghost use Rattle.vs_scopes.specs.Generate.{piece_turns, turns_among};
ghost use Rattle.vs_elab_constants.specs.generate_passes.Turns.{CountsTurns};

use crate::loops::turns;
use std::alloc::{AllocError, Global};
use vs_scopes::{BodyFault, ScopePiece};
use vs_widths::Levels;

/// A design has at most so many turns of generate loops.
const TURN_LIMIT: usize = 65536;

/// How many turns a piece has, which may be a loop; none where it has a fault or doesn't end in time.
fn piece_turns<'s, 'o>(
    alloc: Global,
    names: &Levels<'s, 'o>,
    piece: ScopePiece<'s>,
) -> Result<usize, AllocError>
    ensures same { IfOk result (λ n. n ≡ piece_turns (meaning_of names.now) (read_piece piece.entry)) }
    ensures few { IfOk result (λ n. n ≤ 65536) }
{
    let ScopePiece::Loop(header, _) = piece else {
        return Ok(0);
    };
    match turns(alloc, names, header) {
        Ok(values) => Ok(values.len()),
        Err(BodyFault::Memory) => Err(AllocError),
        Err(BodyFault::Refused(_)) => Ok(0),
    }
}

/// How many turns there are behind those of the loops among pieces, where there are so many before them; none where these are more than a design
/// may have (IEEE 1364-2005, clause 12.4.1).
pub fn turns_after<'s, 'o>(
    alloc: Global,
    names: &Levels<'s, 'o>,
    pieces: &[ScopePiece<'s>],
    before: usize,
) -> Result<Option<usize>, AllocError>
    requires { before ≤ 65536 }
    ensures { IfOk result (CountsTurns before (turns_among (meaning_of names.now) (map read_piece pieces.now))) }
{
    let mut turns = before;
    for piece in pieces {
        turns += piece_turns(alloc, names, *piece)?;
        if turns > TURN_LIMIT {
            return Ok(None);
        }
    }
    Ok(Some(turns))
}
