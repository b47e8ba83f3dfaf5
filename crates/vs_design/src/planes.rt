//! Words in two planes of bits.
ghost use Rattle.std.specs.Prelude.{◌≡◌, ◌++◌, OnOk, replicate, slice_set};
ghost use Rattle.vs_logic4.specs.Planes.{value_plane, unknown_plane};
ghost use Rattle.vs_design.specs.passes.Planes.{spot_of, word_at, IsSpot};

use crate::extent::{Layout, Spot};
use std::alloc::AllocError;
use vs_logic4::Vec4;

/// Where a word of a signal is, where there is one.
pub(crate) fn spot(extents: &[Layout], signal: usize, word: usize) -> Option<Spot>
    ensures { result ≡ spot_of extents.now signal word }
{
    let extent = extents.get(signal)?;
    if word < extent.count as usize {
        Some(Spot {
            index: extent.first + word,
            width: extent.width,
        })
    } else {
        None
    }
}

/// The word at a place of the planes.
pub(crate) fn word_at(values: &[u64], unknowns: &[u64], spot: Spot) -> Vec4
    requires { IsSpot spot values.now unknowns.now }
    ensures { result ≡ word_at spot.width values.now unknowns.now spot.index }
{
    Vec4::from_planes(spot.width, values[spot.index], unknowns[spot.index])
}

/// Makes a word that of a place of the planes.
pub(crate) fn set_word(values: &mut Vec<u64>, unknowns: &mut Vec<u64>, spot: Spot, word: Vec4)
    requires { IsSpot spot values.old.items unknowns.old.items }
    ensures values { values.new.items ≡ slice_set values.old.items spot.index (value_plane word) }
    ensures unknowns { unknowns.new.items ≡ slice_set unknowns.old.items spot.index (unknown_plane word) }
{
    values[spot.index] = word.value_plane();
    unknowns[spot.index] = word.unknown_plane();
}

/// Adds so many words to a plane, all alike.
pub(crate) fn fill(plane: &mut Vec<u64>, count: u32, word: u64) -> Result<(), AllocError>
    ensures { OnOk result (plane.new.items ≡ plane.old.items ++ replicate count word) }
{
    for _ in 0..count {
        plane.push(word)?;
    }
    Ok(())
}
