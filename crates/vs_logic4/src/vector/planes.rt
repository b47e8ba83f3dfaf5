//! One plane moved: bits that leave it are lost, and 0 comes in.
ghost use Rattle.std.specs.Prelude.{◌≡◌, ◌<◌, ◌≤◌, ◌*◌, ◌/◌, ◌%◌, ◌^◌, neg_ℤ};
ghost use Rattle.vs_logic4.specs.Moves.{lowered, IsMovedLeft, IsMovedRight};

use super::division::is_negative;
use super::low_ones;

/// The plane moved left by any number of places.
pub(super) fn moved_left(plane: u64, places: u64) -> u64
    ensures { result ≡ plane * 2 ^ places % 2 ^ 64 }
{
    if places < 64 { plane << places } else { 0 }
}

/// The plane moved right by any number of places.
pub(super) fn moved_right(plane: u64, places: u64) -> u64
    ensures { result ≡ plane / 2 ^ places }
{
    if places < 64 { plane >> places } else { 0 }
}

/// The plane of `width` bits moved left by any number of places, within its width.
pub(super) fn left_within(plane: u64, width: u32, places: u64) -> u64
    requires some { 0 < width }
    requires most { width ≤ 64 }
    ensures { IsMovedLeft width places plane result }
{
    moved_left(plane, places) & low_ones(width)
}

/// The plane of `width` bits moved right by any number of places; where `signed`, its top bit comes
/// in.
pub(super) fn right_within(plane: u64, width: u32, places: u64, signed: bool) -> u64
    requires some { 0 < width }
    requires most { width ≤ 64 }
    requires below { plane < 2 ^ width }
    ensures { IsMovedRight signed width places plane result }
{
    let negative = is_negative(plane, width, signed);
    let fill = if negative { low_ones(width) } else { 0 };
    moved_right(plane ^ fill, places) ^ fill
}

/// The plane moved right by a number of places, left where it is negative.
pub(super) fn lowered(plane: u64, places: i64) -> u64
    ensures { result ≡ lowered places plane }
{
    if places >= 0 {
        moved_right(plane, places.unsigned_abs())
    } else {
        moved_left(plane, places.unsigned_abs())
    }
}

/// The plane moved left by a number of places, right where it is negative.
pub(super) fn raised(plane: u64, places: i64) -> u64
    ensures { result ≡ lowered (neg_ℤ places) plane }
{
    if places <= 0 {
        moved_right(plane, places.unsigned_abs())
    } else {
        moved_left(plane, places.unsigned_abs())
    }
}
