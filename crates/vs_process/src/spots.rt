//! Fixed places of assignments, resolved to words of a store.
ghost use Rattle.std.specs.Prelude.{◌≡◌, ◌<◌, ◌≤◌, ◌+◌, ◌-◌, ◌^◌, ◌∷◌, [], pos, length, IfSome};
ghost use Rattle.vs_process.specs.Spots.{IsSpotIn, IsSpotOf, SpotsHold, spot_write};

use crate::spot::Spot;
use vs_design::vs_logic4::Vec4;
use vs_design::{Aim, Design, Part, Slice, Target, Write};

// The bits of so many places from one on.
fn mask_of(shift: u32, width: u32) -> u64
    requires some { 0 < width }
    requires most { shift + width ≤ 64 }
    ensures { result ≡ 2 ^ (shift + width) - 2 ^ shift }
{
    if shift + width > 63 {
        !((1 << shift) - 1)
    } else {
        (1 << shift + width) - (1 << shift)
    }
}

// The place of so many bits from one on in a word of a signal, where it has them all.
fn bits_at(design: &Design, s: Slice) -> Option<Spot>
    ensures inside { IfSome result (λ spot. IsSpotIn design.now.signals spot) }
    ensures low { IfSome result (λ spot. s.low ≡ pos spot.shift) }
    ensures width { IfSome result (λ spot. spot.width ≡ s.width) }
    ensures signal { IfSome result (λ spot. spot.signal ≡ s.signal) }
    ensures word { IfSome result (λ spot. spot.word ≡ s.word) }
{
    let signal = design.signals().get(s.signal)?;
    let first = design.first_word(s.signal)?;
    if s.word >= signal.count as usize {
        return None;
    }
    if s.low < 0 {
        return None;
    }
    if s.low > 63 {
        return None;
    }
    let shift = s.low as u32;
    if shift + s.width > signal.width {
        return None;
    }
    let index = first.checked_add(s.word)?;
    let mask = mask_of(shift, s.width);
    Some(Spot {
        signal: s.signal,
        word: s.word,
        index,
        shift,
        width: s.width,
        mask,
    })
}

/// The place of a target in the stores of its design, where it is one fixed place, and all its bits are in range.
pub fn spot_of(design: &Design, target: &Target) -> Option<Spot>
    ensures { IfSome result (λ spot. IsSpotOf design.now.signals target.now spot) }
{
    if target.parts.len() != 1 {
        return None;
    }
    let Aim::Fixed(s) = &target.parts[0] else {
        return None;
    };
    let slice = *s;
    if slice.width != target.width {
        return None;
    }
    bits_at(design, slice)
}

// The place of a part of a write, where all its digits are in range.
fn place_of_part(design: &Design, part: &Part) -> Option<Spot>
    ensures inside { IfSome result (λ spot. IsSpotIn design.now.signals spot) }
    ensures low { IfSome result (λ spot. part.now.low ≡ pos spot.shift) }
    ensures width { IfSome result (λ spot. spot.width ≡ length part.now.digits) }
    ensures signal { IfSome result (λ spot. spot.signal ≡ part.now.signal) }
    ensures word { IfSome result (λ spot. spot.word ≡ part.now.word) }
{
    if part.low < 0 || part.low > 63 {
        return None;
    }
    let digits = part.digits;
    let slice = Slice {
        signal: part.signal,
        word: part.word,
        low: part.low as i32,
        width: digits.width(),
    };
    let spot = bits_at(design, slice)?;
    Some(spot)
}

/// The place of a part of a write in the stores of a design, and its digits, where all of these are in range.
#[inline(always)]
pub fn spot_of_part(design: &Design, part: &Part) -> Option<(Spot, Vec4)>
    ensures inside { IfSome result (λ r. IsSpotIn design.now.signals r.0) }
    ensures size { IfSome result (λ r. length r.1 ≡ r.0.width) }
    ensures write { IfSome result (λ r. part.now ∷ [] ≡ spot_write r.0 r.1) }
{
    let digits = part.digits;
    let spot = place_of_part(design, part)?;
    Some((spot, digits))
}

/// The place of a write in the stores of a design, and its digits, where it has one part, whose digits are all in range.
#[inline(always)]
pub fn spot_of_write(design: &Design, write: &Write) -> Option<(Spot, Vec4)>
    ensures inside { IfSome result (λ r. IsSpotIn design.now.signals r.0) }
    ensures size { IfSome result (λ r. length r.1 ≡ r.0.width) }
    ensures write { IfSome result (λ r. write.now ≡ spot_write r.0 r.1) }
{
    let parts = write.parts();
    if parts.len() != 1 {
        return None;
    }
    spot_of_part(design, &parts[0])
}

/// A word is that of a spot's index, and a write to a spot changes its bits in that word alone (IEEE 1364-2005, clause 5.2.1).
pub fn spots_hold()
    ensures { SpotsHold }
{}
