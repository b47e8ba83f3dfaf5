//! Which writes of a clock an edge fires at.
ghost use Rattle.std.specs.Prelude.{◌≡◌, ◌+◌, ◌*◌, ◌%◌, ◌<◌, ◌↔◌, true, Some, IsTrue};
ghost use Rattle.vs_design.specs.vs_logic4.specs.declared.digit.Digit.{Digit};
ghost use Rattle.vs_maps.specs.vs_rules.specs.Slots.{counts, phase};

use vs_design::vs_logic4::{Digit, Edge};

// Whether the write of a constant counts for an edge.
fn counts(edge: Edge, digit: Digit) -> bool
    ensures { result ≡ counts edge digit }
{
    match edge {
        Edge::Any => true,
        Edge::Posedge => digit != Digit::Zero,
        Edge::Negedge => digit != Digit::One,
    }
}

/// Whether a write counts for an edge: it gives no constant, or one that counts.
pub(crate) fn write_counts(edge: Edge, given: Option<Digit>) -> bool
    ensures { IsTrue result ↔ ((digit : Digit) → given ≡ Some digit → counts edge digit ≡ true) }
{
    match given {
        None => true,
        Some(digit) => counts(edge, digit),
    }
}

// The residue, by twice a clock's half period, at which an edge of a clock fires.
fn phase(edge: Edge, digit: Digit, offset: u64, half: u64) -> u128
    ensures { result ≡ phase edge digit offset half }
{
    match (edge, digit) {
        (Edge::Posedge, Digit::One) | (Edge::Negedge, Digit::Zero) => offset as u128,
        _ => offset as u128 + half as u128,
    }
}

/// Whether an edge of a clock that is set to a digit after so many ticks, and turned after so many others, can fire at a residue: at one alone by
/// twice its half period, where that divides the modulus, else at all.
pub(crate) fn is_in_phase(
    edge: Edge,
    digit: Digit,
    offset: u64,
    half: u64,
    modulus: u64,
    r: u64,
) -> bool
    requires { 0 < half }
    ensures { IsTrue result ↔ (modulus % (2 * half) ≡ 0 → r % (2 * half) ≡ phase edge digit offset half % (2 * half)) }
{
    let period = 2 * half as u128;
    if modulus as u128 % period != 0 {
        return true;
    }
    r as u128 % period == phase(edge, digit, offset, half) % period
}
