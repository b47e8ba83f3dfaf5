//! The first signal of which two lists of values have different ones.
ghost use Rattle.std.specs.Prelude.{◌≡◌, ◌+◌, ◌<◌, ◌≤◌, ◌^◌, IfSome, Some, if◌then◌else◌, slice_get};
ghost use Rattle.vs_sign_off.specs.passes.Unequal.{AreUnequal};

use vs_design::Signal;
use vs_design::vs_logic4::Vec4;

/// A signal that has two values.
#[derive(Clone, Copy)]
pub(crate) struct Unequal {
    /// Its number in the design.
    pub(crate) signal: usize,
    /// One value.
    pub(crate) first: Vec4,
    /// The other one.
    pub(crate) other: Vec4,
}

// The value at a place.
fn value_at(values: &[Vec4], place: usize) -> Option<Vec4>
    ensures { result ≡ slice_get values.now place }
{
    values.get(place).copied()
}

// The values of a signal at a place of two lists, where they are different.
fn unequal_at(signal: usize, place: usize, one: &[Vec4], other: &[Vec4]) -> Option<Unequal>
    ensures signal { IfSome result (λ u. u.signal ≡ signal) }
    ensures first { IfSome result (λ u. slice_get one.now place ≡ Some u.first) }
    ensures other { IfSome result (λ u. slice_get other.now place ≡ Some u.other) }
    ensures differ { IfSome result (λ u. u.first ≡ u.other → ⊥) }
{
    let first = value_at(one, place)?;
    let second = value_at(other, place)?;
    if first.same(second) {
        return None;
    }
    Some(Unequal {
        signal,
        first,
        other: second,
    })
}

// The place behind that of the value of a signal; an array has none.
fn following_place(place: usize, is_array: bool) -> usize
    requires { place + 1 < 2 ^ 64 }
    ensures is { result ≡ place + (if is_array then 0 else 1) }
    ensures near { result ≤ place + 1 }
{
    if is_array { place } else { place + 1 }
}

/// The first signal, in design order, that is no array and has different values in two lists of the values of such signals.
pub(crate) fn first_unequal(signals: &[Signal], one: &[Vec4], other: &[Vec4]) -> Option<Unequal>
    ensures { IfSome result (λ u. AreUnequal signals.now one.now other.now u) }
{
    let mut place: usize = 0;
    for signal in 0..signals.len() {
        let is_array = signals[signal].words.is_some();
        if !is_array {
            let found = unequal_at(signal, place, one, other);
            if found.is_some() {
                return found;
            }
        }
        place = following_place(place, is_array);
    }
    None
}
