//! What assignments of constants give bits.
ghost use Rattle.std.specs.Prelude.{◌≡◌, ◌<◌, ◌≤◌, [], IfOk};
ghost use Rattle.vs_design.specs.Uses.{aim_range, is_of, reads};
ghost use Rattle.vs_design.specs.WellFormed.{aim_width};
ghost use Rattle.vs_eval.specs.Places.{after};
ghost use Rattle.vs_eval.specs.Values.{target_value};
ghost use Rattle.vs_process.specs.Stops.{statement_view};
ghost use Rattle.vs_rules.specs.Constants.{any_aims, bit_of, digit_there, given, is_nothing, place_gives, places_give};
ghost use Rattle.vs_slots_constants.specs.Givings.{bit_view, given_here};

use std::alloc::{AllocError, Global};
use vs_design::vs_logic4::{Digit, Vec4};
use vs_design::{Aim, Statement, Store, Target, Typed, reads};
use vs_eval::cut_value;

/// A bit.
#[derive(Clone, Copy)]
pub struct Bit {
    /// The number of its signal in design order.
    pub signal: usize,
    /// The word of the signal.
    pub word: usize,
    /// The place in the word, from its lowest bit.
    pub place: u32,
}

impl Bit {
    /// The lowest bit of a signal that is no array.
    pub fn lowest(signal: usize) -> Bit
        ensures { bit_view result ≡ bit_of signal }
    {
        Bit {
            signal,
            word: 0,
            place: 0,
        }
    }
}

// Whether a place of a target names a signal.
fn names(aim: &Aim, signal: usize) -> bool
    ensures { result ≡ is_of signal (aim_range aim.now) }
{
    match aim {
        Aim::Fixed(s) => s.signal == signal,
        Aim::Chosen(s, _, _) => s.signal == signal,
    }
}

// Whether one of some places names a signal.
fn any_names(aims: &[Aim], signal: usize) -> bool
    ensures { result ≡ any_aims signal aims.now }
{
    for aim in aims {
        if names(aim, signal) {
            return true;
        }
    }
    false
}

// How many bits a place has.
fn width_of(aim: &Aim) -> u32
    ensures is { result ≡ aim_width aim.now }
    ensures some { 0 < result }
    ensures most { result ≤ 64 }
{
    match aim {
        Aim::Fixed(s) => s.width,
        Aim::Chosen(s, _, _) => s.width,
    }
}

// The digit at a place of a vector, where it has the place.
fn digit_there(place: i64, digits: Vec4) -> Option<Digit>
    ensures { result ≡ digit_there place digits }
{
    if place < 0 {
        return None;
    }
    if place >= digits.width() as i64 {
        return None;
    }
    Some(digits.digit(place as u32))
}

// The digit that a place of a target gives a bit of its signal, of digits of its own; none where its indices aren't constant.
fn place_gives(aim: &Aim, digits: Vec4, bit: Bit) -> Option<Digit>
    ensures { result ≡ place_gives aim.now digits (bit_view bit) }
{
    match aim {
        Aim::Fixed(s) => {
            if s.word == bit.word {
                digit_there(bit.place as i64 - s.low as i64, digits)
            } else {
                None
            }
        }
        Aim::Chosen(_, _, _) => None,
    }
}

// The place above so many digits; from 64 on, where a vector has no digits, it stays there.
fn after(place: u32, width: u32) -> u32
    requires within { place ≤ 64 }
    requires most { width ≤ 64 }
    ensures { result ≡ after place width }
{
    if place + width < 64 {
        place + width
    } else {
        64
    }
}

// The digit that the places of a target give a bit, of these digits: the one place that names the bit's signal does.
fn places_give(aims: &[Aim], digits: Vec4, bit: Bit) -> Option<Digit>
    ensures { result ≡ places_give 0 aims.now digits (bit_view bit) }
{
    let mut from = 0;
    for i in 0..aims.len() {
        let aim = &aims[i];
        let width = width_of(aim);
        if names(aim, bit.signal) {
            if any_names(&aims[i + 1..], bit.signal) {
                return None;
            }
            return place_gives(aim, digits.select(from as i64, width), bit);
        }
        from = after(from, width);
    }
    None
}

// Whether an expression names no signal.
fn reads_nothing(alloc: Global, e: &Typed) -> Result<bool, AllocError>
    ensures { IfOk result (λ b. b ≡ is_nothing (reads e.now)) }
{
    let ranges = reads(alloc, e)?;
    Ok(ranges.is_empty())
}

// What a target gets of an expression in a store without signals.
fn value_alone(alloc: Global, target: &Target, e: &Typed) -> Vec4
    ensures { result ≡ target_value target.now e.now [] 0 }
{
    let store = Store::without_signals(alloc);
    cut_value(target, e, &store, 0)
}

/// The digit that an assignment of a constant gives a bit, whatever the store: there is none where the right side names a signal, where the index of
/// the place that has the bit isn't constant, and where two places of the target name the bit's signal (profile). It takes as long as the
/// assignment's text.
pub fn given(
    alloc: Global,
    target: &Target,
    value: &Typed,
    bit: Bit,
) -> Result<Option<Digit>, AllocError>
    ensures { IfOk result (λ o. o ≡ given target.now value.now (bit_view bit)) }
{
    if reads_nothing(alloc, value)? {
        let digits = value_alone(alloc, target, value);
        Ok(places_give(&target.parts, digits, bit))
    } else {
        Ok(None)
    }
}

/// The digit that a statement gives a bit, where it is an assignment of a constant, by `=` or by `<=`.
pub fn given_by(alloc: Global, s: &Statement, bit: Bit) -> Result<Option<Digit>, AllocError>
    ensures { IfOk result (λ o. o ≡ given_here (Some s.now) (bit_view bit)) }
{
    match s {
        Statement::Assign(_, target, value) | Statement::Later(_, _, target, value) => {
            given(alloc, target, value, bit)
        }
        _ => Ok(None),
    }
}
