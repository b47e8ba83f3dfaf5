//! The writes of assignments (IEEE 1364-2005, clauses 6 and 9.2).
ghost use Rattle.std.specs.Prelude.{◌≡◌, ◌<◌, ◌≤◌, IfOk};
ghost use Rattle.vs_design.specs.WellFormed.{aim_width};
ghost use Rattle.vs_eval.specs.Places.{after};
ghost use Rattle.vs_eval.specs.Targets.{assigned, part_at};
ghost use Rattle.vs_eval.specs.Values.{target_value};

use crate::indices::{place_of, word_place};
use crate::{fitted, quick_value, value};
use std::alloc::{AllocError, Global};
use vs_design::vs_logic4::Vec4;
use vs_design::{Aim, Part, Store, Target, Typed, Write};

/// What a target gets of an expression in a store at a time in ticks: the value, cut to the target's size (IEEE 1364-2005, clause 5.4.1).
#[inline(always)]
pub fn cut_value(target: &Target, e: &Typed, store: &Store, time: u64) -> Vec4
    ensures { result ≡ target_value target.now e.now store.now time }
{
    fitted(quick_value(e, store, time), target.width, false)
}

/// How many bits a place has.
fn aim_width(aim: &Aim) -> u32
    ensures is { result ≡ aim_width aim.now }
    ensures some { 0 < result }
    ensures most { result ≤ 64 }
{
    match aim {
        Aim::Fixed(s) => s.width,
        Aim::Chosen(s, _, _) => s.width,
    }
}

/// The part of a write that gives a place these digits, its indices read in this store.
fn part_at(aim: &Aim, digits: Vec4, store: &Store, time: u64) -> Part
    ensures { result ≡ part_at aim.now digits store.now time }
{
    match aim {
        Aim::Fixed(s) => Part {
            signal: s.signal,
            word: s.word,
            low: s.low as i64,
            digits,
        },
        Aim::Chosen(s, word, low) => Part {
            signal: s.signal,
            word: word_place(s.words, value(word, store, time)),
            low: place_of(s.bits, s.width, value(low, store, time)),
            digits,
        },
    }
}

/// The write that gives a target these digits, its indices read in this store at a time in ticks. A target of one place takes no memory.
pub fn write_of(
    alloc: Global,
    target: &Target,
    digits: Vec4,
    store: &Store,
    time: u64,
) -> Result<Write, AllocError>
    ensures { IfOk result (λ w. w ≡ assigned target.now digits store.now time) }
{
    let mut write = Write::new(alloc);
    let mut place = 0;
    for aim in &target.parts {
        let width = aim_width(aim);
        write.push(part_at(aim, digits.select(place as i64, width), store, time))?;
        place = after(place, width);
    }
    Ok(write)
}

/// The place above so many digits; from 64 on, where a vector has no digits, it stays there.
fn after(place: u32, width: u32) -> u32
    requires within { place ≤ 64 }
    requires most { width ≤ 64 }
    ensures { result ≡ after place width }
{
    if place + width < 64 {
        place + width
    } else {
        64
    }
}
