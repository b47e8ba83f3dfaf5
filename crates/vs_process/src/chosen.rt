//! Places of assignments that indices choose, with their indices resolved.
ghost use Rattle.std.specs.Prelude.{◌≡◌, ◌<◌, ◌≤◌, ℕ, IfOk, IfSome};
ghost use Rattle.vs_design.specs.Selects.{from_zero, place_of};
ghost use Rattle.vs_design.specs.Stores.{Store};
ghost use Rattle.vs_eval.specs.Values.{value_of};
ghost use Rattle.vs_process.specs.ChosenPlaces.{AreReadIn, IsChosenOf, IsIndexIn, IsReadIn, chosen_part, chosen_by};

use crate::chosen_place::{ChosenPlace, Index};
use std::alloc::{AllocError, Global};
use vs_design::vs_logic4::Vec4;
use vs_design::{Aim, Axis, Design, Part, Store, Target, Typed};
use vs_eval::{Resolved, place_of};

// The number of a word by what an index chooses.
#[inline(always)]
fn word_at(place: i64) -> usize
    ensures { result ≡ from_zero place }
{
    if place < 0 { 0 } else { place as usize }
}

// An index of a place, which chooses so many elements, resolved.
fn resolved_index<'a>(
    alloc: Global,
    design: &'a Design,
    axis: Axis,
    width: u32,
    e: &'a Typed,
) -> Result<Index<'a>, AllocError>
    ensures known { IfOk result (λ index. IsIndexIn design.entry.now.signals index) }
    ensures place { IfOk result (λ index. (store : Store) (time : ℕ)
        → chosen_by index width store time ≡ place_of axis width (value_of e.entry.now store time)) }
{
    match e {
        Typed::Number(digits) => Ok(Index::Constant(place_of(axis, width, *digits))),
        _ => {
            let resolved = Resolved::new(alloc, design, e)?;
            Ok(Index::Variable(axis, resolved))
        }
    }
}

/// The place of a target that is one place which indices choose.
pub(crate) fn chosen_of<'a>(
    alloc: Global,
    design: &'a Design,
    target: &'a Target,
) -> Result<Option<ChosenPlace<'a>>, AllocError>
    ensures { IfOk result (λ o. IfSome o (λ place. IsChosenOf design.entry.now.signals target.entry.now place)) }
{
    if target.parts.len() != 1 {
        return Ok(None);
    }
    let Aim::Chosen(s, index, base) = &target.parts[0] else {
        return Ok(None);
    };
    let selection = *s;
    if selection.width != target.width {
        return Ok(None);
    }
    let word = resolved_index(alloc, design, selection.words, 1, index)?;
    let low = resolved_index(alloc, design, selection.bits, selection.width, base)?;
    let mut indices = Vec::with_capacity(alloc, 2)?;
    indices.push(word)?;
    indices.push(low)?;
    Ok(Some(ChosenPlace {
        signal: selection.signal,
        width: selection.width,
        indices,
    }))
}

impl<'a> Index<'a> {
    /// The number of the lowest of so many elements that it chooses, in a store at a time in ticks.
    #[inline(always)]
    fn place(&self, width: u32, store: &Store, time: u64) -> i64
        requires { IsReadIn self.now store.now }
        ensures { result ≡ chosen_by self.now width store.now time }
    {
        match self {
            Index::Constant(place) => *place,
            Index::Variable(axis, e) => {
                let value = e.value(store, time);
                place_of(*axis, width, value)
            }
        }
    }
}

impl<'a> ChosenPlace<'a> {
    /// The part of a write that gives the place these digits, its indices read in a store at a time in ticks.
    #[inline(always)]
    pub fn part(&self, digits: Vec4, store: &Store, time: u64) -> Part
        requires { AreReadIn self.now store.now }
        ensures { result ≡ chosen_part self.now digits store.now time }
    {
        let word = self.indices[0].place(1, store, time);
        let low = self.indices[1].place(self.width, store, time);
        Part {
            signal: self.signal,
            word: word_at(word),
            low,
            digits,
        }
    }
}
