//! Ranks of the places of a text, which no way that takes no time lowers.
ghost use Rattle.std.specs.Prelude.{ℕ, ◌≡◌, ◌+◌, ◌<◌, ◌≤◌, ◌↔◌, false, length, IfOk, OnOk, IsTrue};
ghost use Rattle.std.specs.List.{Contains};
ghost use Rattle.vs_claims.specs.vs_maps.specs.declared.along.Along.TheVariants.{ZeroTime};
ghost use Rattle.vs_claims.specs.vs_maps.specs.Reaches.{Chart, stops_along};
ghost use Rattle.vs_rules_of_signals.specs.Ranks.{AreRanks, ApartAt, GoesUp, IsApart, IsBelow, Rises, RisesFrom, rank_of};

use std::alloc::{AllocError, Global};
use vs_claims::vs_maps::{Tables, takes_no_time};
use vs_graph::mark;

/// Two ranks of each place of a process. From a place to those to which ways that take no time lead from it, neither goes down. The code of a text
/// is written from its end to its start, so what is done first has a greater place.
#[derive(Drop)]
pub(crate) struct Ranks {
    /// Of two places of which such ways lead from neither to the other, by these the earlier one of the text has the lower rank, as a rule.
    pub(crate) by_text: Vec<usize>,
    /// By these the later one has it.
    pub(crate) against_text: Vec<usize>,
}

// What a search does at a place.
#[derive(Clone, Copy)]
enum Visit {
    // It comes there.
    Enter(usize),
    // It has been at all places to which ways lead from there.
    Leave(usize),
}

// The number of a place in a table; of one past the end, 0.
fn rank_of(ranks: &[usize], place: usize) -> usize
    ensures { result ≡ rank_of ranks.now place }
{
    if place < ranks.len() { ranks[place] } else { 0 }
}

// Sets the number of a place in a table.
fn set_rank(ranks: &mut Vec<usize>, place: usize, rank: usize) {
    if let Some(old) = ranks.get_mut(place) {
        *old = rank;
    }
}

// The places where ways that take no time lead from a place.
fn nexts<'a>(tables: &'a Tables<'a>, place: usize) -> &'a [usize]
    ensures { result.now ≡ stops_along (ZeroTime false) tables.entry.now.stops place }
{
    if takes_no_time(tables.pause(place)) {
        tables.tos(place)
    } else {
        &[]
    }
}

// Places from the least on where the greatest is to be entered first, since that is put last, else from the greatest on.
fn in_order(alloc: Global, places: &[usize], greatest_first: bool) -> Result<Vec<usize>, AllocError>
    ensures { IfOk result (λ all. length all.items ≡ length places.now) }
{
    let mut sorted = Vec::from_slice(alloc, places)?;
    sorted.sort_unstable();
    if greatest_first {
        return Ok(sorted);
    }
    sorted.reverse();
    Ok(sorted)
}

// Puts places that are to be entered at a list's end: that which comes first last.
fn put_visits(
    alloc: Global,
    todo: &mut Vec<Visit>,
    places: &[usize],
    greatest_first: bool,
) -> Result<(), AllocError>
    ensures { OnOk result (length todo.new.items ≡ length todo.old.items + length places.now) }
{
    let sorted = in_order(alloc, places, greatest_first)?;
    for place in &sorted {
        todo.push(Visit::Enter(*place))?;
    }
    Ok(())
}

// Visits of all places that are to be entered.
fn all_visits(alloc: Global, count: usize, greatest_first: bool) -> Result<Vec<Visit>, AllocError> {
    let mut todo = Vec::new(alloc);
    for k in 0..count {
        let place = if greatest_first { k } else { count - 1 - k };
        todo.push(Visit::Enter(place))?;
    }
    Ok(todo)
}

// All places in the order in which a search leaves them: each after those to which ways that take no time lead from it, loops aside. Of several
// places the search enters the greatest first, or the least.
fn places_left<'a>(
    alloc: Global,
    tables: &'a Tables<'a>,
    greatest_first: bool,
) -> Result<Vec<usize>, AllocError> {
    let mut entered = vec![in alloc; false; tables.places()]?;
    let mut left = Vec::new(alloc);
    let mut todo = all_visits(alloc, tables.places(), greatest_first)?;
    while let Some(visit) = todo.pop() {
        match visit {
            Visit::Leave(place) => left.push(place)?,
            Visit::Enter(place) => {
                if mark(&mut entered, place) {
                    todo.push(Visit::Leave(place))?;
                    put_visits(alloc, &mut todo, nexts(tables, place), greatest_first)?;
                }
            }
        }
    }
    Ok(left)
}

// For each place its position in an order.
fn positions_in(alloc: Global, order: &[usize]) -> Result<Vec<usize>, AllocError> {
    let mut positions = vec![in alloc; 0; order.len()]?;
    for k in 0..order.len() {
        set_rank(&mut positions, order[k], k);
    }
    Ok(positions)
}

// Notes where ways that take no time lead from a place, by positions.
fn note_ways<'a>(tables: &'a Tables<'a>, positions: &[usize], place: usize, last: &mut Vec<usize>) {
    let from = rank_of(positions, place);
    for next in nexts(tables, place) {
        let to = rank_of(positions, *next);
        if rank_of(last, to) < from {
            set_rank(last, to, from);
        }
    }
}

// The ranks of the places in an order. From a place to which a way leads back to that from which it does, all have one rank.
fn ranks_in<'a>(
    alloc: Global,
    tables: &'a Tables<'a>,
    order: &[usize],
) -> Result<Vec<usize>, AllocError> {
    let positions = positions_in(alloc, order)?;
    let mut last = vec![in alloc; 0; order.len()]?;
    for place in 0..tables.places() {
        note_ways(&*tables, &positions, place, &mut last);
    }
    let mut ranks = vec![in alloc; 0; order.len()]?;
    let mut rank = 0;
    let mut end: usize = 0;
    for k in 0..order.len() {
        if k > end {
            rank = k;
        }
        end = end.max(rank_of(&last, k));
        set_rank(&mut ranks, order[k], rank);
    }
    Ok(ranks)
}

// Whether a place has no higher rank than another.
fn is_up_to(ranks: &[usize], place: usize, next: usize) -> bool
    ensures { IsTrue result ↔ rank_of ranks.now place ≤ rank_of ranks.now next }
{
    rank_of(ranks, place) <= rank_of(ranks, next)
}

// Whether no way that takes no time leads from a place to a lower rank.
fn rises_from<'a>(tables: &'a Tables<'a>, ranks: &[usize], place: usize) -> bool
    ensures { IsTrue result ↔ RisesFrom tables.entry.now ranks.now place }
{
    for next in nexts(tables, place) {
        if !is_up_to(ranks, place, *next) {
            return false;
        }
    }
    true
}

// Whether none does from any place.
fn rises<'a>(tables: &'a Tables<'a>, ranks: &[usize]) -> bool
    ensures { IsTrue result ↔ Rises tables.entry.now ranks.now }
{
    for place in 0..tables.places() {
        if !rises_from(&*tables, ranks, place) {
            return false;
        }
    }
    true
}

// The ranks of places by a search, the last that it leaves first. They are tested; were they wrong, there would be none.
fn ranks_left<'a>(
    alloc: Global,
    tables: &'a Tables<'a>,
    greatest_first: bool,
) -> Result<Vec<usize>, AllocError>
    ensures { IfOk result (λ ranks. Rises tables.entry.now ranks.items) }
{
    let mut order = places_left(alloc, &*tables, greatest_first)?;
    order.reverse();
    let ranks = ranks_in(alloc, &*tables, &order)?;
    if rises(tables, &ranks) {
        return Ok(ranks);
    }
    let none = Vec::new(alloc);
    Ok(none)
}

// Whether a place has a lower rank than another by the text, and no higher one by the other order.
fn is_below(ranks: &Ranks, place: usize, next: usize) -> bool
    ensures { IsTrue result ↔ IsBelow ranks.now place next }
{
    rank_of(&ranks.by_text, place) < rank_of(&ranks.by_text, next)
        && is_up_to(&ranks.against_text, place, next)
}

// Whether all ways from a place lead to such others.
fn goes_up<'a>(tables: &'a Tables<'a>, ranks: &Ranks, place: usize) -> bool
    ensures { IsTrue result ↔ GoesUp tables.entry.now ranks.now place }
{
    for next in tables.tos(place) {
        if !is_below(ranks, place, *next) {
            return false;
        }
    }
    true
}

// Whether by their ranks ways that take no time lead from neither of two places to the other: by the text the second comes first, by the other
// order the first does.
fn is_apart(ranks: &Ranks, p: usize, q: usize) -> bool
    ensures { IsTrue result ↔ IsApart ranks.now p q }
{
    rank_of(&ranks.by_text, q) < rank_of(&ranks.by_text, p)
        && rank_of(&ranks.against_text, p) < rank_of(&ranks.against_text, q)
}

// Whether that can be told of a place of a list and the next one, and of the first and itself.
fn is_apart_at<'a>(tables: &'a Tables<'a>, ranks: &Ranks, places: &[usize], k: usize) -> bool
    requires { k < length places.now }
    ensures { IsTrue result ↔ ApartAt tables.entry.now ranks.now places.now k }
{
    if !goes_up(tables, ranks, places[k]) {
        return false;
    }
    if k + 1 >= places.len() {
        return true;
    }
    is_apart(ranks, places[k], places[k + 1])
}

impl Ranks {
    /// Ranks that tell nothing.
    pub(crate) fn none(alloc: Global) -> Ranks
        ensures { (t : Chart) → AreRanks t result }
    {
        let by_text = Vec::new(alloc);
        let against_text = Vec::new(alloc);
        Ranks {
            by_text,
            against_text,
        }
    }

    /// The ranks of the places of a process. It takes as long as its text, up to a logarithm.
    pub(crate) fn of<'a>(alloc: Global, tables: &'a Tables<'a>) -> Result<Ranks, AllocError>
        ensures { IfOk result (λ ranks. AreRanks tables.entry.now ranks) }
    {
        let by_text = ranks_left(alloc, &*tables, false)?;
        let against_text = ranks_left(alloc, &*tables, true)?;
        Ok(Ranks {
            by_text,
            against_text,
        })
    }

    /// Whether by their ranks ways that take no time lead from none of some places to one of them, the places in ascending order. It takes as long
    /// as there are places.
    pub(crate) fn are_apart<'a>(&self, tables: &'a Tables<'a>, places: &[usize]) -> bool
        ensures { IsTrue result ↔ ((k : ℕ) → k < length places.now → ApartAt tables.entry.now self.now places.now k) }
    {
        for k in 0..places.len() {
            if !is_apart_at(&*tables, self, places, k) {
                return false;
            }
        }
        true
    }
}
