//! What walks on a map lead to.
ghost use Rattle.std.specs.Prelude.{ℕ, ◌≡◌, ◌<◌, ◌↔◌, ◌++◌, ◌&&◌, ◌∷◌, [], suc, map, length, IfOk, OnOk, List};
ghost use Rattle.std.specs.List.{Contains};
ghost use Rattle.vs_process.specs.Stops.{LeadsIn, stop_view, stop_at, stop_statement};
ghost use Rattle.vs_graph.specs.Reached.{Reached, AreReached};
ghost use Rattle.vs_graph.specs.Clear.{AreClear};
ghost use Rattle.vs_maps.specs.Reaches.{is_turned, statement_turns, stop_turns, stops_along, stops_steps, stop_seen, tos_by_turn};
ghost use Rattle.vs_maps.specs.Inside.{along_in, steps_in};

use crate::along::Along;
use crate::pauses::{passes, pause_of};
use std::alloc::{AllocError, Global};
use vs_graph::{Graph, reach, walk};
use vs_process::Stop;

/// The places of a map, which of its stops surely have a turn, and the ways that count.
#[derive(Drop)]
struct Ways<'a> {
    stops: &'a [Stop<'a>],
    turns: &'a [bool],
    along: Along,
    ghost within: { LeadsIn (suc (length stops.now)) (map stop_view stops.now) },
    ghost turns_are: { turns.now ≡ map stop_turns (map stop_view stops.now) },
}

/// The stop at a place, where there is one: place 0 is the end, and the others are numbered from 1 on.
pub(crate) fn stop_at<'a>(stops: &'a [Stop<'a>], place: usize) -> Option<&'a Stop<'a>>
    ensures { stop_seen result ≡ stop_at (map stop_view stops.entry.now) place }
{
    if place == 0 {
        return None;
    }
    if place > stops.len() {
        return None;
    }
    Some(&stops[place - 1])
}

// Whether of the ways from a turn that is sure the first alone counts.
fn is_turned(along: Along) -> bool
    ensures { result ≡ is_turned along }
{
    match along {
        Along::Any => false,
        Along::Plain(by_turn) | Along::ZeroTime(by_turn) => by_turn,
    }
}

/// All ways, or the first alone.
pub fn tos_by_turn<'a>(first: bool, tos: &'a [usize]) -> &'a [usize]
    ensures { result.now ≡ tos_by_turn first tos.entry.now }
{
    if first && tos.len() > 1 {
        &tos[..1]
    } else {
        tos
    }
}

impl<'a> Ways<'a> {
    // Whether of the ways from a place the first alone counts.
    fn is_by_turn(&self, place: usize) -> bool
        ensures { result ≡
            (is_turned self.now.along && statement_turns (stop_statement (stop_at (map stop_view self.now.stops.now) place))) }
    {
        if !is_turned(self.along) {
            return false;
        }
        if place == 0 {
            return false;
        }
        if place > self.turns.len() {
            return false;
        }
        self.turns[place - 1]
    }
}

impl<'a> Graph for Ways<'a> {
    ghost count = { λ g. suc (length g.stops.now) };

    ghost nexts = { λ g. stops_along g.along (map stop_view g.stops.now) };

    fn count(&self) -> usize {
        self.stops.len() + 1
    }

    fn put_nexts(&self, node: usize, todo: &mut Vec<usize>) -> Result<(), AllocError> {
        match stop_at(self.stops, node) {
            None => todo.push(0)?,
            Some(stop) => {
                if passes(self.along, pause_of(stop.statement)) {
                    todo.extend_from_slice(tos_by_turn(self.is_by_turn(node), &stop.tos))?;
                }
            }
        }
        Ok(())
    }

    ghost inside = { λ g. along_in g.along (suc (length g.stops.now)) (map stop_view g.stops.now) g.within };
}

/// The places of a map to which walks along the ways that count lead from one of these: a mark for each place, the end among them. It takes as
/// long as the map has places and ways.
pub(crate) fn places_along<'a>(
    alloc: Global,
    stops: &'a [Stop<'a>],
    turns: &'a [bool],
    along: Along,
    seeds: &[usize],
) -> Result<Vec<bool>, AllocError>
    requires within { LeadsIn (suc (length stops.now)) (map stop_view stops.now) }
    requires turns { turns.now ≡ map stop_turns (map stop_view stops.now) }
    requires seeds { (s : ℕ) → Contains seeds.now s → s < suc (length stops.now) }
    ensures len { IfOk result (λ marks. length marks.items ≡ suc (length stops.entry.now)) }
    ensures exact { IfOk result (λ marks.
        AreReached (stops_along along (map stop_view stops.entry.now)) seeds.now (suc (length stops.entry.now)) marks.items) }
{
    let ways = Ways {
        stops,
        turns,
        along,
    };
    let marks = reach(alloc, &ways, seeds)?;
    Ok(marks)
}

/// The places of a map to which walks along the ways that count lead from one of these. It takes as long as these places are and their ways: the
/// marks, of which none is set, are as they were at the end.
pub(crate) fn places_from<'a>(
    alloc: Global,
    stops: &'a [Stop<'a>],
    turns: &'a [bool],
    along: Along,
    seeds: &[usize],
    marks: &mut Vec<bool>,
) -> Result<Vec<usize>, AllocError>
    requires within { LeadsIn (suc (length stops.now)) (map stop_view stops.now) }
    requires turns { turns.now ≡ map stop_turns (map stop_view stops.now) }
    requires seeds { (s : ℕ) → Contains seeds.now s → s < suc (length stops.now) }
    requires marks { AreClear (suc (length stops.now)) marks.old.items }
    ensures clear { OnOk result (AreClear (suc (length stops.entry.now)) marks.new.items) }
    ensures exact { IfOk result (λ places. (p : ℕ) →
        (Contains places.items p ↔ Reached (stops_along along (map stop_view stops.entry.now)) seeds.now p)) }
{
    let ways = Ways {
        stops,
        turns,
        along,
    };
    let places = walk(alloc, &ways, seeds, marks)?;
    Ok(places)
}

/// The places of a map, and where it leads from each, by a way or by leaving out what is done there.
#[derive(Drop)]
struct Steps<'a> {
    stops: &'a [Stop<'a>],
    ghost within: { LeadsIn (suc (length stops.now)) (map stop_view stops.now) },
}

impl<'a> Graph for Steps<'a> {
    ghost count = { λ g. suc (length g.stops.now) };

    ghost nexts = { λ g. stops_steps (map stop_view g.stops.now) };

    fn count(&self) -> usize {
        self.stops.len() + 1
    }

    fn put_nexts(&self, node: usize, todo: &mut Vec<usize>) -> Result<(), AllocError> {
        match stop_at(self.stops, node) {
            None => {
                todo.push(0)?;
                todo.push(0)?;
            }
            Some(stop) => {
                todo.push(stop.behind)?;
                todo.extend_from_slice(&stop.tos)?;
            }
        }
        Ok(())
    }

    ghost inside = { λ g. steps_in (suc (length g.stops.now)) (map stop_view g.stops.now) g.within };
}

/// The places of a map that are points of the text: a mark for each place, the end among them.
pub(crate) fn points<'a>(
    alloc: Global,
    stops: &'a [Stop<'a>],
    start: usize,
) -> Result<Vec<bool>, AllocError>
    requires within { LeadsIn (suc (length stops.now)) (map stop_view stops.now) }
    requires start { start < suc (length stops.now) }
    ensures len { IfOk result (λ marks. length marks.items ≡ suc (length stops.entry.now)) }
    ensures exact { IfOk result (λ marks.
        AreReached (stops_steps (map stop_view stops.entry.now)) (start ∷ []) (suc (length stops.entry.now)) marks.items) }
{
    let steps = Steps { stops };
    let marks = reach(alloc, &steps, &[start])?;
    Ok(marks)
}
