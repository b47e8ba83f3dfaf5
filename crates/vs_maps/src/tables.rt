//! The tables of a process.
ghost use Rattle.std.specs.Prelude.{ℕ, ◌≡◌, ◌<◌, ◌↔◌, length, IfOk, OnOk, IsTrue};
ghost use Rattle.std.specs.List.{Contains};

use crate::along::Along;
use crate::paths::{places_along, places_from, points, stop_at};
use crate::pauses::{Pause, pause_of};
use crate::turns::turns_of;
use std::alloc::{AllocError, Global};
use std::marker::Model;
use vs_process::{Stop, TextMap};

/// What paths of the text of a process lead to. A contract sees the map of the text.
#[derive(Drop)]
pub struct Tables<'a> {
    text: &'a TextMap<'a>,
    turns: Vec<bool>,
    points: Vec<bool>,
    slot0: Vec<bool>,
    slot0_by_turns: Vec<bool>,
    prologue: Vec<bool>,
    prologue_by_turns: Vec<bool>,
}

impl<'a> Model for Tables<'a> {
    ghost use Rattle.std.specs.Prelude.{suc, true, false, length};
    ghost use Rattle.std.specs.Coded.{codes};
    ghost use Rattle.vs_design.specs.contracts.statement.Statement as statement;
    ghost use Rattle.vs_maps.specs.Reaches.{Chart, chart_of, AreTables, AreEarly};

    ghost Value = { Chart };

    ghost coded = { Prim.hlevel (codes, statement.the_row.coded) };

    ghost view = { λ t. chart_of t.text.now };

    ghost invariant = { λ t.
        AreTables (suc (length t.text.now.stops.items)) (chart_of t.text.now) t.turns.items t.points.items
        × AreEarly (suc (length t.text.now.stops.items)) (chart_of t.text.now) false t.slot0.items t.prologue.items
        × AreEarly (suc (length t.text.now.stops.items)) (chart_of t.text.now) true t.slot0_by_turns.items t.prologue_by_turns.items };
}

impl<'a> Tables<'a> {
    ghost use Rattle.vs_process.specs.Stops.{LeadsIn, stop_at, stops_tos};
    ghost use Rattle.vs_graph.specs.Reached.{Reached, AreReached};
    ghost use Rattle.vs_graph.specs.Clear.{AreClear};
    ghost use Rattle.vs_maps.specs.Reaches.{chart_of, places, pause_at, pause_view, stop_seen, stops_along};
    ghost use Rattle.vs_maps.specs.Reaches.{IsPlace, InSlot0, InPrologue};

    /// The tables of a map.
    pub fn new(alloc: Global, text: &'a TextMap<'a>) -> Result<Tables<'a>, AllocError>
        requires within { LeadsIn (places (chart_of text.now)) (chart_of text.now).stops }
        requires start { text.now.start < places (chart_of text.now) }
        ensures { IfOk result (λ t. t ≡ chart_of text.entry.now) }
    {
        let turns = turns_of(alloc, &text.stops)?;
        let points = points(alloc, &text.stops, text.start)?;
        let start = [text.start];
        let slot0 = places_along(alloc, &text.stops, &turns, Along::ZeroTime(false), &start)?;
        let slot0_by_turns = places_along(
            alloc,
            &text.stops,
            &turns,
            Along::ZeroTime(true),
            &start,
        )?;
        let prologue = places_along(alloc, &text.stops, &turns, Along::Plain(false), &start)?;
        let prologue_by_turns = places_along(
            alloc,
            &text.stops,
            &turns,
            Along::Plain(true),
            &start,
        )?;
        Ok(Tables {
            text,
            turns,
            points,
            slot0,
            slot0_by_turns,
            prologue,
            prologue_by_turns,
        })
    }

    /// All ways from a place, and what is left without it, are at places; points are places too.
    pub fn leads_in(&self)
        ensures start { self.now.start < places self.now }
        ensures ways { LeadsIn (places self.now) self.now.stops }
        ensures points { (p : ℕ) → IsPlace self.now p → p < places self.now }
    {
        let _ = &self.text;
    }

    /// How many places there are, the end among them.
    pub fn places(&self) -> usize
        ensures { result ≡ places self.now }
    {
        self.text.stops.len() + 1
    }

    /// The place of the start.
    pub fn start(&self) -> usize
        ensures { result ≡ self.now.start }
    {
        self.text.start
    }

    /// The stop at a place, where there is one: place 0 is the end, and the others are numbered from 1 on.
    pub fn stop(&self, place: usize) -> Option<&'a Stop<'a>>
        ensures { stop_seen result ≡ stop_at self.now.stops place }
    {
        stop_at(&self.text.stops, place)
    }

    /// The places where a place leads.
    pub fn tos(&self, place: usize) -> &'a [usize]
        ensures are { result.now ≡ stops_tos self.now.stops place }
        ensures within { (q : ℕ) → Contains result.now q → q < places self.now }
    {
        match stop_at(&self.text.stops, place) {
            None => &[0],
            Some(stop) => &stop.tos,
        }
    }

    /// How all ways from a place go on.
    pub fn pause(&self, place: usize) -> Pause<'a>
        ensures { pause_view result ≡ pause_at self.now place }
    {
        match self.stop(place) {
            None => Pause::Nothing,
            Some(stop) => pause_of(stop.statement),
        }
    }

    /// Whether a place is a point.
    pub fn is_point(&self, place: usize) -> bool
        requires { place < places self.now }
        ensures { IsTrue result ↔ IsPlace self.now place }
    {
        self.points[place]
    }

    /// Whether a path without time leads to a place from the start, by wide rules past a turn that is sure by it alone.
    pub fn is_slot0(&self, wide: bool, place: usize) -> bool
        requires { place < places self.now }
        ensures { IsTrue result ↔ InSlot0 wide self.now place }
    {
        if wide {
            self.slot0_by_turns[place]
        } else {
            self.slot0[place]
        }
    }

    /// Whether a path through no control leads to a place from the start, by wide rules past a turn that is sure by it alone.
    pub fn is_prologue(&self, wide: bool, place: usize) -> bool
        requires { place < places self.now }
        ensures { IsTrue result ↔ InPrologue wide self.now place }
    {
        if wide {
            self.prologue_by_turns[place]
        } else {
            self.prologue[place]
        }
    }

    /// The places to which walks along the ways that count lead from one of these: a mark for each place. It takes as long as there are places
    /// and ways.
    pub fn along(
        &self,
        alloc: Global,
        along: Along,
        seeds: &[usize],
    ) -> Result<Vec<bool>, AllocError>
        requires { (s : ℕ) → Contains seeds.now s → s < places self.now }
        ensures len { IfOk result (λ marks. length marks.items ≡ places self.now) }
        ensures exact { IfOk result (λ marks. AreReached (stops_along along self.now.stops) seeds.now (places self.now) marks.items) }
    {
        places_along(alloc, &self.text.stops, &self.turns, along, seeds)
    }

    /// The same places as a list. It takes as long as they are and their ways: the marks, of which none is set, are as they were at the end.
    pub(crate) fn places_from(
        &self,
        alloc: Global,
        along: Along,
        seeds: &[usize],
        marks: &mut Vec<bool>,
    ) -> Result<Vec<usize>, AllocError>
        requires seeds { (s : ℕ) → Contains seeds.now s → s < places self.now }
        requires marks { AreClear (places self.now) marks.old.items }
        ensures clear { OnOk result (AreClear (places self.now) marks.new.items) }
        ensures exact { IfOk result (λ all. (p : ℕ) → (Contains all.items p ↔ Reached (stops_along along self.now.stops) seeds.now p)) }
    {
        places_from(alloc, &self.text.stops, &self.turns, along, seeds, marks)
    }
}
