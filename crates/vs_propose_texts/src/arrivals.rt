//! How a text comes to each place of its map.

use crate::firing::Firings;
use crate::vs_certificate::Rules;
use std::alloc::{AllocError, Global};
use vs_design::{EventTerm, Statement};
use vs_drivers::vs_maps::{tos_by_turn, turns_of};
use vs_process::{Stop, TextMap};

// How many ways to come to one place are told apart: by wide rules as many as a list may have residues, and those without one.
fn most_arrivals(rules: Rules) -> usize {
    match rules {
        Rules::Narrow => 1_024,
        Rules::Wide => 4_100,
    }
}

/// How a text comes to a place of its map.
#[derive(Clone, Copy, PartialEq, Eq, PartialOrd, Ord)]
pub(crate) enum Arrival {
    /// From its start, through no control.
    Start,
    /// In the first slot, through delays of zero ticks.
    FirstSlot,
    /// At a time above 0, in ticks, that has this residue.
    Residue(u64),
    /// After an event control; at a residue too, where one of its terms can fire.
    Woken,
}

/// For each place of a map, the end first, how its text comes there.
#[derive(Drop)]
pub(crate) struct Arrivals {
    rows: Vec<Vec<Arrival>>,
}

impl Arrivals {
    /// Those of a text that comes nowhere.
    pub(crate) fn none(alloc: Global) -> Arrivals {
        Arrivals {
            rows: Vec::new(alloc),
        }
    }

    /// How the text comes to a place.
    pub(crate) fn at(&self, place: usize) -> &[Arrival] {
        match self.rows.get(place) {
            None => &[],
            Some(row) => row,
        }
    }
}

// The residue of so many ticks.
fn residue(ticks: u64, modulus: u64) -> u64 {
    if modulus == 0 { 0 } else { ticks % modulus }
}

/// How a text that comes to a delay control comes out of it.
pub(crate) fn delayed(arrival: Arrival, ticks: u64, modulus: u64) -> Arrival {
    match arrival {
        Arrival::Start | Arrival::FirstSlot => {
            if ticks == 0 {
                Arrival::FirstSlot
            } else {
                Arrival::Residue(residue(ticks, modulus))
            }
        }
        Arrival::Residue(r) => Arrival::Residue(residue(r.saturating_add(ticks), modulus)),
        Arrival::Woken => Arrival::Woken,
    }
}

// How a text that comes to a statement goes on from there.
fn arrival_after(statement: Option<&Statement>, arrival: Arrival, modulus: u64) -> Arrival {
    match statement {
        None => arrival,
        Some(s) => match s {
            Statement::Delay(_, ticks, _) => delayed(arrival, ticks.count, modulus),
            Statement::Event(_, _, _) => Arrival::Woken,
            _ => arrival,
        },
    }
}

/// The stop at a place, where there is one: place 0 is the end, and the others are numbered from 1 on.
pub(crate) fn stop_at<'a>(stops: &'a [Stop<'a>], place: usize) -> Option<&'a Stop<'a>> {
    if place == 0 {
        return None;
    }
    stops.get(place - 1)
}

// A walk through a map that isn't done.
#[derive(Drop)]
struct Walk {
    rows: Vec<Vec<Arrival>>,
    todo: Vec<(usize, Arrival)>,
    // For each stop, whether a text passes it by a turn alone.
    turns: Vec<bool>,
    // How many ways to come to one place are told apart.
    most: usize,
    is_full: bool,
}

// For each stop of a map, whether a text passes it by a turn alone: by wide rules where it surely has one.
fn turns_by(alloc: Global, map: &TextMap, rules: Rules) -> Result<Vec<bool>, AllocError> {
    match rules {
        Rules::Narrow => Ok(Vec::new(alloc)),
        Rules::Wide => turns_of(alloc, &map.stops),
    }
}

// Puts a way to come into a row that ascends, where it isn't there. The answer is whether it is new; none where there are too many.
fn put(row: &mut Vec<Arrival>, arrival: Arrival, most: usize) -> Result<Option<bool>, AllocError> {
    let Err(at) = row.binary_search(&arrival) else {
        return Ok(Some(false));
    };
    if row.len() >= most {
        return Ok(None);
    }
    row.insert(at, arrival)?;
    Ok(Some(true))
}

impl Walk {
    // A walk that has come nowhere.
    fn new(
        alloc: Global,
        places: usize,
        turns: Vec<bool>,
        most: usize,
    ) -> Result<Walk, AllocError> {
        let mut rows = Vec::new(alloc);
        for _ in 0..places {
            rows.push(Vec::new(alloc))?;
        }
        Ok(Walk {
            rows,
            todo: Vec::new(alloc),
            turns,
            most,
            is_full: false,
        })
    }

    // Comes to a place.
    fn visit(&mut self, place: usize, arrival: Arrival) -> Result<(), AllocError> {
        let most = self.most;
        let is_new = match self.rows.get_mut(place) {
            None => Some(false),
            Some(row) => put(row, arrival, most)?,
        };
        match is_new {
            None => self.is_full = true,
            Some(true) => self.todo.push((place, arrival))?,
            Some(false) => {}
        }
        Ok(())
    }

    // Comes to a place at some residues.
    fn visit_at(&mut self, place: usize, residues: &[u64]) -> Result<(), AllocError> {
        for residue in residues {
            self.visit(place, Arrival::Residue(*residue))?;
        }
        Ok(())
    }

    // Comes to a place at all residues at which some terms can fire.
    fn wake(
        &mut self,
        place: usize,
        terms: &[EventTerm],
        firings: &Firings,
    ) -> Result<(), AllocError> {
        for term in terms {
            self.visit_at(place, firings.of(*term))?;
        }
        Ok(())
    }

    // Comes out of a place, where it is an event control.
    fn wake_from(&mut self, stop: &Stop, firings: &Firings) -> Result<(), AllocError> {
        for to in &stop.tos {
            self.wake(*to, terms_of(stop.statement), firings)?;
        }
        Ok(())
    }

    // Comes out of each event control, be it ever reached or not: the rules don't ask that.
    fn wake_all(&mut self, map: &TextMap, firings: &Firings) -> Result<(), AllocError> {
        for place in 0..map.stops.len().saturating_add(1) {
            if let Some(stop) = stop_at(&map.stops, place) {
                self.wake_from(stop, firings)?;
            }
        }
        Ok(())
    }

    // Whether a text passes a place by a turn alone.
    fn is_by_turn(&self, place: usize) -> bool {
        if place == 0 {
            return false;
        }
        match self.turns.get(place - 1) {
            None => false,
            Some(sure) => *sure,
        }
    }

    // Goes on from a place.
    fn go(
        &mut self,
        map: &TextMap,
        place: usize,
        arrival: Arrival,
        modulus: u64,
    ) -> Result<(), AllocError> {
        let Some(stop) = stop_at(&map.stops, place) else {
            return Ok(());
        };
        let next = arrival_after(stop.statement, arrival, modulus);
        for to in tos_by_turn(self.is_by_turn(place), &stop.tos) {
            self.visit(*to, next)?;
        }
        Ok(())
    }
}

// The terms of a statement, where it is an event control.
fn terms_of<'a>(statement: Option<&'a Statement>) -> &'a [EventTerm] {
    match statement {
        None => &[],
        Some(s) => match s {
            Statement::Event(_, terms, _) => terms,
            _ => &[],
        },
    }
}

/// How a text comes to each place of its map, with residues by a modulus, and at those at which the terms of its event controls can fire; none where
/// there are too many ways. It takes as long as the map has places and ways, times how many residues there are.
pub(crate) fn all_arrivals(
    alloc: Global,
    map: &TextMap,
    rules: Rules,
    modulus: u64,
    firings: &Firings,
) -> Result<Option<Arrivals>, AllocError> {
    let places = map.stops.len().saturating_add(1);
    let turns = turns_by(alloc, map, rules)?;
    let mut walk = Walk::new(alloc, places, turns, most_arrivals(rules))?;
    walk.visit(map.start, Arrival::Start)?;
    walk.wake_all(map, firings)?;
    for _ in 0..u64::MAX {
        let Some((place, arrival)) = walk.todo.pop() else {
            break;
        };
        walk.go(map, place, arrival, modulus)?;
        if walk.is_full {
            return Ok(None);
        }
    }
    Ok(Some(Arrivals { rows: walk.rows }))
}
