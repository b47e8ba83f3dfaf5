//! The residues at which edges can fire.

use crate::arrivals::{Arrival, Arrivals, stop_at};
use crate::clocks::is_in_phase;
use std::alloc::{AllocError, Global};
use vs_design::vs_logic4::{Digit, Edge};
use vs_design::{EventTerm, Statement, writes};
use vs_drivers::vs_maps::has_signal;
use vs_drivers::vs_slots_constants::{Bit, Clock, given_by};
use vs_process::TextMap;

/// The residues at which the edges of a root can fire.
#[derive(Drop)]
pub struct Firing {
    /// Its rises, in no order that is promised.
    pub rises: Vec<u64>,
    /// Its falls.
    pub falls: Vec<u64>,
}

impl Firing {
    /// That of a root whose edges fire at none.
    pub fn none(alloc: Global) -> Firing {
        Firing {
            rises: Vec::new(alloc),
            falls: Vec::new(alloc),
        }
    }
}

/// What a signal shows: a root that it copies, itself or by way of nets, or the inverse of one.
#[derive(Clone, Copy)]
pub struct Shown {
    /// The root; the signal itself, where it is no copy.
    pub root: usize,
    /// Whether an odd number of the copies are inverse.
    pub is_inverted: bool,
}

impl Shown {
    /// What a signal shows that is no copy: itself.
    pub fn itself(v: usize) -> Shown {
        Shown {
            root: v,
            is_inverted: false,
        }
    }

    /// What its inverse shows.
    pub fn inverted(self) -> Shown {
        Shown {
            root: self.root,
            is_inverted: !self.is_inverted,
        }
    }
}

/// The residues at which the edges of all roots can fire.
#[derive(Drop)]
pub struct Firings {
    // Of each signal of an edge term what it shows of its root; of others themselves.
    shown: Vec<Shown>,
    // Of each signal, where it is a root.
    rows: Vec<Firing>,
}

impl Firings {
    /// Those of a design in which nothing fires.
    pub fn none(alloc: Global) -> Firings {
        Firings {
            shown: Vec::new(alloc),
            rows: Vec::new(alloc),
        }
    }

    /// Those by what each signal shows, itself where no edge term names it, and the residues of each signal, where it is a root.
    pub fn of_roots(shown: Vec<Shown>, rows: Vec<Firing>) -> Firings {
        Firings { shown, rows }
    }

    /// The residues at which a term can fire; none of a term without an edge. Where its signal shows the root inverted, the root has the other edge.
    pub(crate) fn of(&self, term: EventTerm) -> &[u64] {
        let Some(shown) = self.shown.get(term.range.signal) else {
            return &[];
        };
        let Some(row) = self.rows.get(shown.root) else {
            return &[];
        };
        match (term.edge, shown.is_inverted) {
            (Edge::Any, _) => &[],
            (Edge::Posedge, false) | (Edge::Negedge, true) => row.rises.as_slice(),
            (Edge::Negedge, false) | (Edge::Posedge, true) => row.falls.as_slice(),
        }
    }
}

// Whether the write of a constant, or of no constant, counts for an edge.
fn counts(edge: Edge, given: Option<Digit>) -> bool {
    match given {
        None => true,
        Some(digit) => match edge {
            Edge::Any => true,
            Edge::Posedge => !matches!(digit, Digit::Zero),
            Edge::Negedge => !matches!(digit, Digit::One),
        },
    }
}

// Whether an edge of a signal, which may be a clock, can fire at a residue at which it is written.
fn may_fire(clock: Option<Clock>, edge: Edge, modulus: u64, residue: u64) -> bool {
    match clock {
        None => true,
        Some(clock) => is_in_phase(clock, edge, modulus, residue),
    }
}

// Whether a statement writes a signal.
fn is_write(alloc: Global, statement: &Statement, signal: usize) -> Result<bool, AllocError> {
    match statement {
        Statement::Assign(_, target, _) | Statement::Later(_, _, target, _) => {
            let ranges = writes(alloc, target)?;
            Ok(has_signal(&ranges, signal))
        }
        _ => Ok(false),
    }
}

/// A root, with what its edges hang on but for its writer's text.
#[derive(Clone, Copy)]
pub struct Root {
    /// Its number.
    pub signal: usize,
    /// What it is as a clock.
    pub clock: Option<Clock>,
    /// By which residues are told.
    pub modulus: u64,
}

impl Root {
    // Puts the residues at which an edge can fire, by a write of this constant at a place to which its text comes so.
    fn put_edges(
        self,
        out: &mut Vec<u64>,
        edge: Edge,
        given: Option<Digit>,
        arrivals: &[Arrival],
    ) -> Result<(), AllocError> {
        if !counts(edge, given) {
            return Ok(());
        }
        for arrival in arrivals {
            if let Arrival::Residue(r) = *arrival {
                if may_fire(self.clock, edge, self.modulus, r) {
                    out.push(r)?;
                }
            }
        }
        Ok(())
    }

    // Puts what a statement does at a place to which its text comes so.
    fn put_statement(
        self,
        alloc: Global,
        out: &mut Firing,
        statement: &Statement,
        arrivals: &[Arrival],
    ) -> Result<(), AllocError> {
        if !is_write(alloc, statement, self.signal)? {
            return Ok(());
        }
        let given = given_by(alloc, statement, Bit::lowest(self.signal))?;
        self.put_edges(&mut out.rises, Edge::Posedge, given, arrivals)?;
        self.put_edges(&mut out.falls, Edge::Negedge, given, arrivals)
    }

    /// The residues at which its edges can fire, by the map of its writer's text.
    pub(crate) fn firing_on(
        self,
        alloc: Global,
        map: &TextMap,
        arrivals: &Arrivals,
    ) -> Result<Firing, AllocError> {
        let mut out = Firing::none(alloc);
        for place in 0..map.stops.len().saturating_add(1) {
            if let Some(stop) = stop_at(&map.stops, place) {
                if let Some(statement) = stop.statement {
                    self.put_statement(alloc, &mut out, statement, arrivals.at(place))?;
                }
            }
        }
        Ok(out)
    }
}
