//! At which residues the delays of a text can end.

use crate::lists::empty_lists;
use crate::texts::TextFacts;
use std::alloc::{AllocError, Global};
use vs_design::Statement;

/// How many residues one statement is come to at, before the walk is given up.
const MAX_RESIDUES: usize = 1_024;

/// How a text comes to a statement: at time 0, where there is none, or at another time of this residue.
type Arrival = Option<u64>;

/// A walk along all ways, with residues.
#[derive(Drop)]
struct Walk {
    /// How each statement was come to.
    rows: Vec<Vec<Arrival>>,
    todo: Vec<(usize, Arrival)>,
    /// Whether there were too many residues.
    is_full: bool,
}

/// How a text goes on behind so many ticks.
fn delayed(arrival: Arrival, ticks: u64, modulus: u64) -> Arrival {
    if ticks == 0 {
        return arrival;
    }
    let sum = arrival.unwrap_or(0).saturating_add(ticks);
    Some(if modulus == 0 { 0 } else { sum % modulus })
}

impl Walk {
    /// Comes to a statement.
    fn visit(&mut self, place: usize, arrival: Arrival) -> Result<(), AllocError> {
        let Some(row) = self.rows.get_mut(place) else {
            return Ok(());
        };
        if row.contains(&arrival) {
            return Ok(());
        }
        if row.len() >= MAX_RESIDUES {
            self.is_full = true;
            return Ok(());
        }
        row.push(arrival)?;
        self.todo.push((place, arrival))?;
        Ok(())
    }

    /// Goes on from a statement.
    fn go(
        &mut self,
        text: &TextFacts,
        place: usize,
        arrival: Arrival,
        modulus: u64,
    ) -> Result<(), AllocError> {
        let (Some(point), Some(nexts)) = (text.points.get(place), text.ways.nexts.get(place)) else {
            return Ok(());
        };
        let next = match point.statement {
            Statement::Delay(_, ticks, _) => delayed(arrival, ticks.count, modulus),
            _ => arrival,
        };
        for to in nexts {
            self.visit(*to, next)?;
        }
        Ok(())
    }
}

/// The residues at which a delay ends to which a text comes so, rising.
fn ends(alloc: Global, row: &[Arrival], ticks: u64, modulus: u64) -> Result<Vec<u64>, AllocError> {
    let mut list = Vec::new(alloc);
    for arrival in row {
        if let Some(residue) = delayed(*arrival, ticks, modulus) {
            if !list.contains(&residue) {
                list.push(residue)?;
            }
        }
    }
    list.sort()?;
    Ok(list)
}

/// The delays of a text with the residues at which they can end behind time 0: the number of each, and its list, rising. There is no answer where
/// these are too many.
pub fn delay_ends(
    alloc: Global,
    text: &TextFacts,
    modulus: u64,
) -> Result<Option<Vec<(usize, Vec<u64>)>>, AllocError> {
    let mut walk = Walk {
        rows: empty_lists(alloc, text.points.len())?,
        todo: Vec::new(alloc),
        is_full: false,
    };
    walk.visit(text.flow.start, None)?;
    for _ in 0..u64::MAX {
        let Some((place, arrival)) = walk.todo.pop() else {
            break;
        };
        walk.go(text, place, arrival, modulus)?;
    }
    if walk.is_full {
        return Ok(None);
    }
    let mut all = Vec::new(alloc);
    for (number, (point, row)) in text.points.iter().zip(&walk.rows).enumerate() {
        if let Statement::Delay(_, ticks, _) = point.statement {
            all.push((number, ends(alloc, row, ticks.count, modulus)?))?;
        }
    }
    Ok(Some(all))
}
