//! The residues at which delay controls can end.

use crate::arrivals::{Arrival, Arrivals, delayed, stop_at};
use crate::vs_certificate::Rules;
use std::alloc::{AllocError, Global};
use vs_design::Statement;
use vs_process::TextMap;

// How many residues a list of a certificate may have.
fn most_residues(rules: Rules) -> usize {
    match rules {
        Rules::Narrow => 64,
        Rules::Wide => 4_096,
    }
}

// Numbers that rise, each once.
fn once_each(alloc: Global, sorted: &[u64]) -> Result<Vec<u64>, AllocError> {
    let mut list = Vec::new(alloc);
    for number in sorted {
        if list.last() != Some(number) {
            list.push(*number)?;
        }
    }
    Ok(list)
}

// The residues at which a control of so many ticks can end to which a text comes so, rising.
fn ends(
    alloc: Global,
    arrivals: &[Arrival],
    ticks: u64,
    modulus: u64,
) -> Result<Vec<u64>, AllocError> {
    let mut list = Vec::new(alloc);
    for arrival in arrivals {
        if let Arrival::Residue(r) = delayed(*arrival, ticks, modulus) {
            list.push(r)?;
        }
    }
    list.sort()?;
    once_each(alloc, &list)
}

// The list of a place, with the number of its control, where there is one there.
fn list_at(
    alloc: Global,
    map: &TextMap,
    arrivals: &Arrivals,
    place: usize,
    modulus: u64,
) -> Result<Option<(u32, Vec<u64>)>, AllocError> {
    let Some(stop) = stop_at(&map.stops, place) else {
        return Ok(None);
    };
    let Some(s) = stop.statement else {
        return Ok(None);
    };
    match s {
        Statement::Delay(number, ticks, _) => {
            let list = ends(alloc, arrivals.at(place), ticks.count, modulus)?;
            Ok(Some((*number, list)))
        }
        _ => Ok(None),
    }
}

// So many places for lists.
fn no_lists(alloc: Global, count: usize) -> Result<Vec<Option<Vec<u64>>>, AllocError> {
    let mut table = Vec::new(alloc);
    for _ in 0..count {
        table.push(None)?;
    }
    Ok(table)
}

/// For each delay control of a text, in its order, the residues at which it can end, rising; none where one has more of them than a list of a
/// certificate.
pub(crate) fn delay_lists(
    alloc: Global,
    map: &TextMap,
    arrivals: &Arrivals,
    rules: Rules,
    modulus: u64,
) -> Result<Option<Vec<Vec<u64>>>, AllocError> {
    let places = map.stops.len().saturating_add(1);
    let mut table = no_lists(alloc, places)?;
    for place in 0..places {
        if let Some((number, list)) = list_at(alloc, map, arrivals, place, modulus)? {
            if list.len() > most_residues(rules) {
                return Ok(None);
            }
            if let Some(entry) = table.get_mut(number as usize) {
                *entry = Some(list);
            }
        }
    }
    let mut lists = Vec::new(alloc);
    for entry in table {
        if let Some(list) = entry {
            lists.push(list)?;
        }
    }
    Ok(Some(lists))
}
