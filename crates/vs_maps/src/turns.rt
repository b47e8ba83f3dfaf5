//! Statements that surely have a turn.
ghost use Rattle.std.specs.Prelude.{◌≡◌, ◌&&◌, [], map, IfOk};
ghost use Rattle.vs_design.specs.Uses.{reads};
ghost use Rattle.vs_design.specs.declared.statement.Statement.TheViews.{out-Statement};
ghost use Rattle.vs_eval.specs.Values.{value_of};
ghost use Rattle.vs_process.specs.Steps.{has_nothing, turns_for};
ghost use Rattle.vs_process.specs.Stops.{statement_view, stop_view};
ghost use Rattle.vs_rules.specs.Points.{has_turn, surely_turns};
ghost use Rattle.vs_maps.specs.Reaches.{statement_turns, stop_turns};

use std::alloc::{AllocError, Global};
use vs_design::vs_logic4::Vec4;
use vs_design::{Statement, Store, Typed, reads};
use vs_eval::value;
use vs_process::Stop;

// Whether a count stands for a turn: it is above 0, and has no digit x or z.
fn has_turn(signed: bool, count: Vec4) -> bool
    ensures { result ≡ has_turn (turns_for signed count) }
{
    if signed {
        match count.to_signed() {
            Some(n) => n > 0,
            None => false,
        }
    } else {
        match count.to_number() {
            Some(n) => n > 0,
            None => false,
        }
    }
}

// Whether an expression names no signal.
fn reads_nothing(alloc: Global, e: &Typed) -> Result<bool, AllocError>
    ensures { IfOk result (λ b. b ≡ has_nothing (reads e.now)) }
{
    let ranges = reads(alloc, e)?;
    Ok(ranges.is_empty())
}

// The value of an expression in a store without signals.
fn value_alone(alloc: Global, e: &Typed) -> Vec4
    ensures { result ≡ value_of e.now [] 0 }
{
    let store = Store::without_signals(alloc);
    value(e, &store, 0)
}

// Whether a count is a constant that stands for a turn: it is one where it names no signal, and has its value in a store without signals.
fn is_sure(alloc: Global, signed: bool, count: &Typed) -> Result<bool, AllocError>
    ensures { IfOk result (λ b. b ≡ (has_nothing (reads count.now) && has_turn (turns_for signed (value_of count.now [] 0)))) }
{
    if reads_nothing(alloc, count)? {
        Ok(has_turn(signed, value_alone(alloc, count)))
    } else {
        Ok(false)
    }
}

/// Whether a statement is a `repeat` whose count is a constant above 0 (IEEE 1364-2005, clause 9.6): it has a turn, whatever the store.
pub fn surely_turns(alloc: Global, s: &Statement) -> Result<bool, AllocError>
    ensures { IfOk result (λ b. b ≡ surely_turns (out-Statement s.now)) }
{
    match s {
        Statement::Repeat(_, signed, count, _) => is_sure(alloc, *signed, count),
        _ => Ok(false),
    }
}

// Whether the statement of a place surely has a turn, where there is one.
fn statement_turns<'a>(alloc: Global, s: Option<&'a Statement>) -> Result<bool, AllocError>
    ensures { IfOk result (λ b. b ≡ statement_turns (statement_view s.entry)) }
{
    match s {
        None => Ok(false),
        Some(s) => surely_turns(alloc, s),
    }
}

/// Which stops of a map surely have a turn: a mark for each. It takes as long as the counts of the text.
pub fn turns_of<'a>(alloc: Global, stops: &'a [Stop<'a>]) -> Result<Vec<bool>, AllocError>
    ensures { IfOk result (λ turns. turns.items ≡ map stop_turns (map stop_view stops.entry.now)) }
{
    let mut turns = Vec::new(alloc);
    for stop in stops {
        let sure = statement_turns(alloc, stop.statement)?;
        turns.push(sure)?;
    }
    Ok(turns)
}
