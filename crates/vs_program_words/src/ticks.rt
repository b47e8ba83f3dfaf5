//! Ticks: the precision of a source's time scale (IEEE 1364-2005, clause 19.8).
ghost use Rattle.std.specs.Prelude.{◌≡◌, ◌≤◌, IfSome};
ghost use Rattle.vs_elaborate.specs.Timescales.{unit_exponent};
ghost use Rattle.vs_program_words.specs.Ticks.{AreTicks, tick_exponent};

use crate::GREATEST;
use crate::reading::read_source;
use std::alloc::{AllocError, Global};
use vs_design::{Magnitude, Ticks, TimeSpan, TimeUnit};
use vs_elaborate::{span_exponent, timescale_of};
use vs_syntax::Source;
use vs_syntax::vs_lexer::Directive;

// The power of ten that a unit of time is in femtoseconds.
fn unit_exponent(unit: TimeUnit) -> u32
    ensures value { result ≡ unit_exponent unit }
    ensures small { result ≤ 17 }
{
    span_exponent(TimeSpan {
        magnitude: Magnitude::One,
        unit,
    })
}

/// The power of ten that a tick of a source is in femtoseconds.
pub(crate) fn tick_exponent(source: &Source) -> u32
    ensures value { result ≡ tick_exponent source.now }
    ensures small { result ≤ 17 }
{
    span_exponent(timescale_of(source).precision)
}

// Whether directives give a time scale.
fn has_timescale_in(directives: &[Directive]) -> bool {
    directives.iter().any(|directive| matches!(directive, Directive::Timescale { .. }))
}

// Whether a source has a time scale.
fn has_timescale(source: &Source) -> bool {
    source
        .modules
        .iter()
        .any(|module| has_timescale_in(&module.directives))
        || has_timescale_in(&source.directives)
}

/// How many ticks so many of a unit are, where a tick is this power of ten in femtoseconds: nothing where they are no whole number, or none below
/// 2^62.
pub(crate) fn ticks_in(count: u64, unit: TimeUnit, tick: u32) -> Option<Ticks>
    requires { tick ≤ 17 }
    ensures { IfSome result (λ n. AreTicks count unit tick n.count) }
{
    let unit = unit_exponent(unit);
    let more = 10_u64.pow(unit.saturating_sub(tick));
    let less = 10_u64.pow(tick.saturating_sub(unit));
    let whole = count.checked_mul(more)?;
    if whole % less != 0 || whole / less > GREATEST {
        return None;
    }
    Some(Ticks {
        count: whole / less,
    })
}

/// What a tick stands for, as it is told.
#[derive(Clone, Copy)]
pub struct Tick {
    /// A tick, or 10 or 100, is so many of the unit, as zeros behind a number.
    pub zeros: &'static str,
    /// The unit's letters; `ticks` for a source without a time scale.
    pub unit: &'static str,
}

/// A tick that stands for nothing but itself.
const NO_TICK: Tick = Tick {
    zeros: "",
    unit: "ticks",
};

// A span of time by its power of ten.
fn tick_of(exponent: u32) -> Tick {
    let zeros = match exponent % 3 {
        0 => "",
        1 => "0",
        _ => "00",
    };
    let unit = match exponent / 3 {
        0 => "fs",
        1 => "ps",
        2 => "ns",
        3 => "us",
        4 => "ms",
        _ => "s",
    };
    Tick { zeros, unit }
}

/// What a tick of a source stands for.
pub(crate) fn source_tick(source: &Source) -> Tick {
    if has_timescale(source) {
        return tick_of(tick_exponent(source));
    }
    NO_TICK
}

/// What a tick of a text stands for.
pub fn text_tick(alloc: Global, text: &[u8]) -> Result<Tick, AllocError> {
    match read_source(alloc, text)? {
        Some(source) => Ok(source_tick(&source)),
        None => Ok(NO_TICK),
    }
}
