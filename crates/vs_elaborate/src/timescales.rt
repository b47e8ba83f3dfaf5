//! Time scales of sources (IEEE 1364-2005, clause 19.8).
ghost use Rattle.std.specs.Prelude.{◌≡◌, ◌≤◌, not};
ghost use Rattle.std.specs.List.{list_any};
ghost use Rattle.vs_elaborate.specs.Timescales.{magnitude_of, unit_of, span_of, span_exponent, ratio_of, scale_in, scales_in, timescale_of, same_timescale, has_other_timescale};
ghost use Rattle.vs_elaborate.specs.passes.Scales.{as_list, first_of};

use vs_design::{DEFAULT_TIMESCALE, Magnitude, TimeSpan, TimeUnit, Timescale};
use vs_elab_statements::Ratio;
use vs_syntax::Source;
use vs_syntax::vs_lexer::{Directive, TextMagnitude, TextUnit, Time};

/// The number of a time of a text.
fn magnitude_of(number: TextMagnitude) -> Magnitude
    ensures { result ≡ magnitude_of number }
{
    match number {
        TextMagnitude::One => Magnitude::One,
        TextMagnitude::Ten => Magnitude::Ten,
        TextMagnitude::Hundred => Magnitude::Hundred,
    }
}

/// The unit of a time of a text.
fn unit_of(unit: TextUnit) -> TimeUnit
    ensures { result ≡ unit_of unit }
{
    match unit {
        TextUnit::Seconds => TimeUnit::Second,
        TextUnit::Milliseconds => TimeUnit::Millisecond,
        TextUnit::Microseconds => TimeUnit::Microsecond,
        TextUnit::Nanoseconds => TimeUnit::Nanosecond,
        TextUnit::Picoseconds => TimeUnit::Picosecond,
        TextUnit::Femtoseconds => TimeUnit::Femtosecond,
    }
}

/// A time of a text.
fn span_of(time: Time) -> TimeSpan
    ensures { result ≡ span_of time }
{
    TimeSpan {
        magnitude: magnitude_of(time.number),
        unit: unit_of(time.unit),
    }
}

/// The power of ten that a span of time is in femtoseconds.
pub fn span_exponent(span: TimeSpan) -> u32
    ensures value { result ≡ span_exponent span }
    ensures small { result ≤ 17 }
{
    let unit = match span.unit {
        TimeUnit::Second => 15,
        TimeUnit::Millisecond => 12,
        TimeUnit::Microsecond => 9,
        TimeUnit::Nanosecond => 6,
        TimeUnit::Picosecond => 3,
        TimeUnit::Femtosecond => 0,
    };
    let number = match span.magnitude {
        Magnitude::One => 0,
        Magnitude::Ten => 1,
        Magnitude::Hundred => 2,
    };
    unit + number
}

/// How many ticks a unit of time is.
pub fn ratio_of(scale: Timescale) -> Ratio
    ensures { result.ticks ≡ ratio_of scale }
{
    let unit = span_exponent(scale.unit);
    let precision = span_exponent(scale.precision);
    let ticks = 10_u64.pow(unit.saturating_sub(precision));
    Ratio { ticks }
}

/// The time scale that a directive gives, where it gives one.
fn scale_in(directive: &Directive) -> Option<Timescale>
    ensures { as_list result ≡ scale_in directive.now }
{
    match directive {
        Directive::Timescale { unit, precision } => Some(Timescale {
            unit: span_of(*unit),
            precision: span_of(*precision),
        }),
        Directive::DefaultNettype(_) => None,
    }
}

/// The first time scale that directives give, where they give one.
fn first_in(directives: &[Directive]) -> Option<Timescale>
    ensures { result ≡ first_of (scales_in directives.now) }
{
    for directive in directives {
        if let Some(scale) = scale_in(directive) {
            return Some(scale);
        }
    }
    None
}

/// The time scale of a source.
pub fn timescale_of(source: &Source) -> Timescale
    ensures { result ≡ timescale_of source.now }
{
    for module in &source.modules {
        if let Some(scale) = first_in(&module.directives) {
            return scale;
        }
    }
    match first_in(&source.directives) {
        Some(scale) => scale,
        None => DEFAULT_TIMESCALE,
    }
}

/// Whether two time scales are the same.
fn same_timescale(scale: Timescale, other: Timescale) -> bool
    ensures { result ≡ same_timescale scale other }
{
    span_exponent(scale.unit) == span_exponent(other.unit)
        && span_exponent(scale.precision) == span_exponent(other.precision)
}

/// Whether directives give another time scale than this one.
fn has_other_in(scale: Timescale, directives: &[Directive]) -> bool
    ensures { result ≡ list_any (λ t. not (same_timescale scale t)) (scales_in directives.now) }
{
    for directive in directives {
        if let Some(other) = scale_in(directive) {
            if !same_timescale(scale, other) {
                return true;
            }
        }
    }
    false
}

/// Whether a directive of a source gives another time scale than its first one.
pub fn has_other_timescale(source: &Source) -> bool
    ensures { result ≡ has_other_timescale source.now }
{
    let scale = timescale_of(source);
    for module in &source.modules {
        if has_other_in(scale, &module.directives) {
            return true;
        }
    }
    has_other_in(scale, &source.directives)
}
