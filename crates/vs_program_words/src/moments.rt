//! Moments, as the words of a call have them.
ghost use Rattle.std.specs.Prelude.{◌≡◌, ◌++◌, ◌<◌, ◌^◌, ℕ, List, MatchOption, Some};
ghost use Rattle.vs_program_words.specs.Moments.{IsMoment, IsNoMoment, IsNumber, letters_of};

use vs_design::{Ticks, TimeUnit};

/// The greatest moment, in ticks.
pub const GREATEST: u64 = 4611686018427387903;

/// A moment.
#[derive(Clone, Copy)]
pub(crate) struct Moment {
    /// How many ticks, or of the unit where there is one.
    pub(crate) count: Ticks,
    /// The unit of time, where it isn't the tick.
    pub(crate) unit: Option<TimeUnit>,
}

// What stands in front of these letters, where they end a text.
fn before<'a>(text: &'a str, letters: &str) -> Option<&'a str>
    ensures { MatchOption result ((front : List ℕ) → text.entry.now ≡ front ++ letters.now → ⊥)
        (λ front. text.entry.now ≡ front.now ++ letters.now) }
{
    text.strip_suffix(letters)
}

// A number of ticks, or of a unit: a text of digits.
fn count_of(text: &str) -> Option<Ticks>
    ensures { MatchOption result ((n : ℕ) → n < 2 ^ 62 → IsNumber (Some text.now) n → ⊥) (λ n. IsNumber (Some text.now) n.count) }
{
    match text.parse::<u64>() {
        Ok(count) if count <= GREATEST => Some(Ticks { count }),
        _ => None,
    }
}

// A number of a unit: digits, and the letters of the unit.
fn count_in(text: &str, letters: &str, unit: TimeUnit) -> Option<Moment>
    requires { letters.now ≡ letters_of unit }
    ensures { MatchOption result ((n : ℕ) → n < 2 ^ 62 → IsMoment text.now n (Some unit) → ⊥)
        (λ m. IsMoment text.now m.count.count m.unit) }
{
    match before(text, letters) {
        Some(digits) => match count_of(digits) {
            Some(count) => Some(Moment {
                count,
                unit: Some(unit),
            }),
            None => None,
        },
        None => None,
    }
}

/// The moment of a text: a number of ticks, as `100`, or of a unit, as `10us`.
pub(crate) fn moment_of(text: &str) -> Option<Moment>
    ensures { MatchOption result (IsNoMoment text.now) (λ m. IsMoment text.now m.count.count m.unit) }
{
    if let Some(count) = count_of(text) {
        return Some(Moment { count, unit: None });
    }
    if let Some(moment) = count_in(text, "fs", TimeUnit::Femtosecond) {
        return Some(moment);
    }
    if let Some(moment) = count_in(text, "ps", TimeUnit::Picosecond) {
        return Some(moment);
    }
    if let Some(moment) = count_in(text, "ns", TimeUnit::Nanosecond) {
        return Some(moment);
    }
    if let Some(moment) = count_in(text, "us", TimeUnit::Microsecond) {
        return Some(moment);
    }
    if let Some(moment) = count_in(text, "ms", TimeUnit::Millisecond) {
        return Some(moment);
    }
    count_in(text, "s", TimeUnit::Second)
}
