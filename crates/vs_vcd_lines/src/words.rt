//! The words of lines.
ghost use Rattle.std.specs.Prelude.{◌≡◌, ℕ, List, MatchOption};
ghost use Rattle.vs_design.specs.declared.design.ScopeKind.{ScopeKind};
ghost use Rattle.vs_design.specs.declared.signal.SignalKind.{SignalKind};
ghost use Rattle.vs_design.specs.declared.timescale.Magnitude.{Magnitude};
ghost use Rattle.vs_design.specs.declared.timescale.TimeUnit.{TimeUnit};
ghost use Rattle.vs_design.specs.declared.timescale.TimeUnit.TheVariants.{Second, Millisecond, Microsecond};
ghost use Rattle.vs_design.specs.declared.timescale.TimeUnit.TheVariants.{Nanosecond, Picosecond, Femtosecond};
ghost use Rattle.vs_vcd_writing.specs.Text.{kind_word, scope_word, magnitude_word, unit_word};
ghost use Rattle.vs_vcd_lines.specs.Parts.{AreThree, IsSize};

use crate::cuts::cut;
use crate::numbers::unsigned_of;
use vs_design::{Magnitude, ScopeKind, SignalKind, TimeUnit};

/// What a signal was declared as, by its word.
pub fn kind_of(word: &[u8]) -> Option<SignalKind>
    ensures { MatchOption result ((kind : SignalKind) → word.now ≡ kind_word kind → ⊥) (λ kind. word.now ≡ kind_word kind) }
{
    if word == b"wire".as_slice() {
        return Some(SignalKind::Wire);
    }
    if word == b"reg".as_slice() {
        return Some(SignalKind::Reg);
    }
    if word == b"integer".as_slice() {
        return Some(SignalKind::Integer);
    }
    None
}

/// The kind of a scope, by its word.
pub(crate) fn scope_kind_of(word: &[u8]) -> Option<ScopeKind>
    ensures { MatchOption result ((kind : ScopeKind) → word.now ≡ scope_word kind → ⊥) (λ kind. word.now ≡ scope_word kind) }
{
    if word == b"module".as_slice() {
        return Some(ScopeKind::Module);
    }
    if word == b"begin".as_slice() {
        return Some(ScopeKind::Begin);
    }
    None
}

/// How many of a unit, by its word.
pub(crate) fn magnitude_of(word: &[u8]) -> Option<Magnitude>
    ensures { MatchOption result ((magnitude : Magnitude) → word.now ≡ magnitude_word magnitude → ⊥)
        (λ magnitude. word.now ≡ magnitude_word magnitude) }
{
    if word == b"1".as_slice() {
        return Some(Magnitude::One);
    }
    if word == b"10".as_slice() {
        return Some(Magnitude::Ten);
    }
    if word == b"100".as_slice() {
        return Some(Magnitude::Hundred);
    }
    None
}

/// A unit of time of a second, a millisecond or a microsecond, by its word.
fn long_unit_of(word: &[u8]) -> Option<TimeUnit>
    ensures { MatchOption result ((word.now ≡ unit_word Second → ⊥) × (word.now ≡ unit_word Millisecond → ⊥)
        × (word.now ≡ unit_word Microsecond → ⊥)) (λ unit. word.now ≡ unit_word unit) }
{
    if word == b"s".as_slice() {
        return Some(TimeUnit::Second);
    }
    if word == b"ms".as_slice() {
        return Some(TimeUnit::Millisecond);
    }
    if word == b"us".as_slice() {
        return Some(TimeUnit::Microsecond);
    }
    None
}

/// A unit of time of a nanosecond, a picosecond or a femtosecond, by its word.
fn short_unit_of(word: &[u8]) -> Option<TimeUnit>
    ensures { MatchOption result ((word.now ≡ unit_word Nanosecond → ⊥) × (word.now ≡ unit_word Picosecond → ⊥)
        × (word.now ≡ unit_word Femtosecond → ⊥)) (λ unit. word.now ≡ unit_word unit) }
{
    if word == b"ns".as_slice() {
        return Some(TimeUnit::Nanosecond);
    }
    if word == b"ps".as_slice() {
        return Some(TimeUnit::Picosecond);
    }
    if word == b"fs".as_slice() {
        return Some(TimeUnit::Femtosecond);
    }
    None
}

/// A unit of time, by its word.
pub(crate) fn unit_of(word: &[u8]) -> Option<TimeUnit>
    ensures { MatchOption result ((unit : TimeUnit) → word.now ≡ unit_word unit → ⊥) (λ unit. word.now ≡ unit_word unit) }
{
    match long_unit_of(word) {
        Some(unit) => Some(unit),
        None => short_unit_of(word),
    }
}

/// The size of 1 to 64 bits that a word writes.
pub fn size_of_word(word: &[u8]) -> Option<u32>
    ensures { MatchOption result ((width : ℕ) → IsSize word.now width → ⊥) (λ width. IsSize word.now width) }
{
    let Some(width) = unsigned_of(word) else {
        return None;
    };
    if width == 0 {
        return None;
    }
    if width > 64 {
        return None;
    }
    Some(width as u32)
}

/// Three words, each with a space after it, and what stands after them.
pub(crate) fn three_words(text: &[u8]) -> Option<(&[u8], &[u8], &[u8], &[u8])>
    ensures { MatchOption result ((a b c rest : List ℕ) → AreThree text.now a b c rest → ⊥)
        (λ words. AreThree text.now words.0.now words.1.now words.2.now words.3.now) }
{
    let Some((first, after_first)) = cut(text, b' ') else {
        return None;
    };
    let Some((second, after_second)) = cut(after_first, b' ') else {
        return None;
    };
    match cut(after_second, b' ') {
        Some((third, rest)) => Some((first, second, third, rest)),
        None => None,
    }
}
