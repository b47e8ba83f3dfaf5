//! Scopes as statements see them.
ghost use Rattle.std.specs.Prelude.{◌<◌, ◌≤◌, ◌^◌};

use vs_elab_signals::ElabScope;
use vs_widths::Levels;

/// How many ticks a unit of time is (IEEE 1364-2005, clause 19.8).
#[derive(Clone, Copy)]
pub struct Ratio {
    /// How many ticks: at most 10^17, as 100 s have of 1 fs.
    pub ticks: u64,
    pub ghost scaled: { (0 < ticks) × (ticks ≤ 10 ^ 17) },
}

/// A scope of a list, with what names are bound to there.
#[derive(Drop)]
pub struct View<'s, 'o> {
    /// The scopes of a source.
    pub list: &'o [ElabScope<'s>],
    /// The place of the scope among them.
    pub place: usize,
    /// What names are bound to in the scope.
    pub names: &'o Levels<'s, 'o>,
    /// How many ticks a unit of time is.
    pub ratio: Ratio,
}
