//! Ranges in the order of their signals.
ghost use Rattle.std.specs.Prelude.{ℕ, ◌↔◌};
ghost use Rattle.std.specs.List.{Contains};
ghost use Rattle.std.specs.List.Sorted.{IsNonDecreasingBy};
ghost use Rattle.vs_design.specs.declared.range.BitRange as range;
ghost use Rattle.vs_drivers.specs.Signals.{AreBelow, AreOf, AreUpTo};

use std::marker::Model;
use vs_design::BitRange;

/// Ranges in the order of their signals. A contract sees them as a list.
#[derive(Drop)]
pub struct BySignal {
    all: Vec<BitRange>,
}

impl Model for BySignal {
    ghost use Rattle.std.specs.Prelude.{List};
    ghost use Rattle.std.specs.List.Sorted.{IsNonDecreasingBy};
    ghost use Rattle.vs_design.specs.declared.range.BitRange.{BitRange};

    ghost Value = { List BitRange };

    ghost view = { λ x. x.all.items };

    ghost invariant = { λ x. IsNonDecreasingBy (λ (r : BitRange). r.signal) x.all.items };
}

// How many are of a signal before this one.
fn below(ranges: &[BitRange], signal: usize) -> usize
    requires { IsNonDecreasingBy (λ (r : range.BitRange). r.signal) ranges.now }
    ensures { AreBelow ranges.now signal result }
{
    ranges.partition_point(|range| range.signal < signal)
}

// How many are of this signal, or of one before it.
fn up_to(ranges: &[BitRange], signal: usize) -> usize
    requires { IsNonDecreasingBy (λ (r : range.BitRange). r.signal) ranges.now }
    ensures { AreUpTo ranges.now signal result }
{
    ranges.partition_point(|range| range.signal <= signal)
}

impl BySignal {
    /// Those of a list.
    pub fn of(ranges: Vec<BitRange>) -> BySignal
        ensures { (r : range.BitRange) → (Contains result r ↔ Contains ranges.items r) }
    {
        let mut all = ranges;
        all.sort_unstable_by_key(|range| range.signal);
        BySignal { all }
    }

    /// Those of a signal.
    pub fn of_signal(&self, signal: usize) -> &[BitRange]
        ensures { AreOf self.now signal result.now }
    {
        let all = self.all.as_slice();
        let first = below(all, signal);
        let rest = &all[first..];
        let end = up_to(rest, signal);
        &rest[..end]
    }
}
