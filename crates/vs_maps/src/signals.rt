//! The signals of ranges.
ghost use Rattle.std.specs.Prelude.{ℕ, ◌↔◌, ◌⊎◌, OnOk, IsTrue};
ghost use Rattle.std.specs.List.{Contains};
ghost use Rattle.vs_maps.specs.Ranges.{HasSignal};

use std::alloc::AllocError;
use vs_design::BitRange;

/// Puts the signals of ranges at a list's end.
pub fn push_signals(out: &mut Vec<usize>, ranges: &[BitRange]) -> Result<(), AllocError>
    ensures { OnOk result ((v : ℕ) → (Contains out.new.items v ↔ (Contains out.old.items v ⊎ HasSignal ranges.now v))) }
{
    for r in ranges {
        out.push(r.signal)?;
    }
    Ok(())
}

/// Whether one of some ranges is of a signal.
pub fn has_signal(ranges: &[BitRange], signal: usize) -> bool
    ensures { IsTrue result ↔ HasSignal ranges.now signal }
{
    for range in ranges {
        if range.signal == signal {
            return true;
        }
    }
    false
}
