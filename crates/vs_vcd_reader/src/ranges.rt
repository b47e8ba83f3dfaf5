//! Ranges of signals in memory.
ghost use Rattle.std.specs.List.{All};
ghost use Rattle.vs_design.specs.declared.signal.Signal.{Signal};
ghost use Rattle.vs_vcd_lines.specs.Lines.{IsRange};
ghost use Rattle.vs_vcd_lines.specs.Names.{IsShort};

use vs_design::Signal;

// A number in memory is from -2^63 to 2^63 - 1.
fn is_short(number: i64)
    ensures { IsShort number }
{
    let _ = number;
}

// Reads the bounds of a signal's range.
fn read_bounds(signal: &Signal)
    ensures { IsRange signal.now.range }
{
    if let Some(bounds) = signal.range {
        is_short(bounds.left);
        is_short(bounds.right);
    }
}

/// The bounds of the ranges of signals in memory are numbers of 64 bits: each is read once.
pub fn bounds_are_short(signals: &[Signal])
    ensures { All (λ (s : Signal). IsRange s.range) signals.now }
{
    for signal in signals {
        read_bounds(signal);
    }
}
