//! Beginnings of the digits of times.
ghost use Rattle.std.specs.Prelude.{◌+◌, ◌*◌, ◌<◌, ◌≤◌, ◌^◌, ℕ, IsTrue, ◌↔◌};
ghost use Rattle.vs_vcd_lines.specs.Beginnings.{Reaches};

/// Ten times a number and 9, or the greatest one below 2^64.
fn stretched(number: u64) -> u64
    ensures grows { number ≤ result }
    ensures small { result < 2 ^ 64 }
    ensures bound { result ≤ 10 * number + 9 }
    ensures most { (n : ℕ) → n < 2 ^ 64 → n ≤ 10 * number + 9 → n ≤ result }
{
    if number <= (u64::MAX - 9) / 10 {
        number * 10 + 9
    } else {
        u64::MAX
    }
}

/// Whether the digits of a number begin those of a number below 2^64 and above another.
pub fn reaches(number: u64, last: u64) -> bool
    ensures { IsTrue result ↔ Reaches number last }
{
    if number == 0 {
        return false;
    }
    let mut low = number;
    let mut high = number;
    while low <= u64::MAX / 10 {
        low *= 10;
        high = stretched(high);
    }
    high > last
}
