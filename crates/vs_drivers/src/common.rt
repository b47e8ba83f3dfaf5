//! Ranges that have bits in common.
ghost use Rattle.std.specs.Prelude.{◌≡◌, ◌+◌, ◌≤◌, ◌^◌, Some, map, option_map};
ghost use Rattle.vs_design.specs.WellFormed.{bits_or_all};
ghost use Rattle.vs_rules.specs.vs_process.specs.Bits.{common_word, common_place};
ghost use Rattle.vs_drivers.specs.Meets.{meet_among};

use vs_design::{BitRange, Bits, Signal};

// Whether two ranges of a signal have a word in common.
fn has_common_word(signal: &Signal, p: Option<usize>, q: Option<usize>) -> bool
    ensures { result ≡ common_word (Some signal.now) p q }
{
    let count = signal.count as usize;
    match p {
        None => match q {
            None => true,
            Some(x) => x < count,
        },
        Some(w) => match q {
            None => w < count,
            Some(x) => w == x,
        },
    }
}

// The bits of a range; all of a word where it has none.
fn bits_or_all(width: u32, bits: Option<Bits>) -> Bits
    ensures { result ≡ bits_or_all width bits }
{
    match bits {
        None => Bits { low: 0, width },
        Some(b) => b,
    }
}

// Whether two ranges of words of a size have a place in common.
fn has_common_place(width: u32, p: Option<Bits>, q: Option<Bits>) -> bool
    ensures { result ≡ common_place width p q }
{
    let a = bits_or_all(width, p);
    let b = bits_or_all(width, q);
    let low = a.low.max(b.low) as u64;
    let a_end = a.low as u64 + a.width as u64;
    let b_end = b.low as u64 + b.width as u64;
    low < a_end.min(b_end)
}

/// Whether two ranges of a design with these signals have a bit in common: what is named whole has the bits of its signal, what is chosen has the
/// bits that are chosen, in range or not (profile).
pub fn meets(signals: &[Signal], r: BitRange, q: BitRange) -> bool
    ensures { result ≡ meet_among signals.now r q }
{
    if r.signal != q.signal {
        return false;
    }
    match signals.get(r.signal) {
        None => false,
        Some(s) => {
            has_common_word(s, r.word, q.word) && has_common_place(s.width, r.bits, q.bits)
        }
    }
}
