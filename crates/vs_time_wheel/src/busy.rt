// Which of 256 slots are busy: one bit a slot, in four words.
ghost use Rattle.std.specs.Prelude.{◌≡◌, ℕ, ◌+◌, ◌*◌, ◌/◌, ◌%◌, ◌^◌, ◌<◌, ◌≤◌, ◌==◌, if◌then◌else◌, MatchOption, length};
ghost use Rattle.std.specs.Int.{bit_at};
ghost use Rattle.vs_time_wheel.specs.Busy.{flag_at};

/// The number of slots.
pub const SLOTS: usize = 256;

/// The flags of the slots.
pub type Flags = [u64; 4];

// Sets the flag of a slot.
pub fn set_flag(flags: &mut Flags, slot: usize)
    requires { slot < 256 }
    ensures { (i : ℕ) → i < 256 → flag_at flags.new i ≡ (if i == slot then 1 else flag_at flags.old i) }
{
    flags[slot / 64] |= 1 << (slot % 64);
}

// Clears the flag of a slot.
pub fn clear_flag(flags: &mut Flags, slot: usize)
    requires { slot < 256 }
    ensures { (i : ℕ) → i < 256 → flag_at flags.new i ≡ (if i == slot then 0 else flag_at flags.old i) }
{
    flags[slot / 64] &= !(1 << (slot % 64));
}

// The lowest bit of a word that is set, from the bit `low` on.
fn lowest_from(word: u64, low: usize) -> Option<usize>
    requires { low < 64 }
    ensures { MatchOption result ((i : ℕ) → low ≤ i → i < 64 → bit_at word i ≡ 0)
        (λ found. (low ≤ found) × (found < 64) × (bit_at word found ≡ 1)
        × ((i : ℕ) → low ≤ i → i < found → bit_at word i ≡ 0)) }
{
    let rest = word >> low;
    if rest == 0 {
        return None;
    }
    Some(low + rest.trailing_zeros() as usize)
}

// How far behind the slot `from`, going round, the next busy slot is.
pub fn next_flag(flags: &Flags, from: usize) -> Option<usize>
    requires { from < 256 }
    ensures { MatchOption result ((k : ℕ) → k < 256 → flag_at flags.now ((from + k) % 256) ≡ 0)
        (λ found. (found < 256) × (flag_at flags.now ((from + found) % 256) ≡ 1)
        × ((k : ℕ) → k < found → flag_at flags.now ((from + k) % 256) ≡ 0)) }
{
    let start = from / 64;
    let low = from % 64;
    if let Some(found) = lowest_from(flags[start], low) {
        return Some(found - low);
    }
    for step in 1..5 {
        if let Some(found) = lowest_from(flags[(start + step) % 4], 0) {
            return Some(64 * step + found - low);
        }
    }
    None
}
