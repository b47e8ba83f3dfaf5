//! Which words of two slices differ, eight words at a time.
ghost use Rattle.std.specs.Prelude.{◌≡◌, ℕ, ◌+◌, ◌<◌, ◌≤◌, length, slice_index};
ghost use Rattle.std.specs.Simd.Lanes.{zip2, chunk};
ghost use Rattle.vs_logic4.specs.Changes.{change};

use std::simd::prelude::*;

/// Sets `out[i]` to 1 where `old[i]` and `new[i]` differ, else to 0. The three slices are equally
/// long.
pub fn changed(old: &[u64], new: &[u64], out: &mut [u8])
    requires new_len { length new.now ≡ length old.now }
    requires out_len { length out.old ≡ length old.now }
    ensures { (k : ℕ) → k < length old.now
        → slice_index out.new k ≡ change (slice_index old.now k) (slice_index new.now k) }
{
    let done = changed_blocks(old, new, out);
    changed_rest(old, new, out, done);
}

/// The words of each whole block of eight, and how many words these are.
fn changed_blocks(old: &[u64], new: &[u64], out: &mut [u8]) -> usize
    requires new_len { length new.now ≡ length old.now }
    requires out_len { length out.old ≡ length old.now }
    ensures within { result ≤ length old.now }
    ensures done { (k : ℕ) → k < result
        → slice_index out.new k ≡ change (slice_index old.now k) (slice_index new.now k) }
{
    let mut at = 0;
    while old.len() - at >= 8 {
        changed_block(old, new, at).copy_to_slice(&mut out[at..]);
        at += 8;
    }
    at
}

/// Whether each of the eight words from `at` on differs.
fn changed_block(old: &[u64], new: &[u64], at: usize) -> u8x8
    requires old_len { at + 8 ≤ length old.now }
    requires new_len { at + 8 ≤ length new.now }
    ensures { result ≡ zip2 change (chunk at 8 old.now) (chunk at 8 new.now) }
{
    let before = u64x8::from_slice(&old[at..]);
    let after = u64x8::from_slice(&new[at..]);
    before
        .simd_ne(after)
        .select(u64x8::splat(1), u64x8::splat(0))
        .cast::<u8>()
}

/// The words from `from` on, one by one.
fn changed_rest(old: &[u64], new: &[u64], out: &mut [u8], from: usize)
    requires new_len { length new.now ≡ length old.now }
    requires out_len { length out.old ≡ length old.now }
    requires within { from ≤ length old.now }
    ensures before { (k : ℕ) → k < from → slice_index out.new k ≡ slice_index out.old k }
    ensures done { (k : ℕ) → from ≤ k → k < length old.now
        → slice_index out.new k ≡ change (slice_index old.now k) (slice_index new.now k) }
{
    for i in from..old.len() {
        out[i] = if old[i] == new[i] { 0 } else { 1 };
    }
}
