//! What processes write, in two stores.
ghost use Rattle.std.specs.Prelude.{ℕ, ◌≡◌, ◌<◌, ◌↔◌, length, slice_get, IfOk, IsTrue};
ghost use Rattle.vs_design.specs.Parts.{Parts};
ghost use Rattle.vs_design.specs.Stores as stores;
ghost use Rattle.vs_design.specs.Stores.{start_store, word_of};
ghost use Rattle.vs_rules.specs.vs_process.specs.BlockDrivers.{sizes};
ghost use Rattle.vs_rules_of_starts.specs.Cold.{SameWritten};

use std::alloc::{AllocError, Global};
use vs_design::{Design, Store};
use vs_rules::vs_process::statement_writes;

// Whether a word of a signal is the same in two stores.
fn is_same_word(a: &Store, b: &Store, signal: usize, word: usize) -> bool
    ensures { IsTrue result ↔ (word_of a.now signal word ≡ word_of b.now signal word) }
{
    match (a.word(signal, word), b.word(signal, word)) {
        (Some(one), Some(other)) => one == other,
        (None, None) => true,
        _ => false,
    }
}

// Whether the first so many words of a signal are the same in two stores.
fn are_same_words(a: &Store, b: &Store, signal: usize, count: usize) -> bool
    ensures { IsTrue result ↔ ((w : ℕ) → w < count → word_of a.now signal w ≡ word_of b.now signal w) }
{
    for word in 0..count {
        if !is_same_word(a, b, signal, word) {
            return false;
        }
    }
    true
}

// Whether a signal is the same in two stores.
fn is_same_signal(design: &Design, a: &Store, b: &Store, signal: usize) -> bool
    requires sized { sizes a.now ≡ sizes (start_store design.now) }
    requires start { b.now ≡ start_store design.now }
    ensures { IsTrue result ↔ (slice_get a.now signal ≡ slice_get b.now signal) }
{
    let signals = design.signals();
    if signal >= signals.len() {
        return true;
    }
    are_same_words(a, b, signal, signals[signal].count as usize)
}

/// Whether each signal that a process writes is in a store as at the start. It takes as long as the signals have words, for each range that is
/// written.
pub(crate) fn is_same_written(
    alloc: Global,
    design: &Design,
    i: usize,
    a: &Store,
    b: &Store,
) -> Result<bool, AllocError>
    requires within { i < length design.now.processes }
    requires sized { sizes a.now ≡ sizes (start_store design.now) }
    requires start { b.now ≡ start_store design.now }
    ensures { IfOk result (λ same. (IsTrue same ↔ SameWritten design.now i a.now b.now)) }
{
    let ranges = statement_writes(alloc, &design.processes()[i].body)?;
    for range in &ranges {
        if !is_same_signal(design, a, b, range.signal) {
            return Ok(false);
        }
    }
    Ok(true)
}
