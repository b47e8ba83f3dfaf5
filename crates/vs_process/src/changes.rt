//! Writes that are made in a store, and the words that they change (IEEE 1364-2005, clauses 6, 9.2 and 9.7.2).
ghost use Rattle.std.specs.Prelude.{◌≡◌, ◌++◌, ◌<◌, ◌≤◌, ◌+◌, Some, vec_len, vec_capacity, OnOk, OnErr};
ghost use Rattle.vs_design.specs.Stores.{put, put_part};
ghost use Rattle.vs_process.specs.Changes.{changed_word, changed_part, changed_words};

use std::alloc::AllocError;
use vs_design::vs_logic4::Vec4;
use vs_design::{Part, Store, Write};

/// A word of a signal that a write has changed.
#[derive(Clone, Copy)]
pub struct Change {
    /// The signal's number in design order.
    pub signal: usize,
    /// The word of it.
    pub word: usize,
    /// What it held before the whole write.
    pub before: Vec4,
    /// What it holds behind the whole write.
    pub behind: Vec4,
}

/// Appends a word where its values before and behind a write differ.
#[inline(always)]
fn note(signal: usize, word: usize, before: Vec4, behind: Vec4, changes: &mut Vec<Change>)
    requires room { vec_len changes.old < vec_capacity changes.old }
    ensures noted { changes.new.items ≡ changes.old.items ++ changed_word signal word (Some before) (Some behind) }
    ensures length { vec_len changes.new ≤ vec_len changes.old + 1 }
    ensures capacity { vec_capacity changes.new ≡ vec_capacity changes.old }
{
    if before != behind {
        changes.push_reserved(Change {
            signal,
            word,
            before,
            behind,
        });
    }
}

/// Makes a write of one part.
#[inline(always)]
fn make_part(store: &mut Store, part: Part, changes: &mut Vec<Change>) -> Result<(), AllocError>
    ensures store { OnOk result (store.new ≡ put_part store.old part) }
    ensures changes { OnOk result (changes.new.items ≡ changes.old.items ++ changed_part store.old store.new part) }
    ensures store_kept { OnErr result (store.new ≡ store.old) }
    ensures changes_kept { OnErr result (changes.new.items ≡ changes.old.items) }
{
    changes.reserve(1)?;
    let signal = part.signal;
    let word = part.word;
    if let Some(words) = store.put_part(part) {
        let (before, behind) = words;
        note(signal, word, before, behind, changes);
    }
    Ok(())
}

/// Appends a word, where there is one and its values differ.
#[inline(always)]
fn note_word(
    signal: usize,
    word: usize,
    before: Option<Vec4>,
    behind: Option<Vec4>,
    changes: &mut Vec<Change>,
)
    requires room { vec_len changes.old < vec_capacity changes.old }
    ensures noted { changes.new.items ≡ changes.old.items ++ changed_word signal word before behind }
    ensures length { vec_len changes.new ≤ vec_len changes.old + 1 }
    ensures capacity { vec_capacity changes.new ≡ vec_capacity changes.old }
{
    if let (Some(before), Some(behind)) = (before, behind) {
        note(signal, word, before, behind, changes);
    }
}

/// The words that a write will change, each as it is behind the whole of it.
fn foresee(store: &Store, write: &Write, changes: &mut Vec<Change>) -> Result<(), AllocError>
    ensures changes { OnOk result (changes.new.items
        ≡ changes.old.items ++ changed_words store.now (put store.now write.now) write.now) }
    ensures changes_kept { OnErr result (changes.new.items ≡ changes.old.items) }
{
    let parts = write.parts();
    changes.reserve(parts.len())?;
    for part in parts {
        let before = store.word(part.signal, part.word);
        let behind = store.word_after_write(write, part.signal, part.word);
        note_word(part.signal, part.word, before, behind, changes);
    }
    Ok(())
}

/// Makes a write, and appends the words that it changes, each as it is behind the whole of it.
#[inline(never)]
fn make_parts(store: &mut Store, write: &Write, changes: &mut Vec<Change>) -> Result<(), AllocError>
    ensures store { OnOk result (store.new ≡ put store.old write.now) }
    ensures changes { OnOk result (changes.new.items ≡ changes.old.items ++ changed_words store.old store.new write.now) }
    ensures store_kept { OnErr result (store.new ≡ store.old) }
    ensures changes_kept { OnErr result (changes.new.items ≡ changes.old.items) }
{
    foresee(store, write, changes)?;
    store.put(write);
    Ok(())
}

/// Makes a write, and appends the words that it changes: each that one of its parts names, where it isn't behind the whole write as before it.
/// Without memory the store and the changes are as they were.
#[inline(always)]
pub fn make(store: &mut Store, write: &Write, changes: &mut Vec<Change>) -> Result<(), AllocError>
    ensures store { OnOk result (store.new ≡ put store.old write.now) }
    ensures changes { OnOk result (changes.new.items ≡ changes.old.items ++ changed_words store.old store.new write.now) }
    ensures store_kept { OnErr result (store.new ≡ store.old) }
    ensures changes_kept { OnErr result (changes.new.items ≡ changes.old.items) }
{
    let parts = write.parts();
    if parts.len() == 1 {
        return make_part(store, parts[0], changes);
    }
    make_parts(store, write, changes)
}
