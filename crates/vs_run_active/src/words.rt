//! Which continuous assignments read a word of an array: a list for each word, so that a write of one word looks at no reader of another.
ghost use Rattle.std.specs.Prelude.{IfOk, OnOk};
ghost use Rattle.vs_design.specs.Tables.{rows};
ghost use Rattle.vs_run_active.specs.Words.{AreSeeing, NotedIn};

use crate::lists::{empty_lists, push_at};
use crate::watchers::Watcher;
use std::alloc::{AllocError, Global};

/// So many watchers are looked at one after another: no lists are kept of so few.
pub const FEW: usize = 8;

/// How long the lists of an array may be at most, all together, for each of its words and each of its watchers.
const MOST: usize = 8;

/// Whether the lists of so many words were longer by far than the words and the watchers are many: too many watchers see every word.
fn are_long(watchers: &[Watcher], words: usize) -> bool {
    let mut length = watchers.len();
    for watcher in watchers {
        if watcher.mask.word == usize::MAX {
            length = length.saturating_add(words);
        }
    }
    length > words.saturating_add(watchers.len()).saturating_mul(MOST)
}

/// Notes a watcher in the lists of the words that it sees.
fn note(lists: &mut Vec<Vec<Watcher>>, watcher: Watcher) -> Result<(), AllocError>
    ensures { OnOk result (NotedIn watcher (rows lists.old.items) (rows lists.new.items)) }
{
    if watcher.mask.word != usize::MAX {
        push_at(lists, watcher.mask.word, watcher)?;
        return Ok(());
    }
    for word in 0..lists.len() {
        push_at(lists, word, watcher)?;
    }
    Ok(())
}

/// For each of so many words those of a signal's watchers that see it, in their order. There are no lists of a signal of one word or of few
/// watchers, nor where they were too long.
pub(crate) fn lists_of(
    alloc: Global,
    watchers: &[Watcher],
    words: usize,
) -> Result<Vec<Vec<Watcher>>, AllocError>
    ensures { IfOk result (λ lists. AreSeeing watchers.now (rows lists.items)) }
{
    if words < 2 || watchers.len() <= FEW || are_long(watchers, words) {
        return Ok(Vec::new(alloc));
    }
    let mut lists = empty_lists(alloc, words)?;
    for watcher in watchers {
        note(&mut lists, *watcher)?;
    }
    Ok(lists)
}
