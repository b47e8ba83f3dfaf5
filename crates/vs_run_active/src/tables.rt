//! The tables of a design: made once, at the start of a run.
ghost use Rattle.std.specs.Prelude.{◌≡◌, ◌<◌, ◌^◌, Some, length, slice_get, IfOk};
ghost use Rattle.vs_run_active.specs.Rows.{AreRows, Fits, RowsFit};
ghost use Rattle.vs_run_active.specs.Watchers.{between};
ghost use Rattle.vs_run_active.specs.Words.{AreByWord, seeing};

use crate::groups::Groups;
use crate::lists::by_signal;
use crate::rows::{Row, add_row};
use crate::watchers::{ProcessTerm, Watcher, readers_of};
use crate::words::lists_of;
use std::alloc::{AllocError, Global};
use vs_design::Design;

/// For each signal who is woken by its changes, and the groups of copies.
#[derive(Drop)]
pub struct Tables {
    pub rows: Vec<Row>,
    pub watchers: Vec<Watcher>,
    pub ghost fit: { RowsFit rows.items watchers.items },
    pub groups: Groups,
    /// For each array of which many continuous assignments read single words the watchers of those that read each word; else no list.
    pub words: Vec<Vec<Vec<Watcher>>>,
    pub ghost by_word: { AreByWord rows.items watchers.items words.items },
}

impl Tables {
    /// Those of so many signals of a design, whose processes have these terms in their event controls; of each continuous assignment whether
    /// it is a copy that may be woken with others as one.
    pub fn of(
        alloc: Global,
        design: &Design,
        signals: usize,
        terms: &[ProcessTerm],
        copies: &[bool],
    ) -> Result<Self, AllocError>
        requires { length design.now.assigns < 2 ^ 63 }
        ensures { IfOk result (λ tables.
            AreRows signals design.entry.now.assigns terms.now tables.groups tables.rows.items tables.watchers.items) }
    {
        let lists = by_signal(alloc, terms, signals)?;
        let mut groups = Groups::none(alloc, design.assigns().len());
        let mut rows = Vec::new(alloc);
        let mut watchers = Vec::new(alloc);
        let mut words = Vec::new(alloc);
        for signal in 0..signals {
            let plain = readers_of(alloc, design.readers(signal))?;
            let row = add_row(&mut groups, &mut watchers, &plain, copies, &lists[signal])?;
            rows.push(row)?;
            let count = match design.signals().get(signal) {
                Some(found) => found.count as usize,
                None => 0,
            };
            let seen = lists_of(alloc, &watchers[row.readers..row.any], count)?;
            words.push(seen)?;
        }
        Ok(Tables {
            rows,
            watchers,
            groups,
            words,
        })
    }

    /// The row of a signal.
    #[inline(always)]
    pub fn row(&self, signal: usize) -> Row
        requires { signal < length self.now.rows.items }
        ensures there { slice_get self.now.rows.items signal ≡ Some result }
        ensures fits { Fits result (length self.now.watchers.items) }
    {
        self.rows[signal]
    }

    /// The watchers of the continuous assignments that read the signal of a row.
    #[inline(always)]
    pub fn readers(&self, row: Row) -> &[Watcher]
        requires { Fits row (length self.now.watchers.items) }
        ensures { result.now ≡ between row.readers row.any self.now.watchers.items }
    {
        &self.watchers[row.readers..row.any]
    }

    /// Those of them that see a word, and maybe others: by the lists of its words, where the signal has them.
    pub fn readers_of_word(&self, signal: usize, row: Row, word: usize) -> &[Watcher]
        requires there { slice_get self.now.rows.items signal ≡ Some row }
        requires fits { Fits row (length self.now.watchers.items) }
        ensures { seeing word result.now ≡ seeing word (between row.readers row.any self.now.watchers.items) }
    {
        let Some(lists) = self.words.get(signal) else {
            return self.readers(row);
        };
        match lists.get(word) {
            Some(list) => list,
            None => self.readers(row),
        }
    }

    /// The watchers of the terms that wait for any change of it.
    #[inline(always)]
    pub fn any(&self, row: Row) -> &[Watcher]
        requires { Fits row (length self.now.watchers.items) }
        ensures { result.now ≡ between row.any row.rising self.now.watchers.items }
    {
        &self.watchers[row.any..row.rising]
    }

    /// Those of the terms that wait for a rise.
    #[inline(always)]
    pub fn rising(&self, row: Row) -> &[Watcher]
        requires { Fits row (length self.now.watchers.items) }
        ensures { result.now ≡ between row.rising row.falling self.now.watchers.items }
    {
        &self.watchers[row.rising..row.falling]
    }

    /// Those of the terms that wait for a fall.
    #[inline(always)]
    pub fn falling(&self, row: Row) -> &[Watcher]
        requires { Fits row (length self.now.watchers.items) }
        ensures { result.now ≡ between row.falling row.end self.now.watchers.items }
    {
        &self.watchers[row.falling..row.end]
    }
}
