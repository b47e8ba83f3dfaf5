//! Walks of the map of a block on which nothing is sure to write a bit.
ghost use Rattle.std.specs.Prelude.{ℕ, ◌≡◌, ◌++◌, ◌<◌, ◌↔◌, map, IfOk, OnOk, IsTrue};
ghost use Rattle.std.specs.List.{Contains};
ghost use Rattle.vs_design.specs.Uses.{joined};
ghost use Rattle.vs_design.specs.declared.statement.Statement.TheViews.{out-Statement};
ghost use Rattle.vs_process.specs.Stops.{LeadsIn, statement_view, stop_at, stop_statement};
ghost use Rattle.vs_process.specs.Ways.{none};
ghost use Rattle.vs_claims.specs.vs_maps.specs.Reaches.{places, pause_at};
ghost use Rattle.vs_drivers.specs.Places.{bit};
ghost use Rattle.vs_cert_blocks.specs.Early.{AreEarly};
ghost use Rattle.vs_cert_blocks.specs.Starts.{AreStarts, IsClearFrom};
ghost use Rattle.vs_graph.specs.Clear.{AreClear};
ghost use Rattle.vs_cert_blocks.specs.Inside.{open_in};
ghost use Rattle.vs_claims.specs.vs_maps.specs.Ranges.{ranges_of};
ghost use Rattle.vs_cert_blocks.specs.Walks.{bit_view, is_open, open_tos, row_at, fixed_range, statement_sure};
ghost use Rattle.vs_cert_blocks.specs.Walks.{IsClear, IsWrittenFirst, AreWoken, AreReads, HaveSure, WakesFrom};

use crate::bits::{Bit, any_has, slice_range, surely_at};
use crate::corners::{alike_until, alike_words_until};
use std::alloc::{AllocError, Global};
use std::collections::BTreeMap;
use vs_claims::vs_maps::{Pause, Tables, has_signal};
use vs_design::{Aim, BitRange, Statement};
use vs_drivers::BySignal;
use vs_graph::{Family, Graph, gather, walk};

/// Whether all ways from a place go on through no control.
pub(crate) fn is_at_once(tables: &Tables, place: usize) -> bool
    ensures { IsTrue result ↔ (pause_at tables.entry.now place ≡ none) }
{
    match tables.pause(place) {
        Pause::Nothing => true,
        _ => false,
    }
}

// Whether a walk goes on at once from a place whose statement isn't sure to write a bit.
fn is_open<'a>(tables: &'a Tables<'a>, bit: Bit, place: usize) -> bool
    ensures { result ≡ is_open (bit_view bit) (stop_statement (stop_at tables.entry.now.stops place)) }
{
    !surely_at(bit, tables.statement(place)) && is_at_once(tables, place)
}

/// The places of a map, and where it leads from each at once, but from those where a bit is sure to be written.
#[derive(Drop)]
struct Open<'a> {
    tables: &'a Tables<'a>,
    bit: Bit,
    ghost within: { LeadsIn (places tables.now) tables.now.stops },
}

impl<'a> Graph for Open<'a> {
    ghost count = { λ g. places g.tables.now };

    ghost nexts = { λ g. open_tos (bit_view g.bit) g.tables.now.stops };

    fn count(&self) -> usize {
        self.tables.places()
    }

    fn put_nexts(&self, node: usize, todo: &mut Vec<usize>) -> Result<(), AllocError> {
        if is_open(self.tables, self.bit, node) {
            todo.extend_from_slice(self.tables.tos(node))?;
        }
        Ok(())
    }

    ghost inside = { λ g. open_in (bit_view g.bit) (places g.tables.now) g.tables.now.stops g.within };
}

// The places where the event control at a place leads, where it is a point.
#[derive(Drop)]
struct Wakes<'a> {
    tables: &'a Tables<'a>,
}

impl<'a> Family for Wakes<'a> {
    ghost has = { λ f p q. WakesFrom f.tables.now p q };

    fn put(&self, _alloc: Global, i: usize, out: &mut Vec<usize>) -> Result<(), AllocError> {
        if i >= self.tables.places() {
            return Ok(());
        }
        if !self.tables.is_point(i) {
            return Ok(());
        }
        match self.tables.pause(i) {
            Pause::Event(_, _) => {
                out.extend_from_slice(self.tables.tos(i))?;
                Ok(())
            }
            _ => Ok(()),
        }
    }
}

/// The places to which event controls lead.
pub(crate) fn woken<'a>(alloc: Global, tables: &'a Tables<'a>) -> Result<Vec<usize>, AllocError>
    ensures { IfOk result (λ seeds. AreWoken tables.entry.now seeds.items) }
{
    gather(alloc, &Wakes { tables }, tables.places())
}

// Puts the range of a place of a target, where its indices are constant.
fn push_fixed(out: &mut Vec<BitRange>, aim: &Aim) -> Result<(), AllocError>
    ensures { OnOk result (out.new.items ≡ out.old.items ++ fixed_range aim.now) }
{
    match aim {
        Aim::Fixed(slice) => Ok(out.push(slice_range(*slice))?),
        Aim::Chosen(_, _, _) => Ok(()),
    }
}

// Puts those of all places of a target.
fn push_all_fixed(out: &mut Vec<BitRange>, aims: &[Aim]) -> Result<(), AllocError>
    ensures { OnOk result (out.new.items ≡ out.old.items ++ joined (map fixed_range aims.now)) }
{
    for aim in aims {
        push_fixed(out, aim)?;
    }
    Ok(())
}

// Puts the ranges that a statement is sure to write.
fn push_statement_sure(out: &mut Vec<BitRange>, statement: &Statement) -> Result<(), AllocError>
    ensures { OnOk result (out.new.items ≡ out.old.items ++ statement_sure (out-Statement statement.now)) }
{
    match statement {
        Statement::Assign(_, target, _) => push_all_fixed(out, &target.parts),
        _ => Ok(()),
    }
}

/// The same of a statement that may be there.
pub(crate) fn push_sure(
    out: &mut Vec<BitRange>,
    statement: Option<&Statement>,
) -> Result<(), AllocError>
    ensures { OnOk result (out.new.items ≡ out.old.items ++ ranges_of statement_sure (statement_view statement.entry)) }
{
    match statement {
        None => Ok(()),
        Some(s) => push_statement_sure(out, s),
    }
}

/// The ranges that the statements of a map are sure to write.
pub(crate) fn sure<'a>(alloc: Global, tables: &'a Tables<'a>) -> Result<Vec<BitRange>, AllocError>
    ensures { IfOk result (λ ranges. HaveSure tables.entry.now ranges.items) }
{
    let mut out = Vec::new(alloc);
    for p in 0..tables.places() {
        push_sure(&mut out, tables.statement(p))?;
    }
    Ok(out)
}

/// The row of a place.
pub(crate) fn row(rows: &[Vec<BitRange>], place: usize) -> &[BitRange]
    ensures { result.now ≡ row_at rows.entry.now place }
{
    if place >= rows.len() {
        return &[];
    }
    &rows[place]
}

/// What walks of the map of a block need.
#[derive(Drop)]
pub(crate) struct Walks<'a> {
    /// The map.
    pub(crate) tables: &'a Tables<'a>,
    /// The places to which event controls lead.
    pub(crate) seeds: &'a [usize],
    /// The ranges that are read at each place.
    pub(crate) reads: &'a [Vec<BitRange>],
    /// The ranges that statements are sure to write.
    pub(crate) sure: &'a BySignal,
    /// Ranges that are sure to be written first.
    pub(crate) early: &'a BySignal,
    /// For signals, a place from which walks decide of their bits.
    pub(crate) starts: &'a BTreeMap<usize, usize>,
    ghost within: { LeadsIn (places tables.now) tables.now.stops },
    ghost reads_are: { AreReads tables.now reads.now },
    ghost early_are: { AreEarly tables.now early.now },
    ghost starts_are: { AreStarts tables.now starts.now },
}

impl<'a> Walks<'a> {
    // Whether at a place no bit of a signal is read, and there is no control.
    fn is_clear(&self, place: usize, signal: usize) -> bool
        ensures { IsTrue result ↔ IsClear self.now.tables.now signal place }
    {
        if has_signal(row(self.reads, place), signal) {
            return false;
        }
        is_at_once(self.tables, place)
    }

    // Whether it is so at some places.
    fn are_clear(&self, places: &[usize], signal: usize) -> bool
        ensures { IsTrue result ↔ ((p : ℕ) → Contains places.now p → IsClear self.now.tables.now signal p) }
    {
        for place in places {
            if !self.is_clear(*place, signal) {
                return false;
            }
        }
        true
    }

    // Whether it is so wherever walks lead from some places, on which nothing is sure to write a bit of that signal. It takes as long as there are
    // such places and their ways.
    fn is_clear_from(
        &self,
        alloc: Global,
        bit: Bit,
        seeds: &[usize],
        marks: &mut Vec<bool>,
    ) -> Result<bool, AllocError>
        requires seeds { (s : ℕ) → Contains seeds.now s → s < places self.now.tables.now }
        requires marks { AreClear (places self.now.tables.now) marks.old.items }
        ensures clear { OnOk result (AreClear (places self.now.tables.now) marks.new.items) }
        ensures exact { IfOk result (λ b. (IsTrue b ↔ IsClearFrom self.now.tables.now (bit_view bit) seeds.now)) }
    {
        let open = Open {
            tables: self.tables,
            bit,
        };
        let found = walk(alloc, &open, seeds, marks)?;
        Ok(self.are_clear(&found, bit.signal))
    }

    // Whether walks from the place where it is enough to begin for its signal tell that a bit is written first.
    fn is_assigned_first(
        &self,
        alloc: Global,
        bit: Bit,
        marks: &mut Vec<bool>,
    ) -> Result<bool, AllocError>
        requires marks { AreClear (places self.now.tables.now) marks.old.items }
        ensures clear { OnOk result (AreClear (places self.now.tables.now) marks.new.items) }
        ensures told { IfOk result (λ b. IsTrue b → IsWrittenFirst self.now.tables.now (bit_view bit)) }
    {
        match self.starts.get(&bit.signal) {
            None => Ok(false),
            Some(start) => {
                if *start >= self.tables.places() {
                    return Ok(false);
                }
                self.is_clear_from(alloc, bit, &[*start], marks)
            }
        }
    }

    // Whether a bit is written on every path before a bit of its signal is read, and before the block is back at its control. Of one that is known
    // to be it takes as long as there are such ranges of its signal; of one that walks from the place where its signal begins tell of, as long as
    // they have places; else as the map has places and ways.
    fn is_written_first(
        &self,
        alloc: Global,
        bit: Bit,
        marks: &mut Vec<bool>,
    ) -> Result<bool, AllocError>
        requires woken { AreWoken self.now.tables.now self.now.seeds.now }
        requires marks { AreClear (places self.now.tables.now) marks.old.items }
        ensures clear { OnOk result (AreClear (places self.now.tables.now) marks.new.items) }
        ensures exact { IfOk result (λ b. (IsTrue b ↔ IsWrittenFirst self.now.tables.now (bit_view bit))) }
    {
        if any_has(self.early.of_signal(bit.signal), bit) {
            return Ok(true);
        }
        if self.is_assigned_first(alloc, bit, marks)? {
            return Ok(true);
        }
        self.is_clear_from(alloc, bit, self.seeds, marks)
    }

    // The same of each bit of a word: once for those that behave alike.
    fn word_is_written_first(
        &self,
        alloc: Global,
        signal: usize,
        word: usize,
        width: u32,
        marks: &mut Vec<bool>,
    ) -> Result<bool, AllocError>
        requires woken { AreWoken self.now.tables.now self.now.seeds.now }
        requires sure { HaveSure self.now.tables.now self.now.sure.now }
        requires marks { AreClear (places self.now.tables.now) marks.old.items }
        ensures clear { OnOk result (AreClear (places self.now.tables.now) marks.new.items) }
        ensures exact { IfOk result (λ b. (IsTrue b ↔
            ((n : ℕ) → n < width → IsWrittenFirst self.now.tables.now (bit signal word n)))) }
    {
        let mut place = 0;
        while place < width {
            let bit = Bit {
                signal,
                word,
                place,
            };
            if !self.is_written_first(alloc, bit, marks)? {
                return Ok(false);
            }
            place = alike_until(self.sure.of_signal(signal), signal, word, width, place);
        }
        Ok(true)
    }

    /// Whether each bit of a signal is written on every path before a bit of the signal is read, and before the block is back at its control. For
    /// the bits that behave alike, which are as many as the text has different selects of the signal, it takes as long as the text and its map.
    pub(crate) fn signal_is_written_first(
        &self,
        alloc: Global,
        signal: usize,
        count: usize,
        width: u32,
        marks: &mut Vec<bool>,
    ) -> Result<bool, AllocError>
        requires woken { AreWoken self.now.tables.now self.now.seeds.now }
        requires sure { HaveSure self.now.tables.now self.now.sure.now }
        requires marks { AreClear (places self.now.tables.now) marks.old.items }
        ensures clear { OnOk result (AreClear (places self.now.tables.now) marks.new.items) }
        ensures exact { IfOk result (λ b. (IsTrue b ↔
            ((w n : ℕ) → w < count → n < width → IsWrittenFirst self.now.tables.now (bit signal w n)))) }
    {
        let mut word = 0;
        while word < count {
            if !self.word_is_written_first(alloc, signal, word, width, marks)? {
                return Ok(false);
            }
            word = alike_words_until(self.sure.of_signal(signal), signal, count, word);
        }
        Ok(true)
    }
}
