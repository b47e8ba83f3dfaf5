//! Stores.
ghost use Rattle.std.specs.Prelude.{◌≡◌, [], Some, None, IfOk, IfSome, MatchOption, length, map};
ghost use Rattle.vs_design.specs.Stores.{word_of, put, put_part, overlaid, changes_nothing, start_store};
ghost use Rattle.vs_logic4.specs.Planes.{value_plane, unknown_plane, digits_of_planes, ArePlanes};
ghost use Rattle.vs_design.specs.InOrder.{numbered_word, with_word};
ghost use Rattle.vs_design.specs.WordWrites.{after_parts, keeps};
ghost use Rattle.vs_design.specs.Drivers.{undriven_word, driven_word, driven_at, driven_by, all_driven, in_copies};
ghost use Rattle.vs_design.specs.passes.Planes.{AreInTurn, counts_of, widths_of};

use crate::design::{Assign, Design};
use crate::extent::Layout;
use crate::planes::{fill, set_word, spot, word_at};
use crate::signal::{Signal, SignalKind};
use crate::statement::Aim;
use crate::uses::aim_range;
use crate::write::{Part, Write};
use std::alloc::{AllocError, Global};
use std::marker::Model;
use vs_logic4::Vec4;

/// The values of a design's signals: for each, in design order, those of its words. Two flat planes of bits hold them.
#[derive(Drop)]
pub struct Store<'a> {
    // For each signal, where its words are.
    extents: &'a [Layout],
    values: Vec<u64>,
    unknowns: Vec<u64>,
}

impl<'a> Model for Store<'a> {
    ghost use Rattle.vs_design.specs.Stores.{Store};
    ghost use Rattle.vs_design.specs.passes.Planes.{store_of, ArePlanesOf};

    ghost Value = { Store };

    ghost view = { λ s. store_of s.extents.now s.values.items s.unknowns.items };

    ghost invariant = { λ s. ArePlanesOf s.extents.now s.values.items s.unknowns.items };
}

impl<'a> Store<'a> {
    /// The store in which every execution of a design begins.
    pub fn start(alloc: Global, design: &'a Design) -> Result<Self, AllocError>
        ensures { IfOk result (λ s. s ≡ start_store design.entry.now) }
    {
        let signals = design.signals();
        let mut first = undriven_words(alloc, signals)?;
        fill_all(&mut first, design.assigns());
        Store::copies(alloc, design.extents(), &first)
    }

    /// The store of no signals, in which a constant is evaluated. It takes no memory.
    pub fn without_signals(alloc: Global) -> Self
        ensures { result ≡ [] }
    {
        Store {
            extents: &[],
            values: Vec::new(alloc),
            unknowns: Vec::new(alloc),
        }
    }

    /// Each word as often as its signal has words.
    fn copies(alloc: Global, extents: &'a [Layout], words: &[Vec4]) -> Result<Self, AllocError>
        requires in_turn { AreInTurn extents.now }
        requires widths { map length words.now ≡ widths_of extents.now }
        ensures { IfOk result (λ s. s ≡ in_copies (counts_of extents.entry.now) words.now) }
    {
        let mut values = Vec::new(alloc);
        let mut unknowns = Vec::new(alloc);
        for i in 0..extents.len() {
            let extent = extents[i];
            let word = words[i];
            fill(&mut values, extent.count, word.value_plane())?;
            fill(&mut unknowns, extent.count, word.unknown_plane())?;
        }
        Ok(Store {
            extents,
            values,
            unknowns,
        })
    }

    /// A word of a signal, where there is one. A signal that isn't an array has the word 0 alone.
    #[inline(always)]
    pub fn word(&self, signal: usize, word: usize) -> Option<Vec4>
        ensures { result ≡ word_of self.now signal word }
    {
        match spot(self.extents, signal, word) {
            Some(at) => Some(word_at(&self.values, &self.unknowns, at)),
            None => None,
        }
    }

    /// The value plane and the unknown plane of the word of a number, which counts the words of all signals in design order; past the end
    /// both are empty.
    #[inline(always)]
    pub fn planes_of(&self, number: usize) -> (u64, u64)
        ensures value { result.0 ≡ value_plane (numbered_word self.now number) }
        ensures unknown { result.1 ≡ unknown_plane (numbered_word self.now number) }
    {
        if number < self.values.len() {
            (self.values[number], self.unknowns[number])
        } else {
            (0, 0)
        }
    }

    /// Sets the value plane and the unknown plane of the word of a number, which have no bit above its size.
    #[inline(always)]
    pub fn set_planes(&mut self, number: usize, value: u64, unknown: u64)
        requires { ArePlanes (length (numbered_word self.old number)) value unknown }
        ensures { self.new ≡ with_word self.old number (digits_of_planes (length (numbered_word self.old number)) value unknown) }
    {
        self.values[number] = value;
        self.unknowns[number] = unknown;
    }

    /// Makes a write: its parts one after another, digits out of range dropped, and a part without a word too (IEEE 1364-2005, clause 5.2.1).
    pub fn put(&mut self, write: &Write)
        ensures { self.new ≡ put self.old write.now }
    {
        for part in write.parts() {
            let _ = self.put_part(*part);
        }
    }

    /// Makes one part of a write; the answer is the word that it names before and behind it, where there is one.
    #[inline(always)]
    pub fn put_part(&mut self, part: Part) -> Option<(Vec4, Vec4)>
        ensures put { self.new ≡ put_part self.old part }
        ensures before { MatchOption result (word_of self.old part.signal part.word ≡ None)
            (λ words. word_of self.old part.signal part.word ≡ Some words.0) }
        ensures behind { IfSome result (λ words. word_of self.new part.signal part.word ≡ Some words.1) }
    {
        let Some(at) = spot(self.extents, part.signal, part.word) else {
            return None;
        };
        let before = word_at(&self.values, &self.unknowns, at);
        let behind = over(before, part);
        set_word(&mut self.values, &mut self.unknowns, at, behind);
        Some((before, behind))
    }

    /// The word of a signal behind a write, where there is one.
    pub fn word_after_write(&self, write: &Write, signal: usize, word: usize) -> Option<Vec4>
        ensures { result ≡ word_of (put self.now write.now) signal word }
    {
        match self.word(signal, word) {
            Some(before) => Some(after_parts(write.parts(), signal, word, before)),
            None => None,
        }
    }

    /// Whether a write would change nothing.
    pub fn has(&self, write: &Write) -> bool
        ensures { result ≡ changes_nothing self.now write.now }
    {
        for part in write.parts() {
            if !self.keeps(write, *part) {
                return false;
            }
        }
        true
    }

    /// Whether the word that a part of a write names is behind the write as before.
    fn keeps(&self, write: &Write, part: Part) -> bool
        ensures { result ≡ keeps self.now write.now part }
    {
        match self.word(part.signal, part.word) {
            Some(before) => before == after_parts(write.parts(), part.signal, part.word, before),
            None => true,
        }
    }

    /// The same store once more.
    pub fn copy(&self, alloc: Global) -> Result<Self, AllocError>
        ensures { IfOk result (λ s. s ≡ self.now) }
    {
        Ok(Store {
            extents: self.extents,
            values: Vec::from_slice(alloc, &self.values)?,
            unknowns: Vec::from_slice(alloc, &self.unknowns)?,
        })
    }
}

/// A word with digits laid over it from a place on: those digits, where they are as many.
#[inline(always)]
fn laid(word: Vec4, low: i64, digits: Vec4) -> Vec4
    ensures { result ≡ overlaid low digits word }
{
    if low == 0 && digits.width() == word.width() {
        digits
    } else {
        let other = word;
        let over = digits;
        let made = other.put(low, over);
        made
    }
}

/// A word with the digits of a part laid over it; those out of range are dropped (IEEE 1364-2005, clause 5.2.1).
#[inline(always)]
pub fn over(word: Vec4, part: Part) -> Vec4
    ensures { result ≡ overlaid part.low part.digits word }
{
    laid(word, part.low, part.digits)
}

/// A word of a signal behind parts of a write.
fn after_parts(parts: &[Part], signal: usize, word: usize, before: Vec4) -> Vec4
    ensures { result ≡ after_parts parts.now signal word before }
{
    let mut all = before;
    for part in parts {
        if part.signal == signal && part.word == word {
            all = over(all, *part);
        }
    }
    all
}

/// What each word of a signal holds before the first step, where no continuous assignment drives it (IEEE 1364-2005, clauses 4.2.2 and 4.6.1).
fn undriven_word(signal: &Signal) -> Vec4
    ensures { result ≡ undriven_word signal.now }
{
    match signal.kind {
        SignalKind::Wire => Vec4::high_impedance(signal.width),
        SignalKind::Reg | SignalKind::Integer => Vec4::unknown(signal.width),
    }
}

/// A word of each signal, without drivers.
fn undriven_words(alloc: Global, signals: &[Signal]) -> Result<Vec<Vec4>, AllocError>
    ensures { IfOk result (λ words. words.items ≡ map undriven_word signals.now) }
{
    let mut words = Vec::new(alloc);
    for signal in signals {
        words.push(undriven_word(signal))?;
    }
    Ok(words)
}

/// A word with x in the bits that a place of a target has.
fn driven_word(word: Vec4, aim: &Aim) -> Vec4
    ensures { result ≡ driven_word aim.now word }
{
    match aim {
        Aim::Fixed(s) => {
            if s.word == 0 {
                word.put(s.low as i64, Vec4::unknown(s.width))
            } else {
                word
            }
        }
        Aim::Chosen(_, _, _) => Vec4::unknown(word.width()),
    }
}

/// Puts x into the bits that a place of a target has; a signal past the end is none of the table.
fn fill_x(words: &mut Vec<Vec4>, aim: &Aim)
    ensures { words.new.items ≡ driven_at aim.now words.old.items }
{
    let signal = aim_range(aim).signal;
    if signal < words.len() {
        let word = words[signal];
        words[signal] = driven_word(word, aim);
    }
}

fn fill_each(words: &mut Vec<Vec4>, aims: &[Aim])
    ensures { words.new.items ≡ driven_by aims.now words.old.items }
{
    for aim in aims {
        fill_x(words, aim);
    }
}

/// Puts x into the bits that continuous assignments drive (IEEE 1364-2005, clause 6.1).
fn fill_all(words: &mut Vec<Vec4>, assigns: &[Assign])
    ensures { words.new.items ≡ all_driven assigns.now words.old.items }
{
    for assign in assigns {
        fill_each(words, &assign.target.parts);
    }
}
