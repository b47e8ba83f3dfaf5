//! What an expression reads in a store, as it is evaluated there (IEEE 1364-2005, clause 5).

use crate::entry::Read;
use std::alloc::AllocError;
use vs_design::vs_logic4::Digit;
use vs_design::{Aim, Axis, Selection, Store, Target, Typed, bits_from};
use vs_eval::{place_of, value, word_place};

/// The most bits of a word.
const WIDEST: u32 = 64;

// Puts bits of a word, where there is such a word.
fn push_word(
    reads: &mut Vec<Read>,
    store: &Store,
    signal: usize,
    word: usize,
    low: u32,
    width: u32,
) -> Result<(), AllocError> {
    if let Some(value) = store.word(signal, word) {
        reads.push(Read {
            signal,
            word,
            low,
            width,
            value,
        })?;
    }
    Ok(())
}

// Puts the bits that the values of two indices choose.
fn push_chosen(
    reads: &mut Vec<Read>,
    selection: Selection,
    word: &Typed,
    low: &Typed,
    store: &Store,
    time: u64,
) -> Result<(), AllocError> {
    let words: Axis = selection.words;
    let bits: Axis = selection.bits;
    let number = word_place(words, value(word, store, time));
    let lowest = place_of(bits, selection.width, value(low, store, time));
    let lowest: i32 = lowest.try_into().unwrap_or(0);
    let chosen = bits_from(lowest, selection.width);
    push_word(
        reads,
        store,
        selection.signal,
        number,
        chosen.low,
        chosen.width,
    )
}

/// Puts what an expression reads in a store at a time. Of `?` what is chosen.
#[cycle(reads)]
pub(crate) fn push_reads(
    reads: &mut Vec<Read>,
    e: &Typed,
    store: &Store,
    time: u64,
) -> Result<(), AllocError> {
    match e {
        Typed::Number(_) => Ok(()),
        Typed::Signal(operand) => push_word(reads, store, operand.signal, 0, 0, WIDEST),
        Typed::Slice(slice) => {
            let bits = bits_from(slice.low, slice.width);
            push_word(reads, store, slice.signal, slice.word, bits.low, bits.width)
        }
        Typed::Select(selection, word, low) => {
            push_reads(reads, word, store, time)?;
            push_reads(reads, low, store, time)?;
            push_chosen(reads, *selection, word, low, store, time)
        }
        Typed::Excerpt(_, x) | Typed::Unary(_, x) | Typed::Repeat(_, x) | Typed::Resized(_, x) =>
            push_reads(reads, x, store, time),
        Typed::Chain(first, links) => {
            push_reads(reads, first, store, time)?;
            for (_, x) in links {
                push_reads(reads, x, store, time)?;
            }
            Ok(())
        }
        Typed::Choice(pairs, last) => {
            for (condition, x) in pairs {
                push_reads(reads, condition, store, time)?;
                let truth = value(condition, store, time).truth();
                if truth != Digit::Zero {
                    push_reads(reads, x, store, time)?;
                }
                if truth == Digit::One {
                    return Ok(());
                }
            }
            push_reads(reads, last, store, time)
        }
        Typed::Concat(first, others) => {
            push_reads(reads, first, store, time)?;
            for x in others {
                push_reads(reads, x, store, time)?;
            }
            Ok(())
        }
    }
}

/// Puts what the indices of a target read.
pub(crate) fn push_index_reads(
    reads: &mut Vec<Read>,
    target: &Target,
    store: &Store,
    time: u64,
) -> Result<(), AllocError> {
    for aim in &target.parts {
        if let Aim::Chosen(_, word, low) = aim {
            push_reads(reads, word, store, time)?;
            push_reads(reads, low, store, time)?;
        }
    }
    Ok(())
}
