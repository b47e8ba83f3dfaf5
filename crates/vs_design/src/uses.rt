//! Which bits an expression reads and an assignment writes.
ghost use Rattle.std.specs.Prelude.{◌≡◌, ◌++◌, ◌∷◌, [], IfOk, OnOk, map};
ghost use Rattle.vs_design.specs.Uses.{reads, writes, whole, joined, all_words, bits_from, slice_range, aim_range, aim_reads, target_reads};

use crate::expression::{Link, Slice, Typed};
use crate::range::{BitRange, Bits};
use crate::statement::{Aim, Target};
use std::alloc::{AllocError, Global};

/// The word 0 of a signal, all bits.
fn whole(signal: usize) -> BitRange
    ensures { result ≡ whole signal }
{
    BitRange {
        signal,
        word: Some(0),
        bits: None,
    }
}

/// Every word of a signal, all bits.
fn all_words(signal: usize) -> BitRange
    ensures { result ≡ all_words signal }
{
    BitRange {
        signal,
        word: None,
        bits: None,
    }
}

/// Those of so many bits from a place on that lie at places from 0 on (IEEE 1364-2005, clause 5.2.1).
pub fn bits_from(low: i32, width: u32) -> Bits
    ensures { result ≡ bits_from low width }
{
    if low >= 0 {
        Bits {
            low: low.unsigned_abs(),
            width,
        }
    } else {
        Bits {
            low: 0,
            width: width.saturating_sub(low.unsigned_abs()),
        }
    }
}

/// The bits of a word that constant indices choose.
fn slice_range(slice: Slice) -> BitRange
    ensures { result ≡ slice_range slice }
{
    BitRange {
        signal: slice.signal,
        word: Some(slice.word),
        bits: Some(bits_from(slice.low, slice.width)),
    }
}

#[cycle(reads)]
pub(crate) fn push_reads(out: &mut Vec<BitRange>, e: &Typed) -> Result<(), AllocError>
    ensures { OnOk result (out.new.items ≡ out.old.items ++ reads e.now) }
{
    match e {
        Typed::Number(_) => Ok(()),
        Typed::Signal(o) => Ok(out.push(whole(o.signal))?),
        Typed::Slice(s) => Ok(out.push(slice_range(*s))?),
        Typed::Select(s, word, low) => {
            out.push(all_words(s.signal))?;
            push_reads(out, word)?;
            push_reads(out, low)
        }
        Typed::Excerpt(_, x) | Typed::Unary(_, x) | Typed::Repeat(_, x) | Typed::Resized(_, x) =>
            push_reads(out, x),
        Typed::Chain(first, links) => {
            push_reads(out, first)?;
            push_link_reads(out, links)
        }
        Typed::Choice(pairs, last) => {
            push_pair_reads(out, pairs)?;
            push_reads(out, last)
        }
        Typed::Concat(first, others) => {
            push_reads(out, first)?;
            push_all_reads(out, others)
        }
    }
}

#[cycle(reads)]
fn push_link_reads(out: &mut Vec<BitRange>, links: &[(Link, Typed)]) -> Result<(), AllocError>
    ensures { OnOk result (out.new.items ≡ out.old.items ++ joined (map (λ l. reads l.1) links.now)) }
{
    for (_, e) in links {
        push_reads(out, e)?;
    }
    Ok(())
}

#[cycle(reads)]
fn push_pair_reads(out: &mut Vec<BitRange>, pairs: &[(Typed, Typed)]) -> Result<(), AllocError>
    ensures { OnOk result (out.new.items ≡ out.old.items ++ joined (map (λ p. reads p.0 ++ reads p.1) pairs.now)) }
{
    for (condition, e) in pairs {
        push_reads(out, condition)?;
        push_reads(out, e)?;
    }
    Ok(())
}

#[cycle(reads)]
pub(crate) fn push_all_reads(out: &mut Vec<BitRange>, all: &[Typed]) -> Result<(), AllocError>
    ensures { OnOk result (out.new.items ≡ out.old.items ++ joined (map reads all.now)) }
{
    for e in all {
        push_reads(out, e)?;
    }
    Ok(())
}

/// The ranges that an expression reads, those of its text: each name in it, in the order of the text (profile).
pub fn reads(alloc: Global, e: &Typed) -> Result<Vec<BitRange>, AllocError>
    ensures { IfOk result (λ ranges. ranges.items ≡ reads e.now) }
{
    let mut out = Vec::new(alloc);
    push_reads(&mut out, e)?;
    Ok(out)
}

fn push_aim_reads(out: &mut Vec<BitRange>, aim: &Aim) -> Result<(), AllocError>
    ensures { OnOk result (out.new.items ≡ out.old.items ++ aim_reads aim.now) }
{
    match aim {
        Aim::Fixed(_) => Ok(()),
        Aim::Chosen(_, index, low) => {
            push_reads(out, index)?;
            push_reads(out, low)
        }
    }
}

/// Adds the ranges that the indices of a target read.
pub(crate) fn push_target_reads(out: &mut Vec<BitRange>, target: &Target) -> Result<(), AllocError>
    ensures { OnOk result (out.new.items ≡ out.old.items ++ target_reads target.now) }
{
    for aim in &target.parts {
        push_aim_reads(out, aim)?;
    }
    Ok(())
}

/// The range that an assignment to one place writes.
pub(crate) fn aim_range(aim: &Aim) -> BitRange
    ensures { result ≡ aim_range aim.now }
{
    match aim {
        Aim::Fixed(s) => slice_range(*s),
        Aim::Chosen(s, _, _) => all_words(s.signal),
    }
}

/// The ranges that an assignment to a target writes (IEEE 1364-2005, clause 6).
pub fn writes(alloc: Global, target: &Target) -> Result<Vec<BitRange>, AllocError>
    ensures { IfOk result (λ ranges. ranges.items ≡ writes target.now) }
{
    let mut out = Vec::new(alloc);
    for aim in &target.parts {
        out.push(aim_range(aim))?;
    }
    Ok(out)
}
