//! The lines of variables.
ghost use Rattle.std.specs.Prelude.{◌≡◌, ℕ, List, Option, IfOk, MatchOption};
ghost use Rattle.vs_design.specs.declared.signal.Bounds.{Bounds};
ghost use Rattle.vs_design.specs.declared.signal.SignalKind.{SignalKind};
ghost use Rattle.vs_vcd_lines.specs.declared.dump.Variable.{Variable};
ghost use Rattle.vs_vcd_lines.specs.Lines.{variable_line, IsVariable};
ghost use Rattle.vs_vcd_lines.specs.Parts.{AreBounds, IsNamed, IsRanged, IsShape};

use crate::codes::is_code;
use crate::cuts::{cut, cut_last};
use crate::dump::Variable;
use crate::ends::{after, before};
use crate::names::is_name;
use crate::numbers::signed_of;
use crate::words::{kind_of, size_of_word, three_words};
use std::alloc::{AllocError, Global};
use vs_design::{Bounds, SignalKind};

/// The kind and the size of the variable that a line declares, whose code has this number, and what stands after the code.
fn shape_of(line: &[u8], number: usize) -> Option<(SignalKind, u32, &[u8])>
    ensures { MatchOption result ((kind : SignalKind) (width : ℕ) (rest : List ℕ) → IsShape line.now number kind width rest → ⊥)
        (λ shape. IsShape line.now number shape.0 shape.1 shape.2.now) }
{
    let Some(words) = after(line, b"$var ") else {
        return None;
    };
    let Some((kind_word, size, code, rest)) = three_words(words) else {
        return None;
    };
    let Some(kind) = kind_of(kind_word) else {
        return None;
    };
    let Some(width) = size_of_word(size) else {
        return None;
    };
    let coded = is_code(code, number);
    if coded {
        Some((kind, width, rest))
    } else {
        None
    }
}

/// The bounds that a text writes.
#[tactic(auto, using(crate::proofs::VariableLemmas::bounds_made))]
fn bounds_of(text: &[u8]) -> Option<Bounds>
    ensures { MatchOption result ((b : Bounds) → AreBounds text.now b → ⊥) (λ b. AreBounds text.now b) }
{
    let Some((first, last)) = cut(text, b':') else {
        return None;
    };
    let Some(left) = signed_of(first) else {
        return None;
    };
    match signed_of(last) {
        Some(right) => Some(Bounds { left, right }),
        None => None,
    }
}

/// A name, and the range that stands after it.
fn ranged_of(text: &[u8]) -> Option<(&[u8], Bounds)>
    ensures { MatchOption result ((name : List ℕ) (b : Bounds) → IsRanged text.now name b → ⊥) (λ p. IsRanged text.now p.0.now p.1) }
{
    let Some(front) = before(text, b"]") else {
        return None;
    };
    let Some((start, range)) = cut_last(front, b'[') else {
        return None;
    };
    let Some(name) = before(start, b" ") else {
        return None;
    };
    let Some(bounds) = bounds_of(range) else {
        return None;
    };
    let named = is_name(name);
    if named { Some((name, bounds)) } else { None }
}

/// The name of a variable and its range, where it has one, before the end of its declaration.
fn named_of(text: &[u8]) -> Option<(&[u8], Option<Bounds>)>
    ensures { MatchOption result ((name : List ℕ) (range : Option Bounds) → IsNamed text.now name range → ⊥)
        (λ p. IsNamed text.now p.0.now p.1) }
{
    let Some(front) = before(text, b" $end") else {
        return None;
    };
    let named = is_name(front);
    if named {
        return Some((front, None));
    }
    match ranged_of(front) {
        Some((name, bounds)) => Some((name, Some(bounds))),
        None => None,
    }
}

/// The variable that a line declares, where its code has this number.
pub fn variable_of(
    alloc: Global,
    line: &[u8],
    number: usize,
) -> Result<Option<Variable>, AllocError>
    ensures { IfOk result (λ found. MatchOption found ((v : Variable) → IsVariable v → line.now ≡ variable_line v number → ⊥)
        (λ v. IsVariable v × (line.now ≡ variable_line v number))) }
{
    let Some((kind, width, rest)) = shape_of(line, number) else {
        return Ok(None);
    };
    let Some((text, range)) = named_of(rest) else {
        return Ok(None);
    };
    let name = Vec::from_slice(alloc, text)?;
    Ok(Some(Variable {
        kind,
        width,
        name,
        range,
    }))
}
