//! What a name with its selects names (IEEE 1364-2005, clauses 5.2.1 and 5.2.2).
ghost use Rattle.std.specs.Prelude.{◌≡◌, ◌<◌, ◌≤◌, ◌^◌};
ghost use Rattle.std.specs.List.{All};
ghost use Rattle.vs_widths.specs.Selects.{Span, all_bits, bit_span, bounds_span, base_span, below_base, select_span, span_of, is_reversed, named, of_words, in_array, in_signal, constant_span};
ghost use Rattle.vs_widths.specs.select_passes.Measures.{meaning, IsFlexible};
ghost use Rattle.vs_widths.specs.select_passes.Places.{select_meaning, selects_meaning, IsFlexibleSelect, IsZero, IsAxis, IsExtent, Extends, IsPlaced, Places};

use crate::bindings::{Binding, Meaning};
use crate::constants::{Const, NOT_CONSTANT, count_of, whole_of};
use crate::faults::{WidthFault, WidthReason};
use crate::forms::{Measured, Sizable};
use crate::shape::{BIT, Shape};
use std::alloc::Global;
use vs_design::vs_logic4::{Digit, Vec4};
use vs_design::{Axis, Bounds};
use vs_syntax::PartSelect;

/// The fault that a name has selects that its declaration doesn't allow.
const WRONG_KIND: WidthFault = WidthFault::Refused(WidthReason::WrongKind);

/// Bits of a word: their size and sign, and the index that chooses the lowest one.
#[derive(Drop)]
pub struct Extent {
    /// Their size and sign.
    pub shape: Shape,
    /// How the index chooses.
    pub axis: Axis,
    /// The index.
    pub index: Measured,
}

/// Bits of a signal: the index that chooses the word, and the bits of it.
#[derive(Drop)]
pub struct ChosenBits {
    /// The signal's number in design order.
    pub signal: usize,
    /// How the index of the word chooses.
    pub words: Axis,
    /// The index of the word.
    pub word: Measured,
    /// The bits of the word.
    pub extent: Extent,
}

/// The axis of what has no index: its one element has the index 0.
const ORIGIN: Axis = Axis {
    right: 0,
    ascending: false,
    length: 1,
    below: 0,
    signed: false,
};

/// The index 0.
fn zero() -> Measured
    ensures { IsZero result }
{
    Measured {
        shape: BIT,
        form: Sizable::Number(Vec4::from_digit(Digit::Zero)),
    }
}

/// The axis of a range of so many elements.
fn axis(bounds: Bounds, length: u32, below: u32, signed: bool) -> Axis
    requires { length ≤ 2 ^ 16 }
    ensures is { IsAxis bounds length below result }
    ensures sign { result.signed ≡ signed }
{
    Axis {
        right: bounds.right,
        ascending: bounds.left < bounds.right,
        length,
        below,
        signed,
    }
}

/// All bits of a word.
fn all_bits(shape: Shape) -> Extent
    ensures { IsExtent (all_bits shape) result }
{
    Extent {
        shape,
        axis: ORIGIN,
        index: zero(),
    }
}

/// `[index]` of a word of this size.
fn bit(bounds: Bounds, size: u32, index: Measured) -> Extent
    requires size { size ≤ 64 }
    requires flexible { IsFlexible index.form }
    ensures { IsExtent (bit_span bounds size (meaning index)) result }
{
    Extent {
        shape: BIT,
        axis: axis(bounds, size, 0, index.shape.signed),
        index,
    }
}

/// Whether the bounds of a part-select run against those of the range.
fn is_reversed(bounds: Bounds, left: i128, right: i128) -> bool
    ensures { result ≡ is_reversed bounds left right }
{
    if bounds.left < bounds.right {
        right < left
    } else {
        left < right
    }
}

/// `[left:right]` of a word of this size.
fn between(
    alloc: Global,
    bounds: Bounds,
    size: u32,
    left: Measured,
    right: Measured,
) -> Result<Extent, WidthFault>
    requires size { size ≤ 64 }
    requires left { IsFlexible left.form }
    requires right { IsFlexible right.form }
    ensures { Extends (bounds_span bounds size (meaning left) (meaning right)) result }
{
    let from = whole_of(alloc, &left)?;
    let to = whole_of(alloc, &right)?;
    if is_reversed(bounds, from, to) {
        return Err(NOT_CONSTANT);
    }
    let apart = from.abs_diff(to);
    if apart > 63 {
        return Err(WidthFault::Refused(WidthReason::TooWide));
    }
    Ok(Extent {
        shape: Shape {
            width: apart as u32 + 1,
            signed: false,
        },
        axis: axis(bounds, size, 0, right.shape.signed),
        index: right,
    })
}

/// How far below the element of its base the lowest one of so many is.
fn below_base(how: PartSelect, bounds: Bounds, width: u32) -> u32
    requires { 0 < width }
    ensures { result ≡ below_base how bounds width }
{
    let ascends = bounds.left < bounds.right;
    match how {
        PartSelect::Bounds => 0,
        PartSelect::Upward => if ascends { width - 1 } else { 0 },
        PartSelect::Downward => if ascends { 0 } else { width - 1 },
    }
}

/// `[base +: width]` or `[base -: width]` of a word of this size.
fn from_base(
    alloc: Global,
    how: PartSelect,
    bounds: Bounds,
    size: u32,
    base: Measured,
    width: Measured,
) -> Result<Extent, WidthFault>
    requires size { size ≤ 64 }
    requires base { IsFlexible base.form }
    requires width { IsFlexible width.form }
    ensures { Extends (base_span how bounds size (meaning base) (meaning width)) result }
{
    let count = count_of(alloc, &width)?;
    if count > 64 {
        return Err(WidthFault::Refused(WidthReason::TooWide));
    }
    let width = count as u32;
    Ok(Extent {
        shape: Shape {
            width,
            signed: false,
        },
        axis: axis(
            bounds,
            size,
            below_base(how, bounds, width),
            base.shape.signed,
        ),
        index: base,
    })
}

/// What one select chooses of a word of this size and range.
fn selected(
    alloc: Global,
    bounds: Bounds,
    size: u32,
    select: (Measured, Option<(PartSelect, Measured)>),
) -> Result<Extent, WidthFault>
    requires size { size ≤ 64 }
    requires flexible { IsFlexibleSelect select }
    ensures { Extends (select_span bounds size (select_meaning select)) result }
{
    let (index, part) = select;
    match part {
        None => Ok(bit(bounds, size, index)),
        Some((PartSelect::Bounds, right)) => between(alloc, bounds, size, index, right),
        Some((how, width)) => from_base(alloc, how, bounds, size, index, width),
    }
}

/// What selects choose of a word.
fn bits_of(
    alloc: Global,
    bits: Option<Bounds>,
    shape: Shape,
    selects: Vec<(Measured, Option<(PartSelect, Measured)>)>,
) -> Result<Extent, WidthFault>
    requires flexible { All IsFlexibleSelect selects.items }
    ensures { Extends (span_of bits shape (selects_meaning selects.items)) result }
{
    if selects.len() == 0 {
        return Ok(all_bits(shape));
    }
    let Some(bounds) = bits else {
        return Err(WRONG_KIND);
    };
    if selects.len() > 1 {
        return Err(WRONG_KIND);
    }
    let mut selects = selects;
    let select = selects.remove(0);
    selected(alloc, bounds, shape.width, select)
}

/// Bits of a signal that is no array.
fn in_signal(signal: usize, extent: Extent) -> ChosenBits
    ensures { (s : Span) → IsExtent s extent → IsPlaced (in_signal signal s) result }
{
    ChosenBits {
        signal,
        words: ORIGIN,
        word: zero(),
        extent,
    }
}

/// What selects choose of an array.
fn in_array(
    alloc: Global,
    words: Bounds,
    meaning: Meaning,
    signal: usize,
    selects: Vec<(Measured, Option<(PartSelect, Measured)>)>,
) -> Result<ChosenBits, WidthFault>
    requires flexible { All IsFlexibleSelect selects.items }
    ensures { Places (in_array words meaning signal (selects_meaning selects.items)) result }
{
    if selects.len() == 0 {
        return Err(WRONG_KIND);
    }
    let mut selects = selects;
    let (index, part) = selects.remove(0);
    if part.is_some() {
        return Err(WRONG_KIND);
    }
    let extent = bits_of(alloc, meaning.bits, meaning.shape, selects)?;
    Ok(ChosenBits {
        signal,
        words: axis(words, meaning.count, 0, index.shape.signed),
        word: index,
        extent,
    })
}

/// What selects choose of a signal.
fn of_words(
    alloc: Global,
    meaning: Meaning,
    signal: usize,
    selects: Vec<(Measured, Option<(PartSelect, Measured)>)>,
) -> Result<ChosenBits, WidthFault>
    requires flexible { All IsFlexibleSelect selects.items }
    ensures { Places (of_words meaning.words meaning signal (selects_meaning selects.items)) result }
{
    match meaning.words {
        None => {
            let extent = bits_of(alloc, meaning.bits, meaning.shape, selects)?;
            Ok(in_signal(signal, extent))
        }
        Some(words) => in_array(alloc, words, meaning, signal, selects),
    }
}

/// What a name with its selects names.
pub fn named(
    alloc: Global,
    binding: Option<Binding>,
    selects: Vec<(Measured, Option<(PartSelect, Measured)>)>,
) -> Result<ChosenBits, WidthFault>
    requires flexible { All IsFlexibleSelect selects.items }
    ensures { Places (named binding (selects_meaning selects.items)) result }
{
    let Some(binding) = binding else {
        return Err(WidthFault::Refused(WidthReason::Unknown));
    };
    match binding {
        Binding::Signal(meaning, signal) => of_words(alloc, meaning, signal, selects),
        Binding::Constant(_) => Err(WRONG_KIND),
        Binding::Pending => Err(NOT_CONSTANT),
        Binding::Other => Err(WRONG_KIND),
        Binding::Genvar => Err(WRONG_KIND),
    }
}

/// What selects choose of a constant.
pub fn bits_of_constant(
    alloc: Global,
    constant: Const,
    selects: Vec<(Measured, Option<(PartSelect, Measured)>)>,
) -> Result<Extent, WidthFault>
    requires flexible { All IsFlexibleSelect selects.items }
    ensures { Extends (constant_span constant (selects_meaning selects.items)) result }
{
    bits_of(alloc, Some(constant.bits), constant.shape(), selects)
}
