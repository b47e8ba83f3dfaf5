//! Expressions made into resolved ones.
ghost use Rattle.std.specs.Prelude.{◌≡◌, ℕ, ◌+◌, ◌*◌, ◌<◌, ◌≤◌, pos, true, false, if◌then◌else◌, min, map, take, length, List, Some, IfOk, IfSome};
ghost use Rattle.vs_design.specs.vs_logic4.specs.declared.digit.Digit.{Digit};
ghost use Rattle.vs_design.specs.vs_logic4.specs.Comparisons.{truth};
ghost use Rattle.vs_design.specs.vs_logic4.specs.Operators.{unary, gives_bit, is_even, is_one_bit, sizing_of};
ghost use Rattle.vs_design.specs.vs_logic4.specs.Parts.{replication};
ghost use Rattle.vs_design.specs.vs_logic4.specs.Vectors.{resized};
ghost use Rattle.vs_design.specs.declared.signal.Signal.{Signal};
ghost use Rattle.vs_design.specs.Selects.{place_of};
ghost use Rattle.vs_design.specs.Stores.{Store, word_of};
ghost use Rattle.vs_eval.specs.Values.{value_of, operand_value, bits_value, selection_value, left_side, right_side, linked, chained, picked, chosen, concatenated};
ghost use Rattle.vs_eval.specs.Meant.{IsMeant, Means, Values, AreSides, AreSized, IsWordOf, IsArrayOf, IsElementOf, IsBitsOf, IsCounting, IsPlain, word_value, part_value};
ghost use Rattle.vs_eval.specs.Nodes.{counted};
ghost use Rattle.vs_eval.specs.PlanesOf.{planes_of};

use crate::copy::boxed;
use crate::evaluate::planes;
use crate::node::{Array, Change, Field, Index, Node, Range, Sides, Size};
use crate::place_of;
use std::alloc::{AllocError, Global};
use vs_design::vs_logic4::{Sizing, Unary, Vec4};
use vs_design::{Axis, Count, Design, Extension, Link, Operand, Selection, Slice, Typed};

/// The expression resolved, where its operands have the sizes that those of every design have.
#[cycle(resolve)]
pub(crate) fn resolve(
    alloc: Global,
    design: &Design,
    e: &Typed,
) -> Result<Option<(Node, Size)>, AllocError>
    ensures { IfOk result (λ o. IfSome o (λ s. IsMeant design.now.signals e.now s.0 s.1.width)) }
{
    match e {
        Typed::Number(digits) => Ok(Some(literal(*digits))),
        Typed::Signal(o) => Ok(Some(whole(alloc, design, *o, e)?)),
        Typed::Slice(s) => Ok(Some(slice(alloc, design, *s, e)?)),
        Typed::Select(s, word, low) => Ok(Some(select(alloc, design, *s, word, low, e)?)),
        Typed::Excerpt(s, _) => Ok(Some(other(alloc, e, s.width)?)),
        Typed::Unary(operator, x) => match resolve(alloc, design, x)? {
            Some(x) => Ok(Some(unary(alloc, *operator, x)?)),
            None => Ok(None),
        },
        Typed::Chain(x, links) => match resolve(alloc, design, x)? {
            Some(x) => chain(alloc, design, x, links),
            None => Ok(None),
        },
        Typed::Choice(pairs, last) => match resolve(alloc, design, last)? {
            Some(last) => choice(alloc, design, pairs, last),
            None => Ok(None),
        },
        Typed::Concat(x, others) => match resolve(alloc, design, x)? {
            Some(x) => concatenated(alloc, design, x, others),
            None => Ok(None),
        },
        Typed::Repeat(count, x) => match resolve(alloc, design, x)? {
            Some(x) => Ok(Some(repeated(alloc, *count, x)?)),
            None => Ok(None),
        },
        Typed::Resized(size, x) => match resolve(alloc, design, x)? {
            Some(x) => Ok(Some(brought(alloc, *size, x)?)),
            None => Ok(Some(other(alloc, e, size.width)?)),
        },
    }
}

/// A literal of these digits.
#[inline(always)]
fn literal(digits: Vec4) -> (Node, Size)
    ensures { (signals : List Signal) (values : Values) → ((store : Store) (time : ℕ) → values store time ≡ digits)
        → Means signals values result.0 result.1.width }
{
    let width = digits.width();
    (Node::Number(planes(digits)), Size { width })
}

/// A copy of an expression that isn't resolved, of this size.
fn other(alloc: Global, e: &Typed, width: u32) -> Result<(Node, Size), AllocError>
    requires some { 0 < width }
    requires most { width ≤ 64 }
    ensures { IfOk result (λ r. (signals : List Signal) → AreSized signals (λ store time. value_of e.now store time) width
        → IsMeant signals e.now r.0 r.1.width) }
{
    let copy = boxed(alloc, e)?;
    Ok((Node::Other(copy), Size { width }))
}

/// A whole signal at the size of its context.
fn whole(alloc: Global, design: &Design, o: Operand, e: &Typed) -> Result<(Node, Size), AllocError>
    ensures { IfOk result (λ r. ((store : Store) (time : ℕ) → value_of e.now store time
        ≡ operand_value o.signed o.width (word_of store o.signal 0))
        → IsMeant design.now.signals e.now r.0 r.1.width) }
{
    let Some((number, size)) = word_of(design, o.signal, 0) else {
        return other(alloc, e, o.width);
    };
    let to = Extension {
        width: o.width,
        signed: o.signed,
    };
    let made = brought(alloc, to, (Node::Word(number), size))?;
    Ok(made)
}

/// The number of a word of a signal and its size, where there is such a word.
fn word_of(design: &Design, signal: usize, word: usize) -> Option<(usize, Size)>
    ensures { IfSome result (λ r. IsWordOf design.now.signals signal word r.0 r.1.width) }
{
    let s = design.signals().get(signal)?;
    let first = design.first_word(signal)?;
    if word < s.count as usize {
        Some((first.checked_add(word)?, Size { width: s.width }))
    } else {
        None
    }
}

/// The place of the lowest of some bits in a word of this size, where all of them are in it.
fn place_in(low: i32, width: u32, size: Size) -> Option<u32>
    ensures { IfSome result (λ l. (low ≡ pos l) × (l + width ≤ size.width)) }
{
    if low < 0 || width > size.width {
        return None;
    }
    let place = low as u32;
    if place <= size.width - width {
        Some(place)
    } else {
        None
    }
}

/// The bits that constant indices choose.
fn slice(alloc: Global, design: &Design, s: Slice, e: &Typed) -> Result<(Node, Size), AllocError>
    ensures { IfOk result (λ r. ((store : Store) (time : ℕ) → value_of e.now store time
        ≡ bits_value s.low s.width (word_of store s.signal s.word))
        → IsMeant design.now.signals e.now r.0 r.1.width) }
{
    let Some((number, size)) = word_of(design, s.signal, s.word) else {
        return other(alloc, e, s.width);
    };
    let Some(low) = place_in(s.low, s.width, size) else {
        return other(alloc, e, s.width);
    };
    let own = Size { width: s.width };
    if s.width == size.width {
        return Ok((Node::Word(number), own));
    }
    let field = Field {
        number,
        low,
        width: s.width,
    };
    Ok((Node::Bits(field), own))
}

/// The words of a signal, where there is one.
fn array_of(design: &Design, signal: usize) -> Option<Array>
    ensures { IfSome result (λ a. IsArrayOf design.now.signals signal a) }
{
    let s = design.signals().get(signal)?;
    let first = design.first_word(signal)?;
    if first.checked_add(s.count as usize).is_none() {
        return None;
    }
    Some(Array {
        first,
        count: s.count,
        width: s.width,
        falls: false,
    })
}

/// The index of the element of number 0, where the indices of so many elements are 0 and those after it.
fn right_of(falls: bool, length: u32) -> i64
    requires { 0 < length }
    ensures { result ≡ pos (counted falls length 0) }
{
    if falls { i64::from(length - 1) } else { 0 }
}

/// Whether an index of a range counts the elements, from the first one up or from the last one down, and the range has so many of them.
fn is_plain(axis: Axis, length: u32) -> bool
    requires { 0 < length }
    ensures { result ≡ true → IsPlain axis length }
{
    axis.right == right_of(axis.ascending, length)
        && axis.below == 0
        && !axis.signed
        && axis.length == length
}

/// Whether an expression is a literal that chooses the element of number 0.
fn is_lowest(axis: Axis, width: u32, e: &Typed) -> bool
    ensures { result ≡ true → (store : Store) (time : ℕ) → place_of axis width (value_of e.now store time) ≡ pos 0 }
{
    match e {
        Typed::Number(digits) => place_of(axis, width, *digits) == 0,
        _ => false,
    }
}

/// The words of a signal, where two indices choose a whole one of them by the first one's value.
fn element_of(design: &Design, s: Selection, low: &Typed) -> Option<Array>
    ensures { IfSome result (λ a. IsElementOf design.now.signals s low.now a) }
{
    let array = array_of(design, s.signal)?;
    if s.width != array.width {
        return None;
    }
    if is_lowest(s.bits, s.width, low) {
        Some(array)
    } else {
        None
    }
}

/// The words of a signal, where two indices choose bits of the first one by the second one's value.
fn bits_of(design: &Design, s: Selection, word: &Typed) -> Option<Array>
    ensures { IfSome result (λ a. IsBitsOf design.now.signals s word.now a) }
{
    let array = array_of(design, s.signal)?;
    if is_lowest(s.words, 1, word) {
        Some(array)
    } else {
        None
    }
}

/// The words of an array, counted as an index of this kind does.
fn counting(array: Array, axis: Axis) -> Array
    ensures { IsCounting result array axis.ascending }
{
    Array {
        first: array.first,
        count: array.count,
        width: array.width,
        falls: axis.ascending,
    }
}

/// The word of an array that an index chooses.
fn word_by(alloc: Global, array: Array, axis: Axis, x: (Node, Size)) -> Result<Node, AllocError>
    ensures { IfOk result (λ node. (signals : List Signal) (signal : ℕ) (values : Values) → IsArrayOf signals signal array
        → Means signals values x.0 x.1.width → Means signals (λ store time. word_value signal array.width axis store (values store time)) node array.width) }
{
    let (node, own) = x;
    let x = Box::new(alloc, node)?;
    if is_plain(axis, array.count) {
        return Ok(Node::Element(counting(array, axis), x));
    }
    let index = Index {
        axis,
        size: own.width,
    };
    let index = Box::new(alloc, index)?;
    Ok(Node::Indexed(array, index, x))
}

/// So many bits of the first word of an array that an index chooses.
fn bits_by(
    alloc: Global,
    array: Array,
    axis: Axis,
    size: Size,
    x: (Node, Size),
) -> Result<Node, AllocError>
    ensures { IfOk result (λ node. (signals : List Signal) (signal : ℕ) (values : Values) → IsArrayOf signals signal array
        → Means signals values x.0 x.1.width → Means signals (λ store time. part_value signal size.width axis store (values store time)) node size.width) }
{
    let (node, own) = x;
    let x = Box::new(alloc, node)?;
    if size.width == 1 && is_plain(axis, array.width) {
        return Ok(Node::Bit(counting(array, axis), x));
    }
    let range = Range {
        index: Index {
            axis,
            size: own.width,
        },
        width: size.width,
    };
    let range = Box::new(alloc, range)?;
    Ok(Node::Ranged(array, range, x))
}

/// The bits that two indices choose: a word of an array or a bit of a word, else any bits.
#[cycle(resolve)]
fn select(
    alloc: Global,
    design: &Design,
    s: Selection,
    word: &Typed,
    low: &Typed,
    e: &Typed,
) -> Result<(Node, Size), AllocError>
    ensures { IfOk result (λ r. ((store : Store) (time : ℕ) → value_of e.now store time
        ≡ selection_value s store (value_of word.now store time) (value_of low.now store time))
        → IsMeant design.now.signals e.now r.0 r.1.width) }
{
    let own = Size { width: s.width };
    if let Some(array) = element_of(design, s, low) {
        if let Some(x) = resolve(alloc, design, word)? {
            let node = word_by(alloc, array, s.words, x)?;
            return Ok((node, own));
        }
    }
    if let Some(array) = bits_of(design, s, word) {
        if let Some(x) = resolve(alloc, design, low)? {
            let node = bits_by(alloc, array, s.bits, own, x)?;
            return Ok((node, own));
        }
    }
    other(alloc, e, s.width)
}

/// An operator and its operand.
fn unary(alloc: Global, operator: Unary, x: (Node, Size)) -> Result<(Node, Size), AllocError>
    ensures { IfOk result (λ r. (signals : List Signal) (values : Values) → Means signals values x.0 x.1.width
        → Means signals (λ store time. unary operator (values store time)) r.0 r.1.width) }
{
    let (node, size) = x;
    let node = Node::Unary(operator, size, Box::new(alloc, node)?);
    Ok((node, unary_size(operator, size)))
}

/// An operand brought to a size: at its own, and at a larger one without a sign, it has the same planes.
fn brought(alloc: Global, to: Extension, x: (Node, Size)) -> Result<(Node, Size), AllocError>
    ensures { IfOk result (λ r. (signals : List Signal) (values : Values) → Means signals values x.0 x.1.width
        → Means signals (λ store time. resized to.signed to.width (values store time)) r.0 r.1.width) }
{
    let (node, from) = x;
    let size = Size { width: to.width };
    if keeps_planes(to.signed, to.width, from) {
        return Ok((node, size));
    }
    let change = Change {
        from: from.width,
        to: to.width,
        signed: to.signed,
    };
    Ok((Node::Resized(change, Box::new(alloc, node)?), size))
}

/// Whether a value of this size has the same planes at another one: it is extended by 0, or not at all.
fn keeps_planes(signed: bool, width: u32, from: Size) -> bool
    ensures { result ≡ true → (ds : List Digit) → length ds ≡ from.width → planes_of ds ≡ planes_of (resized signed width ds) }
{
    if signed {
        from.width == width
    } else {
        from.width <= width
    }
}

/// The size of what an operator gives of an operand of this one.
fn unary_size(operator: Unary, own: Size) -> Size
    ensures { result.width ≡ (if gives_bit operator then 1 else own.width) }
{
    if operator.gives_bit() {
        Size { width: 1 }
    } else {
        own
    }
}

/// The size at which an operator takes what stands on its left, which has this one.
fn left_size(link: Link, own: Size) -> Size
    ensures even { is_even (sizing_of link.operator) ≡ true → result.width ≡ link.width }
    ensures taken { (ds : List Digit) → length ds ≡ own.width
        → resized false result.width ds ≡ left_side (sizing_of link.operator) link.width ds }
{
    match link.operator.sizing() {
        Sizing::Alike | Sizing::Shift | Sizing::Comparison => Size { width: link.width },
        Sizing::Logical => own,
    }
}

/// The size at which an operator takes what stands on its right, which has this one.
fn right_size(link: Link, own: Size) -> Size
    ensures even { is_even (sizing_of link.operator) ≡ true → result.width ≡ link.width }
    ensures taken { (ds : List Digit) → length ds ≡ own.width
        → resized false result.width ds ≡ right_side (sizing_of link.operator) link.width ds }
{
    match link.operator.sizing() {
        Sizing::Alike | Sizing::Comparison => Size { width: link.width },
        Sizing::Shift | Sizing::Logical => own,
    }
}

/// An operator with the sizes at which it takes what stands on its two sides, which have these.
fn sides(link: Link, left: Size, right: Size) -> Sides
    ensures { AreSides link result left.width right.width }
{
    let left = left_size(link, left);
    let right = right_size(link, right);
    Sides {
        operator: link.operator,
        signed: link.signed,
        left: left.width,
        right: right.width,
    }
}

/// The size of what a link gives.
fn linked_size(link: Link) -> Size
    ensures { result.width ≡ (if is_one_bit (sizing_of link.operator) then 1 else link.width) }
{
    match link.operator.sizing() {
        Sizing::Alike | Sizing::Shift => Size { width: link.width },
        Sizing::Comparison | Sizing::Logical => Size { width: 1 },
    }
}

/// An operand, an operator and another operand.
#[cycle(resolve)]
fn pair(
    alloc: Global,
    design: &Design,
    first: (Node, Size),
    link: Link,
    e: &Typed,
) -> Result<Option<(Node, Size)>, AllocError>
    ensures { IfOk result (λ o. IfSome o (λ r. (values : Values) → Means design.now.signals values first.0 first.1.width
        → Means design.now.signals (λ store time. linked (values store time) (link, value_of e.now store time)) r.0 r.1.width)) }
{
    let (x, left) = first;
    let Some((y, right)) = resolve(alloc, design, e)? else {
        return Ok(None);
    };
    let sides = sides(link, left, right);
    let node = Node::Two(sides, Box::new(alloc, x)?, Box::new(alloc, y)?);
    Ok(Some((node, linked_size(link))))
}

/// Operands with operators between them.
#[cycle(resolve)]
fn chain(
    alloc: Global,
    design: &Design,
    first: (Node, Size),
    links: &[(Link, Typed)],
) -> Result<Option<(Node, Size)>, AllocError>
    ensures { IfOk result (λ o. IfSome o (λ r. (values : Values) → Means design.now.signals values first.0 first.1.width
        → Means design.now.signals (λ store time. chained (values store time) (map (λ l. (l.0, value_of l.1 store time)) links.now))
        r.0 r.1.width)) }
{
    if links.len() == 1 {
        let (link, e) = &links[0];
        return pair(alloc, design, first, *link, e);
    }
    let (node, mut size) = first;
    let mut all = Vec::with_capacity(alloc, links.len())?;
    for (link, e) in links {
        let Some((y, right)) = resolve(alloc, design, e)? else {
            return Ok(None);
        };
        all.push((sides(*link, size, right), y))?;
        size = linked_size(*link);
    }
    let node = Node::Chain(Box::new(alloc, node)?, all);
    Ok(Some((node, size)))
}

/// An operand behind a condition, and what stands behind its `:`, where both have one size.
#[cycle(resolve)]
fn alternative(
    alloc: Global,
    design: &Design,
    condition: &Typed,
    e: &Typed,
    last: (Node, Size),
) -> Result<Option<Node>, AllocError>
    ensures { IfOk result (λ o. IfSome o (λ node. (values : Values) → Means design.now.signals values last.0 last.1.width
        → Means design.now.signals
        (λ store time. picked (truth (value_of condition.now store time)) (value_of e.now store time) (values store time))
        node last.1.width)) }
{
    let (y, size) = last;
    let Some((c, truth)) = resolve(alloc, design, condition)? else {
        return Ok(None);
    };
    let Some((x, own)) = resolve(alloc, design, e)? else {
        return Ok(None);
    };
    if own.width != size.width {
        return Ok(None);
    }
    let c = Box::new(alloc, c)?;
    let x = Box::new(alloc, x)?;
    Ok(Some(Node::If(truth, size, c, x, Box::new(alloc, y)?)))
}

/// Operands, each behind a condition, and a last one, where all operands have one size and there are few of them.
#[cycle(resolve)]
fn choice(
    alloc: Global,
    design: &Design,
    pairs: &[(Typed, Typed)],
    last: (Node, Size),
) -> Result<Option<(Node, Size)>, AllocError>
    ensures { IfOk result (λ o. IfSome o (λ r. (values : Values) → Means design.now.signals values last.0 last.1.width
        → Means design.now.signals
        (λ store time. chosen (map (λ p. (value_of p.0 store time, value_of p.1 store time)) pairs.now) (values store time))
        r.0 r.1.width)) }
{
    if pairs.len() > 32 {
        return Ok(None);
    }
    let (mut node, size) = last;
    for i in (0..pairs.len()).rev() {
        let (condition, e) = &pairs[i];
        let Some(made) = alternative(alloc, design, condition, e, (node, size))? else {
            return Ok(None);
        };
        node = made;
    }
    Ok(Some((node, size)))
}

/// Parts, a first one, which is the highest, and others.
#[cycle(resolve)]
fn concatenated(
    alloc: Global,
    design: &Design,
    first: (Node, Size),
    others: &[Typed],
) -> Result<Option<(Node, Size)>, AllocError>
    ensures { IfOk result (λ o. IfSome o (λ r. (values : Values) → Means design.now.signals values first.0 first.1.width
        → Means design.now.signals (λ store time. concatenated (values store time) (map (λ e. value_of e store time) others.now))
        r.0 r.1.width)) }
{
    let (node, own) = first;
    let mut size = own;
    let mut parts = Vec::with_capacity(alloc, others.len())?;
    for part in others {
        let Some((y, below)) = resolve(alloc, design, part)? else {
            return Ok(None);
        };
        parts.push((below, y))?;
        size = joined_size(size, below);
    }
    let node = Node::Concat(own, Box::new(alloc, node)?, parts);
    Ok(Some((node, size)))
}

/// A part that is repeated.
fn repeated(alloc: Global, count: Count, x: (Node, Size)) -> Result<(Node, Size), AllocError>
    ensures { IfOk result (λ r. (signals : List Signal) (values : Values) → Means signals values x.0 x.1.width
        → Means signals (λ store time. take 64 (replication count.times (values store time))) r.0 r.1.width) }
{
    let (node, own) = x;
    let size = repeated_size(count, own);
    Ok((Node::Repeat(count, own, Box::new(alloc, node)?), size))
}

/// The size of a part with another one below it, cut to 64 bits.
fn joined_size(high: Size, low: Size) -> Size
    ensures { result.width ≡ min 64 (high.width + low.width) }
{
    Size {
        width: (high.width + low.width).min(64),
    }
}

/// The size of a part that is repeated, cut to 64 bits.
fn repeated_size(count: Count, own: Size) -> Size
    ensures { result.width ≡ min 64 (count.times * own.width) }
{
    Size {
        width: (count.times * own.width).min(64),
    }
}
