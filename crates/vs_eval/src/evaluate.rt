//! The values of resolved expressions.
ghost use Rattle.std.specs.Prelude.{◌≡◌, ◌<◌, ◌≤◌, map};
ghost use Rattle.vs_design.specs.vs_logic4.specs.Bitwise.{merged};
ghost use Rattle.vs_design.specs.vs_logic4.specs.Comparisons.{truth};
ghost use Rattle.vs_eval.specs.Values.{value_of};
ghost use Rattle.vs_eval.specs.PlanesOf.{planes_of, digits_of};
ghost use Rattle.vs_eval.specs.Nodes.{planes_in, word_planes, field_planes, element_planes, bit_planes, indexed_planes, ranged_planes, counted, combined, chained, chosen, unary_planes, changed_planes, joined, repeated};

use crate::node::{Array, Change, Field, Index, Node, Planes, Range, Sides, Size};
use crate::{place_of, value, word_place};
use vs_design::vs_logic4::{Binary, Digit, Unary, Vec4};
use vs_design::{Count, Store, Typed};

/// The planes of a vector.
#[inline(always)]
pub(crate) fn planes(digits: Vec4) -> Planes
    ensures { result ≡ planes_of digits }
{
    Planes {
        value: digits.value_plane(),
        unknown: digits.unknown_plane(),
    }
}

/// The vector of so many digits that planes hold.
#[inline(always)]
pub(crate) fn vector(width: u32, p: Planes) -> Vec4
    requires some { 0 < width }
    requires most { width ≤ 64 }
    ensures { result ≡ digits_of width p }
{
    Vec4::from_planes(width, p.value, p.unknown)
}

/// The planes of a resolved expression in a store at a time in ticks; a literal and a word are read at once.
#[cycle(evaluate)]
#[inline(always)]
pub(crate) fn quick_planes(node: &Node, store: &Store, time: u64) -> Planes
    ensures { result ≡ planes_in node.now store.now time }
{
    match node {
        Node::Number(p) => *p,
        Node::Word(number) => word(*number, store),
        _ => {
            let made = planes_at(node, store, time);
            made
        }
    }
}

/// The planes of a resolved expression in a store at a time in ticks.
#[cycle(evaluate)]
pub(crate) fn planes_at(node: &Node, store: &Store, time: u64) -> Planes
    ensures { result ≡ planes_in node.now store.now time }
{
    match node {
        Node::Number(p) => *p,
        Node::Word(number) => word(*number, store),
        Node::Bits(field) => bits(*field, store),
        Node::Element(array, x) => element(*array, quick_planes(x, store, time), store),
        Node::Bit(array, x) => bit(*array, quick_planes(x, store, time), store),
        Node::Indexed(array, index, x) => indexed(
            array,
            index,
            quick_planes(x, store, time),
            store,
        ),
        Node::Ranged(array, range, x) => ranged(array, range, quick_planes(x, store, time), store),
        Node::Unary(operator, size, x) => unary(*operator, *size, quick_planes(x, store, time)),
        Node::Two(sides, x, y) => {
            let left = quick_planes(x, store, time);
            combined(sides, left, quick_planes(y, store, time))
        }
        Node::Chain(x, links) => chain(quick_planes(x, store, time), links, store, time),
        Node::If(size, width, c, x, y) => {
            let truth = truth(*size, quick_planes(c, store, time));
            choice(truth, *width, x, y, store, time)
        }
        Node::Resized(change, x) => resized(*change, quick_planes(x, store, time)),
        Node::Concat(size, x, parts) => {
            joined(*size, quick_planes(x, store, time), parts, store, time)
        }
        Node::Repeat(count, size, x) => { repeated(*count, *size, quick_planes(x, store, time)) }
        Node::Other(e) => other(e, store, time),
    }
}

/// The planes of an expression that isn't resolved.
#[inline(never)]
fn other(e: &Typed, store: &Store, time: u64) -> Planes
    ensures { result ≡ planes_of (value_of e.now store.now time) }
{
    planes(value(e, store, time))
}

/// What a first value and the links behind it give, from left to right. It stands apart from `planes_at`, as other long parts do, so that a short
/// one doesn't pay for their room.
#[cycle(evaluate)]
#[inline(never)]
fn chain(first: Planes, links: &[(Sides, Node)], store: &Store, time: u64) -> Planes
    ensures { result ≡ chained first (map (λ l. (l.0, planes_in l.1 store.now time)) links.now) }
{
    let mut all = first;
    for (sides, node) in links {
        all = combined(sides, all, quick_planes(node, store, time));
    }
    all
}

/// What parts of their sizes give, the first of them the highest, cut to the lowest 64 bits.
#[cycle(evaluate)]
#[inline(never)]
fn joined(size: Size, first: Planes, parts: &[(Size, Node)], store: &Store, time: u64) -> Planes
    ensures { result ≡ joined size first (map (λ p. (p.0, planes_in p.1 store.now time)) parts.now) }
{
    let mut all = vector(size.width, first);
    for (size, node) in parts {
        all = all.join(vector(size.width, quick_planes(node, store, time)));
    }
    planes(all)
}

/// What an operand and another one give by the truth of a condition. One alone is evaluated where the condition is known.
#[cycle(evaluate)]
#[inline(never)]
fn choice(truth: Digit, size: Size, x: &Node, y: &Node, store: &Store, time: u64) -> Planes
    ensures { result ≡ chosen truth size (planes_in x.now store.now time) (planes_in y.now store.now time) }
{
    match truth {
        Digit::One => quick_planes(x, store, time),
        Digit::Zero => quick_planes(y, store, time),
        Digit::X | Digit::Z => {
            let value = planes_at(x, store, time);
            merged(size, value, planes_at(y, store, time))
        }
    }
}

/// The truth of a condition of this size.
#[inline(always)]
fn truth(size: Size, p: Planes) -> Digit
    ensures { result ≡ truth (digits_of size.width p) }
{
    vector(size.width, p).truth()
}

/// What `?:` gives of two operands of this size where its condition is unknown.
#[inline(never)]
fn merged(size: Size, value: Planes, other: Planes) -> Planes
    ensures { result ≡ planes_of (merged (digits_of size.width value) (digits_of size.width other)) }
{
    planes(vector(size.width, value).merge(vector(size.width, other)))
}

/// The planes of the word of a number.
#[inline(always)]
fn word(number: usize, store: &Store) -> Planes
    ensures { result ≡ word_planes store.now number }
{
    let (value, unknown) = store.planes_of(number);
    Planes { value, unknown }
}

/// Bits of a word.
#[inline(always)]
fn bits(field: Field, store: &Store) -> Planes
    ensures { result ≡ field_planes field store.now }
{
    let p = word(field.number, store);
    planes(Vec4::from_planes(field.width, p.value >> field.low, p.unknown >> field.low))
}

/// The number of the element that an index of this value counts among so many.
#[inline(always)]
fn counted(falls: bool, count: u32, value: u32) -> u32
    requires { value < count }
    ensures is { result ≡ counted falls count value }
    ensures below { result < count }
{
    if falls { count - 1 - value } else { value }
}

/// The word of an array that an index chooses.
#[inline(always)]
fn element(array: Array, index: Planes, store: &Store) -> Planes
    ensures { result ≡ element_planes array index store.now }
{
    if index.unknown == 0 && index.value < u64::from(array.count) {
        let place = counted(array.falls, array.count, index.value as u32);
        word(array.first + place as usize, store)
    } else {
        planes(Vec4::unknown(array.width))
    }
}

/// The bit of a word that an index chooses.
#[inline(always)]
fn bit(array: Array, index: Planes, store: &Store) -> Planes
    ensures { result ≡ bit_planes array index store.now }
{
    if index.unknown == 0 && index.value < u64::from(array.width) {
        let place = counted(array.falls, array.width, index.value as u32);
        let p = word(array.first, store);
        planes(Vec4::from_planes(1, p.value >> place, p.unknown >> place))
    } else {
        planes(Vec4::unknown(1))
    }
}

/// The word of an array that any index chooses.
#[inline(never)]
fn indexed(array: &Array, index: &Index, p: Planes, store: &Store) -> Planes
    ensures { result ≡ indexed_planes array.now index.now p store.now }
{
    let place = word_place(index.axis, vector(index.size, p));
    if place < array.count as usize {
        word(array.first + place, store)
    } else {
        planes(Vec4::unknown(array.width))
    }
}

/// The bits of a word that any index chooses.
#[inline(never)]
fn ranged(array: &Array, range: &Range, p: Planes, store: &Store) -> Planes
    ensures { result ≡ ranged_planes array.now range.now p store.now }
{
    let index = range.index;
    let place = place_of(index.axis, range.width, vector(index.size, p));
    let all = vector(array.width, word(array.first, store));
    planes(all.select(place, range.width))
}

/// What an operator gives of an operand of this size.
#[inline(always)]
fn unary(operator: Unary, size: Size, p: Planes) -> Planes
    ensures { result ≡ unary_planes operator size p }
{
    match operator {
        Unary::Not => planes(vector(size.width, p).not()),
        _ => rare_unary(operator, size, p),
    }
}

/// The same, out of the way of the operator that is frequent.
#[inline(never)]
fn rare_unary(operator: Unary, size: Size, p: Planes) -> Planes
    ensures { result ≡ unary_planes operator size p }
{
    planes(operator.of(vector(size.width, p)))
}

/// A value brought to another size.
#[inline(never)]
fn resized(change: Change, p: Planes) -> Planes
    ensures { result ≡ changed_planes change p }
{
    planes(vector(change.from, p).resize(change.to, change.signed))
}

/// What an operand of this size gives that is repeated, cut to the lowest 64 bits.
#[inline(never)]
fn repeated(count: Count, size: Size, p: Planes) -> Planes
    ensures { result ≡ repeated count size p }
{
    planes(vector(size.width, p).repeated(count.times))
}

/// What an operator gives of what stands on its left and on its right.
#[inline(always)]
fn combined(sides: &Sides, left: Planes, right: Planes) -> Planes
    ensures { result ≡ combined left (sides.now, right) }
{
    let x = vector(sides.left, left);
    let y = vector(sides.right, right);
    match sides.operator {
        Binary::Add => planes(x.add(y)),
        Binary::Subtract => planes(x.sub(y)),
        Binary::And => planes(x.and(y)),
        Binary::Or => planes(x.or(y)),
        Binary::Xor => planes(x.xor(y)),
        Binary::Equal => planes(Vec4::from_digit(x.eq(y))),
        Binary::NotEqual => planes(Vec4::from_digit(x.eq(y).not())),
        Binary::ShiftLeft => planes(x.shift_left(y)),
        Binary::ShiftRight => planes(x.shift_right(y, false)),
        Binary::LogicalAnd => planes(Vec4::from_digit(x.truth().and(y.truth()))),
        Binary::LogicalOr => planes(Vec4::from_digit(x.truth().or(y.truth()))),
        _ => rare_binary(sides, left, right),
    }
}

/// The same, out of the way of the operators that are frequent.
#[inline(never)]
fn rare_binary(sides: &Sides, left: Planes, right: Planes) -> Planes
    ensures { result ≡ combined left (sides.now, right) }
{
    let x = vector(sides.left, left);
    planes(
        sides
            .operator
            .of(sides.signed, x, vector(sides.right, right)),
    )
}
