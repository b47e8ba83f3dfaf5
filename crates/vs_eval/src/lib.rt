//! The values of expressions in a store (IEEE 1364-2005, clause 5), also resolved for a run, where each signal is the number of its word; the writes
//! of assignments; and when event controls wake, word by word (clause 9.7.2).
#![tactic(auto)]

ghost use Rattle.std.specs.Prelude.{◌≡◌, ◌<◌, ◌≤◌, map, true};
ghost use Rattle.vs_design.specs.declared.expression.Typed.TheViews.{out-Typed};
ghost use Rattle.vs_design.specs.vs_logic4.specs.Comparisons.{truth};
ghost use Rattle.vs_design.specs.vs_logic4.specs.Operators.{sizing_of};
ghost use Rattle.vs_design.specs.vs_logic4.specs.Vectors.{resized};
ghost use Rattle.vs_eval.specs.Laws.{ReadsHold, IndicesHold, WritesHold, SizesHold};
ghost use Rattle.vs_eval.specs.Values.{is_other, value_of, operand_value, bits_value, selection_value, excerpt_value, left_side, right_side, linked, chained, picked, chosen, concatenated};
ghost use Rattle.vs_design.specs.Stores.{word_of};

mod copy;
mod differences;
mod edge_bits;
mod evaluate;
mod indices;
mod laws;
mod masks;
mod node;
mod resolve;
mod resolved;
mod sensitivity;
mod targets;
mod waking;

pub use differences::{difference, sees};
pub use indices::{index_number, place_of, word_place};
pub use laws::waking_by_words;
pub use masks::{WordChange, WordMask};
pub use node::Planes;
pub use resolved::Resolved;
pub use sensitivity::Sensitivity;
pub use targets::{cut_value, write_of};
use vs_design::vs_logic4::{Digit, Sizing, Vec4};
use vs_design::{Excerpt, Link, Operand, Selection, Slice, Store, Typed};
pub use waking::woken;

/// The value of an expression in a store at a time in ticks, at the size and with the sign of its context.
#[cycle(value)]
pub fn value(e: &Typed, store: &Store, time: u64) -> Vec4
    ensures { result ≡ value_of e.now store.now time }
{
    match e {
        Typed::Number(digits) => *digits,
        Typed::Signal(o) => operand(*o, store),
        Typed::Unary(operator, x) => operator.of(quick_value(x, store, time)),
        Typed::Chain(first, links) => chain(quick_value(first, store, time), links, store, time),
        _ => {
            let made = other_value(e, store, time);
            made
        }
    }
}

/// The value of an expression that is none of a number, a signal, an operator with its operand, and a chain. It stands apart so that these
/// don't take the room that it works in.
#[cycle(value)]
#[inline(never)]
fn other_value(e: &Typed, store: &Store, time: u64) -> Vec4
    requires { is_other (out-Typed e.now) ≡ true }
    ensures { result ≡ value_of e.now store.now time }
{
    match e {
        Typed::Slice(s) => slice(*s, store),
        Typed::Select(s, word, low) => {
            let word = quick_value(word, store, time);
            selection(*s, store, word, quick_value(low, store, time))
        }
        Typed::Excerpt(s, low) => excerpt(*s, quick_value(low, store, time)),
        Typed::Choice(pairs, last) => choice(pairs, quick_value(last, store, time), store, time),
        Typed::Concat(first, others) => {
            concatenation(quick_value(first, store, time), others, store, time)
        }
        Typed::Repeat(count, x) => quick_value(x, store, time).repeated(count.times),
        Typed::Resized(size, x) => quick_value(x, store, time).resize(size.width, size.signed),
        Typed::Number(_) | Typed::Signal(_) | Typed::Unary(_, _) | Typed::Chain(_, _) => {
            unreachable!()
        }
    }
}

/// The value of an expression, as `value` answers it; that of a number or a whole signal is read at once.
#[cycle(value)]
#[inline(always)]
pub fn quick_value(e: &Typed, store: &Store, time: u64) -> Vec4
    ensures { result ≡ value_of e.now store.now time }
{
    match e {
        Typed::Number(digits) => *digits,
        Typed::Signal(o) => operand(*o, store),
        Typed::Unary(_, _) | Typed::Chain(_, _) => {
            let made = value(e, store, time);
            made
        }
        _ => {
            let made = other_value(e, store, time);
            made
        }
    }
}

/// A vector at a size; one that has the size is taken as it is.
#[inline(always)]
fn fitted(digits: Vec4, width: u32, signed: bool) -> Vec4
    requires some { 0 < width }
    requires most { width ≤ 64 }
    ensures { result ≡ resized signed width digits }
{
    if digits.width() == width {
        digits
    } else {
        let other = digits;
        let made = other.resize(width, signed);
        made
    }
}

/// What a first value and the links behind it give, from left to right.
#[cycle(value)]
fn chain(first: Vec4, links: &[(Link, Typed)], store: &Store, time: u64) -> Vec4
    ensures { result ≡ chained first (map (λ l. (l.0, value_of l.1 store.now time)) links.now) }
{
    let mut all = first;
    for (link, e) in links {
        all = combined(all, *link, quick_value(e, store, time));
    }
    all
}

/// What operands, each behind a condition, and a last one give. An operand is evaluated only where its condition isn't known to be false.
#[cycle(value)]
fn choice(pairs: &[(Typed, Typed)], last: Vec4, store: &Store, time: u64) -> Vec4
    ensures { result ≡ chosen (map (λ p. (value_of p.0 store.now time, value_of p.1 store.now time)) pairs.now) last }
{
    let mut all = last;
    for i in (0..pairs.len()).rev() {
        let (condition, e) = &pairs[i];
        let truth = value(condition, store, time).truth();
        if truth != Digit::Zero {
            all = picked(truth, value(e, store, time), all);
        }
    }
    all
}

/// What an operand and the one behind its `:` give by the truth of the condition (IEEE 1364-2005, clause 5.1.13).
fn picked(truth: Digit, value: Vec4, other: Vec4) -> Vec4
    ensures { result ≡ picked truth value other }
{
    match truth {
        Digit::One => value,
        Digit::Zero => other,
        Digit::X | Digit::Z => value.merge(other.resize(value.width(), false)),
    }
}

/// What a first value and the parts behind it give, each below those before it.
#[cycle(value)]
fn concatenation(first: Vec4, others: &[Typed], store: &Store, time: u64) -> Vec4
    ensures { result ≡ concatenated first (map (λ e. value_of e store.now time) others.now) }
{
    let mut all = first;
    for e in others {
        all = all.join(value(e, store, time));
    }
    all
}

/// What the operator of a link gives of the values on its two sides.
#[inline(always)]
fn combined(left: Vec4, link: Link, right: Vec4) -> Vec4
    ensures { result ≡ linked left (link, right) }
{
    link.operator.of(link.signed, left_side(link, left), right_side(link, right))
}

/// The value on the left of a link at the size at which its operator takes it.
#[inline(always)]
fn left_side(link: Link, left: Vec4) -> Vec4
    ensures { result ≡ left_side (sizing_of link.operator) link.width left }
{
    match link.operator.sizing() {
        Sizing::Alike | Sizing::Shift | Sizing::Comparison => fitted(left, link.width, false),
        Sizing::Logical => left,
    }
}

/// The value on the right of a link at the size at which its operator takes it.
#[inline(always)]
fn right_side(link: Link, right: Vec4) -> Vec4
    ensures { result ≡ right_side (sizing_of link.operator) link.width right }
{
    match link.operator.sizing() {
        Sizing::Alike | Sizing::Comparison => fitted(right, link.width, false),
        Sizing::Shift | Sizing::Logical => right,
    }
}

/// The value of a signal where it stands in an expression.
#[inline(always)]
fn operand(o: Operand, store: &Store) -> Vec4
    ensures { result ≡ operand_value o.signed o.width (word_of store.now o.signal 0) }
{
    match store.word(o.signal, 0) {
        Some(word) => fitted(word, o.width, o.signed),
        None => Vec4::unknown(o.width),
    }
}

/// So many bits of a word from a place on; x where there is no such bit, or no such word (IEEE 1364-2005, clause 5.2.1).
fn bits(word: Option<Vec4>, low: i64, width: u32) -> Vec4
    requires some { 0 < width }
    requires most { width ≤ 64 }
    ensures { result ≡ bits_value low width word }
{
    match word {
        Some(word) => word.select(low, width),
        None => Vec4::unknown(width),
    }
}

/// The bits that constant indices choose.
fn slice(s: Slice, store: &Store) -> Vec4
    ensures { result ≡ bits_value s.low s.width (word_of store.now s.signal s.word) }
{
    bits(store.word(s.signal, s.word), s.low as i64, s.width)
}

/// The bits that two indices choose, the word's and the lowest bit's.
fn selection(s: Selection, store: &Store, word: Vec4, low: Vec4) -> Vec4
    ensures { result ≡ selection_value s store.now word low }
{
    let chosen = store.word(s.signal, word_place(s.words, word));
    bits(chosen, place_of(s.bits, s.width, low), s.width)
}

/// The bits of a constant that an index chooses.
fn excerpt(s: Excerpt, low: Vec4) -> Vec4
    ensures { result ≡ excerpt_value s low }
{
    bits(Some(s.digits), place_of(s.bits, s.width, low), s.width)
}

/// The ranges that `reads` answers of an expression hold all that its value depends on.
pub fn reads_hold()
    ensures { ReadsHold }
{}

/// Those of the indices of a target hold all that the places of its write depend on.
pub fn indices_hold()
    ensures { IndicesHold }
{}

/// A write to a target changes only what the ranges that `writes` answers cover.
pub fn writes_hold()
    ensures { WritesHold }
{}

/// An expression that has a size has values of that size.
pub fn sizes_hold()
    ensures { SizesHold }
{}
