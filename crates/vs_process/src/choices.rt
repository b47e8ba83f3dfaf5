//! What conditions, `case` items and counts choose (IEEE 1364-2005, clauses 9.4 to 9.6).
ghost use Rattle.std.specs.Prelude.{◌≡◌, slice_set};
ghost use Rattle.vs_design.specs.vs_logic4.specs.Comparisons.{truth};
ghost use Rattle.vs_strobe.specs.vs_eval.specs.Values.{value_of};
ghost use Rattle.vs_process.specs.Steps.{branch, item_matches, is_default, turns_for};
ghost use Rattle.vs_process.specs.Extras.{starts_of};
ghost use Rattle.vs_process.specs.Landings.{landing, start_where, start_taken, turned};

use crate::draft::{Extra, Op};
use vs_design::vs_logic4::{CaseKind, Digit, Vec4};
use vs_design::{Statement, Store, Typed};
use vs_strobe::vs_eval::quick_value;

/// The first of two places where a condition is true, else the second; x and z count as false.
#[inline(always)]
pub(crate) fn branch(e: &Typed, store: &Store, time: u64, first: usize, second: usize) -> usize
    ensures { result ≡ branch (truth (value_of e.now store.now time)) first second }
{
    match quick_value(e, store, time).truth() {
        Digit::One => first,
        _ => second,
    }
}

/// Whether a `case` item has an expression that matches.
fn item_matches(
    kind: CaseKind,
    digits: Vec4,
    store: &Store,
    time: u64,
    item: &(Vec<Typed>, Statement),
) -> bool
    ensures { result ≡ item_matches kind digits store.now time item.now }
{
    let (labels, _) = item;
    for e in labels {
        if kind.matches(digits, quick_value(e, store, time)) {
            return true;
        }
    }
    false
}

/// Whether a `case` item is a `default`.
fn is_default(item: &(Vec<Typed>, Statement)) -> bool
    ensures { result ≡ is_default item.now }
{
    item.0.is_empty()
}

/// The start of the first item that is a `default`.
pub(crate) fn start_default(items: &[(Vec<Typed>, Statement)], starts: &[usize]) -> Option<usize>
    ensures { result ≡ start_where is_default items.now starts.now }
{
    for i in 0..items.len() {
        if is_default(&items[i]) {
            return starts.get(i).copied();
        }
    }
    None
}

/// The start of the first item with an expression that matches.
fn start_matching(
    kind: CaseKind,
    digits: Vec4,
    store: &Store,
    time: u64,
    items: &[(Vec<Typed>, Statement)],
    starts: &[usize],
) -> Option<usize>
    ensures { result ≡ start_where (item_matches kind digits store.now time) items.now starts.now }
{
    for i in 0..items.len() {
        if item_matches(kind, digits, store, time, &items[i]) {
            return starts.get(i).copied();
        }
    }
    None
}

/// Where a `case` on the value of an expression goes on: at the item that is taken, or behind the `case`.
#[inline(never)]
pub(crate) fn start_taken(
    kind: CaseKind,
    e: &Typed,
    store: &Store,
    time: u64,
    items: &[(Vec<Typed>, Statement)],
    starts: &[usize],
    behind: usize,
) -> usize
    ensures { result ≡ start_taken kind (value_of e.now store.now time) store.now time items.now starts.now behind }
{
    let digits = quick_value(e, store, time);
    match start_matching(kind, digits, store, time, items, starts) {
        Some(start) => start,
        None => match start_default(items, starts) {
            Some(start) => start,
            None => behind,
        },
    }
}

/// How often a `repeat` on the value of an expression is run: never where it is negative, or has a digit x or z.
#[inline(never)]
pub(crate) fn turns_for(signed: bool, e: &Typed, store: &Store, time: u64) -> u64
    ensures { result ≡ turns_for signed (value_of e.now store.now time) }
{
    let digits = quick_value(e, store, time);
    if signed {
        match digits.to_signed() {
            Some(n) => if n < 0 { 0 } else { n as u64 },
            None => 0,
        }
    } else {
        digits.to_number().unwrap_or(0)
    }
}

/// The starts of the items of a `case` that its instruction has.
#[inline(always)]
pub(crate) fn starts_of<'a>(extra: &'a Extra<'a>) -> &'a [usize]
    ensures { result.now ≡ starts_of extra.entry.now }
{
    match extra {
        Extra::Starts(starts) => starts.as_slice(),
        _ => &[],
    }
}

/// Sets a counter.
#[inline(always)]
fn set_counter(counters: &mut Vec<u64>, k: usize, left: u64)
    ensures { counters.new.items ≡ slice_set counters.old.items k left }
{
    if k < counters.len() {
        counters[k] = left;
    }
}

/// A test of a `repeat` with so many turns left: where it leads.
#[inline(always)]
pub(crate) fn turn(op: &Op, counters: &mut Vec<u64>, left: u64) -> usize
    ensures { landing result counters.new.items ≡ turned left op.now counters.old.items }
{
    if left == 0 {
        return op.behind;
    }
    set_counter(counters, op.counter, left - 1);
    op.first
}
