//! A `case` as a run takes it: its subject and its labels resolved, and the index of each number where all labels are numbers of one size
//! (IEEE 1364-2005, clause 9.5).
ghost use Rattle.std.specs.Prelude.{◌≡◌, ℕ, List, if◌then◌else◌, slice_get, length, IfOk, IfSome, OnOk};
ghost use Rattle.std.specs.List.{All, list_any};
ghost use Rattle.vs_design.specs.vs_logic4.specs.declared.case.CaseKind.{CaseKind};
ghost use Rattle.vs_design.specs.vs_logic4.specs.declared.case.CaseKind.TheVariants as kinds;
ghost use Rattle.vs_design.specs.vs_logic4.specs.declared.digit.Digit.{Digit};
ghost use Rattle.vs_design.specs.vs_logic4.specs.Cases.{matches};
ghost use Rattle.vs_design.specs.InOrder.{IsStoreOf};
ghost use Rattle.vs_design.specs.Stores.{Store};
ghost use Rattle.vs_eval.specs.Meant.{Meaning};
ghost use Rattle.vs_strobe.specs.vs_eval.specs.Values.{value_of};
ghost use Rattle.vs_process.specs.Choices.{case_index, index_of};
ghost use Rattle.vs_process.specs.Landings.{place_or, start_where};
ghost use Rattle.vs_process.specs.Steps.{is_default};
ghost use Rattle.vs_process.specs.Switches.{AreLabels, AreOfSignals, AreResolved, IsNumber, IsSwitch, IsSwitch-prop, IsTable, any_index, index_or, switch_index, table_index, walked};

use crate::choice::{Case, index_of};
use crate::choices::{start_default, starts_of};
use std::alloc::{AllocError, Global};
use vs_design::vs_logic4::{CaseKind, Vec4};
use vs_design::{Design, Statement, Store, Typed};
use vs_eval::Resolved;

/// A label, and the index to which it leads.
#[derive(Clone, Copy)]
pub(crate) struct Label<'a> {
    pub(crate) e: &'a Typed,
    pub(crate) index: usize,
}

/// The labels of a `case`, and the index to which each leads.
#[derive(Drop)]
pub(crate) enum Labels<'a> {
    /// All are numbers of this size: the index of each number from 0 on.
    Numbers(u32, Vec<usize>),
    /// Any others, in the order of the text.
    Any(Vec<(Resolved<'a>, usize)>),
}

/// A `case`, resolved.
#[derive(Drop)]
pub struct Switch<'a> {
    pub(crate) case: Case<'a>,
    pub(crate) subject: Resolved<'a>,
    pub(crate) labels: Labels<'a>,
    /// The index to which it leads where no label matches.
    pub(crate) otherwise: usize,
    pub ghost made: { IsSwitch case subject labels otherwise } by { IsSwitch-prop case subject labels otherwise },
}

// The index of the start of an item, among so many instructions.
fn index_at(count: usize, starts: &[usize], item: usize, otherwise: usize) -> usize
    ensures { result ≡ index_or count otherwise (slice_get starts.now item) }
{
    match starts.get(item).copied() {
        Some(place) => index_of(count, place),
        None => otherwise,
    }
}

// The place where a `case` goes on where no label matches: at the `default`, or behind the `case`.
fn default_place(items: &[(Vec<Typed>, Statement)], starts: &[usize], behind: usize) -> usize
    ensures { result ≡ place_or behind (start_where is_default items.now starts.now) }
{
    match start_default(items, starts) {
        Some(start) => start,
        None => behind,
    }
}

// Puts the labels of an item, which lead to an index.
fn push_labels<'a>(
    all: &mut Vec<Label<'a>>,
    labels: &'a [Typed],
    index: usize,
) -> Result<(), AllocError>
    ensures { OnOk result ((kind : CaseKind) (digits : List Digit) (store : Store) (time otherwise : ℕ)
        → walked kind digits store time all.new.items otherwise
        ≡ walked kind digits store time all.old.items (if list_any (λ e. matches kind digits (value_of e store time)) labels.entry.now then index else otherwise)) }
{
    for e in labels {
        all.push(Label { e, index })?;
    }
    Ok(())
}

// The labels of a `case`, in the order of the text.
fn labels_of<'a>(
    alloc: Global,
    case: Case<'a>,
    starts: &[usize],
    otherwise: usize,
) -> Result<Vec<Label<'a>>, AllocError>
    ensures { IfOk result (λ all. AreLabels case.entry starts.now otherwise all.items) }
{
    let mut all = Vec::new(alloc);
    let items = case.items;
    for i in 0..items.len() {
        let index = index_at(case.count, starts, i, otherwise);
        push_labels(&mut all, &items[i].0, index)?;
    }
    Ok(all)
}

// The labels, resolved.
fn resolved<'a>(
    alloc: Global,
    design: &'a Design,
    labels: &[Label<'a>],
) -> Result<Vec<(Resolved<'a>, usize)>, AllocError>
    ensures { IfOk result (λ all. AreResolved design.entry.now.signals labels.now all.items) }
{
    let mut all = Vec::with_capacity(alloc, labels.len())?;
    for label in labels {
        let e = Resolved::new(alloc, design, label.e)?;
        all.push((e, label.index))?;
    }
    Ok(all)
}

// The number that a label is, where it is one of this size.
fn number_of(label: Label, width: u32) -> Option<u64>
    ensures { IfSome result (λ n. IsNumber label.entry.e.now width n) }
{
    let Typed::Number(literal) = label.e else {
        return None;
    };
    let digits = *literal;
    if digits.width() == width {
        digits.to_number()
    } else {
        None
    }
}

// The size of the first label, where it is a literal.
fn first_width(labels: &[Label]) -> Option<u32> {
    let label = labels.get(0)?;
    let Typed::Number(literal) = label.e else {
        return None;
    };
    let digits = *literal;
    Some(digits.width())
}

// How many numbers there are up to the greatest label, where all labels are numbers of this size, and no more than some for each label.
fn count_numbers(labels: &[Label], width: u32) -> Option<usize> {
    let mut count = 0;
    for label in labels {
        let number = number_of(*label, width)?;
        if number >= 16 && number / 8 > labels.len() as u64 {
            return None;
        }
        let next = (number as usize).saturating_add(1);
        if next > count {
            count = next;
        }
    }
    Some(count)
}

// The index of each of so many numbers, where all labels are such numbers of this size.
fn indices_of(
    alloc: Global,
    labels: &[Label],
    width: u32,
    count: usize,
    otherwise: usize,
) -> Result<Option<Vec<usize>>, AllocError>
    ensures { IfOk result (λ o. IfSome o (λ indices. IsTable labels.now width indices.items otherwise)) }
{
    let mut indices = vec![in alloc; otherwise; count]?;
    for i in (0..labels.len()).rev() {
        let label = labels[i];
        let Some(number) = number_of(label, width) else {
            return Ok(None);
        };
        if number >= count as u64 {
            return Ok(None);
        }
        indices[number as usize] = label.index;
    }
    Ok(Some(indices))
}

// The index of each number, where all labels of a `case` are numbers of one size, and not too far apart.
fn table_of(
    alloc: Global,
    kind: CaseKind,
    labels: &[Label],
    otherwise: usize,
) -> Result<Option<(u32, Vec<usize>)>, AllocError>
    ensures { IfOk result (λ o. IfSome o (λ t. (kind ≡ kinds.Case) × IsTable labels.now t.0 t.1.items otherwise)) }
{
    let CaseKind::Case = kind else {
        return Ok(None);
    };
    let Some(width) = first_width(labels) else {
        return Ok(None);
    };
    let Some(count) = count_numbers(labels, width) else {
        return Ok(None);
    };
    match indices_of(alloc, labels, width, count, otherwise)? {
        Some(indices) => Ok(Some((width, indices))),
        None => Ok(None),
    }
}

// The labels: the index of each number where they are numbers that aren't too far apart, else each label.
fn labels_for<'a>(
    alloc: Global,
    design: &'a Design,
    kind: CaseKind,
    all: &[Label<'a>],
    otherwise: usize,
) -> Result<Labels<'a>, AllocError>
    ensures known { IfOk result (λ labels. AreOfSignals design.entry.now.signals labels) }
    ensures leads { IfOk result (λ labels. (digits : List Digit) (store : Store) (time : ℕ)
        → switch_index kind digits store time labels otherwise ≡ walked kind digits store time all.now otherwise) }
{
    if let Some(t) = table_of(alloc, kind, all, otherwise)? {
        let (width, indices) = t;
        return Ok(Labels::Numbers(width, indices));
    }
    let any = resolved(alloc, design, all)?;
    Ok(Labels::Any(any))
}

// The index of the first label that matches.
fn walked(
    kind: CaseKind,
    digits: Vec4,
    labels: &[(Resolved, usize)],
    store: &Store,
    time: u64,
    otherwise: usize,
) -> usize
    requires { All (λ (l : Meaning × ℕ). IsStoreOf l.0.signals store.now) labels.now }
    ensures { result ≡ any_index kind digits store.now time labels.now otherwise }
{
    for (e, index) in labels {
        if kind.matches(digits, e.value(store, time)) {
            return *index;
        }
    }
    otherwise
}

// The index of a value among those of numbers of a size.
#[inline(always)]
fn looked_up(digits: Vec4, width: u32, indices: &[usize], otherwise: usize) -> usize
    ensures { result ≡ table_index digits width indices.now otherwise }
{
    if digits.width() != width {
        return otherwise;
    }
    match digits.to_number() {
        Some(number) => indices.get(number as usize).copied().unwrap_or(otherwise),
        None => otherwise,
    }
}

impl<'a> Switch<'a> {
    /// A `case` of a design, resolved.
    pub(crate) fn new(alloc: Global, design: &'a Design, case: Case<'a>) -> Result<Self, AllocError>
        ensures case { IfOk result (λ s. s.case ≡ case.entry) }
        ensures signals { IfOk result (λ s. s.subject.signals ≡ design.entry.now.signals) }
    {
        let op = case.op;
        let starts = starts_of(&op.extra);
        let place = default_place(case.items, starts, op.behind);
        let otherwise = index_of(case.count, place);
        let all = labels_of(alloc, case, starts, otherwise)?;
        let subject = Resolved::new(alloc, design, case.e)?;
        let labels = labels_for(alloc, design, case.kind, &all, otherwise)?;
        Ok(Switch {
            case,
            subject,
            labels,
            otherwise,
        })
    }

    /// The index to which it leads in a store at a time in ticks.
    #[inline(never)]
    pub fn index(&self, store: &Store, time: u64) -> usize
        requires { IsStoreOf self.now.subject.signals store.now }
        ensures { result ≡ case_index self.now.case store.now time }
    {
        let digits = self.subject.value(store, time);
        match &self.labels {
            Labels::Numbers(width, indices) => looked_up(digits, *width, indices, self.otherwise),
            Labels::Any(labels) => {
                let kind = self.case.kind;
                walked(kind, digits, labels, store, time, self.otherwise)
            }
        }
    }
}
