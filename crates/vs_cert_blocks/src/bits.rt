//! Bits, and what is done to them by the statement at a place.
ghost use Rattle.std.specs.Prelude.{◌≡◌};
ghost use Rattle.std.specs.List.{list_any};
ghost use Rattle.vs_design.specs.declared.statement.Statement.TheViews.{out-Statement};
ghost use Rattle.vs_design.specs.Uses.{covers, slice_range};
ghost use Rattle.vs_process.specs.Stops.{statement_view};
ghost use Rattle.vs_drivers.specs.vs_rules.specs.Blocks.{is_sure, statement_surely, is_late_effect};
ghost use Rattle.vs_cert_blocks.specs.Walks.{bit_view, surely_at, has_late_effect_at};

use vs_design::{Aim, BitRange, CallKind, Slice, Statement, bits_from};
use vs_drivers::has;

/// A bit of a signal, by its word and its place in the word.
#[derive(Clone, Copy)]
pub(crate) struct Bit {
    /// The signal's number in design order.
    pub(crate) signal: usize,
    /// The word of it.
    pub(crate) word: usize,
    /// The place in the word, from its lowest bit.
    pub(crate) place: u32,
}

// The bits that constant indices choose.
pub(crate) fn slice_range(slice: Slice) -> BitRange
    ensures { result ≡ slice_range slice }
{
    BitRange {
        signal: slice.signal,
        word: Some(slice.word),
        bits: Some(bits_from(slice.low, slice.width)),
    }
}

// Whether a place of a target is sure to have a bit: one with constant indices that has it.
fn is_sure(bit: Bit, aim: &Aim) -> bool
    ensures { result ≡ is_sure (bit_view bit) aim.now }
{
    match aim {
        Aim::Fixed(slice) => has(slice_range(*slice), bit.signal, bit.word, bit.place),
        Aim::Chosen(_, _, _) => false,
    }
}

// Whether one of the places of a target is.
fn any_sure(bit: Bit, aims: &[Aim]) -> bool
    ensures { result ≡ list_any (is_sure (bit_view bit)) aims.now }
{
    aims.iter().any(|aim| is_sure(bit, aim))
}

// Whether a statement is sure to write a bit.
fn statement_surely(bit: Bit, statement: &Statement) -> bool
    ensures { result ≡ statement_surely (bit_view bit) (out-Statement statement.now) }
{
    match statement {
        Statement::Assign(_, target, _) => any_sure(bit, &target.parts),
        _ => false,
    }
}

/// Whether the statement at a place is sure to write a bit.
pub(crate) fn surely_at(bit: Bit, statement: Option<&Statement>) -> bool
    ensures { result ≡ surely_at (bit_view bit) (statement_view statement.entry) }
{
    match statement {
        None => false,
        Some(s) => statement_surely(bit, s),
    }
}

// Whether a statement is a `<=`, a `$strobe` or a `$finish`.
fn is_late_effect(statement: &Statement) -> bool
    ensures { result ≡ is_late_effect (out-Statement statement.now) }
{
    match statement {
        Statement::Later(_, _, _, _) | Statement::Finish(_) => true,
        Statement::Call(_, call) => call.kind == CallKind::Strobe,
        _ => false,
    }
}

/// Whether the statement at a place is one of those.
pub(crate) fn has_late_effect(statement: Option<&Statement>) -> bool
    ensures { result ≡ has_late_effect_at (statement_view statement.entry) }
{
    match statement {
        None => false,
        Some(s) => is_late_effect(s),
    }
}

/// Whether one of some ranges has a bit.
pub(crate) fn any_has(ranges: &[BitRange], bit: Bit) -> bool
    ensures { result ≡ list_any (covers bit.signal bit.word bit.place) ranges.now }
{
    ranges
        .iter()
        .any(|range| has(*range, bit.signal, bit.word, bit.place))
}
