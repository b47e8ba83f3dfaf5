//! Expressions and targets that are a whole signal.
ghost use Rattle.std.specs.Prelude.{ℕ, ◌≡◌, ◌↔◌, Some, slice_get, IsTrue};
ghost use Rattle.vs_design.specs.declared.expression.Typed.TheViews.{out-Typed};
ghost use Rattle.vs_rules.specs.Constants.{IsWhole, IsInverse, Inverts, IsWholeTarget};
ghost use Rattle.vs_slots_constants.specs.Wholes.{is_plain, whole_name, whole_slice, whole_select, whole_layer, inverse_layer, negation_layer, inverts_layer, turn_layer, whole_parts};

use vs_design::vs_logic4::Unary;
use vs_design::{Aim, Design, Operand, Slice, Target, Typed};

/// Whether there is a signal of this number and width that is no array.
pub fn is_plain(design: &Design, v: usize, width: u32) -> bool
    ensures { result ≡ is_plain (slice_get design.now.signals v) width }
{
    match design.signals().get(v) {
        None => false,
        Some(signal) => signal.words.is_none() && signal.count == 1 && signal.width == width,
    }
}

// The signal that constant bits are the whole of.
fn whole_slice(design: &Design, s: Slice) -> Option<usize>
    ensures { result ≡ whole_slice design.now s }
{
    if s.word == 0 && s.low == 0 && is_plain(design, s.signal, s.width) {
        Some(s.signal)
    } else {
        None
    }
}

// The signal that a name stands for, at its own size.
fn whole_name(design: &Design, o: Operand) -> Option<usize>
    ensures { result ≡ whole_name design.now o }
{
    if is_plain(design, o.signal, o.width) {
        Some(o.signal)
    } else {
        None
    }
}

// The signal that a select is the whole of, where it has this size.
fn whole_select(design: &Design, width: u32, e: &Typed) -> Option<usize>
    ensures { result ≡ whole_select design.now width (out-Typed e.now) }
{
    match e {
        Typed::Slice(s) => {
            if s.width == width {
                whole_slice(design, *s)
            } else {
                None
            }
        }
        _ => None,
    }
}

fn whole_layer(design: &Design, e: &Typed) -> Option<usize>
    ensures { result ≡ whole_layer design.now (out-Typed e.now) }
{
    match e {
        Typed::Signal(o) => whole_name(design, *o),
        Typed::Slice(s) => whole_slice(design, *s),
        Typed::Resized(size, x) => whole_select(design, size.width, x),
        _ => None,
    }
}

/// The signal that an expression is, whole: its name alone, or a select of all its bits, brought to the size that it has.
pub fn whole(design: &Design, e: &Typed) -> Option<usize>
    ensures { (v : ℕ) → (IsWhole design.now v e.now ↔ result ≡ Some v) }
{
    whole_layer(design, e)
}

fn inverse_layer(design: &Design, e: &Typed) -> Option<usize>
    ensures { result ≡ inverse_layer design.now (out-Typed e.now) }
{
    match e {
        Typed::Unary(Unary::Not, x) => whole_layer(design, x),
        _ => None,
    }
}

/// The signal `u` of which an expression is `~u`, by its name or by a select of all its bits (IEEE 1364-2005, clause 5.1.10).
pub fn inverse(design: &Design, e: &Typed) -> Option<usize>
    ensures { (v : ℕ) → (IsInverse design.now v e.now ↔ result ≡ Some v) }
{
    inverse_layer(design, e)
}

// The signal `u` of which an expression is `!u`, of its whole.
fn negation_layer(design: &Design, e: &Typed) -> Option<usize>
    ensures { result ≡ negation_layer design.now (out-Typed e.now) }
{
    match e {
        Typed::Unary(Unary::LogicalNot, x) => whole_layer(design, x),
        _ => None,
    }
}

fn inverts_layer(design: &Design, e: &Typed) -> Option<usize>
    ensures { result ≡ inverts_layer design.now (out-Typed e.now) }
{
    match e {
        Typed::Resized(size, x) => {
            if size.width == 1 {
                negation_layer(design, x)
            } else {
                None
            }
        }
        _ => inverse_layer(design, e),
    }
}

/// The signal `u` of which an expression is `~u` or, as one bit, `!u` (IEEE 1364-2005, clauses 5.1.9 and 5.1.10): where u has one bit they are one.
pub fn inverts(design: &Design, e: &Typed) -> Option<usize>
    ensures { (v : ℕ) → (Inverts design.now v e.now ↔ result ≡ Some v) }
{
    inverts_layer(design, e)
}

// The signal that an assignment of the expression to it turns: by `~u`, where clocks are wide by `!u` too.
pub(crate) fn turn_layer(design: &Design, wide: bool, e: &Typed) -> Option<usize>
    ensures { result ≡ turn_layer design.now wide (out-Typed e.now) }
{
    if wide {
        inverts_layer(design, e)
    } else {
        inverse_layer(design, e)
    }
}

pub(crate) fn whole_parts(design: &Design, aims: &[Aim]) -> Option<usize>
    ensures { result ≡ whole_parts design.now aims.now }
{
    if aims.len() != 1 {
        return None;
    }
    match &aims[0] {
        Aim::Fixed(s) => whole_slice(design, *s),
        Aim::Chosen(_, _, _) => None,
    }
}

/// The signal that a target is, whole.
pub fn whole_target(design: &Design, target: &Target) -> Option<usize>
    ensures { (v : ℕ) → (IsWholeTarget design.now v target.now ↔ result ≡ Some v) }
{
    whole_parts(design, &target.parts)
}
