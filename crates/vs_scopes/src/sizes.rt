//! Sizes, signs, ranges and words of declarations.
ghost use Rattle.std.specs.Prelude.{◌≡◌, ◌<◌, Some};
ghost use Rattle.vs_scopes.specs.vs_widths.specs.Names.{meaning_of};
ghost use Rattle.vs_scopes.specs.declared.faults.BodyFault.TheVariants as fault;
ghost use Rattle.vs_scopes.specs.declared.faults.Reason.TheVariants as reasons;
ghost use Rattle.vs_scopes.specs.Ranges.{bound_of, bound_fault, range_bounds, bounds_fault, range_fault, sized_as, words_as};
ghost use Rattle.vs_scopes.specs.Declarations.{size_of_kind};
ghost use Rattle.vs_scopes.specs.scopes_passes.Answers.{Elaborates};
ghost use Rattle.vs_scopes.specs.scopes_passes.Parts.{read_end, read_port};
ghost use Rattle.vs_scopes.specs.scopes_passes.Sizes.{width_faults, IsRange, IsSize, AreWords};

use crate::faults::{BodyFault, Reason};
use crate::ports::ModulePort;
use crate::vs_widths::{Levels, constant};
use crate::words::WordCount;
use std::alloc::Global;
use vs_design::{Bounds, SignalKind};
use vs_syntax::{Expr, Form, Range};
use vs_widths::{Shape, WidthReason};

/// The size and sign of a signal, and its range.
#[derive(Clone, Copy)]
pub struct Size {
    /// The size and sign.
    pub shape: Shape,
    /// The bounds of its range, where it has one.
    pub bounds: Option<Bounds>,
}

/// The size and sign of an `integer` (IEEE 1364-2005, clause 4.8).
pub const INTEGER: Size = Size {
    shape: Shape {
        width: 32,
        signed: true,
    },
    bounds: None,
};

/// The fault of an expression of this reason.
fn refused(reason: WidthReason) -> BodyFault
    ensures { result ≡ fault.Refused (reasons.Width reason) }
{
    BodyFault::Refused(Reason::Width(reason))
}

/// The number of a bound of a range.
fn bound(alloc: Global, names: &Levels, e: &Expr) -> Result<i64, BodyFault>
    ensures { let env = meaning_of names.now in
        Elaborates (width_faults (λ w. bound_fault w env e.now))
        (λ n. bound_of env e.now ≡ Some n) result }
{
    let number = constant(alloc, names, e)?;
    match number.integer() {
        Some(number) => Ok(number),
        None => Err(refused(WidthReason::NotConstant)),
    }
}

/// The bounds of a range.
pub fn declared_bounds(alloc: Global, names: &Levels, range: &Range) -> Result<Bounds, BodyFault>
    ensures { let env = meaning_of names.now in
        Elaborates (width_faults (λ w. bounds_fault w env range.now))
        (λ b. range_bounds env (Some range.now) ≡ Some b) result }
{
    let left = bound(alloc, names, &range.left)?;
    let right = bound(alloc, names, &range.right)?;
    Ok(Bounds { left, right })
}

/// The bounds of a range of bits, and its size.
fn bits(alloc: Global, names: &Levels, range: &Range) -> Result<(Bounds, u32), BodyFault>
    ensures { let env = meaning_of names.now in
        Elaborates (width_faults (λ w. range_fault w env (Some range.now)))
        (IsRange env range.now) result }
{
    let bounds = declared_bounds(alloc, names, range)?;
    let apart = bounds.left.abs_diff(bounds.right);
    if apart > 63 {
        return Err(refused(WidthReason::TooWide));
    }
    Ok((bounds, apart as u32 + 1))
}

/// The size and sign that a declaration says of its names by its sign and its range; without a range they have one bit more than `apart`
/// (IEEE 1364-2005, clauses 4.3 and 4.8).
fn sized(
    alloc: Global,
    names: &Levels,
    signed: bool,
    apart: u32,
    range: Option<&Range>,
) -> Result<Size, BodyFault>
    requires { apart < 64 }
    ensures { let z = sized_as (meaning_of names.now) signed apart (read_end range.entry) in
        Elaborates (width_faults z.faults) (IsSize z) result }
{
    match range {
        Some(range) => {
            let (bounds, width) = bits(alloc, names, range)?;
            Ok(Size {
                shape: Shape { width, signed },
                bounds: Some(bounds),
            })
        }
        None => Ok(Size {
            shape: Shape {
                width: apart + 1,
                signed,
            },
            bounds: None,
        }),
    }
}

/// The size and sign that a declaration of nets or of variables of type `reg` says of its names (IEEE 1364-2005, clause 4.3).
pub fn declared_size(alloc: Global, names: &Levels, form: &Form) -> Result<Size, BodyFault>
    ensures { let z = sized_as (meaning_of names.now) form.now.signed 0 form.now.range in
        Elaborates (width_faults z.faults) (IsSize z) result }
{
    sized(alloc, names, form.signed, 0, form.range.as_ref())
}

/// The size and sign that a port of this kind has by its sign and its range.
fn kind_size(
    alloc: Global,
    names: &Levels,
    kind: SignalKind,
    signed: bool,
    range: Option<&Range>,
) -> Result<Size, BodyFault>
    ensures { let z = size_of_kind (meaning_of names.now) kind (record { signed = signed; range = read_end range.entry }) in
        Elaborates (width_faults z.faults) (IsSize z) result }
{
    match kind {
        SignalKind::Integer => sized(alloc, names, true, 31, range),
        SignalKind::Reg => sized(alloc, names, signed, 0, range),
        SignalKind::Wire => sized(alloc, names, signed, 0, range),
    }
}

/// The size and sign of a port (IEEE 1364-2005, clauses 4.2.1, 4.2.2, 4.3.1 and 4.8).
pub fn port_size(alloc: Global, names: &Levels, port: &ModulePort) -> Result<Size, BodyFault>
    ensures { let z = size_of_kind (meaning_of names.now) port.now.kind (read_port port.now).form in
        Elaborates (width_faults z.faults) (IsSize z) result }
{
    kind_size(alloc, names, port.kind, port.signed, port.range)
}

/// What a declaration says of the words of a name of this kind (IEEE 1364-2005, clause 4.9). An array has at most 65,536 words.
pub fn declared_words(
    alloc: Global,
    names: &Levels,
    kind: SignalKind,
    range: &Option<Range>,
) -> Result<WordCount, BodyFault>
    ensures { let z = words_as (meaning_of names.now) kind range.now in
        Elaborates z.faults (AreWords z) result }
{
    let Some(range) = range else {
        return Ok(WordCount {
            bounds: None,
            count: 1,
        });
    };
    if let SignalKind::Wire = kind {
        return Err(refused(WidthReason::WrongKind));
    }
    let bounds = declared_bounds(alloc, names, range)?;
    let apart = bounds.left.abs_diff(bounds.right);
    if apart > 65535 {
        return Err(BodyFault::Refused(Reason::Limit));
    }
    Ok(WordCount {
        bounds: Some(bounds),
        count: apart as u32 + 1,
    })
}
