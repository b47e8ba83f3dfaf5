//! The turns of generate loops.
ghost use Rattle.std.specs.Prelude.{◌≡◌, [], ◌∷◌, ◌++◌, true, IfOk, OnOk};
ghost use Rattle.std.specs.Str.{bytes_eq};
ghost use Rattle.vs_widths.specs.Names.{meaning_of, nested_names, Binds};
ghost use Rattle.vs_scopes.specs.vs_widths.specs.declared.bindings.Binding.TheVariants.{Constant};
ghost use Rattle.vs_scopes.specs.Parameters.{with_constant};
ghost use Rattle.vs_scopes.specs.Generate.{turns, turns_from, turns_of, wrong_genvar, wrong_name, header_fault, condition_fault, holds};
ghost use Rattle.vs_scopes.specs.declared.faults.BodyFault.TheVariants as fault;
ghost use Rattle.vs_scopes.specs.declared.faults.Reason.TheVariants as reasons;
ghost use Rattle.vs_scopes.specs.scopes_passes.Answers.{Elaborates};
ghost use Rattle.vs_scopes.specs.scopes_passes.Sizes.{width_faults};
ghost use Rattle.vs_elab_constants.specs.generate_passes.Turns.{turn_fault, step_fault, next_value};

use crate::conditions::holds;
use crate::genvars::genvar_value;
use std::alloc::{AllocError, Global};
use vs_scopes::vs_widths::{Binding, Const, WidthReason};
use vs_scopes::{BodyFault, Reason};
use vs_syntax::LoopHeader;
use vs_widths::{Levels, Names};

/// A loop has at most so many turns (profile).
const TURN_LIMIT: u32 = 65536;

/// The fault of an expression of this reason.
fn refused(reason: WidthReason) -> BodyFault
    ensures { result ≡ fault.Refused (reasons.Width reason) }
{
    BodyFault::Refused(Reason::Width(reason))
}

/// Whether what a name is bound to is a genvar (IEEE 1364-2005, clause 12.4.1).
fn check_genvar(found: Option<Binding>) -> Result<(), BodyFault>
    ensures { Elaborates (width_faults (wrong_genvar found)) (λ u. Unit {0}) result }
{
    match found {
        None => Err(refused(WidthReason::Unknown)),
        Some(Binding::Genvar) => Ok(()),
        Some(Binding::Signal(_, _)) => Err(refused(WidthReason::WrongKind)),
        Some(Binding::Constant(_)) => Err(refused(WidthReason::WrongKind)),
        Some(Binding::Pending) => Err(refused(WidthReason::WrongKind)),
        Some(Binding::Other) => Err(refused(WidthReason::WrongKind)),
    }
}

/// The fault of a name that is to be that of a loop's genvar and isn't.
fn other_name(found: Option<Binding>) -> WidthReason
    ensures { wrong_name found result ≡ true }
{
    match found {
        None => WidthReason::Unknown,
        Some(_) => WidthReason::WrongKind,
    }
}

/// Whether two names are the same.
fn is_same(name: &[u8], other: &[u8]) -> bool
    ensures { result ≡ bytes_eq name.now other.now }
{
    name == other
}

/// Whether both names of a header name one genvar (IEEE 1364-2005, clause 12.4.1).
fn check_header(names: &Levels, header: &LoopHeader) -> Result<(), BodyFault>
    ensures { Elaborates (width_faults (header_fault (meaning_of names.now) header.now)) (λ u. Unit {0}) result }
{
    check_genvar(names.find(&header.name))?;
    if is_same(&header.name, &header.next) {
        return Ok(());
    }
    Err(refused(other_name(names.find(&header.next))))
}

/// Gives a name this constant.
fn bind_constant<'s>(
    names: &mut Names<'s, Binding>,
    name: &'s [u8],
    value: &Const,
) -> Result<(), AllocError>
    ensures { OnOk result (Binds names.old names.new name.entry.now (Constant value.now)) }
{
    match names.bind(name, Binding::Constant(*value)) {
        Ok(()) => Ok(()),
        Err(_) => Err(AllocError),
    }
}

/// Appends a value of a genvar.
fn push_value(values: &mut Vec<Const>, value: &Const) -> Result<(), AllocError>
    ensures { OnOk result (values.new.items ≡ values.old.items ++ value.now ∷ []) }
{
    values.push(*value)?;
    Ok(())
}

/// The names of a turn's own scope: the genvar, with its value.
fn genvar_level<'s>(
    alloc: Global,
    header: &'s LoopHeader,
    value: &Const,
) -> Result<Names<'s, Binding>, AllocError>
    ensures { IfOk result (λ own. Binds [] own header.entry.now.name.items (Constant value.now)) }
{
    let mut own = Names::new(alloc);
    bind_constant(&mut own, &header.name, value)?;
    Ok(own)
}

/// The next value of the genvar, where the condition holds in the turn of this value.
fn turn<'s>(
    alloc: Global,
    around: &[&Names<'s, Binding>],
    header: &'s LoopHeader,
    value: &Const,
) -> Result<Option<Const>, BodyFault>
    ensures { let inner = with_constant (meaning_of (nested_names around.now)) header.entry.now.name.items value.now in
        Elaborates (step_fault inner header.entry.now) (λ next. next ≡ next_value inner header.entry.now) result }
{
    let own = genvar_level(alloc, header, value)?;
    let inner = Levels::new(&own, around);
    if holds(alloc, &inner, &header.condition)? {
        let next = genvar_value(alloc, &inner, &header.step)?;
        Ok(Some(next))
    } else {
        Ok(None)
    }
}

/// Whether the condition holds in the turn of this value.
fn goes_on<'s>(
    alloc: Global,
    around: &[&Names<'s, Binding>],
    header: &'s LoopHeader,
    value: &Const,
) -> Result<bool, BodyFault>
    ensures { let inner = with_constant (meaning_of (nested_names around.now)) header.entry.now.name.items value.now in
        Elaborates (width_faults (condition_fault inner header.entry.now.condition))
        (λ b. b ≡ holds inner header.entry.now.condition) result }
{
    let own = genvar_level(alloc, header, value)?;
    let inner = Levels::new(&own, around);
    holds(alloc, &inner, &header.condition)
}

/// The turns from this value of the genvar on, of which there may be so many.
fn turns_within<'s>(
    alloc: Global,
    limit: u32,
    around: &[&Names<'s, Binding>],
    header: &'s LoopHeader,
    first: Const,
) -> Result<Vec<Const>, BodyFault>
    ensures { let t = turns_from limit (meaning_of (nested_names around.now)) header.entry.now first in
        Elaborates (turn_fault t) (λ v. t ≡ turns v.items) result }
{
    let mut done = Vec::new(alloc);
    let mut value = first;
    for _count in 0..limit {
        match turn(alloc, around, header, &value)? {
            Some(next) => {
                push_value(&mut done, &value)?;
                value = next;
            }
            None => return Ok(done),
        }
    }
    if goes_on(alloc, around, header, &value)? {
        return Err(BodyFault::Refused(Reason::Endless));
    }
    Ok(done)
}

/// The values of the genvar in the turns of a loop, where it ends in time (IEEE 1364-2005, clause 12.4.1).
pub fn turns<'s, 'o>(
    alloc: Global,
    names: &Levels<'s, 'o>,
    header: &'s LoopHeader,
) -> Result<Vec<Const>, BodyFault>
    ensures { let t = turns_of (meaning_of names.now) header.entry.now in
        Elaborates (turn_fault t) (λ v. t ≡ turns v.items) result }
{
    check_header(names, header)?;
    let first = genvar_value(alloc, names, &header.first)?;
    let around = names.scopes(alloc)?;
    turns_within(alloc, TURN_LIMIT, &around, header, first)
}
