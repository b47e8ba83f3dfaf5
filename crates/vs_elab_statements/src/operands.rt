//! Expressions of statements that stand alone, and delays.
ghost use Rattle.std.specs.Prelude.{◌≡◌, ◌*◌, ◌^◌, ◌<◌, ◌≤◌, Some, IfOk, IfErr, MatchOption};
ghost use Rattle.vs_scopes.specs.vs_widths.specs.Constants.{constant_finding};
ghost use Rattle.vs_scopes.specs.vs_widths.specs.Findings.{Refuses};
ghost use Rattle.vs_widths.specs.Expressions.{name_meant};
ghost use Rattle.vs_widths.specs.Names.{meaning_of};
ghost use Rattle.vs_scopes.specs.scopes_passes.Answers.{Elaborates};
ghost use Rattle.vs_elab_statements.specs.Statements.{IsOperand, operand_fault, delay_meant, delay_of, delay_fault, due_of, due_fault};
ghost use Rattle.vs_elab_statements.specs.passes.Bodies.{IsConstantAs};

use std::alloc::Global;
use vs_design::{Ticks, Typed};
use vs_scopes::vs_widths::{Binding, Const, WidthFault, WidthReason};
use vs_scopes::{BodyFault, Reason};
use vs_syntax::{DelayValue, Expr};
use vs_widths::{Levels, constant, shape_of, typed};

/// Delays reach fewer ticks than this.
const DELAY_LIMIT: u64 = 1 << 62;

/// An expression at its own size and sign, and whether it is signed.
pub fn operand(alloc: Global, names: &Levels, e: &Expr) -> Result<(bool, Typed), BodyFault>
    ensures { Elaborates (λ r. operand_fault r (meaning_of names.now) e.now)
        (λ p. IsOperand (meaning_of names.now) e.now p.0 p.1) result }
{
    let shape = shape_of(alloc, names, e)?;
    let value = typed(alloc, names, shape, e)?;
    Ok((shape.signed, value))
}

/// The value of a name that is a constant (IEEE 1364-2005, clause 12.2).
fn named_constant(names: &Levels, name: &[u8]) -> Result<Const, WidthFault>
    ensures constant { IfOk result (IsConstantAs (name_meant (meaning_of names.now name.now))) }
    ensures fault { IfErr result (Refuses (constant_finding (name_meant (meaning_of names.now name.now)))) }
{
    let reason = match names.find(name) {
        Some(Binding::Constant(constant)) => return Ok(constant),
        Some(Binding::Signal(meaning, _)) => match meaning.words {
            Some(_) => WidthReason::WrongKind,
            None => WidthReason::NotConstant,
        },
        Some(Binding::Pending) => WidthReason::NotConstant,
        Some(Binding::Other | Binding::Genvar) => WidthReason::WrongKind,
        None => WidthReason::Unknown,
    };
    Err(WidthFault::Refused(reason))
}

/// The constant of a delay.
fn delay_constant(alloc: Global, names: &Levels, value: &DelayValue) -> Result<Const, WidthFault>
    ensures constant { IfOk result (IsConstantAs (delay_meant (meaning_of names.now) value.now)) }
    ensures fault { IfErr result (Refuses (constant_finding (delay_meant (meaning_of names.now) value.now))) }
{
    match value {
        DelayValue::Number(literal) => Ok(Const::new(literal.value, literal.signed, None)),
        DelayValue::Name(name) => named_constant(names, name),
        DelayValue::Group(e) => constant(alloc, names, e),
    }
}

/// So many units of time in ticks, where a unit is so many and delays reach that far.
fn in_ticks(units: u64, ratio: u64) -> Option<u64>
    ensures { MatchOption result (2 ^ 62 ≤ units * ratio) (λ n. (n ≡ units * ratio) × (n < 2 ^ 62)) }
{
    let ticks = units.checked_mul(ratio)?;
    if ticks < DELAY_LIMIT {
        Some(ticks)
    } else {
        None
    }
}

/// The ticks of a delay, where a unit of time is so many (IEEE 1364-2005, clauses 9.7.1 and 19.8).
pub fn delay(
    alloc: Global,
    names: &Levels,
    ratio: u64,
    value: &DelayValue,
) -> Result<Ticks, BodyFault>
    ensures { Elaborates (λ r. delay_fault r (meaning_of names.now) ratio value.now)
        (λ n. delay_of (meaning_of names.now) ratio value.now ≡ Some n.count) result }
{
    let number = delay_constant(alloc, names, value)?;
    let Some(units) = number.natural() else {
        return Err(BodyFault::Refused(Reason::Width(WidthReason::NotConstant)));
    };
    let Some(count) = in_ticks(units, ratio) else {
        return Err(BodyFault::Refused(Reason::Limit));
    };
    Ok(Ticks { count })
}

/// In how many ticks the update of a nonblocking assignment is due, where a unit of time is so many: in none where it has no delay
/// (IEEE 1364-2005, clause 9.2.2).
pub fn due(
    alloc: Global,
    names: &Levels,
    ratio: u64,
    value: &Option<DelayValue>,
) -> Result<Ticks, BodyFault>
    ensures { Elaborates (λ r. due_fault r (meaning_of names.now) ratio value.now)
        (λ n. due_of (meaning_of names.now) ratio value.now ≡ Some n.count) result }
{
    match value {
        Some(value) => delay(alloc, names, ratio, value),
        None => Ok(Ticks { count: 0 }),
    }
}
