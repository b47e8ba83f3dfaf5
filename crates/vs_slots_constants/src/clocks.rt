//! Clocks: signals that are set once and then turned for ever.
ghost use Rattle.std.specs.Prelude.{ℕ, ◌≡◌, ◌<◌, ◌↔◌, true, Some, IfOk, IsTrue};
ghost use Rattle.std.specs.List.{Contains};
ghost use Rattle.vs_design.specs.vs_logic4.specs.declared.digit.Digit.{Digit};
ghost use Rattle.vs_design.specs.declared.design.ProcessKind.TheVariants.{Initial};
ghost use Rattle.vs_design.specs.declared.statement.Statement.TheViews.{out-Statement};
ghost use Rattle.vs_rules.specs.Constants.{Sets, SetsAlike, SetsFirst, Turns, TurnsForever, SetsAndTurns, HasBody};
ghost use Rattle.vs_rules.specs.Paths.{Writes};
ghost use Rattle.vs_slots_constants.specs.Clocks.{IsCore, is_it, known, setting, setting_layer, turning, turning_layer, IsTurning};
ghost use Rattle.vs_slots_constants.specs.Clocks.{TurnsLayer, ForeverLayer, BeginsLayer, Begins, ArePair, PairLayer, IsOther, IsBodyOf, IsSetBy, IsTurnedBy, IsBegunBy, IsClockBy};

use crate::constants::{Bit, given};
use crate::wholes::{turn_layer, whole_parts};
use std::alloc::{AllocError, Global};
use vs_design::vs_logic4::Digit;
use vs_design::{Design, ProcessKind, Statement, Target, Typed};

/// What a clock does: it is set to a digit after so many ticks, and turned after so many others, again and again.
#[derive(Clone, Copy)]
pub struct Clock {
    /// 0 or 1, to which it is set.
    pub digit: Digit,
    /// After how many ticks.
    pub offset: u64,
    /// After how many others it is turned: more than none.
    pub half: u64,
}

// What a statement is without `begin` and `end` round one statement.
fn core_of<'a>(s: &'a Statement) -> &'a Statement
    ensures { IsCore s.now result.now }
{
    match s {
        Statement::Block(all) => { if all.len() == 1 { core_of(&all[0]) } else { s } }
        _ => s,
    }
}

// Whether the number that was found is this one.
fn is_it(found: Option<usize>, v: usize) -> bool
    ensures { result ≡ is_it found v }
{
    match found {
        Some(u) => u == v,
        None => false,
    }
}

/// A digit, where it is 0 or 1.
pub fn known(digit: Option<Digit>) -> Option<Digit>
    ensures { result ≡ known digit }
{
    match digit {
        Some(Digit::Zero) => Some(Digit::Zero),
        Some(Digit::One) => Some(Digit::One),
        _ => None,
    }
}

// The 0 or 1 to which an assignment sets the whole of a signal.
fn setting(
    alloc: Global,
    design: &Design,
    v: usize,
    target: &Target,
    value: &Typed,
) -> Result<Option<Digit>, AllocError>
    ensures { IfOk result (λ o. o ≡ setting design.now v target.now value.now) }
{
    if is_it(whole_parts(design, &target.parts), v) {
        let digit = given(alloc, target, value, Bit::lowest(v))?;
        Ok(known(digit))
    } else {
        Ok(None)
    }
}

fn setting_layer(
    alloc: Global,
    design: &Design,
    v: usize,
    s: &Statement,
) -> Result<Option<Digit>, AllocError>
    ensures { IfOk result (λ o. o ≡ setting_layer design.now v (out-Statement s.now)) }
{
    match s {
        Statement::Assign(_, target, value) => setting(alloc, design, v, target, value),
        _ => Ok(None),
    }
}

/// The 0 or 1 to which a statement sets a whole signal, where it is `u = c`, but for `begin` and `end` round it.
pub fn sets(
    alloc: Global,
    design: &Design,
    v: usize,
    s: &Statement,
) -> Result<Option<Digit>, AllocError>
    ensures { IfOk result (λ o. (digit : Digit) → (Sets design.now v digit s.now ↔ o ≡ Some digit)) }
{
    setting_layer(alloc, design, v, core_of(s))
}

fn turning_layer(design: &Design, wide: bool, v: usize, s: &Statement) -> bool
    ensures { result ≡ turning_layer design.now wide v (out-Statement s.now) }
{
    match s {
        Statement::Assign(_, target, value) => {
            is_it(whole_parts(design, &target.parts), v)
                && is_it(turn_layer(design, wide, value), v)
        }
        _ => false,
    }
}

// Whether a statement is `u = ~u`, but for `begin` and `end` round it; `!u` turns too where clocks are wide.
fn is_turning(design: &Design, wide: bool, v: usize, s: &Statement) -> bool
    ensures { IsTrue result ↔ IsTurning design.now wide v s.now }
{
    turning_layer(design, wide, v, core_of(s))
}

// Some ticks, where they are above 0 and the statement after them is `u = ~u`.
fn turning_after(
    design: &Design,
    wide: bool,
    v: usize,
    ticks: u64,
    inner: &Statement,
) -> Option<u64>
    ensures { (half : ℕ) → (((ticks ≡ half) × (0 < half) × IsTurning design.now wide v inner.now) ↔ result ≡ Some half) }
{
    if ticks > 0 && is_turning(design, wide, v, inner) {
        Some(ticks)
    } else {
        None
    }
}

fn turns_layer(design: &Design, wide: bool, v: usize, s: &Statement) -> Option<u64>
    ensures { (half : ℕ) → (TurnsLayer design.now wide v half (out-Statement s.now) ↔ result ≡ Some half) }
{
    match s {
        Statement::Delay(_, ticks, inner) => turning_after(design, wide, v, ticks.count, inner),
        _ => None,
    }
}

/// The ticks `h` of a statement that is `#h u = ~u`, with h above 0, but for `begin` and `end`. Where clocks are wide, `!u` is as good as `~u`.
pub fn turns(design: &Design, wide: bool, v: usize, s: &Statement) -> Option<u64>
    ensures { (half : ℕ) → (Turns design.now wide v half s.now ↔ result ≡ Some half) }
{
    turns_layer(design, wide, v, core_of(s))
}

fn forever_layer(design: &Design, wide: bool, v: usize, s: &Statement) -> Option<u64>
    ensures { (half : ℕ) → (ForeverLayer design.now wide v half (out-Statement s.now) ↔ result ≡ Some half) }
{
    match s {
        Statement::Forever(_, inner) => turns(design, wide, v, inner),
        _ => None,
    }
}

/// The ticks `h` of a statement that is `forever #h u = ~u`, with h above 0, but for `begin` and `end`. Where clocks are wide, `!u` is as good.
pub fn turns_forever(design: &Design, wide: bool, v: usize, s: &Statement) -> Option<u64>
    ensures { (half : ℕ) → (TurnsForever design.now wide v half s.now ↔ result ≡ Some half) }
{
    forever_layer(design, wide, v, core_of(s))
}

// A digit with the ticks after which it is set.
fn after(digit: Option<Digit>, offset: u64) -> Option<(Digit, u64)>
    ensures { (ticks : ℕ) (d : Digit) → (((offset ≡ ticks) × (digit ≡ Some d)) ↔ result ≡ Some (d, ticks)) }
{
    match digit {
        Some(digit) => Some((digit, offset)),
        None => None,
    }
}

fn begins_layer(
    alloc: Global,
    design: &Design,
    v: usize,
    s: &Statement,
) -> Result<Option<(Digit, u64)>, AllocError>
    ensures { IfOk result (λ o. (offset : ℕ) (digit : Digit) →
        (BeginsLayer design.now v offset digit (out-Statement s.now) ↔ o ≡ Some (digit, offset))) }
{
    match s {
        Statement::Assign(_, target, value) => {
            let digit = setting(alloc, design, v, target, value)?;
            Ok(after(digit, 0))
        }
        Statement::Delay(_, ticks, inner) => {
            let digit = sets(alloc, design, v, inner)?;
            Ok(after(digit, ticks.count))
        }
        _ => Ok(None),
    }
}

// The digit and the ticks of a statement that is `u = c`, without ticks, or `#o u = c`.
fn begins(
    alloc: Global,
    design: &Design,
    v: usize,
    s: &Statement,
) -> Result<Option<(Digit, u64)>, AllocError>
    ensures { IfOk result (λ o. (offset : ℕ) (digit : Digit) → (Begins design.now v offset digit s.now ↔ o ≡ Some (digit, offset))) }
{
    begins_layer(alloc, design, v, core_of(s))
}

// A clock that is set so, and turned after so many ticks.
fn joined(begins: Option<(Digit, u64)>, half: Option<u64>) -> Option<Clock>
    ensures { (offset ticks : ℕ) (digit : Digit) → (((begins ≡ Some (digit, offset)) × (half ≡ Some ticks))
        ↔ result ≡ Some (record { digit = digit; offset = offset; half = ticks })) }
{
    let (digit, offset) = begins?;
    let half = half?;
    Some(Clock {
        digit,
        offset,
        half,
    })
}

fn pair(
    alloc: Global,
    design: &Design,
    wide: bool,
    v: usize,
    all: &[Statement],
) -> Result<Option<Clock>, AllocError>
    ensures { IfOk result (λ o. (offset half : ℕ) (digit : Digit) → (ArePair design.now wide v offset half digit all.now
        ↔ o ≡ Some (record { digit = digit; offset = offset; half = half }))) }
{
    if all.len() != 2 {
        return Ok(None);
    }
    let first = begins(alloc, design, v, &all[0])?;
    Ok(joined(first, turns_forever(design, wide, v, &all[1])))
}

fn pair_layer(
    alloc: Global,
    design: &Design,
    wide: bool,
    v: usize,
    s: &Statement,
) -> Result<Option<Clock>, AllocError>
    ensures { IfOk result (λ o. (offset half : ℕ) (digit : Digit) → (PairLayer design.now wide v offset half digit (out-Statement s.now)
        ↔ o ≡ Some (record { digit = digit; offset = offset; half = half }))) }
{
    match s {
        Statement::Block(all) => pair(alloc, design, wide, v, all),
        _ => Ok(None),
    }
}

/// The clock of a statement that is `begin [#o] u = c; forever #h u = ~u; end`.
pub fn sets_and_turns(
    alloc: Global,
    design: &Design,
    wide: bool,
    v: usize,
    s: &Statement,
) -> Result<Option<Clock>, AllocError>
    ensures { IfOk result (λ o. (offset half : ℕ) (digit : Digit) → (SetsAndTurns design.now wide v offset half digit s.now
        ↔ o ≡ Some (record { digit = digit; offset = offset; half = half }))) }
{
    pair_layer(alloc, design, wide, v, core_of(s))
}

/// The one other number of a list, where it has one.
pub fn other(xs: &[usize], i: usize) -> Option<usize>
    ensures { (j : ℕ) → (IsOther xs.now i j ↔ result ≡ Some j) }
{
    let mut found = None;
    for x in xs {
        if *x != i {
            match found {
                None => found = Some(*x),
                Some(j) => {
                    if j != *x {
                        return None;
                    }
                }
            }
        }
    }
    found
}

/// The 0 or 1 to which an `initial` process, by its number, sets a whole signal.
pub fn set_by(
    alloc: Global,
    design: &Design,
    v: usize,
    j: usize,
) -> Result<Option<Digit>, AllocError>
    ensures { IfOk result (λ o. (digit : Digit) → (HasBody design.now j Initial (Sets design.now v digit) ↔ o ≡ Some digit)) }
{
    match design.processes().get(j) {
        None => Ok(None),
        Some(process) => match process.kind {
            ProcessKind::Initial => sets(alloc, design, v, &process.body),
            ProcessKind::Always => Ok(None),
        },
    }
}

// The 0 or 1 to which a process, by its number, sets a signal that another one turns, by what each of its writes gives the signal where clocks are
// wide.
fn first_set(
    alloc: Global,
    design: &Design,
    wide: bool,
    v: usize,
    j: usize,
    set: Option<Digit>,
) -> Result<Option<Digit>, AllocError>
    requires { wide ≡ true → (digit : Digit) → (SetsAlike design.now v digit j ↔ set ≡ Some digit) }
    ensures { IfOk result (λ o. (digit : Digit) → (SetsFirst design.now wide v digit j ↔ o ≡ Some digit)) }
{
    if wide {
        Ok(set)
    } else {
        set_by(alloc, design, v, j)
    }
}

// A clock that is set at the start, and turned after so many ticks.
fn at_once(digit: Option<Digit>, half: u64) -> Option<Clock>
    ensures { (offset ticks : ℕ) (d : Digit) → (((offset ≡ 0) × (digit ≡ Some d) × (half ≡ ticks))
        ↔ result ≡ Some (record { digit = d; offset = offset; half = ticks })) }
{
    match digit {
        Some(digit) => Some(Clock {
            digit,
            offset: 0,
            half,
        }),
        None => None,
    }
}

// The clock that a process turns by its body, and the one other process that writes it sets at the start.
fn turned(
    alloc: Global,
    design: &Design,
    wide: bool,
    v: usize,
    i: usize,
    body: &Statement,
    writers: &[usize],
    set: Option<Digit>,
) -> Result<Option<Clock>, AllocError>
    requires its { IsBodyOf design.now i body.now }
    requires writers { (k : ℕ) → (Contains writers.now k ↔ Writes design.now k v) }
    requires set { IsSetBy design.now wide v i writers.now set }
    ensures { IfOk result (λ o. (offset half : ℕ) (digit : Digit) → (IsTurnedBy design.now wide v i body.now offset half digit
        ↔ o ≡ Some (record { digit = digit; offset = offset; half = half }))) }
{
    let Some(half) = turns_forever(design, wide, v, body) else {
        return Ok(None);
    };
    let Some(j) = other(writers, i) else {
        return Ok(None);
    };
    let digit = first_set(alloc, design, wide, v, j, set)?;
    Ok(at_once(digit, half))
}

// The clock of an `initial` process by its body: it sets the clock and turns it, or where clocks are wide turns what the one other process sets.
fn begun(
    alloc: Global,
    design: &Design,
    wide: bool,
    v: usize,
    i: usize,
    body: &Statement,
    writers: &[usize],
    set: Option<Digit>,
) -> Result<Option<Clock>, AllocError>
    requires its { IsBodyOf design.now i body.now }
    requires writers { (k : ℕ) → (Contains writers.now k ↔ Writes design.now k v) }
    requires set { IsSetBy design.now wide v i writers.now set }
    ensures { IfOk result (λ o. (offset half : ℕ) (digit : Digit) → (IsBegunBy design.now wide v i body.now offset half digit
        ↔ o ≡ Some (record { digit = digit; offset = offset; half = half }))) }
{
    let alone = sets_and_turns(alloc, design, wide, v, body)?;
    match alone {
        Some(clock) => Ok(Some(clock)),
        None => if wide {
            turned(alloc, design, wide, v, i, body, writers, set)
        } else {
            Ok(None)
        },
    }
}

/// The clock that a signal is, by its writer and all processes that write it: its writer sets it once and then turns it for ever; or it is an
/// `always` that turns it, where clocks are wide an `initial` too, and the one other process that writes it sets it at the start. Where clocks are
/// wide, the last argument is the 0 or 1 that each write of that other process gives the signal by `=`, if they all give the same. It takes as long
/// as the texts of these two processes.
pub fn clock_of(
    alloc: Global,
    design: &Design,
    wide: bool,
    v: usize,
    writer: Option<usize>,
    writers: &[usize],
    set: Option<Digit>,
) -> Result<Option<Clock>, AllocError>
    requires writers { (k : ℕ) → (Contains writers.now k ↔ Writes design.now k v) }
    requires set { (i : ℕ) → writer ≡ Some i → IsSetBy design.now wide v i writers.now set }
    ensures { IfOk result (λ o. (digit : Digit) (offset half : ℕ) → (IsClockBy design.now wide v writer digit offset half
        ↔ o ≡ Some (record { digit = digit; offset = offset; half = half }))) }
{
    let Some(i) = writer else {
        return Ok(None);
    };
    let Some(process) = design.processes().get(i) else {
        return Ok(None);
    };
    match process.kind {
        ProcessKind::Initial => begun(alloc, design, wide, v, i, &process.body, writers, set),
        ProcessKind::Always => turned(alloc, design, wide, v, i, &process.body, writers, set),
    }
}
