//! Statements that are sure to change a bit of a variable that a control names.
ghost use Rattle.std.specs.Prelude.{ℕ, ◌<◌, ◌↔◌, ◌⊎◌, false, IfOk, IsTrue};
ghost use Rattle.vs_design.specs.declared.statement.Statement.TheViews.{out-Statement};
ghost use Rattle.vs_design.specs.WellFormed.{width_at};
ghost use Rattle.vs_rules_of_starts.specs.vs_process.specs.Stops.{statement_view};
ghost use Rattle.vs_rules.specs.Paths as paths;
ghost use Rattle.vs_rules.specs.Constants.{GivesDigit, IsKnown};
ghost use Rattle.vs_drivers.specs.vs_slots_constants.specs.Givings.{bit_view};
ghost use Rattle.vs_drivers.specs.vs_maps.specs.Reaches.{InSlot0};
ghost use Rattle.vs_rules_of_starts.specs.Beginnings.{HasAt, AnyHas, IsKnownOne, GivesBit, GivesInWord, GivesAim, GivesNamed};
ghost use Rattle.vs_rules_of_starts.specs.Beginnings.{BeginsBy, BeginsLayer, BeginsAt, WritesAt, StartsSurely};

use crate::missing::is_sure;
use std::alloc::{AllocError, Global};
use vs_design::vs_logic4::Digit;
use vs_design::{Aim, BitRange, Design, Statement, Target, Typed};
use vs_drivers::vs_maps::Tables;
use vs_drivers::vs_slots_constants::{Bit, given};
use vs_drivers::{has_place, has_word};
use vs_graph::{Rule, all_keep};

// Whether a range has the bit of its own signal at the word and place of this one.
fn has(range: BitRange, bit: Bit) -> bool
    ensures { IsTrue result ↔ HasAt range (bit_view bit) }
{
    has_word(range.word, bit.word) && has_place(range.bits, bit.place)
}

// Whether the design has a bit.
fn is_there(design: &Design, bit: Bit) -> bool
    ensures { IsTrue result ↔ paths.IsBit design.now (bit_view bit) }
{
    let signals = design.signals();
    if bit.signal >= signals.len() {
        return false;
    }
    let signal = &signals[bit.signal];
    bit.word < signal.count as usize && bit.place < signal.width
}

// Whether one of some ranges has the bit of its own signal at the word and place of this one.
fn any_has(named: &[BitRange], bit: Bit) -> bool
    ensures { IsTrue result ↔ AnyHas named.now (bit_view bit) }
{
    for range in named {
        if has(*range, bit) {
            return true;
        }
    }
    false
}

// Whether a digit is known.
fn is_known(digit: Digit) -> bool
    ensures { IsTrue result ↔ IsKnown digit }
{
    match digit {
        Digit::Zero => true,
        Digit::One => true,
        Digit::X => false,
        Digit::Z => false,
    }
}

// Whether a digit is there and known.
fn is_known_one(digit: Option<Digit>) -> bool
    ensures { IsTrue result ↔ IsKnownOne digit }
{
    match digit {
        None => false,
        Some(digit) => is_known(digit),
    }
}

// Whether an assignment of a constant gives a bit that is named a known digit.
fn gives_bit(
    alloc: Global,
    design: &Design,
    named: &[BitRange],
    target: &Target,
    value: &Typed,
    bit: Bit,
) -> Result<bool, AllocError>
    ensures { IfOk result (λ b. (IsTrue b ↔ GivesBit design.now named.now target.now value.now (bit_view bit))) }
{
    if !is_there(design, bit) {
        return Ok(false);
    }
    if !any_has(named, bit) {
        return Ok(false);
    }
    let digit = given(alloc, target, value, bit)?;
    Ok(is_known_one(digit))
}

// Whether it gives one of the lowest bits of a word such a digit.
fn gives_in_word(
    alloc: Global,
    design: &Design,
    named: &[BitRange],
    target: &Target,
    value: &Typed,
    lowest: Bit,
    width: u32,
) -> Result<bool, AllocError>
    ensures { IfOk result (λ b. (IsTrue b ↔
        GivesInWord design.now named.now target.now value.now lowest.signal lowest.word width)) }
{
    for place in 0..width {
        if gives_bit(alloc, design, named, target, value, Bit { place, ..lowest })? {
            return Ok(true);
        }
    }
    Ok(false)
}

// Whether a place of a target is constant bits of a variable, in the word of which it gives one such a digit.
fn gives_aim(
    alloc: Global,
    design: &Design,
    named: &[BitRange],
    target: &Target,
    value: &Typed,
    g: usize,
    width: u32,
    aim: &Aim,
) -> Result<bool, AllocError>
    ensures { IfOk result (λ b. (IsTrue b ↔ GivesAim design.now named.now target.now value.now g width aim.now)) }
{
    match aim {
        Aim::Fixed(s) => {
            if s.signal != g {
                return Ok(false);
            }
            let lowest = Bit {
                signal: g,
                word: s.word,
                place: 0,
            };
            gives_in_word(alloc, design, named, target, value, lowest, width)
        }
        Aim::Chosen(_, _, _) => Ok(false),
    }
}

// Whether it gives some bit of a variable that is named such a digit.
fn gives_named(
    alloc: Global,
    design: &Design,
    named: &[BitRange],
    g: usize,
    target: &Target,
    value: &Typed,
) -> Result<bool, AllocError>
    ensures { IfOk result (λ b. (IsTrue b ↔ GivesNamed design.now named.now g target.now value.now)) }
{
    let signals = design.signals();
    if g >= signals.len() {
        return Ok(false);
    }
    let width = signals[g].width;
    for aim in &target.parts {
        if gives_aim(alloc, design, named, target, value, g, width, aim)? {
            return Ok(true);
        }
    }
    Ok(false)
}

// Whether a statement gives such a bit a known digit, by `<=` without delay.
fn begins_layer(
    alloc: Global,
    design: &Design,
    named: &[BitRange],
    g: usize,
    s: &Statement,
) -> Result<bool, AllocError>
    ensures { IfOk result (λ b. (IsTrue b ↔ BeginsLayer design.now named.now g (out-Statement s.now))) }
{
    match s {
        Statement::Later(_, ticks, target, value) => {
            if ticks.count != 0 {
                return Ok(false);
            }
            gives_named(alloc, design, named, g, target, value)
        }
        _ => Ok(false),
    }
}

// The same of a statement that may be there.
fn begins_by(
    alloc: Global,
    design: &Design,
    named: &[BitRange],
    g: usize,
    s: Option<&Statement>,
) -> Result<bool, AllocError>
    ensures { IfOk result (λ b. (IsTrue b ↔ BeginsBy design.now named.now g (statement_view s.entry))) }
{
    match s {
        None => Ok(false),
        Some(s) => begins_layer(alloc, design, named, g, s),
    }
}

// Places where a statement is sure to change a bit of a variable that is named.
#[derive(Drop)]
struct Beginnings<'a> {
    tables: &'a Tables<'a>,
    design: &'a Design,
    named: &'a [BitRange],
    g: usize,
}

impl<'a> Rule for Beginnings<'a> {
    ghost keeps = { λ f p. BeginsAt f.design.now f.named.now f.g f.tables.now p };

    fn test(&self, alloc: Global, i: usize) -> Result<bool, AllocError> {
        begins_by(
            alloc,
            self.design,
            self.named,
            self.g,
            self.tables.statement(i),
        )
    }
}

// Whether the statement at a place writes a signal, by `=` or by `<=`.
fn writes_at(tables: &Tables, g: usize, place: usize) -> bool
    ensures { IsTrue result ↔ WritesAt tables.now g place }
{
    if tables.writes_now(place, g) {
        return true;
    }
    tables.writes_later(place, g)
}

// Places of the first slot, where each write of a variable is such a one.
#[derive(Drop)]
struct WritesAlone<'a> {
    begins: Beginnings<'a>,
}

impl<'a> Rule for WritesAlone<'a> {
    ghost keeps = { λ f p. InSlot0 false f.begins.tables.now p → WritesAt f.begins.tables.now f.begins.g p →
        BeginsAt f.begins.design.now f.begins.named.now f.begins.g f.begins.tables.now p };

    fn test(&self, alloc: Global, i: usize) -> Result<bool, AllocError> {
        let begins = &self.begins;
        if i >= begins.tables.places() {
            return Ok(true);
        }
        if !begins.tables.is_slot0(false, i) {
            return Ok(true);
        }
        if !writes_at(begins.tables, begins.g, i) {
            return Ok(true);
        }
        begins.test(alloc, i)
    }
}

/// Whether in the first slot each write of a variable is sure to change a bit that is named, and one is sure to be made. It takes as long as there
/// are places and ways, and for each `<=` of the variable the bits of its word, times how many ranges are named.
pub(crate) fn starts_surely<'a>(
    alloc: Global,
    tables: &'a Tables<'a>,
    design: &'a Design,
    named: &'a [BitRange],
    g: usize,
) -> Result<bool, AllocError>
    ensures { IfOk result (λ b. (IsTrue b ↔ StartsSurely design.entry.now named.entry.now g tables.entry.now)) }
{
    tables.leads_in();
    let begins = Beginnings {
        tables,
        design,
        named,
        g,
    };
    let sure = is_sure(alloc, tables, &begins)?;
    if !sure {
        return Ok(false);
    }
    let alone = WritesAlone { begins };
    all_keep(alloc, &alone, tables.places())
}
