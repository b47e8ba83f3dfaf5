//! The later times of a dump.
ghost use Rattle.std.specs.Prelude.{◌≡◌, ◌<◌, ◌≤◌, ◌^◌, ℕ, false, true, length, IsTrue, ◌↔◌, MatchResult};
ghost use Rattle.vs_vcd_lines.specs.vs_vcd_writing.specs.Text.{time_line};
ghost use Rattle.vs_vcd_lines.specs.Lines.{change_line, are_sizes};
ghost use Rattle.vs_vcd_reader.specs.Layout.{with_change, IsChange};
ghost use Rattle.vs_vcd_reader.specs.Bodies.{AreAllLater, AreTimed, IsAtTime, IsNoChange};
ghost use Rattle.vs_vcd_reader.specs.Steps.{Place as p};
ghost use Rattle.vs_vcd_reader.specs.Stops.{IsBodyKind, IsReportedAt};

use crate::dump::Moment;
use crate::fault::VcdFault;
use crate::kinds::{body_end, body_fault};
use crate::parts::change_goes_on;
use crate::text::first_line;
use crate::times::time_goes_on;
use std::alloc::Global;
use vs_design::vs_logic4::Vec4;
use vs_vcd_lines::{ValueChange, change_of, time_of};

/// The time above the last one that a line is of, where that one doesn't stand alone.
fn next_time(line: &[u8], last: u64, bare: bool, count: usize) -> Result<u64, VcdFault>
    ensures { MatchResult result (λ t. (bare ≡ false) × (last < t) × (t < 2 ^ 64) × (line.now ≡ time_line t))
        (λ f. ((t : ℕ) → bare ≡ false → last < t → t < 2 ^ 64 → line.now ≡ time_line t → ⊥) × IsBodyKind count line.now f) }
{
    if bare {
        return Err(body_fault(line, count));
    }
    let Some(time) = time_of(line) else {
        return Err(body_fault(line, count));
    };
    if time > last {
        Ok(time)
    } else {
        Err(body_fault(line, count))
    }
}

/// The change of a variable from a number on that a line writes, to another value than that written last.
fn next_change(
    line: &[u8],
    from: usize,
    widths: &[u32],
    values: &[Vec4],
) -> Result<ValueChange, VcdFault>
    requires sizes { IsTrue (are_sizes widths.now) }
    requires values { length values.now ≡ length widths.now }
    ensures { MatchResult result (λ c. (from ≤ c.number) × IsChange widths.now values.now c × (line.now ≡ change_line c))
        (λ f. IsNoChange widths.now values.now from line.now f) }
{
    let Some(change) = change_of(line, widths) else {
        return Err(body_fault(line, widths.len()));
    };
    if change.number < from {
        return Err(body_fault(line, widths.len()));
    }
    let old = values[change.number];
    if change.value.same(old) {
        return Err(body_fault(line, widths.len()));
    }
    Ok(change)
}

/// Keeps the value of a change as the one written last.
fn keep(values: &mut [Vec4], change: &ValueChange)
    requires { change.now.number < length values.old }
    ensures { values.new ≡ with_change values.old change.now }
{
    values[change.number] = change.value;
}

/// Whether a text is at its end or at a time.
fn is_at_time(text: &[u8]) -> bool
    ensures { IsTrue result ↔ IsAtTime text.now }
{
    text.is_empty() || text.starts_with(b"#")
}

/// The changes of one time, and what stands after them.
fn read_changes<'t>(
    alloc: Global,
    text: &'t [u8],
    widths: &[u32],
    values: &mut [Vec4],
) -> Result<(Vec<ValueChange>, &'t [u8]), VcdFault>
    requires sizes { IsTrue (are_sizes widths.now) }
    requires values { length values.old ≡ length widths.now }
    ensures { MatchResult result
        (λ r. AreTimed widths.now text.now values.old values.new r.0.items r.1.now × (length values.new ≡ length widths.now))
        (λ f. (last : ℕ) → IsReportedAt (p.Later widths.now values.old last 0 true) text.now f) }
{
    let mut changes = Vec::new(alloc);
    let mut rest = text;
    let mut from = 0;
    while !is_at_time(rest) {
        let Some((line, after)) = first_line(rest) else {
            let goes_on = change_goes_on(rest, from, widths, values);
            return Err(body_end(goes_on, rest, widths.len()));
        };
        let change = next_change(line, from, widths, values)?;
        keep(values, &change);
        changes.push(change)?;
        from = change.number + 1;
        rest = after;
    }
    Ok((changes, rest))
}

/// The later times, to the end of the text.
pub(crate) fn read_later(
    alloc: Global,
    text: &[u8],
    widths: &[u32],
    mut values: Vec<Vec4>,
    moments: &mut Vec<Moment>,
) -> Result<(), VcdFault>
    requires sizes { IsTrue (are_sizes widths.now) }
    requires values { length values.items ≡ length widths.now }
    ensures { MatchResult result (λ _. AreAllLater widths.now text.now values.items moments.old.items moments.new.items)
        (λ f. IsReportedAt (p.Later widths.now values.items 0 (length widths.now) false) text.now f) }
{
    let mut rest = text;
    let mut last = 0;
    let mut bare = false;
    while !rest.is_empty() {
        let Some((line, after)) = first_line(rest) else {
            let goes_on = time_goes_on(rest, last, bare);
            return Err(body_end(goes_on, rest, widths.len()));
        };
        let time = next_time(line, last, bare, widths.len())?;
        let (changes, next) = read_changes(alloc, after, widths, &mut values)?;
        bare = changes.is_empty();
        moments.push(Moment { time, changes })?;
        last = time;
        rest = next;
    }
    Ok(())
}
