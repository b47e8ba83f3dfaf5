//! The first time of a dump.
ghost use Rattle.std.specs.Prelude.{◌≡◌, ◌∷◌, ◌++◌, [], length, IsTrue, MatchResult};
ghost use Rattle.vs_vcd_lines.specs.Lines.{change_line, are_sizes, IsSized};
ghost use Rattle.vs_vcd_reader.specs.Bodies.{AreBegun, IsFirst, IsNoValue, IsUnexpected};
ghost use Rattle.vs_vcd_reader.specs.Steps.{Place as p};
ghost use Rattle.vs_vcd_reader.specs.Stops.{IsReportedAt};

use crate::fault::VcdFault;
use crate::kinds::{body_end, body_fault};
use crate::parts::value_goes_on;
use crate::text::first_line;
use std::alloc::Global;
use vs_vcd_lines::{ValueChange, begins, change_of, is_same};

/// What stands after the first line of a text, which is the wanted one, where there are so many variables.
fn expected<'t>(text: &'t [u8], wanted: &[u8], count: usize) -> Result<&'t [u8], VcdFault>
    ensures { MatchResult result (λ rest. text.now ≡ wanted.now ++ 10 ∷ rest.now) (λ f. IsUnexpected wanted.now count text.now f) }
{
    let Some((line, rest)) = first_line(text) else {
        let goes_on = begins(text, wanted);
        return Err(body_end(goes_on, text, count));
    };
    let same = is_same(line, wanted);
    if !same {
        return Err(body_fault(line, count));
    }
    Ok(rest)
}

/// The value of the variable of this number that a line writes.
fn value_of(line: &[u8], number: usize, widths: &[u32]) -> Result<ValueChange, VcdFault>
    requires { IsTrue (are_sizes widths.now) }
    ensures { MatchResult result (λ c. (c.number ≡ number) × IsSized widths.now c × (line.now ≡ change_line c))
        (λ f. IsNoValue widths.now number line.now f) }
{
    let Some(change) = change_of(line, widths) else {
        return Err(body_fault(line, widths.len()));
    };
    if change.number == number {
        Ok(change)
    } else {
        Err(body_fault(line, widths.len()))
    }
}

/// The values of all variables, and what stands after them.
fn read_values<'t>(
    alloc: Global,
    text: &'t [u8],
    widths: &[u32],
) -> Result<(Vec<ValueChange>, &'t [u8]), VcdFault>
    requires { IsTrue (are_sizes widths.now) }
    ensures { MatchResult result (λ r. AreBegun widths.now text.now r.0.items r.1.now × (length r.0.items ≡ length widths.now))
        (λ f. IsReportedAt (p.Values widths.now []) text.now f) }
{
    let mut changes = Vec::new(alloc);
    let mut rest = text;
    while changes.len() < widths.len() {
        let Some((line, after)) = first_line(rest) else {
            let goes_on = value_goes_on(rest, changes.len(), widths);
            return Err(body_end(goes_on, rest, widths.len()));
        };
        let change = value_of(line, changes.len(), widths)?;
        changes.push(change)?;
        rest = after;
    }
    Ok((changes, rest))
}

/// The values of the first time, and what stands after it.
pub(crate) fn read_first<'t>(
    alloc: Global,
    text: &'t [u8],
    widths: &[u32],
) -> Result<(Vec<ValueChange>, &'t [u8]), VcdFault>
    requires { IsTrue (are_sizes widths.now) }
    ensures { MatchResult result (λ r. IsFirst widths.now text.now r.0.items r.1.now) (λ f. IsReportedAt (p.Zero widths.now) text.now f) }
{
    let count = widths.len();
    let after_time = expected(text, b"#0", count)?;
    let after_word = expected(after_time, b"$dumpvars", count)?;
    let (changes, after_values) = read_values(alloc, after_word, widths)?;
    let rest = expected(after_values, b"$end", count)?;
    Ok((changes, rest))
}
