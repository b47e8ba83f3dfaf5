//! All subjects that break rules, as far as so many are asked for.
ghost use Rattle.std.specs.Prelude.{ℕ, ◌≡◌, ◌<◌, ◌≤◌, ◌++◌, length, map, IfOk, OnOk};
ghost use Rattle.std.specs.List.{All};
ghost use Rattle.vs_cert_check.specs.Broken.{broken_view, violation_at, AreFirstBroken, FirstBroken, IsBrokenList};
ghost use Rattle.vs_cert_check.specs.Verdicts.{KeepsAt, AllKeptBelow};
ghost use Rattle.vs_rules_of_signals.specs.vs_graph.specs.Verdicts.{IsLeast};
ghost use Rattle.vs_rules_of_starts.specs.vs_rules.specs.Verdict.{numbers, subjects};

use crate::judging::{BEFORE, OfRule, first_starts};
use crate::sheet::Sheet;
use crate::verdict::Broken;
use std::alloc::{AllocError, Global};
use vs_rules_of_signals::vs_graph::Rule;

/// The first things below a number that break a rule, at most so many.
pub(crate) fn breakers<R: Rule>(
    alloc: Global,
    rule: &R,
    n: usize,
    most: usize,
) -> Result<Vec<usize>, AllocError>
    ensures first { IfOk result (λ found. FirstBroken (R.keeps rule.now) most (numbers 0 n) found.items) }
    ensures within { IfOk result (λ found. All (λ i. i < n) found.items) }
{
    let mut found = Vec::new(alloc);
    for i in 0..n {
        if found.len() >= most {
            return Ok(found);
        }
        if !rule.test(alloc, i)? {
            found.push(i)?;
        }
    }
    Ok(found)
}

// Puts subjects, by their numbers, at the end of those that break rules.
fn tell(
    alloc: Global,
    sheet: &Sheet,
    rule: usize,
    found: &[usize],
    list: &mut Vec<Broken>,
) -> Result<(), AllocError>
    requires rule { rule < 11 }
    requires within { All (λ i. i < length (subjects sheet.now.design sheet.now.claims)) found.now }
    ensures { OnOk result (map broken_view list.new.items ≡
        map broken_view list.old.items ++ map (λ i. violation_at sheet.now.design sheet.now.claims (rule, i)) found.now) }
{
    for i in found {
        let place = Vec::from_slice(alloc, sheet.name(*i))?;
        list.push(Broken {
            number: rule as u8 + 1,
            place,
        })?;
    }
    Ok(())
}

// The first subjects that break rules before the last one, at most so many, where all keep those below a number.
fn broken_from<'a, 'b>(
    alloc: Global,
    sheet: &'b Sheet<'a>,
    first: usize,
    most: usize,
) -> Result<Vec<Broken>, AllocError>
    requires first { first ≤ 10 }
    requires kept { AllKeptBelow sheet.now.design sheet.now.claims first }
    ensures { IfOk result (λ list. AreFirstBroken sheet.entry.now.design sheet.entry.now.claims 10 most list.items) }
{
    let mut list = Vec::new(alloc);
    for rule in first..BEFORE {
        let one = OfRule { sheet, rule };
        let found = breakers(alloc, &one, sheet.count(), most - list.len())?;
        tell(alloc, sheet, rule, &found, &mut list)?;
    }
    Ok(list)
}

// The first subjects that break the last rule, at most so many, where all keep those before.
fn broken_starts(alloc: Global, sheet: &Sheet, most: usize) -> Result<Vec<Broken>, AllocError>
    requires { AllKeptBelow sheet.now.design sheet.now.claims 10 }
    ensures { IfOk result (λ list. AreFirstBroken sheet.now.design sheet.now.claims 11 most list.items) }
{
    let mut list = Vec::new(alloc);
    if most == 0 {
        return Ok(list);
    }
    let found = first_starts(alloc, sheet, most)?;
    tell(alloc, sheet, BEFORE, &found, &mut list)?;
    Ok(list)
}

/// The first subjects that break rules, at most so many, by the least rule that is broken.
pub(crate) fn all_broken<'a, 'b>(
    alloc: Global,
    sheet: &'b Sheet<'a>,
    least: Option<(usize, usize)>,
    most: usize,
) -> Result<Vec<Broken>, AllocError>
    requires { IsLeast (KeepsAt sheet.now.design sheet.now.claims) 11 (length (subjects sheet.now.design sheet.now.claims)) least }
    ensures { IfOk result (λ list. IsBrokenList sheet.entry.now.design sheet.entry.now.claims most list.items) }
{
    match least {
        None => Ok(Vec::new(alloc)),
        Some((rule, _)) => {
            if rule < BEFORE {
                broken_from(alloc, sheet, rule, most)
            } else {
                broken_starts(alloc, &*sheet, most)
            }
        }
    }
}
