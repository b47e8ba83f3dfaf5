//! What processes set signals to, by the sites of their writes.
ghost use Rattle.std.specs.Prelude.{◌≡◌, ◌<◌, ◌↔◌, None, Some, length, IfOk, IsTrue};
ghost use Rattle.std.specs.List.{Contains};
ghost use Rattle.vs_design.specs.vs_logic4.specs.declared.digit.Digit.{Digit};
ghost use Rattle.vs_maps.specs.vs_rules.specs.Constants.{SetsAlike};
ghost use Rattle.vs_maps.specs.declared.sites.Site.{Site};
ghost use Rattle.vs_slots.specs.Settings.{AreSetAlike, AreSetTo, IsSetAt, IsWriteOf};

use crate::firing::given_at;
use std::alloc::{AllocError, Global};
use vs_claims::Facts;
use vs_claims::vs_maps::Tables;
use vs_design::vs_logic4::Digit;
use vs_maps::{Site, is_now, is_write_of};
use vs_slots_constants::known;

// The 0 or 1 that the statement at a site gives the lowest bit of a signal by `=`.
fn set_at<'a>(
    alloc: Global,
    tables: &'a Tables<'a>,
    v: usize,
    site: Site,
) -> Result<Option<Digit>, AllocError>
    ensures { IfOk result (λ o. (digit : Digit) → (IsSetAt tables.entry.now v digit site ↔ o ≡ Some digit)) }
{
    if !is_now(site.usage) {
        return Ok(None);
    }
    let given = given_at(alloc, tables, site.place, v)?;
    Ok(known(given))
}

// Whether two digits are the same.
fn is_same(a: Digit, b: Digit) -> bool
    ensures { IsTrue result ↔ a ≡ b }
{
    a == b
}

// Whether a site, if it is a write of a process, gives a signal this digit so.
fn is_set_to<'a>(
    alloc: Global,
    tables: &'a Tables<'a>,
    v: usize,
    j: usize,
    digit: Digit,
    site: Site,
) -> Result<bool, AllocError>
    ensures { IfOk result (λ b. (IsTrue b ↔ (IsWriteOf j site → IsSetAt tables.entry.now v digit site))) }
{
    if !is_write_of(site, j) {
        return Ok(true);
    }
    let set = set_at(alloc, tables, v, site)?;
    match set {
        None => Ok(false),
        Some(other) => Ok(is_same(other, digit)),
    }
}

// Whether each of some sites that is a write of a process does.
fn are_set_to<'a>(
    alloc: Global,
    tables: &'a Tables<'a>,
    sites: &[Site],
    v: usize,
    j: usize,
    digit: Digit,
) -> Result<bool, AllocError>
    ensures { IfOk result (λ b. (IsTrue b ↔ AreSetTo tables.entry.now sites.now v j digit)) }
{
    for site in sites {
        if !is_set_to(alloc, tables, v, j, digit, *site)? {
            return Ok(false);
        }
    }
    Ok(true)
}

// The first of some sites that is a write of a process.
fn first_write(sites: &[Site], j: usize) -> Option<Site>
    ensures there { (s : Site) → result ≡ Some s → Contains sites.now s × IsWriteOf j s }
    ensures none { result ≡ None → (s : Site) → Contains sites.now s → IsWriteOf j s → ⊥ }
{
    for site in sites {
        if is_write_of(*site, j) {
            return Some(*site);
        }
    }
    None
}

// The 0 or 1 that each of some sites that is a write of a process gives a signal by `=`, where there is one and they all give the same.
fn set_by_sites<'a>(
    alloc: Global,
    tables: &'a Tables<'a>,
    sites: &[Site],
    v: usize,
    j: usize,
) -> Result<Option<Digit>, AllocError>
    ensures { IfOk result (λ o. (digit : Digit) → (AreSetAlike tables.entry.now sites.now v j digit ↔ o ≡ Some digit)) }
{
    let Some(site) = first_write(sites, j) else {
        return Ok(None);
    };
    let first = set_at(alloc, tables, v, site)?;
    let Some(digit) = first else {
        return Ok(None);
    };
    if are_set_to(alloc, tables, sites, v, j, digit)? {
        Ok(Some(digit))
    } else {
        Ok(None)
    }
}

/// The 0 or 1 that each write of a process gives a signal by `=`, where there is one and they all give the same. It takes as long as the texts of
/// the assignments that write the signal.
pub(crate) fn set_by<'a>(
    alloc: Global,
    facts: &'a Facts<'a>,
    v: usize,
    j: usize,
) -> Result<Option<Digit>, AllocError>
    requires { v < length facts.now.design.signals }
    ensures { IfOk result (λ o. (digit : Digit) → (SetsAlike facts.entry.now.design v digit j ↔ o ≡ Some digit)) }
{
    facts.maps();
    let Some(tables) = facts.tables(j) else {
        return Ok(None);
    };
    set_by_sites(alloc, tables, facts.sites().of_signal(v), v, j)
}
