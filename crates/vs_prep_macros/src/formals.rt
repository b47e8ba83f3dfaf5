//! The formals of macros (IEEE 1364-2005, clause 19.3.1).
ghost use Rattle.std.specs.Prelude.{◌≡◌, ◌≤◌, ◌<◌, ℕ, List, IfOk, length};
ghost use Rattle.vs_prep_macros.specs.Definitions.{ReadsFormals, ReadsIfAny};
ghost use Rattle.vs_prep_macros.specs.Formals.{Numbers, Marks, Reads, marked, next_formal};
ghost use Rattle.vs_prep_macros.specs.Spaces.{skip_joined};

use crate::fault::{Fault, Halt};
use crate::first_and_rest;
use crate::scan::{name_at, skip_joined};
use std::alloc::Global;
use std::collections::BTreeMap;

/// The formals of a macro, each with its number.
pub type Formals = BTreeMap<Vec<u8>, usize>;

/// Reads what stands behind a formal, and answers whether another one follows.
fn after_formal(after: &[u8]) -> Result<(bool, &[u8]), Halt>
    ensures read { (names : List (List ℕ)) → Marks (marked names (skip_joined after.now)) names result }
    ensures no_longer { IfOk result (λ x. length x.1.now ≤ length after.now) }
{
    match first_and_rest(skip_joined(after)) {
        Some((b',', rest)) => Ok((true, rest)),
        Some((b')', rest)) => Ok((false, rest)),
        Some((b'=', _)) => Err(Halt::Here(Fault::FormalDefault)),
        _ => Err(Halt::Here(Fault::Formals)),
    }
}

/// Reads a formal, adds it to the others, and answers whether another one follows.
#[tactic(auto, using(crate::proofs::FormalsRead::formal_none))]
fn read_formal<'s>(
    alloc: Global,
    bytes: &'s [u8],
    formals: &mut Formals,
) -> Result<(bool, &'s [u8]), Halt>
    ensures read { (names : List (List ℕ)) → Numbers formals.old.entries (λ k. k.items) names
        → Reads formals.new.entries (λ k. k.items) (next_formal names bytes.now) result }
    ensures moves { IfOk result (λ x. length x.1.now < length bytes.now) }
{
    let at = skip_joined(bytes);
    match name_at(at) {
        Some((name, after)) => {
            if formals.contains_key(name) {
                return Err(Halt::At(Fault::SameFormals, at.len()));
            }
            let number = formals.len();
            formals.insert(Vec::from_slice(alloc, name)?, number)?;
            after_formal(after)
        }
        None => Err(Halt::Here(Fault::Formals)),
    }
}

/// Reads the formals behind the parenthesis that opens them.
fn read_formals(alloc: Global, bytes: &[u8]) -> Result<(Formals, &[u8]), Halt>
    ensures read { ReadsFormals bytes.now result (λ k. k.items) }
    ensures no_longer { IfOk result (λ x. length x.1.now ≤ length bytes.now) }
{
    let mut formals = BTreeMap::new(alloc);
    let mut rest = bytes;
    let mut more = true;
    while more {
        let (next, after) = read_formal(alloc, rest, &mut formals)?;
        rest = after;
        more = next;
    }
    Ok((formals, rest))
}

/// Reads the formals of a macro, if a parenthesis opens them, and answers what stands behind them.
pub(crate) fn formals_of(alloc: Global, bytes: &[u8]) -> Result<(Option<Formals>, &[u8]), Halt>
    ensures read { ReadsIfAny bytes.now result (λ k. k.items) }
    ensures no_longer { IfOk result (λ x. length x.1.now ≤ length bytes.now) }
{
    match first_and_rest(bytes) {
        Some((b'(', inside)) => {
            let (formals, rest) = read_formals(alloc, inside)?;
            Ok((Some(formals), rest))
        }
        _ => Ok((None, bytes)),
    }
}
