//! Whether blocks of start `cold` need nothing that blocks of start `starter` give.
ghost use Rattle.std.specs.Prelude.{ℕ, ◌≡◌, ◌↔◌, ◌⊎◌, IfOk, OnOk, IsTrue};
ghost use Rattle.std.specs.List.{Contains};
ghost use Rattle.vs_design.specs.declared.range.BitRange as range;
ghost use Rattle.vs_rules.specs.Certificates.{start_from};
ghost use Rattle.vs_rules.specs.Claims.{cold, HasStart};
ghost use Rattle.vs_drivers.specs.Wires.{IsWiringOf};
ghost use Rattle.vs_rules_of_starts.specs.Starts.{AreApart, NeedsCold};

use crate::starts::{no_starter_in, start_of};
use std::alloc::{AllocError, Global};
use std::marker::Model;
use vs_claims::Facts;
use vs_claims::vs_certificate::Start;
use vs_design::BitRange;
use vs_drivers::Cones;

/// What a certificate says of the starts of blocks, and whether the cones of all blocks of start `cold` pass through no driver of start `starter`.
/// A contract sees the facts.
#[derive(Drop)]
pub struct Starts<'a> {
    pub(crate) facts: &'a Facts<'a>,
    // Where it is set, they pass through none.
    pub(crate) apart: bool,
}

impl<'a> Model for Starts<'a> {
    ghost use Rattle.std.specs.Coded.{codes};
    ghost use Rattle.std.specs.Prelude.{IsTrue};
    ghost use Rattle.vs_design.specs.contracts.expression.Typed as expression;
    ghost use Rattle.vs_design.specs.contracts.statement.Statement as statement;
    ghost use Rattle.vs_claims.specs.Facts.{Case};
    ghost use Rattle.vs_rules_of_starts.specs.Starts.{AreApart};

    ghost Value = { Case };

    ghost coded = { Prim.hlevel (codes, statement.the_row.coded, expression.the_row.coded) };

    ghost view = { λ s. s.facts.now };

    ghost invariant = { λ s. IsTrue s.apart → AreApart s.facts.now.design s.facts.now.claims };
}

// Whether it is the start of a block that never runs in the first slot.
fn is_cold(start: Start) -> bool
    ensures { IsTrue result ↔ (start_from start ≡ cold) }
{
    matches!(start, Start::Cold)
}

// Whether a process has start `cold`.
fn has_cold(facts: &Facts, i: usize) -> bool
    ensures { IsTrue result ↔ HasStart facts.now.design facts.now.claims i cold }
{
    match start_of(facts.kind(i)) {
        None => false,
        Some(start) => is_cold(start),
    }
}

// Puts what a process needs, where it has start `cold`.
fn push_needs(
    out: &mut Vec<BitRange>,
    facts: &Facts,
    cones: &Cones,
    i: usize,
) -> Result<(), AllocError>
    requires { IsWiringOf facts.now.design facts.now.claims cones.now }
    ensures { OnOk result ((r : range.BitRange) → (Contains out.new.items r ↔
        (Contains out.old.items r ⊎ NeedsCold facts.now.design facts.now.claims i r))) }
{
    if !has_cold(facts, i) {
        return Ok(());
    }
    out.extend_from_slice(cones.block_needs(i))?;
    Ok(())
}

// What all processes of start `cold` need.
fn all_needs(alloc: Global, facts: &Facts, cones: &Cones) -> Result<Vec<BitRange>, AllocError>
    requires { IsWiringOf facts.now.design facts.now.claims cones.now }
    ensures { IfOk result (λ all. (r : range.BitRange) → (Contains all.items r ↔
        ((i : ℕ) × NeedsCold facts.now.design facts.now.claims i r))) }
{
    let mut all = Vec::new(alloc);
    for i in 0..facts.design().processes().len() {
        push_needs(&mut all, facts, cones, i)?;
    }
    Ok(all)
}

// Whether the cones of what all processes of start `cold` need pass through no driver of start `starter`.
fn are_apart(alloc: Global, facts: &Facts, cones: &Cones) -> Result<bool, AllocError>
    requires { IsWiringOf facts.now.design facts.now.claims cones.now }
    ensures { IfOk result (λ b. (IsTrue b ↔ AreApart facts.now.design facts.now.claims)) }
{
    let needs = all_needs(alloc, facts, cones)?;
    let passed = cones.passed_by(alloc, &needs)?;
    Ok(no_starter_in(facts, &passed))
}

impl<'a> Starts<'a> {
    /// The starts of a certificate. It takes as long as the texts of its blocks of start `cold`, and as the cone of all that they need.
    pub fn of(alloc: Global, facts: &'a Facts<'a>, cones: &Cones) -> Result<Starts<'a>, AllocError>
        requires { IsWiringOf facts.now.design facts.now.claims cones.now }
        ensures { IfOk result (λ s. s ≡ facts.entry.now) }
    {
        let apart = are_apart(alloc, facts, cones)?;
        Ok(Starts { facts, apart })
    }
}
