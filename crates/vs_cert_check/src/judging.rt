//! The verdict on a certificate: the least rule that is broken, and the first subject that breaks it.
ghost use Rattle.std.specs.Prelude.{ℕ, ◌≡◌, ◌<◌, length, map, IfOk};
ghost use Rattle.std.specs.List.{All};
ghost use Rattle.vs_cert_check.specs.Answers.{verdict_view, HasNumber, IsVerdictOn};
ghost use Rattle.vs_cert_check.specs.Broken.{IsReport, FirstBroken, IsBrokenList};
ghost use Rattle.vs_cert_check.specs.Marks.{marks_of};
ghost use Rattle.vs_cert_check.specs.Means.{Means};
ghost use Rattle.vs_cert_check.specs.Verdicts.{KeepsAt, AllKeptBelow};
ghost use Rattle.vs_rules_of_signals.specs.vs_claims.specs.Facts.{AreCharts, bodies};
ghost use Rattle.vs_claims.specs.vs_certificate.specs.JsonValue.{value_of};
ghost use Rattle.vs_claims.specs.vs_certificate.specs.Reading.{IsSound, IsSoundBy, IsSoundWide, other_by};
ghost use Rattle.vs_rules_of_signals.specs.vs_graph.specs.Verdicts.{IsFirst, IsLeast};
ghost use Rattle.vs_rules_of_starts.specs.vs_rules.specs.Blocks.{K5};
ghost use Rattle.vs_rules_of_starts.specs.vs_rules.specs.Certificates.{claims_of};
ghost use Rattle.vs_rules_of_starts.specs.vs_rules.specs.Claims.{is_wide};
ghost use Rattle.vs_rules_of_starts.specs.vs_rules.specs.Limits.{IsWideCertificate};
ghost use Rattle.vs_rules_of_starts.specs.vs_rules.specs.Verdict.{IsVerdict, numbers, subjects};
ghost use Rattle.vs_rules_of_processes.specs.vs_drivers.specs.Wires.{IsWiringOf};
ghost use Rattle.vs_rules_of_processes.specs.vs_drivers.specs.vs_slots_constants.specs.Inverted.{AreInverted};
ghost use Rattle.vs_rules_of_signals.specs.vs_maps.specs.Reaches.{chart_of};

use crate::laws::least_is_verdict;
use crate::listing::{all_broken, breakers};
use crate::sheet::{Sheet, keeps, starts_well};
use crate::verdict::{Verdict, VerdictReport};
use std::alloc::{AllocError, Global};
use vs_cert_blocks::vs_process::{Code, TextMap};
use vs_cert_roots::vs_drivers::Copies;
use vs_cert_roots::{Entries, FirstWrites};
use vs_claims::all_subjects;
use vs_claims::vs_certificate::{Certificate, Rules};
use vs_design::Design;
use vs_independence::{rules_make_displays_alike, rules_make_independent};
use vs_rules_of_processes::vs_drivers::Cones;
use vs_rules_of_processes::vs_slots::Slots;
use vs_rules_of_processes::{FirstSlot, WriteClasses};
use vs_rules_of_signals::vs_claims::{Facts, codes, tables, texts};
use vs_rules_of_signals::vs_graph::{Book, Rule, first_broken, judge};
use vs_rules_of_signals::vs_maps::Tables;
use vs_rules_of_starts::vs_rules::tested_are_wide_certificates;
use vs_rules_of_starts::{Beginning, Starts, in_order};

/// How many rules there are before the last one.
pub(crate) const BEFORE: usize = 10;

// A rule before the last, by its number from 0 on.
#[derive(Drop)]
pub(crate) struct OfRule<'a, 'b> {
    pub sheet: &'b Sheet<'a>,
    pub rule: usize,
    pub ghost before: { rule < 10 },
}

impl<'a, 'b> Rule for OfRule<'a, 'b> {
    ghost keeps = { λ f i. KeepsAt f.sheet.now.design f.sheet.now.claims f.rule i };

    fn test(&self, alloc: Global, i: usize) -> Result<bool, AllocError> {
        match self.sheet.subject(i) {
            None => Ok(true),
            Some(subject) => keeps(alloc, self.sheet, self.rule, subject),
        }
    }
}

// The last rule, of a design whose beginning is known.
#[derive(Drop)]
struct OfStarts<'a, 'b> {
    sheet: &'b Sheet<'a>,
    starts: &'b Starts<'a>,
    beginning: &'b Beginning<'a>,
    ghost starts_are: { starts.now ≡ sheet.now },
    ghost of: { beginning.now ≡ sheet.now.design },
    ghost blocks: { (i : ℕ) → (K5 sheet.now.design sheet.now.claims i → ⊥) → ⊥ },
}

impl<'a, 'b> Rule for OfStarts<'a, 'b> {
    ghost keeps = { λ f i. KeepsAt f.sheet.now.design f.sheet.now.claims 10 i };

    fn test(&self, alloc: Global, i: usize) -> Result<bool, AllocError> {
        match self.sheet.subject(i) {
            None => Ok(true),
            Some(subject) => starts_well(alloc, self.sheet, self.starts, self.beginning, subject),
        }
    }
}

// The rules before the last.
impl<'a> Book for Sheet<'a> {
    ghost rules = { λ s. 10 };

    ghost things = { λ s. length (subjects s.design s.claims) };

    ghost keeps = { λ s. KeepsAt s.design s.claims };

    fn rules(&self) -> usize {
        BEFORE
    }

    fn first(&self, alloc: Global, rule: usize) -> Result<Option<usize>, AllocError> {
        let one = OfRule { sheet: self, rule };
        let first = first_broken(alloc, &one, self.count())?;
        Ok(first)
    }
}

/// The first subjects that break the last rule, at most so many, where all keep those before.
pub(crate) fn first_starts<'a>(
    alloc: Global,
    sheet: &Sheet<'a>,
    most: usize,
) -> Result<Vec<usize>, AllocError>
    requires { AllKeptBelow sheet.now.design sheet.now.claims 10 }
    ensures first { IfOk result (λ found. FirstBroken (KeepsAt sheet.now.design sheet.now.claims 10) most
        (numbers 0 (length (subjects sheet.now.design sheet.now.claims))) found.items) }
    ensures within { IfOk result (λ found. All (λ i. i < length (subjects sheet.now.design sheet.now.claims)) found.items) }
{
    let order = in_order(alloc, sheet.facts)?;
    let beginning = Beginning::new(alloc, sheet.facts.design(), &order)?;
    let of_blocks = Starts::of(alloc, sheet.facts, sheet.cones)?;
    let starts = OfStarts {
        sheet,
        starts: &of_blocks,
        beginning: &beginning,
    };
    let found = breakers(alloc, &starts, sheet.count(), most)?;
    Ok(found)
}

// The first subject that breaks the last rule, where all keep those before.
fn first_start(alloc: Global, sheet: &Sheet) -> Result<Option<usize>, AllocError>
    requires { AllKeptBelow sheet.now.design sheet.now.claims 10 }
    ensures { IfOk result (λ first. IsFirst (KeepsAt sheet.now.design sheet.now.claims 10)
        (length (subjects sheet.now.design sheet.now.claims)) first) }
{
    let found = first_starts(alloc, sheet, 1)?;
    Ok(found.first().copied())
}

// The least rule that is broken, and the first subject that breaks it.
fn least(alloc: Global, sheet: &Sheet) -> Result<Option<(usize, usize)>, AllocError>
    ensures { IfOk result (λ least. IsLeast (KeepsAt sheet.now.design sheet.now.claims) 11
        (length (subjects sheet.now.design sheet.now.claims)) least) }
{
    match judge(alloc, sheet)? {
        Some(least) => Ok(Some(least)),
        None => match first_start(alloc, sheet)? {
            None => Ok(None),
            Some(i) => Ok(Some((BEFORE, i))),
        },
    }
}

// The verdict that the least broken rule and the first subject that breaks it are.
fn verdict_of(
    alloc: Global,
    sheet: &Sheet,
    least: Option<(usize, usize)>,
) -> Result<Verdict, AllocError>
    requires { IsLeast (KeepsAt sheet.now.design sheet.now.claims) 11 (length (subjects sheet.now.design sheet.now.claims)) least }
    ensures { IfOk result (λ v. IsVerdictOn sheet.now.design sheet.now.claims v) }
{
    least_is_verdict();
    match least {
        None => Ok(Verdict::Yes),
        Some((rule, i)) => {
            let place = Vec::from_slice(alloc, sheet.name(i))?;
            Ok(Verdict::No(rule as u8 + 1, place))
        }
    }
}

// For each process whether it is claimed to be a combinational block.
fn block_marks(alloc: Global, facts: &Facts) -> Result<Vec<bool>, AllocError>
    ensures { IfOk result (λ marks. marks.items ≡ marks_of facts.now.design facts.now.claims) }
{
    let mut marks = Vec::new(alloc);
    for i in 0..facts.design().processes().len() {
        marks.push(facts.is_block(i))?;
    }
    Ok(marks)
}

// The verdict, by all tables.
fn by_sheet(alloc: Global, sheet: &Sheet, most: usize) -> Result<VerdictReport, AllocError>
    ensures { IfOk result (λ t. IsReport sheet.now.design sheet.now.claims most t) }
{
    let least = least(alloc, sheet)?;
    let verdict = verdict_of(alloc, sheet, least)?;
    let broken = all_broken(alloc, sheet, least, most)?;
    Ok(VerdictReport { verdict, broken })
}

// The verdict, by the drivers of a design and the entries of its certificate.
fn by_entries<'x>(
    alloc: Global,
    facts: &'x Facts<'x>,
    cones: &'x Cones<'x>,
    copies: &'x Copies<'x>,
    inverted: &'x [bool],
    entries: &'x Entries<'x>,
    most: usize,
) -> Result<VerdictReport, AllocError>
    requires cones { IsWiringOf facts.now.design facts.now.claims cones.now }
    requires copies { copies.now ≡ facts.now.design }
    requires inverted { AreInverted facts.now.design (is_wide facts.now.claims) inverted.now }
    requires entries { entries.now ≡ facts.now }
    ensures { IfOk result (λ t. IsReport facts.entry.now.design facts.entry.now.claims most t) }
{
    let first_writes = FirstWrites::of(entries, inverted);
    let slots = Slots::new(alloc, facts, inverted)?;
    let classes = WriteClasses::of(alloc, &slots, cones)?;
    let first_slot = FirstSlot::new(alloc, facts, cones)?;
    let subjects = all_subjects(alloc, facts)?;
    let sheet = Sheet {
        facts: &*facts,
        cones: &*cones,
        copies: &*copies,
        entries: &*entries,
        first_writes: &first_writes,
        slots: &slots,
        classes: &classes,
        first_slot: &first_slot,
        subjects: &subjects,
    };
    by_sheet(alloc, &sheet, most)
}

// The verdict, by the facts of a design and its certificate.
fn by_facts<'x>(
    alloc: Global,
    facts: &'x Facts<'x>,
    most: usize,
) -> Result<VerdictReport, AllocError>
    ensures { IfOk result (λ t. IsReport facts.entry.now.design facts.entry.now.claims most t) }
{
    facts.maps();
    let design = facts.design();
    let marks = block_marks(alloc, facts)?;
    let cones = Cones::new(alloc, facts.sites(), &marks)?;
    let copies = Copies::of(alloc, design)?;
    let inverted = copies.inverted(alloc, facts.is_wide())?;
    let entries = Entries::of(alloc, facts)?;
    by_entries(alloc, &*facts, &cones, &copies, &inverted, &entries, most)
}

// The verdict, by the tables of the processes.
fn by_processes<'x>(
    alloc: Global,
    design: &'x Design,
    certificate: &'x Certificate,
    tables: &'x [Tables<'x>],
    most: usize,
) -> Result<VerdictReport, AllocError>
    requires maps { AreCharts design.now tables.now }
    requires certificate { IsWideCertificate (claims_of certificate.now) }
    ensures { IfOk result (λ t. IsReport design.entry.now (claims_of certificate.entry.now) most t) }
{
    let facts = Facts::new(alloc, design, certificate, tables)?;
    by_facts(alloc, &facts, most)
}

// The verdict, by the maps of the texts of the processes.
fn by_texts<'x>(
    alloc: Global,
    design: &'x Design,
    certificate: &'x Certificate,
    texts: &'x [TextMap<'x>],
    most: usize,
) -> Result<VerdictReport, AllocError>
    requires maps { AreCharts design.now (map chart_of texts.now) }
    requires certificate { IsWideCertificate (claims_of certificate.now) }
    ensures { IfOk result (λ t. IsReport design.entry.now (claims_of certificate.entry.now) most t) }
{
    let tables = tables(alloc, design, texts)?;
    by_processes(alloc, &*design, &*certificate, &tables, most)
}

// The verdict, by the codes of the processes.
fn by_codes<'x>(
    alloc: Global,
    design: &Design,
    certificate: &Certificate,
    codes: &'x [Code<'x>],
    most: usize,
) -> Result<VerdictReport, AllocError>
    requires codes { codes.now ≡ bodies design.now.processes }
    requires certificate { IsWideCertificate (claims_of certificate.now) }
    ensures { IfOk result (λ t. IsReport design.entry.now (claims_of certificate.entry.now) most t) }
{
    let texts = texts(alloc, design, codes)?;
    by_texts(alloc, &*design, &*certificate, &texts, most)
}

// The same, of codes that are lent for a shorter time than what they are made of.
fn by_borrowed_codes(
    alloc: Global,
    design: &Design,
    certificate: &Certificate,
    codes: &[Code],
    most: usize,
) -> Result<VerdictReport, AllocError>
    requires codes { codes.now ≡ bodies design.now.processes }
    requires certificate { IsWideCertificate (claims_of certificate.now) }
    ensures { IfOk result (λ t. IsReport design.entry.now (claims_of certificate.entry.now) most t) }
{
    by_codes(alloc, design, certificate, &*codes, most)
}

// The verdict, by the design.
fn by_design(
    alloc: Global,
    design: &Design,
    certificate: &Certificate,
    most: usize,
) -> Result<VerdictReport, AllocError>
    requires certificate { IsWideCertificate (claims_of certificate.now) }
    ensures { IfOk result (λ t. IsReport design.entry.now (claims_of certificate.entry.now) most t) }
{
    let codes = codes(alloc, design)?;
    by_borrowed_codes(alloc, design, certificate, &codes, most)
}

// What the rules of a design that keeps them all are for.
fn tell_meaning(design: &Design, certificate: &Certificate, verdict: &Verdict)
    requires { IsVerdict design.now (claims_of certificate.now) (verdict_view verdict.now) }
    ensures { Means design.now (claims_of certificate.now) verdict.now }
{
    design.is_well_formed();
    rules_make_independent();
    rules_make_displays_alike();
    let _ = certificate;
    let _ = verdict;
}

/// The verdict on a certificate of a design, of version 3 too: `Yes` exactly where the design keeps all rules K1 to K11; else the least rule that it
/// breaks, and the first subject that breaks it: signals, continuous assignments and processes, each in design order, and then the names of the
/// certificate's lists. No test of the certificate's form and limits may fail (C2 to C4), which its reader answers for. Where the verdict is `Yes`,
/// the traces of the design's executions at the certificate's grain do not depend on the order of their steps (IEEE 1364-2005, clause 11.4.2). It
/// runs no schedule, and of a block of start `cold` at most 10,000 steps of that block alone.
pub fn check_wide(
    alloc: Global,
    design: &Design,
    certificate: &Certificate,
) -> Result<Verdict, AllocError>
    requires sound { IsSoundWide (value_of certificate.now) }
    ensures exact { IfOk result (λ v. IsVerdict design.entry.now (claims_of certificate.entry.now) (verdict_view v)) }
    ensures numbered { IfOk result (λ v. HasNumber v) }
    ensures meaning { IfOk result (λ v. Means design.entry.now (claims_of certificate.entry.now) v) }
{
    tested_are_wide_certificates();
    let VerdictReport { verdict, broken: _ } = by_design(alloc, design, certificate, 0)?;
    tell_meaning(design, certificate, &verdict);
    Ok(verdict)
}

/// The same, of a certificate of version 1 or 2.
pub fn check(
    alloc: Global,
    design: &Design,
    certificate: &Certificate,
) -> Result<Verdict, AllocError>
    requires sound { IsSound (value_of certificate.now) }
    ensures exact { IfOk result (λ v. IsVerdict design.entry.now (claims_of certificate.entry.now) (verdict_view v)) }
    ensures numbered { IfOk result (λ v. HasNumber v) }
    ensures meaning { IfOk result (λ v. Means design.entry.now (claims_of certificate.entry.now) v) }
{
    check_wide(alloc, design, certificate)
}

/// The same, of a certificate of a version that is read by these rules.
pub fn check_by(
    alloc: Global,
    design: &Design,
    rules: Rules,
    certificate: &Certificate,
) -> Result<Verdict, AllocError>
    requires sound { IsSoundBy (other_by rules) (value_of certificate.now) }
    ensures exact { IfOk result (λ v. IsVerdict design.entry.now (claims_of certificate.entry.now) (verdict_view v)) }
    ensures numbered { IfOk result (λ v. HasNumber v) }
    ensures meaning { IfOk result (λ v. Means design.entry.now (claims_of certificate.entry.now) v) }
{
    let _ = rules;
    check_wide(alloc, design, certificate)
}

/// The verdict on a certificate of a design, as `check_wide` gives it, and the first subjects that break rules, at most so many: by the rules,
/// and then in the order of subjects. The rule K11 is asked where no other one is broken. It takes as long as a `Yes`.
pub fn check_all_wide(
    alloc: Global,
    design: &Design,
    certificate: &Certificate,
    most: usize,
) -> Result<VerdictReport, AllocError>
    requires sound { IsSoundWide (value_of certificate.now) }
    ensures exact { IfOk result (λ t. IsVerdict design.entry.now (claims_of certificate.entry.now) (verdict_view t.verdict)) }
    ensures numbered { IfOk result (λ t. HasNumber t.verdict) }
    ensures broken { IfOk result (λ t. IsBrokenList design.entry.now (claims_of certificate.entry.now) most t.broken.items) }
{
    tested_are_wide_certificates();
    by_design(alloc, design, certificate, most)
}

/// The same, of a certificate of version 1 or 2.
pub fn check_all(
    alloc: Global,
    design: &Design,
    certificate: &Certificate,
    most: usize,
) -> Result<VerdictReport, AllocError>
    requires sound { IsSound (value_of certificate.now) }
    ensures exact { IfOk result (λ t. IsVerdict design.entry.now (claims_of certificate.entry.now) (verdict_view t.verdict)) }
    ensures numbered { IfOk result (λ t. HasNumber t.verdict) }
    ensures broken { IfOk result (λ t. IsBrokenList design.entry.now (claims_of certificate.entry.now) most t.broken.items) }
{
    check_all_wide(alloc, design, certificate, most)
}

/// The same, of a certificate of a version that is read by these rules.
pub fn check_all_by(
    alloc: Global,
    design: &Design,
    rules: Rules,
    certificate: &Certificate,
    most: usize,
) -> Result<VerdictReport, AllocError>
    requires sound { IsSoundBy (other_by rules) (value_of certificate.now) }
    ensures exact { IfOk result (λ t. IsVerdict design.entry.now (claims_of certificate.entry.now) (verdict_view t.verdict)) }
    ensures numbered { IfOk result (λ t. HasNumber t.verdict) }
    ensures broken { IfOk result (λ t. IsBrokenList design.entry.now (claims_of certificate.entry.now) most t.broken.items) }
{
    let _ = rules;
    check_all_wide(alloc, design, certificate, most)
}
