//! The search for a certificate.
ghost use Rattle.std.specs.Prelude.{◌≡◌, [], IfOk, IfSome, IsSome};
ghost use Rattle.vs_cert_check.specs.Answers.{verdict_view, HasNumber};
ghost use Rattle.vs_certificate.specs.JsonValue.{value_of};
ghost use Rattle.vs_certificate.specs.Reading.{IsSoundBy, other_by};
ghost use Rattle.vs_propose.specs.Settling.{CanSettle};
ghost use Rattle.vs_cert_check.specs.vs_rules.specs.Certificates.{claims_of};
ghost use Rattle.vs_cert_check.specs.vs_rules.specs.Verdict.{Disciplined, IsVerdict};
ghost use Rattle.vs_propose.specs.Proposals.{IsMadeBy, IsProposal, IsProposalBy, MayBeProposalBy, AnswersMade, HasMade};

use crate::proposal::{Proposal, Refusal};
use crate::{Plan, certificate_of, certificate_of_assigns, moduli_of, plan_of};
use std::alloc::{AllocError, Global};
use vs_cert_check::vs_rules::tested_are_certificates;
use vs_cert_check::{Verdict, check_by};
use vs_certificate::{Certificate, ClaimedGrain, Rules, Version};
use vs_design::Design;

// What the verdict on a certificate comes to.
fn proposal_of(
    design: &Design,
    rules: Rules,
    grain: ClaimedGrain,
    certificate: Certificate,
    verdict: Verdict,
) -> Proposal
    requires grain { certificate.grain ≡ grain }
    requires sound { IsSoundBy (other_by rules) (value_of certificate) }
    requires verdict { IsVerdict design.now (claims_of certificate) (verdict_view verdict) }
    requires numbered { HasNumber verdict }
    ensures is { IsProposalBy rules design.now grain result }
    ensures made { Disciplined design.now (claims_of certificate) → AnswersMade result }
{
    let _ = design;
    let _ = rules;
    let _ = grain;
    match verdict {
        Verdict::Yes => Proposal::Made(certificate),
        Verdict::No(number, place) => Proposal::NotMade(Refusal {
            certificate,
            number,
            place,
        }),
    }
}

// What the checker says of a certificate; nothing, where a test of its form or its limits fails.
fn tried(
    alloc: Global,
    design: &Design,
    rules: Rules,
    grain: ClaimedGrain,
    certificate: Certificate,
) -> Result<Option<Proposal>, AllocError>
    requires { certificate.grain ≡ grain }
    ensures is { IfOk result (MayBeProposalBy rules design.now grain) }
    ensures some { IsSoundBy (other_by rules) (value_of certificate) → IfOk result IsSome }
    ensures made { IsSoundBy (other_by rules) (value_of certificate) → Disciplined design.now (claims_of certificate) →
        IfOk result HasMade }
{
    if !certificate.is_sound_by(rules) {
        return Ok(None);
    }
    let verdict = check_by(alloc, design, rules, &certificate)?;
    Ok(Some(proposal_of(design, rules, grain, certificate, verdict)))
}

// What it says of the certificate of a plan, by a modulus; nothing, where that has none.
fn tried_by(
    alloc: Global,
    design: &Design,
    plan: &Plan,
    rules: Rules,
    grain: ClaimedGrain,
    modulus: u64,
) -> Result<Option<Proposal>, AllocError>
    ensures { IfOk result (MayBeProposalBy rules design.now grain) }
{
    match certificate_of(alloc, design, plan, grain, modulus)? {
        None => Ok(None),
        Some(certificate) => tried(alloc, design, rules, grain, certificate),
    }
}

// A certificate that claims nothing, of a version that is read by any rules.
fn no_claims(alloc: Global, rules: Rules, grain: ClaimedGrain) -> Certificate
    ensures grain { result.grain ≡ grain }
    ensures sound { IsSoundBy (other_by rules) (value_of result) }
{
    let _ = rules;
    Certificate {
        version: Version::One,
        grain,
        modulus: 1,
        edges: Vec::new(alloc),
        order: Vec::new(alloc),
        processes: Vec::new(alloc),
        signals: Vec::new(alloc),
    }
}

// What the checker says of a certificate that claims nothing.
fn tried_without_claims(
    alloc: Global,
    design: &Design,
    rules: Rules,
    grain: ClaimedGrain,
) -> Result<Proposal, AllocError>
    ensures { IfOk result (IsProposalBy rules design.now grain) }
{
    match tried(alloc, design, rules, grain, no_claims(alloc, rules, grain))? {
        Some(proposal) => Ok(proposal),
        None => unreachable!(),
    }
}

// How good a proposal is: the number of the rule that is broken, or one above all.
fn rank(proposal: &Proposal) -> u8 {
    match proposal {
        Proposal::Made(_) => u8::MAX,
        Proposal::NotMade(refusal) => refusal.number,
    }
}

// Whether another modulus may give a better proposal. The rules K7 to K9 alone speak of residues, and a plan breaks K8 by each modulus or by none:
// its lists have the residues at which its delays can end.
fn may_improve(proposal: &Proposal) -> bool {
    let number = rank(proposal);
    number == 7 || number == 9
}

// The better one of two proposals, the first of two that are as good as each other.
fn better(
    design: &Design,
    rules: Rules,
    grain: ClaimedGrain,
    best: Option<Proposal>,
    other: Proposal,
) -> Proposal
    requires best { MayBeProposalBy rules design.now grain best }
    requires other { IsProposalBy rules design.now grain other }
    ensures { IsProposalBy rules design.now grain result }
{
    let _ = design;
    let _ = rules;
    let _ = grain;
    match best {
        None => other,
        Some(proposal) => {
            if rank(&other) > rank(&proposal) {
                other
            } else {
                proposal
            }
        }
    }
}

// The best of what the checker says of the certificates of a plan by some moduli, which are tried in order until no other one may be better.
fn best_of(
    alloc: Global,
    design: &Design,
    plan: &Plan,
    rules: Rules,
    grain: ClaimedGrain,
    moduli: &[u64],
) -> Result<Option<Proposal>, AllocError>
    ensures { IfOk result (MayBeProposalBy rules design.now grain) }
{
    let mut best = None;
    for modulus in moduli {
        if let Some(proposal) = tried_by(alloc, design, plan, rules, grain, *modulus)? {
            let goes_on = may_improve(&proposal);
            best = Some(better(design, rules, grain, best, proposal));
            if !goes_on {
                return Ok(best);
            }
        }
    }
    Ok(best)
}

// What the checker says of the certificates of a plan, which is for versions 1 and 2 (narrow), or for version 3 (wide).
fn searched(
    alloc: Global,
    design: &Design,
    rules: Rules,
    grain: ClaimedGrain,
    versions: Rules,
) -> Result<Proposal, AllocError>
    ensures { IfOk result (IsProposalBy rules design.now grain) }
{
    let plan = plan_of(alloc, design, versions)?;
    let moduli = moduli_of(alloc, design, &plan)?;
    match best_of(alloc, design, &plan, rules, grain, &moduli)? {
        Some(best) => Ok(best),
        None => tried_without_claims(alloc, design, rules, grain),
    }
}

// What the checker says of certificates of version 3, or a proposal of versions 1 and 2 that isn't made, where that is better. Where K8 is broken in
// versions 1 and 2, as by a process that waits for times and for edges, it is what version 3 breaks, which has a kind for that, where that claims
// anything.
fn widened(
    alloc: Global,
    design: &Design,
    rules: Rules,
    grain: ClaimedGrain,
    narrow: Proposal,
) -> Result<Proposal, AllocError>
    requires { IsProposalBy rules design.now grain narrow }
    ensures { IfOk result (IsProposalBy rules design.now grain) }
{
    if matches!(&narrow, Proposal::Made(_)) {
        return Ok(narrow);
    }
    let wide = searched(alloc, design, rules, grain, Rules::Wide)?;
    if rank(&narrow) == 8 && rank(&wide) > 1 {
        return Ok(wide);
    }
    Ok(better(design, rules, grain, Some(wide), narrow))
}

// What the checker says of the certificates of plans: of versions 1 and 2, and where none of them is made, of version 3 too where the rules have it.
fn searched_by(
    alloc: Global,
    design: &Design,
    rules: Rules,
    grain: ClaimedGrain,
) -> Result<Proposal, AllocError>
    ensures { IfOk result (IsProposalBy rules design.now grain) }
{
    let narrow = searched(alloc, design, rules, grain, Rules::Narrow)?;
    match rules {
        Rules::Narrow => Ok(narrow),
        Rules::Wide => widened(alloc, design, rules, grain, narrow),
    }
}

// What the checker says of the certificate of a design without processes by which its continuous assignments settle.
fn tried_by_assigns(
    alloc: Global,
    design: &Design,
    rules: Rules,
    grain: ClaimedGrain,
) -> Result<Option<Proposal>, AllocError>
    requires { design.now.processes ≡ [] }
    ensures is { IfOk result (MayBeProposalBy rules design.now grain) }
    ensures made { CanSettle design.now → IfOk result HasMade }
{
    tested_are_certificates();
    let certificate = certificate_of_assigns(alloc, design, grain)?;
    tried(alloc, design, rules, grain, certificate)
}

// The certificate that is proposed of a design without processes, where its continuous assignments settle.
fn settled(
    alloc: Global,
    design: &Design,
    rules: Rules,
    grain: ClaimedGrain,
) -> Result<Option<Certificate>, AllocError>
    ensures is { IfOk result (λ o. IfSome o (IsMadeBy rules design.now grain)) }
    ensures some { CanSettle design.now → IfOk result IsSome }
{
    if !design.processes().is_empty() {
        return Ok(None);
    }
    match tried_by_assigns(alloc, design, rules, grain)? {
        Some(Proposal::Made(certificate)) => Ok(Some(certificate)),
        _ => Ok(None),
    }
}

/// A certificate of a grain for a design, of a version that is read by these rules, where one is found. By narrow rules it is what `propose` answers.
/// By wide ones that is tried first, so that one of version 3 is made only where none of version 1 or 2 is found: then it makes a plan of what
/// version 3 has besides, and tries it in the same way. Of two refusals it answers the one of the rule with the greater number, and of two of one
/// rule that of version 3, which asks less; but where that of version 1 or 2 is K8, the one of version 3.
pub fn propose_by(
    alloc: Global,
    design: &Design,
    rules: Rules,
    grain: ClaimedGrain,
) -> Result<Proposal, AllocError>
    ensures is { IfOk result (IsProposalBy rules design.now grain) }
    ensures complete { CanSettle design.now → IfOk result AnswersMade }
{
    match settled(alloc, design, rules, grain)? {
        Some(certificate) => Ok(Proposal::Made(certificate)),
        None => searched_by(alloc, design, rules, grain),
    }
}

/// A certificate of a grain for a design, where one is found: `Made` with one under which the design keeps all rules K1 to K11, of which no test of
/// C2 to C4 fails; else the best one that was tried, with the verdict on it. Of a design without processes it finds one wherever there is one:
/// wherever its names, and an order of its continuous assignments, keep the rules K1 and K4 under some certificate of which no such test fails. (Such
/// a certificate has at most 65,536 signals, and as many continuous assignments.) Of other designs it need not find one where there is one. It makes
/// a plan of who writes each signal and how, of what runs each process and of an order in which drivers settle, and tries it by moduli, as long as
/// these are what holds it back: each takes as long as one verdict. At most 40 are suggested by the delays of the texts; up to 200 more are tried of
/// a small design, and of a large one as many as look at half a million places of texts, signals and continuous assignments in all.
pub fn propose(alloc: Global, design: &Design, grain: ClaimedGrain) -> Result<Proposal, AllocError>
    ensures is { IfOk result (IsProposal design.now grain) }
    ensures complete { CanSettle design.now → IfOk result AnswersMade }
{
    propose_by(alloc, design, Rules::Narrow, grain)
}
