//! What a call does with the bytes of its input.
ghost use Rattle.std.specs.Prelude.{◌≡◌, IfOk, IfErr, OnOk, true, false};
ghost use Rattle.std.specs.Io.KnownBytes.{Appends};
ghost use Rattle.vs_sign_off.specs.Certified.{CertifyingFailsBy, is_before_run};
ghost use Rattle.vs_sign_off.specs.vs_simulate.specs.Honesty.{SimulationFails, is_refusal};
ghost use Rattle.vs_sign_off.specs.vs_simulate.specs.declared.fault.SimFault.TheVariants.{Run};
ghost use Rattle.vs_sign_off.specs.vs_kernel.specs.declared.outcome.RunFault.TheVariants.{Write};
ghost use Rattle.vs_sign_off.specs.vs_vcd_writing.specs.Sinks.{AppendsPart};
ghost use Rattle.vs_program.specs.Ends.{CallFails, CheckingFails, MakingFails, texts_of};
ghost use Rattle.vs_program.specs.Ends.{HasWritten, Wrote, WroteCertified, WroteProposal, WroteVerdict};
ghost use Rattle.vs_program.specs.Ends.{HasBegunCertifiedText, HasBegunProposal, HasBegunText, HasBegunVerdict, HasBegunWriting};
ghost use Rattle.vs_program.specs.Races.{HasBegunRace, WroteRace};

use crate::certifying::proposed;
use crate::choosing::choice_items;
use crate::input::Kept;
use crate::racing::{tell_race, tell_race_pair};
use crate::texts::verdict_line;
use crate::writing::Dumps;
use std::alloc::Global;
use vs_preprocess::Places;
use vs_program_words::vs_certificate::{ClaimedGrain, Rules};
use vs_program_words::{Call, Choice, Hunt, Order, OutputText, Outputs, Request, Subcommand};
use vs_run_steps::Dropped;
use vs_sign_off::vs_cert_check::Verdict;
use vs_sign_off::vs_kernel::{Outcome, RunFault};
use vs_sign_off::vs_propose::Proposal;
use vs_sign_off::vs_simulate::{Policy, SimFault, list_design, simulate};
use vs_sign_off::vs_vcd_writing::{Sink, WriteFault, write_all};
use vs_sign_off::{CertifiedFault, Race, Watch, certified_by, judge_by};

/// What a call did.
#[derive(Drop)]
pub enum Done {
    /// A design ran, and ended so.
    Ran(Outcome),
    /// A verdict was told.
    Judged(Verdict),
    /// What is proposed was told.
    Proposed(Proposal),
    /// A race was sought.
    Raced(Race),
    /// A design was listed.
    Listed,
    /// The text of files was written.
    Preprocessed,
}

// The policy of an order, which may list choices.
fn policy_of<'v>(order: Order, choices: &'v [usize]) -> Policy<'v> {
    match order {
        Order::Fifo => Policy::Fifo,
        Order::Lifo => Policy::Lifo,
        Order::Listed => Policy::Listed(choices),
    }
}

/// Which texts of a run are written, and where.
#[derive(Clone, Copy)]
pub(crate) enum Texts {
    /// The lines alone, or the dump alone.
    One(OutputText),
    /// The lines, and the dump beside them.
    Both,
}

/// The texts that a call asks for.
pub(crate) fn texts_of(request: Request, outputs: &Outputs) -> Texts
    ensures { result ≡ texts_of request.entry.text outputs.now.dump }
{
    match outputs.dump {
        Some(_) => Texts::Both,
        None => Texts::One(request.text),
    }
}

// Runs a source; the text that was asked for goes to the sink, and where both are asked for the dump to the other one.
fn run_source<'s, S: Sink, V: Sink>(
    alloc: Global,
    request: Request,
    texts: Texts,
    choices: &[Choice],
    source: &'s [u8],
    shown: &mut S,
    dump: &mut V,
) -> Result<Outcome, SimFault<'s>>
    ensures ok { IfOk result (λ outcome. Wrote texts source.entry.now request.entry
        outcome (S.bytes shown.old) (S.bytes shown.new) (V.bytes dump.old) (V.bytes dump.new)) }
    ensures err { IfErr result (λ fault. SimulationFails source.entry.now request.entry.top.now fault) }
    ensures refused { IfErr result (λ fault. is_refusal fault ≡ true → (shown.new ≡ shown.old) × (dump.new ≡ dump.old)) }
    ensures begun { IfErr result (λ fault. is_refusal fault ≡ false →
        HasBegunText texts source.entry.now request.entry (S.bytes shown.old) (S.bytes shown.new) (V.bytes dump.old) (V.bytes dump.new)) }
{
    let mut dropped = Dropped;
    let top = request.top.as_bytes();
    let (until, steps) = (request.until.count, request.steps.count);
    let choices = choice_items(alloc, choices, steps)?;
    let policy = policy_of(request.order, &choices);
    match texts {
        Texts::Both => simulate(alloc, source, top, until, steps, &policy, dump, shown),
        Texts::One(OutputText::Dump) => simulate(
            alloc,
            source,
            top,
            until,
            steps,
            &policy,
            shown,
            &mut dropped,
        ),
        Texts::One(OutputText::Lines) => simulate(
            alloc,
            source,
            top,
            until,
            steps,
            &policy,
            &mut dropped,
            shown,
        ),
    }
}

// Runs a design whose certificate is accepted; the text that was asked for goes to the sink, and where both are asked for the dump to the other one.
fn run_certified<'s, S: Sink, V: Sink>(
    alloc: Global,
    request: Request,
    texts: Texts,
    source: &'s [u8],
    certificate: &[u8],
    shown: &mut S,
    dump: &mut V,
) -> Result<Outcome, CertifiedFault<'s>>
    ensures ok { IfOk result (λ outcome. WroteCertified texts source.entry.now certificate.now request.entry
        outcome (S.bytes shown.old) (S.bytes shown.new) (V.bytes dump.old) (V.bytes dump.new)) }
    ensures err { IfErr result (λ fault.
        CertifyingFailsBy request.entry.rules source.entry.now request.entry.top.now certificate.now fault) }
    ensures refused { IfErr result (λ fault. is_before_run fault ≡ true → (shown.new ≡ shown.old) × (dump.new ≡ dump.old)) }
    ensures begun { IfErr result (λ fault. is_before_run fault ≡ false →
        HasBegunCertifiedText texts source.entry.now certificate.now request.entry
        (S.bytes shown.old) (S.bytes shown.new) (V.bytes dump.old) (V.bytes dump.new)) }
{
    let mut dropped = Dropped;
    let Request {
        top,
        until,
        steps,
        order: _,
        text: _,
        rules,
    } = request;
    match texts {
        Texts::Both => certified_by(
            alloc,
            rules,
            source,
            top.as_bytes(),
            certificate,
            until.count,
            steps.count,
            dump,
            shown,
        ),
        Texts::One(OutputText::Dump) => certified_by(
            alloc,
            rules,
            source,
            top.as_bytes(),
            certificate,
            until.count,
            steps.count,
            shown,
            &mut dropped,
        ),
        Texts::One(OutputText::Lines) => certified_by(
            alloc,
            rules,
            source,
            top.as_bytes(),
            certificate,
            until.count,
            steps.count,
            &mut dropped,
            shown,
        ),
    }
}

/// Writes a line to the sink.
pub(crate) fn show<'s, S: Sink>(shown: &mut S, line: &[u8]) -> Result<(), SimFault<'s>>
    ensures ok { OnOk result (Appends (S.bytes shown.old) (S.bytes shown.new) line.now) }
    ensures err { IfErr result (λ fault. (fault ≡ Run Write) × AppendsPart (S.bytes shown.old) (S.bytes shown.new) line.now) }
{
    match write_all(shown, line) {
        Ok(()) => Ok(()),
        Err(WriteFault) => Err(SimFault::Run(RunFault::Write)),
    }
}

// Judges a certificate; the line of the verdict goes to the sink.
fn tell_verdict<'s, S: Sink>(
    alloc: Global,
    rules: Rules,
    top: &str,
    source: &'s [u8],
    certificate: &[u8],
    shown: &mut S,
) -> Result<Verdict, CertifiedFault<'s>>
    ensures ok { IfOk result (λ v. WroteVerdict rules source.entry.now top.now certificate.now v (S.bytes shown.old) (S.bytes shown.new)) }
    ensures err { IfErr result (λ fault. CheckingFails rules source.entry.now top.now certificate.now fault) }
    ensures refused { IfErr result (λ fault. is_before_run fault ≡ true → shown.new ≡ shown.old) }
    ensures begun { IfErr result (λ fault. is_before_run fault ≡ false →
        HasBegunVerdict rules source.entry.now top.now certificate.now (S.bytes shown.old) (S.bytes shown.new)) }
{
    let verdict = judge_by(alloc, rules, source, top.as_bytes(), certificate)?;
    let line = verdict_line(alloc, &verdict)?;
    show(shown, &line)?;
    Ok(verdict)
}

// Proposes a certificate; its line, or that of why there is none, goes to the sink.
fn tell_proposal<'s, S: Sink>(
    alloc: Global,
    rules: Rules,
    top: &str,
    grain: ClaimedGrain,
    source: &'s [u8],
    shown: &mut S,
) -> Result<Proposal, CertifiedFault<'s>>
    ensures ok { IfOk result (λ p. WroteProposal rules source.entry.now top.now grain p (S.bytes shown.old) (S.bytes shown.new)) }
    ensures err { IfErr result (λ fault. MakingFails rules source.entry.now top.now grain fault) }
    ensures refused { IfErr result (λ fault. is_before_run fault ≡ true → shown.new ≡ shown.old) }
    ensures begun { IfErr result (λ fault. is_before_run fault ≡ false →
        HasBegunProposal rules source.entry.now top.now grain (S.bytes shown.old) (S.bytes shown.new)) }
{
    let found = proposed(alloc, rules, top, grain, source)?;
    show(shown, &found.line)?;
    Ok(found.proposal)
}

// Looks for a race; what is told of it goes to the sink, and the two dumps, where they are asked for, to theirs.
fn seek_race<'s, S: Sink, V: Sink, W: Watch>(
    alloc: Global,
    call: &Call,
    hunt: Hunt,
    kept: &'s Kept,
    shown: &mut S,
    dumps: &mut Dumps<V>,
    watch: &mut W,
) -> Result<Race, SimFault<'s>>
    ensures ok { IfOk result (λ r.
        WroteRace hunt.entry.rules kept.entry.now.source.items hunt.entry.top.now r (S.bytes shown.old) (S.bytes shown.new)) }
    ensures err { IfErr result (λ fault. SimulationFails kept.entry.now.source.items hunt.entry.top.now fault) }
    ensures refused { IfErr result (λ fault. is_refusal fault ≡ true → (shown.new ≡ shown.old) × (dumps.new ≡ dumps.old)) }
    ensures begun { IfErr result (λ fault. is_refusal fault ≡ false →
        HasBegunRace hunt.entry.rules kept.entry.now.source.items hunt.entry.top.now (S.bytes shown.old) (S.bytes shown.new)) }
{
    let source = kept.source.as_slice();
    let places = kept.places.as_ref();
    match call.outputs.pair {
        None => tell_race(alloc, hunt, source, call, places, shown, watch),
        Some(_) => tell_race_pair(
            alloc,
            hunt,
            source,
            call,
            places,
            shown,
            &mut dumps.first,
            &mut dumps.other,
            watch,
        ),
    }
}

/// Does what a call asks for; its text goes to the sink, and dumps that go to files to theirs.
pub(crate) fn do_call<'s, S: Sink, V: Sink, W: Watch>(
    alloc: Global,
    call: &Call,
    kept: &'s Kept,
    shown: &mut S,
    dumps: &mut Dumps<V>,
    watch: &mut W,
) -> Result<Done, CertifiedFault<'s>>
    ensures ok { IfOk result (λ done.
        HasWritten kept.entry.now.source.items kept.entry.now.certificate.items call.now.outputs call.now.subcommand done
        (S.bytes shown.old) (S.bytes shown.new) (V.bytes dumps.old.first) (V.bytes dumps.new.first)) }
    ensures err { IfErr result (λ fault.
        CallFails kept.entry.now.source.items kept.entry.now.certificate.items call.now.subcommand fault) }
    ensures refused { IfErr result (λ fault. is_before_run fault ≡ true → (shown.new ≡ shown.old) × (dumps.new ≡ dumps.old)) }
    ensures begun { IfErr result (λ fault. is_before_run fault ≡ false →
        HasBegunWriting kept.entry.now.source.items kept.entry.now.certificate.items call.now.outputs call.now.subcommand
        (S.bytes shown.old) (S.bytes shown.new) (V.bytes dumps.old.first) (V.bytes dumps.new.first)) }
{
    let (source, certificate) = (kept.source.as_slice(), kept.certificate.as_slice());
    match call.subcommand {
        Subcommand::Run(request) => {
            let texts = texts_of(request, &call.outputs);
            let choices = &call.choices;
            let dump = &mut dumps.first;
            let outcome = run_source(alloc, request, texts, choices, source, shown, dump)?;
            Ok(Done::Ran(outcome))
        }
        Subcommand::RunCertified(request) => {
            let texts = texts_of(request, &call.outputs);
            let dump = &mut dumps.first;
            let outcome = run_certified(alloc, request, texts, source, certificate, shown, dump)?;
            Ok(Done::Ran(outcome))
        }
        Subcommand::Check(top, rules) => {
            let verdict = tell_verdict(alloc, rules, top, source, certificate, shown)?;
            Ok(Done::Judged(verdict))
        }
        Subcommand::Certify(top, grain, rules) => {
            let proposal = tell_proposal(alloc, rules, top, grain, source, shown)?;
            Ok(Done::Proposed(proposal))
        }
        Subcommand::Race(hunt) => {
            let race = seek_race(alloc, call, hunt, kept, shown, dumps, watch)?;
            Ok(Done::Raced(race))
        }
        Subcommand::Elab(top) => {
            list_design(alloc, source, top.as_bytes(), shown)?;
            Ok(Done::Listed)
        }
        Subcommand::Preprocess => {
            show(shown, source)?;
            Ok(Done::Preprocessed)
        }
    }
}
