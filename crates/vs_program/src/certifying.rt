//! Certificates that a call makes.
ghost use Rattle.std.specs.Prelude.{◌≡◌, ◌⊎◌, ℕ, List, [], IfOk, IfErr, true};
ghost use Rattle.vs_sign_off.specs.Certified.{is_before_run};
ghost use Rattle.vs_program.specs.Ends.{MakingFails, done_status, held_of};
ghost use Rattle.vs_program.specs.passes.Proposing.{HasProposed, WroteLine};

use crate::command::Writers;
use crate::doing::Done;
use crate::input::Kept;
use crate::telling::{tell, tell_done, write_whole};
use crate::texts::{FAILED, is_too_long, proposal_line};
use crate::writing::{Place, tell_write};
use std::alloc::Global;
use std::io::Write;
use vs_outputs::{Late, OutputFile};
use vs_program_words::Call;
use vs_program_words::vs_certificate::{CertFault, ClaimedGrain, Rules, written_reads_back};
use vs_sign_off::CertifiedFault;
use vs_sign_off::vs_propose::{Proposal, propose_by};
use vs_sign_off::vs_simulate::design_of;

/// What is proposed, and its line.
#[derive(Drop)]
pub(crate) struct ProposalLine {
    pub(crate) proposal: Proposal,
    pub(crate) line: Vec<u8>,
}

/// Proposes a certificate. One whose text is longer than one that is read is refused.
#[tactic(auto, using(crate::proofs::Proposing::reads_back))]
pub(crate) fn proposed<'s>(
    alloc: Global,
    rules: Rules,
    top: &str,
    grain: ClaimedGrain,
    source: &'s [u8],
) -> Result<ProposalLine, CertifiedFault<'s>>
    ensures ok { IfOk result (HasProposed rules source.entry.now top.now grain) }
    ensures err { IfErr result (λ fault. MakingFails rules source.entry.now top.now grain fault) }
    ensures before { IfErr result (λ fault. is_before_run fault ≡ true) }
{
    written_reads_back();
    let design = design_of(alloc, source, top.as_bytes())?;
    let proposal = propose_by(alloc, &design, rules, grain)?;
    let line = proposal_line(alloc, &proposal)?;
    if is_too_long(&proposal, &line) {
        return Err(CertifiedFault::Certificate(CertFault::NotJson));
    }
    Ok(ProposalLine { proposal, line })
}

/// Writes the line of what is proposed, and answers whether all of it is written: a certificate to the file of a name, and why none is made to
/// standard output. Then the file isn't opened.
pub(crate) fn write_proposed<O: Write + Drop, F: OutputFile + Drop>(
    proposed: &ProposalLine,
    name: &str,
    writers: Writers<O, F>,
) -> (bool, Writers<O, F>)
    ensures { (lost : List ℕ) × (result.0 ≡ true → lost ≡ [])
        × WroteLine proposed.now.proposal proposed.now.line.items lost (held_of O.contents F.bytes writers)
        (held_of O.contents F.bytes result.1) }
{
    match &proposed.proposal {
        Proposal::Made(_) => {
            let (whole, file) = write_whole(Late::new(writers.text, name), &proposed.line);
            let text = file.into_inner();
            (whole, Writers { text, ..writers })
        }
        Proposal::NotMade(_) => {
            let (whole, out) = write_whole(writers.out, &proposed.line);
            (whole, Writers { out, ..writers })
        }
    }
}

/// What is told of what is proposed, whose line is written or isn't.
pub(crate) fn tell_proposed<E: Write>(
    alloc: Global,
    call: &Call,
    kept: &Kept,
    done: &Done,
    whole: bool,
    err: &mut E,
) -> u8
    ensures { ((whole ≡ true) × (result ≡ done_status done.now)) ⊎ (result ≡ 3) }
{
    if whole {
        return tell_done(alloc, call, kept, done, err);
    }
    match done {
        Done::Proposed(Proposal::NotMade(_)) => tell(err, b"write", FAILED),
        _ => tell_write(call, Place::Text, err),
    }
}
