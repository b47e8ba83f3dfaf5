//! What the program tells: texts and exit statuses.
ghost use Rattle.std.specs.Prelude.{◌≡◌, ◌++◌, [], ◌∷◌, true, false, IfOk, OnOk};
ghost use Rattle.clap.specs.Words.{kind_of};
ghost use Rattle.vs_program.specs.Statuses.{fault_status, refusal_status, words_status};
ghost use Rattle.vs_program.specs.Texts.{IsTooLong, fault_text, proposal_line, refusal_text, rule_text, verdict_line};
ghost use Rattle.vs_program.specs.passes.Proposing.{IsShort};

use clap::Error;
use clap::error::ErrorKind;
use std::alloc::{AllocError, Global};
use vs_elaborate::ElabFault;
use vs_elaborate::vs_scopes::push_bytes;
use vs_parser::ParseFault;
use vs_program_words::vs_certificate::{CertFault, to_json};
use vs_sign_off::CertifiedFault;
use vs_sign_off::vs_cert_check::Verdict;
use vs_sign_off::vs_kernel::RunFault;
use vs_sign_off::vs_propose::Proposal;
use vs_sign_off::vs_simulate::SimFault;
use vs_syntax::vs_lexer::LexFault;

/// Done, a yes, or help.
pub(crate) const DONE: u8 = 0;
/// A refusal, a no, or no certificate made.
pub(crate) const REFUSED: u8 = 1;
/// The step limit.
pub(crate) const LIMITED: u8 = 2;
/// Out of memory, a read error or a write error.
pub(crate) const FAILED: u8 = 3;
/// A fault of the command line.
pub(crate) const MISUSED: u8 = 64;

/// The most bytes that the text of a certificate may have (16 MiB).
const CERTIFICATE_LIMIT: usize = 16_777_216;

/// The text that the program prints of a fault, after `vsim: `: its number and its place, or what failed.
pub fn fault_text(alloc: Global, fault: &SimFault) -> Result<Vec<u8>, AllocError>
    ensures { IfOk result (λ text. text.items ≡ fault_text fault.now) }
{
    match fault {
        SimFault::Lex(cause) => cause.text(alloc),
        SimFault::Parse(cause) => cause.text(alloc),
        SimFault::Elab(cause) => vs_elaborate::fault_text(alloc, cause),
        SimFault::Run(RunFault::Write) => Vec::from_slice(alloc, b"write"),
        SimFault::Run(RunFault::Failed) => Vec::from_slice(alloc, b"failed"),
        SimFault::Run(RunFault::Done) => Vec::from_slice(alloc, b"done"),
        SimFault::Run(RunFault::Memory) => Vec::from_slice(alloc, b"memory"),
        SimFault::Memory => Vec::from_slice(alloc, b"memory"),
    }
}

/// A broken rule, by its number, and the subject that breaks it, by its name. It is one line whatever the name: a control byte of it is told as
/// `\x0a`.
pub(crate) fn rule_text(alloc: Global, number: u8, place: &[u8]) -> Result<Vec<u8>, AllocError>
    ensures { IfOk result (λ text. text.items ≡ rule_text number place.now) }
{
    let mut text = format!(in alloc; "K{number} at ")?.into_bytes();
    push_bytes(&mut text, place)?;
    Ok(text)
}

// A line with a broken rule, after some words.
fn rule_line(alloc: Global, words: &[u8], number: u8, place: &[u8]) -> Result<Vec<u8>, AllocError>
    ensures { IfOk result (λ text. text.items ≡ words.now ++ rule_text number place.now ++ 10 ∷ []) }
{
    let rule = rule_text(alloc, number, place)?;
    let mut line = Vec::from_slice(alloc, words)?;
    line.extend_from_slice(&rule)?;
    line.push(b'\n')?;
    Ok(line)
}

/// The text that the program prints of a fault, after `vsim: `, where a certificate may be given.
pub(crate) fn refusal_text(alloc: Global, fault: &CertifiedFault) -> Result<Vec<u8>, AllocError>
    ensures { IfOk result (λ text. text.items ≡ refusal_text fault.now) }
{
    match fault {
        CertifiedFault::Simulation(cause) => fault_text(alloc, cause),
        CertifiedFault::Certificate(cause) => Vec::from_slice(alloc, cause.text().as_bytes()),
        CertifiedFault::Rejected(number, place) => rule_text(alloc, *number, place),
    }
}

/// The line of a verdict: `yes`, or `no K3 at t.a`.
pub(crate) fn verdict_line(alloc: Global, verdict: &Verdict) -> Result<Vec<u8>, AllocError>
    ensures { IfOk result (λ line. line.items ≡ verdict_line verdict.now) }
{
    match verdict {
        Verdict::Yes => Vec::from_slice(alloc, b"yes\n"),
        Verdict::No(number, place) => rule_line(alloc, b"no ", *number, place),
    }
}

/// The line of a proposal: the certificate, or `not made K5 at m#p1`.
pub(crate) fn proposal_line(alloc: Global, proposal: &Proposal) -> Result<Vec<u8>, AllocError>
    ensures { IfOk result (λ line. line.items ≡ proposal_line proposal.now) }
{
    match proposal {
        Proposal::Made(certificate) => {
            let mut line = to_json(alloc, certificate)?;
            line.push(b'\n')?;
            Ok(line)
        }
        Proposal::NotMade(refusal) => {
            rule_line(alloc, b"not made ", refusal.number, &refusal.place)
        }
    }
}

/// Whether this line of a proposal has a certificate, and one whose text is longer than the text of one that is read.
pub(crate) fn is_too_long(proposal: &Proposal, line: &[u8]) -> bool
    requires { line.now ≡ proposal_line proposal.now }
    ensures long { result ≡ true → IsTooLong proposal.now }
    ensures short { result ≡ false → IsShort proposal.now }
{
    match proposal {
        Proposal::Made(_) => line.len() > CERTIFICATE_LIMIT + 1,
        Proposal::NotMade(_) => false,
    }
}

// The exit status of a fault: 1 for a refusal of the source, 3 for memory or a device.
fn fault_status(fault: &SimFault) -> u8
    ensures { result ≡ fault_status fault.now }
{
    match fault {
        SimFault::Lex(LexFault::Memory) => FAILED,
        SimFault::Lex(_) => REFUSED,
        SimFault::Parse(ParseFault::Memory) => FAILED,
        SimFault::Parse(_) => REFUSED,
        SimFault::Elab(ElabFault::Memory) => FAILED,
        SimFault::Elab(_) => REFUSED,
        SimFault::Run(_) => FAILED,
        SimFault::Memory => FAILED,
    }
}

/// The exit status of a fault where a certificate may be given: 1 for a refusal, 3 for memory or a device.
pub(crate) fn refusal_status(fault: &CertifiedFault) -> u8
    ensures { result ≡ refusal_status fault.now }
{
    match fault {
        CertifiedFault::Simulation(cause) => fault_status(cause),
        CertifiedFault::Certificate(CertFault::Memory) => FAILED,
        CertifiedFault::Certificate(_) => REFUSED,
        CertifiedFault::Rejected(_, _) => REFUSED,
    }
}

/// The exit status that an error of the words ends with: 0 for a call for help or for the version, 3 where memory ran out, 64 for a fault of the
/// words.
pub fn words_status(error: &Error) -> u8
    ensures { result ≡ words_status (kind_of error.now) }
{
    match error.kind() {
        ErrorKind::DisplayHelp | ErrorKind::DisplayVersion => DONE,
        ErrorKind::OutOfMemory => FAILED,
        _ => MISUSED,
    }
}
