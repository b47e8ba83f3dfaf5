//! What is told the user on standard error, and help on standard output.
ghost use Rattle.std.specs.Prelude.{◌≡◌, ◌⊎◌, ℕ, List, [], true};
ghost use Rattle.std.specs.Io.KnownBytes.{Appends, Keeps, append_known};
ghost use Rattle.std.specs.IoError.{error_kind};
ghost use Rattle.clap.specs.Words.{kind_of};
ghost use Rattle.vs_program.specs.Ends.{done_status};
ghost use Rattle.vs_program.specs.Statuses.{refusal_status, start_status, words_status};
ghost use Rattle.vs_program.specs.passes.Telling.{TellsWords};

use crate::doing::Done;
use crate::input::Kept;
use crate::racing::{race_status, sought_race};
use crate::texts::{
    DONE, FAILED, LIMITED, MISUSED, REFUSED, refusal_status, refusal_text, rule_text, words_status,
};
use clap::Error;
use std::alloc::{AllocError, Global};
use std::io::{self, ErrorKind, Write};
use vs_outputs::vs_explain::{Further, Offender};
use vs_outputs::{
    Extent, Given, push_sources, tell_broken, tell_certificate, tell_files, tell_limit, tell_line,
    tell_long_certificate, tell_rejected, tell_source, tell_unproved,
};
use vs_preprocess::{Places, Refusal, STANDARD_INPUT};
use vs_program_words::vs_certificate::{Rules, to_json};
use vs_program_words::{Call, Order, Request, Sources, Subcommand, WordsFault, top_of};
use vs_sign_off::vs_cert_check::Verdict;
use vs_sign_off::vs_kernel::Outcome;
use vs_sign_off::vs_propose::{Proposal, Refusal as Unproved};
use vs_sign_off::vs_vcd_writing::{Counted, WriteFault, write_all};
use vs_sign_off::{CertifiedFault, Race, Unwatched};

/// One line on standard error, and the exit status that goes with it.
pub(crate) fn tell<E: Write>(err: &mut E, text: &[u8], status: u8) -> u8
    ensures { result ≡ status }
{
    tell_line(err, text);
    status
}

/// Tells why the arguments of a call can't be read: 3 for a lack of memory or a read error, 64 for an argument that isn't UTF-8.
pub fn refuse_start<E: Write + Drop>(error: &io::Error, mut err: E) -> u8
    ensures { result ≡ start_status (error_kind error.now) }
{
    match error.kind() {
        ErrorKind::OutOfMemory => tell(&mut err, b"memory", FAILED),
        ErrorKind::InvalidData => tell(&mut err, b"a word is no text in UTF-8", MISUSED),
        _ => tell(&mut err, b"read", FAILED),
    }
}

/// What a value of `--until` may be where files are named.
const UNTILS: &str = ": it is a number of ticks, or of s, ms, us, ns, ps or fs, as 10us";

/// What a value of `--policy` may be where files are named.
const ORDERS: &str =
    "\n  [possible values: fifo, lifo, list:ITEMS, with items as 0,2,1 or as 17..22=1,30=2]";

// Tells, as `clap` does, that the value of an option is none.
fn tell_value<E: Write>(err: &mut E, option: &str, value: &str, values: &str) -> u8
    ensures { result ≡ 64 }
{
    let _ = write!(
        err,
        "error: invalid value '{value}' for '--{option}'{values}\n\nFor more information, try '--help'.\n"
    );
    MISUSED
}

/// Tells why the words of a call ask for nothing.
pub(crate) fn tell_words<O: Write, E: Write>(
    alloc: Global,
    fault: &WordsFault,
    out: O,
    err: &mut E,
) -> (u8, O)
    ensures { TellsWords fault.now (O.contents out) (O.contents result.1) result.0 }
{
    match fault {
        WordsFault::Refused(error) => tell_refused(alloc, error, out, err),
        WordsFault::Misused(error) => {
            let _ = write!(err, "{error}");
            (MISUSED, out)
        }
        WordsFault::NoUntil(text) => (tell_value(err, "until <N>", text, UNTILS), out),
        WordsFault::NoOrder(text) => (tell_value(err, "policy <policy>", text, ORDERS), out),
        WordsFault::OrderOfCertified => (
            tell(err, b"--cert runs by --policy fifo alone", MISUSED),
            out,
        ),
        WordsFault::TwoDumps => (
            tell(err, b"--vcd and --out vcd both ask for the dump", MISUSED),
            out,
        ),
        WordsFault::Unread => (
            tell(err, b"the words of the call ask for nothing", MISUSED),
            out,
        ),
        WordsFault::Memory => (tell(err, b"memory", FAILED), out),
    }
}

// Prints what `clap` says of the words: help and the version on `out`, anything else on `err`.
fn tell_refused<O: Write, E: Write>(alloc: Global, error: &Error, out: O, err: &mut E) -> (u8, O)
    ensures status { (result.0 ≡ 3) ⊎ (result.0 ≡ words_status (kind_of error.now)) }
    ensures kept { (words_status (kind_of error.now) ≡ 0) ⊎ Keeps (O.contents out) (O.contents result.1) }
{
    let status = words_status(error);
    if status == FAILED {
        return (tell(err, b"memory", FAILED), out);
    }
    if status == DONE {
        return tell_help(alloc, error, out, err);
    }
    let _ = write!(err, "{error}");
    (status, out)
}

/// Writes a text, and answers whether all of it is written.
pub(crate) fn write_whole<W: Write>(out: W, text: &[u8]) -> (bool, W)
    ensures { (lost : List ℕ) × (result.0 ≡ true → lost ≡ [])
        × Appends (W.contents out) (append_known (W.contents result.1) lost) text.now }
{
    let mut shown = Counted::new(out);
    match write_all(&mut shown, text) {
        Ok(()) => (true, shown.into_inner()),
        Err(WriteFault) => (false, shown.into_inner()),
    }
}

// Prints help, or the version.
fn tell_help<O: Write, E: Write>(alloc: Global, error: &Error, out: O, err: &mut E) -> (u8, O)
    ensures { (result.0 ≡ 3) ⊎ (result.0 ≡ 0) }
{
    let Ok(text) = error.to_string(alloc) else {
        return (tell(err, b"memory", FAILED), out);
    };
    match write_whole(out, text.as_bytes()) {
        (true, out) => (DONE, out),
        (false, out) => (tell(err, b"write", FAILED), out),
    }
}

// How much is told of a refusal: with files what it means, unless a line is asked for.
fn extent_of(call: &Call, has_files: bool) -> Extent {
    if (has_files || call.explains) && !call.short {
        Extent::Explained
    } else {
        Extent::Line
    }
}

// Whether a call takes a certificate.
fn takes_certificate(asked: Subcommand) -> bool {
    matches!(asked, Subcommand::RunCertified(_) | Subcommand::Check(_, _))
}

// The rules by which a call reads or makes certificates; the narrow ones, where it does neither.
fn rules_of(asked: Subcommand) -> Rules {
    match asked {
        Subcommand::RunCertified(request) => request.rules,
        Subcommand::Check(_, rules) | Subcommand::Certify(_, _, rules) => rules,
        Subcommand::Race(hunt) => hunt.rules,
        Subcommand::Run(_) | Subcommand::Elab(_) | Subcommand::Preprocess => Rules::Narrow,
    }
}

// The words of a call that name its files.
fn files_of(alloc: Global, sources: &Sources) -> Result<Vec<u8>, AllocError> {
    let mut words = Vec::new(alloc);
    push_sources(
        &mut words,
        &sources.files,
        &sources.defines,
        &sources.folders,
    )?;
    Ok(words)
}

// The name of the file of a call's certificate.
fn certificate_name<'a>(certificate: Option<&'a str>) -> &'a str {
    match certificate {
        Some(name) => name,
        None => STANDARD_INPUT,
    }
}

// What a message about a call is about, with the names of its top and of its certificate's file.
fn given_of<'g>(
    call: &Call,
    top: &'g str,
    name: &'g str,
    kept: &'g Kept,
    files: &'g [u8],
) -> Given<'g> {
    let has_file = call.certificate.is_some() || kept.places.is_some();
    Given {
        top: top.as_bytes(),
        source: &kept.source,
        places: kept.places.as_ref(),
        certificate: &kept.certificate,
        certificate_name: name.as_bytes(),
        is_in_front: takes_certificate(call.subcommand) && !has_file,
        files,
        rules: rules_of(call.subcommand),
        extent: extent_of(call, kept.places.is_some()),
    }
}

/// Tells why the files of a call are refused.
pub(crate) fn tell_refusal<E: Write>(
    alloc: Global,
    call: &Call,
    places: &Places,
    refusal: &Refusal,
    err: &mut E,
) {
    let extent = extent_of(call, true);
    tell_files(alloc, places, refusal, &call.sources.files, extent, err);
}

// Tells what a verdict means that is a no, or that no certificate was made.
fn tell_offender<E: Write>(
    alloc: Global,
    given: &Given,
    offender: Offender,
    further: Further,
    err: &mut E,
) {
    if let Ok(line) = rule_text(alloc, offender.number, offender.place) {
        tell_rejected(alloc, given, offender, further, &line, err);
    }
}

// Tells what a verdict means that is a no.
fn tell_no<'g, E: Write>(
    alloc: Global,
    given: &Given<'g>,
    number: u8,
    place: &'g [u8],
    err: &mut E,
) {
    let offender = Offender {
        certificate: given.certificate,
        number,
        place,
    };
    tell_offender(alloc, given, offender, Further::Told, err);
}

// Which further subjects are told where no certificate was made. One that claims nothing lacks each name, so there none is.
fn further_of(refusal: &Unproved) -> Further {
    if refusal.number == 1 {
        Further::Left
    } else {
        Further::Told
    }
}

/// What a call asked for whose design has no certificate.
#[derive(Clone, Copy)]
enum Asked {
    Certificate,
    Race,
}

// Tells what it means that no certificate was made: that which is best, and is not accepted, breaks a rule.
fn tell_not_made<E: Write>(
    alloc: Global,
    given: &Given,
    asked: Asked,
    refusal: &Unproved,
    err: &mut E,
) {
    let Ok(certificate) = to_json(alloc, &refusal.certificate) else {
        return;
    };
    let offender = Offender {
        certificate: &certificate,
        number: refusal.number,
        place: &refusal.place,
    };
    let further = further_of(refusal);
    match asked {
        Asked::Certificate => tell_offender(alloc, given, offender, further, err),
        Asked::Race => tell_unproved(alloc, given, offender, further, err),
    }
}

// Tells the race that is sought where no certificate was made.
fn tell_sought<E: Write>(alloc: Global, call: &Call, kept: &Kept, err: &mut E) {
    let places = kept.places.as_ref();
    let top = top_of(call.subcommand);
    let rules = rules_of(call.subcommand);
    if let Ok(text) = sought_race(
        alloc,
        rules,
        &kept.source,
        call,
        places,
        top,
        &mut Unwatched,
    ) {
        let _ = err.write_all(&text);
    }
}

// Tells what it means that no certificate was made where a race was sought.
fn explain_race<E: Write>(alloc: Global, given: &Given, race: &Race, err: &mut E) {
    let proposal = match race {
        Race::Certified(_) => return,
        Race::Found(_, proposal) => proposal,
        Race::FoundLine(_, proposal) => proposal,
        Race::NotFound(_, proposal) => proposal,
    };
    if let Proposal::NotMade(refusal) = proposal {
        tell_not_made(alloc, given, Asked::Race, refusal, err);
    }
}

// Whether the last of the enabled items is next in a run; nothing, where it makes choices of its own.
fn is_last_next(request: Request) -> Option<bool> {
    match request.order {
        Order::Fifo => Some(false),
        Order::Lifo => Some(true),
        Order::Listed => None,
    }
}

// Tells what it means that a run took its most steps, the last one in the slot of this time.
fn explain_steps<E: Write>(
    alloc: Global,
    given: &Given,
    asked: Subcommand,
    time: u64,
    err: &mut E,
) {
    if let Subcommand::Run(request) | Subcommand::RunCertified(request) = asked {
        if let Some(lifo) = is_last_next(request) {
            tell_limit(alloc, given, lifo, request.steps.count, time, err);
        }
    }
}

// Tells what a no means, or that no certificate was made; where it is asked for also what the step limit means, and why no race can be left out.
fn explain_done<E: Write>(alloc: Global, call: &Call, kept: &Kept, done: &Done, err: &mut E) {
    let Ok(files) = files_of(alloc, &call.sources) else {
        return;
    };
    let top = top_of(call.subcommand);
    let name = certificate_name(call.certificate);
    let given = given_of(call, top, name, kept, &files);
    match done {
        Done::Judged(Verdict::No(number, place)) => tell_no(alloc, &given, *number, place, err),
        Done::Proposed(Proposal::NotMade(refusal)) => {
            tell_not_made(alloc, &given, Asked::Certificate, refusal, err);
        }
        Done::Ran(Outcome::StepLimit(time)) if call.explains => {
            explain_steps(alloc, &given, call.subcommand, *time, err);
        }
        Done::Raced(race) if call.explains => explain_race(alloc, &given, race, err),
        _ => {}
    }
}

// The same where anything is to be told, and the race that is sought where no certificate was made.
fn tell_more<E: Write>(alloc: Global, call: &Call, kept: &Kept, done: &Done, err: &mut E) {
    if kept.places.is_some() || call.explains || call.seeks_race {
        explain_done(alloc, call, kept, done, err);
    }
    if call.seeks_race && matches!(done, Done::Proposed(Proposal::NotMade(_))) {
        tell_sought(alloc, call, kept, err);
    }
}

/// What is told the user of what was done, and its exit status.
pub(crate) fn tell_done<E: Write>(
    alloc: Global,
    call: &Call,
    kept: &Kept,
    done: &Done,
    err: &mut E,
) -> u8
    ensures { result ≡ done_status done.now }
{
    if let Done::Ran(Outcome::StepLimit(time)) = done {
        let _ = writeln!(err, "vsim: step limit at {time}");
    }
    tell_more(alloc, call, kept, done, err);
    match done {
        Done::Ran(Outcome::StepLimit(_)) => LIMITED,
        Done::Judged(Verdict::No(_, _)) => REFUSED,
        Done::Proposed(Proposal::NotMade(_)) => REFUSED,
        Done::Raced(race) => race_status(race),
        _ => DONE,
    }
}

// Tells of a fault whose text is this.
fn explain_fault<E: Write>(
    alloc: Global,
    given: &Given,
    asked: Subcommand,
    fault: &CertifiedFault,
    line: &[u8],
    err: &mut E,
) {
    match fault {
        CertifiedFault::Simulation(cause) => tell_source(alloc, given, cause, line, err),
        CertifiedFault::Certificate(_) if !takes_certificate(asked) => {
            tell_long_certificate(given, line, err);
        }
        CertifiedFault::Certificate(cause) => tell_certificate(alloc, given, *cause, line, err),
        CertifiedFault::Rejected(number, place) => {
            tell_broken(alloc, given, *number, place, line, err);
        }
    }
}

/// What a fault tells the user, at its place in a file where the source is the text of files; where there is no memory for its text, that is told.
pub(crate) fn tell_fault<E: Write>(
    alloc: Global,
    call: &Call,
    kept: &Kept,
    fault: &CertifiedFault,
    err: &mut E,
) -> u8
    ensures { (result ≡ refusal_status fault.now) ⊎ (result ≡ 3) }
{
    let (Ok(line), Ok(files)) = (refusal_text(alloc, fault), files_of(alloc, &call.sources)) else {
        return tell(err, b"memory", FAILED);
    };
    let top = top_of(call.subcommand);
    let name = certificate_name(call.certificate);
    let given = given_of(call, top, name, kept, &files);
    explain_fault(alloc, &given, call.subcommand, fault, &line, err);
    refusal_status(fault)
}
