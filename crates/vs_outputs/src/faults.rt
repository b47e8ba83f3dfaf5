//! What is told of a source, a certificate or a design that is refused, and of a run that takes too many steps.

use crate::fault_line::FaultLine;
use crate::file_places::Sheet;
use crate::given::{Extent, Given};
use std::alloc::{AllocError, Global};
use std::io::Write;
use vs_explain::vs_certificate::CertFault;
use vs_explain::vs_simulate::SimFault;
use vs_explain::{
    CertificatePlace, Explanation, Further, Offender, explain, explain_after, explain_certificate,
    explain_limit, explain_rule,
};
use vs_preprocess::Places;

/// What it means that a certificate is refused which was made.
const TOO_LONG: &[u8] =
    b"A certificate was made, but its text has more than 16 MiB, and `vsim check` reads none of more: so it isn't written.\n\
It has the whole path of each signal, process and driver. Shorter names of instances and signals, or fewer levels of instances, make it shorter.\n";

/// Tells one line.
pub fn tell_line<E: Write>(err: &mut E, line: &[u8]) {
    let _ = err.write_all(b"vsim: ");
    let _ = err.write_all(line);
    let _ = err.write_all(b"\n");
}

/// Tells a text, where there was memory for it.
fn tell_text<E: Write>(err: &mut E, text: Result<Vec<u8>, AllocError>) {
    if let Ok(text) = text {
        let _ = err.write_all(&text);
    }
}

/// The text of an explanation that speaks of a certificate.
fn explained_beside(
    alloc: Global,
    explanation: &Explanation,
    source: &[u8],
    certificate: &[u8],
    places: Option<&Places>,
) -> Result<Vec<u8>, AllocError> {
    let Some(places) = places else {
        return explanation.plain(alloc, source, certificate);
    };
    let sheet = Sheet {
        alloc,
        places,
        certificate,
        certificate_name: &[],
    };
    sheet.body_of(explanation, 0, 0)
}

/// The text of an explanation: with places in files, where the source is their text.
pub fn explained(
    alloc: Global,
    explanation: &Explanation,
    source: &[u8],
    places: Option<&Places>,
) -> Result<Vec<u8>, AllocError> {
    explained_beside(alloc, explanation, source, &[], places)
}

/// What is told of a refusal of the text of files.
fn placed_text(
    alloc: Global,
    given: &Given,
    places: &Places,
    certificate: &[u8],
    told: FaultLine,
    explanation: &Explanation,
) -> Result<Vec<u8>, AllocError> {
    let sheet = Sheet {
        alloc,
        places,
        certificate,
        certificate_name: given.certificate_name,
    };
    let text = match given.extent {
        Extent::Line => sheet.short_of(explanation, told)?,
        Extent::Explained => sheet.whole_of(explanation, told)?,
    };
    match text {
        Some(text) => Ok(text),
        None => sheet.unplaced_of(explanation, told, given.extent),
    }
}

/// Tells an explanation of a refusal: behind its line, or at its place in files.
fn tell_explained<E: Write>(
    alloc: Global,
    given: &Given,
    certificate: &[u8],
    told: FaultLine,
    explanation: Result<Explanation, AllocError>,
    err: &mut E,
) {
    let Some(places) = given.places else {
        if let Ok(explanation) = explanation {
            tell_text(err, explanation.plain(alloc, given.source, certificate));
        }
        return;
    };
    let text = match &explanation {
        Ok(explanation) => placed_text(alloc, given, places, certificate, told, explanation),
        Err(_) => Err(AllocError),
    };
    match text {
        Ok(text) => {
            let _ = err.write_all(&text);
        }
        Err(_) => tell_line(err, told.line),
    }
}

/// Tells that a source is refused. The line is what is told of it without files, after `vsim: `.
pub fn tell_source<E: Write>(
    alloc: Global,
    given: &Given,
    fault: &SimFault,
    line: &[u8],
    err: &mut E,
) {
    let told = match fault {
        SimFault::Lex(_) | SimFault::Parse(_) => FaultLine::of_place(line),
        SimFault::Elab(_) => FaultLine::of_line(line),
        SimFault::Run(_) | SimFault::Memory => return tell_line(err, line),
    };
    if given.places.is_none() {
        tell_line(err, line);
    }
    if given.wants_place() {
        let explanation = if given.is_in_front {
            explain_after(alloc, given.certificate, given.source, given.top, fault)
        } else {
            explain(alloc, given.source, given.top, fault)
        };
        tell_explained(alloc, given, &[], told, explanation, err);
    }
}

/// Tells that bytes are no certificate. The line is what is told of it without files, after `vsim: `.
pub fn tell_certificate<E: Write>(
    alloc: Global,
    given: &Given,
    fault: CertFault,
    line: &[u8],
    err: &mut E,
) {
    if given.places.is_none() {
        tell_line(err, line);
    }
    if given.wants_place() {
        let stands = if given.is_in_front {
            CertificatePlace::First
        } else {
            CertificatePlace::Alone
        };
        let explanation = explain_certificate(alloc, given.certificate, given.rules, stands, fault);
        tell_explained(
            alloc,
            given,
            given.certificate,
            FaultLine::of_line(line),
            explanation,
            err,
        );
    }
}

/// Tells that the certificate which was made is too long. The line is what is told of it, after `vsim: `.
pub fn tell_long_certificate<E: Write>(given: &Given, line: &[u8], err: &mut E) {
    tell_line(err, line);
    if given.extent == Extent::Explained {
        let _ = err.write_all(TOO_LONG);
    }
}

/// Tells that a design breaks a rule under the certificate that is given, so that it isn't run. The line is what is told of it without files,
/// after `vsim: `.
pub fn tell_broken<E: Write>(
    alloc: Global,
    given: &Given,
    number: u8,
    place: &[u8],
    line: &[u8],
    err: &mut E,
) {
    if given.places.is_none() {
        tell_line(err, line);
    }
    if given.wants_place() {
        let offender = Offender {
            certificate: given.certificate,
            number,
            place,
        };
        let further = further_of(given);
        let explanation = explain_rule(
            alloc,
            given.source,
            given.top,
            given.rules,
            offender,
            further,
        );
        tell_explained(
            alloc,
            given,
            given.certificate,
            FaultLine::of_line(line),
            explanation,
            err,
        );
    }
}

/// Whether further subjects are told.
fn further_of(given: &Given) -> Further {
    match given.extent {
        Extent::Line => Further::Left,
        Extent::Explained => Further::Told,
    }
}

/// Why a subject breaks a rule, and the command that looks for a race.
fn explain_refused(
    alloc: Global,
    given: &Given,
    offender: Offender,
    further: Further,
) -> Result<Explanation, AllocError> {
    let mut explanation = explain_rule(
        alloc,
        given.source,
        given.top,
        given.rules,
        offender,
        further,
    )?;
    let words = &mut explanation.words;
    words.extend_from_slice(b"`vsim race --top ")?;
    words.extend_from_slice(given.top)?;
    words.extend_from_slice(given.files)?;
    words.extend_from_slice(b" --until N` looks for two orders of events that differ.\n")?;
    Ok(explanation)
}

/// Tells why the verdict is a no, or why no certificate was made. The line is the rule and its subject; without files it isn't told.
pub fn tell_rejected<E: Write>(
    alloc: Global,
    given: &Given,
    offender: Offender,
    further: Further,
    line: &[u8],
    err: &mut E,
) {
    if given.wants_place() {
        let explanation = explain_refused(alloc, given, offender, further);
        tell_explained(
            alloc,
            given,
            offender.certificate,
            FaultLine::of_line(line),
            explanation,
            err,
        );
    }
}

/// Tells why no certificate was made where a race was sought.
pub fn tell_unproved<E: Write>(
    alloc: Global,
    given: &Given,
    offender: Offender,
    further: Further,
    err: &mut E,
) {
    let (source, certificate) = (given.source, offender.certificate);
    if let Ok(explanation) = explain_rule(
        alloc,
        source,
        given.top,
        given.rules,
        offender,
        further,
    ) {
        tell_text(
            err,
            explained_beside(alloc, &explanation, source, certificate, given.places),
        );
    }
}

/// Tells what it means that a run took its most steps, so many, the last one in the slot of this time.
pub fn tell_limit<E: Write>(
    alloc: Global,
    given: &Given,
    lifo: bool,
    steps: u64,
    time: u64,
    err: &mut E,
) {
    if let Ok(explanation) = explain_limit(alloc, given.source, given.top, lifo, steps, time) {
        tell_text(
            err,
            explained(alloc, &explanation, given.source, given.places),
        );
    }
}
