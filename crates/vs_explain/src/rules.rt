//! Designs that break rules of certificates.

use crate::broken::explain_broken;
use crate::scopes::put_scope;
use std::alloc::{AllocError, Global};
use vs_cert_check::{Broken, check_all_by};
use vs_design::Design;
use vs_explain_certificate::vs_certificate::{
    CertFault, Certificate, ClaimedGrain, Rules, Version, from_json_by,
};
use vs_explain_certificate::{put_name_in, put_named_in};
use vs_explain_outline::{Explanation, Page, SourceText, put_named};
use vs_simulate::design_of;

/// How many further subjects are told.
const REPORT_LIMIT: usize = 20;

/// A subject that breaks a rule under a certificate.
#[derive(Clone, Copy)]
pub struct Offender<'a> {
    /// The text of the certificate.
    pub certificate: &'a [u8],
    /// The number of the rule.
    pub number: u8,
    /// The name of the subject.
    pub place: &'a [u8],
}

/// Whether what is said of a subject is followed by further ones.
#[derive(Clone, Copy, PartialEq, Eq)]
pub enum Further {
    /// The subject alone.
    Left,
    /// At most 20 further ones, a line each. To find them takes as long as to check an accepted certificate.
    Told,
}

/// A certificate that says nothing.
fn no_claims(alloc: Global) -> Certificate {
    Certificate {
        version: Version::One,
        grain: ClaimedGrain::Block,
        modulus: 1,
        edges: Vec::new(alloc),
        order: Vec::new(alloc),
        processes: Vec::new(alloc),
        signals: Vec::new(alloc),
    }
}

/// Whether a design has a signal, an assignment or a process of this name.
fn is_named(design: &Design, name: &[u8]) -> bool {
    for signal in design.signals() {
        if signal.path.as_slice() == name {
            return true;
        }
    }
    for assign in design.assigns() {
        if assign.name.as_slice() == name {
            return true;
        }
    }
    for process in design.processes() {
        if process.name.as_slice() == name {
            return true;
        }
    }
    false
}

/// Whether a subject is told beside the first one: where that is of the rule K1, only those of this rule, since all else follows from names that a
/// certificate lacks.
fn is_other(broken: &Broken, first: Offender) -> bool {
    let is_first = broken.number == first.number && broken.place.as_slice() == first.place;
    !is_first && (first.number != 1 || broken.number == 1)
}

/// Puts subjects that break rules beside the first one, a line each with its place in the source, or in the certificate.
fn put_others(
    page: &mut Page,
    text: &SourceText,
    design: &Design,
    first: Offender,
    all: &[Broken],
) {
    for broken in all {
        if is_other(broken, first) {
            page.put("Also broken: K");
            page.put_shown(broken.number);
            page.put(" at ");
            if is_named(design, &broken.place) {
                put_named(page, text, &broken.place);
            } else {
                put_named_in(page, first.certificate, &broken.place);
            }
            page.put(".\n");
        }
    }
}

/// Puts why a subject breaks a rule. A name that the design lacks has its place in the certificate.
fn put_offender(
    page: &mut Page,
    text: &SourceText,
    design: &Design,
    claimed: &Certificate,
    offender: Offender,
) {
    if !is_named(design, offender.place) {
        put_name_in(page, offender.certificate, offender.place);
    }
    explain_broken(page, text, design, claimed, offender.number, offender.place);
    put_scope(page, text, offender.place);
}

/// Puts why a subject breaks a rule, and further subjects that do. Bytes that are no certificate claim nothing, and no further ones are told.
fn put_rules(
    page: &mut Page,
    text: &SourceText,
    design: &Design,
    rules: Rules,
    offender: Offender,
    further: Further,
) -> Result<(), AllocError> {
    let alloc = page.alloc();
    match from_json_by(alloc, rules, offender.certificate) {
        Ok(claimed) => {
            put_offender(page, text, design, &claimed, offender);
            if further == Further::Told {
                let told = check_all_by(alloc, design, rules, &claimed, REPORT_LIMIT + 1)?;
                put_others(page, text, design, offender, &told.broken);
            }
            Ok(())
        }
        Err(CertFault::Memory) => Err(AllocError),
        Err(_) => {
            put_offender(page, text, design, &no_claims(alloc), offender);
            Ok(())
        }
    }
}

/// Why a design breaks a rule under a certificate that is read by these rules, and where it is wanted which further subjects break one.
pub fn explain_rule(
    alloc: Global,
    source: &[u8],
    top: &[u8],
    rules: Rules,
    offender: Offender,
    further: Further,
) -> Result<Explanation, AllocError> {
    let mut page = Page::new(alloc);
    let text = SourceText::read(alloc, source)?;
    let design = design_of(alloc, source, top);
    if let (Some(text), Ok(design)) = (&text, &design) {
        put_rules(&mut page, text, design, rules, offender, further)?;
    }
    page.finish()
}
