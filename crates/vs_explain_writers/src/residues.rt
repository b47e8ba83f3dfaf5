//! At which residues processes can run, by what a certificate claims.

use std::alloc::{AllocError, Global};
use vs_design::vs_logic4::Edge;
use vs_explain_facts::vs_certificate::{Certificate, ClaimedKind};
use vs_explain_facts::{Question, TextFacts, entry_of, process_of, root_of};
use vs_explain_outline::Page;

/// How many residues are told.
const REPORT_LIMIT: usize = 8;

/// Puts the residues of lists into a list, each once.
fn push_lists(residues: &mut Vec<u64>, lists: &[Vec<u64>]) -> Result<(), AllocError> {
    for list in lists {
        for residue in list {
            if !residues.contains(residue) {
                residues.push(*residue)?;
            }
        }
    }
    Ok(())
}

/// Puts the residues that are claimed of the delays of a process of this name.
fn push_delays(
    residues: &mut Vec<u64>,
    certificate: &Certificate,
    name: &[u8],
) -> Result<(), AllocError> {
    if let Some(entry) = process_of(certificate, name) {
        if let ClaimedKind::Delay(lists) | ClaimedKind::Mixed(lists) = &entry.kind {
            return push_lists(residues, lists);
        }
    }
    Ok(())
}

/// Puts the residues at which an edge of a signal can come: those at which delays of the writer of its root end.
pub fn push_edge(
    residues: &mut Vec<u64>,
    certificate: &Certificate,
    path: &[u8],
) -> Result<(), AllocError> {
    let root = root_of(certificate, path);
    match entry_of(certificate, root) {
        Some(entry) => push_delays(residues, certificate, entry.writer.as_bytes()),
        None => Ok(()),
    }
}

/// The residues at which a process can run after time 0, in order.
pub fn residues_of(
    alloc: Global,
    question: Question,
    text: &TextFacts,
) -> Result<Vec<u64>, AllocError> {
    let mut residues = Vec::new(alloc);
    push_delays(&mut residues, question.certificate, &text.process.name)?;
    for term in &text.terms {
        if term.term.edge != Edge::Any {
            let path = question.facts.path(term.term.range.signal);
            push_edge(&mut residues, question.certificate, path)?;
        }
    }
    residues.sort()?;
    Ok(residues)
}

/// Puts residues, as `0, 5 modulo 10`.
pub fn put_residues(page: &mut Page, residues: &[u64], modulus: u64) {
    for (index, residue) in residues.iter().enumerate() {
        if index < REPORT_LIMIT {
            page.put(if index == 0 { "" } else { ", " });
            page.put_shown(*residue);
        }
    }
    page.put(if residues.len() > REPORT_LIMIT {
        ", and more, modulo "
    } else {
        " modulo "
    });
    page.put_shown(modulus);
}
