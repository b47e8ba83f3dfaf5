//! The names of all lists of a certificate.
ghost use Rattle.std.specs.Prelude.{◌≡◌, ◌++◌, map, IfOk, OnOk};
ghost use Rattle.std.specs.List.{flat_map};
ghost use Rattle.vs_claims.specs.vs_rules.specs.Certificates.{edge_claim};
ghost use Rattle.vs_claims.specs.vs_rules.specs.Claims.{all_names, names_of_edge};
ghost use Rattle.vs_claims.specs.Places.{texts};

use crate::vs_certificate::EdgeSignal;
use crate::{Facts, Index};
use std::alloc::{AllocError, Global};

// Puts the names of the entries of edge terms, of each the root first.
fn push_edges<'a>(names: &mut Vec<&'a [u8]>, edges: &'a [EdgeSignal]) -> Result<(), AllocError>
    ensures { OnOk result (texts names.new.items ≡ texts names.old.items ++ flat_map names_of_edge (map edge_claim edges.entry.now)) }
{
    for e in edges {
        names.push(e.root.as_bytes())?;
        names.push(e.signal.as_bytes())?;
    }
    Ok(())
}

// Puts the names of a list.
fn push_names<'a>(names: &mut Vec<&'a [u8]>, list: &Index<'a>) -> Result<(), AllocError>
    ensures { OnOk result (texts names.new.items ≡ texts names.old.items ++ list.now) }
{
    for name in list.names() {
        names.push(*name)?;
    }
    Ok(())
}

/// The names of all lists of a certificate, in the order of its members.
pub fn all_names<'a>(alloc: Global, facts: &Facts<'a>) -> Result<Vec<&'a [u8]>, AllocError>
    ensures { IfOk result (λ names. texts names.items ≡ all_names facts.now.claims) }
{
    let certificate = facts.certificate();
    let mut names = Vec::new(alloc);
    push_edges(&mut names, &certificate.edges)?;
    push_names(&mut names, &facts.names.claims.order)?;
    push_names(&mut names, &facts.names.claims.processes)?;
    push_names(&mut names, &facts.names.claims.signals)?;
    Ok(names)
}
