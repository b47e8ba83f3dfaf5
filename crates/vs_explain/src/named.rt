//! Names that a certificate lacks, has twice, or has too many, in the rule K1.

use vs_explain_facts::vs_certificate::Certificate;
use vs_explain_facts::{Question, times_named};
use vs_explain_outline::{Page, first_part};
use vs_explain_races::vs_explain_writers::put_subject;

/// The first name of a certificate, where it has one.
fn first_name<'c>(certificate: &'c Certificate) -> &'c [u8] {
    if let Some(entry) = certificate.signals.first() {
        return entry.name.as_bytes();
    }
    match certificate.processes.first() {
        Some(entry) => entry.name.as_bytes(),
        None => &[],
    }
}

/// The top of a path.
fn top_of(path: &[u8]) -> &[u8] {
    match first_part(path) {
        Some(part) => part.name,
        None => path,
    }
}

/// The top of the first name that begins with another top than a design.
fn other_top<'c>(asked: Question<'c>) -> Option<&'c [u8]> {
    let own = match asked.design.signals().first() {
        Some(signal) => top_of(&signal.path),
        None => return None,
    };
    let name = first_name(asked.certificate);
    if name.is_empty() || top_of(name) == own {
        return None;
    }
    Some(top_of(name))
}

/// Puts how often the lists of the certificate have the name.
fn put_times(page: &mut Page, asked: Question) {
    let [signals, processes, order, edges] = times_named(asked.certificate, asked.place);
    page.put("The certificate has this name ");
    page.put_shown(signals);
    page.put(" times in `signals`, ");
    page.put_shown(processes);
    page.put(" in `processes`, ");
    page.put_shown(order);
    page.put(" in `order`, ");
    page.put_shown(edges);
    page.put(" in `edges`.\n");
}

/// Puts why the names of a certificate aren't those of the design.
pub(crate) fn put_names(page: &mut Page, asked: Question) {
    put_subject(page, asked, 1);
    if let Some(top) = other_top(asked) {
        page.put("The names of the certificate begin with ");
        page.put_name(top);
        page.put(": it was made of that top module.\nName it, `--top ");
        page.put_bytes(top);
        page.put("`; or make a certificate of this top: `vsim certify`.\n");
        return;
    }
    put_times(page, asked);
    page.put(
        "A signal, a process or an assignment was added, removed or renamed since it was made.\n",
    );
    page.put("Make the certificate anew of this source: `vsim certify`.\n");
}
