//! Drivers that hang on themselves, in the rule K4.

use crate::cycles::{Hop, cycle_at, driver_named, is_real};
use std::alloc::{AllocError, Global};
use vs_design::Typed;
use vs_design::vs_logic4::{Binary, Unary};
use vs_explain_writers::vs_explain_facts::vs_certificate::Certificate;
use vs_explain_writers::vs_explain_facts::{Facts, Part, Question};
use vs_explain_writers::vs_explain_outline::{Page, put_marked};
use vs_explain_writers::{
    Site, Story, mark_site, name_of, put_anew, put_story, put_subject, unsized_of,
};

/// The right side of the assignment that a driver is, at its own size.
fn side_of<'f>(facts: &'f Facts, driver: Part) -> Option<&'f Typed> {
    match driver {
        Part::Assign(number) => match facts.design.assigns().get(number) {
            Some(assign) => Some(unsized_of(&assign.source)),
            None => None,
        },
        Part::Process(_) => None,
    }
}

/// The operator of the first link of an expression.
fn operator_of(source: &Typed) -> Option<Binary> {
    match source {
        Typed::Chain(_, rest) => rest.first().map(|link| link.0.operator),
        _ => None,
    }
}

/// Whether an expression begins with `~` or `!`.
fn is_inverted(source: &Typed) -> bool {
    matches!(source, Typed::Unary(Unary::Not | Unary::LogicalNot, _))
}

/// What is said of an assignment that reads what it drives.
fn story_of_one(source: &Typed) -> Story {
    let operator = operator_of(source);
    if matches!(source, Typed::Concat(_, _)) || operator == Some(Binary::ShiftLeft) {
        return Story {
            cause: "One assignment drives and reads bits of `%`: it counts as a whole, so it reads its own output.",
            remedy: "Drive each bit by an assignment of its own, as a generate loop does.",
        };
    }
    if operator == Some(Binary::Add) || operator == Some(Binary::Subtract) {
        return Story {
            cause: "`%` is computed from itself without a clock.",
            remedy: "Count in a clocked register: `always @(posedge clk) % <= ..;`.",
        };
    }
    Story {
        cause: "The assignment of `%` reads its own output: a latch made of gates.",
        remedy: "Hold the value in a clocked register with an enable: `always @(posedge clk) if (..) % <= ..;`.",
    }
}

/// Whether an assignment of a cycle inverts.
fn has_inverter(facts: &Facts, hops: &[Hop]) -> bool {
    for hop in hops {
        if let Some(source) = side_of(facts, hop.driver) {
            if is_inverted(source) {
                return true;
            }
        }
    }
    false
}

/// What is said of a cycle.
fn story_of(alloc: Global, facts: &Facts, hops: &[Hop]) -> Result<Story, AllocError> {
    if let (Some(hop), 1) = (hops.first(), hops.len()) {
        if let Some(source) = side_of(facts, hop.driver) {
            return Ok(story_of_one(source));
        }
    }
    if !is_real(alloc, facts, hops)? {
        return Ok(Story {
            cause: "Each of these reads what another one drives, `%` among them. No bit hangs on itself, but a block counts as a whole.",
            remedy: "Split the block: an `assign` for each of its outputs.",
        });
    }
    if has_inverter(facts, hops) {
        return Ok(Story {
            cause: "Gates feed each other, by way of `%`: a latch, or an oscillator.",
            remedy: "Write the flag as a clocked register: `always @(posedge clk) if (..) % <= 0; else if (..) % <= 1;`.",
        });
    }
    Ok(Story {
        cause: "`%` hangs on itself: each of these reads what another one drives, without a register between.",
        remedy: "Let one of them not depend on the other, or put a clocked register between.",
    })
}

/// The first statement of a block that reads a signal.
fn read_in(facts: &Facts, process: usize, signal: usize) -> Option<Site> {
    let text = facts.texts.get(process)?;
    for (number, point) in text.points.iter().enumerate() {
        if point.reads_signal(signal) {
            return Some(Site { process, number });
        }
    }
    None
}

/// Puts the line of a driver with a mark under it, of a block under the statement that reads.
fn put_hop(page: &mut Page, asked: Question, hop: Hop) {
    if let Part::Process(process) = hop.driver {
        if let Some(site) = read_in(asked.facts, process, hop.reads) {
            return mark_site(page, asked, site);
        }
    }
    put_marked(page, asked.text, hop.driver.name(asked.design));
}

/// How many drivers of a cycle are marked.
const REPORT_LIMIT: usize = 4;

/// Puts a cycle.
fn put_cycle(page: &mut Page, asked: Question, hops: &[Hop]) {
    for hop in hops.iter().take(REPORT_LIMIT) {
        put_hop(page, asked, *hop);
    }
    if let Some(hop) = hops.first() {
        match story_of(page.alloc(), asked.facts, hops) {
            Ok(story) => put_story(page, 4, story, name_of(asked, hop.reads)),
            Err(_) => page.leave_out(),
        }
    }
}

/// Where a name stands in the order of a certificate; at its end where it doesn't.
fn place_in_order(certificate: &Certificate, name: &[u8]) -> usize {
    for (index, entry) in certificate.order.iter().enumerate() {
        if entry.as_bytes() == name {
            return index;
        }
    }
    certificate.order.len()
}

/// Puts a driver without a cycle: one that the order has too early, or one that reads what nothing drives whole.
fn put_no_cycle(page: &mut Page, asked: Question) {
    put_subject(page, asked, 4);
    page.put("It stands at place ");
    page.put_shown(place_in_order(asked.certificate, asked.place).saturating_add(1));
    page.put(
        " of the certificate's `order`. It reads what stands later there, or bits of a variable of which drivers write others alone.\n",
    );
    put_anew(page);
}

/// Puts why a driver has no place in an order.
pub fn put_loops(page: &mut Page, asked: Question) {
    let Some(driver) = driver_named(asked.facts, asked.place) else {
        return;
    };
    match cycle_at(page.alloc(), asked.facts, driver) {
        Ok(hops) if hops.is_empty() => put_no_cycle(page, asked),
        Ok(hops) => put_cycle(page, asked, &hops),
        Err(_) => page.leave_out(),
    }
}
