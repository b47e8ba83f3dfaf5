//! How a signal is written, in the rule K3.

use crate::claimed::put_writers_claimed;
use crate::story::{Story, name_of, put_story};
use crate::vs_explain_facts::{Facts, Question, TextKind};
use crate::vs_explain_outline::Page;
use crate::writes::{Wanted, write_in};
use crate::{Site, mark_site};

/// Where a process writes a signal by `=`, and where by `<=`.
#[derive(Clone, Copy)]
struct Ways {
    now: Site,
    later: Site,
}

/// The first process that writes a signal in both ways.
fn ways_of(facts: &Facts, signal: usize) -> Option<Ways> {
    for process in facts.writers_of(signal) {
        let now = write_in(facts, *process, signal, Wanted::Now);
        let later = write_in(facts, *process, signal, Wanted::Later);
        if let (Some(now), Some(later)) = (now, later) {
            return Some(Ways { now, later });
        }
    }
    None
}

/// Whether a statement stands under a test of a signal that its process waits for, where it waits for several.
fn is_under_reset(facts: &Facts, site: Site) -> bool {
    let Some(text) = facts.texts.get(site.process) else {
        return false;
    };
    if text.terms.len() < 2 {
        return false;
    }
    for (number, point) in text.points.iter().enumerate() {
        if number < site.number && site.number < point.behind {
            for signal in &point.reads {
                if text.waits_for(*signal) {
                    return true;
                }
            }
        }
    }
    false
}

/// What is said of a signal that a process writes in both ways.
fn story_of(facts: &Facts, signal: usize, ways: Ways) -> Story {
    let is_clocked = match facts.texts.get(ways.now.process) {
        Some(text) => text.kind == TextKind::Edges,
        None => false,
    };
    if is_clocked && is_under_reset(facts, ways.now) {
        return Story {
            cause: "One clocked process writes `%`, which others read, by `=` in the branch of its reset and by `<=` elsewhere.",
            remedy: "Write it by `<=` in both branches.",
        };
    }
    if is_clocked {
        return Story {
            cause: "One clocked process writes `%`, which others read, by `=` and by `<=`.",
            remedy: "Write it by `<=` alone: of two in one slot the last one wins, so a default may stand before the `if`.",
        };
    }
    if facts.is_root(signal) {
        return Story {
            cause: "One process writes `%`, of which others await edges, by `=` and by `<=`.",
            remedy: "Write it by `=` alone.",
        };
    }
    Story {
        cause: "One process writes `%` by `=` at one place and by `<=` at another one.",
        remedy: "Write it by `<=` everywhere, its first value too.",
    }
}

/// Puts how a signal is written, and why that breaks the rule.
pub fn put_ways(page: &mut Page, asked: Question) {
    let Some(signal) = asked.facts.signal_named(asked.place) else {
        return;
    };
    let Some(ways) = ways_of(asked.facts, signal) else {
        return put_writers_claimed(page, asked, 3, signal);
    };
    let is_now_first = ways.now.number < ways.later.number;
    mark_site(
        page,
        asked,
        if is_now_first { ways.now } else { ways.later },
    );
    mark_site(
        page,
        asked,
        if is_now_first { ways.later } else { ways.now },
    );
    put_story(
        page,
        3,
        story_of(asked.facts, signal, ways),
        name_of(asked, signal),
    );
}
