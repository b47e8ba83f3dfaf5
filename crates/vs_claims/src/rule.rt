//! The rule K1: each list of a certificate names what it is a list of, each once, and nothing else.
ghost use Rattle.std.specs.Prelude.{◌≡◌, ◌↔◌, ◌⊎◌, IsTrue};
ghost use Rattle.vs_claims.specs.vs_rules.specs.Claims.{IsBlock, signal_names, process_names, edge_names, times_in};
ghost use Rattle.vs_claims.specs.vs_rules.specs.Rules.{K1_Signal, K1_Assign, K1_Process, K1_Name, IsOnlyIn};
ghost use Rattle.vs_claims.specs.Ordered.{IsOrdered};

use crate::Facts;
use crate::subjects::{assign_name, process_name, signal_name};

// Whether a name stands once among the entries of signals, and neither in the order nor among the entries of processes.
fn is_named_once_as_signal(facts: &Facts, name: &[u8]) -> bool
    ensures { IsTrue result ↔
        IsOnlyIn name.now (signal_names facts.now.claims) facts.now.claims.order (process_names facts.now.claims) }
{
    if facts.times_as_signal(name) != 1 {
        return false;
    }
    if facts.times_in_order(name) != 0 {
        return false;
    }
    facts.times_as_process(name) == 0
}

/// Whether a signal keeps the rule K1: its name stands once among the entries of signals, and in no other list.
pub fn keeps_signal_name(facts: &Facts, v: usize) -> bool
    ensures { IsTrue result ↔ K1_Signal facts.now.design facts.now.claims v }
{
    match signal_name(facts, v) {
        None => true,
        Some(name) => is_named_once_as_signal(facts, name),
    }
}

// Whether a name stands once in the order, and neither among the entries of signals nor among those of processes.
fn is_named_once_as_assign(facts: &Facts, name: &[u8]) -> bool
    ensures { IsTrue result ↔
        IsOnlyIn name.now facts.now.claims.order (signal_names facts.now.claims) (process_names facts.now.claims) }
{
    if facts.times_in_order(name) != 1 {
        return false;
    }
    if facts.times_as_signal(name) != 0 {
        return false;
    }
    facts.times_as_process(name) == 0
}

/// Whether a continuous assignment keeps the rule K1: its name stands once in the order, and in no other list.
pub fn keeps_assign_name(facts: &Facts, j: usize) -> bool
    ensures { IsTrue result ↔ K1_Assign facts.now.design facts.now.claims j }
{
    match assign_name(facts, j) {
        None => true,
        Some(name) => {
            if facts.is_in_edges(name) {
                return false;
            }
            is_named_once_as_assign(facts, name)
        }
    }
}

// Whether a name stands once among the entries of processes, and neither among those of signals nor among those of edge terms.
fn is_named_once_as_process(facts: &Facts, name: &[u8]) -> bool
    ensures { IsTrue result ↔
        IsOnlyIn name.now (process_names facts.now.claims) (signal_names facts.now.claims) (edge_names facts.now.claims) }
{
    if facts.times_as_process(name) != 1 {
        return false;
    }
    if facts.times_as_signal(name) != 0 {
        return false;
    }
    !facts.is_in_edges(name)
}

// Whether a name stands in the order as often as that of a process of this kind has to.
fn is_ordered(facts: &Facts, name: &[u8], block: bool) -> bool
    ensures { IsTrue result ↔ IsOrdered block (times_in name.now facts.now.claims.order) }
{
    let times = if block { 1 } else { 0 };
    facts.times_in_order(name) == times
}

/// Whether a process keeps the rule K1: its name stands once among the entries of processes, once in the order too where it is claimed to be a
/// combinational block, and in no other list.
pub fn keeps_process_name(facts: &Facts, i: usize) -> bool
    ensures { IsTrue result ↔ K1_Process facts.now.design facts.now.claims i }
{
    match process_name(facts, i) {
        None => true,
        Some(name) => {
            if !is_named_once_as_process(facts, name) {
                return false;
            }
            is_ordered(facts, name, facts.is_block(i))
        }
    }
}

/// Whether a name of a list keeps the rule K1: it is that of a signal, of a continuous assignment or of a process.
pub fn keeps_name(facts: &Facts, name: &[u8]) -> bool
    ensures { IsTrue result ↔ K1_Name facts.now.design facts.now.claims name.now }
{
    if facts.signal_named(name).is_some() {
        return true;
    }
    if facts.assign_named(name).is_some() {
        return true;
    }
    facts.process_named(name).is_some()
}
