//! The rules of certificates in a sentence each.

use vs_explain_outline::Page;

/// A rule in a sentence.
pub fn sentence_of(number: u8) -> &'static str {
    match number {
        1 =>
            "K1: a certificate names each signal, assignment and process of the design once, and nothing else.",
        2 =>
            "K2: one process writes a signal, and at most one other one at the very start alone, as an initial value does.",
        3 => "K3: a signal is written as its mode says.",
        4 =>
            "K4: the drivers of the combinational part have an order in which each reads only what earlier ones drive.",
        5 =>
            "K5: a combinational block is a function of what it waits for, and writes all its outputs on every path.",
        6 =>
            "K6: an edge is awaited of a variable that one process with delays writes by `=`, or of a net that copies it.",
        7 => "K7: at most one edge wakes a process in a time slot.",
        8 => "K8: the lists of a process have each residue at which its delays can end.",
        9 => "K9: no process reads a variable that another one can write by `=` at the same time.",
        10 =>
            "K10: in the first slot a process reads only what it alone writes, and no clock or reset gets a first edge.",
        _ => "K11: a combinational block that never ran has the outputs that a run would give.",
    }
}

/// Puts a rule in a sentence, and a blank behind it.
pub fn put_rule(page: &mut Page, number: u8) {
    page.put(sentence_of(number));
    page.put(" ");
}
