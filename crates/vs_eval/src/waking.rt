//! Whether the change of a word wakes an event control.
ghost use Rattle.std.specs.Prelude.{◌≡◌, ◌==◌, length, Some};
ghost use Rattle.vs_eval.specs.Waking.{edge_digit, edge_word, is_edge_of, term_wakes, word_wakes};

use crate::differences::{difference, sees};
use crate::edge_bits::is_edge_at;
use vs_design::vs_logic4::{Edge, Vec4};
use vs_design::{Bits, EventTerm};

/// Whether the change of a word is such an edge of the lowest bit of a range.
#[inline(always)]
fn is_edge_in(edge: Edge, bits: Option<Bits>, before: Vec4, behind: Vec4) -> bool
    requires { length before ≡ length behind }
    ensures { result ≡ is_edge_of edge (edge_digit bits (Some before)) (edge_digit bits (Some behind)) }
{
    let Some(b) = bits else {
        return is_edge_at(edge, before, behind, 0);
    };
    if b.width == 0 || b.low >= before.width() {
        return false;
    }
    is_edge_at(edge, before, behind, b.low)
}

/// Whether this word is the first of those that a range has.
#[inline(always)]
fn is_edge_word(only: Option<usize>, word: usize) -> bool
    ensures { result ≡ (edge_word only == word) }
{
    match only {
        None => word == 0,
        Some(first) => first == word,
    }
}

/// Whether the change of one word of a signal wakes a term.
#[inline(always)]
fn wakes(term: EventTerm, signal: usize, word: usize, before: Vec4, behind: Vec4) -> bool
    requires { length before ≡ length behind }
    ensures { result ≡ term_wakes signal word (Some before) (Some behind) term }
{
    if term.range.signal != signal {
        return false;
    }
    match term.edge {
        Edge::Any => sees(term.range, word, difference(before, behind)),
        edge => {
            is_edge_word(term.range.word, word) && is_edge_in(edge, term.range.bits, before, behind)
        }
    }
}

/// Whether the change of one word of a signal from `before` to `behind`, which are of one size, wakes one of these terms
/// (IEEE 1364-2005, clause 9.7.2).
#[inline(always)]
pub fn woken(terms: &[EventTerm], signal: usize, word: usize, before: Vec4, behind: Vec4) -> bool
    requires { length before ≡ length behind }
    ensures { result ≡ word_wakes terms.now signal word (Some before) (Some behind) }
{
    if before == behind {
        return false;
    }
    for term in terms {
        if wakes(*term, signal, word, before, behind) {
            return true;
        }
    }
    false
}
