//! By what residues may be counted.

use crate::plans::{EdgePlan, KindPlan, Plan};
use crate::vs_certificate::Rules;
use crate::{TextFacts, Timing, common_divisor};
use std::alloc::{AllocError, Global};
use vs_design::Design;

/// The greatest modulus of a certificate.
const MAX_MODULUS: u64 = 1 << 32;

/// How many multiples of a turn are tried.
const MULTIPLES: u64 = 16;

/// How many moduli are tried that the delays of texts suggest.
const MAX_SUGGESTED: usize = 40;

/// All moduli up to this one are tried where a design is small.
const MAX_SMALL: u64 = 200;

/// How many places and signals the verdicts by small moduli may take in all.
const MAX_SIZE: u64 = 1 << 19;

// The least common multiple; none above the greatest modulus.
fn common_multiple(a: u64, b: u64) -> Option<u64> {
    let divisor = common_divisor(a, b);
    if divisor == 0 {
        return None;
    }
    let multiple = (a / divisor).checked_mul(b)?;
    if multiple <= MAX_MODULUS {
        Some(multiple)
    } else {
        None
    }
}

// Puts a modulus at a list's end, where it is one and isn't there.
fn put(moduli: &mut Vec<u64>, modulus: Option<u64>) -> Result<(), AllocError> {
    if let Some(m) = modulus {
        if 0 < m && m <= MAX_MODULUS && !moduli.contains(&m) {
            moduli.push(m)?;
        }
    }
    Ok(())
}

// Puts one that the delays of texts suggest, unless there are enough of them.
fn suggest(moduli: &mut Vec<u64>, modulus: Option<u64>) -> Result<(), AllocError> {
    if moduli.len() < MAX_SUGGESTED {
        put(moduli, modulus)?;
    }
    Ok(())
}

/// For each of so many signals whether a signal of an edge term copies it.
pub(crate) fn root_marks(
    alloc: Global,
    signals: usize,
    edges: &[EdgePlan],
) -> Result<Vec<bool>, AllocError> {
    let mut marks = vec![in alloc; false; signals]?;
    for edge in edges {
        if let Some(mark) = marks.get_mut(edge.root) {
            *mark = true;
        }
    }
    Ok(marks)
}

// Whether a text writes a signal that is marked.
fn writes_marked(text: &TextFacts, marks: &[bool]) -> bool {
    text.writes.iter().any(|write| match marks.get(write.signal) {
        None => false,
        Some(mark) => *mark,
    })
}

// Whether a text turns a signal over as a clock is: by wide rules `!` does it too.
fn turns_clocks(timing: Timing, rules: Rules) -> bool {
    timing.turns_over || (timing.negates && rules.is_wide())
}

// The time of a turn of a text; of two, where it turns a signal that is marked over: after one turn that has its other edge.
fn period_of(text: &TextFacts, rules: Rules, marks: &[bool]) -> u64 {
    if turns_clocks(text.timing, rules) && writes_marked(text, marks) {
        text.timing.period.saturating_mul(2)
    } else {
        text.timing.period
    }
}

// Whether a process is to be claimed to wait for times and for edges: the time of its turns isn't that of its delays alone.
fn is_mixed(kinds: &[KindPlan], i: usize) -> bool {
    match kinds.get(i) {
        None => false,
        Some(kind) => matches!(kind, KindPlan::Mixed),
    }
}

// What all turns of the texts of a plan are multiples of in time, but for those of mixed ones: 1 where there are none.
fn turn_of(plan: &Plan, marks: &[bool]) -> Option<u64> {
    let mut turn = 1;
    for i in 0..plan.texts.len() {
        let period = if is_mixed(&plan.kinds, i) {
            0
        } else {
            period_of(&plan.texts[i], plan.rules, marks)
        };
        if period > 0 {
            turn = common_multiple(turn, period)?;
        }
    }
    Some(turn)
}

// A time by which each text has come to each of its places.
fn last_of(texts: &[TextFacts]) -> u64 {
    let mut last = 0;
    for text in texts {
        last = text.timing.last.max(last);
    }
    last
}

// The least multiple of a number above a time.
fn multiple_above(turn: u64, time: u64) -> Option<u64> {
    if turn == 0 {
        return None;
    }
    (time / turn).checked_add(1)?.checked_mul(turn)
}

// Suggests a turn, and its multiples.
fn suggest_multiples(
    moduli: &mut Vec<u64>,
    turn: Option<u64>,
    last: u64,
) -> Result<(), AllocError> {
    let Some(turn) = turn else {
        return Ok(());
    };
    suggest(moduli, Some(turn))?;
    suggest(moduli, multiple_above(turn, last))?;
    for k in 2..=MULTIPLES {
        suggest(moduli, turn.checked_mul(k))?;
    }
    Ok(())
}

// Suggests the turns of single texts of a plan.
fn suggest_periods(moduli: &mut Vec<u64>, plan: &Plan, marks: &[bool]) -> Result<(), AllocError> {
    for text in &plan.texts {
        suggest(moduli, Some(period_of(text, plan.rules, marks)))?;
        suggest(moduli, Some(text.timing.period))?;
    }
    Ok(())
}

// How many places and signals a verdict on a certificate of a plan looks at.
fn size_of(design: &Design, texts: &[TextFacts]) -> u64 {
    let mut size = (design.signals().len() as u64).saturating_add(design.assigns().len() as u64);
    for text in texts {
        size = size.saturating_add(text.places as u64);
    }
    size
}

// How many small moduli are tried for a design of this size.
fn small_moduli(size: u64) -> u64 {
    if size == 0 {
        MAX_SMALL
    } else {
        (MAX_SIZE / size).min(MAX_SMALL)
    }
}

/// The moduli that are to be tried, in order. First come at most 40 that the delays suggest: multiples of the time after which all texts are where
/// they were, and signals of edge terms as they were; then of the time of their turns alone; then the turns of single ones. Then come those from 1 to
/// 200, or fewer for a large design: verdicts by them look at half a million places of texts, signals and continuous assignments in all.
pub fn moduli_of(alloc: Global, design: &Design, plan: &Plan) -> Result<Vec<u64>, AllocError> {
    let marks = root_marks(alloc, design.signals().len(), &plan.edges)?;
    let last = last_of(&plan.texts);
    let mut moduli = Vec::new(alloc);
    let doubled = turn_of(plan, &marks);
    let plain = turn_of(plan, &[]);
    suggest(&mut moduli, doubled)?;
    suggest(&mut moduli, plain)?;
    suggest_multiples(&mut moduli, doubled, last)?;
    suggest_multiples(&mut moduli, plain, last)?;
    suggest_periods(&mut moduli, plan, &marks)?;
    put(&mut moduli, Some(1))?;
    for modulus in 2..=small_moduli(size_of(design, &plan.texts)) {
        put(&mut moduli, Some(modulus))?;
    }
    Ok(moduli)
}
