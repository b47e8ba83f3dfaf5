//! Rows of races: designs, and whether two orders of events are found under which they have different values.
use std::alloc::{AllocError, Global};
use vs_explain::{Asked, explain_pair};
use vs_row_files::{Answers, Text, first_and_rest};
use vs_run_steps::Dropped;
use vs_sign_off::vs_simulate::{Policy, simulate};
use vs_sign_off::{LineWitness, Race, Search, Span, Unwatched, Witness, choices_of, race};
use vs_vcd_writing::Counted;

/// How many steps a run may take.
const STEPS: u64 = 20_000;

/// Who looks for races.
#[derive(Clone, Copy)]
pub(crate) struct Races;

/// The dump of a run to a moment.
fn dump_of(
    alloc: Global,
    source: &[u8],
    top: &[u8],
    time: u64,
    policy: &Policy,
) -> Option<Vec<u8>> {
    if time >= 1 << 62 {
        return None;
    }
    let mut dump = Counted::new(Vec::new(alloc));
    let answered = simulate(
        alloc,
        source,
        top,
        time,
        STEPS,
        policy,
        &mut dump,
        &mut Dropped,
    );
    match answered {
        Ok(_) => Some(dump.into_inner()),
        Err(_) => None,
    }
}

/// Whether the runs under the two orders of a race write different dumps.
fn is_shown(alloc: Global, source: &[u8], top: &[u8], witness: &Witness) -> bool {
    let Ok(choices) = choices_of(alloc, &witness.choices, STEPS) else {
        return false;
    };
    let first = dump_of(alloc, source, top, witness.time, &Policy::Fifo);
    let other = dump_of(alloc, source, top, witness.time, &Policy::Listed(&choices));
    match (first, other) {
        (Some(one), Some(two)) => one.as_slice() != two.as_slice(),
        _ => false,
    }
}

/// Puts the choices of an order.
fn put_choices(choices: &[Span], text: &mut Text) {
    for span in choices {
        text.put(b" ");
        text.put_shown(span.first);
        if span.last > span.first {
            text.put(b"..");
            text.put_shown(span.last);
        }
        text.put(b"=");
        text.put_shown(span.item);
    }
}

/// Puts a race: whether both runs show it, and where it is told, the signal, the moment and the choices.
fn put_race(source: &[u8], top: &[u8], witness: &Witness, tells: bool, text: &mut Text) {
    if !is_shown(text.alloc(), source, top, witness) {
        text.put(b"a race that its orders don't show");
        return;
    }
    text.put(b"a race");
    if tells {
        text.put(b" of ");
        text.put(&witness.path);
        text.put(b" at ");
        text.put_shown(witness.time);
        text.put(b":");
        put_choices(&witness.choices, text);
    }
}

/// What a run to a moment prints.
fn lines_of(
    alloc: Global,
    source: &[u8],
    top: &[u8],
    time: u64,
    policy: &Policy,
) -> Option<Vec<u8>> {
    if time >= 1 << 62 {
        return None;
    }
    let mut lines = Counted::new(Vec::new(alloc));
    let answered = simulate(
        alloc,
        source,
        top,
        time,
        STEPS,
        policy,
        &mut Dropped,
        &mut lines,
    );
    match answered {
        Ok(_) => Some(lines.into_inner()),
        Err(_) => None,
    }
}

/// How often a row stands in a text.
fn count_of(text: &[u8], row: &[u8]) -> u64 {
    let mut count: u64 = 0;
    for line in text.split(|byte| *byte == b'\n') {
        if line == row {
            count = count.saturating_add(1);
        }
    }
    count
}

/// Whether the runs under the two orders of a race in what `$strobe` prints print a row so often.
fn is_printed(alloc: Global, source: &[u8], top: &[u8], witness: &LineWitness) -> bool {
    let Ok(choices) = choices_of(alloc, &witness.choices, STEPS) else {
        return false;
    };
    let row = witness.row.as_slice();
    let first = lines_of(alloc, source, top, witness.time, &Policy::Fifo);
    let other = lines_of(alloc, source, top, witness.time, &Policy::Listed(&choices));
    match (first, other) {
        (Some(one), Some(two)) => {
            count_of(&one, row) == witness.first && count_of(&two, row) == witness.other
        }
        _ => false,
    }
}

/// Puts a race in what `$strobe` prints: whether both runs print it; then the row, the moment and how often.
fn put_line_race(source: &[u8], top: &[u8], witness: &LineWitness, text: &mut Text) {
    if !is_printed(text.alloc(), source, top, witness) {
        text.put(b"a race that its orders don't show");
        return;
    }
    text.put(b"a race of lines `");
    text.put(&witness.row);
    text.put(b"` to ");
    text.put_shown(witness.time);
    text.put(b": ");
    text.put_shown(witness.first);
    text.put(b" or ");
    text.put_shown(witness.other);
}

/// The two lines on the events whose order makes the difference of a race.
fn pair_text(
    alloc: Global,
    source: &[u8],
    top: &[u8],
    witness: &Witness,
) -> Result<Vec<u8>, AllocError> {
    let asked = Asked {
        time: witness.time,
        signal: witness.signal,
        first: witness.first,
        other: witness.other,
        choices: &witness.choices,
        steps: STEPS,
    };
    explain_pair(alloc, source, top, &asked)?.plain(alloc, source, &[])
}

/// Puts the signal and the moment of a race, and the lines on its two events, one behind another.
fn put_pair(source: &[u8], top: &[u8], witness: &Witness, text: &mut Text) {
    text.put(&witness.path);
    text.put(b" at ");
    text.put_shown(witness.time);
    let Ok(lines) = pair_text(text.alloc(), source, top, witness) else {
        return;
    };
    for line in lines.split(|byte| *byte == b'\n') {
        if !line.is_empty() {
            text.put(b" /");
            text.put(line.strip_prefix(b" ").unwrap_or(line));
        }
    }
}

impl Answers for Races {
    fn answer(&self, words: &str, question: &str, text: &mut Text) {
        let (kind, rest) = first_and_rest(words, " ");
        let (top, rest) = first_and_rest(rest, " ");
        let (until, rest) = first_and_rest(rest, " ");
        let until: u32 = until.parse().ok().unwrap_or(0);
        let tries: u32 = rest.parse().ok().unwrap_or(100);
        let search = Search {
            from: 0,
            until: u64::from(until),
            steps: STEPS,
            tries: u64::from(tries),
            seed: 0,
        };
        let answered = race(
            text.alloc(),
            question.as_bytes(),
            top.as_bytes(),
            &search,
            &mut Unwatched,
        );
        match &answered {
            Ok(Race::Certified(_)) => text.put(b"certified"),
            Ok(Race::Found(witness, _)) if kind == "pair" => {
                put_pair(question.as_bytes(), top.as_bytes(), witness, text)
            }
            Ok(Race::Found(witness, _)) => {
                put_race(
                    question.as_bytes(),
                    top.as_bytes(),
                    witness,
                    kind == "told",
                    text,
                )
            }
            Ok(Race::FoundLine(witness, _)) => {
                put_line_race(question.as_bytes(), top.as_bytes(), witness, text)
            }
            Ok(Race::NotFound(_, _)) => text.put(b"none found"),
            Err(_) => text.put(b"refused"),
        }
        text.put(b"\n");
    }
}
