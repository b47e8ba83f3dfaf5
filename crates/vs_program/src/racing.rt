//! The search for a race, and what is told of it.
ghost use Rattle.std.specs.Prelude.{◌≡◌, ◌++◌, ◌<◌, ◌^◌, IfOk, IfErr, OnOk, false, true};
ghost use Rattle.vs_design.specs.vs_logic4.specs.Tables.{letter};
ghost use Rattle.vs_sign_off.specs.vs_simulate.specs.Honesty.{SimulationFails, is_refusal};
ghost use Rattle.vs_program.specs.Races.{HasBegunRace, IsRaceText, WroteDumps, WroteRace, race_line, race_status, row_line, value_text, witness_line};

use crate::doing::show;
use crate::texts::{DONE, LIMITED, REFUSED, proposal_line};
use std::alloc::{AllocError, Global};
use vs_design::vs_logic4::{Digit, Vec4};
use vs_elaborate::vs_scopes::push_bytes;
use vs_outputs::vs_explain::{Asked, explain_pair};
use vs_outputs::{explained, push_sources};
use vs_preprocess::Places;
use vs_program_words::vs_certificate::Rules;
use vs_program_words::{Call, Hunt, Sources};
use vs_sign_off::vs_propose::Proposal;
use vs_sign_off::vs_simulate::SimFault;
use vs_sign_off::vs_vcd_writing::Sink;
use vs_sign_off::{LineWitness, Missed, Race, Search, Span, Watch, Witness, race_by, write_dumps};

/// How many orders are tried where a race is sought for a design without a certificate.
const TRIES: u64 = 100;

/// The most steps of each of these runs.
const STEPS: u64 = 100_000;

/// The last moment of a run, in ticks.
const LAST: u64 = (1 << 62) - 1;

// The character of a digit.
fn character(digit: Digit) -> u8
    ensures { result ≡ letter digit }
{
    match digit {
        Digit::Zero => b'0',
        Digit::One => b'1',
        Digit::X => b'x',
        Digit::Z => b'z',
    }
}

// Puts the digits of a value, the highest first, behind a text.
fn push_value(text: &mut Vec<u8>, value: Vec4) -> Result<(), AllocError>
    ensures { OnOk result (text.new.items ≡ text.old.items ++ value_text value) }
{
    let mut left = value.width();
    while left > 0 {
        left -= 1;
        text.push(character(value.digit(left)))?;
    }
    Ok(())
}

// The line of a race.
fn witness_line(alloc: Global, witness: &Witness) -> Result<Vec<u8>, AllocError>
    ensures { IfOk result (λ line. line.items ≡ witness_line witness.now) }
{
    let time = witness.time.to_string(alloc)?;
    let mut line = Vec::new(alloc);
    push_bytes(&mut line, &witness.path)?;
    line.extend_from_slice(b" at ")?;
    line.extend_from_slice(time.as_bytes())?;
    line.extend_from_slice(b": ")?;
    push_value(&mut line, witness.first)?;
    line.extend_from_slice(b" or ")?;
    push_value(&mut line, witness.other)?;
    line.push(b'\n')?;
    Ok(line)
}

// The line of a race in what `$strobe` prints.
fn row_line(alloc: Global, witness: &LineWitness) -> Result<Vec<u8>, AllocError>
    ensures { IfOk result (λ line. line.items ≡ row_line witness.now) }
{
    let time = witness.time.to_string(alloc)?;
    let first = witness.first.to_string(alloc)?;
    let other = witness.other.to_string(alloc)?;
    let mut line = Vec::new(alloc);
    line.extend_from_slice(b"line `")?;
    line.extend_from_slice(&witness.row)?;
    line.extend_from_slice(b"` to ")?;
    line.extend_from_slice(time.as_bytes())?;
    line.extend_from_slice(b": ")?;
    line.extend_from_slice(first.as_bytes())?;
    line.extend_from_slice(b" or ")?;
    line.extend_from_slice(other.as_bytes())?;
    line.extend_from_slice(b" times\n")?;
    Ok(line)
}

// The first line of what is told.
fn race_line(alloc: Global, race: &Race) -> Result<Vec<u8>, AllocError>
    ensures { IfOk result (λ line. line.items ≡ race_line race.now) }
{
    match race {
        Race::Certified(_) => Vec::from_slice(
            alloc,
            b"certified: no order of events makes a difference\n",
        ),
        Race::Found(witness, _) => witness_line(alloc, witness),
        Race::FoundLine(witness, _) => row_line(alloc, witness),
        Race::NotFound(_, _) => Vec::from_slice(alloc, b"none found\n"),
    }
}

// Puts the choices of an order behind a text, as `17..22=1,30..30=2`.
fn push_choices(alloc: Global, text: &mut Vec<u8>, choices: &[Span]) -> Result<(), AllocError> {
    for (place, span) in choices.iter().enumerate() {
        let (first, last, item) = (span.first, span.last, span.item);
        let piece = format!(in alloc; "{first}..{last}={item}")?;
        if place > 0 {
            text.push(b',')?;
        }
        text.extend_from_slice(piece.as_bytes())?;
    }
    Ok(())
}

// Puts the words of the run that shows a race, without the choices of its order.
fn push_run(
    alloc: Global,
    text: &mut Vec<u8>,
    sources: &Sources,
    top: &str,
    time: u64,
) -> Result<(), AllocError> {
    let words = format!(in alloc; ": vsim run --top {top}")?;
    text.extend_from_slice(words.as_bytes())?;
    push_sources(text, &sources.files, &sources.defines, &sources.folders)?;
    let words = format!(in alloc; " --until {time}")?;
    text.extend_from_slice(words.as_bytes())
}

// Puts the choices of the order of a run behind its words.
fn push_order(alloc: Global, text: &mut Vec<u8>, choices: &[Span]) -> Result<(), AllocError> {
    text.extend_from_slice(b" --policy list:")?;
    push_choices(alloc, text, choices)?;
    text.push(b'\n')?;
    Ok(())
}

// Puts the two runs that show a race in a signal.
fn push_runs(
    alloc: Global,
    text: &mut Vec<u8>,
    sources: &Sources,
    top: &str,
    witness: &Witness,
) -> Result<(), AllocError> {
    text.extend_from_slice(b"  ")?;
    push_value(text, witness.first)?;
    push_run(alloc, text, sources, top, witness.time)?;
    text.extend_from_slice(b" --out vcd\n  ")?;
    push_value(text, witness.other)?;
    push_run(alloc, text, sources, top, witness.time)?;
    text.extend_from_slice(b" --out vcd")?;
    push_order(alloc, text, &witness.choices)
}

// Puts the two runs that show a race in what `$strobe` prints.
fn push_line_runs(
    alloc: Global,
    text: &mut Vec<u8>,
    sources: &Sources,
    top: &str,
    witness: &LineWitness,
) -> Result<(), AllocError> {
    let first = witness.first;
    let other = witness.other;
    let count = format!(in alloc; "  {first}")?;
    text.extend_from_slice(count.as_bytes())?;
    push_run(alloc, text, sources, top, witness.time)?;
    let count = format!(in alloc; "\n  {other}")?;
    text.extend_from_slice(count.as_bytes())?;
    push_run(alloc, text, sources, top, witness.time)?;
    push_order(alloc, text, &witness.choices)
}

// Puts the two lines on the events whose order makes the difference, where they are found.
fn push_pair(
    alloc: Global,
    text: &mut Vec<u8>,
    source: &[u8],
    places: Option<&Places>,
    top: &str,
    witness: &Witness,
    steps: u64,
) -> Result<(), AllocError> {
    let asked = Asked {
        time: witness.time,
        signal: witness.signal,
        first: witness.first,
        other: witness.other,
        choices: &witness.choices,
        steps,
    };
    let explanation = explain_pair(alloc, source, top.as_bytes(), &asked)?;
    let lines = explained(alloc, &explanation, source, places)?;
    text.extend_from_slice(&lines)
}

// Puts what was tried in vain.
fn push_missed(
    alloc: Global,
    text: &mut Vec<u8>,
    missed: Missed,
    search: &Search,
) -> Result<(), AllocError> {
    let (tries, stuck, until) = (missed.tries, missed.stuck, search.until);
    let tried = format!(in alloc; "  {tries} orders to {until} make no difference\n")?;
    text.extend_from_slice(tried.as_bytes())?;
    if stuck > 0 {
        let ended = format!(in alloc;
            "  {stuck} of them ended no time within the steps, and count for nothing\n"
        )?;
        text.extend_from_slice(ended.as_bytes())?;
    }
    text.extend_from_slice(b"  this proves nothing: another order may differ\n")?;
    Ok(())
}

// Puts why no certificate was made.
fn push_refused(alloc: Global, text: &mut Vec<u8>, refused: &Proposal) -> Result<(), AllocError> {
    text.extend_from_slice(b"  certificate: ")?;
    text.extend_from_slice(&proposal_line(alloc, refused)?)
}

// Puts what is told of a race that was found behind its first line, but for why no certificate was made.
fn push_found(
    alloc: Global,
    text: &mut Vec<u8>,
    source: &[u8],
    call: &Call,
    places: Option<&Places>,
    race: &Race,
    top: &str,
    steps: u64,
) -> Result<(), AllocError> {
    let sources = &call.sources;
    match race {
        Race::Found(witness, _) => {
            push_pair(alloc, text, source, places, top, witness, steps)?;
            push_runs(alloc, text, sources, top, witness)
        }
        Race::FoundLine(witness, _) => push_line_runs(alloc, text, sources, top, witness),
        Race::Certified(_) | Race::NotFound(_, _) => Ok(()),
    }
}

// What is told behind the first line.
fn more_text(
    alloc: Global,
    source: &[u8],
    call: &Call,
    places: Option<&Places>,
    race: &Race,
    top: &str,
    search: &Search,
) -> Result<Vec<u8>, AllocError> {
    let mut text = Vec::new(alloc);
    push_found(
        alloc,
        &mut text,
        source,
        call,
        places,
        race,
        top,
        search.steps,
    )?;
    match race {
        Race::Certified(_) => {}
        Race::Found(_, refused) | Race::FoundLine(_, refused) => {
            push_refused(alloc, &mut text, refused)?;
        }
        Race::NotFound(missed, refused) => {
            push_missed(alloc, &mut text, *missed, search)?;
            push_refused(alloc, &mut text, refused)?;
        }
    }
    Ok(text)
}

// What is told.
fn race_text(
    alloc: Global,
    source: &[u8],
    call: &Call,
    places: Option<&Places>,
    race: &Race,
    top: &str,
    search: &Search,
) -> Result<Vec<u8>, AllocError>
    ensures { IfOk result (λ text. IsRaceText race.now text.items) }
{
    let mut text = race_line(alloc, race)?;
    let more = more_text(alloc, source, call, places, race, top, search)?;
    text.extend_from_slice(&more)?;
    Ok(text)
}

// What the words of a call seek.
fn search_of(hunt: Hunt) -> Search
    ensures until { result.until < 2 ^ 62 }
    ensures steps { result.steps < 2 ^ 62 }
{
    Search {
        from: hunt.from.count,
        until: hunt.until.count,
        steps: hunt.steps.count,
        tries: hunt.tries.count,
        seed: hunt.seed.count,
    }
}

/// Looks for a race; what is told of it goes to the sink.
pub(crate) fn tell_race<'s, S: Sink, W: Watch>(
    alloc: Global,
    hunt: Hunt,
    source: &'s [u8],
    call: &Call,
    places: Option<&Places>,
    shown: &mut S,
    watch: &mut W,
) -> Result<Race, SimFault<'s>>
    ensures ok { IfOk result (λ r.
        WroteRace hunt.entry.rules source.entry.now hunt.entry.top.now r (S.bytes shown.old) (S.bytes shown.new)) }
    ensures err { IfErr result (λ fault. SimulationFails source.entry.now hunt.entry.top.now fault) }
    ensures refused { IfErr result (λ fault. is_refusal fault ≡ true → shown.new ≡ shown.old) }
    ensures begun { IfErr result (λ fault. is_refusal fault ≡ false →
        HasBegunRace hunt.entry.rules source.entry.now hunt.entry.top.now (S.bytes shown.old) (S.bytes shown.new)) }
{
    let search = search_of(hunt);
    let found = race_by(
        alloc,
        hunt.rules,
        source,
        hunt.top.as_bytes(),
        &search,
        watch,
    )?;
    let text = race_text(alloc, source, call, places, &found, hunt.top, &search)?;
    show(shown, &text)?;
    Ok(found)
}

// Writes the dumps of the two runs of a race, where one was found.
fn write_pair<'s, V: Sink>(
    alloc: Global,
    source: &'s [u8],
    top: &[u8],
    race: &Race,
    steps: u64,
    first: &mut V,
    other: &mut V,
) -> Result<(), SimFault<'s>>
    requires steps { steps < 2 ^ 62 }
    ensures dumps { OnOk result (WroteDumps source.entry.now top.now race.now steps
        (V.bytes first.old) (V.bytes first.new) (V.bytes other.old) (V.bytes other.new)) }
    ensures fault { IfErr result (λ fault. SimulationFails source.entry.now top.now fault) }
    ensures refused { IfErr result (λ fault. is_refusal fault ≡ true → (first.new ≡ first.old) × (other.new ≡ other.old)) }
{
    match race {
        Race::Found(w, _) => {
            write_dumps(alloc, source, top, &w.choices, w.time, steps, first, other)
        }
        Race::FoundLine(w, _) => {
            write_dumps(alloc, source, top, &w.choices, w.time, steps, first, other)
        }
        Race::Certified(_) | Race::NotFound(_, _) => Ok(()),
    }
}

/// The same; the dumps of the two runs of a race that was found go to two sinks.
pub(crate) fn tell_race_pair<'s, S: Sink, V: Sink, W: Watch>(
    alloc: Global,
    hunt: Hunt,
    source: &'s [u8],
    call: &Call,
    places: Option<&Places>,
    shown: &mut S,
    first: &mut V,
    other: &mut V,
    watch: &mut W,
) -> Result<Race, SimFault<'s>>
    ensures ok { IfOk result (λ r.
        WroteRace hunt.entry.rules source.entry.now hunt.entry.top.now r (S.bytes shown.old) (S.bytes shown.new)) }
    ensures dumps { IfOk result (λ r. WroteDumps source.entry.now hunt.entry.top.now r hunt.entry.steps.count
        (V.bytes first.old) (V.bytes first.new) (V.bytes other.old) (V.bytes other.new)) }
    ensures err { IfErr result (λ fault. SimulationFails source.entry.now hunt.entry.top.now fault) }
    ensures refused { IfErr result (λ fault. is_refusal fault ≡ true →
        (shown.new ≡ shown.old) × (first.new ≡ first.old) × (other.new ≡ other.old)) }
    ensures begun { IfErr result (λ fault. is_refusal fault ≡ false →
        HasBegunRace hunt.entry.rules source.entry.now hunt.entry.top.now (S.bytes shown.old) (S.bytes shown.new)) }
{
    let search = search_of(hunt);
    let top = hunt.top.as_bytes();
    let found = race_by(alloc, hunt.rules, source, top, &search, watch)?;
    let text = race_text(alloc, source, call, places, &found, hunt.top, &search)?;
    let steps = hunt.steps.count;
    write_pair(alloc, source, top, &found, steps, first, other)?;
    show(shown, &text)?;
    Ok(found)
}

// What a design without a certificate is searched for.
fn usual_search() -> Search
    ensures until { result.until < 2 ^ 62 }
    ensures steps { result.steps < 2 ^ 62 }
{
    Search {
        from: 0,
        until: LAST,
        steps: STEPS,
        tries: TRIES,
        seed: 0,
    }
}

/// What is told of a race of a design for which no certificate was made: the race, where one is found within 100 orders of at most 100,000 steps.
pub(crate) fn sought_race<W: Watch>(
    alloc: Global,
    rules: Rules,
    source: &[u8],
    call: &Call,
    places: Option<&Places>,
    top: &str,
    watch: &mut W,
) -> Result<Vec<u8>, AllocError> {
    let search = usual_search();
    let Ok(found) = race_by(alloc, rules, source, top.as_bytes(), &search, watch) else {
        return Err(AllocError);
    };
    let mut text = Vec::new(alloc);
    if let Race::Found(_, _) | Race::FoundLine(_, _) = &found {
        text.extend_from_slice(b"a race was found: ")?;
        text.extend_from_slice(&race_line(alloc, &found)?)?;
        push_found(alloc, &mut text, source, call, places, &found, top, STEPS)?;
    } else {
        text.extend_from_slice(
            b"no race was found in 100 orders of at most 100000 steps; this proves nothing\n",
        )?;
    }
    Ok(text)
}

/// The exit status of what a search came to.
pub(crate) fn race_status(race: &Race) -> u8
    ensures { result ≡ race_status race.now }
{
    match race {
        Race::Certified(_) => DONE,
        Race::Found(_, _) | Race::FoundLine(_, _) => REFUSED,
        Race::NotFound(_, _) => LIMITED,
    }
}
