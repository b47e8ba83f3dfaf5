//! The walk back from a bit that differs in two runs to the two events whose order makes the difference.

use crate::entry::{Bit, Deed, Entry, differing_place};
use crate::log::Log;

/// The most steps of a walk.
const STEPS: usize = 1000;

/// One of the two runs.
#[derive(Clone, Copy, PartialEq, Eq)]
pub(crate) enum Side {
    /// That in the first order.
    First,
    /// The other one.
    Other,
}

impl Side {
    /// The run that isn't this one.
    pub(crate) fn across(self) -> Side {
        match self {
            Side::First => Side::Other,
            Side::Other => Side::First,
        }
    }
}

/// The logs of the two runs.
#[derive(Drop)]
pub(crate) struct Logs {
    pub(crate) first: Log,
    pub(crate) other: Log,
}

/// Two events whose order makes the difference, by their numbers.
#[derive(Clone, Copy)]
pub(crate) enum Pair {
    /// In this run a write comes before a reader; in the other one it comes after it, which is told by its number there. The last number is that of the
    /// read among the reader's.
    Read(Side, usize, usize, usize, usize),
    /// In this run a write comes before a process waits at an event control, and doesn't wake it; in the other one after it.
    Missed(Side, usize, usize),
    /// Two writes, in their order in the first run; in the other one the second comes first.
    Writes(usize, usize),
}

/// What is asked next.
#[derive(Clone, Copy)]
enum Question {
    /// Why a bit differs before these events, the first one of the first run; where they read it, with the number of the read among theirs.
    Bit(Bit, usize, usize, Option<usize>),
    /// Why an event of both runs doesn't do the same; the first number is that of the first run.
    Same(usize, usize),
    /// Why an event is in this run alone.
    Alone(Side, usize),
}

/// What comes of a question.
#[derive(Clone, Copy)]
enum Answer {
    Ask(Question),
    Found(Pair),
    Nothing,
}

impl Logs {
    /// The log of a run.
    pub(crate) fn of(&self, side: Side) -> &Log {
        match side {
            Side::First => &self.first,
            Side::Other => &self.other,
        }
    }

    // The event of the other run with the deed and the turn of one of this run.
    fn twin(&self, side: Side, number: usize) -> Option<usize> {
        let entry = self.of(side).entry(number)?;
        self.of(side.across()).find(entry.deed, entry.turn)
    }

    // The first bit that two events of one deed read with different values, with the number of the read among theirs.
    fn differing_read(&self, one: Entry, two: Entry) -> Option<(Bit, usize)> {
        let later = self.other.reads_of(two);
        for (number, read) in self.first.reads_of(one).iter().enumerate() {
            let second = later.get(number)?;
            if read.signal != second.signal || read.word != second.word {
                return None;
            }
            let place = differing_place(read.value, second.value, read.low, read.width);
            if let Some(place) = place {
                let signal = read.signal;
                let word = read.word;
                let bit = Bit {
                    signal,
                    word,
                    place,
                };
                return Some((bit, number));
            }
        }
        None
    }
}

// The question of an event of this run and one of the other run.
fn same(side: Side, here: usize, there: usize) -> Answer {
    match side {
        Side::First => Answer::Ask(Question::Same(here, there)),
        Side::Other => Answer::Ask(Question::Same(there, here)),
    }
}

// A write of this run, where it comes after an event of the other run there.
fn later_write(logs: &Logs, side: Side, writer: Option<usize>, there: usize) -> Option<usize> {
    let write = writer?;
    let twin = logs.twin(side, write)?;
    if twin > there { Some(write) } else { None }
}

// The last writes of a bit in the two runs.
fn ask_writes(logs: &Logs, one: usize, two: usize) -> Answer {
    match (logs.twin(Side::First, one), logs.twin(Side::Other, two)) {
        (None, _) => Answer::Ask(Question::Alone(Side::First, one)),
        (_, None) => Answer::Ask(Question::Alone(Side::Other, two)),
        (Some(there), Some(here)) => {
            if there == two {
                Answer::Ask(Question::Same(one, two))
            } else if there < two && here < one {
                Answer::Found(Pair::Writes(here, one))
            } else {
                Answer::Nothing
            }
        }
    }
}

// The only write of a bit before an event.
fn ask_write(logs: &Logs, side: Side, number: usize) -> Answer {
    match logs.twin(side, number) {
        Some(twin) => same(side, number, twin),
        None => Answer::Ask(Question::Alone(side, number)),
    }
}

// Why a bit differs before these events.
fn ask_bit(logs: &Logs, bit: Bit, one: usize, two: usize, read: Option<usize>) -> Answer {
    let first = logs.first.last_writer(bit, one);
    let other = logs.other.last_writer(bit, two);
    if let Some(number) = read {
        if let Some(write) = later_write(logs, Side::First, first, two) {
            return Answer::Found(Pair::Read(Side::First, write, one, two, number));
        }
        if let Some(write) = later_write(logs, Side::Other, other, one) {
            return Answer::Found(Pair::Read(Side::Other, write, two, one, number));
        }
    }
    match (first, other) {
        (Some(one), Some(two)) => ask_writes(logs, one, two),
        (Some(one), None) => ask_write(logs, Side::First, one),
        (None, Some(two)) => ask_write(logs, Side::Other, two),
        (None, None) => Answer::Nothing,
    }
}

// What stands behind two events, where it is of one deed.
fn ask_next(logs: &Logs, one: Option<usize>, two: Option<usize>) -> Answer {
    let (Some(one), Some(two)) = (one, two) else {
        return Answer::Nothing;
    };
    match (logs.first.entry(one), logs.other.entry(two)) {
        (Some(first), Some(other)) if first.deed == other.deed => {
            Answer::Ask(Question::Same(one, two))
        }
        _ => Answer::Nothing,
    }
}

// Why an event of both runs doesn't do the same.
fn ask_same(logs: &Logs, one: usize, two: usize) -> Answer {
    let (Some(first), Some(other)) = (logs.first.entry(one), logs.other.entry(two)) else {
        return Answer::Nothing;
    };
    match first.deed {
        Deed::Propagate(_) | Deed::Update(_, _) => ask_next(logs, first.cause, other.cause),
        Deed::Late => Answer::Nothing,
        Deed::Step(_, _) | Deed::Evaluate(_) => match logs.differing_read(first, other) {
            Some((bit, number)) => Answer::Ask(Question::Bit(bit, one, two, Some(number))),
            None => ask_next(logs, first.before, other.before),
        },
    }
}

// The evaluation before one, where it is in both runs and reads another value.
fn earlier_evaluation(logs: &Logs, entry: Entry) -> Option<Answer> {
    let Deed::Evaluate(_) = entry.deed else {
        return None;
    };
    let turn = entry.turn.checked_sub(1)?;
    let one = logs.first.find(entry.deed, turn)?;
    let two = logs.other.find(entry.deed, turn)?;
    let first = logs.first.entry(one)?;
    let other = logs.other.entry(two)?;
    let _ = logs.differing_read(first, other)?;
    Some(Answer::Ask(Question::Same(one, two)))
}

// Why an event is in this run alone.
fn ask_alone(logs: &Logs, side: Side, number: usize) -> Answer {
    let Some(entry) = logs.of(side).entry(number) else {
        return Answer::Nothing;
    };
    if let Some(answer) = earlier_evaluation(logs, entry) {
        return answer;
    }
    let Some(cause) = entry.cause else {
        return Answer::Nothing;
    };
    let Some(twin) = logs.twin(side, cause) else {
        return Answer::Ask(Question::Alone(side, cause));
    };
    if entry.woken
        && let Some(arrival) = entry.before
    {
        let Some(there) = logs.twin(side, arrival) else {
            return Answer::Ask(Question::Alone(side, arrival));
        };
        if twin < there {
            return Answer::Found(Pair::Missed(side.across(), twin, there));
        }
    }
    same(side, cause, twin)
}

/// The pair of events that makes a bit differ at the end of the slot, where the walk finds one.
pub(crate) fn pair_of(logs: &Logs, bit: Bit) -> Option<Pair> {
    let one = logs.first.entries.len();
    let two = logs.other.entries.len();
    let mut question = Question::Bit(bit, one, two, None);
    for _ in 0..STEPS {
        let answer = match question {
            Question::Bit(bit, one, two, read) => ask_bit(logs, bit, one, two, read),
            Question::Same(one, two) => ask_same(logs, one, two),
            Question::Alone(side, number) => ask_alone(logs, side, number),
        };
        match answer {
            Answer::Ask(next) => question = next,
            Answer::Found(pair) => return Some(pair),
            Answer::Nothing => return None,
        }
    }
    None
}
