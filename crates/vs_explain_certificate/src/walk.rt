//! What is refused of a JSON text that is to be a certificate.
//!
//! One walk over the tokens looks for what has another form than that of a certificate; one more, where the modulus is known, for what passes a
//! limit. Of several members of one name the last counts.

use crate::forms::{Form, MOST_MEMBERS};
use json::{Reader, Scratch, Token};
use std::alloc::{AllocError, Global};
use vs_certificate::Rules;

/// How deep arrays and objects nest at most.
const DEPTH_LIMIT: usize = 127;

/// The greatest modulus.
const MOST_MODULUS: u64 = 4294967296;

/// The most entries of a list that is none of residues.
const MOST_ENTRIES: usize = 65536;

/// The numbers of members of a certificate, of a process and of a signal.
const MODULUS: usize = 2;

const VERSION: usize = 6;

const DISPLAYS: usize = 7;

const KIND: usize = 0;

const SLOTS: usize = 2;

const START: usize = 3;

const MODE: usize = 0;

/// Why a value is refused.
#[derive(Clone, Copy)]
pub(crate) enum Why {
    /// It hasn't the form that is wanted.
    Other(Form),
    /// The object of this form lacks the members of these numbers.
    Lacks(Form, [bool; MOST_MEMBERS]),
    /// The object has no such member.
    Unknown(Form),
    /// It goes against the kind of its process.
    AgainstKind,
    /// Version 1 has no such thing.
    AgainstVersion,
    /// Only version 3 has such a kind or mode.
    OfLater(Form),
    /// The list has too many entries: more than so many.
    Long(usize),
    /// A residue doesn't rise, or isn't below the modulus.
    Residue,
    /// The modulus passes its limit.
    Modulus,
}

/// A value that is refused, or the place of a member that is missing.
#[derive(Clone, Copy)]
pub(crate) struct Flaw {
    pub(crate) place: usize,
    pub(crate) why: Why,
}

/// What is seen of a value.
#[derive(Clone, Copy)]
struct Seen<'c> {
    /// Where it begins.
    place: usize,
    /// The text or the number that it is, where it is one.
    text: &'c str,
    /// How many entries it has.
    count: usize,
    /// The first flaw in it.
    flaw: Option<Flaw>,
}

/// What is seen of the members of an object, by their numbers.
type Members<'c> = [Option<Seen<'c>>; MOST_MEMBERS];

/// What is seen of a whole text.
#[derive(Clone, Copy)]
pub(crate) struct Whole {
    /// The first flaw in it.
    pub(crate) flaw: Option<Flaw>,
    /// Where its version stands, and whether that is 3.
    pub(crate) version: Option<usize>,
    pub(crate) is_third: bool,
    /// Its modulus.
    pub(crate) modulus: Option<u64>,
}

impl Whole {
    /// The limits of a certificate of its version and modulus.
    pub(crate) fn limits(&self) -> Limits {
        Limits {
            modulus: self.modulus.unwrap_or(0),
            residues: if self.is_third { 4096 } else { 64 },
        }
    }
}

/// The limits of a certificate of a version and a modulus.
#[derive(Clone, Copy)]
pub(crate) struct Limits {
    /// What its residues are below.
    modulus: u64,
    /// How many residues a list of them has at most.
    residues: usize,
}

/// An object or a list that is open.
#[derive(Clone, Copy)]
struct Frame<'c> {
    form: Form,
    /// Where it begins.
    place: usize,
    /// The form of its next value.
    wanted: Form,
    /// Of an object what is seen of its members, and the number of the one whose value is next.
    members: Members<'c>,
    member: usize,
    /// Of a list how many entries it has so far, and what its next residue is at least.
    count: usize,
    least: u64,
    /// The first flaw in the entries of a list, or the first member that an object can't have.
    flaw: Option<Flaw>,
}

/// A walk over the tokens of a JSON text.
#[derive(Drop)]
struct Walk<'c> {
    reader: Reader<'c>,
    bytes: &'c [u8],
    /// The rules by which versions are read.
    rules: Rules,
    /// The limits, where they are asked.
    limit: Option<Limits>,
    /// What is open, the innermost one last.
    frames: Vec<Frame<'c>>,
    /// The first flaw in the whole, once it has ended.
    flaw: Option<Flaw>,
    /// Where a process has a start that version 1 lacks.
    starter: Option<usize>,
    /// Where a process has the kind that version 3 alone has.
    mixed: Option<usize>,
    /// Where a signal has the mode that version 3 alone has.
    both: Option<usize>,
    /// What is seen of the members of the whole.
    version: Option<usize>,
    is_third: bool,
    modulus: Option<u64>,
}

/// The first of two flaws, where there is one.
fn first_of(flaw: Option<Flaw>, other: Option<Flaw>) -> Option<Flaw> {
    if flaw.is_some() { flaw } else { other }
}

/// The flaw of this kind at a place, where there is one.
fn flaw_if(is_flaw: bool, place: usize, why: Why) -> Option<Flaw> {
    if is_flaw {
        Some(Flaw { place, why })
    } else {
        None
    }
}

/// What is seen of the member with this number.
fn seen_at<'c>(members: &Members<'c>, number: usize) -> Option<Seen<'c>> {
    match members.get(number) {
        Some(seen) => *seen,
        None => None,
    }
}

/// The first flaw in the members of an object, or those that are missing.
fn member_flaw(form: Form, members: &Members, end: usize) -> Option<Flaw> {
    let mut flaw = None;
    let mut missing = [false; MOST_MEMBERS];
    let mut is_short = false;
    for (number, is_missing) in missing.iter_mut().enumerate() {
        if let Some((_name, wanted)) = form.member(number) {
            match seen_at(members, number) {
                Some(seen) => flaw = first_of(flaw, seen.flaw),
                None => *is_missing = wanted != Form::Flag,
            }
            is_short = is_short || *is_missing;
        }
    }
    first_of(flaw, flaw_if(is_short, end, Why::Lacks(form, missing)))
}

/// What goes against the kind of a process.
fn kind_flaw(members: &Members) -> Option<Flaw> {
    let kind = seen_at(members, KIND)?;
    let slots = seen_at(members, SLOTS)?;
    let start = seen_at(members, START)?;
    let is_block = kind.text == "comb";
    let may_have_lists = kind.text == "delay" || kind.text == "mixed";
    let has_lists = slots.count > 0 && !may_have_lists;
    let has_start = start.text != "none";
    first_of(
        flaw_if(has_lists, slots.place, Why::AgainstKind),
        flaw_if(has_start != is_block, start.place, Why::AgainstKind),
    )
}

/// The flaw of an entry of a list, which has so many before it, where the limits are asked; residues are at least so large.
fn entry_flaw(frame: &Frame, entry: &Seen, limit: Option<Limits>) -> Option<Flaw> {
    let Limits { modulus, residues } = limit?;
    let most = if frame.form == Form::Residues {
        residues
    } else {
        MOST_ENTRIES
    };
    let long = flaw_if(frame.count >= most, entry.place, Why::Long(most));
    if frame.form != Form::Residues {
        return long;
    }
    let residue: Option<u64> = entry.text.parse().ok();
    let fits = match residue {
        Some(residue) => frame.least <= residue && residue < modulus,
        None => false,
    };
    first_of(long, flaw_if(!fits, entry.place, Why::Residue))
}

/// The flaw of a modulus, where the limits are asked.
fn modulus_flaw(number: &str, place: usize, limit: Option<Limits>) -> Option<Flaw> {
    let modulus: Option<u64> = number.parse().ok();
    let fits = match modulus {
        Some(modulus) => 1 <= modulus && modulus <= MOST_MODULUS,
        None => false,
    };
    flaw_if(limit.is_some() && !fits, place, Why::Modulus)
}

/// What is seen of a text, a number, a truth value or nothing.
fn seen_single<'c>(
    token: Token<'c>,
    form: Form,
    place: usize,
    rules: Rules,
    limit: Option<Limits>,
) -> Seen<'c> {
    let (fits, text) = match token {
        Token::String(text) => (form.has_text(rules, text), text),
        Token::Number(text) => (form.has_number(rules, text), text),
        Token::Bool(_) => (form == Form::Flag, ""),
        _ => (false, ""),
    };
    let mut flaw = flaw_if(!fits, place, Why::Other(form));
    if form == Form::Modulus {
        flaw = first_of(flaw, modulus_flaw(text, place, limit));
    }
    Seen {
        place,
        text,
        count: 0,
        flaw,
    }
}

impl<'c> Frame<'c> {
    /// An object or a list of a form, which begins at a place.
    fn new(form: Form, place: usize) -> Frame<'c> {
        Frame {
            form,
            place,
            wanted: form.entries().unwrap_or(form),
            members: [None; MOST_MEMBERS],
            member: 0,
            count: 0,
            least: 0,
            flaw: None,
        }
    }

    /// One of its values has ended.
    fn take(&mut self, seen: Seen<'c>, limit: Option<Limits>) {
        if self.form.entries().is_none() {
            let number = self.member;
            if let Some(member) = self.members.get_mut(number) {
                *member = Some(seen);
            }
            return;
        }
        let own = entry_flaw(self, &seen, limit);
        self.flaw = first_of(self.flaw, first_of(seen.flaw, own));
        self.count = self.count.saturating_add(1);
        self.least = seen.text.parse().ok().unwrap_or(0u64).saturating_add(1);
    }
}

impl<'c> Walk<'c> {
    /// The form of the next value.
    fn wanted(&self) -> Form {
        match self.frames.last() {
            Some(frame) => frame.wanted,
            None => Form::Certificate,
        }
    }

    /// What goes against the version of a certificate whose last brace stands at this place.
    fn version_flaw(&self, members: &Members, end: usize) -> Option<Flaw> {
        let version = seen_at(members, VERSION)?;
        let displays = seen_at(members, DISPLAYS);
        let later = match (self.mixed, self.both) {
            (Some(place), _) => flaw_if(version.text != "3", place, Why::OfLater(Form::Kind)),
            (None, Some(place)) => flaw_if(version.text != "3", place, Why::OfLater(Form::Mode)),
            (None, None) => None,
        };
        if version.text != "1" {
            let mut missing = [false; MOST_MEMBERS];
            missing[DISPLAYS] = true;
            let why = Why::Lacks(Form::Certificate, missing);
            return first_of(later, flaw_if(displays.is_none(), end, why));
        }
        let own = match (displays, self.starter) {
            (Some(displays), _) => flaw_if(true, displays.place, Why::AgainstVersion),
            (None, Some(place)) => flaw_if(true, place, Why::AgainstVersion),
            (None, None) => None,
        };
        first_of(later, own)
    }

    /// Keeps what is asked later of the members of an object.
    fn keep(&mut self, form: Form, members: &Members) {
        if form == Form::Certificate {
            if let Some(version) = seen_at(members, VERSION) {
                self.version = Some(version.place);
                self.is_third = version.text == "3";
            }
            if let Some(modulus) = seen_at(members, MODULUS) {
                self.modulus = modulus.text.parse().ok();
            }
        }
        if form == Form::Process && self.starter.is_none() {
            if let Some(start) = seen_at(members, START) {
                if start.text == "starter" {
                    self.starter = Some(start.place);
                }
            }
        }
        if form == Form::Process && self.mixed.is_none() {
            if let Some(kind) = seen_at(members, KIND) {
                if kind.text == "mixed" {
                    self.mixed = Some(kind.place);
                }
            }
        }
        if form == Form::Signal && self.both.is_none() {
            if let Some(mode) = seen_at(members, MODE) {
                if mode.text == "both" {
                    self.both = Some(mode.place);
                }
            }
        }
    }

    /// A value has ended.
    fn end_value(&mut self, seen: Seen<'c>) {
        let limit = self.limit;
        match self.frames.last_mut() {
            Some(frame) => frame.take(seen, limit),
            None => self.flaw = seen.flaw,
        }
    }

    /// The name of a member comes; the value of one that there isn't is passed.
    fn name(&mut self, name: &str, place: usize) {
        let Some(frame) = self.frames.last_mut() else {
            return;
        };
        match frame.form.member_named(name) {
            Some((number, wanted)) => {
                frame.member = number;
                frame.wanted = wanted;
                match wanted {
                    Form::Processes => {
                        self.starter = None;
                        self.mixed = None;
                    }
                    Form::Signals => self.both = None,
                    _ => {}
                }
            }
            None => {
                let unknown = flaw_if(true, place, Why::Unknown(frame.form));
                frame.flaw = first_of(frame.flaw, unknown);
                let _passed = self.reader.skip_value(DEPTH_LIMIT);
            }
        }
    }

    /// The innermost object or list ends at this place.
    fn close(&mut self, end: usize) {
        let Some(frame) = self.frames.pop() else {
            return;
        };
        let form = frame.form;
        let mut flaw = frame.flaw;
        if form.entries().is_none() {
            self.keep(form, &frame.members);
            flaw = first_of(flaw, member_flaw(form, &frame.members, end));
        }
        let own = match form {
            Form::Process => kind_flaw(&frame.members),
            Form::Certificate => self.version_flaw(&frame.members, end),
            _ => None,
        };
        self.end_value(Seen {
            place: frame.place,
            text: "",
            count: frame.count,
            flaw: first_of(flaw, own),
        });
    }

    /// Passes an object or a list where something else is wanted. Whether there is one.
    fn passes_other(&mut self, place: usize) -> bool {
        let form = self.wanted();
        let is_other = match self.bytes.get(place) {
            Some(b'{') => form.member(0).is_none(),
            Some(b'[') => form.entries().is_none(),
            _ => false,
        };
        if is_other {
            let _passed = self.reader.skip_value(DEPTH_LIMIT);
            self.end_value(Seen {
                place,
                text: "",
                count: 0,
                flaw: flaw_if(true, place, Why::Other(form)),
            });
        }
        is_other
    }

    /// Takes one more token, or passes a value. Whether there is one.
    fn step(&mut self) -> Result<bool, AllocError> {
        let place = self.reader.offset();
        if self.passes_other(place) {
            return Ok(true);
        }
        let form = self.wanted();
        let Some(token) = self.reader.next() else {
            return Ok(false);
        };
        match token {
            Token::Key(name) => self.name(name, place),
            Token::BeginObject | Token::BeginArray => self.frames.push(Frame::new(form, place))?,
            Token::EndObject | Token::EndArray => self.close(place),
            _ => self.end_value(seen_single(token, form, place, self.rules, self.limit)),
        }
        Ok(true)
    }
}

/// What is seen of a JSON text that is to be a certificate of a version that is read by these rules; limits are asked where they are given.
pub(crate) fn walk_over(
    alloc: Global,
    text: &str,
    rules: Rules,
    limit: Option<Limits>,
) -> Result<Whole, AllocError> {
    let mut scratch = Scratch::new(alloc);
    let reader = Reader::new(text, &mut scratch)?;
    let mut walk = Walk {
        reader,
        bytes: text.as_bytes(),
        rules,
        limit,
        frames: Vec::new(alloc),
        flaw: None,
        starter: None,
        mixed: None,
        both: None,
        version: None,
        is_third: false,
        modulus: None,
    };
    for _ in 0..text.len() {
        if !walk.step()? {
            break;
        }
    }
    Ok(Whole {
        flaw: walk.flaw,
        version: walk.version,
        is_third: walk.is_third,
        modulus: walk.modulus,
    })
}
