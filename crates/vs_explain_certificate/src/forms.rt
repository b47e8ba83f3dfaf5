//! The forms of the values of a certificate.

use vs_certificate::Rules;

/// The most members of an object.
pub(crate) const MOST_MEMBERS: usize = 8;

/// What a value of a certificate is.
#[derive(Clone, Copy, PartialEq, Eq)]
pub(crate) enum Form {
    Certificate,
    Edges,
    Edge,
    Processes,
    Process,
    Signals,
    Signal,
    Names,
    Name,
    Slots,
    Residues,
    Residue,
    Modulus,
    Version,
    Flag,
    Grain,
    Kind,
    Start,
    Mode,
}

/// A member of an object: its name, and the form of its value.
pub(crate) type Member = (&'static str, Form);

/// The member of a certificate with this number.
fn certificate_member(number: usize) -> Option<Member> {
    match number {
        0 => Some(("edges", Form::Edges)),
        1 => Some(("grain", Form::Grain)),
        2 => Some(("modulus", Form::Modulus)),
        3 => Some(("order", Form::Names)),
        4 => Some(("processes", Form::Processes)),
        5 => Some(("signals", Form::Signals)),
        6 => Some(("version", Form::Version)),
        7 => Some(("displays", Form::Flag)),
        _ => None,
    }
}

/// The member of a process with this number.
fn process_member(number: usize) -> Option<Member> {
    match number {
        0 => Some(("kind", Form::Kind)),
        1 => Some(("name", Form::Name)),
        2 => Some(("slots", Form::Slots)),
        3 => Some(("start", Form::Start)),
        _ => None,
    }
}

/// The member of a signal with this number.
fn signal_member(number: usize) -> Option<Member> {
    match number {
        0 => Some(("mode", Form::Mode)),
        1 => Some(("name", Form::Name)),
        2 => Some(("second", Form::Name)),
        3 => Some(("writer", Form::Name)),
        _ => None,
    }
}

/// The member of an entry of `edges` with this number.
fn edge_member(number: usize) -> Option<Member> {
    match number {
        0 => Some(("root", Form::Name)),
        1 => Some(("signal", Form::Name)),
        _ => None,
    }
}

impl Form {
    /// The member with this number; none where it has no such one, or is no object.
    pub(crate) fn member(self, number: usize) -> Option<Member> {
        match self {
            Form::Certificate => certificate_member(number),
            Form::Process => process_member(number),
            Form::Signal => signal_member(number),
            Form::Edge => edge_member(number),
            _ => None,
        }
    }

    /// The number and the form of the member of a name.
    pub(crate) fn member_named(self, name: &str) -> Option<(usize, Form)> {
        for number in 0..MOST_MEMBERS {
            if let Some((other, form)) = self.member(number) {
                if other == name {
                    return Some((number, form));
                }
            }
        }
        None
    }

    /// The form of the entries of a list; none where it is no list.
    pub(crate) fn entries(self) -> Option<Form> {
        match self {
            Form::Edges => Some(Form::Edge),
            Form::Processes => Some(Form::Process),
            Form::Signals => Some(Form::Signal),
            Form::Names => Some(Form::Name),
            Form::Slots => Some(Form::Residues),
            Form::Residues => Some(Form::Residue),
            _ => None,
        }
    }

    /// Whether a text has the form, in a certificate of a version that is read by these rules.
    pub(crate) fn has_text(self, rules: Rules, text: &str) -> bool {
        match self {
            Form::Name => true,
            Form::Grain => matches!(text.as_bytes(), b"block" | b"statement"),
            Form::Kind => is_kind(rules, text),
            Form::Start => matches!(text.as_bytes(), b"none" | b"cold" | b"sources" | b"starter"),
            Form::Mode => is_mode(rules, text),
            _ => false,
        }
    }

    /// Whether a number has the form.
    pub(crate) fn has_number(self, rules: Rules, number: &str) -> bool {
        match self {
            Form::Version => is_version(rules, number),
            Form::Modulus | Form::Residue => is_whole(number),
            _ => false,
        }
    }

    /// What is said of the form.
    pub(crate) fn words(self, rules: Rules) -> &'static str {
        match self {
            Form::Certificate =>
                "an object with the members `edges`, `grain`, `modulus`, `order`, `processes`, `signals` and `version`",
            Form::Edges => "a list of objects, each with `root` and `signal`,",
            Form::Edge => "an object with the members `root` and `signal`",
            Form::Processes => "a list of objects, each with `kind`, `name`, `slots` and `start`,",
            Form::Process => "an object with the members `kind`, `name`, `slots` and `start`",
            Form::Signals => "a list of objects, each with `mode`, `name`, `second` and `writer`,",
            Form::Signal => "an object with the members `mode`, `name`, `second` and `writer`",
            Form::Names => "a list of names",
            Form::Name => "a name in quotes",
            Form::Slots => "a list of lists of numbers",
            Form::Residues => "a list of numbers",
            Form::Residue | Form::Modulus =>
                "a whole number of 64 bits, without a point and an exponent,",
            Form::Version => match rules {
                Rules::Narrow => "the number 1 or 2",
                Rules::Wide => "the number 1, 2 or 3",
            },
            Form::Flag => "`true` or `false`",
            Form::Grain => "`\"block\"` or `\"statement\"`",
            Form::Kind => match rules {
                Rules::Narrow => "`\"comb\"`, `\"delay\"` or `\"edge\"`",
                Rules::Wide => "`\"comb\"`, `\"delay\"`, `\"edge\"` or `\"mixed\"`",
            },
            Form::Start => "`\"none\"`, `\"cold\"`, `\"sources\"` or `\"starter\"`",
            Form::Mode => match rules {
                Rules::Narrow =>
                    "`\"net\"`, `\"unwritten\"`, `\"comb\"`, `\"nonblocking\"`, `\"blocking\"` or `\"private\"`",
                Rules::Wide =>
                    "`\"net\"`, `\"unwritten\"`, `\"comb\"`, `\"nonblocking\"`, `\"blocking\"`, `\"private\"` or `\"both\"`",
            },
        }
    }
}

/// Whether a text is a kind of a version that is read by these rules.
fn is_kind(rules: Rules, text: &str) -> bool {
    match text.as_bytes() {
        b"comb" | b"delay" | b"edge" => true,
        b"mixed" => rules.is_wide(),
        _ => false,
    }
}

/// Whether a text is a mode of a version that is read by these rules.
fn is_mode(rules: Rules, text: &str) -> bool {
    match text.as_bytes() {
        b"net" | b"unwritten" | b"comb" | b"nonblocking" | b"blocking" | b"private" => true,
        b"both" => rules.is_wide(),
        _ => false,
    }
}

/// Whether a number is a version that is read by these rules.
fn is_version(rules: Rules, number: &str) -> bool {
    match number.as_bytes() {
        b"1" | b"2" => true,
        b"3" => rules.is_wide(),
        _ => false,
    }
}

/// Whether a number is a whole one of 64 bits.
fn is_whole(number: &str) -> bool {
    let natural: Option<u64> = number.parse().ok();
    let integer: Option<i64> = number.parse().ok();
    natural.is_some() || integer.is_some() && number != "-0"
}
