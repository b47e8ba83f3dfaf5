//! A plain writer of dumps, by what `docs/vcd.md` says of the layout alone.
ghost use Rattle.std.specs.Prelude.{◌<◌, length};

use vs_design::vs_logic4::{Digit, Vec4};
use vs_design::{Magnitude, ScopeKind, SignalKind, TimeUnit};
use vs_row_files::Text;
use vs_vcd_reader::{Declaration, Dump, Moment, ValueChange, Variable};

fn put_word(word: &str, text: &mut Text) {
    text.put(word.as_bytes());
}

fn put_code(number: usize, text: &mut Text) {
    let mut rest = number;
    for _ in 0..10 {
        text.put(&[33 + (rest % 94) as u8]);
        if rest < 94 {
            return;
        }
        rest = rest / 94 - 1;
    }
}

fn put_tick(dump: &Dump, text: &mut Text) {
    put_word("$timescale ", text);
    put_word(
        match dump.tick.magnitude {
            Magnitude::One => "1 ",
            Magnitude::Ten => "10 ",
            Magnitude::Hundred => "100 ",
        },
        text,
    );
    put_word(
        match dump.tick.unit {
            TimeUnit::Second => "s",
            TimeUnit::Millisecond => "ms",
            TimeUnit::Microsecond => "us",
            TimeUnit::Nanosecond => "ns",
            TimeUnit::Picosecond => "ps",
            TimeUnit::Femtosecond => "fs",
        },
        text,
    );
    put_word(" $end\n", text);
}

fn put_variable(variable: &Variable, number: usize, text: &mut Text) {
    put_word(
        match variable.kind {
            SignalKind::Wire => "$var wire ",
            SignalKind::Reg => "$var reg ",
            SignalKind::Integer => "$var integer ",
        },
        text,
    );
    text.put_shown(variable.width);
    text.put(b" ");
    put_code(number, text);
    text.put(b" ");
    text.put(&variable.name);
    if let Some(range) = variable.range {
        text.put(b" [");
        text.put_shown(range.left);
        text.put(b":");
        text.put_shown(range.right);
        text.put(b"]");
    }
    text.put(b" $end\n");
}

fn put_scope(kind: ScopeKind, name: &[u8], text: &mut Text) {
    put_word(
        match kind {
            ScopeKind::Module => "$scope module ",
            ScopeKind::Begin => "$scope begin ",
        },
        text,
    );
    text.put(name);
    text.put(b" $end\n");
}

fn put_declarations(declarations: &[Declaration], text: &mut Text) {
    let mut number: usize = 0;
    for declaration in declarations {
        match declaration {
            Declaration::Scope(kind, name) => put_scope(*kind, name, text),
            Declaration::Variable(variable) => {
                put_variable(variable, number, text);
                number = number.saturating_add(1);
            }
            Declaration::Upscope => text.put(b"$upscope $end\n"),
        }
    }
    text.put(b"$enddefinitions $end\n");
}

fn character(digit: Digit) -> u8 {
    match digit {
        Digit::Zero => b'0',
        Digit::One => b'1',
        Digit::X => b'x',
        Digit::Z => b'z',
    }
}

// Whether a reader gives a digit back on the left of another.
fn is_given_back(digit: Digit, next: Digit) -> bool {
    match next {
        Digit::Zero => digit == Digit::Zero,
        Digit::One => digit == Digit::Zero,
        Digit::X => digit == Digit::X,
        Digit::Z => digit == Digit::Z,
    }
}

// Whether the digit at a place is given back by those below it.
fn is_left_out(value: Vec4, place: u32) -> bool
    requires { place < length value }
{
    place > 0 && is_given_back(value.digit(place), value.digit(place - 1))
}

fn put_digits(value: Vec4, text: &mut Text) {
    let mut is_begun = false;
    for place in (0..value.width()).rev() {
        is_begun = is_begun || !is_left_out(value, place);
        if is_begun {
            text.put(&[character(value.digit(place))]);
        }
    }
}

fn put_change(change: &ValueChange, text: &mut Text) {
    if change.value.width() == 1 {
        put_digits(change.value, text);
    } else {
        text.put(b"b");
        put_digits(change.value, text);
        text.put(b" ");
    }
    put_code(change.number, text);
    text.put(b"\n");
}

fn put_time(moment: &Moment, text: &mut Text) {
    text.put(b"#");
    text.put_shown(moment.time);
    text.put(b"\n");
}

fn put_changes(moment: &Moment, text: &mut Text) {
    for change in &moment.changes {
        put_change(change, text);
    }
}

fn put_body(moments: &[Moment], text: &mut Text) {
    let [first, later @ ..] = moments else {
        return;
    };
    put_time(first, text);
    text.put(b"$dumpvars\n");
    put_changes(first, text);
    text.put(b"$end\n");
    for moment in later {
        put_time(moment, text);
        put_changes(moment, text);
    }
}

/// Puts a dump after the text, each line ended by a line feed.
pub fn put_dump(dump: &Dump, text: &mut Text) {
    put_tick(dump, text);
    put_declarations(&dump.declarations, text);
    put_body(&dump.moments, text);
}
