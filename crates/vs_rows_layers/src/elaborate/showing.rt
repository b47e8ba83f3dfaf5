//! Parts of a design in one line, with each signal by its path.
use vs_design::{
    BitRange, Bounds, Call, CallKind, Design, Entry, FormatArg, Process, ProcessKind, ScopeKind,
    SignalKind, Statement, Store, Target, Typed, reads, writes,
};
use vs_eval::value;
use vs_row_files::Text;

/// The path of the signal of a number.
fn path_of<'d>(design: &'d Design, number: usize) -> &'d [u8] {
    match design.signals().get(number) {
        Some(signal) => &signal.path,
        None => b"none",
    }
}

fn kind_word(kind: SignalKind) -> &'static [u8] {
    match kind {
        SignalKind::Wire => b"wire ",
        SignalKind::Reg => b"reg ",
        SignalKind::Integer => b"integer ",
    }
}

/// Puts a range, with a space before it, where there is one.
fn show_range(range: Option<Bounds>, text: &mut Text) {
    if let Some(bounds) = range {
        let (left, right) = (bounds.left, bounds.right);
        text.put_shown(format_args!(" [{left}:{right}]"));
    }
}

/// The signals: the kind, the name, the path and the size in bits of each, whether it is signed, and its ranges of bits and of words.
pub fn show_signals(design: &Design, text: &mut Text) {
    for signal in design.signals() {
        text.put(kind_word(signal.kind));
        text.put(&signal.name);
        text.put(b" ");
        text.put(&signal.path);
        text.put(b" ");
        text.put_shown(signal.width);
        if signal.signed {
            text.put(b" signed");
        }
        show_range(signal.range, text);
        show_range(signal.words, text);
        text.put(b";");
    }
}

/// Puts the size of an expression in bits.
fn show_size(design: &Design, e: &Typed, text: &mut Text) {
    match Store::start(text.alloc(), design) {
        Ok(store) => text.put_shown(value(e, &store, 0).width()),
        Err(_) => text.leave_out(),
    }
}

/// Puts an expression: its size in bits, and the paths of the signals that it reads.
fn show_expression(design: &Design, e: &Typed, text: &mut Text) {
    show_size(design, e, text);
    let Ok(ranges) = reads(text.alloc(), e) else {
        return text.leave_out();
    };
    text.put(b"(");
    let mut space: &[u8] = b"";
    for range in &ranges {
        text.put(space);
        text.put(path_of(design, range.signal));
        space = b" ";
    }
    text.put(b")");
}

/// Puts a place of a target: the path, `[*]` where any of its words is meant, and the lowest bit and the number of bits where they are not all.
fn show_place(design: &Design, range: BitRange, text: &mut Text) {
    text.put(path_of(design, range.signal));
    if range.word.is_none() {
        text.put(b"[*]");
    }
    let size = match design.signals().get(range.signal) {
        Some(signal) => signal.width,
        None => 0,
    };
    if let Some(bits) = range.bits {
        let (low, width) = (bits.low, bits.width);
        if low > 0 || width != size {
            text.put_shown(format_args!("[{low}+:{width}]"));
        }
    }
}

/// Puts the places of a target, the lowest first.
fn show_target(design: &Design, target: &Target, text: &mut Text) {
    let Ok(ranges) = writes(text.alloc(), target) else {
        return text.leave_out();
    };
    let mut comma: &[u8] = b"";
    for range in &ranges {
        text.put(comma);
        show_place(design, *range, text);
        comma = b",";
    }
}

/// Puts an assignment with this sign between its sides.
fn show_assignment(design: &Design, sides: (&Target, &[u8], &Typed), text: &mut Text) {
    let (target, sign, source) = sides;
    show_target(design, target, text);
    text.put(sign);
    show_expression(design, source, text);
    text.put(b";");
}

/// The continuous assignments, with their names.
pub fn show_assigns(design: &Design, text: &mut Text) {
    for assign in design.assigns() {
        text.put(&assign.name);
        text.put(b" ");
        show_assignment(design, (&assign.target, b" = ", &assign.source), text);
    }
}

/// Puts an argument of a call.
fn show_argument(design: &Design, arg: &FormatArg, text: &mut Text) {
    match arg {
        FormatArg::Value(signed, e) => {
            text.put(if *signed { b" signed " } else { b" " });
            show_expression(design, e, text);
        }
        FormatArg::Time => text.put(b" $time"),
    }
}

/// Puts a call behind its name: its text, its arguments, the path of its scope, and how many ticks a unit is.
fn show_call(design: &Design, call: &Call, text: &mut Text) {
    text.put(&call.text);
    text.put(b"\"");
    for arg in &call.args {
        show_argument(design, arg, text);
    }
    text.put(b" in ");
    text.put(&call.path);
    text.put(b" of ");
    text.put_shown(call.ratio);
    text.put(b";");
}

fn call_word(kind: CallKind) -> &'static [u8] {
    match kind {
        CallKind::Display => b"$display \"",
        CallKind::Strobe => b"$strobe \"",
    }
}

/// Puts what a statement begins with: its number, unless it is a block, and a word.
fn show_head(s: &Statement, text: &mut Text) {
    let (number, word): (u32, &[u8]) = match s {
        Statement::Block(_) => return text.put(b"{"),
        Statement::Null(number) => (*number, b";"),
        Statement::Assign(number, _, _) => (*number, b""),
        Statement::Later(number, _, _, _) => (*number, b""),
        Statement::Call(number, call) => (*number, call_word(call.kind)),
        Statement::Finish(number) => (*number, b"$finish;"),
        Statement::Delay(number, _, _) => (*number, b"#"),
        Statement::Event(number, _, _) => (*number, b"@ "),
        Statement::If(number, _, _, _) => (*number, b"if "),
        Statement::Case(number, _, _, _) => (*number, b"case "),
        Statement::While(number, _, _) => (*number, b"while "),
        Statement::Repeat(number, _, _, _) => (*number, b"repeat "),
        Statement::Forever(number, _) => (*number, b"forever "),
    };
    text.put_shown(number);
    text.put(b": ");
    text.put(word);
}

/// Puts the sign of a nonblocking assignment, and in how many ticks it is due, where that isn't at once.
fn show_later(design: &Design, count: u64, sides: (&Target, &Typed), text: &mut Text) {
    let (target, source) = sides;
    show_target(design, target, text);
    text.put(b" <= ");
    if count > 0 {
        text.put_shown(format_args!("#{count} "));
    }
    show_expression(design, source, text);
    text.put(b";");
}

/// Puts a statement, and those in it, each with its number.
fn show_statement(design: &Design, s: &Statement, text: &mut Text) {
    show_head(s, text);
    match s {
        Statement::Null(_) | Statement::Finish(_) => {}
        Statement::Assign(_, target, source) => {
            show_assignment(design, (target, b" = ", source), text)
        }
        Statement::Later(_, ticks, target, source) => {
            show_later(design, ticks.count, (target, source), text)
        }
        Statement::Call(_, call) => show_call(design, call, text),
        Statement::Block(all) => {
            for one in all {
                show_statement(design, one, text);
            }
            text.put(b"}");
        }
        Statement::Delay(_, ticks, inner) => {
            text.put_shown(ticks.count);
            text.put(b" ");
            show_statement(design, inner, text);
        }
        Statement::If(_, _, one, other) => {
            show_statement(design, one, text);
            text.put(b" else ");
            show_statement(design, other, text);
        }
        Statement::Case(_, _, _, items) => {
            for (_, one) in items {
                show_statement(design, one, text);
            }
        }
        Statement::Event(_, _, inner)
        | Statement::While(_, _, inner)
        | Statement::Repeat(_, _, _, inner)
        | Statement::Forever(_, inner) => show_statement(design, inner, text),
    }
}

fn process_word(process: &Process) -> &'static [u8] {
    match process.kind {
        ProcessKind::Initial => b" initial ",
        ProcessKind::Always => b" always ",
    }
}

/// The processes, with their names.
pub fn show_processes(design: &Design, text: &mut Text) {
    for process in design.processes() {
        text.put(&process.name);
        text.put(process_word(process));
        show_statement(design, &process.body, text);
    }
}

fn scope_word(kind: ScopeKind) -> &'static [u8] {
    match kind {
        ScopeKind::Module => b"module ",
        ScopeKind::Begin => b"begin ",
    }
}

/// The outline.
pub fn show_outline(design: &Design, text: &mut Text) {
    for entry in design.outline() {
        match entry {
            Entry::Enter(kind, name) => {
                text.put(scope_word(*kind));
                text.put(name);
            }
            Entry::Declare(number) => text.put(path_of(design, *number)),
            Entry::Leave => text.put(b"end"),
        }
        text.put(b";");
    }
}
