//! System tasks and delays of nonblocking assignments as text.
use crate::parser::statements::delay_shown;
use crate::parser::trees::{put_headed, shown};
use vs_row_files::Text;
use vs_syntax::{Argument, DelayValue, DumpArgument, DumpTask, PrintArguments, PrintTask, Stmt};

/// The sign of a nonblocking assignment, and its delay.
pub(crate) fn later_sign(delay: &Option<DelayValue>, text: &mut Text) {
    text.put(b" <= ");
    if let Some(delay) = delay {
        text.put(b"# ");
        delay_shown(delay, text);
        text.put(b" ");
    }
}

/// A text in quotes.
fn quoted(bytes: &[u8], text: &mut Text) {
    text.put(b"\"");
    text.put(bytes);
    text.put(b"\"");
}

/// What stands behind `$display` or `$strobe`: the bytes of the text in quotes, and each argument behind a space.
fn print_arguments_shown(arguments: &PrintArguments, text: &mut Text) {
    match arguments {
        PrintArguments::Missing => {}
        PrintArguments::Empty => text.put(b"()"),
        PrintArguments::Text(format, others) => {
            text.put(b"(");
            quoted(format, text);
            for other in others {
                match other {
                    Argument::Value(value) => put_headed(b" ", value, text),
                    Argument::Time => text.put(b" $time"),
                }
            }
            text.put(b")");
        }
    }
}

/// An argument of `$dumpfile` or `$dumpvars`: the bytes of a text in quotes.
fn dump_argument_shown(argument: &DumpArgument, text: &mut Text) {
    match argument {
        DumpArgument::Text(bytes) => quoted(bytes, text),
        DumpArgument::Value(value) => shown(value, text),
    }
}

/// A system task, its arguments in parentheses; `not shown` for any other statement.
pub(crate) fn task_shown(s: &Stmt, text: &mut Text) {
    match s {
        Stmt::Print(task, arguments) => {
            let name: &[u8] = match task {
                PrintTask::Display => b"$display",
                PrintTask::Strobe => b"$strobe",
            };
            text.put(name);
            print_arguments_shown(arguments, text);
        }
        Stmt::Finish(None) => text.put(b"$finish"),
        Stmt::Finish(Some(_)) => text.put(b"$finish(0)"),
        Stmt::Dump(task, arguments) => {
            let name: &[u8] = match task {
                DumpTask::File => b"$dumpfile",
                DumpTask::Vars => b"$dumpvars",
            };
            text.put(name);
            if let Some((first, others)) = arguments {
                text.put(b"(");
                dump_argument_shown(first, text);
                for other in others {
                    text.put(b" ");
                    dump_argument_shown(other, text);
                }
                text.put(b")");
            }
        }
        _ => text.put(b"not shown"),
    }
}
