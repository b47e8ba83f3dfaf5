//! Texts with the lines that they give, or with the number of their fault.
use crate::lines::{Asked, answer_to};
use std::alloc::Global;
use std::process::Abort;

// A table has a row behind each `> ` at the head of a line: a text, the arguments that it is handed behind ` of `, and its line.

// Characters, texts, the path, what is printed as it is, and a signal that has not been written.
const TEXTS: &str = "
> a%%b => a%b
> %m => t.g[0]
> %0m%M => t.g[0]t.g[0]
> [%s] of 0100000101000010 => [AB]
> [%s] of 000000000100000101000010 => [AB]
> [%s] of 00000000 => []
> [%s] of 1000001 => [A]
> [%c%0C] of 0100000101000010 0100000101000010 => [BB]
> [%c%s] of 01z0x001 01z0x001 => [AA]
>  => 
> [%0S] of 010000010000000001000010 => [A\0B]
> [%c] of 1 => [\u{1}]
> %b of a => x";

// Times and numbers where a unit is 1,000 ticks, and all of them in one call.
const SCALED: &str = "
> %t of 1 =>                 1000
> %t of s11111111 =>                -1000
> %0t of s11111111 => -1000
> %0T of 11111111 => 255000
> %t of 1xx0 =>                    X
> %0t of zzzz => z
> %h of 1x10zzz0 => XZ
> %d of xx01 =>  X
> %B|%O|%H of 00001010 00001010 00001010 => 00001010|012|0a
> %D of 00000111 =>   7
> [%d of s0 => [ 0
> %0H of 00001010 => a
> %d|%0d|%h|%b|%s|%t of 00000101 00000101 1111xxxx 01zz 0100000101000010 s00000000000000000000000000000001 =>   5|5|fx|01zz|AB|                1000";

// The time as each directive shows it.
const TIMES: &str = "
> %d|%0d|%t|%0t|%h of time time time time time =>                    7|7|                7000|7000|0000000000000007";

// The values are those of the store that a line is made in.
const ZERO: &str = "
> %b of a => 0
> p %b of a => p 0
> q %0d of a => q 0";

// Texts that are refused, and the number of the fault.
const FAULTS: &str = "
> %b %b of 1 => F2
> %b of 1 1 => F3
> %q of 1 => F1
>  of 1 => F3
> %m%% of 1 => F3
> %0s => F2
> % => F1
> %0 of 1 => F1
> %0% => F1
> %00d of 1 => F1
> %5d of 1 => F1
> %b %-d => F1";

// Calls, whose text need not be a good one: all of the line.
const CALLS: &str = "
> %b %m of 1 => 1 t\n
> %b|%b of 1 => 1|\n
> %b of 1 1 => 1\n
> a%q of 1 => \n
> a% => \n
>  => \n";

// Ends the test where something else is told.
fn same(rt: &impl Abort, alloc: Global, asked: Asked, question: &str, wanted: &[u8]) {
    let told = answer_to(rt, alloc, asked, question);
    assert!(rt; told.as_slice() == wanted, "of {question}");
}

// The rows of a table.
fn all_same(rt: &impl Abort, alloc: Global, asked: Asked, table: &str) {
    for row in table.split("\n> ").skip(1) {
        let (question, wanted) = row.rsplit_once(" => ").unwrap_or((row, ""));
        same(rt, alloc, asked, question, wanted.as_bytes());
    }
}

#[test]
fn rows(rt: HostRuntime) {
    for (asked, table) in [
        (Asked::Line(1, 0), TEXTS),
        (Asked::Line(1000, 0), SCALED),
        (Asked::Line(1000, 7000), TIMES),
        (Asked::LineOfZero, ZERO),
        (Asked::Line(1, 0), FAULTS),
        (Asked::Call, CALLS),
    ] {
        all_same(&rt, rt.alloc(), asked, table);
    }
}

#[test]
fn steps(rt: HostRuntime) {
    same(&rt, rt.alloc(), Asked::Steps(7), "", b"lx\nwnnsp\nu5f");
}
