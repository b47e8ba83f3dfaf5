//! Texts, each with the number of its fault, or whether it is written back as it was.

use crate::certificate_answers::certificate_answer;
use crate::certificate_members::is_of_the_swap;
use crate::tables::{Asked, LongRow, all_long_same, all_same, same};
use std::test::Fail;
use vs_certificate::{Version, from_json, to_json, value_has_one_certificate, written_reads_back};

// The certificate of two registers that swap at each rise of a clock of period 10.
static SWAP: &str =
    r#"{"edges":[{"root":"t.clk","signal":"t.clk"}],"grain":"block","modulus":10,"order":[],"processes":[{"kind":"delay","name":"t#p0","slots":[],"start":"none"},{"kind":"delay","name":"t#p1","slots":[],"start":"none"},{"kind":"delay","name":"t#p2","slots":[],"start":"none"},{"kind":"delay","name":"t#p3","slots":[[0,5]],"start":"none"},{"kind":"edge","name":"t#p4","slots":[],"start":"none"},{"kind":"edge","name":"t#p5","slots":[],"start":"none"}],"signals":[{"mode":"blocking","name":"t.clk","second":"t#p0","writer":"t#p3"},{"mode":"nonblocking","name":"t.a","second":"t#p1","writer":"t#p4"},{"mode":"nonblocking","name":"t.b","second":"t#p2","writer":"t#p5"}],"version":1}"#;

// A certificate of version 2, with a start that version 1 lacks.
static STARTER: &str =
    r#"{"displays":true,"edges":[],"grain":"block","modulus":1,"order":[],"processes":[{"kind":"comb","name":"p","slots":[],"start":"starter"}],"signals":[],"version":2}"#;

// Of several members of one name the last counts.
static REPEATED: &str =
    r#"{"edges":[],"grain":7,"grain":"block","modulus":0,"modulus":3,"order":[],"processes":[],"signals":[],"version":9,"version":1}"#;

// Texts and their answers: texts that say no JSON value, and values that are no certificate; versions, where another one is told before
// what is wrong elsewhere; numbers that aren't whole or are beyond a limit; and processes; and one that has each word that the swap lacks;
// and what version 2 alone has, in a text of either version.
const TEXTS: &str = r#"
> 1e999 => C1
> "\ud800" => C1
> 1 2 => C1
> {"version":9} => C3
> {} => C2
> [1] => C2
> {"edges":[],"grain":"block","modulus":1,"note":0,"order":[],"processes":[],"signals":[],"version":1} => C2
> {"edges":[],"grain":"block","modulus":1,"order":[],"processes":[],"version":1} => C2
> {"edges":[],"grain":"Block","modulus":1,"order":[],"processes":[],"signals":[],"version":1} => C2
> {"edges":[],"grain":"block","modulus":0,"order":[],"processes":[{"kind":"delay","name":"p","slots":[[5,0]],"start":"none"}],"signals":[],"version":9} => C3
> {"edges":[],"grain":"block","modulus":0,"order":[],"processes":[{"kind":"delay","name":"p","slots":[[5,0]],"start":"none"}],"signals":[],"version":3} => C3
> {"edges":[],"grain":"block","modulus":0,"order":[],"processes":[{"kind":"delay","name":"p","slots":[[5,0]],"start":"none"}],"signals":[],"version":0} => C3
> {"edges":[],"grain":"block","modulus":0,"order":[],"processes":[{"kind":"delay","name":"p","slots":[[5,0]],"start":"none"}],"signals":[],"version":-3} => C3
> {"edges":[],"grain":"block","modulus":0,"order":[],"processes":[{"kind":"delay","name":"p","slots":[[5,0]],"start":"none"}],"signals":[],"version":18446744073709551615} => C3
> {"edges":[],"grain":"block","modulus":0,"order":[],"processes":[{"kind":"delay","name":"p","slots":[[5,0]],"start":"none"}],"signals":[],"version":-9223372036854775808} => C3
> {"edges":[],"grain":"block","modulus":10,"order":[],"processes":[{"kind":"delay","name":"p","slots":[],"start":"none"}],"signals":[],"version":1.0} => C2
> {"edges":[],"grain":"block","modulus":10,"order":[],"processes":[{"kind":"delay","name":"p","slots":[],"start":"none"}],"signals":[],"version":"1"} => C2
> {"edges":[],"grain":"block","modulus":10,"order":[],"processes":[{"kind":"delay","name":"p","slots":[],"start":"none"}],"signals":[],"version":null} => C2
> {"edges":[],"grain":"block","modulus":10,"order":[],"processes":[{"kind":"delay","name":"p","slots":[],"start":"none"}],"signals":[],"version":18446744073709551616} => C2
> {"edges":[],"grain":"block","modulus":10,"order":[],"processes":[{"kind":"delay","name":"p","slots":[],"start":"none"}],"signals":[],"version":1e0} => C2
> {"edges":[],"grain":"block","modulus":10,"order":[],"processes":[{"kind":"delay","name":"p","slots":[],"start":"none"}],"signals":[],"version":-0} => C2
> {"edges":[],"grain":"block","modulus":1.5,"order":[],"processes":[{"kind":"delay","name":"p","slots":[[5,0]],"start":"none"}],"signals":[],"version":1} => C2
> {"edges":[],"grain":"block","modulus":"10","order":[],"processes":[{"kind":"delay","name":"p","slots":[[5,0]],"start":"none"}],"signals":[],"version":1} => C2
> {"edges":[],"grain":"block","modulus":1e1,"order":[],"processes":[{"kind":"delay","name":"p","slots":[[5,0]],"start":"none"}],"signals":[],"version":1} => C2
> {"edges":[],"grain":"block","modulus":-0,"order":[],"processes":[{"kind":"delay","name":"p","slots":[[5,0]],"start":"none"}],"signals":[],"version":1} => C2
> {"edges":[],"grain":"block","modulus":18446744073709551616,"order":[],"processes":[{"kind":"delay","name":"p","slots":[[5,0]],"start":"none"}],"signals":[],"version":1} => C2
> {"edges":[],"grain":"block","modulus":[],"order":[],"processes":[{"kind":"delay","name":"p","slots":[[5,0]],"start":"none"}],"signals":[],"version":1} => C2
> {"edges":[],"grain":"block","modulus":0,"order":[],"processes":[{"kind":"delay","name":"p","slots":[0],"start":"none"}],"signals":[],"version":1} => C2
> {"edges":[],"grain":"block","modulus":0,"order":[],"processes":[{"kind":"delay","name":"p","slots":[[0.5]],"start":"none"}],"signals":[],"version":1} => C2
> {"edges":[],"grain":"block","modulus":0,"order":[],"processes":[{"kind":"delay","name":"p","slots":{},"start":"none"}],"signals":[],"version":1} => C2
> {"edges":[],"grain":"block","modulus":0,"order":[],"processes":[{"kind":"delay","name":"p","slots":[["0"]],"start":"none"}],"signals":[],"version":1} => C2
> {"edges":[],"grain":"block","modulus":0,"order":[],"processes":[{"kind":"delay","name":"p","slots":[],"start":"none"}],"signals":[],"version":1} => C4
> {"edges":[],"grain":"block","modulus":-1,"order":[],"processes":[{"kind":"delay","name":"p","slots":[],"start":"none"}],"signals":[],"version":1} => C4
> {"edges":[],"grain":"block","modulus":4294967297,"order":[],"processes":[{"kind":"delay","name":"p","slots":[],"start":"none"}],"signals":[],"version":1} => C4
> {"edges":[],"grain":"block","modulus":10,"order":[],"processes":[{"kind":"delay","name":"p","slots":[[5,0]],"start":"none"}],"signals":[],"version":1} => C4
> {"edges":[],"grain":"block","modulus":10,"order":[],"processes":[{"kind":"delay","name":"p","slots":[[5,5]],"start":"none"}],"signals":[],"version":1} => C4
> {"edges":[],"grain":"block","modulus":10,"order":[],"processes":[{"kind":"delay","name":"p","slots":[[10]],"start":"none"}],"signals":[],"version":1} => C4
> {"edges":[],"grain":"block","modulus":10,"order":[],"processes":[{"kind":"delay","name":"p","slots":[[0],[-1]],"start":"none"}],"signals":[],"version":1} => C4
> {"edges":[],"grain":"block","modulus":1,"order":[],"processes":[{"kind":"delay","name":"p","slots":[[0]],"start":"none"}],"signals":[],"version":1} => as it was
> {"edges":[],"grain":"block","modulus":4294967296,"order":[],"processes":[{"kind":"delay","name":"p","slots":[[0,4294967295],[]],"start":"none"}],"signals":[],"version":1} => as it was
> {"edges":[],"grain":"block","modulus":10,"order":[],"processes":[{"kind":"delay","name":"p","slots":[[9]],"start":"none"}],"signals":[],"version":1} => as it was
> {"edges":[],"grain":"block","modulus":1,"order":[],"processes":[{"kind":"comb","name":"p","slots":[],"start":"cold"}],"signals":[],"version":1} => as it was
> {"edges":[],"grain":"block","modulus":1,"order":[],"processes":[{"kind":"comb","name":"p","slots":[],"start":"none"}],"signals":[],"version":1} => C2
> {"edges":[],"grain":"block","modulus":1,"order":[],"processes":[{"kind":"comb","name":"p","slots":[[]],"start":"cold"}],"signals":[],"version":1} => C2
> {"edges":[],"grain":"block","modulus":1,"order":[],"processes":[{"kind":"edge","name":"p","slots":[],"start":"cold"}],"signals":[],"version":1} => C2
> {"edges":[],"grain":"block","modulus":1,"order":[],"processes":[{"kind":"edge","name":"p","slots":[[]],"start":"none"}],"signals":[],"version":1} => C2
> {"edges":[],"grain":"block","modulus":1,"order":[],"processes":[{"kind":"delay","name":"p","slots":[],"start":"sources"}],"signals":[],"version":1} => C2
> {"edges":[],"grain":"block","modulus":1,"order":[],"processes":[{"kind":"starter","name":"p","slots":[],"start":"none"}],"signals":[],"version":1} => C2
> {"edges":[],"grain":"block","modulus":1,"order":[],"processes":[{"kind":"comb","name":"p","slots":[],"start":"starter"}],"signals":[],"version":1} => C2
> {"edges":[],"grain":"block","modulus":1,"order":[],"processes":[{"kind":"delay","name":"p","slots":[],"start":"none","why":1}],"signals":[],"version":1} => C2
> {"edges":[],"grain":"statement","modulus":4294967296,"order":["t#p0","t#a0"],"processes":[{"kind":"comb","name":"t#p0","slots":[],"start":"cold"},{"kind":"comb","name":"t#p1","slots":[],"start":"sources"}],"signals":[{"mode":"net","name":"t.a","second":"","writer":""},{"mode":"unwritten","name":"t.b","second":"","writer":""},{"mode":"comb","name":"t.c","second":"","writer":"t#p0"},{"mode":"private","name":"t.é","second":"","writer":"t#p1"}],"version":1} => as it was
> {"edges":[],"grain":"block","modulus":0,"order":[],"processes":[{"kind":"delay","name":"p","slots":[[5,0]],"start":"none"}],"signals":[],"version":2} => C2
> {"displays":0,"edges":[],"grain":"block","modulus":1,"order":[],"processes":[],"signals":[],"version":2} => C2
> {"displays":"true","edges":[],"grain":"block","modulus":1,"order":[],"processes":[],"signals":[],"version":2} => C2
> {"displays":null,"edges":[],"grain":"block","modulus":1,"order":[],"processes":[],"signals":[],"version":2} => C2
> {"displays":true,"edges":[],"grain":"block","modulus":1,"order":[],"processes":[],"signals":[],"version":1} => C2
> {"displays":false,"edges":[],"grain":"block","modulus":1,"order":[],"processes":[],"signals":[],"version":1} => C2
> {"displays":true,"edges":[],"grain":"block","modulus":1,"order":[],"processes":[],"signals":[],"version":3} => C3
> {"displays":7,"edges":[],"grain":"block","modulus":0,"order":[],"processes":[{"kind":"delay","name":"p","slots":[[5,0]],"start":"none"}],"signals":[],"version":3} => C3
> {"displays":true,"edges":[],"grain":"block","modulus":1,"order":[],"processes":[],"signals":[],"version":2.0} => C2
> {"displays":true,"at":0,"edges":[],"grain":"block","modulus":1,"order":[],"processes":[],"signals":[],"version":2} => C2
> {"displays":true,"edges":[],"grain":"block","modulus":1,"order":[],"processes":[{"kind":"comb","name":"p","slots":[],"start":"warm"}],"signals":[],"version":2} => C2
> {"displays":true,"edges":[],"grain":"block","modulus":1,"order":[],"processes":[{"kind":"edge","name":"p","slots":[],"start":"starter"}],"signals":[],"version":2} => C2
> {"displays":true,"edges":[],"grain":"block","modulus":1,"order":[],"processes":[{"kind":"delay","name":"p","slots":[],"start":"starter"}],"signals":[],"version":2} => C2
> {"edges":[],"grain":"block","modulus":0,"order":[],"processes":[{"kind":"comb","name":"p","slots":[],"start":"starter"},{"kind":"delay","name":"p","slots":[[-1]],"start":"none"}],"signals":[],"version":1} => C2
> {"displays":true,"edges":[],"grain":"block","modulus":0,"order":[],"processes":[],"signals":[],"version":2} => C4
> {"displays":true,"edges":[],"grain":"block","modulus":10,"order":[],"processes":[{"kind":"delay","name":"p","slots":[[5,0]],"start":"none"}],"signals":[],"version":2} => C4
> {"displays":true,"edges":[],"grain":"block","modulus":10,"order":[],"processes":[{"kind":"comb","name":"p","slots":[],"start":"starter"},{"kind":"delay","name":"p","slots":[[-1]],"start":"none"}],"signals":[],"version":2} => C4
> {"displays":false,"edges":[],"grain":"block","modulus":1,"order":[],"processes":[],"signals":[],"version":2} => as it was
> {"displays":true,"edges":[],"grain":"block","modulus":1,"order":[],"processes":[],"signals":[],"version":2} => as it was
> {"displays":false,"edges":[],"grain":"block","modulus":1,"order":[],"processes":[{"kind":"comb","name":"p","slots":[],"start":"starter"},{"kind":"comb","name":"p","slots":[],"start":"cold"},{"kind":"comb","name":"p","slots":[],"start":"sources"}],"signals":[],"version":2} => as it was
> {"displays":true,"edges":[],"grain":"block","modulus":10,"order":[],"processes":[{"kind":"edge","name":"p","slots":[],"start":"none"},{"kind":"delay","name":"q","slots":[[0,5]],"start":"none"}],"signals":[{"mode":"blocking","name":"t.a","second":"q","writer":"p"}],"version":2} => as it was"#;

#[test]
fn texts(rt: HostRuntime) -> Result<(), Fail> {
    same(
        &rt,
        rt.alloc(),
        Asked::Certificate,
        SWAP.as_bytes(),
        "as it was",
    )?;
    all_same(&rt, rt.alloc(), Asked::Certificate, TEXTS)
}

// Bytes that say no JSON value.
static NO_JSON: [&[u8]; 5] = [b"", b"\xff", b"\"\xff\"", b"\xef\xbb\xbf1", b"\"\x01\""];

// Such bytes, and each beginning of a certificate.
#[test]
fn no_json(rt: HostRuntime) -> Result<(), Fail> {
    for bytes in &NO_JSON {
        same(&rt, rt.alloc(), Asked::Certificate, bytes, "C1")?;
    }
    for length in 0..SWAP.len() {
        same(
            &rt,
            rt.alloc(),
            Asked::Certificate,
            &SWAP.as_bytes()[..length],
            "C1",
        )?;
    }
    Ok(())
}

#[test]
fn members(rt: HostRuntime) -> Result<(), Fail> {
    written_reads_back();
    value_has_one_certificate();
    assert!(rt; is_of_the_swap(&from_json(rt.alloc(), SWAP.as_bytes())?));
    assert!(rt; from_json(rt.alloc(), REPEATED.as_bytes())?.modulus == 3);
    Ok(())
}

// A certificate that was made and not read may have a start that its version lacks: it isn't sound, and what is written of it is C2.
#[test]
fn versions(rt: HostRuntime) -> Result<(), Fail> {
    let mut certificate = from_json(rt.alloc(), STARTER.as_bytes())?;
    assert!(rt; certificate.version == Version::Two { displays: true });
    assert!(rt; certificate.is_sound());
    certificate.version = Version::One;
    assert!(rt; !certificate.is_sound());
    let written = to_json(rt.alloc(), &certificate)?;
    assert!(rt; certificate_answer(rt.alloc(), written.as_slice())? == "C2");
    Ok(())
}

// Each growth in turn is refused by `rt try --test --fail-alloc 1..`: no other fault is told.
#[test]
fn memory_is_the_only_fault(rt: HostRuntime) {
    if let Ok(told) = certificate_answer(rt.alloc(), SWAP.as_bytes()) {
        assert!(rt; told == "as it was");
    }
}

// The longest texts: one may be 16 MiB long, and no byte longer; and no deeper than the reader goes.
static LENGTHS: [LongRow; 3] = [
    (b'[', 100_000, 0, b'[', "C1"),
    (b' ', 16_777_216, 16_777_215, b'1', "C2"),
    (b' ', 16_777_217, 16_777_215, b'1', "C1"),
];

#[test]
fn lengths(rt: HostRuntime) -> Result<(), Fail> {
    all_long_same(&rt, rt.alloc(), Asked::Certificate, &LENGTHS)
}
