//! Tables of rows: sources and texts of certificates, each with what is told of it.

use crate::certificate_answers::certificate_answer;
use crate::token_texts::{TokenAspect, shown};
use std::alloc::{AllocError, Global};
use std::process::Abort;
use std::test::Fail;

/// What is asked of a row's bytes.
#[derive(Clone, Copy)]
pub enum Asked {
    /// The tokens of a source.
    Tokens(TokenAspect),
    /// How a certificate reads.
    Certificate,
}

// What is told of bytes.
fn answer(alloc: Global, asked: Asked, bytes: &[u8]) -> Result<String, AllocError> {
    match asked {
        Asked::Tokens(view) => shown(alloc, view, bytes),
        Asked::Certificate => certificate_answer(alloc, bytes)?.to_string(alloc),
    }
}

/// Ends the test where something else is told of bytes.
pub fn same(
    rt: &impl Abort,
    alloc: Global,
    asked: Asked,
    bytes: &[u8],
    wanted: &str,
) -> Result<(), Fail> {
    let told = answer(alloc, asked, bytes)?;
    assert!(rt; told.as_str() == wanted, "of {bytes:?}: {told}");
    Ok(())
}

/// The rows of a table, which has one behind each `> ` at the head of a line: a source, and what is told of it.
pub fn all_same(rt: &impl Abort, alloc: Global, asked: Asked, table: &str) -> Result<(), Fail> {
    for row in table.split("\n> ").skip(1) {
        let (source, wanted) = row.rsplit_once(" => ").unwrap_or((row, ""));
        same(rt, alloc, asked, source.as_bytes(), wanted)?;
    }
    Ok(())
}

/// Equal bytes, how many, the place of one that is another one, that one, and what is told of them.
pub type LongRow = (u8, usize, usize, u8, &'static str);

// The row of a long source.
fn long_same(rt: &impl Abort, alloc: Global, asked: Asked, row: &LongRow) -> Result<(), Fail> {
    let &(bytes, length, place, byte, wanted) = row;
    let mut source = vec![in alloc; bytes; length]?;
    if place < length {
        source[place] = byte;
    }
    same(rt, alloc, asked, &source, wanted)
}

/// The rows of long sources.
pub fn all_long_same(
    rt: &impl Abort,
    alloc: Global,
    asked: Asked,
    rows: &[LongRow],
) -> Result<(), Fail> {
    for row in rows {
        long_same(rt, alloc, asked, row)?;
    }
    Ok(())
}
