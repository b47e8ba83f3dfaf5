//! Rows of calls of the program that name files: its status, and what it writes.
use std::alloc::{AllocError, Global};
use vs_program::vs_outputs::Sheet;
use vs_program::vs_preprocess::Shelf;
use vs_program::vs_sign_off::Unwatched;
use vs_program::{Writers, program_on};
use vs_row_files::{Answers, Text, files_of};

/// Who calls the program.
#[derive(Clone, Copy)]
pub(crate) struct Calls;

/// The bytes of the file that stands for standard input.
fn input_of<'f>(files: &'f [(&'f [u8], &'f [u8])]) -> &'f [u8] {
    for (name, bytes) in files {
        if *name == b"input".as_slice() {
            return bytes;
        }
    }
    &[]
}

/// Puts the status of a call, and what it wrote.
fn put_call(
    alloc: Global,
    words: &str,
    files: &[(&[u8], &[u8])],
    text: &mut Text,
) -> Result<(), AllocError> {
    let mut list = Vec::new(alloc);
    list.push("vsim")?;
    for word in words.split(' ') {
        list.push(word)?;
    }
    let mut out = Vec::new(alloc);
    let mut err = Vec::new(alloc);
    let input = input_of(files);
    let mut shelf = Shelf { files };
    let writers = Writers {
        out: &mut out,
        is_terminal: false,
        text: Sheet::new(alloc),
        dump: Sheet::new(alloc),
        other: Sheet::new(alloc),
    };
    let (status, writers) = program_on(
        alloc,
        &list,
        &mut shelf,
        input,
        writers,
        &mut Unwatched,
        &mut err,
    );
    let Writers {
        out: _,
        is_terminal: _,
        text: written,
        dump,
        other,
    } = writers;
    text.put_shown(status);
    text.put(b"\n");
    text.put(&out);
    text.put(&err);
    put_sheet(&written, text);
    put_sheet(&dump, text);
    put_sheet(&other, text);
    Ok(())
}

/// Puts a file that was written: its name, and what it holds.
fn put_sheet(sheet: &Sheet, text: &mut Text) {
    if let Some(name) = &sheet.name {
        text.put(b"--- file ");
        text.put(name);
        text.put(b"\n");
        text.put(&sheet.bytes);
    }
}

/// The files of a question, each with a name of its own.
fn named_of(
    alloc: Global,
    files: Vec<(&[u8], Vec<u8>)>,
) -> Result<Vec<(Vec<u8>, Vec<u8>)>, AllocError> {
    let mut named = Vec::new(alloc);
    for (name, bytes) in files {
        named.push((Vec::from_slice(alloc, name)?, bytes))?;
    }
    Ok(named)
}

/// The files of a question as a library has them.
fn library_files<'f>(
    alloc: Global,
    files: &'f [(Vec<u8>, Vec<u8>)],
) -> Result<Vec<(&'f [u8], &'f [u8])>, AllocError> {
    let mut listed = Vec::new(alloc);
    for (name, bytes) in files {
        listed.push((name.as_slice(), bytes.as_slice()))?;
    }
    Ok(listed)
}

/// Puts the answer of a row.
fn put_answer(words: &str, question: &str, text: &mut Text) -> Result<(), AllocError> {
    let alloc = text.alloc();
    let files = named_of(alloc, files_of(alloc, question)?)?;
    let listed = library_files(alloc, &files)?;
    put_call(alloc, words, &listed, text)
}

impl Answers for Calls {
    fn answer(&self, words: &str, question: &str, text: &mut Text) {
        if put_answer(words, question, text).is_err() {
            text.leave_out();
        }
    }
}
