//! What is answered of files.

use std::alloc::{AllocError, Global};
use vs_preprocess::{At, Call, Failure, Preprocessed, Refusal, Shelf, Spot, preprocess};
use vs_row_files::{Text, files_of};

/// The words of a call: names of files, and what stands behind `-D` and `-I`.
#[derive(Drop)]
struct Words<'w> {
    files: Vec<&'w [u8]>,
    defines: Vec<&'w [u8]>,
    folders: Vec<&'w [u8]>,
}

/// What a word of a call is.
#[derive(Clone, Copy)]
enum Kind {
    File,
    Define,
    Folder,
}

/// Reads the words of a call.
fn words_of<'w>(alloc: Global, words: &'w str) -> Result<Words<'w>, AllocError> {
    let mut found = Words {
        files: Vec::new(alloc),
        defines: Vec::new(alloc),
        folders: Vec::new(alloc),
    };
    let mut kind = Kind::File;
    for word in words.split(' ') {
        if word == "-D" {
            kind = Kind::Define;
        } else if word == "-I" {
            kind = Kind::Folder;
        } else {
            match kind {
                Kind::File => found.files.push(word.as_bytes())?,
                Kind::Define => found.defines.push(word.as_bytes())?,
                Kind::Folder => found.folders.push(word.as_bytes())?,
            }
            kind = Kind::File;
        }
    }
    Ok(found)
}

/// Puts a text with one space for each run of white space, and none at its ends.
fn put_words(bytes: &[u8], text: &mut Text) {
    let mut is_first = true;
    for word in bytes.split(|byte| byte.is_ascii_whitespace()) {
        if word.is_empty() {
            continue;
        }
        if !is_first {
            text.put(b" ");
        }
        text.put(word);
        is_first = false;
    }
}

/// Puts a place: the file, the line and the column.
fn put_spot(made: &Preprocessed, spot: Spot, text: &mut Text) {
    let line = made.places.line(spot);
    text.put(line.name);
    text.put(b":");
    text.put_shown(line.number);
    text.put(b":");
    text.put_shown(line.column);
}

/// Puts a fault: its number, and its place.
fn put_refusal(made: &Preprocessed, refusal: Refusal, files: &[&[u8]], text: &mut Text) {
    text.put(b"D");
    text.put_shown(refusal.fault.number());
    text.put(b" ");
    match refusal.at {
        At::Spot(spot) => put_spot(made, spot, text),
        At::Word(number) => text.put(files.get(number).copied().unwrap_or(b"?")),
    }
}

/// Puts where each byte of a text comes from that begins a word: the word, and its place; behind an expansion the place of the definition.
fn put_places(made: &Preprocessed, bytes: &[u8], text: &mut Text) {
    let mut is_first = true;
    let mut is_inside = false;
    for (offset, byte) in bytes.iter().enumerate() {
        let is_word = !byte.is_ascii_whitespace();
        if is_word && !is_inside {
            if !is_first {
                text.put(b" ");
            }
            is_first = false;
            put_place(made, offset, text);
        }
        if is_word {
            text.put(&[*byte]);
        }
        is_inside = is_word;
    }
}

/// Puts where a byte of a text comes from.
fn put_place(made: &Preprocessed, offset: usize, text: &mut Text) {
    let Some(origin) = made.places.spot(offset) else {
        return text.put(b"nowhere");
    };
    put_spot(made, origin.spot, text);
    if let Some((name, spot)) = origin
        .definition
        .and_then(|number| made.places.definition(number))
    {
        text.put(b"(");
        text.put(name);
        text.put(b" at ");
        put_spot(made, spot, text);
        text.put(b")");
    }
    text.put(b"=");
}

/// The files of a question, each with a name of its own.
fn named_of(
    alloc: Global,
    files: Vec<(&[u8], Vec<u8>)>,
) -> Result<Vec<(Vec<u8>, Vec<u8>)>, AllocError> {
    let mut named = Vec::new(alloc);
    for (name, bytes) in files {
        named.push((Vec::from_slice(alloc, name)?, bytes))?;
    }
    Ok(named)
}

/// The files of a question as a library has them.
fn library_files<'f>(
    alloc: Global,
    files: &'f [(Vec<u8>, Vec<u8>)],
) -> Result<Vec<(&'f [u8], &'f [u8])>, AllocError> {
    let mut listed = Vec::new(alloc);
    for (name, bytes) in files {
        listed.push((name.as_slice(), bytes.as_slice()))?;
    }
    Ok(listed)
}

/// What is made of the files of a library, asked with these words.
fn made_of(
    alloc: Global,
    words: &Words<'_>,
    listed: &[(&[u8], &[u8])],
) -> Result<Preprocessed, Failure> {
    let call = Call {
        files: &words.files,
        defines: &words.defines,
        folders: &words.folders,
    };
    let mut shelf = Shelf { files: listed };
    preprocess(alloc, &mut shelf, &call)
}

/// What is made of the files of a question, asked with these words.
fn made_of_files(
    alloc: Global,
    words: &Words<'_>,
    files: &[(Vec<u8>, Vec<u8>)],
) -> Result<Preprocessed, Failure> {
    let listed = library_files(alloc, files)?;
    made_of(alloc, words, &listed)
}

/// Puts what is answered of the files of a question, asked with the words of a call; behind `places` where the words of the text come from.
pub(crate) fn put_answer(words: &str, question: &str, text: &mut Text) -> Result<(), Failure> {
    let alloc = text.alloc();
    let files = named_of(alloc, files_of(alloc, question)?)?;
    let (words, is_about_places) = match words.strip_prefix("places ") {
        Some(rest) => (rest, true),
        None => (words, false),
    };
    let words = words_of(alloc, words)?;
    let made = made_of_files(alloc, &words, &files)?;
    match &made.outcome {
        Ok(bytes) if is_about_places => put_places(&made, bytes, text),
        Ok(bytes) => put_words(bytes, text),
        Err(refusal) => put_refusal(&made, *refusal, &words.files, text),
    }
    Ok(())
}
