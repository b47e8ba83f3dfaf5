//! Files that stand in the question of a row: each stands behind a line `--- file NAME`.
//!
//! In their texts `@CR@` stands for a carriage return, `@BOM@` for a byte order mark, `@CUT@` for nothing, and with it the line feed behind it,
//! and `@N*TEXT@` for so many times that text.
use std::alloc::{AllocError, Global};

/// Puts what a word between two `@` stands for.
fn put_word(word: &str, bytes: &mut Vec<u8>) -> Result<(), AllocError> {
    match word {
        "CR" => bytes.extend_from_slice(b"\r"),
        "BOM" => bytes.extend_from_slice(&[0xef, 0xbb, 0xbf]),
        _ => {
            let (count, text) = word.split_once('*').unwrap_or(("1", word));
            for _ in 0..count.parse::<u16>().ok().unwrap_or(1) {
                bytes.extend_from_slice(text.as_bytes())?;
            }
            Ok(())
        }
    }
}

/// The bytes that the text of a file stands for.
fn bytes_of(alloc: Global, text: &str) -> Result<Vec<u8>, AllocError> {
    let text = text.strip_suffix("@CUT@\n").unwrap_or(text);
    let mut bytes = Vec::new(alloc);
    let mut is_word = false;
    for part in text.split('@') {
        if is_word {
            put_word(part, &mut bytes)?;
        } else {
            bytes.extend_from_slice(part.as_bytes())?;
        }
        is_word = !is_word;
    }
    Ok(bytes)
}

/// The files of a question, each with its name.
pub fn files_of<'q>(
    alloc: Global,
    question: &'q str,
) -> Result<Vec<(&'q [u8], Vec<u8>)>, AllocError> {
    let mut files = Vec::new(alloc);
    for part in question.split("--- file ").skip(1) {
        let (name, text) = part.split_once('\n').unwrap_or((part, ""));
        files.push((name.as_bytes(), bytes_of(alloc, text)?))?;
    }
    Ok(files)
}
