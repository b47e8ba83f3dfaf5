//! Words of a command that is told, as a shell takes them.

use std::alloc::AllocError;

/// Whether a shell takes a byte of a word as it is.
fn is_plain(byte: u8) -> bool {
    byte.is_ascii_alphanumeric() || b"_-./=+:,@%".contains(&byte)
}

/// Puts a word behind a text, with a space in front, and between quotes where a shell wants them.
fn push_word(text: &mut Vec<u8>, word: &[u8]) -> Result<(), AllocError> {
    text.push(b' ')?;
    let is_quoted = word.is_empty() || !word.iter().all(|byte| is_plain(*byte));
    if !is_quoted {
        return text.extend_from_slice(word);
    }
    text.push(b'\'')?;
    for byte in word {
        if *byte == b'\'' {
            text.extend_from_slice(b"'\\''")?;
        } else {
            text.push(*byte)?;
        }
    }
    text.push(b'\'')?;
    Ok(())
}

/// Puts an option behind a text for each of its values.
fn push_options(text: &mut Vec<u8>, option: &[u8], values: &[&str]) -> Result<(), AllocError> {
    for value in values {
        text.extend_from_slice(option)?;
        push_word(text, value.as_bytes())?;
    }
    Ok(())
}

/// Puts the words behind a command that name its files, each with a space in front: ` -D W=8 -I lib a.v b.v`. Without files it puts nothing.
pub fn push_sources(
    text: &mut Vec<u8>,
    files: &[&str],
    defines: &[&str],
    folders: &[&str],
) -> Result<(), AllocError> {
    if files.is_empty() {
        return Ok(());
    }
    push_options(text, b" -D", defines)?;
    push_options(text, b" -I", folders)?;
    push_options(text, b"", files)
}
