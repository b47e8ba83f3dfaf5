//! What is told of files that the preprocessor refuses.

use crate::file_places::{push_line, push_mark, push_notes};
use crate::given::Extent;
use std::alloc::{AllocError, Global};
use std::io::Write;
use vs_explain::push_shown;
use vs_preprocess::{At, Places, Refusal};

/// Puts what is wrong behind a text: `no.v: error: there is no such file [D6]`; of one line the number alone.
fn push_words(
    alloc: Global,
    text: &mut Vec<u8>,
    refusal: &Refusal,
    extent: Extent,
) -> Result<(), AllocError> {
    let number = refusal.fault.number();
    let words = refusal.fault.words();
    let line = match extent {
        Extent::Line => format!(in alloc; ": error: D{number}\n")?,
        Extent::Explained => format!(in alloc; ": error: {words} [D{number}]\n")?,
    };
    text.extend_from_slice(line.as_bytes())
}

/// What is told of a refusal.
fn refusal_text(
    alloc: Global,
    places: &Places,
    refusal: &Refusal,
    names: &[&str],
    extent: Extent,
) -> Result<Vec<u8>, AllocError> {
    let mut text = Vec::new(alloc);
    match refusal.at {
        At::Spot(spot) => {
            let line = places.line(spot);
            push_line(alloc, &mut text, &line)?;
            push_words(alloc, &mut text, refusal, extent)?;
            if extent == Extent::Explained {
                push_mark(&mut text, &line)?;
                push_notes(alloc, &mut text, places, spot, refusal.definition)?;
            }
        }
        At::Word(word) => {
            let name = names.get(word).copied().unwrap_or("?");
            push_shown(&mut text, name.as_bytes())?;
            push_words(alloc, &mut text, refusal, extent)?;
        }
    }
    if extent == Extent::Explained {
        text.extend_from_slice(b"  ")?;
        text.extend_from_slice(refusal.fault.remedy().as_bytes())?;
        text.push(b'\n')?;
    }
    Ok(text)
}

/// Tells why files are refused; their names are these.
pub fn tell_files<E: Write>(
    alloc: Global,
    places: &Places,
    refusal: &Refusal,
    names: &[&str],
    extent: Extent,
    err: &mut E,
) {
    match refusal_text(alloc, places, refusal, names, extent) {
        Ok(text) => {
            let _ = err.write_all(&text);
        }
        Err(_) => {
            let number = refusal.fault.number();
            let _ = writeln!(err, "vsim: D{number}");
        }
    }
}
