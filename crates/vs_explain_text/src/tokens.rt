//! What is wrong with the tokens of a source.

use crate::literals::{bad_number, large_number};
use vs_explain_outline::Page;
use vs_syntax::vs_lexer::Refusal;

/// The most bytes that a source has: 4 MiB.
const SOURCE_LIMIT: usize = 4194304;

/// Directives for a preprocessor.
const PREPROCESSED: [&[u8]; 9] = [
    b"`define",
    b"`undef",
    b"`undefineall",
    b"`ifdef",
    b"`ifndef",
    b"`include",
    b"`elsif",
    b"`else",
    b"`endif",
];

/// Directives that say nothing about what a design does here.
const DROPPED: [&[u8]; 10] = [
    b"`begin_keywords",
    b"`celldefine",
    b"`end_keywords",
    b"`endcelldefine",
    b"`line",
    b"`nounconnected_drive",
    b"`pragma",
    b"`protect",
    b"`resetall",
    b"`unconnected_drive",
];

/// What is put before a file in UTF-8 by some editors.
const BYTE_ORDER_MARK: &[u8] = b"\xef\xbb\xbf";

/// Says what is wrong with a source at a place, why its tokens are refused.
pub fn explain_tokens(page: &mut Page, source: &[u8], why: Refusal, place: usize) {
    page.put_place(place);
    let rest = source.get(place..).unwrap_or(&[]);
    match why {
        Refusal::BadByte => bad_byte(page, rest),
        Refusal::Unclosed => unclosed(page, rest),
        Refusal::BadLiteral => bad_literal(page, source.get(..place).unwrap_or(&[]), rest),
        Refusal::TooLarge => large_number(page, rest),
        Refusal::BadDirective => bad_directive(page, rest),
        Refusal::TooLong => too_long(page, source, place),
    }
}

fn bad_byte(page: &mut Page, rest: &[u8]) {
    let Some(byte) = rest.first() else {
        return;
    };
    if rest.starts_with(BYTE_ORDER_MARK) {
        page.put(
            "A byte order mark stands here: save the file as UTF-8 without one, or cut it off, as `tail -c +4 bad.v >good.v` does.\n",
        );
        return;
    }
    if byte.is_ascii_graphic() {
        page.put("What begins here has a byte that can't stand in it.\n");
        return;
    }
    page.put("The byte ");
    page.put_shown(*byte);
    page.put(" begins no token. ");
    if *byte >= 128 {
        page.put("Letters and quotes that aren't ASCII stand in comments and strings alone.\n");
    } else {
        page.put(
            "Of the control bytes only tab, form feed and the ends of lines may stand here.\n",
        );
    }
}

fn unclosed(page: &mut Page, rest: &[u8]) {
    match rest.first() {
        Some(b'"') => page.put(
            "This string isn't closed: a string ends with a `\"` on the line on which it begins.\n",
        ),
        Some(b'(') => page.put("This attribute isn't closed: write `*)` at its end.\n"),
        _ => page.put("This comment isn't closed: write `*/` at its end.\n"),
    }
}

fn bad_literal(page: &mut Page, before: &[u8], rest: &[u8]) {
    if rest.first() == Some(&b'"') {
        page.put(
            "A backslash of this string stands before what it can't: write `\\n`, `\\t`, `\\\\`, `\\\"` or one to three octal digits up to 377.\n",
        );
        return;
    }
    bad_number(page, before, rest);
}

/// The letters and digits with which bytes begin, and the byte before them.
fn first_word(rest: &[u8]) -> &[u8] {
    for (index, byte) in rest.iter().enumerate() {
        let in_word = byte.is_ascii_alphanumeric() || *byte == b'_';
        if index > 0 && !in_word {
            return rest.get(..index).unwrap_or(&[]);
        }
    }
    rest
}

/// Whether a word is among these.
fn is_among(words: &[&[u8]], word: &[u8]) -> bool {
    for other in words {
        if *other == word {
            return true;
        }
    }
    false
}

fn bad_directive(page: &mut Page, rest: &[u8]) {
    let word = first_word(rest);
    if word == b"`timescale".as_slice() {
        page.put(
            "A time scale is a unit, `/` and a precision that isn't above it, each 1, 10 or 100 of s, ms, us, ns, ps or fs: write `1ns/1ps`.\n",
        );
        return;
    }
    if word == b"`default_nettype".as_slice() {
        page.put("What comes after it is `wire` or `none`.\n");
        return;
    }
    let is_dropped = is_among(&DROPPED, word);
    page.put(if is_dropped || is_among(&PREPROCESSED, word) {
        "The directive "
    } else {
        "The macro "
    });
    page.put_bytes(word);
    page.put(" isn't read. ");
    if is_dropped {
        page.put("Leave it out.\n");
    } else {
        page.put("Run a preprocessor first, as `iverilog -E -o plain.v bad.v`.\n");
    }
}

fn too_long(page: &mut Page, source: &[u8], place: usize) {
    if place < SOURCE_LIMIT {
        page.put("This name has more than 1,024 bytes.\n");
        return;
    }
    page.put("The source has more than 4194304 bytes, the most that are read.");
    if source.len() > SOURCE_LIMIT {
        page.put(
            " Make it smaller: use generate loops, and memories that the design fills, in place of tables.",
        );
    }
    page.put("\n");
}
