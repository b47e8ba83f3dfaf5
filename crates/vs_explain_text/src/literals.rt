//! What is wrong with a literal.

use vs_explain_outline::Page;

/// How many bytes are looked back for the `#` of a delay.
const LOOKED_BACK: usize = 16;

/// How many digits a number has that surely fits into 64 bits.
const DIGITS_LIMIT: usize = 19;

/// How many bytes at the beginning are decimal digits, or `_` after one.
fn digit_count(bytes: &[u8]) -> usize {
    for (index, byte) in bytes.iter().enumerate() {
        let is_digit = byte.is_ascii_digit() || *byte == b'_' && index > 0;
        if !is_digit {
            return index;
        }
    }
    bytes.len()
}

/// What stands after white space.
fn after_white(bytes: &[u8]) -> &[u8] {
    for (index, byte) in bytes.iter().enumerate() {
        if !byte.is_ascii_whitespace() {
            return bytes.get(index..).unwrap_or(&[]);
        }
    }
    &[]
}

/// Whether the last visible byte but an opening parenthesis is a `#`.
fn is_delay(before: &[u8]) -> bool {
    for (count, byte) in before.iter().rev().enumerate() {
        if *byte == b'#' {
            return true;
        }
        if count > LOOKED_BACK || *byte != b'(' && !byte.is_ascii_whitespace() {
            return false;
        }
    }
    false
}

/// Whether a number is one with a unit of time after it, as `10ns`.
fn has_unit(after: &[u8]) -> bool {
    let mut length = 0usize;
    for byte in after {
        if !byte.is_ascii_alphanumeric() {
            break;
        }
        length = length.saturating_add(1);
    }
    match after.get(..length).unwrap_or(&[]) {
        b"s" | b"ms" | b"us" | b"ns" | b"ps" | b"fs" => true,
        _ => false,
    }
}

/// Whether digits go on as a real number: by a point, or by an exponent.
fn is_real(after: &[u8]) -> bool {
    match after {
        [b'.', ..] => true,
        [b'e', next, ..] | [b'E', next, ..] => next.is_ascii_digit()
            || *next == b'-'
            || *next == b'+',
        _ => false,
    }
}

/// What is said of a real number, which may be a delay.
fn said_of_real(delay: bool) -> &'static str {
    if delay {
        "A delay is a whole number: take a smaller unit, as #75 by `` `timescale 100ps/100ps`` in place of #7.5 by `` `timescale 1ns/100ps``.\n"
    } else {
        "Real numbers aren't read: write a whole number, of a smaller unit where it has one.\n"
    }
}

/// What is said of a quote and what comes after it, where no base does.
fn said_of_quote(after: &[u8]) -> &'static str {
    match after {
        [b'{', ..] =>
            "`'{` is SystemVerilog: assign to each word of an array, or write a concatenation without the `'`.\n",
        [b'(', ..] =>
            "A cast is SystemVerilog: assign the value to a `reg` of that size, or write `$signed` or `$unsigned`.\n",
        [b'0', ..] => "`'0` is SystemVerilog: write 0.\n",
        [b'1', ..] => "`'1` is SystemVerilog: write each bit, as `{8{1'b1}}` for 8 bits.\n",
        [b'x', ..] | [b'X', ..] => "`'x` is SystemVerilog: write the size, as `8'bx`.\n",
        [b'z', ..] | [b'Z', ..] => "`'z` is SystemVerilog: write the size, as `8'bz`.\n",
        _ => "",
    }
}

/// What is said of digits, by what comes after them.
fn said_of_number(after: &[u8], delay: bool) -> &'static str {
    if is_real(after) {
        return said_of_real(delay);
    }
    if has_unit(after) {
        return "A time with its unit is SystemVerilog: write the number, and the unit by `` `timescale 1ns/1ns``.\n";
    }
    match after_white(after) {
        [b'\'', quoted @ ..] => said_of_quote(quoted),
        [byte, ..] if byte.is_ascii_alphabetic() =>
            "A name doesn't begin with a digit, and no letter comes directly after a number.\n",
        _ => "",
    }
}

/// Says what is wrong with a number, where the bytes before it, and those that begin with it, are these.
pub(crate) fn bad_number(page: &mut Page, before: &[u8], rest: &[u8]) {
    let said = match rest {
        [b'\'', quoted @ ..] => said_of_quote(quoted),
        _ => {
            let after = rest.get(digit_count(rest)..).unwrap_or(&[]);
            said_of_number(after, is_delay(before))
        }
    };
    if !said.is_empty() {
        return page.put(said);
    }
    page.put("This number isn't well formed. ");
    page.put(
        "It is decimal digits, or a size, `'`, one of `b o d h`, and digits of that base, x or z; no letter and no point comes directly after it.\n",
    );
}

/// Says why a number is too large.
pub(crate) fn large_number(page: &mut Page, rest: &[u8]) {
    let digits = rest.get(..digit_count(rest)).unwrap_or(&[]);
    let after = rest.get(digits.len()..).unwrap_or(&[]);
    if after_white(after).first() == Some(&b'\'') {
        page.put(
            "The size of a number is 1 to 64 bits: cut a longer one into parts, in signals of their own.\n",
        );
        return;
    }
    page.put("A number without a size has at most 32 bits");
    if digits.is_empty() || digits.len() > DIGITS_LIMIT {
        page.put(": give it a size of up to 64.\n");
        return;
    }
    page.put(": write `64'd");
    page.put_bytes(digits);
    page.put("`.\n");
}
