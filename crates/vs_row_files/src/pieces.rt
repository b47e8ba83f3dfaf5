//! Texts that are made of repeated pieces.

use crate::text::Text;

/// Puts a piece: `§` stands for the number of the turn, `¶` for the next one, and `°` for as many zeros as the number says.
fn put_piece(piece: &str, number: usize, text: &mut Text) {
    for letter in piece.chars() {
        match letter {
            '§' => text.put_shown(number),
            '¶' => text.put_shown(number.saturating_add(1)),
            '°' => put_zeros(number, text),
            _ => text.put_shown(letter),
        }
    }
}

/// Puts so many zeros.
fn put_zeros(count: usize, text: &mut Text) {
    for _ in 0..count {
        text.put(b"0");
    }
}

/// Puts the pieces of a line: a count, a space, and the piece that stands so many times.
fn put_line(line: &str, text: &mut Text) {
    let (count, piece) = line.split_once(' ').unwrap_or(("1", line));
    for number in 0..count.parse().ok().unwrap_or(1) {
        put_piece(piece, number, text);
    }
}

/// Puts a text of pieces: each line has a count, a space, and the piece that stands so many times; in it `§` stands for the number of the turn, `¶` for
/// the next one, and `°` for as many zeros as the number says.
pub fn put_pieces(lines: &str, text: &mut Text) {
    for line in lines.split('\n') {
        put_line(line, text);
    }
}
