//! Tables of words, and what is said of each.

/// What a table says of a word: each entry has words with a space between them, and what is said of these. Nothing of a word that no entry has.
pub(crate) fn said_in(table: &[(&str, &'static str)], word: &[u8]) -> &'static str {
    for (words, said) in table {
        if has_word(words, word) {
            return said;
        }
    }
    ""
}

// Whether one of these words, with a space between them, is this one.
fn has_word(words: &str, word: &[u8]) -> bool {
    for one in words.split(' ') {
        if one.as_bytes() == word {
            return true;
        }
    }
    false
}
