//! Rows of the preprocessor: files with the text that they become, or with their faults.
mod asked;

use crate::preprocess::asked::put_answer;
use vs_row_files::{Answers, Text};

/// Who preprocesses.
#[derive(Clone, Copy)]
pub struct Preprocesses;

impl Answers for Preprocesses {
    fn answer(&self, words: &str, question: &str, text: &mut Text) {
        if put_answer(words, question, text).is_err() {
            text.leave_out();
        }
        text.put(b"\n");
    }
}
