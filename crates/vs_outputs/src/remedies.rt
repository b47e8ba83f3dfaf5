//! What mends refusals whose explanation says what is wrong alone.

/// Refusals, by the front of their number and place, and what mends each.
static REMEDIES: [(&str, &str); 5] = [
    (
        "E2 ",
        "Let the inner instance be of another module, or make the repetition by a generate loop.",
    ),
    (
        "E3 ",
        "Give each port of the header a direction, and declare no input as `reg`.",
    ),
    (
        "E7 ",
        "Make it smaller, or cut it into several; docs/language.md has the limits.",
    ),
    (
        "E8 X2 ",
        "Declare it, or spell it as it is declared: upper and lower case differ.",
    ),
    (
        "E8 X3 ",
        "Write numbers, parameters and genvars there; a part at any place is `a[i +: 4]`.",
    ),
];

/// What mends a module that there isn't, beside the names of those that there are.
const NO_MODULE: &str = "Name the file that has it too, or write a name that the source has.";

/// What is said of a mark that isn't there, where no byte was read.
const NO_MARK: &[u8] = b" The mark shows where it ends.\n";

/// What mends a refusal, by its number and by what its explanation says behind what is wrong; nothing where that says it.
pub(crate) fn remedy_of(number: &[u8], said: &[u8]) -> &'static str {
    if number.starts_with(b"E1 ") {
        return NO_MODULE;
    }
    if !said.is_empty() {
        return "";
    }
    for (front, remedy) in &REMEDIES {
        if number.starts_with(front.as_bytes()) {
            return remedy;
        }
    }
    ""
}

/// What an explanation says, without the mark of a source that has no bytes.
pub(crate) fn without_mark(said: &[u8]) -> &[u8] {
    said.strip_suffix(NO_MARK).unwrap_or(said)
}
