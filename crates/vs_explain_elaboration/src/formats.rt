//! Format strings of `$display` and `$strobe`.

use crate::names::regions_of;
use vs_explain_outline::{LandmarkKind, Page, SourceText, is_marked};
use vs_scopes::vs_strobe::FormatReason;
use vs_syntax::vs_lexer::{Kind, Mark, Token};

/// What a format string asks for.
#[derive(Clone, Copy)]
struct Asked {
    /// How many arguments its directives take.
    taken: usize,
    /// Whether a `%` has no directive after it.
    is_bad: bool,
}

/// Whether a letter is that of a directive that takes an argument.
fn takes_argument(letter: u8) -> bool {
    matches!(
        letter.to_ascii_lowercase(),
        b'b' | b'o' | b'h' | b'd' | b't' | b'c' | b's'
    )
}

/// What a format string asks for.
fn asked_by(bytes: &[u8]) -> Asked {
    let mut taken = 0usize;
    let mut is_bad = false;
    let mut open = false;
    let mut zero = false;
    for byte in bytes {
        if !open {
            open = *byte == b'%';
            zero = false;
        } else if *byte == b'0' && !zero {
            zero = true;
        } else {
            open = false;
            if takes_argument(*byte) {
                taken = taken.saturating_add(1);
            } else if byte.to_ascii_lowercase() != b'm' && (*byte != b'%' || zero) {
                is_bad = true;
            }
        }
    }
    Asked {
        taken,
        is_bad: is_bad || open,
    }
}

/// How many arguments stand after the format string of a call whose name is this token.
fn arguments_at(tokens: &[Token], call: usize) -> usize {
    let mut depth = 0usize;
    let mut commas = 0usize;
    for index in call.saturating_add(1)..tokens.len() {
        let Some(token) = tokens.get(index) else {
            return commas;
        };
        match token.kind {
            Kind::Mark(Mark::Open) | Kind::Mark(Mark::OpenBracket) | Kind::Mark(Mark::OpenBrace) =>
                depth = depth.saturating_add(1),
            Kind::Mark(Mark::Close)
            | Kind::Mark(Mark::CloseBracket)
            | Kind::Mark(Mark::CloseBrace) => depth = depth.saturating_sub(1),
            Kind::Mark(Mark::Comma) if depth == 1 => commas = commas.saturating_add(1),
            _ => {}
        }
        if depth == 0 {
            return commas;
        }
    }
    commas
}

/// Whether a call has this fault.
fn has_fault(asked: Asked, given: usize, why: FormatReason) -> bool {
    match why {
        FormatReason::BadDirective => asked.is_bad,
        FormatReason::TooFewArguments => !asked.is_bad && asked.taken > given,
        FormatReason::TooManyArguments => !asked.is_bad && asked.taken < given,
    }
}

/// Puts how many arguments there are.
fn put_arguments(page: &mut Page, count: usize) {
    match count {
        0 => page.put("no argument"),
        1 => page.put("1 argument"),
        _ => {
            page.put_shown(count);
            page.put(" arguments");
        }
    }
}

/// Says what is wrong with a call.
fn put_fault(page: &mut Page, asked: Asked, given: usize, why: FormatReason) {
    if why == FormatReason::BadDirective {
        page.put(
            "A `%` of this string has no directive after it. Write `%%` for a percent sign. The directives are `%b`, `%o`, `%h`, `%d`, `%t`, `%c`, `%s` and `%m`, without a width or with the width 0.\n",
        );
        return;
    }
    page.put("The directives of this string take ");
    put_arguments(page, asked.taken);
    page.put(", and ");
    put_arguments(page, given);
    page.put(if given <= 1 {
        " stands after it. "
    } else {
        " stand after it. "
    });
    page.put(if asked.taken < given {
        "Add a directive such as `%b`, or leave an argument out.\n"
    } else {
        "Add an argument, or leave a directive out.\n"
    });
}

/// The format string of a call whose name is this token.
fn text_of<'t, 's>(text: &'t SourceText<'s>, call: usize) -> Option<&'t Token<'s>> {
    match text.tokens.get(call.saturating_add(2)) {
        Some(token) if token.kind == Kind::Text => Some(token),
        _ => None,
    }
}

/// The format string of a call has a bad directive, or its directives don't fit its arguments.
pub(crate) fn bad_format(page: &mut Page, text: &SourceText, why: FormatReason, path: &[u8]) {
    let marked = regions_of(page, text, path);
    for landmark in &text.outline.landmarks {
        if landmark.kind != LandmarkKind::Print || !is_marked(&marked, landmark.region) {
            continue;
        }
        let Some(token) = text_of(text, landmark.token) else {
            continue;
        };
        let Ok(bytes) = token.text(page.alloc()) else {
            return page.leave_out();
        };
        let asked = asked_by(&bytes);
        let given = arguments_at(&text.tokens, landmark.token);
        if has_fault(asked, given, why) {
            page.put_place(token.place);
            return put_fault(page, asked, given, why);
        }
    }
}
