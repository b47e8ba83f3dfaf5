//! What is wrong with tokens that derive no source.

use crate::features::put_feature;
use crate::left_out::instead_of;
use crate::open::last_open;
use crate::possible::put_possible;
use crate::refused::Refused;
use vs_explain_outline::{Page, SourceText};
use vs_parser::ParseFault;
use vs_syntax::vs_lexer::{Kind, Token, Word};

/// Says why the grammar refuses the tokens of a source.
pub fn explain_grammar(page: &mut Page, text: &SourceText, fault: &ParseFault) {
    match fault {
        ParseFault::Unexpected(place) => unexpected(page, text, *place),
        ParseFault::LeftOut { place, text: bytes } => left_out(page, text, *place, bytes),
        ParseFault::TooDeep(place) => {
            page.put_place(*place);
            page.put(
                "Here the source nests more than 256 deep. Name parts of it: a net for a part of an expression.\n",
            );
        }
        ParseFault::UnexpectedEnd(place) => unfinished(page, text, *place),
        ParseFault::Memory => {}
    }
}

/// How many tokens stand before a place.
fn tokens_before(tokens: &[Token], place: usize) -> usize {
    let mut count = 0usize;
    for token in tokens {
        if token.place >= place {
            return count;
        }
        count = count.saturating_add(1);
    }
    count
}

/// Of so many tokens: where the last `module` stands, else 0.
fn module_start(tokens: &[Token], count: usize) -> usize {
    let mut from = 0usize;
    for (index, token) in tokens.iter().enumerate() {
        if index < count && token.kind == Kind::Word(Word::Module) {
            from = index;
        }
    }
    from
}

/// Puts what may come after so many tokens.
fn put_possible_after(page: &mut Page, text: &SourceText, count: usize) {
    let from = module_start(&text.tokens, count);
    let Some(tokens) = text.tokens.get(from..count) else {
        return;
    };
    if put_possible(page, tokens).is_err() {
        page.leave_out();
    }
}

/// Puts the token before, where it ends an earlier line: what is missing there is noticed here.
fn put_before(page: &mut Page, text: &SourceText, count: usize) {
    let Some(before) = text.tokens.get(count.saturating_sub(1)) else {
        return;
    };
    let Some(token) = text.tokens.get(count) else {
        return;
    };
    let end = before.place.saturating_add(before.bytes.len());
    let gap = text.bytes.get(end..token.place).unwrap_or(&[]);
    if count > 0 && gap.contains(&b'\n') {
        page.put("Before it stands ");
        page.put_name(before.bytes);
        page.put(", whose end is at ");
        page.put_spot(end);
        page.put(": what is missing may be missing there.\n");
    }
}

fn unexpected(page: &mut Page, text: &SourceText, place: usize) {
    let count = tokens_before(&text.tokens, place);
    page.put_place(place);
    if let Some(token) = text.tokens.get(count) {
        page.put_name(token.bytes);
        page.put(" can't stand here.\n");
    }
    let module = module_start(&text.tokens, count);
    let refused = Refused::new(text.bytes, &text.tokens, module, count);
    match put_feature(page, &refused) {
        Ok(true) => {}
        Ok(false) => {
            put_possible_after(page, text, count);
            put_before(page, text, count);
        }
        Err(_) => page.leave_out(),
    }
}

fn left_out(page: &mut Page, text: &SourceText, place: usize, bytes: &[u8]) {
    page.put_place(place);
    page.put_name(bytes);
    page.put(" isn't in this subset of Verilog here.");
    let instead = instead_of(bytes);
    if !instead.is_empty() {
        page.put(" ");
        page.put(instead);
    }
    page.put("\n");
}

fn unfinished(page: &mut Page, text: &SourceText, place: usize) {
    page.put_place(place);
    page.put("The source ends here, too early.\n");
    match last_open(page.alloc(), &text.tokens) {
        Ok(Some(index)) => {
            page.put_name(text.name_at(index));
            page.put(" of ");
            page.put_spot(text.place_at(index));
            page.put(" is still open.\n");
        }
        Ok(None) => {}
        Err(_) => page.leave_out(),
    }
    put_possible_after(page, text, text.tokens.len());
}
