//! What may come after some tokens.

use std::alloc::{AllocError, Global};
use vs_explain_outline::Page;
use vs_parser::{ParseFault, parse};
use vs_syntax::vs_lexer::{Kind, Mark, Token, lex};

/// Tokens that are tried where a token can't stand, in the order in which they are told.
const TRIED: &[u8] =
    b"; , ) ] } ( [ { = + <= : ? . # @ 1 name \"text\" begin end else endmodule endcase endgenerate or module default";

/// The most tokens of a module of which each tried token costs a parse.
const TRIED_LIMIT: usize = 200000;

/// Whether some source goes on so.
fn goes_on(alloc: Global, tokens: &[Token]) -> Result<bool, AllocError> {
    match parse(alloc, tokens) {
        Ok(_) | Err(ParseFault::UnexpectedEnd(_)) => Ok(true),
        Err(ParseFault::Memory) => Err(AllocError),
        Err(_) => Ok(false),
    }
}

/// Adds one more token at the end.
fn add_token<'s>(tokens: &mut Vec<Token<'s>>, token: &Token<'s>) -> Result<(), AllocError> {
    let kind = token.kind;
    let place = token.place;
    let bytes = token.bytes;
    tokens.extend_from_slice(&[Token { kind, place, bytes }])
}

/// Whether some source goes on with one more token.
fn goes_on_with<'s>(
    alloc: Global,
    tokens: &[Token<'s>],
    token: &Token<'s>,
) -> Result<bool, AllocError> {
    let mut longer = Vec::new(alloc);
    longer.extend_from_slice(tokens)?;
    add_token(&mut longer, token)?;
    goes_on(alloc, &longer)
}

/// Whether the token that a text is may come after these; it may not after too many.
pub(crate) fn can_follow(
    alloc: Global,
    tokens: &[Token],
    text: &'static [u8],
) -> Result<bool, AllocError> {
    if tokens.len() > TRIED_LIMIT {
        return Ok(false);
    }
    let Ok(tried) = lex(alloc, text) else {
        return Err(AllocError);
    };
    match tried.first() {
        Some(token) => goes_on_with(alloc, tokens, token),
        None => Ok(false),
    }
}

/// Puts what a tried token is called, after so many others.
fn put_tried(page: &mut Page, token: &Token, count: usize) {
    page.put(if count == 0 {
        "Here could stand "
    } else {
        ", "
    });
    match token.kind {
        Kind::Number(_) => page.put("a number"),
        Kind::Name => page.put("a name"),
        Kind::Text => page.put("a string"),
        Kind::Mark(Mark::Plus) => page.put("an operator"),
        _ => page.put_name(token.bytes),
    }
}

/// Puts which of some tokens may come after these; `<=` isn't told where another operator is.
fn put_each_possible<'s>(
    page: &mut Page,
    tokens: &[Token<'s>],
    tried: &[Token<'s>],
) -> Result<(), AllocError> {
    let mut count = 0usize;
    let mut in_expression = false;
    for token in tried {
        let is_told = !in_expression || token.kind != Kind::Mark(Mark::LessEqual);
        if is_told && goes_on_with(page.alloc(), tokens, token)? {
            put_tried(page, token, count);
            count = count.saturating_add(1);
            in_expression = in_expression || token.kind == Kind::Mark(Mark::Plus);
        }
    }
    if count > 0 {
        page.put(".\n");
    }
    Ok(())
}

/// Puts what may come after these tokens.
pub(crate) fn put_possible(page: &mut Page, tokens: &[Token]) -> Result<(), AllocError> {
    if tokens.len() > TRIED_LIMIT {
        return Ok(());
    }
    match lex(page.alloc(), TRIED) {
        Ok(tried) => put_each_possible(page, tokens, &tried),
        Err(_) => Err(AllocError),
    }
}
