//! Sources that are refused.

use crate::pieces::faulty_piece;
use crate::scopes::put_scope;
use std::alloc::{AllocError, Global};
use vs_explain_certificate::put_forgotten;
use vs_explain_elaboration::explain_design;
use vs_explain_elaboration::vs_scopes::vs_widths::WidthReason;
use vs_explain_elaboration::vs_scopes::{ElabFault, Reason};
use vs_explain_outline::{Explanation, Page, SourceText};
use vs_explain_text::vs_parser::ParseFault;
use vs_explain_text::{explain_grammar, explain_tokens};
use vs_simulate::SimFault;
use vs_syntax::vs_lexer::LexFault;

/// What is said of a fault of the grammar.
fn put_grammar(page: &mut Page, source: &[u8], fault: &ParseFault) {
    match SourceText::read(page.alloc(), source) {
        Ok(Some(text)) => explain_grammar(page, &text, fault),
        Ok(None) => {}
        Err(_) => page.leave_out(),
    }
}

/// What is said of a source that is elaborated, where there is no design.
fn put_reason(page: &mut Page, text: &SourceText, top: &[u8], reason: Reason, path: &[u8]) {
    let piece = match reason {
        Reason::Width(WidthReason::Unknown) => Ok(None),
        Reason::Width(_) => faulty_piece(page.alloc(), text, top, reason, path),
        _ => Ok(None),
    };
    match piece {
        Ok(piece) => explain_design(page, text, reason, path, piece),
        Err(_) => page.leave_out(),
    }
}

/// What is said of a fault of elaboration.
fn put_elaboration(page: &mut Page, source: &[u8], top: &[u8], fault: &ElabFault) {
    let ElabFault::At(reason, path) = fault else {
        return;
    };
    match SourceText::read(page.alloc(), source) {
        Ok(Some(text)) => {
            put_reason(page, &text, top, *reason, path);
            put_scope(page, &text, path);
        }
        Ok(None) => {}
        Err(_) => page.leave_out(),
    }
}

/// What is said of a fault of a source.
fn put_fault(page: &mut Page, source: &[u8], top: &[u8], fault: &SimFault) {
    match fault {
        SimFault::Lex(LexFault::Refused { why, place }) => {
            explain_tokens(page, source, *why, *place);
        }
        SimFault::Parse(cause) => put_grammar(page, source, cause),
        SimFault::Elab(cause) => put_elaboration(page, source, top, cause),
        SimFault::Lex(LexFault::Memory) | SimFault::Run(_) | SimFault::Memory => {}
    }
}

/// Whether a fault is one of the source.
fn is_of_source(fault: &SimFault) -> bool {
    match fault {
        SimFault::Lex(LexFault::Refused { .. }) => true,
        SimFault::Parse(ParseFault::Memory) => false,
        SimFault::Parse(_) => true,
        SimFault::Elab(ElabFault::At(_, _)) => true,
        _ => false,
    }
}

/// Why a source is refused: first the place in the source, then sentences. It is empty where the fault is none of the source.
pub fn explain(
    alloc: Global,
    source: &[u8],
    top: &[u8],
    fault: &SimFault,
) -> Result<Explanation, AllocError> {
    let mut page = Page::new(alloc);
    put_fault(&mut page, source, top, fault);
    page.finish()
}

/// The same of a source that comes after the line of a certificate. Where that line looks like one of the source, it is said first that there is no
/// certificate.
pub fn explain_after(
    alloc: Global,
    certificate: &[u8],
    source: &[u8],
    top: &[u8],
    fault: &SimFault,
) -> Result<Explanation, AllocError> {
    let mut page = Page::new(alloc);
    if is_of_source(fault) {
        put_forgotten(&mut page, certificate);
    }
    put_fault(&mut page, source, top, fault);
    page.finish()
}
