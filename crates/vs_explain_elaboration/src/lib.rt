//! What is said of a source and a top that define no design.
#![tactic(auto)]

mod connections;
mod declared;
mod drivers;
mod formats;
mod kinds;
mod limits;
mod names;
mod nearest;
mod places;
mod twice;

use vs_explain_outline::{Page, Piece, SourceText};
pub use vs_scopes;
use vs_scopes::Reason;

/// Says why a source and a top define no design: the reason, the printed path that it names, and the piece of the source that has the fault, where it is
/// known.
pub fn explain_design(
    page: &mut Page,
    text: &SourceText,
    reason: Reason,
    path: &[u8],
    piece: Option<Piece>,
) {
    match reason {
        Reason::NoModule => names::no_module(page, text, path),
        Reason::Inside => names::inside_itself(page, text, path),
        Reason::PortMismatch => connections::ports_differ(page, text, path),
        Reason::ParameterMismatch => connections::parameters_differ(page, text, path),
        Reason::DeclaredTwice => twice::declared_twice(page, text, path),
        Reason::DrivenTwice => drivers::driven_twice(page, text, path),
        Reason::Limit => limits::limit_passed(page, text, path),
        Reason::Width(why) => kinds::no_meaning(page, text, why, path, piece),
        Reason::Endless => limits::endless(page, text, path),
        Reason::Unnamed => limits::unnamed(page, text, path),
        Reason::Timescales => limits::timescales(page, text),
        Reason::Format(why) => formats::bad_format(page, text, why, path),
    }
}
