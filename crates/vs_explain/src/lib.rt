//! What is said of a refusal after its first line: where it is in the text, what is wrong there, and what mends it.
#![tactic(auto)]

mod awaiting;
mod blocks;
mod broken;
mod certificates;
mod coverage;
mod first_slot;
mod limit;
mod named;
mod pieces;
mod rules;
mod runs;
mod scopes;
mod sources;
mod starts;
mod steps;

pub use certificates::explain_certificate;
pub use rules::{Further, Offender, explain_rule};
pub use runs::{explain_limit, explain_pair};
pub use sources::{explain, explain_after};
pub use vs_explain_certificate::{CertificatePlace, vs_certificate};
pub use vs_explain_outline::{
    Explanation, PlaceForm, Placed, PlacedIn, Spot, push_marked, push_place, push_shown, spot_of,
};
pub use vs_race_pair::Asked;
pub use vs_simulate;
