//! A certificate for a design, where one is found: a plan of what is to be claimed, from what the texts of its processes do and when, and the
//! certificates of that plan, each tested once it is made. Of a design without processes one is found wherever there is one.
#![tactic(auto)]

mod certificates;
mod claims;
mod cold;
mod copied;
mod drivers;
mod firing;
mod modes;
mod moduli;
mod order;
mod plans;
mod proposal;
mod readers;
mod search;
mod starts;
mod writers;

pub use certificates::certificate_of;
pub use claims::{certificate_of_assigns, text_of};
pub use cold::Trial;
pub use moduli::moduli_of;
pub use plans::{EdgePlan, KindPlan, Plan, SignalPlan, plan_of};
pub use proposal::{Proposal, Refusal};
pub use search::{propose, propose_by};
pub use vs_certificate;
pub use vs_drivers;
pub use vs_graph;
pub use vs_propose_texts::{
    Firings, Second, SignalWrite, TextFacts, TextKind, Timing, common_divisor, text_facts,
    text_lists,
};
