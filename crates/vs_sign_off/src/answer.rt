//! What a search for a race answers.
use crate::witness::{LineWitness, Witness};
use vs_propose::Proposal;
use vs_propose::vs_certificate::Certificate;

/// A search that found nothing.
#[derive(Clone, Copy)]
pub struct Missed {
    /// How many orders were tried.
    pub tries: u64,
    /// How many of these ended no slot within the steps.
    pub stuck: u64,
}

/// What a search for a race answers.
#[derive(Drop)]
pub enum Race {
    /// There is none at grain block: the design keeps all rules of this certificate, perhaps of version 3 where wide rules were asked for.
    Certified(Certificate),
    /// One was found; with why no certificate was made.
    Found(Witness, Proposal),
    /// One was found in what `$strobe` prints; with why no certificate was made.
    FoundLine(LineWitness, Proposal),
    /// None was found, which says nothing of the design; with why no certificate was made.
    NotFound(Missed, Proposal),
}
