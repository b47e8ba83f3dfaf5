//! Designs that show that the discipline and the rules of certificates say something: designs that keep them, also since their processes run at
//! different residues, and one by a certificate of version 3; races that keep those of no certificate, one whose lines are not alike, and designs
//! whose executions differ in one thing alone. And a source and a top decide the verdict on a certificate.
#![tactic(auto)]

mod counterexamples;
mod differences;
mod disciplined;
mod ruled;
mod source_laws;
mod staggered;
mod wide;

pub use counterexamples::{
    a_delay_after_an_edge_breaks_the_rules, a_first_edge_breaks_the_rules,
    a_first_inverse_edge_breaks_the_rules, a_first_read_breaks_the_rules,
    a_late_read_of_an_edge_breaks_the_rules, an_arrival_breaks_the_rules,
    an_inverse_edge_breaks_the_rules, two_edges_at_once_break_the_rules,
    two_signals_of_a_root_break_the_rules,
};
pub use differences::{finish_alone_differs, strobe_lines_alone_differ};
pub use disciplined::{
    a_block_is_disciplined, a_carry_is_disciplined, a_race_is_seen, a_rise_is_disciplined,
    lines_are_seen,
};
pub use ruled::{
    a_block_at_a_net_keeps_the_rules, a_block_keeps_the_rules, a_clocked_design_keeps_the_rules,
    a_mixer_keeps_the_rules, a_race_keeps_no_rules, a_race_of_edges_keeps_no_rules,
    a_rise_keeps_the_rules, a_wrong_mode_is_reported,
};
pub use source_laws::source_decides;
pub use staggered::{a_late_read_keeps_the_rules, two_roots_keep_the_rules};
pub use wide::{a_reset_keeps_the_rules, an_early_reset_is_reported};
