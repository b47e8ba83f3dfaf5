//! Verdicts, certified runs and races, from the bytes of a source; the first two also from those of a certificate.
#![tactic(auto)]

mod answer;
mod certifying;
mod displays;
mod dumps;
mod fault;
mod judging;
mod laws;
mod lines;
mod racing;
mod rows;
mod runs;
mod shown;
mod unequal;
mod uneven;
mod values;
mod witness;

pub use answer::{Missed, Race};
pub use certifying::{certified, certified_by};
pub use dumps::write_dumps;
pub use fault::CertifiedFault;
pub use judging::{judge, judge_by};
pub use laws::{all_lines_are_strobed, same_traces_print_rows_as_often};
pub use racing::{race, race_by};
pub use vs_cert_check;
pub use vs_propose;
pub use vs_race_orders::{Planned, Search, Span, Unwatched, Watch, choices_of};
pub use vs_simulate;
pub use vs_simulate::vs_kernel;
pub use vs_simulate::vs_kernel::vs_vcd_writing;
pub use witness::{LineWitness, Witness};
