//! The scopes of a source: the items, generate constructs and named blocks that stand in them (IEEE 1364-2005, clauses 9.8.3 and 12.4), what they
//! declare, with sizes, ports, parameters and what overrides them, connections, paths as they are printed, and the faults of elaboration (clause 12).
#![tactic(auto)]

mod blocks;
mod connections;
mod contents;
mod declared;
mod faults;
mod forms;
mod law;
mod modules;
mod parameters;
mod ports;
mod printed;
mod scope;
mod sizes;
mod texts;
mod uses;
mod words;

pub use blocks::{NamedBlock, item_blocks, statement_blocks};
pub use connections::ends;
pub use contents::{Content, branch_names, content_of};
pub use declared::{KindSaid, add_first, kinds_said};
pub use faults::{BodyFault, ElabFault, ParameterRefusal, Reason};
pub use forms::said;
pub use law::used_are_tokens;
pub use modules::with_first;
pub use parameters::{
    Given, Parameter, block_parameters, given_alone, given_to, module_parameters,
};
pub use ports::{ModulePort, PortSource, module_ports};
pub use printed::{
    PartName, PathName, numbered_name, print_member, print_name, print_part, print_path,
    print_port_part, print_title,
};
pub use scope::{ScopePiece, block_pieces, pieces};
pub use sizes::{INTEGER, Size, declared_bounds, declared_size, declared_words, port_size};
pub use texts::{fault_text, push_bytes};
pub use uses::{names_in, names_used};
pub use vs_strobe;
pub use vs_widths;
pub use words::WordCount;
