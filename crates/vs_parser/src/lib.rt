//! The parser: from tokens to the syntax tree of a source, by reading functions for statements, items, headers, ports, parameters and instances
//! (IEEE 1364-2005, annex A).
#![tactic(auto)]

mod assignment;
mod control;
mod declaration;
mod fault;
mod generate;
mod head;
mod header;
mod headers_head;
mod instance;
mod item;
mod items_head;
mod parameter;
mod parser;
mod parser_head;
mod port;
mod source;
mod statement;

pub use assignment::{expr_until, guard};
pub use declaration::{Assignment, BareName, Net, Variable};
pub use fault::ParseFault;
pub use generate::items;
pub use header::header_parameters;
pub use instance::instances;
pub use parameter::parameters;
pub use parser::parse;
pub use port::{declared_ports, header_ports};
pub use statement::stmt;
pub use vs_parse_expressions;
