//! The syntax tree of a source, and the grammar that its tokens follow (IEEE 1364-2005, annex A).
#![tactic(auto)]

mod law;
mod tree;

pub use law::{names_are_tokens, one_source, one_tree, plain_reading, tables_agree};
pub use tree::{
    Argument, CaseLabel, Connection, Connections, Constant, Declarator, DelayValue, Direction,
    DumpArgument, DumpTask, EventControl, EventExpr, Expr, ForHeader, Form, HeaderParameter,
    Instance, Item, Left, Local, LocalDeclaration, LoopHeader, Module, ModuleItem, NetAssignment,
    ParameterForm, PartSelect, Port, PortForm, PortKind, PrintArguments, PrintTask, Range,
    Separator, Source, Stmt,
};
pub use vs_lexer;
pub use vs_logic4;
