//! Reading expressions, left sides, lists with commas, what declarations say of their names, names of blocks, labels and the arguments of system
//! tasks, from tokens (IEEE 1364-2005, clauses A.2, A.6 and A.8).
#![tactic(auto)]

mod expression;
mod form;
mod head;
mod label;
mod left_side;
mod list;
mod local;
mod operator;
mod reading;
mod task;
mod token;

pub use expression::expr;
pub use form::{declared, declared_form, declared_range};
pub use head::begins_expr;
pub use label::case_label;
pub use left_side::{left, name_selects};
pub use list::{Element, comma_list, ended, others};
pub use local::{BlockName, naming};
pub use reading::{Parsed, ReadFault};
pub use task::{dump_stmt, finish_stmt, print_stmt};
pub use token::{
    SystemName, expect_mark, expect_name, expect_word, literal, mark_at, next, system_name, word_at,
};
