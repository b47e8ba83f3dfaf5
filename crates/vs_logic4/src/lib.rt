//! Vectors of the four digits 0, 1, x and z, of 1 to 64 digits (IEEE 1364-2005, clauses 3 to 5).
#![tactic(auto)]

mod case;
mod changes;
mod digit;
mod edge;
mod laws;
mod operators;
mod vector;

pub use case::CaseKind;
pub use changes::changed;
pub use digit::Digit;
pub use edge::Edge;
pub use laws::{
    digit_after_put, known_vector_is_its_number, resize_to_own_width, same_digits_make_equal,
    select_after_put,
};
pub use operators::{Binary, Sizing, Unary};
pub use vector::Vec4;
