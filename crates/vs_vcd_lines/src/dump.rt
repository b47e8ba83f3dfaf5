//! What the lines of a value change dump say (IEEE 1364-2005, clause 18).
use vs_design::vs_logic4::Vec4;
use vs_design::{Bounds, ScopeKind, SignalKind};

/// A variable or a net that a dump declares (clause 18.2.3). The first one that is declared has the code of number 0, and so on.
#[derive(Drop)]
pub struct Variable {
    /// What it was declared as.
    pub kind: SignalKind,
    /// The size in bits, from 1 to 64.
    pub width: u32,
    /// The name as it is printed: an escaped name has its backslash and one space after it.
    pub name: Vec<u8>,
    /// The range of its bits, where it was declared with one.
    pub range: Option<Bounds>,
}

/// A line of the declarations.
#[derive(Drop)]
pub enum Declaration {
    /// A scope opens, with its name as it is printed.
    Scope(ScopeKind, Vec<u8>),
    /// A variable of the innermost open scope.
    Variable(Variable),
    /// The innermost open scope closes.
    Upscope,
}

/// A value of a variable.
#[derive(Clone, Copy)]
pub struct ValueChange {
    /// The number of the variable's code.
    pub number: usize,
    /// The value, as wide as the variable.
    pub value: Vec4,
}
