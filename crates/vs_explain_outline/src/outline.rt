//! What an outline of a source has.

/// What a part of the text with names of its own is.
#[derive(Clone, Copy, PartialEq, Eq)]
pub enum RegionKind {
    /// A module.
    Module,
    /// What a generate construct generates.
    Generated,
    /// A named block of a process.
    Named,
}

/// A part of the text with names of its own.
#[derive(Clone, Copy)]
pub struct Region {
    /// What it is.
    pub kind: RegionKind,
    /// The region around it; a module has none.
    pub around: Option<usize>,
    /// The token of its name, where it has one.
    pub name: Option<usize>,
    /// Of what a generate construct generates: the number of the construct among those of the region around, from 1 on.
    pub number: usize,
    /// Its first token.
    pub first: usize,
}

/// What a declared name is.
#[derive(Clone, Copy, PartialEq, Eq)]
pub enum DeclaredKind {
    /// A port that is a net, unless another item says that it is a variable.
    NetPort,
    /// A port that is a variable.
    VariablePort,
    Net,
    Variable,
    /// A parameter.
    Constant,
    Genvar,
}

/// What a used name is used for.
#[derive(Clone, Copy, PartialEq, Eq)]
pub enum UseRole {
    /// Its value, or a constant.
    Read,
    /// It stands in the connection of a port.
    Connected,
    /// It is driven by an `assign`.
    Driven,
    /// It stands in an index on the left of an `assign`.
    DrivenIndex,
    /// A process assigns to it.
    Written,
}

/// What a landmark is.
#[derive(Clone, Copy, PartialEq, Eq)]
pub enum LandmarkKind {
    /// A declared name.
    Declared(DeclaredKind),
    /// A name that is used.
    Used(UseRole),
    /// The name of an instance.
    Instance,
    /// The first token of a continuous assignment; of a declaration the name.
    Assign,
    /// The first word of a process; of a declaration the name.
    Process,
    /// A range, a delay or the count of a replication begins, where a constant is wanted.
    Constant,
    /// A `$display` or a `$strobe`.
    Print,
    /// A `case`.
    Case,
    /// A `default` of a `case`.
    Default,
    /// A generate construct.
    Construct,
}

/// A place of the text that something can be said of.
#[derive(Clone, Copy)]
pub struct Landmark {
    /// What it is.
    pub kind: LandmarkKind,
    /// The innermost region in which it stands.
    pub region: usize,
    /// Its token.
    pub token: usize,
    /// Of an instance the token of its module's name; of a `default` that of its `case`; else its own.
    pub of: usize,
}

/// What a piece of a source is.
#[derive(Clone, Copy, PartialEq, Eq)]
pub enum PieceKind {
    /// A statement without others in it, with its semicolon.
    Statement,
    /// What comes before a statement: a condition, an event control or a delay, up to its last parenthesis; or the call of a system task.
    Header,
    /// The expressions of an item of a `case`.
    Label,
    /// What comes after the `=` of an `assign`, or of the declaration of a net or a variable.
    Value,
    /// The connections of an instance.
    Connections,
}

/// A piece of the text that declares nothing.
#[derive(Clone, Copy)]
pub struct Piece {
    /// What it is.
    pub kind: PieceKind,
    /// The innermost region in which it stands.
    pub region: usize,
    /// Its first token.
    pub first: usize,
    /// Its last token.
    pub last: usize,
}

/// The regions, the landmarks and the pieces of a source, each in the order of the text.
#[derive(Drop)]
pub struct Outline {
    /// The regions.
    pub regions: Vec<Region>,
    /// The landmarks.
    pub landmarks: Vec<Landmark>,
    /// The pieces.
    pub pieces: Vec<Piece>,
}
