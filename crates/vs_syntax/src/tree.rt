//! The syntax tree.
use vs_lexer::{Directive, Literal};
use vs_logic4::{Binary, CaseKind, Edge, Unary};

/// A source text: its modules and the directives between them, in the order of the text (IEEE 1364-2005, clauses A.1.2 and 19.2).
pub struct Source {
    /// The modules.
    pub modules: Vec<Module>,
    /// The directives behind the last module.
    pub directives: Vec<Directive>,
}

impl Drop for Source {
    fn drop(self) {
        let Self {
            modules: _,
            directives: _,
        } = self;
    }
}

/// A module (IEEE 1364-2005, clause 12.1).
pub struct Module {
    /// The directives between it and the module before it.
    pub directives: Vec<Directive>,
    /// The bytes of its name; those of an escaped name without the backslash.
    pub name: Vec<u8>,
    /// The parameters in its header, in the order of the text; where there are none, it has no list of them (clause 12.2).
    pub parameters: Vec<HeaderParameter>,
    /// Its ports, in the order of the text, where it has a list of them (clause 12.3.4).
    pub ports: Option<Vec<Port>>,
    /// Its items, in the order of the text.
    pub items: Vec<ModuleItem>,
}

impl Drop for Module {
    fn drop(self) {
        let Self {
            directives: _,
            name: _,
            parameters: _,
            ports: _,
            items: _,
        } = self;
    }
}

/// What a declaration of parameters says of them (IEEE 1364-2005, clauses 4.10.1 and 12.2).
pub enum ParameterForm {
    /// `integer`
    Integer,
    /// Whether they are signed, and their range; of neither, each takes those of its value.
    Vector(Form),
}

impl Drop for ParameterForm {
    fn drop(self) {
        match self {
            Self::Integer | Self::Vector(_) => {}
        }
    }
}

/// A parameter in the header of a module (IEEE 1364-2005, clause 12.2).
pub struct HeaderParameter {
    /// What stands behind the word `parameter`; without that word, what is said of the one before holds.
    pub form: Option<ParameterForm>,
    /// The bytes of its name.
    pub name: Vec<u8>,
    /// Its value where nothing overrides it.
    pub value: Expr,
}

impl Drop for HeaderParameter {
    fn drop(self) {
        let Self {
            form: _,
            name: _,
            value: _,
        } = self;
    }
}

/// A name that a declaration of parameters gives a value (IEEE 1364-2005, clause 4.10).
#[derive(Drop)]
pub struct Constant {
    /// The bytes of the name.
    pub name: Vec<u8>,
    /// The value, where nothing overrides it.
    pub value: Expr,
}

/// Which way a port goes (IEEE 1364-2005, clause 12.3.3).
#[derive(Clone, Copy, PartialEq, Eq)]
pub enum Direction {
    /// `input`
    Input,
    /// `output`
    Output,
}

/// The word of what a port is declared as, beside its direction (IEEE 1364-2005, clause 12.3.4).
#[derive(Clone, Copy, PartialEq, Eq)]
pub enum PortKind {
    /// `wire`
    Wire,
    /// `reg`
    Reg,
    /// `integer`
    Integer,
}

/// What stands before the name of a port (IEEE 1364-2005, clause 12.3.4).
pub struct PortForm {
    /// Its direction.
    pub direction: Direction,
    /// What it is declared as, where the text says so.
    pub kind: Option<PortKind>,
    /// Its sign and its range.
    pub form: Form,
}

impl Drop for PortForm {
    fn drop(self) {
        let Self {
            direction: _,
            kind: _,
            form: _,
        } = self;
    }
}

/// A port in the header of a module (IEEE 1364-2005, clauses 12.3.2 to 12.3.4).
pub struct Port {
    /// What stands before its name; without that, what is said of the one before holds. Where nothing is said of the first, the list is
    /// one of names alone, and items of the module declare them.
    pub form: Option<PortForm>,
    /// The bytes of its name.
    pub name: Vec<u8>,
    /// The right side of its declaration assignment, where it has one.
    pub value: Option<Expr>,
}

impl Drop for Port {
    fn drop(self) {
        let Self {
            form: _,
            name: _,
            value: _,
        } = self;
    }
}

/// A connection by name (IEEE 1364-2005, clauses 12.2.2.2 and 12.3.6).
pub struct Connection {
    /// The bytes of the name of the port or of the parameter.
    pub name: Vec<u8>,
    /// What it is connected to, or the value that overrides it; there may be nothing.
    pub value: Option<Expr>,
}

impl Drop for Connection {
    fn drop(self) {
        let Self { name: _, value: _ } = self;
    }
}

/// What stands in the parentheses of an instance, or in those of the values of its parameters (IEEE 1364-2005, clauses 12.2.2 and 12.3).
pub enum Connections {
    /// In the order of the ports or of the parameters: the first, and the others. Each may be left out. `()` holds nothing.
    Ordered(Option<Expr>, Vec<Option<Expr>>),
    /// By name: the first, and the others.
    Named(Connection, Vec<Connection>),
}

impl Drop for Connections {
    fn drop(self) {
        match self {
            Self::Ordered(_, _) | Self::Named(_, _) => {}
        }
    }
}

/// An instance of a module (IEEE 1364-2005, clause 12.1.2).
pub struct Instance {
    /// The bytes of its name.
    pub name: Vec<u8>,
    /// What its ports are connected to.
    pub ports: Connections,
}

impl Drop for Instance {
    fn drop(self) {
        let Self { name: _, ports: _ } = self;
    }
}

/// A name that a declaration declares (IEEE 1364-2005, clauses 6.1.1 and 6.2.1).
pub struct Declarator {
    /// The bytes of the name.
    pub name: Vec<u8>,
    /// The range of its words, where it is an array of variables (clause 4.9). An array has no declaration assignment.
    pub words: Option<Range>,
    /// The right side of its declaration assignment, where it has one.
    pub value: Option<Expr>,
}

impl Drop for Declarator {
    fn drop(self) {
        let Self {
            name: _,
            words: _,
            value: _,
        } = self;
    }
}

/// The range of a vector, `[left:right]` (IEEE 1364-2005, clause 4.3).
pub struct Range {
    /// The number of the highest bit.
    pub left: Expr,
    /// The number of the lowest bit.
    pub right: Expr,
}

impl Drop for Range {
    fn drop(self) {
        let Self { left: _, right: _ } = self;
    }
}

/// What a declaration says of its names before them (IEEE 1364-2005, clauses 4.2.1, 4.2.2 and 4.3).
pub struct Form {
    /// Whether it has the word `signed`.
    pub signed: bool,
    /// Its range, where it has one.
    pub range: Option<Range>,
}

impl Drop for Form {
    fn drop(self) {
        let Self {
            signed: _,
            range: _,
        } = self;
    }
}

/// One assignment of an `assign` item (IEEE 1364-2005, clause 6.1.2).
pub struct NetAssignment {
    /// The left side.
    pub target: Left,
    /// The right side.
    pub value: Expr,
}

impl Drop for NetAssignment {
    fn drop(self) {
        let Self {
            target: _,
            value: _,
        } = self;
    }
}

/// An item of a module, or what a generate construct generates (IEEE 1364-2005, clauses 12.4 and A.1.4).
pub enum ModuleItem {
    /// An item that is no generate construct.
    Plain(Item),
    /// `generate`, items and `endgenerate` (clause 12.4).
    Region(Vec<ModuleItem>),
    /// `for`: its header, and what each turn generates (clause 12.4.1).
    For(LoopHeader, Box<ModuleItem>),
    /// `if`: the condition, what is generated where it holds, and what stands behind `else`, where there is one (clause 12.4.2).
    If(Expr, Box<ModuleItem>, Option<Box<ModuleItem>>),
    /// `;` alone, behind a `for`, an `if` or an `else`.
    Null,
    /// `begin`, the bytes of a name, where it has one, items and `end`, behind a `for`, an `if` or an `else` (clause 12.4.3).
    Block(Option<Vec<u8>>, Vec<ModuleItem>),
}

impl Drop for ModuleItem {
    fn drop(self) {
        match self {
            Self::Plain(_)
            | Self::Region(_)
            | Self::For(_, _)
            | Self::If(_, _, _)
            | Self::Null
            | Self::Block(_, _) => {}
        }
    }
}

/// The header of a generate loop, `(name = first; condition; name = step)` (IEEE 1364-2005, clause 12.4.1).
pub struct LoopHeader {
    /// The bytes of the name that is given the first value.
    pub name: Vec<u8>,
    /// The first value.
    pub first: Expr,
    /// Whether there is a turn more.
    pub condition: Expr,
    /// The bytes of the name that is given the next value.
    pub next: Vec<u8>,
    /// The next value.
    pub step: Expr,
}

impl Drop for LoopHeader {
    fn drop(self) {
        let Self {
            name: _,
            first: _,
            condition: _,
            next: _,
            step: _,
        } = self;
    }
}

/// An item of a module that is no generate construct (IEEE 1364-2005, clause A.1.4).
pub enum Item {
    /// `input` or `output`, what it says of the ports that it declares, and the bytes of their names, in the order of the text (clause 12.3.3).
    Port(PortForm, Vec<Vec<u8>>),
    /// `genvar` and the bytes of its names, in the order of the text (clause 12.4.1).
    Genvar(Vec<Vec<u8>>),
    /// `wire`, what it says of its names, and they, in the order of the text (clause 4.2.1).
    Wire(Form, Vec<Declarator>),
    /// `reg`, what it says of its names, and they, in the order of the text (clause 4.2.2).
    Reg(Form, Vec<Declarator>),
    /// `integer` and its names, in the order of the text (clause 4.8).
    Integer(Vec<Declarator>),
    /// `parameter`, what it says of its names, and they with their values, in the order of the text (clause 4.10.1).
    Parameter(ParameterForm, Vec<Constant>),
    /// `localparam`, the same of names that nothing overrides (clause 4.10.2).
    Localparam(ParameterForm, Vec<Constant>),
    /// Instances: the bytes of the module's name, the values of its parameters, and the instances in the order of the text (clause 12.1.2).
    Instances(Vec<u8>, Option<Connections>, Vec<Instance>),
    /// `assign` with its assignments, in the order of the text (clause 6.1.2).
    Assign(Vec<NetAssignment>),
    /// `initial` and its statement (clause 9.9.1).
    Initial(Stmt),
    /// `always` and its statement (clause 9.9.2).
    Always(Stmt),
}

impl Drop for Item {
    fn drop(self) {
        match self {
            Self::Port(_, _)
            | Self::Genvar(_)
            | Self::Wire(_, _)
            | Self::Reg(_, _)
            | Self::Integer(_)
            | Self::Parameter(_, _)
            | Self::Localparam(_, _)
            | Self::Instances(_, _, _)
            | Self::Assign(_)
            | Self::Initial(_)
            | Self::Always(_) => {}
        }
    }
}

/// A delay, in units of time (IEEE 1364-2005, clauses 9.7.1 and A.2.2.3).
pub enum DelayValue {
    /// A number.
    Number(Literal),
    /// A name.
    Name(Vec<u8>),
    /// An expression in parentheses.
    Group(Box<Expr>),
}

impl Drop for DelayValue {
    fn drop(self) {
        match self {
            Self::Number(_) | Self::Name(_) | Self::Group(_) => {}
        }
    }
}

/// A term of an event control (IEEE 1364-2005, clause 9.7.2).
pub struct EventExpr {
    /// `posedge` or `negedge`; of neither any change.
    pub edge: Edge,
    /// The bytes of the name.
    pub name: Vec<u8>,
    /// Its selects, of which there may be none.
    pub selects: Vec<(Expr, Option<(PartSelect, Expr)>)>,
}

impl Drop for EventExpr {
    fn drop(self) {
        let Self {
            edge: _,
            name: _,
            selects: _,
        } = self;
    }
}

/// What stands between two terms of an event control (IEEE 1364-2005, clauses 9.7.3 and 9.7.4).
#[derive(Clone, Copy, PartialEq, Eq)]
pub enum Separator {
    /// `or`
    Or,
    /// A comma.
    Comma,
}

/// What stands behind the `@` of an event control (IEEE 1364-2005, clauses 9.7.2 to 9.7.5).
pub enum EventControl {
    /// `*`
    Star,
    /// `(*)`
    GroupedStar,
    /// A name.
    Name(Vec<u8>),
    /// Terms in parentheses: the first, and each other one with what stands before it.
    Terms(Box<EventExpr>, Vec<(Separator, EventExpr)>),
}

impl Drop for EventControl {
    fn drop(self) {
        match self {
            Self::Star | Self::GroupedStar | Self::Name(_) | Self::Terms(_, _) => {}
        }
    }
}

/// What stands before the statement of a `case` item (IEEE 1364-2005, clause 9.5).
pub enum CaseLabel {
    /// Expressions: the first, and the others.
    Expressions(Expr, Vec<Expr>),
    /// `default`: whether a colon stands behind it.
    Default(bool),
}

impl Drop for CaseLabel {
    fn drop(self) {
        match self {
            Self::Expressions(_, _) | Self::Default(_) => {}
        }
    }
}

/// A declaration of variables of a named block (IEEE 1364-2005, clauses 9.8.3 and A.2.8).
pub enum LocalDeclaration {
    /// `reg`, what it says of its names, and they, in the order of the text.
    Reg(Form, Vec<Local>),
    /// `integer` and its names, in the order of the text.
    Integer(Vec<Local>),
}

impl Drop for LocalDeclaration {
    fn drop(self) {
        match self {
            Self::Reg(_, _) | Self::Integer(_) => {}
        }
    }
}

/// A name that a declaration of a named block declares (IEEE 1364-2005, clause A.2.8).
pub struct Local {
    /// The bytes of the name.
    pub name: Vec<u8>,
    /// The range of its words, where it is an array.
    pub words: Option<Range>,
}

impl Drop for Local {
    fn drop(self) {
        let Self { name: _, words: _ } = self;
    }
}

/// A system task that prints (IEEE 1364-2005, clause 17.1).
#[derive(Clone, Copy, PartialEq, Eq)]
pub enum PrintTask {
    /// `$display`
    Display,
    /// `$strobe`
    Strobe,
}

/// An argument of `$display` or `$strobe` behind the text (IEEE 1364-2005, clause 17.1.1).
pub enum Argument {
    /// An expression.
    Value(Expr),
    /// `$time` (clause 17.7.1).
    Time,
}

impl Drop for Argument {
    fn drop(self) {
        match self {
            Self::Value(_) | Self::Time => {}
        }
    }
}

/// What stands behind `$display` or `$strobe` (IEEE 1364-2005, clause 17.1.1).
pub enum PrintArguments {
    /// Nothing.
    Missing,
    /// `()`
    Empty,
    /// In parentheses a text, by its own bytes, and what it prints.
    Text(Vec<u8>, Vec<Argument>),
}

impl Drop for PrintArguments {
    fn drop(self) {
        match self {
            Self::Missing | Self::Empty | Self::Text(_, _) => {}
        }
    }
}

/// A system task that says what is dumped (IEEE 1364-2005, clause 18.1).
#[derive(Clone, Copy, PartialEq, Eq)]
pub enum DumpTask {
    /// `$dumpfile`
    File,
    /// `$dumpvars`
    Vars,
}

/// An argument of `$dumpfile` or `$dumpvars` (IEEE 1364-2005, clauses 18.1.1 and 18.1.2).
pub enum DumpArgument {
    /// A text, by its own bytes.
    Text(Vec<u8>),
    /// An expression; its names aren't looked up.
    Value(Box<Expr>),
}

impl Drop for DumpArgument {
    fn drop(self) {
        match self {
            Self::Text(_) | Self::Value(_) => {}
        }
    }
}

/// What stands in the parentheses of a `for` statement, `(first; condition; step)` (IEEE 1364-2005, clause 9.6).
pub struct ForHeader {
    /// The two sides of the first assignment.
    pub first: (Left, Expr),
    /// The condition.
    pub condition: Expr,
    /// The two sides of the second assignment.
    pub step: (Left, Expr),
}

impl Drop for ForHeader {
    fn drop(self) {
        let Self {
            first: _,
            condition: _,
            step: _,
        } = self;
    }
}

/// A statement (IEEE 1364-2005, clause A.6.4). What is large in one form of it stands in a box: each takes 80 bytes, and a block is a
/// list of them.
pub enum Stmt {
    /// `;` alone.
    Null,
    /// A blocking assignment: its two sides (clause 9.2.1).
    Assign(Box<Left>, Expr),
    /// A nonblocking assignment: its left side, its delay, where it has one, and its right side (clause 9.2.2).
    Later(Box<Left>, Option<DelayValue>, Box<Expr>),
    /// `begin`, statements and `end` (clause 9.8.1).
    Block(Vec<Stmt>),
    /// `begin`, a colon and the bytes of a name, declarations, statements and `end` (clause 9.8.3).
    Named(Vec<u8>, Vec<LocalDeclaration>, Vec<Stmt>),
    /// `if`: the condition, the statement behind it, and that behind `else`, where there is one (clause 9.4).
    If(Box<Expr>, Box<Stmt>, Option<Box<Stmt>>),
    /// `case`, `casez` or `casex`: the expression, and the items in the order of the text, of which there is at least one (clause 9.5).
    Case(CaseKind, Box<Expr>, Vec<(CaseLabel, Stmt)>),
    /// `for`: what stands in its parentheses, and the statement (clause 9.6).
    For(Box<ForHeader>, Box<Stmt>),
    /// `while`: the condition and the statement (clause 9.6).
    While(Expr, Box<Stmt>),
    /// `repeat`: the count and the statement (clause 9.6).
    Repeat(Expr, Box<Stmt>),
    /// `forever` and its statement (clause 9.6).
    Forever(Box<Stmt>),
    /// `#`, a delay, and the statement behind it (clause 9.7.1).
    Delay(DelayValue, Box<Stmt>),
    /// `@`, what it waits for, and the statement behind it (clause 9.7.2).
    Event(EventControl, Box<Stmt>),
    /// `$display` or `$strobe`, and its arguments (clause 17.1).
    Print(PrintTask, PrintArguments),
    /// `$finish`, and its number, where it has one (clause 17.4.1).
    Finish(Option<Literal>),
    /// `$dumpfile` or `$dumpvars`, and its arguments, where it has parentheses: the first, and the others (clause 18.1).
    Dump(DumpTask, Option<(DumpArgument, Vec<DumpArgument>)>),
}

impl Drop for Stmt {
    fn drop(self) {
        match self {
            Self::Null
            | Self::Assign(_, _)
            | Self::Later(_, _, _)
            | Self::Block(_)
            | Self::Named(_, _, _)
            | Self::If(_, _, _)
            | Self::Case(_, _, _)
            | Self::For(_, _)
            | Self::While(_, _)
            | Self::Repeat(_, _)
            | Self::Forever(_)
            | Self::Delay(_, _)
            | Self::Event(_, _)
            | Self::Print(_, _)
            | Self::Finish(_)
            | Self::Dump(_, _) => {}
        }
    }
}

/// The left side of an assignment (IEEE 1364-2005, clauses 6.1.2 and 9.2).
pub enum Left {
    /// A name, and its selects, of which there may be none.
    Name(Vec<u8>, Vec<(Expr, Option<(PartSelect, Expr)>)>),
    /// `{a, b, ..}`: the first part, which is the highest, and the others.
    Concat(Box<Left>, Vec<Left>),
}

impl Drop for Left {
    fn drop(self) {
        match self {
            Self::Name(_, _) | Self::Concat(_, _) => {}
        }
    }
}

/// What stands between the two expressions of a part-select (IEEE 1364-2005, clause 5.2.1).
#[derive(Clone, Copy, PartialEq, Eq)]
pub enum PartSelect {
    /// `[left:right]`
    Bounds,
    /// `[base +: width]`
    Upward,
    /// `[base -: width]`
    Downward,
}

/// An expression (IEEE 1364-2005, clause 5).
pub enum Expr {
    /// A number (clause 3.5.1).
    Number(Literal),
    /// The value of the variable or net of a name.
    Name(Vec<u8>),
    /// A name with selects, of which there is at least one, in the order of the text: `[index]`, or the two expressions of a part-select
    /// with what stands between them (clauses 5.2.1 and 5.2.2).
    Select(Vec<u8>, Vec<(Expr, Option<(PartSelect, Expr)>)>),
    /// An expression in parentheses.
    Group(Box<Expr>),
    /// An operator and its operand (clause 5.1).
    Unary(Unary, Box<Expr>),
    /// Operands with operators of one level between them, from left to right (clause 5.1.2): the first operand, and each other one with the
    /// operator before it.
    Chain(Box<Expr>, Vec<(Binary, Expr)>),
    /// `c ? v : d ? w : .. : e` (clause 5.1.13): each condition with the operand behind its `?`, and the last operand. There is
    /// at least one condition.
    Choice(Vec<(Expr, Expr)>, Box<Expr>),
    /// `{a, b, ..}` (clause 5.1.14): the first part, which is the highest, and the others.
    Concat(Box<Expr>, Vec<Expr>),
    /// `{n{a, b, ..}}` (clause 5.1.14): the number of times, the first part, and the others.
    Repeat(Box<Expr>, Box<Expr>, Vec<Expr>),
    /// `$signed(e)`, or `$unsigned(e)` (clause 5.5): whether the first, and its operand.
    Cast(bool, Box<Expr>),
}

impl Drop for Expr {
    fn drop(self) {
        match self {
            Self::Number(_)
            | Self::Name(_)
            | Self::Select(_, _)
            | Self::Group(_)
            | Self::Unary(_, _)
            | Self::Chain(_, _)
            | Self::Choice(_, _)
            | Self::Concat(_, _)
            | Self::Repeat(_, _, _)
            | Self::Cast(_, _) => {}
        }
    }
}
