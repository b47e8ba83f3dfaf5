//! What a preprocessor refuses.
ghost use Rattle.std.specs.Prelude.{◌≡◌};
ghost use Rattle.vs_prep_macros.specs.declared.fault.Halt.TheVariants as halt;

use std::alloc::{AllocError, AllocFailed};

/// A place in a file.
#[derive(Clone, Copy, PartialEq, Eq, Debug)]
pub struct Spot {
    /// The file, by its number among those that were opened.
    pub file: usize,
    /// The byte, from 0.
    pub place: usize,
}

/// Why files are refused. Each has a number, D1 to D9.
#[derive(Clone, Copy, PartialEq, Eq, Debug)]
pub enum Fault {
    /// D1: no macro or directive of this name.
    Undefined,
    /// D1: a backquote before nothing that it could begin.
    LoneBackquote,
    /// D2: a directive lacks its name.
    NoName,
    /// D2: a directive's name is defined or undefined.
    ReservedName,
    /// D2: formals that aren't names with commas between them.
    Formals,
    /// D2: two formals of one name.
    SameFormals,
    /// D2: a comment in a macro's text that ends in a backslash.
    CommentContinued,
    /// D2: a backslash before white space in a macro's text.
    LoneBackslash,
    /// D2: a text in quotes is lacking.
    NoText,
    /// D2: more stands on the line.
    MoreOnLine,
    /// D2: the form of `line`.
    LineForm,
    /// D3: no conditional is open.
    NotOpen,
    /// D3: the `else` of the conditional has been.
    BehindElse,
    /// D3: a conditional that isn't closed in its file.
    NotClosed,
    /// D4: a macro with formals is used without actuals.
    NoActuals,
    /// D4: as many actuals as formals are wanted.
    ActualsCount,
    /// D4: the actuals aren't closed.
    OpenActuals,
    /// D5: a macro is used in its own text.
    Recursion,
    /// D6: a file isn't there.
    NoFile,
    /// D6: too many files are open.
    FilesNested,
    /// D7: a default of a formal.
    FormalDefault,
    /// D7: backquotes that paste names or quote actuals.
    Pasting,
    /// D7: a directive among actuals.
    DirectiveInActuals,
    /// D7: a directive in a macro's text.
    DirectiveInText,
    /// D7: keywords of another language.
    Keywords,
    /// D7: `unconnected_drive`.
    UnconnectedDrive,
    /// D7: protected text.
    Protected,
    /// D8: a name of too many bytes.
    LongName,
    /// D8: the text has too many bytes.
    LongText,
    /// D8: an expansion has too many bytes.
    LongExpansion,
    /// D8: files and expansions take too much work.
    Work,
    /// D8: macros and actuals nest too deep.
    MacrosNested,
    /// D9: a comment that isn't closed in its file.
    OpenComment,
    /// D9: a text that its line cuts.
    CutText,
    /// D9: a comment in a macro's text that goes on over its line.
    CommentOverLines,
}

impl Fault {
    /// The number of the fault: 1 for D1.
    pub fn number(self) -> u8 {
        match self {
            Fault::Undefined | Fault::LoneBackquote => 1,
            Fault::NoName
            | Fault::ReservedName
            | Fault::Formals
            | Fault::SameFormals
            | Fault::CommentContinued
            | Fault::LoneBackslash
            | Fault::NoText
            | Fault::MoreOnLine
            | Fault::LineForm => 2,
            Fault::NotOpen | Fault::BehindElse | Fault::NotClosed => 3,
            Fault::NoActuals | Fault::ActualsCount | Fault::OpenActuals => 4,
            Fault::Recursion => 5,
            Fault::NoFile | Fault::FilesNested => 6,
            Fault::FormalDefault
            | Fault::Pasting
            | Fault::DirectiveInActuals
            | Fault::DirectiveInText
            | Fault::Keywords
            | Fault::UnconnectedDrive
            | Fault::Protected => 7,
            Fault::LongName
            | Fault::LongText
            | Fault::LongExpansion
            | Fault::Work
            | Fault::MacrosNested => 8,
            Fault::OpenComment | Fault::CutText | Fault::CommentOverLines => 9,
        }
    }

    /// What is wrong, in a clause.
    pub fn words(self) -> &'static str {
        match self {
            Fault::Undefined => "no macro or directive of this name is defined",
            Fault::LoneBackquote => "this backquote begins no macro and no directive",
            Fault::NoName => "this directive wants a name",
            Fault::ReservedName => "the name of a directive can't be a macro's",
            Fault::Formals => "the formals of a macro are names with commas between them",
            Fault::SameFormals => "two formals of this macro have one name",
            Fault::CommentContinued => "this comment in a macro's text ends in a backslash",
            Fault::LoneBackslash => "this backslash stands before white space",
            Fault::NoText => "this directive wants a text in quotes",
            Fault::MoreOnLine => "nothing more can stand on this line",
            Fault::LineForm => "`line wants a number, a name in quotes, and 0, 1 or 2",
            Fault::NotOpen => "no conditional is open here",
            Fault::BehindElse => "the `else of this conditional has been already",
            Fault::NotClosed => "this conditional has no `endif in its file",
            Fault::NoActuals => "this macro wants arguments",
            Fault::ActualsCount => "this macro wants another number of arguments",
            Fault::OpenActuals => "the arguments of this macro aren't closed",
            Fault::Recursion => "this macro is used in its own text",
            Fault::NoFile => "there is no such file",
            Fault::FilesNested => "more than 64 files include one another",
            Fault::FormalDefault => "a default of a formal isn't read here",
            Fault::Pasting => "`` and `\" aren't read here",
            Fault::DirectiveInActuals =>
                "a directive among the arguments of a macro isn't read here",
            Fault::DirectiveInText => "a directive in the text of a macro isn't read here",
            Fault::Keywords => "keywords of another language aren't read here",
            Fault::UnconnectedDrive => "`unconnected_drive isn't read here",
            Fault::Protected => "protected text isn't read here",
            Fault::LongName => "this name has more than 1,024 bytes",
            Fault::LongText => "the text has more than 4 MiB",
            Fault::LongExpansion => "an expansion has more than 4 MiB",
            Fault::Work => "files and expansions together have more than 64 MiB",
            Fault::MacrosNested => "macros and arguments nest more than 256 deep",
            Fault::OpenComment => "this comment isn't closed in its file",
            Fault::CutText => "this text isn't closed on its line",
            Fault::CommentOverLines => "this comment in a macro's text isn't closed on its line",
        }
    }

    /// What can be done, in a sentence without its full stop.
    pub fn remedy(self) -> &'static str {
        match self {
            Fault::Undefined => "define it before its use, by `define or by -D",
            Fault::LoneBackquote =>
                "take the backquote out, or write the macro's name right behind it",
            Fault::NoName => "write a simple name behind the directive, on its line",
            Fault::ReservedName => "take another name",
            Fault::Formals =>
                "write `define NAME(a, b), or a space before the parenthesis of a text",
            Fault::SameFormals => "give each formal a name of its own",
            Fault::CommentContinued =>
                "write the comment between /* and */, or take the backslash out",
            Fault::LoneBackslash => "take the white space at the end of the line out",
            Fault::NoText => "write the name of the file, or what is wanted, between quotes",
            Fault::MoreOnLine => "put the rest on a line of its own",
            Fault::LineForm => "write for example `line 7 \"a.v\" 0",
            Fault::NotOpen => "write an `ifdef or `ifndef before it, or take it out",
            Fault::BehindElse => "take the second `else out, or put the `elsif before the `else",
            Fault::NotClosed => "close it by `endif before the end of its file",
            Fault::NoActuals => "write its arguments in parentheses behind it",
            Fault::ActualsCount => "give one argument for each formal of its `define",
            Fault::OpenActuals => "close the parenthesis, and each bracket and brace inside it",
            Fault::Recursion => "write the text of one of the macros without the other",
            Fault::NoFile => "check the name, or name its folder by -I",
            Fault::FilesNested => "guard included files by `ifndef",
            Fault::FormalDefault => "give the argument at each use",
            Fault::Pasting => "write the whole name or text as an argument",
            Fault::DirectiveInActuals => "put the directive around the whole use",
            Fault::DirectiveInText => "write the directive where the macro is used",
            Fault::Keywords => "take the directive out, or name a version of 1364",
            Fault::UnconnectedDrive => "connect the inputs",
            Fault::Protected => "take the file that isn't protected",
            Fault::LongName => "take a shorter name",
            Fault::LongText => "read fewer files in one call",
            Fault::LongExpansion => "write fewer uses into one another",
            Fault::Work => "write fewer uses into one another, or read fewer files",
            Fault::MacrosNested => "write fewer uses into one another",
            Fault::OpenComment => "close it by */",
            Fault::CutText => "close it by a quote on its line",
            Fault::CommentOverLines =>
                "close it on its line, and go on by a backslash at the line's end",
        }
    }
}

/// Why a part is not read on.
#[derive(Clone, Copy, PartialEq, Eq, Debug)]
pub enum Halt {
    /// Memory ran out.
    Memory,
    /// A fault of the directive or the use that is being read.
    Here(Fault),
    /// A fault at the byte from which so many are left.
    At(Fault, usize),
}

impl Halt {
    /// The fault as one of the use that is being read.
    pub fn here(self) -> Halt {
        match self {
            Halt::At(fault, _) => Halt::Here(fault),
            other => other,
        }
    }
}

impl From<AllocError> for Halt {
    ghost from_gives = { λ _ e. e ≡ halt.Memory };

    fn from(_error: AllocError) -> Halt {
        Halt::Memory
    }
}

impl<T: Drop> From<AllocFailed<T>> for Halt {
    ghost from_gives = { λ _ e. e ≡ halt.Memory };

    fn from(_error: AllocFailed<T>) -> Halt {
        Halt::Memory
    }
}
