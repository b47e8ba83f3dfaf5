//! The texts that are tokens of their own: reserved words, marks and operators.
ghost use Rattle.std.specs.Prelude.{◌≡◌, map};
ghost use Rattle.vs_lexer.specs.Reserved.{kind_in, words, left_out_words_to_h, left_out_words_to_r, left_out_words_to_x, one_byte_marks, two_byte_marks, three_byte_marks};

use crate::{Kind, Mark, Word};

/// The reserved words of the subset (IEEE 1364-2005, annex B).
static WORDS: [(&[u8], Word); 32] = [
    (b"always", Word::Always),
    (b"assign", Word::Assign),
    (b"begin", Word::Begin),
    (b"case", Word::Case),
    (b"casex", Word::Casex),
    (b"casez", Word::Casez),
    (b"default", Word::Default),
    (b"else", Word::Else),
    (b"end", Word::End),
    (b"endcase", Word::Endcase),
    (b"endgenerate", Word::Endgenerate),
    (b"endmodule", Word::Endmodule),
    (b"for", Word::For),
    (b"forever", Word::Forever),
    (b"generate", Word::Generate),
    (b"genvar", Word::Genvar),
    (b"if", Word::If),
    (b"initial", Word::Initial),
    (b"input", Word::Input),
    (b"integer", Word::Integer),
    (b"localparam", Word::Localparam),
    (b"module", Word::Module),
    (b"negedge", Word::Negedge),
    (b"or", Word::Or),
    (b"output", Word::Output),
    (b"parameter", Word::Parameter),
    (b"posedge", Word::Posedge),
    (b"reg", Word::Reg),
    (b"repeat", Word::Repeat),
    (b"signed", Word::Signed),
    (b"while", Word::While),
    (b"wire", Word::Wire),
];

/// The reserved words that the subset leaves out, those that begin with a letter up to h (annex B).
static LEFT_OUT_TO_H: [&[u8]; 25] = [
    b"and",
    b"automatic",
    b"buf",
    b"bufif0",
    b"bufif1",
    b"cell",
    b"cmos",
    b"config",
    b"deassign",
    b"defparam",
    b"design",
    b"disable",
    b"edge",
    b"endconfig",
    b"endfunction",
    b"endprimitive",
    b"endspecify",
    b"endtable",
    b"endtask",
    b"event",
    b"force",
    b"fork",
    b"function",
    b"highz0",
    b"highz1",
];

/// The reserved words that the subset leaves out, those that begin with a letter from i to r (annex B).
static LEFT_OUT_TO_R: [&[u8]; 35] = [
    b"ifnone",
    b"incdir",
    b"include",
    b"inout",
    b"instance",
    b"join",
    b"large",
    b"liblist",
    b"library",
    b"macromodule",
    b"medium",
    b"nand",
    b"nmos",
    b"nor",
    b"noshowcancelled",
    b"not",
    b"notif0",
    b"notif1",
    b"pmos",
    b"primitive",
    b"pull0",
    b"pull1",
    b"pulldown",
    b"pullup",
    b"pulsestyle_ondetect",
    b"pulsestyle_onevent",
    b"rcmos",
    b"real",
    b"realtime",
    b"release",
    b"rnmos",
    b"rpmos",
    b"rtran",
    b"rtranif0",
    b"rtranif1",
];

/// The reserved words that the subset leaves out, those that begin with a letter from s on (annex B).
static LEFT_OUT_TO_X: [&[u8]; 32] = [
    b"scalared",
    b"showcancelled",
    b"small",
    b"specify",
    b"specparam",
    b"strong0",
    b"strong1",
    b"supply0",
    b"supply1",
    b"table",
    b"task",
    b"time",
    b"tran",
    b"tranif0",
    b"tranif1",
    b"tri",
    b"tri0",
    b"tri1",
    b"triand",
    b"trior",
    b"trireg",
    b"unsigned",
    b"use",
    b"uwire",
    b"vectored",
    b"wait",
    b"wand",
    b"weak0",
    b"weak1",
    b"wor",
    b"xnor",
    b"xor",
];

/// Marks and operators of one byte.
static ONE_BYTE_MARKS: [(&[u8], Mark); 26] = [
    (b"#", Mark::Hash),
    (b"(", Mark::Open),
    (b")", Mark::Close),
    (b";", Mark::Semicolon),
    (b",", Mark::Comma),
    (b"=", Mark::Assign),
    (b"[", Mark::OpenBracket),
    (b"]", Mark::CloseBracket),
    (b":", Mark::Colon),
    (b".", Mark::Dot),
    (b"@", Mark::At),
    (b"{", Mark::OpenBrace),
    (b"}", Mark::CloseBrace),
    (b"?", Mark::Question),
    (b"+", Mark::Plus),
    (b"-", Mark::Minus),
    (b"*", Mark::Star),
    (b"/", Mark::Slash),
    (b"%", Mark::Percent),
    (b"!", Mark::Not),
    (b"~", Mark::Tilde),
    (b"&", Mark::And),
    (b"|", Mark::Or),
    (b"^", Mark::Xor),
    (b"<", Mark::Less),
    (b">", Mark::Greater),
];

/// Marks and operators of two bytes.
static TWO_BYTE_MARKS: [(&[u8], Mark); 18] = [
    (b"+:", Mark::PlusColon),
    (b"-:", Mark::MinusColon),
    (b"~&", Mark::Nand),
    (b"~|", Mark::Nor),
    (b"~^", Mark::Xnor),
    (b"^~", Mark::XorNot),
    (b"<<", Mark::ShiftLeft),
    (b">>", Mark::ShiftRight),
    (b"<=", Mark::LessEqual),
    (b">=", Mark::GreaterEqual),
    (b"==", Mark::Equal),
    (b"!=", Mark::NotEqual),
    (b"&&", Mark::LogicalAnd),
    (b"||", Mark::LogicalOr),
    (b"**", Mark::Power),
    (b"->", Mark::Trigger),
    (b"=>", Mark::ParallelPath),
    (b"*>", Mark::FullPath),
];

/// Marks and operators of three bytes.
static THREE_BYTE_MARKS: [(&[u8], Mark); 5] = [
    (b"<<<", Mark::ArithmeticShiftLeft),
    (b">>>", Mark::ArithmeticShiftRight),
    (b"===", Mark::CaseEqual),
    (b"!==", Mark::CaseNotEqual),
    (b"&&&", Mark::EventAnd),
];

/// What this text is, if it stands among these words that the subset leaves out.
fn left_out_in(words: &[&[u8]], text: &[u8]) -> Option<Kind>
    ensures { result ≡ kind_in (map (λ word. (word.now, Kind.LeftOut)) words.now) text.now }
{
    for word in words {
        if *word == text {
            return Some(Kind::LeftOut);
        }
    }
    None
}

/// The mark that stands beside this text in the table.
fn mark_in(table: &[(&[u8], Mark)], text: &[u8]) -> Option<Kind>
    ensures { result ≡ kind_in (map (λ entry. (entry.0.now, Kind.Mark entry.1)) table.now) text.now }
{
    for (spelling, mark) in table {
        if *spelling == text {
            return Some(Kind::Mark(*mark));
        }
    }
    None
}

/// The word that stands beside this text in the table.
fn word_in(table: &[(&[u8], Word)], text: &[u8]) -> Option<Kind>
    ensures { result ≡ kind_in (map (λ entry. (entry.0.now, Kind.Word entry.1)) table.now) text.now }
{
    for (spelling, word) in table {
        if *spelling == text {
            return Some(Kind::Word(*word));
        }
    }
    None
}

/// The reserved word of the subset that this text is.
pub(crate) fn word(text: &[u8]) -> Option<Kind>
    ensures { result ≡ kind_in words text.now }
{
    word_in(&WORDS, text)
}

/// Of the words that the subset leaves out, those that begin with a letter up to h, the one that this text is.
pub(crate) fn left_out_to_h(text: &[u8]) -> Option<Kind>
    ensures { result ≡ kind_in left_out_words_to_h text.now }
{
    left_out_in(&LEFT_OUT_TO_H, text)
}

/// Of the words that the subset leaves out, those that begin with a letter from i to r, the one that this text is.
pub(crate) fn left_out_to_r(text: &[u8]) -> Option<Kind>
    ensures { result ≡ kind_in left_out_words_to_r text.now }
{
    left_out_in(&LEFT_OUT_TO_R, text)
}

/// Of the words that the subset leaves out, those that begin with a letter from s on, the one that this text is.
pub(crate) fn left_out_to_x(text: &[u8]) -> Option<Kind>
    ensures { result ≡ kind_in left_out_words_to_x text.now }
{
    left_out_in(&LEFT_OUT_TO_X, text)
}

/// The mark of one byte that this text is.
pub(crate) fn one_byte_mark(text: &[u8]) -> Option<Kind>
    ensures { result ≡ kind_in one_byte_marks text.now }
{
    mark_in(&ONE_BYTE_MARKS, text)
}

/// The mark of two bytes that this text is.
pub(crate) fn two_byte_mark(text: &[u8]) -> Option<Kind>
    ensures { result ≡ kind_in two_byte_marks text.now }
{
    mark_in(&TWO_BYTE_MARKS, text)
}

/// The mark of three bytes that this text is.
pub(crate) fn three_byte_mark(text: &[u8]) -> Option<Kind>
    ensures { result ≡ kind_in three_byte_marks text.now }
{
    mark_in(&THREE_BYTE_MARKS, text)
}
