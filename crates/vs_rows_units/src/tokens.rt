//! Sources with their tokens or their refusal, by hand: what the standard and the profile say of them.

use crate::tables::{Asked, LongRow, all_long_same, all_same, same};
use crate::token_texts::TokenAspect;
use std::test::Fail;

// Sources with their tokens, the values of numbers among them, or with their refusal. A comment, which has no tokens, says what the rows behind it
// are of, with the clauses of IEEE 1364-2005.
const VALUES: &str = "
> // Words, names and marks (clauses 3.4, 3.7 and 5) =>\u{20}
> module t; => w0+6 n7+1 m8+1
> a<=b => n0+1 m1+2 n3+1
> a >>>= b => n0+1 m2+3 m5+1 n7+1
> &&& ** -> => *> => m0+3 m4+2 m7+2 m10+2 m13+2
> and\tx$1 _y => l0+3 n4+3 n8+2
> $display $$ => s0+8 s9+2
> a$b => n0+3
> $ => L1 at 0
> a $ b => L1 at 2
> \\a+b c => n0+4 n5+1
> \\module  => n0+7
> \\abc => n0+4
> \\ => L1 at 0
> x \\  => L1 at 2
> \\aé  => L1 at 0
> a \u{7f} => L1 at 2
> a \u{1} => L1 at 2
>  => 
> // White space, comments and attributes (clauses 3.2, 3.3 and 3.8) =>\u{20}
> a // b => n0+1
> a /* b * / ** */ c => n0+1 n17+1
> /**/a => n4+1
> module t; /* x => L2 at 10
> /*/ => L2 at 0
> /* é */ a => n9+1
> (* x = \"*) y\" *) => L2 at 12
> (* full *) a => n11+1
> (**)a => n4+1
> @(*) a => m0+1 m1+1 m2+1 m3+1 n5+1
> @(* ) a => m0+1 m1+1 m2+1 m4+1 n6+1
> (* => L2 at 0
> (* a => L2 at 0
> (* é *) => L1 at 0
> ( * ) => m0+1 m2+1 m4+1
>  \t\n\u{c}\ra => n5+1
> // \u{1}\n => L1 at 0
> a /* \u{1} */ => L1 at 2
> a // b\nc => n0+1 n7+1
> // Numbers (clause 3.5) =>\u{20}
> 5 => #0+1=s00000000000000000000000000000101
> 1_0__ => #0+5=s00000000000000000000000000001010
> 4294967295 => #0+10=s11111111111111111111111111111111
> 4294967296 => L4 at 0
> 12a => L3 at 0
> x 1.5 => L3 at 2
> 1 .5 => #0+1=s00000000000000000000000000000001 m2+1 #3+1=s00000000000000000000000000000101
> 4'b1x0Z => #0+7=b1x0z
> 4 'B 1? => #0+7=b001z
> 4 'B 1x_? => #0+9=b01xz
> 5'sh1_f => #0+7=sb11111
> 4'b1?b => #0+5=b001z n5+1
> 3'sd5 => #0+5=sb101
> 3'SD13 => #0+6=sb101
> 8'hxf => #0+5=bxxxx1111
> 8'hzF => #0+5=bzzzz1111
> 6'o7_1 => #0+6=b111001
> 12'hx => #0+5=bxxxxxxxxxxxx
> 4'dx => #0+4=bxxxx
> 4'd?_ => #0+5=bzzzz
> 4'd1?b:c => L3 at 0
> 4'dxx => L3 at 0
> 4'd12a => #0+5=b1100 n5+1
> 4'd99999999999999999999999999 => #0+29=b1111
> 2'd18446744073709551618 => #0+23=b10
> 'h1_0000_0000 => L4 at 0
> 'h0_ffff_ffff => #0+13=b11111111111111111111111111111111
> 'oxxxxxxxxxxx => #0+13=bxxxxxxxxxxxxxxxxxxxxxxxxxxxxxxxx
> 'o1xxxxxxxxxx => #0+13=b01xxxxxxxxxxxxxxxxxxxxxxxxxxxxxx
> 'hx0_0000_0000 => L4 at 0
> 'd4294967296 => L4 at 0
> 'sd7 => #0+4=sb00000000000000000000000000000111
> 0'd1 => L4 at 0
> 65'd1 => L4 at 0
> 99999999999999999999'd1 => L4 at 0
> 8'q => L3 at 0
> a 8 ' => L3 at 2
> 8'b2 => L3 at 0
> 8'b_1 => L3 at 0
> a' => L3 at 1
> 's => L3 at 0
> 4\t'So\n7 => #0+7=sb0111
> // Texts (clause 3.6) =>\u{20}
> \"\" a => t0+2 n3+1
> \"%d\", x => t0+4 m4+1 n6+1
> \"a\\n\\t\\\\\\\"\" => t0+11
> \"\\1\\12\\377\\18\" => t0+14
> \"\\400\" => L3 at 0
> x \"\\q\" => L3 at 2
> \"\\8\" => L3 at 0
> a \"b => L2 at 2
> \"\\\" => L2 at 0
> \"b\\ => L2 at 0
> \"é\u{7f}\t\" => t0+6
> a \"b\rc\" => n0+1 t2+5
> \"\u{1}\" => L1 at 0
> \"\\\n\" => L3 at 0
> \"a\nb\" => L2 at 0
> // Directives (clause 19) =>\u{20}
> `timescale 1ns/1ps => d0+18
> `timescale 1ns/1psx => d0+18 n18+1
> `default_nettype none => d0+21
> `default_nettype wirex => d0+21 n21+1
> `timescale 1ps/1ns => L5 at 0
> `timescale 1ps/10ps => L5 at 0
> `timescale 1000ns/1ns => L5 at 0
> `timescale 2ns/1ns => L5 at 0
> `timescale1ns/1ns => L5 at 0
> a `default_nettype tri => L5 at 2
> `define x => L5 at 0
> ` => L5 at 0
> `timescale\t100 s / 10\nms a => d0+24 n25+1";

// Texts with the bytes that they stand for, an escaped name, and a mark.
const MEANINGS: &str = "
> \"\" => []
> \"%d, ok\" => [37, 100, 44, 32, 111, 107]
> \"a\\n\\t\\\\\\\"\" => [97, 10, 9, 92, 34]
> \"\\1\\12\\1018\\45d\" => [1, 10, 65, 56, 37, 100]
> \\a+b * => [97, 43, 98] a star";

// What each beginning of a source has, with `|` behind it: names, texts, comments, attributes, directives, numbers and marks.
const BEGINNINGS: &str = "
> a$1_ => n0+1|n0+2|n0+3|n0+4|
> regs => n0+1|n0+2|w0+3|n0+4|
> and_ => n0+1|n0+2|l0+3|n0+4|
> \\a+9  => L1 at 0|n0+2|n0+3|n0+4|n0+4|
> $d$1_ => L1 at 0|s0+2|s0+3|s0+4|s0+5|
> \"a\\n\\t\\\\\\\"\" => L2 at 0|L2 at 0|L2 at 0|L2 at 0|L2 at 0|L2 at 0|L2 at 0|L2 at 0|L2 at 0|L2 at 0|t0+11|
> \"\\1018\"  => L2 at 0|L2 at 0|L2 at 0|L2 at 0|L2 at 0|L2 at 0|t0+7|t0+7|
> \"\\q\" => L2 at 0|L2 at 0|L3 at 0|L3 at 0|
> \"\\400\" => L2 at 0|L2 at 0|L2 at 0|L2 at 0|L3 at 0|L3 at 0|
> /* * */  => m0+1|L2 at 0|L2 at 0|L2 at 0|L2 at 0|L2 at 0|||
> /*/*/ => m0+1|L2 at 0|L2 at 0|L2 at 0||
> (* a *) => m0+1|L2 at 0|L2 at 0|L2 at 0|L2 at 0|L2 at 0||
> (**) => m0+1|L2 at 0|L2 at 0||
> `timescale 1ns/10 ps => L5 at 0|L5 at 0|L5 at 0|L5 at 0|L5 at 0|L5 at 0|L5 at 0|L5 at 0|L5 at 0|L5 at 0|L5 at 0|L5 at 0|L5 at 0|L5 at 0|L5 at 0|L5 at 0|L5 at 0|L5 at 0|L5 at 0|d0+20|
> `default_nettype wire => L5 at 0|L5 at 0|L5 at 0|L5 at 0|L5 at 0|L5 at 0|L5 at 0|L5 at 0|L5 at 0|L5 at 0|L5 at 0|L5 at 0|L5 at 0|L5 at 0|L5 at 0|L5 at 0|L5 at 0|L5 at 0|L5 at 0|L5 at 0|d0+21|
> `default_nettype\tnone  => L5 at 0|L5 at 0|L5 at 0|L5 at 0|L5 at 0|L5 at 0|L5 at 0|L5 at 0|L5 at 0|L5 at 0|L5 at 0|L5 at 0|L5 at 0|L5 at 0|L5 at 0|L5 at 0|L5 at 0|L5 at 0|L5 at 0|L5 at 0|d0+21|d0+21|
> \\reg\n => L1 at 0|n0+2|n0+3|n0+4|n0+4|
> // a\n  => m0+1||||||
> `timescale\n100 s / 1 fs  => L5 at 0|L5 at 0|L5 at 0|L5 at 0|L5 at 0|L5 at 0|L5 at 0|L5 at 0|L5 at 0|L5 at 0|L5 at 0|L5 at 0|L5 at 0|L5 at 0|L5 at 0|L5 at 0|L5 at 0|L5 at 0|L5 at 0|L5 at 0|L5 at 0|L5 at 0|d0+23|d0+23|
> 1_02  => #0+1|#0+2|#0+3|#0+4|#0+4|
> 12a => #0+1|#0+2|L3 at 0|
> 1.5 => #0+1|#0+1 m1+1|L3 at 0|
> 5'sh1_f => #0+1|L3 at 0|L3 at 0|L3 at 0|#0+5|#0+6|#0+7|
> 4 'B 1x_? => #0+1|#0+1|L3 at 0|L3 at 0|L3 at 0|#0+6|#0+7|#0+8|#0+9|
> 'd4_2 => L3 at 0|L3 at 0|#0+3|#0+4|#0+5|
> 2'Dz_ => #0+1|L3 at 0|L3 at 0|#0+4|#0+5|
> 0'b1 => #0+1|L3 at 0|L3 at 0|L4 at 0|
> 65'b1 => #0+1|#0+2|L3 at 0|L3 at 0|L4 at 0|
> 'h1_0000_0000 => L3 at 0|L3 at 0|#0+3|#0+4|#0+5|#0+6|#0+7|#0+8|#0+9|#0+10|#0+11|#0+12|L4 at 0|
> +:: => m0+1|m0+2|m0+2 m2+1|
> -:: => m0+1|m0+2|m0+2 m2+1|
> ~&& => m0+1|m0+2|m0+2 m2+1|
> ~|| => m0+1|m0+2|m0+2 m2+1|
> ~^~ => m0+1|m0+2|m0+2 m2+1|
> ^~^ => m0+1|m0+2|m0+2 m2+1|
> <== => m0+1|m0+2|m0+2 m2+1|
> >== => m0+1|m0+2|m0+2 m2+1|
> ||| => m0+1|m0+2|m0+2 m2+1|
> *** => m0+1|m0+2|m0+2 m2+1|
> ->> => m0+1|m0+2|m0+2 m2+1|
> =>> => m0+1|m0+2|m0+2 m2+1|
> *>> => m0+1|m0+2|m0+2 m2+1|
> <<<= => m0+1|m0+2|m0+3|m0+3 m3+1|
> >>>= => m0+1|m0+2|m0+3|m0+3 m3+1|
> !=== => m0+1|m0+2|m0+3|m0+3 m3+1|
> &&&& => m0+1|m0+2|m0+3|m0+3 m3+1|
> 4\t'So\n7 => #0+1|#0+1|L3 at 0|L3 at 0|L3 at 0|L3 at 0|#0+7|
> ==== => m0+1|m0+2|m0+3|m0+3 m3+1|";

#[test]
fn rows(rt: HostRuntime) -> Result<(), Fail> {
    all_same(&rt, rt.alloc(), Asked::Tokens(TokenAspect::Values), VALUES)?;
    all_same(
        &rt,
        rt.alloc(),
        Asked::Tokens(TokenAspect::Meanings),
        MEANINGS,
    )?;
    all_same(
        &rt,
        rt.alloc(),
        Asked::Tokens(TokenAspect::Beginnings),
        BEGINNINGS,
    )
}

// What each byte alone is, by the letters of `say`.
static BYTES: [u8; 256] = *b"\
111111111..1..111111111111111111\
.m2m1mm3mmmmmmmm##########mmmmmm\
mnnnnnnnnnnnnnnnnnnnnnnnnnnm1mmn\
5nnnnnnnnnnnnnnnnnnnnnnnnnnmmmm1\
11111111111111111111111111111111\
11111111111111111111111111111111\
11111111111111111111111111111111\
11111111111111111111111111111111";

// What a letter says of a byte: the kind of the token that it is, or the number of its refusal, or `.` where it is nothing.
fn say(letter: u8) -> &'static str {
    match letter {
        b'.' => "|",
        b'1' => "L1 at 0|",
        b'2' => "L2 at 0|",
        b'3' => "L3 at 0|",
        b'5' => "L5 at 0|",
        b'#' => "#0+1|",
        b'm' => "m0+1|",
        _ => "n0+1|",
    }
}

#[test]
fn single_bytes(rt: HostRuntime) -> Result<(), Fail> {
    for byte in 0..=255u8 {
        let wanted = say(BYTES[usize::from(byte)]);
        same(
            &rt,
            rt.alloc(),
            Asked::Tokens(TokenAspect::Beginnings),
            &[byte],
            wanted,
        )?;
    }
    Ok(())
}

// The limits of names and of a source. The backslash of an escaped name doesn't count, and the `$` of a system name does.
static LIMITS: [LongRow; 9] = [
    (b'a', 1024, 0, b'a', "n0+1024"),
    (b'a', 1025, 0, b'a', "L6 at 0"),
    (b'a', 1025, 0, b'\\', "n0+1025"),
    (b'a', 1026, 0, b'\\', "L6 at 0"),
    (b'a', 1024, 0, b'$', "s0+1024"),
    (b'a', 1025, 0, b'$', "L6 at 0"),
    (b' ', 4194304, 7, b' ', ""),
    (b' ', 4194305, 7, b' ', "L6 at 4194304"),
    (b' ', 4194305, 7, b'$', "L1 at 7"),
];

#[test]
fn limits(rt: HostRuntime) -> Result<(), Fail> {
    all_long_same(&rt, rt.alloc(), Asked::Tokens(TokenAspect::Values), &LIMITS)
}
