//! Rows of the calls that no expression makes: tables of digits, parts at the ends of `i64`, vectors joined beyond 64 digits, widths, numbers and planes.
//! The operators have theirs in `vs_rows`.
ghost use Rattle.std.specs.Prelude.{◌≡◌, ◌<◌, ◌≤◌, length};

use std::process::Abort;
use std::test::Fail;
use vs_logic4::{Binary, Digit, Sizing, Unary, Vec4, changed};

/// The vector of a text of digits, the highest first.
fn of(text: &[u8]) -> Vec4
    requires some { 0 < length text.now }
    requires most { length text.now ≤ 64 }
    ensures { length result ≡ length text.now }
{
    let mut digits = [Digit::Zero; 64];
    let count = text.len();
    for i in 0..count {
        digits[i] = digit_of(text[count - 1 - i]);
    }
    Vec4::from_digits(&digits[..count])
}

fn digit_of(letter: u8) -> Digit {
    match letter {
        b'0' => Digit::Zero,
        b'1' => Digit::One,
        b'z' => Digit::Z,
        _ => Digit::X,
    }
}

/// The four digits, in the order of the standard's tables.
static LETTERS: [u8; 4] = *b"01xz";

/// Tables by row and column of `LETTERS` (IEEE 1364-2005, clauses 5.1.10 and 9.5.1).
static AND: [u8; 16] = *b"0000\
01xx\
0xxx\
0xxx";

static OR: [u8; 16] = *b"01xx\
1111\
x1xx\
x1xx";

static CASEZ_EQ: [u8; 16] = *b"1001\
0101\
0011\
1111";

static CASEX_EQ: [u8; 16] = *b"1011\
0111\
1111\
1111";

#[test]
fn tables_of_digits(rt: HostRuntime) {
    for at in 0..16 {
        let (a, b) = (digit_of(LETTERS[at / 4]), digit_of(LETTERS[at % 4]));
        assert!(rt; a.and(b) == digit_of(AND[at]));
        assert!(rt; a.or(b) == digit_of(OR[at]));
    }
}

#[test]
fn comparisons_without_account_of_digits(rt: HostRuntime) {
    for at in 0..16 {
        let a = Vec4::from_digit(digit_of(LETTERS[at / 4]));
        let b = Vec4::from_digit(digit_of(LETTERS[at % 4]));
        assert!(rt; a.casez_eq(b) == (CASEZ_EQ[at] == b'1'));
        assert!(rt; a.casex_eq(b) == (CASEX_EQ[at] == b'1'));
    }
}

#[test]
fn operators_that_give_one_bit(rt: HostRuntime) {
    for operator in &[Unary::Plus, Unary::Minus, Unary::Not] {
        assert!(rt; !operator.gives_bit());
    }
    for operator in &[
        Unary::LogicalNot,
        Unary::ReduceAnd,
        Unary::ReduceNand,
        Unary::ReduceOr,
        Unary::ReduceNor,
        Unary::ReduceXor,
        Unary::ReduceXnor,
    ] {
        assert!(rt; operator.gives_bit());
    }
}

#[test]
fn sizes_of_operands(rt: HostRuntime) {
    assert!(rt; matches!(Binary::Add.sizing(), Sizing::Alike));
    assert!(rt; matches!(Binary::SignedShiftRight.sizing(), Sizing::Shift));
    assert!(rt; matches!(Binary::CaseNotEqual.sizing(), Sizing::Comparison));
    assert!(rt; matches!(Binary::LogicalOr.sizing(), Sizing::Logical));
}

#[test]
fn parts_at_the_ends_of_places(rt: HostRuntime) {
    let a = of(b"1010");
    assert!(rt; a.select(i64::MIN, 2) == of(b"xx"));
    assert!(rt; a.select(i64::MAX, 64) == Vec4::unknown(64));
    assert!(rt; a.put(i64::MIN, of(b"1")) == a);
}

#[test]
fn joined_within_a_word(rt: HostRuntime) {
    assert!(rt; of(b"1x").concat(of(b"z0")) == of(b"1xz0"));
    assert!(rt; of(b"1x0").repeat(3) == of(b"1x01x01x0"));
    assert!(rt; of(b"1").repeat(64) == Vec4::from_number(64, u64::MAX));
}

#[test]
fn joined_beyond_a_word(rt: HostRuntime) {
    let x = Vec4::unknown(64);
    assert!(rt; x.join(of(b"10")).select(0, 4) == of(b"xx10"));
    assert!(rt; of(b"10").join(x) == x);
    assert!(rt; of(b"1x0").repeated(64).select(60, 4) == of(b"01x0"));
}

#[test]
fn other_widths(rt: HostRuntime) {
    assert!(rt; of(b"1010").resize(6, false) == of(b"001010"));
    assert!(rt; of(b"1010").resize(6, true) == of(b"111010"));
    assert!(rt; of(b"x010").resize(6, true) == of(b"xxx010"));
    assert!(rt; of(b"z010").resize(2, true) == of(b"10"));
}

#[test]
fn numbers(rt: HostRuntime) {
    let (known, other) = (of(b"1010"), of(b"10z0"));
    assert!(rt; known.is_known() && !other.is_known());
    assert!(rt; matches!((known.to_number(), other.to_number()), (Some(10), None)));
    assert!(rt; matches!((known.to_signed(), other.to_signed()), (Some(-6), None)));
    assert!(rt; Vec4::from_signed(4, -6) == known);
    assert!(rt; matches!(Vec4::from_signed(64, i64::MIN).to_signed(), Some(i64::MIN)));
}

#[test]
fn planes(rt: HostRuntime) {
    let a = of(b"01xz");
    assert!(rt; a.width() == 4);
    assert!(rt; a.value_plane() == 0b0110 && a.unknown_plane() == 0b0011);
    assert!(rt; Vec4::from_planes(4, 0b0110, 0b0011) == a);
    assert!(rt; Vec4::high_impedance(3) == of(b"zzz"));
    assert!(rt; a.same(of(b"01xz")) && !a.same(of(b"01xx")));
}

#[test]
fn text(rt: HostRuntime) -> Result<(), Fail> {
    let written = format!(in rt.alloc(); "{:?}", of(b"10xz"))?;
    assert!(rt; written.as_str() == "4'b10xz");
    Ok(())
}

/// `changed` of `count` words, of which each third differs, against the plain comparison.
fn changed_at(rt: &impl Abort, count: usize)
    requires { count ≤ 1000 }
{
    let mut old = [0; 1000];
    let mut new = [0; 1000];
    for i in 0..1000 {
        old[i] = i as u64;
        new[i] = if i % 3 == 0 { !old[i] } else { old[i] };
    }
    let mut out = [7; 1000];
    changed(&old[..count], &new[..count], &mut out[..count]);
    for i in 0..1000 {
        let want = if i >= count { 7 } else { u8::from(i % 3 == 0) };
        assert!(rt; out[i] == want);
    }
}

#[test]
fn changed_words(rt: HostRuntime) {
    for count in [0, 1, 7, 8, 9, 1000] {
        changed_at(&rt, count);
    }
}
