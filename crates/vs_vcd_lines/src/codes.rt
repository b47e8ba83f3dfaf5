//! Identifier codes.
ghost use Rattle.std.specs.Prelude.{◌≡◌, ℕ, ◌+◌, ◌*◌, ◌<◌, ◌≤◌, ◌^◌, length, IsTrue, ◌↔◌, MatchOption};
ghost use Rattle.vs_vcd_writing.specs.Codes.{code};

/// Whether a text is the identifier code of this number.
pub(crate) fn is_code(text: &[u8], number: usize) -> bool
    ensures { IsTrue result ↔ (text.now ≡ code number) }
{
    let [first, rest @ ..] = text else {
        return false;
    };
    if number < 94 {
        return *first as usize == 33 + number && rest.is_empty();
    }
    *first as usize == 33 + number % 94 && is_code(rest, number / 94 - 1)
}

/// The number whose code begins with this digit and goes on as that of `above`, where it is below 2^64.
fn number_above(digit: usize, above: usize) -> Option<usize>
    requires { digit < 94 }
    ensures { MatchOption result (2 ^ 64 ≤ 94 * (above + 1) + digit) (λ n. n ≡ 94 * (above + 1) + digit) }
{
    if above >= (usize::MAX - digit) / 94 {
        return None;
    }
    Some(94 * (above + 1) + digit)
}

/// The number below 2^64 of an identifier code of at most ten characters.
fn number_of_short(text: &[u8]) -> Option<usize>
    requires { length text.now ≤ 10 }
    ensures { MatchOption result ((n : ℕ) → n < 2 ^ 64 → text.now ≡ code n → ⊥) (λ n. text.now ≡ code n) }
{
    let [first, rest @ ..] = text else {
        return None;
    };
    if *first < 33 || *first > 126 {
        return None;
    }
    let digit = (*first - 33) as usize;
    if text.len() == 1 {
        return Some(digit);
    }
    match number_of_short(rest) {
        Some(above) => number_above(digit, above),
        None => None,
    }
}

/// The number below 2^64 of an identifier code.
fn number_of_code(text: &[u8]) -> Option<usize>
    ensures { MatchOption result ((n : ℕ) → n < 2 ^ 64 → text.now ≡ code n → ⊥) (λ n. text.now ≡ code n) }
{
    if text.len() > 10 {
        return None;
    }
    number_of_short(text)
}

/// The number of an identifier code, where it is below a count.
pub fn number_of(text: &[u8], count: usize) -> Option<usize>
    ensures { MatchOption result ((n : ℕ) → n < count → text.now ≡ code n → ⊥) (λ n. (n < count) × (text.now ≡ code n)) }
{
    let Some(number) = number_of_code(text) else {
        return None;
    };
    let below = number < count;
    if below { Some(number) } else { None }
}
