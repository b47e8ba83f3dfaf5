//! What stands behind runs of bytes, pairs of bytes and texts.
ghost use Rattle.std.specs.Prelude.{◌≡◌, ◌≤◌, None, Some, MatchOption, IfSome, false, length};
ghost use Rattle.vs_lexer.specs.Bytes.{after_run};
ghost use Rattle.vs_prep_macros.specs.Classes.{in_class};
ghost use Rattle.vs_prep_macros.specs.Pieces.{after_close, after_quote};

use crate::classes::Class;

/// The bytes behind those of the class at the front.
pub fn skip_run(bytes: &[u8], class: Class) -> &[u8]
    ensures behind { result.now ≡ after_run (in_class class) bytes.now }
    ensures no_longer { length result.now ≤ length bytes.now }
{
    let mut rest = bytes;
    while let [first, more @ ..] = rest {
        if !class.has(*first) {
            break;
        }
        rest = more;
    }
    rest
}

/// The bytes behind the first place where the two bytes stand side by side.
pub fn skip_past_pair(bytes: &[u8], first: u8, second: u8) -> Option<&[u8]>
    ensures behind { MatchOption result (after_close first second bytes.now ≡ None)
        (λ rest. after_close first second bytes.now ≡ Some rest.now) }
    ensures no_longer { IfSome result (λ rest. length rest.now ≤ length bytes.now) }
{
    let mut rest = bytes;
    while let [one, more @ ..] = rest {
        if *one == first {
            if let [other, after @ ..] = more {
                if *other == second {
                    return Some(after);
                }
            }
        }
        rest = more;
    }
    None
}

/// The bytes behind the quote that closes a text on its line, from those behind the one that opens it.
pub(crate) fn after_string(bytes: &[u8]) -> Option<&[u8]>
    ensures behind { MatchOption result (after_quote false bytes.now ≡ None)
        (λ rest. after_quote false bytes.now ≡ Some rest.now) }
    ensures no_longer { IfSome result (λ rest. length rest.now ≤ length bytes.now) }
{
    let mut rest = bytes;
    let mut escaped = false;
    while let [first, more @ ..] = rest {
        if *first == b'\n' {
            return None;
        }
        if !escaped && *first == b'"' {
            return Some(more);
        }
        escaped = !escaped && *first == b'\\';
        rest = more;
    }
    None
}
