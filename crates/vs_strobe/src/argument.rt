//! Arguments of formats.
ghost use Rattle.std.specs.Prelude.{◌≡◌, ◌<◌};
ghost use Rattle.vs_strobe.specs.Lines.{is_signed, arg_value};

use vs_design::vs_logic4::Vec4;
use vs_design::{FormatArg, Store};
use vs_eval::value;

/// Whether an argument is a signed number.
pub(crate) fn is_signed(arg: &FormatArg) -> bool
    ensures { result ≡ is_signed arg.now }
{
    match arg {
        FormatArg::Value(signed, _) => *signed,
        FormatArg::Time => false,
    }
}

/// The value of an argument in a store at a time in ticks. `ratio` is how many ticks a unit is.
pub(crate) fn arg_value(ratio: u64, arg: &FormatArg, store: &Store, time: u64) -> Vec4
    requires { 0 < ratio }
    ensures { result ≡ arg_value ratio arg.now store.now time }
{
    match arg {
        FormatArg::Value(_, e) => value(e, store, time),
        FormatArg::Time => Vec4::from_number(64, time / ratio),
    }
}
