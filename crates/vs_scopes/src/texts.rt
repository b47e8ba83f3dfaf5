//! How a fault is told.
ghost use Rattle.std.specs.Prelude.{◌≡◌, ◌++◌, ◌<◌, IfOk, OnOk};
ghost use Rattle.std.specs.List.{flat_map};
ghost use Rattle.vs_scopes.specs.Texts.{reason_text, is_control, hexadecimal, shown_byte, fault_text};

use crate::faults::{ElabFault, Reason};
use std::alloc::{AllocError, Global};
use vs_strobe::FormatReason;
use vs_widths::WidthReason;

/// The number of a fault.
fn reason_text(reason: Reason) -> &'static [u8]
    ensures { result.now ≡ reason_text reason }
{
    match reason {
        Reason::NoModule => b"E1",
        Reason::Inside => b"E2",
        Reason::PortMismatch => b"E3",
        Reason::ParameterMismatch => b"E4",
        Reason::DeclaredTwice => b"E5",
        Reason::DrivenTwice => b"E6",
        Reason::Limit => b"E7",
        Reason::Width(WidthReason::TooWide) => b"E8 X1",
        Reason::Width(WidthReason::Unknown) => b"E8 X2",
        Reason::Width(WidthReason::NotConstant) => b"E8 X3",
        Reason::Width(WidthReason::WrongKind) => b"E8 X4",
        Reason::Endless => b"E9",
        Reason::Unnamed => b"E10",
        Reason::Timescales => b"E11",
        Reason::Format(FormatReason::BadDirective) => b"E12 F1",
        Reason::Format(FormatReason::TooFewArguments) => b"E12 F2",
        Reason::Format(FormatReason::TooManyArguments) => b"E12 F3",
    }
}

/// Whether a byte is no printed character of its own.
fn is_control_byte(c: u8) -> bool
    ensures { result ≡ is_control c }
{
    c < 32 || c == 127
}

/// A hexadecimal digit.
fn hexadecimal_digit(d: u8) -> u8
    requires { d < 16 }
    ensures { result ≡ hexadecimal d }
{
    if d < 10 { 48 + d } else { 87 + d }
}

/// Appends a byte as it is told: a control byte as a backslash, `x` and two hexadecimal digits.
fn push_byte(text: &mut Vec<u8>, c: u8) -> Result<(), AllocError>
    ensures { OnOk result (text.new.items ≡ text.old.items ++ shown_byte c) }
{
    if is_control_byte(c) {
        text.extend_from_slice(&[
            b'\\',
            b'x',
            hexadecimal_digit(c / 16),
            hexadecimal_digit(c % 16),
        ])
    } else {
        text.extend_from_slice(&[c])
    }
}

/// Appends bytes as they are told: a control byte as a backslash, `x` and two hexadecimal digits.
pub fn push_bytes(text: &mut Vec<u8>, bytes: &[u8]) -> Result<(), AllocError>
    ensures { OnOk result (text.new.items ≡ text.old.items ++ flat_map shown_byte bytes.now) }
{
    for c in bytes {
        push_byte(text, *c)?;
    }
    Ok(())
}

/// A fault as the program tells it: `E5 at t.a`. It is one line whatever the names: a control byte of a name is told as `\x0a`.
pub fn fault_text(alloc: Global, fault: &ElabFault) -> Result<Vec<u8>, AllocError>
    ensures { IfOk result (λ text. text.items ≡ fault_text fault.now) }
{
    let mut text = Vec::new(alloc);
    match fault {
        ElabFault::Memory => text.extend_from_slice(b"memory")?,
        ElabFault::At(reason, path) => {
            text.extend_from_slice(reason_text(*reason))?;
            text.extend_from_slice(b" at ")?;
            push_bytes(&mut text, path)?;
        }
    }
    Ok(text)
}
