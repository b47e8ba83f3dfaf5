//! Names and paths as they are printed.
ghost use Rattle.std.specs.Prelude.{◌≡◌, ◌<◌, ◌++◌, ◌∷◌, [], length, IfOk, OnOk};
ghost use Rattle.std.specs.List.{flat_map, list_all};
ghost use Rattle.vs_scopes.specs.Printed.{is_letter, is_name_byte, is_simple, escaped_byte, plainly, printed_name, printed_turn, printed_part, printed, own_name, port_assign_name, part_name};
ghost use Rattle.vs_scopes.specs.Generate.{numbered_name};
ghost use Rattle.vs_scopes.specs.scopes_passes.Names.{read_part, read_title, read_path};

use itoa::Buffer;
use std::alloc::{AllocError, Global};

/// A name of a part of a path.
#[derive(Clone, Copy)]
pub enum PartName<'s> {
    /// The bytes of a name of the text.
    Text(&'s [u8]),
    /// The name of an unnamed block: `genblk`, so many zeros, and the number of its construct (IEEE 1364-2005, clause 12.4.3).
    Unnamed {
        /// How many zeros.
        zeros: u32,
        /// The number of the construct.
        number: usize,
    },
}

/// A name of a path (IEEE 1364-2005, clause 12.5).
#[derive(Clone, Copy)]
pub struct PathName<'s> {
    /// The name.
    pub name: PartName<'s>,
    /// The value of the genvar, where it is the name of a turn of a generate loop (clause 12.4.1).
    pub turn: Option<i64>,
}

/// Whether a byte is a letter or `_` (IEEE 1364-2005, clause 3.7).
fn is_letter_byte(c: u8) -> bool
    ensures { result ≡ is_letter c }
{
    c.is_ascii_alphabetic() || c == b'_'
}

/// Whether a byte may stand in a simple name behind its first one (IEEE 1364-2005, clause 3.7).
fn is_name_part(c: u8) -> bool
    ensures { result ≡ is_name_byte c }
{
    is_letter_byte(c) || c.is_ascii_digit() || c == b'$'
}

/// Whether each byte may stand in a simple name behind its first one.
fn are_name_parts(bytes: &[u8]) -> bool
    ensures { result ≡ list_all is_name_byte bytes.now }
{
    bytes.iter().all(|c| is_name_part(*c))
}

/// Whether the bytes are a simple name (IEEE 1364-2005, clause 3.7).
fn is_simple_name(name: &[u8]) -> bool
    ensures { result ≡ is_simple name.now }
{
    let Some((first, others)) = name.split_first() else {
        return false;
    };
    is_letter_byte(*first) && are_name_parts(others)
}

/// Appends a byte of an escaped name as it is printed.
fn push_escaped_byte(text: &mut Vec<u8>, c: u8) -> Result<(), AllocError>
    ensures { OnOk result (text.new.items ≡ text.old.items ++ escaped_byte c) }
{
    if c == b' ' {
        text.extend_from_slice(&[127, b'1'])
    } else if c == 127 {
        text.extend_from_slice(&[127, b'0'])
    } else {
        text.extend_from_slice(&[c])
    }
}

/// Appends the bytes of an escaped name as they are printed.
fn push_escaped(text: &mut Vec<u8>, name: &[u8]) -> Result<(), AllocError>
    ensures { OnOk result (text.new.items ≡ text.old.items ++ flat_map escaped_byte name.now) }
{
    for c in name {
        push_escaped_byte(text, *c)?;
    }
    Ok(())
}

/// Appends a name as it is printed: one that isn't simple with a backslash before and a space behind it.
fn push_name(text: &mut Vec<u8>, name: &[u8]) -> Result<(), AllocError>
    ensures { OnOk result (text.new.items ≡ text.old.items ++ printed_name name.now) }
{
    if is_simple_name(name) {
        text.extend_from_slice(name)
    } else {
        text.push(b'\\')?;
        push_escaped(text, name)?;
        text.push(b' ')?;
        Ok(())
    }
}

/// A name as it is printed.
pub fn print_name(alloc: Global, name: &[u8]) -> Result<Vec<u8>, AllocError>
    ensures { IfOk result (λ v. v.items ≡ printed_name name.now) }
{
    let mut text = Vec::new(alloc);
    push_name(&mut text, name)?;
    Ok(text)
}

/// Appends the value of a genvar as it is printed behind the name of a loop's block (IEEE 1364-2005, clause 12.4.1).
fn push_turn(text: &mut Vec<u8>, turn: Option<i64>) -> Result<(), AllocError>
    ensures { OnOk result (text.new.items ≡ text.old.items ++ printed_turn turn) }
{
    let Some(value) = turn else {
        return Ok(());
    };
    let mut buffer = Buffer::new();
    text.push(b'[')?;
    text.extend_from_slice(buffer.format(value).as_bytes())?;
    text.push(b']')?;
    Ok(())
}

/// The bytes of the name of an unnamed block: `genblk`, zeros, and a number (IEEE 1364-2005, clause 12.4.3).
pub fn numbered_name(alloc: Global, zeros: u32, number: usize) -> Result<Vec<u8>, AllocError>
    ensures { IfOk result (λ v. v.items ≡ numbered_name zeros number) }
{
    let mut name = Vec::new(alloc);
    name.extend_from_slice(b"genblk")?;
    for _zero in 0..zeros {
        name.push(b'0')?;
    }
    let mut buffer = Buffer::new();
    name.extend_from_slice(buffer.format(number).as_bytes())?;
    Ok(name)
}

/// Appends a name of a part of a path as it is printed.
fn push_part(alloc: Global, text: &mut Vec<u8>, part: PartName) -> Result<(), AllocError>
    ensures { OnOk result (text.new.items ≡ text.old.items ++ printed_name (read_part part.entry)) }
{
    match part {
        PartName::Text(name) => push_name(text, name),
        PartName::Unnamed { zeros, number } => {
            let name = numbered_name(alloc, zeros, number)?;
            push_name(text, &name)
        }
    }
}

/// Appends a name of a path as it is printed.
fn push_title(alloc: Global, text: &mut Vec<u8>, title: PathName) -> Result<(), AllocError>
    ensures { OnOk result (text.new.items ≡ text.old.items ++ printed_part (read_title title.entry)) }
{
    push_part(alloc, text, title.name)?;
    push_turn(text, title.turn)
}

/// A name of a path as it is printed.
pub fn print_title(alloc: Global, title: PathName) -> Result<Vec<u8>, AllocError>
    ensures { IfOk result (λ v. v.items ≡ printed_part (read_title title.entry)) }
{
    let mut text = Vec::new(alloc);
    push_title(alloc, &mut text, title)?;
    Ok(text)
}

/// A path as it is printed: its names joined by `.` (IEEE 1364-2005, clause 12.5).
pub fn print_path(alloc: Global, path: &[PathName]) -> Result<Vec<u8>, AllocError>
    ensures { IfOk result (λ v. v.items ≡ printed (read_path path.now)) }
{
    let mut text = Vec::new(alloc);
    let Some((first, others)) = path.split_first() else {
        return Ok(text);
    };
    push_title(alloc, &mut text, *first)?;
    for title in others {
        text.push(b'.')?;
        push_title(alloc, &mut text, *title)?;
    }
    Ok(text)
}

/// The path of a name in the scope of a path, as it is printed.
pub fn print_member(alloc: Global, path: &[PathName], name: &[u8]) -> Result<Vec<u8>, AllocError>
    requires { 0 < length path.now }
    ensures { IfOk result (λ v. v.items ≡ printed (read_path path.now ++ plainly name.now ∷ [])) }
{
    let mut text = print_path(alloc, path)?;
    text.push(b'.')?;
    push_name(&mut text, name)?;
    Ok(text)
}

/// The name of an assignment or a process of the scope of a path, as it is printed: with a letter that says which of the two,
/// and its number.
pub fn print_part(
    alloc: Global,
    path: &[PathName],
    letter: u8,
    number: usize,
) -> Result<Vec<u8>, AllocError>
    ensures { IfOk result (λ v. v.items ≡ part_name (read_path path.now) (own_name letter number)) }
{
    let mut text = print_path(alloc, path)?;
    text.extend_from_slice(&[b'#', letter])?;
    let mut buffer = Buffer::new();
    text.extend_from_slice(buffer.format(number).as_bytes())?;
    Ok(text)
}

/// The name of the continuous assignment of a port of the scope of a path, as it is printed.
pub fn print_port_part(alloc: Global, path: &[PathName], port: &[u8]) -> Result<Vec<u8>, AllocError>
    ensures { IfOk result (λ v. v.items ≡ part_name (read_path path.now) (port_assign_name port.now)) }
{
    let mut text = print_path(alloc, path)?;
    text.extend_from_slice(b"#io:")?;
    push_name(&mut text, port)?;
    Ok(text)
}
