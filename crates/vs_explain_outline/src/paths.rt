//! Printed paths: `t.u.g[3].x`, `t#p4`.

/// A part of a printed path.
#[derive(Clone, Copy)]
pub struct PathPart<'p> {
    /// Its name, without a backslash and without the value of a genvar.
    pub name: &'p [u8],
    /// What stands after the part and its point; nothing where it is the last one.
    pub rest: &'p [u8],
}

/// How many bytes stand before the end of a name that begins so: before a point, a `#`, a bracket, or of an escaped name its space.
fn name_end(path: &[u8], escaped: bool) -> usize {
    for (index, byte) in path.iter().enumerate() {
        let ends = if escaped {
            *byte == b' '
        } else {
            *byte == b'.' || *byte == b'#' || *byte == b'['
        };
        if ends {
            return index;
        }
    }
    path.len()
}

/// What stands after the next point; nothing where a `#` or the end comes first.
fn after_point(path: &[u8]) -> &[u8] {
    for (index, byte) in path.iter().enumerate() {
        if *byte == b'#' {
            return &[];
        }
        if *byte == b'.' {
            return path.get(index.saturating_add(1)..).unwrap_or(&[]);
        }
    }
    &[]
}

/// The first part of a path, where it has one.
pub fn first_part(path: &[u8]) -> Option<PathPart<'_>> {
    let first = path.first()?;
    let escaped = *first == b'\\';
    let own = if escaped {
        path.get(1..).unwrap_or(&[])
    } else {
        path
    };
    let end = name_end(own, escaped);
    let name = own.get(..end).unwrap_or(&[]);
    let rest = after_point(own.get(end..).unwrap_or(&[]));
    Some(PathPart { name, rest })
}

/// The last name of a path.
pub fn last_name(path: &[u8]) -> &[u8] {
    let mut rest = path;
    let mut name: &[u8] = &[];
    for _ in 0..path.len() {
        let Some(part) = first_part(rest) else {
            return name;
        };
        name = part.name;
        rest = part.rest;
    }
    name
}

/// What stands in a path before its last part and its point, or before its `#`.
pub fn scope_of(path: &[u8]) -> &[u8] {
    let mut rest = path;
    let mut length = 0usize;
    for _ in 0..path.len() {
        let Some(part) = first_part(rest) else {
            break;
        };
        if part.rest.is_empty() {
            break;
        }
        length = path.len().saturating_sub(part.rest.len()).saturating_sub(1);
        rest = part.rest;
    }
    path.get(..length).unwrap_or(&[])
}

/// Of the name of a process or an assignment: what stands before its `#`, the letter after it, and its number.
pub fn ordinal_of(name: &[u8]) -> Option<(&[u8], u8, usize)> {
    let at = name.iter().rposition(|byte| *byte == b'#')?;
    let letter = name.get(at.saturating_add(1))?;
    let digits = name.get(at.saturating_add(2)..)?;
    let mut number = 0usize;
    for digit in digits {
        let value = usize::from(digit.saturating_sub(b'0'));
        number = number.saturating_mul(10).saturating_add(value);
    }
    Some((name.get(..at)?, *letter, number))
}
