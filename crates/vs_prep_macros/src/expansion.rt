//! What uses of macros stand for (IEEE 1364-2005, clause 19.3).
ghost use Rattle.std.specs.Prelude.{◌≡◌, ◌≤◌, length, IfOk};

use crate::actuals::{nameless, read_actuals};
use crate::definition::Definition;
use crate::directive::Directive;
use crate::fault::{Fault, Halt};
use crate::formals::Formals;
use crate::scan::{split_name, trimmed};
use crate::table::Macros;
use crate::{Class, Form, NESTING, Piece, TEXT_LIMIT, cut};
use std::alloc::{AllocError, Global};

/// Where the use stands that is being read in a file.
#[derive(Clone, Copy)]
pub struct Site<'s> {
    /// The name of the file.
    pub file: &'s [u8],
    /// The line, from 1.
    pub line: usize,
}

/// The formals of a macro, and what they stand for.
#[derive(Clone, Copy)]
struct Bindings<'e> {
    formals: Option<&'e Formals>,
    values: &'e [Vec<u8>],
}

impl<'e> Bindings<'e> {
    /// No formals.
    fn none() -> Bindings<'e> {
        Bindings {
            formals: None,
            values: &[],
        }
    }

    /// What a name stands for, if it is a formal.
    fn value(&self, name: &[u8]) -> Option<&'e [u8]> {
        let number = *self.formals?.get(name)?;
        Some(self.values.get(number)?.as_slice())
    }
}

/// What a name behind a backquote means in a macro's text.
#[derive(Clone, Copy)]
enum Meaning<'m> {
    /// A directive that is kept, with its backquote.
    Kept,
    /// A directive that is dropped.
    Dropped,
    File,
    Line,
    Macro(usize, &'m Definition),
}

/// What makes expansions of macros.
#[derive(Drop)]
pub struct Expander<'m> {
    alloc: Global,
    macros: &'m Macros,
    site: Site<'m>,
    // The definitions whose texts are being read, by their numbers.
    active: Vec<usize>,
    // How much work is left.
    work: usize,
    // The definition of the macro whose use is expanded.
    used: Option<usize>,
}

/// An actual without the white space at its ends; one space stays behind an escaped name.
fn value_of(alloc: Global, text: &[u8]) -> Result<Vec<u8>, AllocError> {
    let kept = trimmed(text);
    let mut value = Vec::from_slice(alloc, kept)?;
    if ends_escaped(kept) {
        value.extend_from_slice(b" ")?;
    }
    Ok(value)
}

/// Whether a backslash stands in the last word of a text.
fn ends_escaped(text: &[u8]) -> bool {
    for byte in text.iter().rev() {
        if Class::White.has(*byte) {
            return false;
        }
        if *byte == b'\\' {
            return true;
        }
    }
    false
}

/// Why a name behind a backquote means nothing, with these bytes behind the backquote.
fn undefined(name: &[u8], after: &[u8]) -> Fault {
    if !name.is_empty() {
        return Fault::Undefined;
    }
    nameless(after)
}

impl<'m> Expander<'m> {
    /// What expands uses at a site, with so much work left.
    pub fn new(alloc: Global, macros: &'m Macros, site: Site<'m>, work: usize) -> Expander<'m> {
        Expander {
            alloc,
            macros,
            site,
            active: Vec::new(alloc),
            work,
            used: None,
        }
    }

    /// How much work is left.
    pub fn work(&self) -> usize {
        self.work
    }

    /// The definition of the macro whose use was expanded, if it is one.
    pub fn used(&self) -> Option<usize> {
        self.used
    }

    /// The definition whose text is being read, if one is.
    pub fn definition(&self) -> Option<usize> {
        self.active.last().copied()
    }

    /// Takes some of the work that is left.
    fn spend(&mut self, work: usize) -> Result<(), Halt> {
        if work > self.work {
            return Err(Halt::Here(Fault::Work));
        }
        self.work -= work;
        Ok(())
    }

    /// Puts bytes behind an expansion.
    fn put(&mut self, text: &[u8], out: &mut Vec<u8>) -> Result<(), Halt> {
        if out.len() > TEXT_LIMIT || text.len() > TEXT_LIMIT - out.len() {
            return Err(Halt::Here(Fault::LongExpansion));
        }
        self.spend(text.len())?;
        out.extend_from_slice(text)?;
        Ok(())
    }

    /// Puts a piece that is no use behind an expansion.
    fn put_piece(
        &mut self,
        piece: Piece<'_>,
        bindings: Bindings<'_>,
        out: &mut Vec<u8>,
    ) -> Result<(), Halt> {
        match piece.form {
            Form::LineComment | Form::BlockComment => self.put(b" ", out),
            Form::Escaped => {
                self.put(piece.text, out)?;
                self.put(b" ", out)
            }
            Form::Name => {
                let text = bindings.value(piece.text).unwrap_or(piece.text);
                self.put(text, out)
            }
            _ => self.put(piece.text, out),
        }
    }

    /// The meaning of a name behind a backquote, with these bytes behind the backquote.
    fn meaning(&self, name: &[u8], after: &[u8]) -> Result<Meaning<'m>, Halt> {
        match Directive::of(name) {
            Some(Directive::Timescale | Directive::DefaultNettype) => return Ok(Meaning::Kept),
            Some(Directive::Celldefine | Directive::Endcelldefine) => return Ok(Meaning::Dropped),
            Some(_) => return Err(Halt::Here(Fault::DirectiveInText)),
            None => {}
        }
        let macros = self.macros;
        if let Some((number, definition)) = macros.find(name) {
            if self.active.contains(&number) {
                return Err(Halt::Here(Fault::Recursion));
            }
            return Ok(Meaning::Macro(number, definition));
        }
        match name {
            b"__FILE__" => Ok(Meaning::File),
            b"__LINE__" => Ok(Meaning::Line),
            _ => Err(Halt::Here(undefined(name, after))),
        }
    }

    /// Puts the name of the file as a text.
    fn put_file(&mut self, out: &mut Vec<u8>) -> Result<(), Halt> {
        let file = self.site.file;
        self.put(b"\"", out)?;
        for byte in file {
            if *byte == b'"' || *byte == b'\\' {
                self.put(b"\\", out)?;
            }
            self.put(&[*byte], out)?;
        }
        self.put(b"\"", out)
    }

    /// Puts the number of the line.
    fn put_line(&mut self, out: &mut Vec<u8>) -> Result<(), Halt> {
        let line = self.site.line;
        let digits = format!(in self.alloc; "{line}")?;
        self.put(digits.as_bytes(), out)
    }

    /// Puts what the use stands for whose backquote these bytes follow, and answers what stands behind it.
    pub fn expand_use<'s>(&mut self, after: &'s [u8], out: &mut Vec<u8>) -> Result<&'s [u8], Halt>
        ensures { IfOk result (λ rest. length rest.now ≤ length after.now) }
    {
        let (name, rest) = split_name(after);
        let meaning = self.meaning(name, after)?;
        if let Meaning::Macro(number, _) = meaning {
            self.used = Some(number);
        }
        let left = self.expand_meaning(meaning, name, rest, Bindings::none(), NESTING, out)?;
        Ok(last(after, left))
    }

    /// Puts what the use stands for whose backquote these bytes follow, and answers how many bytes are left behind it. Texts nest so many
    /// levels deep at most.
    #[cycle(expansion)]
    fn expand_bound(
        &mut self,
        after: &[u8],
        bindings: Bindings<'_>,
        levels: usize,
        out: &mut Vec<u8>,
    ) -> Result<usize, Halt>
        ensures { IfOk result (λ left. left ≤ length after.now) }
    {
        let (name, rest) = split_name(after);
        let meaning = self.meaning(name, after)?;
        self.expand_meaning(meaning, name, rest, bindings, levels, out)
    }

    /// Puts what a name of this meaning stands for, from the bytes behind it, and answers how many bytes are left behind its use.
    #[cycle(expansion)]
    fn expand_meaning(
        &mut self,
        meaning: Meaning<'m>,
        name: &[u8],
        rest: &[u8],
        bindings: Bindings<'_>,
        levels: usize,
        out: &mut Vec<u8>,
    ) -> Result<usize, Halt>
        ensures { IfOk result (λ left. left ≤ length rest.now) }
    {
        match meaning {
            Meaning::Kept => {
                self.put(b"`", out)?;
                self.put(name, out)?;
            }
            Meaning::Dropped => self.put(b" ", out)?,
            Meaning::File => self.put_file(out)?,
            Meaning::Line => self.put_line(out)?,
            Meaning::Macro(number, definition) => {
                return self.expand_macro(number, definition, rest, bindings, levels, out);
            }
        }
        Ok(rest.len())
    }

    /// Puts what the use of a macro stands for, from the bytes behind its name, and answers how many bytes are left behind it.
    #[cycle(expansion)]
    fn expand_macro(
        &mut self,
        number: usize,
        definition: &Definition,
        after: &[u8],
        bindings: Bindings<'_>,
        levels: usize,
        out: &mut Vec<u8>,
    ) -> Result<usize, Halt>
        ensures { IfOk result (λ left. left ≤ length after.now) }
    {
        let Some(formals) = &definition.formals else {
            self.expand_body(number, definition, Bindings::none(), levels, out)?;
            return Ok(after.len());
        };
        let (actuals, rest) = read_actuals(self.alloc, after)?;
        if actuals.len() != formals.len() {
            return Err(Halt::Here(Fault::ActualsCount));
        }
        self.spend(after.len() - rest.len())?;
        let values = self.expand_all(&actuals, bindings, levels)?;
        let bound = Bindings {
            formals: Some(formals),
            values: &values,
        };
        self.expand_body(number, definition, bound, levels, out)?;
        Ok(rest.len())
    }

    /// Puts what the text of a definition stands for.
    #[cycle(expansion)]
    fn expand_body(
        &mut self,
        number: usize,
        definition: &Definition,
        bindings: Bindings<'_>,
        levels: usize,
        out: &mut Vec<u8>,
    ) -> Result<(), Halt> {
        self.active.push(number)?;
        self.expand(&definition.body, bindings, levels, out)?;
        let _ = self.active.pop();
        Ok(())
    }

    /// What each actual stands for.
    #[cycle(expansion)]
    fn expand_all(
        &mut self,
        actuals: &[&[u8]],
        bindings: Bindings<'_>,
        levels: usize,
    ) -> Result<Vec<Vec<u8>>, Halt> {
        let mut values = Vec::new(self.alloc);
        for actual in actuals {
            let mut text = Vec::new(self.alloc);
            self.expand(*actual, bindings, levels, &mut text)?;
            values.push(value_of(self.alloc, &text)?)?;
        }
        Ok(values)
    }

    /// Puts what a text stands for.
    #[cycle(expansion)]
    fn expand(
        &mut self,
        text: &[u8],
        bindings: Bindings<'_>,
        levels: usize,
        out: &mut Vec<u8>,
    ) -> Result<(), Halt> {
        if levels == 0 {
            return Err(Halt::Here(Fault::MacrosNested));
        }
        let depth = self.active.len();
        self.spend(depth.saturating_add(1))?;
        self.spend(text.len())?;
        let mut rest = text;
        while !rest.is_empty() {
            let piece = cut(rest);
            if piece.form == Form::Backquote {
                match self.expand_bound(piece.rest, bindings, levels - 1, out) {
                    Ok(left) => rest = last(piece.rest, left),
                    Err(halt) => return Err(halt.here()),
                }
            } else {
                self.put_piece(piece, bindings, out)?;
                rest = piece.rest;
            }
        }
        Ok(())
    }
}

/// So many bytes at the end.
fn last(bytes: &[u8], count: usize) -> &[u8]
    ensures { count ≤ length bytes.now → length result.now ≡ count }
{
    &bytes[bytes.len().saturating_sub(count)..]
}
