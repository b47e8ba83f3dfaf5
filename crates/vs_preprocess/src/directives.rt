//! Directives in the text of a file.
ghost use Rattle.std.specs.Prelude.{◌≡◌, ◌≤◌, length, IfOk, IfSome};

use crate::frame::Frame;
use crate::places::LineMark;
use crate::run::{Run, Stop};
use vs_prep_macros::{
    Class, Directive, Fault, Form as PieceForm, Halt, NAME_LIMIT, cut, read_definition, skip_blank,
    skip_run, split_name, trimmed, wanted_name,
};

/// What comes next in a file.
#[derive(Drop)]
pub(crate) struct Step<'b> {
    /// The name of a file that is included here.
    pub(crate) include: Option<Vec<u8>>,
    /// The bytes that come next.
    pub(crate) rest: &'b [u8],
}

impl<'b> Step<'b> {
    /// These bytes come next.
    pub(crate) fn to(rest: &'b [u8]) -> Step<'b>
        ensures { result.rest.now ≡ rest.now }
    {
        Step {
            include: None,
            rest,
        }
    }
}

impl<'c> Run<'c> {
    /// Reads what a backquote begins, from the bytes after it.
    pub(crate) fn backquote<'b>(
        &mut self,
        frame: &mut Frame<'b>,
        after: &'b [u8],
    ) -> Result<Step<'b>, Stop>
        ensures { IfOk result (λ x. length x.rest.now ≤ length after.now) }
    {
        let (name, rest) = split_name(after);
        let directive = Directive::of(name);
        if let Some(next) = self.conditional(frame, directive, after, rest)? {
            return Ok(Step::to(next));
        }
        if !frame.conditionals.is_live() {
            return Ok(Step::to(rest));
        }
        if name.len() > NAME_LIMIT {
            return Err(self.stop(
                frame,
                after.len().saturating_add(1),
                Halt::Here(Fault::LongName),
            ));
        }
        match directive {
            None => Ok(Step::to(self.macro_use(frame, after)?)),
            Some(Directive::Include) => self.include_of(frame, after, rest),
            Some(directive) => Ok(Step::to(self.directive(frame, directive, after, rest)?)),
        }
    }

    /// Reads a directive of a conditional, and answers what stands behind it; none, where it is another one.
    fn conditional<'b>(
        &mut self,
        frame: &mut Frame<'b>,
        directive: Option<Directive>,
        after: &'b [u8],
        rest: &'b [u8],
    ) -> Result<Option<&'b [u8]>, Stop>
        ensures { IfOk result (λ o. IfSome o (λ x. length x.now ≤ length rest.now)) }
    {
        let left = after.len().saturating_add(1);
        match directive {
            Some(Directive::Ifdef) => Ok(Some(self.opening(frame, true, left, rest)?)),
            Some(Directive::Ifndef) => Ok(Some(self.opening(frame, false, left, rest)?)),
            Some(Directive::Elsif) => {
                let (name, rest) = self.name(frame, left, rest)?;
                let holds = self.macros.has(name);
                let answer = frame.conditionals.turn(holds, false);
                self.turned(frame, left, answer)?;
                Ok(Some(rest))
            }
            Some(Directive::Else) => {
                let answer = frame.conditionals.turn(true, true);
                self.turned(frame, left, answer)?;
                Ok(Some(rest))
            }
            Some(Directive::Endif) => {
                let answer = frame.conditionals.close();
                self.turned(frame, left, answer)?;
                Ok(Some(rest))
            }
            _ => Ok(None),
        }
    }

    /// Reads the name behind an `ifdef` or an `ifndef`, and opens the conditional.
    fn opening<'b>(
        &mut self,
        frame: &mut Frame<'b>,
        is_wanted: bool,
        left: usize,
        rest: &'b [u8],
    ) -> Result<&'b [u8], Stop>
        ensures { IfOk result (λ x. length x.now ≤ length rest.now) }
    {
        let (name, rest) = self.name(frame, left, rest)?;
        let place = frame.place(left);
        let holds = self.macros.has(name) == is_wanted;
        frame.conditionals.open(place, holds)?;
        Ok(rest)
    }

    /// The stop where a conditional isn't open, or has had its `else`.
    fn turned(
        &self,
        frame: &Frame<'_>,
        left: usize,
        answer: Result<(), Fault>,
    ) -> Result<(), Stop> {
        match answer {
            Ok(()) => Ok(()),
            Err(fault) => Err(self.stop(frame, left, Halt::Here(fault))),
        }
    }

    /// The name that a directive wants.
    fn name<'b>(
        &self,
        frame: &Frame<'b>,
        left: usize,
        rest: &'b [u8],
    ) -> Result<(&'b [u8], &'b [u8]), Stop>
        ensures { IfOk result (λ x. length x.1.now ≤ length rest.now) }
    {
        match wanted_name(rest) {
            Ok(found) => Ok(found),
            Err(halt) => Err(self.stop(frame, left, halt)),
        }
    }

    /// Reads the use of a macro.
    fn macro_use<'b>(&mut self, frame: &mut Frame<'b>, after: &'b [u8]) -> Result<&'b [u8], Stop>
        ensures { IfOk result (λ x. length x.now ≤ length after.now) }
    {
        let left = after.len().saturating_add(1);
        let (text, rest, definition) = self.expansion(frame, after)?;
        match self
            .output
            .put_expansion(&text, frame.spot(left), definition)
        {
            Ok(()) => Ok(rest),
            Err(halt) => Err(self.stop(frame, left, halt)),
        }
    }

    /// Reads a directive that is none of a conditional and no `include`, from the bytes after its backquote and those behind its name.
    fn directive<'b>(
        &mut self,
        frame: &mut Frame<'b>,
        directive: Directive,
        after: &'b [u8],
        rest: &'b [u8],
    ) -> Result<&'b [u8], Stop>
        ensures { IfOk result (λ x. length x.now ≤ length rest.now) }
    {
        let left = after.len().saturating_add(1);
        match directive {
            Directive::Define => return self.define(frame, left, rest),
            Directive::Undef => return self.undefine(frame, left, rest),
            Directive::Line => return self.line(frame, left, rest),
            Directive::BeginKeywords => return self.keywords(frame, left, rest),
            Directive::Pragma => return self.pragma(frame, left, rest),
            Directive::Resetall => self.put(frame, left, b"`default_nettype wire")?,
            Directive::UnconnectedDrive => {
                return Err(self.stop(frame, left, Halt::Here(Fault::UnconnectedDrive)));
            }
            Directive::Timescale | Directive::DefaultNettype => {
                self.copy(frame, left, rest.len())?;
            }
            _ => self.put(frame, left, b" ")?,
        }
        Ok(rest)
    }

    /// Reads the definition of a macro behind `define`.
    pub(crate) fn define<'b>(
        &mut self,
        frame: &Frame<'b>,
        left: usize,
        rest: &'b [u8],
    ) -> Result<&'b [u8], Stop>
        ensures { IfOk result (λ x. length x.now ≤ length rest.now) }
    {
        match read_definition(self.alloc, rest, frame.spot(left)) {
            Ok((definition, rest)) => {
                self.macros.define(definition)?;
                Ok(rest)
            }
            Err(halt) => Err(self.stop(frame, left, halt)),
        }
    }

    /// Reads the name behind `undef`, and forgets the macro.
    fn undefine<'b>(
        &mut self,
        frame: &Frame<'b>,
        left: usize,
        rest: &'b [u8],
    ) -> Result<&'b [u8], Stop>
        ensures { IfOk result (λ x. length x.now ≤ length rest.now) }
    {
        let (name, rest) = self.name(frame, left, rest)?;
        if Directive::of(name).is_some() {
            return Err(self.stop(frame, left, Halt::Here(Fault::ReservedName)));
        }
        self.macros.undefine(name);
        Ok(rest)
    }

    /// Reads a text in quotes, or a macro whose expansion is one.
    fn text<'b>(
        &mut self,
        frame: &mut Frame<'b>,
        left: usize,
        rest: &'b [u8],
    ) -> Result<(Vec<u8>, &'b [u8]), Stop>
        ensures { IfOk result (λ x. length x.1.now ≤ length rest.now) }
    {
        let at = skip_blank(rest);
        if !at.is_empty() {
            let piece = cut(at);
            if piece.form == PieceForm::Text {
                return Ok((Vec::from_slice(self.alloc, inside(piece.text))?, piece.rest));
            }
            if piece.form == PieceForm::Backquote && !split_name(piece.rest).0.is_empty() {
                let (expansion, rest, _) = self.expansion(frame, piece.rest)?;
                if let Some(text) = whole_text(&expansion) {
                    return Ok((Vec::from_slice(self.alloc, text)?, rest));
                }
            }
        }
        Err(self.stop(frame, left, Halt::Here(Fault::NoText)))
    }

    /// What stands behind white space and comments, where nothing else is left on the line.
    fn end_of_line<'b>(&self, frame: &Frame<'b>, bytes: &'b [u8]) -> Result<&'b [u8], Stop>
        ensures { IfOk result (λ x. length x.now ≤ length bytes.now) }
    {
        let mut rest = bytes;
        while !rest.is_empty() {
            let piece = cut(rest);
            match piece.form {
                PieceForm::LineFeed => return Ok(rest),
                PieceForm::Blank | PieceForm::LineComment | PieceForm::BlockComment => {}
                PieceForm::OpenComment => {
                    return Err(self.stop(frame, rest.len(), Halt::Here(Fault::OpenComment)));
                }
                _ => return Err(self.stop(frame, rest.len(), Halt::Here(Fault::MoreOnLine))),
            }
            rest = piece.rest;
        }
        Ok(rest)
    }

    /// Reads what an `include` names.
    fn include_of<'b>(
        &mut self,
        frame: &mut Frame<'b>,
        after: &'b [u8],
        rest: &'b [u8],
    ) -> Result<Step<'b>, Stop>
        ensures { IfOk result (λ x. length x.rest.now ≤ length rest.now) }
    {
        let (name, rest) = self.text(frame, after.len().saturating_add(1), rest)?;
        let rest = self.end_of_line(frame, rest)?;
        Ok(Step {
            include: Some(name),
            rest,
        })
    }

    /// Reads the language behind `begin_keywords`.
    fn keywords<'b>(
        &mut self,
        frame: &mut Frame<'b>,
        left: usize,
        rest: &'b [u8],
    ) -> Result<&'b [u8], Stop>
        ensures { IfOk result (λ x. length x.now ≤ length rest.now) }
    {
        let (language, rest) = self.text(frame, left, rest)?;
        match language.as_slice() {
            b"1364-1995" | b"1364-2001" | b"1364-2001-noconfig" | b"1364-2005" => {}
            _ => return Err(self.stop(frame, left, Halt::Here(Fault::Keywords))),
        }
        self.put(frame, left, b" ")?;
        Ok(rest)
    }

    /// Reads a pragma to the end of its line.
    fn pragma<'b>(
        &mut self,
        frame: &Frame<'b>,
        left: usize,
        rest: &'b [u8],
    ) -> Result<&'b [u8], Stop>
        ensures { IfOk result (λ x. length x.now ≤ length rest.now) }
    {
        let behind = skip_run(rest, Class::Line);
        let words = trimmed(&rest[..rest.len().saturating_sub(behind.len())]);
        let (first, _) = split_name(words);
        if first == b"protect".as_slice() {
            return Err(self.stop(frame, left, Halt::Here(Fault::Protected)));
        }
        self.put(frame, left, b" ")?;
        Ok(behind)
    }

    /// Reads what `line` says.
    fn line<'b>(
        &mut self,
        frame: &mut Frame<'b>,
        left: usize,
        rest: &'b [u8],
    ) -> Result<&'b [u8], Stop>
        ensures { IfOk result (λ x. length x.now ≤ length rest.now) }
    {
        let Some((given, rest)) = number(skip_blank(rest)) else {
            return Err(self.stop(frame, left, Halt::Here(Fault::LineForm)));
        };
        let (name, rest) = self.text(frame, left, rest)?;
        let [b'0' | b'1' | b'2', rest @ ..] = skip_blank(rest) else {
            return Err(self.stop(frame, left, Halt::Here(Fault::LineForm)));
        };
        let rest = self.end_of_line(frame, rest)?;
        let place = frame.place(rest.len());
        let mark = LineMark {
            first: place.saturating_add(1),
            real: frame.line(place).saturating_add(1),
            given,
            name,
        };
        self.output.mark_line(frame.file, mark)?;
        Ok(rest)
    }
}

/// What stands between the quotes of a text.
fn inside(text: &[u8]) -> &[u8] {
    match text {
        [_, inner @ .., _] => inner,
        _ => text,
    }
}

/// What stands between the quotes, where an expansion is one text.
fn whole_text(expansion: &[u8]) -> Option<&[u8]> {
    let text = trimmed(expansion);
    if text.is_empty() {
        return None;
    }
    let piece = cut(text);
    if piece.form != PieceForm::Text || !piece.rest.is_empty() {
        return None;
    }
    Some(inside(text))
}

/// A number below 1,000,000,000 at the front, and what stands behind it.
fn number(bytes: &[u8]) -> Option<(usize, &[u8])>
    ensures { IfSome result (λ x. length x.1.now ≤ length bytes.now) }
{
    let mut value: usize = 0;
    let mut rest = bytes;
    while let [digit @ b'0'..=b'9', after @ ..] = rest {
        if value > 99_999_999 {
            return None;
        }
        value = value * 10 + usize::from(*digit - b'0');
        rest = after;
    }
    if rest.len() == bytes.len() {
        return None;
    }
    Some((value, rest))
}
