//! The lines before the body.
ghost use Rattle.std.specs.Prelude.{◌≡◌, ◌<◌, ◌^◌, ◌∷◌, ◌++◌, [], false, IsTrue, ◌↔◌, MatchResult};
ghost use Rattle.vs_vcd_lines.specs.Lines.{IsDeclaration};
ghost use Rattle.vs_vcd_reader.specs.declared.fault.VcdFault.TheVariants.{Cut, Header as HeaderFault, Memory};
ghost use Rattle.vs_vcd_reader.specs.Plain.{plain_declaration};
ghost use Rattle.vs_vcd_reader.specs.Layout.{widths_of};
ghost use Rattle.vs_vcd_reader.specs.Headers.{depth_with, own_with, Goes, IsBegun, IsClosed, IsHeader, IsHeaderFault, IsExtendedBy, MayOccur};
ghost use Rattle.vs_vcd_reader.specs.Steps.{Item as i, Place as p, text_from};
ghost use Rattle.vs_vcd_reader.specs.Stops.{IsReportedAt};

use crate::fault::VcdFault;
use crate::parts::{declaration_goes_on, top_goes_on};
use crate::text::first_line;
use crate::ticks::tick_goes_on;
use std::alloc::Global;
use vs_design::{ScopeKind, TimeSpan};
use vs_vcd_lines::{Declaration, begins, declaration_of, is_same, scope_of, span_of};

/// Whether a declaration may stand where a variable may or may not.
fn may_occur(own: bool, declaration: &Declaration) -> bool
    ensures { IsTrue result ↔ MayOccur own declaration.now }
{
    match declaration {
        Declaration::Variable(_) => own,
        Declaration::Scope(_, _) => true,
        Declaration::Upscope => true,
    }
}

/// How many scopes are open after a declaration.
fn depth_after(depth: usize, declaration: &Declaration) -> usize
    requires some { 0 < depth }
    requires most { depth < 2 ^ 63 }
    ensures { result ≡ depth_with depth declaration.now }
{
    match declaration {
        Declaration::Scope(_, _) => depth + 1,
        Declaration::Variable(_) => depth,
        Declaration::Upscope => depth - 1,
    }
}

/// Whether a variable may stand after a declaration.
fn own_after(own: bool, declaration: &Declaration) -> bool
    ensures { result ≡ own_with own declaration.now }
{
    match declaration {
        Declaration::Scope(_, _) => true,
        Declaration::Variable(_) => own,
        Declaration::Upscope => false,
    }
}

/// Puts the size of a declared variable to those of the earlier ones.
fn push_width(widths: &mut Vec<u32>, declaration: &Declaration) -> Result<(), VcdFault>
    ensures { MatchResult result
        (λ _. widths.new.items ≡ widths.old.items ++ widths_of (plain_declaration declaration.now ∷ [])) (λ f. f ≡ Memory) }
{
    match declaration {
        Declaration::Variable(variable) => widths.push(variable.width)?,
        Declaration::Scope(_, _) => {}
        Declaration::Upscope => {}
    }
    Ok(())
}

/// The declarations as they are read.
#[derive(Drop)]
pub(crate) struct Header {
    /// Those so far.
    pub declarations: Vec<Declaration>,
    /// The sizes of their variables in bits.
    pub widths: Vec<u32>,
    /// How many scopes are open.
    pub depth: usize,
    /// Whether a variable may stand next.
    pub own: bool,
}

impl Header {
    /// Takes the next declaration.
    fn take(&mut self, declaration: Declaration) -> Result<(), VcdFault>
        requires deep { 0 < self.old.depth }
        requires fits { MayOccur self.old.own declaration }
        requires good { IsDeclaration declaration }
        requires kept { IsHeader self.old }
        ensures { MatchResult result (λ _. IsExtendedBy self.old declaration self.new) (λ f. f ≡ Memory) }
    {
        push_width(&mut self.widths, &declaration)?;
        self.depth = depth_after(self.depth, &declaration);
        self.own = own_after(self.own, &declaration);
        self.declarations.push(declaration)?;
        Ok(())
    }

    /// Reads the next line of the declarations.
    fn line(&mut self, alloc: Global, line: &[u8]) -> Result<(), VcdFault>
        requires deep { 0 < self.old.depth }
        requires kept { IsHeader self.old }
        ensures { MatchResult result (λ _. Goes self.old line.now self.new) (λ f. IsHeaderFault self.old line.now f) }
    {
        let number = self.widths.len();
        let Some(declaration) = declaration_of(alloc, line, number)? else {
            return Err(VcdFault::Header);
        };
        let fits = may_occur(self.own, &declaration);
        if !fits {
            return Err(VcdFault::Header);
        }
        self.take(declaration)
    }
}

/// What is told of a last line of the header that isn't ended, by whether it goes on to a line that can stand there.
fn header_end(goes_on: bool) -> VcdFault
    ensures cut { IsTrue goes_on → result ≡ Cut }
    ensures bad { goes_on ≡ false → result ≡ HeaderFault }
{
    if goes_on {
        VcdFault::Cut
    } else {
        VcdFault::Header
    }
}

/// What a tick stands for, by the first line of a text, and what stands after that line.
pub(crate) fn read_tick(text: &[u8]) -> Result<(TimeSpan, &[u8]), VcdFault>
    ensures { MatchResult result (λ r. text.now ≡ text_from (i.Tick r.0 ∷ []) ++ r.1.now) (λ f. IsReportedAt p.Start text.now f) }
{
    let Some((line, rest)) = first_line(text) else {
        let goes_on = tick_goes_on(text);
        return Err(header_end(goes_on));
    };
    match span_of(line) {
        Some(tick) => Ok((tick, rest)),
        None => Err(VcdFault::Header),
    }
}

/// The line of the top module, and what stands after it.
fn read_top(alloc: Global, text: &[u8]) -> Result<(Header, &[u8]), VcdFault>
    ensures { MatchResult result (λ r. IsBegun text.now r.0 r.1.now) (λ f. IsReportedAt p.Top text.now f) }
{
    let Some((line, rest)) = first_line(text) else {
        let goes_on = top_goes_on(text);
        return Err(header_end(goes_on));
    };
    let Some((kind, name)) = scope_of(line) else {
        return Err(VcdFault::Header);
    };
    let top = kind == ScopeKind::Module;
    if !top {
        return Err(VcdFault::Header);
    }
    let mut declarations = Vec::new(alloc);
    declarations.push(Declaration::Scope(kind, Vec::from_slice(alloc, name)?))?;
    let widths = Vec::new(alloc);
    Ok((
        Header {
            declarations,
            widths,
            depth: 1,
            own: true,
        },
        rest,
    ))
}

/// The lines of the declarations and the one that ends the header, and what stands after them.
pub(crate) fn read_header(alloc: Global, text: &[u8]) -> Result<(Header, &[u8]), VcdFault>
    ensures { MatchResult result (λ r. IsClosed text.now r.0 r.1.now) (λ f. IsReportedAt p.Top text.now f) }
{
    let (mut header, mut rest) = read_top(alloc, text)?;
    while header.depth > 0 {
        let Some((line, after)) = first_line(rest) else {
            let goes_on = declaration_goes_on(rest, header.widths.len(), header.own);
            return Err(header_end(goes_on));
        };
        header.line(alloc, line)?;
        rest = after;
    }
    let Some((line, after)) = first_line(rest) else {
        let goes_on = begins(rest, b"$enddefinitions $end");
        return Err(header_end(goes_on));
    };
    let ends = is_same(line, b"$enddefinitions $end");
    if !ends {
        return Err(VcdFault::Header);
    }
    Ok((header, after))
}
