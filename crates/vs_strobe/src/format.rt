//! Formats.
ghost use Rattle.std.specs.Prelude.{◌≡◌, ◌<◌, ◌≤◌, ◌^◌, None, length, IfOk, MatchResult};
ghost use Rattle.vs_strobe.specs.Pieces.{format_fault, Refuses};
ghost use Rattle.vs_strobe.specs.Lines.{format_of, format_of_call};

use crate::fault::FormatFault;
use crate::piece::{FormatPiece, any_pieces, checked_pieces};
use std::alloc::{AllocError, Global};
use std::marker::Model;
use vs_design::{Call, FormatArg};

/// What a `$display` or `$strobe` prints: its text, read once, and its arguments.
pub struct Format<'a> {
    pub(crate) pieces: Vec<FormatPiece>,
    pub(crate) args: &'a [FormatArg],
    pub(crate) path: &'a [u8],
    /// How many ticks a unit of time is.
    pub(crate) ratio: u64,
    pub(crate) ghost scaled: { (0 < ratio) × (ratio ≤ 10 ^ 17) },
}

impl Drop for Format<'_> {
    fn drop(self) {
        let Self {
            pieces: _,
            args: _,
            path: _,
            ratio: _,
        } = self;
    }
}

impl<'a> Model for Format<'a> {
    ghost use Rattle.std.specs.Coded.{codes};
    ghost use Rattle.vs_design.specs.contracts.expression.Typed as expression;
    ghost use Rattle.vs_strobe.specs.Lines.{Format};

    ghost Value = { Format };

    ghost coded = { Prim.hlevel (codes, expression.the_row.coded) };

    ghost view = { λ f. record { pieces = f.pieces.items; args = f.args.now; path = f.path.now; ratio = f.ratio } };
}

impl<'a> Format<'a> {
    /// Reads the bytes of a text (IEEE 1364-2005, clause 17.1.1). `path` is what `%m` prints, `ratio` how many ticks a unit of time is, at
    /// most 10^17: 100 s of 1 fs.
    pub fn read(
        alloc: Global,
        text: &[u8],
        args: &'a [FormatArg],
        path: &'a [u8],
        ratio: u64,
    ) -> Result<Self, FormatFault>
        requires some { 0 < ratio }
        requires most { ratio ≤ 10 ^ 17 }
        ensures read { IfOk result (λ f. f ≡ format_of text.now args.entry.now path.entry.now ratio) }
        ensures fault { MatchResult result (λ _. format_fault text.now (length args.entry.now) ≡ None)
            (Refuses (format_fault text.now (length args.entry.now))) }
    {
        let pieces = checked_pieces(alloc, text, args.len())?;
        Ok(Format {
            pieces,
            args,
            path,
            ratio,
        })
    }

    /// The format of a call, whose text need not be one that `read` takes: of a text with a bad directive nothing is printed, a directive without an
    /// argument prints nothing, and surplus arguments aren't shown.
    pub fn of(alloc: Global, call: &'a Call) -> Result<Self, AllocError>
        ensures { IfOk result (λ f. f ≡ format_of_call call.entry.now) }
    {
        let pieces = any_pieces(alloc, &call.text)?;
        Ok(Format {
            pieces,
            args: &call.args,
            path: &call.path,
            ratio: call.ratio,
        })
    }
}
