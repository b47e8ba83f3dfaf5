//! One walk over the tokens of a source that the grammar derives: its regions and landmarks.
//!
//! The walk keeps the frames that are open, and what the tokens up to the end of an item are. It trusts the grammar: of tokens that derive no source it makes
//! some outline, whose landmarks are tokens all the same.

use crate::frames::{Frame, FrameKind, Mode, declared_by, is_mark, is_word};
use crate::outline::{
    DeclaredKind, Landmark, LandmarkKind, Outline, Piece, PieceKind, Region, RegionKind, UseRole,
};
use std::alloc::{AllocError, Global};
use vs_lexer::{Kind, Mark, Token, Word};

/// A walk.
#[derive(Drop)]
struct Walk {
    outline: Outline,
    frames: Vec<Frame>,
    mode: Mode,
    /// Tokens before this one were seen already.
    next: usize,
    /// How many parentheses, brackets and braces are open, and how many brackets of them.
    depth: usize,
    brackets: usize,
    /// Whether the tokens are a value, or the overrides of an instance.
    in_value: bool,
    /// The last declared name, and what names in a header are.
    name: usize,
    kind: DeclaredKind,
    /// The first token of a statement, a value or connections, and how many `?` in it wait for their `:`.
    piece: usize,
    questions: usize,
    /// Of a process: open frames, `if` without its `else` outside of these, names of a left side, locals, a dump.
    nested: usize,
    choices: usize,
    left_from: usize,
    in_left: bool,
    in_locals: bool,
    in_dump: bool,
}

impl Walk {
    fn new(alloc: Global) -> Walk {
        Walk {
            outline: Outline {
                regions: Vec::new(alloc),
                landmarks: Vec::new(alloc),
                pieces: Vec::new(alloc),
            },
            frames: Vec::new(alloc),
            mode: Mode::Outside,
            next: 0,
            depth: 0,
            brackets: 0,
            in_value: false,
            name: 0,
            kind: DeclaredKind::NetPort,
            piece: 0,
            questions: 0,
            nested: 0,
            choices: 0,
            left_from: 0,
            in_left: false,
            in_locals: false,
            in_dump: false,
        }
    }

    /// The innermost region.
    fn region(&self) -> usize {
        match self.frames.last() {
            Some(frame) => frame.region,
            None => 0,
        }
    }

    fn mark_of(&mut self, kind: LandmarkKind, token: usize, of: usize) -> Result<(), AllocError> {
        let region = self.region();
        self.outline.landmarks.push(Landmark {
            kind,
            region,
            token,
            of,
        })?;
        Ok(())
    }

    fn mark(&mut self, kind: LandmarkKind, token: usize) -> Result<(), AllocError> {
        self.mark_of(kind, token, token)
    }

    /// A piece ends before a token, where it has one.
    fn end_piece(&mut self, kind: PieceKind, end: usize) -> Result<(), AllocError> {
        let first = self.piece;
        if first < end {
            let region = self.region();
            self.outline.pieces.push(Piece {
                kind,
                region,
                first,
                last: end.saturating_sub(1),
            })?;
        }
        self.piece = end;
        Ok(())
    }

    fn push(
        &mut self,
        kind: FrameKind,
        region: usize,
        count: usize,
        token: usize,
    ) -> Result<(), AllocError> {
        self.frames.push(Frame {
            kind,
            region,
            count,
            token,
        })?;
        Ok(())
    }

    /// Opens a region, and a frame of items or statements in it.
    fn open(
        &mut self,
        kind: RegionKind,
        frame: FrameKind,
        name: Option<usize>,
        first: usize,
    ) -> Result<(), AllocError> {
        let (around, number) = match self.frames.last() {
            Some(frame) => (Some(frame.region), frame.count),
            None => (None, 0),
        };
        let region = self.outline.regions.len();
        self.outline.regions.push(Region {
            kind,
            around,
            name,
            number,
            first,
        })?;
        self.push(frame, region, 0, first)
    }

    /// Counts parentheses, brackets and braces.
    fn count_depth(&mut self, mark: Mark) {
        match mark {
            Mark::Open | Mark::OpenBrace => self.depth = self.depth.saturating_add(1),
            Mark::OpenBracket => {
                self.depth = self.depth.saturating_add(1);
                self.brackets = self.brackets.saturating_add(1);
            }
            Mark::Close | Mark::CloseBrace => self.depth = self.depth.saturating_sub(1),
            Mark::CloseBracket => {
                self.depth = self.depth.saturating_sub(1);
                self.brackets = self.brackets.saturating_sub(1);
            }
            _ => {}
        }
    }

    /// What comes after the end of an item or of what a construct generates, whose last token this is.
    fn complete(&mut self, tokens: &[Token], index: usize) {
        self.in_value = false;
        for _ in 0..self.frames.len() {
            let Some(frame) = self.frames.pop() else {
                break;
            };
            if frame.kind == FrameKind::Items {
                let _ = self.frames.push(frame);
                self.mode = Mode::Items;
                return;
            }
            let next = index.saturating_add(1);
            if frame.kind == FrameKind::Branch && is_word(tokens, next, Word::Else) {
                let _ = self.frames.push(Frame {
                    kind: FrameKind::Otherwise,
                    ..frame
                });
                self.next = index.saturating_add(2);
                self.mode = Mode::Content;
                return;
            }
        }
        self.mode = Mode::Outside;
    }

    /// The first token of a module, a directive apart.
    fn step_outside(&mut self, tokens: &[Token], index: usize) -> Result<(), AllocError> {
        if !is_word(tokens, index, Word::Module) {
            return Ok(());
        }
        let name = index.saturating_add(1);
        self.open(RegionKind::Module, FrameKind::Items, Some(name), index)?;
        self.next = index.saturating_add(2);
        self.mode = Mode::Header;
        self.kind = DeclaredKind::NetPort;
        self.in_value = false;
        Ok(())
    }

    /// A name in the header of a module.
    fn name_in_header(&mut self, index: usize) -> Result<(), AllocError> {
        if self.depth == 1 && !self.in_value {
            self.name = index;
            return self.mark(LandmarkKind::Declared(self.kind), index);
        }
        self.mark(LandmarkKind::Used(UseRole::Read), index)
    }

    /// A mark in the header of a module.
    fn mark_in_header(&mut self, mark: Mark) -> Result<(), AllocError> {
        match mark {
            Mark::Hash => self.kind = DeclaredKind::Constant,
            Mark::Comma if self.depth == 1 => self.in_value = false,
            Mark::Assign if self.depth == 1 => {
                self.in_value = true;
                if self.kind != DeclaredKind::Constant {
                    return self.mark(LandmarkKind::Process, self.name);
                }
            }
            Mark::Close if self.depth == 0 => {
                self.kind = DeclaredKind::NetPort;
                self.in_value = false;
            }
            Mark::Semicolon if self.depth == 0 => self.mode = Mode::Items,
            _ => {}
        }
        Ok(())
    }

    fn step_header(&mut self, token: &Token, index: usize) -> Result<(), AllocError> {
        match token.kind {
            Kind::Name => self.name_in_header(index),
            Kind::Mark(mark) => self.mark_in_header(mark),
            Kind::Word(word) => {
                self.word_in_header(word);
                Ok(())
            }
            _ => Ok(()),
        }
    }

    /// A word in the header of a module: what the ports after it are.
    fn word_in_header(&mut self, word: Word) {
        if self.kind == DeclaredKind::Constant {
            return;
        }
        match word {
            Word::Input | Word::Output => self.kind = DeclaredKind::NetPort,
            Word::Reg | Word::Integer => self.kind = DeclaredKind::VariablePort,
            _ => {}
        }
    }

    /// Begins a generate construct.
    fn begin_construct(&mut self, kind: FrameKind, index: usize) -> Result<(), AllocError> {
        self.mark(LandmarkKind::Construct, index)?;
        let region = self.region();
        let mut number = 0usize;
        if let Some(frame) = self.frames.last_mut() {
            frame.count = frame.count.saturating_add(1);
            number = frame.count;
        }
        self.mode = Mode::Condition;
        self.push(kind, region, number, index)
    }

    /// The first word of an item.
    fn word_of_item(
        &mut self,
        tokens: &[Token],
        word: Word,
        index: usize,
    ) -> Result<(), AllocError> {
        if let Some((kind, runs)) = declared_by(word) {
            self.mode = Mode::Declaration(kind, runs);
            return Ok(());
        }
        match word {
            Word::Assign => {
                self.mode = Mode::Assigns;
                self.in_left = true;
                self.mark(LandmarkKind::Assign, index.saturating_add(1))
            }
            Word::Initial | Word::Always => {
                self.mode = Mode::Process;
                self.nested = 0;
                self.choices = 0;
                self.begin_statement(index);
                self.mark(LandmarkKind::Process, index)
            }
            Word::For => self.begin_construct(FrameKind::Loop, index),
            Word::If => self.begin_construct(FrameKind::Branch, index),
            Word::End | Word::Endmodule => {
                let _frame = self.frames.pop();
                self.complete(tokens, index);
                Ok(())
            }
            _ => Ok(()),
        }
    }

    /// The first token of an item.
    fn step_items(
        &mut self,
        tokens: &[Token],
        token: &Token,
        index: usize,
    ) -> Result<(), AllocError> {
        match token.kind {
            Kind::Word(word) => self.word_of_item(tokens, word, index),
            Kind::Name => {
                self.mode = Mode::Instances(index);
                Ok(())
            }
            _ => Ok(()),
        }
    }

    /// A token of a declaration.
    fn step_declaration(
        &mut self,
        tokens: &[Token],
        token: &Token,
        index: usize,
    ) -> Result<(), AllocError> {
        let Mode::Declaration(kind, runs) = self.mode else {
            return Ok(());
        };
        match token.kind {
            Kind::Name if self.depth == 0 && !self.in_value => {
                self.name = index;
                self.mark(LandmarkKind::Declared(kind), index)
            }
            Kind::Name => self.mark(LandmarkKind::Used(UseRole::Read), index),
            Kind::Word(Word::Reg) | Kind::Word(Word::Integer) if kind == DeclaredKind::NetPort => {
                self.mode = Mode::Declaration(DeclaredKind::VariablePort, runs);
                Ok(())
            }
            Kind::Mark(Mark::OpenBracket) if !self.in_value && self.depth == 1 => {
                self.mark(LandmarkKind::Constant, index)
            }
            Kind::Mark(Mark::Comma) if self.depth == 0 => {
                self.end_value(kind, index)?;
                self.in_value = false;
                Ok(())
            }
            Kind::Mark(Mark::Assign) if self.depth == 0 => self.begin_value(kind, runs, index),
            Kind::Mark(Mark::Semicolon) if self.depth == 0 => {
                self.end_value(kind, index)?;
                self.complete(tokens, index);
                Ok(())
            }
            _ => Ok(()),
        }
    }

    /// The end of a value in a declaration, where there is one, and it is none of a parameter.
    fn end_value(&mut self, kind: DeclaredKind, index: usize) -> Result<(), AllocError> {
        if self.in_value && kind != DeclaredKind::Constant {
            return self.end_piece(PieceKind::Value, index);
        }
        Ok(())
    }

    /// The `=` of a declaration.
    fn begin_value(
        &mut self,
        kind: DeclaredKind,
        runs: bool,
        index: usize,
    ) -> Result<(), AllocError> {
        self.in_value = true;
        self.piece = index.saturating_add(1);
        if runs {
            return self.mark(LandmarkKind::Process, self.name);
        }
        if kind == DeclaredKind::Net {
            return self.mark(LandmarkKind::Assign, self.name);
        }
        Ok(())
    }

    /// A token of an `assign`.
    fn step_assigns(
        &mut self,
        tokens: &[Token],
        token: &Token,
        index: usize,
    ) -> Result<(), AllocError> {
        match token.kind {
            Kind::Name => {
                let role = if !self.in_left {
                    UseRole::Read
                } else if self.brackets > 0 {
                    UseRole::DrivenIndex
                } else {
                    UseRole::Driven
                };
                self.mark(LandmarkKind::Used(role), index)
            }
            Kind::Mark(Mark::Assign) if self.depth == 0 => {
                self.in_left = false;
                self.piece = index.saturating_add(1);
                Ok(())
            }
            Kind::Mark(Mark::Comma) if self.depth == 0 && !self.in_left => {
                self.end_piece(PieceKind::Value, index)?;
                self.in_left = true;
                self.mark(LandmarkKind::Assign, index.saturating_add(1))
            }
            Kind::Mark(Mark::Semicolon) if self.depth == 0 => {
                self.end_piece(PieceKind::Value, index)?;
                self.complete(tokens, index);
                Ok(())
            }
            _ => Ok(()),
        }
    }

    /// A token of an item with instances.
    fn step_instances(
        &mut self,
        tokens: &[Token],
        token: &Token,
        index: usize,
    ) -> Result<(), AllocError> {
        let Mode::Instances(module) = self.mode else {
            return Ok(());
        };
        match token.kind {
            Kind::Name if self.depth == 0 => self.mark_of(LandmarkKind::Instance, index, module),
            Kind::Name if is_mark(tokens, index.saturating_sub(1), Mark::Dot) => Ok(()),
            Kind::Name if self.in_value => self.mark(LandmarkKind::Used(UseRole::Read), index),
            Kind::Name => self.mark(LandmarkKind::Used(UseRole::Connected), index),
            Kind::Mark(Mark::Hash) => {
                self.in_value = true;
                Ok(())
            }
            Kind::Mark(Mark::Open) if self.depth == 1 => {
                self.piece = index.saturating_add(1);
                Ok(())
            }
            Kind::Mark(Mark::Close) if self.depth == 0 => {
                if !self.in_value {
                    self.end_piece(PieceKind::Connections, index)?;
                }
                self.in_value = false;
                Ok(())
            }
            Kind::Mark(Mark::Semicolon) if self.depth == 0 => {
                self.complete(tokens, index);
                Ok(())
            }
            _ => Ok(()),
        }
    }

    /// A token of the condition of a generate construct.
    fn step_condition(&mut self, token: &Token, index: usize) -> Result<(), AllocError> {
        match token.kind {
            Kind::Name => self.mark(LandmarkKind::Used(UseRole::Read), index),
            Kind::Mark(Mark::Close) if self.depth == 0 => {
                self.mode = Mode::Content;
                Ok(())
            }
            _ => Ok(()),
        }
    }

    /// The first token of what a construct generates.
    fn step_content(
        &mut self,
        tokens: &[Token],
        token: &Token,
        index: usize,
    ) -> Result<(), AllocError> {
        let is_choice = match self.frames.last() {
            Some(frame) => frame.kind != FrameKind::Loop,
            None => false,
        };
        match token.kind {
            Kind::Mark(Mark::Semicolon) => {
                self.complete(tokens, index);
                Ok(())
            }
            Kind::Word(Word::Begin) => {
                self.mode = Mode::Items;
                self.open_block(tokens, RegionKind::Generated, FrameKind::Items, index)
            }
            Kind::Word(Word::If) if is_choice => {
                let number = match self.frames.last() {
                    Some(frame) => frame.count,
                    None => 0,
                };
                let region = self.region();
                self.mode = Mode::Condition;
                self.push(FrameKind::Branch, region, number, index)
            }
            _ => {
                self.mode = Mode::Items;
                self.open(RegionKind::Generated, FrameKind::Single, None, index)?;
                self.step_items(tokens, token, index)
            }
        }
    }

    /// A `begin` with a region of its own, with its name where it has one.
    fn open_block(
        &mut self,
        tokens: &[Token],
        kind: RegionKind,
        frame: FrameKind,
        index: usize,
    ) -> Result<(), AllocError> {
        if is_mark(tokens, index.saturating_add(1), Mark::Colon) {
            let name = index.saturating_add(2);
            self.next = index.saturating_add(3);
            return self.open(kind, frame, Some(name), index);
        }
        self.open(kind, frame, None, index)
    }

    /// What comes after a token may be a left side.
    fn begin_statement(&mut self, index: usize) {
        self.piece = index.saturating_add(1);
        self.questions = 0;
        self.left_from = self.outline.landmarks.len();
        self.in_left = true;
        self.in_dump = false;
    }

    /// The names since the statement began that may be written are so used.
    fn settle_left(&mut self, role: UseRole) {
        for index in self.left_from..self.outline.landmarks.len() {
            if let Some(mark) = self.outline.landmarks.get_mut(index) {
                if mark.kind == LandmarkKind::Used(UseRole::Driven) {
                    mark.kind = LandmarkKind::Used(role);
                }
            }
        }
    }

    /// The names since the statement began, those of indices apart, are written.
    fn end_left(&mut self) {
        self.in_left = false;
        self.settle_left(UseRole::Written);
    }

    /// The names since the statement began are no left side.
    fn leave_left(&mut self) {
        self.settle_left(UseRole::Read);
    }

    /// The last token of a statement, which may be the last one of its process.
    fn end_statement(&mut self, tokens: &[Token], index: usize) {
        self.leave_left();
        self.begin_statement(index);
        if self.nested > 0 {
            return;
        }
        let goes_on = is_word(tokens, index.saturating_add(1), Word::Else);
        if goes_on && self.choices > 0 {
            return;
        }
        self.complete(tokens, index);
    }

    /// Closes a `begin` or a `case` of a process.
    fn close_statements(&mut self, tokens: &[Token], index: usize) {
        let _frame = self.frames.pop();
        self.nested = self.nested.saturating_sub(1);
        self.end_statement(tokens, index);
    }

    /// Opens a `begin` of a process.
    fn begin_statements(&mut self, tokens: &[Token], index: usize) -> Result<(), AllocError> {
        self.nested = self.nested.saturating_add(1);
        if is_mark(tokens, index.saturating_add(1), Mark::Colon) {
            let frame = FrameKind::Statements;
            self.open_block(tokens, RegionKind::Named, frame, index)?;
        } else {
            let region = self.region();
            self.push(FrameKind::Statements, region, 0, index)?;
        }
        self.begin_statement(self.next.saturating_sub(1).max(index));
        Ok(())
    }

    /// A word in a process.
    fn word_in_process(
        &mut self,
        tokens: &[Token],
        word: Word,
        index: usize,
    ) -> Result<(), AllocError> {
        match word {
            Word::Begin => self.begin_statements(tokens, index),
            Word::Case | Word::Casex | Word::Casez => {
                self.mark(LandmarkKind::Case, index)?;
                self.nested = self.nested.saturating_add(1);
                let region = self.region();
                self.push(FrameKind::Statements, region, 0, index)
            }
            Word::End | Word::Endcase => {
                self.close_statements(tokens, index);
                Ok(())
            }
            Word::Default => {
                self.begin_statement(index);
                let of = match self.frames.last() {
                    Some(frame) => frame.token,
                    None => index,
                };
                self.mark_of(LandmarkKind::Default, index, of)
            }
            _ => {
                self.short_word_in_process(word, index);
                Ok(())
            }
        }
    }

    /// A word in a process that opens and closes nothing.
    fn short_word_in_process(&mut self, word: Word, index: usize) {
        match word {
            Word::If if self.nested == 0 => self.choices = self.choices.saturating_add(1),
            Word::Else => {
                if self.nested == 0 {
                    self.choices = self.choices.saturating_sub(1);
                }
                self.begin_statement(index);
            }
            Word::Reg | Word::Integer => self.in_locals = true,
            Word::Forever => self.begin_statement(index),
            _ => {}
        }
    }

    /// A mark in a process.
    fn mark_in_process(
        &mut self,
        tokens: &[Token],
        mark: Mark,
        index: usize,
    ) -> Result<(), AllocError> {
        let next = index.saturating_add(1);
        match mark {
            Mark::Semicolon if self.depth == 0 && self.in_locals => {
                self.in_locals = false;
                self.begin_statement(index);
            }
            Mark::Semicolon if self.depth == 0 => {
                self.end_piece(PieceKind::Statement, next)?;
                self.end_statement(tokens, index);
            }
            Mark::Assign | Mark::LessEqual if self.depth == 0 && self.in_left => self.end_left(),
            Mark::Question if self.depth == 0 => {
                self.questions = self.questions.saturating_add(1);
            }
            Mark::Colon if self.depth == 0 => return self.colon_in_process(index),
            Mark::Close if self.depth == 0 && self.in_left => {
                self.end_piece(PieceKind::Header, next)?;
                self.leave_left();
                self.begin_statement(index);
            }
            Mark::Hash => return self.mark(LandmarkKind::Constant, index),
            _ => {}
        }
        Ok(())
    }

    /// A colon in a process: that of a `? :`, or of an item of a `case`.
    fn colon_in_process(&mut self, index: usize) -> Result<(), AllocError> {
        self.leave_left();
        if self.questions > 0 {
            self.questions = self.questions.saturating_sub(1);
            return Ok(());
        }
        self.end_piece(PieceKind::Label, index)?;
        self.begin_statement(index);
        Ok(())
    }

    /// A name in a process.
    fn name_in_process(&mut self, tokens: &[Token], index: usize) -> Result<(), AllocError> {
        let before = index.saturating_sub(1);
        if self.in_dump {
            return Ok(());
        }
        if self.in_locals && self.depth == 0 {
            return self.mark(LandmarkKind::Declared(DeclaredKind::Variable), index);
        }
        let waits = is_mark(tokens, before, Mark::Hash) || is_mark(tokens, before, Mark::At);
        let role = if self.in_left && self.brackets == 0 && !waits {
            UseRole::Driven
        } else {
            UseRole::Read
        };
        self.mark(LandmarkKind::Used(role), index)
    }

    /// A token of a process.
    fn step_process(
        &mut self,
        tokens: &[Token],
        token: &Token,
        index: usize,
    ) -> Result<(), AllocError> {
        match token.kind {
            Kind::Word(word) => self.word_in_process(tokens, word, index),
            Kind::Mark(mark) => self.mark_in_process(tokens, mark, index),
            Kind::Name => self.name_in_process(tokens, index),
            Kind::System => {
                self.in_dump = token.bytes.starts_with(b"$dump");
                self.mark(LandmarkKind::Print, index)
            }
            _ => Ok(()),
        }
    }

    /// One token.
    fn step(&mut self, tokens: &[Token], token: &Token, index: usize) -> Result<(), AllocError> {
        if index < self.next {
            return Ok(());
        }
        if let Kind::Mark(mark) = token.kind {
            self.count_depth(mark);
        }
        match self.mode {
            Mode::Outside => self.step_outside(tokens, index),
            Mode::Header => self.step_header(token, index),
            Mode::Items => self.step_items(tokens, token, index),
            Mode::Declaration(_, _) => self.step_declaration(tokens, token, index),
            Mode::Assigns => self.step_assigns(tokens, token, index),
            Mode::Instances(_) => self.step_instances(tokens, token, index),
            Mode::Condition => self.step_condition(token, index),
            Mode::Content => self.step_content(tokens, token, index),
            Mode::Process => self.step_process(tokens, token, index),
        }
    }
}

/// The outline of the tokens of a source. Linear in them.
pub fn outline_of(alloc: Global, tokens: &[Token]) -> Result<Outline, AllocError> {
    let mut walk = Walk::new(alloc);
    for (index, token) in tokens.iter().enumerate() {
        walk.step(tokens, token, index)?;
    }
    let Walk { outline, .. } = walk;
    Ok(outline)
}
