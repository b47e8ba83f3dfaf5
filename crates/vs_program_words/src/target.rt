//! What a call leaves to its source.
ghost use Rattle.std.specs.Prelude.{◌≡◌, ℕ, List, [], ◌∷◌, IfOk, IfErr, IfSome, MatchOption, map, option_map, string_bytes};
ghost use Rattle.vs_scopes.specs.Reads.{read_names};
ghost use Rattle.vs_program_words.specs.Tops.{top_modules};
ghost use Rattle.vs_program_words.specs.Targets.{Fails, FailsBy, IsAt, IsMeant, MeansUntil, top_of, until_of};
ghost use Rattle.vs_program_words.specs.FromSource.{GivesTop, IsOf, IsTarget, WantsTop, given_top};
ghost use Rattle.vs_program_words.specs.declared.target.TargetFault.TheVariants.{Memory};

use crate::reading::read_source;
use crate::ticks::{Tick, source_tick, tick_exponent, ticks_in};
use crate::{Call, Hunt, Request, Subcommand, top_modules};
use std::alloc::{AllocError, Global};
use std::str;
use vs_design::Ticks;
use vs_syntax::Source;

/// What a source gives a call that leaves it to it.
#[derive(Drop)]
pub struct Target {
    /// The top module's name, if it is left to the source.
    pub top: Option<String>,
    /// The time up to which a design runs, in ticks.
    pub until: Ticks,
}

/// Why a source doesn't give what a call leaves to it.
#[derive(Drop)]
pub enum TargetFault {
    /// No module, or more than one, is instantiated by none: these.
    Top(Vec<Vec<u8>>),
    /// The time is no whole number of ticks, which stand for this.
    Until(Tick),
    /// A growth of memory was refused.
    Memory,
}

impl From<AllocError> for TargetFault {
    ghost from_gives = { λ _ fault. fault ≡ Memory };

    fn from(_error: AllocError) -> TargetFault {
        TargetFault::Memory
    }
}

/// The top that a subcommand names; nothing where it is left out.
pub fn top_of<'a>(subcommand: Subcommand<'a>) -> &'a str
    ensures { result.now ≡ top_of subcommand.entry }
{
    match subcommand {
        Subcommand::Run(request) => request.top,
        Subcommand::RunCertified(request) => request.top,
        Subcommand::Check(top, _) => top,
        Subcommand::Certify(top, _, _) => top,
        Subcommand::Race(hunt) => hunt.top,
        Subcommand::Elab(top) => top,
        Subcommand::Preprocess => "",
    }
}

// The moment that a subcommand names.
fn until_of(subcommand: Subcommand) -> Ticks
    ensures { result.count ≡ until_of subcommand.entry }
{
    match subcommand {
        Subcommand::Run(request) => request.until,
        Subcommand::RunCertified(request) => request.until,
        Subcommand::Race(hunt) => hunt.until,
        _ => Ticks { count: 0 },
    }
}

// A subcommand, with this top and this moment.
fn subcommand_at<'a>(subcommand: Subcommand<'a>, top: &'a str, until: Ticks) -> Subcommand<'a>
    ensures { IsAt subcommand.entry result top.entry.now until.count }
{
    match subcommand {
        Subcommand::Run(request) => Subcommand::Run(Request {
            top,
            until,
            ..request
        }),
        Subcommand::RunCertified(request) => Subcommand::RunCertified(Request {
            top,
            until,
            ..request
        }),
        Subcommand::Check(_, rules) => Subcommand::Check(top, rules),
        Subcommand::Certify(_, grain, rules) => Subcommand::Certify(top, grain, rules),
        Subcommand::Race(hunt) => Subcommand::Race(Hunt { top, until, ..hunt }),
        Subcommand::Elab(_) => Subcommand::Elab(top),
        Subcommand::Preprocess => Subcommand::Preprocess,
    }
}

// Names, each with its own bytes.
fn owned(alloc: Global, names: &[&[u8]]) -> Result<Vec<Vec<u8>>, AllocError>
    ensures { IfOk result (λ list. map (λ n. n.items) list.items ≡ read_names names.now) }
{
    let mut list = Vec::new(alloc);
    for name in names {
        list.push(Vec::from_slice(alloc, *name)?)?;
    }
    Ok(list)
}

// A name as a text, if it is one.
fn text_of(alloc: Global, name: &[u8]) -> Result<Option<String>, AllocError>
    ensures { IfOk result (λ o. IfSome o (λ text. string_bytes text ≡ name.now)) }
{
    match str::from_utf8(name) {
        Ok(text) => Ok(Some(String::from_str(alloc, text)?)),
        Err(_) => Ok(None),
    }
}

// The one module of a source that none instantiates.
fn found_top(alloc: Global, source: &Source) -> Result<String, TargetFault>
    ensures ok { IfOk result (λ top. top_modules source.now ≡ string_bytes top ∷ []) }
    ensures err { IfErr result (WantsTop source.now) }
{
    let tops = top_modules(alloc, source)?;
    if let [name] = tops.as_slice() {
        if let Some(top) = text_of(alloc, *name)? {
            return Ok(top);
        }
    }
    Err(TargetFault::Top(owned(alloc, &tops)?))
}

// The top that a source gives a call which leaves it to it.
fn top_in(alloc: Global, call: &Call, source: &Source) -> Result<Option<String>, TargetFault>
    ensures ok { IfOk result (λ top. GivesTop source.now call.now.finds_top (option_map (λ t. string_bytes t) top)) }
    ensures err { IfErr result (FailsBy source.now call.now) }
{
    if call.finds_top {
        let top = found_top(alloc, source)?;
        return Ok(Some(top));
    }
    Ok(None)
}

// The moment that a call means by a source.
fn until_in(call: &Call, source: &Source) -> Result<Ticks, TargetFault>
    ensures ok { IfOk result (λ until. MeansUntil source.now call.now.unit (until_of call.now.subcommand) until.count) }
    ensures err { IfErr result (FailsBy source.now call.now) }
{
    let given = until_of(call.subcommand);
    let Some(unit) = call.unit else {
        return Ok(given);
    };
    match ticks_in(given.count, unit, tick_exponent(source)) {
        Some(until) => Ok(until),
        None => Err(TargetFault::Until(source_tick(source))),
    }
}

// What a source gives a call.
fn target_in(alloc: Global, call: &Call, source: &Source) -> Result<Target, TargetFault>
    ensures ok { IfOk result (IsOf source.now call.now.finds_top call.now.unit call.now.subcommand) }
    ensures err { IfErr result (FailsBy source.now call.now) }
{
    let top = top_in(alloc, call, source)?;
    let until = until_in(call, source)?;
    Ok(Target { top, until })
}

/// What the source that a text is gives a call that leaves it to it. A text that is no source gives nothing: then the call fails for that.
pub fn target_of(alloc: Global, call: &Call, text: &[u8]) -> Result<Target, TargetFault>
    ensures ok { IfOk result (IsTarget text.now call.now) }
    ensures err { IfErr result (Fails text.now call.now) }
{
    let given = Target {
        top: None,
        until: until_of(call.subcommand),
    };
    if !call.finds_top && call.unit.is_none() {
        return Ok(given);
    }
    match read_source(alloc, text)? {
        Some(source) => target_in(alloc, call, &source),
        None => Ok(given),
    }
}

// The top that a call means, with what its source gives it.
fn meant_top<'b>(call: &Call<'b>, target: &'b Target) -> &'b str
    ensures { MatchOption (given_top target.entry.now) (result.now ≡ top_of call.now.subcommand) (λ top. result.now ≡ top) }
{
    match &target.top {
        Some(name) => name.as_str(),
        None => top_of(call.subcommand),
    }
}

/// A call, with what its source gives it.
pub fn with_target<'b>(call: Call<'b>, target: &'b Target) -> Call<'b>
    ensures meant { (text : List ℕ) → IsTarget text call.entry target.entry.now → IsMeant text call.entry result.subcommand }
    ensures outputs { result.outputs ≡ call.entry.outputs }
{
    let top = meant_top(&call, target);
    let subcommand = subcommand_at(call.subcommand, top, target.until);
    Call { subcommand, ..call }
}
