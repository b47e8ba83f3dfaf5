//! Copies that nothing sees before a wave of updates is over. Such a wave lasts from where nonblocking updates are activated to the next move of a
//! region. In it these copies may be made at once: in as many moves, to the same states of what is seen. No contract speaks of it.

use crate::forms::{Form, is_whole};
use crate::wave::{Wave, wave_of};
use std::alloc::{AllocError, Global};
use vs_design::{Assign, BitRange, Design, SignalKind, Typed, reads, writes};
use vs_run_active::vs_process::Spot;

/// Copies that may be silent, and the continuous assignments that aren't.
#[derive(Drop)]
struct Candidates {
    /// Of each continuous assignment whether it may be.
    silent: Vec<bool>,
    /// Of each signal the copy that makes it, where one may be silent.
    makers: Vec<Option<usize>>,
    /// Those that aren't, of which it has still to be looked at what they read.
    todo: Vec<usize>,
}

/// Counts a driver of signals: one of a whole signal as one, any other as two.
fn count_driver(drivers: &mut Vec<usize>, ranges: &[BitRange], whole: bool) {
    for range in ranges {
        if let Some(count) = drivers.get_mut(range.signal) {
            *count = count.saturating_add(if whole { 1 } else { 2 });
        }
    }
}

/// Of each signal how many continuous assignments drive it: one that drives not all of it counts as two.
fn drivers_of(alloc: Global, design: &Design, forms: &[Form]) -> Result<Vec<usize>, AllocError> {
    let mut drivers = vec![in alloc; 0; design.signals().len()]?;
    for (number, assign) in design.assigns().iter().enumerate() {
        let whole = match forms.get(number) {
            Some(Form::Copy(spot, _) | Form::Fixed(spot, _)) => is_whole(
                design,
                spot.signal,
                spot.width,
            ),
            Some(Form::Other) | None => false,
        };
        let ranges = writes(alloc, &assign.target)?;
        count_driver(&mut drivers, &ranges, whole);
    }
    Ok(drivers)
}

/// Whether a signal changes in a wave only where its copies are evaluated once for each of its changes: a net that one continuous assignment drives
/// whole, or a variable that nothing but updates writes there.
fn is_steady(design: &Design, wave: &Wave, drivers: &[usize], root: usize) -> bool {
    match design.signals().get(root) {
        Some(s) if s.kind == SignalKind::Wire => matches!(drivers.get(root), Some(1)),
        Some(_) => !wave.is_written(root),
        None => false,
    }
}

/// Whether nothing but continuous assignments sees a copy of a signal in a wave, and the signal is steady.
fn may_be(design: &Design, wave: &Wave, drivers: &[usize], assign: &Assign, spot: &Spot) -> bool {
    let Typed::Signal(root) = &assign.source else {
        return false;
    };
    if !design.listeners(spot.signal).is_empty() || wave.is_used(spot.signal) {
        return false;
    }
    is_steady(design, wave, drivers, root.signal)
}

impl Candidates {
    /// A continuous assignment that may be silent, and the signal that it makes.
    fn add(&mut self, number: usize, signal: usize) -> Result<(), AllocError> {
        self.silent.push(true)?;
        if let Some(maker) = self.makers.get_mut(signal) {
            *maker = Some(number);
        }
        Ok(())
    }

    /// One that isn't.
    fn add_other(&mut self, number: usize) -> Result<(), AllocError> {
        self.silent.push(false)?;
        self.todo.push(number)?;
        Ok(())
    }

    /// The maker of a signal that something sees isn't silent.
    fn take(&mut self, signal: usize) -> Result<(), AllocError> {
        let Some(Some(maker)) = self.makers.get(signal) else {
            return Ok(());
        };
        let maker = *maker;
        if let Some(silent) = self.silent.get_mut(maker)
            && *silent
        {
            *silent = false;
            self.todo.push(maker)?;
        }
        Ok(())
    }

    /// What continuous assignments read that aren't silent is seen.
    fn take_all(&mut self, alloc: Global, design: &Design) -> Result<(), AllocError> {
        for _ in 0..design.assigns().len() {
            let Some(number) = self.todo.pop() else {
                return Ok(());
            };
            if let Some(assign) = design.assigns().get(number) {
                for range in reads(alloc, &assign.source)?.iter() {
                    self.take(range.signal)?;
                }
            }
        }
        Ok(())
    }
}

/// The copies that may be silent by what processes do in a wave.
fn possible(
    alloc: Global,
    design: &Design,
    forms: &[Form],
    wave: &Wave,
) -> Result<Candidates, AllocError> {
    let drivers = drivers_of(alloc, design, forms)?;
    let mut found = Candidates {
        silent: Vec::new(alloc),
        makers: vec![in alloc; None; design.signals().len()]?,
        todo: Vec::new(alloc),
    };
    for (number, assign) in design.assigns().iter().enumerate() {
        match forms.get(number) {
            Some(Form::Copy(spot, _)) if may_be(design, wave, &drivers, assign, spot) => {
                found.add(number, spot.signal)?;
            }
            _ => found.add_other(number)?,
        }
    }
    Ok(found)
}

/// Of each continuous assignment whether it is silent; none of no list.
pub(crate) fn silent_of(
    alloc: Global,
    design: &Design,
    forms: &[Form],
) -> Result<Vec<bool>, AllocError> {
    let wave = wave_of(alloc, design)?;
    if wave.prints() {
        return Ok(Vec::new(alloc));
    }
    let mut found = possible(alloc, design, forms, &wave)?;
    found.take_all(alloc, design)?;
    Ok(found.silent)
}
