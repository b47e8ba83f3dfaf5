//! A design made by hand, of which dumps and lines are made.
ghost use Rattle.std.specs.Prelude.{◌≡◌, ◌<◌, ◌≤◌, ◌^◌, IfOk};
ghost use Rattle.vs_rows_units.specs.ThreeSignals.{AreSignals, IsOutline};

use std::alloc::{AllocError, Global};
use std::process::Abort;
use vs_design::vs_logic4::Vec4;
use vs_design::{
    Aim, Bounds, DEFAULT_TIMESCALE, Design, Entry, Magnitude, Part, ScopeKind, Signal, SignalKind,
    Slice, Store, Target, TimeSpan, TimeUnit, Timescale, Write,
};

fn variable(
    alloc: Global,
    path: &[u8],
    width: u32,
    range: Option<Bounds>,
    words: Option<Bounds>,
    count: u32,
) -> Result<Signal, AllocError>
    requires sized { (0 < width) × (width ≤ 64) }
    requires counted { (0 < count) × (count ≤ 2 ^ 16) }
    ensures { IfOk result (λ s. s.path.items ≡ path.now) }
{
    let name = if path.len() > 2 { &path[2..] } else { path };
    Ok(Signal {
        name: Vec::from_slice(alloc, name)?,
        path: Vec::from_slice(alloc, path)?,
        kind: SignalKind::Reg,
        width,
        signed: false,
        range,
        words,
        count,
    })
}

fn outline(alloc: Global) -> Result<Vec<Entry>, AllocError>
    ensures { IfOk result (λ o. IsOutline o.items) }
{
    let name = Vec::from_slice(alloc, b"t")?;
    Ok(vec![in alloc;
        Entry::Enter(ScopeKind::Module, name),
        Entry::Declare(0),
        Entry::Declare(1),
        Entry::Declare(2),
        Entry::Leave,
    ]?)
}

// A tick is 10 ps.
fn ten_picoseconds() -> Timescale {
    let precision = TimeSpan {
        magnitude: Magnitude::Ten,
        unit: TimeUnit::Picosecond,
    };
    Timescale {
        unit: DEFAULT_TIMESCALE.unit,
        precision,
    }
}

// The array `m`, the variable `a` of one bit and the variable `b` of so many.
fn signals(alloc: Global, width: u32, range: Bounds) -> Result<Vec<Signal>, AllocError>
    requires { (0 < width) × (width ≤ 64) }
    ensures { IfOk result (λ s. AreSignals s.items) }
{
    let words = Bounds { left: 0, right: 7 };
    let m = variable(alloc, b"t.m", 8, None, Some(words), 8)?;
    let a = variable(alloc, b"t.a", 1, None, None, 1)?;
    let b = variable(alloc, b"t.b", width, Some(range), None, 1)?;
    Ok(vec![in alloc; m, a, b]?)
}

// A module `t` with these signals; a tick is 10 ps.
fn three_signals_of(alloc: Global, width: u32, range: Bounds) -> Result<Design, AllocError>
    requires { (0 < width) × (width ≤ 64) }
{
    let signals = signals(alloc, width, range)?;
    let outline = outline(alloc)?;
    let (assigns, processes) = (Vec::new(alloc), Vec::new(alloc));
    Design::new(
        alloc,
        ten_picoseconds(),
        signals,
        assigns,
        processes,
        outline,
    )
}

// The module whose variable `b` is `b [63:0]` where it is wide, else `b [-1:2]`.
pub fn three_signals(alloc: Global, wide: bool) -> Result<Design, AllocError> {
    if wide {
        return three_signals_of(alloc, 64, Bounds { left: 63, right: 0 });
    }
    three_signals_of(alloc, 4, Bounds { left: -1, right: 2 })
}

/// The variable `a`, as what an assignment is made to.
pub fn target_a(rt: &impl Abort, alloc: Global) -> Target {
    let bit = Slice {
        signal: 1,
        word: 0,
        low: 0,
        width: 1,
    };
    let mut parts = Vec::new(alloc);
    parts.push(Aim::Fixed(bit)).expect(rt, "memory");
    Target { parts, width: 1 }
}

// Writes a whole signal.
pub fn put(
    alloc: Global,
    store: &mut Store,
    signal: usize,
    digits: Vec4,
) -> Result<(), AllocError> {
    let mut write = Write::new(alloc);
    write.push(Part {
        signal,
        word: 0,
        low: 0,
        digits,
    })?;
    store.put(&write);
    Ok(())
}
