//! What waits, slot by slot, with a list and with a wheel.
ghost use Rattle.std.specs.Prelude.{◌≡◌, []};
ghost use Rattle.vs_process.specs.Spots.{IsSpotIn};
ghost use Rattle.vs_run_regions.specs.Updates.{IsIn};

use crate::small_design::{target_a, three_signals};
use std::alloc::{AllocError, Global};
use std::process::Abort;
use std::test::Fail;
use vs_design::vs_logic4::Vec4;
use vs_design::{Design, Part, Write};
use vs_process::{Spot, spot_of};
use vs_run_regions::vs_time_wheel::{EventQueue, ListQueue, Wheel};
use vs_run_regions::{Bits, Due, Regions, Update};

// A write that tells a number: that of the word of its part.
fn numbered(alloc: Global, number: usize) -> Write {
    Write::one(
        alloc,
        Part {
            signal: 0,
            word: number,
            low: 0,
            digits: Vec4::unknown(1),
        },
    )
}

// Pushes an update of a process that is due in so many ticks, with a number.
fn push_late<Q: EventQueue<Due>>(
    rt: &impl Abort,
    alloc: Global,
    regions: &mut Regions<Q>,
    by: usize,
    ticks: u64,
    number: usize,
) -> Result<(), AllocError> {
    let time = regions.time();
    assert!(rt; time < 1 << 62 && 0 < ticks && ticks < 1 << 62);
    regions.push_late(by, time + ticks, numbered(alloc, number))
}

// Pushes an update of bits that is due in the slot, with the number 0.
fn push_bits<'a, Q: EventQueue<Due>>(
    regions: &mut Regions<'a, Q>,
    by: usize,
    spot: &'a Spot,
) -> Result<(), AllocError>
    requires { IsSpotIn regions.old.listed.signals spot.now }
{
    let bits = Bits {
        spot,
        value: 0,
        unknown: 0,
    };
    regions.push_bits(by, bits)
}

// The number of an update.
fn number_of<Q: EventQueue<Due>>(regions: &Regions<Q>, update: Update) -> Option<usize>
    requires { IsIn regions.now.listed.signals regions.now.listed.writes update }
{
    match update {
        Update::Bits(bits) => Some(bits.value as usize),
        Update::Any(i) => {
            let part = regions.write_of(i).parts().first()?;
            Some(part.word)
        }
        Update::Gone => None,
    }
}

// Takes the oldest update: its number.
fn take_first<Q: EventQueue<Due>>(regions: &mut Regions<Q>) -> Option<usize> {
    let update = regions.next()?;
    number_of(regions, update)
}

// Activates the updates that are due, and takes them, the oldest first: they have these numbers.
fn make_due<Q: EventQueue<Due>>(rt: &impl Abort, regions: &mut Regions<Q>, numbers: &[usize]) {
    assert!(rt; !regions.has_active());
    regions.activate();
    assert!(rt; regions.active_len() == numbers.len());
    for number in numbers {
        assert!(rt; take_first(regions) == Some(*number));
    }
}

// Two updates of the first slot around late ones, a process that sleeps, and one that is inactive.
fn begin<'a, Q: EventQueue<Due>>(
    rt: &impl Abort,
    alloc: Global,
    regions: &mut Regions<'a, Q>,
    spot: &'a Spot,
) -> Result<(), AllocError>
    requires { IsSpotIn regions.old.listed.signals spot.now }
{
    push_bits(regions, 1, spot)?;
    push_late(rt, alloc, regions, 2, 300, 1)?;
    regions.push_any(3, numbered(alloc, 2))?;
    push_late(rt, alloc, regions, 4, 44, 3)?;
    push_late(rt, alloc, regions, 5, 300, 4)?;
    let until = regions.time().saturating_add(44);
    regions.sleep(6, until)?;
    regions.wait(7)
}

// The slot ends; in the next one an update that is due 256 ticks later is pushed with a number, and the updates with these numbers are made.
fn next_slot<Q: EventQueue<Due>>(
    rt: &impl Abort,
    alloc: Global,
    regions: &mut Regions<Q>,
    woken: &mut Vec<usize>,
    pushed: usize,
    made: &[usize],
) -> Result<(), AllocError> {
    assert!(rt; !regions.has_active() && !regions.has_due());
    let time = regions.next_time().expect(rt, "another slot");
    regions.advance(time, woken)?;
    push_late(rt, alloc, regions, 8, 256, pushed)?;
    make_due(rt, regions, made);
    Ok(())
}

// The update that is pushed in each slot after the first, and those that are made there.
static LATER_SLOTS: [(usize, &[usize]); 3] = [(5, &[3]), (6, &[1, 4, 5]), (7, &[6])];

// What is made slot by slot, and which processes are woken.
fn some_slots<Q: EventQueue<Due> + Drop>(
    rt: &impl Abort,
    alloc: Global,
    design: &Design,
    spot: &Spot,
    queue: Q,
) -> Result<(), AllocError>
    requires empty { Q.bag queue ≡ [] }
    requires at_zero { Q.clock queue ≡ 0 }
    requires spot { IsSpotIn design.now.signals spot.now }
{
    let mut regions = Regions::start(alloc, design, queue);
    begin(rt, alloc, &mut regions, spot)?;
    let mut woken = Vec::new(alloc);
    assert!(rt; regions.has_inactive());
    regions.rouse(&mut woken);
    make_due(rt, &mut regions, &[0, 2]);
    for (pushed, made) in &LATER_SLOTS {
        next_slot(rt, alloc, &mut regions, &mut woken, *pushed, made)?;
    }
    assert!(rt; woken.as_slice() == [7, 6].as_slice());
    Ok(())
}

#[test]
fn slot_by_slot(rt: HostRuntime) -> Result<(), Fail> {
    let design = three_signals(rt.alloc(), false)?;
    let target = target_a(&rt, rt.alloc());
    let spot = spot_of(&design, &target).expect(&rt, "bits in range");
    some_slots(&rt, rt.alloc(), &design, &spot, ListQueue::new(rt.alloc()))?;
    some_slots(&rt, rt.alloc(), &design, &spot, Wheel::new(rt.alloc())?)?;
    Ok(())
}
