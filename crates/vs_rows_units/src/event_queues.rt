//! Both queues over the same calls, and refused memory.
ghost use Rattle.std.specs.Prelude.{◌≡◌, ◌<◌, ◌≤◌, []};

use std::alloc::Global;
use std::process::Abort;
use vs_time_wheel::{EventQueue, ListQueue, QueueAnswer, QueueCall, Wheel, replay, same_answers};

// A linear congruential generator of 64 bits.
fn next_random(state: u64) -> u64 {
    state
        .wrapping_mul(6364136223846793005)
        .wrapping_add(1442695040888963407)
}

// Takes the oldest event of the least time.
fn take_next<Q: EventQueue<u64>>(queue: &mut Q) -> Option<(u64, u64)> {
    let time = queue.next_time()?;
    let event = queue.take_due(time)?;
    Some((time, event))
}

// Schedules an event, and once more where it was refused and came back.
fn insist<Q: EventQueue<u64>>(queue: &mut Q, time: u64, event: u64) -> bool
    requires { Q.clock queue.old ≤ time }
{
    match queue.schedule(time, event) {
        Ok(()) => true,
        Err(full) => full.event == event && queue.schedule(time, full.event).is_ok(),
    }
}

// Of 6000 calls one of the first 3000 schedules an event where a random number says so, and any other takes one: that one, with its time.
fn call<Q: EventQueue<u64>>(
    rt: &impl Abort,
    queue: &mut Q,
    number: u64,
    random: u64,
    delays: u64,
) -> Option<(u64, u64)>
    requires { 0 < delays }
{
    if number >= 3000 || random >> 60 >= 9 {
        return take_next(queue);
    }
    let time = queue.now().saturating_add((random >> 8) % delays);
    assert!(rt; insist(queue, time, number));
    None
}

// Drives two queues alike, with calls in a mixed order: they give the same events at the same times, more than 1000.
fn compare<P: EventQueue<u64>, Q: EventQueue<u64>>(
    rt: &impl Abort,
    plain: &mut P,
    fast: &mut Q,
    delays: u64,
)
    requires { 0 < delays }
{
    let mut random = 1;
    let mut taken = 0u64;
    for number in 0..6000 {
        random = next_random(random);
        let next = call(rt, plain, number, random, delays);
        assert!(rt; call(rt, fast, number, random, delays) == next, "{delays}");
        taken = taken.wrapping_add(u64::from(next.is_some()));
    }
    assert!(rt; taken > 1000);
}

// Times that wrap the wheel, that jump a little, and that jump far.
#[test]
fn mixed_calls(rt: HostRuntime) {
    let mut list = ListQueue::new(rt.alloc());
    let mut wheel = Wheel::new(rt.alloc()).expect(&rt, "memory");
    compare(&rt, &mut list, &mut wheel, 300);
    compare(&rt, &mut list, &mut wheel, 3000);
    compare(&rt, &mut list, &mut wheel, 0x4000_0000_0000);
}

// Three events of time 5, two of time 5 + 256, one of a time far behind.
static CALLS: [QueueCall<u8>; 20] = [
    QueueCall::NextTime,
    QueueCall::Schedule(5, 1),
    QueueCall::Schedule(261, 2),
    QueueCall::Schedule(5, 3),
    QueueCall::Schedule(1000, 4),
    QueueCall::NextTime,
    QueueCall::TakeDue(4),
    QueueCall::TakeDue(5),
    QueueCall::Now,
    QueueCall::TakeDue(5),
    QueueCall::TakeDue(5),
    QueueCall::NextTime,
    QueueCall::Schedule(261, 5),
    QueueCall::TakeDue(261),
    QueueCall::TakeDue(261),
    QueueCall::NextTime,
    QueueCall::TakeDue(1000),
    QueueCall::NextTime,
    QueueCall::TakeDue(5000),
    QueueCall::Now,
];

// What the law says of those calls.
static ANSWERS: [QueueAnswer<u8>; 20] = [
    QueueAnswer::Next(None),
    QueueAnswer::Scheduled,
    QueueAnswer::Scheduled,
    QueueAnswer::Scheduled,
    QueueAnswer::Scheduled,
    QueueAnswer::Next(Some(5)),
    QueueAnswer::Due(None),
    QueueAnswer::Due(Some(1)),
    QueueAnswer::Clock(5),
    QueueAnswer::Due(Some(3)),
    QueueAnswer::Due(None),
    QueueAnswer::Next(Some(261)),
    QueueAnswer::Scheduled,
    QueueAnswer::Due(Some(2)),
    QueueAnswer::Due(Some(5)),
    QueueAnswer::Next(Some(1000)),
    QueueAnswer::Due(Some(4)),
    QueueAnswer::Next(None),
    QueueAnswer::Due(None),
    QueueAnswer::Clock(5000),
];

// A queue answers the calls as the law says.
fn answers_by_the_law<Q: EventQueue<u8>>(rt: &impl Abort, alloc: Global, queue: &mut Q)
    requires empty { Q.bag queue.old ≡ [] }
    requires at_zero { Q.clock queue.old ≡ 0 }
{
    let calls = Vec::from_slice(alloc, &CALLS).expect(rt, "memory");
    let answers = replay(alloc, queue, calls).expect(rt, "memory");
    assert!(rt; answers.as_slice() == ANSWERS.as_slice());
}

// A list and a wheel answer alike, and by the law.
#[test]
fn the_law(rt: HostRuntime) {
    let mut list = ListQueue::new(rt.alloc());
    let mut wheel = Wheel::new(rt.alloc()).expect(&rt, "memory");
    same_answers(&list, &wheel);
    answers_by_the_law(&rt, rt.alloc(), &mut list);
    answers_by_the_law(&rt, rt.alloc(), &mut wheel);
}

// Schedules 500 events, of which some are refused and come back, and takes them: how many were scheduled, and the
// number that the taken ones make.
fn scheduled_and_taken<Q: EventQueue<u64>>(queue: &mut Q) -> (u64, u64) {
    let mut scheduled = 0u64;
    let mut taken = 0u64;
    for number in 0..500u64 {
        let time = queue.now().saturating_add(number * 7 % 600);
        scheduled = scheduled.wrapping_add(u64::from(insist(queue, time, number)));
    }
    for _ in 0..500 {
        if let Some((time, event)) = take_next(queue) {
            taken = taken.wrapping_mul(31).wrapping_add(time ^ event);
        }
    }
    (scheduled, taken)
}

#[test]
fn a_refused_event_comes_back(rt: HostRuntime) {
    let mut list = ListQueue::new(rt.alloc());
    let mut wheel = Wheel::new(rt.alloc()).expect(&rt, "memory");
    let plain = scheduled_and_taken(&mut list);
    assert!(rt; plain.0 == 500 && scheduled_and_taken(&mut wheel) == plain);
}
