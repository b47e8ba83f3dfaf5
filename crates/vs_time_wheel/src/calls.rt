// Calls of an event queue, as data.
ghost use Rattle.std.specs.Prelude.{◌≡◌, ℕ, ◌≤◌, List, ◌++◌, take, length, IfOk, OnOk, OnErr};
ghost use Rattle.vs_time_wheel.specs.Bag.{SameBag};
ghost use Rattle.vs_time_wheel.specs.Calls.{IsAllowed, answer_of, bag_after, clock_after, IsAfterFirst, AnswerAlike, AreAllowed, answers_of, bag_in_the_end, clock_in_the_end};
ghost use Rattle.vs_time_wheel.specs.declared.calls.QueueCall.{QueueCall};

use crate::law::EventQueue;
use crate::timing::Memory;
use std::alloc::Global;

/// A call of an event queue.
#[derive(Clone, Copy, Drop)]
pub enum QueueCall<E> {
    /// `schedule`: the time in ticks, and the event.
    Schedule(u64, E),
    /// `next_time`.
    NextTime,
    /// `take_due`: the time in ticks.
    TakeDue(u64),
    /// `now`.
    Now,
}

/// The answer to a call.
#[derive(Clone, Copy, PartialEq, Eq, Drop)]
pub enum QueueAnswer<E> {
    /// The event was scheduled.
    Scheduled,
    /// What `next_time` answered.
    Next(Option<u64>),
    /// What `take_due` answered.
    Due(Option<E>),
    /// What `now` answered.
    Clock(u64),
}

// Makes one call.
fn make_call<E: Drop, Q: EventQueue<E>>(
    queue: &mut Q,
    call: QueueCall<E>,
) -> Result<QueueAnswer<E>, Memory>
    requires { IsAllowed call (Q.bag queue.old) (Q.clock queue.old) }
    ensures answer { IfOk result (λ answer. answer ≡ answer_of call (Q.bag queue.old) (Q.clock queue.old)) }
    ensures bag { OnOk result (SameBag (Q.bag queue.new) (bag_after call (Q.bag queue.old))) }
    ensures clock { OnOk result (Q.clock queue.new ≡ clock_after call (Q.clock queue.old)) }
    ensures unchanged { OnErr result (SameBag (Q.bag queue.new) (Q.bag queue.old)) }
    ensures same_clock { OnErr result (Q.clock queue.new ≡ Q.clock queue.old) }
{
    match call {
        QueueCall::Schedule(time, event) => match queue.schedule(time, event) {
            Ok(()) => Ok(QueueAnswer::Scheduled),
            Err(_) => Err(Memory),
        },
        QueueCall::NextTime => Ok(QueueAnswer::Next(queue.next_time())),
        QueueCall::TakeDue(time) => Ok(QueueAnswer::Due(queue.take_due(time))),
        QueueCall::Now => Ok(QueueAnswer::Clock(queue.now())),
    }
}

/// Makes the calls in their order, and answers what the law's bag answers.
/// At `Memory` the queue is the bag after some first calls.
pub fn replay<E: Drop, Q: EventQueue<E>>(
    alloc: Global,
    queue: &mut Q,
    calls: Vec<QueueCall<E>>,
) -> Result<Vec<QueueAnswer<E>>, Memory>
    requires { AreAllowed calls.items (Q.bag queue.old) (Q.clock queue.old) }
    ensures answers { IfOk result (λ answers. answers.items ≡ answers_of calls.items (Q.bag queue.old) (Q.clock queue.old)) }
    ensures bag { OnOk result (SameBag (Q.bag queue.new) (bag_in_the_end calls.items (Q.bag queue.old))) }
    ensures clock { OnOk result (Q.clock queue.new ≡ clock_in_the_end calls.items (Q.clock queue.old)) }
    ensures cut { OnErr result (IsAfterFirst calls.items (Q.bag queue.old) (Q.clock queue.old) (Q.bag queue.new) (Q.clock queue.new)) }
{
    let mut answers = Vec::new(alloc);
    for call in calls {
        let answer = make_call(queue, call)?;
        if let Err(_) = answers.push(answer) {
            return Err(Memory);
        }
    }
    Ok(answers)
}

/// Two queues of the same bag and the same time give the same answers to any further calls,
/// may be given the same calls, and stay queues of the same bag.
pub fn same_answers<E, P: EventQueue<E>, Q: EventQueue<E>>(first: &P, second: &Q)
    requires bag { SameBag (P.bag first.now) (Q.bag second.now) }
    requires clock { P.clock first.now ≡ Q.clock second.now }
    ensures { (all : List (QueueCall E)) → AnswerAlike all (P.bag first.now) (P.clock first.now) (Q.bag second.now) (Q.clock second.now) }
{}
