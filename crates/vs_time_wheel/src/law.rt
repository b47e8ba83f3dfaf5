// The law of the event queues.
ghost use Rattle.std.specs.Prelude.{◌≡◌, ℕ, ◌≤◌, List, ◌∷◌, [], ◌++◌, IfErr, IfSome, OnOk, OnErr};
ghost use Rattle.std.specs.Option.{ForSome};
ghost use Rattle.vs_time_wheel.specs.Bag.{SameBag, least_time, oldest_at, without_oldest};
ghost use Rattle.vs_time_wheel.specs.declared.timing.Timed.{Timed};

use crate::timing::Full;

/// A bag of timed events, the oldest first at equal times. Times are in ticks.
pub trait EventQueue<E> {
    /// The events that it holds, in an order of their scheduling.
    ghost bag: { Self → List (Timed E) };

    /// The last time given to `take_due`, 0 at first.
    ghost clock: { Self → ℕ };

    /// Adds an event that is due at `time`, the newest of that time.
    /// It is refused only where memory ran out, and then handed back.
    fn schedule(&mut self, time: u64, event: E) -> Result<(), Full<E>>
        requires { clock self.old ≤ time }
        ensures added { OnOk result (SameBag (bag self.new) (bag self.old ++ record { time = time; event = event } ∷ [])) }
        ensures handed_back { IfErr result (λ full. full.event ≡ event) }
        ensures unchanged { OnErr result (SameBag (bag self.new) (bag self.old)) }
        ensures same_clock { clock self.new ≡ clock self.old };

    /// The least time at which an event is due. It takes no memory.
    fn next_time(&self) -> Option<u64>
        ensures least { result ≡ least_time (bag self.now) }
        ensures not_over { IfSome result (λ time. clock self.now ≤ time) };

    /// Removes the oldest event that is due at `time`, and moves on to that time. `None` where there is none.
    /// It takes no memory.
    fn take_due(&mut self, time: u64) -> Option<E>
        requires not_over { clock self.old ≤ time }
        requires none_before { ForSome (least_time (bag self.old)) (λ next. time ≤ next) }
        ensures oldest { result ≡ oldest_at time (bag self.old) }
        ensures rest { SameBag (bag self.new) (without_oldest time (bag self.old)) }
        ensures moved_on { clock self.new ≡ time };

    /// The last time given to `take_due`, 0 at first. It takes no memory.
    fn now(&self) -> u64
        ensures { result ≡ clock self.now };
}
