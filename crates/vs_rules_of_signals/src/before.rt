//! Which of two drivers stands in the order before the other.
ghost use Rattle.std.specs.Prelude.{ℕ, ◌≡◌, ◌⊎◌, ◌↔◌, IsTrue, option_map};
ghost use Rattle.vs_drivers.specs.vs_rules.specs.Claims.{place_of};
ghost use Rattle.vs_drivers.specs.vs_rules.specs.Drivers.{driver_name, Precedes};
ghost use Rattle.vs_drivers.specs.vs_rules.specs.Rules.{IsSelf};
ghost use Rattle.vs_drivers.specs.Wires.{driver_at};

use vs_claims::Facts;

// The place of the driver of a number in the order, where it has a name.
fn place(facts: &Facts, driver: usize) -> Option<usize>
    ensures { result ≡ option_map (λ name. place_of name facts.now.claims.order)
        (driver_name facts.now.design (driver_at facts.now.design driver)) }
{
    let assigns = facts.design().assigns().len();
    if driver < assigns {
        facts.assign_place(driver)
    } else {
        facts.process_place(driver - assigns)
    }
}

// Whether one driver stands in the order before another one.
fn precedes(facts: &Facts, one: usize, other: usize) -> bool
    ensures { IsTrue result ↔ Precedes facts.now.design facts.now.claims
        (driver_at facts.now.design one) (driver_at facts.now.design other) }
{
    match place(facts, one) {
        None => false,
        Some(p) => match place(facts, other) {
            None => false,
            Some(q) => p < q,
        },
    }
}

// Whether two drivers are one process.
fn is_self(facts: &Facts, one: usize, other: usize) -> bool
    ensures { IsTrue result ↔ IsSelf (driver_at facts.now.design one) (driver_at facts.now.design other) }
{
    one == other && one >= facts.design().assigns().len()
}

/// Whether a driver may read what another one writes: that is the process itself, or stands in the order before it.
pub(crate) fn may_read(facts: &Facts, reader: usize, writer: usize) -> bool
    ensures { IsTrue result ↔ (IsSelf (driver_at facts.now.design reader) (driver_at facts.now.design writer)
        ⊎ Precedes facts.now.design facts.now.claims (driver_at facts.now.design writer) (driver_at facts.now.design reader)) }
{
    is_self(facts, reader, writer) || precedes(facts, writer, reader)
}
