//! How paths of a text go on from a place.
ghost use Rattle.std.specs.Prelude.{◌≡◌, false};
ghost use Rattle.vs_design.specs.declared.statement.Statement.TheViews.{out-Statement};
ghost use Rattle.vs_process.specs.Maps.{statement_pause};
ghost use Rattle.vs_process.specs.Stops.{statement_view};
ghost use Rattle.vs_maps.specs.declared.along.Along.TheVariants.{ZeroTime};
ghost use Rattle.vs_maps.specs.Reaches.{pause_of, pause_view, passes};

use crate::along::Along;
use vs_design::{EventTerm, Statement};

/// How all ways from a place go on.
#[derive(Clone, Copy)]
pub enum Pause<'a> {
    /// Through no control.
    Nothing,
    /// Through a delay of so many ticks, by the delay control of this number in the process's text (IEEE 1364-2005, clause 9.7.1).
    Delay(u32, u64),
    /// Through a wait for one of these terms, by the event control of this number in the process's text (clause 9.7.2).
    Event(u32, &'a [EventTerm]),
}

// How all ways from a statement go on.
fn statement_pause<'a>(s: &'a Statement) -> Pause<'a>
    ensures { pause_view result ≡ statement_pause (out-Statement s.entry.now) }
{
    match s {
        Statement::Delay(number, ticks, _) => Pause::Delay(*number, ticks.count),
        Statement::Event(number, terms, _) => Pause::Event(*number, terms),
        _ => Pause::Nothing,
    }
}

/// How all ways from a statement go on, where there is one.
pub(crate) fn pause_of<'a>(statement: Option<&'a Statement>) -> Pause<'a>
    ensures { pause_view result ≡ pause_of (statement_view statement.entry) }
{
    match statement {
        None => Pause::Nothing,
        Some(s) => statement_pause(s),
    }
}

/// Whether the ways that go on so count.
pub(crate) fn passes(along: Along, pause: Pause) -> bool
    ensures { result ≡ passes along (pause_view pause.entry) }
{
    match pause {
        Pause::Nothing => true,
        Pause::Delay(_, ticks) => match along {
            Along::Any => true,
            Along::Plain(_) => false,
            Along::ZeroTime(_) => ticks == 0,
        },
        Pause::Event(_, _) => match along {
            Along::Any => true,
            Along::Plain(_) | Along::ZeroTime(_) => false,
        },
    }
}

/// Whether a way that goes on so takes no time.
pub fn takes_no_time(pause: Pause) -> bool
    ensures { result ≡ passes (ZeroTime false) (pause_view pause.entry) }
{
    passes(Along::ZeroTime(false), pause)
}
