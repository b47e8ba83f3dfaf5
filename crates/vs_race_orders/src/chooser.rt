//! Who chooses: by a plan, the last item, or a place that is kept for a while.
ghost use Rattle.std.specs.Prelude.{◌<◌};

use crate::plan::Planned;
use crate::span::Span;
use std::alloc::Global;
use vs_run_regions::Pick;

/// The most spans that are told.
const REPORT_LIMIT: usize = 65536;

/// In a list of more than twice so many items a kept place is so near to an end, since the place of an item is sought from there.
const NEAR: usize = 64;

/// Of a hundred choices so many draw a new place, from one try to the next.
const REDRAWN: [u64; 3] = [8, 20, 40];

/// A place in the list of enabled events.
#[derive(Clone, Copy)]
enum Place {
    /// The first one.
    First,
    /// The last one.
    Last,
    /// That of a number, modulo how many there are.
    At(usize),
    /// The same, but of a long list one near an end.
    Near(usize),
}

// The item at a kept place among so many.
fn near_item(number: usize, n: usize) -> usize
    requires { 0 < n }
    ensures { result < n }
{
    if n <= 2 * NEAR {
        return number % n;
    }
    let place = number % (2 * NEAR);
    if place < NEAR {
        place
    } else {
        n - 2 * NEAR + place
    }
}

/// How items are chosen.
#[derive(Clone, Copy)]
enum Way {
    /// By spans; else the first.
    Planned,
    /// Always the last.
    Last,
    /// By a place that is kept, and drawn anew at so many of a hundred choices.
    Kept(u64),
}

/// A policy that counts its choices, and tells them where that is asked for.
#[derive(Drop)]
pub(crate) struct Chooser<'p> {
    way: Way,
    plan: Planned<'p>,
    place: Place,
    /// What the next number is drawn from.
    state: u64,
    /// Whether it may choose another item than the first now.
    free: bool,
    /// The number of the choice before which it chooses the first item.
    begins: u64,
    count: u64,
    /// Whether choices are told.
    tells: bool,
    /// The choices of another item than the first that were told, but for those of the last item.
    told: Vec<Span>,
    open: Option<Span>,
}

impl<'p> Chooser<'p> {
    fn new(alloc: Global, way: Way, spans: &'p [Span], state: u64) -> Self {
        Chooser {
            way,
            plan: Planned::new(spans),
            place: Place::First,
            state,
            free: true,
            begins: 0,
            count: 0,
            tells: false,
            told: Vec::new(alloc),
            open: None,
        }
    }

    /// One that makes the choices of spans, which rise.
    pub(crate) fn planned(alloc: Global, spans: &'p [Span]) -> Self {
        Chooser::new(alloc, Way::Planned, spans, 0)
    }

    /// One that always chooses the last item, from the choice of a number on.
    pub(crate) fn last_from(alloc: Global, begins: u64) -> Self {
        let mut chooser = Chooser::new(alloc, Way::Last, &[], 0);
        chooser.begins = begins;
        chooser
    }

    /// That of a try, by its number from 0.
    pub(crate) fn of_try(alloc: Global, number: u64, seed: u64) -> Self {
        if number == 0 {
            return Chooser::new(alloc, Way::Last, &[], seed);
        }
        let percent = match number % 3 {
            0 => REDRAWN[2],
            1 => REDRAWN[0],
            _ => REDRAWN[1],
        };
        let state = seed
            .wrapping_add(number)
            .wrapping_mul(0x9e37_79b9_7f4a_7c15);
        Chooser::new(alloc, Way::Kept(percent), &[], state)
    }

    /// Has it tell its choices from now on.
    pub(crate) fn tell(&mut self) {
        self.tells = true;
    }

    /// Whether it may choose another item than the first from now on.
    pub(crate) fn set_free(&mut self, free: bool) {
        self.free = free;
    }

    /// How many choices it has made.
    pub(crate) fn count(&self) -> u64 {
        self.count
    }

    /// Its choices of another item than the first, as far as it told them.
    pub(crate) fn into_spans(mut self) -> Vec<Span> {
        self.close();
        let Chooser {
            way: _,
            plan: _,
            place: _,
            state: _,
            free: _,
            begins: _,
            count: _,
            tells: _,
            told,
            open: _,
        } = self;
        told
    }

    // The next number that is drawn.
    fn draw(&mut self) -> u64 {
        self.state = self.state.wrapping_add(0x9e37_79b9_7f4a_7c15);
        let a = (self.state ^ (self.state >> 30)).wrapping_mul(0xbf58_476d_1ce4_e5b9);
        let b = (a ^ (a >> 27)).wrapping_mul(0x94d0_49bb_1331_11eb);
        b ^ (b >> 31)
    }

    // The place that is kept, drawn anew at so many of a hundred choices.
    fn kept_place(&mut self, percent: u64) -> Place {
        if self.draw() % 100 < percent {
            let drawn = self.draw();
            self.place = match drawn % 3 {
                0 => Place::First,
                1 => Place::Last,
                _ => Place::Near((drawn / 3) as usize),
            };
        }
        self.place
    }

    // The place of the next choice.
    fn next_place(&mut self) -> Place {
        if !self.free || self.count < self.begins {
            self.plan.skip();
            return Place::First;
        }
        match self.way {
            Way::Planned => Place::At(self.plan.next_item()),
            Way::Last => Place::Last,
            Way::Kept(percent) => self.kept_place(percent),
        }
    }

    // Puts the last choices to those that were told; what finds no memory or room isn't told, nor what follows.
    fn close(&mut self) {
        if let Some(span) = self.open
            && (self.told.len() >= REPORT_LIMIT || self.told.push(span).is_err())
        {
            self.tells = false;
        }
        self.open = None;
    }

    // Tells a choice of another item than the first.
    fn tell_choice(&mut self, item: usize) {
        let last = self.count;
        match self.open {
            Some(span) if span.item == item && span.last.saturating_add(1) == last => {
                let first = span.first;
                self.open = Some(Span { first, last, item });
            }
            _ => {
                self.close();
                self.open = Some(Span {
                    first: last,
                    last,
                    item,
                });
            }
        }
    }
}

impl<'p> Pick for Chooser<'p> {
    fn pick(&mut self, n: usize) -> usize
        requires { 0 < n }
        ensures { result < n }
    {
        let item = match self.next_place() {
            Place::First => 0,
            Place::Last => n - 1,
            Place::At(number) => number % n,
            Place::Near(number) => near_item(number, n),
        };
        if self.tells && item > 0 {
            self.tell_choice(item);
        }
        self.count = self.count.saturating_add(1);
        item
    }
}
