//! What is active, and who is woken by the change of a word.
ghost use Rattle.std.specs.Prelude.{◌≡◌, ◌<◌, get_or, length, if◌then◌else◌, OnOk};
ghost use Rattle.vs_design.specs.Stores.{changed_at};
ghost use Rattle.vs_run_active.specs.vs_eval.specs.Masks.{every_word};
ghost use Rattle.vs_run_active.specs.Groups.{group_members, meaning, no_group, spelled, spelled_one};
ghost use Rattle.vs_run_active.specs.Rows.{Fits};
ghost use Rattle.vs_run_active.specs.Touches.{woken_in};
ghost use Rattle.vs_run_active.specs.ProcessPlaces as standings;
ghost use Rattle.vs_run_active.specs.ProcessPlaces.{roused_in, triggered_at};
ghost use Rattle.vs_design.specs.vs_logic4.specs.declared.edge.Edge.TheVariants.{Any, Negedge, Posedge};
ghost use Rattle.vs_run_active.specs.Watchers.{between};
ghost use Rattle.vs_run_active.specs.Wakes.{KindsWalked, RowWalked, Wakes, has_one, walked_by, woken_all, woken_watched};

use crate::assigns::Assigns;
use crate::processes::Processes;
use crate::queue::Queue;
use crate::vs_eval::WordChange;
use crate::{FEW, Groups, Row, Tables, Watcher};
use std::alloc::AllocError;

/// The events of a run. Their numbers in the queue: the continuous assignments, then the processes. The queue is a hint: nothing is promised of it.
#[derive(Drop)]
pub struct Events<'a> {
    pub assigns: Assigns<'a>,
    pub processes: Processes<'a>,
    pub queue: Queue,
    /// The number of the first process.
    pub first_process: usize,
}

/// The same change: what isn't inlined takes its address, which would keep the other from registers.
#[inline(always)]
fn alike(change: WordChange) -> WordChange
    ensures { result ≡ change }
{
    WordChange {
        value: change.value,
        unknown: change.unknown,
        new_value: change.new_value,
        new_unknown: change.new_unknown,
    }
}

impl<'a> Events<'a> {
    /// A continuous assignment has to be evaluated; one past the end is none.
    #[inline(always)]
    pub fn wake_assign(&mut self, assign: usize) -> Result<(), AllocError>
        ensures assigns { self.new.assigns ≡ woken_in assign self.old.assigns }
        ensures processes { self.new.processes ≡ self.old.processes }
    {
        if self.assigns.wake(assign) {
            self.queue.push(assign)?;
        }
        Ok(())
    }

    /// The members of a group have to be evaluated.
    #[inline(always)]
    fn wake_members(&mut self, members: &[usize]) -> bool
        ensures assigns { self.new.assigns ≡ woken_all members.now self.old.assigns }
        ensures processes { self.new.processes ≡ self.old.processes }
    {
        let mut new = false;
        for assign in members {
            new = self.assigns.wake(*assign) || new;
        }
        new
    }

    /// The continuous assignments of a group have to be evaluated: they enter as one.
    #[inline(never)]
    pub fn wake_group(&mut self, groups: &Groups, group: usize) -> Result<(), AllocError>
        ensures assigns { self.new.assigns
            ≡ woken_all (group_members (get_or groups.now.groups.items group no_group) groups.now.members.items) self.old.assigns }
        ensures processes { self.new.processes ≡ self.old.processes }
    {
        if self.wake_members(groups.members_of(group)) {
            let event = groups.assigns.wrapping_add(group);
            self.queue.push(event)?;
        }
        Ok(())
    }

    /// The members of a group have to be evaluated: they enter one by one.
    fn wake_each_member(&mut self, members: &[usize]) -> Result<(), AllocError>
        ensures assigns { OnOk result (self.new.assigns ≡ woken_all members.now self.old.assigns) }
        ensures processes { self.new.processes ≡ self.old.processes }
    {
        for assign in members {
            self.wake_assign(*assign)?;
        }
        Ok(())
    }

    /// Those that a watcher stands for have to be evaluated, where it sees one of these bits of a word; the members of a group enter as one, or each
    /// alone.
    #[inline(always)]
    fn wake_reader(
        &mut self,
        groups: &Groups,
        watcher: Watcher,
        word: usize,
        bits: u64,
        each: bool,
    ) -> Result<(), AllocError>
        ensures assigns { OnOk result (self.new.assigns
            ≡ woken_watched (has_one word bits) (spelled_one (meaning groups.now) watcher) self.old.assigns) }
        ensures processes { self.new.processes ≡ self.old.processes }
    {
        if !watcher.mask.has(word, bits) {
            return Ok(());
        }
        if watcher.number < groups.assigns {
            return self.wake_assign(watcher.number);
        }
        let group = watcher.number - groups.assigns;
        if each {
            return self.wake_each_member(groups.members_of(group));
        }
        self.wake_group(groups, group)?;
        Ok(())
    }

    /// Those continuous assignments have to be evaluated that read one of these bits of a word, by watchers of which some are those of groups.
    #[inline(always)]
    fn wake_readers(
        &mut self,
        groups: &Groups,
        watchers: &[Watcher],
        word: usize,
        bits: u64,
        each: bool,
    ) -> Result<(), AllocError>
        ensures assigns { OnOk result (self.new.assigns
            ≡ woken_watched (has_one word bits) (spelled (meaning groups.now) watchers.now) self.old.assigns) }
        ensures processes { self.new.processes ≡ self.old.processes }
    {
        for watcher in watchers {
            self.wake_reader(groups, *watcher, word, bits, each)?;
        }
        Ok(())
    }

    /// A process goes on where it waits for the event control of a number; one past the end is none.
    #[inline(always)]
    pub fn wake_process(&mut self, process: usize, control: u32) -> Result<(), AllocError>
        ensures processes { self.new.processes ≡ changed_at (triggered_at control) process self.old.processes }
        ensures assigns { self.new.assigns ≡ self.old.assigns }
    {
        if self.processes.wake(process, control) {
            let event = self.first_process.wrapping_add(process);
            self.queue.push(event)?;
        }
        Ok(())
    }

    /// A process goes on where it is inactive; one past the end is none.
    #[inline(always)]
    pub fn rouse(&mut self, process: usize) -> Result<(), AllocError>
        ensures processes { self.new.processes ≡ changed_at roused_in process self.old.processes }
        ensures assigns { self.new.assigns ≡ self.old.assigns }
    {
        if self.processes.rouse(process) {
            let event = self.first_process.wrapping_add(process);
            self.queue.push(event)?;
        }
        Ok(())
    }

    /// A process goes on where its delay ends at a time in ticks; one past the end is none.
    #[inline(always)]
    pub fn wake_at(&mut self, process: usize, time: u64) -> Result<(), AllocError>
        ensures processes { self.new.processes ≡ changed_at (standings.woken_in time) process self.old.processes }
        ensures assigns { self.new.assigns ≡ self.old.assigns }
    {
        if self.processes.wake_at(process, time) {
            let event = self.first_process.wrapping_add(process);
            self.queue.push(event)?;
        }
        Ok(())
    }

    /// A process goes on where it waits for an event control that waits for one of these bits of a word.
    #[inline(always)]
    fn wake_waiting(&mut self, watcher: Watcher, word: usize, bits: u64) -> Result<(), AllocError>
        ensures processes { self.new.processes ≡ (if has_one word bits watcher
            then changed_at (triggered_at watcher.control) watcher.number self.old.processes else self.old.processes) }
        ensures assigns { self.new.assigns ≡ self.old.assigns }
    {
        if watcher.mask.has(word, bits) {
            return self.wake_process(watcher.number, watcher.control);
        }
        Ok(())
    }

    /// Those processes go on that wait for an event control of which a term waits for one of these bits of a word.
    #[inline(never)]
    pub fn wake_processes(
        &mut self,
        watchers: &[Watcher],
        word: usize,
        bits: u64,
    ) -> Result<(), AllocError>
        ensures processes { OnOk result (self.new.processes ≡ walked_by word bits watchers.now self.old.processes) }
        ensures assigns { self.new.assigns ≡ self.old.assigns }
    {
        for watcher in watchers {
            self.wake_waiting(*watcher, word, bits)?;
        }
        Ok(())
    }

    /// The same, where there is a bit at all.
    #[inline(always)]
    fn wake_some(&mut self, watchers: &[Watcher], word: usize, bits: u64) -> Result<(), AllocError>
        ensures processes { OnOk result (self.new.processes ≡ walked_by word bits watchers.now self.old.processes) }
        ensures assigns { self.new.assigns ≡ self.old.assigns }
    {
        if bits == 0 {
            return Ok(());
        }
        self.wake_processes(watchers, word, bits)
    }

    /// The processes that wait for any change of the word.
    #[inline(always)]
    fn wake_any(
        &mut self,
        tables: &Tables,
        row: Row,
        word: usize,
        change: WordChange,
    ) -> Result<(), AllocError>
        requires { Fits row (length tables.now.watchers.items) }
        ensures processes { OnOk result (KindsWalked Any (between row.any row.rising tables.now.watchers.items) word change
            self.old.processes self.new.processes) }
        ensures assigns { self.new.assigns ≡ self.old.assigns }
    {
        let differing = change.differing();
        if row.rising <= row.any {
            return Ok(());
        }
        self.wake_processes(tables.any(row), word, differing)?;
        Ok(())
    }

    /// Those that wait for a rise.
    #[inline(always)]
    fn wake_rising(
        &mut self,
        tables: &Tables,
        row: Row,
        word: usize,
        change: WordChange,
    ) -> Result<(), AllocError>
        requires { Fits row (length tables.now.watchers.items) }
        ensures processes { OnOk result (KindsWalked Posedge (between row.rising row.falling tables.now.watchers.items) word change
            self.old.processes self.new.processes) }
        ensures assigns { self.new.assigns ≡ self.old.assigns }
    {
        if row.falling <= row.rising {
            return Ok(());
        }
        let rises = change.rising();
        self.wake_some(tables.rising(row), word, rises)?;
        Ok(())
    }

    /// Those that wait for a fall.
    #[inline(always)]
    fn wake_falling(
        &mut self,
        tables: &Tables,
        row: Row,
        word: usize,
        change: WordChange,
    ) -> Result<(), AllocError>
        requires { Fits row (length tables.now.watchers.items) }
        ensures processes { OnOk result (KindsWalked Negedge (between row.falling row.end tables.now.watchers.items) word change
            self.old.processes self.new.processes) }
        ensures assigns { self.new.assigns ≡ self.old.assigns }
    {
        if row.end <= row.falling {
            return Ok(());
        }
        let falls = change.falling();
        self.wake_some(tables.falling(row), word, falls)?;
        Ok(())
    }

    /// The processes that wait for a change of the word of a signal, of any kind: they enter in design order.
    #[inline(never)]
    fn wake_controls(
        &mut self,
        tables: &Tables,
        signal: usize,
        word: usize,
        change: WordChange,
    ) -> Result<(), AllocError>
        requires { signal < length tables.now.rows.items }
        ensures processes { OnOk result (RowWalked tables.now signal word change self.old.processes self.new.processes) }
        ensures assigns { self.new.assigns ≡ self.old.assigns }
    {
        let row = tables.row(signal);
        let from = self.queue.len();
        self.wake_any(tables, row, word, change)?;
        self.wake_rising(tables, row, word, change)?;
        self.wake_falling(tables, row, word, change)?;
        self.queue.sort_from(from);
        Ok(())
    }

    /// What the change of a word of a signal wakes. Where event controls wait for its rises alone, or none does, that is at hand.
    #[inline(always)]
    pub fn wake(
        &mut self,
        tables: &Tables,
        signal: usize,
        word: usize,
        change: WordChange,
    ) -> Result<(), AllocError>
        requires signal { signal < length tables.now.rows.items }
        requires word { word < every_word }
        ensures { OnOk result (Wakes tables.now signal word change
            self.old.assigns self.old.processes self.new.assigns self.new.processes) }
    {
        let row = tables.row(signal);
        let differing = change.differing();
        if row.end <= row.readers {
            return Ok(());
        }
        if row.readers.wrapping_add(FEW) < row.any {
            return self.wake_word(tables, signal, word, alike(change), false);
        }
        self.wake_readers(&tables.groups, tables.readers(row), word, differing, false)?;
        if row.rising <= row.any && row.end <= row.falling {
            return self.wake_rising(tables, row, word, change);
        }
        self.wake_controls(tables, signal, word, alike(change))
    }

    /// The same of any signal: of an array that many continuous assignments read, those are looked at that see the word. The members of a group enter
    /// as one, or each alone: so where several words change at once, after which the caller puts all that has entered into order.
    #[inline(never)]
    pub fn wake_word(
        &mut self,
        tables: &Tables,
        signal: usize,
        word: usize,
        change: WordChange,
        each: bool,
    ) -> Result<(), AllocError>
        requires signal { signal < length tables.now.rows.items }
        requires word { word < every_word }
        ensures { OnOk result (Wakes tables.now signal word change
            self.old.assigns self.old.processes self.new.assigns self.new.processes) }
    {
        let row = tables.row(signal);
        let differing = change.differing();
        let readers = tables.readers_of_word(signal, row, word);
        self.wake_readers(&tables.groups, readers, word, differing, each)?;
        self.wake_controls(tables, signal, word, change)
    }
}
