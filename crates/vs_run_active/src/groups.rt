//! Groups of copies: continuous assignments that stand next to each other among the readers of a signal, and are woken as one.
ghost use Rattle.std.specs.Prelude.{◌≡◌, ◌++◌, ◌∷◌, [], ◌+◌, ◌<◌, ◌≤◌, ◌^◌, true, drop, get_or, length, map, take, IfOk, OnOk};
ghost use Rattle.vs_run_active.specs.Groups.{Adds, AllAssigns, AreLike, group_members, no_group, numbered_as};

use crate::watchers::Watcher;
use std::alloc::{AllocError, Global};

/// Where the members of a group stand.
#[derive(Clone, Copy)]
pub struct Group {
    pub from: usize,
    pub to: usize,
}

/// The groups, and the continuous assignments that are their members.
#[derive(Drop)]
pub struct Groups {
    pub groups: Vec<Group>,
    pub members: Vec<usize>,
    /// How many continuous assignments there are: the numbers of the groups come after theirs.
    pub assigns: usize,
}

/// Whether two watchers see the same bits.
fn are_alike(a: Watcher, b: Watcher) -> bool
    ensures { result ≡ true → numbered_as a b.number ≡ b }
{
    if a.mask.bits != b.mask.bits {
        return false;
    }
    if a.mask.word != b.mask.word {
        return false;
    }
    a.control == b.control
}

/// Whether a watcher is that of a copy.
fn is_copy(watcher: Watcher, copies: &[bool]) -> bool {
    match copies.get(watcher.number) {
        Some(copy) => *copy,
        None => false,
    }
}

/// How many of the first of some watchers are those of copies and see the same bits as that of a copy.
fn like_it(first: Watcher, rest: &[Watcher], copies: &[bool]) -> usize
    ensures within { result ≤ length rest.now }
    ensures alike { AreLike first (take result rest.now) }
{
    if !is_copy(first, copies) {
        return 0;
    }
    for (n, watcher) in rest.iter().enumerate() {
        if !is_copy(*watcher, copies) {
            return n;
        }
        if !are_alike(first, *watcher) {
            return n;
        }
    }
    rest.len()
}

/// What stands after one of some watchers.
fn rest_after(watchers: &[Watcher], place: usize) -> &[Watcher]
    requires { place < length watchers.now }
    ensures { result.now ≡ drop (place + 1) watchers.now }
{
    &watchers[place + 1..]
}

/// The continuous assignments of watchers.
fn add_members(members: &mut Vec<usize>, watchers: &[Watcher]) -> Result<(), AllocError>
    ensures { OnOk result (members.new.items ≡ members.old.items ++ map (λ w. w.number) watchers.now) }
{
    for watcher in watchers {
        members.push(watcher.number)?;
    }
    Ok(())
}

impl Groups {
    /// None yet, of so many continuous assignments.
    pub fn none(alloc: Global, assigns: usize) -> Self
        ensures { result.assigns ≡ assigns }
    {
        Groups {
            groups: Vec::new(alloc),
            members: Vec::new(alloc),
            assigns,
        }
    }

    /// The members of a group; one past the end has none.
    #[inline(always)]
    pub fn members_of(&self, group: usize) -> &[usize]
        ensures { result.now ≡ group_members (get_or self.now.groups.items group no_group) self.now.members.items }
    {
        let Some(g) = self.groups.get(group) else {
            return &[];
        };
        if g.from <= g.to && g.to <= self.members.len() {
            return &self.members[g.from..g.to];
        }
        &[]
    }

    /// A watcher of its own.
    fn add_one(&mut self, watchers: &mut Vec<Watcher>, watcher: Watcher) -> Result<(), AllocError>
        requires { watcher.number < self.old.assigns }
        ensures { OnOk result (Adds self.old self.new watchers.old.items watchers.new.items (watcher ∷ [])) }
    {
        watchers.push(watcher)?;
        Ok(())
    }

    /// One watcher for several.
    fn add_group(
        &mut self,
        watchers: &mut Vec<Watcher>,
        first: Watcher,
        rest: &[Watcher],
    ) -> Result<(), AllocError>
        requires alike { AreLike first rest.now }
        requires room { self.old.assigns < 2 ^ 63 }
        ensures { OnOk result (Adds self.old self.new watchers.old.items watchers.new.items (first ∷ rest.now)) }
    {
        let from = self.members.len();
        self.members.push(first.number)?;
        add_members(&mut self.members, rest)?;
        let to = self.members.len();
        let number = self.assigns + self.groups.len();
        self.groups.push(Group { from, to })?;
        watchers.push(Watcher {
            mask: first.mask,
            number,
            control: first.control,
        })?;
        Ok(())
    }

    /// A watcher, and as many after it as make a group with it; the answer is how many these are.
    fn add_next(
        &mut self,
        watchers: &mut Vec<Watcher>,
        first: Watcher,
        rest: &[Watcher],
        copies: &[bool],
    ) -> Result<usize, AllocError>
        requires number { first.number < self.old.assigns }
        requires room { self.old.assigns < 2 ^ 63 }
        ensures within { IfOk result (λ more. more ≤ length rest.now) }
        ensures adds { IfOk result (λ more. Adds self.old self.new watchers.old.items watchers.new.items (first ∷ take more rest.now)) }
    {
        let more = like_it(first, rest, copies);
        if more == 0 {
            self.add_one(watchers, first)?;
            return Ok(more);
        }
        self.add_group(watchers, first, &rest[..more])?;
        Ok(more)
    }

    /// The watchers of continuous assignments: of those that stand next to each other, are copies and see the same bits one for all.
    pub fn add(
        &mut self,
        watchers: &mut Vec<Watcher>,
        plain: &[Watcher],
        copies: &[bool],
    ) -> Result<(), AllocError>
        requires numbers { AllAssigns self.old.assigns plain.now }
        requires room { self.old.assigns < 2 ^ 63 }
        ensures { OnOk result (Adds self.old self.new watchers.old.items watchers.new.items plain.now) }
    {
        let mut from = 0;
        while from < plain.len() {
            let rest = rest_after(plain, from);
            let more = self.add_next(watchers, plain[from], rest, copies)?;
            from = from + 1 + more;
        }
        Ok(())
    }
}
