//! Counts of the elements that pass a test.
ghost use Rattle.std.specs.Prelude.{◌≡◌, ◌+◌, ◌<◌, ◌≤◌, ◌^◌, cond};

/// The count of the elements that pass a test, where one of them is changed.
#[inline(always)]
pub fn recount(count: usize, before: bool, behind: bool) -> usize
    requires some { cond before 1 0 ≤ count }
    requires room { count < 2 ^ 63 }
    ensures { result + cond before 1 0 ≡ count + cond behind 1 0 }
{
    count + usize::from(behind) - usize::from(before)
}
