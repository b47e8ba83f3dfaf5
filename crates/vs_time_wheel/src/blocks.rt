// A block of memory that holds no value, with the handle of the allocator that it goes back to.
ghost use Rattle.std.specs.Prelude.{◌≡◌, MatchResult};
ghost use Rattle.std.specs.Vacant.{vacant};

use std::alloc::Allocator;
use std::marker::Model;
use std::mem::{align_of, size_of};

pub struct Vacant<T, A: Allocator> {
    pub ptr: *mut T,
    pub alloc: A,
}

impl<T, A: Allocator> Model for Vacant<T, A> {
    ghost also_owns = { λ v. vacant (A.dealloc_token v.alloc) T.row v.ptr };
}

impl<T, A: Allocator> Vacant<T, A> {
    // Takes a block from the allocator. The handle comes back where there was no memory.
    pub fn take(alloc: A) -> Result<Vacant<T, A>, A>
        ensures { MatchResult result (λ v. v.alloc ≡ alloc) (λ h. h ≡ alloc) }
    {
        match alloc.allocate(size_of::<T>(), align_of::<T>()) {
            Ok(p) => Ok(Vacant {
                ptr: p as *mut T,
                alloc,
            }),
            Err(_) => Err(alloc),
        }
    }

    // Gives the block back to the allocator.
    pub fn free(self) -> A
        ensures { result ≡ self.alloc }
    {
        unsafe {
            self.alloc
                .deallocate(self.ptr as *mut u8, size_of::<T>(), align_of::<T>());
        }
        let Vacant { ptr: _, alloc } = self;
        alloc
    }
}
