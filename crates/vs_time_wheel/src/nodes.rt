// Linked nodes, which lie in blocks of their own: the steps over raw memory.
ghost use Rattle.std.specs.Prelude.{◌≡◌, ◌+◌, ◌^◌, ◌<◌, List, length, [], ◌∷◌, ◌++◌};
ghost use Rattle.vs_time_wheel.specs.Links.{Link, links_of, IsChained};
ghost use Rattle.vs_time_wheel.specs.Ownership.{nodes_own};

use crate::blocks::Vacant;
use std::alloc::Allocator;
use std::marker::Model;

// An event, and where the node behind it lies. `next` of the last node means nothing.
pub struct Node<T, A> {
    next: *const Node<T, A>,
    event: T,
    alloc: A,
}

// `blocks` says of each node where it lies, its `next`, and its handle. With no node, `first` and `last` dangle.
pub struct Nodes<T, A: Allocator> {
    first: *const Node<T, A>,
    last: *const Node<T, A>,
    ghost events: { List T },
    ghost blocks: { List (Link × A) },
    ghost count: { length events ≡ length blocks },
    ghost chained: { ∥ IsChained first last (links_of blocks) ∥₁ },
}

impl<T, A: Allocator> Model for Nodes<T, A> {
    ghost also_owns = { λ n. nodes_own T.row A.row A.dealloc_token n.blocks n.events };
}

impl<T, A: Allocator> Nodes<T, A> {
    // No node.
    pub fn new() -> Nodes<T, A>
        ensures { result.events ≡ [] }
    {
        let none: [u8; 0] = [];
        let nowhere = &raw const none as *const Node<T, A>;
        Nodes {
            first: nowhere,
            last: nowhere,
        }
    }

    // Links the only node.
    pub fn link_first(&mut self, room: Vacant<Node<T, A>, A>, event: T)
        requires { self.old.events ≡ [] }
        ensures { self.new.events ≡ event ∷ [] }
    {
        let Vacant { ptr, alloc } = room;
        unsafe {
            ptr.write(Node {
                next: ptr,
                event,
                alloc,
            });
        }
        self.first = ptr;
        self.last = ptr;
    }

    // Links a node behind the last.
    pub fn link_back(&mut self, room: Vacant<Node<T, A>, A>, event: T)
        requires { 0 < length self.old.events }
        ensures { self.new.events ≡ self.old.events ++ event ∷ [] }
    {
        let Vacant { ptr, alloc } = room;
        let last = self.last.cast_mut();
        unsafe {
            ptr.write(Node {
                next: ptr,
                event,
                alloc,
            });
            (*last).next = ptr;
        }
        self.last = ptr;
    }

    // Unlinks the first node: its event, and the node without it.
    pub fn unlink_first(&mut self) -> (T, Vacant<Node<T, A>, A>)
        requires { 0 < length self.old.events }
        ensures { self.old.events ≡ result.0 ∷ self.new.events }
    {
        let ptr = self.first.cast_mut();
        unsafe {
            self.first = (*ptr).next;
            let event = (&raw const (*ptr).event).read();
            let alloc = (&raw const (*ptr).alloc).read();
            (event, Vacant { ptr, alloc })
        }
    }

    // Lets a list without nodes go. There is no drop, so that none is let go that still has nodes.
    pub fn destroy_empty(self)
        requires { self.events ≡ [] }
    {
        let Nodes { first: _, last: _ } = self;
    }
}
