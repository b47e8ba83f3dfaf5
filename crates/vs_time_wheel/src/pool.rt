// Chains of events in linked nodes, and the pool that the nodes come from.
ghost use Rattle.std.specs.Prelude.{◌≡◌, ◌↔◌, ◌+◌, ◌^◌, ◌<◌, IsTrue, List, [], ◌∷◌, ◌++◌, length, MatchOption, IfErr, OnOk, OnErr};

use crate::blocks::Vacant;
use crate::nodes::{Node, Nodes};
use crate::timing::Full;
use std::alloc::Global;
use std::marker::Model;

/// A node that holds no event.
type FreeNode<E> = Vacant<Node<E, Global>, Global>;

/// Events in linked nodes, the oldest first.
pub struct Chain<E> {
    nodes: Nodes<E, Global>,
    len: usize,
}

impl<E> Model for Chain<E> {
    ghost Value = { List E };

    ghost view = { λ c. c.nodes.events };

    ghost invariant = { λ c. c.len ≡ length c.nodes.events };
}

impl<E> Chain<E> {
    /// A chain without nodes.
    pub fn new() -> Self
        ensures { result ≡ [] }
    {
        Chain {
            nodes: Nodes::new(),
            len: 0,
        }
    }

    /// Whether there is no event.
    pub fn is_empty(&self) -> bool
        ensures { IsTrue result ↔ (self.now ≡ []) }
    {
        self.len == 0
    }

    /// How many events there are.
    pub fn len(&self) -> usize
        ensures { result ≡ length self.now }
    {
        self.len
    }

    // Links a node at the end.
    fn link(&mut self, room: FreeNode<E>, event: E)
        requires { length self.old + 1 < 2 ^ 64 }
        ensures { self.new ≡ self.old ++ event ∷ [] }
    {
        if self.len == 0 {
            self.nodes.link_first(room, event);
        } else {
            self.nodes.link_back(room, event);
        }
        self.len += 1;
    }

    // Unlinks the first node.
    fn unlink(&mut self) -> Option<(E, FreeNode<E>)>
        ensures { MatchOption result ((self.old ≡ []) × (self.new ≡ [])) (λ first. self.old ≡ first.0 ∷ self.new) }
    {
        if self.len == 0 {
            return None;
        }
        self.len -= 1;
        Some(self.nodes.unlink_first())
    }
}

impl<E: Drop> Drop for Chain<E> {
    fn drop(mut self) {
        while let Some((_, room)) = self.unlink() {
            room.free();
        }
        let Chain { nodes, len: _ } = self;
        nodes.destroy_empty();
    }
}

/// Where nodes are taken from, and where they go back to. A node that goes back is taken again later.
pub struct Pool<E> {
    spare: Vec<FreeNode<E>>,
    made: usize,
    alloc: Global,
}

impl<E> Pool<E> {
    /// A pool without nodes.
    pub fn new(alloc: Global) -> Self {
        Pool {
            spare: Vec::new(alloc),
            made: 0,
            alloc,
        }
    }

    // Takes a node: one that went back, or else a new one, and room to keep it once it goes back.
    fn take(&mut self) -> Option<FreeNode<E>> {
        if let Some(room) = self.spare.pop() {
            return Some(room);
        }
        let made = self.made.checked_add(1)?;
        self.spare.reserve(made).ok()?;
        let room = Vacant::take(self.alloc).ok()?;
        self.made = made;
        Some(room)
    }

    // Takes a node back. It takes no memory.
    fn give_back(&mut self, room: FreeNode<E>) {
        if self.spare.len() < self.spare.capacity() {
            if let Err(refused) = self.spare.push(room) {
                refused.value.free();
            }
        } else {
            room.free();
        }
    }

    /// Takes a node for the event, and links it at the end. It is refused only where memory ran out.
    #[inline(always)]
    pub fn push(&mut self, chain: &mut Chain<E>, event: E) -> Result<(), Full<E>>
        ensures linked { OnOk result (chain.new ≡ chain.old ++ event ∷ []) }
        ensures handed_back { IfErr result (λ full. full.event ≡ event) }
        ensures unchanged { OnErr result (chain.new ≡ chain.old) }
    {
        if chain.len() == usize::MAX {
            return Err(Full { event });
        }
        match self.take() {
            Some(room) => {
                chain.link(room, event);
                Ok(())
            }
            None => Err(Full { event }),
        }
    }

    /// Unlinks the first node, and gives its event. It takes no memory.
    pub fn pop(&mut self, chain: &mut Chain<E>) -> Option<E>
        ensures { MatchOption result ((chain.old ≡ []) × (chain.new ≡ [])) (λ event. chain.old ≡ event ∷ chain.new) }
    {
        let (event, room) = chain.unlink()?;
        self.give_back(room);
        Some(event)
    }
}

impl<E> Drop for Pool<E> {
    fn drop(mut self) {
        while let Some(room) = self.spare.pop() {
            room.free();
        }
        let Pool {
            spare,
            made: _,
            alloc: _,
        } = self;
        spare.destroy_empty();
    }
}
