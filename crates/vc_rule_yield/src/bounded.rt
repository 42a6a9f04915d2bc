//! A list of fixed room.

ghost use Rattle.std.specs.Prelude.{◌≡◌, ◌+◌, nat_le, [], ◌∷◌, length, take, IfOk};
ghost use Rattle.vc_rule_yield.specs.Filling.{with_items, emptied};

use std::alloc::{AllocError, Global};
use std::marker::Model;

/// Elements in order, of which at most so many stand as there is room for from the start: no call
/// but `new` takes memory.
#[derive(Drop)]
pub struct Bounded<T> {
    inner: Vec<T>,
    room: usize,
}

impl<T> Model for Bounded<T> {
    ghost use Rattle.std.specs.Prelude.{◌≤◌, length, vec_len, vec_capacity};
    ghost use Rattle.vc_rule_yield.specs.Filling.{Filled};

    ghost Value = { Filled T };

    ghost view = { λ b. record { items = b.inner.items; room = b.room } };

    ghost invariant = { λ b. b.room ≤ vec_capacity b.inner };
}

impl<T: Drop> Bounded<T> {
    /// The empty list with room for so many elements.
    pub fn new(alloc: Global, room: usize) -> Result<Bounded<T>, AllocError>
        ensures { IfOk result (λ list. list ≡ record { items = []; room = room }) }
    {
        Ok(Bounded {
            inner: Vec::with_capacity(alloc, room)?,
            room,
        })
    }

    /// The elements.
    pub fn as_slice(&self) -> &[T]
        ensures { result.now ≡ self.now.items }
    {
        self.inner.as_slice()
    }

    /// How many there are.
    pub fn len(&self) -> usize
        ensures { result ≡ length self.now.items }
    {
        self.inner.len()
    }

    /// How many there may be.
    pub fn room(&self) -> usize
        ensures { result ≡ self.now.room }
    {
        self.room
    }

    /// Whether there is room for so many more.
    pub fn has_room(&self, count: usize) -> bool
        ensures { result ≡ nat_le (length self.now.items + count) self.now.room }
    {
        self.inner.len() <= self.room && count <= self.room - self.inner.len()
    }

    /// Puts an element at the end, if there is room for it.
    pub fn push(&mut self, element: T)
        ensures { self.new ≡ with_items self.old (element ∷ []) }
    {
        if self.inner.len() < self.room {
            let _ = self.inner.push(element);
        }
    }

    /// Keeps the first elements, so many.
    pub fn truncate(&mut self, count: usize)
        ensures { self.new ≡ record { items = take count self.old.items; room = self.old.room } }
    {
        self.inner.truncate(count);
    }

    /// Lets all elements go.
    pub fn clear(&mut self)
        ensures { self.new ≡ emptied self.old }
    {
        self.inner.clear();
    }
}

impl<T: Copy> Bounded<T> {
    /// Puts the elements at the end, if there is room for all of them.
    pub fn extend(&mut self, elements: &[T])
        ensures { self.new ≡ with_items self.old elements.now }
    {
        if self.inner.len() <= self.room && elements.len() <= self.room - self.inner.len() {
            let _ = self.inner.extend_from_slice(elements);
        }
    }
}
