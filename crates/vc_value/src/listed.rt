//! A vector that contracts see as its list, so that a struct of such fields compares by its contents.

ghost use Rattle.std.specs.Prelude.{◌≡◌, ◌==◌, ◌<◌, [], ◌∷◌, ◌++◌, length, slice_set, IfNone, IfSome, OnOk, OnErr};

use std::alloc::{AllocError, Global};
use std::marker::Model;

/// Elements in order, which a contract sees as their list.
#[derive(Debug, Drop)]
pub struct Listed<T> {
    inner: Vec<T>,
}

impl<T> Model for Listed<T> {
    ghost use Rattle.std.specs.Prelude.{List};

    ghost Value = { List T };

    ghost view = { λ l. l.inner.items };
}

impl<T> Listed<T> {
    /// The empty list.
    pub fn new(alloc: Global) -> Listed<T>
        ensures { result ≡ [] }
    {
        Listed {
            inner: Vec::new(alloc),
        }
    }

    /// The vector's elements.
    pub fn from_vec(inner: Vec<T>) -> Listed<T>
        ensures { result ≡ inner.items }
    {
        Listed { inner }
    }

    /// The elements as a vector.
    pub fn into_vec(self) -> Vec<T>
        ensures { result.items ≡ self }
    {
        let Listed { inner } = self;
        inner
    }

    /// The elements.
    pub fn as_slice(&self) -> &[T]
        ensures { result.now ≡ self.now }
    {
        self.inner.as_slice()
    }

    /// How many there are.
    pub fn len(&self) -> usize
        ensures { result ≡ length self.now }
    {
        self.inner.len()
    }

    /// Whether there is none.
    pub fn is_empty(&self) -> bool
        ensures { result ≡ (length self.now == 0) }
    {
        self.inner.is_empty()
    }
}

impl<T: Drop> Listed<T> {
    /// Puts an element at the end. After an error the list is as before.
    pub fn push(&mut self, element: T) -> Result<(), AllocError>
        ensures ok { OnOk result (self.new ≡ self.old ++ element ∷ []) }
        ensures err { OnErr result (self.new ≡ self.old) }
    {
        self.inner.push(element)?;
        Ok(())
    }

    /// Takes the last element, if there is one.
    pub fn pop(&mut self) -> Option<T>
        ensures some { IfSome result (λ element. self.old ≡ self.new ++ element ∷ []) }
        ensures none { IfNone result ((self.old ≡ []) × (self.new ≡ [])) }
    {
        self.inner.pop()
    }

    /// Puts an element in the place of another.
    pub fn set(&mut self, place: usize, element: T)
        requires { place < length self.old }
        ensures { self.new ≡ slice_set self.old place element }
    {
        self.inner[place] = element;
    }
}
