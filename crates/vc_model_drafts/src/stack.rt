//! A list that grows at its front.

ghost use Rattle.std.specs.Prelude.{◌≡◌, [], ◌∷◌, option_copied, slice_get, OnOk};
ghost use Rattle.std.specs.List.{cons_option};

use std::alloc::{AllocError, Global};
use std::marker::Model;
use vc_value::Listed;

/// Elements, the one put last in front, which a contract sees as their list.
#[derive(Drop)]
pub struct Stack<T> {
    inner: Vec<T>,
}

impl<T> Model for Stack<T> {
    ghost use Rattle.std.specs.Prelude.{List, reverse};

    ghost Value = { List T };

    ghost view = { λ s. reverse s.inner.items };
}

impl<T> Stack<T> {
    pub fn new(alloc: Global) -> Stack<T>
        ensures { result ≡ [] }
    {
        Stack {
            inner: Vec::new(alloc),
        }
    }

    /// The element in front.
    pub fn front(&self) -> Option<&T>
        ensures { option_copied result ≡ slice_get self.now 0 }
    {
        self.inner.last()
    }

    pub fn into_listed(self) -> Listed<T>
        ensures { result ≡ self }
    {
        let Stack { mut inner } = self;
        inner.reverse();
        Listed::from_vec(inner)
    }
}

impl<T: Drop> Stack<T> {
    /// Puts an element in front.
    pub fn push_front(&mut self, element: T) -> Result<(), AllocError>
        ensures { OnOk result (self.new ≡ element ∷ self.old) }
    {
        self.inner.push(element)?;
        Ok(())
    }

    /// Puts an element in front, if there is one.
    pub fn push_option(&mut self, element: Option<T>) -> Result<(), AllocError>
        ensures { OnOk result (self.new ≡ cons_option element self.old) }
    {
        if let Some(element) = element {
            self.push_front(element)?;
        }
        Ok(())
    }
}
