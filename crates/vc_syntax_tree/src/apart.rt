//! A value in a place of its own, so that what seldom has one stays small.

ghost use Rattle.std.specs.Prelude.{◌≡◌, IfOk};

use std::alloc::{AllocError, Global};
use std::marker::Model;

/// A value that stands apart in memory, which a contract sees as the value.
#[derive(Debug, Drop)]
pub struct Apart<T> {
    inner: Box<T>,
}

impl<T> Model for Apart<T> {
    ghost Value = { T };

    ghost view = { λ a. a.inner.value };
}

impl<T: Drop> Apart<T> {
    /// The value, put in a place of its own.
    pub fn new(alloc: Global, value: T) -> Result<Apart<T>, AllocError>
        ensures { IfOk result (λ apart. apart ≡ value) }
    {
        let inner = Box::new(alloc, value)?;
        Ok(Apart { inner })
    }

    /// The value.
    pub fn get(&self) -> &T
        ensures { result.now ≡ self.now }
    {
        &self.inner
    }
}
