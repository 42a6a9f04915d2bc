//! Values by names. Of equal names the first counts.

ghost use Rattle.std.specs.Prelude.{◌≡◌, ℕ, List, None, Some, OnOk, if◌then◌else◌};
ghost use Rattle.std.specs.Option.{option_or};
ghost use Rattle.std.specs.Str.{bytes_eq};
ghost use Rattle.vc_types_names.specs.FirstNames.{value_of};

use indexmap::IndexMap;
use std::alloc::{AllocError, Global};

/// Values by names.
#[derive(Drop)]
pub struct FirstNamed<V> {
    met: IndexMap<Vec<u8>, V>,
}

impl<V: Copy> FirstNamed<V> {
    /// No names.
    pub fn new(alloc: Global) -> FirstNamed<V>
        ensures { (name : List ℕ) → value_of result name ≡ None }
    {
        FirstNamed {
            met: IndexMap::new(alloc),
        }
    }

    /// Gives the name the value, unless it has one.
    pub fn add(&mut self, alloc: Global, name: &[u8], value: V) -> Result<(), AllocError>
        ensures { OnOk result ((other : List ℕ) → value_of self.new other
            ≡ option_or (value_of self.old other) (if bytes_eq name.now other then Some value else None)) }
    {
        if self.find(name).is_none() {
            let key = Vec::from_slice(alloc, name)?;
            self.met.insert(key, value)?;
        }
        Ok(())
    }

    /// The value of the first such name.
    pub fn find(&self, name: &[u8]) -> Option<V>
        ensures { result ≡ value_of self.now name.now }
    {
        self.met.get(name).copied()
    }
}
