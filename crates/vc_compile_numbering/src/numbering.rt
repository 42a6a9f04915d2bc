//! Things with the numbers of their conditions and terms.

ghost use Rattle.std.specs.Prelude.{◌≡◌, ◌∷◌, [], ◌++◌, IfOk, OnOk};

use crate::trees::Trees;
use std::alloc::{AllocError, Global};
use vc_value::Listed;

/// Things of one kind, as rules or lines, with the conditions and terms that they and others have.
#[derive(Drop)]
pub struct Numbering<X> {
    pub trees: Trees,
    pub items: Listed<X>,
}

impl<X: Drop> Numbering<X> {
    /// No things yet, over these conditions and terms.
    pub fn over(alloc: Global, trees: Trees) -> Numbering<X>
        ensures trees { result.trees ≡ trees }
        ensures items { result.items ≡ [] }
    {
        Numbering {
            trees,
            items: Listed::new(alloc),
        }
    }

    /// No things yet, over these conditions and terms, with capacity for so many.
    pub fn with_capacity(
        alloc: Global,
        trees: Trees,
        capacity: usize,
    ) -> Result<Numbering<X>, AllocError>
        ensures trees { IfOk result (λ numbering. numbering.trees ≡ trees) }
        ensures items { IfOk result (λ numbering. numbering.items ≡ []) }
    {
        let items = Vec::with_capacity(alloc, capacity)?;
        Ok(Numbering {
            trees,
            items: Listed::from_vec(items),
        })
    }

    /// Puts a thing last.
    pub fn push(&mut self, item: X) -> Result<(), AllocError>
        ensures items { OnOk result (self.new.items ≡ self.old.items ++ item ∷ []) }
        ensures trees { self.new.trees ≡ self.old.trees }
    {
        self.items.push(item)
    }

    /// The things apart from the conditions and terms.
    pub fn into_parts(self) -> (Trees, Listed<X>)
        ensures trees { result.0 ≡ self.trees }
        ensures items { result.1 ≡ self.items }
    {
        let Numbering { trees, items } = self;
        (trees, items)
    }
}
