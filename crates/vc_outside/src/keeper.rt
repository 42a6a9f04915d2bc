//! Texts that are kept under names, from one run of the program to the next.

ghost use Rattle.std.specs.Prelude.{◌≡◌, ℕ, List, Option, IsSome, IfOk, option_map};
ghost use Rattle.vc_outside.specs.Keepers.{Begins, Forgets, HasKeepCause, Opens, Puts, Tells, Texts};

use std::alloc::{AllocError, Global};
use vc_value::Word;

/// Why a keeper refuses.
#[derive(Clone, Copy, Debug, PartialEq, Eq)]
pub enum KeepFault {
    /// The call failed. The keeper's count of faults was raised.
    Failed,
    /// Memory was wanting.
    OutOfMemory,
}

impl From<AllocError> for KeepFault {
    ghost use Rattle.std.specs.Prelude.{◌≡◌};
    ghost use Rattle.vc_outside.specs.declared.keeper.KeepFault.TheVariants as faults;

    ghost from_gives = { λ _ fault. fault ≡ faults.OutOfMemory };

    fn from(_error: AllocError) -> KeepFault {
        KeepFault::OutOfMemory
    }
}

/// Texts that are kept under names.
pub trait Keeper {
    // What is kept under each name, where the keeper tells it.
    ghost texts: { Self → Option Texts };

    // What is told once it is begun in the place of a name, or for this run alone.
    ghost opens: { Self → Option (List ℕ) → Option Texts };

    // Where it keeps them: the name of the last `begin` that succeeded, or none for this run alone; if one did.
    ghost begun: { Self → Option (Option (List ℕ)) };

    // How many calls failed, or the last value of a `u64`.
    ghost faults: { Self → ℕ };

    /// Begins to keep texts in the place of this name, or for this run alone, and tells what it opens there. After an
    /// error all is as before.
    fn begin(&mut self, name: Option<&str>) -> Result<(), KeepFault>
        ensures begun { Begins (begun self.old) (begun self.new) name.entry result }
        ensures texts { Opens (texts self.old) (opens self.old) (texts self.new) name.entry result }
        ensures cause { HasKeepCause (faults self.old) (faults self.new) result };

    /// Keeps the text under the name, in the place of the one before. After an error all is as before.
    fn put(&mut self, name: &[u8], text: &[u8]) -> Result<(), KeepFault>
        requires { IsSome (begun self.old) }
        ensures texts { Puts (texts self.old) (texts self.new) name.now text.now result }
        ensures begun { begun self.new ≡ begun self.old }
        ensures cause { HasKeepCause (faults self.old) (faults self.new) result };

    /// The text that is kept under the name, if one is.
    fn get(&mut self, name: &[u8]) -> Result<Option<Word>, KeepFault>
        requires { IsSome (begun self.old) }
        ensures told { Tells (texts self.old) name.now result }
        ensures texts { texts self.new ≡ texts self.old }
        ensures begun { begun self.new ≡ begun self.old }
        ensures cause { HasKeepCause (faults self.old) (faults self.new) result };

    /// Forgets the text under the name, and says whether one was there. After an error all is as before.
    fn remove(&mut self, name: &[u8]) -> Result<bool, KeepFault>
        requires { IsSome (begun self.old) }
        ensures texts { Forgets (texts self.old) (texts self.new) name.now result }
        ensures begun { begun self.new ≡ begun self.old }
        ensures cause { HasKeepCause (faults self.old) (faults self.new) result };
}

/// A copy of the name of a place, if one is named.
pub fn copied_name(alloc: Global, name: Option<&str>) -> Result<Option<Vec<u8>>, AllocError>
    ensures { IfOk result (λ copy. option_map (λ bytes. bytes.items) copy
        ≡ option_map (λ text. text.now) name.entry) }
{
    match name {
        Some(text) => Ok(Some(Vec::from_slice(alloc, text.as_bytes())?)),
        None => Ok(None),
    }
}
