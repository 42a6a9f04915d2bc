//! Why a saved text gives nothing.

use std::alloc::AllocError;

/// Why a saved text gives nothing: the first of these, or want of memory.
#[derive(Clone, Copy, Debug, PartialEq, Eq)]
pub enum SavedFault {
    /// It is no JSON.
    NotJson,
    /// It isn't of the form in which sessions are saved, or something stands twice in it.
    Shape,
    /// It was saved of another model, or of another version.
    OtherModel,
    /// The plan hasn't an instance, a characteristic or a value that it names.
    UnknownName,
    /// Memory was wanting.
    OutOfMemory,
}

impl From<AllocError> for SavedFault {
    ghost use Rattle.std.specs.Prelude.{◌≡◌};
    ghost use Rattle.vc_store.specs.declared.faults.SavedFault.TheVariants as faults;

    ghost from_gives = { λ _ fault. fault ≡ faults.OutOfMemory };

    fn from(_error: AllocError) -> SavedFault {
        SavedFault::OutOfMemory
    }
}
