//! Why a model has no plan.

ghost use Rattle.std.specs.Prelude.{◌≡◌};
ghost use Rattle.vc_compile_plan.specs.FaultNumbers.{number_of};
ghost use Rattle.vc_compile_plan.specs.declared.fault.CompileFault.TheVariants as faults;

use std::alloc::AllocError;
use vc_types::TypeFaultKind;

/// Why a model has no plan. Sizes are asked in the order of the variants; the typing is asked
/// behind the slots.
#[derive(Clone, Copy, Debug, PartialEq, Eq)]
pub enum CompileFault {
    /// More than 4 levels of slots.
    TooDeep,
    /// More than 40 slots.
    TooManySlots,
    /// More than 20,000 rules.
    TooManyRules,
    /// More than 40,000 atoms.
    TooManyAtoms,
    /// More than 500,000 cells.
    TooManyCells,
    /// A dependency or term is faulty where it stands: the first line that has a fault, with its least kind there.
    Typing { kind: TypeFaultKind, line: u32 },
    OutOfMemory,
}

impl CompileFault {
    /// The fault's number, counted from 1; want of memory has none.
    pub fn number(self) -> Option<u8>
        ensures { result ≡ number_of self }
    {
        match self {
            CompileFault::TooDeep => Some(1),
            CompileFault::TooManySlots => Some(2),
            CompileFault::TooManyRules => Some(3),
            CompileFault::TooManyAtoms => Some(4),
            CompileFault::TooManyCells => Some(5),
            CompileFault::Typing { .. } => Some(6),
            CompileFault::OutOfMemory => None,
        }
    }
}

impl From<AllocError> for CompileFault {
    ghost from_gives = { λ _ fault. fault ≡ faults.OutOfMemory };

    fn from(_error: AllocError) -> CompileFault {
        CompileFault::OutOfMemory
    }
}
