//! Why a text is no model.

ghost use Rattle.std.specs.Prelude.{◌≡◌};
ghost use Rattle.vc_model_faults.specs.Faults.{number_of};
ghost use Rattle.vc_model_faults.specs.declared.fault.ModelFault.TheVariants.{OutOfMemory};

use std::alloc::AllocError;

/// What is wrong with a text. Of the kinds that stand at one line the first of this list counts.
#[derive(Clone, Copy, Debug, PartialEq, Eq)]
pub enum ModelFaultKind {
    /// The text isn't UTF-8.
    NotText,
    /// A line has over 1,000 bytes.
    LineTooLong,
    /// A line has the shape of no form.
    NotALine,
    /// A form may not stand there, or a block isn't closed.
    Misplaced,
    /// A word that must be a name, a material or a unit isn't one.
    BadName,
    /// A name is declared, a value, member or column listed or a dependency used already, or an
    /// object is used above as a plain component.
    Twice,
    /// A name isn't declared above, or the root is no object.
    Unknown,
    /// A value, length, decimals, version, item or interval breaks its rule.
    BadValue,
    /// A block's text or a term isn't in the dependency language.
    Syntax,
    /// A USES names a kind that isn't allowed there.
    WrongDependency,
    /// An ACTION.
    Action,
    /// A characteristic has no VALUE.
    NoValues,
    /// There is one more than a limit allows.
    TooMany,
    /// The text ends without ROOT.
    NoRoot,
    /// MULTIPLE stands with RESTRICTABLE.
    MultipleRestrictable,
}

impl ModelFaultKind {
    /// Its number: 1 to 15, in the order of the list.
    pub fn number(self) -> u8
        ensures { result ≡ number_of self }
    {
        match self {
            ModelFaultKind::NotText => 1,
            ModelFaultKind::LineTooLong => 2,
            ModelFaultKind::NotALine => 3,
            ModelFaultKind::Misplaced => 4,
            ModelFaultKind::BadName => 5,
            ModelFaultKind::Twice => 6,
            ModelFaultKind::Unknown => 7,
            ModelFaultKind::BadValue => 8,
            ModelFaultKind::Syntax => 9,
            ModelFaultKind::WrongDependency => 10,
            ModelFaultKind::Action => 11,
            ModelFaultKind::NoValues => 12,
            ModelFaultKind::TooMany => 13,
            ModelFaultKind::NoRoot => 14,
            ModelFaultKind::MultipleRestrictable => 15,
        }
    }
}

/// Why a text wasn't read.
#[derive(Clone, Copy, Debug, PartialEq, Eq)]
pub enum ModelFault {
    /// The first faulty line, counted from 1, with its kind; 0 where the text isn't UTF-8.
    Bad { kind: ModelFaultKind, line: u32 },
    OutOfMemory,
}

impl From<AllocError> for ModelFault {
    ghost from_gives = { λ _ fault. fault ≡ OutOfMemory };

    fn from(_error: AllocError) -> ModelFault {
        ModelFault::OutOfMemory
    }
}
