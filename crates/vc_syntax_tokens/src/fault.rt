//! Kinds of dependency, and why a text is none.

ghost use Rattle.std.specs.Prelude.{◌≡◌};
ghost use Rattle.vc_syntax_tokens.specs.declared.fault.SyntaxFault.TheVariants.{OutOfMemory};
ghost use Rattle.vc_syntax_tokens.specs.Faults.{number_of};

use std::alloc::AllocError;

/// What a dependency is for, which decides its form.
#[derive(Clone, Copy, Debug, PartialEq, Eq)]
pub enum Kind {
    Precondition,
    Selection,
    Procedure,
    Constraint,
    Term,
}

/// What is wrong with a text. The first six are found at a token, the others in the whole.
#[derive(Clone, Copy, Debug, PartialEq, Eq)]
pub enum SyntaxKind {
    /// A byte begins no token.
    BadByte,
    /// A quote isn't closed.
    OpenText,
    /// A text has over 30 characters or none.
    TextTooLong,
    /// A number has over nine digits before the point or over six after it.
    NumberTooWide,
    /// A name has over 30 characters.
    NameTooLong,
    /// A `$` or `?` isn't followed by a name, or the `$` word is none of the language.
    UnknownWord,
    /// The tokens are no dependency of the kind.
    NotADependency,
    /// Parentheses, or NOTs or minuses in a row, are over 32 deep.
    TooDeep,
    /// There are over 4,000 tokens.
    TooLong,
}

impl SyntaxKind {
    /// Its number: 1 to 9, in the order of the list.
    pub fn number(self) -> u8
        ensures { result ≡ number_of self }
    {
        match self {
            SyntaxKind::BadByte => 1,
            SyntaxKind::OpenText => 2,
            SyntaxKind::TextTooLong => 3,
            SyntaxKind::NumberTooWide => 4,
            SyntaxKind::NameTooLong => 5,
            SyntaxKind::UnknownWord => 6,
            SyntaxKind::NotADependency => 7,
            SyntaxKind::TooDeep => 8,
            SyntaxKind::TooLong => 9,
        }
    }
}

/// Why a text wasn't read.
#[derive(Clone, Copy, Debug, PartialEq, Eq)]
pub enum SyntaxFault {
    /// The first fault, and the first byte of its token, or 0 where the whole is at fault.
    Bad { kind: SyntaxKind, at: u32 },
    OutOfMemory,
}

impl From<AllocError> for SyntaxFault {
    ghost from_gives = { λ _ fault. fault ≡ OutOfMemory };

    fn from(_error: AllocError) -> SyntaxFault {
        SyntaxFault::OutOfMemory
    }
}
