//! The tokens of a dependency: their spellings, how a text is cut into them, their limits and their canonical text.
#![tactic(auto)]

pub mod fault;
pub mod lexing;
pub mod limits;
pub mod printing;
pub mod spelling;
pub mod token;

pub use fault::{Kind, SyntaxFault, SyntaxKind};
pub use token::{Dollar, Lexeme, Reserved, Sign, Token};
