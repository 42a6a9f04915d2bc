//! The dependency language: each text read as the tree that its grammar gives it.
#![tactic(auto)]

pub mod constraints;
pub mod dependencies;
pub mod statements;

pub use dependencies::{read_dependency, read_term};
pub use vc_syntax_tokens::{Dollar, Kind, Lexeme, Reserved, Sign, SyntaxFault, SyntaxKind, Token};
