//! The canonical text of a whole dependency.

ghost use Rattle.std.specs.Prelude.{◌≡◌, ◌++◌, ℕ, List, IfOk, OnOk};
ghost use Rattle.vc_syntax_tokens.specs.declared.fault.Kind.{Kind};
ghost use Rattle.vc_syntax.specs.Spelled.{Spells};
ghost use Rattle.vc_syntax_tree.specs.Trees as trees;
ghost use Rattle.vc_syntax_tree.specs.Trees.{dependency_of, term_of};
ghost use Rattle.vc_syntax_print.specs.DependencyLexemes as prints;
ghost use Rattle.vc_syntax_print.specs.Places.{bare};

use crate::conditions::put_condition;
use crate::constraints::put_constraint;
use crate::statements::put_statements;
use crate::terms::put_term;
use std::alloc::{AllocError, Global};
use vc_syntax_tokens::printing::text_of;
use vc_syntax_tokens::token::Lexeme;
use vc_syntax_tree::{Dependency, Term};
use vc_value::{Listed, Word};

fn put_dependency(
    alloc: Global,
    out: &mut Listed<Lexeme>,
    dependency: &Dependency,
) -> Result<(), AllocError>
    ensures { OnOk result (out.new ≡ out.old ++ prints.dependency_lexemes (dependency_of dependency.now)) }
{
    match dependency {
        Dependency::Precondition(condition) => put_condition(alloc, out, condition),
        Dependency::Selection(condition) => put_condition(alloc, out, condition),
        Dependency::Procedure(statements) => put_statements(alloc, out, statements.as_slice()),
        Dependency::Constraint(constraint) => put_constraint(alloc, out, constraint),
        Dependency::Term(term) => put_term(alloc, out, term),
    }
}

/// The canonical text of the dependency: names and words in upper case, a space between two tokens
/// but none round a dot, each section on a line of its own, and no parentheses but those needed.
pub fn print_dependency(alloc: Global, dependency: &Dependency) -> Result<Word, AllocError>
    ensures { IfOk result (λ text. text ≡ prints.canonical_text (dependency_of dependency.now)) }
{
    let mut lexemes = Listed::new(alloc);
    put_dependency(alloc, &mut lexemes, dependency)?;
    text_of(alloc, lexemes.as_slice())
}

/// The canonical text of the term.
pub fn print_term(alloc: Global, term: &Term) -> Result<Word, AllocError>
    ensures { IfOk result (λ text. text ≡ prints.canonical_text (trees.Counts (term_of term.now))) }
{
    let mut lexemes = Listed::new(alloc);
    put_term(alloc, &mut lexemes, term)?;
    text_of(alloc, lexemes.as_slice())
}

/// The canonical text of a dependency that some text spells, spells that dependency again as the
/// same kind, within the limits, and no other: but for the places of its leaves in the text.
pub fn canonical_text_is_read_again()
    ensures spelled { (kind : Kind) (text : List ℕ) (tree : trees.Dependency) → Spells kind text tree
        → (again : trees.Dependency) × Spells kind (prints.canonical_text tree) again × (bare again ≡ bare tree) }
    ensures alone { (kind : Kind) (text : List ℕ) (tree again : trees.Dependency) → Spells kind text tree
        → Spells kind (prints.canonical_text tree) again → bare again ≡ bare tree }
{}
