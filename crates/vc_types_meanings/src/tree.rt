//! Dependencies as they are kept.

ghost use Rattle.std.specs.Prelude.{◌≡◌};
ghost use Rattle.vc_syntax_tree.specs.Trees.{dependency_of};
ghost use Rattle.vc_types_meanings.specs.Borrowed.{tree_of};

use vc_syntax_tree::{Condition, Constraint, Dependency, Statement, Term};

/// A dependency, wherever its parts are kept: a quantity or a time is the term of a line or an
/// operation, and stands in no block.
#[derive(Clone, Copy)]
pub enum Tree<'a> {
    Precondition(&'a Condition),
    Selection(&'a Condition),
    Procedure(&'a [Statement]),
    Constraint(&'a Constraint),
    Term(&'a Term),
}

/// The tree of a dependency of a block.
pub fn borrowed(dependency: &Dependency) -> Tree<'_>
    ensures { tree_of result ≡ dependency_of dependency.now }
{
    match dependency {
        Dependency::Precondition(condition) => Tree::Precondition(condition),
        Dependency::Selection(condition) => Tree::Selection(condition),
        Dependency::Procedure(statements) => Tree::Procedure(statements.as_slice()),
        Dependency::Constraint(constraint) => Tree::Constraint(constraint),
        Dependency::Term(term) => Tree::Term(term),
    }
}
