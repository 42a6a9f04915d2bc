//! The first fault of the typing among those found.

ghost use Rattle.std.specs.Prelude.{◌≡◌, ◌∷◌, [], option_map, IfOk};
ghost use Rattle.vc_syntax_tree.specs.Trees.{Counts, dependency_of, term_of};
ghost use Rattle.vc_types.specs.Faults.{fault_of};
ghost use Rattle.vc_compile_plan.specs.Refusals as refusals;
ghost use Rattle.vc_compile_typing.specs.Finding.{first_of_both, first_with, seen, seen_if};

use std::alloc::{AllocError, Global};
use vc_model_parts::NamedDependency;
use vc_syntax_tree::{Dependency, Term};
use vc_types::{Place, TypeFaultKind};
use vc_types_dependency::{TypeFault, type_dependency, type_term};
use vc_types_names::Names;

/// A fault of the typing, with the line of the model's text on which the dependency, the line of a bill or the
/// operation begins that has it.
#[derive(Clone, Copy, Debug, PartialEq, Eq)]
pub struct Found {
    pub line: u32,
    pub kind: TypeFaultKind,
}

fn is_before(a: Found, b: Found) -> bool
    ensures { result ≡ refusals.is_before (seen a) (seen b) }
{
    a.line < b.line || a.line == b.line && a.kind.number() < b.kind.number()
}

// The earlier of two faults: that of the lower line, and there the least kind.
fn first_of_both(before: Option<Found>, next: Option<Found>) -> Option<Found>
    ensures { seen_if result ≡ first_of_both (seen_if before) (seen_if next) }
{
    match (before, next) {
        (before, None) => before,
        (None, next) => next,
        (Some(before), Some(next)) => {
            if is_before(next, before) {
                Some(next)
            } else {
                Some(before)
            }
        }
    }
}

// The least kind of fault of a dependency at a place.
fn kind_of(
    alloc: Global,
    names: &Names<'_>,
    dependency: &Dependency,
    place: &Place,
) -> Result<Option<TypeFaultKind>, AllocError>
    ensures { IfOk result (λ kind. kind ≡ fault_of names.now.model.now place.now (dependency_of dependency.now)) }
{
    match type_dependency(alloc, names, dependency, place) {
        Ok(_) => Ok(None),
        Err(TypeFault::Bad { kind }) => Ok(Some(kind)),
        Err(TypeFault::OutOfMemory) => Err(AllocError),
    }
}

// The same of a quantity or a time.
fn kind_of_term(
    alloc: Global,
    names: &Names<'_>,
    term: &Term,
    place: &Place,
) -> Result<Option<TypeFaultKind>, AllocError>
    ensures { IfOk result (λ kind. kind ≡ fault_of names.now.model.now place.now (Counts (term_of term.now))) }
{
    match type_term(alloc, names, term, place) {
        Ok(_) => Ok(None),
        Err(TypeFault::Bad { kind }) => Ok(Some(kind)),
        Err(TypeFault::OutOfMemory) => Err(AllocError),
    }
}

fn on_line(line: u32, kind: Option<TypeFaultKind>) -> Option<Found>
    ensures { seen_if result ≡ option_map (λ kind. record { line = line; kind = kind }) kind }
{
    match kind {
        Some(kind) => Some(Found { line, kind }),
        None => None,
    }
}

/// The first fault, with a dependency at a place typed too.
pub fn with_dependency(
    alloc: Global,
    names: &Names<'_>,
    named: &NamedDependency,
    place: &Place,
    before: Option<Found>,
) -> Result<Option<Found>, AllocError>
    ensures { IfOk result (λ first. seen_if first ≡ first_with names.now.model.now (seen_if before) (record {
      line = (named.now).line;
      place = place.now;
      tree = dependency_of (named.now).tree;
    } ∷ [])) }
{
    let kind = kind_of(alloc, names, &named.tree, place)?;
    Ok(first_of_both(before, on_line(named.line, kind)))
}

/// The first fault, with a quantity or a time at a place typed too.
pub fn with_term(
    alloc: Global,
    names: &Names<'_>,
    line: u32,
    term: &Term,
    place: &Place,
    before: Option<Found>,
) -> Result<Option<Found>, AllocError>
    ensures { IfOk result (λ first. seen_if first ≡ first_with names.now.model.now (seen_if before) (record {
      line = line;
      place = place.now;
      tree = Counts (term_of term.now);
    } ∷ [])) }
{
    let kind = kind_of_term(alloc, names, term, place)?;
    Ok(first_of_both(before, on_line(line, kind)))
}
