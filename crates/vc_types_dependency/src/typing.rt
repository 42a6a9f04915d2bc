//! The typing of a dependency where it stands.

ghost use Rattle.std.specs.Prelude.{◌≡◌, None, IfOk, IfErr};
ghost use Rattle.vc_syntax_tree.specs.Trees.{Counts, dependency_of, term_of};
ghost use Rattle.vc_types.specs.Faults.{fault_of};
ghost use Rattle.vc_types.specs.RangeFaults.{gets_too_large, size_of};
ghost use Rattle.vc_types.specs.Settings.{is_set, meaning};
ghost use Rattle.vc_types.specs.SortFaults.{sort_of};
ghost use Rattle.vc_types_dependency.specs.Instances.{instance_of, objects_of};
ghost use Rattle.vc_types_dependency.specs.Typing.{IsTyped, IsTypeFault};
ghost use Rattle.vc_types_meanings.specs.Borrowed.{tree_of};
ghost use Rattle.vc_types_meanings.specs.Seen.{seen};
ghost use Rattle.vc_types_sorts.specs.Sizes.{bounded};

use crate::faults::type_fault;
use crate::instances::{Instance, instance_of};
use std::alloc::{AllocError, Global};
use vc_syntax_tree::{Dependency, Object, Operand, Term};
use vc_types::{Meaning, Place, Sort, TypeFaultKind};
use vc_types_meanings::{Setting, Tree, borrowed};
use vc_types_names::Names;
use vc_types_sorts::{sizes, sorts};

/// Why a dependency isn't typed.
#[derive(Clone, Copy, Debug, PartialEq, Eq)]
pub enum TypeFault {
    /// A fault stands in it, of which this is the least kind.
    Bad { kind: TypeFaultKind },
    OutOfMemory,
}

/// A dependency that has no fault where it stands, with what its operands mean there.
#[derive(Drop)]
pub struct Typed<'n, 'm, 't> {
    setting: Setting<'n, 'm, 't>,
    tree: Tree<'t>,
}

fn objects<'t>(tree: Tree<'t>) -> &'t [Object]
    ensures { result.now ≡ objects_of (tree_of tree.entry) }
{
    match tree {
        Tree::Constraint(constraint) => constraint.objects.as_slice(),
        _ => &[],
    }
}

// The tree in its setting.
fn set<'n, 'm, 't>(
    alloc: Global,
    names: &'n Names<'m>,
    tree: Tree<'t>,
    place: &Place,
) -> Result<Typed<'n, 'm, 't>, AllocError>
    ensures { IfOk result (λ typed. IsTyped names.now.model.now place.now (tree_of tree.entry) typed) }
{
    let setting = Setting::new(alloc, names, *place, tree)?;
    Ok(Typed { setting, tree })
}

fn type_tree<'n, 'm, 't>(
    alloc: Global,
    names: &'n Names<'m>,
    tree: Tree<'t>,
    place: &Place,
) -> Result<Typed<'n, 'm, 't>, TypeFault>
    ensures typed { IfOk result (λ typed. (fault_of names.now.model.now place.now (tree_of tree.entry) ≡ None)
        × IsTyped names.now.model.now place.now (tree_of tree.entry) typed) }
    ensures bad { IfErr result (λ fault. IsTypeFault
        (fault_of names.now.model.now place.now (tree_of tree.entry)) fault) }
{
    match set(alloc, names, tree, place) {
        Ok(typed) => match type_fault(alloc, &typed.setting, tree) {
            Ok(None) => Ok(typed),
            Ok(Some(kind)) => Err(TypeFault::Bad { kind }),
            Err(_) => Err(TypeFault::OutOfMemory),
        },
        Err(_) => Err(TypeFault::OutOfMemory),
    }
}

/// Types the dependency at the place, by an index of the model's names that serves all dependencies
/// of the model.
pub fn type_dependency<'n, 'm, 't>(
    alloc: Global,
    names: &'n Names<'m>,
    dependency: &'t Dependency,
    place: &Place,
) -> Result<Typed<'n, 'm, 't>, TypeFault>
    ensures typed { IfOk result (λ typed. (fault_of names.now.model.now place.now (dependency_of dependency.now) ≡ None)
        × IsTyped names.now.model.now place.now (dependency_of dependency.now) typed) }
    ensures bad { IfErr result (λ fault. IsTypeFault
        (fault_of names.now.model.now place.now (dependency_of dependency.now)) fault) }
{
    type_tree(alloc, names, borrowed(dependency), place)
}

/// The same of the quantity of a line or the time of an operation.
pub fn type_term<'n, 'm, 't>(
    alloc: Global,
    names: &'n Names<'m>,
    term: &'t Term,
    place: &Place,
) -> Result<Typed<'n, 'm, 't>, TypeFault>
    ensures typed { IfOk result (λ typed. (fault_of names.now.model.now place.now (Counts (term_of term.now)) ≡ None)
        × IsTyped names.now.model.now place.now (Counts (term_of term.now)) typed) }
    ensures bad { IfErr result (λ fault. IsTypeFault
        (fault_of names.now.model.now place.now (Counts (term_of term.now))) fault) }
{
    type_tree(alloc, names, Tree::Term(term), place)
}

impl<'n, 'm, 't> Typed<'n, 'm, 't> {
    /// The dependency.
    pub fn tree(&self) -> Tree<'t>
        ensures { tree_of result ≡ tree_of self.now.tree }
    {
        self.tree
    }

    /// What an operand of the dependency means.
    pub fn meaning(&self, operand: &Operand) -> Meaning
        ensures { result ≡ meaning (seen self.now.setting) operand.now }
    {
        self.setting.meaning(operand)
    }

    /// Of which instance an operand of the dependency names a characteristic.
    pub fn instance(&self, operand: &Operand) -> Instance
        ensures { result ≡ instance_of (seen self.now.setting).place.at
            (objects_of (tree_of self.now.tree)) operand.now }
    {
        instance_of(self.setting.place().at, objects(self.tree), operand)
    }

    /// Whether an operand of the dependency has sets of texts.
    pub fn is_set(&self, operand: &Operand) -> bool
        ensures { result ≡ is_set (seen self.now.setting).model (meaning (seen self.now.setting) operand.now) }
    {
        sorts::is_set(self.setting.names(), self.setting.meaning(operand))
    }

    /// Whether a term of the dependency is a text or a number.
    pub fn sort_of(&self, term: &Term) -> Option<Sort>
        ensures { result ≡ sort_of (seen self.now.setting) (term_of term.now) }
    {
        sorts::sort_of(&self.setting, term)
    }

    /// The size that a term's number has at most, in millionths; none where a number on the way gets
    /// too large, as in no term of the dependency.
    pub fn bound(&self, term: &Term) -> Option<u128>
        ensures { result ≡ bounded (gets_too_large (seen self.now.setting) (term_of term.now))
            (size_of (seen self.now.setting) (term_of term.now)) }
    {
        sizes::bound(&self.setting, term)
    }
}
