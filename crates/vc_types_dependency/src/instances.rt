//! Of which instance an operand names a characteristic, seen from where its dependency stands.

ghost use Rattle.std.specs.Prelude.{◌≡◌, position};
ghost use Rattle.vc_types_dependency.specs.Instances.{has_alias, instance_of, is_called, of_object, of_owner};

use vc_syntax_tree::{Object, Operand, Owner};
use vc_types::At;

/// An instance, seen from where a dependency stands.
#[derive(Clone, Copy, Debug, PartialEq, Eq)]
pub enum Instance {
    /// Where the dependency stands; of a line the owner of the bill.
    Own,
    /// The direct superior of that one.
    Superior,
    /// The root.
    Root,
    /// That of the constraint's object of this number, from 0.
    Object(usize),
    /// None, as no object declares the `?` variable.
    Undeclared,
}

fn of_owner(at: At, owner: Owner) -> Instance
    ensures { result ≡ of_owner at owner }
{
    match (owner, at) {
        (Owner::Itself, _) => Instance::Own,
        (Owner::Parent, At::Line { .. }) => Instance::Own,
        (Owner::Parent, _) => Instance::Superior,
        (Owner::Root, _) => Instance::Root,
    }
}

fn of_object(place: Option<usize>) -> Instance
    ensures { result ≡ of_object place }
{
    match place {
        Some(place) => Instance::Object(place),
        None => Instance::Undeclared,
    }
}

fn is_called(name: &[u8], object: &Object) -> bool
    ensures { result ≡ is_called name.now object.now }
{
    object.variable.name.is(name)
}

fn has_alias(name: &[u8], object: &Object) -> bool
    ensures { result ≡ has_alias name.now object.now }
{
    object
        .aliases
        .as_slice()
        .iter()
        .any(|alias| alias.variable.name.is(name))
}

fn object_called(objects: &[Object], name: &[u8]) -> Option<usize>
    ensures { result ≡ position (is_called name.now) objects.now }
{
    objects.iter().position(|object| is_called(name, object))
}

fn object_with_alias(objects: &[Object], name: &[u8]) -> Option<usize>
    ensures { result ≡ position (has_alias name.now) objects.now }
{
    objects.iter().position(|object| has_alias(name, object))
}

/// The instance of which the operand names a characteristic, in a dependency with these objects that stands there.
pub fn instance_of(at: At, objects: &[Object], operand: &Operand) -> Instance
    ensures { result ≡ instance_of at objects.now operand.now }
{
    match operand {
        Operand::Plain(_) => Instance::Own,
        Operand::Owned(owner, _) => of_owner(at, *owner),
        Operand::Member(variable, _) => {
            of_object(object_called(objects, variable.get().name.bytes()))
        }
        Operand::Variable(leaf) => of_object(object_with_alias(objects, leaf.name.bytes())),
    }
}
