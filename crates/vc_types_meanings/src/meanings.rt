//! What operands mean, where it is known what the `?` variables stand for.

ghost use Rattle.std.specs.Prelude.{◌≡◌};
ghost use Rattle.vc_types.specs.Meanings as meanings;

use vc_syntax_tree::{ObjectKind, Owner};
use vc_types::{At, Meaning, Place, Referent};
use vc_types_names::Names;

/// The class of what a constraint names.
pub fn class_meant(names: &Names, kind: &ObjectKind) -> Option<u32>
    ensures { result ≡ meanings.class_meant names.now.model.now kind.now }
{
    match kind {
        ObjectKind::Class(leaf) => names.class(leaf.name.bytes()),
        ObjectKind::Material(leaf) => names.class_of(names.object(leaf.text.bytes())),
    }
}

/// The meaning of what has this characteristic.
pub fn known(characteristic: Option<u32>) -> Meaning
    ensures { result ≡ meanings.known characteristic }
{
    match characteristic {
        Some(characteristic) => Meaning::Characteristic(characteristic),
        None => Meaning::Unknown,
    }
}

fn of_object(names: &Names, name: &[u8], object: Option<u32>) -> Meaning
    ensures { result ≡ meanings.of_object names.now.model.now name.now object }
{
    known(names.member_of(name, names.class_of(object)))
}

fn of_parent(names: &Names, name: &[u8], parent: Option<u32>) -> Meaning
    ensures { result ≡ meanings.of_parent names.now.model.now name.now parent }
{
    match parent {
        Some(parent) => of_object(names, name, Some(parent)),
        None => Meaning::NoParent,
    }
}

/// A name alone.
pub fn plain_meaning(names: &Names, place: &Place, name: &[u8]) -> Meaning
    ensures { result ≡ meanings.plain_meaning names.now.model.now place.now name.now (place.now).at }
{
    match place.at {
        At::Constraint => Meaning::SelfInConstraint,
        _ => of_object(names, name, Some(place.object)),
    }
}

fn self_meaning(names: &Names, place: &Place, name: &[u8]) -> Meaning
    ensures { result ≡ meanings.self_meaning names.now.model.now place.now name.now (place.now).at }
{
    match place.at {
        At::Constraint => Meaning::SelfInConstraint,
        At::Line { .. } => Meaning::SelfInLine,
        _ => of_object(names, name, Some(place.object)),
    }
}

fn parent_meaning(names: &Names, place: &Place, name: &[u8]) -> Meaning
    ensures { result ≡ meanings.parent_meaning names.now.model.now place.now name.now (place.now).at }
{
    match place.at {
        At::Constraint => Meaning::SelfInConstraint,
        At::Line { .. } => of_object(names, name, Some(place.object)),
        _ => of_parent(names, name, place.parent),
    }
}

fn root_meaning(names: &Names, place: &Place, name: &[u8]) -> Meaning
    ensures { result ≡ meanings.root_meaning names.now.model.now name.now (place.now).at }
{
    match place.at {
        At::Constraint => Meaning::SelfInConstraint,
        _ => of_object(names, name, Some(names.model().root)),
    }
}

/// A characteristic of `$SELF`, `$PARENT` or `$ROOT`.
pub fn owned_meaning(names: &Names, place: &Place, owner: Owner, name: &[u8]) -> Meaning
    ensures { result ≡ meanings.owned_meaning names.now.model.now place.now owner name.now }
{
    match owner {
        Owner::Itself => self_meaning(names, place, name),
        Owner::Parent => parent_meaning(names, place, name),
        Owner::Root => root_meaning(names, place, name),
    }
}

fn member_meaning(names: &Names, name: &[u8], referent: Option<Referent>) -> Meaning
    ensures { result ≡ meanings.member_meaning names.now.model.now name.now referent }
{
    match referent {
        None => Meaning::Unknown,
        Some(Referent::Object(class)) => known(names.member_of(name, class)),
        Some(Referent::Value(_)) => Meaning::ValueForObject,
    }
}

fn value_meaning(referent: Option<Referent>) -> Meaning
    ensures { result ≡ meanings.value_meaning referent }
{
    match referent {
        None => Meaning::Unknown,
        Some(Referent::Object(_)) => Meaning::ObjectForValue,
        Some(Referent::Value(characteristic)) => known(characteristic),
    }
}

/// A characteristic of the object that a `?` variable stands for.
pub fn variable_member(names: &Names, at: At, name: &[u8], referent: Option<Referent>) -> Meaning
    ensures { result ≡ meanings.if_constraint at (meanings.member_meaning names.now.model.now name.now referent) }
{
    match at {
        At::Constraint => member_meaning(names, name, referent),
        _ => Meaning::VariableOutside,
    }
}

/// A `?` variable that stands for a value.
pub fn variable_value(at: At, referent: Option<Referent>) -> Meaning
    ensures { result ≡ meanings.if_constraint at (meanings.value_meaning referent) }
{
    match at {
        At::Constraint => value_meaning(referent),
        _ => Meaning::VariableOutside,
    }
}
