//! Whether a line names what isn't declared above it, or isn't allowed there.

ghost use Rattle.std.specs.Prelude.{◌≡◌};
ghost use Rattle.vc_model_faults.specs.Unknown as unknown;

use crate::twice::{has, is_declared};
use vc_model_lines::Line;
use vc_model_scope::naming::Dependencies;
use vc_model_scope::scope::Scope;
use vc_model_scope::stands::UsesPlace;
use vc_value::Word;

/// Whether a name of the line isn't declared above it, or its root is no object.
#[tactic(auto, unfolding(crate::specs::Unknown::is_unknown))]
pub fn is_unknown(scope: &Scope, line: &Line) -> bool
    ensures { result ≡ unknown.is_unknown scope.now line.now }
{
    match line {
        Line::Uses(name) => !is_declared(&scope.dependencies, name),
        Line::Has(name) => !has(&scope.declared.characteristics, name),
        Line::Column(line) => !has(&scope.declared.characteristics, &line.characteristic),
        Line::Object(line) => !has(&scope.declared.classes, &line.class),
        Line::Root(material) => !has(&scope.declared.objects, material),
        _ => false,
    }
}

fn is_for_value(dependencies: &Dependencies, name: &Word) -> bool
    ensures { result ≡ unknown.is_for_value dependencies.now name.now }
{
    has(&dependencies.preconditions, name) || has(&dependencies.procedures, name)
}

fn is_for_characteristic(dependencies: &Dependencies, name: &Word) -> bool
    ensures { result ≡ unknown.is_for_characteristic dependencies.now name.now }
{
    is_for_value(dependencies, name) || has(&dependencies.selections, name)
}

fn is_for_object(dependencies: &Dependencies, name: &Word) -> bool
    ensures { result ≡ unknown.is_for_object dependencies.now name.now }
{
    has(&dependencies.nets, name) || has(&dependencies.procedures, name)
}

fn is_allowed(place: UsesPlace, dependencies: &Dependencies, name: &Word) -> bool
    ensures { result ≡ unknown.is_allowed place dependencies.now name.now }
{
    match place {
        UsesPlace::Nowhere => false,
        UsesPlace::Characteristic => is_for_characteristic(dependencies, name),
        UsesPlace::Value => is_for_value(dependencies, name),
        UsesPlace::Item => has(&dependencies.selections, name),
        UsesPlace::Net => has(&dependencies.constraints, name),
        UsesPlace::Object => is_for_object(dependencies, name),
    }
}

/// Whether the line uses a kind that isn't allowed there.
#[tactic(auto, unfolding(crate::specs::Unknown::is_wrong))]
pub fn is_wrong(scope: &Scope, line: &Line) -> bool
    ensures { result ≡ unknown.is_wrong scope.now line.now }
{
    match line {
        Line::Uses(name) => !is_allowed(scope.uses.place, &scope.dependencies, name),
        _ => false,
    }
}
