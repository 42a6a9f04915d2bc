//! Dependencies by their numbers, typed where they stand.

ghost use Rattle.std.specs.Prelude.{◌≡◌, IfOk, None};
ghost use Rattle.vc_syntax_tree.specs.Trees.{dependency_of};
ghost use Rattle.vc_compile_plan.specs.Places as places;
ghost use Rattle.vc_compile_plan.specs.Refusals as refusals;
ghost use Rattle.vc_compile_plan.specs.Rules as rules;
ghost use Rattle.vc_compile_layout.specs.Standing.{layout_seen};
ghost use Rattle.vc_compile_typing.specs.Finding.{first_with, seen_if};

use crate::finding::{Found, with_dependency};
use std::alloc::{AllocError, Global};
use vc_compile_layout::Layout;
use vc_compile_sites::place_at;
use vc_compile_uses::net_constraints;
use vc_plan::Slot;
use vc_syntax_tree::Dependency;
use vc_types::{At, Place};

// A procedure stands elsewhere than a condition at the same characteristic or value.
fn at_of(dependency: &Dependency) -> At
    ensures { result ≡ refusals.at_of (dependency_of dependency.now) }
{
    match dependency {
        Dependency::Procedure(_) => At::Procedure,
        _ => At::Characteristic,
    }
}

fn with_number(
    alloc: Global,
    layout: &Layout<'_, '_>,
    place: &Place,
    number: u32,
    before: Option<Found>,
) -> Result<Option<Found>, AllocError>
    ensures { IfOk result (λ first. seen_if first ≡ first_with (layout_seen layout.now).model (seen_if before)
        (refusals.typed_if (layout_seen layout.now).model (λ dependency. place.now) number)) }
{
    match layout.dependency(number) {
        Some(named) => {
            let first = with_dependency(alloc, layout.names(), named, place, before)?;
            Ok(first)
        }
        None => Ok(before),
    }
}

/// The first fault, with the dependencies of these numbers typed at a place.
pub fn with_uses(
    alloc: Global,
    layout: &Layout<'_, '_>,
    place: &Place,
    uses: &[u32],
    before: Option<Found>,
) -> Result<Option<Found>, AllocError>
    ensures { IfOk result (λ first. seen_if first ≡ first_with (layout_seen layout.now).model (seen_if before)
        (refusals.typed_at (layout_seen layout.now).model (λ dependency. place.now) uses.now)) }
{
    let mut first = before;
    for number in uses {
        first = with_number(alloc, layout, place, *number, first)?;
    }
    Ok(first)
}

fn with_number_at(
    alloc: Global,
    layout: &Layout<'_, '_>,
    slot: &Slot,
    number: u32,
    before: Option<Found>,
) -> Result<Option<Found>, AllocError>
    ensures { IfOk result (λ first. seen_if first ≡ first_with (layout_seen layout.now).model (seen_if before)
        (refusals.typed_if (layout_seen layout.now).model
        (λ dependency. places.place_at (layout_seen layout.now) slot.now (refusals.at_of dependency)) number)) }
{
    match layout.dependency(number) {
        Some(named) => {
            let place = place_at(layout, slot, at_of(&named.tree));
            let first = with_dependency(alloc, layout.names(), named, &place, before)?;
            Ok(first)
        }
        None => Ok(before),
    }
}

/// The first fault, with the dependencies of these numbers typed at a slot, each at the place of its kind.
pub fn with_uses_at(
    alloc: Global,
    layout: &Layout<'_, '_>,
    slot: &Slot,
    uses: &[u32],
    before: Option<Found>,
) -> Result<Option<Found>, AllocError>
    ensures { IfOk result (λ first. seen_if first ≡ first_with (layout_seen layout.now).model (seen_if before)
        (refusals.typed_at (layout_seen layout.now).model
        (λ dependency. places.place_at (layout_seen layout.now) slot.now (refusals.at_of dependency)) uses.now)) }
{
    let mut first = before;
    for number in uses {
        first = with_number_at(alloc, layout, slot, *number, first)?;
    }
    Ok(first)
}

// A constraint stands in a net, at no object of its own.
fn in_net() -> Place
    ensures { result ≡ rules.in_net }
{
    Place {
        object: 0,
        parent: None,
        at: At::Constraint,
    }
}

/// The first fault of constraints.
pub fn with_constraints(alloc: Global, layout: &Layout<'_, '_>) -> Result<Option<Found>, AllocError>
    ensures { IfOk result (λ first. seen_if first ≡ first_with (layout_seen layout.now).model None
        (refusals.typed_constraints (layout_seen layout.now).model)) }
{
    let numbers = net_constraints(alloc, layout.names().model())?;
    let first = with_uses(alloc, layout, &in_net(), numbers.as_slice(), None)?;
    Ok(first)
}
