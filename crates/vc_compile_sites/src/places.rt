//! What stands at slots: its place, its site, and what is asked of it there.

ghost use Rattle.std.specs.Prelude.{◌≡◌, [], ◌++◌, map, option_map, option_to_list, IfOk, OnOk, if◌then◌else◌};
ghost use Rattle.std.specs.Option.{option_copied};
ghost use Rattle.vc_syntax_tree.specs.Trees.{condition_of, dependency_of, statement_of};
ghost use Rattle.vc_types.specs.Settings.{is_line};
ghost use Rattle.vc_types_meanings.specs.Seen.{seen};
ghost use Rattle.vc_compile_plan.specs.Layouts.{tree_of, object_at, object_if};
ghost use Rattle.vc_compile_plan.specs.Places as places;
ghost use Rattle.vc_compile_plan.specs.Shown as shown;
ghost use Rattle.vc_compile_plan.specs.Sites.{number_or_zero};
ghost use Rattle.vc_compile_layout.specs.Standing.{layout_seen};
ghost use Rattle.vc_compile_sites.specs.Standing.{asked_seen, site_seen};

use crate::site::Site;
use std::alloc::{AllocError, Global};
use vc_compile_layout::Layout;
use vc_model_parts::Component;
use vc_plan::Slot;
use vc_syntax_tree::{Condition, Dependency, Statement};
use vc_types::{At, Place};
use vc_types_meanings::{Setting, Tree};
use vc_value::Listed;

/// A dependency that asks a condition.
#[derive(Clone, Copy)]
pub struct Asked<'n> {
    pub dependency: u32,
    pub condition: &'n Condition,
}

/// Whether a line of this component is configured.
pub fn is_configurable(component: &Component) -> bool
    ensures { result ≡ shown.is_configurable component.now }
{
    match component {
        Component::Object(_) => true,
        Component::Plain(_) => false,
    }
}

fn object_at(layout: &Layout<'_, '_>, slot: u32) -> Option<u32>
    ensures { result ≡ object_at (layout_seen layout.now) slot }
{
    match layout.slots().get(slot as usize) {
        Some(slot) => Some(slot.object),
        None => None,
    }
}

fn object_if(layout: &Layout<'_, '_>, slot: Option<u32>) -> Option<u32>
    ensures { result ≡ object_if (layout_seen layout.now) slot }
{
    match slot {
        Some(slot) => object_at(layout, slot),
        None => None,
    }
}

/// The place of what stands so at a slot.
pub fn place_at(layout: &Layout<'_, '_>, slot: &Slot, at: At) -> Place
    ensures { result ≡ places.place_at (layout_seen layout.now) slot.now at }
{
    Place {
        object: slot.object,
        parent: object_if(layout, slot.parent),
        at,
    }
}

/// How names are meant in what stands so at a slot and declares no `?` variables.
pub fn setting_at<'n, 'm>(
    alloc: Global,
    layout: &Layout<'n, 'm>,
    slot: &Slot,
    at: At,
) -> Result<Setting<'n, 'm, 'static>, AllocError>
    ensures { IfOk result (λ setting. seen setting ≡ record {
      model = (layout_seen layout.now).model;
      place = places.place_at (layout_seen layout.now) slot.now at;
      variables = [];
    }) }
{
    Setting::new(
        alloc,
        layout.names(),
        place_at(layout, slot, at),
        Tree::Procedure(&[]),
    )
}

fn parent_at(number: u32, slot: &Slot, at: At) -> u32
    ensures { result ≡ (if is_line at then number else number_or_zero (slot.now).parent) }
{
    match (at, slot.parent) {
        (At::Line { .. }, _) => number,
        (_, Some(parent)) => parent,
        (_, None) => 0,
    }
}

/// The site of what stands at the slot of this number. `$PARENT` in a line is the line's owner itself.
pub fn site_of<'s, 'n, 'm, 't>(
    setting: &'s Setting<'n, 'm, 't>,
    number: u32,
    slot: &Slot,
) -> Site<'s, 'n, 'm, 't>
    ensures { site_seen result ≡ record {
      setting = seen setting.now;
      own = number;
      parent = if is_line ((seen setting.now).place).at then number else number_or_zero (slot.now).parent;
      objects = [];
      slots = [];
    } }
{
    Site {
        setting,
        own: number,
        parent: parent_at(number, slot, setting.place().at),
        objects: &[],
        slots: &[],
    }
}

/// The dependency of this number.
pub fn dependency<'n>(layout: &Layout<'n, '_>, number: u32) -> Option<&'n Dependency>
    ensures { option_map dependency_of (option_copied result) ≡ tree_of (layout_seen layout.now).model number }
{
    match layout.dependency(number) {
        Some(named) => Some(&named.tree),
        None => None,
    }
}

/// The condition of a dependency that is a precondition.
pub fn precondition_in(dependency: Option<&Dependency>) -> Option<&Condition>
    ensures { option_map condition_of (option_copied result)
        ≡ places.precondition_in (option_map dependency_of (option_copied dependency.entry)) }
{
    match dependency {
        Some(Dependency::Precondition(condition)) => Some(condition),
        _ => None,
    }
}

/// The condition of a dependency that is a selection condition.
pub fn selection_in(dependency: Option<&Dependency>) -> Option<&Condition>
    ensures { option_map condition_of (option_copied result)
        ≡ places.selection_in (option_map dependency_of (option_copied dependency.entry)) }
{
    match dependency {
        Some(Dependency::Selection(condition)) => Some(condition),
        _ => None,
    }
}

/// The statements of a dependency that is a procedure.
pub fn statements_in(dependency: Option<&Dependency>) -> Option<&[Statement]>
    ensures { option_map (λ statements. map statement_of statements.now) result
        ≡ places.statements_in (option_map dependency_of (option_copied dependency.entry)) }
{
    match dependency {
        Some(Dependency::Procedure(statements)) => Some(statements.as_slice()),
        _ => None,
    }
}

/// The selection conditions among what is used at a place, in order.
pub fn selections_among<'n>(
    alloc: Global,
    layout: &Layout<'n, '_>,
    uses: &[u32],
) -> Result<Listed<Asked<'n>>, AllocError>
    ensures { IfOk result (λ asked. map asked_seen asked
        ≡ places.selections_among (layout_seen layout.now).model uses.now) }
{
    let mut all = Listed::new(alloc);
    for number in uses {
        push_if_asked(&mut all, *number, selection_in(dependency(layout, *number)))?;
    }
    Ok(all)
}

/// The preconditions among what is used at a place, in order.
pub fn preconditions_among<'n>(
    alloc: Global,
    layout: &Layout<'n, '_>,
    uses: &[u32],
) -> Result<Listed<Asked<'n>>, AllocError>
    ensures { IfOk result (λ asked. map asked_seen asked
        ≡ places.preconditions_among (layout_seen layout.now).model uses.now) }
{
    let mut all = Listed::new(alloc);
    for number in uses {
        push_if_asked(
            &mut all,
            *number,
            precondition_in(dependency(layout, *number)),
        )?;
    }
    Ok(all)
}

// Puts what asks a condition last.
fn push_if_asked<'n>(
    all: &mut Listed<Asked<'n>>,
    dependency: u32,
    condition: Option<&'n Condition>,
) -> Result<(), AllocError>
    ensures { OnOk result (map asked_seen all.new ≡ map asked_seen all.old
        ++ option_to_list (option_map (λ condition. record { dependency = dependency; condition = condition })
        (option_map condition_of (option_copied condition.entry)))) }
{
    match condition {
        Some(condition) => all.push(Asked {
            dependency,
            condition,
        }),
        None => Ok(()),
    }
}
