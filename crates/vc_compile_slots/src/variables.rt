//! The variables and sets of slots.

ghost use Rattle.std.specs.Prelude.{◌≡◌, ◌^◌, ◌<◌, ◌++◌, not, length, map, slice_get, IfOk, OnOk};
ghost use Rattle.std.specs.List.{filter};
ghost use Rattle.vc_types.specs.Settings.{is_multiple, are_multiple, multiple_in};
ghost use Rattle.vc_compile_plan.specs.Variables as variables;

use std::alloc::{AllocError, Global};
use vc_model_parts::parts::{Model, Values};
use vc_plan::{Slot, TextSet, Var};
use vc_value::Listed;

// The characteristics of the object's class, in order.
fn members_of(model: &Model, object: u32) -> &[u32]
    ensures { result.now ≡ variables.members_of model.now object }
{
    match model.objects.as_slice().get(object as usize) {
        Some(object) => members_in(model, object.class),
        None => &[],
    }
}

fn members_in(model: &Model, class: u32) -> &[u32]
    ensures { result.now ≡ variables.members_in (slice_get model.now.classes class) }
{
    match model.classes.as_slice().get(class as usize) {
        Some(class) => class.members.as_slice(),
        None => &[],
    }
}

fn are_multiple(values: &Values) -> bool
    ensures { result ≡ are_multiple values.now }
{
    match values {
        Values::Texts { multiple, .. } => *multiple,
        Values::Numbers { .. } => false,
    }
}

fn is_multiple(model: &Model, c: u32) -> bool
    ensures { result ≡ is_multiple model.now c }
{
    match model.characteristics.as_slice().get(c as usize) {
        Some(characteristic) => are_multiple(&characteristic.values),
        None => false,
    }
}

fn is_restrictable(model: &Model, c: u32) -> bool
    ensures { result ≡ variables.restrictable_in (slice_get model.now.characteristics c) }
{
    match model.characteristics.as_slice().get(c as usize) {
        Some(characteristic) => characteristic.restrictable,
        None => false,
    }
}

// Puts the slot's variables last.
fn push_vars(
    model: &Model,
    slot: u32,
    object: u32,
    vars: &mut Listed<Var>,
) -> Result<(), AllocError>
    ensures { OnOk result (vars.new ≡ vars.old ++ map (variables.var_at model.now slot)
        (filter (λ c. not (is_multiple model.now c)) (variables.members_of model.now object))) }
{
    let members = members_of(model, object);
    for member in members {
        if !is_multiple(model, *member) {
            vars.push(Var {
                slot,
                characteristic: *member,
                domain: *member,
                restrictable: is_restrictable(model, *member),
            })?;
        }
    }
    Ok(())
}

// Puts the slot's sets last.
fn push_sets(
    model: &Model,
    slot: u32,
    object: u32,
    sets: &mut Listed<TextSet>,
) -> Result<(), AllocError>
    ensures { OnOk result (sets.new ≡ sets.old ++ map (variables.set_at slot)
        (filter (is_multiple model.now) (variables.members_of model.now object))) }
{
    let members = members_of(model, object);
    for member in members {
        if is_multiple(model, *member) {
            sets.push(TextSet {
                slot,
                characteristic: *member,
                domain: *member,
            })?;
        }
    }
    Ok(())
}

/// The variables, by slot and class order.
pub fn vars_of(alloc: Global, model: &Model, slots: &[Slot]) -> Result<Listed<Var>, AllocError>
    requires { length slots.now < 2 ^ 32 }
    ensures { IfOk result (λ vars. vars ≡ variables.vars_of model.now slots.now) }
{
    let mut vars = Listed::new(alloc);
    for (number, slot) in slots.iter().enumerate() {
        push_vars(model, number as u32, slot.object, &mut vars)?;
    }
    Ok(vars)
}

/// The sets, by slot and class order.
pub fn sets_of(alloc: Global, model: &Model, slots: &[Slot]) -> Result<Listed<TextSet>, AllocError>
    requires { length slots.now < 2 ^ 32 }
    ensures { IfOk result (λ sets. sets ≡ variables.sets_of model.now slots.now) }
{
    let mut sets = Listed::new(alloc);
    for (number, slot) in slots.iter().enumerate() {
        push_sets(model, number as u32, slot.object, &mut sets)?;
    }
    Ok(sets)
}
