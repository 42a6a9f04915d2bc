//! PART_OF between the objects of a constraint.

ghost use Rattle.std.specs.Prelude.{◌≡◌, ◌++◌, option_map, slice_get, OnOk};
ghost use Rattle.std.specs.List.{position_or_len};
ghost use Rattle.vc_syntax_tree.specs.Trees.{condition_of};
ghost use Rattle.vc_compile_plan.specs.Sites.{is_called};
ghost use Rattle.vc_compile_tuples.specs.Parts as met;

use crate::choices::are_same;
use std::alloc::AllocError;
use vc_plan::Slot;
use vc_syntax_tree::{Condition, Object};
use vc_value::Listed;

/// A PART_OF, by the places of its variables among the constraint's objects; a variable that is none
/// of these has the place behind the last.
#[derive(Clone, Copy, Debug, PartialEq, Eq)]
pub struct Part {
    pub part: usize,
    pub whole: usize,
}

fn is_called(object: &Object, name: &[u8]) -> bool
    ensures { result ≡ is_called name.now object.now }
{
    object.variable.name.is(name)
}

fn place_called(objects: &[Object], name: &[u8]) -> usize
    ensures { result ≡ position_or_len (is_called name.now) objects.now }
{
    for (place, object) in objects.iter().enumerate() {
        if is_called(object, name) {
            return place;
        }
    }
    objects.len()
}

fn put_parts(
    out: &mut Listed<Part>,
    objects: &[Object],
    condition: &Condition,
) -> Result<(), AllocError>
    ensures { OnOk result (out.new ≡ out.old ++ met.parts_in objects.now (condition_of condition.now)) }
{
    match condition {
        Condition::And(left, right) => {
            put_parts(out, objects, left)?;
            put_parts(out, objects, right)
        }
        Condition::PartOf(part, whole) => out.push(Part {
            part: place_called(objects, part.get().name.bytes()),
            whole: place_called(objects, whole.name.bytes()),
        }),
        Condition::Or(_, _) => Ok(()),
        Condition::Not(_) => Ok(()),
        Condition::Relation(_) => Ok(()),
        Condition::Specified(_) => Ok(()),
    }
}

/// Puts the PART_OFs of a constraint's CONDITION.
pub fn put_parts_of(
    out: &mut Listed<Part>,
    objects: &[Object],
    condition: &Option<Box<Condition>>,
) -> Result<(), AllocError>
    ensures { OnOk result (out.new ≡ out.old ++ met.parts_of objects.now
        (option_map (λ boxed. condition_of boxed.value) condition.now)) }
{
    match condition {
        Some(condition) => put_parts(out, objects, condition),
        None => Ok(()),
    }
}

// The slot above another.
fn above(slots: &[Slot], slot: Option<u32>) -> Option<u32>
    ensures { result ≡ met.above slots.now slot }
{
    match slot {
        None => None,
        Some(slot) => match slots.get(slot as usize) {
            None => None,
            Some(slot) => slot.parent,
        },
    }
}

fn slot_at(tuple: &[u32], place: usize) -> Option<u32>
    ensures { result ≡ slice_get tuple.now place }
{
    tuple.get(place).copied()
}

fn is_met(slots: &[Slot], tuple: &[u32], part: Part) -> bool
    ensures { result ≡ met.is_met slots.now tuple.now part }
{
    let whole = slot_at(tuple, part.whole);
    are_same(whole, above(slots, slot_at(tuple, part.part)))
}

/// Whether the slots of a tuple meet each PART_OF.
pub fn are_met(slots: &[Slot], parts: &[Part], tuple: &[u32]) -> bool
    ensures { result ≡ met.are_met slots.now parts.now tuple.now }
{
    parts.iter().all(|part| is_met(slots, tuple, *part))
}

fn are_chosen(tuple: &[u32], part: Part) -> bool
    ensures { result ≡ met.are_chosen tuple.now part }
{
    part.part < tuple.len() && part.whole < tuple.len()
}

fn may_be_met(slots: &[Slot], tuple: &[u32], part: Part) -> bool
    ensures { result ≡ met.may_be_met slots.now tuple.now part }
{
    if are_chosen(tuple, part) {
        is_met(slots, tuple, part)
    } else {
        true
    }
}

/// Whether the slots chosen so far meet each PART_OF whose variables both have one.
pub fn may_be(slots: &[Slot], parts: &[Part], tuple: &[u32]) -> bool
    ensures { result ≡ met.may_be slots.now parts.now tuple.now }
{
    parts.iter().all(|part| may_be_met(slots, tuple, *part))
}
