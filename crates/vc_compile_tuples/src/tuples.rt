//! The tuples of slots that a constraint speaks of, chosen slot by slot.

ghost use Rattle.std.specs.Prelude.{◌≡◌, ◌==◌, ◌<◌, ◌≤◌, [], ◌∷◌, ◌++◌, List, length, IfNone, IfOk, IfSome};
ghost use Rattle.std.specs.List.{list_any};
ghost use Rattle.vc_syntax_tree.specs.Trees.{constraint_of};
ghost use Rattle.vc_compile_plan.specs.Layouts.{layout_over};
ghost use Rattle.vc_compile_plan.specs.Tuples as tuples;
ghost use Rattle.vc_compile_plan.specs.declared.standings.Standing.{Standing};
ghost use Rattle.vc_compile_tuples.specs.Growing as growing;

use crate::choices::choices_of;
use crate::parts::{Part, are_met, may_be, put_parts_of};
use std::alloc::{AllocError, Global};
use vc_plan::Slot;
use vc_syntax_tree::Constraint;
use vc_types_names::Names;
use vc_value::Listed;

fn stands_in(front: &[u32], slot: u32) -> bool
    ensures { result ≡ list_any (λ j. j == slot) front.now }
{
    front.iter().any(|other| *other == slot)
}

// Puts the slots as a tuple, if they meet each PART_OF: `false` where there are too many.
fn put_tuple(
    alloc: Global,
    slots: &[Slot],
    parts: &[Part],
    most: usize,
    front: &[u32],
    out: &mut Listed<Listed<u32>>,
) -> Result<bool, AllocError>
    requires { length out.old ≤ most }
    ensures { IfOk result (λ fits. growing.Adds most fits out.old out.new
        (growing.below slots.now parts.now front.now [])) }
{
    if !are_met(slots, parts, front) {
        return Ok(true);
    }
    if out.len() >= most {
        return Ok(false);
    }
    out.push(Listed::from_vec(Vec::from_slice(alloc, front)?))?;
    Ok(true)
}

// Puts a slot behind those that are chosen, unless it may not stand there.
fn choose(
    slots: &[Slot],
    parts: &[Part],
    front: &mut Listed<u32>,
    slot: u32,
) -> Result<bool, AllocError>
    ensures fits { IfOk result (λ fits. fits ≡ growing.fits slots.now parts.now front.old slot) }
    ensures chosen { IfOk result (λ fits. front.new ≡ front.old ++ slot ∷ []) }
{
    let stands = stands_in(front.as_slice(), slot);
    front.push(slot)?;
    Ok(!stands && may_be(slots, parts, front.as_slice()))
}

// Puts all tuples that begin with the chosen slots and go on by one of each choice: `false` as soon as
// there are too many.
fn grow(
    alloc: Global,
    slots: &[Slot],
    parts: &[Part],
    most: usize,
    front: &mut Listed<u32>,
    choices: &[Listed<u32>],
    out: &mut Listed<Listed<u32>>,
) -> Result<bool, AllocError>
    requires { length out.old ≤ most }
    ensures put { IfOk result (λ fits. growing.Adds most fits out.old out.new
        (growing.below slots.now parts.now front.old choices.now)) }
    ensures front { IfOk result (λ fits. front.new ≡ front.old) }
{
    match choices {
        [] => put_tuple(alloc, slots, parts, most, front.as_slice(), out),
        [choice, more @ ..] => {
            for slot in choice.as_slice() {
                let fits = if choose(slots, parts, front, *slot)? {
                    grow(alloc, slots, parts, most, front, more, out)?
                } else {
                    true
                };
                front.pop();
                if !fits {
                    return Ok(false);
                }
            }
            Ok(true)
        }
    }
}

/// The tuples of slots that match a constraint, ascending; none where there are more than so many.
pub fn tuples_of(
    alloc: Global,
    names: &Names,
    slots: &[Slot],
    constraint: &Constraint,
    most: usize,
) -> Result<Option<Listed<Listed<u32>>>, AllocError>
    ensures some { IfOk result (λ found. IfSome found (λ all. (standings : List Standing)
        → all ≡ tuples.tuples_of (layout_over names.now.model.now standings slots.now)
        (constraint_of constraint.now))) }
    ensures few { IfOk result (λ found. IfSome found (λ all. length all ≤ most)) }
    ensures none { IfOk result (λ found. IfNone found ((standings : List Standing)
        → most < length (tuples.tuples_of (layout_over names.now.model.now standings slots.now)
        (constraint_of constraint.now)))) }
{
    let objects = constraint.objects.as_slice();
    let mut parts = Listed::new(alloc);
    put_parts_of(&mut parts, objects, &constraint.condition)?;
    let choices = choices_of(alloc, names, slots, objects)?;
    let mut front = Listed::new(alloc);
    let mut out = Listed::new(alloc);
    if grow(
        alloc,
        slots,
        parts.as_slice(),
        most,
        &mut front,
        choices.as_slice(),
        &mut out,
    )? {
        Ok(Some(out))
    } else {
        Ok(None)
    }
}
