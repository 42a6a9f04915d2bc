//! Which slots stand for configurable lines.

ghost use Rattle.std.specs.Prelude.{◌≡◌, ◌<◌, ◌^◌, length, map, replicate, slice_set, IfOk, None, Some};
ghost use Rattle.vc_plan.specs.Bills.{component_of};
ghost use Rattle.vc_plan.specs.Domains.{numbers_below};
ghost use Rattle.vc_bill.specs.Components.{with_component};

use std::alloc::{AllocError, Global};
use vc_plan::{Plan, Slot};
use vc_value::Listed;

fn nothing(alloc: Global, count: usize) -> Result<Listed<Option<u32>>, AllocError>
    ensures { IfOk result (λ table. table ≡ replicate count None) }
{
    Ok(Listed::from_vec(vec![in alloc; None; count]?))
}

// Puts the slot of this number for the line that it stands for, if it stands for one.
fn put_slot(table: &mut Listed<Option<u32>>, slot: Slot, number: u32)
    ensures { table.new ≡ with_component slot number table.old }
{
    if slot.parent.is_some() {
        put(table, slot.line as usize, number);
    }
}

#[tactic(auto, using(crate::proofs::ComponentLemmas::none_put))]
fn put(table: &mut Listed<Option<u32>>, line: usize, number: u32)
    ensures { table.new ≡ slice_set table.old line (Some number) }
{
    if line < table.len() {
        table.set(line, Some(number));
    }
}

/// Of each line the slot that stands for it, found by one pass over the slots.
pub fn components_of(alloc: Global, plan: &Plan) -> Result<Listed<Option<u32>>, AllocError>
    requires { length plan.now.slots < 2 ^ 32 }
    ensures { IfOk result (λ table. table ≡ map (component_of plan.now) (numbers_below (length plan.now.lines))) }
{
    let mut table = nothing(alloc, plan.lines.len())?;
    let slots = plan.slots.as_slice();
    let mut number = slots.len();
    while number > 0 {
        number -= 1;
        put_slot(&mut table, slots[number], number as u32);
    }
    Ok(table)
}

/// The slot that stands for the line of this number.
pub fn component_at(plan: &Plan, components: &[Option<u32>], line: u32) -> Option<u32>
    requires table { components.now ≡ map (component_of plan.now) (numbers_below (length plan.now.lines)) }
    requires there { line < length plan.now.lines }
    ensures { result ≡ component_of plan.now line }
{
    components[line as usize]
}
