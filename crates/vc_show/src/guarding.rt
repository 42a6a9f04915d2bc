//! Preconditions by the slots of what they stand at.

ghost use Rattle.std.specs.Prelude.{◌≡◌, ◌<◌, ◌≤◌, ◌==◌, ℕ, true, length, slice_get, Some};
ghost use Rattle.std.specs.List.{filter};
ghost use Rattle.vc_plan.specs.Readings.{full_reading};
ghost use Rattle.vc_plan.specs.Showing.{is_forbidden};
ghost use Rattle.vc_plan.specs.declared.plans.Guard.{Guard as PlanGuard};
ghost use Rattle.vc_plan_values.specs.Computing.{LiesInGrains, TermsFit};
ghost use Rattle.vc_show.specs.Places.{are_by_slot, slot_of_guard};

use crate::naming::slot_of;
use vc_plan::{Guard, Plan, Reading};
use vc_plan_values::is_false;
use vc_rule_readings::full_truth;

fn slot_of_guard(plan: &Plan, guard: &Guard) -> u32
    ensures { result ≡ slot_of_guard plan.now guard.now }
{
    slot_of(plan, guard.at)
}

// Where the preconditions of the slot begin.
fn first_of(plan: &Plan, guards: &[Guard], slot: u32) -> usize
    requires { are_by_slot plan.now guards.now ≡ true }
    ensures bound { result ≤ length guards.now }
    ensures before { (k : ℕ) (x : PlanGuard) → slice_get guards.now k ≡ Some x → k < result
        → slot_of_guard plan.now x < slot }
    ensures after { (k : ℕ) (x : PlanGuard) → slice_get guards.now k ≡ Some x → result ≤ k
        → slot ≤ slot_of_guard plan.now x }
{
    guards.partition_point(|guard| slot_of_guard(plan, guard) < slot)
}

// Where they end.
fn end_of(plan: &Plan, guards: &[Guard], slot: u32) -> usize
    requires { are_by_slot plan.now guards.now ≡ true }
    ensures bound { result ≤ length guards.now }
    ensures before { (k : ℕ) (x : PlanGuard) → slice_get guards.now k ≡ Some x → k < result
        → slot_of_guard plan.now x ≤ slot }
    ensures after { (k : ℕ) (x : PlanGuard) → slice_get guards.now k ≡ Some x → result ≤ k
        → slot < slot_of_guard plan.now x }
{
    guards.partition_point(|guard| slot_of_guard(plan, guard) <= slot)
}

fn of_slot<'a>(plan: &Plan, guards: &'a [Guard], slot: u32) -> &'a [Guard]
    requires { are_by_slot plan.now guards.now ≡ true }
    ensures { result.now ≡ filter (λ guard. slot_of_guard plan.now guard == slot) guards.now }
{
    let start = first_of(plan, guards, slot);
    let end = end_of(plan, guards, slot);
    if start < end {
        &guards[start..end]
    } else {
        &[]
    }
}

/// The preconditions of the slot.
pub fn guards_of(plan: &Plan, slot: u32) -> &[Guard]
    requires { are_by_slot plan.now plan.now.guards ≡ true }
    ensures { result.now ≡ filter (λ guard. slot_of_guard plan.now guard == slot) plan.now.guards }
{
    of_slot(plan, plan.guards.as_slice(), slot)
}

/// Whether the precondition is false.
pub fn is_forbidden<R: Reading>(plan: &Plan, reading: &R, guard: Guard) -> bool
    requires fit { TermsFit plan.now }
    requires values { LiesInGrains plan.now (R.seen reading.now) }
    ensures { result ≡ is_forbidden plan.now
        (full_reading plan.now (R.seen reading.now) (R.holdings reading.now)) guard }
{
    is_false(full_truth(plan, reading, guard.condition))
}
