//! What a slot has for a characteristic.

ghost use Rattle.std.specs.Prelude.{◌≡◌, ◌<◌, ◌^◌, true, length, slice_get};
ghost use Rattle.vc_plan.specs.Classes.{class_in};
ghost use Rattle.vc_rule_readings.specs.Finding.{stands_by};
ghost use Rattle.vc_show.specs.Fitting.{ShownFits};
ghost use Rattle.vc_show_rows.specs.Rows.{class_of, named_by, named_of, set_named, set_of};

use vc_plan::{Named, Plan, element};
use vc_rule_readings::finding::{number_at, var_of};

// The slot's set of the characteristic, if its class has that.
#[tactic(auto, using(crate::proofs::FindingLemmas::first_set))]
fn set_of(plan: &Plan, slot: u32, characteristic: u32) -> Option<u32>
    requires few { length plan.now.sets < 2 ^ 32 }
    requires order { stands_by (λ x. x.slot) plan.now.sets ≡ true }
    ensures { result ≡ set_of plan.now slot characteristic }
{
    number_at(plan.sets.as_slice(), slot, characteristic)
}

fn set_named(set: Option<u32>) -> Option<Named>
    ensures { result ≡ set_named set }
{
    match set {
        Some(set) => Some(Named::Set(set)),
        None => None,
    }
}

/// The variable or the set of the slot with the characteristic, if it has one.
pub fn named_of(plan: &Plan, slot: u32, characteristic: u32) -> Option<Named>
    requires { ShownFits plan.now }
    ensures { result ≡ named_of plan.now slot characteristic }
{
    match var_of(plan, slot, characteristic) {
        Some(var) => Some(Named::Var(var)),
        None => set_named(set_of(plan, slot, characteristic)),
    }
}

fn class_in(plan: &Plan, object: u32) -> &[u32]
    ensures { result.now ≡ class_in (slice_get plan.now.objects object) }
{
    match element(plan.objects.as_slice(), object) {
        Some(object) => object.characteristics.as_slice(),
        None => &[],
    }
}

/// The characteristics of the slot's class, in class order.
pub fn class_of(plan: &Plan, slot: u32) -> &[u32]
    ensures { result.now ≡ class_of plan.now slot }
{
    match element(plan.slots.as_slice(), slot) {
        Some(slot) => class_in(plan, slot.object),
        None => &[],
    }
}
