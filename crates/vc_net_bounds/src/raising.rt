//! The bounds of places, raised where more is needed.

ghost use Rattle.std.specs.Prelude.{◌≡◌, ◌^◌, ◌<◌, length};
ghost use Rattle.vc_plan.specs.Bounds.{here_at, is_at, out_at};
ghost use Rattle.vc_plan.specs.Domains.{atom_count, count_of};
ghost use Rattle.vc_net_places.specs.Cells.{all_places};
ghost use Rattle.vc_net_places.specs.Places.{index_of};
ghost use Rattle.vc_net_bounds.specs.Raising.{alike, at_grains, at_place, at_variable, raised_at, raised_by};
ghost use Rattle.vc_net_bounds.specs.Raising.{where_failing};

use vc_net_places::Places;
use vc_plan::Plan;
use vc_plan_values::{grain_count, is_restrictable};
use vc_rule_grains::Test;
use vc_rule_grains::grains::is_grain_with;
use vc_value::Listed;

// Nothing happens where there is no place of this number.
#[tactic(auto, using(crate::proofs::RaisingLemmas::raising_steps))]
fn raise_at(bounds: &mut Listed<u32>, place: usize, bound: u32)
    ensures is { bounds.new ≡ raised_at place bound bounds.old }
    ensures kept { length bounds.new ≡ length bounds.old }
{
    if place < bounds.len() {
        let greater = bounds.as_slice()[place].max(bound);
        bounds.set(place, greater);
    }
}

/// Raises the bound at the slot, if there is such a slot.
#[tactic(auto, using(crate::proofs::PlaceLemmas::slot_raised, crate::proofs::PlaceLemmas::slot_absent))]
pub fn raise_slot(plan: &Plan, slot: u32, bound: u32, bounds: &mut Listed<u32>)
    requires whole { length bounds.old ≡ length (all_places plan.now) }
    ensures is { bounds.new ≡ raised_by (at_place (here_at slot) bound) (all_places plan.now) bounds.old }
    ensures whole { length bounds.new ≡ length (all_places plan.now) }
{
    if (slot as usize) < plan.slots.len() {
        raise_at(bounds, slot as usize, bound);
    }
}

/// Raises the bound at the variable's value, if there is such a variable.
#[tactic(auto, using(crate::proofs::PlaceLemmas::value_raised, crate::proofs::PlaceLemmas::value_absent))]
pub fn raise_value(plan: &Plan, index: &Places, var: u32, bound: u32, bounds: &mut Listed<u32>)
    requires index { index.now ≡ index_of plan.now }
    requires whole { length bounds.old ≡ length (all_places plan.now) }
    ensures is { bounds.new ≡ raised_by (at_place (is_at var) bound) (all_places plan.now) bounds.old }
    ensures whole { length bounds.new ≡ length (all_places plan.now) }
{
    if (var as usize) < plan.vars.len() {
        raise_at(bounds, index.first(var), bound);
    }
}

/// Raises the bound at the variable's grain.
#[tactic(auto, using(crate::proofs::PlaceLemmas::grain_raised))]
pub fn raise_grain(
    plan: &Plan,
    index: &Places,
    var: u32,
    grain: u32,
    bound: u32,
    bounds: &mut Listed<u32>,
)
    requires index { index.now ≡ index_of plan.now }
    requires whole { length bounds.old ≡ length (all_places plan.now) }
    requires there { grain < count_of plan.now var }
    ensures is { bounds.new ≡ raised_by (at_place (out_at var grain) bound) (all_places plan.now) bounds.old }
    ensures whole { length bounds.new ≡ length (all_places plan.now) }
{
    raise_at(bounds, index.first(var) + (1 + grain as usize), bound);
}

/// Raises the bounds at all of the variable's grains alike.
pub fn raise_grains(plan: &Plan, index: &Places, var: u32, bound: u32, bounds: &mut Listed<u32>)
    requires few { atom_count plan.now < 2 ^ 32 }
    requires index { index.now ≡ index_of plan.now }
    requires whole { length bounds.old ≡ length (all_places plan.now) }
    ensures is { bounds.new ≡ raised_by (at_grains var (alike bound)) (all_places plan.now) bounds.old }
    ensures whole { length bounds.new ≡ length (all_places plan.now) }
{
    for grain in 0..grain_count(plan, var) {
        raise_grain(plan, index, var, grain, bound, bounds);
    }
}

// The bound, where the grain fails the test.
fn where_failing<T: Test>(plan: &Plan, var: u32, test: &T, bound: u32, grain: u32) -> u32
    ensures { result ≡ where_failing plan.now var (T.passes test.now) bound grain }
{
    if is_grain_with(plan, var, test, grain) {
        0
    } else {
        bound
    }
}

/// Raises the bounds at those of the variable's grains that fail the test.
pub fn raise_failing<T: Test>(
    plan: &Plan,
    index: &Places,
    var: u32,
    test: &T,
    bound: u32,
    bounds: &mut Listed<u32>,
)
    requires few { atom_count plan.now < 2 ^ 32 }
    requires index { index.now ≡ index_of plan.now }
    requires whole { length bounds.old ≡ length (all_places plan.now) }
    ensures is { bounds.new ≡ raised_by (at_grains var (where_failing plan.now var (T.passes test.now) bound))
        (all_places plan.now) bounds.old }
    ensures whole { length bounds.new ≡ length (all_places plan.now) }
{
    for grain in 0..grain_count(plan, var) {
        let own = where_failing(plan, var, test, bound, grain);
        raise_grain(plan, index, var, grain, own, bounds);
    }
}

/// Raises the bounds at the variable's grains where these may be excluded, and at its value where they may not.
#[tactic(auto, using(crate::proofs::PlaceLemmas::grains_of_variable, crate::proofs::PlaceLemmas::value_of_variable))]
pub fn raise_variable(plan: &Plan, index: &Places, var: u32, bound: u32, bounds: &mut Listed<u32>)
    requires few { atom_count plan.now < 2 ^ 32 }
    requires index { index.now ≡ index_of plan.now }
    requires whole { length bounds.old ≡ length (all_places plan.now) }
    ensures is { bounds.new ≡ raised_by (at_variable plan.now var bound) (all_places plan.now) bounds.old }
    ensures whole { length bounds.new ≡ length (all_places plan.now) }
{
    if is_restrictable(plan, var) {
        raise_grains(plan, index, var, bound, bounds);
    } else {
        raise_value(plan, index, var, bound, bounds);
    }
}
