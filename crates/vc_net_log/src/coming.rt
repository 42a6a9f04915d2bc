//! Whether an atom may come to what stands, which is clear.

ghost use Rattle.std.specs.Prelude.{◌≡◌, ◌^◌, ◌<◌, ◌≤◌, ℕ, true, not, ◌&&◌, nat_lt, length, slice_get};
ghost use Rattle.std.specs.Prelude.{slice_index_or, Some};
ghost use Rattle.vc_plan.specs.Domains.{atom_count, count_of, grains_of};
ghost use Rattle.vc_plan.specs.Seen.{is_here};
ghost use Rattle.vc_plan.specs.declared.atoms.Atom.TheVariants.{Is};
ghost use Rattle.vc_plan.specs.declared.plans.Var.{Var as PlanVar};
ghost use Rattle.vc_rule_grains.specs.Finding.{GrainsFit};
ghost use Rattle.vc_net_standing.specs.Coming.{is_held_by, may_be, may_come};
ghost use Rattle.vc_net_standing.specs.Standing.{seen_by};
ghost use Rattle.vc_net_log.specs.Coming.{are_by_slot, has_full, is_full, is_full_with, lies_in_left};

use vc_net_standing::Standing;
use vc_plan::{Plan, Var, View, count_of, element};
use vc_plan_values::{lies_in, piece};
use vc_rule_grains::finding::grain_of;
use vc_rule_yield::atoms::same_value;
use vc_value::Value;

// How many of the variable's grains are out.
fn out_count(outs: &[u32], var: u32) -> usize
    ensures { result ≡ slice_index_or outs.now var 0 }
{
    match outs.get(var as usize) {
        Some(count) => *count as usize,
        None => 0,
    }
}

// Whether all are.
fn is_full(plan: &Plan, outs: &[u32], var: u32) -> bool
    ensures { result ≡ is_full plan.now outs.now var }
{
    out_count(outs, var) == count_of(plan, var)
}

// Where the variables of the slot begin.
fn first_of(vars: &[Var], slot: u32) -> usize
    requires { are_by_slot vars.now ≡ true }
    ensures before { (v : ℕ) (x : PlanVar) → slice_get vars.now v ≡ Some x → v < result → x.slot < slot }
    ensures after { (v : ℕ) (x : PlanVar) → slice_get vars.now v ≡ Some x → result ≤ v → slot ≤ x.slot }
{
    vars.partition_point(|x| x.slot < slot)
}

// Whether the slot has a variable all of whose grains are out.
fn has_full(plan: &Plan, outs: &[u32], slot: u32) -> bool
    requires few { atom_count plan.now < 2 ^ 32 }
    requires ordered { are_by_slot plan.now.vars ≡ true }
    ensures { result ≡ has_full plan.now outs.now slot }
{
    let vars = plan.vars.as_slice();
    let mut var = first_of(vars, slot);
    while var < vars.len() && vars[var].slot == slot {
        if is_full(plan, outs, var as u32) {
            return true;
        }
        var += 1;
    }
    false
}

/// Whether the slot may be here: it is the plan's, and brings no variable without grains.
pub fn may_come_here(plan: &Plan, outs: &[u32], slot: u32) -> bool
    requires few { atom_count plan.now < 2 ^ 32 }
    requires ordered { are_by_slot plan.now.vars ≡ true }
    ensures { result ≡ nat_lt slot (length plan.now.slots) && not (has_full plan.now outs.now slot) }
{
    (slot as usize) < plan.slots.len() && !has_full(plan, outs, slot)
}

fn is_here(plan: &Plan, standing: &Standing, var: u32) -> bool
    ensures { result ≡ is_here plan.now (seen_by standing.now) var }
{
    match element(plan.vars.as_slice(), var) {
        Some(x) => standing.here(x.slot),
        None => false,
    }
}

// Whether all of the variable's grains are out with this one.
fn is_full_with(plan: &Plan, standing: &Standing, outs: &[u32], var: u32, grain: u32) -> bool
    ensures { result ≡ is_full_with plan.now (seen_by standing.now) outs.now var grain }
{
    let more = if standing.out(var, grain) { 0 } else { 1 };
    out_count(outs, var) + more == count_of(plan, var)
}

// Whether it takes the last grain of a variable that is here.
fn takes_last(plan: &Plan, standing: &Standing, outs: &[u32], var: u32, grain: u32) -> bool
    ensures { result ≡ is_here plan.now (seen_by standing.now) var
        && is_full_with plan.now (seen_by standing.now) outs.now var grain }
{
    is_here(plan, standing, var) && is_full_with(plan, standing, outs, var, grain)
}

// Whether the grain holds the value.
fn is_held_by(plan: &Plan, var: u32, grain: u32, value: Option<Value>) -> bool
    ensures { result ≡ is_held_by plan.now var grain value }
{
    match value {
        Some(value) => match piece(plan, var, grain) {
            Some(piece) => lies_in(value, piece),
            None => false,
        },
        None => false,
    }
}

// Whether the grain may go: it doesn't hold the variable's value, and isn't the last.
fn may_go(plan: &Plan, standing: &Standing, outs: &[u32], var: u32, grain: u32) -> bool
    ensures { result ≡ not (is_held_by plan.now var grain ((seen_by standing.now).value var))
        && not (is_here plan.now (seen_by standing.now) var
        && is_full_with plan.now (seen_by standing.now) outs.now var grain) }
{
    !is_held_by(plan, var, grain, standing.value(var))
        && !takes_last(plan, standing, outs, var, grain)
}

/// Whether the grain may be out: the variable has it, and it may go.
pub fn may_come_out(plan: &Plan, standing: &Standing, outs: &[u32], var: u32, grain: u32) -> bool
    ensures { result ≡ nat_lt grain (count_of plan.now var)
        && (not (is_held_by plan.now var grain ((seen_by standing.now).value var))
        && not (is_here plan.now (seen_by standing.now) var
        && is_full_with plan.now (seen_by standing.now) outs.now var grain)) }
{
    (grain as usize) < count_of(plan, var) && may_go(plan, standing, outs, var, grain)
}

// Whether the value lies in a grain of the variable, and in none that is out. One alone holds it.
fn lies_in_left(plan: &Plan, standing: &Standing, var: u32, value: Value) -> bool
    requires { GrainsFit plan.now }
    ensures { result ≡ lies_in_left (grains_of plan.now var) (seen_by standing.now) var value }
{
    match grain_of(plan, var, value) {
        Some(grain) => !standing.out(var, grain),
        None => false,
    }
}

// Whether there is no value, or this one.
fn may_be(value: Value, other: Option<Value>) -> bool
    ensures { result ≡ may_be value other }
{
    match other {
        Some(other) => same_value(value, other),
        None => true,
    }
}

/// Whether the variable may have the value: it has no other, and one of its grains that are left holds it.
pub fn may_come_is(plan: &Plan, standing: &Standing, var: u32, value: Value) -> bool
    requires { GrainsFit plan.now }
    ensures { result ≡ may_come plan.now (seen_by standing.now) (Is var value) }
{
    lies_in_left(plan, standing, var, value) && may_be(value, standing.value(var))
}
