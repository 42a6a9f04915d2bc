//! What must have a value, and whether something that must has none.

ghost use Rattle.std.specs.Prelude.{◌≡◌, ◌<◌, ◌||◌, ◌&&◌, ◌++◌, ◌∷◌, [], not, length, slice_get};
ghost use Rattle.std.specs.Prelude.{if◌then◌else◌, IfOk, OnOk};
ghost use Rattle.std.specs.List.{list_any};
ghost use Rattle.vc_plan.specs.Domains.{numbers_below};
ghost use Rattle.vc_plan.specs.Kleene.{is_true};
ghost use Rattle.vc_plan.specs.Readings.{full_reading};
ghost use Rattle.vc_plan.specs.Showing.{characteristic_of, has_open, is_hidden, is_marked, is_required, same_named};
ghost use Rattle.vc_plan.specs.Truth.{truth_at};
ghost use Rattle.vc_plan.specs.declared.plans.Named.TheVariants.{Set, Var};
ghost use Rattle.vc_plan_values.specs.Computing.{LiesInGrains, TermsFit};
ghost use Rattle.vc_show.specs.Asking.{is_bare, is_demanding, lacks_demanded, lacks_marked, lacks_some, marked_of};
ghost use Rattle.vc_show.specs.Fitting.{ShownFits};

use crate::hiding::hidden;
use crate::naming::{is_bare, same_named};
use std::alloc::{AllocError, Global};
use vc_plan::{Named, Plan, Reading, Requirement, element};
use vc_plan_values::is_true;
use vc_rule_readings::full_truth;
use vc_value::Listed;

fn is_marked_at(plan: &Plan, characteristic: u32) -> bool
    ensures { result ≡ is_marked (slice_get plan.now.characteristics characteristic) }
{
    match element(plan.characteristics.as_slice(), characteristic) {
        Some(characteristic) => characteristic.required,
        None => false,
    }
}

fn is_var_marked(plan: &Plan, var: u32) -> bool
    ensures { result ≡ is_marked (characteristic_of plan.now (Var var)) }
{
    match element(plan.vars.as_slice(), var) {
        Some(x) => is_marked_at(plan, x.characteristic),
        None => false,
    }
}

fn is_set_marked(plan: &Plan, set: u32) -> bool
    ensures { result ≡ is_marked (characteristic_of plan.now (Set set)) }
{
    match element(plan.sets.as_slice(), set) {
        Some(x) => is_marked_at(plan, x.characteristic),
        None => false,
    }
}

// Whether its characteristic is marked as required.
fn is_marked(plan: &Plan, named: Named) -> bool
    ensures { result ≡ is_marked (characteristic_of plan.now named) }
{
    match named {
        Named::Var(var) => is_var_marked(plan, var),
        Named::Set(set) => is_set_marked(plan, set),
    }
}

/// The variables that are marked as required, in order.
#[tactic(auto, using(vc_base::proofs::ListLaws::filter_next))]
pub fn marked_vars(alloc: Global, plan: &Plan) -> Result<Listed<u32>, AllocError>
    requires { ShownFits plan.now }
    ensures { IfOk result (λ marked. marked ≡ marked_of plan.now) }
{
    let mut marked = Listed::new(alloc);
    for var in 0..plan.vars.len() {
        push_if_marked(plan, var as u32, &mut marked)?;
    }
    Ok(marked)
}

fn push_if_marked(plan: &Plan, var: u32, marked: &mut Listed<u32>) -> Result<(), AllocError>
    ensures { OnOk result (marked.new ≡ marked.old
        ++ (if is_marked (characteristic_of plan.now (Var var)) then var ∷ [] else [])) }
{
    if is_var_marked(plan, var) {
        marked.push(var)
    } else {
        Ok(())
    }
}

fn is_demanding<R: Reading>(plan: &Plan, reading: &R, requirement: Requirement) -> bool
    requires fit { TermsFit plan.now }
    requires values { LiesInGrains plan.now (R.seen reading.now) }
    ensures { result ≡ is_demanding plan.now
        (full_reading plan.now (R.seen reading.now) (R.holdings reading.now)) requirement }
{
    is_true(full_truth(plan, reading, requirement.selection.condition))
}

fn demands<R: Reading>(plan: &Plan, reading: &R, named: Named, requirement: Requirement) -> bool
    requires fit { TermsFit plan.now }
    requires values { LiesInGrains plan.now (R.seen reading.now) }
    ensures { result ≡ same_named requirement.at named && is_demanding plan.now
        (full_reading plan.now (R.seen reading.now) (R.holdings reading.now)) requirement }
{
    same_named(requirement.at, named) && is_demanding(plan, reading, requirement)
}

// Whether one of its selection conditions is true.
fn is_demanded<R: Reading>(plan: &Plan, reading: &R, named: Named) -> bool
    requires fit { TermsFit plan.now }
    requires values { LiesInGrains plan.now (R.seen reading.now) }
    ensures { result ≡ list_any (λ requirement. same_named requirement.at named && is_true (truth_at plan.now
        (full_reading plan.now (R.seen reading.now) (R.holdings reading.now)) requirement.selection.condition))
        plan.now.requirements }
{
    for requirement in plan.requirements.as_slice() {
        if demands(plan, reading, named, *requirement) {
            return true;
        }
    }
    false
}

/// Whether what the name means must have a value: it is marked so, or one of its selection conditions is true.
pub fn required<R: Reading>(plan: &Plan, reading: &R, named: Named) -> bool
    requires fit { ShownFits plan.now }
    requires values { LiesInGrains plan.now (R.seen reading.now) }
    ensures { result ≡ is_required plan.now
        (full_reading plan.now (R.seen reading.now) (R.holdings reading.now)) named }
{
    is_marked(plan, named) || is_demanded(plan, reading, named)
}

fn is_shown<R: Reading>(plan: &Plan, reading: &R, named: Named) -> bool
    requires fit { ShownFits plan.now }
    requires values { LiesInGrains plan.now (R.seen reading.now) }
    ensures { result ≡ not (is_hidden plan.now
        (full_reading plan.now (R.seen reading.now) (R.holdings reading.now)) named) }
{
    !hidden(plan, reading, named)
}

fn is_bare_and_shown<R: Reading>(plan: &Plan, reading: &R, named: Named) -> bool
    requires fit { ShownFits plan.now }
    requires values { LiesInGrains plan.now (R.seen reading.now) }
    ensures { result ≡ is_bare plan.now (R.seen reading.now)
        (full_reading plan.now (R.seen reading.now) (R.holdings reading.now)) named
        && not (is_hidden plan.now (full_reading plan.now (R.seen reading.now) (R.holdings reading.now)) named) }
{
    is_bare(plan, reading, named) && is_shown(plan, reading, named)
}

// The mark is asked first: it is the plan's, and few have it.
#[tactic(auto, using(crate::proofs::AskingLaws::in_turn))]
fn lacks_marked<R: Reading>(plan: &Plan, reading: &R, named: Named) -> bool
    requires fit { ShownFits plan.now }
    requires values { LiesInGrains plan.now (R.seen reading.now) }
    ensures { result ≡ lacks_marked plan.now (R.seen reading.now)
        (full_reading plan.now (R.seen reading.now) (R.holdings reading.now)) named }
{
    is_marked(plan, named) && is_bare_and_shown(plan, reading, named)
}

fn one_lacks<R: Reading>(plan: &Plan, reading: &R, vars: &[u32]) -> bool
    requires fit { ShownFits plan.now }
    requires values { LiesInGrains plan.now (R.seen reading.now) }
    ensures { result ≡ list_any (λ v. lacks_marked plan.now (R.seen reading.now)
        (full_reading plan.now (R.seen reading.now) (R.holdings reading.now)) (Var v)) vars.now }
{
    for var in vars {
        if lacks_marked(plan, reading, Named::Var(*var)) {
            return true;
        }
    }
    false
}

// What lacks is marked, so no other variable is asked.
fn some_var_lacks<R: Reading>(plan: &Plan, reading: &R, marked: &[u32]) -> bool
    requires fit { ShownFits plan.now }
    requires values { LiesInGrains plan.now (R.seen reading.now) }
    requires marked { marked.now ≡ marked_of plan.now }
    ensures { result ≡ list_any (λ v. lacks_marked plan.now (R.seen reading.now)
        (full_reading plan.now (R.seen reading.now) (R.holdings reading.now)) (Var v))
        (numbers_below (length plan.now.vars)) }
{
    one_lacks(plan, reading, marked)
}

#[tactic(auto, using(vc_base::proofs::RangeLaws::seeking))]
fn some_set_lacks<R: Reading>(plan: &Plan, reading: &R) -> bool
    requires fit { ShownFits plan.now }
    requires values { LiesInGrains plan.now (R.seen reading.now) }
    ensures { result ≡ list_any (λ s. lacks_marked plan.now (R.seen reading.now)
        (full_reading plan.now (R.seen reading.now) (R.holdings reading.now)) (Set s))
        (numbers_below (length plan.now.sets)) }
{
    let count = plan.sets.len() as u32;
    let mut set = 0;
    while set < count {
        if lacks_marked(plan, reading, Named::Set(set)) {
            return true;
        }
        set += 1;
    }
    false
}

fn is_demanding_and_shown<R: Reading>(plan: &Plan, reading: &R, requirement: Requirement) -> bool
    requires fit { ShownFits plan.now }
    requires values { LiesInGrains plan.now (R.seen reading.now) }
    ensures { result ≡ is_demanding plan.now
        (full_reading plan.now (R.seen reading.now) (R.holdings reading.now)) requirement
        && not (is_hidden plan.now
        (full_reading plan.now (R.seen reading.now) (R.holdings reading.now)) requirement.at) }
{
    is_demanding(plan, reading, requirement) && is_shown(plan, reading, requirement.at)
}

fn lacks_demanded<R: Reading>(plan: &Plan, reading: &R, requirement: Requirement) -> bool
    requires fit { ShownFits plan.now }
    requires values { LiesInGrains plan.now (R.seen reading.now) }
    ensures { result ≡ lacks_demanded plan.now (R.seen reading.now)
        (full_reading plan.now (R.seen reading.now) (R.holdings reading.now)) requirement }
{
    is_bare(plan, reading, requirement.at) && is_demanding_and_shown(plan, reading, requirement)
}

fn some_demand_lacks<R: Reading>(plan: &Plan, reading: &R) -> bool
    requires fit { ShownFits plan.now }
    requires values { LiesInGrains plan.now (R.seen reading.now) }
    ensures { result ≡ list_any (lacks_demanded plan.now (R.seen reading.now)
        (full_reading plan.now (R.seen reading.now) (R.holdings reading.now))) plan.now.requirements }
{
    for requirement in plan.requirements.as_slice() {
        if lacks_demanded(plan, reading, *requirement) {
            return true;
        }
    }
    false
}

fn some_text_lacks<R: Reading>(plan: &Plan, reading: &R) -> bool
    requires fit { ShownFits plan.now }
    requires values { LiesInGrains plan.now (R.seen reading.now) }
    ensures { result ≡ list_any (λ s. lacks_marked plan.now (R.seen reading.now)
        (full_reading plan.now (R.seen reading.now) (R.holdings reading.now)) (Set s))
        (numbers_below (length plan.now.sets))
        || list_any (lacks_demanded plan.now (R.seen reading.now)
        (full_reading plan.now (R.seen reading.now) (R.holdings reading.now))) plan.now.requirements }
{
    some_set_lacks(plan, reading) || some_demand_lacks(plan, reading)
}

// One pass over the marked variables, one over the sets and one over the selection conditions.
fn lacks_some<R: Reading>(plan: &Plan, reading: &R, marked: &[u32]) -> bool
    requires fit { ShownFits plan.now }
    requires values { LiesInGrains plan.now (R.seen reading.now) }
    requires marked { marked.now ≡ marked_of plan.now }
    ensures { result ≡ lacks_some plan.now (R.seen reading.now)
        (full_reading plan.now (R.seen reading.now) (R.holdings reading.now)) }
{
    some_var_lacks(plan, reading, marked) || some_text_lacks(plan, reading)
}

/// Whether something that must have a value has none: it is here, and isn't hidden. It is told the variables that are
/// marked, since they are the plan's.
pub fn has_open<R: Reading>(plan: &Plan, reading: &R, marked: &[u32]) -> bool
    requires fit { ShownFits plan.now }
    requires values { LiesInGrains plan.now (R.seen reading.now) }
    requires marked { marked.now ≡ marked_of plan.now }
    ensures { result ≡ has_open plan.now (R.seen reading.now)
        (full_reading plan.now (R.seen reading.now) (R.holdings reading.now)) }
{
    lacks_some(plan, reading, marked)
}
