//! How many cells each place of a plan needs, and a clash.

ghost use Rattle.std.specs.Prelude.{◌≡◌, ◌^◌, ◌<◌, ◌+◌, ◌++◌, max, map, length, IfOk, OnOk};
ghost use Rattle.vc_plan.specs.Bounds.{clash_bound, greatest, source_bound};
ghost use Rattle.vc_plan.specs.Domains.{atom_count, count_of};
ghost use Rattle.vc_net_places.specs.Cells.{all_places, bounds_of};
ghost use Rattle.vc_net_places.specs.Places.{index_of};
ghost use Rattle.vc_net_bounds.specs.Capping.{capped};
ghost use Rattle.vc_net_bounds.specs.Counting.{IsCounted, clash_cells, sources_before, sources_of_var};
ghost use Rattle.vc_net_bounds.specs.Keeping.{IsKept};
ghost use Rattle.vc_net_bounds.specs.Raising.{capped_bound, raised_by, raised_by_rules};

use crate::capping::{MOST_CELLS, capped_sum, capped_total};
use crate::keeping::Kept;
use crate::kinds::raise_by_kind;
use crate::meeting::Met;
use crate::sizes::{clash_bound, common_bound};
use std::alloc::{AllocError, Global};
use vc_net_places::Places;
use vc_plan::{Plan, Rule, count_of};
use vc_value::Listed;

/// How many cells each place needs, in the order of the places, and a clash.
#[derive(Debug, Drop)]
pub struct Bounds {
    pub places: Listed<u32>,
    pub clash: u32,
}

/// What is found of a plan's cells.
#[derive(Debug, Drop)]
pub enum Counted {
    /// They are no more than a plan may need.
    Within(Bounds),
    TooMany,
}

#[tactic(auto, using(crate::proofs::CountingLemmas::source_steps))]
fn sources_of_slots(alloc: Global, plan: &Plan) -> Result<Listed<u32>, AllocError>
    ensures { IfOk result (λ bounds. bounds ≡ sources_before plan.now 0) }
{
    let mut bounds = Listed::new(alloc);
    for slot in 0..plan.slots.len() {
        bounds.push(0)?;
    }
    Ok(bounds)
}

#[tactic(auto, using(vc_net_places::proofs::PlaceLaws::Things::replicate_next))]
fn append_sources(plan: &Plan, var: u32, bounds: &mut Listed<u32>) -> Result<(), AllocError>
    ensures { OnOk result (bounds.new ≡ bounds.old ++ sources_of_var plan.now var) }
{
    bounds.push(1)?;
    for grain in 0..count_of(plan, var) {
        bounds.push(0)?;
    }
    Ok(())
}

// What the places need for sources alone.
fn source_bounds(alloc: Global, plan: &Plan) -> Result<Listed<u32>, AllocError>
    requires { atom_count plan.now < 2 ^ 32 }
    ensures is { IfOk result (λ bounds. bounds ≡ map source_bound (all_places plan.now)) }
    ensures whole { IfOk result (λ bounds. length bounds ≡ length (all_places plan.now)) }
{
    let mut bounds = sources_of_slots(alloc, plan)?;
    for var in 0..plan.vars.len() {
        append_sources(plan, var as u32, &mut bounds)?;
    }
    Ok(bounds)
}

// Raises what is needed by what the rule needs at each place, and for a clash.
fn take_rule(
    plan: &Plan,
    index: &Places,
    rule: &Rule,
    met: &mut Met,
    kept: &mut Kept,
    bounds: &mut Bounds,
) -> Result<(), AllocError>
    requires few { atom_count plan.now < 2 ^ 32 }
    requires index { index.now ≡ index_of plan.now }
    requires whole { length bounds.old.places ≡ length (all_places plan.now) }
    requires kept { IsKept plan.now kept.old }
    ensures kept { OnOk result (IsKept plan.now kept.new) }
    ensures places { OnOk result (bounds.new.places
        ≡ raised_by (capped_bound plan.now rule.now rule.now.kind) (all_places plan.now) bounds.old.places) }
    ensures whole { OnOk result (length bounds.new.places ≡ length (all_places plan.now)) }
    ensures clash { OnOk result (bounds.new.clash ≡ max bounds.old.clash (capped (clash_bound plan.now rule.now))) }
{
    let common = common_bound(plan, rule, &rule.kind, met)?;
    raise_by_kind(
        plan,
        index,
        rule,
        &rule.kind,
        common,
        kept,
        &mut bounds.places,
    )?;
    bounds.clash = bounds
        .clash
        .max(clash_bound(plan, rule, &rule.kind, common));
    Ok(())
}

// Raises what is needed by what each of the rules needs.
#[tactic(auto, using(crate::proofs::CountingLemmas::clash_next))]
fn take_rules(
    plan: &Plan,
    index: &Places,
    met: &mut Met,
    kept: &mut Kept,
    bounds: &mut Bounds,
) -> Result<(), AllocError>
    requires few { atom_count plan.now < 2 ^ 32 }
    requires index { index.now ≡ index_of plan.now }
    requires whole { length bounds.old.places ≡ length (all_places plan.now) }
    requires kept { IsKept plan.now kept.old }
    ensures places { OnOk result (bounds.new.places
        ≡ raised_by_rules plan.now plan.now.rules bounds.old.places) }
    ensures clash { OnOk result (bounds.new.clash
        ≡ max bounds.old.clash (capped (greatest (clash_bound plan.now) plan.now.rules))) }
{
    let mut rest = plan.rules.as_slice();
    while let [rule, more @ ..] = rest {
        take_rule(plan, index, rule, met, kept, bounds)?;
        rest = more;
    }
    Ok(())
}

// What sources need, raised by all rules.
fn raised_by_rules(
    alloc: Global,
    plan: &Plan,
    index: &Places,
    mut bounds: Bounds,
) -> Result<Bounds, AllocError>
    requires few { atom_count plan.now < 2 ^ 32 }
    requires index { index.now ≡ index_of plan.now }
    requires whole { length bounds.places ≡ length (all_places plan.now) }
    ensures places { IfOk result (λ raised. raised.places
        ≡ raised_by_rules plan.now plan.now.rules bounds.places) }
    ensures clash { IfOk result (λ raised. raised.clash
        ≡ max bounds.clash (capped (greatest (clash_bound plan.now) plan.now.rules))) }
{
    let mut met = Met::new(alloc);
    let mut kept = Kept::new(alloc);
    take_rules(plan, index, &mut met, &mut kept, &mut bounds)?;
    Ok(bounds)
}

// The bounds of the places after all rules, each capped, and that of a clash.
#[tactic(auto, using(crate::proofs::CountingLemmas::clash_all))]
fn capped_bounds(alloc: Global, plan: &Plan) -> Result<Bounds, AllocError>
    requires { atom_count plan.now < 2 ^ 32 }
    ensures places { IfOk result (λ bounds. bounds.places
        ≡ raised_by_rules plan.now plan.now.rules (map source_bound (all_places plan.now))) }
    ensures clash { IfOk result (λ bounds. bounds.clash ≡ capped (clash_cells plan.now)) }
{
    let places = source_bounds(alloc, plan)?;
    let index = Places::new(alloc, plan)?;
    let bounds = raised_by_rules(alloc, plan, &index, Bounds { places, clash: 1 })?;
    Ok(bounds)
}

/// How many cells each place of the plan needs, and a clash, unless all of them are too many.
#[tactic(auto, using(crate::proofs::CountingLemmas::too_many, crate::proofs::CountingLemmas::within))]
pub fn bounds_of(alloc: Global, plan: &Plan) -> Result<Counted, AllocError>
    requires { atom_count plan.now < 2 ^ 32 }
    ensures { IfOk result (λ found. IsCounted plan.now found) }
{
    let bounds = capped_bounds(alloc, plan)?;
    let all = capped_sum(capped_total(bounds.places.as_slice()), bounds.clash);
    if all > MOST_CELLS {
        Ok(Counted::TooMany)
    } else {
        Ok(Counted::Within(bounds))
    }
}
