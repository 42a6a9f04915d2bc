//! What all conclusions of a rule need alike, and what a clash needs.

ghost use Rattle.std.specs.Prelude.{◌≡◌, ◌+◌, IfOk};
ghost use Rattle.vc_plan.specs.declared.rules.Kind.TheVariants.{Line};
ghost use Rattle.vc_plan.specs.Bounds.{acting_size, compare_bound, equate_bound, kind_clash_bound, side_grains};
ghost use Rattle.vc_plan.specs.Restrictions.{lone_inferred};
ghost use Rattle.vc_net_bounds.specs.Capping.{capped};
ghost use Rattle.vc_net_bounds.specs.Raising.{common_bound};

use crate::capping::{capped, capped_sum};
use crate::meeting::{Met, condition_size, sides_size};
use std::alloc::AllocError;
use vc_plan::{Kind, Plan, Rule, count_of};
use vc_plan_values::{is_restrictable, lone_inferred};
use vc_rule_table::rows::rows_of;

#[tactic(auto, using(crate::proofs::CappingLemmas::sum_of_capped))]
fn acting_size(plan: &Plan, rule: &Rule, met: &mut Met) -> Result<u32, AllocError>
    ensures { IfOk result (λ size. size ≡ capped (acting_size plan.now rule.now)) }
{
    let read = condition_size(plan, rule, met)?;
    Ok(capped_sum(capped(rule.slots.len()), read))
}

fn side_grains(plan: &Plan, side: Option<u32>) -> u32
    ensures { result ≡ capped (side_grains plan.now side) }
{
    match side {
        Some(var) if !is_restrictable(plan, var) => capped(count_of(plan, var)),
        _ => 0,
    }
}

#[tactic(auto, using(crate::proofs::CappingLemmas::sum_of_capped))]
fn grains_of_sides(plan: &Plan, rule: &Rule, left: u32, right: u32) -> u32
    ensures { result ≡ capped (side_grains plan.now (lone_inferred plan.now rule.now left)
        + side_grains plan.now (lone_inferred plan.now rule.now right)) }
{
    let first = side_grains(plan, lone_inferred(plan, rule, left));
    let second = side_grains(plan, lone_inferred(plan, rule, right));
    capped_sum(first, second)
}

#[tactic(auto, using(crate::proofs::CappingLemmas::sum_of_capped))]
fn equate_bound(
    plan: &Plan,
    rule: &Rule,
    left: u32,
    right: u32,
    met: &mut Met,
) -> Result<u32, AllocError>
    ensures { IfOk result (λ bound. bound ≡ capped (equate_bound plan.now rule.now left right)) }
{
    let acting = acting_size(plan, rule, met)?;
    let read = sides_size(plan, left, right, met)?;
    Ok(capped_sum(acting, read))
}

#[tactic(auto, using(crate::proofs::CappingLemmas::sum_of_capped))]
fn compare_bound(
    plan: &Plan,
    rule: &Rule,
    left: u32,
    right: u32,
    met: &mut Met,
) -> Result<u32, AllocError>
    ensures { IfOk result (λ bound. bound ≡ capped (compare_bound plan.now rule.now left right)) }
{
    let read = equate_bound(plan, rule, left, right, met)?;
    Ok(capped_sum(read, grains_of_sides(plan, rule, left, right)))
}

#[tactic(auto, using(crate::proofs::CappingLemmas::one_more))]
fn line_bound(plan: &Plan, rule: &Rule, slot: u32, met: &mut Met) -> Result<u32, AllocError>
    ensures { IfOk result (λ bound. bound ≡ capped (common_bound plan.now rule.now (Line slot))) }
{
    let read = condition_size(plan, rule, met)?;
    Ok(capped_sum(1, read))
}

/// What all conclusions of a rule of the kind need alike.
pub fn common_bound(plan: &Plan, rule: &Rule, kind: &Kind, met: &mut Met) -> Result<u32, AllocError>
    ensures { IfOk result (λ bound. bound ≡ capped (common_bound plan.now rule.now kind.now)) }
{
    match kind {
        Kind::Among(_, _) => acting_size(plan, rule, met),
        Kind::Compare {
            relation: _,
            left,
            right,
        } => compare_bound(plan, rule, *left, *right, met),
        Kind::Equate { left, right } => equate_bound(plan, rule, *left, *right, met),
        Kind::ByTable {
            table: _,
            columns: _,
        } => acting_size(plan, rule, met),
        Kind::Never => acting_size(plan, rule, met),
        Kind::Last(_) => Ok(0),
        Kind::Line(slot) => line_bound(plan, rule, *slot, met),
    }
}

/// What a clash of a rule of the kind needs; 0 where it can't clash.
#[tactic(auto, using(crate::proofs::CappingLemmas::sum_of_capped))]
pub fn clash_bound(plan: &Plan, rule: &Rule, kind: &Kind, common: u32) -> u32
    requires common { common ≡ capped (common_bound plan.now rule.now kind.now) }
    ensures { result ≡ capped (kind_clash_bound plan.now rule.now kind.now) }
{
    match kind {
        Kind::Among(var, _) => capped_sum(common, capped(count_of(plan, *var))),
        Kind::Compare {
            relation: _,
            left: _,
            right: _,
        } => common,
        Kind::Equate { left: _, right: _ } => common,
        Kind::ByTable { table, columns: _ } => {
            capped_sum(common, capped(rows_of(plan, *table).len()))
        }
        Kind::Never => common,
        Kind::Last(_) => 0,
        Kind::Line(_) => 0,
    }
}
