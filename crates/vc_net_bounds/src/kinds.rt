//! What a rule needs at the places where it may conclude, by its kind.

ghost use Rattle.std.specs.Prelude.{◌≡◌, ◌^◌, ◌<◌, length, OnOk};
ghost use Rattle.vc_plan.specs.declared.rules.Kind.TheVariants.{Among, Compare, Equate};
ghost use Rattle.vc_plan.specs.Domains.{atom_count};
ghost use Rattle.vc_net_places.specs.Cells.{all_places};
ghost use Rattle.vc_net_places.specs.Places.{index_of};
ghost use Rattle.vc_net_bounds.specs.Capping.{capped};
ghost use Rattle.vc_net_bounds.specs.Keeping.{IsKept};
ghost use Rattle.vc_net_bounds.specs.Raising.{at_equal, at_line, at_side, capped_bound, common_bound, raised_by};

use crate::capping::{capped, capped_sum};
use crate::keeping::Kept;
use crate::raising::{raise_failing, raise_slot, raise_value, raise_variable};
use crate::restrictions::allowed_of;
use crate::tables::raise_table;
use std::alloc::AllocError;
use vc_net_places::Places;
use vc_plan::{Kind, Plan, Relation, Restriction, Rule, count_of};
use vc_plan_values::{is_inferred, is_restrictable, lone_inferred};
use vc_value::Listed;

#[tactic(auto, using(crate::proofs::KindLemmas::among_steps))]
fn raise_among(
    plan: &Plan,
    index: &Places,
    rule: &Rule,
    var: u32,
    restriction: &Restriction,
    common: u32,
    bounds: &mut Listed<u32>,
)
    requires few { atom_count plan.now < 2 ^ 32 }
    requires index { index.now ≡ index_of plan.now }
    requires whole { length bounds.old ≡ length (all_places plan.now) }
    requires common { common ≡ capped (common_bound plan.now rule.now (Among var restriction.now)) }
    ensures is { bounds.new ≡ raised_by (capped_bound plan.now rule.now (Among var restriction.now))
        (all_places plan.now) bounds.old }
    ensures whole { length bounds.new ≡ length (all_places plan.now) }
{
    if is_inferred(rule, var) {
        if is_restrictable(plan, var) {
            let allowed = allowed_of(plan, var, restriction);
            raise_failing(plan, index, var, &allowed, common, bounds);
        } else {
            let own = capped_sum(common, capped(count_of(plan, var)));
            raise_value(plan, index, var, own, bounds);
        }
    }
}

#[tactic(auto, using(crate::proofs::KindLemmas::no_side_raised, crate::proofs::KindLemmas::side_raised))]
fn raise_side(plan: &Plan, index: &Places, side: Option<u32>, bound: u32, bounds: &mut Listed<u32>)
    requires few { atom_count plan.now < 2 ^ 32 }
    requires index { index.now ≡ index_of plan.now }
    requires whole { length bounds.old ≡ length (all_places plan.now) }
    ensures is { bounds.new ≡ raised_by (at_side plan.now side bound) (all_places plan.now) bounds.old }
    ensures whole { length bounds.new ≡ length (all_places plan.now) }
{
    match side {
        Some(var) => raise_variable(plan, index, var, bound, bounds),
        None => {}
    }
}

#[tactic(auto, using(crate::proofs::KindLemmas::compare_raised))]
fn raise_compare(
    plan: &Plan,
    index: &Places,
    rule: &Rule,
    relation: Relation,
    left: u32,
    right: u32,
    common: u32,
    bounds: &mut Listed<u32>,
)
    requires few { atom_count plan.now < 2 ^ 32 }
    requires index { index.now ≡ index_of plan.now }
    requires whole { length bounds.old ≡ length (all_places plan.now) }
    requires common { common ≡ capped (common_bound plan.now rule.now (Compare relation left right)) }
    ensures is { bounds.new ≡ raised_by (capped_bound plan.now rule.now (Compare relation left right))
        (all_places plan.now) bounds.old }
    ensures whole { length bounds.new ≡ length (all_places plan.now) }
{
    raise_side(plan, index, lone_inferred(plan, rule, left), common, bounds);
    raise_side(
        plan,
        index,
        lone_inferred(plan, rule, right),
        common,
        bounds,
    );
}

#[tactic(auto, using(crate::proofs::KindLemmas::no_equal_raised, crate::proofs::KindLemmas::equal_raised))]
fn raise_equal(plan: &Plan, index: &Places, side: Option<u32>, bound: u32, bounds: &mut Listed<u32>)
    requires index { index.now ≡ index_of plan.now }
    requires whole { length bounds.old ≡ length (all_places plan.now) }
    ensures is { bounds.new ≡ raised_by (at_equal side bound) (all_places plan.now) bounds.old }
    ensures whole { length bounds.new ≡ length (all_places plan.now) }
{
    match side {
        Some(var) => raise_value(plan, index, var, bound, bounds),
        None => {}
    }
}

#[tactic(auto, using(crate::proofs::KindLemmas::equate_raised))]
fn raise_equate(
    plan: &Plan,
    index: &Places,
    rule: &Rule,
    left: u32,
    right: u32,
    common: u32,
    bounds: &mut Listed<u32>,
)
    requires index { index.now ≡ index_of plan.now }
    requires whole { length bounds.old ≡ length (all_places plan.now) }
    requires common { common ≡ capped (common_bound plan.now rule.now (Equate left right)) }
    ensures is { bounds.new ≡ raised_by (capped_bound plan.now rule.now (Equate left right))
        (all_places plan.now) bounds.old }
    ensures whole { length bounds.new ≡ length (all_places plan.now) }
{
    raise_equal(plan, index, lone_inferred(plan, rule, left), common, bounds);
    raise_equal(
        plan,
        index,
        lone_inferred(plan, rule, right),
        common,
        bounds,
    );
}

// That the root is here is no conclusion.
#[tactic(auto, using(crate::proofs::PlaceLemmas::line_raised, crate::proofs::PlaceLemmas::root_stays))]
fn raise_line(plan: &Plan, slot: u32, bound: u32, bounds: &mut Listed<u32>)
    requires whole { length bounds.old ≡ length (all_places plan.now) }
    ensures is { bounds.new ≡ raised_by (at_line slot bound) (all_places plan.now) bounds.old }
    ensures whole { length bounds.new ≡ length (all_places plan.now) }
{
    if slot != 0 {
        raise_slot(plan, slot, bound, bounds);
    }
}

/// Raises the bounds at the places where a rule of the kind may conclude.
#[tactic(auto, using(crate::proofs::KindLemmas::kind_steps))]
pub fn raise_by_kind(
    plan: &Plan,
    index: &Places,
    rule: &Rule,
    kind: &Kind,
    common: u32,
    kept: &mut Kept,
    bounds: &mut Listed<u32>,
) -> Result<(), AllocError>
    requires few { atom_count plan.now < 2 ^ 32 }
    requires index { index.now ≡ index_of plan.now }
    requires whole { length bounds.old ≡ length (all_places plan.now) }
    requires kept { IsKept plan.now kept.old }
    requires common { common ≡ capped (common_bound plan.now rule.now kind.now) }
    ensures kept { OnOk result (IsKept plan.now kept.new) }
    ensures is { OnOk result (bounds.new ≡ raised_by (capped_bound plan.now rule.now kind.now)
        (all_places plan.now) bounds.old) }
    ensures whole { OnOk result (length bounds.new ≡ length (all_places plan.now)) }
{
    match kind {
        Kind::Among(var, restriction) => {
            raise_among(plan, index, rule, *var, restriction, common, bounds);
        }
        Kind::Compare {
            relation,
            left,
            right,
        } => {
            raise_compare(plan, index, rule, *relation, *left, *right, common, bounds);
        }
        Kind::Equate { left, right } => {
            raise_equate(plan, index, rule, *left, *right, common, bounds);
        }
        Kind::ByTable { table, columns } => {
            raise_table(plan, index, rule, *table, columns, common, kept, bounds)?;
        }
        Kind::Never => {}
        Kind::Last(var) => {
            raise_value(plan, index, *var, capped(count_of(plan, *var)), bounds);
        }
        Kind::Line(slot) => {
            raise_line(plan, *slot, common, bounds);
        }
    }
    Ok(())
}
