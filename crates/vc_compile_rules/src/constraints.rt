//! The rules of a constraint, at each tuple of slots that it speaks of.

ghost use Rattle.std.specs.Prelude.{◌≡◌, flat_map, option_map, IfOk, OnOk};
ghost use Rattle.vc_syntax_tree.specs.Trees as syntax;
ghost use Rattle.vc_compile_plan.specs.Conditions.{condition_at};
ghost use Rattle.vc_compile_plan.specs.Numbering.{rule_brings, rule_from};
ghost use Rattle.vc_compile_plan.specs.Rules as rules;
ghost use Rattle.vc_compile_plan.specs.Trees as plan;
ghost use Rattle.vc_compile_plan.specs.Tuples as tuples;
ghost use Rattle.vc_compile_numbering.specs.Growing as growing;
ghost use Rattle.vc_compile_layout.specs.Standing.{layout_seen};
ghost use Rattle.vc_compile_sites.specs.Standing.{site_seen};
ghost use Rattle.vc_compile_rules.specs.Adding.{Adds, both_asked};

use crate::adding::{MOST_RULES, Room};
use crate::demands::demand_at;
use crate::inferred::inferred_at;
use std::alloc::{AllocError, Global};
use vc_compile_layout::Layout;
use vc_compile_numbering::Numbering;
use vc_compile_sites::{Site, condition_at, condition_if};
use vc_plan::{Condition as PlanCondition, Rule};
use vc_syntax_tree::{Condition, Constraint, Restriction};
use vc_types::{At, Place};
use vc_types_meanings::{Setting, Tree};
use vc_value::Listed;

/// A constraint stands in a net, at no object of its own.
const IN_NET: Place = Place {
    object: 0,
    parent: None,
    at: At::Constraint,
};

// What asks two things asks both.
fn both(
    alloc: Global,
    left: Option<PlanCondition>,
    right: Option<PlanCondition>,
) -> Result<Option<PlanCondition>, AllocError>
    ensures { IfOk result (λ whole. option_map plan.condition_of whole
        ≡ both_asked (option_map plan.condition_of left) (option_map plan.condition_of right)) }
{
    match (left, right) {
        (None, condition) => Ok(condition),
        (Some(left), None) => Ok(Some(left)),
        (Some(left), Some(right)) => {
            let left = Box::new(alloc, left)?;
            let right = Box::new(alloc, right)?;
            Ok(Some(PlanCondition::And(left, right)))
        }
    }
}

// What a condition asks of values at the site: all but its PART_OFs.
fn asked_at(
    alloc: Global,
    layout: &Layout<'_, '_>,
    site: &Site<'_, '_, '_, '_>,
    condition: &Condition,
) -> Result<Option<PlanCondition>, AllocError>
    ensures { IfOk result (λ asked. option_map plan.condition_of asked ≡ option_map
        (condition_at (layout_seen layout.now) (site_seen site.now))
        (tuples.without_parts (syntax.condition_of condition.now))) }
{
    match condition {
        Condition::And(left, right) => both(
            alloc,
            asked_at(alloc, layout, site, left)?,
            asked_at(alloc, layout, site, right)?,
        ),
        Condition::PartOf(_, _) => Ok(None),
        _ => Ok(Some(condition_at(alloc, layout, site, condition)?)),
    }
}

fn asked_if(
    alloc: Global,
    layout: &Layout<'_, '_>,
    site: &Site<'_, '_, '_, '_>,
    condition: &Option<Box<Condition>>,
) -> Result<Option<PlanCondition>, AllocError>
    ensures { IfOk result (λ asked. option_map plan.condition_of asked ≡ option_map
        (condition_at (layout_seen layout.now) (site_seen site.now))
        (tuples.asked_of (option_map (λ boxed. syntax.condition_of boxed.value) condition.now))) }
{
    match condition {
        Some(condition) => asked_at(alloc, layout, site, condition),
        None => Ok(None),
    }
}

// What a restriction asks, with what its constraint asks.
fn condition_of(
    alloc: Global,
    layout: &Layout<'_, '_>,
    site: &Site<'_, '_, '_, '_>,
    constraint: &Constraint,
    restriction: &Restriction,
) -> Result<Option<PlanCondition>, AllocError>
    ensures { IfOk result (λ asked. option_map plan.condition_of asked ≡ option_map
        (condition_at (layout_seen layout.now) (site_seen site.now))
        (tuples.both (tuples.asked_of (syntax.constraint_of constraint.now).condition)
        (syntax.restriction_of restriction.now).condition)) }
{
    let asked = asked_if(alloc, layout, site, &constraint.condition)?;
    let own = condition_if(alloc, layout, site, &restriction.condition)?;
    both(alloc, asked, own)
}

// Puts the rule of a restriction last.
fn push_rule(
    alloc: Global,
    layout: &Layout<'_, '_>,
    site: &Site<'_, '_, '_, '_>,
    dependency: u32,
    number: u32,
    constraint: &Constraint,
    restriction: &Restriction,
    out: &mut Numbering<Rule>,
) -> Result<(), AllocError>
    requires { site_seen site.now ≡ rules.constraint_site (layout_seen layout.now) (syntax.constraint_of constraint.now)
        (site.now).slots.now }
    ensures { OnOk result (growing.seen out.new ≡ growing.with_draft rule_brings rule_from (growing.seen out.old)
        (rules.restriction_draft (layout_seen layout.now) dependency (syntax.constraint_of constraint.now)
        (site.now).slots.now number (syntax.restriction_of restriction.now))) }
{
    let asked = condition_of(alloc, layout, site, constraint, restriction)?;
    let inferred = inferred_at(alloc, layout, site, constraint.inferences.as_slice())?;
    let slots = Listed::from_vec(Vec::from_slice(alloc, site.slots)?);
    let condition = out.trees.add_if_asked(asked)?;
    let kind = demand_at(alloc, layout, site, &restriction.demand, &mut out.trees)?;
    out.push(Rule {
        dependency: Some(dependency),
        number,
        slots,
        condition,
        inferred,
        kind,
    })
}

// Puts the rules of a constraint at one tuple of slots last, if there is room for them.
fn push_restrictions(
    alloc: Global,
    layout: &Layout<'_, '_>,
    site: &Site<'_, '_, '_, '_>,
    dependency: u32,
    constraint: &Constraint,
    out: &mut Numbering<Rule>,
) -> Result<Room, AllocError>
    requires { site_seen site.now ≡ rules.constraint_site (layout_seen layout.now) (syntax.constraint_of constraint.now)
        (site.now).slots.now }
    ensures { IfOk result (λ room. Adds room (growing.seen out.old)
        (rules.restriction_drafts (layout_seen layout.now) dependency (syntax.constraint_of constraint.now)
        (site.now).slots.now 1 (syntax.constraint_of constraint.now).restrictions) (growing.seen out.new)) }
{
    let restrictions = constraint.restrictions.as_slice();
    if restrictions.len() >= u32::MAX as usize {
        return Err(AllocError);
    }
    for (place, restriction) in restrictions.iter().enumerate() {
        if out.items.len() >= MOST_RULES {
            return Ok(Room::TooMany);
        }
        let number = place as u32 + 1;
        push_rule(
            alloc,
            layout,
            site,
            dependency,
            number,
            constraint,
            restriction,
            out,
        )?;
    }
    Ok(Room::Enough)
}

/// Puts the rules of a constraint last, at one of these tuples of slots after the other, if there is room
/// for them.
pub fn push_at_tuples(
    alloc: Global,
    layout: &Layout<'_, '_>,
    dependency: u32,
    constraint: &Constraint,
    tuples: &[Listed<u32>],
    out: &mut Numbering<Rule>,
) -> Result<Room, AllocError>
    ensures { IfOk result (λ room. Adds room (growing.seen out.old) (flat_map (λ tuple. rules.restriction_drafts
        (layout_seen layout.now) dependency (syntax.constraint_of constraint.now) tuple 1
        (syntax.constraint_of constraint.now).restrictions) tuples.now) (growing.seen out.new)) }
{
    let setting = Setting::new(alloc, layout.names(), IN_NET, Tree::Constraint(constraint))?;
    for tuple in tuples {
        let site = Site {
            setting: &setting,
            own: 0,
            parent: 0,
            objects: constraint.objects.as_slice(),
            slots: tuple.as_slice(),
        };
        match push_restrictions(alloc, layout, &site, dependency, constraint, out)? {
            Room::Enough => {}
            Room::TooMany => return Ok(Room::TooMany),
        }
    }
    Ok(Room::Enough)
}
