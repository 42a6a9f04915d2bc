//! The rules of all constraints, each at all tuples of slots that match it.

ghost use Rattle.std.specs.Prelude.{◌≡◌, ◌<◌, length, flat_map, Some, IfOk, IfSome, IfNone};
ghost use Rattle.vc_syntax_tree.specs.Trees.{Constrains, constraint_of};
ghost use Rattle.vc_compile_plan.specs.Layouts.{tree_of};
ghost use Rattle.vc_compile_plan.specs.Refusals.{most_rules};
ghost use Rattle.vc_compile_plan.specs.Rules as rules;
ghost use Rattle.vc_compile_plan.specs.Tuples as tuples;
ghost use Rattle.vc_compile_plan.specs.Uses as uses;
ghost use Rattle.vc_compile_numbering.specs.Growing.{seen};
ghost use Rattle.vc_compile_rules.specs.Adding.{Adds};
ghost use Rattle.vc_compile_layout.specs.Standing.{layout_seen};

use std::alloc::{AllocError, Global};
use vc_compile_layout::Layout;
use vc_compile_numbering::Numbering;
use vc_compile_rules::Room;
use vc_compile_rules::adding::MOST_RULES;
use vc_compile_rules::constraints::push_at_tuples;
use vc_compile_sites::dependency;
use vc_compile_tuples::tuples_of;
use vc_compile_uses::active_constraints;
use vc_plan::Rule;
use vc_syntax_tree::{Constraint, Dependency};
use vc_value::Listed;

// The tuples of a constraint, unless there are more than a plan may have rules.
fn matching(
    alloc: Global,
    layout: &Layout<'_, '_>,
    constraint: &Constraint,
) -> Result<Option<Listed<Listed<u32>>>, AllocError>
    ensures some { IfOk result (λ found. IfSome found (λ all. all
        ≡ tuples.tuples_of (layout_seen layout.now) (constraint_of constraint.now))) }
    ensures none { IfOk result (λ found. IfNone found (most_rules
        < length (tuples.tuples_of (layout_seen layout.now) (constraint_of constraint.now)))) }
{
    let found = tuples_of(
        alloc,
        layout.names(),
        layout.slots(),
        constraint,
        MOST_RULES,
    )?;
    Ok(found)
}

// The rules of a constraint. One without restrictions has none, however many tuples match it.
fn push_constraint(
    alloc: Global,
    layout: &Layout<'_, '_>,
    number: u32,
    constraint: &Constraint,
    out: &mut Numbering<Rule>,
) -> Result<Room, AllocError>
    ensures { IfOk result (λ room. Adds room (seen out.old) (rules.constraint_drafts (layout_seen layout.now) number
        (Some (Constrains (constraint_of constraint.now)))) (seen out.new)) }
{
    if constraint.restrictions.is_empty() {
        return Ok(Room::Enough);
    }
    match matching(alloc, layout, constraint)? {
        Some(tuples) => push_at_tuples(alloc, layout, number, constraint, tuples.as_slice(), out),
        None => Ok(Room::TooMany),
    }
}

// The rules of a dependency, which has some where it is a constraint.
fn push_dependency(
    alloc: Global,
    layout: &Layout<'_, '_>,
    number: u32,
    out: &mut Numbering<Rule>,
) -> Result<Room, AllocError>
    ensures { IfOk result (λ room. Adds room (seen out.old) (rules.constraint_drafts (layout_seen layout.now) number
        (tree_of (layout_seen layout.now).model number)) (seen out.new)) }
{
    match dependency(layout, number) {
        Some(Dependency::Constraint(constraint)) => {
            push_constraint(alloc, layout, number, constraint, out)
        }
        _ => Ok(Room::Enough),
    }
}

// The rules of these dependencies.
fn push_dependencies(
    alloc: Global,
    layout: &Layout<'_, '_>,
    numbers: &[u32],
    out: &mut Numbering<Rule>,
) -> Result<Room, AllocError>
    ensures { IfOk result (λ room. Adds room (seen out.old) (flat_map (λ d. rules.constraint_drafts
        (layout_seen layout.now) d (tree_of (layout_seen layout.now).model d)) numbers.now) (seen out.new)) }
{
    for number in numbers {
        match push_dependency(alloc, layout, *number, out)? {
            Room::Enough => {}
            Room::TooMany => return Ok(Room::TooMany),
        }
    }
    Ok(Room::Enough)
}

// The active constraints, in the order of the model.
fn active(alloc: Global, layout: &Layout<'_, '_>) -> Result<Listed<u32>, AllocError>
    ensures { IfOk result (λ found. found ≡ uses.active_constraints (layout_seen layout.now)) }
{
    let found = active_constraints(alloc, layout.names().model(), layout.slots())?;
    Ok(found)
}

/// Puts the rules of all active constraints last, if there is room for them: constraint by constraint in the
/// order of the model, at each tuple of slots that matches it.
pub fn push_constraint_rules(
    alloc: Global,
    layout: &Layout<'_, '_>,
    out: &mut Numbering<Rule>,
) -> Result<Room, AllocError>
    ensures { IfOk result (λ room. Adds room (seen out.old) (rules.constraints_drafts (layout_seen layout.now))
        (seen out.new)) }
{
    let numbers = active(alloc, layout)?;
    let room = push_dependencies(alloc, layout, numbers.as_slice(), out)?;
    Ok(room)
}
