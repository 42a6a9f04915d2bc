//! The rules of a plan, which has only so many.

ghost use Rattle.std.specs.Prelude.{◌≡◌, ◌++◌, ◌<◌, ◌≤◌, length, IfOk, IfSome, IfNone};
ghost use Rattle.vc_compile_plan.specs.Refusals.{most_rules};
ghost use Rattle.vc_compile_plan.specs.Rules.{last_drafts, rule_drafts, slot_drafts_from};
ghost use Rattle.vc_compile_numbering.specs.Growing.{seen};
ghost use Rattle.vc_compile_rules.specs.Adding.{Adds};
ghost use Rattle.vc_compile_layout.specs.Standing.{layout_seen};
ghost use Rattle.vc_compile_parts.specs.InTurn.{ruled};

use std::alloc::{AllocError, Global};
use vc_compile_constraints::push_constraint_rules;
use vc_compile_layout::Layout;
use vc_compile_numbering::{Numbering, Trees};
use vc_compile_rules::Room;
use vc_compile_rules::adding::MOST_RULES;
use vc_compile_rules::own::{push_last_rules, push_line_rules};
use vc_plan::Rule;
use vc_syntax_tree::Dependency;

// Puts the rules of variables and of slots last.
fn push_own_rules(
    alloc: Global,
    layout: &Layout<'_, '_>,
    out: &mut Numbering<Rule>,
) -> Result<Room, AllocError>
    ensures { IfOk result (λ room. Adds room (seen out.old) (last_drafts (layout_seen layout.now)
        ++ slot_drafts_from (layout_seen layout.now) 0 (layout_seen layout.now).standings) (seen out.new)) }
{
    match push_last_rules(alloc, layout, out)? {
        Room::Enough => {
            let room = push_line_rules(alloc, layout, out)?;
            Ok(room)
        }
        Room::TooMany => Ok(Room::TooMany),
    }
}

// Puts all rules of a plan last: those of constraints, of variables and of slots.
fn push_rules(
    alloc: Global,
    layout: &Layout<'_, '_>,
    out: &mut Numbering<Rule>,
) -> Result<Room, AllocError>
    ensures { IfOk result (λ room. Adds room (seen out.old) (rule_drafts (layout_seen layout.now)) (seen out.new)) }
{
    match push_constraint_rules(alloc, layout, out)? {
        Room::Enough => {
            let room = push_own_rules(alloc, layout, out)?;
            Ok(room)
        }
        Room::TooMany => Ok(Room::TooMany),
    }
}

fn restriction_count(tree: &Dependency) -> usize {
    match tree {
        Dependency::Constraint(constraint) => constraint.restrictions.len(),
        Dependency::Precondition(_) => 0,
        Dependency::Selection(_) => 0,
        Dependency::Procedure(_) => 0,
        Dependency::Term(_) => 0,
    }
}

// How many rules there are where each constraint stands once, as far as a plan may have so many. Memory for them is
// taken at once: a list that grows stands there twice while it is copied.
fn expected_rules(layout: &Layout<'_, '_>) -> usize
    ensures { result ≤ most_rules }
{
    let mut count = layout
        .slots()
        .len()
        .saturating_add(layout.var_count() as usize);
    for dependency in layout.names().model().dependencies.as_slice() {
        count = count.saturating_add(restriction_count(&dependency.tree));
    }
    count.min(MOST_RULES)
}

/// The rules of a plan, with the conditions and terms that they have; none where a plan would have too many.
pub fn rules_of(
    alloc: Global,
    layout: &Layout<'_, '_>,
) -> Result<Option<Numbering<Rule>>, AllocError>
    ensures some { IfOk result (λ found. IfSome found (λ rules. seen rules ≡ ruled (layout_seen layout.now))) }
    ensures none { IfOk result (λ found. IfNone found
        (most_rules < length (rule_drafts (layout_seen layout.now)))) }
{
    let capacity = expected_rules(layout);
    let trees = Trees::with_capacity(alloc, capacity)?;
    let mut rules = Numbering::with_capacity(alloc, trees, capacity)?;
    match push_rules(alloc, layout, &mut rules)? {
        Room::Enough => Ok(Some(rules)),
        Room::TooMany => Ok(None),
    }
}
