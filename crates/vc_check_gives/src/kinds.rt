//! What rules of the kinds Among, Last and Line say, and sources.

ghost use Rattle.std.specs.Prelude.{◌≡◌, ◌^◌, ◌<◌, ◌∷◌, [], if◌then◌else◌, option_map};
ghost use Rattle.vc_base.specs.Rounds.{atoms};
ghost use Rattle.vc_plan.specs.Answers.{last_atoms};
ghost use Rattle.vc_plan.specs.Domains.{atom_count};
ghost use Rattle.vc_plan.specs.Gives.{entry_says, if_here, mark_says, not_out, value_says};
ghost use Rattle.vc_plan.specs.Restrictions.{among, is_inferred};
ghost use Rattle.vc_plan.specs.Seen.{is_here, is_parent_here};
ghost use Rattle.vc_plan.specs.declared.atoms.Atom.TheVariants.{Here};
ghost use Rattle.vc_plan_sources.specs.Changes.{entry_from};
ghost use Rattle.vc_plan_values.specs.Computing.{TermsFit};
ghost use Rattle.vc_check_gives.specs.Parts.{part_given};

use crate::confining::{clash_if_none, confined, of_not_out};
use crate::grains_left::not_out;
use crate::parts::Part;
use crate::tests::allowed_of;
use vc_check_board::clear::{is_here, is_parent_here};
use vc_plan::{Mark, Plan, Restriction, Rule, View};
use vc_plan_values::is_inferred;
use vc_value::Value;

/// What is said where the variable is restricted against literals.
pub fn among<'a, V: View>(
    plan: &Plan,
    view: &V,
    rule: &Rule,
    var: u32,
    restriction: &'a Restriction,
) -> Part<'a>
    requires fit { TermsFit plan.now }
    requires few { atom_count plan.now < 2 ^ 32 }
    ensures { part_given plan.now result ≡ among plan.now (V.seen view.now) rule.now var restriction.now }
{
    let test = allowed_of(plan, var, restriction);
    if is_inferred(rule, var) {
        confined(plan, view, var, test)
    } else {
        clash_if_none(plan, view, var, test)
    }
}

#[tactic(auto, using(crate::proofs::CountingLemmas::last_is))]
fn last_grain<'a, V: View>(plan: &Plan, view: &V, var: u32) -> Part<'a>
    requires { atom_count plan.now < 2 ^ 32 }
    ensures { part_given plan.now result ≡ atoms (last_atoms plan.now var (not_out plan.now (V.seen view.now) var)) }
{
    of_not_out(plan, var, not_out(plan, view, var))
}

/// What is said where one grain alone isn't out.
pub fn last<'a, V: View>(plan: &Plan, view: &V, var: u32) -> Part<'a>
    requires { atom_count plan.now < 2 ^ 32 }
    ensures { part_given plan.now result ≡ atoms (if is_here plan.now (V.seen view.now) var
        then last_atoms plan.now var (not_out plan.now (V.seen view.now) var) else []) }
{
    if is_here(plan, view, var) {
        last_grain(plan, view, var)
    } else {
        Part::Nothing
    }
}

/// What is said of a slot whose parent may be here.
pub fn line<'a, V: View>(plan: &Plan, view: &V, slot: u32) -> Part<'a>
    ensures { part_given plan.now result
        ≡ atoms (if is_parent_here plan.now (V.seen view.now) slot then Here slot ∷ [] else []) }
{
    if is_parent_here(plan, view, slot) {
        Part::Slot(slot)
    } else {
        Part::Nothing
    }
}

/// What the part says where the variable's slot is here.
pub fn if_here<'a, V: View>(plan: &Plan, view: &V, var: u32, part: Part<'a>) -> Part<'a>
    ensures { part_given plan.now result ≡ if_here plan.now (V.seen view.now) var (part_given plan.now part.entry) }
{
    if is_here(plan, view, var) {
        part
    } else {
        Part::Nothing
    }
}

/// What the user's value says, if there is one.
pub fn of_user<'a>(plan: &Plan, var: u32, value: Option<Value>) -> Part<'a>
    ensures { part_given plan.now result ≡ value_says var value }
{
    match value {
        Some(value) => Part::To(var, value),
        None => Part::Nothing,
    }
}

fn of_mark<'a>(plan: &Plan, var: u32, mark: Mark) -> Part<'a>
    ensures { part_given plan.now result ≡ mark_says var mark }
{
    match mark {
        Mark::Held(value) => Part::To(var, value),
        Mark::Outside => Part::Clash,
    }
}

/// What the entry says, if there is one: the mark, and the numbers of the procedure and of its statement.
pub fn of_entry<'a>(plan: &Plan, var: u32, entry: Option<(Mark, u32, u32)>) -> Part<'a>
    ensures { part_given plan.now result ≡ entry_says var (option_map entry_from entry) }
{
    match entry {
        Some((mark, _, _)) => of_mark(plan, var, mark),
        None => Part::Nothing,
    }
}
