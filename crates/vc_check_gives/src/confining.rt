//! What follows where a variable is to lie in grains that pass a test.

ghost use Rattle.std.specs.Prelude.{◌≡◌, ◌^◌, ◌<◌};
ghost use Rattle.vc_base.specs.Rounds.{atoms};
ghost use Rattle.vc_plan.specs.Answers.{clash_if, is_nothing, nothing, value_atoms};
ghost use Rattle.vc_plan.specs.Domains.{atom_count, is_restrictable};
ghost use Rattle.vc_plan.specs.Restrictions.{confined, left_with, of_remaining};
ghost use Rattle.vc_check_gives.specs.Counting.{last_given, left_given};
ghost use Rattle.vc_check_gives.specs.Parts.{part_given, passes_by};

use crate::grains_left::{Remaining, left_with, only_value};
use crate::parts::Part;
use crate::tests::Test;
use vc_plan::{Plan, View, element};
use vc_value::Value;

/// Whether the net may exclude grains of the variable.
pub fn is_restrictable(plan: &Plan, var: u32) -> bool
    ensures { result ≡ is_restrictable plan.now var }
{
    match element(plan.vars.as_slice(), var) {
        Some(x) => x.restrictable,
        None => false,
    }
}

/// The value, if there is one, of the variable.
pub fn value_part<'a>(plan: &Plan, var: u32, value: Option<Value>) -> Part<'a>
    ensures { part_given plan.now result ≡ atoms (value_atoms var value) }
{
    match value {
        Some(value) => Part::To(var, value),
        None => Part::Nothing,
    }
}

fn of_left<'a>(plan: &Plan, var: u32, remaining: Remaining) -> Part<'a>
    ensures { part_given plan.now result ≡ left_given plan.now var remaining }
{
    match remaining {
        Remaining::Nothing => Part::Clash,
        Remaining::One(grain) => value_part(plan, var, only_value(plan, var, grain)),
        Remaining::Several => Part::Nothing,
    }
}

/// What follows of those that aren't out.
pub fn of_not_out<'a>(plan: &Plan, var: u32, remaining: Remaining) -> Part<'a>
    ensures { part_given plan.now result ≡ last_given plan.now var remaining }
{
    match remaining {
        Remaining::One(grain) => value_part(plan, var, only_value(plan, var, grain)),
        _ => Part::Nothing,
    }
}

#[tactic(auto, using(crate::proofs::CountingLemmas::left_is))]
fn of_remaining<'a, 'b, V: View>(plan: &Plan, view: &V, var: u32, test: Test<'b>) -> Part<'a>
    requires { atom_count plan.now < 2 ^ 32 }
    ensures { part_given plan.now result
        ≡ of_remaining plan.now var (left_with plan.now (V.seen view.now) var (passes_by test.entry)) }
{
    of_left(plan, var, left_with(plan, view, var, test))
}

/// What follows where the variable is to lie in grains that pass.
pub fn confined<'a, V: View>(plan: &Plan, view: &V, var: u32, test: Test<'a>) -> Part<'a>
    requires { atom_count plan.now < 2 ^ 32 }
    ensures { part_given plan.now result ≡ confined plan.now (V.seen view.now) var (passes_by test.entry) }
{
    if is_restrictable(plan, var) {
        Part::Others(var, test)
    } else {
        of_remaining(plan, view, var, test)
    }
}

/// A clash where no grain that passes is left.
#[tactic(auto, using(crate::proofs::CountingLemmas::none_left))]
pub fn clash_if_none<'a, 'b, V: View>(plan: &Plan, view: &V, var: u32, test: Test<'b>) -> Part<'a>
    requires { atom_count plan.now < 2 ^ 32 }
    ensures { part_given plan.now result
        ≡ clash_if (is_nothing (left_with plan.now (V.seen view.now) var (passes_by test.entry))) nothing }
{
    match left_with(plan, view, var, test) {
        Remaining::Nothing => Part::Clash,
        Remaining::One(_) => Part::Nothing,
        Remaining::Several => Part::Nothing,
    }
}
