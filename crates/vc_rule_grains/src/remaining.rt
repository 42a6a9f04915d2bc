//! How many grains of a variable are left that pass a test.

ghost use Rattle.std.specs.Prelude.{◌≡◌, ◌&&◌, if◌then◌else◌, None, option_to_list};
ghost use Rattle.std.specs.List.{filter};
ghost use Rattle.vc_plan.specs.Seen.{is_left_by};
ghost use Rattle.vc_plan.specs.Domains.{is_grain_with};
ghost use Rattle.vc_rule_grains.specs.Finding.{GrainsFit};
ghost use Rattle.vc_rule_grains.specs.Remaining.{is_several, remaining_of, with_one, left_by};

use crate::finding::grain_of;
use crate::grains::{is_grain_with, is_left_by};
use crate::testing::Test;
use vc_plan::{Plan, View};
use vc_plan_values::grain_count;
use vc_value::Value;

/// None, one alone, or more.
#[derive(Clone, Copy, Debug, PartialEq, Eq)]
pub enum Remaining {
    Nothing,
    One(u32),
    Several,
}

fn with_one(remaining: Remaining, grain: u32) -> Remaining
    ensures { result ≡ with_one remaining grain }
{
    match remaining {
        Remaining::Nothing => Remaining::One(grain),
        _ => Remaining::Several,
    }
}

fn count_if(counts: bool, remaining: Remaining, grain: u32) -> Remaining
    ensures { result ≡ (if counts then with_one remaining grain else remaining) }
{
    if counts {
        with_one(remaining, grain)
    } else {
        remaining
    }
}

fn is_left_with<V: View, T: Test>(
    plan: &Plan,
    view: &V,
    var: u32,
    value: Option<Value>,
    test: &T,
    grain: u32,
) -> bool
    ensures { result ≡ is_left_by plan.now (V.seen view.now) var grain value
        && is_grain_with plan.now var (T.passes test.now) grain }
{
    is_left_by(plan, view, var, grain, value) && is_grain_with(plan, var, test, grain)
}

fn is_several(remaining: Remaining) -> bool
    ensures { result ≡ is_several remaining }
{
    match remaining {
        Remaining::Several => true,
        _ => false,
    }
}

// How many it is where no grain is left but this one, if there is one.
fn remaining_at<V: View, T: Test>(
    plan: &Plan,
    view: &V,
    var: u32,
    value: Option<Value>,
    test: &T,
    grain: Option<u32>,
) -> Remaining
    ensures { result ≡ remaining_of (filter (λ g. is_left_by plan.now (V.seen view.now) var g value
        && is_grain_with plan.now var (T.passes test.now) g) (option_to_list grain)) }
{
    match grain {
        Some(grain) => {
            let counts = is_left_with(plan, view, var, value, test, grain);
            count_if(counts, Remaining::Nothing, grain)
        }
        None => Remaining::Nothing,
    }
}

// How many it is where the variable has no value: none is looked at past the second.
fn remaining_among<V: View, T: Test>(plan: &Plan, view: &V, var: u32, test: &T) -> Remaining
    requires { GrainsFit plan.now }
    ensures { result ≡ remaining_of (left_by plan.now (V.seen view.now) var None (T.passes test.now)) }
{
    let count = grain_count(plan, var);
    let mut remaining = Remaining::Nothing;
    let mut grain = 0;
    while grain < count {
        let counts = is_left_with(plan, view, var, None, test, grain);
        remaining = count_if(counts, remaining, grain);
        if is_several(remaining) {
            return Remaining::Several;
        }
        grain += 1;
    }
    remaining
}

/// How many grains are left, where the variable has this value, or none, that pass the test. Where a value is known
/// that they hold, no grain is looked at but its own.
pub fn remaining_of<V: View, T: Test>(
    plan: &Plan,
    view: &V,
    var: u32,
    value: Option<Value>,
    test: &T,
) -> Remaining
    requires { GrainsFit plan.now }
    ensures { result ≡ remaining_of (left_by plan.now (V.seen view.now) var value (T.passes test.now)) }
{
    match value {
        Some(own) => remaining_at(plan, view, var, Some(own), test, grain_of(plan, var, own)),
        None => match test.only() {
            Some(only) => remaining_at(plan, view, var, None, test, grain_of(plan, var, only)),
            None => remaining_among(plan, view, var, test),
        },
    }
}
