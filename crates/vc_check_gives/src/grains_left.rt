//! How many grains of a variable are left that pass a test, and which if it is one.

ghost use Rattle.std.specs.Prelude.{◌≡◌, ◌^◌, ◌<◌, ◌&&◌, if◌then◌else◌};
ghost use Rattle.vc_plan.specs.Answers.{only_value};
ghost use Rattle.vc_plan.specs.Domains.{atom_count, is_grain_with};
ghost use Rattle.vc_plan.specs.Gives.{not_out};
ghost use Rattle.vc_plan.specs.Pieces.{one_value};
ghost use Rattle.vc_plan.specs.Restrictions.{left_with};
ghost use Rattle.vc_plan.specs.Seen.{is_left, is_left_by};
ghost use Rattle.vc_check_gives.specs.Counting.{remaining_of, with_one};
ghost use Rattle.vc_check_gives.specs.Parts.{passes_by};

use crate::tests::{Test, is_grain_with};
use vc_plan::{Piece, Plan, View};
use vc_plan_values::grains::holds;
use vc_plan_values::{grain_count, piece};
use vc_value::Value;

/// None, one alone, or more.
#[derive(Clone, Copy, Debug, PartialEq, Eq)]
pub enum Remaining {
    Nothing,
    One(u32),
    Several,
}

fn with_one(remaining: Remaining, grain: u32) -> Remaining
    ensures { result ≡ with_one remaining grain }
{
    match remaining {
        Remaining::Nothing => Remaining::One(grain),
        _ => Remaining::Several,
    }
}

fn count_if(counts: bool, remaining: Remaining, grain: u32) -> Remaining
    ensures { result ≡ (if counts then with_one remaining grain else remaining) }
{
    if counts {
        with_one(remaining, grain)
    } else {
        remaining
    }
}

fn is_left_by<V: View>(plan: &Plan, view: &V, var: u32, grain: u32, value: Option<Value>) -> bool
    ensures { result ≡ is_left_by plan.now (V.seen view.now) var grain value }
{
    match value {
        Some(value) => holds(plan, var, value, grain),
        None => !view.out(var, grain),
    }
}

/// Whether the grain is left: it holds the variable's value, or there is no value and it isn't out.
pub fn is_left<V: View>(plan: &Plan, view: &V, var: u32, grain: u32) -> bool
    ensures { result ≡ is_left plan.now (V.seen view.now) var grain }
{
    is_left_by(plan, view, var, grain, view.value(var))
}

fn is_left_with<'a, V: View>(plan: &Plan, view: &V, var: u32, test: Test<'a>, grain: u32) -> bool
    ensures { result ≡ is_left plan.now (V.seen view.now) var grain
        && is_grain_with plan.now var (passes_by test.entry) grain }
{
    is_left(plan, view, var, grain) && is_grain_with(plan, var, test, grain)
}

/// How many grains are left that pass the test.
#[tactic(auto, using(crate::proofs::CountingLemmas::counting))]
pub fn left_with<'a, V: View>(plan: &Plan, view: &V, var: u32, test: Test<'a>) -> Remaining
    requires { atom_count plan.now < 2 ^ 32 }
    ensures { result ≡ remaining_of (left_with plan.now (V.seen view.now) var (passes_by test.entry)) }
{
    let count = grain_count(plan, var);
    let mut remaining = Remaining::Nothing;
    let mut grain = 0;
    while grain < count {
        let counts = is_left_with(plan, view, var, test, grain);
        remaining = count_if(counts, remaining, grain);
        grain += 1;
    }
    remaining
}

/// How many grains aren't out.
#[tactic(auto, using(crate::proofs::CountingLemmas::counting))]
pub fn not_out<V: View>(plan: &Plan, view: &V, var: u32) -> Remaining
    requires { atom_count plan.now < 2 ^ 32 }
    ensures { result ≡ remaining_of (not_out plan.now (V.seen view.now) var) }
{
    let count = grain_count(plan, var);
    let mut remaining = Remaining::Nothing;
    let mut grain = 0;
    while grain < count {
        let counts = !view.out(var, grain);
        remaining = count_if(counts, remaining, grain);
        grain += 1;
    }
    remaining
}

/// The value of the grain, if it has one alone.
pub fn only_value(plan: &Plan, var: u32, grain: u32) -> Option<Value>
    ensures { result ≡ only_value plan.now var grain }
{
    match piece(plan, var, grain) {
        Some(piece) => one_value(piece),
        None => None,
    }
}

fn one_value(piece: Piece) -> Option<Value>
    ensures { result ≡ one_value piece }
{
    match piece {
        Piece::OneText(text) => Some(Value::Text(text)),
        Piece::Stretch(grain) if grain.low.millionths == grain.high.millionths => {
            Some(Value::Num(grain.low))
        }
        Piece::Stretch(_) => None,
    }
}
