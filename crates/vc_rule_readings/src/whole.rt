//! Conditions of a plan as they are read in full.

ghost use Rattle.std.specs.Prelude.{◌≡◌};
ghost use Rattle.vc_plan.specs.declared.conditions.Kleene.TheVariants.{False};
ghost use Rattle.vc_plan.specs.Readings.{full_reading};
ghost use Rattle.vc_plan.specs.Truth.{specified, truth_at};
ghost use Rattle.vc_plan_values.specs.Computing.{LiesInGrains, TermsFit};

use crate::facts::Facts;
use crate::sets::{set_filled, set_holds};
use crate::truths::truth;
use vc_plan::{Kleene, Plan, Reading, element};
use vc_value::Value;
use vc_value_wide::Wide;

/// What is read of a plan in full, without sums over parts.
#[derive_where(Clone, Copy)]
pub struct Whole<'a, R> {
    pub plan: &'a Plan,
    pub reading: &'a R,
}

impl<'a, R: Reading> Facts for Whole<'a, R> {
    ghost use Rattle.vc_plan.specs.Readings.{full_reading};

    ghost reading = { λ s. full_reading s.plan.now (R.seen s.reading.now) (R.holdings s.reading.now) };

    ghost can_sum = { λ s. Unit {0} };

    fn value(&self, var: u32) -> Option<Value> {
        self.reading.value(var)
    }

    fn specified(&self, var: u32) -> Kleene {
        specified(self.reading.value(var))
    }

    fn holds(&self, set: u32, text: u32) -> Kleene {
        set_holds(self.plan, self.reading, set, text)
    }

    fn filled(&self, set: u32) -> Kleene {
        set_filled(self.plan, self.reading, set)
    }

    fn part_sum(&self, _slot: u32, _characteristic: u32) -> Option<Wide> {
        None
    }

    fn part_count(&self, _slot: u32) -> Option<Wide> {
        None
    }
}

/// Whether a value is there.
pub fn specified(value: Option<Value>) -> Kleene
    ensures { result ≡ specified False value }
{
    match value {
        Some(_) => Kleene::True,
        None => Kleene::False,
    }
}

/// The truth of the plan's condition of this number at what the reading says: what has no value hasn't any, and sets
/// have the user's texts. It takes no memory.
pub fn full_truth<R: Reading>(plan: &Plan, reading: &R, condition: u32) -> Kleene
    requires fit { TermsFit plan.now }
    requires values { LiesInGrains plan.now (R.seen reading.now) }
    ensures { result ≡ truth_at plan.now (full_reading plan.now (R.seen reading.now) (R.holdings reading.now))
        condition }
{
    let facts = Whole { plan, reading };
    match element(plan.conditions.as_slice(), condition) {
        Some(condition) => truth(&facts, condition),
        None => Kleene::Unknown,
    }
}
