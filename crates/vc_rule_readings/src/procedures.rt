//! Conditions and terms of a plan as procedures read them.

ghost use Rattle.std.specs.Prelude.{◌≡◌};
ghost use Rattle.vc_plan.specs.Parts.{procedure_reading};
ghost use Rattle.vc_plan.specs.Truth.{number_of_value, truth_at, value_at};
ghost use Rattle.vc_plan_values.specs.Computing.{ArgumentFits, LiesInGrains, number_at};
ghost use Rattle.vc_plan_values.specs.Values.{count_if, meant_if};
ghost use Rattle.vc_rule_readings.specs.Beside.{seen_beside};
ghost use Rattle.vc_rule_readings.specs.Parted.{parted_reading};
ghost use Rattle.vc_rule_readings.specs.Summing.{SumsFit};

use crate::beside::{Beside, Marks};
use crate::facts::Facts;
use crate::parts::{part_count, part_sum};
use crate::sets::{set_filled, set_holds};
use crate::whole::specified;
use crate::{numbers, truths};
use vc_plan::{Kleene, Plan, Reading, element};
use vc_plan_values::TermValue;
use vc_value::Value;
use vc_value_wide::Wide;

/// What is read of a plan in full, with sums over parts.
#[derive_where(Clone, Copy)]
pub struct Parted<'a, R> {
    pub plan: &'a Plan,
    pub reading: &'a R,
}

impl<'a, R: Reading> Facts for Parted<'a, R> {
    ghost use Rattle.vc_plan_values.specs.Computing.{LiesInGrains};
    ghost use Rattle.vc_rule_readings.specs.Parted.{parted_reading};
    ghost use Rattle.vc_rule_readings.specs.Summing.{SumsFit};

    ghost reading = { λ s. parted_reading s.plan.now (R.seen s.reading.now) (R.holdings s.reading.now) };

    ghost can_sum = { λ s. SumsFit s.plan.now × LiesInGrains s.plan.now (R.seen s.reading.now) };

    fn value(&self, var: u32) -> Option<Value> {
        self.reading.value(var)
    }

    fn specified(&self, var: u32) -> Kleene {
        specified(self.reading.value(var))
    }

    fn holds(&self, set: u32, text: u32) -> Kleene {
        set_holds(self.plan, self.reading, set, text)
    }

    fn filled(&self, set: u32) -> Kleene {
        set_filled(self.plan, self.reading, set)
    }

    fn part_sum(&self, slot: u32, characteristic: u32) -> Option<Wide> {
        part_sum(self.plan, self.reading, slot, characteristic)
    }

    fn part_count(&self, slot: u32) -> Option<Wide> {
        part_count(self.plan, self.reading, slot)
    }
}

fn parted_truth<R: Reading>(plan: &Plan, reading: &R, condition: u32) -> Kleene
    requires fit { SumsFit plan.now }
    requires values { LiesInGrains plan.now (R.seen reading.now) }
    ensures { result ≡ truth_at plan.now (parted_reading plan.now (R.seen reading.now) (R.holdings reading.now))
        condition }
{
    let facts = Parted { plan, reading };
    match element(plan.conditions.as_slice(), condition) {
        Some(condition) => truths::truth(&facts, condition),
        None => Kleene::Unknown,
    }
}

fn parted_value<R: Reading>(plan: &Plan, reading: &R, term: u32) -> Option<TermValue>
    requires fit { SumsFit plan.now }
    requires values { LiesInGrains plan.now (R.seen reading.now) }
    ensures { meant_if result ≡ value_at plan.now (parted_reading plan.now (R.seen reading.now)
        (R.holdings reading.now)) term }
{
    let facts = Parted { plan, reading };
    match element(plan.terms.as_slice(), term) {
        Some(term) => numbers::term_value(&facts, term),
        None => None,
    }
}

fn parted_number<R: Reading>(plan: &Plan, reading: &R, term: u32) -> Option<Wide>
    requires fit { SumsFit plan.now }
    requires values { LiesInGrains plan.now (R.seen reading.now) }
    ensures { count_if result ≡ number_at plan.now (parted_reading plan.now (R.seen reading.now)
        (R.holdings reading.now)) term }
{
    let facts = Parted { plan, reading };
    match element(plan.terms.as_slice(), term) {
        Some(term) => numbers::number(&facts, term),
        None => None,
    }
}

/// The truth of the plan's condition of this number as procedures read it: by what was written first, then by the
/// stage, with the user's sets and sums over parts. It takes no memory.
pub fn procedure_truth<R: Reading, M: Marks>(
    plan: &Plan,
    stage: &R,
    written: &M,
    condition: u32,
) -> Kleene
    requires fit { SumsFit plan.now }
    requires values { LiesInGrains plan.now (seen_beside (R.seen stage.now) (M.entries written.now)) }
    ensures { result ≡ truth_at plan.now (procedure_reading plan.now (R.seen stage.now) (M.entries written.now)
        (R.holdings stage.now)) condition }
{
    parted_truth(plan, &Beside { stage, written }, condition)
}

/// The value of the plan's term of this number as procedures read it, where it has one. A number leaves room to round
/// it. It takes no memory.
pub fn procedure_value<R: Reading, M: Marks>(
    plan: &Plan,
    stage: &R,
    written: &M,
    term: u32,
) -> Option<TermValue>
    requires fit { SumsFit plan.now }
    requires values { LiesInGrains plan.now (seen_beside (R.seen stage.now) (M.entries written.now)) }
    ensures is { meant_if result ≡ value_at plan.now (procedure_reading plan.now (R.seen stage.now)
        (M.entries written.now) (R.holdings stage.now)) term }
    ensures fits { ArgumentFits (number_of_value (meant_if result)) }
{
    parted_value(plan, &Beside { stage, written }, term)
}

/// The number of the plan's term of this number as procedures read it, where it has one. It takes no memory.
pub fn procedure_number<R: Reading, M: Marks>(
    plan: &Plan,
    stage: &R,
    written: &M,
    term: u32,
) -> Option<Wide>
    requires fit { SumsFit plan.now }
    requires values { LiesInGrains plan.now (seen_beside (R.seen stage.now) (M.entries written.now)) }
    ensures { count_if result ≡ number_at plan.now (procedure_reading plan.now (R.seen stage.now)
        (M.entries written.now) (R.holdings stage.now)) term }
{
    parted_number(plan, &Beside { stage, written }, term)
}
