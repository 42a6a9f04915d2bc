//! Sums over the parts of an instance.

ghost use Rattle.std.specs.Prelude.{◌≡◌, ◌^◌, ◌<◌, ◌&&◌, if◌then◌else◌, true, length, slice_get};
ghost use Rattle.vc_plan.specs.declared.terms.Operator.TheVariants.{Plus, Times};
ghost use Rattle.vc_plan.specs.Numbers.{joined};
ghost use Rattle.vc_plan.specs.Parts.{amount_at, amount_of, count_of_parts, is_part, part_quantity};
ghost use Rattle.vc_plan.specs.Parts.{part_weight, quantity_of, sum_of_parts};
ghost use Rattle.vc_plan.specs.Readings.{full_reading};
ghost use Rattle.vc_plan.specs.Truth.{number_of_value};
ghost use Rattle.vc_plan_values.specs.Computing.{LiesInGrains, OperandsFit, TermsFit};
ghost use Rattle.vc_plan_values.specs.Values.{count_if, meant_if};
ghost use Rattle.vc_rule_readings.specs.Finding.{stands_by};
ghost use Rattle.vc_rule_readings.specs.Summing.{SumsFit, addend, adds, has_it, part_total, stored_count};

use crate::finding::var_of;
use vc_plan::{Operator, Plan, Reading, element};
use vc_plan_values::TermValue;
use vc_plan_values::numbers::joined;
use vc_plan_values::values::number_of_value;
use vc_rule_terms::term_value;
use vc_value::Dec;
use vc_value_wide::Wide;

fn number_in(value: Option<TermValue>) -> Option<Wide>
    ensures { count_if result ≡ number_of_value (meant_if value) }
{
    match value {
        Some(TermValue::Number(number)) => Some(number),
        _ => None,
    }
}

#[tactic(auto, using(crate::proofs::PartLemmas::amount_is))]
fn stored_amount(number: Option<Wide>) -> Option<Dec>
    ensures { stored_count result ≡ amount_of (count_if number) }
{
    match number {
        Some(number) => number.to_dec(),
        None => None,
    }
}

/// A quantity or a time: the number of the plan's term as it is read in full. There is none of a size of 10^9 or more.
pub fn amount<R: Reading>(plan: &Plan, reading: &R, term: u32) -> Option<Dec>
    requires fit { TermsFit plan.now }
    requires values { LiesInGrains plan.now (R.seen reading.now) }
    ensures { stored_count result ≡ amount_at plan.now (full_reading plan.now (R.seen reading.now)
        (R.holdings reading.now)) term }
{
    stored_amount(number_in(term_value(plan, reading, term)))
}

fn quantity<R: Reading>(plan: &Plan, reading: &R, line: u32) -> Option<Dec>
    requires fit { TermsFit plan.now }
    requires values { LiesInGrains plan.now (R.seen reading.now) }
    ensures { stored_count result ≡ quantity_of plan.now (full_reading plan.now (R.seen reading.now)
        (R.holdings reading.now)) line }
{
    match element(plan.lines.as_slice(), line) {
        Some(line) => amount(plan, reading, line.quantity),
        None => None,
    }
}

fn part_quantity<R: Reading>(plan: &Plan, reading: &R, part: u32) -> Option<Dec>
    requires fit { TermsFit plan.now }
    requires values { LiesInGrains plan.now (R.seen reading.now) }
    ensures { stored_count result ≡ part_quantity plan.now (full_reading plan.now (R.seen reading.now)
        (R.holdings reading.now)) part }
{
    match element(plan.slots.as_slice(), part) {
        Some(slot) => quantity(plan, reading, slot.line),
        None => quantity(plan, reading, 0),
    }
}

fn wide_if(number: Option<Dec>) -> Option<Wide>
    ensures { count_if result ≡ stored_count number }
{
    match number {
        Some(number) => Some(Wide::from(number)),
        None => None,
    }
}

// The part's quantity times the variable's value.
fn weighed<R: Reading>(plan: &Plan, reading: &R, part: u32, var: u32) -> Option<Wide>
    requires fit { SumsFit plan.now }
    requires values { LiesInGrains plan.now (R.seen reading.now) }
    ensures { count_if result ≡ joined Times (part_quantity plan.now (full_reading plan.now (R.seen reading.now)
        (R.holdings reading.now)) part) (number_of_value ((R.seen reading.now).value var)) }
{
    let quantity = wide_if(part_quantity(plan, reading, part));
    joined(
        Operator::Times,
        quantity,
        number_of_value(reading.value(var)),
    )
}

fn part_weight<R: Reading>(plan: &Plan, reading: &R, characteristic: u32, part: u32) -> Option<Wide>
    requires fit { SumsFit plan.now }
    requires values { LiesInGrains plan.now (R.seen reading.now) }
    ensures { count_if result ≡ part_weight plan.now (full_reading plan.now (R.seen reading.now)
        (R.holdings reading.now)) characteristic part }
{
    match var_of(plan, part, characteristic) {
        Some(var) => weighed(plan, reading, part, var),
        None => None,
    }
}

// What the part adds to the sum.
fn addend<R: Reading>(plan: &Plan, reading: &R, named: Option<u32>, part: u32) -> Option<Wide>
    requires fit { SumsFit plan.now }
    requires values { LiesInGrains plan.now (R.seen reading.now) }
    ensures { count_if result ≡ addend plan.now (full_reading plan.now (R.seen reading.now)
        (R.holdings reading.now)) named part }
{
    match named {
        Some(characteristic) => part_weight(plan, reading, characteristic, part),
        None => wide_if(part_quantity(plan, reading, part)),
    }
}

fn has_it(plan: &Plan, named: Option<u32>, part: u32) -> bool
    requires few { length plan.now.vars < 2 ^ 32 }
    requires order { stands_by (λ x. x.slot) plan.now.vars ≡ true }
    ensures { result ≡ has_it plan.now named part }
{
    match named {
        Some(characteristic) => var_of(plan, part, characteristic).is_some(),
        None => true,
    }
}

fn is_part<R: Reading>(plan: &Plan, reading: &R, slot: u32, part: u32) -> bool
    ensures { result ≡ (is_part plan.now slot part && (R.seen reading.now).here part) }
{
    match element(plan.slots.as_slice(), part) {
        Some(below) => match below.parent {
            Some(parent) => slot == parent && reading.here(part),
            None => false,
        },
        None => false,
    }
}

fn adds<R: Reading>(plan: &Plan, reading: &R, slot: u32, named: Option<u32>, part: u32) -> bool
    requires few { length plan.now.vars < 2 ^ 32 }
    requires order { stands_by (λ x. x.slot) plan.now.vars ≡ true }
    ensures { result ≡ adds plan.now (R.seen reading.now) slot named part }
{
    is_part(plan, reading, slot, part) && has_it(plan, named, part)
}

// The sum with what the slot adds, if it is a part that adds something.
fn with_part<R: Reading>(
    plan: &Plan,
    reading: &R,
    slot: u32,
    named: Option<u32>,
    part: u32,
    sum: Option<Wide>,
) -> Option<Wide>
    requires fit { SumsFit plan.now }
    requires values { LiesInGrains plan.now (R.seen reading.now) }
    requires sum { OperandsFit Plus (addend plan.now (full_reading plan.now (R.seen reading.now)
        (R.holdings reading.now)) named part) (count_if sum) }
    ensures { count_if result ≡ (if adds plan.now (R.seen reading.now) slot named part
        then joined Plus (addend plan.now (full_reading plan.now (R.seen reading.now)
        (R.holdings reading.now)) named part) (count_if sum)
        else count_if sum) }
{
    if adds(plan, reading, slot, named, part) {
        joined(Operator::Plus, addend(plan, reading, named, part), sum)
    } else {
        sum
    }
}

fn part_total<R: Reading>(plan: &Plan, reading: &R, slot: u32, named: Option<u32>) -> Option<Wide>
    requires fit { SumsFit plan.now }
    requires values { LiesInGrains plan.now (R.seen reading.now) }
    ensures { count_if result ≡ part_total plan.now (R.seen reading.now) (full_reading plan.now (R.seen reading.now)
        (R.holdings reading.now)) slot named }
{
    let mut sum = Some(Wide { millionths: 0 });
    let mut part = plan.slots.len() as u32;
    while part > 0 {
        part -= 1;
        sum = with_part(plan, reading, slot, named, part, sum);
    }
    sum
}

/// The sum, over the slot's parts that have the characteristic, of quantity times value, where each of them has both.
#[tactic(auto, using(crate::proofs::PartLemmas::sum_is))]
pub fn part_sum<R: Reading>(
    plan: &Plan,
    reading: &R,
    slot: u32,
    characteristic: u32,
) -> Option<Wide>
    requires fit { SumsFit plan.now }
    requires values { LiesInGrains plan.now (R.seen reading.now) }
    ensures { count_if result ≡ sum_of_parts plan.now (R.seen reading.now) (full_reading plan.now (R.seen reading.now)
        (R.holdings reading.now)) slot characteristic }
{
    part_total(plan, reading, slot, Some(characteristic))
}

/// The sum of the quantities of the slot's parts, where each of them has one.
#[tactic(auto, using(crate::proofs::PartLemmas::count_is))]
pub fn part_count<R: Reading>(plan: &Plan, reading: &R, slot: u32) -> Option<Wide>
    requires fit { SumsFit plan.now }
    requires values { LiesInGrains plan.now (R.seen reading.now) }
    ensures { count_if result ≡ count_of_parts plan.now (R.seen reading.now) (full_reading plan.now
        (R.seen reading.now) (R.holdings reading.now)) slot }
{
    part_total(plan, reading, slot, None)
}
