//! How many values are known, and the numbers that stand in them.

ghost use Rattle.std.specs.Prelude.{◌≡◌, ◌<◌, ◌≤◌, ◌^◌, ◌*◌, length, map, slice_get};
ghost use Rattle.vc_net_places.specs.Cells.{total};
ghost use Rattle.vc_plan.specs.Domains.{numbers_below};
ghost use Rattle.vc_app_gen.specs.Tallies as tallies;

use vc_plan::{Plan, View, element};
use vc_value::{Value, Word};

/// How many values are known, and the numbers behind their V together.
#[derive(Clone, Copy, Debug, PartialEq, Eq)]
pub struct Tally {
    pub count: u64,
    pub sum: u64,
}

// The digit behind the first letter, 0 where there is none.
fn digit_behind(text: &Word) -> u64
    ensures value { result ≡ tallies.digit_behind text.now }
    ensures small { result < 256 }
{
    match text.bytes().get(1) {
        Some(digit) => u64::from(digit.saturating_sub(b'0')),
        None => 0,
    }
}

fn digit_in(plan: &Plan, text: u32) -> u64
    ensures value { result ≡ tallies.digit_if (slice_get plan.now.texts text) }
    ensures small { result < 256 }
{
    match element(plan.texts.as_slice(), text) {
        Some(text) => digit_behind(text),
        None => 0,
    }
}

// The number behind the V of a value.
fn number_behind(plan: &Plan, value: Option<Value>) -> u64
    ensures value { result ≡ tallies.number_behind plan.now value }
    ensures small { result < 256 }
{
    match value {
        Some(Value::Text(text)) => digit_in(plan, text),
        Some(Value::Num(_)) | None => 0,
    }
}

fn counted(value: Option<Value>) -> u64
    ensures value { result ≡ tallies.counted value }
    ensures small { result ≤ 1 }
{
    match value {
        Some(_) => 1,
        None => 0,
    }
}

#[tactic(auto, using(crate::proofs::TotalLemmas::totalling))]
fn count_of<V: View>(plan: &Plan, seen: &V) -> u64
    requires { length plan.now.vars < 2 ^ 32 }
    ensures value { result ≡ total (map (λ v. tallies.counted ((V.seen seen.now).value v))
        (numbers_below (length plan.now.vars))) }
    ensures small { result < 2 ^ 40 }
{
    let mut count = 0;
    for var in 0..plan.vars.len() {
        count += counted(seen.value(var as u32));
    }
    count
}

#[tactic(auto, using(crate::proofs::TotalLemmas::totalling))]
fn sum_of<V: View>(plan: &Plan, seen: &V) -> u64
    requires { length plan.now.vars < 2 ^ 32 }
    ensures value { result ≡ total (map (λ v. tallies.number_behind plan.now ((V.seen seen.now).value v))
        (numbers_below (length plan.now.vars))) }
    ensures small { result < 2 ^ 40 }
{
    let mut sum = 0;
    for var in 0..plan.vars.len() {
        sum += number_behind(plan, seen.value(var as u32));
    }
    sum
}

/// The tally of what is seen.
pub fn tally_of<V: View>(plan: &Plan, seen: &V) -> Tally
    requires { length plan.now.vars < 2 ^ 32 }
    ensures value { result ≡ tallies.tally_seen plan.now (V.seen seen.now) }
    ensures count { result.count < 2 ^ 40 }
    ensures sum { result.sum < 2 ^ 40 }
{
    Tally {
        count: count_of(plan, seen),
        sum: sum_of(plan, seen),
    }
}
