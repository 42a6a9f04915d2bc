//! In which grain of a variable a value lies.

ghost use Rattle.std.specs.Prelude.{◌≡◌, ◌==◌, ◌-◌, ◌<◌, ◌^◌, true, length, map, slice_get, slice_index_or, Some};
ghost use Rattle.vc_value.specs.declared.value.Value.TheVariants.{Text};
ghost use Rattle.vc_plan.specs.declared.conditions.Piece.TheVariants.{OneText, Stretch};
ghost use Rattle.vc_plan.specs.Alike.{is_proper};
ghost use Rattle.vc_plan.specs.Domains.{grains_in, passes};
ghost use Rattle.vc_plan.specs.Orders.{are_apart};
ghost use Rattle.vc_plan.specs.Pieces.{lies_in};
ghost use Rattle.vc_rule_grains.specs.Finding.{grain_in, grain_with, GrainsFit};

use vc_plan::{Plan, element};
use vc_value::{Domain, GrainList, Value};

// Where the text stands if they have ascending consecutive numbers, as texts that first occur together do.
fn guessed(texts: &[u32], text: u32) -> u32
    ensures { result ≡ text - slice_index_or texts.now 0 0 }
{
    match texts.first() {
        Some(first) => text.saturating_sub(*first),
        None => text,
    }
}

#[tactic(auto, using(vc_plan_values::proofs::GrainLemmas::text_at))]
fn is_text_at(texts: &[u32], text: u32, grain: u32) -> bool
    ensures { result ≡ passes (lies_in (Text text)) (slice_get (map OneText texts.now) grain) }
{
    match element(texts, grain) {
        Some(other) => *other == text,
        None => false,
    }
}

/// The first grain with the text, where all are gone through.
#[tactic(auto, using(crate::proofs::FindingLemmas::finding))]
pub fn first_grain(texts: &[u32], count: u32, text: u32) -> Option<u32>
    requires { count ≡ length (map OneText texts.now) }
    ensures { result ≡ grain_in (map OneText texts.now) (Text text) }
{
    let mut grain = 0;
    while grain < count {
        if is_text_at(texts, text, grain) {
            return Some(grain);
        }
        grain += 1;
    }
    None
}

// All are gone through only where the text doesn't stand at the guess.
fn grain_of_text(texts: &[u32], text: u32) -> Option<u32>
    requires apart { are_apart (λ s t. s == t) texts.now ≡ true }
    requires few { length (map OneText texts.now) < 2 ^ 32 }
    ensures { result ≡ grain_in (map OneText texts.now) (Text text) }
{
    let guess = guessed(texts, text);
    if is_text_at(texts, text, guess) {
        Some(guess)
    } else {
        first_grain(texts, texts.len() as u32, text)
    }
}

// A number has no grain among texts.
#[tactic(auto, using(crate::proofs::FindingLemmas::elsewhere))]
fn grain_among_texts(texts: &[u32], value: Value) -> Option<u32>
    requires apart { are_apart (λ s t. s == t) texts.now ≡ true }
    requires few { length (map OneText texts.now) < 2 ^ 32 }
    ensures { result ≡ grain_in (map OneText texts.now) value }
{
    match value {
        Value::Text(text) => grain_of_text(texts, text),
        Value::Num(_) => None,
    }
}

/// The grain in which the value lies: a number's is found by halves, a text has none among numbers.
#[tactic(auto, using(crate::proofs::FindingLemmas::elsewhere))]
pub fn grain_among_numbers(grains: &GrainList, value: Value) -> Option<u32>
    ensures { result ≡ grain_in (map Stretch grains.now) value }
{
    match value {
        Value::Text(_) => None,
        Value::Num(number) => grains.find(number),
    }
}

fn grain_in(domain: &Domain, value: Value) -> Option<u32>
    requires proper { is_proper domain.now ≡ true }
    requires few { length (grains_in (Some domain.now)) < 2 ^ 32 }
    ensures { result ≡ grain_in (grains_in (Some domain.now)) value }
{
    match domain {
        Domain::Texts(texts) => grain_among_texts(texts.as_slice(), value),
        Domain::Nums {
            decimals: _,
            grains,
        } => grain_among_numbers(grains, value),
    }
}

/// The grain of the variable in which the value lies, if there is one.
pub fn grain_of(plan: &Plan, var: u32, value: Value) -> Option<u32>
    requires { GrainsFit plan.now }
    ensures { result ≡ grain_with plan.now var value }
{
    match element(plan.vars.as_slice(), var) {
        Some(x) => match element(plan.domains.as_slice(), x.domain) {
            Some(domain) => grain_in(domain, value),
            None => None,
        },
        None => None,
    }
}
