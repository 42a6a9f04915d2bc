//! The texts that the user put into sets.

ghost use Rattle.std.specs.Prelude.{◌≡◌, ◌&&◌, ◌==◌};
ghost use Rattle.std.specs.List.{filter, list_any};
ghost use Rattle.vc_plan.specs.Domains.{texts_of};
ghost use Rattle.vc_plan.specs.Truth.{set_filled, set_holds};
ghost use Rattle.vc_plan.specs.declared.conditions.Kleene.TheVariants.{False};

use vc_plan::{Kleene, Plan, Reading};
use vc_plan_values::texts_of;
use vc_plan_values::truths::truth_of;

fn has_text(texts: &[u32], text: u32) -> bool
    ensures { result ≡ list_any (λ x. x == text) texts.now }
{
    texts.iter().any(|other| *other == text)
}

// Whether the text is one of these, and the set has it.
fn holds_among<R: Reading>(reading: &R, set: u32, texts: &[u32], text: u32) -> bool
    ensures { result ≡ (list_any (λ x. x == text) texts.now && R.holdings reading.now set text) }
{
    has_text(texts, text) && reading.holds(set, text)
}

// Whether the set has one of the texts.
fn holds_some<R: Reading>(reading: &R, set: u32, texts: &[u32]) -> bool
    ensures { result ≡ list_any (R.holdings reading.now set) texts.now }
{
    let mut rest = texts;
    while let [text, more @ ..] = rest {
        if reading.holds(set, *text) {
            return true;
        }
        rest = more;
    }
    false
}

/// Whether the set has the text; of an empty set it is unknown.
#[tactic(auto, using(crate::proofs::SetLemmas::holding))]
pub fn set_holds<R: Reading>(plan: &Plan, reading: &R, set: u32, text: u32) -> Kleene
    ensures { result ≡ set_holds text (filter (R.holdings reading.now set) (texts_of plan.now set)) }
{
    let texts = texts_of(plan, set);
    if holds_some(reading, set, texts) {
        truth_of(holds_among(reading, set, texts, text))
    } else {
        Kleene::Unknown
    }
}

/// Whether the set has a text.
#[tactic(auto, using(crate::proofs::SetLemmas::filling))]
pub fn set_filled<R: Reading>(plan: &Plan, reading: &R, set: u32) -> Kleene
    ensures { result ≡ set_filled False (filter (R.holdings reading.now set) (texts_of plan.now set)) }
{
    truth_of(holds_some(reading, set, texts_of(plan, set)))
}
