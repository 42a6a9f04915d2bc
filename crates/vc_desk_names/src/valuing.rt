//! A value by its text.

ghost use Rattle.std.specs.Prelude.{◌≡◌, slice_get};
ghost use Rattle.std.specs.List.{find};
ghost use Rattle.vc_value.specs.Decimals.{read_number};
ghost use Rattle.vc_plan.specs.declared.plans.Named.TheVariants.{Var};
ghost use Rattle.vc_desk_names.specs.Meant as meant;

use vc_plan::{Named, Plan, element};
use vc_plan_values::grains::domain_of;
use vc_plan_values::texts_of;
use vc_session::listing::may_be_given;
use vc_value::{Dec, Domain, Value};

fn is_word(plan: &Plan, text: u32, word: &[u8]) -> bool
    ensures { result ≡ meant.is_word word.now (slice_get plan.now.texts text) }
{
    match element(plan.texts.as_slice(), text) {
        Some(text) => text.is(word),
        None => false,
    }
}

fn spelled_among(plan: &Plan, texts: &[u32], word: &[u8]) -> Option<u32>
    ensures { result ≡ find (λ t. meant.is_word word.now (slice_get plan.now.texts t)) texts.now }
{
    for text in texts {
        if is_word(plan, *text, word) {
            return Some(*text);
        }
    }
    None
}

fn text_among(plan: &Plan, texts: &[u32], word: &[u8]) -> Option<Value>
    ensures { result ≡ meant.text_among plan.now texts.now word.now }
{
    match spelled_among(plan, texts, word) {
        Some(text) => Some(Value::Text(text)),
        None => None,
    }
}

fn number_for(plan: &Plan, var: u32, word: &[u8]) -> Option<Value>
    ensures { result ≡ meant.number_for plan.now var (read_number word.now) }
{
    match Dec::read(word) {
        Ok(number) if may_be_given(plan, Named::Var(var), Value::Num(number)) => {
            Some(Value::Num(number))
        }
        _ => None,
    }
}

fn value_of_var(plan: &Plan, var: u32, word: &[u8]) -> Option<Value>
    ensures { result ≡ meant.value_named plan.now (Var var) word.now }
{
    match domain_of(plan, var) {
        Some(Domain::Texts(texts)) => text_among(plan, texts.as_slice(), word),
        Some(Domain::Nums { .. }) => number_for(plan, var, word),
        None => None,
    }
}

/// The value of the list that the text is: a listed text, byte by byte, or a number that lies in it and has no more
/// decimals than its characteristic.
pub fn value_named(plan: &Plan, named: Named, word: &[u8]) -> Option<Value>
    ensures { result ≡ meant.value_named plan.now named word.now }
{
    match named {
        Named::Var(var) => value_of_var(plan, var, word),
        Named::Set(set) => text_among(plan, texts_of(plan, set), word),
    }
}
