//! Names and listed texts of a plan, as words.

ghost use Rattle.std.specs.Prelude.{◌≡◌, slice_get, IsUtf8};
ghost use Rattle.vc_value.specs.Numerals.{number_text};
ghost use Rattle.vc_plan.specs.Valid.{IsValid};
ghost use Rattle.vc_plan.specs.declared.plans.Named.TheVariants.{Set, Var};
ghost use Rattle.vc_show_rows.specs.Texts as told;
ghost use Rattle.vc_store.specs.Saving.{text_in};

use std::str;
use vc_plan::{Named, Plan, element};
use vc_value::{Dec, Word};

// The bytes as text, which they are.
fn text(bytes: &[u8]) -> &str
    requires { IsUtf8 bytes.now }
    ensures { result.now ≡ bytes.now }
{
    match str::from_utf8(bytes) {
        Ok(text) => text,
        Err(_) => "",
    }
}

/// The plan's own name.
pub(crate) fn model_name(plan: &Plan) -> &str
    requires { IsValid plan.now }
    ensures { result.now ≡ plan.now.name }
{
    text(plan.name.bytes())
}

fn name_in(plan: &Plan, characteristic: u32) -> &str
    requires { IsValid plan.now }
    ensures { result.now ≡ told.name_in (slice_get plan.now.characteristics characteristic) }
{
    match element(plan.characteristics.as_slice(), characteristic) {
        Some(characteristic) => text(characteristic.name.bytes()),
        None => "",
    }
}

fn name_of_var(plan: &Plan, var: u32) -> &str
    requires { IsValid plan.now }
    ensures { result.now ≡ told.name_of plan.now (Var var) }
{
    match element(plan.vars.as_slice(), var) {
        Some(x) => name_in(plan, x.characteristic),
        None => "",
    }
}

fn name_of_set(plan: &Plan, set: u32) -> &str
    requires { IsValid plan.now }
    ensures { result.now ≡ told.name_of plan.now (Set set) }
{
    match element(plan.sets.as_slice(), set) {
        Some(x) => name_in(plan, x.characteristic),
        None => "",
    }
}

/// The name of a characteristic, by the variable or the set that it is at a slot.
pub(crate) fn name_of(plan: &Plan, named: Named) -> &str
    requires { IsValid plan.now }
    ensures { result.now ≡ told.name_of plan.now named }
{
    match named {
        Named::Var(var) => name_of_var(plan, var),
        Named::Set(set) => name_of_set(plan, set),
    }
}

/// A listed text, by its number.
pub(crate) fn listed_text(plan: &Plan, listed: u32) -> &str
    requires { IsValid plan.now }
    ensures { result.now ≡ text_in (slice_get plan.now.texts listed) }
{
    match element(plan.texts.as_slice(), listed) {
        Some(word) => text(word.bytes()),
        None => "",
    }
}

/// A printed number, as text.
pub(crate) fn printed_text(printed: &Word, number: Dec) -> &str
    requires { printed.now ≡ number_text number }
    ensures { result.now ≡ number_text number }
{
    text(printed.bytes())
}
