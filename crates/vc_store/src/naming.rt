//! What the values of a saved text mean in a plan.

ghost use Rattle.std.specs.Prelude.{◌≡◌, Some, option_map};
ghost use Rattle.vc_plan.specs.declared.plans.Named.TheVariants.{Set};
ghost use Rattle.vc_plan.specs.Valid.{IsValid};
ghost use Rattle.vc_store_forms.specs.Shapes.{choice_said};
ghost use Rattle.vc_store.specs.Marking as marking;
ghost use Rattle.vc_store.specs.Meaning as meaning;

use serde_json::Value as Json;
use vc_desk_names::{find_named_near, value_named};
use vc_plan::{Named, Plan};
use vc_store_forms::shapes::{FoundChoice, choice_in};
use vc_value::Value;

/// A value that was given to a variable or to a set.
#[derive(Clone, Copy, Debug, PartialEq, Eq)]
pub struct GivenValue {
    pub named: Named,
    pub value: Value,
}

/// Where a value stands: at a variable, whatever it is, or at a text of a set.
#[derive(Clone, Copy, Debug, PartialEq, Eq)]
pub enum Place {
    Var(u32),
    Text { set: u32, text: u32 },
}

// The variable or the set that it names, if the plan has it.
fn named_by(plan: &Plan, choice: FoundChoice<'_>, near: &mut usize) -> Option<Named>
    requires { IsValid plan.now }
    ensures { result ≡ meaning.named_by plan.now (choice_said choice.entry) }
{
    match u32::try_from(choice.instance) {
        Ok(slot) => find_named_near(plan, slot, choice.characteristic.as_bytes(), near),
        Err(_) => None,
    }
}

// What it means: the value of the list that its text is.
fn meaning(plan: &Plan, choice: FoundChoice<'_>, near: &mut usize) -> Option<GivenValue>
    requires { IsValid plan.now }
    ensures { option_map marking.given_said result ≡ meaning.meaning plan.now (choice_said choice.entry) }
{
    let named = named_by(plan, choice, near)?;
    let value = value_named(plan, named, choice.value.as_bytes())?;
    Some(GivenValue { named, value })
}

fn place_of_listed(plan: &Plan, set: u32, word: &[u8]) -> Option<Place>
    ensures { option_map marking.place_said result ≡ meaning.place_at plan.now word.now (Some (Set set)) }
{
    match value_named(plan, Named::Set(set), word) {
        Some(Value::Text(text)) => Some(Place::Text { set, text }),
        _ => None,
    }
}

// Where it stands.
fn place_of(plan: &Plan, choice: FoundChoice<'_>, near: &mut usize) -> Option<Place>
    requires { IsValid plan.now }
    ensures { option_map marking.place_said result ≡ meaning.place plan.now (choice_said choice.entry) }
{
    match named_by(plan, choice, near) {
        Some(Named::Var(var)) => Some(Place::Var(var)),
        Some(Named::Set(set)) => place_of_listed(plan, set, choice.value.as_bytes()),
        None => None,
    }
}

/// Where a value stands that JSON says, if it says one that the plan knows. Its name is looked for first near a place
/// of its class, which is then the one behind it.
pub fn place_in(plan: &Plan, json: &Json, near: &mut usize) -> Option<Place>
    requires { IsValid plan.now }
    ensures is { option_map marking.place_said result ≡ marking.place_in plan.now json.now }
{
    place_of(plan, choice_in(json)?, near)
}

/// What a value means that JSON says, if it says one that the plan knows, looked for likewise.
pub fn meaning_in(plan: &Plan, json: &Json, near: &mut usize) -> Option<GivenValue>
    requires { IsValid plan.now }
    ensures { option_map marking.given_said result ≡ marking.meaning_in plan.now json.now }
{
    meaning(plan, choice_in(json)?, near)
}
