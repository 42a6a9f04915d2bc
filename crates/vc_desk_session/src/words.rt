//! What the words of a request mean, or why they mean nothing.

ghost use Rattle.std.specs.Prelude.{◌≡◌};
ghost use Rattle.std.specs.Option.{ok_or};
ghost use Rattle.vc_show.specs.Fitting.{ShownFits};
ghost use Rattle.vc_desk_names.specs.Meant.{value_named};
ghost use Rattle.vc_desk_session.specs.Edits as edits;

use vc_desk_names::{find_named, value_named};
use vc_plan::{Named, Plan};
use vc_value::{Value, Word};
use vc_wire_replies::Refusal;

/// The characteristic of this name at the instance.
pub fn named_for(plan: &Plan, instance: u32, name: &Word) -> Result<Named, Refusal>
    requires { ShownFits plan.now }
    ensures { result ≡ edits.named_for plan.now instance name.now }
{
    if (instance as usize) < plan.slots.len() {
        match find_named(plan, instance, name.bytes()) {
            Some(named) => Ok(named),
            None => Err(Refusal::UnknownCharacteristic),
        }
    } else {
        Err(Refusal::UnknownInstance)
    }
}

/// The value of its list that the word is.
pub fn value_for(plan: &Plan, named: Named, word: &Word) -> Result<Value, Refusal>
    ensures { result ≡ ok_or (value_named plan.now named word.now) Refusal.NotInList }
{
    match value_named(plan, named, word.bytes()) {
        Some(value) => Ok(value),
        None => Err(Refusal::NotInList),
    }
}
