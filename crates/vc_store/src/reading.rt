//! What a saved text gives.

ghost use Rattle.std.specs.Prelude.{◌≡◌, ◌==◌, ◌&&◌, List, Some};
ghost use Rattle.vc_value.specs.Words.{same_bytes};
ghost use Rattle.vc_plan.specs.Valid.{IsValid};
ghost use Rattle.vc_store_forms.specs.Forms.{Choice};
ghost use Rattle.vc_store_forms.specs.Shapes.{choices_said};
ghost use Rattle.vc_store.specs.Reading as reading;

use crate::faults::SavedFault;
use crate::giving::given_by;
use crate::marks::stands_twice;
use serde_json::{Category, Value as Json};
use std::alloc::Global;
use vc_plan::Plan;
use vc_plan_users::UserValues;
use vc_store_forms::shapes::{FoundForm, saved_in};

fn parsed(alloc: Global, text: &[u8]) -> Result<Json, SavedFault>
    ensures { reading.IsJsonUnlessMemory text.now result }
{
    match Json::from_slice(alloc, text) {
        Ok(json) => Ok(json),
        Err(error) => match error.classify() {
            Category::Memory => Err(SavedFault::OutOfMemory),
            _ => Err(SavedFault::NotJson),
        },
    }
}

// Whether it was saved of the plan's model and version.
fn is_of(plan: &Plan, found: FoundForm<'_>) -> bool
    ensures { result ≡ (same_bytes found.entry.model.now plan.now.name && (found.entry.version == plan.now.version)) }
{
    plan.name.is(found.model.as_bytes()) && found.version == u64::from(plan.version)
}

fn read_form(alloc: Global, plan: &Plan, found: FoundForm<'_>) -> Result<UserValues, SavedFault>
    requires { IsValid plan.now }
    ensures { (choices : List Choice) → choices_said found.entry ≡ Some choices
        → reading.IsUnlessMemory result (reading.read_form plan.now (record {
          model = found.entry.model.now;
          version = found.entry.version;
          choices = choices;
        })) }
{
    if stands_twice(alloc, plan, found.values)? {
        return Err(SavedFault::Shape);
    }
    if !is_of(plan, found) {
        return Err(SavedFault::OtherModel);
    }
    match given_by(alloc, plan, found.values)? {
        Some(users) => Ok(users),
        None => Err(SavedFault::UnknownName),
    }
}

/// What the user chose, by a saved text. A text that gives nothing is told by the first fault that it has.
pub fn read_saved(alloc: Global, plan: &Plan, text: &[u8]) -> Result<UserValues, SavedFault>
    requires { IsValid plan.now }
    ensures { reading.IsUnlessMemory result (reading.read_saved plan.now text.now) }
{
    let json = parsed(alloc, text)?;
    match saved_in(&json) {
        Some(found) => read_form(alloc, plan, found),
        None => Err(SavedFault::Shape),
    }
}
