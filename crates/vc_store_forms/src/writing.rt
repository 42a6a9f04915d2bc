//! How the saved form is written.

ghost use Rattle.std.specs.Prelude.{◌≡◌, List, map, IfOk};
ghost use Rattle.serde_json.specs.View.{view};
ghost use Rattle.vc_store_forms.specs.Forms.{Choice, choice_data, form_text, saved_data};

use serde_json::{Value, json};
use std::alloc::{AllocError, Global};

/// One value, at an instance and a characteristic.
pub fn choice_value(
    alloc: Global,
    instance: u32,
    characteristic: &str,
    value: &str,
) -> Result<Value, AllocError>
    ensures { IfOk result (λ json. view json ≡ choice_data (record {
      instance = instance;
      characteristic = characteristic.now;
      value = value.now;
    })) }
{
    let instance = u64::from(instance);
    json!(in alloc; {"characteristic": characteristic, "instance": instance, "value": value})
}

fn saved_value(
    alloc: Global,
    model: &str,
    version: u32,
    values: Vec<Value>,
) -> Result<Value, AllocError>
    ensures { (choices : List Choice) → map view values.items ≡ map choice_data choices
        → IfOk result (λ json. view json ≡ saved_data (record {
          model = model.now;
          version = version;
          choices = choices;
        })) }
{
    let form = 1u64;
    let version = u64::from(version);
    let values = Value::Array(values);
    json!(in alloc; {"form": form, "model": model, "values": values, "version": version})
}

/// The text of all that is saved, of values that `choice_value` made.
pub fn form_text(
    alloc: Global,
    model: &str,
    version: u32,
    values: Vec<Value>,
) -> Result<Vec<u8>, AllocError>
    ensures { (choices : List Choice) → map view values.items ≡ map choice_data choices
        → IfOk result (λ text. text.items ≡ form_text (record {
          model = model.now;
          version = version;
          choices = choices;
        })) }
{
    saved_value(alloc, model, version, values)?.to_vec(alloc)
}
