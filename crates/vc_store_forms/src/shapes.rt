//! How the saved form is read.

ghost use Rattle.std.specs.Prelude.{◌≡◌, ◌==◌, ◌&&◌, true, codes, map, is_some, IfSome, option_and_then};
ghost use Rattle.std.specs.Option.{option_map};
ghost use Rattle.serde_json.specs.View.{items_of, view};
ghost use Rattle.vc_store_forms.specs.Shapes as shapes;

use serde_json::Value;

/// One value, as it was saved.
#[derive(Clone, Copy, Debug)]
pub struct FoundChoice<'v> {
    pub instance: u64,
    pub characteristic: &'v str,
    pub value: &'v str,
}

/// All that was saved; whether each of the values is one is another question.
#[derive(Clone, Copy, Debug)]
pub struct FoundForm<'v> {
    pub model: &'v str,
    pub version: u64,
    pub values: &'v [Value],
}

fn text_at<'v>(json: &'v Value, key: &str) -> Option<&'v str>
    ensures { option_map (λ text. text.now) result ≡ shapes.text_at key.now (view json.now) }
{
    let member = json.get(key)?;
    member.as_str()
}

fn number_at(json: &Value, key: &str) -> Option<u64>
    ensures { result ≡ shapes.number_at key.now (view json.now) }
{
    let member = json.get(key)?;
    member.as_u64()
}

fn list_at<'v>(json: &'v Value, key: &str) -> Option<&'v [Value]>
    ensures { option_map (λ list. items_of (map view list.now)) result ≡ shapes.list_at key.now (view json.now) }
{
    let member = json.get(key)?;
    let list = member.as_array()?;
    Some(list.as_slice())
}

fn has_members(json: &Value, count: usize) -> bool
    ensures { result ≡ (shapes.member_count (view json.now) == count) }
{
    match json.as_object() {
        Some(members) => members.len() == count,
        None => count == 0,
    }
}

/// The value that a JSON value is of the form, if it is one.
pub fn choice_in(json: &Value) -> Option<FoundChoice<'_>>
    ensures { option_map shapes.choice_said result ≡ shapes.choice_in (view json.now) }
{
    if !has_members(json, 3) {
        return None;
    }
    let characteristic = text_at(json, "characteristic")?;
    let instance = number_at(json, "instance")?;
    let value = text_at(json, "value")?;
    Some(FoundChoice {
        instance,
        characteristic,
        value,
    })
}

// Whether each of them is one.
fn are_choices(values: &[Value]) -> bool
    ensures { result ≡ is_some (shapes.choices_in (items_of (map view values.now))) }
{
    for value in values {
        if choice_in(value).is_none() {
            return false;
        }
    }
    true
}

fn is_form(json: &Value) -> bool
    ensures { result ≡ shapes.is_form (shapes.number_at (codes "form") (view json.now)) }
{
    match number_at(json, "form") {
        Some(form) => form == 1,
        None => false,
    }
}

fn is_outlined(json: &Value) -> bool
    ensures { result ≡ ((shapes.member_count (view json.now) == 4)
        && shapes.is_form (shapes.number_at (codes "form") (view json.now))) }
{
    has_members(json, 4) && is_form(json)
}

/// What a JSON value says of the form, if it is of it.
pub fn saved_in(json: &Value) -> Option<FoundForm<'_>>
    ensures is { option_and_then shapes.saved_said result ≡ shapes.saved_in (view json.now) }
    ensures choices { IfSome result (λ found. is_some (shapes.choices_said found) ≡ true) }
{
    if !is_outlined(json) {
        return None;
    }
    let model = text_at(json, "model")?;
    let values = list_at(json, "values")?;
    let version = number_at(json, "version")?;
    if !are_choices(values) {
        return None;
    }
    Some(FoundForm {
        model,
        version,
        values,
    })
}
