//! The bodies of requests over HTTP: a JSON object with one member, a text.
#![tactic(auto)]

ghost use Rattle.std.specs.Prelude.{◌≡◌, ◌==◌, IfOk};
ghost use Rattle.std.specs.Option.{option_map};
ghost use Rattle.serde_json.specs.View.{view};
ghost use Rattle.vc_store_forms.specs.Shapes as shapes;
ghost use Rattle.vc_http_bodies.specs.Bodies as bodies;

use serde_json::{Category, Value as Json};
use std::alloc::{AllocError, Global};
use vc_value::Word;

#[cfg(test)]
mod tests;

// The JSON value that the bytes are.
fn parsed(alloc: Global, bytes: &[u8]) -> Result<Option<Json>, AllocError>
    ensures { IfOk result (λ found. option_map (λ json. view json) found ≡ bodies.json_in bytes.now) }
{
    match Json::from_slice(alloc, bytes) {
        Ok(json) => Ok(Some(json)),
        Err(error) => match error.classify() {
            Category::Memory => Err(AllocError),
            _ => Ok(None),
        },
    }
}

fn has_one_member(json: &Json) -> bool
    ensures { result ≡ (shapes.member_count (view json.now) == 1) }
{
    match json.as_object() {
        Some(members) => members.len() == 1,
        None => false,
    }
}

fn text_at<'v>(json: &'v Json, key: &str) -> Option<&'v str>
    ensures { option_map (λ text. text.now) result ≡ shapes.text_at key.now (view json.now) }
{
    let member = json.get(key)?;
    member.as_str()
}

fn only_text<'v>(json: &'v Json, key: &str) -> Option<&'v str>
    ensures { option_map (λ text. text.now) result ≡ bodies.only_text key.now (view json.now) }
{
    if has_one_member(json) {
        text_at(json, key)
    } else {
        None
    }
}

fn copied(alloc: Global, text: Option<&str>) -> Result<Option<Word>, AllocError>
    ensures { IfOk result (λ copy. copy ≡ option_map (λ text. text.now) text.entry) }
{
    match text {
        Some(text) => {
            let word = Word::from_bytes(alloc, text.as_bytes())?;
            Ok(Some(word))
        }
        None => Ok(None),
    }
}

/// The text of a body under this key; None where the body isn't an object with this member alone, a text.
pub fn read_text(alloc: Global, body: &[u8], key: &str) -> Result<Option<Word>, AllocError>
    ensures { IfOk result (λ found. found ≡ bodies.text_in key.now body.now) }
{
    match parsed(alloc, body)? {
        Some(json) => {
            let text = copied(alloc, only_text(&json, key));
            drop(json);
            text
        }
        None => Ok(None),
    }
}
