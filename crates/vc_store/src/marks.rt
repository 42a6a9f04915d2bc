//! Whether something stands twice in a saved text.

ghost use Rattle.std.specs.Prelude.{◌≡◌, ◌<◌, map, length, IfOk};
ghost use Rattle.vc_plan.specs.Valid.{IsValid};
ghost use Rattle.vc_store.specs.Marking as marking;
ghost use Rattle.vc_store.specs.declared.naming.Place.TheVariants as found;

use crate::naming::{Place, place_in};
use serde_json::Value as Json;
use std::alloc::{AllocError, Global};
use vc_plan::Plan;
use vc_plan_users::UserValues;
use vc_value::Value;

fn mark_var(marks: &mut UserValues, var: u32) -> bool
    requires { var < length marks.old.values }
    ensures stood { result ≡ marking.stands marks.old (marking.place_said (found.Var var)) }
    ensures marks { marks.new ≡ marking.marked marks.old (marking.place_said (found.Var var)) }
{
    let stood = marks.value(var).is_some();
    marks.put(var, Some(Value::Text(0)));
    stood
}

fn mark_text(marks: &mut UserValues, set: u32, text: u32) -> bool
    ensures stood { result ≡ marking.stands marks.old (marking.place_said (found.Text set text)) }
    ensures marks { marks.new ≡ marking.marked marks.old (marking.place_said (found.Text set text)) }
{
    let stood = marks.holds(set, text);
    marks.put_text(set, text, true);
    stood
}

// Marks the place, and says whether it was marked before.
fn mark(plan: &Plan, marks: &mut UserValues, place: Place) -> bool
    requires of { marking.AreFor plan.now marks.old }
    requires there { marking.IsThere plan.now (marking.place_said place) }
    ensures stood { result ≡ marking.stands marks.old (marking.place_said place) }
    ensures marks { marks.new ≡ marking.marked marks.old (marking.place_said place) }
{
    match place {
        Place::Var(var) => mark_var(marks, var),
        Place::Text { set, text } => mark_text(marks, set, text),
    }
}

// Marks where the value stands, and says whether something stood there before.
fn mark_value(plan: &Plan, marks: &mut UserValues, json: &Json, near: &mut usize) -> bool
    requires valid { IsValid plan.now }
    requires of { marking.AreFor plan.now marks.old }
    ensures stood { result ≡ marking.stands_if marks.old (marking.place_in plan.now json.now) }
    ensures marks { marks.new ≡ marking.marked_if marks.old (marking.place_in plan.now json.now) }
    ensures of { marking.AreFor plan.now marks.new }
{
    match place_in(plan, json, near) {
        Some(place) => mark(plan, marks, place),
        None => false,
    }
}

/// Whether two of the values stand at one place.
pub fn stands_twice(alloc: Global, plan: &Plan, values: &[Json]) -> Result<bool, AllocError>
    requires { IsValid plan.now }
    ensures { IfOk result (λ twice. twice ≡ marking.stand_twice plan.now values.now) }
{
    let mut marks = UserValues::new(alloc, plan)?;
    let mut near = 0;
    for json in values {
        if mark_value(plan, &mut marks, json, &mut near) {
            return Ok(true);
        }
    }
    Ok(false)
}
