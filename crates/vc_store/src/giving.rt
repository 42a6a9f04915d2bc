//! What a user chose, from the values of a saved text.

ghost use Rattle.std.specs.Prelude.{◌≡◌, is_some, IfOk};
ghost use Rattle.vc_plan.specs.Valid.{IsValid};
ghost use Rattle.vc_store.specs.Marking as marking;

use crate::naming::meaning_in;
use serde_json::Value as Json;
use std::alloc::{AllocError, Global};
use vc_plan::Plan;
use vc_plan_users::UserValues;
use vc_session::choosing::give;

// Gives what the value means, and says whether the plan knows it.
fn give_value(plan: &Plan, users: &mut UserValues, json: &Json, near: &mut usize) -> bool
    requires valid { IsValid plan.now }
    requires of { marking.AreFor plan.now users.old }
    ensures known { result ≡ is_some (marking.meaning_in plan.now json.now) }
    ensures users { users.new ≡ marking.given_if users.old (marking.meaning_in plan.now json.now) }
    ensures of { marking.AreFor plan.now users.new }
{
    match meaning_in(plan, json, near) {
        Some(given) => {
            give(users, given.named, given.value);
            true
        }
        None => false,
    }
}

/// What is chosen where these values are given and no others; none where the plan doesn't know one of them.
pub fn given_by(
    alloc: Global,
    plan: &Plan,
    values: &[Json],
) -> Result<Option<UserValues>, AllocError>
    requires { IsValid plan.now }
    ensures { IfOk result (λ users. users ≡ marking.given_by plan.now values.now) }
{
    let mut users = UserValues::new(alloc, plan)?;
    let mut near = 0;
    for json in values {
        if !give_value(plan, &mut users, json, &mut near) {
            return Ok(None);
        }
    }
    Ok(Some(users))
}
