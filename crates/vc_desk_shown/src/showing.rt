//! What `show` tells of a session.

ghost use Rattle.std.specs.Prelude.{◌≡◌, IfOk};
ghost use Rattle.vc_plan.specs.Valid.{IsValid};
ghost use Rattle.vc_plan_users.specs.Choosing.{users_of};
ghost use Rattle.vc_session.specs.Sessions.{IsSessionOf};
ghost use Rattle.vc_desk_shown.specs.Shown.{shown};

use crate::chosen::chosen;
use crate::instances::instances;
use std::alloc::{AllocError, Global};
use vc_plan::Plan;
use vc_session::Session;
use vc_value::Word;

/// The rows of `show`: all instances, or what the user set where a stage is broken.
pub fn rows(alloc: Global, plan: &Plan, session: &Session) -> Result<Word, AllocError>
    requires valid { IsValid plan.now }
    requires of { IsSessionOf plan.now session.now }
    ensures { IfOk result (λ text. text ≡ shown plan.now (users_of session.now.users)) }
{
    match session.broken() {
        Some(_) => chosen(alloc, plan, session.users()),
        None => instances(alloc, plan, session),
    }
}
