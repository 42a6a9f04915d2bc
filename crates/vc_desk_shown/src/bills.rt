//! The bill and the routing of a session.

ghost use Rattle.std.specs.Prelude.{◌≡◌, None, IfOk};
ghost use Rattle.vc_plan.specs.Valid.{IsValid};
ghost use Rattle.vc_plan_users.specs.Choosing.{users_of};
ghost use Rattle.vc_session.specs.Sessions.{IsSessionOf};
ghost use Rattle.vc_desk_shown.specs.Shown as shown;

use std::alloc::{AllocError, Global};
use vc_bill::{bill_lines, operations, print_bill, print_routing};
use vc_plan::Plan;
use vc_session::Session;
use vc_value::Word;

fn settled_bill(alloc: Global, plan: &Plan, session: &Session) -> Result<Word, AllocError>
    requires valid { IsValid plan.now }
    requires of { IsSessionOf plan.now session.now }
    requires settled { session.now.stages.broken ≡ None }
    ensures { IfOk result (λ text. text ≡ shown.bill_shown plan.now (users_of session.now.users)) }
{
    let lines = bill_lines(alloc, plan, session)?;
    print_bill(alloc, plan, lines.as_slice())
}

fn settled_routing(alloc: Global, plan: &Plan, session: &Session) -> Result<Word, AllocError>
    requires valid { IsValid plan.now }
    requires of { IsSessionOf plan.now session.now }
    requires settled { session.now.stages.broken ≡ None }
    ensures { IfOk result (λ text. text ≡ shown.routing_shown plan.now (users_of session.now.users)) }
{
    let lines = operations(alloc, plan, session)?;
    print_routing(alloc, plan, lines.as_slice())
}

/// The lines of the bill; none where a stage is broken.
pub fn bill(alloc: Global, plan: &Plan, session: &Session) -> Result<Word, AllocError>
    requires valid { IsValid plan.now }
    requires of { IsSessionOf plan.now session.now }
    ensures { IfOk result (λ text. text ≡ shown.bill_shown plan.now (users_of session.now.users)) }
{
    match session.broken() {
        Some(_) => Ok(Word::new(alloc)),
        None => settled_bill(alloc, plan, session),
    }
}

/// The lines of the routing; none where a stage is broken.
pub fn routing(alloc: Global, plan: &Plan, session: &Session) -> Result<Word, AllocError>
    requires valid { IsValid plan.now }
    requires of { IsSessionOf plan.now session.now }
    ensures { IfOk result (λ text. text ≡ shown.routing_shown plan.now (users_of session.now.users)) }
{
    match session.broken() {
        Some(_) => Ok(Word::new(alloc)),
        None => settled_routing(alloc, plan, session),
    }
}
