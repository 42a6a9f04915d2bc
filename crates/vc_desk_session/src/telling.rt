//! What is told of a session.

ghost use Rattle.std.specs.Prelude.{◌≡◌, IfOk};
ghost use Rattle.vc_plan.specs.Valid.{IsValid};
ghost use Rattle.vc_plan_users.specs.Choosing.{users_of};
ghost use Rattle.vc_session.specs.Sessions.{IsSessionOf};
ghost use Rattle.vc_desk_shown.specs.Standing.{standing_of};
ghost use Rattle.vc_desk_session.specs.Telling.{text_told, told_as, Tells};

use std::alloc::{AllocError, Global};
use vc_desk_shown::{bill, routing, rows, status};
use vc_plan::{Plan, Status};
use vc_session::Session;
use vc_value::Word;
use vc_wire_replies::{Refusal, Reply};

/// What may be told of a session.
#[derive(Clone, Copy, Debug, PartialEq, Eq)]
pub enum Told {
    /// The values that its instances have and may have.
    Rows,
    /// The bill of materials.
    Bill,
    /// The operations.
    Routing,
}

fn text_of(alloc: Global, plan: &Plan, session: &Session, what: Told) -> Result<Word, AllocError>
    requires valid { IsValid plan.now }
    requires of { IsSessionOf plan.now session.now }
    ensures { IfOk result (λ text. text ≡ text_told what plan.now (users_of session.now.users)) }
{
    match what {
        Told::Rows => rows(alloc, plan, session),
        Told::Bill => bill(alloc, plan, session),
        Told::Routing => routing(alloc, plan, session),
    }
}

fn reply_with(what: Told, status: Status, text: Word) -> Reply
    ensures { result ≡ told_as what status text }
{
    match what {
        Told::Rows => Reply::Shown { status, rows: text },
        Told::Bill => Reply::BillShown {
            status,
            lines: text,
        },
        Told::Routing => Reply::RoutingShown {
            status,
            lines: text,
        },
    }
}

/// Tells this of the session, and how it stands.
pub fn tell(alloc: Global, plan: &Plan, session: &Session, what: Told) -> Reply
    requires valid { IsValid plan.now }
    requires of { IsSessionOf plan.now session.now }
    ensures { Tells plan.now (standing_of session.now) (told_as what)
        (text_told what plan.now (users_of session.now.users)) result }
{
    match text_of(alloc, plan, session, what) {
        Ok(text) => reply_with(what, status(plan, session), text),
        Err(_) => Reply::Refused {
            refusal: Refusal::OutOfMemory,
        },
    }
}
