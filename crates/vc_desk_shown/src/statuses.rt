//! How a session stands.

ghost use Rattle.vc_plan.specs.Valid.{IsValid};
ghost use Rattle.vc_session.specs.Sessions.{IsSessionOf};
ghost use Rattle.vc_desk_shown.specs.Standing.{StandsAs, standing_of};

use vc_plan::{Outcome, Plan, Status};
use vc_session::Session;
use vc_show::statuses::status_of;

/// How the session stands. Where a stage is broken, it blames whom the session blames.
pub fn status(plan: &Plan, session: &Session) -> Status
    requires valid { IsValid plan.now }
    requires of { IsSessionOf plan.now session.now }
    ensures { StandsAs plan.now (standing_of session.now) result }
{
    match session.outcome() {
        Outcome::Broken(culprit) => Status::Contradiction(culprit),
        Outcome::Settled => status_of(plan, session, session.marked()),
    }
}
