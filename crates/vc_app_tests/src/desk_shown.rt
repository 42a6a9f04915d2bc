//! What is told of a session of a lamp of two colours, of which a constraint allows the first alone.

ghost use Rattle.std.specs.Prelude.{◌≡◌, ◌<◌};
ghost use Rattle.vc_plan.specs.Valid.{IsValid};
ghost use Rattle.vc_plan_lamp.specs.Lamp.{lamp};
ghost use Rattle.vc_session.specs.Sessions.{IsSessionOf};

use std::alloc::{AllocError, Global};
use std::marker::Brand;
use std::sync::ledger::{Blank, Ledger};
use std::test::Fail;
use vc_desk_shown::laws::settled_sessions_reach;
use vc_desk_shown::{bill, routing, rows, status};
use vc_plan::{Culprit, Named, Plan, Status};
use vc_plan_lamp::lamp;
use vc_session::Session;
use vc_value::Value;
use vc_value_steps::Steps;

// Whether these are the rows, and the lamp has neither lines nor operations.
fn shows(alloc: Global, plan: &Plan, session: &Session, wanted: &[u8]) -> Result<bool, AllocError>
    requires valid { IsValid plan.now }
    requires of { IsSessionOf plan.now session.now }
{
    let shown = rows(alloc, plan, session)?.is(wanted);
    let no_lines = bill(alloc, plan, session)?.is(b"");
    let no_operations = routing(alloc, plan, session)?.is(b"");
    Ok(shown && no_lines && no_operations)
}

// Whether a colour that follows is told, and what the user set where that contradicts.
fn tells<L: Ledger>(
    alloc: Global,
    plan: &Plan,
    session: &mut Session,
    steps: &mut Steps<L>,
) -> Result<bool, AllocError>
    requires valid { IsValid plan.now }
    requires of { IsSessionOf plan.now session.old }
{
    let complete = status(plan, session) == Status::Complete;
    let follows = shows(
        alloc,
        plan,
        session,
        b"instance 0 LAMP\nCOL = 'A' inferred\n",
    )?;
    let set = session
        .set(plan, Named::Var(0), Value::Text(1), steps)
        .is_ok();
    let blamed = status(plan, session) == Status::Contradiction(Culprit::Rule(0));
    let chosen = shows(alloc, plan, session, b"user 0 COL = 'B'\n")?;
    Ok(complete && follows && set && blamed && chosen)
}

fn session_of<L: Ledger>(alloc: Global, plan: &Plan, blank: Blank) -> Result<bool, AllocError>
    requires name { blank.name ≡ L.name }
    requires parts { blank.parts ≡ L.parts }
    requires some { 0 < blank.parts }
    requires plan { plan.now ≡ lamp }
{
    let mut session = Session::start(alloc, plan)?;
    let mut steps: Steps<L> = Steps::new(blank);
    let told = tells(alloc, plan, &mut session, &mut steps);
    drop(session);
    told
}

#[test]
fn tells_of_a_session(rt: HostRuntime) -> Result<(), Fail> {
    settled_sessions_reach();
    let plan = lamp(rt.alloc())?;
    let told = session_of::<Brand>(rt.alloc(), &plan, Blank::new(1));
    drop(plan);
    assert!(rt; told?);
    Ok(())
}
