//! A session of a lamp of two colours, of which a constraint allows the first alone.

ghost use Rattle.std.specs.Prelude.{◌≡◌, ◌<◌, IfOk};
ghost use Rattle.vc_plan.specs.Valid.{IsValid};
ghost use Rattle.vc_plan_lamp.specs.Lamp.{lamp};
ghost use Rattle.vc_proc_look_ups.specs.LookUps.{AreLookUpsOf};
ghost use Rattle.vc_session.specs.Sessions.{IsSessionOf};

use std::alloc::{AllocError, Global};
use std::marker::Brand;
use std::sync::ledger::{Blank, Ledger};
use std::test::Fail;
use vc_plan::{Atom, Clash, Culprit, Named, Outcome, Plan, Reading, Step, View};
use vc_plan_lamp::lamp;
use vc_session::Session;
use vc_session_evaluation::SharedLookUps;
use vc_value::{Listed, Value};
use vc_value_steps::Steps;

// Whether the colour follows, and nothing is broken or late.
fn is_settled(session: &Session) -> bool {
    let calm = session.outcome() == Outcome::Settled && session.broken() == None;
    let shown = session.here(0) && session.out(0, 1) && session.value(0) == Some(Value::Text(0));
    calm && shown
        && !session.late(0)
        && !session.holds(0, 0)
        && session.overlay().entry(0).is_none()
}

// Whether the constraint is to blame at the first stage.
fn is_broken(session: &Session) -> bool {
    session.outcome() == Outcome::Broken(Culprit::Rule(0)) && session.broken() == Some(0)
}

// Whether edits do what they say: a value that isn't listed, one that contradicts, and both ways to take it back.
fn edits<L: Ledger>(plan: &Plan, session: &mut Session, steps: &mut Steps<L>) -> bool
    requires valid { IsValid plan.now }
    requires of { IsSessionOf plan.now session.old }
    ensures of { IsSessionOf plan.now session.new }
{
    let colour = Named::Var(0);
    let begun = is_settled(session);
    let refused = session.set(plan, colour, Value::Text(7), steps).is_err() && is_settled(session);
    let set = session.set(plan, colour, Value::Text(1), steps).is_ok() && is_broken(session);
    let kept = session.users().value(0) == Some(Value::Text(1));
    let other = session
        .drop_value(plan, colour, Value::Text(0), steps)
        .is_err()
        && is_broken(session);
    let dropped = session
        .drop_value(plan, colour, Value::Text(1), steps)
        .is_ok()
        && is_settled(session);
    let nothing = session.retract(plan, colour, steps).is_err();
    let added = session.add(plan, colour, Value::Text(0), steps).is_ok() && is_settled(session);
    let mended = session.retract(plan, colour, steps).is_ok() && is_settled(session);
    begun && refused && set && kept && other && dropped && nothing && added && mended
}

fn session_of<L: Ledger>(alloc: Global, plan: &Plan, blank: Blank) -> Result<bool, AllocError>
    requires name { blank.name ≡ L.name }
    requires parts { blank.parts ≡ L.parts }
    requires some { 0 < blank.parts }
    requires plan { plan.now ≡ lamp }
{
    let mut session = Session::start(alloc, plan)?;
    let mut steps: Steps<L> = Steps::new(blank);
    let done = edits(plan, &mut session, &mut steps);
    drop(session);
    Ok(done)
}

#[test]
fn evaluates_after_each_edit(rt: HostRuntime) -> Result<(), Fail> {
    let plan = lamp(rt.alloc())?;
    let done = session_of::<Brand>(rt.alloc(), &plan, Blank::new(1));
    drop(plan);
    assert!(rt; done?);
    Ok(())
}

// A session of the lamp with these orders.
fn session_with(alloc: Global, plan: &Plan, look_ups: SharedLookUps) -> Result<Session, AllocError>
    requires plan { plan.now ≡ lamp }
    requires look_ups { AreLookUpsOf plan.now look_ups }
    ensures { IfOk result (λ session. IsSessionOf plan.now session) }
{
    let session = Session::start_with(alloc, plan, look_ups)?;
    Ok(session)
}

// Whether each of two sessions that share orders answers its edits as one alone does, the other being edited or not.
fn sessions_sharing<L: Ledger>(alloc: Global, plan: &Plan, blank: Blank) -> Result<bool, AllocError>
    requires name { blank.name ≡ L.name }
    requires parts { blank.parts ≡ L.parts }
    requires some { 0 < blank.parts }
    requires plan { plan.now ≡ lamp }
{
    let look_ups = SharedLookUps::new(alloc, plan)?;
    let shared = look_ups.share()?;
    let mut session = session_with(alloc, plan, look_ups)?;
    let mut other = session_with(alloc, plan, shared)?;
    let mut steps: Steps<L> = Steps::new(blank);
    let done = edits(plan, &mut session, &mut steps);
    let done_too = edits(plan, &mut other, &mut steps);
    drop(session);
    drop(other);
    Ok(done && done_too)
}

#[test]
fn shares_orders(rt: HostRuntime) -> Result<(), Fail> {
    let plan = lamp(rt.alloc())?;
    let done = sessions_sharing::<Brand>(rt.alloc(), &plan, Blank::new(1));
    drop(plan);
    assert!(rt; done?);
    Ok(())
}

// How many steps are told; none where no steps are.
fn step_count(
    steps: Result<Option<Listed<Step>>, AllocError>,
) -> Result<Option<usize>, AllocError> {
    match steps? {
        Some(steps) => {
            let count = steps.len();
            drop(steps);
            Ok(Some(count))
        }
        None => Ok(None),
    }
}

// How many premises contradict; none where nothing does.
fn premise_count(clash: Result<Option<Clash>, AllocError>) -> Result<Option<usize>, AllocError> {
    match clash? {
        Some(clash) => {
            let count = clash.premises.len();
            drop(clash);
            Ok(Some(count))
        }
        None => Ok(None),
    }
}

// How many steps lead to the first colour, how many there are, and how many premises contradict.
fn reasons(alloc: Global, plan: &Plan, session: &Session) -> Result<[Option<usize>; 3], AllocError>
    requires valid { IsValid plan.now }
    requires of { IsSessionOf plan.now session.now }
{
    let why = step_count(session.why(alloc, plan, Atom::Is(0, Value::Text(0))))?;
    let log = step_count(session.log(alloc, plan))?;
    let clash = premise_count(session.clash(alloc, plan))?;
    Ok([why, log, clash])
}

fn reasons_before_and_after<L: Ledger>(
    alloc: Global,
    plan: &Plan,
    blank: Blank,
) -> Result<[[Option<usize>; 3]; 2], AllocError>
    requires name { blank.name ≡ L.name }
    requires parts { blank.parts ≡ L.parts }
    requires some { 0 < blank.parts }
    requires plan { plan.now ≡ lamp }
{
    let mut session = Session::start(alloc, plan)?;
    let mut steps: Steps<L> = Steps::new(blank);
    let before = reasons(alloc, plan, &session);
    let set = session
        .set(plan, Named::Var(0), Value::Text(1), &mut steps)
        .is_ok();
    let after = reasons(alloc, plan, &session);
    drop(session);
    Ok([before?, after?])
}

#[test]
fn tells_reasons(rt: HostRuntime) -> Result<(), Fail> {
    let plan = lamp(rt.alloc())?;
    let told = reasons_before_and_after::<Brand>(rt.alloc(), &plan, Blank::new(1));
    drop(plan);
    assert_eq!(rt; told?, [[Some(2), Some(2), None], [None, None, Some(2)]]);
    Ok(())
}
