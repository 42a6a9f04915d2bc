//! Asking a plan for its tally: one session, in which one value after another is chosen alone.

ghost use Rattle.std.specs.Prelude.{◌≡◌, ◌<◌, ◌≤◌, ◌^◌, ◌+◌, IfOk, length, option_map};
ghost use Rattle.vc_plan.specs.declared.plans.Named.TheVariants.{Var};
ghost use Rattle.vc_plan.specs.Evaluate.{evaluation_of};
ghost use Rattle.vc_plan.specs.Valid.{IsValid};
ghost use Rattle.vc_plan_users.specs.Choosing.{none_chosen, users_of};
ghost use Rattle.vc_desk_names.specs.Meant.{value_named};
ghost use Rattle.vc_session.specs.Sessions.{IsSessionOf};
ghost use Rattle.vc_app_gen.specs.Tallies as tallies;

use crate::tally::{Tally, tally_of};
use std::alloc::{AllocError, Global};
use std::marker::Brand;
use std::sync::ledger::{Blank, Ledger};
use vc_desk_names::{find_named, value_named};
use vc_plan::{Named, Plan};
use vc_session::{NotSet, Session, SetFault};
use vc_value::Value;
use vc_value_steps::Steps;

/// That there is no tally or line: memory was wanting. It is told too where a family's model were refused, or a value
/// that is listed couldn't be set or taken back, which doesn't come to pass.
#[derive(Clone, Copy, Debug, PartialEq, Eq)]
pub struct Unmade;

impl From<AllocError> for Unmade {
    ghost from_gives = { λ _ unmade. unmade ≡ record {} };

    fn from(_error: AllocError) -> Unmade {
        Unmade
    }
}

impl From<SetFault> for Unmade {
    ghost from_gives = { λ _ unmade. unmade ≡ record {} };

    fn from(_fault: SetFault) -> Unmade {
        Unmade
    }
}

impl From<NotSet> for Unmade {
    ghost from_gives = { λ _ unmade. unmade ≡ record {} };

    fn from(_fault: NotSet) -> Unmade {
        Unmade
    }
}

// Nothing is known.
fn no_tally() -> Tally
    ensures { result ≡ tallies.no_tally }
{
    Tally { count: 0, sum: 0 }
}

// The tally of the session as it stands.
fn tally_here(plan: &Plan, session: &Session) -> Tally
    requires valid { IsValid plan.now }
    requires of { IsSessionOf plan.now session.now }
    ensures value { result ≡ tallies.tally_after plan.now
        (evaluation_of plan.now (users_of session.now.users)) }
    ensures count { result.count < 2 ^ 40 }
    ensures sum { result.sum < 2 ^ 40 }
{
    match session.broken() {
        Some(_) => no_tally(),
        None => tally_of(plan, session),
    }
}

// The tally where the variable has the value, which is taken back then.
fn tally_chosen<L: Ledger>(
    plan: &Plan,
    session: &mut Session,
    var: u32,
    value: Value,
    steps: &mut Steps<L>,
) -> Result<Tally, Unmade>
    requires valid { IsValid plan.now }
    requires of { IsSessionOf plan.now session.old }
    requires none { session.old.users ≡ none_chosen plan.now }
    ensures value { IfOk result (λ tally. tally ≡ tallies.tally_after plan.now
        (evaluation_of plan.now (users_of (tallies.chosen_alone plan.now var value)))) }
    ensures count { IfOk result (λ tally. tally.count < 2 ^ 40) }
    ensures sum { IfOk result (λ tally. tally.sum < 2 ^ 40) }
    ensures of { IsSessionOf plan.now session.new }
    ensures none { IfOk result (λ tally. session.new.users ≡ none_chosen plan.now) }
{
    session.set(plan, Named::Var(var), value, steps)?;
    let tally = tally_here(plan, session);
    session.retract(plan, Named::Var(var), steps)?;
    Ok(tally)
}

// The value of this number, if it is one of the variable's.
fn value_at(alloc: Global, plan: &Plan, var: u32, number: u32) -> Result<Option<Value>, AllocError>
    ensures { IfOk result (λ value. value ≡ value_named plan.now (Var var) (tallies.value_text number)) }
{
    let text = format!(in alloc; "V{number}")?;
    Ok(value_named(plan, Named::Var(var), text.as_bytes()))
}

// The tally by the value of this number.
fn tally_at<L: Ledger>(
    alloc: Global,
    plan: &Plan,
    session: &mut Session,
    var: u32,
    number: u32,
    steps: &mut Steps<L>,
) -> Result<Tally, Unmade>
    requires valid { IsValid plan.now }
    requires of { IsSessionOf plan.now session.old }
    requires none { session.old.users ≡ none_chosen plan.now }
    ensures value { IfOk result (λ tally. tally ≡ tallies.tally_at plan.now var number) }
    ensures count { IfOk result (λ tally. tally.count < 2 ^ 40) }
    ensures sum { IfOk result (λ tally. tally.sum < 2 ^ 40) }
    ensures of { IsSessionOf plan.now session.new }
    ensures none { IfOk result (λ tally. session.new.users ≡ none_chosen plan.now) }
{
    match value_at(alloc, plan, var, number)? {
        Some(value) => {
            let tally = tally_chosen(plan, session, var, value, steps)?;
            Ok(tally)
        }
        None => Ok(no_tally()),
    }
}

// The tally by all values, one after another.
#[tactic(auto, using(crate::proofs::TotalLemmas::totalling))]
fn tally_over<L: Ledger>(
    alloc: Global,
    plan: &Plan,
    session: &mut Session,
    var: u32,
    values: u32,
    steps: &mut Steps<L>,
) -> Result<Tally, Unmade>
    requires few { values ≤ 5 }
    requires valid { IsValid plan.now }
    requires of { IsSessionOf plan.now session.old }
    requires none { session.old.users ≡ none_chosen plan.now }
    ensures { IfOk result (λ tally. tally ≡ tallies.tally_over plan.now var values) }
{
    let mut tally = no_tally();
    for number in 0..values {
        let more = tally_at(alloc, plan, session, var, number, steps)?;
        tally = Tally {
            count: tally.count + more.count,
            sum: tally.sum + more.sum,
        };
    }
    Ok(tally)
}

// The same in a session of its own, whose steps are counted in the blank's ledger.
fn tally_begun<L: Ledger>(
    alloc: Global,
    plan: &Plan,
    var: u32,
    values: u32,
    blank: Blank,
) -> Result<Tally, Unmade>
    requires few { values ≤ 5 }
    requires valid { IsValid plan.now }
    requires name { blank.name ≡ L.name }
    requires parts { blank.parts ≡ L.parts }
    requires some { 0 < blank.parts }
    ensures { IfOk result (λ tally. tally ≡ tallies.tally_over plan.now var values) }
{
    let mut session = Session::start(alloc, plan)?;
    let mut steps: Steps<L> = Steps::new(blank);
    let tally = tally_over(alloc, plan, &mut session, var, values, &mut steps);
    drop(steps);
    drop(session);
    tally
}

fn variable_if(named: Option<Named>) -> Option<u32>
    ensures { result ≡ tallies.variable_if named }
{
    match named {
        Some(Named::Var(var)) => Some(var),
        Some(Named::Set(_)) | None => None,
    }
}

// The variable of the root object that is called A1.
fn first_variable(plan: &Plan) -> Option<u32>
    requires { IsValid plan.now }
    ensures { result ≡ tallies.first_variable plan.now }
{
    variable_if(find_named(plan, 0, "A1".as_bytes()))
}

/// The tally of a plan by the first so many values of its first characteristic.
pub fn tally_plan(alloc: Global, plan: &Plan, values: u32) -> Result<Tally, Unmade>
    requires few { values ≤ 5 }
    requires valid { IsValid plan.now }
    ensures { IfOk result (λ tally. tally ≡ tallies.tally_of plan.now values) }
{
    match first_variable(plan) {
        Some(var) => tally_begun::<Brand>(alloc, plan, var, values, Blank::new(1)),
        None => Ok(no_tally()),
    }
}
