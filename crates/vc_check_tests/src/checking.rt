//! A lamp of two colours, of which a constraint allows the first alone.

ghost use Rattle.std.specs.Prelude.{◌≡◌, ◌^◌, ◌<◌, length, IfOk};
ghost use Rattle.vc_plan_lamp.specs.Lamp.{lamp};

use std::alloc::{AllocError, Global};
use std::test::Fail;
use vc_check::{accepts, first_refused, refutes, settled};
use vc_plan::{Atom, Clash, Culprit, Origin, Plan, Step};
use vc_plan_lamp::lamp;
use vc_plan_sources::Sources;
use vc_value::{Listed, Value};

// What the checker says of a list.
#[derive(Clone, Copy)]
struct Told {
    accepted: bool,
    refused: Option<u32>,
    whole: bool,
}

fn number_alone(alloc: Global, number: u32) -> Result<Listed<u32>, AllocError> {
    let mut numbers = Listed::new(alloc);
    numbers.push(number)?;
    Ok(numbers)
}

fn step_of(
    alloc: Global,
    conclusion: Atom,
    origin: Origin,
    premise: u32,
) -> Result<Step, AllocError> {
    let premises = number_alone(alloc, premise)?;
    Ok(Step {
        conclusion,
        origin,
        premises,
    })
}

// That the second colour is out, by the constraint, and a second step.
fn after_the_constraint(
    alloc: Global,
    conclusion: Atom,
    origin: Origin,
    premise: u32,
) -> Result<Listed<Step>, AllocError>
    ensures { IfOk result (λ list. length list < 2 ^ 32) }
{
    let first = step_of(alloc, Atom::Out(0, 1), Origin::Rule(0), 0)?;
    let second = step_of(alloc, conclusion, origin, premise)?;
    let mut list = Listed::new(alloc);
    list.push(first)?;
    list.push(second)?;
    Ok(list)
}

fn told_of(alloc: Global, plan: &Plan, sources: &Sources, list: &[Step]) -> Result<Told, AllocError>
    requires plan { plan.now ≡ lamp }
    requires few { length list.now < 2 ^ 32 }
{
    let accepted = accepts(alloc, plan, sources, list)?;
    let refused = first_refused(alloc, plan, sources, list)?;
    let whole = settled(alloc, plan, sources, list)?;
    Ok(Told {
        accepted,
        refused,
        whole,
    })
}

fn told_with(alloc: Global, plan: &Plan, list: &[Step]) -> Result<Told, AllocError>
    requires plan { plan.now ≡ lamp }
    requires few { length list.now < 2 ^ 32 }
{
    let sources = Sources::new(alloc, plan)?;
    let told = told_of(alloc, plan, &sources, list);
    drop(sources);
    told
}

fn told_after(
    alloc: Global,
    conclusion: Atom,
    origin: Origin,
    premise: u32,
) -> Result<Told, AllocError> {
    let list = after_the_constraint(alloc, conclusion, origin, premise)?;
    let plan = lamp(alloc)?;
    let told = told_with(alloc, &plan, list.as_slice());
    drop(plan);
    drop(list);
    told
}

// The lamp's sources with the second colour of the user's.
fn second_chosen(alloc: Global, plan: &Plan) -> Result<Sources, AllocError>
    requires { plan.now ≡ lamp }
{
    let mut sources = Sources::new(alloc, plan)?;
    sources.set_user(0, Some(Value::Text(1)));
    Ok(sources)
}

// That the constraint contradicts the user, with so many of the steps as premises.
fn clash_of(alloc: Global, culprit: Culprit, last: u32) -> Result<Clash, AllocError> {
    let steps = after_the_constraint(alloc, Atom::Is(0, Value::Text(1)), Origin::User, 0)?;
    let mut premises = number_alone(alloc, 1)?;
    premises.push(last)?;
    Ok(Clash {
        steps,
        culprit,
        premises,
    })
}

fn refuted_by(alloc: Global, plan: &Plan, clash: &Clash) -> Result<bool, AllocError>
    requires { plan.now ≡ lamp }
{
    let sources = second_chosen(alloc, plan)?;
    let r = refutes(alloc, plan, &sources, clash);
    drop(sources);
    r
}

fn refuted(alloc: Global, culprit: Culprit, last: u32) -> Result<bool, AllocError> {
    let clash = clash_of(alloc, culprit, last)?;
    let plan = lamp(alloc)?;
    let r = refuted_by(alloc, &plan, &clash);
    drop(plan);
    drop(clash);
    r
}

#[test]
fn a_chain_is_accepted_and_whole(rt: HostRuntime) -> Result<(), Fail> {
    let told = told_after(rt.alloc(), Atom::Is(0, Value::Text(0)), Origin::Rule(1), 1)?;
    assert!(rt; told.accepted);
    assert_eq!(rt; told.refused, None);
    assert!(rt; told.whole);
    Ok(())
}

#[test]
fn a_list_may_be_accepted_and_not_whole(rt: HostRuntime) -> Result<(), Fail> {
    let told = told_after(rt.alloc(), Atom::Out(0, 1), Origin::Rule(0), 0)?;
    assert!(rt; told.accepted);
    assert!(rt; !told.whole);
    Ok(())
}

#[test]
fn no_step_cites_itself(rt: HostRuntime) -> Result<(), Fail> {
    let told = told_after(rt.alloc(), Atom::Is(0, Value::Text(0)), Origin::Rule(1), 2)?;
    assert!(rt; !told.accepted);
    assert_eq!(rt; told.refused, Some(2));
    assert!(rt; !told.whole);
    Ok(())
}

#[test]
fn no_step_cites_what_its_rule_does_not_need(rt: HostRuntime) -> Result<(), Fail> {
    let told = told_after(rt.alloc(), Atom::Is(0, Value::Text(0)), Origin::User, 1)?;
    assert_eq!(rt; told.refused, Some(2));
    Ok(())
}

#[test]
fn blames_the_constraint_alone(rt: HostRuntime) -> Result<(), Fail> {
    let by_constraint = refuted(rt.alloc(), Culprit::Rule(0), 2)?;
    let by_last = refuted(rt.alloc(), Culprit::Rule(1), 2)?;
    let of_one = refuted(rt.alloc(), Culprit::Rule(0), 1)?;
    assert!(rt; by_constraint);
    assert!(rt; !by_last);
    assert!(rt; !of_one);
    Ok(())
}
