//! A lamp of two colours, of which a constraint allows the first alone: it gets that one, and the other contradicts.

ghost use Rattle.std.specs.Prelude.{◌≡◌, ◌<◌, true, length, IfOk, Some};
ghost use Rattle.vc_value.specs.declared.value.Value.TheVariants.{Text};
ghost use Rattle.vc_plan_lamp.specs.Lamp.{lamp};
ghost use Rattle.vc_plan_reasons.specs.Fitting.{sources_fit};
ghost use Rattle.vc_plan_sources.specs.Changes.{no_sources, with_user};

use std::alloc::{AllocError, Global};
use std::marker::Brand;
use std::sync::ledger::{Blank, Ledger};
use std::test::Fail;
use vc_net::Net;
use vc_net::laws::{logs_are_short, nets_explain};
use vc_plan::{Atom, Clash, Culprit, Outcome, Plan, Step, View};
use vc_plan_lamp::lamp;
use vc_plan_sources::Sources;
use vc_value::{Listed, Value};
use vc_value_steps::Steps;

// What a net of the lamp says of its colour after it was settled with one colour of the user's, and then with another.
#[derive(Clone, Copy)]
struct Told {
    outcome: Outcome,
    colour: Option<Value>,
    second_out: bool,
    steps: usize,
    chain: usize,
    premises: usize,
}

fn step_count(log: Result<Listed<Step>, AllocError>) -> Result<usize, AllocError> {
    let log = log?;
    let count = log.len();
    drop(log);
    Ok(count)
}

// How many steps the chain of reasons has; 0 where there is none.
fn chain_count(chain: Result<Option<Listed<Step>>, AllocError>) -> Result<usize, AllocError> {
    match chain? {
        Some(chain) => {
            let count = chain.len();
            drop(chain);
            Ok(count)
        }
        None => Ok(0),
    }
}

// How many premises contradict; 0 where none do.
fn premise_count(clash: Result<Option<Clash>, AllocError>) -> Result<usize, AllocError> {
    match clash? {
        Some(clash) => {
            let count = clash.premises.len();
            drop(clash);
            Ok(count)
        }
        None => Ok(0),
    }
}

fn settled_with<L: Ledger>(
    alloc: Global,
    plan: &Plan,
    former: &Sources,
    sources: &Sources,
    blank: Blank,
) -> Result<Told, AllocError>
    requires name { blank.name ≡ L.name }
    requires parts { blank.parts ≡ L.parts }
    requires some { 0 < blank.parts }
    requires plan { plan.now ≡ lamp }
    requires former_users { length former.now.user ≡ 1 }
    requires former_written { length former.now.written ≡ 1 }
    requires former_fits { sources_fit lamp former.now ≡ true }
    requires users { length sources.now.user ≡ 1 }
    requires written { length sources.now.written ≡ 1 }
    requires fits { sources_fit lamp sources.now ≡ true }
{
    let mut net = Net::new(alloc, plan)?;
    let mut steps: Steps<L> = Steps::new(blank);
    net.sync(plan, former, &mut steps);
    net.sync_at(plan, sources, &[0], &[], &mut steps);
    logs_are_short();
    nets_explain();
    let steps = step_count(net.log(alloc));
    let chain = chain_count(net.chain_of(alloc, Atom::Out(0, 1)));
    let premises = premise_count(net.clash(alloc));
    let outcome = net.outcome();
    let colour = net.value(0);
    let second_out = net.out(0, 1);
    drop(net);
    Ok(Told {
        outcome,
        colour,
        second_out,
        steps: steps?,
        chain: chain?,
        premises: premises?,
    })
}

// The lamp's sources with this colour of the user's.
fn sources_of(alloc: Global, plan: &Plan, colour: u32) -> Result<Sources, AllocError>
    requires { plan.now ≡ lamp }
    ensures { IfOk result (λ sources. sources ≡ with_user (no_sources 1) 0 (Some (Text colour))) }
{
    let mut sources = Sources::new(alloc, plan)?;
    sources.set_user(0, Some(Value::Text(colour)));
    Ok(sources)
}

fn told_by<L: Ledger>(
    alloc: Global,
    plan: &Plan,
    former: u32,
    colour: u32,
    blank: Blank,
) -> Result<Told, AllocError>
    requires name { blank.name ≡ L.name }
    requires parts { blank.parts ≡ L.parts }
    requires some { 0 < blank.parts }
    requires plan { plan.now ≡ lamp }
    requires former { sources_fit lamp (with_user (no_sources 1) 0 (Some (Text former))) ≡ true }
    requires listed { sources_fit lamp (with_user (no_sources 1) 0 (Some (Text colour))) ≡ true }
{
    let before = sources_of(alloc, plan, former)?;
    let sources = sources_of(alloc, plan, colour)?;
    let told = settled_with::<L>(alloc, plan, &before, &sources, blank);
    drop(sources);
    drop(before);
    told
}

fn told_of_lamp<L: Ledger>(
    alloc: Global,
    former: u32,
    colour: u32,
    blank: Blank,
) -> Result<Told, AllocError>
    requires name { blank.name ≡ L.name }
    requires parts { blank.parts ≡ L.parts }
    requires some { 0 < blank.parts }
    requires former { sources_fit lamp (with_user (no_sources 1) 0 (Some (Text former))) ≡ true }
    requires listed { sources_fit lamp (with_user (no_sources 1) 0 (Some (Text colour))) ≡ true }
{
    let plan = lamp(alloc)?;
    let told = told_by::<L>(alloc, &plan, former, colour, blank);
    drop(plan);
    told
}

#[test]
fn excludes_the_second_colour(rt: HostRuntime) -> Result<(), Fail> {
    let told = told_of_lamp::<Brand>(rt.alloc(), 1, 0, Blank::new(1))?;
    assert_eq!(rt; told.outcome, Outcome::Settled);
    assert_eq!(rt; told.colour, Some(Value::Text(0)));
    assert!(rt; told.second_out);
    assert_eq!(rt; told.steps, 2);
    assert_eq!(rt; told.chain, 1);
    assert_eq!(rt; told.premises, 0);
    Ok(())
}

#[test]
fn blames_the_constraint(rt: HostRuntime) -> Result<(), Fail> {
    let told = told_of_lamp::<Brand>(rt.alloc(), 0, 1, Blank::new(1))?;
    assert_eq!(rt; told.outcome, Outcome::Broken(Culprit::Rule(0)));
    assert_eq!(rt; told.steps, 1);
    assert_eq!(rt; told.premises, 2);
    Ok(())
}
