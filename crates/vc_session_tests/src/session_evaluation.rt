//! Evaluations of a lamp of two colours, of which a constraint allows the first alone.

ghost use Rattle.std.specs.Prelude.{◌≡◌, ◌<◌, IfOk};
ghost use Rattle.vc_plan_lamp.specs.Lamp.{lamp};
ghost use Rattle.vc_proc_look_ups.specs.LookUps.{AreLookUpsOf};
ghost use Rattle.vc_session_evaluation.specs.Evaluating.{AreStagesOf};

use std::alloc::{AllocError, Global};
use std::marker::Brand;
use std::sync::ledger::{Blank, Ledger};
use std::test::Fail;
use vc_plan::{Plan, View};
use vc_plan_lamp::lamp;
use vc_plan_users::UserValues;
use vc_session_evaluation::laws::{nets_cost_their_works, nets_start_behind};
use vc_session_evaluation::{SharedLookUps, Stages};
use vc_value::Value;
use vc_value_steps::Steps;

// How many nets say that the first colour follows.
fn agreed(stages: &Stages) -> usize {
    let mut count: usize = 0;
    for net in stages.nets.as_slice() {
        if net.value(0) == Some(Value::Text(0)) {
            count = count.saturating_add(1);
        }
    }
    count
}

// Whether the colour follows in the one net that serves a plan without procedures, and nobody is late.
fn are_settled(stages: &Stages) -> bool {
    agreed(stages) == 1 && stages.broken == None && stages.late.as_slice().get(0) == Some(&false)
}

// Stages of the lamp with these orders.
fn stages_with(alloc: Global, plan: &Plan, look_ups: SharedLookUps) -> Result<Stages, AllocError>
    requires plan { plan.now ≡ lamp }
    requires look_ups { AreLookUpsOf plan.now look_ups }
    ensures { IfOk result (λ stages. AreStagesOf plan.now stages) }
{
    let stages = Stages::new(alloc, plan, look_ups)?;
    Ok(stages)
}

fn evaluated<L: Ledger>(alloc: Global, plan: &Plan, blank: Blank) -> Result<bool, AllocError>
    requires name { blank.name ≡ L.name }
    requires parts { blank.parts ≡ L.parts }
    requires some { 0 < blank.parts }
    requires plan { plan.now ≡ lamp }
{
    let users = UserValues::new(alloc, plan)?;
    let look_ups = SharedLookUps::new(alloc, plan)?;
    let mut stages = stages_with(alloc, plan, look_ups)?;
    let mut steps: Steps<L> = Steps::new(blank);
    stages.evaluate(plan, &users, &mut steps);
    stages.evaluate_at(plan, &users, &[], &mut steps);
    let settled = are_settled(&stages);
    drop(stages);
    drop(users);
    Ok(settled)
}

#[test]
fn settles_each_stage(rt: HostRuntime) -> Result<(), Fail> {
    let plan = lamp(rt.alloc())?;
    let settled = evaluated::<Brand>(rt.alloc(), &plan, Blank::new(1));
    drop(plan);
    assert!(rt; settled?);
    Ok(())
}

#[test]
fn laws_ask_for_nothing(_rt: HostRuntime) -> Result<(), Fail> {
    nets_cost_their_works();
    nets_start_behind();
    Ok(())
}
