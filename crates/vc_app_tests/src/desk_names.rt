//! Words of a lamp of two colours.

ghost use Rattle.std.specs.Prelude.{◌≡◌};
ghost use Rattle.vc_plan_lamp.specs.Lamp.{lamp};

use std::test::Fail;
use vc_desk_names::laws::{listed_may_be_given, own_names_are_meant};
use vc_desk_names::{find_named, find_named_near, value_named};
use vc_plan::{Named, Plan};
use vc_plan_lamp::lamp;
use vc_value::Value;

fn are_meant(plan: &Plan) -> bool
    requires { plan.now ≡ lamp }
{
    let colour = Named::Var(0);
    find_named(plan, 0, b"Col") == Some(colour)
        && find_named(plan, 0, b"SIZE").is_none()
        && find_named(plan, 1, b"COL").is_none()
        && value_named(plan, colour, b"B") == Some(Value::Text(1))
        && value_named(plan, colour, b"b").is_none()
}

fn found_near(plan: &Plan, name: &[u8], place: &mut usize) -> Option<Named>
    requires { plan.now ≡ lamp }
{
    find_named_near(plan, 0, name, place)
}

// Wherever in its class the search begins, here behind the end.
fn are_found_near(plan: &Plan) -> bool
    requires { plan.now ≡ lamp }
{
    let colour = Named::Var(0);
    let mut place = 7;
    found_near(plan, b"Col", &mut place) == Some(colour)
        && found_near(plan, b"COL", &mut place) == Some(colour)
        && found_near(plan, b"SIZE", &mut place).is_none()
}

#[test]
fn words_are_meant(rt: HostRuntime) -> Result<(), Fail> {
    listed_may_be_given();
    own_names_are_meant();
    let plan = lamp(rt.alloc())?;
    let meant = are_meant(&plan) && are_found_near(&plan);
    drop(plan);
    assert!(rt; meant);
    Ok(())
}
