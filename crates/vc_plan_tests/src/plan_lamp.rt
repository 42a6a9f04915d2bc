//! The lamp's plan is made.

use std::test::Fail;
use vc_plan_lamp::lamp;

#[test]
fn has_two_colours(rt: HostRuntime) -> Result<(), Fail> {
    let plan = lamp(rt.alloc())?;
    assert_eq!(rt; plan.texts.len(), 2);
    assert_eq!(rt; plan.rules.len(), 2);
    Ok(())
}
