//! Each law called once: a law that asked for anything couldn't be.

use std::test::Fail;
use vc_plan_reasons::laws::{
    accepted_is_unrefused, clashes_are_blamed, conclusions_stand, evaluations_fit, giving_is_local,
    kept_is_accepted, reach_is_least, refuting_breaks, saying_is_local, things_are_small,
    trimmed_lists_are_accepted, whole_lists_settle,
};

#[test]
fn laws_ask_for_nothing(_rt: HostRuntime) -> Result<(), Fail> {
    accepted_is_unrefused();
    conclusions_stand();
    whole_lists_settle();
    refuting_breaks();
    clashes_are_blamed();
    kept_is_accepted();
    giving_is_local();
    saying_is_local();
    evaluations_fit();
    things_are_small();
    trimmed_lists_are_accepted();
    reach_is_least();
    Ok(())
}
