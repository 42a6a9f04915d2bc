//! Each law called once: a law that asked for anything couldn't be.

use std::test::Fail;
use vc_plan_blame::laws::{
    broken_is_blamed, citing_clashes_refute, collisions_are_blamed, exhausted_is_touched,
    statuses_are_there, unclear_is_blamed,
};

#[test]
fn laws_ask_for_nothing(_rt: HostRuntime) -> Result<(), Fail> {
    citing_clashes_refute();
    collisions_are_blamed();
    exhausted_is_touched();
    unclear_is_blamed();
    broken_is_blamed();
    statuses_are_there();
    Ok(())
}
