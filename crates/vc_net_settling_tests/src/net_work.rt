//! Each law of how many rules are asked, called once: a law that asked for anything couldn't be.

use std::test::Fail;
use vc_net_waking::laws::{
    beginners_are_on, reach_holds_what_is_written, rules_are_within_work, woken_are_on,
};

#[test]
fn laws_ask_for_nothing(_rt: HostRuntime) -> Result<(), Fail> {
    reach_holds_what_is_written();
    woken_are_on();
    rules_are_within_work();
    beginners_are_on();
    Ok(())
}
