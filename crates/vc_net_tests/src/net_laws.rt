//! Each law called once: a law that asked for anything couldn't be.

use std::test::Fail;
use vc_net_laws::laws::{
    given_is_forced, sound_sets_end, sound_sets_grow, triggers_are_needed, turns_are_few,
    untouched_givers_stay, waking_is_enough, work_ends, work_goes_on,
};

#[test]
fn laws_ask_for_nothing(_rt: HostRuntime) -> Result<(), Fail> {
    given_is_forced();
    sound_sets_grow();
    sound_sets_end();
    triggers_are_needed();
    untouched_givers_stay();
    waking_is_enough();
    work_goes_on();
    work_ends();
    turns_are_few();
    Ok(())
}
