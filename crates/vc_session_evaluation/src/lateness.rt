//! Which instances came too late for their own procedures.

ghost use Rattle.std.specs.Prelude.{◌≡◌, ◌^◌, ◌<◌, ◌&&◌, false, not, length, map, replicate};
ghost use Rattle.vc_plan.specs.Domains.{numbers_below};
ghost use Rattle.vc_plan.specs.Writes.{depth_of};
ghost use Rattle.vc_session_stages.specs.Stages.{is_late_seen, was_seen};
ghost use Rattle.vc_session_evaluation.specs.Evaluating.{said_by};

use vc_net::Net;
use vc_plan::{Plan, View};
use vc_value::Listed;

/// Flags each slot that wasn't here in the stage that its own procedures read.
pub fn flag_missing(plan: &Plan, nets: &[Net], late: &mut Listed<bool>)
    requires slots { length plan.now.slots < 2 ^ 32 }
    requires late { length late.old ≡ length plan.now.slots }
    ensures { late.new ≡ map (λ i. not (was_seen plan.now (map said_by nets.now) i))
        (numbers_below (length plan.now.slots)) }
{
    for slot in 0..plan.slots.len() {
        late.set(slot, !was_here(plan, nets, slot as u32));
    }
}

/// Flags each slot that is here in the last stage and wasn't in that one.
pub fn flag_late(plan: &Plan, nets: &[Net], last: &Net, late: &mut Listed<bool>)
    requires slots { length plan.now.slots < 2 ^ 32 }
    requires late { length late.old ≡ length plan.now.slots }
    ensures { late.new ≡ map (λ i. (said_by last.now).here i && not (was_seen plan.now (map said_by nets.now) i))
        (numbers_below (length plan.now.slots)) }
{
    for slot in 0..plan.slots.len() {
        late.set(slot, is_late(plan, nets, last, slot as u32));
    }
}

/// Flags no slot.
pub fn flag_none(late: &mut Listed<bool>)
    ensures { late.new ≡ replicate (length late.old) false }
{
    for slot in 0..late.len() {
        late.set(slot, false);
    }
}

fn is_late(plan: &Plan, nets: &[Net], last: &Net, slot: u32) -> bool
    ensures { result ≡ ((said_by last.now).here slot && not (was_seen plan.now (map said_by nets.now) slot)) }
{
    last.here(slot) && !was_here(plan, nets, slot)
}

fn was_here(plan: &Plan, nets: &[Net], slot: u32) -> bool
    ensures { result ≡ was_seen plan.now (map said_by nets.now) slot }
{
    match nets.get(depth_of(plan, slot)) {
        Some(net) => net.here(slot),
        None => false,
    }
}

fn depth_of(plan: &Plan, slot: u32) -> usize
    ensures { result ≡ depth_of plan.now slot }
{
    match plan.slots.as_slice().get(slot as usize) {
        Some(found) => found.depth as usize,
        None => 0,
    }
}
