//! The orders of a plan's tables, which a desk makes once for all of its sessions.

ghost use Rattle.std.specs.Prelude.{◌≡◌, IfOk, IfSome, OnErr, Some};
ghost use Rattle.vc_plan.specs.Valid.{IsValid};
ghost use Rattle.vc_session_evaluation.specs.Sharing.{AreAllLookUpsOf};
ghost use Rattle.vc_desk.specs.Desks.{KeepsLookUps};

use std::alloc::{AllocError, Global};
use vc_plan::Plan;
use vc_session_evaluation::SharedLookUps;

// New orders, which are kept.
fn make(
    alloc: Global,
    plan: &Plan,
    kept: &mut Option<SharedLookUps>,
) -> Result<SharedLookUps, AllocError>
    requires { IsValid plan.now }
    ensures of { IfOk result (AreAllLookUpsOf plan.now) }
    ensures kept { IfOk result (λ look_ups. kept.new ≡ Some look_ups) }
    ensures as_before { OnErr result (kept.new ≡ kept.old) }
{
    let look_ups = SharedLookUps::new(alloc, plan)?;
    let shared = look_ups.share()?;
    *kept = Some(look_ups);
    Ok(shared)
}

/// The orders that are kept, or new ones, which are kept then. Without memory there are none.
pub fn shared(
    alloc: Global,
    plan: &Plan,
    kept: &mut Option<SharedLookUps>,
) -> Result<SharedLookUps, AllocError>
    requires valid { IsValid plan.now }
    requires of { IfSome kept.old (AreAllLookUpsOf plan.now) }
    ensures of { IfSome kept.new (AreAllLookUpsOf plan.now) }
    ensures right { IfOk result (AreAllLookUpsOf plan.now) }
    ensures kept { IfOk result (λ look_ups. kept.new ≡ Some look_ups) }
    ensures keeps { KeepsLookUps kept.old kept.new }
{
    match &*kept {
        Some(look_ups) => look_ups.share(),
        None => make(alloc, plan, kept),
    }
}
