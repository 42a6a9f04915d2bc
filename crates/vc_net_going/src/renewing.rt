//! The work of a net goes on with other sources.

ghost use Rattle.std.specs.Prelude.{◌≡◌, [], None};
ghost use Rattle.vc_plan.specs.Valid.{IsValid};
ghost use Rattle.vc_plan_reasons.specs.Keeping.{kept_of};
ghost use Rattle.vc_net_going.specs.Going.{IsGoing};
ghost use Rattle.vc_net_going.specs.Behind.{StaysBehind};
ghost use Rattle.vc_net_going.specs.Differing.{AreFor, SameBeside};
ghost use Rattle.vc_net_going.specs.Keeping.{HasKept};

use crate::Work;
use crate::asking::{wake_among, wake_changed, wake_dropped};
use vc_plan::Plan;
use vc_plan_sources::Sources;

/// Goes on with other sources: what is kept of the log stays, and those are asked besides who may have anything to say
/// then. Whoever is to be asked touches what was behind, or what the changed variables reach.
#[tactic(auto, using(crate::proofs::PlanFacts::vars_fit))]
pub fn renew(plan: &Plan, old: &Sources, new: &Sources, work: &mut Work)
    requires valid { IsValid plan.now }
    requires going { IsGoing plan.now old.now work.old [] }
    ensures going { IsGoing plan.now new.now work.new [] }
    ensures behind { StaysBehind plan.now old.now new.now work.old work.new }
    ensures kept { work.new.log.steps ≡ kept_of old.now new.now work.old.log.steps }
    ensures calm { work.new.breaker.culprit ≡ None }
{
    keep(plan, old, new, work);
    wake_changed(plan, old, new, &mut work.agenda);
}

/// The same with other sources of which the user's values differ for the first variables at most, and what is written
/// for the second. No other variable is gone through.
pub fn renew_at(
    plan: &Plan,
    old: &Sources,
    new: &Sources,
    touched: &[u32],
    written: &[u32],
    work: &mut Work,
)
    requires valid { IsValid plan.now }
    requires going { IsGoing plan.now old.now work.old [] }
    requires lengths { AreFor plan.now old.now }
    requires others { AreFor plan.now new.now }
    requires touched { SameBeside touched.now old.now.user new.now.user }
    requires written { SameBeside written.now old.now.written new.now.written }
    ensures going { IsGoing plan.now new.now work.new [] }
    ensures behind { StaysBehind plan.now old.now new.now work.old work.new }
    ensures kept { work.new.log.steps ≡ kept_of old.now new.now work.old.log.steps }
    ensures calm { work.new.breaker.culprit ≡ None }
{
    keep_at(plan, old, new, touched, written, work);
    wake_among(old, new, touched, &mut work.agenda);
    wake_among(old, new, written, &mut work.agenda);
}

// Keeps what stays of the log with other sources, and lets those wait whom what is dropped wakes.
#[tactic(auto, using(crate::proofs::PlanFacts::vars_fit))]
fn keep(plan: &Plan, old: &Sources, new: &Sources, work: &mut Work)
    requires valid { IsValid plan.now }
    requires going { IsGoing plan.now old.now work.old [] }
    ensures { HasKept plan.now old.now new.now work.old work.new }
{
    work.breaker.clear();
    work.log.keep(old, new, &mut work.taken);
    wake_dropped(
        plan,
        &work.readers,
        &work.log,
        new,
        work.taken.as_slice(),
        &mut work.agenda,
    );
}

// The same, where the user's values differ for the first variables at most, and what is written for the second.
#[tactic(auto, using(crate::proofs::PlanFacts::vars_fit))]
fn keep_at(
    plan: &Plan,
    old: &Sources,
    new: &Sources,
    touched: &[u32],
    written: &[u32],
    work: &mut Work,
)
    requires valid { IsValid plan.now }
    requires going { IsGoing plan.now old.now work.old [] }
    requires touched { SameBeside touched.now old.now.user new.now.user }
    requires written { SameBeside written.now old.now.written new.now.written }
    ensures { HasKept plan.now old.now new.now work.old work.new }
{
    work.breaker.clear();
    work.log
        .keep_at(old, new, touched, written, &mut work.taken);
    wake_dropped(
        plan,
        &work.readers,
        &work.log,
        new,
        work.taken.as_slice(),
        &mut work.agenda,
    );
}
