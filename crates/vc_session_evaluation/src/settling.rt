//! A stage: its net settles with the user's values and what is written so far.

ghost use Rattle.std.specs.Prelude.{◌≡◌, true};
ghost use Rattle.vc_plan.specs.Valid.{IsValid};
ghost use Rattle.vc_plan_reasons.specs.Fitting.{sources_fit};
ghost use Rattle.vc_net.specs.Differing.{AreAllWritten, SameBeside};
ghost use Rattle.vc_net.specs.Ending.{IsSettled};
ghost use Rattle.vc_net.specs.Nets.{AreFor, IsNetOf};
ghost use Rattle.vc_session_evaluation.specs.Costing.{HasSynced};
ghost use Rattle.vc_session_evaluation.specs.Evaluating.{HasSettled};

use std::sync::ledger::Ledger;
use vc_net::Net;
use vc_plan::{Outcome, Plan};
use vc_plan_sources::Sources;
use vc_value_steps::Steps;

/// Settles the net with the sources, within its work, and says whether nothing contradicts. Where the net follows, the
/// user's values differ from the net's for the variables touched at most. It takes no memory.
pub fn settle<L: Ledger>(
    plan: &Plan,
    sources: &Sources,
    follows: bool,
    touched: &[u32],
    written: &[u32],
    net: &mut Net,
    steps: &mut Steps<L>,
) -> bool
    requires valid { IsValid plan.now }
    requires of { IsNetOf plan.now net.old }
    requires lengths { AreFor plan.now sources.now }
    requires fits { sources_fit plan.now sources.now ≡ true }
    requires touched { follows ≡ true → SameBeside touched.now net.old.sources.user sources.now.user }
    requires written { AreAllWritten plan.now written.now }
    ensures of { IsNetOf plan.now net.new }
    ensures synced { HasSynced plan.now sources.now net.old net.new steps.old steps.new }
    ensures settled { HasSettled plan.now sources.now net.new result }
{
    sync(plan, sources, follows, touched, written, net, steps);
    match net.outcome() {
        Outcome::Settled => true,
        Outcome::Broken(_) => false,
    }
}

// Lets the net go on with the sources: where it follows, only the variables touched and written are compared.
fn sync<L: Ledger>(
    plan: &Plan,
    sources: &Sources,
    follows: bool,
    touched: &[u32],
    written: &[u32],
    net: &mut Net,
    steps: &mut Steps<L>,
)
    requires valid { IsValid plan.now }
    requires of { IsNetOf plan.now net.old }
    requires lengths { AreFor plan.now sources.now }
    requires fits { sources_fit plan.now sources.now ≡ true }
    requires touched { follows ≡ true → SameBeside touched.now net.old.sources.user sources.now.user }
    requires written { AreAllWritten plan.now written.now }
    ensures of { IsNetOf plan.now net.new }
    ensures synced { HasSynced plan.now sources.now net.old net.new steps.old steps.new }
    ensures settled { IsSettled plan.now sources.now net.new.work }
{
    if follows {
        net.sync_at(plan, sources, touched, written, steps);
    } else {
        net.sync(plan, sources, steps);
    }
}
