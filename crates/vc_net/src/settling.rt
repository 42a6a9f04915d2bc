//! Settling: one giver is asked after the other.

ghost use Rattle.std.specs.Prelude.{◌≡◌, ◌+◌, ◌∷◌, [], true, IfNone, None};
ghost use Rattle.vc_plan.specs.Valid.{IsValid};
ghost use Rattle.vc_plan_reasons.specs.Fitting.{sources_fit};
ghost use Rattle.vc_rule.specs.Rooms.{rooms_of};
ghost use Rattle.vc_net_agenda.specs.Agendas.{meant};
ghost use Rattle.vc_net.specs.Ending.{IsSettled};
ghost use Rattle.vc_net_going.specs.Going.{BeginsWith, Ends, IsGoing};
ghost use Rattle.vc_net.specs.Spending.{Pays};
ghost use Rattle.vc_net_sources.specs.Asking.{evaluations};

use std::sync::ledger::Ledger;
use vc_net_agenda::Giver;
use vc_net_going::{Turn, Work};
use vc_net_sources::{ask, culprit_of, tells_nothing};
use vc_plan::Plan;
use vc_plan_sources::Sources;
use vc_rule_yield::Yield;
use vc_value_steps::Steps;

/// Asks one giver after the other until nobody is left, or somebody contradicts. Steps come behind those that are
/// there, and each rule that is asked waited or is paid for by an atom that came. It takes no memory.
pub fn settle<L: Ledger>(
    plan: &Plan,
    sources: &Sources,
    work: &mut Work,
    out: &mut Yield,
    steps: &mut Steps<L>,
)
    requires valid { IsValid plan.now }
    requires fits { sources_fit plan.now sources.now ≡ true }
    requires rooms { out.old.rooms ≡ rooms_of plan.now }
    requires going { IsGoing plan.now sources.now work.old [] }
    requires calm { work.old.breaker.culprit ≡ None }
    ensures rooms { out.new.rooms ≡ out.old.rooms }
    ensures grown { BeginsWith work.old.log.steps work.new.log.steps }
    ensures paid { Pays plan.now work.old work.new steps.old steps.new }
    ensures rest { IfNone work.new.breaker.culprit (work.new.agenda.givers ≡ []) }
    ensures settled { IsSettled plan.now sources.now work.new }
{
    while let Some(giver) = work.agenda.pop() {
        match turn(plan, sources, giver, work, out, steps) {
            Turn::Done => {}
            Turn::Broken => {
                work.agenda.push(giver);
                return;
            }
        }
    }
}

// Asks the giver, unless it has nothing to tell, and concludes what it says.
fn turn<L: Ledger>(
    plan: &Plan,
    sources: &Sources,
    giver: Giver,
    work: &mut Work,
    out: &mut Yield,
    steps: &mut Steps<L>,
) -> Turn
    requires valid { IsValid plan.now }
    requires fits { sources_fit plan.now sources.now ≡ true }
    requires rooms { out.old.rooms ≡ rooms_of plan.now }
    requires going { IsGoing plan.now sources.now work.old (meant giver ∷ []) }
    ensures rooms { out.new.rooms ≡ out.old.rooms }
    ensures counted { steps.new ≡ steps.old + evaluations (meant giver) }
    ensures ends { Ends plan.now sources.now (meant giver) work.old work.new result }
{
    if tells_nothing(sources, giver) {
        return Turn::Done;
    }
    ask(plan, &work.log, sources, giver, out, steps);
    match out.clash() {
        Some(premises) => {
            work.breaker
                .keep_clash(culprit_of(sources, giver), premises);
            Turn::Broken
        }
        None => work.conclude_all(plan, sources, giver, out),
    }
}
