//! Who is asked when sources have changed.

ghost use Rattle.std.specs.Prelude.{◌≡◌, ◌||◌, ◌^◌, ◌<◌, [], if◌then◌else◌, length};
ghost use Rattle.vc_rule_grains.specs.Finding.{GrainsFit};
ghost use Rattle.vc_plan_reasons.specs.Checking.{concluded};
ghost use Rattle.vc_plan_reasons.specs.Keeping.{entry_differs, user_differs};
ghost use Rattle.vc_net_places.specs.Places.{index_of};
ghost use Rattle.vc_net_readers.specs.Readers.{readers_of};
ghost use Rattle.vc_net_standing.specs.Standing.{atoms_of};
ghost use Rattle.vc_net_waking.specs.Waking.{sources_of, with_givers};
ghost use Rattle.vc_net_going.specs.Renewing.{changed_among, changed_sources, dropped_wake};

use vc_net_agenda::Agenda;
use vc_net_log::Log;
use vc_net_log::keeping::{entry_differs, user_differs};
use vc_net_readers::Readers;
use vc_net_standing::Fact;
use vc_net_waking::wake;
use vc_net_waking::waking::push_sources;
use vc_plan::Plan;
use vc_plan_sources::Sources;

/// Lets all wait whom those of the facts wake, with these sources, that are no more concluded.
pub fn wake_dropped(
    plan: &Plan,
    readers: &Readers,
    log: &Log,
    sources: &Sources,
    facts: &[Fact],
    agenda: &mut Agenda,
)
    requires grains { GrainsFit plan.now }
    requires vars { length plan.now.vars < 2 ^ 32 }
    requires index { log.now.index ≡ index_of plan.now }
    requires readers { readers.now ≡ readers_of plan.now }
    ensures { agenda.new ≡ with_givers agenda.old
        (dropped_wake plan.now sources.now (concluded log.now.steps) (atoms_of facts.now)) }
{
    let mut rest = facts;
    while let [fact, more @ ..] = rest {
        if !log.has(fact.atom) {
            wake(
                plan,
                readers,
                log.standing().places(),
                log,
                sources,
                fact.atom,
                agenda,
            );
        }
        rest = more;
    }
}

/// Lets the sources of the variables wait for which they differ.
#[tactic(auto, using(crate::proofs::RenewLaws::changed_next))]
pub fn wake_changed(plan: &Plan, old: &Sources, new: &Sources, agenda: &mut Agenda)
    requires { length plan.now.vars < 2 ^ 32 }
    ensures { agenda.new ≡ with_givers agenda.old (changed_sources old.now new.now (length plan.now.vars)) }
{
    for var in 0..plan.vars.len() {
        wake_if_changed(old, new, var as u32, agenda);
    }
}

/// Lets the sources of those of these variables wait for which they differ.
pub fn wake_among(old: &Sources, new: &Sources, vars: &[u32], agenda: &mut Agenda)
    ensures { agenda.new ≡ with_givers agenda.old (changed_among old.now new.now vars.now) }
{
    let mut rest = vars;
    while let [var, more @ ..] = rest {
        wake_if_changed(old, new, *var, agenda);
        rest = more;
    }
}

// Lets the sources of the variable wait, if they differ.
fn wake_if_changed(old: &Sources, new: &Sources, var: u32, agenda: &mut Agenda)
    ensures { agenda.new ≡ with_givers agenda.old
        (if user_differs old.now new.now var || entry_differs old.now new.now var then sources_of var else []) }
{
    if sources_differ(old, new, var) {
        push_sources(var, agenda);
    }
}

// Whether either of the variable's sources differs.
fn sources_differ(old: &Sources, new: &Sources, var: u32) -> bool
    ensures { result ≡ (user_differs old.now new.now var || entry_differs old.now new.now var) }
{
    user_differs(old, new, var) || entry_differs(old, new, var)
}
