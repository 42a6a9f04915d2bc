//! Who may have anything to say where nothing stands but that the root is here.

ghost use Rattle.std.specs.Prelude.{◌≡◌, ◌^◌, ◌<◌, length, IfOk};
ghost use Rattle.vc_net_waking.specs.Beginning.{all_sources, begun, untriggered, untriggered_below};
ghost use Rattle.vc_net_waking.specs.Waking.{with_givers};

use crate::waking::{push_rules, push_sources};
use std::alloc::{AllocError, Global};
use vc_net_agenda::{Agenda, Giver};
use vc_net_readers::triggers::trigger_by;
use vc_plan::Plan;
use vc_value::Listed;

/// The rules that wait for no value, in their order.
#[tactic(auto, using(crate::proofs::GiverLaws::untriggered_next))]
pub fn untriggered(alloc: Global, plan: &Plan) -> Result<Listed<u32>, AllocError>
    requires { length plan.now.rules < 2 ^ 32 }
    ensures { IfOk result (λ rules. rules ≡ untriggered plan.now) }
{
    let mut rules = Listed::new(alloc);
    for rule in 0..plan.rules.len() {
        if trigger_by(plan, rule as u32).is_none() {
            rules.push(rule as u32)?;
        }
    }
    Ok(rules)
}

/// Lets just those wait that may have anything to say at the start: the rules that wait for no value, and all sources.
#[tactic(auto, using(crate::proofs::GiverLaws::both_parts))]
pub fn begin(plan: &Plan, rules: &[u32], agenda: &mut Agenda)
    requires vars { length plan.now.vars < 2 ^ 32 }
    requires rules { rules.now ≡ untriggered plan.now }
    ensures { agenda.new ≡ begun plan.now agenda.old }
{
    agenda.clear();
    push_rules(rules, agenda);
    push_all_sources(plan, agenda);
}

#[tactic(auto, using(crate::proofs::GiverLaws::sources_next))]
fn push_all_sources(plan: &Plan, agenda: &mut Agenda)
    requires { length plan.now.vars < 2 ^ 32 }
    ensures { agenda.new ≡ with_givers agenda.old (all_sources (length plan.now.vars)) }
{
    for var in 0..plan.vars.len() {
        push_sources(var as u32, agenda);
    }
}
