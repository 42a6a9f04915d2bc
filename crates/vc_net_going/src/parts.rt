//! The parts of what a net works on, as they are at the start.

ghost use Rattle.std.specs.Prelude.{◌≡◌, IfOk};
ghost use Rattle.vc_plan.specs.Bounds.{greatest};
ghost use Rattle.vc_plan.specs.Domains.{atom_count};
ghost use Rattle.vc_plan.specs.Valid.{IsValid};
ghost use Rattle.vc_net_bounds.specs.Counting.{clash_cells};
ghost use Rattle.vc_net_log.specs.Logs.{nothing_logged};
ghost use Rattle.vc_net_places.specs.Cells.{begins_of, bounds_of};
ghost use Rattle.vc_net_places.specs.Places.{index_of};
ghost use Rattle.vc_net_going.specs.Beginning.{HasRoomFor, IsAskingOf};

use crate::breaker::Breaker;
use std::alloc::{AllocError, Global};
use vc_net_agenda::Agenda;
use vc_net_blame::collision_bound;
use vc_net_bounds::Bounds;
use vc_net_log::Log;
use vc_net_readers::Readers;
use vc_net_standing::Fact;
use vc_net_waking::untriggered;
use vc_plan::Plan;
use vc_rule_yield::Bounded;
use vc_value::Listed;

/// Who is to be asked for a plan, whom atoms wake, and the rules that wait for no value.
#[derive(Drop)]
pub struct Asking {
    pub agenda: Agenda,
    pub readers: Readers,
    pub untriggered: Listed<u32>,
}

/// Nobody is asked yet.
#[tactic(auto, using(crate::proofs::PlanFacts::vars_fit))]
pub fn asking_for(alloc: Global, plan: &Plan, log: &Log) -> Result<Asking, AllocError>
    requires valid { IsValid plan.now }
    requires index { log.now.index ≡ index_of plan.now }
    ensures { IfOk result (λ asking. IsAskingOf plan.now asking) }
{
    let agenda = Agenda::new(alloc, plan)?;
    let readers = Readers::new(alloc, plan, log.standing().places())?;
    let untriggered = untriggered(alloc, plan)?;
    Ok(Asking {
        agenda,
        readers,
        untriggered,
    })
}

/// The log without steps, with as many cells for each place as it needs.
#[tactic(auto, using(crate::proofs::PlanFacts::vars_fit))]
pub fn log_for(alloc: Global, plan: &Plan, bounds: &Bounds) -> Result<Log, AllocError>
    requires valid { IsValid plan.now }
    requires places { bounds.now.places ≡ bounds_of plan.now }
    ensures { IfOk result (λ log. log ≡ nothing_logged (index_of plan.now) (begins_of plan.now)) }
{
    Log::new(alloc, plan, bounds.places.as_slice())
}

/// Nothing broken, with room for whatever may break the net of the plan.
#[tactic(auto, using(crate::proofs::PlanFacts::vars_fit))]
pub fn breaker_for(alloc: Global, plan: &Plan, bounds: &Bounds) -> Result<Breaker, AllocError>
    requires valid { IsValid plan.now }
    requires places { bounds.now.places ≡ bounds_of plan.now }
    requires clash { bounds.now.clash ≡ clash_cells plan.now }
    ensures { IfOk result (λ breaker. HasRoomFor plan.now breaker) }
{
    let premises = collision_bound(plan).max(bounds.clash as usize);
    let reasons = greatest_of(bounds.places.as_slice()) as usize;
    Breaker::new(alloc, reasons, premises)
}

/// Room for all facts that may be taken from a log of the plan.
#[tactic(auto, using(crate::proofs::PlanFacts::places_counted))]
pub fn room_for_facts(alloc: Global, plan: &Plan, log: &Log) -> Result<Bounded<Fact>, AllocError>
    requires { log.now.index ≡ index_of plan.now }
    ensures { IfOk result (λ taken. taken.room ≡ atom_count plan.now) }
{
    Bounded::new(alloc, log.standing().places().count())
}

// The greatest of the numbers; 0 where there is none.
fn greatest_of(numbers: &[u32]) -> u32
    ensures { result ≡ greatest (λ n. n) numbers.now }
{
    let mut greatest = 0;
    let mut rest = numbers;
    while let [number, more @ ..] = rest {
        greatest = greatest.max(*number);
        rest = more;
    }
    greatest
}
