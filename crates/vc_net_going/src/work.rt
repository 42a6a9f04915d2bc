//! What a net works on: what it has concluded, who is to be asked, and what broke it.

use crate::breaker::Breaker;
use crate::parts::{Asking, asking_for, breaker_for, log_for, room_for_facts};
use crate::turn::Turn;
use std::alloc::{AllocError, Global};
use vc_net_agenda::{Agenda, Giver};
use vc_net_bounds::Bounds;
use vc_net_log::Log;
use vc_net_readers::Readers;
use vc_net_sources::origin_of;
use vc_net_standing::Fact;
use vc_net_waking::{begin, wake};
use vc_plan::{Atom, Plan};
use vc_plan_sources::Sources;
use vc_rule_yield::{Bounded, Yield};
use vc_value::Listed;

/// The log of a net, the rules and sources that are to be asked, whom atoms wake, the rules that wait for no value, and
/// what broke the net. All memory is taken at `new`.
pub struct Work {
    pub log: Log,
    pub agenda: Agenda,
    pub readers: Readers,
    pub untriggered: Listed<u32>,
    pub breaker: Breaker,
    /// The facts that were taken from the log when sources changed, while they are gone through.
    pub taken: Bounded<Fact>,
}

// By hand, as a derived one is proved again, with all of its parts, in each crate that drops a net's work.
impl Drop for Work {
    fn drop(self) {
        let Work {
            log,
            agenda,
            readers,
            untriggered,
            breaker,
            taken,
        } = self;
        drop(log);
        drop(agenda);
        drop(readers);
        drop(untriggered);
        drop(breaker);
        drop(taken);
    }
}

impl Work {
    ghost use Rattle.std.specs.Prelude.{◌≡◌, ◌≤◌, ◌∷◌, [], true, false, length, IfOk};
    ghost use Rattle.vc_base.specs.Sets.{Within};
    ghost use Rattle.vc_plan.specs.Seen.{same_atom, says};
    ghost use Rattle.vc_plan.specs.Valid.{IsValid};
    ghost use Rattle.vc_plan_reasons.specs.Checking.{concluded};
    ghost use Rattle.vc_plan_reasons.specs.Fitting.{sources_fit};
    ghost use Rattle.vc_net_agenda.specs.Agendas.{meant};
    ghost use Rattle.vc_net_bounds.specs.Counting.{clash_cells};
    ghost use Rattle.vc_net_log.specs.Logs.{room_at, seen_by, stood_of};
    ghost use Rattle.vc_net_places.specs.Cells.{bounds_of};
    ghost use Rattle.vc_net_places.specs.Places.{place_in};
    ghost use Rattle.vc_net_standing.specs.Standing.{is_free};
    ghost use Rattle.vc_net_going.specs.Going.{Concludes, Ends, IsGoing, MayCome, WasFound};
    ghost use Rattle.vc_net_going.specs.Working.{IsWorkOf, restarted, with_conclusion};

    /// Nothing is concluded, and nobody is to be asked.
    pub fn new(alloc: Global, plan: &Plan, bounds: &Bounds) -> Result<Work, AllocError>
        requires valid { IsValid plan.now }
        requires places { bounds.now.places ≡ bounds_of plan.now }
        requires clash { bounds.now.clash ≡ clash_cells plan.now }
        ensures { IfOk result (λ work. IsWorkOf plan.now work) }
    {
        let breaker = breaker_for(alloc, plan, bounds)?;
        let log = log_for(alloc, plan, bounds)?;
        let taken = room_for_facts(alloc, plan, &log)?;
        let Asking {
            agenda,
            readers,
            untriggered,
        } = asking_for(alloc, plan, &log)?;
        Ok(Work {
            log,
            agenda,
            readers,
            untriggered,
            breaker,
            taken,
        })
    }

    /// Lets all conclusions go, and those be asked who may have anything to say then.
    #[tactic(auto, using(crate::proofs::PlanFacts::vars_fit))]
    pub fn restart(&mut self, plan: &Plan)
        requires valid { IsValid plan.now }
        requires of { IsWorkOf plan.now self.old }
        ensures { self.new ≡ restarted plan.now self.old }
    {
        self.log.clear();
        self.breaker.clear();
        begin(plan, self.untriggered.as_slice(), &mut self.agenda);
    }

    /// Concludes all that was found by the giver, as far as it doesn't stand, until something contradicts.
    pub fn conclude_all(
        &mut self,
        plan: &Plan,
        sources: &Sources,
        giver: Giver,
        out: &Yield,
    ) -> Turn
        requires valid { IsValid plan.now }
        requires fits { sources_fit plan.now sources.now ≡ true }
        requires going { IsGoing plan.now sources.now self.old (meant giver ∷ []) }
        requires found { WasFound plan.now sources.now self.old (meant giver) out.now.found }
        ensures { Ends plan.now sources.now (meant giver) self.old self.new result }
    {
        let count = out.count();
        let mut place = 0;
        while place < count {
            match self.conclude(plan, sources, giver, out.atom(place), out.premises(place)) {
                Turn::Done => {}
                Turn::Broken => return Turn::Broken,
            }
            place += 1;
        }
        Turn::Done
    }

    // Concludes the atom, unless it stands.
    fn conclude(
        &mut self,
        plan: &Plan,
        sources: &Sources,
        giver: Giver,
        atom: Atom,
        premises: &[Atom],
    ) -> Turn
        requires valid { IsValid plan.now }
        requires fits { sources_fit plan.now sources.now ≡ true }
        requires going { IsGoing plan.now sources.now self.old (meant giver ∷ []) }
        requires may { MayCome plan.now sources.now self.old.log.steps (meant giver) atom premises.now }
        ensures { Concludes plan.now sources.now (meant giver) atom self.old self.new result }
    {
        if self.log.stands(atom) {
            Turn::Done
        } else {
            self.conclude_anew(plan, sources, giver, atom, premises)
        }
    }

    // Concludes the atom, which doesn't stand; where it can't, it is kept as what broke the net.
    #[tactic(auto, using(crate::proofs::PlanFacts::vars_fit))]
    fn conclude_anew(
        &mut self,
        plan: &Plan,
        sources: &Sources,
        giver: Giver,
        atom: Atom,
        premises: &[Atom],
    ) -> Turn
        requires valid { IsValid plan.now }
        requires fits { sources_fit plan.now sources.now ≡ true }
        requires going { IsGoing plan.now sources.now self.old (meant giver ∷ []) }
        requires may { MayCome plan.now sources.now self.old.log.steps (meant giver) atom premises.now }
        requires fresh { says (seen_by self.old.log) atom ≡ false }
        ensures { Concludes plan.now sources.now (meant giver) atom self.old self.new result }
    {
        let origin = origin_of(sources, giver);
        let fact = Fact { atom, origin };
        if self.log.may_come(plan, atom) {
            self.add(plan, sources, fact, premises);
            Turn::Done
        } else {
            self.breaker
                .keep_fact(plan, self.log.standing(), fact, premises);
            Turn::Broken
        }
    }

    // Puts a step at the end of the log, and lets all wait whom its conclusion wakes.
    #[tactic(auto, using(crate::proofs::PlanFacts::vars_fit))]
    fn add(&mut self, plan: &Plan, sources: &Sources, fact: Fact, premises: &[Atom])
        requires valid { IsValid plan.now }
        requires of { IsWorkOf plan.now self.old }
        requires free { is_free (stood_of self.old.log) fact.atom ≡ true }
        requires concluded { Within same_atom premises.now (concluded self.old.log.steps) }
        requires few { length premises.now ≤ room_at self.old.log.begins (place_in self.old.log.index fact.atom) }
        ensures { self.new ≡ with_conclusion plan.now sources.now self.old fact premises.now }
    {
        self.log.push(fact, premises);
        wake(
            plan,
            &self.readers,
            self.log.standing().places(),
            &self.log,
            sources,
            fact.atom,
            &mut self.agenda,
        );
    }
}
