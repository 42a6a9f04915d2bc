//! A net: it settles a plan with given sources.

ghost use Rattle.std.specs.Prelude.{◌≡◌, IfOk};
ghost use Rattle.vc_plan.specs.Valid.{IsValid};
ghost use Rattle.vc_net_bounds.specs.Counting.{clash_cells};
ghost use Rattle.vc_net_laws.specs.Wakings.{things_of};
ghost use Rattle.vc_net_places.specs.Cells.{bounds_of};
ghost use Rattle.vc_net.specs.Costing.{IsBehind};
ghost use Rattle.vc_net.specs.Nets.{IsNetOf};

use crate::clashes::clash;
use crate::copying::copy_at;
use crate::settling::settle;
use std::alloc::{AllocError, Global};
use std::marker::Model;
use std::sync::ledger::Ledger;
use vc_net_bounds::{Bounds, Counted, bounds_of};
use vc_net_chains::chain_of;
use vc_net_going::{Work, renew, renew_at};
use vc_plan::{Atom, Clash, Outcome, Plan, Step, View};
use vc_plan_sources::Sources;
use vc_rule::new_yield;
use vc_rule_yield::Yield;
use vc_value::{Listed, Value};
use vc_value_steps::Steps;

/// What a plan's rules come to with given sources: each conclusion with what it follows from, or what contradicts. All
/// memory is taken at `new`.
pub struct Net {
    sources: Sources,
    work: Work,
    out: Yield,
}

// By hand, as a derived one is proved again, with all of its parts, in each crate that drops a net.
impl Drop for Net {
    fn drop(self) {
        let Net { sources, work, out } = self;
        drop(sources);
        drop(work);
        drop(out);
    }
}

impl Model for Net {
    ghost use Rattle.vc_net.specs.Nets.{Netted};

    ghost Value = { Netted };

    ghost view = { λ n. record { sources = n.sources; work = n.work; rooms = n.out.rooms } };
}

impl Net {
    ghost use Rattle.std.specs.Prelude.{◌≡◌, ◌^◌, ◌<◌, ◌≤◌, true, length, option_map, IfOk};
    ghost use Rattle.vc_plan.specs.Bounds.{cell_bound};
    ghost use Rattle.vc_plan.specs.Valid.{IsValid};
    ghost use Rattle.vc_plan_reasons.specs.Fitting.{sources_fit};
    ghost use Rattle.vc_plan_reasons.specs.Keeping.{kept_of};
    ghost use Rattle.vc_net_going.specs.Going.{BeginsWith};
    ghost use Rattle.vc_plan_reasons.specs.Trimming.{trimmed_clash};
    ghost use Rattle.vc_net_chains.specs.Telling.{chain_in};
    ghost use Rattle.vc_net_laws.specs.Wakings.{things_of};
    ghost use Rattle.vc_net_log.specs.Logs.{premise_count};
    ghost use Rattle.vc_net.specs.Costing.{CostsItsWork, IsBehind};
    ghost use Rattle.vc_net.specs.Differing.{AreAllWritten, SameBeside};
    ghost use Rattle.vc_net.specs.Ending.{IsSettled, clash_of};
    ghost use Rattle.vc_net.specs.Nets.{AreFor, IsNetOf, outcome_by};

    /// The net of the plan, without sources; only the root is here, and all things are behind. Its outcome is told from
    /// the first `sync` on.
    pub fn new(alloc: Global, plan: &Plan) -> Result<Net, AllocError>
        requires { IsValid plan.now }
        ensures of { IfOk result (λ net. IsNetOf plan.now net) }
        ensures behind { IfOk result (λ net. IsBehind plan.now (things_of plan.now) net.work) }
    {
        match bounds_of(alloc, plan)? {
            Counted::Within(bounds) => {
                let net = with_bounds(alloc, plan, &bounds);
                drop(bounds);
                net
            }
            Counted::TooMany => unreachable!(),
        }
    }

    /// How settling ended with the sources of the last `sync`.
    pub fn outcome(&self) -> Outcome
        ensures { result ≡ outcome_by self.now.work.breaker.culprit }
    {
        match self.work.breaker.culprit {
            Some(culprit) => Outcome::Broken(culprit),
            None => Outcome::Settled,
        }
    }

    /// The premises of all its steps are together within the plan's bound of cells: a law of nets, by a call that does
    /// nothing.
    pub fn premises_fit(&self, plan: &Plan)
        requires { IsNetOf plan.now self.now }
        ensures { premise_count self.now.work.log.steps ≤ cell_bound plan.now }
    {
        self.work.log.premises_fit();
    }

    /// Its conclusions in the order in which they came, each with the numbers of the steps that it follows from.
    pub fn log(&self, alloc: Global) -> Result<Listed<Step>, AllocError>
        ensures { IfOk result (λ steps. steps ≡ self.now.work.log.steps) }
    {
        self.work.log.steps(alloc)
    }

    /// The chain of reasons for an atom, if it is a conclusion: the steps that lead to it, and that which concludes it.
    /// That it may be asked `logs_are_short` shows, and that the chain explains the atom `nets_explain`.
    pub fn chain_of(&self, alloc: Global, atom: Atom) -> Result<Option<Listed<Step>>, AllocError>
        requires { length self.now.work.log.steps < 2 ^ 31 }
        ensures { IfOk result (λ chain. chain ≡ chain_in self.now.work.log.steps atom) }
    {
        chain_of(alloc, &self.work.log, atom)
    }

    /// What contradicts, if anything does: the steps that lead to it, whom to blame, and which contradict. That it
    /// may be asked `logs_are_short` shows, and that it explains `nets_explain`.
    pub fn clash(&self, alloc: Global) -> Result<Option<Clash>, AllocError>
        requires { length self.now.work.log.steps < 2 ^ 31 }
        ensures { IfOk result (λ clash. clash ≡ option_map trimmed_clash (clash_of self.now.work)) }
    {
        clash(alloc, &self.work.log, &self.work.breaker)
    }

    /// Settles the plan with these sources. It takes no memory, and the log begins with what is kept of it: the steps
    /// whose sources stayed as they were and that need none that is dropped. Where it is settled just the conclusions
    /// of the log stand beside that the root is here, and nothing is behind; where it is broken a clash of the log
    /// refutes the sources, and what was to be done stays behind. Rules are evaluated no more often than the work on
    /// that says: on the things that were behind and the variables whose sources differ.
    pub fn sync<L: Ledger>(&mut self, plan: &Plan, sources: &Sources, steps: &mut Steps<L>)
        requires valid { IsValid plan.now }
        requires of { IsNetOf plan.now self.old }
        requires lengths { AreFor plan.now sources.now }
        requires fits { sources_fit plan.now sources.now ≡ true }
        ensures of { IsNetOf plan.now self.new }
        ensures sources { self.new.sources ≡ sources.now }
        ensures kept { BeginsWith (kept_of self.old.sources sources.now self.old.work.log.steps)
            self.new.work.log.steps }
        ensures cost { CostsItsWork plan.now self.old self.new steps.old steps.new }
        ensures settled { IsSettled plan.now sources.now self.new.work }
    {
        renew(plan, &self.sources, sources, &mut self.work);
        self.sources.copy_from(sources);
        settle(plan, &self.sources, &mut self.work, &mut self.out, steps);
    }

    /// The same with sources of which the user's values differ from the net's for the first variables at most; the
    /// second are all that statements write. No other variable is gone through.
    pub fn sync_at<L: Ledger>(
        &mut self,
        plan: &Plan,
        sources: &Sources,
        touched: &[u32],
        written: &[u32],
        steps: &mut Steps<L>,
    )
        requires valid { IsValid plan.now }
        requires of { IsNetOf plan.now self.old }
        requires lengths { AreFor plan.now sources.now }
        requires fits { sources_fit plan.now sources.now ≡ true }
        requires touched { SameBeside touched.now self.old.sources.user sources.now.user }
        requires written { AreAllWritten plan.now written.now }
        ensures of { IsNetOf plan.now self.new }
        ensures sources { self.new.sources ≡ sources.now }
        ensures kept { BeginsWith (kept_of self.old.sources sources.now self.old.work.log.steps)
            self.new.work.log.steps }
        ensures cost { CostsItsWork plan.now self.old self.new steps.old steps.new }
        ensures settled { IsSettled plan.now sources.now self.new.work }
    {
        renew_at(
            plan,
            &self.sources,
            sources,
            touched,
            written,
            &mut self.work,
        );
        copy_at(plan, sources, touched, written, &mut self.sources);
        settle(plan, &self.sources, &mut self.work, &mut self.out, steps);
    }
}

impl View for Net {
    ghost use Rattle.vc_net_log.specs.Logs.{seen_by};

    ghost seen = { λ n. seen_by n.work.log };

    fn here(&self, slot: u32) -> bool {
        self.work.log.here(slot)
    }

    fn out(&self, var: u32, grain: u32) -> bool {
        self.work.log.out(var, grain)
    }

    fn value(&self, var: u32) -> Option<Value> {
        self.work.log.value(var)
    }
}

// The net of a plan whose places need so many cells.
fn with_bounds(alloc: Global, plan: &Plan, bounds: &Bounds) -> Result<Net, AllocError>
    requires valid { IsValid plan.now }
    requires places { bounds.now.places ≡ bounds_of plan.now }
    requires clash { bounds.now.clash ≡ clash_cells plan.now }
    ensures of { IfOk result (λ net. IsNetOf plan.now net) }
    ensures behind { IfOk result (λ net. IsBehind plan.now (things_of plan.now) net.work) }
{
    let sources = Sources::new(alloc, plan)?;
    let out = new_yield(alloc, plan)?;
    let mut work = Work::new(alloc, plan, bounds)?;
    work.restart(plan);
    Ok(Net { sources, work, out })
}
