//! What an evaluation works on, and how it goes from stage to stage.

ghost use Rattle.std.specs.Prelude.{◌≡◌, false, length, replicate, IfOk};
ghost use Rattle.std.specs.List.{AllByRecursion};
ghost use Rattle.vc_plan.specs.Valid.{IsValid};
ghost use Rattle.vc_net.specs.Nets.{IsNetOf};
ghost use Rattle.vc_session_evaluation.specs.Costing.{HasAllBehind};
ghost use Rattle.vc_session_evaluation.specs.Evaluating.{net_count, writes_nothing};

use crate::clearing::clear_at;
use crate::filling::{fill_entries_at, fill_users, fill_users_at};
use crate::lateness::{flag_late, flag_missing, flag_none};
use crate::settling::settle;
use crate::sharing::SharedLookUps;
use crate::writing::all_written;
use std::alloc::{AllocError, Global};
use std::sync::ledger::Ledger;
use vc_net::Net;
use vc_plan::{Plan, stages};
use vc_plan_sources::Sources;
use vc_plan_users::UserValues;
use vc_proc::{Overlay, run_stage};
use vc_value::Listed;
use vc_value_steps::Steps;

/// For each stage of a plan a net, or one for all where nothing is written between them; what procedures wrote; the
/// sources of the last stage that was settled; which variables statements write; the orders by which they look rows up,
/// which others of the plan may share; which instances are late; and the first stage that is broken, if one is. All
/// memory is taken at `new`.
pub struct Stages {
    pub nets: Vec<Net>,
    pub overlay: Overlay,
    pub sources: Sources,
    pub written: Listed<u32>,
    pub look_ups: SharedLookUps,
    pub late: Listed<bool>,
    pub broken: Option<u32>,
}

// By hand, as a derived one is proved again, with all of its parts, in each crate that drops the stages.
impl Drop for Stages {
    fn drop(self) {
        let Stages {
            nets,
            overlay,
            sources,
            written,
            look_ups,
            late,
            broken: _,
        } = self;
        drop(nets);
        drop(overlay);
        drop(sources);
        drop(written);
        drop(look_ups);
        drop(late);
    }
}

impl Stages {
    ghost use Rattle.std.specs.Prelude.{◌≡◌, ◌+◌, ◌<◌, true, false, None, length, IfOk};
    ghost use Rattle.vc_plan.specs.Evaluate.{holds, sources_of};
    ghost use Rattle.vc_plan.specs.Fitting.{users_fit};
    ghost use Rattle.vc_plan.specs.Valid.{IsValid};
    ghost use Rattle.vc_plan.specs.Writes.{last_stage};
    ghost use Rattle.vc_plan_reasons.specs.Fitting.{sources_fit};
    ghost use Rattle.vc_plan_users.specs.Choosing.{users_of};
    ghost use Rattle.vc_proc.specs.Overlays.{EntriesLie};
    ghost use Rattle.vc_proc_look_ups.specs.LookUps.{AreLookUpsOf};
    ghost use Rattle.std.specs.List.{AllByRecursion};
    ghost use Rattle.vc_session_evaluation.specs.Costing.{EvaluationCosts, HasAllBehind, SyncsAt, nets_asked};
    ghost use Rattle.vc_session_evaluation.specs.Evaluating.{AreStagesOf, IsEvaluated, writes_nothing};
    ghost use Rattle.vc_session_evaluation.specs.Following.{DifferAt, FollowsBeside, HaveTaken};
    ghost use Rattle.vc_session_evaluation.specs.Going.{FlagsLateOnes, HaveGone, LiesAt, MayGo, SettlesAt, WritesAfter};
    ghost use Rattle.vc_session_evaluation.specs.Going.{flags_before, with_late};

    /// Nets that haven't settled, each with all things behind, and nothing written; with these orders.
    pub fn new(alloc: Global, plan: &Plan, look_ups: SharedLookUps) -> Result<Stages, AllocError>
        requires valid { IsValid plan.now }
        requires look_ups { AreLookUpsOf plan.now look_ups }
        ensures of { IfOk result (λ stages. AreStagesOf plan.now stages) }
        ensures behind { IfOk result (λ stages. AllByRecursion (HasAllBehind plan.now) stages.nets.items) }
        ensures shared { IfOk result (λ stages. stages.look_ups ≡ look_ups) }
    {
        let nets = new_nets(alloc, plan)?;
        let overlay = Overlay::new(alloc, plan)?;
        let sources = Sources::new(alloc, plan)?;
        let written = all_written(alloc, plan)?;
        let late = no_flags(alloc, plan)?;
        Ok(Stages {
            nets,
            overlay,
            sources,
            written,
            look_ups,
            late,
            broken: None,
        })
    }

    /// Evaluates the user's values, stage by stage, up to the first that is broken: the nets up to that go on, once
    /// each and within their works, as `nets_cost_their_works` adds up, and later ones stay. It takes no memory.
    pub fn evaluate<L: Ledger>(&mut self, plan: &Plan, users: &UserValues, steps: &mut Steps<L>)
        requires valid { IsValid plan.now }
        requires of { AreStagesOf plan.now self.old }
        requires users { length users.now.values ≡ length plan.now.vars }
        requires fit { users_fit plan.now (users_of users.now) ≡ true }
        ensures of { AreStagesOf plan.now self.new }
        ensures evaluated { IsEvaluated plan.now (users_of users.now) self.new }
        ensures cost { EvaluationCosts plan.now (users_of users.now) self.old.nets.items self.new steps.old steps.new }
        ensures taken { HaveTaken users.now.values self.new }
    {
        self.overlay.clear();
        fill_users(plan, users, &mut self.sources);
        self.go_through(plan, users, 0, &[], steps);
    }

    /// The same where the user's values differ from those of the last evaluation for these variables at most. Nets that
    /// went on then compare no other variables but those that statements write.
    pub fn evaluate_at<L: Ledger>(
        &mut self,
        plan: &Plan,
        users: &UserValues,
        touched: &[u32],
        steps: &mut Steps<L>,
    )
        requires valid { IsValid plan.now }
        requires of { AreStagesOf plan.now self.old }
        requires users { length users.now.values ≡ length plan.now.vars }
        requires fit { users_fit plan.now (users_of users.now) ≡ true }
        requires touched { DifferAt touched.now self.old users.now.values }
        ensures of { AreStagesOf plan.now self.new }
        ensures evaluated { IsEvaluated plan.now (users_of users.now) self.new }
        ensures cost { EvaluationCosts plan.now (users_of users.now) self.old.nets.items self.new steps.old steps.new }
        ensures taken { HaveTaken users.now.values self.new }
    {
        let following = self.nets_asked();
        clear_at(self.written.as_slice(), &mut self.overlay);
        fill_users_at(plan, users, touched, &mut self.sources);
        self.go_through(plan, users, following, touched, steps);
    }

    // How many nets went on in the last evaluation.
    fn nets_asked(&self) -> usize
        ensures { result ≡ nets_asked self.now.nets.items self.now.broken }
    {
        match self.broken {
            Some(stage) => stage as usize + 1,
            None => self.nets.len(),
        }
    }

    // Goes through the stages with the user's values, which are in the sources, and nothing written. The first nets
    // have these values too, but for the variables touched.
    fn go_through<L: Ledger>(
        &mut self,
        plan: &Plan,
        users: &UserValues,
        following: usize,
        touched: &[u32],
        steps: &mut Steps<L>,
    )
        requires valid { IsValid plan.now }
        requires of { AreStagesOf plan.now self.old }
        requires may { MayGo plan.now users.now following touched.now self.old }
        ensures of { AreStagesOf plan.now self.new }
        ensures gone { HaveGone plan.now users.now self.old.nets.items self.new steps.old steps.new }
    {
        self.broken = None;
        if writes_nothing(plan) {
            self.go_once(plan, users, following, touched, steps);
        } else {
            self.go_on(plan, users, following, touched, steps);
        }
    }

    // The same where nothing is written between stages: the one net settles for all of them, and nobody is late.
    fn go_once<L: Ledger>(
        &mut self,
        plan: &Plan,
        users: &UserValues,
        following: usize,
        touched: &[u32],
        steps: &mut Steps<L>,
    )
        requires valid { IsValid plan.now }
        requires of { AreStagesOf plan.now self.old }
        requires may { MayGo plan.now users.now following touched.now self.old }
        requires none { writes_nothing plan.now ≡ true }
        requires calm { self.old.broken ≡ None }
        ensures of { AreStagesOf plan.now self.new }
        ensures gone { HaveGone plan.now users.now self.old.nets.items self.new steps.old steps.new }
    {
        if self.settle(plan, users, 0, following, touched, steps) {
            flag_none(&mut self.late);
        } else {
            self.broken = Some(0);
        }
    }

    // The same where there are procedures: each stage has a net of its own.
    fn go_on<L: Ledger>(
        &mut self,
        plan: &Plan,
        users: &UserValues,
        following: usize,
        touched: &[u32],
        steps: &mut Steps<L>,
    )
        requires valid { IsValid plan.now }
        requires of { AreStagesOf plan.now self.old }
        requires may { MayGo plan.now users.now following touched.now self.old }
        requires some { writes_nothing plan.now ≡ false }
        requires calm { self.old.broken ≡ None }
        ensures of { AreStagesOf plan.now self.new }
        ensures gone { HaveGone plan.now users.now self.old.nets.items self.new steps.old steps.new }
    {
        let last = stages(plan) - 1;
        for stage in 0..last {
            if !self.settle(plan, users, stage, following, touched, steps) {
                self.broken = Some(stage);
                return;
            }
            self.write(plan, users, stage, last);
        }
        if self.settle(plan, users, last, following, touched, steps) {
            self.mark_late(plan, last);
        } else {
            self.broken = Some(last);
        }
    }

    // Settles the net of a stage, and says whether nothing contradicts.
    fn settle<L: Ledger>(
        &mut self,
        plan: &Plan,
        users: &UserValues,
        stage: u32,
        following: usize,
        touched: &[u32],
        steps: &mut Steps<L>,
    ) -> bool
        requires valid { IsValid plan.now }
        requires of { AreStagesOf plan.now self.old }
        requires users { length users.now.values ≡ length plan.now.vars }
        requires fits { sources_fit plan.now (sources_of (users_of users.now) self.old.overlay) ≡ true }
        requires there { stage < length self.old.nets.items }
        requires taken { self.old.sources.user ≡ users.now.values }
        requires follows { FollowsBeside touched.now users.now.values following self.old.nets.items stage }
        ensures settles { SettlesAt plan.now (users_of users.now) stage self.old self.new result }
        ensures syncs { SyncsAt plan.now (users_of users.now) stage self.old self.new steps.old steps.new }
    {
        let written = self.written.as_slice();
        fill_entries_at(plan, &self.overlay, written, &mut self.sources);
        settle(
            plan,
            &self.sources,
            (stage as usize) < following,
            touched,
            written,
            &mut self.nets[stage as usize],
            steps,
        )
    }

    // Lets procedures write between a stage and the next.
    fn write(&mut self, plan: &Plan, users: &UserValues, stage: u32, last: u32)
        requires valid { IsValid plan.now }
        requires of { AreStagesOf plan.now self.old }
        requires last { last ≡ last_stage plan.now }
        requires there { stage < last }
        requires some { writes_nothing plan.now ≡ false }
        requires lies { LiesAt plan.now self.old.nets.items stage }
        requires entries { EntriesLie plan.now self.old.overlay }
        ensures { WritesAfter plan.now (users_of users.now) stage self.old self.new }
    {
        self.flag_before(plan, stage, last);
        run_stage(
            plan,
            self.look_ups.orders(),
            stage + 1,
            &self.nets[stage as usize],
            self.late.as_slice(),
            users,
            &mut self.overlay,
        );
    }

    // Flags before the last stage those who weren't here when their own procedures ran.
    fn flag_before(&mut self, plan: &Plan, stage: u32, last: u32)
        requires valid { IsValid plan.now }
        requires late { length self.old.late ≡ length plan.now.slots }
        requires last { last ≡ last_stage plan.now }
        requires there { stage < last }
        ensures { self.new ≡ with_late self.old (flags_before plan.now stage self.old) }
    {
        if stage + 1 == last {
            flag_missing(plan, self.nets.as_slice(), &mut self.late);
        }
    }

    // Flags the instances that are late.
    fn mark_late(&mut self, plan: &Plan, last: u32)
        requires valid { IsValid plan.now }
        requires of { AreStagesOf plan.now self.old }
        requires some { writes_nothing plan.now ≡ false }
        requires last { last ≡ last_stage plan.now }
        ensures { FlagsLateOnes plan.now self.old self.new }
    {
        flag_late(
            plan,
            self.nets.as_slice(),
            &self.nets[last as usize],
            &mut self.late,
        );
    }
}

// Whether nothing is ever written between stages.
fn writes_nothing(plan: &Plan) -> bool
    ensures { result ≡ writes_nothing plan.now }
{
    plan.procedures.len() == 0
}

// How many nets the stages have.
fn net_count(plan: &Plan) -> u32
    requires { IsValid plan.now }
    ensures { result ≡ net_count plan.now }
{
    if writes_nothing(plan) {
        1
    } else {
        stages(plan)
    }
}

// A net for each stage, or one for all where they can't differ.
fn new_nets(alloc: Global, plan: &Plan) -> Result<Vec<Net>, AllocError>
    requires valid { IsValid plan.now }
    ensures nets { IfOk result (λ nets. AllByRecursion (IsNetOf plan.now) nets.items) }
    ensures behind { IfOk result (λ nets. AllByRecursion (HasAllBehind plan.now) nets.items) }
    ensures many { IfOk result (λ nets. length nets.items ≡ net_count plan.now) }
{
    let mut nets = Vec::new(alloc);
    for stage in 0..net_count(plan) {
        nets.push(Net::new(alloc, plan)?)?;
    }
    Ok(nets)
}

// No slot flagged.
fn no_flags(alloc: Global, plan: &Plan) -> Result<Listed<bool>, AllocError>
    ensures { IfOk result (λ flags. flags ≡ replicate (length plan.now.slots) false) }
{
    let mut flags = Listed::new(alloc);
    for slot in 0..plan.slots.len() {
        flags.push(false)?;
    }
    Ok(flags)
}
