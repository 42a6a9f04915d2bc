//! A session of a plan.

ghost use Rattle.std.specs.Prelude.{◌≡◌, ◌<◌, IfOk};
ghost use Rattle.vc_plan.specs.Valid.{IsValid};
ghost use Rattle.vc_plan_users.specs.Choosing.{none_chosen};
ghost use Rattle.vc_proc_look_ups.specs.LookUps.{AreLookUpsOf};
ghost use Rattle.vc_session.specs.Costing.{HasStarted};
ghost use Rattle.vc_session.specs.Sessions.{IsSessionOf};

use crate::choosing::{give, give_alone, has_choice, has_chosen, take, take_value};
use crate::evaluating::evaluate_edit;
use crate::explaining::{chain, clash, log};
use crate::listing::may_be_given;
use std::alloc::{AllocError, Global};
use std::marker::{Brand, Model};
use std::sync::ledger::{Blank, Ledger};
use vc_net::Net;
use vc_plan::{Atom, Clash, Named, Outcome, Plan, Reading, Step, View};
use vc_plan_users::UserValues;
use vc_proc::Overlay;
use vc_session_evaluation::{SharedLookUps, Stages};
use vc_show::asking::marked_vars;
use vc_show::naming::slot_of_named;
use vc_value::{Listed, Value};
use vc_value_steps::Steps;

/// Why a value can't be given.
#[derive(Clone, Copy, Debug, PartialEq, Eq)]
pub enum SetFault {
    /// It is none of the values that may be given there.
    NotInList,
    /// The instance isn't there.
    NotHere,
}

/// That the user has no such value.
#[derive(Clone, Copy, Debug, PartialEq, Eq)]
pub struct NotSet;

/// What a user chose of a plan, evaluated through all stages after each edit. All memory is taken at `start`.
pub struct Session {
    users: UserValues,
    stages: Stages,
    // The variables that are marked as required: they are the plan's, and asked for after each edit.
    marked: Listed<u32>,
}

// By hand, as a derived one is proved again, with all of its parts, in each crate that drops a session.
impl Drop for Session {
    fn drop(self) {
        let Session {
            users,
            stages,
            marked,
        } = self;
        drop(users);
        drop(stages);
        drop(marked);
    }
}

impl Model for Session {
    ghost use Rattle.vc_session.specs.Sessions.{Opened};

    ghost Value = { Opened };

    ghost view = { λ s. record { users = s.users; stages = s.stages; marked = s.marked } };
}

impl Session {
    ghost use Rattle.std.specs.Prelude.{◌≡◌, ◌<◌, false, length, slice_index_or, IfOk, None};
    ghost use Rattle.vc_plan.specs.Valid.{IsValid};
    ghost use Rattle.vc_plan_users.specs.Choosing.{none_chosen, users_of};
    ghost use Rattle.vc_proc_look_ups.specs.LookUps.{AreLookUpsOf};
    ghost use Rattle.vc_session_evaluation.specs.Costing.{EvaluationCosts};
    ghost use Rattle.vc_session.specs.Costing.{EditCosts, HasStarted};
    ghost use Rattle.vc_session.specs.Edits as edits;
    ghost use Rattle.vc_session.specs.Sessions.{AreUsersOf, Gives, IsSessionOf, Takes, outcome_of};

    /// Nothing chosen, evaluated.
    pub fn start(alloc: Global, plan: &Plan) -> Result<Session, AllocError>
        requires { IsValid plan.now }
        ensures of { IfOk result (λ session. IsSessionOf plan.now session) }
        ensures none { IfOk result (λ session. session.users ≡ none_chosen plan.now) }
        ensures behind { IfOk result (λ session. HasStarted plan.now session) }
    {
        let look_ups = SharedLookUps::new(alloc, plan)?;
        Session::start_with(alloc, plan, look_ups)
    }

    /// The same with orders of the plan's tables that other sessions of it may share.
    pub fn start_with(
        alloc: Global,
        plan: &Plan,
        look_ups: SharedLookUps,
    ) -> Result<Session, AllocError>
        requires valid { IsValid plan.now }
        requires look_ups { AreLookUpsOf plan.now look_ups }
        ensures of { IfOk result (λ session. IsSessionOf plan.now session) }
        ensures none { IfOk result (λ session. session.users ≡ none_chosen plan.now) }
        ensures behind { IfOk result (λ session. HasStarted plan.now session) }
    {
        begun::<Brand>(alloc, plan, look_ups, Blank::new(1))
    }

    /// Gives it the value, a set this alone.
    pub fn set<L: Ledger>(
        &mut self,
        plan: &Plan,
        named: Named,
        value: Value,
        steps: &mut Steps<L>,
    ) -> Result<(), SetFault>
        requires valid { IsValid plan.now }
        requires of { IsSessionOf plan.now self.old }
        ensures of { IsSessionOf plan.now self.new }
        ensures gives { Gives plan.now self.old self.new named value (edits.given_alone self.old.users named value)
            result }
        ensures cost { EditCosts plan.now self.old self.new result steps.old steps.new }
    {
        match self.fault(plan, named, value) {
            Some(fault) => Err(fault),
            None => {
                give_alone(&mut self.users, named, value);
                evaluate_edit(plan, &self.users, named, &mut self.stages, steps);
                Ok(())
            }
        }
    }

    /// Gives it the value, a set beside those that it holds.
    pub fn add<L: Ledger>(
        &mut self,
        plan: &Plan,
        named: Named,
        value: Value,
        steps: &mut Steps<L>,
    ) -> Result<(), SetFault>
        requires valid { IsValid plan.now }
        requires of { IsSessionOf plan.now self.old }
        ensures of { IsSessionOf plan.now self.new }
        ensures gives { Gives plan.now self.old self.new named value (edits.given self.old.users named value) result }
        ensures cost { EditCosts plan.now self.old self.new result steps.old steps.new }
    {
        match self.fault(plan, named, value) {
            Some(fault) => Err(fault),
            None => {
                give(&mut self.users, named, value);
                evaluate_edit(plan, &self.users, named, &mut self.stages, steps);
                Ok(())
            }
        }
    }

    /// Takes all of the user's values there back.
    pub fn retract<L: Ledger>(
        &mut self,
        plan: &Plan,
        named: Named,
        steps: &mut Steps<L>,
    ) -> Result<(), NotSet>
        requires valid { IsValid plan.now }
        requires of { IsSessionOf plan.now self.old }
        ensures of { IsSessionOf plan.now self.new }
        ensures takes { Takes self.old self.new (edits.has_choice self.old.users named)
            (edits.taken self.old.users named) result }
        ensures cost { EditCosts plan.now self.old self.new result steps.old steps.new }
    {
        if !has_choice(&self.users, named) {
            return Err(NotSet);
        }
        take(&mut self.users, named);
        evaluate_edit(plan, &self.users, named, &mut self.stages, steps);
        Ok(())
    }

    /// Takes this value back, and no other.
    pub fn drop_value<L: Ledger>(
        &mut self,
        plan: &Plan,
        named: Named,
        value: Value,
        steps: &mut Steps<L>,
    ) -> Result<(), NotSet>
        requires valid { IsValid plan.now }
        requires of { IsSessionOf plan.now self.old }
        ensures of { IsSessionOf plan.now self.new }
        ensures takes { Takes self.old self.new (edits.has_chosen self.old.users named value)
            (edits.taken_value self.old.users named value) result }
        ensures cost { EditCosts plan.now self.old self.new result steps.old steps.new }
    {
        if !has_chosen(&self.users, named, value) {
            return Err(NotSet);
        }
        take_value(&mut self.users, named, value);
        evaluate_edit(plan, &self.users, named, &mut self.stages, steps);
        Ok(())
    }

    /// Replaces what the user chose by this, and evaluates it.
    pub fn restore<L: Ledger>(&mut self, plan: &Plan, users: UserValues, steps: &mut Steps<L>)
        requires valid { IsValid plan.now }
        requires of { IsSessionOf plan.now self.old }
        requires users { AreUsersOf plan.now users }
        ensures of { IsSessionOf plan.now self.new }
        ensures users { self.new.users ≡ users }
        ensures cost { EvaluationCosts plan.now (users_of self.new.users) self.old.stages.nets.items
            self.new.stages steps.old steps.new }
    {
        self.users = users;
        self.stages.evaluate(plan, &self.users, steps);
    }

    /// What the user chose.
    pub fn users(&self) -> &UserValues
        ensures { result.now ≡ self.now.users }
    {
        &self.users
    }

    /// The variables that are marked as required.
    pub fn marked(&self) -> &[u32]
        ensures { result.now ≡ self.now.marked }
    {
        self.marked.as_slice()
    }

    /// What procedures wrote, up to the first broken stage.
    pub fn overlay(&self) -> &Overlay
        ensures { result.now ≡ self.now.stages.overlay }
    {
        &self.stages.overlay
    }

    /// Whether the instance came too late for its own procedures; told where no stage is broken.
    pub fn late(&self, slot: u32) -> bool
        ensures { result ≡ slice_index_or self.now.stages.late slot false }
    {
        match self.stages.late.as_slice().get(slot as usize) {
            Some(late) => *late,
            None => false,
        }
    }

    /// The number of the first broken stage, if one is.
    pub fn broken(&self) -> Option<u32>
        ensures { result ≡ self.now.stages.broken }
    {
        self.stages.broken
    }

    /// Whether all stages settled, or whom to blame in the first broken one.
    pub fn outcome(&self) -> Outcome
        ensures { result ≡ outcome_of self.now.stages self.now.stages.broken }
    {
        match self.stages.broken {
            Some(stage) => match self.stages.nets.get(stage as usize) {
                Some(net) => net.outcome(),
                None => Outcome::Settled,
            },
            None => Outcome::Settled,
        }
    }
}

impl Session {
    ghost use Rattle.std.specs.Prelude.{◌≡◌, IfOk};
    ghost use Rattle.vc_plan.specs.Valid.{IsValid};
    ghost use Rattle.vc_net_chains.specs.Explaining.{IsClash, IsLog, IsWhy};
    ghost use Rattle.vc_net.specs.Nets.{outcome_by};
    ghost use Rattle.vc_plan_users.specs.Choosing.{users_of};
    ghost use Rattle.vc_session.specs.Explained.{blamed_by};
    ghost use Rattle.vc_session.specs.Sessions.{IsSessionOf, outcome_of};

    /// A chain of reasons for an atom: its steps lead to the last, which concludes it, and none of them is in vain.
    /// There is one just where no stage is broken and the atom was inferred in the last.
    pub fn why(
        &self,
        alloc: Global,
        plan: &Plan,
        atom: Atom,
    ) -> Result<Option<Listed<Step>>, AllocError>
        requires valid { IsValid plan.now }
        requires of { IsSessionOf plan.now self.now }
        ensures { IfOk result (λ chain. IsWhy plan.now (users_of self.now.users) atom chain) }
    {
        chain(alloc, &self.stages, atom)
    }

    /// The steps of the last stage, of which nothing more follows, if no stage is broken.
    pub fn log(&self, alloc: Global, plan: &Plan) -> Result<Option<Listed<Step>>, AllocError>
        requires valid { IsValid plan.now }
        requires of { IsSessionOf plan.now self.now }
        ensures { IfOk result (λ log. IsLog plan.now (users_of self.now.users) log) }
    {
        log(alloc, &self.stages)
    }

    /// What contradicts in the first stage that is broken, if one is: the steps that lead to it, and who is to blame,
    /// as `outcome` names it.
    pub fn clash(&self, alloc: Global, plan: &Plan) -> Result<Option<Clash>, AllocError>
        requires valid { IsValid plan.now }
        requires of { IsSessionOf plan.now self.now }
        ensures explains { IfOk result (λ clash. IsClash plan.now (users_of self.now.users) clash) }
        ensures blames { IfOk result (λ clash. outcome_by (blamed_by clash)
            ≡ outcome_of self.now.stages self.now.stages.broken) }
    {
        clash(alloc, &self.stages)
    }
}

impl Session {
    ghost use Rattle.std.specs.Prelude.{◌≡◌, length, option_copied, pred, slice_get};
    ghost use Rattle.vc_plan.specs.Showing.{is_named_here};
    ghost use Rattle.vc_session.specs.Sessions.{is_away, last_seen, set_fault};

    // The net of the last stage; it has settled where no stage is broken.
    fn last_net(&self) -> Option<&Net>
        ensures { option_copied result ≡ slice_get self.now.stages.nets.items
            (pred (length self.now.stages.nets.items)) }
    {
        let nets = self.stages.nets.as_slice();
        nets.get(nets.len().saturating_sub(1))
    }

    // Why the value can't be given there, if it can't.
    fn fault(&self, plan: &Plan, named: Named, value: Value) -> Option<SetFault>
        ensures { result ≡ set_fault plan.now self.now named value }
    {
        if !may_be_given(plan, named, value) {
            return Some(SetFault::NotInList);
        }
        if self.is_away(plan, named) {
            return Some(SetFault::NotHere);
        }
        None
    }

    fn is_away(&self, plan: &Plan, named: Named) -> bool
        ensures { result ≡ is_away plan.now self.now named }
    {
        match self.stages.broken {
            Some(_) => false,
            None => !self.is_named_here(plan, named),
        }
    }

    fn is_named_here(&self, plan: &Plan, named: Named) -> bool
        ensures { result ≡ is_named_here plan.now (last_seen self.now.stages) named }
    {
        match slot_of_named(plan, named) {
            Some(slot) => self.here(slot),
            None => false,
        }
    }
}

impl View for Session {
    ghost use Rattle.vc_session.specs.Sessions.{last_seen};

    ghost seen = { λ s. last_seen s.stages };

    fn here(&self, slot: u32) -> bool {
        match self.last_net() {
            Some(net) => net.here(slot),
            None => false,
        }
    }

    fn out(&self, var: u32, grain: u32) -> bool {
        match self.last_net() {
            Some(net) => net.out(var, grain),
            None => false,
        }
    }

    fn value(&self, var: u32) -> Option<Value> {
        match self.last_net() {
            Some(net) => net.value(var),
            None => None,
        }
    }
}

impl Reading for Session {
    ghost use Rattle.vc_plan.specs.Evaluate.{holds};
    ghost use Rattle.vc_plan_users.specs.Choosing.{users_of};

    ghost holdings = { λ s. holds (users_of s.users) };

    fn holds(&self, set: u32, text: u32) -> bool {
        self.users.holds(set, text)
    }
}

// A session with nothing chosen, evaluated on a counter of its own.
fn begun<L: Ledger>(
    alloc: Global,
    plan: &Plan,
    look_ups: SharedLookUps,
    blank: Blank,
) -> Result<Session, AllocError>
    requires valid { IsValid plan.now }
    requires look_ups { AreLookUpsOf plan.now look_ups }
    requires name { blank.name ≡ L.name }
    requires parts { blank.parts ≡ L.parts }
    requires some { 0 < blank.parts }
    ensures of { IfOk result (λ session. IsSessionOf plan.now session) }
    ensures none { IfOk result (λ session. session.users ≡ none_chosen plan.now) }
    ensures behind { IfOk result (λ session. HasStarted plan.now session) }
{
    let users = UserValues::new(alloc, plan)?;
    let mut stages = Stages::new(alloc, plan, look_ups)?;
    let marked = marked_vars(alloc, plan)?;
    let mut steps: Steps<L> = Steps::new(blank);
    stages.evaluate(plan, &users, &mut steps);
    drop(steps);
    Ok(Session {
        users,
        stages,
        marked,
    })
}
