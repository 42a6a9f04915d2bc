//! The desk of a plan.

ghost use Rattle.std.specs.Prelude.{◌≡◌, IfSome, IsSome};
ghost use Rattle.vc_plan.specs.Valid.{IsValid};
ghost use Rattle.vc_session_evaluation.specs.Sharing.{AreAllLookUpsOf};
ghost use Rattle.vc_desk.specs.Answers.{Apply, LeavesKeeper};
ghost use Rattle.vc_desk.specs.Costing.{AnswerSpends};
ghost use Rattle.vc_desk.specs.Desks.{AreSessionsOf, KeepsLookUps, state_of};

use crate::saved::{forget, load, save};
use crate::sessions::Sessions;
use crate::tasks::{Task, task_of};
use std::alloc::Global;
use std::marker::Model;
use std::sync::ledger::Ledger;
use vc_outside::Keeper;
use vc_plan::Plan;
use vc_session_evaluation::SharedLookUps;
use vc_value_steps::Steps;
use vc_wire_replies::Reply;
use vc_wire_requests::Request;

/// A plan with the sessions that are open, and the orders by which they look rows up, made when the first is opened.
/// What is saved is with a keeper.
pub struct Desk {
    plan: Plan,
    look_ups: Option<SharedLookUps>,
    sessions: Sessions,
}

// By hand, as a derived one is proved again, with all of its parts, in each crate that drops a desk.
impl Drop for Desk {
    fn drop(self) {
        let Desk {
            plan,
            look_ups,
            sessions,
        } = self;
        drop(plan);
        drop(look_ups);
        drop(sessions);
    }
}

impl Model for Desk {
    ghost use Rattle.std.specs.Coded.{codes};
    ghost use Rattle.std.specs.FinMap.{code};
    ghost use Rattle.vc_plan.specs.contracts.conditions.Condition as condition;
    ghost use Rattle.vc_plan.specs.contracts.terms.Term as term;
    ghost use Rattle.vc_desk.specs.Desks.{Kept};

    ghost Value = { Kept };

    // Conditions and terms hold themselves, so their codes are told.
    ghost coded = { Prim.hlevel (codes, code, condition.the_row.coded, term.the_row.coded) };

    ghost view = { λ d. record { plan = d.plan; look_ups = d.look_ups; sessions = d.sessions } };
}

// What is answered to a request about the open sessions of a plan, and about those that are saved.
fn answer_with<K: Keeper, L: Ledger>(
    alloc: Global,
    plan: &Plan,
    look_ups: &mut Option<SharedLookUps>,
    sessions: &mut Sessions,
    keeper: &mut K,
    request: &Request,
    steps: &mut Steps<L>,
) -> Reply
    requires valid { IsValid plan.now }
    requires of { AreSessionsOf plan.now sessions.old }
    requires orders { IfSome look_ups.old (AreAllLookUpsOf plan.now) }
    requires begun { IsSome (K.begun keeper.old) }
    ensures applies { Apply plan.now (state_of sessions.old (K.texts keeper.old) (K.faults keeper.old)) request.now
        result (state_of sessions.new (K.texts keeper.new) (K.faults keeper.new)) }
    ensures of { AreSessionsOf plan.now sessions.new }
    ensures orders { IfSome look_ups.new (AreAllLookUpsOf plan.now) }
    ensures keeps { KeepsLookUps look_ups.old look_ups.new }
    ensures spends { AnswerSpends plan.now sessions.old request.now result sessions.new steps.old steps.new }
    ensures begun { K.begun keeper.new ≡ K.begun keeper.old }
    ensures keeper { LeavesKeeper request.now → keeper.new ≡ keeper.old }
{
    match task_of(request) {
        Task::Start(session) => sessions.open(alloc, plan, look_ups, session),
        Task::Close(session) => sessions.close(plan, session),
        Task::Edit(session, edit) => sessions.edit(plan, session, edit, steps),
        Task::Tell(session, what) => sessions.tell(alloc, plan, session, what),
        Task::Explain(session, question) => sessions.explain(alloc, plan, session, question),
        Task::Save(session, name) => save(alloc, plan, sessions, keeper, session, name),
        Task::Load(session, name) => load(alloc, plan, sessions, keeper, session, name, steps),
        Task::Forget(name) => forget(keeper, name),
    }
}

impl Desk {
    ghost use Rattle.std.specs.Prelude.{◌≡◌, IsSome};
    ghost use Rattle.std.specs.FinMap.{empty};
    ghost use Rattle.vc_plan.specs.Valid.{IsValid};
    ghost use Rattle.vc_desk.specs.Answers.{Apply, LeavesKeeper};
    ghost use Rattle.vc_desk.specs.Costing.{AnswerSpends};
    ghost use Rattle.vc_desk.specs.Desks.{IsDesk, KeepsLookUps, open_of, state_of};

    /// A desk of the plan at which no session is open.
    pub fn new(alloc: Global, plan: Plan) -> Desk
        requires { IsValid plan }
        ensures plan { result.plan ≡ plan }
        ensures none { open_of result.sessions ≡ empty }
        ensures is { IsDesk result }
    {
        Desk {
            plan,
            look_ups: None,
            sessions: Sessions::new(alloc),
        }
    }

    /// The plan.
    pub fn plan(&self) -> &Plan
        ensures { result.now ≡ self.now.plan }
    {
        &self.plan
    }

    /// Answers a request. Close, Set, Add, Retract and Drop take no memory, and all but Save, Load and Forget leave the
    /// keeper as it is. Orders of the plan's tables are made once, when a session is opened. Rules are evaluated by an
    /// edit or a Load that is done alone, within the works of its session's nets, and all other sessions stay as they
    /// are.
    pub fn answer<K: Keeper, L: Ledger>(
        &mut self,
        alloc: Global,
        keeper: &mut K,
        request: &Request,
        steps: &mut Steps<L>,
    ) -> Reply
        requires is { IsDesk self.old }
        requires begun { IsSome (K.begun keeper.old) }
        ensures applies { Apply self.old.plan
            (state_of self.old.sessions (K.texts keeper.old) (K.faults keeper.old)) request.now result
            (state_of self.new.sessions (K.texts keeper.new) (K.faults keeper.new)) }
        ensures is { IsDesk self.new }
        ensures plan { self.new.plan ≡ self.old.plan }
        ensures keeps { KeepsLookUps self.old.look_ups self.new.look_ups }
        ensures spends { AnswerSpends self.old.plan self.old.sessions request.now result self.new.sessions
            steps.old steps.new }
        ensures begun { K.begun keeper.new ≡ K.begun keeper.old }
        ensures keeper { LeavesKeeper request.now → keeper.new ≡ keeper.old }
    {
        answer_with(
            alloc,
            &self.plan,
            &mut self.look_ups,
            &mut self.sessions,
            keeper,
            request,
            steps,
        )
    }
}
