//! Evaluations after an edit.

ghost use Rattle.vc_plan.specs.Valid.{IsValid};
ghost use Rattle.vc_plan_users.specs.Choosing.{users_of};
ghost use Rattle.vc_session_evaluation.specs.Costing.{EvaluationCosts};
ghost use Rattle.vc_session_evaluation.specs.Evaluating.{AreStagesOf, IsEvaluated};
ghost use Rattle.vc_session_evaluation.specs.Following.{DifferAt, HaveTaken};
ghost use Rattle.vc_session.specs.Edits.{touched_by};
ghost use Rattle.vc_session.specs.Sessions.{AreUsersOf};

use std::sync::ledger::Ledger;
use vc_plan::{Named, Plan};
use vc_plan_users::UserValues;
use vc_session_evaluation::Stages;
use vc_value_steps::Steps;

/// Evaluates what the user chose, where an edit touched what is named alone since it was evaluated.
pub fn evaluate_edit<L: Ledger>(
    plan: &Plan,
    users: &UserValues,
    named: Named,
    stages: &mut Stages,
    steps: &mut Steps<L>,
)
    requires valid { IsValid plan.now }
    requires of { AreStagesOf plan.now stages.old }
    requires users { AreUsersOf plan.now users.now }
    requires touched { DifferAt (touched_by named) stages.old users.now.values }
    ensures of { AreStagesOf plan.now stages.new }
    ensures evaluated { IsEvaluated plan.now (users_of users.now) stages.new }
    ensures cost { EvaluationCosts plan.now (users_of users.now) stages.old.nets.items stages.new steps.old steps.new }
    ensures taken { HaveTaken users.now.values stages.new }
{
    match named {
        Named::Var(var) => stages.evaluate_at(plan, users, &[var], steps),
        Named::Set(_) => stages.evaluate_at(plan, users, &[], steps),
    }
}
