//! Which procedures have sums over parts.

ghost use Rattle.std.specs.Prelude.{◌≡◌, slice_get};
ghost use Rattle.std.specs.List.{list_any};
ghost use Rattle.vc_plan.specs.Monotone.{condition_sums, has_part_sum};
ghost use Rattle.vc_plan.specs.Writes.{action_sums, asked_sums, is_summing, statement_sums, term_sums};

use vc_plan::{Action, Condition, KeyTerm, Plan, Procedure, Statement, Term, element};

fn has_part_sum(term: &Term) -> bool
    ensures { result ≡ has_part_sum term.now }
{
    match term {
        Term::Literal(_) => false,
        Term::Read(_) => false,
        Term::PartSum { .. } => true,
        Term::PartCount(_) => true,
        Term::Applied(_, inner) => has_part_sum(inner),
        Term::Joined(_, left, right) => has_part_sum(left) || has_part_sum(right),
    }
}

fn condition_sums(condition: &Condition) -> bool
    ensures { result ≡ condition_sums condition.now }
{
    match condition {
        Condition::Compared(_, left, right) => has_part_sum(left) || has_part_sum(right),
        Condition::Not(inner) => condition_sums(inner),
        Condition::And(left, right) => condition_sums(left) || condition_sums(right),
        Condition::Or(left, right) => condition_sums(left) || condition_sums(right),
        _ => false,
    }
}

fn term_sums(plan: &Plan, term: u32) -> bool
    ensures { result ≡ term_sums (slice_get plan.now.terms term) }
{
    match element(plan.terms.as_slice(), term) {
        Some(term) => has_part_sum(term),
        None => false,
    }
}

fn asked_sums(plan: &Plan, condition: u32) -> bool
    ensures { result ≡ asked_sums (slice_get plan.now.conditions condition) }
{
    match element(plan.conditions.as_slice(), condition) {
        Some(condition) => condition_sums(condition),
        None => false,
    }
}

fn keys_sum(plan: &Plan, keys: &[KeyTerm]) -> bool
    ensures { result ≡ list_any (λ key. term_sums (slice_get plan.now.terms key.term)) keys.now }
{
    let mut rest = keys;
    while let [key, more @ ..] = rest {
        if term_sums(plan, key.term) {
            return true;
        }
        rest = more;
    }
    false
}

fn action_sums(plan: &Plan, action: &Action) -> bool
    ensures { result ≡ action_sums plan.now action.now }
{
    match action {
        Action::Assign { term, .. } => term_sums(plan, *term),
        Action::SetDefault { term, .. } => term_sums(plan, *term),
        Action::DeleteDefault { term, .. } => term_sums(plan, *term),
        Action::LookUp { keys, .. } => keys_sum(plan, keys.as_slice()),
    }
}

fn statement_sums(plan: &Plan, statement: &Statement) -> bool
    ensures { result ≡ statement_sums plan.now statement.now }
{
    action_sums(plan, &statement.action) || asked_sums(plan, statement.condition)
}

/// Whether the procedure has a sum over parts in one of its statements.
pub fn is_summing(plan: &Plan, procedure: &Procedure) -> bool
    ensures { result ≡ is_summing plan.now procedure.now }
{
    let mut rest = procedure.statements.as_slice();
    while let [statement, more @ ..] = rest {
        if statement_sums(plan, statement) {
            return true;
        }
        rest = more;
    }
    false
}
