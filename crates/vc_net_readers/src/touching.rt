//! Whether a rule touches a variable, asked without memory.

ghost use Rattle.std.specs.Prelude.{◌≡◌, nat_eq, slice_get};
ghost use Rattle.std.specs.List.{flat_map, list_any};
ghost use Rattle.vc_plan.specs.Reads.{vars_in, vars_of_condition, vars_of_term, vars_read};
ghost use Rattle.vc_plan.specs.Gives.{by_rule};
ghost use Rattle.vc_plan_reasons.specs.Things.{var_at, vars_of_column, vars_of_kind, vars_of_sides};
ghost use Rattle.vc_net_laws.specs.Triggers.{trigger_by};
ghost use Rattle.vc_net_readers.specs.Glances.{gives_text_to, glance_by};
ghost use Rattle.vc_net_readers.specs.Readers.{is_reader};
ghost use Rattle.vc_net_readers.specs.Touched.{touched_vars};
ghost use Rattle.vc_net_readers.specs.Waiting.{is_own};

use crate::glances::{Glance, Hint};
use vc_net_laws::Trigger;
use vc_plan::{Binding, Condition, Kind, Operand, Plan, Rule, Term, element};

#[tactic(auto, using(crate::proofs::TouchedLemmas::any_of_parts))]
fn is_in(term: &Term, var: u32) -> bool
    ensures { result ≡ list_any (nat_eq var) (vars_in term.now) }
{
    match term {
        Term::Read(other) => var == *other,
        Term::Applied(_, inner) => is_in(inner, var),
        Term::Joined(_, left, right) => is_in(left, var) || is_in(right, var),
        _ => false,
    }
}

#[tactic(auto, using(crate::proofs::TouchedLemmas::any_of_parts))]
fn is_read(condition: &Condition, var: u32) -> bool
    ensures { result ≡ list_any (nat_eq var) (vars_read condition.now) }
{
    match condition {
        Condition::Compared(_, left, right) => is_in(left, var) || is_in(right, var),
        Condition::IsIn(other, _) => var == *other,
        Condition::Specified(other) => var == *other,
        Condition::Not(inner) => is_read(inner, var),
        Condition::And(left, right) => is_read(left, var) || is_read(right, var),
        Condition::Or(left, right) => is_read(left, var) || is_read(right, var),
        _ => false,
    }
}

fn is_in_condition(plan: &Plan, condition: u32, var: u32) -> bool
    ensures { result ≡ list_any (nat_eq var) (vars_of_condition (slice_get plan.now.conditions condition)) }
{
    match element(plan.conditions.as_slice(), condition) {
        Some(condition) => is_read(condition, var),
        None => false,
    }
}

fn is_in_term(plan: &Plan, term: u32, var: u32) -> bool
    ensures { result ≡ list_any (nat_eq var) (vars_of_term (slice_get plan.now.terms term)) }
{
    match element(plan.terms.as_slice(), term) {
        Some(term) => is_in(term, var),
        None => false,
    }
}

#[tactic(auto, using(crate::proofs::TouchedLemmas::any_of_parts))]
fn is_in_sides(plan: &Plan, left: u32, right: u32, var: u32) -> bool
    ensures { result ≡ list_any (nat_eq var) (vars_of_sides plan.now left right) }
{
    is_in_term(plan, left, var) || is_in_term(plan, right, var)
}

#[tactic(auto, using(crate::proofs::TouchedLemmas::any_of_parts))]
fn is_in_column(column: &Binding, var: u32) -> bool
    ensures { result ≡ list_any (nat_eq var) (vars_of_column column.now) }
{
    match column.operand {
        Operand::Constant(_) => false,
        Operand::Variable(other) => var == other,
    }
}

#[tactic(auto, using(crate::proofs::TouchedLemmas::any_of_parts))]
fn is_in_columns(columns: &[Binding], var: u32) -> bool
    ensures { result ≡ list_any (nat_eq var) (flat_map vars_of_column columns.now) }
{
    let mut rest = columns;
    while let [column, more @ ..] = rest {
        if is_in_column(column, var) {
            return true;
        }
        rest = more;
    }
    false
}

#[tactic(auto, using(crate::proofs::TouchedLemmas::any_of_parts))]
fn is_in_kind(plan: &Plan, kind: &Kind, var: u32) -> bool
    ensures { result ≡ list_any (nat_eq var) (vars_of_kind plan.now kind.now) }
{
    match kind {
        Kind::Among(other, _) => var == *other,
        Kind::Compare {
            relation: _,
            left,
            right,
        } => is_in_sides(plan, *left, *right, var),
        Kind::Equate { left, right } => is_in_sides(plan, *left, *right, var),
        Kind::ByTable { table: _, columns } => is_in_columns(columns.as_slice(), var),
        Kind::Never => false,
        Kind::Last(other) => var == *other,
        Kind::Line(_) => false,
    }
}

// What a rule says is asked first: it is mostly of one variable, and its condition a tree.
#[tactic(auto, using(crate::proofs::TouchedLemmas::any_turned))]
fn is_touched(plan: &Plan, rule: &Rule, var: u32) -> bool
    ensures { result ≡ list_any (nat_eq var) (touched_vars plan.now rule.now) }
{
    is_in_kind(plan, &rule.kind, var) || is_in_condition(plan, rule.condition, var)
}

/// Whether the rule of this number reads or writes the variable.
#[tactic(auto, using(crate::proofs::TouchedLemmas::var_in_rule))]
pub fn touches(plan: &Plan, rule: u32, var: u32) -> bool
    ensures { result ≡ is_reader plan.now (var_at var) rule }
{
    match element(plan.rules.as_slice(), rule) {
        Some(rule) => is_touched(plan, rule, var),
        None => false,
    }
}

/// The same, where the rule's trigger is known: its variable is one that the rule reads.
pub fn touches_by(plan: &Plan, rule: u32, trigger: Option<Trigger>, var: u32) -> bool
    requires { trigger ≡ trigger_by plan.now (by_rule rule) }
    ensures { result ≡ is_reader plan.now (var_at var) rule }
{
    if is_trigger_of(trigger, var) {
        true
    } else {
        touches(plan, rule, var)
    }
}

// Whether it is a value of the variable.
fn is_trigger_of(trigger: Option<Trigger>, var: u32) -> bool
    ensures { result ≡ is_own var trigger }
{
    match trigger {
        Some(trigger) => var == trigger.var,
        None => false,
    }
}

/// The same, where it is known what is told of the rule at a glance: it writes the variable that it gives a text.
pub fn touches_as_told(plan: &Plan, rule: u32, glance: Glance, var: u32) -> bool
    requires { glance ≡ glance_by plan.now rule }
    ensures { result ≡ is_reader plan.now (var_at var) rule }
{
    if gives_text_to(glance.hint, var) {
        true
    } else {
        touches_by(plan, rule, glance.trigger, var)
    }
}

// Whether it is told that a rule gives the variable a text.
fn gives_text_to(hint: Hint, var: u32) -> bool
    ensures { result ≡ gives_text_to var hint }
{
    match hint {
        Hint::GivesText {
            var: other,
            text: _,
        } => var == other,
        _ => false,
    }
}
