//! How many different variables conditions and terms read.

ghost use Rattle.std.specs.Prelude.{◌≡◌, [], length, slice_get, IfOk, OnOk};
ghost use Rattle.vc_plan.specs.Bounds.{condition_size, sides_size};
ghost use Rattle.vc_plan.specs.Reads.{vars_in, vars_of_condition, vars_of_term, vars_read};
ghost use Rattle.vc_net_bounds.specs.Capping.{capped};
ghost use Rattle.vc_net_bounds.specs.Meeting.{met_after, with_met};

use crate::capping::capped;
use indexmap::IndexSet;
use std::alloc::{AllocError, Global};
use std::marker::Model;
use vc_plan::{Condition, Plan, Rule, Term, element};

/// The variables that were met, each once.
#[derive(Drop)]
pub struct Met {
    met: IndexSet<u32>,
}

impl Model for Met {
    ghost use Rattle.std.specs.Prelude.{List, ℕ};

    ghost Value = { List ℕ };

    ghost view = { λ m. m.met.keys };
}

impl Met {
    /// None.
    pub fn new(alloc: Global) -> Met
        ensures { result ≡ [] }
    {
        Met {
            met: IndexSet::new(alloc),
        }
    }

    /// How many there are.
    pub fn count(&self) -> usize
        ensures { result ≡ length self.now }
    {
        self.met.len()
    }

    /// Forgets them.
    pub fn clear(&mut self)
        ensures { self.new ≡ [] }
    {
        self.met.clear();
    }

    /// Puts the variable last, unless it is there.
    pub fn add(&mut self, var: u32) -> Result<(), AllocError>
        ensures { OnOk result (self.new ≡ with_met self.old var) }
    {
        self.met.insert_full(var)?;
        Ok(())
    }
}

#[tactic(auto, using(crate::proofs::MeetingLemmas::met_parts))]
fn meet_term(term: &Term, met: &mut Met) -> Result<(), AllocError>
    ensures { OnOk result (met.new ≡ met_after (vars_in term.now) met.old) }
{
    match term {
        Term::Read(var) => met.add(*var),
        Term::Applied(_, inner) => meet_term(inner, met),
        Term::Joined(_, left, right) => {
            meet_term(right, met)?;
            meet_term(left, met)
        }
        _ => Ok(()),
    }
}

#[tactic(auto, using(crate::proofs::MeetingLemmas::met_parts))]
fn meet_condition(condition: &Condition, met: &mut Met) -> Result<(), AllocError>
    ensures { OnOk result (met.new ≡ met_after (vars_read condition.now) met.old) }
{
    match condition {
        Condition::Compared(_, left, right) => {
            meet_term(right, met)?;
            meet_term(left, met)
        }
        Condition::IsIn(var, _) => met.add(*var),
        Condition::Specified(var) => met.add(*var),
        Condition::Not(inner) => meet_condition(inner, met),
        Condition::And(left, right) => {
            meet_condition(right, met)?;
            meet_condition(left, met)
        }
        Condition::Or(left, right) => {
            meet_condition(right, met)?;
            meet_condition(left, met)
        }
        _ => Ok(()),
    }
}

fn meet_rules_condition(plan: &Plan, condition: u32, met: &mut Met) -> Result<(), AllocError>
    ensures { OnOk result (met.new ≡ met_after (vars_of_condition (slice_get plan.now.conditions condition)) met.old) }
{
    match element(plan.conditions.as_slice(), condition) {
        Some(condition) => meet_condition(condition, met),
        None => Ok(()),
    }
}

fn meet_side(plan: &Plan, term: u32, met: &mut Met) -> Result<(), AllocError>
    ensures { OnOk result (met.new ≡ met_after (vars_of_term (slice_get plan.now.terms term)) met.old) }
{
    match element(plan.terms.as_slice(), term) {
        Some(term) => meet_term(term, met),
        None => Ok(()),
    }
}

/// How many different variables the rule's condition reads.
#[tactic(auto, using(crate::proofs::MeetingLemmas::met_count))]
pub fn condition_size(plan: &Plan, rule: &Rule, met: &mut Met) -> Result<u32, AllocError>
    ensures { IfOk result (λ size. size ≡ capped (condition_size plan.now rule.now)) }
{
    met.clear();
    meet_rules_condition(plan, rule.condition, met)?;
    Ok(capped(met.count()))
}

/// How many different variables two terms read.
#[tactic(auto, using(crate::proofs::MeetingLemmas::met_parts, crate::proofs::MeetingLemmas::met_count))]
pub fn sides_size(plan: &Plan, left: u32, right: u32, met: &mut Met) -> Result<u32, AllocError>
    ensures { IfOk result (λ size. size ≡ capped (sides_size plan.now left right)) }
{
    met.clear();
    meet_side(plan, right, met)?;
    meet_side(plan, left, met)?;
    Ok(capped(met.count()))
}
