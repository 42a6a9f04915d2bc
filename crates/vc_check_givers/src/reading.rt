//! What givers read.

ghost use Rattle.std.specs.Prelude.{◌≡◌, ◌++◌, map, nat_eq, slice_get};
ghost use Rattle.std.specs.Option.{option_to_list};
ghost use Rattle.std.specs.List.{list_any};
ghost use Rattle.vc_plan.specs.Reads.{vars_in, vars_of_condition, vars_of_term, vars_read};
ghost use Rattle.vc_plan_reasons.specs.Things.{giver_reads, has_thing, parents_of, rule_reads, slots_of_kind};
ghost use Rattle.vc_plan_reasons.specs.Things.{slot_at, slots_of_var, thing_of, var_at, vars_of_kind, vars_of_sides};
ghost use Rattle.vc_check_givers.specs.Givers.{giver_meant};

use crate::givers::Giver;
use vc_check_table::columns::is_given;
use vc_plan::{Atom, Condition, Kind, Plan, Rule, Term, element};

#[tactic(auto, using(crate::proofs::ReadingLemmas::parts))]
fn term_reads(term: &Term, var: u32) -> bool
    ensures { result ≡ list_any (nat_eq var) (vars_in term.now) }
{
    match term {
        Term::Read(other) => var == *other,
        Term::Applied(_, inner) => term_reads(inner, var),
        Term::Joined(_, left, right) => term_reads(left, var) || term_reads(right, var),
        _ => false,
    }
}

#[tactic(auto, using(crate::proofs::ReadingLemmas::parts))]
fn both_read(left: &Term, right: &Term, var: u32) -> bool
    ensures { result ≡ list_any (nat_eq var) (vars_in left.now ++ vars_in right.now) }
{
    term_reads(left, var) || term_reads(right, var)
}

#[tactic(auto, using(crate::proofs::ReadingLemmas::parts))]
fn condition_reads(condition: &Condition, var: u32) -> bool
    ensures { result ≡ list_any (nat_eq var) (vars_read condition.now) }
{
    match condition {
        Condition::Compared(_, left, right) => both_read(left, right, var),
        Condition::IsIn(other, _) => var == *other,
        Condition::Specified(other) => var == *other,
        Condition::Not(inner) => condition_reads(inner, var),
        Condition::And(left, right) => condition_reads(left, var) || condition_reads(right, var),
        Condition::Or(left, right) => condition_reads(left, var) || condition_reads(right, var),
        _ => false,
    }
}

fn asked_reads(plan: &Plan, condition: u32, var: u32) -> bool
    ensures { result ≡ list_any (nat_eq var) (vars_of_condition (slice_get plan.now.conditions condition)) }
{
    match element(plan.conditions.as_slice(), condition) {
        Some(condition) => condition_reads(condition, var),
        None => false,
    }
}

fn meant_reads(plan: &Plan, term: u32, var: u32) -> bool
    ensures { result ≡ list_any (nat_eq var) (vars_of_term (slice_get plan.now.terms term)) }
{
    match element(plan.terms.as_slice(), term) {
        Some(term) => term_reads(term, var),
        None => false,
    }
}

#[tactic(auto, using(crate::proofs::ReadingLemmas::parts))]
fn sides_read(plan: &Plan, left: u32, right: u32, var: u32) -> bool
    ensures { result ≡ list_any (nat_eq var) (vars_of_sides plan.now left right) }
{
    meant_reads(plan, left, var) || meant_reads(plan, right, var)
}

#[tactic(auto, using(crate::proofs::ReadingLemmas::parts))]
fn kind_reads(plan: &Plan, kind: &Kind, var: u32) -> bool
    ensures { result ≡ list_any (nat_eq var) (vars_of_kind plan.now kind.now) }
{
    match kind {
        Kind::Among(other, _) => var == *other,
        Kind::Compare {
            relation: _,
            left,
            right,
        } => sides_read(plan, *left, *right, var),
        Kind::Equate { left, right } => sides_read(plan, *left, *right, var),
        Kind::ByTable { table: _, columns } => is_given(columns.as_slice(), var),
        Kind::Never => false,
        Kind::Last(other) => var == *other,
        Kind::Line(_) => false,
    }
}

#[tactic(auto, using(crate::proofs::ReadingLemmas::parts))]
fn var_stands_at(plan: &Plan, var: u32, slot: u32) -> bool
    ensures { result ≡ list_any (nat_eq slot) (slots_of_var plan.now var) }
{
    match element(plan.vars.as_slice(), var) {
        Some(x) => slot == x.slot,
        None => false,
    }
}

#[tactic(auto, using(crate::proofs::ReadingLemmas::parts))]
fn is_parent(parent: Option<u32>, slot: u32) -> bool
    ensures { result ≡ list_any (nat_eq slot) (option_to_list parent) }
{
    match parent {
        Some(parent) => slot == parent,
        None => false,
    }
}

fn stands_below(plan: &Plan, below: u32, slot: u32) -> bool
    ensures { result ≡ list_any (nat_eq slot) (parents_of plan.now below) }
{
    match element(plan.slots.as_slice(), below) {
        Some(below) => is_parent(below.parent, slot),
        None => false,
    }
}

fn kind_reads_slot(plan: &Plan, kind: &Kind, slot: u32) -> bool
    ensures { result ≡ list_any (nat_eq slot) (slots_of_kind plan.now kind.now) }
{
    match kind {
        Kind::Last(var) => var_stands_at(plan, *var, slot),
        Kind::Line(below) => stands_below(plan, *below, slot),
        _ => false,
    }
}

fn is_among(number: u32, numbers: &[u32]) -> bool
    ensures { result ≡ list_any (nat_eq number) numbers.now }
{
    let mut rest = numbers;
    while let [other, more @ ..] = rest {
        if number == *other {
            return true;
        }
        rest = more;
    }
    false
}

#[tactic(auto, using(crate::proofs::ReadingLemmas::things))]
fn rule_reads_slot(plan: &Plan, rule: &Rule, slot: u32) -> bool
    ensures { result ≡ has_thing (rule_reads plan.now rule.now) (slot_at slot) }
{
    is_among(slot, rule.slots.as_slice()) || kind_reads_slot(plan, &rule.kind, slot)
}

#[tactic(auto, using(crate::proofs::ReadingLemmas::things))]
fn rule_reads_var(plan: &Plan, rule: &Rule, var: u32) -> bool
    ensures { result ≡ has_thing (rule_reads plan.now rule.now) (var_at var) }
{
    asked_reads(plan, rule.condition, var) || kind_reads(plan, &rule.kind, var)
}

#[tactic(auto, using(crate::proofs::ReadingLemmas::things))]
fn source_reads_slot(plan: &Plan, var: u32, slot: u32) -> bool
    ensures { result ≡ has_thing (map slot_at (slots_of_var plan.now var)) (slot_at slot) }
{
    var_stands_at(plan, var, slot)
}

fn reads_slot(plan: &Plan, giver: Giver, slot: u32) -> bool
    ensures { result ≡ has_thing (giver_reads plan.now (giver_meant giver)) (slot_at slot) }
{
    match giver {
        Giver::Rule(rule) => match element(plan.rules.as_slice(), rule) {
            Some(rule) => rule_reads_slot(plan, rule, slot),
            None => false,
        },
        Giver::User(var) => source_reads_slot(plan, var, slot),
        Giver::Entry(var) => source_reads_slot(plan, var, slot),
    }
}

#[tactic(auto, using(crate::proofs::ReadingLemmas::no_var))]
fn reads_var(plan: &Plan, giver: Giver, var: u32) -> bool
    ensures { result ≡ has_thing (giver_reads plan.now (giver_meant giver)) (var_at var) }
{
    match giver {
        Giver::Rule(rule) => match element(plan.rules.as_slice(), rule) {
            Some(rule) => rule_reads_var(plan, rule, var),
            None => false,
        },
        Giver::User(_) => false,
        Giver::Entry(_) => false,
    }
}

/// Whether the giver reads what the atom is of.
pub fn reads(plan: &Plan, giver: Giver, atom: Atom) -> bool
    ensures { result ≡ has_thing (giver_reads plan.now (giver_meant giver)) (thing_of atom) }
{
    match atom {
        Atom::Here(slot) => reads_slot(plan, giver, slot),
        Atom::Out(var, _) => reads_var(plan, giver, var),
        Atom::Is(var, _) => reads_var(plan, giver, var),
    }
}
