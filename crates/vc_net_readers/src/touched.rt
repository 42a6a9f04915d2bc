//! The slots and the variables that a rule touches.

ghost use Rattle.std.specs.Prelude.{◌≡◌, ◌++◌, slice_get, OnOk, IfOk};
ghost use Rattle.std.specs.List.{flat_map};
ghost use Rattle.std.specs.Option.{option_to_list};
ghost use Rattle.vc_plan.specs.Reads.{vars_in, vars_of_condition, vars_of_term, vars_read};
ghost use Rattle.vc_plan_reasons.specs.Things.{parents_of, slots_of_kind, slots_of_var};
ghost use Rattle.vc_plan_reasons.specs.Things.{vars_of_column, vars_of_kind, vars_of_sides};
ghost use Rattle.vc_net_readers.specs.Touched.{slots_told, touched_slots, touched_vars};

use std::alloc::{AllocError, Global};
use vc_plan::{Binding, Condition, Kind, Operand, Plan, Rule, Term, element};
use vc_value::Listed;

fn append_vars_in(term: &Term, vars: &mut Listed<u32>) -> Result<(), AllocError>
    ensures { OnOk result (vars.new ≡ vars.old ++ vars_in term.now) }
{
    match term {
        Term::Read(var) => vars.push(*var),
        Term::Applied(_, inner) => append_vars_in(inner, vars),
        Term::Joined(_, left, right) => {
            append_vars_in(left, vars)?;
            append_vars_in(right, vars)
        }
        _ => Ok(()),
    }
}

fn append_vars_read(condition: &Condition, vars: &mut Listed<u32>) -> Result<(), AllocError>
    ensures { OnOk result (vars.new ≡ vars.old ++ vars_read condition.now) }
{
    match condition {
        Condition::Compared(_, left, right) => {
            append_vars_in(left, vars)?;
            append_vars_in(right, vars)
        }
        Condition::IsIn(var, _) => vars.push(*var),
        Condition::Specified(var) => vars.push(*var),
        Condition::Not(inner) => append_vars_read(inner, vars),
        Condition::And(left, right) => {
            append_vars_read(left, vars)?;
            append_vars_read(right, vars)
        }
        Condition::Or(left, right) => {
            append_vars_read(left, vars)?;
            append_vars_read(right, vars)
        }
        _ => Ok(()),
    }
}

fn append_condition(plan: &Plan, condition: u32, vars: &mut Listed<u32>) -> Result<(), AllocError>
    ensures { OnOk result (vars.new ≡ vars.old ++ vars_of_condition (slice_get plan.now.conditions condition)) }
{
    match element(plan.conditions.as_slice(), condition) {
        Some(condition) => append_vars_read(condition, vars),
        None => Ok(()),
    }
}

fn append_term(plan: &Plan, term: u32, vars: &mut Listed<u32>) -> Result<(), AllocError>
    ensures { OnOk result (vars.new ≡ vars.old ++ vars_of_term (slice_get plan.now.terms term)) }
{
    match element(plan.terms.as_slice(), term) {
        Some(term) => append_vars_in(term, vars),
        None => Ok(()),
    }
}

fn append_sides(
    plan: &Plan,
    left: u32,
    right: u32,
    vars: &mut Listed<u32>,
) -> Result<(), AllocError>
    ensures { OnOk result (vars.new ≡ vars.old ++ vars_of_sides plan.now left right) }
{
    append_term(plan, left, vars)?;
    append_term(plan, right, vars)
}

fn append_column(column: &Binding, vars: &mut Listed<u32>) -> Result<(), AllocError>
    ensures { OnOk result (vars.new ≡ vars.old ++ vars_of_column column.now) }
{
    match column.operand {
        Operand::Constant(_) => Ok(()),
        Operand::Variable(var) => vars.push(var),
    }
}

fn append_columns(columns: &[Binding], vars: &mut Listed<u32>) -> Result<(), AllocError>
    ensures { OnOk result (vars.new ≡ vars.old ++ flat_map vars_of_column columns.now) }
{
    let mut rest = columns;
    while let [column, more @ ..] = rest {
        append_column(column, vars)?;
        rest = more;
    }
    Ok(())
}

fn append_kind(plan: &Plan, kind: &Kind, vars: &mut Listed<u32>) -> Result<(), AllocError>
    ensures { OnOk result (vars.new ≡ vars.old ++ vars_of_kind plan.now kind.now) }
{
    match kind {
        Kind::Among(var, _) => vars.push(*var),
        Kind::Compare {
            relation: _,
            left,
            right,
        } => append_sides(plan, *left, *right, vars),
        Kind::Equate { left, right } => append_sides(plan, *left, *right, vars),
        Kind::ByTable { table: _, columns } => append_columns(columns.as_slice(), vars),
        Kind::Never => Ok(()),
        Kind::Last(var) => vars.push(*var),
        Kind::Line(_) => Ok(()),
    }
}

/// The variables that the rule reads or writes, in the order in which they stand.
pub fn touched_vars(alloc: Global, plan: &Plan, rule: &Rule) -> Result<Listed<u32>, AllocError>
    ensures { IfOk result (λ vars. vars ≡ touched_vars plan.now rule.now) }
{
    let mut vars = Listed::new(alloc);
    append_condition(plan, rule.condition, &mut vars)?;
    append_kind(plan, &rule.kind, &mut vars)?;
    Ok(vars)
}

fn append_slot_of(plan: &Plan, var: u32, slots: &mut Listed<u32>) -> Result<(), AllocError>
    ensures { OnOk result (slots.new ≡ slots.old ++ slots_of_var plan.now var) }
{
    match element(plan.vars.as_slice(), var) {
        Some(var) => slots.push(var.slot),
        None => Ok(()),
    }
}

fn append_parent(plan: &Plan, slot: u32, slots: &mut Listed<u32>) -> Result<(), AllocError>
    ensures { OnOk result (slots.new ≡ slots.old ++ parents_of plan.now slot) }
{
    match element(plan.slots.as_slice(), slot) {
        Some(slot) => append_option(slot.parent, slots),
        None => Ok(()),
    }
}

fn append_option(slot: Option<u32>, slots: &mut Listed<u32>) -> Result<(), AllocError>
    ensures { OnOk result (slots.new ≡ slots.old ++ option_to_list slot) }
{
    match slot {
        Some(slot) => slots.push(slot),
        None => Ok(()),
    }
}

fn append_kind_slots(plan: &Plan, kind: &Kind, slots: &mut Listed<u32>) -> Result<(), AllocError>
    ensures { OnOk result (slots.new ≡ slots.old ++ slots_told plan.now kind.now) }
{
    match kind {
        Kind::Last(var) => append_slot_of(plan, *var, slots),
        Kind::Line(slot) => {
            append_parent(plan, *slot, slots)?;
            slots.push(*slot)
        }
        _ => Ok(()),
    }
}

/// Puts the numbers at the end.
pub fn append_all(numbers: &[u32], slots: &mut Listed<u32>) -> Result<(), AllocError>
    ensures { OnOk result (slots.new ≡ slots.old ++ numbers.now) }
{
    let mut rest = numbers;
    while let [number, more @ ..] = rest {
        slots.push(*number)?;
        rest = more;
    }
    Ok(())
}

/// The slots that the rule reads or writes, in the order in which they stand.
pub fn touched_slots(alloc: Global, plan: &Plan, rule: &Rule) -> Result<Listed<u32>, AllocError>
    ensures { IfOk result (λ slots. slots ≡ touched_slots plan.now rule.now) }
{
    let mut slots = Listed::new(alloc);
    append_all(rule.slots.as_slice(), &mut slots)?;
    append_kind_slots(plan, &rule.kind, &mut slots)?;
    Ok(slots)
}
