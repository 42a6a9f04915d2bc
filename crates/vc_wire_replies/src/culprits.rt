//! How a status is told, and whom a contradiction blames.

ghost use Rattle.std.specs.Prelude.{◌≡◌, ◌++◌, codes, OnOk, Some};
ghost use Rattle.std.specs.List.{flat_map};
ghost use Rattle.std.specs.Fmt.{decimal};
ghost use Rattle.vc_wire_replies.specs.Culprits as told;

use std::alloc::{AllocError, Global};
use vc_plan::{Culprit, Named, Plan, Rule, Status, element};
use vc_show::naming::slot_of_named;
use vc_show_rows::put_name;
use vc_value::Word;

/// Puts a number last.
pub fn put_decimal(alloc: Global, out: &mut Word, number: u64) -> Result<(), AllocError>
    ensures { OnOk result (out.new ≡ out.old ++ decimal number) }
{
    let digits = format!(in alloc; "{number}")?;
    out.append(digits.as_bytes())
}

fn put_dependency(out: &mut Word, plan: &Plan, dependency: u32) -> Result<(), AllocError>
    ensures { OnOk result (out.new ≡ out.old ++ told.dependency_name plan.now dependency) }
{
    match element(plan.dependencies.as_slice(), dependency) {
        Some(name) => out.append(name.bytes()),
        None => Ok(()),
    }
}

fn put_dependency_if(out: &mut Word, plan: &Plan, dependency: Option<u32>) -> Result<(), AllocError>
    ensures { OnOk result (out.new ≡ out.old ++ told.name_if plan.now dependency) }
{
    match dependency {
        Some(dependency) => put_dependency(out, plan, dependency),
        None => Ok(()),
    }
}

fn put_other(alloc: Global, out: &mut Word, slot: u32) -> Result<(), AllocError>
    ensures { OnOk result (out.new ≡ out.old ++ told.other_slot slot) }
{
    out.append_text(",")?;
    put_decimal(alloc, out, u64::from(slot))
}

fn put_others(alloc: Global, out: &mut Word, slots: &[u32]) -> Result<(), AllocError>
    ensures { OnOk result (out.new ≡ out.old ++ flat_map told.other_slot slots.now) }
{
    for slot in slots {
        put_other(alloc, out, *slot)?;
    }
    Ok(())
}

fn put_slots(alloc: Global, out: &mut Word, slots: &[u32]) -> Result<(), AllocError>
    ensures { OnOk result (out.new ≡ out.old ++ told.slots_text slots.now) }
{
    match slots {
        [first, more @ ..] => {
            put_decimal(alloc, out, u64::from(*first))?;
            put_others(alloc, out, more)
        }
        [] => Ok(()),
    }
}

fn put_rule_name(alloc: Global, out: &mut Word, plan: &Plan, rule: &Rule) -> Result<(), AllocError>
    ensures { OnOk result (out.new ≡ out.old ++ told.rule_name plan.now rule.now) }
{
    put_dependency_if(out, plan, rule.dependency)?;
    out.append_text(" ")?;
    put_decimal(alloc, out, u64::from(rule.number))?;
    put_at(alloc, out, rule.slots.as_slice())
}

/// Puts a constraint's restriction last, at the slots of its objects.
pub fn put_rule(alloc: Global, out: &mut Word, plan: &Plan, rule: &Rule) -> Result<(), AllocError>
    ensures { OnOk result (out.new ≡ out.old ++ told.rule_if plan.now (Some rule.now)) }
{
    out.append_text("constraint ")?;
    put_rule_name(alloc, out, plan, rule)
}

fn put_at(alloc: Global, out: &mut Word, slots: &[u32]) -> Result<(), AllocError>
    ensures { OnOk result (out.new ≡ out.old ++ (codes " at " ++ told.slots_text slots.now)) }
{
    out.append_text(" at ")?;
    put_slots(alloc, out, slots)
}

fn put_rule_at(alloc: Global, out: &mut Word, plan: &Plan, rule: u32) -> Result<(), AllocError>
    ensures { OnOk result (out.new ≡ out.old ++ told.rule_text plan.now rule) }
{
    match element(plan.rules.as_slice(), rule) {
        Some(rule) => put_rule(alloc, out, plan, rule),
        None => Ok(()),
    }
}

/// Puts a statement of a procedure last, at its slot.
pub fn put_statement(
    alloc: Global,
    out: &mut Word,
    plan: &Plan,
    procedure: u32,
    statement: u32,
) -> Result<(), AllocError>
    ensures { OnOk result (out.new ≡ out.old ++ told.statement_text plan.now procedure statement) }
{
    match element(plan.procedures.as_slice(), procedure) {
        Some(found) => {
            out.append_text("procedure ")?;
            put_dependency(out, plan, found.dependency)?;
            put_place(alloc, out, u64::from(statement) + 1, found.slot)
        }
        None => Ok(()),
    }
}

fn put_place(alloc: Global, out: &mut Word, number: u64, slot: u32) -> Result<(), AllocError>
    ensures { OnOk result (out.new ≡ out.old ++ told.place_text number slot) }
{
    out.append_text(" ")?;
    put_decimal(alloc, out, number)?;
    out.append_text(" at ")?;
    put_decimal(alloc, out, u64::from(slot))
}

fn put_slot_if(alloc: Global, out: &mut Word, slot: Option<u32>) -> Result<(), AllocError>
    ensures { OnOk result (out.new ≡ out.old ++ told.slot_if slot) }
{
    match slot {
        Some(slot) => put_decimal(alloc, out, u64::from(slot)),
        None => Ok(()),
    }
}

/// Puts a characteristic last, behind its slot.
pub fn put_named(alloc: Global, out: &mut Word, plan: &Plan, named: Named) -> Result<(), AllocError>
    ensures { OnOk result (out.new ≡ out.old ++ told.named_text plan.now named) }
{
    put_slot_if(alloc, out, slot_of_named(plan, named))?;
    out.append_text(" ")?;
    put_name(out, plan, named)
}

fn put_hidden(
    alloc: Global,
    out: &mut Word,
    plan: &Plan,
    dependency: u32,
    named: Named,
) -> Result<(), AllocError>
    ensures { OnOk result (out.new ≡ out.old ++ told.hidden_text plan.now dependency named) }
{
    out.append_text("precondition ")?;
    put_dependency(out, plan, dependency)?;
    out.append_text(" at ")?;
    put_named(alloc, out, plan, named)
}

/// Puts last whom a contradiction blames: a constraint's restriction and the slots of its objects, a statement of a
/// procedure and its slot, or a precondition and the characteristic at which it stands.
pub fn put_culprit(
    alloc: Global,
    out: &mut Word,
    plan: &Plan,
    culprit: Culprit,
) -> Result<(), AllocError>
    ensures { OnOk result (out.new ≡ out.old ++ told.culprit_text plan.now culprit) }
{
    match culprit {
        Culprit::Rule(rule) => put_rule_at(alloc, out, plan, rule),
        Culprit::Written { proc, statement } => put_statement(alloc, out, plan, proc, statement),
        Culprit::Hidden { dependency, var } => put_hidden(
            alloc,
            out,
            plan,
            dependency,
            Named::Var(var),
        ),
        Culprit::HiddenSet { dependency, set } => put_hidden(
            alloc,
            out,
            plan,
            dependency,
            Named::Set(set),
        ),
    }
}

fn put_contradiction(
    alloc: Global,
    out: &mut Word,
    plan: &Plan,
    culprit: Culprit,
) -> Result<(), AllocError>
    ensures { OnOk result (out.new ≡ out.old ++ (codes "contradiction " ++ told.culprit_text plan.now culprit)) }
{
    out.append_text("contradiction ")?;
    put_culprit(alloc, out, plan, culprit)
}

/// Puts last how a configuration stands.
pub fn put_status(
    alloc: Global,
    out: &mut Word,
    plan: &Plan,
    status: Status,
) -> Result<(), AllocError>
    ensures { OnOk result (out.new ≡ out.old ++ told.status_text plan.now status) }
{
    match status {
        Status::Unfinished => out.append_text("open"),
        Status::Complete => out.append_text("complete"),
        Status::Contradiction(culprit) => put_contradiction(alloc, out, plan, culprit),
    }
}
