//! Writing chains of reasons: what each step concludes, by whom, and from which steps.

ghost use Rattle.std.specs.Prelude.{◌≡◌, ◌++◌, codes, slice_get, IfOk, OnOk, Some};
ghost use Rattle.std.specs.List.{flat_map, list_any};
ghost use Rattle.std.specs.Fmt.{decimal};
ghost use Rattle.vc_plan.specs.declared.atoms.Atom.TheVariants.{Is, Out};
ghost use Rattle.vc_wire_replies.specs.Chains as told;

use crate::culprits::{put_culprit, put_decimal, put_named, put_rule, put_statement};
use std::alloc::{AllocError, Global};
use vc_plan::{Atom, Clash, Culprit, Kind, Named, Origin, Plan, Rule, Step, element};
use vc_plan_values::piece;
use vc_show_rows::put_value;
use vc_show_rows::texts::put_piece;
use vc_value::{Value, Word};

fn put_grain(
    alloc: Global,
    out: &mut Word,
    plan: &Plan,
    var: u32,
    grain: u32,
) -> Result<(), AllocError>
    ensures { OnOk result (out.new ≡ out.old ++ told.grain_text plan.now var grain) }
{
    match piece(plan, var, grain) {
        Some(piece) => put_piece(alloc, out, plan, piece),
        None => Ok(()),
    }
}

fn put_here(alloc: Global, out: &mut Word, slot: u32) -> Result<(), AllocError>
    ensures { OnOk result (out.new ≡ out.old ++ (codes "here " ++ decimal slot)) }
{
    out.append_text("here ")?;
    put_decimal(alloc, out, u64::from(slot))
}

fn put_out(
    alloc: Global,
    out: &mut Word,
    plan: &Plan,
    var: u32,
    grain: u32,
) -> Result<(), AllocError>
    ensures { OnOk result (out.new ≡ out.old ++ told.atom_text plan.now (Out var grain)) }
{
    out.append_text("out ")?;
    put_named(alloc, out, plan, Named::Var(var))?;
    out.append_text(" ")?;
    put_grain(alloc, out, plan, var, grain)
}

fn put_is(
    alloc: Global,
    out: &mut Word,
    plan: &Plan,
    var: u32,
    value: Value,
) -> Result<(), AllocError>
    ensures { OnOk result (out.new ≡ out.old ++ told.atom_text plan.now (Is var value)) }
{
    out.append_text("is ")?;
    put_named(alloc, out, plan, Named::Var(var))?;
    out.append_text(" ")?;
    put_value(alloc, out, plan, value)
}

fn put_atom(alloc: Global, out: &mut Word, plan: &Plan, atom: Atom) -> Result<(), AllocError>
    ensures { OnOk result (out.new ≡ out.old ++ told.atom_text plan.now atom) }
{
    match atom {
        Atom::Here(slot) => put_here(alloc, out, slot),
        Atom::Out(var, grain) => put_out(alloc, out, plan, var, grain),
        Atom::Is(var, value) => put_is(alloc, out, plan, var, value),
    }
}

// The selection condition of a line.
fn put_line(alloc: Global, out: &mut Word, number: u32) -> Result<(), AllocError>
    ensures { OnOk result (out.new ≡ out.old ++ (codes "line " ++ decimal number)) }
{
    out.append_text("line ")?;
    put_decimal(alloc, out, u64::from(number))
}

fn put_by_kind(alloc: Global, out: &mut Word, plan: &Plan, rule: &Rule) -> Result<(), AllocError>
    ensures { OnOk result (out.new ≡ out.old ++ told.giver_if plan.now (Some rule.now)) }
{
    match rule.kind {
        Kind::Last(_) => out.append_text("last"),
        Kind::Line(_) => put_line(alloc, out, rule.number),
        _ => put_rule(alloc, out, plan, rule),
    }
}

fn put_giver(alloc: Global, out: &mut Word, plan: &Plan, rule: u32) -> Result<(), AllocError>
    ensures { OnOk result (out.new ≡ out.old ++ told.giver_if plan.now (slice_get plan.now.rules rule)) }
{
    match element(plan.rules.as_slice(), rule) {
        Some(rule) => put_by_kind(alloc, out, plan, rule),
        None => Ok(()),
    }
}

fn put_origin(alloc: Global, out: &mut Word, plan: &Plan, origin: Origin) -> Result<(), AllocError>
    ensures { OnOk result (out.new ≡ out.old ++ told.origin_text plan.now origin) }
{
    match origin {
        Origin::Rule(rule) => put_giver(alloc, out, plan, rule),
        Origin::User => out.append_text("user"),
        Origin::Written { proc, statement } => put_statement(alloc, out, plan, proc, statement),
    }
}

fn put_premise(alloc: Global, out: &mut Word, premise: u32) -> Result<(), AllocError>
    ensures { OnOk result (out.new ≡ out.old ++ told.premise_text premise) }
{
    if premise == 0 {
        return Ok(());
    }
    out.append_text(" ")?;
    put_decimal(alloc, out, u64::from(premise))
}

fn put_premises(alloc: Global, out: &mut Word, premises: &[u32]) -> Result<(), AllocError>
    ensures { OnOk result (out.new ≡ out.old ++ flat_map told.premise_text premises.now) }
{
    for premise in premises {
        put_premise(alloc, out, *premise)?;
    }
    Ok(())
}

fn cites_steps(premises: &[u32]) -> bool
    ensures { result ≡ list_any told.is_step premises.now }
{
    premises.iter().any(|premise| *premise != 0)
}

fn put_from(alloc: Global, out: &mut Word, premises: &[u32]) -> Result<(), AllocError>
    ensures { OnOk result (out.new ≡ out.old ++ told.from_text premises.now) }
{
    if cites_steps(premises) {
        out.append_text(" from")?;
        put_premises(alloc, out, premises)?;
    }
    Ok(())
}

fn put_end_of_line(alloc: Global, out: &mut Word, premises: &[u32]) -> Result<(), AllocError>
    ensures { OnOk result (out.new ≡ out.old ++ told.end_of_line premises.now) }
{
    put_from(alloc, out, premises)?;
    out.append_text("\n")
}

fn put_reason(alloc: Global, out: &mut Word, plan: &Plan, step: &Step) -> Result<(), AllocError>
    ensures { OnOk result (out.new ≡ out.old ++ told.reason_text plan.now step.now.origin step.now.premises) }
{
    out.append_text(" by ")?;
    put_origin(alloc, out, plan, step.origin)?;
    put_end_of_line(alloc, out, step.premises.as_slice())
}

fn put_step(
    alloc: Global,
    out: &mut Word,
    plan: &Plan,
    number: u64,
    step: &Step,
) -> Result<(), AllocError>
    ensures { OnOk result (out.new ≡ out.old ++ told.step_line plan.now number step.now) }
{
    put_decimal(alloc, out, number)?;
    out.append_text(" ")?;
    put_atom(alloc, out, plan, step.conclusion)?;
    put_reason(alloc, out, plan, step)
}

// The steps, numbered from 1.
fn put_steps(alloc: Global, out: &mut Word, plan: &Plan, steps: &[Step]) -> Result<(), AllocError>
    ensures { OnOk result (out.new ≡ out.old ++ told.steps_from plan.now 1 steps.now) }
{
    for (place, step) in steps.iter().enumerate() {
        put_step(alloc, out, plan, place as u64 + 1, step)?;
    }
    Ok(())
}

fn put_clash(alloc: Global, out: &mut Word, plan: &Plan, clash: &Clash) -> Result<(), AllocError>
    ensures { OnOk result (out.new ≡ out.old ++ told.clash_line plan.now clash.now) }
{
    out.append_text("clash by ")?;
    put_culprit(alloc, out, plan, clash.culprit)?;
    put_end_of_line(alloc, out, clash.premises.as_slice())
}

/// The lines of a chain that leads to its last step.
pub fn chain(alloc: Global, plan: &Plan, steps: &[Step]) -> Result<Word, AllocError>
    ensures { IfOk result (λ text. text ≡ told.chain_text plan.now steps.now) }
{
    let mut out = Word::new(alloc);
    out.append_text("chain\n")?;
    put_steps(alloc, &mut out, plan, steps)?;
    out.append_text("end\n")?;
    Ok(out)
}

/// The lines of the steps to all that follows.
pub fn whole(alloc: Global, plan: &Plan, steps: &[Step]) -> Result<Word, AllocError>
    ensures { IfOk result (λ text. text ≡ told.whole_text plan.now steps.now) }
{
    let mut out = Word::new(alloc);
    out.append_text("whole\n")?;
    put_steps(alloc, &mut out, plan, steps)?;
    out.append_text("end\n")?;
    Ok(out)
}

/// The lines of a chain that leads to a clash.
pub fn clashed(alloc: Global, plan: &Plan, clash: &Clash) -> Result<Word, AllocError>
    ensures { IfOk result (λ text. text ≡ told.clash_text plan.now clash.now) }
{
    let mut out = Word::new(alloc);
    out.append_text("chain\n")?;
    put_steps(alloc, &mut out, plan, clash.steps.as_slice())?;
    put_clash(alloc, &mut out, plan, clash)?;
    out.append_text("end\n")?;
    Ok(out)
}

/// The line of whom a contradiction blames that no steps lead to.
pub fn culprit_line(alloc: Global, plan: &Plan, culprit: Culprit) -> Result<Word, AllocError>
    ensures { IfOk result (λ text. text ≡ told.culprit_line plan.now culprit) }
{
    let mut out = Word::new(alloc);
    put_culprit(alloc, &mut out, plan, culprit)?;
    out.append_text("\n")?;
    Ok(out)
}
