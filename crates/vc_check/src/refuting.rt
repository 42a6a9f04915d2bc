//! Which clashes refute the sources.

ghost use Rattle.std.specs.Prelude.{◌≡◌, ◌&&◌, [], ◌∷◌, ◌++◌, drop, true, length, slice_get, IfOk, OnOk};
ghost use Rattle.std.specs.List.{list_all, list_any};
ghost use Rattle.vc_base.specs.Chains.{all_pass, cited};
ghost use Rattle.vc_plan.specs.Clear.{is_clear};
ghost use Rattle.vc_plan.specs.Domains.{numbers_below};
ghost use Rattle.vc_plan.specs.Seen.{seen_of};
ghost use Rattle.vc_plan.specs.Valid.{IsValid};
ghost use Rattle.vc_plan_reasons.specs.Checking.{are_of, concluded, set_with};
ghost use Rattle.vc_plan_reasons.specs.Refuting.{contradicts, culprit_clashes, culprit_reads, entry_clashes};
ghost use Rattle.vc_plan_reasons.specs.Refuting.{is_blamable, is_of_constraint, is_origin, is_restriction, refutes};
ghost use Rattle.vc_plan_reasons.specs.Refuting.{set_without, slots_of_procedure};
ghost use Rattle.vc_plan_reasons.specs.Things.{has_thing, slot_at, thing_of};
ghost use Rattle.vc_check_board.specs.Boards.{seen_by};
ghost use Rattle.vc_check.specs.Citing.{CanCheck};
ghost use Rattle.vc_check.specs.Clashing.{blames, contradicts_at, is_blamed_by, is_needed};

use crate::accepting::refused;
use crate::citing::cite;
use crate::following::{clashes_at, reads_all};
use std::alloc::{AllocError, Global};
use vc_check_board::values::same_atom;
use vc_check_board::{Board, is_clear};
use vc_check_givers::Giver;
use vc_check_givers::givers::is_by;
use vc_plan::{Atom, Clash, Culprit, Kind, Origin, Plan, Step, element};
use vc_plan_sources::Sources;
use vc_value::Listed;

fn is_restriction(kind: &Kind) -> bool
    ensures { result ≡ is_restriction kind.now }
{
    match kind {
        Kind::Last(_) => false,
        Kind::Line(_) => false,
        _ => true,
    }
}

fn is_of_constraint(plan: &Plan, rule: u32) -> bool
    ensures { result ≡ is_of_constraint (slice_get plan.now.rules rule) }
{
    match element(plan.rules.as_slice(), rule) {
        Some(rule) => is_restriction(&rule.kind),
        None => false,
    }
}

fn is_blamable(plan: &Plan, culprit: Culprit) -> bool
    ensures { result ≡ is_blamable plan.now culprit }
{
    match culprit {
        Culprit::Rule(rule) => is_of_constraint(plan, rule),
        Culprit::Written { .. } => true,
        Culprit::Hidden { .. } => false,
        Culprit::HiddenSet { .. } => false,
    }
}

// Whether each of the premises is that this slot is here.
fn are_at(slot: u32, premises: &[Atom]) -> bool
    ensures { result ≡ are_of (slot_at slot ∷ []) premises.now }
{
    let mut rest = premises;
    while let [atom, more @ ..] = rest {
        if !is_at(slot, *atom) {
            return false;
        }
        rest = more;
    }
    true
}

#[tactic(auto, using(crate::proofs::ClashLemmas::one_thing))]
fn is_at(slot: u32, atom: Atom) -> bool
    ensures { result ≡ has_thing (slot_at slot ∷ []) (thing_of atom) }
{
    match atom {
        Atom::Here(other) => other == slot,
        _ => false,
    }
}

fn is_none(premises: &[Atom]) -> bool
    ensures { result ≡ are_of [] premises.now }
{
    match premises {
        [_, ..] => false,
        _ => true,
    }
}

fn procedure_reads(plan: &Plan, procedure: u32, premises: &[Atom]) -> bool
    ensures { result ≡ are_of (slots_of_procedure (slice_get plan.now.procedures procedure)) premises.now }
{
    match element(plan.procedures.as_slice(), procedure) {
        Some(procedure) => are_at(procedure.slot, premises),
        None => is_none(premises),
    }
}

fn culprit_reads(plan: &Plan, culprit: Culprit, premises: &[Atom]) -> bool
    ensures { result ≡ are_of (culprit_reads plan.now culprit) premises.now }
{
    match culprit {
        Culprit::Rule(rule) => reads_all(plan, Giver::Rule(rule), premises),
        Culprit::Written { proc, statement: _ } => procedure_reads(plan, proc, premises),
        Culprit::Hidden { .. } => is_none(premises),
        Culprit::HiddenSet { .. } => is_none(premises),
    }
}

fn entry_clashes(
    plan: &Plan,
    sources: &Sources,
    board: &Board,
    by: (u32, u32),
    set: &[Atom],
    var: u32,
) -> bool
    requires can { CanCheck plan.now }
    requires shown { seen_by board.now ≡ seen_of set.now }
    requires clear { is_clear plan.now set.now ≡ true }
    ensures { result ≡ entry_clashes plan.now sources.now by.0 by.1 set.now var }
{
    is_by(by.0, by.1, sources.written(var))
        && clashes_at(plan, sources, board, Giver::Entry(var), set)
}

#[tactic(auto, using(vc_base::proofs::RangeLaws::seeking))]
fn some_entry_clashes(
    plan: &Plan,
    sources: &Sources,
    board: &Board,
    by: (u32, u32),
    set: &[Atom],
) -> bool
    requires can { CanCheck plan.now }
    requires shown { seen_by board.now ≡ seen_of set.now }
    requires clear { is_clear plan.now set.now ≡ true }
    ensures { result ≡ list_any (entry_clashes plan.now sources.now by.0 by.1 set.now)
        (numbers_below (length plan.now.vars)) }
{
    let count = plan.vars.len() as u32;
    let mut var = 0;
    while var < count {
        if entry_clashes(plan, sources, board, by, set, var) {
            return true;
        }
        var += 1;
    }
    false
}

fn culprit_clashes(
    plan: &Plan,
    sources: &Sources,
    board: &Board,
    culprit: Culprit,
    set: &[Atom],
) -> bool
    requires can { CanCheck plan.now }
    requires shown { seen_by board.now ≡ seen_of set.now }
    requires clear { is_clear plan.now set.now ≡ true }
    ensures { result ≡ culprit_clashes plan.now sources.now culprit set.now }
{
    match culprit {
        Culprit::Rule(rule) => clashes_at(plan, sources, board, Giver::Rule(rule), set),
        Culprit::Written { proc, statement } => {
            some_entry_clashes(plan, sources, board, (proc, statement), set)
        }
        Culprit::Hidden { .. } => false,
        Culprit::HiddenSet { .. } => false,
    }
}

// First: the culprit reads what the premises are of, and clashes at them.
fn clashes_there(
    plan: &Plan,
    sources: &Sources,
    board: &Board,
    culprit: Culprit,
    set: &[Atom],
    premises: &[Atom],
) -> bool
    requires can { CanCheck plan.now }
    requires shown { seen_by board.now ≡ seen_of set.now }
    requires clear { is_clear plan.now set.now ≡ true }
    ensures { result ≡ are_of (culprit_reads plan.now culprit) premises.now
        && culprit_clashes plan.now sources.now culprit set.now }
{
    culprit_reads(plan, culprit, premises) && culprit_clashes(plan, sources, board, culprit, set)
}

fn put_if_other(atom: Atom, other: Atom, out: &mut Listed<Atom>) -> Result<(), AllocError>
    ensures { OnOk result (out.new ≡ out.old ++ set_without atom (other ∷ [])) }
{
    if !same_atom(atom, other) {
        out.push(other)?;
    }
    Ok(())
}

#[tactic(auto, using(crate::proofs::ClashLemmas::without_next))]
fn put_others(set: &[Atom], atom: Atom, out: &mut Listed<Atom>) -> Result<(), AllocError>
    ensures { OnOk result (out.new ≡ out.old ++ set_without atom set.now) }
{
    let mut rest = set;
    while let [other, more @ ..] = rest {
        put_if_other(atom, *other, out)?;
        rest = more;
    }
    Ok(())
}

fn clears(plan: &Plan, board: &mut Board, set: &[Atom]) -> Result<bool, AllocError>
    requires can { CanCheck plan.now }
    ensures { IfOk result (λ r. r ≡ is_clear plan.now set.now) }
{
    board.show(set)?;
    Ok(is_clear(plan, board, set))
}

// Whether the set is clear without the atom.
fn is_needed(
    alloc: Global,
    plan: &Plan,
    board: &mut Board,
    set: &[Atom],
    atom: Atom,
) -> Result<bool, AllocError>
    requires can { CanCheck plan.now }
    ensures { IfOk result (λ r. r ≡ is_needed plan.now set.now atom) }
{
    let mut others = Listed::new(alloc);
    put_others(set, atom, &mut others)?;
    let r = clears(plan, board, others.as_slice())?;
    drop(others);
    Ok(r)
}

fn are_needed(
    alloc: Global,
    plan: &Plan,
    board: &mut Board,
    set: &[Atom],
    premises: &[Atom],
) -> Result<bool, AllocError>
    requires can { CanCheck plan.now }
    ensures { IfOk result (λ r. r ≡ list_all (is_needed plan.now set.now) premises.now) }
{
    let mut rest = premises;
    while let [atom, more @ ..] = rest {
        if !is_needed(alloc, plan, board, set, *atom)? {
            return Ok(false);
        }
        rest = more;
    }
    Ok(true)
}

fn is_origin(culprit: Culprit, origin: Origin) -> bool
    ensures { result ≡ is_origin culprit origin }
{
    match (culprit, origin) {
        (Culprit::Rule(rule), Origin::Rule(other)) => rule == other,
        (
            Culprit::Written { proc, statement },
            Origin::Written {
                proc: other,
                statement: at,
            },
        ) => proc == other && statement == at,
        _ => false,
    }
}

fn is_blamed_at(steps: &[Step], culprit: Culprit, place: usize) -> bool
    ensures { result ≡ is_blamed_by culprit (slice_get steps.now place) }
{
    match steps.get(place) {
        Some(step) => is_origin(culprit, step.origin),
        None => false,
    }
}

#[tactic(auto, using(crate::proofs::ClashLemmas::blaming))]
fn blames(steps: &[Step], culprit: Culprit, number: u32) -> bool
    ensures { result ≡ blames steps.now culprit number }
{
    if number == 0 {
        false
    } else {
        is_blamed_at(steps, culprit, number as usize - 1)
    }
}

fn some_blame(steps: &[Step], culprit: Culprit, numbers: &[u32]) -> bool
    ensures { result ≡ list_any (blames steps.now culprit) numbers.now }
{
    let mut rest = numbers;
    while let [number, more @ ..] = rest {
        if blames(steps, culprit, *number) {
            return true;
        }
        rest = more;
    }
    false
}

// Second: each of the premises is needed that they aren't clear, and the culprit gave one of them.
fn collides(
    alloc: Global,
    plan: &Plan,
    board: &mut Board,
    clash: &Clash,
    set: &[Atom],
    premises: &[Atom],
) -> Result<bool, AllocError>
    requires can { CanCheck plan.now }
    ensures { IfOk result (λ r. r ≡ list_all (is_needed plan.now set.now) premises.now
        && list_any (blames clash.now.steps clash.now.culprit) clash.now.premises) }
{
    if !are_needed(alloc, plan, board, set, premises)? {
        return Ok(false);
    }
    Ok(some_blame(
        clash.steps.as_slice(),
        clash.culprit,
        clash.premises.as_slice(),
    ))
}

// Whether one of both holds of what the clash cites.
fn contradicts(
    alloc: Global,
    plan: &Plan,
    sources: &Sources,
    clash: &Clash,
    set: &[Atom],
    premises: &[Atom],
) -> Result<bool, AllocError>
    requires can { CanCheck plan.now }
    ensures { IfOk result (λ r. r ≡ contradicts_at plan.now sources.now clash.now set.now premises.now) }
{
    let mut board = Board::new(alloc);
    board.show(set)?;
    if is_clear(plan, &board, set) {
        let r = clashes_there(plan, sources, &board, clash.culprit, set, premises);
        return Ok(r);
    }
    let r = collides(alloc, plan, &mut board, clash, set, premises)?;
    Ok(r)
}

// The same, where the first of the set is what stands from the start.
fn contradicts_from_set(
    alloc: Global,
    plan: &Plan,
    sources: &Sources,
    clash: &Clash,
    set: &[Atom],
) -> Result<bool, AllocError>
    requires can { CanCheck plan.now }
    requires set { set.now ≡ set_with (drop 1 set.now) }
    ensures { IfOk result (λ r. r ≡ contradicts_at plan.now sources.now clash.now set.now (drop 1 set.now)) }
{
    let r = contradicts(alloc, plan, sources, clash, set, &set[1..])?;
    Ok(r)
}

fn cited_contradicts(
    alloc: Global,
    plan: &Plan,
    sources: &Sources,
    clash: &Clash,
) -> Result<bool, AllocError>
    requires can { CanCheck plan.now }
    ensures { IfOk result (λ r. r ≡ all_pass (contradicts plan.now sources.now clash.now)
        (cited (concluded clash.now.steps) clash.now.premises)) }
{
    let mut set = Listed::new(alloc);
    set.push(Atom::Here(0))?;
    if !cite(clash.steps.as_slice(), clash.premises.as_slice(), &mut set)? {
        return Ok(false);
    }
    let r = contradicts_from_set(alloc, plan, sources, clash, set.as_slice())?;
    drop(set);
    Ok(r)
}

/// Whether the clash shows that the sources contradict each other, and that its culprit is to blame.
#[tactic(auto, using(crate::proofs::FollowingLemmas::can_check, crate::proofs::ClashLemmas::refuting))]
pub fn refutes(
    alloc: Global,
    plan: &Plan,
    sources: &Sources,
    clash: &Clash,
) -> Result<bool, AllocError>
    requires { IsValid plan.now }
    ensures { IfOk result (λ r. r ≡ refutes plan.now sources.now clash.now) }
{
    if !is_blamable(plan, clash.culprit) {
        return Ok(false);
    }
    if refused(alloc, plan, sources, clash.steps.as_slice())?.is_some() {
        return Ok(false);
    }
    let r = cited_contradicts(alloc, plan, sources, clash)?;
    Ok(r)
}
