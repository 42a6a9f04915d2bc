//! What the steps of a chain tell of its sources.

ghost use Rattle.std.specs.Prelude.{◌≡◌, ◌≤◌, ◌+◌, [], ◌∷◌, length, slice_get, IfOk, IfSome};
ghost use Rattle.vc_check.specs.Citing.{CanCheck};
ghost use Rattle.vc_plan.specs.Clear.{is_clear};
ghost use Rattle.vc_plan.specs.LookUps.{action_writes};
ghost use Rattle.vc_check_chains.specs.Telling as told;
ghost use Rattle.vc_check_chains.specs.Places.{HasPlaces};

use std::alloc::{AllocError, Global};
use vc_check::citing::cite;
use vc_check_board::{Board, is_clear};
use vc_plan::{Action, Atom, Culprit, FilledColumn, Mark, Origin, Plan, Procedure, Step, element};
use vc_plan_sources::Sources;
use vc_value::{Listed, Value};

#[tactic(auto, using(crate::proofs::TellingLemmas::places_user))]
fn tell_value(plan: &Plan, sources: &mut Sources, var: u32, value: Value)
    requires { HasPlaces plan.now sources.old }
    ensures told { sources.new ≡ told.with_value plan.now sources.old var value }
    ensures places { HasPlaces plan.now sources.new }
{
    if (var as usize) < plan.vars.len() && sources.user(var).is_none() {
        sources.set_user(var, Some(value));
    }
}

#[tactic(auto, using(crate::proofs::TellingLemmas::places_written))]
fn tell_written(
    plan: &Plan,
    sources: &mut Sources,
    var: u32,
    value: Value,
    procedure: u32,
    statement: u32,
)
    requires { HasPlaces plan.now sources.old }
    ensures told { sources.new ≡ told.with_written plan.now sources.old var value procedure statement }
    ensures places { HasPlaces plan.now sources.new }
{
    if (var as usize) < plan.vars.len() && sources.written(var).is_none() {
        sources.set_written(var, Some((Mark::Held(value), procedure, statement)));
    }
}

fn tell(plan: &Plan, sources: &mut Sources, origin: Origin, conclusion: Atom)
    requires { HasPlaces plan.now sources.old }
    ensures told { sources.new ≡ told.told_by plan.now sources.old origin conclusion }
    ensures places { HasPlaces plan.now sources.new }
{
    match (origin, conclusion) {
        (Origin::User, Atom::Is(var, value)) => {
            tell_value(plan, sources, var, value);
        }
        (Origin::Written { proc, statement }, Atom::Is(var, value)) => {
            tell_written(plan, sources, var, value, proc, statement);
        }
        _ => {}
    }
}

fn tell_all(plan: &Plan, sources: &mut Sources, steps: &[Step])
    requires { HasPlaces plan.now sources.old }
    ensures told { sources.new ≡ told.with_steps plan.now sources.old steps.now }
    ensures places { HasPlaces plan.now sources.new }
{
    let mut rest = steps;
    while let [step, more @ ..] = rest {
        tell(plan, sources, step.origin, step.conclusion);
        rest = more;
    }
}

/// What the steps tell, on sources of their own.
#[tactic(auto, using(crate::proofs::TellingLemmas::places_new))]
pub fn sources_told(alloc: Global, plan: &Plan, steps: &[Step]) -> Result<Sources, AllocError>
    ensures told { IfOk result (λ sources. sources ≡ told.sources_told plan.now steps.now) }
    ensures places { IfOk result (λ sources. HasPlaces plan.now sources) }
{
    let mut sources = Sources::new(alloc, plan)?;
    tell_all(plan, &mut sources, steps);
    Ok(sources)
}

fn is_again(sources: &Sources, origin: Origin, conclusion: Atom) -> bool
    ensures { result ≡ told.is_again sources.now origin conclusion }
{
    match (origin, conclusion) {
        (Origin::User, Atom::Is(var, _)) => sources.user(var).is_some(),
        (Origin::Written { .. }, Atom::Is(var, _)) => sources.written(var).is_some(),
        _ => false,
    }
}

fn first_again_from(plan: &Plan, sources: &mut Sources, steps: &[Step]) -> Option<u64>
    requires { HasPlaces plan.now sources.old }
    ensures { result ≡ told.first_again_from plan.now sources.old 1 steps.now }
{
    let mut number = 1;
    let mut rest = steps;
    while let [step, more @ ..] = rest {
        if is_again(sources, step.origin, step.conclusion) {
            return Some(number);
        }
        tell(plan, sources, step.origin, step.conclusion);
        number += 1;
        rest = more;
    }
    None
}

/// The number of the first step that tells of a variable what steps before it told.
#[tactic(auto, using(crate::proofs::TellingLemmas::places_new))]
pub fn first_again(alloc: Global, plan: &Plan, steps: &[Step]) -> Result<Option<u64>, AllocError>
    ensures { IfOk result (λ number. number ≡ told.first_again plan.now steps.now) }
{
    let mut sources = Sources::new(alloc, plan)?;
    let number = first_again_from(plan, &mut sources, steps);
    drop(sources);
    Ok(number)
}

fn first_filled(filled: &[FilledColumn]) -> Option<u32>
    ensures { result ≡ told.first_filled filled.now }
{
    match filled {
        [column, ..] => Some(column.var),
        [] => None,
    }
}

#[tactic(auto, using(crate::proofs::TellingLemmas::first_column))]
fn first_entered(action: &Action) -> Option<u32>
    ensures { result ≡ told.first_of (action_writes action.now) }
{
    match action {
        Action::Assign { var, .. } | Action::SetDefault { var, .. } => Some(*var),
        Action::DeleteDefault { .. } => None,
        Action::LookUp { filled, .. } => first_filled(filled.as_slice()),
    }
}

fn first_by(procedure: &Procedure, statement: u32) -> Option<u32>
    ensures { result ≡ told.first_in (slice_get procedure.now.statements statement) }
{
    match element(procedure.statements.as_slice(), statement) {
        Some(statement) => first_entered(&statement.action),
        None => None,
    }
}

fn first_written(plan: &Plan, procedure: u32, statement: u32) -> Option<u32>
    ensures { result ≡ told.first_written plan.now procedure statement }
{
    match element(plan.procedures.as_slice(), procedure) {
        Some(procedure) => first_by(procedure, statement),
        None => None,
    }
}

fn tell_outside_at(
    plan: &Plan,
    sources: &mut Sources,
    procedure: u32,
    statement: u32,
    var: Option<u32>,
)
    requires { HasPlaces plan.now sources.old }
    ensures { sources.new ≡ told.with_outside_at plan.now sources.old procedure statement var }
{
    match var {
        Some(var) if (var as usize) < plan.vars.len() => {
            sources.set_written(var, Some((Mark::Outside, procedure, statement)));
        }
        _ => {}
    }
}

fn tell_outside(plan: &Plan, sources: &mut Sources, culprit: Culprit)
    requires { HasPlaces plan.now sources.old }
    ensures { sources.new ≡ told.with_outside plan.now sources.old culprit }
{
    match culprit {
        Culprit::Written { proc, statement } => {
            let var = first_written(plan, proc, statement);
            tell_outside_at(plan, sources, proc, statement, var);
        }
        _ => {}
    }
}

fn is_clear_set(alloc: Global, plan: &Plan, set: &[Atom]) -> Result<bool, AllocError>
    requires { CanCheck plan.now }
    ensures { IfOk result (λ r. r ≡ is_clear plan.now set.now) }
{
    let mut board = Board::new(alloc);
    board.show(set)?;
    let r = is_clear(plan, &board, set);
    drop(board);
    Ok(r)
}

#[tactic(auto, using(crate::proofs::TellingLemmas::clear_missing))]
fn cites_clear(
    alloc: Global,
    plan: &Plan,
    steps: &[Step],
    numbers: &[u32],
) -> Result<bool, AllocError>
    requires { CanCheck plan.now }
    ensures { IfOk result (λ r. r ≡ told.cites_clear plan.now steps.now numbers.now) }
{
    let mut set = Listed::new(alloc);
    set.push(Atom::Here(0))?;
    if !cite(steps, numbers, &mut set)? {
        return Ok(false);
    }
    let r = is_clear_set(alloc, plan, set.as_slice())?;
    drop(set);
    Ok(r)
}

/// The sources of steps that lead to a clash: where its premises are clear, with what its statement wrote.
pub fn sources_to(
    alloc: Global,
    plan: &Plan,
    steps: &[Step],
    culprit: Culprit,
    numbers: &[u32],
) -> Result<Sources, AllocError>
    requires { CanCheck plan.now }
    ensures { IfOk result (λ sources. sources ≡ told.sources_to plan.now steps.now culprit numbers.now) }
{
    let clear = cites_clear(alloc, plan, steps, numbers)?;
    let mut sources = sources_told(alloc, plan, steps)?;
    if clear {
        tell_outside(plan, &mut sources, culprit);
    }
    Ok(sources)
}
