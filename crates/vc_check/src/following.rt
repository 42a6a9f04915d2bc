//! Whether a step follows from what it cites.

ghost use Rattle.std.specs.Prelude.{◌≡◌, ◌&&◌, drop, true, IfOk};
ghost use Rattle.vc_base.specs.Chains.{is_justified};
ghost use Rattle.vc_base.specs.Rounds.{atoms_of, is_clash};
ghost use Rattle.vc_base.specs.Sets.{has};
ghost use Rattle.vc_plan.specs.Clear.{is_clear};
ghost use Rattle.vc_plan.specs.Gives.{gives};
ghost use Rattle.vc_plan.specs.Seen.{same_atom, seen_of};
ghost use Rattle.vc_plan_reasons.specs.Checking.{are_of, concluded, follows, set_with, step_form};
ghost use Rattle.vc_plan_reasons.specs.Things.{giver_reads};
ghost use Rattle.vc_check_board.specs.Boards.{seen_by};
ghost use Rattle.vc_check_givers.specs.Givers.{giver_meant};
ghost use Rattle.vc_check.specs.Citing.{CanCheck, follows_by};

use crate::citing::cite;
use std::alloc::{AllocError, Global};
use vc_check_board::{Board, is_clear};
use vc_check_givers::{Giver, clashes, giver_of, gives, reads};
use vc_plan::{Atom, Plan, Step};
use vc_plan_sources::Sources;
use vc_value::Listed;

/// Whether the giver reads what each of the premises is of.
pub fn reads_all(plan: &Plan, giver: Giver, premises: &[Atom]) -> bool
    ensures { result ≡ are_of (giver_reads plan.now (giver_meant giver)) premises.now }
{
    let mut rest = premises;
    while let [atom, more @ ..] = rest {
        if !reads(plan, giver, *atom) {
            return false;
        }
        rest = more;
    }
    true
}

// Whether the giver gives the atom at the set, which is clear and on the board.
fn gives_at(
    plan: &Plan,
    sources: &Sources,
    board: &Board,
    giver: Giver,
    set: &[Atom],
    atom: Atom,
) -> bool
    requires can { CanCheck plan.now }
    requires shown { seen_by board.now ≡ seen_of set.now }
    requires clear { is_clear plan.now set.now ≡ true }
    ensures { result ≡ has same_atom
        (atoms_of (gives plan.now sources.now (giver_meant giver) (seen_of set.now))) atom }
{
    gives(plan, sources, board, giver, atom)
}

/// Whether the giver clashes at the set, which is clear and on the board.
pub fn clashes_at(plan: &Plan, sources: &Sources, board: &Board, giver: Giver, set: &[Atom]) -> bool
    requires can { CanCheck plan.now }
    requires shown { seen_by board.now ≡ seen_of set.now }
    requires clear { is_clear plan.now set.now ≡ true }
    ensures { result ≡ is_clash (gives plan.now sources.now (giver_meant giver) (seen_of set.now)) }
{
    clashes(plan, sources, board, giver)
}

fn follows_by(
    plan: &Plan,
    sources: &Sources,
    board: &Board,
    giver: Giver,
    set: &[Atom],
    premises: &[Atom],
    atom: Atom,
) -> bool
    requires can { CanCheck plan.now }
    requires shown { seen_by board.now ≡ seen_of set.now }
    ensures { result ≡ follows_by plan.now sources.now (giver_meant giver) set.now premises.now atom }
{
    if is_clear(plan, board, set) {
        reads_all(plan, giver, premises) && gives_at(plan, sources, board, giver, set, atom)
    } else {
        false
    }
}

// Whether the step follows from the premises, with which what stands from the start is the set.
#[tactic(auto, using(crate::proofs::FollowingLemmas::by_giver))]
fn follows(
    plan: &Plan,
    sources: &Sources,
    board: &mut Board,
    step: &Step,
    set: &[Atom],
    premises: &[Atom],
) -> Result<bool, AllocError>
    requires can { CanCheck plan.now }
    requires set { set.now ≡ set_with premises.now }
    ensures { IfOk result (λ r. r ≡ follows plan.now sources.now step.now premises.now) }
{
    board.show(set)?;
    let by = match giver_of(sources, step.origin, step.conclusion) {
        Some(giver) => { follows_by(plan, sources, board, giver, set, premises, step.conclusion) }
        None => false,
    };
    Ok(by)
}

// The same, where the first of the set is what stands from the start.
fn follows_from_set(
    plan: &Plan,
    sources: &Sources,
    board: &mut Board,
    step: &Step,
    set: &[Atom],
) -> Result<bool, AllocError>
    requires can { CanCheck plan.now }
    requires set { set.now ≡ set_with (drop 1 set.now) }
    ensures { IfOk result (λ r. r ≡ follows plan.now sources.now step.now (drop 1 set.now)) }
{
    let r = follows(plan, sources, board, step, set, &set[1..])?;
    Ok(r)
}

/// Whether the step follows from what it cites of the earlier ones.
pub fn is_justified(
    alloc: Global,
    plan: &Plan,
    sources: &Sources,
    board: &mut Board,
    earlier: &[Step],
    step: &Step,
) -> Result<bool, AllocError>
    requires can { CanCheck plan.now }
    ensures { IfOk result (λ r. r ≡ is_justified step_form (follows plan.now sources.now) (concluded earlier.now)
        step.now) }
{
    let mut set = Listed::new(alloc);
    set.push(Atom::Here(0))?;
    if !cite(earlier, step.premises.as_slice(), &mut set)? {
        return Ok(false);
    }
    let r = follows_from_set(plan, sources, board, step, set.as_slice())?;
    drop(set);
    Ok(r)
}
