//! Which lists of steps are whole: accepted, clear, and nothing more follows.

ghost use Rattle.std.specs.Prelude.{◌≡◌, ◌<◌, ◌&&◌, true, IfOk};
ghost use Rattle.std.specs.List.{list_all};
ghost use Rattle.vc_plan.specs.Clear.{is_clear};
ghost use Rattle.vc_plan.specs.Domains.{numbers_below};
ghost use Rattle.vc_plan.specs.Gives.{gives};
ghost use Rattle.vc_plan.specs.Seen.{seen_of};
ghost use Rattle.vc_plan.specs.Valid.{IsValid};
ghost use Rattle.vc_plan_reasons.specs.Checking.{concluded, is_silent, is_whole, set_with};
ghost use Rattle.vc_check_board.specs.Boards.{seen_by};
ghost use Rattle.vc_check_givers.specs.Givers.{giver_meant};
ghost use Rattle.vc_check.specs.Citing.{CanCheck};
ghost use Rattle.vc_check.specs.Families.{all_are_silent, is_closed, is_silent_in, member_of};

use crate::accepting::refused;
use crate::citing::put_conclusions;
use std::alloc::{AllocError, Global};
use vc_check_board::{Board, is_clear};
use vc_check_givers::{Giver, is_silent};
use vc_plan::{Atom, Plan, Step};
use vc_plan_sources::Sources;
use vc_value::Listed;

/// Givers of one sort, by their numbers.
#[derive(Clone, Copy, Debug, PartialEq, Eq)]
pub enum Family {
    Rules,
    Users,
    Entries,
}

fn member_of(family: Family, number: u32) -> Giver
    ensures { giver_meant result ≡ member_of family number }
{
    match family {
        Family::Rules => Giver::Rule(number),
        Family::Users => Giver::User(number),
        Family::Entries => Giver::Entry(number),
    }
}

// Whether the giver gives nothing at the set, which is clear and on the board.
fn is_silent_at(plan: &Plan, sources: &Sources, board: &Board, giver: Giver, set: &[Atom]) -> bool
    requires can { CanCheck plan.now }
    requires shown { seen_by board.now ≡ seen_of set.now }
    requires clear { is_clear plan.now set.now ≡ true }
    ensures { result ≡ is_silent (gives plan.now sources.now (giver_meant giver) (seen_of set.now)) }
{
    is_silent(plan, sources, board, giver)
}

fn is_silent_in(
    plan: &Plan,
    sources: &Sources,
    board: &Board,
    family: Family,
    set: &[Atom],
    number: u32,
) -> bool
    requires can { CanCheck plan.now }
    requires shown { seen_by board.now ≡ seen_of set.now }
    requires clear { is_clear plan.now set.now ≡ true }
    ensures { result ≡ is_silent_in plan.now sources.now family set.now number }
{
    is_silent_at(plan, sources, board, member_of(family, number), set)
}

#[tactic(auto, using(vc_base::proofs::RangeLaws::testing))]
fn are_silent(
    plan: &Plan,
    sources: &Sources,
    board: &Board,
    family: Family,
    set: &[Atom],
    count: u32,
) -> bool
    requires can { CanCheck plan.now }
    requires shown { seen_by board.now ≡ seen_of set.now }
    requires clear { is_clear plan.now set.now ≡ true }
    ensures { result ≡ list_all (is_silent_in plan.now sources.now family set.now) (numbers_below count) }
{
    let mut number = 0;
    while number < count {
        if !is_silent_in(plan, sources, board, family, set, number) {
            return false;
        }
        number += 1;
    }
    true
}

#[tactic(auto, using(crate::proofs::FamilyLemmas::families))]
fn all_are_silent(plan: &Plan, sources: &Sources, board: &Board, set: &[Atom]) -> bool
    requires can { CanCheck plan.now }
    requires shown { seen_by board.now ≡ seen_of set.now }
    requires clear { is_clear plan.now set.now ≡ true }
    ensures { result ≡ all_are_silent plan.now sources.now set.now }
{
    let vars = plan.vars.len() as u32;
    are_silent(
        plan,
        sources,
        board,
        Family::Rules,
        set,
        plan.rules.len() as u32,
    ) && (are_silent(plan, sources, board, Family::Users, set, vars)
        && are_silent(plan, sources, board, Family::Entries, set, vars))
}

fn is_closed(plan: &Plan, sources: &Sources, board: &Board, set: &[Atom]) -> bool
    requires can { CanCheck plan.now }
    requires shown { seen_by board.now ≡ seen_of set.now }
    ensures { result ≡ is_closed plan.now sources.now set.now }
{
    if is_clear(plan, board, set) {
        all_are_silent(plan, sources, board, set)
    } else {
        false
    }
}

fn closes(
    plan: &Plan,
    sources: &Sources,
    board: &mut Board,
    set: &[Atom],
) -> Result<bool, AllocError>
    requires can { CanCheck plan.now }
    ensures { IfOk result (λ r. r ≡ is_closed plan.now sources.now set.now) }
{
    board.show(set)?;
    Ok(is_closed(plan, sources, board, set))
}

fn concludes_all(
    alloc: Global,
    plan: &Plan,
    sources: &Sources,
    list: &[Step],
) -> Result<bool, AllocError>
    requires can { CanCheck plan.now }
    ensures { IfOk result (λ r. r ≡ is_closed plan.now sources.now (set_with (concluded list.now))) }
{
    let mut set = Listed::new(alloc);
    set.push(Atom::Here(0))?;
    put_conclusions(list, &mut set)?;
    let mut board = Board::new(alloc);
    let r = closes(plan, sources, &mut board, set.as_slice())?;
    drop(board);
    drop(set);
    Ok(r)
}

/// Whether the list is accepted, what it concludes is clear, and nothing more follows.
#[tactic(auto, using(crate::proofs::FollowingLemmas::can_check, crate::proofs::FamilyLemmas::wholeness))]
pub fn settled(
    alloc: Global,
    plan: &Plan,
    sources: &Sources,
    list: &[Step],
) -> Result<bool, AllocError>
    requires { IsValid plan.now }
    ensures { IfOk result (λ r. r ≡ is_whole plan.now sources.now list.now) }
{
    if refused(alloc, plan, sources, list)?.is_some() {
        return Ok(false);
    }
    let r = concludes_all(alloc, plan, sources, list)?;
    Ok(r)
}
