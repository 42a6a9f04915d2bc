//! Which lists of steps are accepted.

ghost use Rattle.std.specs.Prelude.{◌≡◌, ◌^◌, ◌<◌, ◌≤◌, length, is_none, IfOk, IfSome};
ghost use Rattle.vc_plan.specs.Valid.{IsValid};
ghost use Rattle.vc_plan_reasons.specs.Checking.{first_refused_step, is_accepted};
ghost use Rattle.vc_check.specs.Citing.{CanCheck};

use crate::following::is_justified;
use std::alloc::{AllocError, Global};
use vc_check_board::Board;
use vc_plan::{Plan, Step};
use vc_plan_sources::Sources;

fn first_refused_on(
    alloc: Global,
    plan: &Plan,
    sources: &Sources,
    board: &mut Board,
    list: &[Step],
) -> Result<Option<usize>, AllocError>
    requires can { CanCheck plan.now }
    ensures is { IfOk result (λ n. n ≡ first_refused_step plan.now sources.now list.now) }
    ensures within { IfOk result (λ n. IfSome n (λ k. k ≤ length list.now)) }
{
    let mut place = 0;
    while let Some(step) = list.get(place) {
        if !is_justified(alloc, plan, sources, board, &list[..place], step)? {
            return Ok(Some(place + 1));
        }
        place += 1;
    }
    Ok(None)
}

/// The number of the first step that doesn't follow from what it cites, on a board of its own.
pub fn refused(
    alloc: Global,
    plan: &Plan,
    sources: &Sources,
    list: &[Step],
) -> Result<Option<usize>, AllocError>
    requires can { CanCheck plan.now }
    ensures is { IfOk result (λ n. n ≡ first_refused_step plan.now sources.now list.now) }
    ensures within { IfOk result (λ n. IfSome n (λ k. k ≤ length list.now)) }
{
    let mut board = Board::new(alloc);
    let number = first_refused_on(alloc, plan, sources, &mut board, list)?;
    drop(board);
    Ok(number)
}

/// Whether there is no number.
pub fn is_nothing(number: Option<usize>) -> bool
    ensures { result ≡ is_none number }
{
    match number {
        Some(_) => false,
        None => true,
    }
}

/// Whether each step follows from what it cites of the steps before it.
#[tactic(auto, using(crate::proofs::FollowingLemmas::can_check))]
pub fn accepts(
    alloc: Global,
    plan: &Plan,
    sources: &Sources,
    list: &[Step],
) -> Result<bool, AllocError>
    requires { IsValid plan.now }
    ensures { IfOk result (λ r. r ≡ is_accepted plan.now sources.now list.now) }
{
    let number = refused(alloc, plan, sources, list)?;
    Ok(is_nothing(number))
}

/// The number of the first step, from 1, that doesn't follow from what it cites of the steps before it.
#[tactic(auto, using(crate::proofs::FollowingLemmas::can_check))]
pub fn first_refused(
    alloc: Global,
    plan: &Plan,
    sources: &Sources,
    list: &[Step],
) -> Result<Option<u32>, AllocError>
    requires valid { IsValid plan.now }
    requires few { length list.now < 2 ^ 32 }
    ensures { IfOk result (λ n. n ≡ first_refused_step plan.now sources.now list.now) }
{
    match refused(alloc, plan, sources, list)? {
        Some(number) => Ok(Some(number as u32)),
        None => Ok(None),
    }
}
