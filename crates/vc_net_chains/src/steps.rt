//! The steps that are left, with their new numbers.

ghost use Rattle.std.specs.Prelude.{◌≡◌, ◌++◌, ◌^◌, ◌<◌, length, map, option_map, slice_get, IfOk, OnOk, Some};
ghost use Rattle.vc_net_log.specs.Numbers.{premises_of};
ghost use Rattle.vc_net_chains.specs.Leaving.{all_left, number_in, one_left, with_numbers};

use crate::numbers::{new_number, new_numbers};
use std::alloc::{AllocError, Global};
use vc_net_log::Log;
use vc_plan::Step;
use vc_value::Listed;

/// The steps that are flagged, with new numbers.
pub fn steps_left(
    alloc: Global,
    log: &Log,
    numbers: &[u32],
    flags: &[bool],
) -> Result<Listed<Step>, AllocError>
    requires { length flags.now < 2 ^ 32 }
    ensures { IfOk result (λ steps. steps ≡ all_left numbers.now log.now.steps 0 flags.now) }
{
    let mut steps = Listed::new(alloc);
    let mut place = 0;
    let mut rest = flags;
    while let [flag, more @ ..] = rest {
        push_left(alloc, log, numbers, *flag, place, &mut steps)?;
        place += 1;
        rest = more;
    }
    Ok(steps)
}

// Puts a step of the log at the end, if it is flagged; steps are counted from 0.
fn push_left(
    alloc: Global,
    log: &Log,
    numbers: &[u32],
    flag: bool,
    place: usize,
    steps: &mut Listed<Step>,
) -> Result<(), AllocError>
    ensures { OnOk result (steps.new ≡ steps.old ++ one_left numbers.now flag (slice_get log.now.steps place)) }
{
    if flag && place < log.count() {
        let step = step_left(alloc, log, numbers, place)?;
        steps.push(step)?;
    }
    Ok(())
}

// A step of the log with new numbers.
fn step_left(alloc: Global, log: &Log, numbers: &[u32], place: usize) -> Result<Step, AllocError>
    requires { place < length log.now.steps }
    ensures { IfOk result (λ step. option_map (with_numbers numbers.now) (slice_get log.now.steps place) ≡ Some step) }
{
    let fact = log.facts()[place];
    Ok(Step {
        conclusion: fact.atom,
        origin: fact.origin,
        premises: premises_left(alloc, log, numbers, place)?,
    })
}

// The new numbers of what the step cites.
fn premises_left(
    alloc: Global,
    log: &Log,
    numbers: &[u32],
    place: usize,
) -> Result<Listed<u32>, AllocError>
    requires { place < length log.now.steps }
    ensures { IfOk result (λ left. left ≡ map (number_in numbers.now) (premises_of log.now.steps place)) }
{
    let mut left = Listed::new(alloc);
    let mut rest = log.premises(place);
    while let [cited, more @ ..] = rest {
        left.push(new_number(numbers, log.number_by_place(*cited as usize)))?;
        rest = more;
    }
    Ok(left)
}

/// Puts a step that isn't of the log at the end, if it is flagged, with new numbers.
pub fn push_last(
    alloc: Global,
    numbers: &[u32],
    flag: bool,
    last: &Step,
    steps: &mut Listed<Step>,
) -> Result<(), AllocError>
    ensures { OnOk result (steps.new ≡ steps.old ++ one_left numbers.now flag (Some last.now)) }
{
    if flag {
        steps.push(Step {
            conclusion: last.conclusion,
            origin: last.origin,
            premises: new_numbers(alloc, numbers, last.premises.as_slice())?,
        })?;
    }
    Ok(())
}
