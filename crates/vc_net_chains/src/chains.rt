//! What an ending needs of a log, and the chain of reasons for an atom.

ghost use Rattle.std.specs.Prelude.{◌≡◌, ◌++◌, ◌^◌, ◌<◌, ◌≤◌, ◌∷◌, [], suc, length, take, IfOk, OnOk};
ghost use Rattle.vc_plan_reasons.specs.Trimming.{trimmed_chain};
ghost use Rattle.vc_net_chains.specs.Telling.{asked_with, chain_in, trimmed_for};

use crate::marks::{is_among, needed};
use crate::numbers::{new_numbers, numbers_by};
use crate::steps::{push_last, steps_left};
use std::alloc::{AllocError, Global};
use vc_net_log::Log;
use vc_plan::{Atom, Step};
use vc_value::Listed;

/// Steps that an ending needs, renumbered, and the ending's numbers then.
#[derive(Drop)]
pub struct Trimmed {
    pub steps: Listed<Step>,
    pub ending: Listed<u32>,
}

/// The chain of reasons for the atom: what its step needs of the steps up to it. There is none where no step concludes
/// it.
pub fn chain_of(alloc: Global, log: &Log, atom: Atom) -> Result<Option<Listed<Step>>, AllocError>
    requires { length log.now.steps < 2 ^ 31 }
    ensures { IfOk result (λ chain. chain ≡ chain_in log.now.steps atom) }
{
    match log.number_of(atom) {
        Some(place) => Ok(Some(chain_to(alloc, log, place)?)),
        None => Ok(None),
    }
}

// The chain of reasons of a step, counted from 0.
fn chain_to(alloc: Global, log: &Log, place: usize) -> Result<Listed<Step>, AllocError>
    requires few { length log.now.steps < 2 ^ 31 }
    requires there { place < length log.now.steps }
    ensures { IfOk result (λ chain. chain ≡ trimmed_chain (take (suc place) log.now.steps)) }
{
    let Trimmed { steps, ending } = trim(alloc, log, place + 1, &[place as u32 + 1])?;
    drop(ending);
    Ok(steps)
}

/// What the ending needs of the first steps, so many.
pub fn trim(alloc: Global, log: &Log, count: usize, ending: &[u32]) -> Result<Trimmed, AllocError>
    requires few { length log.now.steps < 2 ^ 31 }
    requires there { count ≤ length log.now.steps }
    ensures { IfOk result (λ left. left ≡ trimmed_for ending.now (take count log.now.steps)) }
{
    let flags = needed(alloc, log, count, ending)?;
    let numbers = numbers_by(alloc, flags.as_slice())?;
    let steps = steps_left(alloc, log, numbers.as_slice(), flags.as_slice())?;
    let ending = new_numbers(alloc, numbers.as_slice(), ending)?;
    Ok(Trimmed { steps, ending })
}

/// What the ending needs of all steps and of one more behind them, which it needn't cite.
pub fn trim_with(
    alloc: Global,
    log: &Log,
    last: &Step,
    ending: &[u32],
) -> Result<Trimmed, AllocError>
    requires { length log.now.steps < 2 ^ 31 }
    ensures { IfOk result (λ left. left ≡ trimmed_for ending.now (log.now.steps ++ last.now ∷ [])) }
{
    let count = log.count();
    let cited = is_among(count as u32 + 1, ending);
    let asked = asked_with(alloc, cited, last, ending)?;
    let mut flags = needed(alloc, log, count, asked.as_slice())?;
    flags.push(cited)?;
    let numbers = numbers_by(alloc, flags.as_slice())?;
    let mut steps = steps_left(alloc, log, numbers.as_slice(), flags.as_slice())?;
    push_last(alloc, numbers.as_slice(), cited, last, &mut steps)?;
    let ending = new_numbers(alloc, numbers.as_slice(), ending)?;
    Ok(Trimmed { steps, ending })
}

// The ending, and what the last step cites, if the ending cites it.
fn asked_with(
    alloc: Global,
    cited: bool,
    last: &Step,
    ending: &[u32],
) -> Result<Listed<u32>, AllocError>
    ensures { IfOk result (λ asked. asked ≡ ending.now ++ asked_with cited last.now) }
{
    let mut asked = Listed::new(alloc);
    append(ending, &mut asked)?;
    if cited {
        append(last.premises.as_slice(), &mut asked)?;
    }
    Ok(asked)
}

// Puts the numbers at the end.
fn append(more: &[u32], numbers: &mut Listed<u32>) -> Result<(), AllocError>
    ensures { OnOk result (numbers.new ≡ numbers.old ++ more.now) }
{
    let mut rest = more;
    while let [number, later @ ..] = rest {
        numbers.push(*number)?;
        rest = later;
    }
    Ok(())
}
