//! What broke a net, as steps that are cited by their numbers.

ghost use Rattle.std.specs.Prelude.{◌≡◌, ◌+◌, ◌^◌, ◌<◌, suc, length, map, option_map, IfOk};
ghost use Rattle.std.specs.List.{position_or_len};
ghost use Rattle.vc_plan.specs.Seen.{same_atom};
ghost use Rattle.vc_plan_blame.specs.Blame.{number_of};
ghost use Rattle.vc_plan_reasons.specs.Trimming.{trimmed_clash};
ghost use Rattle.vc_net_log.specs.Logs.{step_from};
ghost use Rattle.vc_net_chains.specs.Telling.{trimmed_for};
ghost use Rattle.vc_net_going.specs.Breaking.{clash_in, last_atoms, stand_with, steps_with};

use std::alloc::{AllocError, Global};
use vc_net_chains::{Trimmed, trim, trim_with};
use vc_net_going::Breaker;
use vc_net_log::Log;
use vc_net_standing::Fact;
use vc_plan::{Atom, Clash, Step};
use vc_rule_yield::same_atom;
use vc_value::Listed;

/// The clash that broke the net, if anything did: of the steps of the log and that of the fact that couldn't come those
/// that lead to it, with whom to blame and the numbers of the premises that contradict.
pub fn clash(alloc: Global, log: &Log, breaker: &Breaker) -> Result<Option<Clash>, AllocError>
    requires { length log.now.steps < 2 ^ 31 }
    ensures { IfOk result (λ clash. clash ≡ option_map trimmed_clash (clash_in log.now.steps breaker.now)) }
{
    match breaker.culprit {
        Some(culprit) => {
            let Trimmed { steps, ending } = contradicting(alloc, log, breaker)?;
            Ok(Some(Clash {
                steps,
                culprit,
                premises: ending,
            }))
        }
        None => Ok(None),
    }
}

// The steps that lead to what contradicts, and the numbers of that.
fn contradicting(alloc: Global, log: &Log, breaker: &Breaker) -> Result<Trimmed, AllocError>
    requires { length log.now.steps < 2 ^ 31 }
    ensures { IfOk result (λ left. left ≡ trimmed_for
        (map (number_of (stand_with log.now.steps breaker.now.fact)) breaker.now.premises.items)
        (steps_with log.now.steps breaker.now.fact breaker.now.reasons.items)) }
{
    let premises = numbers_of(alloc, log, breaker.fact, breaker.premises.as_slice())?;
    let left = leading_to(alloc, log, breaker, premises.as_slice());
    drop(premises);
    left
}

// The steps that these need, of those of the log and that of the fact that couldn't come, if there is one.
fn leading_to(
    alloc: Global,
    log: &Log,
    breaker: &Breaker,
    premises: &[u32],
) -> Result<Trimmed, AllocError>
    requires { length log.now.steps < 2 ^ 31 }
    ensures { IfOk result (λ left. left ≡ trimmed_for premises.now
        (steps_with log.now.steps breaker.now.fact breaker.now.reasons.items)) }
{
    match breaker.fact {
        Some(fact) => {
            let last = step_from(alloc, log, fact, breaker.reasons.as_slice())?;
            let left = trim_with(alloc, log, &last, premises);
            drop(last);
            left
        }
        None => trim(alloc, log, log.count(), premises),
    }
}

// The step that would conclude the fact from these.
fn step_from(alloc: Global, log: &Log, fact: Fact, reasons: &[Atom]) -> Result<Step, AllocError>
    requires { length log.now.steps < 2 ^ 31 }
    ensures { IfOk result (λ step. step ≡ step_from log.now.steps fact reasons.now) }
{
    Ok(Step {
        conclusion: fact.atom,
        origin: fact.origin,
        premises: numbers_of(alloc, log, None, reasons)?,
    })
}

// The numbers of the steps that conclude these atoms, of those of the log and that of a fact after them.
fn numbers_of(
    alloc: Global,
    log: &Log,
    last: Option<Fact>,
    atoms: &[Atom],
) -> Result<Listed<u32>, AllocError>
    requires { length log.now.steps < 2 ^ 31 }
    ensures { IfOk result (λ numbers. numbers ≡ map (number_of (stand_with log.now.steps last)) atoms.now) }
{
    let mut numbers = Listed::new(alloc);
    let mut rest = atoms;
    while let [atom, more @ ..] = rest {
        numbers.push(number_of(log, last, *atom))?;
        rest = more;
    }
    Ok(numbers)
}

fn number_of(log: &Log, last: Option<Fact>, atom: Atom) -> u32
    requires { length log.now.steps < 2 ^ 31 }
    ensures { result ≡ number_of (stand_with log.now.steps last) atom }
{
    match log.number_of(atom) {
        Some(number) => number as u32 + 1,
        None => number_past(log.facts().len() as u32, last, atom),
    }
}

// The number after so many steps, of that of a fact after them, or past all.
fn number_past(count: u32, last: Option<Fact>, atom: Atom) -> u32
    requires { count < 2 ^ 31 }
    ensures { result ≡ suc (count + position_or_len (same_atom atom) (last_atoms last)) }
{
    match last {
        Some(fact) => {
            if same_atom(atom, fact.atom) {
                count + 1
            } else {
                count + 2
            }
        }
        None => count + 1,
    }
}
