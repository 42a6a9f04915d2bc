//! Flags of the steps that an ending needs, set from the last step back.

ghost use Rattle.std.specs.Prelude.{◌≡◌, ◌≤◌, ◌<◌, [], ◌∷◌, false, length, replicate, take, IfOk};
ghost use Rattle.vc_base.specs.Chains.{is_among};
ghost use Rattle.vc_plan_reasons.specs.Trimming.{needed};
ghost use Rattle.vc_net_log.specs.Numbers.{premises_of};
ghost use Rattle.vc_net_chains.specs.Marking.{marked, marked_each, with_all_cited, with_cited};

use std::alloc::{AllocError, Global};
use vc_net_log::Log;
use vc_value::Listed;

/// Of each of the first steps, so many, whether the ending needs it: it cites the step, or a later step that it needs
/// does.
pub fn needed(
    alloc: Global,
    log: &Log,
    count: usize,
    ending: &[u32],
) -> Result<Listed<bool>, AllocError>
    requires { count ≤ length log.now.steps }
    ensures found { IfOk result (λ flags. flags ≡ needed ending.now 1 (take count log.now.steps)) }
    ensures long { IfOk result (λ flags. length flags ≡ count) }
{
    let mut flags = no_flags(alloc, count)?;
    mark_all(count, ending, &mut flags);
    mark_all_cited(log, count, &mut flags);
    Ok(flags)
}

// No step flagged.
fn no_flags(alloc: Global, count: usize) -> Result<Listed<bool>, AllocError>
    ensures none { IfOk result (λ flags. flags ≡ replicate count false) }
    ensures long { IfOk result (λ flags. length flags ≡ count) }
{
    let mut flags = Listed::new(alloc);
    for step in 0..count {
        flags.push(false)?;
    }
    Ok(flags)
}

// Flags the step of this number, if it is one of the first, so many.
fn mark(count: usize, number: u32, flags: &mut Listed<bool>)
    requires { count ≤ length flags.old }
    ensures marked { flags.new ≡ marked 1 count (number ∷ []) flags.old }
    ensures long { length flags.new ≡ length flags.old }
{
    let number = number as usize;
    if 0 < number && number <= count {
        flags.set(number - 1, true);
    }
}

// Flags the steps of these numbers, as far as they are among the first, so many.
fn mark_all(count: usize, numbers: &[u32], flags: &mut Listed<bool>)
    requires { count ≤ length flags.old }
    ensures marked { flags.new ≡ marked_each count numbers.now flags.old }
    ensures long { length flags.new ≡ length flags.old }
{
    let mut rest = numbers;
    while let [number, more @ ..] = rest {
        mark(count, *number, flags);
        rest = more;
    }
}

// Flags the steps before this one that it cites; steps are counted from 0.
fn mark_premises(log: &Log, step: usize, flags: &mut Listed<bool>)
    requires there { step < length log.now.steps }
    requires flags { step ≤ length flags.old }
    ensures marked { flags.new ≡ marked_each step (premises_of log.now.steps step) flags.old }
    ensures long { length flags.new ≡ length flags.old }
{
    let mut rest = log.premises(step);
    while let [place, more @ ..] = rest {
        mark(step, log.number_by_place(*place as usize), flags);
        rest = more;
    }
}

// Flags what the step cites before it, if it is flagged itself.
fn mark_cited(log: &Log, step: usize, flags: &mut Listed<bool>)
    requires there { step < length log.now.steps }
    requires flags { step < length flags.old }
    ensures marked { flags.new ≡ with_cited log.now.steps step flags.old }
    ensures long { length flags.new ≡ length flags.old }
{
    if flags.as_slice()[step] {
        mark_premises(log, step, flags);
    }
}

// The same of so many steps, from the last of them back.
fn mark_all_cited(log: &Log, count: usize, flags: &mut Listed<bool>)
    requires there { count ≤ length log.now.steps }
    requires flags { count ≤ length flags.old }
    ensures marked { flags.new ≡ with_all_cited log.now.steps count flags.old }
    ensures long { length flags.new ≡ length flags.old }
{
    let mut left = count;
    while left > 0 {
        left -= 1;
        mark_cited(log, left, flags);
    }
}

/// Whether the number is among these.
pub fn is_among(number: u32, numbers: &[u32]) -> bool
    ensures { result ≡ is_among number numbers.now }
{
    let mut rest = numbers;
    while let [other, more @ ..] = rest {
        if *other == number {
            return true;
        }
        rest = more;
    }
    false
}
