//! What steps conclude, and what numbers cite of it.

ghost use Rattle.std.specs.Prelude.{◌≡◌, [], ◌∷◌, ◌++◌, slice_get, IfOk, OnOk};
ghost use Rattle.vc_base.specs.Chains.{cited};
ghost use Rattle.vc_plan_reasons.specs.Checking.{concluded};
ghost use Rattle.vc_check.specs.Citing.{if_there, one_cited, with_cited};

use std::alloc::AllocError;
use vc_plan::{Atom, Step};
use vc_value::Listed;

#[tactic(auto, using(crate::proofs::CitingLemmas::concluded_at))]
fn conclusion_at(earlier: &[Step], place: usize) -> Option<Atom>
    ensures { result ≡ slice_get (concluded earlier.now) place }
{
    match earlier.get(place) {
        Some(step) => Some(step.conclusion),
        None => None,
    }
}

// Puts the atom, if it is there, at the end.
fn put_if_there(atom: Option<Atom>, set: &mut Listed<Atom>) -> Result<bool, AllocError>
    ensures { IfOk result (λ there. if_there there set.new ≡ with_cited set.old (one_cited atom)) }
{
    match atom {
        Some(atom) => {
            set.push(atom)?;
            Ok(true)
        }
        None => Ok(false),
    }
}

// Puts what the number cites of the earlier steps at the end.
#[tactic(auto, using(crate::proofs::CitingLemmas::citing_one))]
fn cite_one(earlier: &[Step], number: u32, set: &mut Listed<Atom>) -> Result<bool, AllocError>
    ensures { IfOk result (λ there. if_there there set.new
        ≡ with_cited set.old (cited (concluded earlier.now) (number ∷ []))) }
{
    if number == 0 {
        return Ok(true);
    }
    let atom = conclusion_at(earlier, number as usize - 1);
    let there = put_if_there(atom, set)?;
    Ok(there)
}

/// Puts what the numbers cite of the earlier steps at the end, and tells whether it is all there.
pub fn cite(earlier: &[Step], numbers: &[u32], set: &mut Listed<Atom>) -> Result<bool, AllocError>
    ensures { IfOk result (λ there. if_there there set.new
        ≡ with_cited set.old (cited (concluded earlier.now) numbers.now)) }
{
    let mut rest = numbers;
    while let [number, more @ ..] = rest {
        if !cite_one(earlier, *number, set)? {
            return Ok(false);
        }
        rest = more;
    }
    Ok(true)
}

/// Puts what the steps conclude at the end.
pub fn put_conclusions(steps: &[Step], set: &mut Listed<Atom>) -> Result<(), AllocError>
    ensures { OnOk result (set.new ≡ set.old ++ concluded steps.now) }
{
    let mut rest = steps;
    while let [step, more @ ..] = rest {
        set.push(step.conclusion)?;
        rest = more;
    }
    Ok(())
}
