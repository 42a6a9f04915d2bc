//! Whether a plan is as large as a plan may be.

ghost use Rattle.std.specs.Prelude.{◌≡◌, false, None, IfOk, IfErr};
ghost use Rattle.vc_compile_plan.specs.Refusals as refusals;
ghost use Rattle.vc_compile.specs.Compiled.{IsSizeFault};

use std::alloc::{AllocError, Global};
use vc_compile_plan::CompileFault;
use vc_compile_rules::adding::MOST_RULES;
use vc_net_bounds::{Counted, bounds_of};
use vc_plan::{Plan, count_of};

/// The most atoms that a plan may have.
pub const MOST_ATOMS: usize = 40_000;

/// Whether a plan has more atoms than it may have.
pub fn has_too_many_atoms(plan: &Plan) -> bool
    ensures { result ≡ refusals.has_too_many_atoms plan.now }
{
    let mut count = plan.slots.len();
    if count > MOST_ATOMS {
        return true;
    }
    for var in 0..plan.vars.len() {
        let grains = count_of(plan, var as u32);
        if grains >= MOST_ATOMS - count {
            return true;
        }
        count += grains + 1;
    }
    false
}

// Whether a plan that has no more atoms than it may have has too many cells.
fn has_too_many_cells(alloc: Global, plan: &Plan) -> Result<bool, AllocError>
    requires { refusals.has_too_many_atoms plan.now ≡ false }
    ensures { IfOk result (λ many. many ≡ refusals.has_too_many_cells plan.now) }
{
    match bounds_of(alloc, plan)? {
        Counted::Within(_) => Ok(false),
        Counted::TooMany => Ok(true),
    }
}

/// The first size of a plan that is too large: its rules, its atoms, then its cells.
pub fn size_fault(alloc: Global, plan: &Plan) -> Result<Option<CompileFault>, AllocError>
    ensures { IfOk result (λ fault. fault ≡ refusals.size_fault plan.now) }
{
    if plan.rules.len() > MOST_RULES {
        return Ok(Some(CompileFault::TooManyRules));
    }
    if has_too_many_atoms(plan) {
        return Ok(Some(CompileFault::TooManyAtoms));
    }
    if has_too_many_cells(alloc, plan)? {
        return Ok(Some(CompileFault::TooManyCells));
    }
    Ok(None)
}

/// The plan, if none of its sizes is too large.
pub fn within_sizes(alloc: Global, plan: Plan) -> Result<Plan, CompileFault>
    ensures plan { IfOk result (λ same. same ≡ plan) }
    ensures sizes { IfOk result (λ same. refusals.size_fault plan ≡ None) }
    ensures fault { IfErr result (λ fault. IsSizeFault plan fault) }
{
    match size_fault(alloc, &plan)? {
        Some(fault) => Err(fault),
        None => Ok(plan),
    }
}
