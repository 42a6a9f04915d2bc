//! How large a plan is.

ghost use Rattle.std.specs.Prelude.{◌≡◌, ◌^◌, ◌<◌, ◌+◌, None, IfOk};
ghost use Rattle.vc_compile_plan.specs.Refusals.{size_fault};
ghost use Rattle.vc_net_places.specs.Cells.{total};
ghost use Rattle.vc_plan.specs.Bounds.{cell_bound};
ghost use Rattle.vc_plan.specs.Domains.{atom_count};
ghost use Rattle.vc_app_check.specs.Lines.{counts_of};

use std::alloc::{AllocError, Global};
use vc_net_bounds::{Bounds, Counted, bounds_of};
use vc_plan::{Plan, atom_count};

/// What a plan has: slots, variables and rules, atoms that may stand together, and cells for the premises of these and
/// of one clash.
#[derive(Clone, Copy, Debug, PartialEq, Eq)]
pub struct Counts {
    pub slots: usize,
    pub variables: usize,
    pub rules: usize,
    pub atoms: u32,
    pub cells: u32,
}

// All of the numbers together.
fn sum(numbers: &[u32]) -> u32
    requires { total numbers.now < 2 ^ 32 }
    ensures { result ≡ total numbers.now }
{
    let mut sum = 0;
    let mut rest = numbers;
    while let [number, more @ ..] = rest {
        sum += *number;
        rest = more;
    }
    sum
}

// The cells of all places and of a clash.
fn cells(bounds: &Bounds) -> u32
    requires { total bounds.now.places + bounds.now.clash < 2 ^ 32 }
    ensures { result ≡ total bounds.now.places + bounds.now.clash }
{
    sum(bounds.places.as_slice()) + bounds.clash
}

// How many cells a plan needs that is within all sizes.
fn cell_count(alloc: Global, plan: &Plan) -> Result<u32, AllocError>
    requires { size_fault plan.now ≡ None }
    ensures { IfOk result (λ count. count ≡ cell_bound plan.now) }
{
    match bounds_of(alloc, plan)? {
        Counted::Within(bounds) => Ok(cells(&bounds)),
        // No plan within all sizes has too many.
        Counted::TooMany => Ok(0),
    }
}

impl Counts {
    /// The counts of a plan that is within all sizes.
    pub fn new(alloc: Global, plan: &Plan) -> Result<Counts, AllocError>
        requires { size_fault plan.now ≡ None }
        ensures { IfOk result (λ counts. counts ≡ counts_of plan.now) }
    {
        Ok(Counts {
            slots: plan.slots.len(),
            variables: plan.vars.len(),
            rules: plan.rules.len(),
            atoms: atom_count(plan),
            cells: cell_count(alloc, plan)?,
        })
    }
}
