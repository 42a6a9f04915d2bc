//! How many grains a variable has, how many atoms a net, and how many stages an evaluation.

ghost use Rattle.std.specs.Prelude.{◌≡◌, ◌^◌, ◌<◌, length, slice_get, Some};
ghost use Rattle.vc_plan.specs.Domains.{grains_in, domain_of, count_of, atom_count};
ghost use Rattle.vc_plan.specs.Writes.{greatest_depth, stages};

use crate::plans::{Plan, Slot};
use vc_value::Domain;

/// How many grains the variable has; none where there is no such variable.
pub fn count_of(plan: &Plan, var: u32) -> usize
    ensures { result ≡ count_of plan.now var }
{
    grains_at(plan, var as usize)
}

/// The most atoms that stand together: the slots, and each variable's grains and its value.
pub fn atom_count(plan: &Plan) -> u32
    requires { atom_count plan.now < 2 ^ 32 }
    ensures { result ≡ atom_count plan.now }
{
    let mut count = plan.slots.len();
    for var in 0..plan.vars.len() {
        count += grains_at(plan, var) + 1;
    }
    count as u32
}

/// How many stages an evaluation has: the user's, one for the procedures of each level of slots, and the one for sums.
pub fn stages(plan: &Plan) -> u32
    ensures { result ≡ stages plan.now }
{
    u32::from(greatest_depth(plan.slots.as_slice())) + 3
}

#[tactic(auto, using(crate::proofs::PlanLaws::Depths::deeper, crate::proofs::PlanLaws::Depths::none_deeper))]
fn greatest_depth(slots: &[Slot]) -> u8
    ensures { result ≡ greatest_depth slots.now }
{
    let mut greatest = 0;
    let mut rest = slots;
    while let [slot, more @ ..] = rest {
        greatest = greatest.max(slot.depth);
        rest = more;
    }
    greatest
}

fn grains_at(plan: &Plan, var: usize) -> usize
    ensures { result ≡ count_of plan.now var }
{
    match plan.vars.as_slice().get(var) {
        Some(x) => grains_in(plan, x.domain),
        None => 0,
    }
}

fn grains_in(plan: &Plan, domain: u32) -> usize
    ensures { result ≡ length (grains_in (slice_get plan.now.domains domain)) }
{
    match plan.domains.as_slice().get(domain as usize) {
        Some(domain) => grain_count(domain),
        None => 0,
    }
}

#[tactic(auto, using(crate::proofs::PlanLaws::Counts::texts_count, crate::proofs::PlanLaws::Counts::stretches_count))]
fn grain_count(domain: &Domain) -> usize
    ensures { result ≡ length (grains_in (Some domain.now)) }
{
    match domain {
        Domain::Texts(texts) => texts.len(),
        Domain::Nums {
            decimals: _,
            grains,
        } => grains.count() as usize,
    }
}
