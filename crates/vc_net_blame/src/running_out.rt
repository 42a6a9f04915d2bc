//! Variables that have no grain left where an atom comes beside what stands.

ghost use Rattle.std.specs.Prelude.{◌≡◌, ◌^◌, ◌<◌, [], ◌∷◌, ◌++◌, length};
ghost use Rattle.vc_base.specs.Sets.{has};
ghost use Rattle.vc_plan.specs.Clear.{are_all_out, is_exhausted};
ghost use Rattle.vc_plan.specs.Domains.{atom_count};
ghost use Rattle.vc_plan.specs.Seen.{is_here, same_atom, seen_of};
ghost use Rattle.vc_plan_reasons.specs.Checking.{set_with};
ghost use Rattle.vc_plan_blame.specs.Blame.{exhausted_by};
ghost use Rattle.vc_net_standing.specs.Standing.{atoms_of};

use vc_net_standing::Standing;
use vc_plan::{Atom, Plan, element};
use vc_plan_values::grain_count;
use vc_rule_yield::same_atom;

/// The first variable that has no grain left where the last atom comes beside what stands.
#[tactic(auto, using(vc_base::proofs::RangeLaws::finding))]
pub fn exhausted(plan: &Plan, standing: &Standing, last: Atom) -> Option<u32>
    requires atoms { atom_count plan.now < 2 ^ 32 }
    requires vars { length plan.now.vars < 2 ^ 32 }
    ensures { result ≡ exhausted_by plan.now (atoms_of standing.now.facts ++ last ∷ []) }
{
    let count = plan.vars.len() as u32;
    let mut var = 0;
    while var < count {
        if is_exhausted(plan, standing, last, var) {
            return Some(var);
        }
        var += 1;
    }
    None
}

// Whether the atom stands where the last one comes.
fn stands_with(standing: &Standing, last: Atom, atom: Atom) -> bool
    ensures { result ≡ has same_atom (set_with (atoms_of standing.now.facts ++ last ∷ [])) atom }
{
    same_atom(atom, Atom::Here(0)) || (standing.has(atom) || same_atom(atom, last))
}

fn is_exhausted(plan: &Plan, standing: &Standing, last: Atom, var: u32) -> bool
    requires { atom_count plan.now < 2 ^ 32 }
    ensures { result ≡ is_exhausted plan.now (seen_of (set_with (atoms_of standing.now.facts ++ last ∷ []))) var }
{
    is_here(plan, standing, last, var) && are_all_out(plan, standing, last, var)
}

fn is_here(plan: &Plan, standing: &Standing, last: Atom, var: u32) -> bool
    ensures { result ≡ is_here plan.now (seen_of (set_with (atoms_of standing.now.facts ++ last ∷ []))) var }
{
    match element(plan.vars.as_slice(), var) {
        Some(x) => stands_with(standing, last, Atom::Here(x.slot)),
        None => false,
    }
}

#[tactic(auto, using(vc_base::proofs::RangeLaws::testing))]
fn are_all_out(plan: &Plan, standing: &Standing, last: Atom, var: u32) -> bool
    requires { atom_count plan.now < 2 ^ 32 }
    ensures { result ≡ are_all_out plan.now (seen_of (set_with (atoms_of standing.now.facts ++ last ∷ []))) var }
{
    let count = grain_count(plan, var);
    let mut grain = 0;
    while grain < count {
        if !stands_with(standing, last, Atom::Out(var, grain)) {
            return false;
        }
        grain += 1;
    }
    true
}
