//! The atoms that can't stand together where one comes beside those that stand, and whom they blame.

ghost use Rattle.std.specs.Prelude.{◌≡◌, ◌^◌, ◌<◌, ◌≤◌, [], ◌∷◌, ◌++◌, length};
ghost use Rattle.vc_plan.specs.Bounds.{greatest};
ghost use Rattle.vc_plan.specs.Domains.{atom_count, count_of, numbers_below};
ghost use Rattle.vc_plan_blame.specs.Blame.{beside_atom, exhausting};
ghost use Rattle.vc_net_standing.specs.Standing.{atoms_of};
ghost use Rattle.vc_net_blame.specs.Finding.{colliding_with, collision_bound, culprit_for};
ghost use Rattle.vc_net_blame.specs.Searching.{all_out, pushed_all, slot_beside_root};

use crate::culprits::first_blamed;
use crate::odds::first_at_odds;
use crate::running_out::exhausted;
use vc_net_standing::{Fact, Standing};
use vc_plan::{Atom, Culprit, Plan, element};
use vc_plan_values::grain_count;
use vc_rule_yield::Bounded;

/// Whom to blame where the fact comes beside what stands, and can't stand there. The premises are then those atoms that
/// can't stand together: a variable's slot with all its grains out, or where each has one left a pair. It takes no
/// memory.
pub fn blame(
    plan: &Plan,
    standing: &Standing,
    fact: Fact,
    premises: &mut Bounded<Atom>,
) -> Option<Culprit>
    requires atoms { atom_count plan.now < 2 ^ 32 }
    requires vars { length plan.now.vars < 2 ^ 32 }
    requires room { collision_bound plan.now ≤ premises.old.room }
    ensures premises { premises.new ≡ record {
      items = colliding_with plan.now standing.now.facts fact.atom;
      room = premises.old.room;
    } }
    ensures culprit { result ≡ culprit_for plan.now (standing.now.facts ++ fact ∷ [])
        (colliding_with plan.now standing.now.facts fact.atom) }
{
    premises.clear();
    put_colliding(plan, standing, fact.atom, premises);
    first_blamed(plan, standing, fact, premises.as_slice())
}

/// How many premises `blame` needs room for: one more than a variable has grains at most, or two.
pub fn collision_bound(plan: &Plan) -> usize
    requires atoms { atom_count plan.now < 2 ^ 32 }
    requires vars { length plan.now.vars < 2 ^ 32 }
    ensures { result ≡ collision_bound plan.now }
{
    (1 + most_grains(plan) as usize).max(2)
}

#[tactic(auto, using(crate::proofs::RangeLemmas::greatest_of))]
fn most_grains(plan: &Plan) -> u32
    requires atoms { atom_count plan.now < 2 ^ 32 }
    requires vars { length plan.now.vars < 2 ^ 32 }
    ensures { result ≡ greatest (count_of plan.now) (numbers_below (length plan.now.vars)) }
{
    let mut greatest = 0;
    for var in 0..plan.vars.len() as u32 {
        greatest = greatest.max(grain_count(plan, var));
    }
    greatest
}

fn put_colliding(plan: &Plan, standing: &Standing, atom: Atom, premises: &mut Bounded<Atom>)
    requires atoms { atom_count plan.now < 2 ^ 32 }
    requires vars { length plan.now.vars < 2 ^ 32 }
    ensures { premises.new ≡ pushed_all premises.old (colliding_with plan.now standing.now.facts atom) }
{
    match exhausted(plan, standing, atom) {
        Some(var) => put_exhausting(plan, var, premises),
        None => put_pair(plan, standing.facts(), atom, premises),
    }
}

fn put_exhausting(plan: &Plan, var: u32, premises: &mut Bounded<Atom>)
    requires { atom_count plan.now < 2 ^ 32 }
    ensures { premises.new ≡ pushed_all premises.old (exhausting plan.now var) }
{
    put_slot(plan, var, premises);
    put_grains(plan, var, premises);
}

fn put_slot(plan: &Plan, var: u32, premises: &mut Bounded<Atom>)
    ensures { premises.new ≡ pushed_all premises.old (slot_beside_root plan.now var) }
{
    if let Some(x) = element(plan.vars.as_slice(), var) {
        if x.slot != 0 {
            premises.push(Atom::Here(x.slot));
        }
    }
}

#[tactic(auto, using(crate::proofs::RangeLemmas::putting))]
fn put_grains(plan: &Plan, var: u32, premises: &mut Bounded<Atom>)
    requires { atom_count plan.now < 2 ^ 32 }
    ensures { premises.new ≡ pushed_all premises.old (all_out plan.now var) }
{
    let count = grain_count(plan, var);
    let mut grain = 0;
    while grain < count {
        premises.push(Atom::Out(var, grain));
        grain += 1;
    }
}

fn put_pair(plan: &Plan, facts: &[Fact], atom: Atom, premises: &mut Bounded<Atom>)
    ensures { premises.new ≡ pushed_all premises.old (beside_atom plan.now (atoms_of facts.now ++ atom ∷ []) atom) }
{
    if let Some(other) = first_at_odds(plan, facts, atom) {
        premises.push(other);
        premises.push(atom);
    }
}
