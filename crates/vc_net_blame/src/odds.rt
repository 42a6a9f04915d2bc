//! Atoms that are at odds: two values of one variable, or a value with that its grain is out.

ghost use Rattle.std.specs.Prelude.{◌≡◌};
ghost use Rattle.std.specs.List.{find};
ghost use Rattle.vc_plan.specs.Clear.{collides};
ghost use Rattle.vc_plan.specs.Domains.{is_grain_with};
ghost use Rattle.vc_plan.specs.Pieces.{lies_in};
ghost use Rattle.vc_plan_blame.specs.Blame.{are_at_odds, is_out};
ghost use Rattle.vc_net_standing.specs.Standing.{atoms_of};
ghost use Rattle.vc_net_blame.specs.Searching.{first_at_odds, out_at_odds};

use vc_net_standing::Fact;
use vc_plan::{Atom, Plan};
use vc_plan_values::{lies_in, piece};
use vc_rule_yield::atoms::same_value;
use vc_value::Value;

/// The first of the facts that is at odds with the atom: that a grain is out, where one is, else a value.
pub fn first_at_odds(plan: &Plan, facts: &[Fact], atom: Atom) -> Option<Atom>
    ensures { result ≡ first_at_odds plan.now facts.now atom }
{
    match first_out(plan, facts, atom) {
        Some(other) => Some(other),
        None => first_of_any(plan, facts, atom),
    }
}

fn first_out(plan: &Plan, facts: &[Fact], atom: Atom) -> Option<Atom>
    ensures { result ≡ find (out_at_odds plan.now atom) (atoms_of facts.now) }
{
    let mut rest = facts;
    while let [fact, more @ ..] = rest {
        if is_out(fact.atom) && are_at_odds(plan, atom, fact.atom) {
            return Some(fact.atom);
        }
        rest = more;
    }
    None
}

fn first_of_any(plan: &Plan, facts: &[Fact], atom: Atom) -> Option<Atom>
    ensures { result ≡ find (are_at_odds plan.now atom) (atoms_of facts.now) }
{
    let mut rest = facts;
    while let [fact, more @ ..] = rest {
        if are_at_odds(plan, atom, fact.atom) {
            return Some(fact.atom);
        }
        rest = more;
    }
    None
}

fn is_out(atom: Atom) -> bool
    ensures { result ≡ is_out atom }
{
    match atom {
        Atom::Out(_, _) => true,
        _ => false,
    }
}

fn are_at_odds(plan: &Plan, first: Atom, second: Atom) -> bool
    ensures { result ≡ are_at_odds plan.now first second }
{
    collides(plan, first, second) || collides(plan, second, first)
}

fn collides(plan: &Plan, first: Atom, second: Atom) -> bool
    ensures { result ≡ collides plan.now first second }
{
    match (first, second) {
        (Atom::Is(var, value), Atom::Out(other, grain)) => {
            var == other && holds(plan, var, value, grain)
        }
        (Atom::Is(var, value), Atom::Is(other, also)) => var == other && !same_value(value, also),
        _ => false,
    }
}

fn holds(plan: &Plan, var: u32, value: Value, grain: u32) -> bool
    ensures { result ≡ is_grain_with plan.now var (lies_in value) grain }
{
    match piece(plan, var, grain) {
        Some(piece) => lies_in(value, piece),
        None => false,
    }
}
