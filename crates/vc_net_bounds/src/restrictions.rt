//! What a restriction allows, of any plan.

ghost use Rattle.std.specs.Prelude.{◌≡◌, min};
ghost use Rattle.vc_plan.specs.Domains.{decimals_in, decimals_of, domain_of};
ghost use Rattle.vc_plan.specs.Restrictions.{allows, literal_for};
ghost use Rattle.vc_plan_values.specs.Values.{meant};
ghost use Rattle.vc_rule_grains.specs.Tests.{allowed_by};

use vc_plan::{Plan, Relation, Restriction};
use vc_plan_values::TermValue;
use vc_plan_values::grains::domain_of;
use vc_plan_values::rounding::literal_for;
use vc_rule_grains::allowing::Allowed;
use vc_value::{Domain, Value};

fn decimals_in(domain: &Domain) -> u8
    ensures { result ≡ min (decimals_in (Some domain.now)) 6 }
{
    match domain {
        Domain::Texts(_) => 6,
        Domain::Nums {
            decimals,
            grains: _,
        } => (*decimals).min(6),
    }
}

// How many decimals the variable's numbers have, as far as they count.
fn decimals_of(plan: &Plan, var: u32) -> u8
    ensures { result ≡ min (decimals_of plan.now var) 6 }
{
    match domain_of(plan, var) {
        Some(domain) => decimals_in(domain),
        None => 6,
    }
}

#[tactic(auto, using(crate::proofs::RestrictionLemmas::literal_capped, crate::proofs::RestrictionLemmas::few_decimals))]
fn literal_of(plan: &Plan, var: u32, relation: Relation, value: Value) -> TermValue
    ensures { meant result ≡ literal_for relation (decimals_of plan.now var) value }
{
    literal_for(relation, decimals_of(plan, var), value)
}

/// What the restriction of the variable allows.
pub fn allowed_of<'a>(plan: &Plan, var: u32, restriction: &'a Restriction) -> Allowed<'a>
    ensures { allowed_by result ≡ allows plan.now var restriction.now }
{
    match restriction {
        Restriction::Against(relation, value) => {
            Allowed::Inside(*relation, literal_of(plan, var, *relation, *value))
        }
        Restriction::OneOf(pieces) => Allowed::PartOf(pieces.as_slice()),
    }
}
