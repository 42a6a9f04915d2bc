//! Which pieces a restriction allows.

ghost use Rattle.std.specs.Prelude.{◌≡◌, IfSome};
ghost use Rattle.vc_plan.specs.Pieces.{is_inside};
ghost use Rattle.vc_plan.specs.Restrictions.{allows};
ghost use Rattle.vc_plan_values.specs.Computing.{TermsFit};
ghost use Rattle.vc_plan_values.specs.Values.{meant};
ghost use Rattle.vc_rule_grains.specs.Finding.{PassesOnly};
ghost use Rattle.vc_rule_grains.specs.Tests.{allowed_by};

use crate::testing::Test;
use vc_plan::{Piece, Plan, Relation, Restriction};
use vc_plan_values::pieces::is_part_of_some;
use vc_plan_values::rounding::literal_for;
use vc_plan_values::{TermValue, decimals_of, is_inside, stored_value};
use vc_value::Value;

/// What a restriction names, its literal rounded where that counts.
#[derive(Clone, Copy)]
pub enum Allowed<'a> {
    /// What stands in the relation to the value.
    Inside(Relation, TermValue),
    /// What lies in one of the pieces.
    PartOf(&'a [Piece]),
}

impl<'a> Test for Allowed<'a> {
    ghost use Rattle.vc_rule_grains.specs.Tests.{allowed_by};

    ghost passes = { λ s. allowed_by s };

    fn passes(&self, piece: Piece) -> bool {
        match *self {
            Allowed::Inside(relation, value) => is_inside(relation, value, piece),
            Allowed::PartOf(pieces) => is_part_of_some(piece, pieces),
        }
    }

    fn only(&self) -> Option<Value> {
        match *self {
            Allowed::Inside(relation, value) => only_equal(relation, value),
            Allowed::PartOf(_) => None,
        }
    }
}

// The value that all has that stands in the relation to this one: at `=` this one.
#[tactic(auto, using(crate::proofs::FindingLemmas::equal_only))]
fn only_equal(relation: Relation, value: TermValue) -> Option<Value>
    ensures { IfSome result (PassesOnly (is_inside relation (meant value))) }
{
    match relation {
        Relation::Equal => stored_value(value),
        _ => None,
    }
}

/// What the restriction of the variable allows.
pub fn allowed_of<'a>(plan: &Plan, var: u32, restriction: &'a Restriction) -> Allowed<'a>
    requires { TermsFit plan.now }
    ensures { allowed_by result ≡ allows plan.now var restriction.now }
{
    match restriction {
        Restriction::Against(relation, value) => {
            Allowed::Inside(
                *relation,
                literal_for(*relation, decimals_of(plan, var), *value),
            )
        }
        Restriction::OneOf(pieces) => Allowed::PartOf(pieces.as_slice()),
    }
}
