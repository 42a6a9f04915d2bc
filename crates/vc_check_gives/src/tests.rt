//! Tests of pieces.

ghost use Rattle.std.specs.Prelude.{◌≡◌};
ghost use Rattle.vc_plan.specs.Domains.{is_grain_with};
ghost use Rattle.vc_plan.specs.Restrictions.{allows};
ghost use Rattle.vc_plan_values.specs.Computing.{TermsFit};
ghost use Rattle.vc_check_gives.specs.Parts.{passes_by};

use vc_plan::{Piece, Plan, Relation, Restriction};
use vc_plan_values::pieces::is_part_of_some;
use vc_plan_values::rounding::literal_for;
use vc_plan_values::{TermValue, decimals_of, is_inside, opposite, piece};

/// A test of pieces.
#[derive(Clone, Copy)]
pub enum Test<'a> {
    /// All that the piece has stands in the relation to the value.
    Inside(Relation, TermValue),
    /// The piece lies in one of these.
    PartOf(&'a [Piece]),
    /// Not all that the piece has stands outside the relation to the value.
    NotOutside(Relation, TermValue),
}

/// Whether the piece passes.
pub fn passes<'a>(test: Test<'a>, piece: Piece) -> bool
    ensures { result ≡ passes_by test.entry piece }
{
    match test {
        Test::Inside(relation, value) => is_inside(relation, value, piece),
        Test::PartOf(pieces) => is_part_of_some(piece, pieces),
        Test::NotOutside(relation, value) => !is_inside(opposite(relation), value, piece),
    }
}

/// Whether the variable has a grain of this number that passes.
pub fn is_grain_with<'a>(plan: &Plan, var: u32, test: Test<'a>, grain: u32) -> bool
    ensures { result ≡ is_grain_with plan.now var (passes_by test.entry) grain }
{
    match piece(plan, var, grain) {
        Some(piece) => passes(test, piece),
        None => false,
    }
}

/// What the restriction of the variable allows.
pub fn allowed_of<'a>(plan: &Plan, var: u32, restriction: &'a Restriction) -> Test<'a>
    requires { TermsFit plan.now }
    ensures { passes_by result ≡ allows plan.now var restriction.now }
{
    match restriction {
        Restriction::Against(relation, value) => {
            Test::Inside(
                *relation,
                literal_for(*relation, decimals_of(plan, var), *value),
            )
        }
        Restriction::OneOf(pieces) => Test::PartOf(pieces.as_slice()),
    }
}
