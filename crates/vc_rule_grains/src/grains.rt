//! The grains of variables, and what stands at a view.

ghost use Rattle.std.specs.Prelude.{◌≡◌};
ghost use Rattle.vc_plan.specs.Answers.{only_value};
ghost use Rattle.vc_plan.specs.Domains.{is_grain_with};
ghost use Rattle.vc_plan.specs.Pieces.{one_value};
ghost use Rattle.vc_plan.specs.Seen.{is_left_by, is_value, says};

use crate::testing::Test;
use vc_plan::{Atom, Piece, Plan, View};
use vc_plan_values::grains::holds;
use vc_plan_values::piece;
use vc_rule_yield::atoms::same_value;
use vc_value::Value;

/// Whether the variable has a grain of this number that passes the test.
pub fn is_grain_with<T: Test>(plan: &Plan, var: u32, test: &T, grain: u32) -> bool
    ensures { result ≡ is_grain_with plan.now var (T.passes test.now) grain }
{
    match piece(plan, var, grain) {
        Some(piece) => test.passes(piece),
        None => false,
    }
}

/// Whether the grain is left where the variable has this value, or none.
pub fn is_left_by<V: View>(
    plan: &Plan,
    view: &V,
    var: u32,
    grain: u32,
    value: Option<Value>,
) -> bool
    ensures { result ≡ is_left_by plan.now (V.seen view.now) var grain value }
{
    match value {
        Some(value) => holds(plan, var, value, grain),
        None => !view.out(var, grain),
    }
}

/// The value of the grain, if it has one alone.
pub fn only_value(plan: &Plan, var: u32, grain: u32) -> Option<Value>
    ensures { result ≡ only_value plan.now var grain }
{
    match piece(plan, var, grain) {
        Some(piece) => one_value(piece),
        None => None,
    }
}

fn one_value(piece: Piece) -> Option<Value>
    ensures { result ≡ one_value piece }
{
    match piece {
        Piece::OneText(text) => Some(Value::Text(text)),
        Piece::Stretch(grain) if grain.low.millionths == grain.high.millionths => {
            Some(Value::Num(grain.low))
        }
        Piece::Stretch(_) => None,
    }
}

/// Whether the atom stands.
pub fn stands<V: View>(view: &V, atom: Atom) -> bool
    ensures { result ≡ says (V.seen view.now) atom }
{
    match atom {
        Atom::Here(slot) => view.here(slot),
        Atom::Out(var, grain) => view.out(var, grain),
        Atom::Is(var, value) => has_value(view.value(var), value),
    }
}

fn has_value(own: Option<Value>, value: Value) -> bool
    ensures { result ≡ is_value value own }
{
    match own {
        Some(own) => same_value(value, own),
        None => false,
    }
}
