//! What names at slots mean: whether it is here, and whether it has a value.

ghost use Rattle.std.specs.Prelude.{◌≡◌};
ghost use Rattle.vc_plan.specs.Readings.{full_reading};
ghost use Rattle.vc_plan.specs.Showing.{has_guarded, has_piece, has_value, is_named_here, same_named};
ghost use Rattle.vc_plan.specs.Showing.{slot_of_named};
ghost use Rattle.vc_plan.specs.Pieces.{lies_in};
ghost use Rattle.vc_plan.specs.TableRows.{cell_passes};
ghost use Rattle.vc_plan.specs.declared.plans.Named.TheVariants.{Set, Var};
ghost use Rattle.vc_show.specs.Asking.{is_bare};
ghost use Rattle.vc_show.specs.Places.{slot_of};

use crate::sets;
use vc_plan::{Named, Piece, Plan, Reading, View, element};
use vc_plan_values::lies_in;
use vc_value::Value;

/// Whether two names mean the same.
pub fn same_named(first: Named, second: Named) -> bool
    ensures { result ≡ same_named first second }
{
    match (first, second) {
        (Named::Var(var), Named::Var(other)) => var == other,
        (Named::Set(set), Named::Set(other)) => set == other,
        _ => false,
    }
}

fn slot_of_var(plan: &Plan, var: u32) -> Option<u32>
    ensures { result ≡ slot_of_named plan.now (Var var) }
{
    match element(plan.vars.as_slice(), var) {
        Some(x) => Some(x.slot),
        None => None,
    }
}

fn slot_of_set(plan: &Plan, set: u32) -> Option<u32>
    ensures { result ≡ slot_of_named plan.now (Set set) }
{
    match element(plan.sets.as_slice(), set) {
        Some(x) => Some(x.slot),
        None => None,
    }
}

/// The slot of what the name means, if it means something.
pub fn slot_of_named(plan: &Plan, named: Named) -> Option<u32>
    ensures { result ≡ slot_of_named plan.now named }
{
    match named {
        Named::Var(var) => slot_of_var(plan, var),
        Named::Set(set) => slot_of_set(plan, set),
    }
}

/// The same; 0 where it means nothing.
pub fn slot_of(plan: &Plan, named: Named) -> u32
    ensures { result ≡ slot_of plan.now named }
{
    match slot_of_named(plan, named) {
        Some(slot) => slot,
        None => 0,
    }
}

/// Whether its slot is here.
pub fn is_here<V: View>(plan: &Plan, view: &V, named: Named) -> bool
    ensures { result ≡ is_named_here plan.now (V.seen view.now) named }
{
    match slot_of_named(plan, named) {
        Some(slot) => view.here(slot),
        None => false,
    }
}

/// Whether it has a value, or a text.
pub fn has_value<R: Reading>(plan: &Plan, reading: &R, named: Named) -> bool
    ensures { result ≡ has_value (full_reading plan.now (R.seen reading.now) (R.holdings reading.now)) named }
{
    match named {
        Named::Var(var) => reading.value(var).is_some(),
        Named::Set(set) => sets::is_filled(plan, reading, set),
    }
}

/// Whether it is here without a value.
pub fn is_bare<R: Reading>(plan: &Plan, reading: &R, named: Named) -> bool
    ensures { result ≡ is_bare plan.now (R.seen reading.now)
        (full_reading plan.now (R.seen reading.now) (R.holdings reading.now)) named }
{
    is_here(plan, reading, named) && !has_value(plan, reading, named)
}

fn value_lies_in(value: Option<Value>, piece: Piece) -> bool
    ensures { result ≡ cell_passes (λ a. lies_in a piece) value }
{
    match value {
        Some(value) => lies_in(value, piece),
        None => false,
    }
}

fn has_piece<R: Reading>(plan: &Plan, reading: &R, named: Named, piece: Piece) -> bool
    ensures { result ≡ has_piece (full_reading plan.now (R.seen reading.now) (R.holdings reading.now)) named piece }
{
    match named {
        Named::Var(var) => value_lies_in(reading.value(var), piece),
        Named::Set(set) => sets::has_piece(plan, reading, set, piece),
    }
}

/// Whether it has this value, or one at all where none is named.
pub fn has_guarded<R: Reading>(plan: &Plan, reading: &R, named: Named, value: Option<Piece>) -> bool
    ensures { result ≡ has_guarded (full_reading plan.now (R.seen reading.now) (R.holdings reading.now)) named value }
{
    match value {
        Some(piece) => has_piece(plan, reading, named, piece),
        None => has_value(plan, reading, named),
    }
}
