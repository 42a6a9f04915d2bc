//! What preconditions hide, and what they forbid. Preconditions come by their slots, so a name asks those of its slot.

ghost use Rattle.std.specs.Prelude.{◌≡◌, ◌&&◌, is_none};
ghost use Rattle.std.specs.List.{find, list_any};
ghost use Rattle.vc_plan.specs.Readings.{full_reading};
ghost use Rattle.vc_plan.specs.Showing.{covers, has_guarded, is_forbidden, is_hidden, is_named_here, is_value_hidden};
ghost use Rattle.vc_plan.specs.Showing.{is_violated, same_named};
ghost use Rattle.vc_plan_values.specs.Computing.{LiesInGrains, TermsFit};
ghost use Rattle.vc_show.specs.Fitting.{ShownFits};
ghost use Rattle.vc_show.specs.Places.{is_place_hidden, piece_of};

use crate::guarding::{guards_of, is_forbidden};
use crate::naming::{has_guarded, is_here, same_named, slot_of};
use vc_plan::{Guard, Named, Piece, Plan, Reading};
use vc_plan_values::grains::text_at;
use vc_plan_values::{is_part, piece, texts_of};

// Whether the precondition stands at the name itself.
fn is_own(named: Named, guard: Guard) -> bool
    ensures { result ≡ same_named guard.at named && is_none guard.value }
{
    same_named(guard.at, named) && guard.value.is_none()
}

fn hides<R: Reading>(plan: &Plan, reading: &R, named: Named, guard: Guard) -> bool
    requires fit { TermsFit plan.now }
    requires values { LiesInGrains plan.now (R.seen reading.now) }
    ensures { result ≡ (same_named guard.at named && is_none guard.value) && is_forbidden plan.now
        (full_reading plan.now (R.seen reading.now) (R.holdings reading.now)) guard }
{
    is_own(named, guard) && is_forbidden(plan, reading, guard)
}

fn some_hides<R: Reading>(plan: &Plan, reading: &R, named: Named, guards: &[Guard]) -> bool
    requires fit { TermsFit plan.now }
    requires values { LiesInGrains plan.now (R.seen reading.now) }
    ensures { result ≡ list_any (λ guard. same_named guard.at named && is_none guard.value && is_forbidden plan.now
        (full_reading plan.now (R.seen reading.now) (R.holdings reading.now)) guard) guards.now }
{
    for guard in guards {
        if hides(plan, reading, named, *guard) {
            return true;
        }
    }
    false
}

/// Whether what the name means is hidden: a precondition of its own is false.
pub fn hidden<R: Reading>(plan: &Plan, reading: &R, named: Named) -> bool
    requires fit { ShownFits plan.now }
    requires values { LiesInGrains plan.now (R.seen reading.now) }
    ensures { result ≡ is_hidden plan.now
        (full_reading plan.now (R.seen reading.now) (R.holdings reading.now)) named }
{
    some_hides(plan, reading, named, guards_of(plan, slot_of(plan, named)))
}

fn covers(grain: Piece, value: Option<Piece>) -> bool
    ensures { result ≡ covers grain value }
{
    match value {
        Some(piece) => is_part(grain, piece),
        None => false,
    }
}

// Whether the precondition stands at a value that has the grain.
fn is_at_value(named: Named, grain: Piece, guard: Guard) -> bool
    ensures { result ≡ same_named guard.at named && covers grain guard.value }
{
    same_named(guard.at, named) && covers(grain, guard.value)
}

fn hides_value<R: Reading>(
    plan: &Plan,
    reading: &R,
    named: Named,
    grain: Piece,
    guard: Guard,
) -> bool
    requires fit { TermsFit plan.now }
    requires values { LiesInGrains plan.now (R.seen reading.now) }
    ensures { result ≡ (same_named guard.at named && covers grain guard.value) && is_forbidden plan.now
        (full_reading plan.now (R.seen reading.now) (R.holdings reading.now)) guard }
{
    is_at_value(named, grain, guard) && is_forbidden(plan, reading, guard)
}

fn some_hides_value<R: Reading>(
    plan: &Plan,
    reading: &R,
    named: Named,
    grain: Piece,
    guards: &[Guard],
) -> bool
    requires fit { TermsFit plan.now }
    requires values { LiesInGrains plan.now (R.seen reading.now) }
    ensures { result ≡ list_any (λ guard. same_named guard.at named && covers grain guard.value && is_forbidden plan.now
        (full_reading plan.now (R.seen reading.now) (R.holdings reading.now)) guard) guards.now }
{
    for guard in guards {
        if hides_value(plan, reading, named, grain, *guard) {
            return true;
        }
    }
    false
}

/// Whether the grain of what the name means is hidden: a precondition at a value that has it is false.
pub fn is_value_hidden<R: Reading>(plan: &Plan, reading: &R, named: Named, grain: Piece) -> bool
    requires fit { ShownFits plan.now }
    requires values { LiesInGrains plan.now (R.seen reading.now) }
    ensures { result ≡ is_value_hidden plan.now
        (full_reading plan.now (R.seen reading.now) (R.holdings reading.now)) named grain }
{
    some_hides_value(
        plan,
        reading,
        named,
        grain,
        guards_of(plan, slot_of(plan, named)),
    )
}

fn piece_of(plan: &Plan, named: Named, number: u32) -> Option<Piece>
    ensures { result ≡ piece_of plan.now named number }
{
    match named {
        Named::Var(var) => piece(plan, var, number),
        Named::Set(set) => text_at(texts_of(plan, set), number as usize),
    }
}

/// Whether the grain of the variable, or the text of the set's list, of this number is hidden.
pub fn hidden_value<R: Reading>(plan: &Plan, reading: &R, named: Named, grain: u32) -> bool
    requires fit { ShownFits plan.now }
    requires values { LiesInGrains plan.now (R.seen reading.now) }
    ensures { result ≡ is_place_hidden plan.now
        (full_reading plan.now (R.seen reading.now) (R.holdings reading.now)) named grain }
{
    match piece_of(plan, named, grain) {
        Some(piece) => is_value_hidden(plan, reading, named, piece),
        None => false,
    }
}

// Whether the precondition forbids what its name has: where it is here, and has a value, or that value.
fn concerns<R: Reading>(plan: &Plan, reading: &R, guard: Guard) -> bool
    ensures { result ≡ is_named_here plan.now (R.seen reading.now) guard.at && has_guarded
        (full_reading plan.now (R.seen reading.now) (R.holdings reading.now)) guard.at guard.value }
{
    is_here(plan, reading, guard.at) && has_guarded(plan, reading, guard.at, guard.value)
}

fn is_violated<R: Reading>(plan: &Plan, reading: &R, guard: Guard) -> bool
    requires fit { TermsFit plan.now }
    requires values { LiesInGrains plan.now (R.seen reading.now) }
    ensures { result ≡ is_violated plan.now (R.seen reading.now)
        (full_reading plan.now (R.seen reading.now) (R.holdings reading.now)) guard }
{
    concerns(plan, reading, guard) && is_forbidden(plan, reading, guard)
}

/// The first precondition that is violated.
pub fn first_violated<R: Reading>(plan: &Plan, reading: &R) -> Option<Guard>
    requires fit { TermsFit plan.now }
    requires values { LiesInGrains plan.now (R.seen reading.now) }
    ensures { result ≡ find (is_violated plan.now (R.seen reading.now)
        (full_reading plan.now (R.seen reading.now) (R.holdings reading.now))) plan.now.guards }
{
    for guard in plan.guards.as_slice() {
        if is_violated(plan, reading, *guard) {
            return Some(*guard);
        }
    }
    None
}
